ghost use Rattle.std.specs.Prelude.{◌≡◌, ◌≢◌, ◌↔◌, ℕ, List, Option, Some};
ghost use Rattle.std.specs.Prelude.{Result, Ok, IsSomeAnd};
ghost use Rattle.out_io.specs.Contents.{Contents};
ghost use Rattle.iden_files.specs.File.{File};
ghost use Rattle.cir_names.specs.Asking.{IsUnasked};
ghost use Rattle.cir_compile.specs.Compiled.{IsCompiled};
ghost use Rattle.lig_proof.specs.declared.verdict.Verdict.TheVariants.{Accepted};
ghost use Rattle.circom_files.specs.Accepted.{IsAccepted};
ghost use Rattle.circom_files.specs.Check.{check_of};
ghost use Rattle.circom_files.specs.Reply.{Reply, said};
ghost use Rattle.circom_files.specs.Running.{halted};
ghost use Rattle.circom_files.specs.declared.outcome.Halt.{Halt};
ghost use Rattle.circom_files.specs.declared.outcome.Ran.TheVariants.{Halted};
ghost use Rattle.circom_gold.specs.Compile.{AreConstraintsOf, CompilesTo, LoadsAgain, task_of};
ghost use Rattle.circom_gold.specs.Reply.{Answers, AreOne, constraints_written};
ghost use Rattle.circom_gold.specs.Run.{IsReplied};
ghost use Rattle.circom_gold.specs.Witness.{HasWitness, IsWitnessOf, IsWitnessed};
ghost use Rattle.cir_determined.specs.declared.rule.Confirm.TheVariants.{Confirmed};
ghost use Rattle.circom_lines.specs.Determining.{confirmed_line};
ghost use Rattle.circom_lines.specs.Lines.{verdict_line};
ghost use Rattle.circom_lines.specs.Proving.{audit_line};
ghost use Rattle.circom_words.specs.Words.{Command, Options, ProveOptions, audit, check, compile};
ghost use Rattle.circom_words.specs.Words.{confirm, determine, prove, public, witness};
ghost use Rattle.circom_lines.specs.declared.answer.Refusal.{Refusal};
ghost use Rattle.circom_lines.specs.declared.answer.Verdict.TheVariants.{Satisfied};
ghost use Rattle.circom_words.specs.declared.options.RunOptions.{RunOptions};

/// The reply to a command over given files is one, status, text and file, but for which of the
/// rules that show it `determine` writes.
pub fn one_reply()
    ensures { (files : Contents) (command : Option Command) (a b : Reply)
        → Answers files command a → Answers files command b
        → AreOne command files a b }
{}

/// What a reply to `compile` means. It is that of what the source compiles to, its file or its
/// first refusal; and its status is 0 exactly where the source compiles.
pub fn compile_laws()
    ensures reply { (files : Contents) (source out : List ℕ) (options : Options) (r : Reply)
        (found : Result File Refusal)
        → Answers files (Some (compile source out options)) r
        → CompilesTo files source options found → r ≡ said (constraints_written out) found }
    ensures status { (files : Contents) (source out : List ℕ) (options : Options) (r : Reply)
        → Answers files (Some (compile source out options)) r
        → (r.status ≡ 0) ↔ ((f : File) × IsCompiled files (task_of source options) f) }
{}

/// What a reply to `witness` means. Its status is 0 exactly where the source compiles, the input is
/// read and the run of the source's program doesn't stop. It then writes the values of the run, of
/// each wire that of the signal that its label names, and these satisfy the file that the source
/// compiles to. Where the run stops, the reply is its log lines and why and where it stops.
pub fn witness_laws()
    ensures status { (files : Contents) (source input out : List ℕ) (options : Options)
        (running : RunOptions) (r : Reply)
        → Answers files (Some (witness source input out options running)) r
        → (r.status ≡ 0) ↔ HasWitness files source input options running.fuel }
    ensures written { (files : Contents) (source input out : List ℕ) (options : Options)
        (running : RunOptions) (r : Reply)
        → Answers files (Some (witness source input out options running)) r
        → r.status ≡ 0 → IsSomeAnd r.file (λ file. (file.name ≡ out)
        × IsWitnessOf files source input options running.fuel file.bytes) }
    ensures halted { (files : Contents) (source input out : List ℕ) (options : Options)
        (running : RunOptions) (r : Reply) (h : Halt)
        → Answers files (Some (witness source input out options running)) r
        → IsWitnessed files source input options running.fuel (Halted h) → r ≡ halted h }
{}

/// The status of a reply to `audit` is 0 exactly where the files hold what is accepted.
pub fn audit_laws()
    ensures { (files : Contents) (r1cs publics proof : List ℕ) (r : Reply)
        → Answers files (Some (audit r1cs publics proof)) r
        → (r.status ≡ 0) ↔ IsAccepted files r1cs publics proof }
{}

/// `check` of a file that `compile` writes and of one that `witness` writes, from the same source
/// at the same level, says that it is satisfied. Files may have been written between the two, but
/// none by which the source would load as another program.
pub fn check_accepts_witnesses()
    ensures { (first second after : Contents) (source input r1cs wtns : List ℕ)
        (options : Options) (fuel : ℕ) → LoadsAgain first second source options
        → IsSomeAnd (after r1cs) (AreConstraintsOf first source options)
        → IsSomeAnd (after wtns) (IsWitnessOf second source input options fuel)
        → check_of after r1cs wtns ≡ Ok Satisfied }
{}

/// `compile`, `witness` and `check`, one after the other, each over the files that the last one
/// left: where the first two are a success, of the same source at the same level, and write files
/// of two names, of which the loading of the source doesn't ask for the first, the values satisfy
/// the constraints.
pub fn compile_witness_check()
    ensures { (first second third last : Contents) (source input r1cs wtns : List ℕ)
        (options : Options) (running : RunOptions) (exit : ℕ) (compiled witnessed said : List ℕ)
        → IsReplied (Some (compile source r1cs options)) first second 0 compiled
        → IsReplied (Some (witness source input wtns options running)) second third 0 witnessed
        → IsReplied (Some (check r1cs wtns)) third last exit said
        → IsUnasked first source options.folder r1cs → wtns ≢ r1cs
        → (exit ≡ 0) × (said ≡ verdict_line Satisfied) }
{}

/// `prove`, `public` and `audit`, one after the other, each over the files that the last one left:
/// where the first two are a success and write files of other names, what is proved is accepted.
pub fn prove_public_audit()
    ensures { (first second third last : Contents) (r1cs wtns publics proof : List ℕ)
        (options : ProveOptions) (exit : ℕ) (proved published said : List ℕ)
        → IsReplied (Some (prove r1cs wtns proof options)) first second 0 proved
        → IsReplied (Some (public r1cs wtns publics)) second third 0 published
        → IsReplied (Some (audit r1cs publics proof)) third last exit said
        → proof ≢ r1cs → proof ≢ wtns → publics ≢ r1cs → publics ≢ proof
        → (exit ≡ 0) × (said ≡ audit_line Accepted) }
{}

/// `determine` and `confirm`, one after the other: rules that the first writes, under another name
/// than that of the constraints, are confirmed.
pub fn determine_confirm()
    ensures { (first second last : Contents) (r1cs certificate : List ℕ) (exit : ℕ)
        (found said : List ℕ)
        → IsReplied (Some (determine r1cs certificate)) first second 0 found
        → IsReplied (Some (confirm r1cs certificate)) second last exit said
        → certificate ≢ r1cs → (exit ≡ 0) × (said ≡ confirmed_line Confirmed) }
{}
