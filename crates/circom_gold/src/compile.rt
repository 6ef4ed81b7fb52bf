ghost use Rattle.std.specs.Prelude.{◌≡◌, ◌<◌, IfOk, IsErrOf, Ok};
ghost use Rattle.out_io.specs.Faults.{Rose, faults_after};
ghost use Rattle.out_io.specs.declared.fault.IoFault.TheVariants.{Failed};
ghost use Rattle.iden_files.specs.File.{InLimits};
ghost use Rattle.iden_files.specs.ReadR1cs.{r1cs_of};
ghost use Rattle.iden_files.specs.Spelling.{r1cs_bytes};
ghost use Rattle.circom_gold.specs.Answering.{WritesConstraintsOf};
ghost use Rattle.circom_gold.specs.Compile.{CompilesTo};
ghost use Rattle.circom_gold.specs.Reply.{constraints_written};
ghost use Rattle.out_io.specs.Held.{OfAll, OnlyReads};
ghost use Rattle.circom_files.specs.Reply.{Says};
ghost use Rattle.circom_files.specs.Shown.{shown};
ghost use Rattle.circom_files.specs.Steps.{StepsTo};
ghost use Rattle.circom_files.specs.Stops.{faults_by};
ghost use Rattle.circom_words.specs.Words.{meant_options};

use crate::source::stop_of;
use circom_files::{Reply, Stop};
use circom_lines::compiled_line;
use circom_words::Options;
use iden_files::{R1cs, write_r1cs};
use items::Items;
use out_io::{IoFault, Store};
use std::alloc::{AllocError, Global};

/// The reply of `compile`: the file of the source's constraints, under the name `out`. A source
/// that is refused has no file.
pub fn compile_reply<'w, S: Store>(
    alloc: Global,
    source: &str,
    out: &'w str,
    options: Options<'_>,
    store: &mut S,
) -> Result<Reply<'w>, IoFault>
    ensures says { IfOk result (λ r. OfAll (S.may_hold store.new) (λ files.
        Says (constraints_written out.entry.now)
        (λ found. CompilesTo files source.now (meant_options options.entry) found) (shown r))) }
    ensures exactly { IfOk result (λ r. OfAll (S.may_hold store.new) (λ files. r.status ≡ 0
        → WritesConstraintsOf files source.now (meant_options options.entry)
        out.entry.now (shown r))) }
    ensures status { IfOk result (λ r. r.status < 3) }
    ensures fault { IsErrOf result Failed → Rose (S.faults store.old) (S.faults store.new) }
    ensures counted { S.faults store.new ≡ faults_after result (S.faults store.old) }
    ensures store { OnlyReads (S.may_hold store.old) (S.may_hold store.new)
        (S.faults store.old) (S.faults store.new)
        (S.never_fails store.old) (S.never_fails store.new) }
{
    match file_in(alloc, store, source, options) {
        Ok(file) => Ok(compiled(alloc, out, &file)?),
        Err(stop) => stop.reply(alloc),
    }
}

// The file that the source under the name means.
fn file_in<S: Store>(
    alloc: Global,
    store: &mut S,
    name: &str,
    options: Options<'_>,
) -> Result<R1cs, Stop>
    ensures step { StepsTo (λ f. f) (S.may_hold store.new)
        (λ files found. CompilesTo files name.now (meant_options options.entry) found)
        (Rose (S.faults store.old) (S.faults store.new)) result }
    ensures limits { IfOk result InLimits }
    ensures counted { S.faults store.new ≡ faults_by result (S.faults store.old) }
    ensures store { OnlyReads (S.may_hold store.old) (S.may_hold store.new)
        (S.faults store.old) (S.faults store.new)
        (S.never_fails store.old) (S.never_fails store.new) }
{
    match cir_compile::compile(alloc, store, name, options.folder, options.level) {
        Ok(file) => Ok(file),
        Err(fault) => Err(stop_of(alloc, name, fault)),
    }
}

// The reply that writes the file's spelling under the name.
fn compiled<'w>(alloc: Global, out: &'w str, file: &R1cs) -> Result<Reply<'w>, AllocError>
    requires { InLimits file.now }
    ensures reply { IfOk result (λ r. shown r ≡ constraints_written out.entry.now file.now) }
    ensures read_back { IfOk result (λ r. r1cs_of (r1cs_bytes file.now) ≡ Ok file.now) }
{
    let bytes = write_r1cs(alloc, file)?;
    let text = compiled_line(alloc, file.wires, file.constraints().len() as u32)?;
    Ok(Reply::written(text, out, Items::of(bytes)))
}
