//! What holds of every source's compilation, as the contract of a function that does nothing.
ghost use Rattle.std.specs.Prelude.{◌≡◌, None};
ghost use Rattle.out_io.specs.Contents.{Contents};
ghost use Rattle.iden_files.specs.File.{File};
ghost use Rattle.cir_ast.specs.declared.refusal.Refusal.{Refusal};
ghost use Rattle.cir_compile.specs.Compiled.{IsCompiled, IsRefused, Task};

/// Over the same files a source has one answer: one file, or one refusal of one kind and place, and
/// there are not both, nor one of them where there is no file of the source's name.
pub fn one_compilation()
    ensures file { (files : Contents) (task : Task) (f g : File) →
        IsCompiled files task f → IsCompiled files task g → f ≡ g }
    ensures refusal { (files : Contents) (task : Task) (r s : Refusal) →
        IsRefused files task r → IsRefused files task s → r ≡ s }
    ensures either { (files : Contents) (task : Task) (f : File) (r : Refusal) →
        IsCompiled files task f → IsRefused files task r → ⊥ }
    ensures there { (files : Contents) (task : Task) (f : File) →
        files task.name ≡ None → IsCompiled files task f → ⊥ }
    ensures missing { (files : Contents) (task : Task) (r : Refusal) →
        files task.name ≡ None → IsRefused files task r → ⊥ }
{}
