//! What holds of the lines of every source that compiles, as contracts of functions that do
//! nothing.
ghost use Rattle.std.specs.Prelude.{◌≡◌, List, Ok};
ghost use Rattle.std.specs.List.{AllByRecursion};
ghost use Rattle.out_io.specs.Contents.{Contents};
ghost use Rattle.iden_files.specs.File.{File as AFile};
ghost use Rattle.cir_ast.specs.Program.{Program};
ghost use Rattle.cir_compile.specs.Compiled.{IsCompiled, Task};
ghost use Rattle.cir_inst.specs.Compiled.{Instantiates};
ghost use Rattle.cir_inst.specs.declared.circuit.Circuit.{Circuit as ACircuit};
ghost use Rattle.cir_lexer.specs.Spelling.{is_identifier};
ghost use Rattle.cir_row_names.specs.Rows.{IsNamedProgram};
ghost use Rattle.cir_symbols.specs.Symbols.{AreNamesOf, HasWireOf};
ghost use Rattle.sym_file.specs.declared.line.SymLine.{SymLine as ASymLine};
ghost use Rattle.sym_file.specs.Table.{CanAllBeNamed};

/// Where names are identifiers, as those of every loaded program are, each signal of the circuit
/// that a program compiles to can be named.
pub fn circuits_can_be_named()
    ensures { (p : Program) (c : ACircuit) → IsNamedProgram is_identifier p
        → Instantiates p (Ok c)
        → CanAllBeNamed c.signals c.instances }
{}

/// Over the same files a source has one list of lines at a level.
pub fn sources_have_one_list()
    ensures { (files : Contents) (task : Task) (a b : List ASymLine)
        → AreNamesOf files task a → AreNamesOf files task b → a ≡ b }
{}

/// The wire of a line is the one that has the line's label in the file that the source is compiled
/// to at the same level.
pub fn wires_are_those_of_the_file()
    ensures { (files : Contents) (task : Task) (file : AFile) (lines : List ASymLine)
        → IsCompiled files task file → AreNamesOf files task lines
        → AllByRecursion (HasWireOf file.labels) lines }
{}
