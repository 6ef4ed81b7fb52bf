//! What holds of the signals of every program that compiles, as the contract of a function that
//! does nothing.
ghost use Rattle.std.specs.Prelude.{◌≡◌, map, Ok};
ghost use Rattle.cir_ast.specs.Program.{Program};
ghost use Rattle.cir_lexer.specs.Spelling.{is_identifier};
ghost use Rattle.cir_meaning.specs.Compile.{Circuit, compiled};
ghost use Rattle.cir_row_names.specs.Rows.{IsNamedProgram};
ghost use Rattle.cir_signal_names.specs.Table.{entry_of};
ghost use Rattle.cir_values.specs.declared.signals.Signals.{Signals as AnySignals};
ghost use Rattle.sym_file.specs.Table.{CanAllBeNamed};

/// Where names are identifiers, each signal of what a program compiles to has a name, and one of
/// the instances that are created; its base and the instance's path can stand in a line.
pub fn signals_can_be_named()
    ensures { (p : Program) (c : Circuit) (signals : AnySignals)
        → IsNamedProgram is_identifier p → compiled p ≡ Ok c
        → map entry_of signals.names ≡ c.names
        → CanAllBeNamed signals c.instances }
{}
