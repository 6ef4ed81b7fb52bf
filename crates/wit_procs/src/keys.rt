//! All that functions call.
ghost use Rattle.std.specs.Prelude.{map, OnOk};
ghost use Rattle.cir_ast.specs.Program.{bare_program};
ghost use Rattle.cir_rules.specs.Shown.{made_of};
ghost use Rattle.wit_procs.specs.Table.{Grows, AreClosed};

use cir_ast::program::Program;
use cir_rules::{CallTable, add_called};
use std::alloc::{AllocError, Global};

/// Adds all that is called from the keys from a place on.
pub fn add_reached(
    alloc: Global,
    program: &Program,
    keys: &mut CallTable,
    from: usize,
) -> Result<(), AllocError>
    ensures grows { OnOk result (Grows (map made_of keys.old.calls.items)
        (map made_of keys.new.calls.items)) }
    ensures closed { OnOk result (AreClosed (bare_program program.now) from
        (map made_of keys.new.calls.items)) }
{
    let mut at = from;
    'visits: while at < keys.calls.len() {
        add_called(alloc, program, at, keys)?;
        at += 1;
    }
    Ok(())
}
