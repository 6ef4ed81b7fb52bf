//! The command `sym`.

ghost use Rattle.std.specs.Prelude.{◌≡◌, ◌<◌, IfOk, IsErrOf};
ghost use Rattle.out_io.specs.Faults.{Rose, faults_after};
ghost use Rattle.out_io.specs.declared.fault.IoFault.TheVariants.{Failed};
ghost use Rattle.out_io.specs.Held.{OfAll, OnlyReads};
ghost use Rattle.circom_files.specs.Reply.{Says};
ghost use Rattle.circom_files.specs.Shown.{shown};
ghost use Rattle.circom_files.specs.Stops.{faults_by};
ghost use Rattle.circom_gold.specs.Symbols.{NamesBy, NamesIn, NamesTo, WritesNames};
ghost use Rattle.circom_gold.specs.Symbols.{names_written};
ghost use Rattle.cir_compile.specs.Compiled.{faults_by as compile_faults};
ghost use Rattle.circom_words.specs.Words.{meant_options};

use crate::source::stop_of;
use cir_compile::CompileFault;
use cir_names::load;
use cir_symbols::{Symbols, symbols_of};
use circom_files::{Reply, Stop};
use circom_words::Options;
use out_io::{IoFault, Store};
use std::alloc::Global;

/// The reply of `sym`: the lines that name the source's signals, under the name `out`. A source
/// that is refused has none.
pub fn symbols_reply<'w, S: Store>(
    alloc: Global,
    source: &str,
    out: &'w str,
    options: Options<'_>,
    store: &mut S,
) -> Result<Reply<'w>, IoFault>
    ensures says { IfOk result (λ r. OfAll (S.may_hold store.new) (λ files.
        Says (names_written out.entry.now)
        (λ found. NamesTo files source.now (meant_options options.entry) found) (shown r))) }
    ensures names { IfOk result (λ r. OfAll (S.may_hold store.new) (λ files. r.status ≡ 0
        → WritesNames files source.now (meant_options options.entry)
        out.entry.now (shown r))) }
    ensures status { IfOk result (λ r. r.status < 3) }
    ensures fault { IsErrOf result Failed → Rose (S.faults store.old) (S.faults store.new) }
    ensures counted { S.faults store.new ≡ faults_after result (S.faults store.old) }
    ensures store { OnlyReads (S.may_hold store.old) (S.may_hold store.new)
        (S.faults store.old) (S.faults store.new)
        (S.never_fails store.old) (S.never_fails store.new) }
{
    match symbols_in(alloc, store, source, options) {
        Ok(symbols) => {
            let Symbols { count, text } = symbols;
            Ok(Reply::symbols_written(alloc, out, count, text)?)
        }
        Err(stop) => stop.reply(alloc),
    }
}

// The lines that name the signals of the source under the name.
fn symbols_in<S: Store>(
    alloc: Global,
    store: &mut S,
    name: &str,
    options: Options<'_>,
) -> Result<Symbols, Stop>
    ensures step { NamesIn (S.may_hold store.new) name.now (meant_options options.entry)
        (Rose (S.faults store.old) (S.faults store.new)) result }
    ensures counted { S.faults store.new ≡ faults_by result (S.faults store.old) }
    ensures store { OnlyReads (S.may_hold store.old) (S.may_hold store.new)
        (S.faults store.old) (S.faults store.new)
        (S.never_fails store.old) (S.never_fails store.new) }
{
    match named_in(alloc, store, name, options) {
        Ok(symbols) => Ok(symbols),
        Err(fault) => Err(stop_of(alloc, name, fault)),
    }
}

fn named_in<S: Store>(
    alloc: Global,
    store: &mut S,
    name: &str,
    options: Options<'_>,
) -> Result<Symbols, CompileFault>
    ensures names { NamesBy (S.may_hold store.new) name.now (meant_options options.entry)
        (Rose (S.faults store.old) (S.faults store.new)) result }
    ensures counted { S.faults store.new ≡ compile_faults result (S.faults store.old) }
    ensures store { OnlyReads (S.may_hold store.old) (S.may_hold store.new)
        (S.faults store.old) (S.faults store.new)
        (S.never_fails store.old) (S.never_fails store.new) }
{
    let program = load(alloc, store, name, options.folder)?;
    symbols_of(alloc, &program, options.level)
}
