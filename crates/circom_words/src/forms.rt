//! The commands as `clap` sees them.

ghost use Rattle.std.specs.Prelude.{◌≡◌, IfOk, true};
ghost use Rattle.clap.specs.Faults.{is_simple_and_free};
ghost use Rattle.clap.specs.Simple.{app_of};
ghost use Rattle.circom_words.specs.Forms.{given, folder, flag, valued, seed, two_form, three_form};
ghost use Rattle.circom_words.specs.Forms.{with_levels, with_options, with_running, check_form};
ghost use Rattle.circom_words.specs.Forms.{compile_form, prove_form, public_form, audit_form};
ghost use Rattle.circom_words.specs.Forms.{witness_form, batch_form, generate_form};
ghost use Rattle.circom_words.specs.Forms.{sym_form, determine_form, confirm_form};
ghost use Rattle.circom_words.specs.Matches.{IsArg};

use clap::{Arg, ArgAction};
use std::alloc::{AllocError, Global};

// A word that must be given.
fn given<'w>(alloc: Global, name: &'static str) -> Arg<'w>
    ensures { IsArg (given name.entry.now) result }
{
    Arg::new(alloc, name).required(true)
}

// `-l DIR`.
fn folder<'w>(alloc: Global) -> Arg<'w>
    ensures { IsArg folder result }
{
    Arg::new(alloc, "DIR").short('l')
}

// `--NAME`, without a value
fn flag<'w>(alloc: Global, name: &'static str) -> Arg<'w>
    ensures { IsArg (flag name.entry.now) result }
{
    Arg::new(alloc, name).long(name).action(ArgAction::SetTrue)
}

// `--NAME VALUE`
fn valued<'w>(alloc: Global, name: &'static str) -> Arg<'w>
    ensures { IsArg (valued name.entry.now) result }
{
    Arg::new(alloc, name).long(name)
}

// `--seed HEX`, which must be given.
fn seed<'w>(alloc: Global) -> Arg<'w>
    ensures { IsArg seed result }
{
    valued(alloc, "seed").required(true)
}

// A command with two names.
fn two_form<'w>(
    alloc: Global,
    command: &'static str,
    first: &'static str,
    second: &'static str,
) -> Result<clap::Command<'w>, AllocError>
    ensures { IfOk result (λ form. app_of form
        ≡ two_form command.entry.now first.entry.now second.entry.now) }
{
    let form = clap::Command::new(alloc, command)
        .arg(given(alloc, first))?
        .arg(given(alloc, second))?;
    Ok(form)
}

// A command with three names.
fn three_form<'w>(
    alloc: Global,
    command: &'static str,
    first: &'static str,
    second: &'static str,
    third: &'static str,
) -> Result<clap::Command<'w>, AllocError>
    ensures { IfOk result (λ form. app_of form
        ≡ three_form command.entry.now first.entry.now second.entry.now third.entry.now) }
{
    let form = two_form(alloc, command, first, second)?.arg(given(alloc, third))?;
    Ok(form)
}

// `[--O0, --O1 or --O2]`
fn with_levels<'w>(alloc: Global, form: clap::Command<'w>) -> Result<clap::Command<'w>, AllocError>
    ensures { IfOk result (λ made. app_of made ≡ with_levels (app_of form.entry)) }
{
    let form = form
        .arg(flag(alloc, "O0"))?
        .arg(flag(alloc, "O1"))?
        .arg(flag(alloc, "O2"))?;
    Ok(form)
}

// `[--O0, --O1 or --O2] [-l DIR]`
fn with_options<'w>(alloc: Global, form: clap::Command<'w>) -> Result<clap::Command<'w>, AllocError>
    ensures { IfOk result (λ made. app_of made ≡ with_options (app_of form.entry)) }
{
    let form = with_levels(alloc, form)?.arg(folder(alloc))?;
    Ok(form)
}

// `[--workers N] [--fuel N]`
fn with_running<'w>(alloc: Global, form: clap::Command<'w>) -> Result<clap::Command<'w>, AllocError>
    ensures { IfOk result (λ made. app_of made ≡ with_running (app_of form.entry)) }
{
    let form = form
        .arg(valued(alloc, "workers"))?
        .arg(valued(alloc, "fuel"))?;
    Ok(form)
}

/// `check R1CS WTNS [--sym SYM]`
#[tactic(auto, unfolding(crate::specs::Forms::check_form))]
pub fn check_form<'w>(alloc: Global) -> Result<clap::Command<'w>, AllocError>
    ensures form { IfOk result (λ form. app_of form ≡ check_form) }
    ensures simple { IfOk result (λ form. is_simple_and_free (app_of form) ≡ true) }
{
    let form = two_form(alloc, "check", "R1CS", "WTNS")?.arg(valued(alloc, "sym"))?;
    Ok(form)
}

/// `compile SRC OUT [--O0, --O1 or --O2] [-l DIR]`
#[tactic(auto, unfolding(crate::specs::Forms::compile_form))]
pub fn compile_form<'w>(alloc: Global) -> Result<clap::Command<'w>, AllocError>
    ensures form { IfOk result (λ form. app_of form ≡ compile_form) }
    ensures simple { IfOk result (λ form. is_simple_and_free (app_of form) ≡ true) }
{
    let form = two_form(alloc, "compile", "SRC", "OUT")?;
    with_options(alloc, form)
}

/// `prove R1CS WTNS OUT --seed HEX [--proof 1 or 2]`
#[tactic(auto, unfolding(crate::specs::Forms::prove_form))]
pub fn prove_form<'w>(alloc: Global) -> Result<clap::Command<'w>, AllocError>
    ensures form { IfOk result (λ form. app_of form ≡ prove_form) }
    ensures simple { IfOk result (λ form. is_simple_and_free (app_of form) ≡ true) }
{
    let form = three_form(alloc, "prove", "R1CS", "WTNS", "OUT")?
        .arg(seed(alloc))?
        .arg(valued(alloc, "proof"))?;
    Ok(form)
}

/// `public R1CS WTNS OUT`
#[tactic(auto, unfolding(crate::specs::Forms::public_form))]
pub fn public_form<'w>(alloc: Global) -> Result<clap::Command<'w>, AllocError>
    ensures form { IfOk result (λ form. app_of form ≡ public_form) }
    ensures simple { IfOk result (λ form. is_simple_and_free (app_of form) ≡ true) }
{
    three_form(alloc, "public", "R1CS", "WTNS", "OUT")
}

/// `audit R1CS PUBLIC PROOF`
#[tactic(auto, unfolding(crate::specs::Forms::audit_form))]
pub fn audit_form<'w>(alloc: Global) -> Result<clap::Command<'w>, AllocError>
    ensures form { IfOk result (λ form. app_of form ≡ audit_form) }
    ensures simple { IfOk result (λ form. is_simple_and_free (app_of form) ≡ true) }
{
    three_form(alloc, "audit", "R1CS", "PUBLIC", "PROOF")
}

/// `sym SRC OUT [--O0, --O1 or --O2] [-l DIR]`
#[tactic(auto, unfolding(crate::specs::Forms::sym_form))]
pub fn sym_form<'w>(alloc: Global) -> Result<clap::Command<'w>, AllocError>
    ensures form { IfOk result (λ form. app_of form ≡ sym_form) }
    ensures simple { IfOk result (λ form. is_simple_and_free (app_of form) ≡ true) }
{
    let form = two_form(alloc, "sym", "SRC", "OUT")?;
    with_options(alloc, form)
}

/// `determine R1CS OUT`
#[tactic(auto, unfolding(crate::specs::Forms::determine_form))]
pub fn determine_form<'w>(alloc: Global) -> Result<clap::Command<'w>, AllocError>
    ensures form { IfOk result (λ form. app_of form ≡ determine_form) }
    ensures simple { IfOk result (λ form. is_simple_and_free (app_of form) ≡ true) }
{
    two_form(alloc, "determine", "R1CS", "OUT")
}

/// `confirm R1CS CERT`
#[tactic(auto, unfolding(crate::specs::Forms::confirm_form))]
pub fn confirm_form<'w>(alloc: Global) -> Result<clap::Command<'w>, AllocError>
    ensures form { IfOk result (λ form. app_of form ≡ confirm_form) }
    ensures simple { IfOk result (λ form. is_simple_and_free (app_of form) ≡ true) }
{
    two_form(alloc, "confirm", "R1CS", "CERT")
}

/// `witness SRC INPUT OUT [--O0, --O1 or --O2] [-l DIR] [--workers N] [--fuel N]`
#[tactic(auto, unfolding(crate::specs::Forms::witness_form))]
pub fn witness_form<'w>(alloc: Global) -> Result<clap::Command<'w>, AllocError>
    ensures form { IfOk result (λ form. app_of form ≡ witness_form) }
    ensures simple { IfOk result (λ form. is_simple_and_free (app_of form) ≡ true) }
{
    let form = three_form(alloc, "witness", "SRC", "INPUT", "OUT")?;
    let form = with_options(alloc, form)?;
    with_running(alloc, form)
}

/// `batch SRC INPUTS OUT [--O0, --O1 or --O2] [-l DIR] [--workers N] [--fuel N]`
#[tactic(auto, unfolding(crate::specs::Forms::batch_form))]
pub fn batch_form<'w>(alloc: Global) -> Result<clap::Command<'w>, AllocError>
    ensures form { IfOk result (λ form. app_of form ≡ batch_form) }
    ensures simple { IfOk result (λ form. is_simple_and_free (app_of form) ≡ true) }
{
    let form = three_form(alloc, "batch", "SRC", "INPUTS", "OUT")?;
    let form = with_options(alloc, form)?;
    with_running(alloc, form)
}

/// `generate SEED SIZE [--workers N] [--fuel N]`
#[tactic(auto, unfolding(crate::specs::Forms::generate_form))]
pub fn generate_form<'w>(alloc: Global) -> Result<clap::Command<'w>, AllocError>
    ensures form { IfOk result (λ form. app_of form ≡ generate_form) }
    ensures simple { IfOk result (λ form. is_simple_and_free (app_of form) ≡ true) }
{
    let form = two_form(alloc, "generate", "SEED", "SIZE")?;
    with_running(alloc, form)
}
