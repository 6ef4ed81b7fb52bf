use crate::case::Case;
use crate::files::{absent_advice, bad_file_advice, fault_advice, include_advice};
use crate::inputs::input_advice;
use crate::printed::{Placed, Said, read_line};
use crate::rules::rule_of;
use crate::shown::text_of;
use crate::usage::usage_advice;
use crate::verdicts::{counts_rule, verdict_rule};
use source_hints::{
    Advice, Source, Spot, spot_of, syntax_slip, tokens_from, tokens_of, unknown_key, unknown_name,
    wrong_arity, wrong_shape,
};
use std::alloc::{AllocError, Global};

/// The name of the source that an explanation wants to show.
pub fn file_to_show<'a>(words: &'a [String], printed: &'a [u8]) -> Option<&'a str> {
    let Ok(text) = str::from_utf8(printed) else {
        return None;
    };
    match read_line(text)? {
        Said::Placed(placed) => Some(placed.file),
        Said::Input { .. } => match words {
            [command, source, ..] if command.as_str() == "witness" => Some(source.as_str()),
            _ => None,
        },
        _ => None,
    }
}

/// What is said on standard error of this answer, with its line feeds; nothing where nothing is
/// known of it.
pub fn explanation(alloc: Global, case: &Case<'_>) -> Result<Option<String>, AllocError> {
    if case.status == 0 {
        return Ok(None);
    }
    let Ok(text) = str::from_utf8(case.printed) else {
        return Ok(None);
    };
    let Some(said) = read_line(text) else {
        return unsaid(alloc, case);
    };
    let file = match said {
        Said::Placed(placed) => placed.file,
        _ => "",
    };
    match advice_of(alloc, case, said)? {
        Some(advice) => Ok(Some(text_of(alloc, &advice, file, case.source)?)),
        None => Ok(None),
    }
}

// Where nothing was printed, standard output failed.
fn unsaid(alloc: Global, case: &Case<'_>) -> Result<Option<String>, AllocError> {
    if case.status != 3 {
        return Ok(None);
    }
    let text = "note: the answer can't be written to standard output\n";
    Ok(Some(String::from_str(alloc, text)?))
}

fn advice_of(alloc: Global, case: &Case<'_>, said: Said<'_>) -> Result<Option<Advice>, AllocError> {
    match said {
        Said::Placed(placed) => placed_advice(alloc, case, placed),
        Said::Input { code, rest } => Ok(Some(input_refused(alloc, case, code, rest)?)),
        Said::NoSuchFile { name } => Ok(Some(absent_advice(alloc, name)?)),
        Said::BadFile { name, code, place } => {
            Ok(Some(bad_file_advice(alloc, name, code, place)?))
        }
        Said::Counts { .. } => Ok(Some(Advice::of(alloc, counts_rule())?)),
        Said::Verdict(line) => match verdict_rule(line) {
            Some(rule) => Ok(Some(Advice::of(alloc, rule)?)),
            None => Ok(None),
        },
        Said::Fault => fault_advice(alloc, case),
        Said::Usage => Ok(Some(usage_advice(alloc, case.words)?)),
    }
}

fn placed_advice(
    alloc: Global,
    case: &Case<'_>,
    placed: Placed<'_>,
) -> Result<Option<Advice>, AllocError> {
    let mut advice = if placed.code == "E3" {
        include_advice(alloc, case)?
    } else {
        match rule_of(placed.code, placed.detail) {
            Some(rule) => Advice::of(alloc, rule)?,
            None => return Ok(None),
        }
    };
    if let Some(bytes) = case.source {
        look_at_source(alloc, bytes, placed, &mut advice)?;
    }
    if advice.spot.is_none() {
        advice.spot = Some(Spot {
            line: placed.line,
            column: placed.column,
            len: 1,
        });
    }
    Ok(Some(advice))
}

// What the source itself shows of the refusal.
fn look_at_source(
    alloc: Global,
    bytes: &[u8],
    placed: Placed<'_>,
    advice: &mut Advice,
) -> Result<(), AllocError> {
    let tokens = tokens_of(alloc, bytes);
    let source = Source {
        bytes,
        tokens: &tokens,
        here: tokens_from(bytes, &tokens, placed.line, placed.column),
    };
    if let Some(token) = source.here.first()
        && placed.code != "E1"
    {
        advice.spot = Some(spot_of(bytes, token));
    }
    match placed.code {
        "E2" => syntax_slip(alloc, source, advice),
        "E6" => unknown_name(alloc, source, advice),
        "E7" => wrong_arity(alloc, source, advice),
        "E22" => wrong_shape(alloc, source, advice),
        _ => Ok(()),
    }
}

fn input_refused(
    alloc: Global,
    case: &Case<'_>,
    code: &str,
    rest: &str,
) -> Result<Advice, AllocError> {
    let mut advice = input_advice(alloc, code, rest)?;
    if code == "I3"
        && let Some(bytes) = case.source
    {
        let tokens = tokens_of(alloc, bytes);
        unknown_key(alloc, &tokens, rest, &mut advice)?;
    }
    Ok(advice)
}
