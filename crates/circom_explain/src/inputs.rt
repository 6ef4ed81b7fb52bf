//! Refusals of inputs and of public values.

use source_hints::Advice;
use std::alloc::{AllocError, Global};

/// What is said of a refusal of the inputs, by its code and what stands behind the kind's name.
pub fn input_advice(alloc: Global, code: &str, rest: &str) -> Result<Advice, AllocError> {
    let mut advice = Advice::new(alloc);
    match code {
        "I1" => {
            advice.note(&["the file isn't one JSON object with a key for each input of main"])?;
            advice.help(&["{\"a\": 3, \"b\": [1, 2]}; the public values are one array: [33]"])?;
        }
        "I2" => {
            advice.note(&[
                "main has an input ",
                rest,
                ", and the file has no key of that name",
            ])?;
            advice.help(&[
                "add \"",
                rest,
                "\": and its number, or an array of all its elements",
            ])?;
        }
        "I3" => {
            advice.note(&[
                "the file has a key ",
                rest,
                ", and main has no input of that name",
            ])?;
            advice.help(&["take it out, or spell it as the source does"])?;
        }
        "I4" => add_counts(&mut advice, rest)?,
        "B1" => {
            advice.note(&[
                "a line counts the circuit's cells, its steps and 64; all lines, \
                33554432 at most",
            ])?;
            advice.help(&["split the file of inputs"])?;
        }
        _ => {
            advice.note(&["a number is decimal digits or 0x and hexadecimal digits; see "])?;
            add_indexed(&mut advice, rest)?;
            advice.help(&["numbers of 2^64 and more stand in quotes, and are below 2^128"])?;
        }
    }
    Ok(advice)
}

// `NAME HAS WANTS`
fn add_counts(advice: &mut Advice, rest: &str) -> Result<(), AllocError> {
    let Some((front, wants)) = rest.rsplit_once(' ') else {
        return Ok(());
    };
    let Some((name, has)) = front.rsplit_once(' ') else {
        return Ok(());
    };
    advice.note(&[name, " has ", has, " values in the file, and takes ", wants])?;
    advice.help(&["an array of several dimensions may be written as one row of all elements"])
}

// `NAME INDEX`
fn add_indexed(advice: &mut Advice, rest: &str) -> Result<(), AllocError> {
    match rest.rsplit_once(' ') {
        Some((name, index)) => advice.note(&["value ", index, " of ", name, ", counted from 0"]),
        None => advice.note(&[rest]),
    }
}
