//! Each kind of refusal: the rule that was broken, and what mostly mends it.

use source_hints::Rule;

fn says(note: &'static str, help: &'static str) -> Option<Rule> {
    Some(Rule { note, help })
}

/// The rule of a refusal at a place, by its code and by what stands behind it.
pub fn rule_of(code: &str, detail: &str) -> Option<Rule> {
    if code.starts_with('W') {
        return stop_rule(code);
    }
    match code {
        "E1" => lexical_rule(detail),
        "E19" => limit_rule(detail),
        "E21" => form_rule(detail),
        "E2" | "E3" | "E4" | "E5" | "E6" | "E7" | "E8" => name_rule(code),
        _ => execution_rule(code),
    }
}

// The rules that a run breaks.
fn stop_rule(code: &str) -> Option<Rule> {
    match code {
        "W1" => says(
            "the two sides of this equation differ on these inputs",
            "log(..) before it prints both sides; a constraint changes no value",
        ),
        "W2" => says(
            "this condition is 0 on these inputs",
            "an assert says which inputs are allowed; log(..) before it prints the values",
        ),
        "W3" => says(
            "this divides by 0 on these inputs",
            "choose where the divisor may be 0: x != 0 ? 1 / x : 0",
        ),
        "W4" => says(
            "an index isn't below its dimension on these inputs",
            "log(..) before it prints the index; an assert before it says which ones are allowed",
        ),
        "W5" => says(
            "this step takes more turns of loops and calls than it has units",
            "give it more: --fuel N, up to 4294967295; or look whether its loop ends",
        ),
        "W6" => says(
            "calls of functions lie more than 256 deep here",
            "write the recursion as a loop",
        ),
        _ => None,
    }
}

fn lexical_rule(detail: &str) -> Option<Rule> {
    match detail {
        "Lexical BadChar" => says(
            "no token begins with this byte",
            "take it out; names are made of ASCII letters, digits, _ and $",
        ),
        "Lexical OpenComment" => says("this comment has no end", "end it by */"),
        "Lexical OpenString" => says(
            "this string has no end in its line",
            "end it by \" in the same line",
        ),
        "Lexical NumberTooWide" => says(
            "a number in a source is below 2^128",
            "write it modulo p = 2^64 - 2^32 + 1: constants for another field mean nothing here",
        ),
        _ => None,
    }
}

// The rules on syntax, files and names.
fn name_rule(code: &str) -> Option<Rule> {
    match code {
        "E2" => says(
            "this item isn't of the grammar",
            "docs/language.md has the grammar, and docs/from-circom.md what is left out of it",
        ),
        "E3" => says("this file isn't there", "give its folder: -l DIR"),
        "E4" => says(
            "a name is declared once in its block, and a template or function once in a program",
            "take another name for one of the two; an inner block { } may hide an outer name",
        ),
        "E5" => says(
            "a program has one main component, in all of its files",
            "one of the files has it, mostly at its end: component main = NAME(..);",
        ),
        "E6" => says(
            "a name in this statement is declared nowhere that it sees",
            "declare it before this statement, or include the file that has it",
        ),
        "E7" => says(
            "a call has as many arguments as there are parameters",
            "give each parameter one argument",
        ),
        "E8" => says(
            "a name is used here as another kind of thing than it is",
            "signals are written by <== or <--, variables by =; templates are called where a \
            component is made; of a component one sees its inputs and outputs alone",
        ),
        _ => None,
    }
}

// The rules that are broken as a program is executed by the compiler.
fn execution_rule(code: &str) -> Option<Rule> {
    match code {
        "E9" | "E10" | "E11" => known_rule(code),
        "E12" | "E13" | "E14" | "E15" => write_rule(code),
        "E16" => says(
            "an index is a number below its dimension",
            "indices count from 0: s[n - 1] is the last of s[n]",
        ),
        "E17" => says(
            "this divides by 0 as the source is compiled",
            "look at the template's arguments, or choose: n != 0 ? 1 / n : 0",
        ),
        "E18" => says(
            "this condition is 0 as the source is compiled",
            "the assert says which arguments a template may have, so look at the call of it",
        ),
        "E20" => says(
            "templates, or calls of functions, lie more than 256 deep here",
            "use a loop over an array of components; or the recursion has no end",
        ),
        "E22" => says(
            "both sides of an assignment have one shape, and operators take numbers alone",
            "assign element by element, in a loop",
        ),
        _ => None,
    }
}

// The rules on what has to be known when a source is compiled.
fn known_rule(code: &str) -> Option<Rule> {
    match code {
        "E9" => says(
            "which signals and constraints there are can't depend on a signal",
            "compute both and choose with a bit: o <== bit*(x - y) + y",
        ),
        "E10" => says(
            "which signal or component is meant has to be known as the source is compiled",
            "take a known index, or choose among all elements: circuits/select.circom",
        ),
        "E11" => says(
            "a constraint is linear but for one product of two linear sums",
            "name a part: signal t; t <== a*b; and then o <== t*c. What has no such form is \
            written by <-- and constrained by === in a line of its own",
        ),
        _ => None,
    }
}

// The rules on what is written, and when.
fn write_rule(code: &str) -> Option<Rule> {
    match code {
        "E12" => says(
            "a signal is read before it is written, or an output before all of its component's \
            inputs",
            "move the line that writes it up",
        ),
        "E13" => says(
            "a signal is written once",
            "write another signal, or an element for each value; === constrains without a write",
        ),
        "E14" => says(
            "each output and each inner signal is written in its template",
            "write it by <==, or take the declaration out",
        ),
        "E15" => says(
            "each input of a component is written where the component was made",
            "write all its inputs behind this line: c.x <== ..",
        ),
        _ => None,
    }
}

// The limits. Behind the kind's name stand what is counted and the count.
fn limit_rule(detail: &str) -> Option<Rule> {
    let fit = "docs/from-circom.md says how limits are met by style";
    let counted = detail.strip_prefix("Limit ")?;
    match counted.split_once(' ')?.0 {
        "Source" => says(
            "a file has at most 16,777,216 bytes",
            "cut it into several files",
        ),
        "Files" => says(
            "a program has at most 1,024 files",
            "put small ones together",
        ),
        "Signals" => says("a program has at most 1,048,575 signals", fit),
        "Constraints" => says("a program has at most 1,048,576 constraints", fit),
        "Terms" => says("the constraints have too many terms in all", fit),
        "Elements" => says("an array has too many elements", fit),
        "Cells" => says("the steps of a run write at most 2,097,152 numbers", fit),
        "Steps" => says(
            "a program has at most 2,097,152 statements that wait for the run",
            fit,
        ),
        "Nodes" => says(
            "the statements that wait for the run have at most 33,554,432 nodes in all",
            fit,
        ),
        "Reads" => says("the steps of a run read at most 16,777,216 numbers", fit),
        "Statements" => says(
            "at most 16,777,216 statements are executed as a source is compiled",
            fit,
        ),
        _ => None,
    }
}

// The forms that are left out.
fn form_rule(detail: &str) -> Option<Rule> {
    match detail.strip_prefix("NotInProfile ")? {
        "Version" => says(
            "a source is of version 2",
            "pragma circom 2.0.0; or no pragma",
        ),
        "CustomTemplate" => says(
            "there are no custom templates",
            "write a template of constraints",
        ),
        "Bus" => says("there are no buses", "an array does: signal p[2]"),
        "Tag" => says(
            "signals have no tags, which constrain nothing",
            "constrain the signal, as s*(s - 1) === 0 does of a bit",
        ),
        "NoReturn" => says(
            "each path of a function returns",
            "write return 0; at its end",
        ),
        "MixedComponents" => says(
            "the components of one array are of one template",
            "take an array for each template",
        ),
        "DeclarationPlace" => says(
            "signals and components aren't declared in loops, nor inputs in inner blocks",
            "declare an array before the loop, and take one element in each turn",
        ),
        "LogPlace" => says(
            "log stands neither in a function nor under a condition that waits for the run",
            "log in the template, with the condition among what is logged",
        ),
        "AnonymousPlace" => says(
            "an anonymous component stands where a signal is written or constrained",
            "write it to a signal first: signal t <== T()(x);",
        ),
        form => run_form_rule(form),
    }
}

// The forms that functions which are called by the run don't have.
fn run_form_rule(form: &str) -> Option<Rule> {
    match form {
        "RunArray" => says(
            "a call that waits for the run gives one number, and this function returns an array",
            "write a function for each element, or the statements in the template",
        ),
        "RunDimension" => says(
            "in a function that waits for the run a dimension is a number as written",
            "write the greatest one that is needed: var t[8]",
        ),
        "LiteralPlace" => says(
            "in a function that waits for the run an array literal is a whole right side",
            "give it to a variable first: var v[2] = [a, b];",
        ),
        _ => None,
    }
}
