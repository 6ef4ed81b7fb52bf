// The texts of a newcomer's slips, and that each kind of answer has one.
use circom_explain::{Case, explanation, overwriting};
use std::alloc::{AllocError, Global};
use std::process::Abort;
use watched_io::{Asked, Outcome};

// What was asked, what was printed, and what is said of it.
#[derive(Clone, Copy)]
struct Row {
    words: &'static str,
    printed: &'static str,
    source: &'static str,
    text: &'static str,
}

fn split(alloc: Global, words: &str) -> Result<Vec<String>, AllocError> {
    words
        .split_whitespace()
        .map(|word| String::from_str(alloc, word))
        .try_collect(alloc)
}

// The explanation; empty where there is none.
fn told(alloc: Global, row: &Row, asked: &[Asked]) -> Result<String, AllocError> {
    let words = split(alloc, row.words)?;
    match of_words(alloc, &words, row, asked)? {
        Some(text) => Ok(text),
        None => Ok(String::new(alloc)),
    }
}

fn of_words<'x>(
    alloc: Global,
    words: &'x [String],
    row: &'x Row,
    asked: &'x [Asked],
) -> Result<Option<String>, AllocError> {
    let source = Some(row.source.as_bytes());
    let case = Case {
        words,
        printed: row.printed.as_bytes(),
        status: 1,
        asked,
        source,
        system: None,
    };
    explanation(alloc, &case)
}

fn is_told<R: AllocGlobal + Abort>(rt: &R, row: &Row, asked: &[Asked]) {
    let text = told(rt.alloc(), row, asked).expect(rt, "memory");
    assert_eq!(rt; text.as_str(), row.text);
}

static SLIPS: [Row; 8] = [
    Row {
        words: "compile m.circom o",
        printed: "refused: E2 Syntax at m.circom:1:1 in -\n",
        source: "template T() {\n  signal output c\n  c <== 1;\n}",
        text: "note: ; is wanted before \"c\"\n --> m.circom:3:3\n  |\n3 |   c <== 1;\n  |   ^\n\
            help: the statement in line 2 isn't ended: put ; behind \"c\"\n",
    },
    Row {
        words: "compile m.circom o",
        printed: "refused: E6 UnknownName at m.circom:2:1 in -\n",
        source: "template T() { signal input bit;\nbitt === 0; }",
        text: "note: nothing in this file declares \"bitt\"\n --> m.circom:2:1\n  |\n\
            2 | bitt === 0; }\n  | ^^^^\nhelp: did you mean \"bit\"?\n",
    },
    Row {
        words: "compile m.circom o",
        printed: "refused: E7 Arity at m.circom:2:1 in -\n",
        source: "template T(n) { }\ncomponent main = T();",
        text: "note: T takes 1 argument (n), and 0 are given\n --> m.circom:2:18\n  |\n\
            2 | component main = T();\n  |                  ^\nhelp: give one for each parameter\n",
    },
    Row {
        words: "compile m.circom o",
        printed: "refused: E22 ShapeDiffers at m.circom:2:1 in main\n",
        source: "template T() { signal input a[3]; signal output o[2];\no <== a; }",
        text: "note: both sides of an assignment have one shape, and operators take numbers alone; \
            in this file o is declared as o[2] and a as a[3]\n --> m.circom:2:1\n  |\n\
            2 | o <== a; }\n  | ^\nhelp: assign element by element, in a loop\n",
    },
    Row {
        words: "witness m.circom i.json o",
        printed: "refused: I2 Missing b\n",
        source: "",
        text: "note: main has an input b, and the file has no key of that name\n\
            help: add \"b\": and its number, or an array of all its elements\n",
    },
    Row {
        words: "witness m.circom i.json o",
        printed: "refused: I3 UnknownSignal B\n",
        source: "template T() { signal input a, b; } component main = T();",
        text: "note: the file has a key B, and main has no input of that name; T declares the \
            inputs a, b\nhelp: did you mean \"b\"?\n",
    },
    Row {
        words: "witness m.circom i.json o",
        printed: "refused: W1 ConstraintFails at m.circom:1:2 in main\n",
        source: "\tc === 33;",
        text: "note: the two sides of this equation differ on these inputs\n --> m.circom:1:2\n\
            \x20 |\n1 |  c === 33;\n  |  ^\n\
            help: log(..) before it prints both sides; a constraint changes no value\n",
    },
    Row {
        words: "compile m.circom o --o1",
        printed: "usage: circom_gold\n",
        source: "",
        text: "note: compile has no option --o1; did you mean --O1?\n\
            \x20 circom_gold compile SRC OUT [--O0, --O1 or --O2] [-l DIR]\n\
            help: for example circom_gold compile mul.circom mul.r1cs\n",
    },
];

#[test]
fn slips_are_explained(rt: HostRuntime) {
    for row in SLIPS.as_slice() {
        is_told(&rt, row, &[]);
    }
}

fn asked(alloc: Global, name: &str, outcome: Outcome) -> Result<Asked, AllocError> {
    let name = String::from_str(alloc, name)?;
    Ok(Asked { name, outcome })
}

#[test]
fn files_are_named(rt: HostRuntime) -> Result<(), AllocError> {
    let row = Row {
        words: "compile m.circom o",
        printed: "refused: E3 Include at m.circom:1:1 in -\n",
        source: "include \"b\";",
        text: "note: no file is found; looked for x/b and y/b\n --> m.circom:1:1\n  |\n\
            1 | include \"b\";\n  | ^^^^^^^\nhelp: name the folder that has it: -l DIR\n",
    };
    let alloc = rt.alloc();
    let read = asked(alloc, "m.circom", Outcome::Read)?;
    let first = asked(alloc, "x/b", Outcome::NotThere)?;
    let second = asked(alloc, "y/b", Outcome::NotThere)?;
    let calls = vec![in alloc; read, first, second]?;
    is_told(&rt, &row, calls.as_slice());
    let row = Row {
        words: "compile m.circom o",
        printed: "fault: store\n",
        source: "",
        text: "note: o can't be written\n",
    };
    let calls = vec![in alloc; asked(alloc, "o", Outcome::WriteFailed)?]?;
    is_told(&rt, &row, calls.as_slice());
    Ok(())
}

#[test]
fn a_file_that_is_lost_is_warned_of(rt: HostRuntime) -> Result<(), AllocError> {
    let words = split(rt.alloc(), "public -- ./m.r1cs m.wtns m.r1cs")?;
    let text = overwriting(rt.alloc(), words.as_slice())?;
    assert_eq!(rt; text.is_some(), true);
    let words = split(rt.alloc(), "check m.r1cs m.r1cs")?;
    let text = overwriting(rt.alloc(), words.as_slice())?;
    assert_eq!(rt; text.is_some(), false);
    Ok(())
}

static KINDS: &str = "\
E1_Lexical_BadChar E1_Lexical_OpenComment E1_Lexical_OpenString E1_Lexical_NumberTooWide \
E2_Syntax E3_Include E4_Duplicate E5_Main E6_UnknownName E7_Arity E8_WrongKind E9_UnknownControl \
E10_UnknownIndex E11_NonQuadratic E12_ReadBeforeWrite E13_SecondWrite E14_NeverWritten \
E15_InputsMissing E16_OutOfBounds E17_ZeroDivisor E18_AssertFalse E19_Limit_Source_1 \
E19_Limit_Files_1 E19_Limit_Signals_1 E19_Limit_Constraints_1 E19_Limit_Terms_1 \
E19_Limit_Elements_1 E19_Limit_Cells_1 E19_Limit_Steps_1 E19_Limit_Nodes_1 E19_Limit_Reads_1 \
E19_Limit_Statements_1 E20_TooDeep E21_NotInProfile_Version E21_NotInProfile_CustomTemplate \
E21_NotInProfile_Bus E21_NotInProfile_Tag E21_NotInProfile_NoReturn \
E21_NotInProfile_MixedComponents E21_NotInProfile_LiteralPlace E21_NotInProfile_DeclarationPlace \
E21_NotInProfile_LogPlace E21_NotInProfile_RunArray E21_NotInProfile_RunDimension \
E21_NotInProfile_AnonymousPlace E22_ShapeDiffers W1_ConstraintFails W2_AssertFails \
W3_ZeroDivisor W4_IndexOut W5_FuelSpent W6_TooDeep";

// Whether something is said of the printed line.
fn has_text(alloc: Global, printed: &str) -> Result<bool, AllocError> {
    let case = Case {
        words: &[],
        printed: printed.as_bytes(),
        status: 1,
        asked: &[],
        source: None,
        system: None,
    };
    match explanation(alloc, &case)? {
        Some(text) => Ok(text.as_str().starts_with("note: ")),
        None => Ok(false),
    }
}

#[test]
fn each_kind_has_a_text(rt: HostRuntime) -> Result<(), AllocError> {
    let alloc = rt.alloc();
    for kind in KINDS.split_whitespace() {
        let mut line = String::from_str(alloc, "refused: ")?;
        for part in kind.chars() {
            line.push(if part == '_' { ' ' } else { part })?;
        }
        line.push_str(" at a.circom:1:1 in main\n")?;
        assert_eq!(rt; has_text(alloc, line.as_str())?, true);
    }
    Ok(())
}

static OTHERS: [&str; 18] = [
    "refused: no.r1cs: no such file\n",
    "refused: m.r1cs: F3 Truncated at byte 100\n",
    "refused: m.cert: C1 BadLine at line 3\n",
    "refused: 3 values for 4 wires\n",
    "refused: I1 NotJson\n",
    "refused: I2 Missing b\n",
    "refused: I3 UnknownSignal b\n",
    "refused: I4 WrongCount b 2 1\n",
    "refused: I5 BadNumber b 0\n",
    "unsatisfied: constraint 0\n",
    "unsatisfied: wire 0\n",
    "rejected: 1 PublicCount\n",
    "rejected: 2 Malformed at byte 0\n",
    "rejected: 4 Proximity\n",
    "undetermined: wire 1\n",
    "unconfirmed: rule 0\n",
    "unconfirmed: wire 1\n",
    "usage: circom_gold\n",
];

#[test]
fn each_other_answer_has_a_text(rt: HostRuntime) -> Result<(), AllocError> {
    for line in OTHERS.as_slice() {
        assert_eq!(rt; has_text(rt.alloc(), line)?, true);
    }
    assert_eq!(rt; has_text(rt.alloc(), "satisfied\n")?, false);
    Ok(())
}
