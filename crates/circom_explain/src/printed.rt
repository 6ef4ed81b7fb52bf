//! A printed line, taken apart.

/// What the last printed line says.
#[derive(Clone, Copy)]
pub enum Said<'a> {
    /// A refusal, or the end of a run, at a place of a source.
    Placed(Placed<'a>),
    /// A refusal of the inputs, as `I2` and `b`.
    Input {
        code: &'a str,
        rest: &'a str,
    },
    NoSuchFile {
        name: &'a str,
    },
    /// A refusal of a file, as `F1 Magic` at `byte 0`.
    BadFile {
        name: &'a str,
        code: &'a str,
        place: &'a str,
    },
    /// There aren't as many values as wires.
    Counts {
        values: &'a str,
        wires: &'a str,
    },
    /// An answer of status 2.
    Verdict(&'a str),
    Fault,
    Usage,
}

/// A refusal at a place.
#[derive(Clone, Copy)]
pub struct Placed<'a> {
    /// `E1` to `E22`, or `W1` to `W6`.
    pub code: &'a str,
    /// The kind's name, and what stands behind it.
    pub detail: &'a str,
    pub file: &'a str,
    pub line: u32,
    pub column: u32,
    /// The path of the instance.
    pub path: &'a str,
}

/// What the last line of the text says.
pub fn read_line(printed: &str) -> Option<Said<'_>> {
    let text = printed.trim_end_matches('\n');
    let line = match text.rsplit_once('\n') {
        Some((_, last)) => last,
        None => text,
    };
    if line == "fault: store" {
        return Some(Said::Fault);
    }
    if line.starts_with("usage: ") {
        return Some(Said::Usage);
    }
    match line.strip_prefix("refused: ") {
        Some(rest) => refused(rest),
        None if is_verdict(line) => Some(Said::Verdict(line)),
        None => None,
    }
}

fn is_verdict(line: &str) -> bool {
    line.starts_with("unsatisfied: ")
        || line.starts_with("rejected: ")
        || line.starts_with("undetermined: ")
        || line.starts_with("unconfirmed: ")
}

fn refused(rest: &str) -> Option<Said<'_>> {
    if let Some(name) = rest.strip_suffix(": no such file") {
        return Some(Said::NoSuchFile { name });
    }
    if let Some(placed) = read_placed(rest) {
        return Some(Said::Placed(placed));
    }
    if rest.starts_with("I1 ")
        || rest.starts_with("I2 ")
        || rest.starts_with("I3 ")
        || rest.starts_with("I4 ")
        || rest.starts_with("I5 ")
        || rest.starts_with("B1 ")
    {
        return input(rest);
    }
    match bad_file(rest) {
        Some(said) => Some(said),
        None => {
            let counts = rest.strip_suffix(" wires")?;
            let (values, wires) = counts.split_once(" values for ")?;
            Some(Said::Counts { values, wires })
        }
    }
}

// `CODE NAME REST`
fn input(rest: &str) -> Option<Said<'_>> {
    let (code, rest) = rest.split_once(' ')?;
    let rest = match rest.split_once(' ') {
        Some((_, rest)) => rest,
        None => "",
    };
    Some(Said::Input { code, rest })
}

// `FILE: CODE NAME at PLACE`
fn bad_file(rest: &str) -> Option<Said<'_>> {
    let (name, cause) = rest.rsplit_once(": ")?;
    let (cause, place) = cause.split_once(" at ")?;
    let (code, _) = cause.split_once(' ')?;
    Some(Said::BadFile { name, code, place })
}

// `CODE DETAIL at FILE:LINE:COLUMN in PATH`. No kind has ` at ` in it, no path ` in `, and no
// number a colon.
fn read_placed(rest: &str) -> Option<Placed<'_>> {
    let (head, path) = rest.rsplit_once(" in ")?;
    let (what, place) = head.split_once(" at ")?;
    let (code, detail) = what.split_once(' ')?;
    if !code.starts_with('E') && !code.starts_with('W') {
        return None;
    }
    let (place, column) = place.rsplit_once(':')?;
    let (file, line) = place.rsplit_once(':')?;
    let Ok(line) = line.parse::<u32>() else {
        return None;
    };
    let Ok(column) = column.parse::<u32>() else {
        return None;
    };
    Some(Placed {
        code,
        detail,
        file,
        line,
        column,
        path,
    })
}
