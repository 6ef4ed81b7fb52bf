//! What the commands are, in words.

/// What a command takes.
pub struct Form {
    pub name: &'static str,
    /// The words that must be given, by what they name.
    pub files: &'static [&'static str],
    pub options: &'static [&'static str],
    /// What is typed behind the program's name.
    pub usage: &'static str,
    pub example: &'static str,
    /// What it is at, once its files are read.
    pub work: &'static str,
    /// Whether the last of the files is written.
    pub writes: bool,
}

/// The commands: one entry each.
pub static FORMS: [Form; 11] = [
    Form {
        name: "compile",
        files: &["SRC", "OUT"],
        options: &["--O0", "--O1", "--O2", "-l"],
        usage: "compile SRC OUT [--O0, --O1 or --O2] [-l DIR]",
        example: "compile mul.circom mul.r1cs",
        work: "compiling",
        writes: true,
    },
    Form {
        name: "witness",
        files: &["SRC", "INPUT", "OUT"],
        options: &["--O0", "--O1", "--O2", "-l", "--workers", "--fuel"],
        usage: "witness SRC INPUT OUT [--O0, --O1 or --O2] [-l DIR] [--workers N] [--fuel N]",
        example: "witness mul.circom mul.json mul.wtns",
        work: "compiling and running",
        writes: true,
    },
    Form {
        name: "check",
        files: &["R1CS", "WTNS"],
        options: &["--sym"],
        usage: "check R1CS WTNS [--sym SYM]",
        example: "check mul.r1cs mul.wtns",
        work: "checking",
        writes: false,
    },
    Form {
        name: "prove",
        files: &["R1CS", "WTNS", "OUT"],
        options: &["--seed", "--proof"],
        usage: "prove R1CS WTNS OUT --seed HEX [--proof 1 or 2]",
        example: "prove mul.r1cs mul.wtns mul.proof \
            --seed $(od -An -N32 -tx1 /dev/urandom | tr -d ' \\n')",
        work: "proving",
        writes: true,
    },
    Form {
        name: "public",
        files: &["R1CS", "WTNS", "OUT"],
        options: &[],
        usage: "public R1CS WTNS OUT",
        example: "public mul.r1cs mul.wtns public.json",
        work: "checking",
        writes: true,
    },
    Form {
        name: "audit",
        files: &["R1CS", "PUBLIC", "PROOF"],
        options: &[],
        usage: "audit R1CS PUBLIC PROOF",
        example: "audit mul.r1cs public.json mul.proof",
        work: "auditing",
        writes: false,
    },
    Form {
        name: "sym",
        files: &["SRC", "OUT"],
        options: &["--O0", "--O1", "--O2", "-l"],
        usage: "sym SRC OUT [--O0, --O1 or --O2] [-l DIR]",
        example: "sym mul.circom mul.sym",
        work: "compiling",
        writes: true,
    },
    Form {
        name: "batch",
        files: &["SRC", "INPUTS", "OUT"],
        options: &["--O0", "--O1", "--O2", "-l", "--workers", "--fuel"],
        usage: "batch SRC INPUTS OUT [--O0, --O1 or --O2] [-l DIR] [--workers N] [--fuel N]",
        example: "batch mul.circom mul.lines mul.batch --workers 4",
        work: "compiling and running",
        writes: true,
    },
    Form {
        name: "determine",
        files: &["R1CS", "OUT"],
        options: &[],
        usage: "determine R1CS OUT",
        example: "determine mul.r1cs mul.cert",
        work: "looking for rules",
        writes: true,
    },
    Form {
        name: "confirm",
        files: &["R1CS", "CERT"],
        options: &[],
        usage: "confirm R1CS CERT",
        example: "confirm mul.r1cs mul.cert",
        work: "confirming",
        writes: false,
    },
    Form {
        name: "generate",
        files: &["SEED", "SIZE"],
        options: &["--workers", "--fuel"],
        usage: "generate SEED SIZE [--workers N] [--fuel N]",
        example: "generate 7 1000 --workers 4",
        work: "compiling and running",
        writes: false,
    },
];

/// The form of the command of this name.
pub fn form_of(name: &str) -> Option<&'static Form> {
    FORMS.iter().find(|form| form.name == name)
}

/// The number of the command that the words name, from 1; 0 where they name none.
pub fn command_number(words: &[String]) -> u64 {
    let Some(name) = words.first() else {
        return 0;
    };
    let mut number: u64 = 0;
    for form in FORMS.as_slice() {
        number = number.saturating_add(1);
        if form.name == name.as_str() {
            return number;
        }
    }
    0
}

/// What the command of this number is at, once its files are read.
pub fn work_of(number: u64) -> &'static str {
    let mut left = number;
    for form in FORMS.as_slice() {
        if left == 1 {
            return form.work;
        }
        left = left.saturating_sub(1);
    }
    "working"
}

/// Whether a value stands behind the option.
pub fn takes_value(option: &str) -> bool {
    matches!(
        option,
        "-l" | "--sym" | "--workers" | "--fuel" | "--seed" | "--proof"
    )
}

/// Whether the option may have this value.
pub fn is_value(option: &str, value: &str) -> bool {
    match option {
        "--workers" => is_number(value, 1, 64),
        "--fuel" | "SEED" => is_number(value, 0, u32::MAX),
        "--proof" => is_number(value, 1, 2),
        "SIZE" => is_number(value, 1, 300_000),
        "--seed" => value.len() == 64 && value.bytes().all(|byte| byte.is_ascii_hexdigit()),
        _ => true,
    }
}

fn is_number(word: &str, low: u32, high: u32) -> bool {
    match word.parse::<u32>() {
        Ok(number) => low <= number && number <= high,
        Err(_) => false,
    }
}

/// Which values the option may have.
pub fn values_of(option: &str) -> &'static str {
    match option {
        "--workers" => "a number from 1 to 64",
        "--fuel" | "SEED" => "a number from 0 to 4294967295",
        "--proof" => "1 or 2",
        "SIZE" => "a number from 1 to 300000",
        "--seed" => "64 hexadecimal digits",
        "--sym" => "a file of names",
        _ => "a folder",
    }
}
