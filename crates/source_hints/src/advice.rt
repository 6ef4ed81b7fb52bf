use std::alloc::{AllocError, Global};

/// Where something stands in a source: its line and column, counted from 1, and its length in
/// bytes.
#[derive(Clone, Copy)]
pub struct Spot {
    pub line: u32,
    pub column: u32,
    pub len: u32,
}

/// The rule that was broken, and what mostly mends it: two sentences.
#[derive(Clone, Copy)]
pub struct Rule {
    pub note: &'static str,
    pub help: &'static str,
}

/// What is said of an answer.
#[derive(Drop)]
pub struct Advice {
    /// The rule that was broken, in a sentence.
    pub note: String,
    /// What mostly mends it. Nothing is said where it is empty.
    pub help: String,
    /// Where, in the source that is shown.
    pub spot: Option<Spot>,
}

impl Advice {
    /// Nothing so far.
    pub fn new(alloc: Global) -> Advice {
        Advice {
            note: String::new(alloc),
            help: String::new(alloc),
            spot: None,
        }
    }

    /// The sentences of a rule.
    pub fn of(alloc: Global, rule: Rule) -> Result<Advice, AllocError> {
        let note = String::from_str(alloc, rule.note)?;
        let help = String::from_str(alloc, rule.help)?;
        Ok(Advice {
            note,
            help,
            spot: None,
        })
    }

    /// The note goes on with these parts.
    pub fn note(&mut self, parts: &[&str]) -> Result<(), AllocError> {
        add(&mut self.note, parts)
    }

    /// The help goes on with these parts.
    pub fn help(&mut self, parts: &[&str]) -> Result<(), AllocError> {
        add(&mut self.help, parts)
    }
}

/// Appends the parts, one after the other.
pub fn add(text: &mut String, parts: &[&str]) -> Result<(), AllocError> {
    for part in parts {
        text.push_str(part)?;
    }
    Ok(())
}
