//! Words without a reading.

use crate::commands::{FORMS, Form, form_of, is_value, takes_value, values_of};
use source_hints::{Advice, Nearest, add};
use std::alloc::{AllocError, Global};

/// What is wrong with the words.
pub fn usage_advice(alloc: Global, words: &[String]) -> Result<Advice, AllocError> {
    match words.split_first() {
        None => no_command(alloc),
        Some((first, others)) => match form_of(first.as_str()) {
            None => unknown_command(alloc, first.as_str()),
            Some(form) => command_advice(alloc, form, others),
        },
    }
}

fn no_command(alloc: Global) -> Result<Advice, AllocError> {
    let mut advice = Advice::new(alloc);
    advice.note(&["the first word is a command:"])?;
    for form in FORMS.as_slice() {
        advice.note(&["\n  circom_gold ", form.usage])?;
    }
    advice.help(&["circom_gold compile mul.circom mul.r1cs; README.md has a first walk"])?;
    Ok(advice)
}

fn unknown_command(alloc: Global, word: &str) -> Result<Advice, AllocError> {
    if word == "--help" || word == "-h" || word == "help" {
        return no_command(alloc);
    }
    let mut nearest = Nearest::to(word);
    for form in FORMS.as_slice() {
        nearest.look(alloc, form.name)?;
    }
    let mut advice = Advice::new(alloc);
    advice.note(&["there is no command ", word])?;
    match nearest.best() {
        Some(name) => advice.help(&["did you mean ", name, "?"])?,
        None => {
            advice.help(&["the commands are"])?;
            let mut between = " ";
            for form in FORMS.as_slice() {
                advice.help(&[between, form.name])?;
                between = ", ";
            }
        }
    }
    Ok(advice)
}

// The first thing that is wrong with the words of this command, and what it takes.
fn command_advice(alloc: Global, form: &Form, words: &[String]) -> Result<Advice, AllocError> {
    let mut advice = Advice::new(alloc);
    let walked = Walked::over(alloc, form, words)?;
    match walked.fault {
        Some(fault) => add_fault(alloc, &mut advice, form, fault)?,
        None => add_counts(&mut advice, form, walked.names.as_slice())?,
    }
    advice.note(&["\n  circom_gold ", form.usage])?;
    advice.help(&["for example circom_gold ", form.example])?;
    Ok(advice)
}

/// What is wrong with a word.
#[derive(Clone, Copy)]
pub enum Fault<'w> {
    NoOption(&'w str),
    NoValue(&'w str),
    BadValue(&'static str, &'w str),
    Twice(&'w str),
    Levels,
    Help,
}

/// The words of a command.
#[derive(Drop)]
pub struct Walked<'w> {
    /// Those that are no options.
    pub names: Vec<&'w str>,
    /// The options.
    pub options: Vec<&'static str>,
    /// The first thing that is wrong.
    pub fault: Option<Fault<'w>>,
}

impl<'w> Walked<'w> {
    /// Goes over the words behind the command.
    pub fn over(alloc: Global, form: &Form, words: &'w [String]) -> Result<Walked<'w>, AllocError> {
        let mut walked = Walked {
            names: Vec::new(alloc),
            options: Vec::new(alloc),
            fault: None,
        };
        let mut is_open = true;
        let mut wanting: Option<&'static str> = None;
        for word in words {
            let word = word.as_str();
            if let Some(option) = wanting {
                wanting = None;
                walked.value(option, word);
            } else if is_open && word == "--" {
                is_open = false;
            } else if is_open && word.len() > 1 && word.starts_with('-') {
                wanting = walked.option(form, word)?;
            } else {
                walked.names.push(word)?;
            }
        }
        if let Some(option) = wanting {
            walked.say(Fault::NoValue(option));
        }
        Ok(walked)
    }

    // The first fault stays.
    fn say(&mut self, fault: Fault<'w>) {
        if self.fault.is_none() {
            self.fault = Some(fault);
        }
    }

    fn value(&mut self, option: &'static str, value: &'w str) {
        if !is_value(option, value) {
            self.say(Fault::BadValue(option, value));
        }
    }

    // The option that this word names, where its value is the next word.
    fn option(&mut self, form: &Form, word: &'w str) -> Result<Option<&'static str>, AllocError> {
        let (name, value) = parts_of(word);
        let Some(option) = option_in(form.options, name) else {
            let is_help = word == "--help" || word == "-h";
            self.say(if is_help {
                Fault::Help
            } else {
                Fault::NoOption(word)
            });
            return Ok(None);
        };
        self.add(option, word)?;
        match value {
            Some(value) => {
                self.value(option, value);
                Ok(None)
            }
            None if takes_value(option) => Ok(Some(option)),
            None => Ok(None),
        }
    }

    fn add(&mut self, option: &'static str, word: &'w str) -> Result<(), AllocError> {
        for other in &self.options {
            if *other == option {
                self.say(Fault::Twice(word));
                return Ok(());
            }
            if is_level(other) && is_level(option) {
                self.say(Fault::Levels);
                return Ok(());
            }
        }
        self.options.push(option)?;
        Ok(())
    }
}

fn is_level(option: &str) -> bool {
    matches!(option, "--O0" | "--O1" | "--O2")
}

fn option_in(options: &'static [&'static str], name: &str) -> Option<&'static str> {
    for option in options {
        if *option == name {
            return Some(*option);
        }
    }
    None
}

// An option's word as the option's name, and the value that stands in the same word.
fn parts_of(word: &str) -> (&str, Option<&str>) {
    if word.starts_with("--") {
        return match word.split_once('=') {
            Some((name, value)) => (name, Some(value)),
            None => (word, None),
        };
    }
    match word.strip_prefix("-l") {
        Some("") | None => (word, None),
        Some(value) => ("-l", Some(value)),
    }
}

fn add_fault(
    alloc: Global,
    advice: &mut Advice,
    form: &Form,
    fault: Fault<'_>,
) -> Result<(), AllocError> {
    match fault {
        Fault::NoOption(word) => add_no_option(alloc, &mut advice.note, form, word),
        Fault::NoValue(option) => {
            advice.note(&[option, " wants "])?;
            advice.note(&[values_of(option)])
        }
        Fault::BadValue(option, value) => {
            advice.note(&[option, " wants "])?;
            advice.note(&[values_of(option), ", and "])?;
            add_given(advice, value)
        }
        Fault::Twice(word) => advice.note(&[word, " is said twice"]),
        Fault::Levels => advice.note(&["a command has one level"]),
        Fault::Help => advice.note(&[form.name, " is used like this:"]),
    }
}

fn add_no_option(
    alloc: Global,
    note: &mut String,
    form: &Form,
    word: &str,
) -> Result<(), AllocError> {
    let (name, _) = parts_of(word);
    let mut nearest = Nearest::to(name);
    for option in form.options {
        nearest.look(alloc, option)?;
    }
    add(note, &[form.name, " has no option "])?;
    add(note, &[name])?;
    match nearest.best() {
        Some(option) => add(note, &["; did you mean ", option, "?"]),
        None => Ok(()),
    }
}

// What is missing, or too much, among the names.
fn add_counts(advice: &mut Advice, form: &Form, names: &[&str]) -> Result<(), AllocError> {
    if let Some(extra) = names.get(form.files.len()) {
        advice.note(&[form.name, " takes no further word, and "])?;
        return add_given(advice, extra);
    }
    if let Some(missing) = form.files.get(names.len()) {
        return advice.note(&[form.name, " wants ", missing, " too"]);
    }
    for (file, name) in form.files.iter().zip(names) {
        if !is_value(file, name) {
            advice.note(&[file, " is "])?;
            advice.note(&[values_of(file), ", and "])?;
            return add_given(advice, name);
        }
    }
    if form.name == "prove" {
        return advice.note(&["prove wants --seed HEX, 64 hexadecimal digits"]);
    }
    advice.note(&[form.name, " takes other words"])
}

fn add_given(advice: &mut Advice, word: &str) -> Result<(), AllocError> {
    advice.note(&[word, " is given"])
}
