use cir_ast::{Place, Text};
use cir_determined::Rule;
use circom_lines::Verdict;
use gold_field::Gold;
use iden_files::R1cs;
use items::Items;
use sym_file::SymLine;
use wit_code::Stop;

/// A file of constraints, with its bytes, and values for its wires.
pub struct Witness {
    pub bytes: Items<u8>,
    pub file: R1cs,
    pub values: Items<Gold>,
}

// Written out, so that the proof of an owner sees one call and not the drop of each part.
impl Drop for Witness {
    fn drop(self) {
        let Witness {
            bytes: _bytes,
            file: _file,
            values: _values,
        } = self;
    }
}

/// What `check` finds, and the names of the wires of the constraint that fails, if one does.
pub struct Named {
    pub verdict: Verdict,
    pub names: Items<Text>,
}

impl Drop for Named {
    fn drop(self) {
        let Named {
            verdict: _verdict,
            names: _names,
        } = self;
    }
}

/// What is offered as a proof for a file of constraints, with its bytes, and public values.
pub struct Offer {
    pub bytes: Items<u8>,
    pub file: R1cs,
    pub publics: Items<Gold>,
    pub proof: Items<u8>,
}

impl Drop for Offer {
    fn drop(self) {
        let Offer {
            bytes: _bytes,
            file: _file,
            publics: _publics,
            proof: _proof,
        } = self;
    }
}

/// A file of constraints, and rules that are offered as a certificate that its inputs determine its
/// outputs.
pub struct Claim {
    pub file: R1cs,
    pub rules: Items<Rule>,
}

impl Drop for Claim {
    fn drop(self) {
        let Claim {
            file: _file,
            rules: _rules,
        } = self;
    }
}

/// The bytes of the proof that is made of a witness, or what is wrong with its values.
#[derive(Drop)]
pub enum Outcome {
    Made(Items<u8>),
    Unmade(Verdict),
}

/// The public values among values, or what is wrong with these.
#[derive(Drop)]
pub enum Published {
    Values(Items<Gold>),
    Wrong(Verdict),
}

/// Why a step of a run stops, where its statement stands, and the log lines of the steps before it.
#[derive(Drop)]
pub struct Halt {
    pub stop: Stop,
    pub place: Place,
    pub log: Items<Text>,
}

/// How the run of a compiled circuit ends: with the values of its file's wires and the log lines,
/// or where a step stops.
#[derive(Drop)]
pub enum Ran {
    Ended {
        values: Items<Gold>,
        log: Items<Text>,
    },
    Halted(Halt),
}

/// What a generated circuit comes to: the wires and constraints of its file, the value of its
/// output and the log lines, or where a step of its run stops.
#[derive(Drop)]
pub enum Generated {
    Ended {
        wires: u32,
        constraints: u32,
        out: Gold,
        log: Items<Text>,
    },
    Halted(Halt),
}
