ghost use Rattle.std.specs.Prelude.{◌≡◌, ◌==◌, ◌≤◌, [], length, OnOk};
ghost use Rattle.std.specs.Option.{option_map};
ghost use Rattle.std.specs.Int.{w32, from_le_bytes};
ghost use Rattle.binary_format.specs.Reading.{Gives, Reads};
ghost use Rattle.iden_files.specs.Refusal.{refused, TakesNoMemory};
ghost use Rattle.iden_files.specs.Sections.{magic, version, section_count, section_at, section_of};
ghost use Rattle.iden_files.specs.Sections.{with_section, sections_after, sections_of, needed};
ghost use Rattle.iden_files.specs.Sections.{is_read, is_gates};
ghost use Rattle.iden_files.specs.Views.{section, sections};

use crate::fault::{FileCause, FileFault};
use crate::fields::{next_u32, next_u64, u32_at};
use binary_format::Reader;
use std::alloc::Global;

/// The two formats.
#[derive(Clone, Copy, PartialEq, Eq)]
pub enum Format {
    R1cs,
    Wtns,
}

impl Format {
    fn magic(self) -> u32
        ensures { result ≡ from_le_bytes w32 (magic self) }
    {
        match self {
            Format::R1cs => u32::from_le_bytes(*b"r1cs"),
            Format::Wtns => u32::from_le_bytes(*b"wtns"),
        }
    }

    fn version(self) -> u32
        ensures { result ≡ version self }
    {
        match self {
            Format::R1cs => 1,
            Format::Wtns => 2,
        }
    }

    fn is_read(self, kind: u32) -> bool
        ensures { result ≡ is_read self kind }
    {
        match self {
            Format::R1cs => kind == 1 || kind == 2 || kind == 3,
            Format::Wtns => kind == 1 || kind == 2,
        }
    }

    fn is_gates(self, kind: u32) -> bool
        ensures { result ≡ is_gates self kind }
    {
        match self {
            Format::R1cs => kind == 4 || kind == 5,
            Format::Wtns => false,
        }
    }
}

/// A section: its type, and a reader of its body.
#[derive(Clone, Copy)]
pub struct FoundSection<'a> {
    pub kind: u32,
    pub body: Reader<'a>,
}

#[tactic(auto, unfolding(crate::specs::Sections::section_count))]
fn section_count(format: Format, bytes: &[u8]) -> Result<u32, FileFault>
    ensures count { Gives refused (λ n. n) result (section_count format bytes.now) }
    ensures long { OnOk result (12 ≤ length bytes.now) }
    ensures memory { TakesNoMemory result }
{
    if bytes.len() < 12 {
        return Err(FileFault::At {
            cause: FileCause::Truncated,
            offset: bytes.len() as u64,
        });
    }
    if u32_at(bytes, 0) != format.magic() {
        return Err(FileFault::At {
            cause: FileCause::Magic,
            offset: 0,
        });
    }
    if u32_at(bytes, 4) != format.version() {
        return Err(FileFault::At {
            cause: FileCause::Version,
            offset: 4,
        });
    }
    Ok(u32_at(bytes, 8))
}

#[tactic(auto, unfolding(crate::specs::Sections::section_at))]
fn next_section<'a>(file: &mut Reader<'a>) -> Result<FoundSection<'a>, FileFault>
    ensures taken { Reads refused section file.new.rest.now result
        (section_at file.old.end file.old.rest.now) }
    ensures end { file.new.end ≡ file.old.end }
    ensures memory { TakesNoMemory result }
{
    let offset = file.end;
    let kind = next_u32(file, FileCause::Truncated)?;
    let size = next_u64(file, FileCause::Truncated)?;
    match file.part(size as usize) {
        Some(body) => Ok(FoundSection { kind, body }),
        None => Err(FileFault::At {
            cause: FileCause::Truncated,
            offset,
        }),
    }
}

/// The section of this type.
pub fn section_of<'a>(kind: u32, found: &[FoundSection<'a>]) -> Option<FoundSection<'a>>
    ensures { option_map section result ≡ section_of kind (sections found.now) }
{
    for s in found {
        if s.kind == kind {
            return Some(*s);
        }
    }
    None
}

/// The section of this type in a file of this length.
#[tactic(auto, unfolding(crate::specs::Sections::needed))]
pub fn needed<'a>(
    kind: u32,
    length: u64,
    found: &[FoundSection<'a>],
) -> Result<FoundSection<'a>, FileFault>
    ensures found { Gives refused section result (needed kind length (sections found.now)) }
    ensures memory { TakesNoMemory result }
{
    match section_of(kind, found) {
        Some(s) => Ok(s),
        None => Err(FileFault::At {
            cause: FileCause::SectionMissing,
            offset: length,
        }),
    }
}

/// Keeps one more section, whose first byte is at this place, if the format reads it.
#[tactic(auto, unfolding(crate::specs::Sections::with_section))]
fn keep<'a>(
    format: Format,
    found: &mut Vec<FoundSection<'a>>,
    s: FoundSection<'a>,
    place: u64,
) -> Result<(), FileFault>
    ensures { Gives refused (λ _. sections found.new.items) result
        (with_section format (sections found.old.items) (section s.entry) place) }
{
    if format.is_gates(s.kind) {
        return Err(FileFault::At {
            cause: FileCause::CustomGates,
            offset: place,
        });
    }
    if !format.is_read(s.kind) {
        return Ok(());
    }
    if section_of(s.kind, found).is_some() {
        return Err(FileFault::At {
            cause: FileCause::SectionTwice,
            offset: place,
        });
    }
    found.push(s)?;
    Ok(())
}

fn sections_after<'a>(
    alloc: Global,
    format: Format,
    count: u32,
    file: &mut Reader<'a>,
) -> Result<Vec<FoundSection<'a>>, FileFault>
    ensures { Gives refused (λ v. sections v.items) result
        (sections_after format file.old.end count [] file.old.rest.now) }
{
    let mut found = Vec::new(alloc);
    for _ in 0..count {
        let place = file.offset();
        let s = next_section(file)?;
        keep(format, &mut found, s, place)?;
    }
    if !file.is_empty() {
        return Err(FileFault::At {
            cause: FileCause::BadCount,
            offset: file.offset(),
        });
    }
    Ok(found)
}

/// The sections of a file that its format reads.
#[tactic(auto, unfolding(crate::specs::Sections::sections_of))]
pub fn sections_of<'a>(
    alloc: Global,
    format: Format,
    bytes: &'a [u8],
) -> Result<Vec<FoundSection<'a>>, FileFault>
    ensures { Gives refused (λ v. sections v.items) result (sections_of format bytes.now) }
{
    let count = section_count(format, bytes)?;
    let mut file = Reader::new(bytes);
    let _header = file.bytes(12);
    sections_after(alloc, format, count, &mut file)
}
