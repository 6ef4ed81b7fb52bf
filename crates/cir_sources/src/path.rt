//! The names of included files.
ghost use Rattle.std.specs.Prelude.{◌≡◌, [], ◌++◌, IfOk, OnOk, map, reverse};
ghost use Rattle.std.specs.List.{slice_split, join_with_byte};
ghost use Rattle.cir_sources.specs.Names.{folder_of, has_folder, in_folder, is_slash, keep};
ghost use Rattle.cir_sources.specs.Names.{keep_all, keep_folder, resolved, root_of, wants_slash};
ghost use Rattle.cir_sources.specs.Includes.{beside};
ghost use Rattle.cir_sources.specs.Steps.{last_first};

use crate::source::Site;
use std::alloc::{AllocError, Global};

// Everything up to and with the last slash.
#[tactic(auto, using(crate::proofs::Paths::folder_itself, crate::proofs::Paths::folder_before))]
fn folder_of(name: &[u8]) -> &[u8]
    ensures { result.now ≡ folder_of name.now }
{
    let mut folder = name;
    while let Some((last, before)) = folder.split_last() {
        if *last == b'/' {
            break;
        }
        folder = before;
    }
    folder
}

// The segments between the slashes.
fn segments(alloc: Global, name: &[u8]) -> Result<Vec<&[u8]>, AllocError>
    ensures { IfOk result (λ v. map (λ s. s.now) v.items ≡ slice_split is_slash name.now) }
{
    name.split(|c| *c == b'/').collect(alloc)
}

// Whether the last segment is one that `..` removes.
fn has_folder(kept: &[&[u8]]) -> bool
    ensures { result ≡ has_folder (last_first kept.now) }
{
    match kept.last() {
        Some(segment) => *segment != b"..".as_slice(),
        None => false,
    }
}

fn keep<'n>(kept: &mut Vec<&'n [u8]>, segment: &'n [u8]) -> Result<(), AllocError>
    ensures { OnOk result
        (last_first kept.new.items ≡ keep (last_first kept.old.items) segment.now) }
{
    if segment == b".".as_slice() {
        return Ok(());
    }
    if segment == b"..".as_slice() && has_folder(kept.as_slice()) {
        kept.pop();
        return Ok(());
    }
    kept.push(segment)?;
    Ok(())
}

// The name with these segments.
#[tactic(auto, using(crate::proofs::Paths::joined_further))]
fn joined(alloc: Global, segments: &[&[u8]]) -> Result<Vec<u8>, AllocError>
    ensures { IfOk result
        (λ v. v.items ≡ join_with_byte 47 (reverse (last_first segments.now))) }
{
    let mut name = Vec::new(alloc);
    if let Some((first, others)) = segments.split_first() {
        name.extend_from_slice(first)?;
        for segment in others {
            name.push(b'/')?;
            name.extend_from_slice(segment)?;
        }
    }
    Ok(name)
}

fn keep_folder<'n>(kept: &mut Vec<&'n [u8]>, segment: &'n [u8]) -> Result<(), AllocError>
    ensures { OnOk result
        (last_first kept.new.items ≡ keep_folder (last_first kept.old.items) segment.now) }
{
    if segment.is_empty() {
        Ok(())
    } else {
        keep(kept, segment)
    }
}

// The segments that are kept of a name's.
#[tactic(auto, using(crate::proofs::Paths::all_kept_now))]
fn kept_of<'n>(alloc: Global, segments: &[&'n [u8]]) -> Result<Vec<&'n [u8]>, AllocError>
    ensures { IfOk result (λ v. last_first v.items
        ≡ keep_all [] (map (λ s. s.now) segments.now)) }
{
    let Some((file, folders)) = segments.split_last() else {
        return Ok(Vec::new(alloc));
    };
    let mut kept = Vec::new(alloc);
    for segment in folders {
        keep_folder(&mut kept, segment)?;
    }
    keep(&mut kept, file)?;
    Ok(kept)
}

// The path, behind a slash where the name begins at the root.
fn rooted(alloc: Global, name: &[u8], path: Vec<u8>) -> Result<Vec<u8>, AllocError>
    ensures { IfOk result (λ v. v.items ≡ root_of name.now ++ path.items) }
{
    match name {
        [b'/', ..] => {
            let mut rooted = Vec::new(alloc);
            rooted.push(b'/')?;
            rooted.extend_from_slice(path.as_slice())?;
            Ok(rooted)
        }
        _ => Ok(path),
    }
}

// The name with its segments `.` and `..` carried out, and without empty segments of folders.
fn resolved(alloc: Global, name: &[u8]) -> Result<Vec<u8>, AllocError>
    ensures { IfOk result (λ v. v.items ≡ resolved name.now) }
{
    let segments = segments(alloc, name)?;
    let kept = kept_of(alloc, segments.as_slice())?;
    let path = joined(alloc, kept.as_slice())?;
    let name = rooted(alloc, name, path)?;
    Ok(name)
}

/// The name that the include has beside its file.
pub(crate) fn beside(alloc: Global, site: &Site) -> Result<Vec<u8>, AllocError>
    ensures { IfOk result (λ v. v.items ≡ beside site.now) }
{
    let mut name = Vec::from_slice(alloc, folder_of(site.file.as_slice()))?;
    name.extend_from_slice(site.name.as_slice())?;
    let name = resolved(alloc, name.as_slice())?;
    Ok(name)
}

fn wants_slash(folder: &[u8]) -> bool
    ensures { result ≡ wants_slash folder.now }
{
    match folder.last() {
        Some(last) => *last != b'/',
        None => false,
    }
}

/// The name that the include has in a folder of libraries.
pub(crate) fn in_library(alloc: Global, folder: &[u8], site: &Site) -> Result<Vec<u8>, AllocError>
    ensures { IfOk result (λ v. v.items ≡ resolved (in_folder folder.now site.now.name)) }
{
    let mut name = Vec::from_slice(alloc, folder)?;
    if wants_slash(folder) {
        name.push(b'/')?;
    }
    name.extend_from_slice(site.name.as_slice())?;
    let name = resolved(alloc, name.as_slice())?;
    Ok(name)
}
