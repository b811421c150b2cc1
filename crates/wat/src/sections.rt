//! The sections of a binary module (binary format: modules).

ghost use Rattle.std.specs.Prelude.{◌≡◌, ◌<◌, ◌≤◌, ◌++◌, IfOk, IfSome, OnOk, length, drop};
ghost use Rattle.wat.specs.Sections.{number_at, bound_of, section_length, contents, is_name_section, is_called_name, kept_of, without_names};

use std::alloc::{AllocError, Global};

/// The bytes of the header of a module: the magic number and the version.
const HEADER: usize = 8;

/// A 32-bit number is encoded in at most this many bytes.
const LONGEST: usize = 5;

/// Returns the number at the start of bytes, and how many bytes it has: at most `most`.
#[tactic(auto, using(crate::proofs::Numbers::none, crate::proofs::Numbers::last, crate::proofs::Numbers::more, crate::proofs::Numbers::no_more, crate::proofs::Numbers::bounded, crate::proofs::Numbers::last_small, crate::proofs::Numbers::more_small))]
fn number_at(bytes: &[u8], most: usize) -> Option<(usize, usize)>
    requires { most ≤ 5 }
    ensures number { result ≡ number_at most bytes.now }
    ensures small { IfSome result (λ r. r.0 < bound_of most) }
    ensures within { IfSome result (λ r. r.1 ≤ most) }
{
    if most == 0 {
        return None;
    }
    let (byte, after) = bytes.split_first()?;
    if *byte < 0x80 {
        return Some((usize::from(*byte), 1));
    }
    let (number, count) = number_at(after, most - 1)?;
    Some((usize::from(*byte % 0x80) + 0x80 * number, 1 + count))
}

/// Returns the bytes from an offset on, or none if there are not so many.
fn tail(bytes: &[u8], start: usize) -> &[u8]
    ensures { result.now ≡ drop start bytes.now }
{
    if start > bytes.len() {
        return &[];
    }
    &bytes[start..]
}

/// Returns how many bytes the section at the start of bytes has.
fn section_length(bytes: &[u8]) -> Option<usize>
    ensures length { result ≡ section_length bytes.now }
    ensures within { IfSome result (λ n. n ≤ length bytes.now) }
{
    let (size, count) = number_at(tail(bytes, 1), LONGEST)?;
    let length = 1 + count + size;
    if length > bytes.len() {
        return None;
    }
    Some(length)
}

/// Returns whether contents begin with the name `name`.
fn is_called_name(contents: &[u8]) -> bool
    ensures { result ≡ is_called_name contents.now (number_at 5 contents.now) }
{
    match number_at(contents, LONGEST) {
        Some((length, count)) => {
            length == 4 && tail(contents, count).starts_with(&[b'n', b'a', b'm', b'e'])
        }
        None => false,
    }
}

/// Returns the contents of a section.
fn contents(section: &[u8]) -> &[u8]
    ensures { result.now ≡ contents section.now }
{
    match number_at(tail(section, 1), LONGEST) {
        Some((_, count)) => tail(section, 1 + count),
        None => &[],
    }
}

/// Returns whether a section is a custom section called `name`.
fn is_name_section(section: &[u8]) -> bool
    ensures { result ≡ is_name_section section.now }
{
    section.starts_with(&[0]) && is_called_name(contents(section))
}

/// Copies a section, unless it is a custom section called `name`.
fn keep_section(kept: &mut Vec<u8>, section: &[u8]) -> Result<(), AllocError>
    ensures { OnOk result (kept.new.items ≡ kept.old.items ++ kept_of section.now) }
{
    if is_name_section(section) {
        return Ok(());
    }
    kept.extend_from_slice(section)
}

/// Copies a module without its custom sections called `name`. Bytes that are not sections, which
/// only `(module binary "..")` can have, are copied unchanged.
pub(crate) fn without_names(alloc: Global, bytes: &[u8]) -> Result<Vec<u8>, AllocError>
    ensures { IfOk result (λ out. out.items ≡ without_names bytes.now) }
{
    let Some((header, sections)) = bytes.split_at_checked(HEADER) else {
        return Vec::from_slice(alloc, bytes);
    };
    let mut kept = Vec::with_capacity(alloc, bytes.len())?;
    kept.extend_from_slice(header)?;
    let mut rest = sections;
    for _ in 0..sections.len() {
        let Some(length) = section_length(rest) else {
            break;
        };
        let (section, after) = rest.split_at(length);
        keep_section(&mut kept, section)?;
        rest = after;
    }
    kept.extend_from_slice(rest)?;
    Ok(kept)
}
