//! The bytes of resolved fields, as a vector or in a sink.

ghost use Rattle.std.specs.Prelude.{◌≡◌, All, IfOk, IfErr, IfSome, IsTrue};
ghost use Rattle.wasm_ops.specs.Sinks.{refused_as};
ghost use Rattle.wasm_ops.specs.declared.sink.Refusal.TheVariants as refusal;
ghost use Rattle.wasm_out.specs.Built.{IsRefused};
ghost use Rattle.wasm_out.specs.Reads.{Reads};
ghost use Rattle.wast_core_conv.specs.Encodable.{is_encodable, is_at_rest};
ghost use Rattle.wast_core_name_section.specs.FoundNames.{text_seen};
ghost use Rattle.wast_core_sections.specs.DataCounts.{may_be_counted};
ghost use Rattle.wast_core_sections.specs.Encoding.{EncodesFields, PutsFields};
ghost use Rattle.wast_core_sections.specs.Sections.{parts};
ghost use Rattle.wast_core_sections.specs.Utf8Names.{HasUtf8Names};
ghost use Rattle.wast_core_sections.specs.Writable.{IsWritable, IsWritten};

use crate::capped::Capped;
use crate::sections::put_sections;
use crate::utf8_names::names_law;
use std::alloc::Global;
use wasm_ops::{Length, Refusal, Sink};
use wast_base::{Error, Fault};
use wast_tree_nodes::ModuleField;
use wast_tree_visit::scan_for_encoding;

/// Returns the vector unchanged. It lets a proof use that each item of a returned vector is a byte.
fn as_it_is(bytes: Vec<u8>) -> Vec<u8>
    ensures { result ≡ bytes }
{
    bytes
}

/// Counts the bytes of a module without writing them, and fails if the module is too large.
fn count_sections(
    fields: &[ModuleField],
    name: Option<&str>,
    has_data_index: bool,
) -> Result<u64, Refusal>
    requires encodable { IsTrue (is_encodable fields.now) }
    requires data { IsTrue (may_be_counted fields.now has_data_index) }
    ensures { IfErr result (λ e. (e ≡ refusal.TooLarge)
        × (IsWritable (text_seen name.entry) fields.now → ⊥)) }
{
    let mut length = Length::new();
    match put_sections(fields, name, has_data_index, &mut length) {
        Ok(()) => Ok(length.count()),
        Err(refusal) => Err(refusal),
    }
}

/// Writes a module, or returns `None` if its long pieces do not fit in the limit of [`Capped`].
fn write_short(
    alloc: Global,
    fields: &[ModuleField],
    name: Option<&str>,
    has_data_index: bool,
) -> Result<Option<Vec<u8>>, Refusal>
    requires encodable { IsTrue (is_encodable fields.now) }
    requires data { IsTrue (may_be_counted fields.now has_data_index) }
    ensures bytes { IfOk result (λ found. IfSome found (IsWritten (text_seen name.entry) fields.now)) }
    ensures refusal { IfErr result (λ e. IsRefused (IsWritable (text_seen name.entry) fields.now) (refused_as e)) }
{
    let mut out = Capped::new(alloc);
    match put_sections(fields, name, has_data_index, &mut out) {
        Ok(()) => Ok(Some(out.finish())),
        Err(refusal) => {
            if out.is_full() {
                return Ok(None);
            }
            Err(refusal)
        }
    }
}

/// Counts a module, and writes it into as much memory.
fn write_counted(
    alloc: Global,
    fields: &[ModuleField],
    name: Option<&str>,
    has_data_index: bool,
) -> Result<Vec<u8>, Refusal>
    requires encodable { IsTrue (is_encodable fields.now) }
    requires data { IsTrue (may_be_counted fields.now has_data_index) }
    ensures bytes { IfOk result (IsWritten (text_seen name.entry) fields.now) }
    ensures refusal { IfErr result (λ e. IsRefused (IsWritable (text_seen name.entry) fields.now) (refused_as e)) }
{
    let size = count_sections(fields, name, has_data_index)?;
    let mut out = Capped::reserve(alloc, size)?;
    match put_sections(fields, name, has_data_index, &mut out) {
        Ok(()) => Ok(out.finish()),
        Err(refusal) => Err(refusal),
    }
}

/// Writes a module.
///
/// A module with many long pieces is counted first, because otherwise 4 GiB would be written before
/// a section is found to be too large.
fn write(
    alloc: Global,
    fields: &[ModuleField],
    name: Option<&str>,
    has_data_index: bool,
) -> Result<Vec<u8>, Refusal>
    requires encodable { IsTrue (is_encodable fields.now) }
    requires data { IsTrue (may_be_counted fields.now has_data_index) }
    ensures bytes { IfOk result (IsWritten (text_seen name.entry) fields.now) }
    ensures refusal { IfErr result (λ e. IsRefused (IsWritable (text_seen name.entry) fields.now) (refused_as e)) }
{
    match write_short(alloc, fields, name, has_data_index) {
        Ok(Some(bytes)) => Ok(bytes),
        Ok(None) => write_counted(alloc, fields, name, has_data_index),
        Err(refusal) => Err(refusal),
    }
}

/// Returns the bytes of a resolved module with this name. `has_data_index` says whether the fields
/// have an index of a data segment.
fn encode_fields<'e>(
    alloc: Global,
    fields: &[ModuleField],
    name: Option<&str>,
    has_data_index: bool,
) -> Result<Vec<u8>, Error<'e>>
    requires encodable { IsTrue (is_encodable fields.now) }
    requires data { IsTrue (may_be_counted fields.now has_data_index) }
    requires names { All HasUtf8Names fields.now }
    ensures bytes { IfOk result (λ v. Reads v.items (parts (text_seen name.entry) fields.now)) }
    ensures refusal { IfErr result (IsRefused (IsWritable (text_seen name.entry) fields.now)) }
{
    let bytes = write(alloc, fields, name, has_data_index)?;
    let written = as_it_is(bytes);
    Ok(written)
}

/// Appends the bytes of a resolved module with this name to a sink, if each construct is supported
/// (binary format: modules). Allocates nothing, except in the sink.
///
/// For `(module (func (type 0)) (type (func)))` without a name they are the header and three
/// sections: types, functions and code.
///
/// The fields must be resolved: each index is a number, and nothing is inline.
///
/// # Errors
///
/// After an error the sink is unchanged.
///
/// - E11: the fields have an unsupported construct. It names the first one.
/// - The error of the sink, only if the bytes do not fit in it.
/// - E10, only if a count, length or position does not fit in 32 bits.
pub fn put_fields<'e, S: Sink>(
    fields: &[ModuleField],
    name: Option<&str>,
    out: &mut S,
) -> Result<(), Error<'e>>
    requires { IsTrue (is_at_rest fields.now) }
    ensures { PutsFields S.rules (text_seen name.entry) fields.now out.old out.new result }
{
    let seen = scan_for_encoding(fields);
    match seen.uncovered {
        Some(form) => Err(Error::refusal(Fault::Uncovered(form))),
        None => Ok(put_sections(fields, name, seen.has_data_index, out)?),
    }
}

/// Returns the bytes of a resolved module with this name, as [`put_fields`] appends them (binary
/// format: modules).
///
/// E10 also comes if the bytes do not fit in a `usize`, and E12 if allocation fails. For E11
/// nothing is allocated.
pub fn encode_covered<'e>(
    alloc: Global,
    fields: &[ModuleField],
    name: Option<&str>,
) -> Result<Vec<u8>, Error<'e>>
    requires { IsTrue (is_at_rest fields.now) }
    ensures { EncodesFields (text_seen name.entry) fields.now result }
{
    let seen = scan_for_encoding(fields);
    match seen.uncovered {
        Some(form) => Err(Error::refusal(Fault::Uncovered(form))),
        None => {
            names_law(fields);
            encode_fields(alloc, fields, name, seen.has_data_index)
        }
    }
}
