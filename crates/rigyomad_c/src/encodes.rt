//! Writes the bytes of a text, or its error.

ghost use Rattle.std.specs.Prelude.{◌≡◌, ◌<◌, ◌≤◌, ◌++◌, length, drop, IsTrue, IsFalse};
ghost use Rattle.rigyomad_c.specs.Answers.{EncodeReturns, EncodesRead, Diagnoses, DiagnosesRead, nothing_wrong};

use crate::diagnosis::Diagnosis;
use crate::statuses::Status;
use std::alloc::Global;
use std::str;
use wat_bytes::encode_text;
use wat_text::Strings;

/// Copies items to the front of a slice that has room for them.
pub(crate) fn put_front<T: Copy>(items: &[T], out: &mut [T])
    requires { length items.now ≤ length out.old }
    ensures { out.new ≡ items.now ++ drop (length items.now) out.old }
{
    let (front, _behind) = out.split_at_mut(items.len());
    front.copy_from_slice(items);
}

/// Copies bytes to the front of a slice, if they fit, and returns whether they do. Otherwise the
/// slice is not changed.
pub(crate) fn put(bytes: &[u8], out: &mut [u8]) -> bool
    ensures fits { IsTrue result → (length bytes.now ≤ length out.old) × (out.new ≡ bytes.now ++ drop (length bytes.now) out.old) }
    ensures stays { IsFalse result → (length out.old < length bytes.now) × (out.new ≡ out.old) }
{
    let does_fit = bytes.len() <= out.len();
    if does_fit {
        put_front(bytes, out);
    }
    does_fit
}

/// Writes the bytes of the module of a text to a slice.
fn encode_text_into(alloc: Global, text: &str, out: &mut [u8], size: &mut usize) -> Status
    requires { size.old ≡ 0 }
    ensures { EncodesRead text.now size.new out.old out.new result }
{
    let strings = Strings::new(alloc);
    match encode_text(alloc, text, &strings) {
        Ok(bytes) => {
            *size = bytes.len();
            match put(bytes.as_slice(), out) {
                true => Status::Done,
                false => Status::Short,
            }
        }
        Err(refused) => Status::of(&refused),
    }
}

/// Writes the bytes of the module of a text to a slice, if they fit, and their number to `size`.
/// Otherwise the slice is not changed.
pub(crate) fn encode_into(alloc: Global, text: &[u8], out: &mut [u8], size: &mut usize) -> Status
    ensures { EncodeReturns text.now size.new out.old out.new result }
{
    *size = 0;
    match str::from_utf8(text) {
        Ok(text) => encode_text_into(alloc, text, out, size),
        Err(_) => Status::Utf8,
    }
}

/// Writes the error of the module of a text.
fn diagnose_text(alloc: Global, text: &str, out: &mut [u8], diagnosis: &mut Diagnosis) -> Status
    requires { diagnosis.old ≡ nothing_wrong }
    ensures { DiagnosesRead text.now diagnosis.new result }
{
    let strings = Strings::new(alloc);
    match encode_text(alloc, text, &strings) {
        Ok(_) => Status::Done,
        Err(refused) => {
            *diagnosis = Diagnosis::of(text, &refused, out);
            Status::of(&refused)
        }
    }
}

/// Writes the error of the module of a text with its position, and as much of its message as fits.
pub(crate) fn diagnose(
    alloc: Global,
    text: &[u8],
    message: &mut [u8],
    diagnosis: &mut Diagnosis,
) -> Status
    ensures { Diagnoses text.now diagnosis.new result }
{
    *diagnosis = Diagnosis::none();
    match str::from_utf8(text) {
        Ok(text) => diagnose_text(alloc, text, message, diagnosis),
        Err(error) => {
            *diagnosis = Diagnosis::of_bytes(error, message);
            Status::Utf8
        }
    }
}
