//! Appends an opcode and its short numbers in one piece.
//!
//! Most of the time of encoding goes into small pushes. Most indices, constants and memory
//! arguments have one or two bytes, so they are appended together with the byte before them, by one
//! call of [`Sink::push_bytes`].

ghost use Rattle.std.specs.Prelude.{◌∷◌, ◌++◌, ◌≤◌};
ghost use Rattle.wasm_ops.specs.Leb128.{unsigned, signed};
ghost use Rattle.wasm_ops.specs.Sinks.{Writes};
ghost use Rattle.wasm_ops.specs.Spelling.{InRangeU32, InRangeU64, InRangeS64};

use crate::encode::Encode;
use crate::leb128::{Signed, folded, turn};
use crate::sink::{Refusal, Sink};

/// Appends a byte and an unsigned number. A number below 128 is written in the same piece.
#[inline(always)]
pub(crate) fn push_number_after<S: Sink>(byte: u8, n: u32, out: &mut S) -> Result<(), Refusal>
    ensures { Writes S.rules (InRangeU32 n) out.old out.new (byte ∷ unsigned n) result }
{
    if n < 128 {
        return out.push_bytes(&[byte, n as u8]);
    }
    push_wide_after(byte, n, out)
}

/// Appends a byte and an unsigned number of two bytes or more, two bytes in the same piece.
///
/// It is separate from [`push_number_after`], so that only the short case is compiled into each
/// caller.
#[inline(never)]
fn push_wide_after<S: Sink>(byte: u8, n: u32, out: &mut S) -> Result<(), Refusal>
    requires { 128 ≤ n }
    ensures { Writes S.rules (InRangeU32 n) out.old out.new (byte ∷ unsigned n) result }
{
    if n < 16384 {
        return out.push_bytes(&[byte, 128 + (n % 128) as u8, (n / 128) as u8]);
    }
    (byte, n).encode(out)
}

/// Appends a byte and two unsigned numbers, such as the alignment and the offset of an access.
///
/// If both are below 128, all is one piece.
#[inline(always)]
pub(crate) fn push_numbers_after<S: Sink>(
    byte: u8,
    first: u32,
    second: u64,
    out: &mut S,
) -> Result<(), Refusal>
    ensures { Writes S.rules (InRangeU32 first × InRangeU64 second) out.old out.new (byte ∷ (unsigned first ++ unsigned second)) result }
{
    if first < 128 && second < 128 {
        return out.push_bytes(&[byte, first as u8, second as u8]);
    }
    push_wide_numbers_after(byte, first, second, out)
}

/// Appends a byte and two unsigned numbers, if they are not both below 128.
///
/// A second number of two bytes after a short first one is written in the same piece. It is
/// separate for the same reason as [`push_wide_after`].
#[inline(never)]
fn push_wide_numbers_after<S: Sink>(
    byte: u8,
    first: u32,
    second: u64,
    out: &mut S,
) -> Result<(), Refusal>
    ensures { Writes S.rules (InRangeU32 first × InRangeU64 second) out.old out.new (byte ∷ (unsigned first ++ unsigned second)) result }
{
    if first < 128 && 128 <= second && second < 16384 {
        return out.push_bytes(&[
            byte,
            first as u8,
            128 + (second % 128) as u8,
            (second / 128) as u8,
        ]);
    }
    (byte, (first, second)).encode(out)
}

/// Appends a byte and a signed number. A number from -64 to 63 is written in the same piece.
#[inline(always)]
pub(crate) fn push_signed_after<S: Sink>(byte: u8, n: i64, out: &mut S) -> Result<(), Refusal>
    ensures { Writes S.rules (InRangeS64 n) out.old out.new (byte ∷ signed n) result }
{
    let (negative, rest) = folded(n);
    if rest < 64 {
        return out.push_bytes(&[byte, turn(negative, rest as u8)]);
    }
    push_wide_signed_after(byte, n, out)
}

/// Appends a byte and a signed number of two bytes or more, two bytes in the same piece.
///
/// Two bytes are enough from -8192 to 8191. It is separate for the same reason as
/// [`push_wide_after`].
#[inline(never)]
fn push_wide_signed_after<S: Sink>(byte: u8, n: i64, out: &mut S) -> Result<(), Refusal>
    ensures { Writes S.rules (InRangeS64 n) out.old out.new (byte ∷ signed n) result }
{
    let (negative, rest) = folded(n);
    if 64 <= rest && rest < 8192 {
        let low = 128 + turn(negative, (rest % 128) as u8);
        return out.push_bytes(&[byte, low, turn(negative, (rest / 128) as u8)]);
    }
    (byte, Signed(n)).encode(out)
}
