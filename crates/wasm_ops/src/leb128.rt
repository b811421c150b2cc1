//! LEB128 numbers, unsigned and signed, in the fewest bytes (binary format: integers).

ghost use Rattle.std.specs.Prelude.{◌≡◌, true, ◌≤◌, ◌<◌, ◌+◌, ◌^◌, ◌≤ℤ◌, pos, negsuc, take, length, vec_len, vec_capacity};
ghost use Rattle.wasm_ops.specs.Leb128.{unsigned, signed, digits, complement_if};
ghost use Rattle.wasm_ops.specs.SinkLaws.{with_number};
ghost use Rattle.wasm_ops.specs.Sinks.{Writes, Puts};
ghost use Rattle.wasm_ops.specs.Spelling.{InRangeS64};

use crate::encode::Encode;
use crate::sink::{Refusal, Sink};
use wast_base::Error;

/// Returns the LEB128 bytes of an unsigned number in an array, and how many they are.
pub(crate) fn unsigned_bytes(n: u64) -> ([u8; 10], usize)
    ensures within { result.1 ≤ 10 }
    ensures bytes { take result.1 result.0 ≡ unsigned n }
{
    let mut bytes = [0; 10];
    let mut len = 0;
    let mut rest = n;
    'digits: while rest >= 128 {
        bytes[len] = 128 + (rest % 128) as u8;
        rest /= 128;
        len += 1;
    }
    bytes[len] = rest as u8;
    (bytes, len + 1)
}

/// Returns how many bytes the shortest LEB128 encoding of an unsigned integer has (binary format:
/// integers, `u64`). For example, it returns 1 for 127 and 2 for 128.
pub fn width(n: u64) -> u64
    ensures { result ≡ length (unsigned n) }
{
    if n < 128 {
        return 1;
    }
    if n < 16384 {
        return 2;
    }
    if n < 2097152 {
        return 3;
    }
    let mut len = 1;
    let mut rest = n;
    'digits: while rest >= 128 {
        rest /= 128;
        len += 1;
    }
    len
}

/// Returns how many bytes the encoding of an unsigned number has after the first.
pub(crate) fn further_width(n: u64) -> u64
    ensures { result + 1 ≡ length (unsigned n) }
{
    width(n) - 1
}

/// Replaces one byte of a vector by the encoding of a number. Does not allocate.
pub(crate) fn set_unsigned(out: &mut Vec<u8>, at: usize, n: u64)
    requires in_bounds { at < vec_len out.old }
    requires room { vec_len out.old + length (unsigned n) ≤ vec_capacity out.old + 1 }
    ensures items { out.new.items ≡ with_number out.old.items at n }
    ensures capacity { vec_capacity out.old ≤ vec_capacity out.new }
{
    let mut place = at;
    let mut rest = n;
    'digits: while rest >= 128 {
        match out.insert(place, 128 + (rest % 128) as u8) {
            Ok(()) => {}
            Err(_) => unreachable!(),
        }
        rest /= 128;
        place += 1;
    }
    out[place] = rest as u8;
}

/// Appends a 64-bit unsigned integer in LEB128 (binary format: integers, `u64`).
///
///     write_u64(out, 18446744073709551615)?;      // ff ff ff ff ff ff ff ff ff 01
pub fn write_u64<'e, S: Sink>(out: &mut S, n: u64) -> Result<(), Error<'e>>
    ensures { Puts S.rules (Unit {0}) out.old out.new (unsigned n) result }
{
    Ok(out.push_number(n)?)
}

/// Appends a 32-bit unsigned integer in LEB128 (binary format: integers, `u32`).
///
///     write_u32(out, 624485)?;        // e5 8e 26
pub fn write_u32<'e, S: Sink>(out: &mut S, n: u32) -> Result<(), Error<'e>>
    ensures { Puts S.rules (Unit {0}) out.old out.new (unsigned n) result }
{
    write_u64(out, u64::from(n))
}

/// Seven bits of a number, or of its complement if it is negative.
#[inline(always)]
pub(crate) fn turn(negative: bool, digit: u8) -> u8
    requires { digit < 128 }
    ensures { result ≡ complement_if negative digit }
{
    if negative { 127 - digit } else { digit }
}

/// Returns the signed LEB128 bytes of a number or of its complement, and how many they are.
fn signed_digits(negative: bool, n: u64) -> ([u8; 10], usize)
    requires { n < 2 ^ 63 }
    ensures within { result.1 ≤ 10 }
    ensures bytes { take result.1 result.0 ≡ digits negative n }
{
    let mut bytes = [0; 10];
    let mut len = 0;
    let mut rest = n;
    'digits: while rest >= 64 {
        bytes[len] = 128 + turn(negative, (rest % 128) as u8);
        rest /= 128;
        len += 1;
    }
    bytes[len] = turn(negative, rest as u8);
    (bytes, len + 1)
}

/// Returns whether a number is negative, and its magnitude: `n`, or `-n - 1` if `n` is negative.
#[inline(always)]
pub(crate) fn folded(n: i64) -> (bool, u64)
    ensures small { result.1 < 2 ^ 63 }
    ensures digits { digits result.0 result.1 ≡ signed n }
{
    let magnitude = n.unsigned_abs();
    if n.is_negative() {
        (true, magnitude - 1)
    } else {
        (false, magnitude)
    }
}

/// Returns the signed LEB128 bytes of a number, and how many they are.
fn signed_bytes(n: i64) -> ([u8; 10], usize)
    ensures within { result.1 ≤ 10 }
    ensures bytes { take result.1 result.0 ≡ signed n }
{
    let (negative, rest) = folded(n);
    signed_digits(negative, rest)
}

/// Appends a signed number in LEB128, in the fewest bytes.
pub(crate) fn push_signed<S: Sink>(out: &mut S, n: i64) -> Result<(), Refusal>
    ensures { Writes S.rules (Unit {0}) out.old out.new (signed n) result }
{
    let (bytes, len) = signed_bytes(n);
    out.push_bytes(&bytes[..len])
}

/// A signed number in LEB128 (binary format: integers, `s64`).
#[derive(Clone, Copy)]
pub(crate) struct Signed(pub i64);

impl Encode for Signed {
    ghost spelling = { λ n. signed n.0 };

    ghost in_range = { λ n. InRangeS64 n.0 };

    ghost is_ready = { λ _. true };

    fn encode<S: Sink>(&self, out: &mut S) -> Result<(), Refusal> {
        push_signed(out, self.0)
    }
}

/// Appends a 64-bit signed integer in LEB128 (binary format: integers, `s64`).
///
///     write_s64(out, -9223372036854775808)?;      // 80 80 80 80 80 80 80 80 80 7f
pub fn write_s64<'e, S: Sink>(out: &mut S, n: i64) -> Result<(), Error<'e>>
    ensures { Puts S.rules (Unit {0}) out.old out.new (signed n) result }
{
    Ok(push_signed(out, n)?)
}

/// Appends a 32-bit signed integer in LEB128 (binary format: integers, `s32`).
///
///     write_s32(out, -65)?;       // bf 7f
pub fn write_s32<'e, S: Sink>(out: &mut S, n: i32) -> Result<(), Error<'e>>
    ensures { Puts S.rules (Unit {0}) out.old out.new (signed n) result }
{
    write_s64(out, i64::from(n))
}

/// Appends a 33-bit signed integer in LEB128 (binary format: integers, `s33`).
///
///     write_s33(out, 4294967295)?;        // ff ff ff ff 0f
///
/// Type indices in block types and heap types have this form, because negative numbers encode
/// their other variants.
pub fn write_s33<'e, S: Sink>(out: &mut S, n: i64) -> Result<(), Error<'e>>
    requires low { negsuc 4294967295 ≤ℤ n }
    requires high { n ≤ℤ pos 4294967295 }
    ensures { Puts S.rules (Unit {0}) out.old out.new (signed n) result }
{
    write_s64(out, n)
}
