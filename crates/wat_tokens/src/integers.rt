//! Reads integers of the text format.

ghost use Rattle.std.specs.Prelude.{◌≡◌, Some, ◌<◌, ◌≤◌, ◌+◌, ◌*◌, ◌^◌, ℕ, IfSome, IfOk, option_map};
ghost use Rattle.wat_grammar.specs.Integers.{natural, uN, sign, signed, integer, signed_of};
ghost use Rattle.wat_tokens.specs.Numbers.{answer, digit_in, radix_of, number_in, fits, sized, bits_in, wrapped};

use crate::faults::TextFault;
use crate::strings::hex_digit;

/// A sign and the text after it (text format: integers).
#[derive(Clone, Copy)]
pub(crate) struct Signed<'a> {
    /// Whether the sign is `-`.
    pub is_negative: bool,
    /// The text after the sign.
    pub rest: &'a str,
}

/// Splits a text into its sign and the rest.
pub(crate) fn cut_sign(text: &str) -> Signed<'_>
    ensures negative { result.is_negative ≡ (sign text.now).0 }
    ensures rest { result.rest.now ≡ (sign text.now).1 }
{
    match text.strip_prefix("-") {
        Some(rest) => Signed {
            is_negative: true,
            rest,
        },
        None => match text.strip_prefix("+") {
            Some(rest) => Signed {
                is_negative: false,
                rest,
            },
            None => Signed {
                is_negative: false,
                rest: text,
            },
        },
    }
}

/// Returns the value of a digit, or `None` if the byte is not a digit.
pub(crate) fn digit(byte: u8, is_hex: bool) -> Option<u64>
    ensures value { result ≡ digit_in is_hex byte }
    ensures below { IfSome result (λ d. d < 16) }
{
    let digit = hex_digit(byte)?;
    if digit < 10 || is_hex {
        return Some(digit as u64);
    }
    None
}

/// Returns the value with one more digit, or `None` if it needs more than 64 bits.
fn with_digit(value: Option<u64>, is_hex: bool, digit: u64) -> Option<u64>
    ensures { (n : ℕ) → value ≡ fits n → result ≡ fits (radix_of is_hex * n + digit) }
{
    let radix = if is_hex { 16 } else { 10 };
    value?.checked_mul(radix)?.checked_add(digit)
}

/// Returns the value of digits, with underscores between them.
pub(crate) fn magnitude(digits: &[u8], is_hex: bool) -> Result<u64, TextFault>
    ensures { result ≡ sized (number_in is_hex digits.now) }
{
    let mut value = Some(0);
    let mut after_digit = false;
    for byte in digits {
        if *byte == b'_' && after_digit {
            after_digit = false;
        } else {
            let digit = digit(*byte, is_hex).ok_or(TextFault::Number)?;
            value = with_digit(value, is_hex, digit);
            after_digit = true;
        }
    }
    match after_digit {
        true => value.ok_or(TextFault::Range),
        false => Err(TextFault::Number),
    }
}

/// Returns the value of decimal digits without underscores, if it is below 10^18, or else `None`.
/// Most numbers are so short, and need no test for a sign or `0x`.
fn short(text: &[u8]) -> Option<u64>
    ensures value { IfSome result (λ n. natural text.now ≡ Some n) }
    ensures below { IfSome result (λ n. n < 2 ^ 64) }
{
    if text.is_empty() {
        return None;
    }
    let mut value = 0;
    for byte in text {
        if *byte < b'0' || *byte > b'9' || value > 99_999_999_999_999_999 {
            return None;
        }
        value = value * 10 + (*byte - b'0') as u64;
    }
    Some(value)
}

/// Returns the value of an integer without a sign (text format: integers).
pub(crate) fn natural(text: &str) -> Result<u64, TextFault>
    ensures { result ≡ answer (natural text.now) (uN 64 text.now) }
{
    if let Some(value) = short(text.as_bytes()) {
        return Ok(value);
    }
    match text.strip_prefix("0x") {
        Some(digits) => magnitude(digits.as_bytes(), true),
        None => magnitude(text.as_bytes(), false),
    }
}

/// Returns the bits of a number with its sign, in two's complement. There are twice `half` numbers.
fn bits(value: u64, is_negative: bool, half: u64) -> Option<u64>
    requires some { 0 < half }
    requires most { half ≤ 2 ^ 63 }
    ensures { result ≡ bits_in half is_negative value }
{
    if !is_negative {
        if value / 2 < half {
            return Some(value);
        }
        return None;
    }
    if value == 0 {
        return Some(0);
    }
    if value <= half {
        return Some(half - value + half);
    }
    None
}

/// Reads an integer with or without a sign, in two's complement. There are twice `half` integers.
fn wrapped(text: &str, half: u64) -> Result<u64, TextFault>
    requires some { 0 < half }
    requires most { half ≤ 2 ^ 63 }
    ensures value { result ≡ wrapped half (sign text.now).0 (natural (sign text.now).1) }
    ensures below { IfOk result (λ b. b < 2 * half) }
{
    if let Some(value) = short(text.as_bytes()) {
        return bits(value, false, half).ok_or(TextFault::Range);
    }
    let Signed { is_negative, rest } = cut_sign(text);
    match natural(rest) {
        Ok(value) => bits(value, is_negative, half).ok_or(TextFault::Range),
        Err(fault) => Err(fault),
    }
}

/// Reads an integer of 8 bits, which may have a sign (text format: integers). Takes no memory.
///
/// For example, `-1`, `0xff` and `255` are -1. The error is [`TextFault::Number`] for `1_`, which
/// is not an integer, and [`TextFault::Range`] for `256`, which has more bits.
pub fn integer8(text: &str) -> Result<i8, TextFault>
    ensures { result ≡ answer (signed text.now) (option_map (signed_of 8) (integer 8 text.now)) }
{
    match wrapped(text, 0x80) {
        Ok(bits) => Ok((bits as u8).cast_signed()),
        Err(fault) => Err(fault),
    }
}

/// Reads an integer of 16 bits, which may have a sign (text format: integers). Takes no memory.
///
/// For example, `-1`, `0xffff` and `65_535` are -1. The errors are as for [`integer8`].
pub fn integer16(text: &str) -> Result<i16, TextFault>
    ensures { result ≡ answer (signed text.now) (option_map (signed_of 16) (integer 16 text.now)) }
{
    match wrapped(text, 0x8000) {
        Ok(bits) => Ok((bits as u16).cast_signed()),
        Err(fault) => Err(fault),
    }
}

/// Reads an integer of 32 bits, which may have a sign (text format: integers). Takes no memory.
///
/// For example, `-2147483648` and `0x8000_0000` are the least number, and `4294967296` is out of
/// range. The errors are as for [`integer8`].
pub fn integer32(text: &str) -> Result<i32, TextFault>
    ensures { result ≡ answer (signed text.now) (option_map (signed_of 32) (integer 32 text.now)) }
{
    match wrapped(text, 0x8000_0000) {
        Ok(bits) => Ok((bits as u32).cast_signed()),
        Err(fault) => Err(fault),
    }
}

/// Reads an integer of 64 bits, which may have a sign (text format: integers). Takes no memory.
///
/// For example, `+7` is 7, and `0xffff_ffff_ffff_ffff` is -1. The errors are as for [`integer8`].
pub fn integer64(text: &str) -> Result<i64, TextFault>
    ensures { result ≡ answer (signed text.now) (option_map (signed_of 64) (integer 64 text.now)) }
{
    match wrapped(text, 0x8000_0000_0000_0000) {
        Ok(bits) => Ok(bits.cast_signed()),
        Err(fault) => Err(fault),
    }
}

/// Reads an integer of 64 bits without a sign (text format: integers). Takes no memory.
///
/// For example, `0x10` is 16. The error is [`TextFault::Number`] for `+1`, which has a sign, and
/// [`TextFault::Range`] for an integer of more bits.
pub fn unsigned64(text: &str) -> Result<u64, TextFault>
    ensures { result ≡ answer (natural text.now) (uN 64 text.now) }
{
    natural(text)
}

/// Reads an integer of 32 bits without a sign (text format: integers). Takes no memory.
///
/// For example, `4_294_967_295` is the greatest one, and `4294967296` is out of range. The errors
/// are as for [`unsigned64`].
pub fn unsigned32(text: &str) -> Result<u32, TextFault>
    ensures { result ≡ answer (natural text.now) (uN 32 text.now) }
{
    u32::try_from(natural(text)?).map_err(|_| TextFault::Range)
}

/// Reads an integer of 8 bits without a sign (text format: integers). Takes no memory.
///
/// For example, `0xff` is 255, and `256` is out of range. The errors are as for [`unsigned64`].
pub fn unsigned8(text: &str) -> Result<u8, TextFault>
    ensures { result ≡ answer (natural text.now) (uN 8 text.now) }
{
    u8::try_from(natural(text)?).map_err(|_| TextFault::Range)
}
