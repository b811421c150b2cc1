//! Reads floating-point numbers of the text format as the bits of `f32` and `f64`.
//!
//! `fast_float` of the kit reads a decimal number without its underscores. For a hexadecimal
//! number, the first digits are kept, and whether another digit is not zero. It is rounded once.

ghost use Rattle.std.specs.Prelude.{◌≡◌, ◌==◌, ◌||◌, ◌&&◌, ◌<◌, ◌≤◌, ◌+◌, ◌*◌, ◌^◌, ◌++◌, ◌∷◌, [], ℕ, length, OnOk, IfOk, IfErr, MatchOption};
ghost use Rattle.std.specs.Prelude.{◌-◌, min, nat_lt, if◌then◌else◌, option_map, ⊤, Some, None, true, false};
ghost use Rattle.wat_grammar.specs.Integers.{sign};
ghost use Rattle.std.specs.Float.{binary32, binary64};
ghost use Rattle.std.specs.Float.Ieee.{prec, low, hid, ones};
ghost use Rattle.wat_grammar.specs.Floats.{cut, float, inf, nan, hexfloat, magnitude, fN};
ghost use Rattle.wat_grammar.specs.Characters.{digit, hexdigit};
ghost use Rattle.fast_float.specs.Rounding.{IsNearestBits};
ghost use Rattle.wat_tokens.specs.Numbers.{answer};
ghost use Rattle.wat_tokens.specs.Fractions.{is_digits, bare, form, is_fraction, is_exponent, is_number, fraction_text};
ghost use Rattle.wat_tokens.specs.Fractions.{power_text, plain_text, seen, UnlessMemory, MayLack, bits_in, payload_of};
ghost use Rattle.wat_tokens.specs.Fractions.{ieee, value_after, count, power_of, Keeps, IsHalved, IsScaled};
ghost use Rattle.wat_tokens.specs.declared.faults.TextFault.TheVariants as fault;

use crate::faults::TextFault;
use crate::integers::{Signed, cut_sign, digit, magnitude};
use std::alloc::Global;

/// A text that is cut at a character.
#[derive(Clone, Copy)]
struct Cut<'a> {
    /// The characters before it, or the whole text if it does not occur.
    front: &'a [u8],
    /// The characters after it, if it occurs.
    rest: Option<&'a [u8]>,
}

/// Returns whether a byte is one of two.
fn is_either(byte: u8, upper: u8, lower: u8) -> bool
    ensures { result ≡ (byte == upper || byte == lower) }
{
    byte == upper || byte == lower
}

/// Cuts a text at the first of two characters: "1.5e2" at 'E' or 'e' is "1.5" and "2".
fn cut_at(text: &[u8], upper: u8, lower: u8) -> Cut<'_>
    ensures front { result.front.now ≡ (cut upper lower text.now).0 }
    ensures rest { MatchOption result.rest ((cut upper lower text.now).1 ≡ None) (λ r. (cut upper lower text.now).1 ≡ Some r.now) }
{
    for i in 0..text.len() {
        if is_either(text[i], upper, lower) {
            return Cut {
                front: &text[..i],
                rest: Some(&text[i + 1..]),
            };
        }
    }
    Cut {
        front: text,
        rest: None,
    }
}

/// Returns whether a byte is an underscore after a digit.
fn is_between(byte: u8, after_digit: bool) -> bool
    ensures { result ≡ (byte == 0x5f && after_digit) }
{
    byte == b'_' && after_digit
}

/// Returns whether a text is digits with underscores between them (text format: integers): "1_0"
/// is, and "", "_1" and "1_" are not.
fn is_digits(text: &[u8], is_hex: bool) -> bool
    ensures { result ≡ is_digits is_hex text.now }
{
    let mut after_digit = false;
    for byte in text {
        if is_between(*byte, after_digit) {
            after_digit = false;
        } else {
            if digit(*byte, is_hex).is_none() {
                return false;
            }
            after_digit = true;
        }
    }
    after_digit
}

/// A number in pieces (text format: floating-point): "1.5e-2" is "1", "5", a `-` and "2".
#[derive(Clone, Copy)]
struct Pieces<'a> {
    /// The digits before the point.
    whole: &'a [u8],
    /// The digits after the point.
    fraction: &'a [u8],
    /// Whether the exponent has a `-`.
    is_negative: bool,
    /// The digits of the exponent, if there is one.
    exponent: Option<&'a [u8]>,
}

/// Cuts the sign off an exponent, and returns whether it is `-` and what comes after it.
fn signed(text: &[u8]) -> (bool, &[u8])
    ensures negative { result.0 ≡ (sign text.now).0 }
    ensures rest { result.1.now ≡ (sign text.now).1 }
{
    match text {
        [b'-', rest @ ..] => (true, rest),
        [b'+', rest @ ..] => (false, rest),
        _ => (false, text),
    }
}

/// Cuts a number into pieces, where one of two characters begins the exponent.
fn pieces_of(text: &[u8], upper: u8, lower: u8) -> Pieces<'_>
    ensures { seen result ≡ form upper lower text.now }
{
    let at_exponent = cut_at(text, upper, lower);
    let at_point = cut_at(at_exponent.front, b'.', b'.');
    let fraction = match at_point.rest {
        Some(rest) => rest,
        None => &text[..0],
    };
    match at_exponent.rest {
        Some(rest) => {
            let (is_negative, digits) = signed(rest);
            Pieces {
                whole: at_point.front,
                fraction,
                is_negative,
                exponent: Some(digits),
            }
        }
        None => Pieces {
            whole: at_point.front,
            fraction,
            is_negative: false,
            exponent: None,
        },
    }
}

/// Returns whether a fraction is digits or empty.
fn is_fraction(text: &[u8], is_hex: bool) -> bool
    ensures { result ≡ is_fraction is_hex text.now }
{
    text.is_empty() || is_digits(text, is_hex)
}

impl Pieces<'_> {
    /// Returns whether the pieces are those of a number.
    fn is_number(self, is_hex: bool) -> bool
        ensures { result ≡ is_number is_hex (seen self.entry) }
    {
        let is_exponent = match self.exponent {
            Some(digits) => is_digits(digits, false),
            None => true,
        };
        is_exponent && is_digits(self.whole, is_hex) && is_fraction(self.fraction, is_hex)
    }
}

/// Appends a character.
fn put(plain: &mut Vec<u8>, byte: u8) -> Result<(), TextFault>
    ensures ok { OnOk result (plain.new.items ≡ plain.old.items ++ byte ∷ []) }
    ensures err { IfErr result (λ e. e ≡ fault.Memory) }
{
    match plain.push(byte) {
        Ok(()) => Ok(()),
        Err(_) => Err(TextFault::Memory),
    }
}

/// Appends a text without its underscores.
fn put_bare(plain: &mut Vec<u8>, text: &[u8]) -> Result<(), TextFault>
    ensures ok { OnOk result (plain.new.items ≡ plain.old.items ++ bare text.now) }
    ensures err { IfErr result (λ e. e ≡ fault.Memory) }
{
    for byte in text {
        if *byte != b'_' {
            put(plain, *byte)?;
        }
    }
    Ok(())
}

/// Appends a point and a fraction, if it is not empty.
fn put_fraction(plain: &mut Vec<u8>, text: &[u8]) -> Result<(), TextFault>
    ensures ok { OnOk result (plain.new.items ≡ plain.old.items ++ fraction_text text.now) }
    ensures err { IfErr result (λ e. e ≡ fault.Memory) }
{
    if text.is_empty() {
        return Ok(());
    }
    put(plain, b'.')?;
    put_bare(plain, text)
}

/// Appends an exponent.
fn put_power(plain: &mut Vec<u8>, is_negative: bool, text: &[u8]) -> Result<(), TextFault>
    ensures ok { OnOk result (plain.new.items ≡ plain.old.items ++ power_text is_negative (Some text.now)) }
    ensures err { IfErr result (λ e. e ≡ fault.Memory) }
{
    put(plain, b'e')?;
    if is_negative {
        put(plain, b'-')?;
    }
    put_bare(plain, text)
}

/// Returns a decimal number without its underscores, with 'e' for 'E' and without '+'.
fn decimal(alloc: Global, text: &[u8]) -> Result<Vec<u8>, TextFault>
    ensures ok { IfOk result (λ v. (is_number false (form 0x45 0x65 text.now) ≡ true) × (v.items ≡ plain_text (form 0x45 0x65 text.now))) }
    ensures err { IfErr result (λ e. ¬ (e ≡ fault.Memory) → (e ≡ fault.Number) × (is_number false (form 0x45 0x65 text.now) ≡ false)) }
{
    let pieces = pieces_of(text, b'E', b'e');
    if !pieces.is_number(false) {
        return Err(TextFault::Number);
    }
    let mut plain = Vec::new(alloc);
    put_bare(&mut plain, pieces.whole)?;
    put_fraction(&mut plain, pieces.fraction)?;
    if let Some(digits) = pieces.exponent {
        put_power(&mut plain, pieces.is_negative, digits)?;
    }
    Ok(plain)
}

/// Returns the bits of a decimal number as an `f32`, rounded to nearest.
fn decimal32(alloc: Global, text: &[u8]) -> Result<u64, TextFault>
    ensures value { UnlessMemory ⊤ result (bits_in binary32 (float text.now)) }
{
    let plain = match decimal(alloc, text) {
        Ok(plain) => plain,
        Err(fault) => return Err(fault),
    };
    let value: f32 = match fast_float::parse(plain.as_slice()) {
        Ok(value) => value,
        Err(_) => return Err(TextFault::Number),
    };
    match value.is_finite() {
        true => Ok(u64::from(value.to_bits())),
        false => Err(TextFault::Range),
    }
}

/// Returns the bits of a decimal number as an `f64`, rounded to nearest.
fn decimal64(alloc: Global, text: &[u8]) -> Result<u64, TextFault>
    ensures value { UnlessMemory ⊤ result (bits_in binary64 (float text.now)) }
{
    let plain = match decimal(alloc, text) {
        Ok(plain) => plain,
        Err(fault) => return Err(fault),
    };
    let value: f64 = match fast_float::parse(plain.as_slice()) {
        Ok(value) => value,
        Err(_) => return Err(TextFault::Number),
    };
    match value.is_finite() {
        true => Ok(value.to_bits()),
        false => Err(TextFault::Range),
    }
}

/// A binary format of numbers (IEEE 754).
#[derive(Clone, Copy)]
enum Format {
    /// 32 bits.
    Single,
    /// 64 bits.
    Double,
}

impl Format {
    /// Returns how many bits a significand has.
    fn precision(self) -> u64
        ensures { result ≡ prec (ieee self) }
    {
        match self {
            Format::Single => 24,
            Format::Double => 53,
        }
    }

    /// Returns the n for which the least positive number is 2 to the -n.
    fn lowest(self) -> u64
        ensures { result ≡ low (ieee self) }
    {
        match self {
            Format::Single => 149,
            Format::Double => 1074,
        }
    }

    /// Returns what one more in the exponent adds to the bits.
    fn step(self) -> u64
        ensures value { result ≡ hid (ieee self) }
        ensures most { result ≤ 2 ^ 52 }
    {
        match self {
            Format::Single => 0x0080_0000,
            Format::Double => 0x0010_0000_0000_0000,
        }
    }

    /// Returns the bits of infinity.
    fn infinity(self) -> u64
        ensures value { result ≡ ones (ieee self) * hid (ieee self) }
        ensures most { result ≤ 2 ^ 63 }
    {
        match self {
            Format::Single => 0x7f80_0000,
            Format::Double => 0x7ff0_0000_0000_0000,
        }
    }
}

/// Returns the bits of the NaN whose payload has these hexadecimal digits.
fn with_payload(digits: &str, format: Format) -> Result<u64, TextFault>
    ensures { result ≡ bits_in (ieee format) (payload_of digits.now) }
{
    match magnitude(digits.as_bytes(), true) {
        Ok(payload) => {
            if payload == 0 || payload >= format.step() {
                return Err(TextFault::Range);
            }
            Ok(format.infinity() + payload)
        }
        Err(fault) => Err(fault),
    }
}

/// Returns the bits of a NaN, for the text after `nan`.
fn not_a_number(text: &str, format: Format) -> Result<u64, TextFault>
    ensures { result ≡ bits_in (ieee format) (nan text.now) }
{
    if text.is_empty() {
        return Ok(format.infinity() + format.step() / 2);
    }
    match text.strip_prefix(":0x") {
        Some(digits) => with_payload(digits, format),
        None => Err(TextFault::Number),
    }
}

/// Returns the bits of infinity, for the text after `inf`, which must be empty.
fn infinite(text: &str, format: Format) -> Result<u64, TextFault>
    ensures { result ≡ bits_in (ieee format) (inf text.now) }
{
    match text.is_empty() {
        true => Ok(format.infinity()),
        false => Err(TextFault::Number),
    }
}

/// The first of many hexadecimal digits as a number, and what rounding needs of the others.
#[derive(Clone, Copy)]
struct Leading {
    /// The number that the first digits make, below 2 to the 63.
    mantissa: u64,
    /// How many digits come after these.
    dropped: u64,
    /// Whether a digit that comes after these is not zero.
    is_more: bool,
    /// How many digits were read.
    count: u64,
}

/// Returns whether a digit or one before it is not zero.
fn is_left(is_more: bool, digit: u64) -> bool
    ensures { result ≡ (is_more || nat_lt 0 digit) }
{
    is_more || digit > 0
}

impl Leading {
    /// Returns the value before any digit is read.
    fn new() -> Leading
        ensures keeps { Keeps 0 result }
        ensures count { result.count ≡ 0 }
        ensures dropped { result.dropped ≤ result.count }
    {
        Leading {
            mantissa: 0,
            dropped: 0,
            is_more: false,
            count: 0,
        }
    }

    /// Returns the value after one more digit.
    fn with(self, digit: u64) -> Leading
        requires digit { digit < 16 }
        requires count { self.count < 2 ^ 63 }
        requires dropped { self.dropped ≤ self.count }
        ensures keeps { (n : ℕ) → Keeps n self → Keeps (16 * n + digit) result }
        ensures count { result.count ≡ self.count + 1 }
        ensures dropped { result.dropped ≤ result.count }
    {
        if self.mantissa < 0x0800_0000_0000_0000 {
            return Leading {
                mantissa: self.mantissa * 16 + digit,
                count: self.count + 1,
                ..self
            };
        }
        Leading {
            dropped: self.dropped + 1,
            is_more: is_left(self.is_more, digit),
            count: self.count + 1,
            ..self
        }
    }
}

/// Reads hexadecimal digits, after others that were read.
fn read(text: &[u8], start: Leading) -> Leading
    requires count { start.count + length text.now < 2 ^ 63 }
    requires dropped { start.dropped ≤ start.count }
    ensures keeps { (n : ℕ) → Keeps n start → Keeps (value_after hexdigit 16 n text.now) result }
    ensures count { result.count ≡ start.count + count hexdigit text.now }
    ensures most { result.count ≤ start.count + length text.now }
    ensures dropped { result.dropped ≤ result.count }
{
    let mut leading = start;
    for byte in text {
        if let Some(digit) = digit(*byte, true) {
            leading = leading.with(digit);
        }
    }
    leading
}

/// Returns the number that decimal digits make, or 2 to the 63 if it is larger.
fn power_in(digits: &[u8]) -> u64
    requires { is_digits false digits.now ≡ true }
    ensures { result ≡ min (value_after digit 10 0 digits.now) (2 ^ 63) }
{
    match magnitude(digits, false) {
        Ok(power) => power.min(0x8000_0000_0000_0000),
        Err(_) => 0x8000_0000_0000_0000,
    }
}

/// Returns the number of an exponent, or 2 to the 63 if it is larger. No exponent is 0.
fn power_of(digits: Option<&[u8]>) -> u64
    requires { is_exponent (option_map (λ r. r.now) digits) ≡ true }
    ensures { result ≡ min (power_of (option_map (λ r. r.now) digits.entry)) (2 ^ 63) }
{
    match digits {
        Some(digits) => power_in(digits),
        None => 0,
    }
}

/// Returns the power if `is_so`, and else zero.
fn power_if(is_so: bool, power: u64) -> u64
    ensures { result ≡ (if is_so then power else 0) }
{
    if is_so { power } else { 0 }
}

/// Returns how many bits a number has: 3 for 4.
fn width_of(number: u64) -> u64
    requires { 0 < number }
    ensures some { 0 < result }
    ensures most { result ≤ 64 }
    ensures from { 2 ^ (result - 1) ≤ number }
    ensures below { number < 2 ^ result }
{
    64 - number.leading_zeros() as u64
}

/// Divides a number by 2 to the `count`, rounded to nearest and to even at a tie: 11 and 2 give 3,
/// 10 and 2 give 2. With `is_more` the number is a little more, so that 10 and 2 give 3.
fn halved(number: u64, count: u64, is_more: bool) -> u64
    requires { number < 2 ^ 63 }
    ensures { IsHalved number count is_more result }
{
    if count > 63 {
        return 0;
    }
    let unit = 1_u64 << count;
    let kept = number / unit;
    let twice = number % unit * 2;
    if twice < unit {
        return kept;
    }
    if twice > unit || is_more {
        return kept + 1;
    }
    kept + kept % 2
}

/// Returns the bits of `mantissa` times 2 to the `place - 4096` times the least positive number,
/// rounded to nearest. A number that is too large has the bits of infinity or more. 4096 is added
/// to the place, so that it has no sign.
fn rounded(mantissa: u64, is_more: bool, place: u64, format: Format) -> u64
    requires some { 0 < mantissa }
    requires most { mantissa < 2 ^ 63 }
    requires place { place ≤ 7168 }
    ensures { (num den : ℕ) → IsScaled (ieee format) num den mantissa is_more place → IsNearestBits (ieee format) num den (min result (ones (ieee format) * hid (ieee format))) }
{
    let steps = (place + width_of(mantissa)).saturating_sub(4096 + format.precision());
    let significand = if steps + 4096 >= place {
        halved(mantissa, steps + 4096 - place, is_more)
    } else {
        mantissa << (place - steps - 4096)
    };
    steps * format.step() + significand
}

/// Returns the bits of a hexadecimal number after its `0x`, rounded to nearest. A text of 2 to the
/// 59 digits or more is [`TextFault::Memory`], so that counts of bits fit in 64 bits.
fn hexadecimal(text: &[u8], format: Format) -> Result<u64, TextFault>
    ensures { UnlessMemory (2 ^ 59 ≤ length text.now) result (bits_in (ieee format) (hexfloat text.now)) }
{
    let pieces = pieces_of(text, b'P', b'p');
    if !pieces.is_number(true) {
        return Err(TextFault::Number);
    }
    if pieces.whole.len() >= 0x0800_0000_0000_0000
        || pieces.fraction.len() >= 0x0800_0000_0000_0000
    {
        return Err(TextFault::Memory);
    }
    let whole = read(pieces.whole, Leading::new());
    let all = read(pieces.fraction, whole);
    if all.mantissa == 0 {
        return Ok(0);
    }
    let power = power_of(pieces.exponent);
    let up = all.dropped * 4 + format.lowest() + 4096 + power_if(!pieces.is_negative, power);
    let down = (all.count - whole.count) * 4 + power_if(pieces.is_negative, power);
    if up < down {
        return Ok(0);
    }
    if up - down > 7168 {
        return Err(TextFault::Range);
    }
    let bits = rounded(all.mantissa, all.is_more, up - down, format);
    match bits < format.infinity() {
        true => Ok(bits),
        false => Err(TextFault::Range),
    }
}

/// Returns the bits of a number without a sign as an `f32`.
fn magnitude32(alloc: Global, text: &str) -> Result<u64, TextFault>
    ensures value { UnlessMemory (MayLack text.now) result (bits_in binary32 (magnitude text.now)) }
{
    if let Some(digits) = text.strip_prefix("0x") {
        return hexadecimal(digits.as_bytes(), Format::Single);
    }
    if let Some(rest) = text.strip_prefix("nan") {
        return not_a_number(rest, Format::Single);
    }
    if let Some(rest) = text.strip_prefix("inf") {
        return infinite(rest, Format::Single);
    }
    decimal32(alloc, text.as_bytes())
}

/// Returns the bits of a number without a sign as an `f64`.
fn magnitude64(alloc: Global, text: &str) -> Result<u64, TextFault>
    ensures value { UnlessMemory (MayLack text.now) result (bits_in binary64 (magnitude text.now)) }
{
    if let Some(digits) = text.strip_prefix("0x") {
        return hexadecimal(digits.as_bytes(), Format::Double);
    }
    if let Some(rest) = text.strip_prefix("nan") {
        return not_a_number(rest, Format::Double);
    }
    if let Some(rest) = text.strip_prefix("inf") {
        return infinite(rest, Format::Double);
    }
    decimal64(alloc, text.as_bytes())
}

/// Returns the bits of an `f32` with its sign.
fn with_sign32(bits: u64, is_negative: bool) -> u32
    requires { bits < 2 ^ 31 }
    ensures { result ≡ (if is_negative then 2 ^ 31 + bits else bits) }
{
    if is_negative {
        return (0x8000_0000 + bits) as u32;
    }
    bits as u32
}

/// Returns the bits of an `f64` with its sign.
fn with_sign64(bits: u64, is_negative: bool) -> u64
    requires { bits < 2 ^ 63 }
    ensures { result ≡ (if is_negative then 2 ^ 63 + bits else bits) }
{
    if is_negative {
        return 0x8000_0000_0000_0000 + bits;
    }
    bits
}

/// Reads a number as the bits of an `f32`, rounded to nearest and to even at a tie (text format:
/// floating-point).
///
/// It is decimal or hexadecimal, `inf`, `nan` or `nan:0x1`. Reading a decimal number allocates.
///
/// # Errors
///
/// - [`TextFault::Number`]: the text is not a number, for example `.5` or `infinity`.
/// - [`TextFault::Range`]: the number rounds to infinity, or the payload of a NaN is zero or too
///   wide.
pub fn float32(alloc: Global, text: &str) -> Result<u32, TextFault>
    ensures { UnlessMemory (MayLack (sign text.now).1) result (answer (magnitude (sign text.now).1) (fN binary32 text.now)) }
{
    let Signed { is_negative, rest } = cut_sign(text);
    match magnitude32(alloc, rest) {
        Ok(bits) => Ok(with_sign32(bits, is_negative)),
        Err(fault) => Err(fault),
    }
}

/// Reads a number as the bits of an `f64` (text format: floating-point).
///
/// For the forms, the rounding and the errors, see [`float32`]. Reading a decimal number allocates.
pub fn float64(alloc: Global, text: &str) -> Result<u64, TextFault>
    ensures { UnlessMemory (MayLack (sign text.now).1) result (answer (magnitude (sign text.now).1) (fN binary64 text.now)) }
{
    let Signed { is_negative, rest } = cut_sign(text);
    match magnitude64(alloc, rest) {
        Ok(bits) => Ok(with_sign64(bits, is_negative)),
        Err(fault) => Err(fault),
    }
}
