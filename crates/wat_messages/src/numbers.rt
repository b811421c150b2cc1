//! The kinds of numbers, to say what was expected and which numbers are in range.

use std::fmt;

/// A kind of number.
#[derive(Clone, Copy)]
pub(crate) enum Number {
    /// 8 bits, with or without a sign.
    I8,
    /// 16 bits.
    I16,
    /// 32 bits.
    I32,
    /// 64 bits.
    I64,
    /// A float of 32 bits.
    F32,
    /// A float of 64 bits.
    F64,
    /// A lane of a vector.
    Lane,
    /// A size, an offset or an alignment.
    Size,
    /// An index or a count.
    Index,
}

/// Returns the kind of the numbers after a word: after `i32.const`, or in a list of type `i32`.
pub(crate) fn number_after(word: &[u8]) -> Number {
    match word {
        b"i8" | b"i8x16" => Number::I8,
        b"i16" | b"i16x8" => Number::I16,
        b"i32" | b"i32x4" | b"i32.const" => Number::I32,
        b"i64" | b"i64x2" | b"i64.const" => Number::I64,
        b"f32" | b"f32x4" | b"f32.const" => Number::F32,
        b"f64" | b"f64x2" | b"f64.const" => Number::F64,
        b"memory" | b"table" | b"pagesize" | b"shared" => Number::Size,
        _ => number_in(word),
    }
}

/// Returns the kind of a number that is an immediate of an instruction, or in a word.
fn number_in(word: &[u8]) -> Number {
    if word.ends_with(b"_lane") || word.ends_with(b"_lane_s") || word.ends_with(b"_lane_u") {
        return Number::Lane;
    }
    if matches!(word, b"i8x16.shuffle") {
        return Number::Lane;
    }
    if word.starts_with(b"offset=") || word.starts_with(b"align=") {
        return Number::Size;
    }
    Number::Index
}

impl Number {
    /// Returns what a number of the kind is called, with its article.
    pub fn name(self) -> &'static str {
        match self {
            Number::I8 => "an i8",
            Number::I16 => "an i16",
            Number::I32 => "an i32",
            Number::I64 => "an i64",
            Number::F32 => "an f32",
            Number::F64 => "an f64",
            Number::Lane => "a lane index",
            Number::Size => "an integer without a sign",
            Number::Index => "an index",
        }
    }

    /// Returns which numbers of the kind there are.
    fn range(self) -> &'static str {
        match self {
            Number::I8 => "-128 to 255",
            Number::I16 => "-32768 to 65535",
            Number::I32 => "-2147483648 to 4294967295",
            Number::I64 => "-9223372036854775808 to 18446744073709551615",
            Number::F32 => "up to 3.4028235e38; NaN payloads 0x1 to 0x7fffff",
            Number::F64 => "up to 1.7976931348623157e308; NaN payloads 0x1 to 0xfffffffffffff",
            Number::Lane => "0 to 255",
            Number::Size => "0 to 18446744073709551615",
            Number::Index => "0 to 4294967295",
        }
    }
}

/// Prints a kind of number with its range.
#[derive(Clone, Copy)]
pub(crate) struct Ranged(pub Number);

impl fmt::Display for Ranged {
    fn fmt<W: fmt::Write>(&self, f: &mut fmt::Formatter<W>) -> fmt::Result {
        let (name, range) = (self.0.name(), self.0.range());
        write!(f, "{name} ({range})")
    }
}
