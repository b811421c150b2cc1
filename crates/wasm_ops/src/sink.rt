//! The destinations of bytes: the trait, its two smallest implementations, and its errors.

ghost use Rattle.std.specs.Prelude.{◌≡◌, ◌≤◌, ◌<◌, ◌+◌, ◌^◌, ℕ, [], ◌++◌, take, length, IfOk, IfErr};
ghost use Rattle.wasm_ops.specs.Leb128.{unsigned};
ghost use Rattle.wasm_ops.specs.SinkLaws as laws;
ghost use Rattle.wasm_ops.specs.Sinks.{SinkRules, Writes, Puts, Skips, Sets, AppendLaws, refused_as};
ghost use Rattle.wasm_ops.specs.declared.sink.Refusal.{Refusal};
ghost use Rattle.wasm_ops.specs.declared.sink.Refusal.TheVariants as refusal;

use crate::leb128::{further_width, set_unsigned, unsigned_bytes, width};
use std::marker::Model;
use wast_base::{Error, Fault};

/// Why nothing was appended: an error in one byte, because each small write returns one.
///
/// `?` converts it to an [`Error`] without a position: [`Refusal::TooLarge`] is E10, and
/// [`Refusal::Memory`] is E12.
///
///     assert!(rt; Error::from(Refusal::Memory).number() == 12);
#[derive(Clone, Copy, Debug, PartialEq, Eq)]
pub enum Refusal {
    /// E10: a number, count or length is out of range, or the bytes exceed a [`Length`] or a room.
    TooLarge,
    /// E12: allocation failed.
    Memory,
}

impl From<Refusal> for Error<'_> {
    ghost use Rattle.std.specs.Prelude.{◌≡◌};
    ghost use Rattle.wasm_ops.specs.Sinks.{refused_as};

    ghost from_gives = { λ r e. e ≡ refused_as r };

    fn from(refusal: Refusal) -> Self {
        match refusal {
            Refusal::TooLarge => Error::refusal(Fault::TooLarge),
            Refusal::Memory => Error::refusal(Fault::Memory),
        }
    }
}

/// Converts an error back to the [`Refusal`] that `?` makes it from.
fn refusal_of(error: &Error) -> Refusal
    ensures { (r : Refusal) → error.now ≡ refused_as r → result ≡ r }
{
    match error.number() {
        12 => Refusal::Memory,
        _ => Refusal::TooLarge,
    }
}

/// A destination that takes bytes at its end. All sizes and counts are numbers of bytes.
///
/// A writer appends all of its bytes, or none. An implementation defines [`Sink::put`],
/// [`Sink::size`] and [`Sink::cut`]. The other calls have bodies that need no more. An
/// implementation may replace them to be faster: [`Length`] counts a number without its bytes.
///
/// Three bytes of reserved memory take three bytes, and no fourth one:
///
///     let mut room = Room::reserve(rt.alloc(), 3).expect(&rt, "memory");
///     assert!(rt; room.put(&[7, 8, 9]).is_ok() && room.left() == 0);
pub trait Sink {
    /// What the sink contains, how many bytes fit, and its error if they do not.
    ghost rules: { SinkRules Self };

    /// Appends bytes, or nothing if they do not fit. The error is then that of the sink: E12 for a
    /// vector, E10 for a room or a count.
    fn put<'e>(&mut self, bytes: &[u8]) -> Result<(), Error<'e>>
        ensures { Puts rules (Unit {0}) self.old self.new bytes.now result };

    /// Returns how many bytes are in the sink.
    fn size(&self) -> u64
        ensures { result ≡ rules.size_of self.now };

    /// Removes bytes from the end, so that `size` bytes are left.
    fn cut(&mut self, size: u64)
        requires { size ≤ rules.size_of self.old }
        ensures { rules.is_cut self.old size self.new };

    /// Appends bytes like [`Sink::put`], and returns the error as a [`Refusal`].
    fn push_bytes(&mut self, bytes: &[u8]) -> Result<(), Refusal>
        ensures { Writes rules (Unit {0}) self.old self.new bytes.now result }
    {
        match self.put(bytes) {
            Ok(()) => Ok(()),
            Err(error) => Err(refusal_of(&error)),
        }
    }

    /// Appends an unsigned integer in LEB128, in the fewest bytes (binary format: integers, `u64`).
    ///
    /// For example, 300 is `ac 02`.
    fn push_number(&mut self, n: u64) -> Result<(), Refusal>
        ensures { Writes rules (Unit {0}) self.old self.new (unsigned n) result }
    {
        let (bytes, len) = unsigned_bytes(n);
        self.push_bytes(&bytes[..len])
    }

    /// Counts bytes without their values, and returns whether the sink can do so.
    ///
    /// After `true` the sink is as if any `count` bytes had been appended. After `false` it is
    /// unchanged. A sink that stores its bytes returns `false`.
    ///
    ///     assert!(rt; length.skip(300) && !length.skip(u64::MAX) && length.count() == 300);
    fn skip(&mut self, count: u64) -> bool
        ensures { Skips rules self.old self.new count result }
    {
        let _ = count;
        false
    }

    /// Replaces the byte at `at` by the LEB128 encoding of `n`, and returns whether it did.
    ///
    /// The bytes after that byte move if the encoding has more than one byte. A length is written
    /// before its content in this way: one byte reserves the position, and the length replaces it
    /// at the end. A sink that cannot do so returns `false`, and nothing is appended then.
    ///
    ///     assert!(rt; kept.bytes.set_number(1, 16384));
    ///     assert!(rt; kept.bytes.as_slice() == [0x84, 0x80, 0x80, 0x01, 0x02].as_slice());
    fn set_number(&mut self, at: u64, n: u64) -> bool
        requires { at < rules.size_of self.old }
        ensures { Sets rules self.old self.new at n result }
    {
        let _ = (at, n);
        false
    }

    /// Proofs that appended bytes can be joined and cut back.
    ghost laws: { AppendLaws rules };
}

/// Appends the LEB128 encoding of a number to a vector, digit by digit.
///
/// It is a separate function, because only the code for short numbers should be inlined.
#[cold]
#[inline(never)]
fn push_long(out: &mut Vec<u8>, n: u64) -> Result<(), Refusal>
    ensures ok { IfOk result (λ _. out.new.items ≡ out.old.items ++ unsigned n) }
    ensures err { IfErr result (λ e. (e ≡ refusal.Memory) × (out.new.items ≡ out.old.items ++ [])) }
{
    let (bytes, len) = unsigned_bytes(n);
    out.push_bytes(&bytes[..len])
}

/// A vector appends at its end. Any call may fail with E12, because allocation may fail.
impl Sink for Vec<u8> {
    ghost rules = { record {
      appended = λ a b x. b.items ≡ a.items ++ x;
      fits = λ _ _. ⊥;
      size_of = λ a. length a.items;
      is_cut = λ a n b. b.items ≡ take n a.items;
      is_set = λ a at n b. b.items ≡ laws.with_number a.items at n;
      refusal = refusal.Memory;
    } };

    fn put<'e>(&mut self, bytes: &[u8]) -> Result<(), Error<'e>> {
        Ok(self.push_bytes(bytes)?)
    }

    #[inline(always)]
    fn push_bytes(&mut self, bytes: &[u8]) -> Result<(), Refusal> {
        match self.extend_from_slice(bytes) {
            Ok(()) => Ok(()),
            Err(_) => Err(Refusal::Memory),
        }
    }

    #[inline(always)]
    fn push_number(&mut self, n: u64) -> Result<(), Refusal> {
        if n < 128 {
            return self.push_bytes(&[n as u8]);
        }
        if n < 16384 {
            return self.push_bytes(&[128 + (n % 128) as u8, (n / 128) as u8]);
        }
        push_long(self, n)
    }

    fn size(&self) -> u64 {
        self.len() as u64
    }

    fn cut(&mut self, size: u64) {
        self.truncate(size as usize);
    }

    fn set_number(&mut self, at: u64, n: u64) -> bool {
        match self.reserve(further_width(n) as usize) {
            Ok(()) => {
                set_unsigned(self, at as usize, n);
                true
            }
            Err(_) => false,
        }
    }

    ghost laws = { record {
      none = λ a. laws.none a.items;
      grows = λ a b x. laws.grows a.items b.items x;
      joins = λ a b c x y. laws.joins a.items b.items c.items x y;
      cuts_back = λ a b c x. laws.cuts_back a.items b.items c.items x;
      sets = λ a b c byte n x. laws.sets a.items b.items c.items byte n x;
      fits_less = λ a m n le h. h;
      fits_rest = λ a b x n le h e. h;
    } };
}

/// A sink that counts bytes and stores none. Its model in contracts is the count.
///
/// Use it to compute a size before memory is reserved. No call on it allocates.
///
/// # Example
///
///     let mut length = Length::new();
///     assert!(rt; nested.encode(&mut length).is_ok());
///     assert!(rt; length.count() == 134);
#[derive(Debug, Drop)]
pub struct Length {
    count: u64,
}

impl Model for Length {
    ghost use Rattle.std.specs.Prelude.{ℕ};

    ghost Value = { ℕ };

    ghost view = { λ l. l.count };
}

impl Length {
    /// Creates a count of zero bytes.
    pub fn new() -> Length
        ensures { result ≡ 0 }
    {
        Length { count: 0 }
    }

    /// Returns how many bytes were appended and not cut off.
    pub fn count(&self) -> u64
        ensures { result ≡ self.now }
    {
        let Length { count } = self;
        *count
    }
}

/// Bytes fit while the count is below 2^64. More is E10. Skipped bytes count too.
impl Sink for Length {
    ghost rules = { record {
      appended = λ a b x. b ≡ a + length x;
      fits = λ a n. a + n < 2 ^ 64;
      size_of = λ a. a;
      is_cut = λ a n b. b ≡ n;
      is_set = λ a at n b. laws.count_with a n b;
      refusal = refusal.TooLarge;
    } };

    fn put<'e>(&mut self, bytes: &[u8]) -> Result<(), Error<'e>> {
        Ok(self.push_bytes(bytes)?)
    }

    fn push_bytes(&mut self, bytes: &[u8]) -> Result<(), Refusal> {
        let Some(count) = self.count.checked_add(bytes.len() as u64) else {
            return Err(Refusal::TooLarge);
        };
        self.count = count;
        Ok(())
    }

    fn push_number(&mut self, n: u64) -> Result<(), Refusal> {
        let Some(count) = self.count.checked_add(width(n)) else {
            return Err(Refusal::TooLarge);
        };
        self.count = count;
        Ok(())
    }

    fn skip(&mut self, count: u64) -> bool {
        let Some(count) = self.count.checked_add(count) else {
            return false;
        };
        self.count = count;
        true
    }

    fn set_number(&mut self, _at: u64, n: u64) -> bool {
        let Some(count) = self.count.checked_add(further_width(n)) else {
            return false;
        };
        self.count = count;
        true
    }

    fn size(&self) -> u64 {
        self.count()
    }

    fn cut(&mut self, size: u64) {
        self.count = size;
    }

    ghost laws = { record {
      none = λ a. laws.count_none a;
      grows = λ a b x e. e;
      joins = λ a b c x y. laws.count_joins a b c x y;
      cuts_back = λ a b c x d e. laws.count_cuts a c e;
      sets = λ a b c byte n x. laws.count_sets a b c byte n x;
      fits_less = λ a m n. laws.count_less a m n;
      fits_rest = λ a b x n. laws.count_rest a b x n;
    } };
}
