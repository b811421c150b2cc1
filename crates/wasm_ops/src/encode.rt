//! The trait of values with a binary encoding, and the combinations of such values.
//!
//! Pairs are encoded one after the other. [`Each`], [`Counted`], [`WithLength`] and [`Name`] add
//! lists, counts and lengths.

ghost use Rattle.std.specs.Prelude.{◌≡◌, ℕ, Bool, length, true, ◌&&◌, List, [], ◌∷◌, ◌++◌, IsTrue, IfOk, IfErr};
ghost use Rattle.std.specs.List.{All, flat_map, list_all};
ghost use Rattle.std.specs.Option.{option_to_list};
ghost use Rattle.wasm_ops.specs.Leb128.{unsigned};
ghost use Rattle.wasm_ops.specs.Sinks.{Writes, Puts};
ghost use Rattle.wasm_ops.specs.declared.sink.Refusal.TheVariants as refusal;
ghost use Rattle.wasm_ops.specs.Spelling.{Any, InRangeU32, InRangeU64, vec, InRangeVec, length_prefixed, InRangeSized, name, InRangeName};

use crate::sink::{Length, Refusal, Sink};
use wast_base::Error;

/// A value that has an encoding in the binary format.
///
/// Numbers, pairs, options and references have one, as do the types and instructions of this crate.
/// A caller may implement it for its own types, and combine them with [`Counted`] and
/// [`WithLength`].
///
/// # Example
///
/// A list of three value types, after its count and its length in bytes:
///
///     let types = [ValType::F32, ValType::F64, ValType::V128];
///     let list = WithLength(Counted(&types, AsItself));
///     is_spelled(&rt, alloc, &list, &[4, 3, 0x7d, 0x7c, 0x7b]);
pub trait Encode {
    /// Its bytes.
    ghost spelling: { Self → List ℕ };

    /// Its numbers, counts and lengths are in the range of the binary format.
    ghost in_range: { Self → Type 0 };

    /// Whether it can be encoded: the encoder supports its form, and its indices are numbers.
    ghost is_ready: { Self → Bool };

    /// Appends the encoding of the value, or nothing.
    ///
    ///     let mut length = Length::new();
    ///     assert!(rt; nested.encode(&mut length).is_ok());
    ///
    /// To test whether the encoder supports a type, call its `is_covered`.
    ///
    /// # Errors
    ///
    /// - The sink's error, only if the encoding does not fit.
    /// - [`Refusal::TooLarge`], E10, only if a number, count or length is out of range.
    fn encode<S: Sink>(&self, out: &mut S) -> Result<(), Refusal>
        requires { IsTrue (is_ready self.now) }
        ensures { Writes S.rules (in_range self.now) out.old out.new (spelling self.now) result };
}

/// A byte (binary format: bytes).
impl Encode for u8 {
    ghost spelling = { λ b. b ∷ [] };

    ghost in_range = { Any };

    ghost is_ready = { λ _. true };

    fn encode<S: Sink>(&self, out: &mut S) -> Result<(), Refusal> {
        out.push_bytes(&[*self])
    }
}

/// An unsigned number, such as an index, in LEB128 (binary format: integers, `u32`).
impl Encode for u32 {
    ghost spelling = { unsigned };

    ghost in_range = { InRangeU32 };

    ghost is_ready = { λ _. true };

    fn encode<S: Sink>(&self, out: &mut S) -> Result<(), Refusal> {
        out.push_number(u64::from(*self))
    }
}

/// An unsigned number in LEB128 (binary format: integers, `u64`).
impl Encode for u64 {
    ghost spelling = { unsigned };

    ghost in_range = { InRangeU64 };

    ghost is_ready = { λ _. true };

    fn encode<S: Sink>(&self, out: &mut S) -> Result<(), Refusal> {
        out.push_number(*self)
    }
}

/// One value after the other (binary format: grammar).
impl<A: Encode, B: Encode> Encode for (A, B) {
    ghost spelling = { λ p. A.spelling p.0 ++ B.spelling p.1 };

    ghost in_range = { λ p. A.in_range p.0 × B.in_range p.1 };

    ghost is_ready = { λ p. A.is_ready p.0 && B.is_ready p.1 };

    fn encode<S: Sink>(&self, out: &mut S) -> Result<(), Refusal> {
        let start = out.size();
        self.0.encode(out)?;
        let second = self.1.encode(out);
        if second.is_err() {
            out.cut(start);
        }
        second
    }
}

/// A reference is encoded as its target.
impl<'a, T: Encode> Encode for &'a T {
    ghost spelling = { λ x. T.spelling x.now };

    ghost in_range = { λ x. T.in_range x.now };

    ghost is_ready = { λ x. T.is_ready x.now };

    fn encode<S: Sink>(&self, out: &mut S) -> Result<(), Refusal> {
        (**self).encode(out)
    }
}

/// A way to encode the items of a list: as themselves ([`AsItself`]), or in another form.
///
/// For example, `wast_core` implements it for the instructions of its tree, because their types are
/// not those of this crate.
pub trait EncodeWith<T> {
    /// The bytes of an item.
    ghost spelling: { Self → T → List ℕ };

    /// Its numbers, counts and lengths are in the range of the binary format.
    ghost in_range: { Self → T → Type 0 };

    /// Whether the item can be encoded: the encoder supports its form, and its indices are numbers.
    ghost is_ready: { Self → T → Bool };

    /// Appends the encoding of an item, or nothing. The errors are those of [`Encode::encode`].
    fn spell<S: Sink>(&self, item: &T, out: &mut S) -> Result<(), Refusal>
        requires { IsTrue (is_ready self.now item.now) }
        ensures { Writes S.rules (in_range self.now item.now) out.old out.new (spelling self.now item.now) result };
}

/// Encodes each item as itself.
#[derive(Clone, Copy, Debug)]
pub struct AsItself;

impl<T: Encode> EncodeWith<T> for AsItself {
    ghost spelling = { λ _ x. T.spelling x };

    ghost in_range = { λ _ x. T.in_range x };

    ghost is_ready = { λ _ x. T.is_ready x };

    fn spell<S: Sink>(&self, item: &T, out: &mut S) -> Result<(), Refusal> {
        item.encode(out)
    }
}

/// `EncodedBy(item, way)`: one item, encoded in that way.
#[derive(Clone, Copy)]
pub struct EncodedBy<'a, T, W>(pub &'a T, pub W);

impl<'a, T, W: EncodeWith<T>> Encode for EncodedBy<'a, T, W> {
    ghost spelling = { λ s. W.spelling s.1 s.0.now };

    ghost in_range = { λ s. W.in_range s.1 s.0.now };

    ghost is_ready = { λ s. W.is_ready s.1 s.0.now };

    fn encode<S: Sink>(&self, out: &mut S) -> Result<(), Refusal> {
        self.1.spell(self.0, out)
    }
}

/// A value if there is one, and otherwise no bytes.
impl<T: Encode> Encode for Option<T> {
    ghost spelling = { λ o. flat_map T.spelling (option_to_list o) };

    ghost in_range = { λ o. All T.in_range (option_to_list o) };

    ghost is_ready = { λ o. list_all T.is_ready (option_to_list o) };

    fn encode<S: Sink>(&self, out: &mut S) -> Result<(), Refusal> {
        match self {
            None => Ok(()),
            Some(value) => value.encode(out),
        }
    }
}

/// `Each(items, way)`: the items one after another, without a count (binary format: grammar).
///
/// For example, `Each(&[1u8, 2u8], AsItself)` is `01 02`.
#[derive(Clone, Copy)]
pub struct Each<'a, T, W>(pub &'a [T], pub W);

impl<'a, T, W: EncodeWith<T>> Encode for Each<'a, T, W> {
    ghost spelling = { λ s. flat_map (W.spelling s.1) s.0.now };

    ghost in_range = { λ s. All (W.in_range s.1) s.0.now };

    ghost is_ready = { λ s. list_all (W.is_ready s.1) s.0.now };

    fn encode<S: Sink>(&self, out: &mut S) -> Result<(), Refusal> {
        let start = out.size();
        for item in self.0 {
            let result = self.1.spell(item, out);
            if result.is_err() {
                out.cut(start);
                return result;
            }
        }
        Ok(())
    }
}

/// `Counted(items, way)`: the number of items, then the items (binary format: lists).
///
/// 2^32 items or more are out of range.
///
/// # Example
///
///     let types = [ValType::F32, ValType::F64, ValType::V128];
///     let list = WithLength(Counted(&types, AsItself));
///     is_spelled(&rt, alloc, &list, &[4, 3, 0x7d, 0x7c, 0x7b]);
#[derive(Clone, Copy)]
pub struct Counted<'a, T, W>(pub &'a [T], pub W);

impl<'a, T, W: EncodeWith<T> + Copy> Encode for Counted<'a, T, W> {
    ghost spelling = { λ s. vec (W.spelling s.1) s.0.now };

    ghost in_range = { λ s. InRangeVec (W.in_range s.1) s.0.now };

    ghost is_ready = { λ s. list_all (W.is_ready s.1) s.0.now };

    fn encode<S: Sink>(&self, out: &mut S) -> Result<(), Refusal> {
        let Ok(count) = u32::try_from(self.0.len()) else {
            return Err(Refusal::TooLarge);
        };
        (count, Each(self.0, self.1)).encode(out)
    }
}

/// Bytes, without a length (binary format: bytes).
#[derive(Clone, Copy)]
pub struct Raw<'a>(pub &'a [u8]);

impl<'a> Encode for Raw<'a> {
    ghost spelling = { λ s. s.0.now };

    ghost in_range = { Any };

    ghost is_ready = { λ _. true };

    fn encode<S: Sink>(&self, out: &mut S) -> Result<(), Refusal> {
        out.push_bytes(self.0)
    }
}

/// Returns how many bytes the encoding of a value has, without storing them.
///
/// For example, it returns 3 for the name `ab`: a length and two bytes.
///
/// # Errors
///
/// [`Refusal::TooLarge`], E10, only if the encoding has 2^32 bytes or more, or a number, count or
/// length in the value is out of range.
pub fn length_of<T: Encode>(value: &T) -> Result<u32, Refusal>
    requires { IsTrue (T.is_ready value.now) }
    ensures ok { IfOk result (λ n. (n ≡ length (T.spelling value.now)) × T.in_range value.now) }
    ensures err { IfErr result (λ e. (e ≡ refusal.TooLarge) × (InRangeSized T.in_range T.spelling value.now → ⊥)) }
{
    let mut length = Length::new();
    value.encode(&mut length)?;
    match u32::try_from(length.count()) {
        Ok(count) => Ok(count),
        Err(_) => Err(Refusal::TooLarge),
    }
}

/// A value after the number of its bytes, as in a section or a body (binary format: sections).
///
/// A value of 2^32 bytes or more is out of range.
///
/// # Example
///
///     let nested = WithLength(WithLength(WithLength(Raw(&bytes))));
///     let mut length = Length::new();
///     assert!(rt; nested.encode(&mut length).is_ok());
#[derive(Clone, Copy)]
pub struct WithLength<T>(pub T);

/// Appends the length of a value, and the value. A sink that can skip only counts the value.
fn put_sized<T: Encode, S: Sink>(out: &mut S, size: u64, value: &T) -> Result<(), Refusal>
    requires ready { IsTrue (T.is_ready value.now) }
    requires range { T.in_range value.now }
    requires size { size ≡ length (T.spelling value.now) }
    ensures { Writes S.rules (Unit {0}) out.old out.new (length_prefixed T.spelling value.now) result }
{
    let start = out.size();
    out.push_number(size)?;
    if out.skip(size) {
        return Ok(());
    }
    let second = value.encode(out);
    if second.is_err() {
        out.cut(start);
    }
    second
}

/// Counts the length of a value, then appends both, for a sink that cannot replace bytes.
///
/// Counting encodes the value once more, so a value inside d lengths is encoded d + 1 times.
fn put_counted<T: Encode, S: Sink>(out: &mut S, value: &T) -> Result<(), Refusal>
    requires { IsTrue (T.is_ready value.now) }
    ensures { Writes S.rules (InRangeSized T.in_range T.spelling value.now) out.old out.new (length_prefixed T.spelling value.now) result }
{
    let size = length_of(value)?;
    put_sized(out, u64::from(size), value)
}

impl<T: Encode> Encode for WithLength<T> {
    ghost spelling = { λ s. length_prefixed T.spelling s.0 };

    ghost in_range = { λ s. InRangeSized T.in_range T.spelling s.0 };

    ghost is_ready = { λ s. T.is_ready s.0 };

    fn encode<S: Sink>(&self, out: &mut S) -> Result<(), Refusal> {
        // One byte reserves the position of the length, which is known after the value is written.
        let start = out.size();
        out.push_bytes(&[0])?;
        // A sink that cannot replace bytes returns false here, before the value is written.
        // Otherwise each level would write its value twice, and d levels 2^d times.
        if !out.set_number(start, 0) {
            out.cut(start);
            return put_counted(out, &self.0);
        }
        let value = self.0.encode(out);
        if value.is_err() {
            out.cut(start);
            return value;
        }
        let size = out.size() - start - 1;
        if u32::try_from(size).is_err() {
            out.cut(start);
            return Err(Refusal::TooLarge);
        }
        if out.set_number(start, size) {
            return Ok(());
        }
        out.cut(start);
        put_sized(out, size, &self.0)
    }
}

/// A text as a name: the number of its bytes, then its bytes (binary format: names).
///
/// For example, `Name("f")` is `01 66`. A text of 2^32 bytes or more is out of range.
#[derive(Clone, Copy)]
pub struct Name<'a>(pub &'a str);

impl<'a> Encode for Name<'a> {
    ghost spelling = { λ n. name n.0.now };

    ghost in_range = { λ n. InRangeName n.0.now };

    ghost is_ready = { λ _. true };

    fn encode<S: Sink>(&self, out: &mut S) -> Result<(), Refusal> {
        let length = self.0.len() as u64;
        if u32::try_from(length).is_err() {
            return Err(Refusal::TooLarge);
        }
        put_sized(out, length, &Raw(self.0.as_bytes()))
    }
}

/// Appends a name: the number of its bytes, then its bytes (binary format: names).
///
///     write_name(out, "f")?;      // 01 66
///
/// A name of 2^32 bytes or more is out of range.
pub fn write_name<'e, S: Sink>(out: &mut S, text: &str) -> Result<(), Error<'e>>
    ensures { Puts S.rules (InRangeName text.now) out.old out.new (name text.now) result }
{
    Ok(Name(text).encode(out)?)
}
