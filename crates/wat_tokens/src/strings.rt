//! Reads strings of the text format.

ghost use Rattle.std.specs.Prelude.{◌≡◌, ◌≢◌, ◌<◌, ◌≤◌, ◌+◌, ◌-◌, ◌^◌, ◌++◌, ◌∷◌, [], not, length, take, drop};
ghost use Rattle.std.specs.Prelude.{true, map, replicate, None, Some, Ok, Err, IfOk, IfSome, IfErr, MatchOption, MatchResult};
ghost use Rattle.std.specs.Simd.Lanes.{mask_l};
ghost use Rattle.wat_grammar.specs.Characters.{hexdigit};
ghost use Rattle.wat_grammar.specs.Parts.{front};
ghost use Rattle.wat_grammar.specs.Strings.{is_raw, braced, unicode, byte, escape, stringelem, string};
ghost use Rattle.wat_tokens.specs.Strings.{added, character, scalar_in, opened, element_fault, begins_raw, Takes, Spells, spelled, string_places};
ghost use Rattle.wat_tokens.specs.declared.faults.TextFault.TheVariants as fault;

use crate::faults::TextFault;
use crate::integers::magnitude;
use bumpalo::Bump;
use std::alloc::{AllocError, Global};
use std::simd::prelude::*;

/// Keeps strings with escapes, for as long as the tree that is read lives.
///
/// For example, the two bytes 61 0a of `"a\n"` are kept here, and `"ab"` is a part of the text.
#[derive(Drop)]
pub struct Strings {
    bump: Bump,
}

impl Strings {
    /// Makes an empty store for strings.
    ///
    /// For example, `read(alloc, text, &Strings::new(alloc))` reads a module.
    pub fn new(alloc: Global) -> Strings {
        Strings {
            bump: Bump::new(alloc),
        }
    }

    /// Allocates a copy of bytes, and keeps it for as long as the strings live.
    ///
    /// For example, the text that the strings of `(module quote ..)` make is kept so.
    pub fn keep(&self, bytes: &[u8]) -> Result<&[u8], TextFault>
        ensures { MatchResult result (λ kept. kept.now ≡ bytes.now) (λ f. f ≡ fault.Memory) }
    {
        match self.bump.try_alloc_slice_copy(bytes) {
            Ok(kept) => Ok(kept),
            Err(_) => Err(TextFault::Memory),
        }
    }

    /// Returns the bytes of a string, for the text between its quotes (text format: strings).
    ///
    /// For example, `a\n` has the bytes 61 0a, and `\u{e9}` has c3 a9. If there are escapes, it
    /// allocates a copy, which is kept here. Otherwise the result is `content`.
    ///
    /// # Errors
    ///
    /// [`TextFault::Escape`] for a wrong escape, and [`TextFault::StringCharacter`] for a control
    /// character or a quote, with the offset in `content`.
    #[tactic(auto, using(crate::proofs::Elements::all_raw))]
    pub fn read<'a>(&'a self, alloc: Global, content: &'a [u8]) -> Result<&'a [u8], StringError>
        ensures read { MatchResult result (λ bytes. string content.now ≡ Ok bytes.now) (λ e. e.fault ≢ fault.Memory → (string content.now ≡ Err e.offset) × (e.fault ≡ element_fault (drop e.offset content.now))) }
        ensures offset { IfErr result (λ e. e.offset ≤ length content.now) }
    {
        if raw_length(content) == content.len() {
            return Ok(content);
        }
        match unescaped(alloc, content) {
            Ok(bytes) => match self.keep(bytes.as_slice()) {
                Ok(kept) => Ok(kept),
                Err(fault) => Err(StringError { fault, offset: 0 }),
            },
            Err(error) => Err(error),
        }
    }
}

/// An error in a string (text format: strings).
///
/// For example, `a\q` has [`TextFault::Escape`] at offset 1.
#[derive(Clone, Copy, Debug, PartialEq, Eq)]
pub struct StringError {
    /// What is wrong.
    pub fault: TextFault,
    /// How many bytes come before the wrong character or escape, without the first quote.
    pub offset: usize,
}

/// Returns whether a byte of a string is itself: not a control character, a quote or a backslash (text format: strings).
fn is_raw(byte: u8) -> bool
    ensures { result ≡ is_raw byte }
{
    byte >= 0x20 && byte != 0x7f && byte != b'"' && byte != b'\\'
}

/// Returns a bit for each byte, from the lowest on: 1 if the byte is not itself in a string.
#[inline(always)]
fn not_raw_bits(bytes: u8x16) -> u64
    ensures { result ≡ mask_l (map (λ c. not (is_raw c)) bytes) }
{
    (bytes.simd_lt(u8x16::splat(0x20))
        | bytes.simd_eq(u8x16::splat(0x7f))
        | bytes.simd_eq(u8x16::splat(b'"'))
        | bytes.simd_eq(u8x16::splat(b'\\'))).to_bitmask()
}

/// Returns how many of the first 16 bytes of a text come before one that is not itself in a string,
/// or 0 for a shorter text.
#[inline(always)]
fn raw_run(text: &[u8]) -> usize
    ensures short { result ≤ length text.now }
    ensures front { result ≤ length (front is_raw text.now) }
{
    if text.len() < 16 {
        return 0;
    }
    let found = not_raw_bits(u8x16::from_slice(text));
    if found != 0 {
        return found.trailing_zeros() as usize;
    }
    16
}

/// Returns how many bytes at the start of a text are themselves in a string.
#[tactic(auto, using(crate::proofs::Fronts::front_none))]
fn raw_length(text: &[u8]) -> usize
    ensures { result ≡ length (front is_raw text.now) }
{
    let mut rest = text;
    for _ in 0..text.len() {
        rest = match rest {
            [] => break,
            [byte, more @ ..] => match is_raw(*byte) {
                true => &more[raw_run(more)..],
                false => break,
            },
        };
    }
    text.len() - rest.len()
}

/// For each byte, its value as a hexadecimal digit, or 16 if it is not one.
static DIGITS: [u8; 256] = [
    16, 16, 16, 16, 16, 16, 16, 16, 16, 16, 16, 16, 16, 16, 16, 16, 16, 16, 16, 16, 16, 16, 16, 16,
    16, 16, 16, 16, 16, 16, 16, 16, 16, 16, 16, 16, 16, 16, 16, 16, 16, 16, 16, 16, 16, 16, 16, 16,
    0, 1, 2, 3, 4, 5, 6, 7, 8, 9, 16, 16, 16, 16, 16, 16, 16, 10, 11, 12, 13, 14, 15, 16, 16, 16,
    16, 16, 16, 16, 16, 16, 16, 16, 16, 16, 16, 16, 16, 16, 16, 16, 16, 16, 16, 16, 16, 16, 16, 10,
    11, 12, 13, 14, 15, 16, 16, 16, 16, 16, 16, 16, 16, 16, 16, 16, 16, 16, 16, 16, 16, 16, 16, 16,
    16, 16, 16, 16, 16, 16, 16, 16, 16, 16, 16, 16, 16, 16, 16, 16, 16, 16, 16, 16, 16, 16, 16, 16,
    16, 16, 16, 16, 16, 16, 16, 16, 16, 16, 16, 16, 16, 16, 16, 16, 16, 16, 16, 16, 16, 16, 16, 16,
    16, 16, 16, 16, 16, 16, 16, 16, 16, 16, 16, 16, 16, 16, 16, 16, 16, 16, 16, 16, 16, 16, 16, 16,
    16, 16, 16, 16, 16, 16, 16, 16, 16, 16, 16, 16, 16, 16, 16, 16, 16, 16, 16, 16, 16, 16, 16, 16,
    16, 16, 16, 16, 16, 16, 16, 16, 16, 16, 16, 16, 16, 16, 16, 16, 16, 16, 16, 16, 16, 16, 16, 16,
    16, 16, 16, 16, 16, 16, 16, 16, 16, 16, 16, 16, 16, 16,
];

/// Returns the value of a hexadecimal digit, or `None` if the byte is not one.
pub(crate) fn hex_digit(byte: u8) -> Option<u8>
    ensures value { result ≡ hexdigit byte }
    ensures below { IfSome result (λ d. d < 16) }
{
    let digit = DIGITS[byte as usize];
    if digit < 16 {
        return Some(digit);
    }
    None
}

/// Returns how many bytes come before the first `}`.
#[tactic(auto, using(crate::proofs::Braces::braced_more, crate::proofs::Braces::braced_at, crate::proofs::Braces::braced_end))]
fn braced_length(text: &[u8]) -> Option<usize>
    ensures { MatchOption result (braced text.now ≡ None) (λ n. (n < length text.now) × (braced text.now ≡ Some (take n text.now, drop (n + 1) text.now))) }
{
    for (count, byte) in text.iter().enumerate() {
        if *byte == b'}' {
            return Some(count);
        }
    }
    None
}

/// Returns the character of a number, if there is one.
fn character(number: u64) -> Option<char>
    ensures { result ≡ character number }
{
    match u32::try_from(number) {
        Ok(number) => char::from_u32(number),
        Err(_) => None,
    }
}

/// Returns the character whose number these hexadecimal digits are, if there is one.
fn numbered(digits: &[u8]) -> Option<char>
    ensures { result ≡ scalar_in digits.now }
{
    match magnitude(digits, true) {
        Ok(number) => character(number),
        Err(_) => None,
    }
}

/// Appends the character whose number is before the first `}`, and returns the text after it.
#[tactic(auto, using(crate::proofs::Scalars::scalar_some, crate::proofs::Scalars::scalar_none, crate::proofs::Scalars::unclosed))]
fn scalar<'a>(out: &mut Vec<u8>, text: &'a [u8]) -> Result<&'a [u8], TextFault>
    ensures { MatchResult result (λ rest. added out.old.items (unicode text.now) ≡ Some (out.new.items, rest.now)) (λ f. f ≢ fault.Memory → (f ≡ fault.Escape) × (unicode text.now ≡ None)) }
{
    let Some(count) = braced_length(text) else {
        return Err(TextFault::Escape);
    };
    let Some(character) = numbered(&text[..count]) else {
        return Err(TextFault::Escape);
    };
    let mut buffer = [0; 4];
    match out.extend_from_slice(character.encode_utf8(&mut buffer).as_bytes()) {
        Ok(()) => Ok(&text[count + 1..]),
        Err(_) => Err(TextFault::Memory),
    }
}

/// Appends the character of `{hexnum}`, which the text begins with, and returns the text after it.
fn opened<'a>(out: &mut Vec<u8>, text: &'a [u8]) -> Result<&'a [u8], TextFault>
    ensures { MatchResult result (λ rest. added out.old.items (opened text.now) ≡ Some (out.new.items, rest.now)) (λ f. f ≢ fault.Memory → (f ≡ fault.Escape) × (opened text.now ≡ None)) }
{
    match text {
        [b'{', rest @ ..] => scalar(out, rest),
        _ => Err(TextFault::Escape),
    }
}

/// Appends a byte, and returns the text after it.
fn put<'a>(out: &mut Vec<u8>, byte: u8, rest: &'a [u8]) -> Result<&'a [u8], TextFault>
    ensures { MatchResult result (λ r. (r.now ≡ rest.now) × (out.new.items ≡ out.old.items ++ byte ∷ [])) (λ f. f ≡ fault.Memory) }
{
    match out.push(byte) {
        Ok(()) => Ok(rest),
        Err(_) => Err(TextFault::Memory),
    }
}

/// Appends the byte of two hexadecimal digits, and returns the text after them.
fn pair<'a>(out: &mut Vec<u8>, high: u8, text: &'a [u8]) -> Result<&'a [u8], TextFault>
    ensures { MatchResult result (λ rest. added out.old.items (byte (high ∷ text.now)) ≡ Some (out.new.items, rest.now)) (λ f. f ≢ fault.Memory → (f ≡ fault.Escape) × (byte (high ∷ text.now) ≡ None)) }
{
    let [low, rest @ ..] = text else {
        return Err(TextFault::Escape);
    };
    match (hex_digit(high), hex_digit(*low)) {
        (Some(high), Some(low)) => put(out, high * 16 + low, rest),
        _ => Err(TextFault::Escape),
    }
}

/// Appends the bytes of an escape, whose first character after the backslash is `kind`, and returns the text after it.
fn escape<'a>(out: &mut Vec<u8>, kind: u8, text: &'a [u8]) -> Result<&'a [u8], TextFault>
    ensures { MatchResult result (λ rest. added out.old.items (escape (kind ∷ text.now)) ≡ Some (out.new.items, rest.now)) (λ f. f ≢ fault.Memory → (f ≡ fault.Escape) × (escape (kind ∷ text.now) ≡ None)) }
{
    match kind {
        b't' => put(out, b'\t', text),
        b'n' => put(out, b'\n', text),
        b'r' => put(out, b'\r', text),
        b'"' | b'\'' | b'\\' => put(out, kind, text),
        b'u' => opened(out, text),
        _ => pair(out, kind, text),
    }
}

/// Appends the bytes of the element that a text begins with, and returns the text after it (text format: strings).
fn element<'a>(out: &mut Vec<u8>, text: &'a [u8]) -> Result<&'a [u8], TextFault>
    ensures { MatchResult result (λ rest. added out.old.items (stringelem text.now) ≡ Some (out.new.items, rest.now)) (λ f. f ≢ fault.Memory → (f ≡ element_fault text.now) × (stringelem text.now ≡ None)) }
{
    match text {
        [b'\\', kind, rest @ ..] => escape(out, *kind, rest),
        [b'\\'] | [] => Err(TextFault::Escape),
        [byte, rest @ ..] => match is_raw(*byte) {
            true => put(out, *byte, rest),
            false => Err(TextFault::StringCharacter),
        },
    }
}

/// Returns whether a text begins with a byte that is itself in a string.
fn begins_raw(text: &[u8]) -> bool
    ensures { result ≡ begins_raw text.now }
{
    match text {
        [first, ..] => is_raw(*first),
        [] => false,
    }
}

/// Appends the bytes at the start of a text that are themselves in a string, and returns the text after them.
#[tactic(auto, using(crate::proofs::Fronts::front_short, crate::proofs::Elements::takes_run))]
fn put_raw<'a>(out: &mut Vec<u8>, text: &'a [u8]) -> Result<&'a [u8], TextFault>
    requires raw { begins_raw text.now ≡ true }
    ensures { MatchResult result (λ rest. Takes text.now rest.now out.old.items out.new.items) (λ f. f ≡ fault.Memory) }
{
    let count = raw_length(text);
    match out.extend_from_slice(&text[..count]) {
        Ok(()) => Ok(&text[count..]),
        Err(_) => Err(TextFault::Memory),
    }
}

/// Returns the byte of an escape of two hexadecimal digits that a text begins with, and the text
/// after it.
#[inline(always)]
#[tactic(auto, using(crate::proofs::Elements::hex_element))]
fn hex_escape<'a>(text: &'a [u8]) -> Option<(u8, &'a [u8])>
    ensures { IfSome result (λ r. stringelem text.now ≡ Some (r.0 ∷ [], r.1.now)) }
{
    let [b'\\', high, low, rest @ ..] = text else {
        return None;
    };
    match (hex_digit(*high), hex_digit(*low)) {
        (Some(high), Some(low)) => Some((high * 16 + low, rest)),
        _ => None,
    }
}

/// Appends the bytes of all elements up to an escape, or of an escape, and returns the text after
/// them.
///
/// An escape of two hexadecimal digits is tried first, because the strings of data segments have
/// few others.
#[inline(always)]
#[tactic(auto, using(crate::proofs::Elements::takes_element))]
fn some_elements<'a>(out: &mut Vec<u8>, text: &'a [u8]) -> Result<&'a [u8], TextFault>
    ensures { MatchResult result (λ rest. Takes text.now rest.now out.old.items out.new.items) (λ f. f ≢ fault.Memory → (f ≡ element_fault text.now) × (stringelem text.now ≡ None)) }
{
    if let Some((byte, rest)) = hex_escape(text) {
        return put(out, byte, rest);
    }
    match begins_raw(text) {
        true => put_raw(out, text),
        false => element(out, text),
    }
}

/// Returns the bytes of a string that has escapes.
#[tactic(auto, using(crate::proofs::Elements::started, crate::proofs::Elements::past, crate::proofs::Elements::stuck, crate::proofs::Elements::done, crate::proofs::Elements::run_out, crate::proofs::Elements::empty_is))]
fn unescaped(alloc: Global, content: &[u8]) -> Result<Vec<u8>, StringError>
    ensures offset { IfErr result (λ e. e.offset ≤ length content.now) }
    ensures read { MatchResult result (λ bytes. string content.now ≡ Ok bytes.items) (λ e. e.fault ≢ fault.Memory → (string content.now ≡ Err e.offset) × (e.fault ≡ element_fault (drop e.offset content.now))) }
{
    let Ok(mut out) = Vec::with_capacity(alloc, content.len()) else {
        return Err(StringError {
            fault: TextFault::Memory,
            offset: 0,
        });
    };
    let mut rest = content;
    for _ in 0..content.len() {
        if rest.is_empty() {
            return Ok(out);
        }
        match some_elements(&mut out, rest) {
            Ok(more) => rest = more,
            Err(fault) => return Err(StringError {
                fault,
                offset: content.len() - rest.len(),
            }),
        }
    }
    Ok(out)
}

/// Appends a number `count` times.
fn push_times(numbers: &mut Vec<usize>, number: usize, count: usize) -> Result<(), AllocError>
    ensures { IfOk result (λ u. numbers.new.items ≡ numbers.old.items ++ replicate count number) }
{
    for _ in 0..count {
        if numbers.push(number).is_err() {
            return Err(AllocError);
        }
    }
    Ok(())
}

/// Appends the position of the element at the start of a text, once for each of its bytes, and
/// returns the text after it. `out` is cleared, and takes the bytes.
#[tactic(auto, using(crate::proofs::Elements::spells))]
fn element_places<'a>(
    out: &mut Vec<u8>,
    places: &mut Vec<usize>,
    text: &'a [u8],
    at: usize,
) -> Result<&'a [u8], TextFault>
    ensures places { MatchResult result (λ rest. Spells text.now rest.now at places.old.items places.new.items) (λ f. f ≢ fault.Memory → (stringelem text.now ≡ None) × (places.new.items ≡ places.old.items)) }
    ensures shorter { IfOk result (λ rest. length rest.now ≤ length text.now) }
{
    out.clear();
    match element(out, text) {
        Ok(rest) => match push_times(places, at, out.len()) {
            Ok(()) => Ok(rest),
            Err(_) => Err(TextFault::Memory),
        },
        Err(fault) => Err(fault),
    }
}

/// Returns the position of `rest`, which is a suffix of `text`, if `text` is at `at`.
fn place_after(at: usize, text: &[u8], rest: &[u8]) -> usize
    requires shorter { length rest.now ≤ length text.now }
    requires fits { at + length text.now < 2 ^ 64 }
    ensures { result ≡ at + (length text.now - length rest.now) }
{
    at + (text.len() - rest.len())
}

/// Returns the position of each byte of the elements of a text, of `count` elements at most.
fn spelled_places(
    alloc: Global,
    text: &[u8],
    at: usize,
    count: usize,
) -> Result<Vec<usize>, TextFault>
    requires fits { at + length text.now < 2 ^ 64 }
    ensures { MatchResult result (λ places. places.items ≡ spelled count at text.now) (λ f. f ≡ fault.Memory) }
{
    let mut out = Vec::new(alloc);
    let mut places = Vec::new(alloc);
    let mut rest = text;
    let mut place = at;
    for _ in 0..count {
        match element_places(&mut out, &mut places, rest, place) {
            Ok(more) => {
                place = place_after(place, rest, more);
                rest = more;
            }
            Err(fault) => match fault {
                TextFault::Memory => return Err(fault),
                _ => return Ok(places),
            },
        }
    }
    Ok(places)
}

/// Returns the position of each byte of a string of `count` bytes. `text` begins with its first
/// quote, and `at` is the position of that. It allocates a list.
///
/// All bytes of an escape have the position of its backslash. For example, the positions for
/// `"a\nb"` at 7 are 8, 9 and 11.
pub fn string_places(
    alloc: Global,
    text: &[u8],
    at: usize,
    count: usize,
) -> Result<Vec<usize>, TextFault>
    requires fits { at + length text.now < 2 ^ 64 }
    ensures { MatchResult result (λ places. places.items ≡ string_places count at text.now) (λ f. f ≡ fault.Memory) }
{
    match text {
        [_, content @ ..] => spelled_places(alloc, content, at + 1, count),
        [] => Ok(Vec::new(alloc)),
    }
}
