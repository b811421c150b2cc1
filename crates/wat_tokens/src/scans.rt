//! Cuts a text into tokens.

ghost use Rattle.std.specs.Prelude.{◌≡◌, ◌≢◌, ◌==◌, ◌&&◌, ◌||◌, ◌<◌, ◌≤◌, ◌+◌, ◌-◌, ◌++◌, suc, true, false, not, length, drop, map, Some, None, IsUtf8, IsCharBoundary, All, IfOk, IfErr, MatchOption, MatchResult};
ghost use Rattle.std.specs.Simd.Lanes.{mask_l};
ghost use Rattle.wat_grammar.specs.Parts.{front};
ghost use Rattle.wat_grammar.specs.Space.{is_blank, is_linechar, blockcomment};
ghost use Rattle.wat_grammar.specs.Tokens.{is_idchar, is_reserved, id_chars, string_length, has_meaning, a_string, a_name, an_id, ends, one_token, skipped_open, skipped_part, skipped, annotation, opened, string_token, id_token, word, part, tokens, bytes_of, as_written};
ghost use Rattle.wat_tokens.specs.Groups.{all_in, tokens_in, IsCounted};
ghost use Rattle.wat_tokens.specs.Scans.{after_these, id_of, seen, seen_all, placed, contents_of, token_of, first_of, is_first, begins_of, kind_of, IsNamed, IsNamedPart, IsRead, IsName, IsFault, IsInside, Reads, Skips};
ghost use Rattle.wat_tokens.specs.declared.faults.TextFault.TheVariants as fault;

use crate::faults::{TextError, TextFault};
use crate::groups::{Grouping, TokenGroups};
use crate::strings::Strings;
use crate::tokens::{Annotation, Placed, Token};
use crate::words::look_up;
use std::alloc::Global;
use std::simd::prelude::*;
use std::str;
use wast_base::Span;

/// For each byte, whether ids, keywords and numbers can contain it (text format: identifiers).
static WORD_BYTES: [bool; 256] = [
    false, false, false, false, false, false, false, false, false, false, false, false, false,
    false, false, false, false, false, false, false, false, false, false, false, false, false,
    false, false, false, false, false, false, false, true, false, true, true, true, true, true,
    false, false, true, true, false, true, true, true, true, true, true, true, true, true, true,
    true, true, true, true, false, true, true, true, true, true, true, true, true, true, true,
    true, true, true, true, true, true, true, true, true, true, true, true, true, true, true, true,
    true, true, true, true, true, false, true, false, true, true, true, true, true, true, true,
    true, true, true, true, true, true, true, true, true, true, true, true, true, true, true, true,
    true, true, true, true, true, true, false, true, false, true, false, false, false, false,
    false, false, false, false, false, false, false, false, false, false, false, false, false,
    false, false, false, false, false, false, false, false, false, false, false, false, false,
    false, false, false, false, false, false, false, false, false, false, false, false, false,
    false, false, false, false, false, false, false, false, false, false, false, false, false,
    false, false, false, false, false, false, false, false, false, false, false, false, false,
    false, false, false, false, false, false, false, false, false, false, false, false, false,
    false, false, false, false, false, false, false, false, false, false, false, false, false,
    false, false, false, false, false, false, false, false, false, false, false, false, false,
    false, false, false, false, false, false, false, false, false, false, false, false, false,
    false, false, false, false, false, false, false, false,
];

/// Returns whether ids, keywords and numbers can contain a byte (text format: identifiers).
fn is_word_byte(byte: u8) -> bool
    ensures { result ≡ is_idchar byte }
{
    WORD_BYTES[byte as usize]
}

/// Returns how many bytes at the start of a text can be in an id, a keyword or a number.
#[tactic(auto, using(crate::proofs::Fronts::front_more, crate::proofs::Fronts::front_stop, crate::proofs::Fronts::front_end))]
fn word_length(text: &[u8]) -> usize
    ensures short { result ≤ length text.now }
    ensures front { result ≡ length (front is_idchar text.now) }
{
    for (count, byte) in text.iter().enumerate() {
        if !is_word_byte(*byte) {
            return count;
        }
    }
    text.len()
}

/// Returns how many spaces, tabs and line ends a text begins with.
///
/// It tests for their end before the loop too, because most words have one space before them. It
/// skips four spaces at a time, because most lines of a printed module are indented.
#[tactic(auto, using(crate::proofs::FirstBytes::dark_stops))]
fn blank_length(text: &[u8]) -> usize
    ensures short { result ≤ length text.now }
    ensures front { result ≡ length (front is_blank text.now) }
{
    if let [b'!'..=0xff, ..] = text {
        return 0;
    }
    let mut rest = text;
    for _ in 0..text.len() {
        rest = match rest {
            [b'!'..=0xff, ..] => break,
            [b' ', b' ', b' ', b' ', more @ ..] => more,
            [b' ' | b'\n' | b'\t' | b'\r', more @ ..] => more,
            _ => break,
        };
    }
    text.len() - rest.len()
}

/// Returns a bit for each byte, from the lowest on: 1 if the byte is one of two.
#[inline(always)]
fn either_bits(bytes: u8x16, one: u8, other: u8) -> u64
    ensures { result ≡ mask_l (map (λ c. c == one || c == other) bytes) }
{
    (bytes.simd_eq(u8x16::splat(one)) | bytes.simd_eq(u8x16::splat(other))).to_bitmask()
}

/// Returns how many of the first 16 bytes of a text come before one of two, or 0 for a shorter
/// text.
#[inline(always)]
fn neither_length(text: &[u8], one: u8, other: u8) -> usize
    ensures short { result ≤ length text.now }
    ensures front { result ≤ length (front (λ c. not (c == one || c == other)) text.now) }
{
    if text.len() < 16 {
        return 0;
    }
    let found = either_bits(u8x16::from_slice(text), one, other);
    if found != 0 {
        return found.trailing_zeros() as usize;
    }
    16
}

/// Returns how many bytes there are before the end of the line.
#[inline(never)]
fn line_length(text: &[u8]) -> usize
    ensures short { result ≤ length text.now }
    ensures front { result ≡ length (front is_linechar text.now) }
{
    let mut rest = text;
    for _ in 0..text.len() {
        rest = match rest {
            [] => break,
            [b'\n', ..] => break,
            [b'\r', ..] => break,
            [_, more @ ..] => &more[neither_length(more, b'\n', b'\r')..],
        };
    }
    text.len() - rest.len()
}

/// Returns whether a text begins with a byte.
fn begins(text: &[u8], byte: u8) -> bool
    ensures { result ≡ is_first byte text.now }
{
    match text {
        [first, ..] => *first == byte,
        [] => false,
    }
}

/// Returns the length of a block comment after its `(;`, including its `;)`, or `None` if it has no
/// end. Comments nest.
#[inline(never)]
fn comment_length(text: &[u8]) -> Option<usize>
    ensures { MatchOption result (blockcomment 0 text.now ≡ None) (λ n. (n ≤ length text.now) × (blockcomment 0 text.now ≡ Some (drop n text.now))) }
{
    let mut depth = 0_usize;
    let mut rest = text;
    for _ in 0..text.len() {
        rest = match rest {
            [] => return None,
            [b'(', more @ ..] => {
                if begins(more, b';') {
                    depth += 1;
                    &more[1..]
                } else {
                    more
                }
            }
            [b';', more @ ..] => {
                if begins(more, b')') {
                    if depth == 0 {
                        return Some(text.len() - more.len() + 1);
                    }
                    depth -= 1;
                    &more[1..]
                } else {
                    more
                }
            }
            [_, more @ ..] => &more[neither_length(more, b'(', b';')..],
        };
    }
    None
}

/// Returns the text after the byte that a backslash escapes, for the text after the backslash. It
/// skips one more byte if that is neither a quote nor a backslash, as the second digit of `\01`.
fn after_escaped(text: &[u8]) -> &[u8]
    ensures short { length result.now ≤ length text.now }
    ensures past { string_length true text.now ≡ after_these (length text.now - length result.now) (string_length false result.now) }
{
    match text {
        [] => text,
        [_, rest @ ..] => match rest {
            [] => rest,
            [b'"', ..] => rest,
            [b'\\', ..] => rest,
            [_, later @ ..] => later,
        },
    }
}

/// Returns how many bytes a string has between its quotes, or `None` if it has no end. `text`
/// begins after its first quote.
#[inline(never)]
fn string_length(text: &[u8]) -> Option<usize>
    ensures { MatchOption result (string_length false text.now ≡ None) (λ n. (n < length text.now) × (string_length false text.now ≡ Some n)) }
{
    let mut rest = text;
    for _ in 0..text.len() {
        rest = match rest {
            [] => return None,
            [b'"', ..] => return Some(text.len() - rest.len()),
            [b'\\', more @ ..] => after_escaped(more),
            [_, more @ ..] => &more[neither_length(more, b'"', b'\\')..],
        };
    }
    None
}

/// Returns the annotation with this id, if it has a meaning.
fn annotation(id: &str) -> Option<Annotation>
    ensures { MatchOption result (has_meaning id.now ≡ false) (λ a. (has_meaning id.now ≡ true) × (id_of a ≡ id.now)) }
{
    match id {
        "name" => Some(Annotation::Name),
        "custom" => Some(Annotation::Custom),
        "producers" => Some(Annotation::Producers),
        "dylink.0" => Some(Annotation::Dylink0),
        "metadata.code.branch_hint" => Some(Annotation::BranchHint),
        _ => None,
    }
}

/// Returns whether a token may end before this text.
fn ends(rest: &[u8]) -> bool
    ensures { result ≡ ends rest.now }
{
    match rest {
        [] | [b' ' | b'\n' | b'\t' | b'\r' | b'(' | b')' | b';', ..] => true,
        _ => false,
    }
}

/// Makes an error from a fault and an offset.
fn fault_at(place: usize, fault: TextFault) -> TextError
    ensures fault { result.fault ≡ fault }
    ensures place { result.span.offset ≡ place }
{
    TextError::new(Span { offset: place }, fault)
}

/// What a byte begins outside of strings and comments.
#[derive(Clone, Copy)]
enum Kind {
    /// White space.
    Blank,
    /// `(`
    Open,
    /// `)`
    Close,
    /// `"`
    Quote,
    /// `$`
    Dollar,
    /// `;`
    Semicolon,
    /// A word that is not an id.
    Word,
    /// Nothing.
    Other,
}

/// Returns what a byte begins.
#[inline(always)]
fn byte_kind(byte: u8) -> Kind
    ensures { result ≡ kind_of byte }
{
    match byte {
        b' ' | b'\n' | b'\t' | b'\r' => Kind::Blank,
        b'(' => Kind::Open,
        b')' => Kind::Close,
        b'"' => Kind::Quote,
        b'$' => Kind::Dollar,
        b';' => Kind::Semicolon,
        byte => match is_word_byte(byte) {
            true => Kind::Word,
            false => Kind::Other,
        },
    }
}

/// The bytes of a string, and the offset after it.
#[derive(Clone, Copy)]
struct Bytes<'a> {
    bytes: &'a [u8],
    end: usize,
}

/// A name or a word, and the offset after it.
#[derive(Clone, Copy)]
struct Name<'a> {
    name: &'a str,
    end: usize,
}

/// A part of an annotation: whether it opens a parenthesis, and the offset after it.
#[derive(Clone, Copy)]
struct Skipped {
    opens: bool,
    end: usize,
}

/// Returns a part of an annotation that ends at an offset and opens no parenthesis.
fn skipped_to(end: usize) -> Skipped
    ensures opens { result.opens ≡ false }
    ensures end { result.end ≡ end }
{
    Skipped { opens: false, end }
}

/// Returns whether a byte is white space, or occurs only in reserved tokens.
fn is_blank_or_reserved(byte: u8) -> bool
    ensures { result ≡ (is_blank byte || is_reserved byte) }
{
    matches!(
        byte,
        b' ' | b'\n' | b'\t' | b'\r' | b',' | b';' | b'[' | b']' | b'{' | b'}'
    )
}

/// A part of a text: its token, unless it is skipped, and the offset after it.
#[derive(Clone, Copy)]
struct Part<'a> {
    token: Option<Placed<'a>>,
    end: usize,
}

/// A text that is read.
#[derive(Clone, Copy)]
struct Source<'a> {
    alloc: Global,
    /// Where strings with escapes are kept. If it is `None`, strings stay as they are written.
    strings: Option<&'a Strings>,
    text: &'a str,
}

impl<'a> Source<'a> {
    /// Returns the text from an offset on.
    fn rest(&self, from: usize) -> &'a [u8]
        ensures { result.now ≡ drop from self.now.text.now }
    {
        match self.text.as_bytes().get(from..) {
            Some(rest) => rest,
            None => &[],
        }
    }

    /// Reads the string of a token at `place`, after its first quote.
    #[tactic(auto, using(crate::proofs::Parts::written_string, crate::proofs::Parts::kept_string, crate::proofs::Parts::open_string, crate::proofs::Parts::wrong_string))]
    fn string_at(&self, place: usize, begin: usize) -> Result<Bytes<'a>, TextError>
        requires place { place ≤ begin }
        requires begin { begin ≤ length self.now.text.now }
        ensures { MatchResult result (λ x. IsRead (a_string (contents_of self.now.strings) (drop begin self.now.text.now)) self.now.text.now begin x.bytes.now x.end) (λ e. IsFault (a_string (contents_of self.now.strings) (drop begin self.now.text.now)) self.now.text.now e) }
    {
        let rest = self.rest(begin);
        let Some(count) = string_length(rest) else {
            return Err(fault_at(place, TextFault::OpenString));
        };
        let content = &rest[..count];
        let end = begin + count + 1;
        match self.strings {
            None => Ok(Bytes {
                bytes: content,
                end,
            }),
            Some(strings) => match strings.read(self.alloc, content) {
                Ok(bytes) => Ok(Bytes { bytes, end }),
                Err(error) => Err(fault_at(begin + error.offset, error.fault)),
            },
        }
    }

    /// Reads the name of a token at `place`, after its first quote.
    #[tactic(auto, using(crate::proofs::Parts::read_name, crate::proofs::Parts::no_string, crate::proofs::Parts::no_name))]
    fn name_at(&self, place: usize, begin: usize) -> Result<Name<'a>, TextError>
        requires place { place ≤ begin }
        requires begin { begin ≤ length self.now.text.now }
        ensures { MatchResult result (λ x. IsRead (a_name (contents_of self.now.strings) (drop begin self.now.text.now)) self.now.text.now begin x.name.now x.end) (λ e. IsFault (a_name (contents_of self.now.strings) (drop begin self.now.text.now)) self.now.text.now e) }
    {
        match self.string_at(place, begin) {
            Ok(string) => match str::from_utf8(string.bytes) {
                Ok(name) => Ok(Name {
                    name,
                    end: string.end,
                }),
                Err(_) => Err(fault_at(place, TextFault::Utf8)),
            },
            Err(error) => Err(error),
        }
    }

    /// Returns the word that begins at a place, which may be empty.
    #[tactic(auto, using(crate::proofs::Idchars::word_ends, crate::proofs::Idchars::word_is, crate::proofs::Idchars::word_inside))]
    fn word_at(&self, begin: usize) -> Name<'a>
        requires utf8 { IsUtf8 self.now.text.now }
        requires begin { IsCharBoundary self.now.text.now begin }
        ensures word { result.name.now ≡ front is_idchar (drop begin self.now.text.now) }
        ensures end { result.end ≡ begin + length (front is_idchar (drop begin self.now.text.now)) }
        ensures inside { result.end ≤ length self.now.text.now }
    {
        let end = begin + word_length(self.rest(begin));
        let name = &self.text[begin..end];
        Name { name, end }
    }

    /// Reads a name in quotes or a word, which may be empty, for a token at `place`.
    fn id_chars_at(&self, place: usize, begin: usize) -> Result<Name<'a>, TextError>
        requires utf8 { IsUtf8 self.now.text.now }
        requires place { place ≤ begin }
        requires begin { IsCharBoundary self.now.text.now begin }
        ensures { MatchResult result (λ x. IsName (id_chars (contents_of self.now.strings) (drop begin self.now.text.now)) self.now.text.now begin x.name.now x.end) (λ e. IsFault (id_chars (contents_of self.now.strings) (drop begin self.now.text.now)) self.now.text.now e) }
    {
        match self.rest(begin) {
            [b'"', ..] => self.name_at(place, begin + 1),
            _ => Ok(self.word_at(begin)),
        }
    }

    /// Reads an id without its `$` or `(@`, for a token at `place`.
    #[tactic(auto, using(crate::proofs::Parts::not_empty_is, crate::proofs::Parts::empty_is_none, crate::proofs::Parts::no_id_chars))]
    fn id_at(&self, place: usize, begin: usize, empty: TextFault) -> Result<Name<'a>, TextError>
        requires utf8 { IsUtf8 self.now.text.now }
        requires place { place ≤ begin }
        requires begin { IsCharBoundary self.now.text.now begin }
        ensures { MatchResult result (λ x. IsRead (an_id (contents_of self.now.strings) (drop begin self.now.text.now)) self.now.text.now begin x.name.now x.end) (λ e. IsFault (an_id (contents_of self.now.strings) (drop begin self.now.text.now)) self.now.text.now e) }
    {
        match self.id_chars_at(place, begin) {
            Ok(id) => match id.name.is_empty() {
                true => Err(fault_at(place, empty)),
                false => Ok(id),
            },
            Err(error) => Err(error),
        }
    }

    /// Returns the byte at a place, if the text does not end before it.
    fn byte(&self, place: usize) -> Option<u8>
        ensures { result ≡ first_of (drop place self.now.text.now) }
    {
        self.text.as_bytes().get(place).copied()
    }

    /// Returns whether this byte is at a place.
    fn is_at(&self, place: usize, byte: u8) -> bool
        ensures { result ≡ is_first byte (drop place self.now.text.now) }
    {
        match self.byte(place) {
            Some(first) => first == byte,
            None => false,
        }
    }

    /// Returns the position of the error for a token that may not end at `end`. If a word or a
    /// string touches it, both are one reserved token, and the error is at its start. Otherwise it
    /// is at the character after the token.
    fn touched(&self, place: usize, end: usize) -> usize
        requires place { place < end }
        ensures inside { result ≤ end }
    {
        match self.byte(end) {
            Some(byte) => match byte == b'"' || is_word_byte(byte) {
                true => place,
                false => end,
            },
            None => end,
        }
    }

    /// Returns the part that is this token, if a token may end at `end`. This and all functions
    /// that return a part are inlined into the loop over a text, so that no part is ever in memory.
    #[inline(always)]
    fn one_token(&self, token: Token<'a>, place: usize, end: usize) -> Result<Part<'a>, TextError>
        requires place { place < end }
        requires end { end ≤ length self.now.text.now }
        requires named { IsNamed token }
        ensures end { MatchResult result (λ x. IsInside self.now.text.now place x.end) (λ e. e.span.offset ≤ length self.now.text.now) }
        ensures read { Reads (one_token (seen token.entry) place (drop end self.now.text.now)) self.now.text.now result }
        ensures words { IfOk result (λ x. IsNamedPart x.token) }
    {
        match ends(self.rest(end)) {
            true => {
                let span = Span { offset: place };
                let token = Some(Placed { token, span });
                Ok(Part { token, end })
            }
            false => Err(fault_at(self.touched(place, end), TextFault::Adjacent)),
        }
    }

    /// Reads a block comment at `place`, and returns the offset after it.
    fn comment_at(&self, place: usize) -> Result<usize, TextError>
        requires begin { place + 2 ≤ length self.now.text.now }
        ensures { MatchResult result (λ end. (blockcomment 0 (drop (place + 2) self.now.text.now) ≡ Some (drop end self.now.text.now)) × (place < end) × (end ≤ length self.now.text.now)) (λ e. IsFault (blockcomment 0 (drop (place + 2) self.now.text.now)) self.now.text.now e) }
    {
        let begin = place + 2;
        match comment_length(self.rest(begin)) {
            Some(count) => Ok(begin + count),
            None => Err(fault_at(place, TextFault::OpenComment)),
        }
    }

    /// Reads the id of an annotation whose `(@` is at `place`.
    #[tactic(auto, using(crate::proofs::Ascii::after_byte, crate::proofs::Ascii::below, crate::proofs::Ascii::first_after, crate::proofs::Ascii::first_below))]
    fn annotation_id_at(&self, place: usize) -> Result<Name<'a>, TextError>
        requires utf8 { IsUtf8 self.now.text.now }
        requires at { is_first 0x40 (drop (place + 1) self.now.text.now) ≡ true }
        ensures { MatchResult result (λ x. IsRead (an_id (contents_of self.now.strings) (drop (place + 2) self.now.text.now)) self.now.text.now (place + 2) x.name.now x.end) (λ e. IsFault (an_id (contents_of self.now.strings) (drop (place + 2) self.now.text.now)) self.now.text.now e) }
    {
        self.id_at(place + 1, place + 2, TextFault::EmptyAnnotation)
    }

    /// Reads `(` at `place` in an annotation without a meaning.
    #[tactic(auto, using(crate::proofs::Ascii::below, crate::proofs::Ascii::first_below))]
    fn skipped_open(&self, place: usize) -> Result<Skipped, TextError>
        requires utf8 { IsUtf8 self.now.text.now }
        requires begin { place < length self.now.text.now }
        ensures end { MatchResult result (λ x. IsInside self.now.text.now place x.end) (λ e. e.span.offset ≤ length self.now.text.now) }
        ensures read { Skips (skipped_open (contents_of self.now.strings) (drop (place + 1) self.now.text.now)) self.now.text.now result }
    {
        if self.is_at(place + 1, b';') {
            return match self.comment_at(place) {
                Ok(end) => Ok(Skipped { opens: false, end }),
                Err(error) => Err(error),
            };
        }
        if self.is_at(place + 1, b'@') {
            return match self.annotation_id_at(place) {
                Ok(id) => Ok(Skipped {
                    opens: true,
                    end: id.end,
                }),
                Err(error) => Err(error),
            };
        }
        Ok(Skipped {
            opens: true,
            end: place + 1,
        })
    }

    /// Returns the offset after a line comment whose `;;` is at `place`.
    fn line_comment_end(&self, place: usize) -> usize
        requires begin { place + 2 ≤ length self.now.text.now }
        ensures end { result ≡ place + 2 + length (front is_linechar (drop (place + 2) self.now.text.now)) }
        ensures inside { result ≤ length self.now.text.now }
    {
        place + 2 + line_length(self.rest(place + 2))
    }

    /// Returns whether two semicolons are at a place.
    #[tactic(auto, using(crate::proofs::Ascii::below, crate::proofs::Ascii::first_below, crate::proofs::Ascii::begins))]
    fn begins_line_comment(&self, place: usize) -> bool
        requires begin { place < length self.now.text.now }
        ensures inside { result ≡ true → place + 2 ≤ length self.now.text.now }
        ensures test { result ≡ begins_of (drop place self.now.text.now) }
    {
        self.is_at(place, b';') && self.is_at(place + 1, b';')
    }

    /// Reads a part of an annotation without a meaning, if it does not begin with `)`.
    fn skipped_part(&self, place: usize) -> Result<Skipped, TextError>
        requires utf8 { IsUtf8 self.now.text.now }
        requires begin { place < length self.now.text.now }
        ensures end { MatchResult result (λ x. IsInside self.now.text.now place x.end) (λ e. e.span.offset ≤ length self.now.text.now) }
        ensures read { Skips (skipped_part (contents_of self.now.strings) (drop place self.now.text.now)) self.now.text.now result }
    {
        if self.is_at(place, b'(') {
            return self.skipped_open(place);
        }
        if self.is_at(place, b'"') {
            return match self.string_at(place, place + 1) {
                Ok(string) => Ok(skipped_to(string.end)),
                Err(error) => Err(error),
            };
        }
        if self.begins_line_comment(place) {
            return Ok(skipped_to(self.line_comment_end(place)));
        }
        let Some(first) = self.byte(place) else {
            return Err(fault_at(place, TextFault::Character));
        };
        if is_blank_or_reserved(first) {
            return Ok(skipped_to(place + 1));
        }
        if is_word_byte(first) {
            let count = word_length(self.rest(place + 1));
            return Ok(skipped_to(place + 1 + count));
        }
        Err(fault_at(place, TextFault::Character))
    }

    /// Reads the rest of an annotation after its id, and returns the offset after its `)`. It can
    /// contain any tokens, also reserved ones such as `x"y"2`. The `@` of the annotation is at
    /// `mark`.
    fn skipped(&self, mark: usize, place: usize) -> Result<usize, TextError>
        requires utf8 { IsUtf8 self.now.text.now }
        requires mark { mark ≤ place }
        requires begin { place ≤ length self.now.text.now }
        ensures end { MatchResult result (λ x. IsInside self.now.text.now place x) (λ e. e.span.offset ≤ length self.now.text.now) }
        ensures read { MatchResult result (λ end. skipped (contents_of self.now.strings) (length (drop place self.now.text.now)) 0 (drop place self.now.text.now) ≡ Some (drop end self.now.text.now)) (λ e. e.fault ≢ fault.Memory → skipped (contents_of self.now.strings) (length (drop place self.now.text.now)) 0 (drop place self.now.text.now) ≡ None) }
    {
        let mut depth = 0_usize;
        let mut at = place;
        for _ in place..self.text.len() {
            if at == self.text.len() {
                break;
            }
            if self.is_at(at, b')') {
                at += 1;
                if depth == 0 {
                    return Ok(at);
                }
                depth -= 1;
            } else {
                match self.skipped_part(at) {
                    Ok(part) => {
                        at = part.end;
                        if part.opens {
                            depth += 1;
                        }
                    }
                    Err(error) => return Err(error),
                }
            }
        }
        Err(fault_at(mark, TextFault::OpenAnnotation))
    }

    /// Reads `(@` and an id at `place`, and the whole annotation if it has no meaning.
    #[inline(always)]
    fn annotation_at(&self, place: usize) -> Result<Part<'a>, TextError>
        requires utf8 { IsUtf8 self.now.text.now }
        requires at { is_first 0x40 (drop (place + 1) self.now.text.now) ≡ true }
        ensures end { MatchResult result (λ x. IsInside self.now.text.now place x.end) (λ e. e.span.offset ≤ length self.now.text.now) }
        ensures read { Reads (annotation (contents_of self.now.strings) (suc place) (drop (place + 2) self.now.text.now)) self.now.text.now result }
        ensures words { IfOk result (λ x. IsNamedPart x.token) }
    {
        let id = match self.annotation_id_at(place) {
            Ok(id) => id,
            Err(error) => return Err(error),
        };
        match annotation(id.name) {
            Some(kind) => {
                let token = Token::Annotation(kind);
                let span = Span { offset: place + 1 };
                Ok(Part {
                    token: Some(Placed { token, span }),
                    end: id.end,
                })
            }
            None => match self.skipped(place + 1, id.end) {
                Ok(end) => Ok(Part { token: None, end }),
                Err(error) => Err(error),
            },
        }
    }

    /// Returns the part that is a parenthesis.
    #[inline(always)]
    fn parenthesis(&self, token: Token<'a>, place: usize) -> Part<'a>
        requires begin { place < length self.now.text.now }
        ensures token { result.token ≡ Some (placed token.entry place) }
        ensures end { result.end ≡ place + 1 }
    {
        let span = Span { offset: place };
        Part {
            token: Some(Placed { token, span }),
            end: place + 1,
        }
    }

    /// Reads `(` at `place`, which may begin a comment or an annotation.
    #[inline(always)]
    #[tactic(auto, using(crate::proofs::Ascii::below, crate::proofs::Ascii::first_below))]
    fn open_at(&self, place: usize) -> Result<Part<'a>, TextError>
        requires utf8 { IsUtf8 self.now.text.now }
        requires begin { place < length self.now.text.now }
        ensures end { MatchResult result (λ x. IsInside self.now.text.now place x.end) (λ e. e.span.offset ≤ length self.now.text.now) }
        ensures read { Reads (opened (contents_of self.now.strings) place (drop (place + 1) self.now.text.now)) self.now.text.now result }
        ensures words { IfOk result (λ x. IsNamedPart x.token) }
    {
        if self.is_at(place + 1, b';') {
            return match self.comment_at(place) {
                Ok(end) => Ok(Part { token: None, end }),
                Err(error) => Err(error),
            };
        }
        if self.is_at(place + 1, b'@') {
            return self.annotation_at(place);
        }
        Ok(self.parenthesis(Token::Open, place))
    }

    /// Reads a word at `place`. If it begins with a letter, it may be a keyword, which has a meaning of its own.
    #[inline(always)]
    #[tactic(auto, using(crate::proofs::Ascii::at_byte, crate::proofs::Ascii::idchar_boundary, crate::proofs::Ascii::some_word, crate::proofs::Buckets::low_word))]
    fn word_token_at(&self, place: usize, first: u8) -> Result<Part<'a>, TextError>
        requires utf8 { IsUtf8 self.now.text.now }
        requires first { first_of (drop place self.now.text.now) ≡ Some first }
        requires word { is_idchar first ≡ true }
        ensures end { MatchResult result (λ x. IsInside self.now.text.now place x.end) (λ e. e.span.offset ≤ length self.now.text.now) }
        ensures read { Reads (word place (drop place self.now.text.now)) self.now.text.now result }
        ensures words { IfOk result (λ x. IsNamedPart x.token) }
    {
        let word = self.word_at(place);
        if first < b'a' {
            return self.one_token(Token::Other(word.name), place, word.end);
        }
        match look_up(word.name) {
            Some(known) => self.one_token(Token::Word(known, word.name), place, word.end),
            None => self.one_token(Token::Other(word.name), place, word.end),
        }
    }

    /// Reads a string at `place`.
    #[inline(always)]
    fn string_token_at(&self, place: usize) -> Result<Part<'a>, TextError>
        requires begin { place < length self.now.text.now }
        ensures end { MatchResult result (λ x. IsInside self.now.text.now place x.end) (λ e. e.span.offset ≤ length self.now.text.now) }
        ensures read { Reads (string_token (contents_of self.now.strings) place (drop (place + 1) self.now.text.now)) self.now.text.now result }
        ensures words { IfOk result (λ x. IsNamedPart x.token) }
    {
        match self.string_at(place, place + 1) {
            Ok(string) => self.one_token(Token::String(string.bytes), place, string.end),
            Err(error) => Err(error),
        }
    }

    /// Reads an id at `place`, whose name may be in quotes.
    #[inline(always)]
    #[tactic(auto, using(crate::proofs::Ascii::after_first, crate::proofs::Ascii::below))]
    fn id_token_at(&self, place: usize) -> Result<Part<'a>, TextError>
        requires utf8 { IsUtf8 self.now.text.now }
        requires dollar { first_of (drop place self.now.text.now) ≡ Some 0x24 }
        ensures end { MatchResult result (λ x. IsInside self.now.text.now place x.end) (λ e. e.span.offset ≤ length self.now.text.now) }
        ensures read { Reads (id_token (contents_of self.now.strings) place (drop (place + 1) self.now.text.now)) self.now.text.now result }
        ensures words { IfOk result (λ x. IsNamedPart x.token) }
    {
        match self.id_at(place, place + 1, TextFault::EmptyId) {
            Ok(id) => self.one_token(Token::Id(id.name), place, id.end),
            Err(error) => Err(error),
        }
    }

    /// Reads white space, a comment, an annotation or a token at `place`.
    #[inline(always)]
    #[tactic(auto, using(crate::proofs::FirstBytes::word_is_idchar, crate::proofs::FirstBytes::is_dollar))]
    fn part_at(&self, place: usize) -> Result<Part<'a>, TextError>
        requires utf8 { IsUtf8 self.now.text.now }
        requires begin { place < length self.now.text.now }
        ensures end { MatchResult result (λ x. IsInside self.now.text.now place x.end) (λ e. e.span.offset ≤ length self.now.text.now) }
        ensures read { Reads (part (contents_of self.now.strings) place (drop place self.now.text.now)) self.now.text.now result }
        ensures words { IfOk result (λ x. IsNamedPart x.token) }
    {
        let Some(first) = self.byte(place) else {
            return Err(fault_at(place, TextFault::Character));
        };
        match byte_kind(first) {
            Kind::Word => self.word_token_at(place, first),
            Kind::Blank => Ok(Part {
                token: None,
                end: place + 1 + blank_length(self.rest(place + 1)),
            }),
            Kind::Open => self.open_at(place),
            Kind::Close => Ok(self.parenthesis(Token::Close, place)),
            Kind::Quote => self.string_token_at(place),
            Kind::Dollar => self.id_token_at(place),
            Kind::Semicolon => match self.begins_line_comment(place) {
                true => Ok(Part {
                    token: None,
                    end: self.line_comment_end(place),
                }),
                false => Err(fault_at(place, TextFault::Character)),
            },
            Kind::Other => Err(fault_at(place, TextFault::Character)),
        }
    }
}

/// Appends a token, if there is one.
#[inline(always)]
#[tactic(auto, using(crate::proofs::Steps::seen_more, crate::proofs::Steps::named_more))]
fn put<'a>(found: &mut Vec<Placed<'a>>, token: Option<Placed<'a>>) -> Result<(), TextFault>
    ensures put { MatchResult result (λ u. seen_all found.new.items ≡ seen_all found.old.items ++ token_of token.entry) (λ f. f ≡ fault.Memory) }
    ensures words { IsNamedPart token.entry → All (λ p. IsNamed p.token) found.old.items → IfOk result (λ u. All (λ p. IsNamed p.token) found.new.items) }
{
    match token {
        Some(token) => match found.push(token) {
            Ok(()) => Ok(()),
            Err(_) => Err(TextFault::Memory),
        },
        None => Ok(()),
    }
}

/// Cuts a text into tokens, with the bytes of strings, or without `strings` as they are written.
fn scanned<'a>(
    alloc: Global,
    text: &'a str,
    strings: Option<&'a Strings>,
) -> Result<Vec<Placed<'a>>, TextError>
    ensures place { IfErr result (λ e. e.span.offset ≤ length text.now) }
    ensures read { MatchResult result (λ found. tokens (contents_of strings.entry) text.now ≡ Some (seen_all found.items)) (λ e. e.fault ≢ fault.Memory → tokens (contents_of strings.entry) text.now ≡ None) }
    ensures words { IfOk result (λ found. All (λ p. IsNamed p.token) found.items) }
{
    let source = Source {
        alloc,
        strings,
        text,
    };
    let mut found = Vec::new(alloc);
    let mut place = 0;
    for _ in 0..text.len() {
        if place == text.len() {
            break;
        }
        let part = match source.part_at(place) {
            Ok(part) => part,
            Err(error) => return Err(error),
        };
        match put(&mut found, part.token) {
            Ok(()) => place = part.end,
            Err(_) => return Err(fault_at(place, TextFault::Memory)),
        }
    }
    Ok(found)
}

/// Cuts a text into tokens in groups, as `scanned` does. It is not inlined, so that its loop has
/// the registers.
#[inline(never)]
fn scanned_in_groups<'a>(
    alloc: Global,
    text: &'a str,
    strings: Option<&'a Strings>,
) -> Result<Grouping<'a>, TextError>
    ensures place { IfErr result (λ e. e.span.offset ≤ length text.now) }
    ensures read { MatchResult result (λ found. tokens (contents_of strings.entry) text.now ≡ Some (seen_all (tokens_in found))) (λ e. e.fault ≢ fault.Memory → tokens (contents_of strings.entry) text.now ≡ None) }
    ensures words { IfOk result (λ found. All (λ p. IsNamed p.token) (tokens_in found)) }
    ensures count { IfOk result (λ found. IsCounted found.full) }
{
    let source = Source {
        alloc,
        strings,
        text,
    };
    let mut found = Grouping::new(alloc);
    let mut place = 0;
    for _ in 0..text.len() {
        if place == text.len() {
            break;
        }
        let part = match source.part_at(place) {
            Ok(part) => part,
            Err(error) => return Err(error),
        };
        match found.put(part.token) {
            Ok(()) => place = part.end,
            Err(_) => return Err(fault_at(place, TextFault::Memory)),
        }
    }
    Ok(found)
}

/// Returns the tokens of a text, without white space, comments, and annotations without a meaning
/// (text format: tokens).
///
/// For example, `(func) ;; a` has the tokens `(`, `func` and `)`, at the offsets 0, 1 and 5.
/// Strings with escapes are kept in `strings`. It allocates memory for the tokens.
///
/// # Errors
///
/// A [`TextFault`] at the wrong token, or at the start of what has no end. In a string it is at the
/// wrong escape or control character. If a character touches a token, it is at the character.
pub fn tokens_of<'a>(
    alloc: Global,
    text: &'a str,
    strings: &'a Strings,
) -> Result<Vec<Placed<'a>>, TextError>
    ensures read { MatchResult result (λ found. tokens bytes_of text.now ≡ Some (seen_all found.items)) (λ e. e.fault ≢ fault.Memory → tokens bytes_of text.now ≡ None) }
    ensures words { IfOk result (λ found. All (λ p. IsNamed p.token) found.items) }
    ensures place { IfErr result (λ e. e.span.offset ≤ length text.now) }
{
    scanned(alloc, text, Some(strings))
}

/// Returns the tokens of a text as [`tokens_of`] does, but in groups of 512, so that a reader can
/// free each group after reading it. It allocates memory for the tokens.
///
/// For example, a text of 600 tokens has two groups, and the second one has 88 tokens.
pub fn token_groups_of<'a>(
    alloc: Global,
    text: &'a str,
    strings: &'a Strings,
) -> Result<TokenGroups<'a>, TextError>
    ensures read { MatchResult result (λ found. tokens bytes_of text.now ≡ Some (seen_all (all_in found.groups.items))) (λ e. e.fault ≢ fault.Memory → tokens bytes_of text.now ≡ None) }
    ensures words { IfOk result (λ found. All (λ p. IsNamed p.token) (all_in found.groups.items)) }
    ensures count { IfOk result IsCounted }
    ensures place { IfErr result (λ e. e.span.offset ≤ length text.now) }
{
    match scanned_in_groups(alloc, text, Some(strings)) {
        Ok(found) => match found.finish() {
            Ok(groups) => Ok(groups),
            Err(_) => Err(fault_at(text.len(), TextFault::Memory)),
        },
        Err(error) => Err(error),
    }
}

/// Returns the tokens of a text as [`tokens_of`] does, but with each string as it is written
/// between its quotes. It allocates memory for the tokens.
///
/// For example, the token of `"\01"` has the three bytes `\01`. No escape is wrong, because none is
/// read. The tokens are parts of the text, so no [`Strings`] has to live as long.
pub fn written_tokens_of<'a>(alloc: Global, text: &'a str) -> Result<Vec<Placed<'a>>, TextError>
    ensures read { MatchResult result (λ found. tokens as_written text.now ≡ Some (seen_all found.items)) (λ e. e.fault ≢ fault.Memory → tokens as_written text.now ≡ None) }
    ensures words { IfOk result (λ found. All (λ p. IsNamed p.token) found.items) }
    ensures place { IfErr result (λ e. e.span.offset ≤ length text.now) }
{
    scanned(alloc, text, None)
}
