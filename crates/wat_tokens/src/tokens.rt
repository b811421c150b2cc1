//! The tokens of a text.

use crate::words::Word;
use wast_base::Span;

/// An annotation that has a meaning in a module (text format: custom annotations).
///
/// For example, `(@name "f")` begins with [`Annotation::Name`], and `(@a ..)` is skipped.
#[derive(Clone, Copy)]
pub enum Annotation {
    /// `(@name`
    Name,
    /// `(@custom`
    Custom,
    /// `(@producers`
    Producers,
    /// `(@dylink.0`
    Dylink0,
    /// `(@metadata.code.branch_hint`
    BranchHint,
}

/// A token (text format: tokens).
///
/// For example, `(func $f)` has four: `(`, the word `func`, the id `f` and `)`.
#[derive(Clone, Copy)]
pub enum Token<'a> {
    /// `(`
    Open,
    /// `)`
    Close,
    /// `(@` with the id of an annotation.
    Annotation(Annotation),
    /// A word with a meaning of its own, and its text.
    Word(Word, &'a str),
    /// The name of an id, without its `$`.
    Id(&'a str),
    /// The bytes of a string.
    String(&'a [u8]),
    /// Another word: a number, `offset=4`, or an unknown word.
    Other(&'a str),
}

/// A token with its position: that of its first character, or for an annotation that of its `@`.
///
/// For example, in `(func $f)` the id is at offset 6.
#[derive(Clone, Copy)]
pub struct Placed<'a> {
    /// The token.
    pub token: Token<'a>,
    /// The position.
    pub span: Span,
}
