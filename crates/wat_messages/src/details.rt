//! What messages say after the words of the error: what was found, and what may be there.

use crate::characters::Named;
use crate::lexemes::{Lexeme, character_length, first_bytes, shown};
use crate::numbers::{Number, Ranged};
use std::fmt;
use wast_base::{Span, line_and_column};

/// At most this many bytes of a token are printed.
const TOKEN: usize = 60;

/// A token of a text, or its end.
///
/// A token is printed between backquotes, and a long one as its first bytes: `` `i32.ad` ``. The end
/// is printed as `end of input`.
#[derive(Clone, Copy)]
pub(crate) struct Found<'a>(pub &'a [u8]);

impl fmt::Display for Found<'_> {
    fn fmt<W: fmt::Write>(&self, f: &mut fmt::Formatter<W>) -> fmt::Result {
        let bytes = self.0;
        if bytes.is_empty() {
            return f.write_str("end of input");
        }
        let token = shown(bytes);
        let cut = token.floor_char_boundary(TOKEN);
        let (front, behind) = token.split_at(cut);
        let more = if behind.is_empty() { "" } else { "..." };
        write!(f, "`{front}{more}`")
    }
}

/// The line and the column of an offset, as in `2:9`.
#[derive(Clone, Copy)]
pub(crate) struct Place<'a> {
    /// The text.
    text: &'a str,
    /// The offset.
    pub offset: usize,
    /// The line and the column at which the text begins.
    start: (usize, usize),
}

impl<'a> Place<'a> {
    /// Returns an offset of a text.
    pub fn new(text: &'a str, offset: usize) -> Place<'a> {
        Place {
            text,
            offset,
            start: (1, 1),
        }
    }

    /// Returns it if the text begins at this line and column of another one.
    fn starting_at(self, start: (usize, usize)) -> Place<'a> {
        Place { start, ..self }
    }
}

impl fmt::Display for Place<'_> {
    fn fmt<W: fmt::Write>(&self, f: &mut fmt::Formatter<W>) -> fmt::Result {
        let offset = self.offset;
        let (line, column) = line_and_column(self.text, Span { offset });
        let (first, before) = self.start;
        let before = if line == 1 { before } else { 1 };
        let line = line.saturating_sub(1).saturating_add(first);
        let column = column.saturating_sub(1).saturating_add(before);
        write!(f, "{line}:{column}")
    }
}

/// Returns the first character of bytes.
pub(crate) fn first_character(bytes: &[u8]) -> Option<char> {
    shown(first_bytes(bytes, character_length(bytes)))
        .chars()
        .next()
}

/// What a message says after the words of the error.
#[derive(Clone, Copy)]
pub(crate) enum Detail<'a> {
    /// Nothing.
    Nothing,
    /// What may be there.
    Fixed(&'static str),
    /// What was found in place of what was expected.
    InPlace(Found<'a>),
    /// The same, if a parenthesis has to be closed, which is at this place.
    Unclosed(Place<'a>, Found<'a>),
    /// The token that is wrong.
    Token(Found<'a>),
    /// The token, if it has to come before these.
    Early(Found<'a>, &'static str),
    /// The token, if it begins a field of the module, and the parenthesis that is open there.
    Field(Found<'a>, Place<'a>),
    /// The string with the text of a module in which the error is.
    Quoted(Found<'a>),
    /// A number that is none of its kind.
    NoNumber(Found<'a>, Number),
    /// A number that is out of range.
    OutOfRange(Found<'a>, Number),
    /// A character that begins no token.
    Character(char),
    /// A character that is not allowed in a string, and where that begins.
    InString(char, Place<'a>),
    /// A token, and the character that touches it.
    Adjacent(Lexeme<'a>, char),
    /// What was found after the module, and where that was closed.
    Closed(Found<'a>, Place<'a>),
    /// What was found after a field of the module, and where that was closed.
    After(Found<'a>, Place<'a>),
    /// What was found in a form, the keyword of that, and its place.
    Within(Found<'a>, Found<'a>, Place<'a>),
    /// A label that is not the one of its block: the keyword of that, its place and its label.
    Label(Found<'a>, Found<'a>, Place<'a>, Option<Found<'a>>),
    /// What was found in place of one of these names.
    Among(Found<'a>, &'static str),
    /// An escape that is none, and what may be there.
    Escape(Found<'a>, &'static str),
    /// An id that is defined twice, and the place of the first definition.
    Twice(Found<'a>, Place<'a>),
    /// An id of a type, and the place of its definition.
    Defined(Found<'a>, Place<'a>),
    /// The type that a field is looked for in, and the place of its definition.
    Owner(Found<'a>, Place<'a>),
    /// The keyword of an item of another kind that has the id, and the place of its definition.
    Elsewhere(Found<'a>, Place<'a>),
}

impl Detail<'_> {
    /// Returns it if the text begins at this line and column of another one.
    pub fn starting_at(self, start: (usize, usize)) -> Self {
        match self {
            Detail::Unclosed(open, found) => Detail::Unclosed(open.starting_at(start), found),
            Detail::Field(found, open) => Detail::Field(found, open.starting_at(start)),
            Detail::InString(found, quote) => Detail::InString(found, quote.starting_at(start)),
            Detail::Closed(found, place) => Detail::Closed(found, place.starting_at(start)),
            Detail::After(found, place) => Detail::After(found, place.starting_at(start)),
            Detail::Within(found, word, place) => {
                Detail::Within(found, word, place.starting_at(start))
            }
            Detail::Label(found, word, place, own) => {
                Detail::Label(found, word, place.starting_at(start), own)
            }
            Detail::Twice(found, first) => Detail::Twice(found, first.starting_at(start)),
            Detail::Defined(found, place) => Detail::Defined(found, place.starting_at(start)),
            Detail::Owner(found, place) => Detail::Owner(found, place.starting_at(start)),
            Detail::Elsewhere(found, place) => Detail::Elsewhere(found, place.starting_at(start)),
            detail => detail,
        }
    }
}

impl fmt::Display for Detail<'_> {
    fn fmt<W: fmt::Write>(&self, f: &mut fmt::Formatter<W>) -> fmt::Result {
        match *self {
            Detail::Nothing => Ok(()),
            Detail::Fixed(text) => write!(f, ": {text}"),
            Detail::InPlace(found) => write!(f, ", found {found}"),
            Detail::Unclosed(open, found) => write!(
                f,
                " to close the `(` at {open}, found {found}"
            ),
            Detail::Token(found) => write!(f, ": {found}"),
            Detail::Early(found, others) => write!(f, ": {found} has to come before all {others}"),
            Detail::Field(found, open) => write!(f, ": {found}; the `(` at {open} is open"),
            Detail::Quoted(found) => write!(f, " in {found}"),
            Detail::NoNumber(found, number) => {
                let expected = number.name();
                write!(f, ": expected {expected}, found {found}")
            }
            Detail::OutOfRange(found, number) => {
                let expected = Ranged(number);
                write!(f, ": {found} is not {expected}")
            }
            Detail::Character(character) => {
                let named = Named(character);
                write!(f, " {named}")
            }
            Detail::InString(character, first) => {
                let named = Named(character);
                write!(
                    f,
                    ": {named} has to be written as an escape; the string begins at {first}"
                )
            }
            Detail::Adjacent(token, character) => {
                let (found, named) = (Found(token.bytes), Named(character));
                write!(f, " {found}, found {named}")
            }
            Detail::Closed(found, place) => write!(f, ": {found}; the module is closed at {place}"),
            Detail::After(found, place) => write!(
                f,
                ", found {found}; the field before it is closed at {place}"
            ),
            Detail::Within(found, word, place) => write!(
                f,
                ", found {found}; the {word} is at {place}"
            ),
            Detail::Label(found, word, place, Some(label)) => write!(
                f,
                ": {found}; the {word} at {place} has the label {label}"
            ),
            Detail::Label(found, word, place, None) => write!(
                f,
                ": {found}; the {word} at {place} has no label"
            ),
            Detail::Among(found, names) => write!(f, ", found {found}; the names are {names}"),
            Detail::Escape(found, expected) => write!(f, " {found}: {expected}"),
            Detail::Twice(found, first) => write!(f, ": {found} is first defined at {first}"),
            Detail::Defined(found, place) => write!(f, ": {found} is defined at {place}"),
            Detail::Owner(found, place) => write!(f, "; the type {found} is defined at {place}"),
            Detail::Elsewhere(found, place) => write!(f, "; the {found} at {place} has this name"),
        }
    }
}

/// What to write in place of what is wrong.
#[derive(Clone, Copy)]
pub(crate) struct Hint<'a> {
    /// What comes before the word, such as `$`.
    pub before: &'static str,
    /// The word.
    pub word: &'a [u8],
    /// What comes after the word, such as `)`.
    pub after: &'static str,
    /// Another word that may be meant; empty if there is none.
    pub other: &'a [u8],
}

impl<'a> Hint<'a> {
    /// Returns a word with what comes before and after it.
    pub fn new(before: &'static str, word: &'a [u8], after: &'static str) -> Hint<'a> {
        Hint {
            before,
            word,
            after,
            other: &[],
        }
    }
}

impl fmt::Display for Hint<'_> {
    fn fmt<W: fmt::Write>(&self, f: &mut fmt::Formatter<W>) -> fmt::Result {
        let (before, word, after) = (self.before, shown(self.word), self.after);
        if self.other.is_empty() {
            return write!(f, "did you mean `{before}{word}{after}`?");
        }
        let other = shown(self.other);
        write!(f, "did you mean `{word}` or `{other}`?")
    }
}
