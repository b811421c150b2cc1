//! The message of an error, its range and its notes.

ghost use Rattle.std.specs.Prelude.{◌≡◌, IfSome, Some, length};
ghost use Rattle.wast_base.specs.Faults.{span_of};
ghost use Rattle.wat_messages.specs.Ranges.{IsRange, Marks, place_at, range_of, text_of, noted};

use crate::advice::advice_of;
use crate::around::Around;
use crate::details::{Detail, Found, Hint, Place};
use crate::findings::{KnownId, detail_of, detail_of_id, detail_of_module, hint_of_module, told};
use crate::hints::hint_of;
use crate::lexemes::Lexeme;
use crate::ranges::{Range, range_in, range_of_fault, range_of_token};
use std::fmt;
use wast_base::{Error, Fault, Form, Span};
use wat_tokens::{TextError, TextFault};

/// The words of an error, without what was found.
#[derive(Clone, Copy)]
enum Words<'a> {
    /// An error in the text format.
    Text(TextFault),
    /// An error of the module, E1 to E13.
    Module(Fault<'a>),
    /// An unsupported construct, with its token.
    Uncovered(Form, Option<&'a str>),
    /// Bytes that are not UTF-8, after this many that are.
    Bytes(usize),
}

impl fmt::Display for Words<'_> {
    fn fmt<W: fmt::Write>(&self, f: &mut fmt::Formatter<W>) -> fmt::Result {
        match *self {
            Words::Text(fault) => write!(f, "{fault}"),
            Words::Module(fault) => write!(f, "{fault}"),
            Words::Uncovered(form, Some(word)) => write!(f, "uncovered form: {form}: `{word}`"),
            Words::Uncovered(form, None) => write!(f, "uncovered form: {form}"),
            Words::Bytes(count) => write!(f, "malformed UTF-8 encoding at byte {count}"),
        }
    }
}

/// The message of an error, its range in the text, and its notes.
///
/// `{}` prints the message: the words of the error, then what was found, and what may be there. For
/// example, `unknown operator or unexpected token: `i32.ad`; did you mean `i32.add`?`. It is made
/// and printed without memory.
#[derive(Clone, Copy)]
pub struct Diagnostic<'a> {
    /// The text.
    text: &'a str,
    /// The range, if the error has a position.
    range: Option<Range>,
    /// The words of the error.
    words: Words<'a>,
    /// What was found.
    detail: Detail<'a>,
    /// What has to be known to mend it; empty if nothing is said of that.
    advice: &'static str,
    /// What to write in its place.
    hint: Option<Hint<'a>>,
}

impl fmt::Display for Diagnostic<'_> {
    fn fmt<W: fmt::Write>(&self, f: &mut fmt::Formatter<W>) -> fmt::Result {
        let (words, detail, advice) = (self.words, self.detail, self.advice);
        match self.hint {
            Some(hint) => write!(f, "{words}{detail}; {hint}"),
            None if advice.is_empty() => write!(f, "{words}{detail}"),
            None => write!(f, "{words}{detail}; {advice}"),
        }
    }
}

/// A second place that a message is about, or a suggestion. `{}` prints it.
#[derive(Clone, Copy)]
pub struct Note<'a> {
    /// What it says.
    saying: Saying<'a>,
    /// The range that it is about.
    range: Range,
}

/// What a note says.
#[derive(Clone, Copy)]
enum Saying<'a> {
    /// The id was defined there.
    Defined,
    /// The type is defined there.
    Typed,
    /// The parenthesis there is open.
    Opened,
    /// The token, or the character, that touches it.
    Touching,
    /// What is closed there, as "the module".
    Closed(&'static str),
    /// The form with this keyword begins there.
    Form(Found<'a>),
    /// The string begins there.
    Quote,
    /// Another word may be meant.
    Meant(Hint<'a>),
}

impl Note<'_> {
    /// Returns the range of the text that the note is about.
    pub fn range(&self) -> Range
        ensures { result ≡ noted self.now }
    {
        let range = self.range;
        range
    }
}

impl fmt::Display for Note<'_> {
    fn fmt<W: fmt::Write>(&self, f: &mut fmt::Formatter<W>) -> fmt::Result {
        match self.saying {
            Saying::Defined => f.write_str("first defined here"),
            Saying::Typed => f.write_str("defined here"),
            Saying::Opened => f.write_str("this parenthesis is open"),
            Saying::Touching => f.write_str("it touches this"),
            Saying::Closed(what) => write!(f, "{what} is closed here"),
            Saying::Form(word) => write!(f, "this is the {word}"),
            Saying::Quote => f.write_str("the string begins here"),
            Saying::Meant(hint) => write!(f, "{hint}"),
        }
    }
}

/// Returns the second place that a message is about, and what is said of it.
fn second_place<'a>(detail: Detail<'a>) -> Option<(Saying<'a>, Place<'a>)> {
    match detail {
        Detail::Twice(_, place) => Some((Saying::Defined, place)),
        Detail::Defined(_, place) | Detail::Owner(_, place) | Detail::Elsewhere(_, place) => {
            Some((Saying::Typed, place))
        }
        Detail::Unclosed(place, _) | Detail::Field(_, place) => Some((Saying::Opened, place)),
        Detail::Closed(_, place) => Some((Saying::Closed("the module"), place)),
        Detail::After(_, place) => Some((Saying::Closed("the field before it"), place)),
        Detail::Within(_, word, place) | Detail::Label(_, word, place, _) => {
            Some((Saying::Form(word), place))
        }
        Detail::InString(_, place) => Some((Saying::Quote, place)),
        _ => None,
    }
}

impl<'a> Diagnostic<'a> {
    /// Returns the diagnostic of an error in the text format. Its range begins at the position of
    /// the error, if a character begins there or the text ends there.
    pub fn of_text(text: &'a str, error: TextError) -> Diagnostic<'a>
        ensures marks { Marks text.now (Some error.span) (range_of result) }
        ensures text { text_of result ≡ text.now }
    {
        let start = error.span.offset;
        let fault = told(text.as_bytes(), start, error.fault);
        let around = Around::new(text.as_bytes(), start);
        Diagnostic {
            text,
            range: Some(range_of_fault(text, start, error.fault)),
            words: Words::Text(fault),
            detail: detail_of(text, &around, fault),
            advice: advice_of(&around, fault),
            hint: hint_of(&around, fault),
        }
    }

    /// Returns the diagnostic of an error of the module. It has a range if the error has a
    /// position.
    pub fn of_module(text: &'a str, error: Error<'a>) -> Diagnostic<'a>
        ensures marks { Marks text.now (span_of error.entry) (range_of result) }
        ensures text { text_of result ≡ text.now }
    {
        let fault = error.fault();
        match error.span() {
            Some(place) => Diagnostic {
                text,
                range: Some(range_of_token(text, place.offset)),
                words: Words::Module(fault),
                detail: detail_of_module(text, place.offset, fault),
                advice: "",
                hint: hint_of_module(text.as_bytes(), place.offset, fault),
            },
            None => Diagnostic {
                text,
                range: None,
                words: Words::Module(fault),
                detail: Detail::Nothing,
                advice: "",
                hint: None,
            },
        }
    }

    /// Returns the diagnostic of an error of an id, as [`of_module`](Diagnostic::of_module) does, for a caller who knows the
    /// definitions. So the text is not searched for them.
    pub fn of_id(text: &'a str, error: Error<'a>, known: KnownId<'a>) -> Diagnostic<'a>
        ensures marks { Marks text.now (span_of error.entry) (range_of result) }
        ensures text { text_of result ≡ text.now }
    {
        let Some(place) = error.span() else {
            return Diagnostic::of_module(text, error);
        };
        Diagnostic {
            text,
            range: Some(range_of_token(text, place.offset)),
            words: Words::Module(error.fault()),
            detail: detail_of_id(text, place.offset, known),
            advice: "",
            hint: known.near.map(|near| Hint::new("$", near.as_bytes(), "")),
        }
    }

    /// Returns the diagnostic of an unsupported construct, with its token.
    pub fn of_uncovered(
        text: &'a str,
        place: Span,
        form: Form,
        word: Option<&'a str>,
    ) -> Diagnostic<'a>
        ensures marks { Marks text.now (Some place) (range_of result) }
        ensures text { text_of result ≡ text.now }
    {
        let range = range_of_token(text, place.offset);
        Diagnostic {
            text,
            range: Some(range),
            words: Words::Uncovered(form, word),
            detail: Detail::Nothing,
            advice: "",
            hint: None,
        }
    }

    /// Returns the diagnostic of bytes that are not UTF-8, for the text before the first wrong one.
    pub fn of_bytes(text: &'a str) -> Diagnostic<'a>
        ensures marks { Marks text.now (Some (place_at (length text.now))) (range_of result) }
        ensures text { text_of result ≡ text.now }
    {
        let start = text.len();
        Diagnostic {
            text,
            range: Some(range_in(text, start, 0)),
            words: Words::Bytes(start),
            detail: Detail::Nothing,
            advice: "",
            hint: None,
        }
    }

    /// Returns the diagnostic of a text that begins at this line and column of another one. Places in
    /// the message are those in that one, and ranges are as before. For example, after `starting_at(2, 1)` the
    /// message has "first defined at 2:15" in place of "first defined at 1:15".
    pub fn starting_at(self, line: usize, column: usize) -> Diagnostic<'a>
        ensures range { range_of result ≡ range_of self.entry }
        ensures text { text_of result ≡ text_of self.entry }
    {
        Diagnostic {
            detail: self.detail.starting_at((line, column)),
            ..self
        }
    }

    /// Returns the range of the error, if it has a position.
    pub fn range(&self) -> Option<Range>
        ensures { result ≡ range_of self.now }
    {
        self.range
    }

    /// Returns the range of what touches the error: the character after a token, or else the token.
    fn touching(&self, token: Lexeme<'_>) -> Range
        ensures { IsRange (text_of self.now) result }
    {
        match self.range {
            Some(range) if range.start == token.start => range_in(self.text, token.end, 1),
            _ => range_of_token(self.text, token.start),
        }
    }

    /// Returns the second place that the message is about.
    pub fn related(&self) -> Option<Note<'a>>
        ensures { IfSome result (λ n. IsRange (text_of self.now) (noted n)) }
    {
        if let Detail::Adjacent(token, _) = self.detail {
            return Some(Note {
                saying: Saying::Touching,
                range: self.touching(token),
            });
        }
        let (saying, place) = second_place(self.detail)?;
        Some(Note {
            saying,
            range: range_of_token(self.text, place.offset),
        })
    }

    /// Returns the suggestion of another word.
    pub fn suggestion(&self) -> Option<Note<'a>>
        ensures { IfSome result (λ n. range_of self.now ≡ Some (noted n)) }
    {
        let (hint, range) = (self.hint?, self.range?);
        Some(Note {
            saying: Saying::Meant(hint),
            range,
        })
    }
}
