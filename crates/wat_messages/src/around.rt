//! What is around an offset of a text, to find what was meant there.

use crate::definitions::{first_definition, open_around, read_before};
use crate::lexemes::{Kind, Lexeme, lexeme_at, next_lexeme};
use crate::lists::INSTRUCTIONS;
use crate::near::is_listed;

/// What is around an offset of a text.
#[derive(Clone, Copy)]
pub(crate) struct Around<'a> {
    /// The text.
    pub text: &'a [u8],
    /// The offset.
    pub start: usize,
    /// The token before it.
    pub last: Option<Lexeme<'a>>,
    /// The last keyword before it.
    pub keyword: &'a [u8],
    /// The keyword of the form that it is in, and its offset.
    pub head: Option<Lexeme<'a>>,
}

impl<'a> Around<'a> {
    /// Returns what is around an offset.
    pub fn new(text: &'a [u8], start: usize) -> Around<'a> {
        let before = read_before(text, start);
        let head = match open_around(text, start) {
            Some(open) => next_lexeme(text, open.saturating_add(1)),
            None => None,
        };
        Around {
            text,
            start,
            last: before.last,
            keyword: before.word,
            head,
        }
    }

    /// Returns the token at the offset.
    pub fn found(&self) -> Option<Lexeme<'a>> {
        match lexeme_at(self.text, self.start) {
            Some(lexeme) if lexeme.kind != Kind::Blank => Some(lexeme),
            _ => None,
        }
    }

    /// Returns the token at the offset, or the one after the parenthesis there.
    pub fn inner(&self) -> Option<Lexeme<'a>> {
        let found = self.found()?;
        if found.kind == Kind::Open {
            return next_lexeme(self.text, found.end);
        }
        Some(found)
    }

    /// Returns whether a parenthesis and an instruction are at the offset.
    pub fn is_before_instruction(&self) -> bool {
        match (self.found(), self.inner()) {
            (Some(found), Some(word)) => {
                found.kind == Kind::Open && is_listed(word.bytes, INSTRUCTIONS.as_bytes())
            }
            _ => false,
        }
    }

    /// Returns the token that touches another one, or a character: the one at the offset, or the one
    /// before it if no token begins there.
    pub fn touched(&self) -> Option<Lexeme<'a>> {
        match self.found() {
            Some(found) if found.kind != Kind::Other => Some(found),
            _ => self.last,
        }
    }

    /// Returns the token after another one.
    pub fn after(&self, token: Lexeme<'_>) -> Option<Lexeme<'a>> {
        next_lexeme(self.text, token.end)
    }

    /// Returns the word after a token; empty if another kind of token is there.
    pub fn word_after(&self, token: Lexeme<'_>) -> &'a [u8] {
        match self.after(token) {
            Some(next) if next.kind == Kind::Word => next.bytes,
            _ => &[],
        }
    }

    /// Returns the keyword of the form that the offset is in; empty if it is in none.
    pub fn form(&self) -> &'a [u8] {
        match self.head {
            Some(head) if head.kind == Kind::Word => head.bytes,
            _ => &[],
        }
    }

    /// Returns the word before the offset; empty if another kind of token is there.
    pub fn last_word(&self) -> &'a [u8] {
        match self.last {
            Some(last) if last.kind == Kind::Word => last.bytes,
            _ => &[],
        }
    }

    /// Returns whether a parenthesis is directly before the offset.
    pub fn is_opened(&self) -> bool {
        match self.last {
            Some(last) => last.kind == Kind::Open && last.end == self.start,
            None => false,
        }
    }

    /// Returns whether an id is before the offset.
    pub fn is_after_id(&self) -> bool {
        match self.last {
            Some(last) => last.kind == Kind::Id,
            None => false,
        }
    }

    /// Returns whether an index space has a name.
    pub fn defines(&self, space: &str, name: &[u8]) -> bool {
        first_definition(self.text, space, name, self.start).is_some()
    }
}

/// Returns whether bytes can follow the first digit of a number, which is decimal or hexadecimal.
fn are_digits(bytes: &[u8], is_decimal: bool) -> bool {
    for byte in bytes {
        let is_digit = if is_decimal {
            byte.is_ascii_digit() || *byte == b'e'
        } else {
            byte.is_ascii_hexdigit() || *byte == b'p'
        };
        if !is_digit && !matches!(*byte, b'+' | b'-' | b'.' | b'_') {
            return false;
        }
    }
    true
}

/// Returns whether a word is a number: it begins with a digit, perhaps after a sign.
pub(crate) fn is_number(word: &[u8]) -> bool {
    let digits = match word {
        [b'+' | b'-', digits @ ..] => digits,
        _ => word,
    };
    match digits {
        [b'0', b'x', more @ ..] => are_digits(more, false),
        [digit, more @ ..] => digit.is_ascii_digit() && are_digits(more, true),
        [] => false,
    }
}

/// Returns whether a word is a name as in most languages: letters, digits, `_` and `-`, with no digit
/// first.
pub(crate) fn is_name(word: &[u8]) -> bool {
    for byte in word {
        if !byte.is_ascii_alphanumeric() && !matches!(*byte, b'_' | b'-') {
            return false;
        }
    }
    match word {
        [first, ..] => first.is_ascii_alphabetic() || *first == b'_',
        [] => false,
    }
}
