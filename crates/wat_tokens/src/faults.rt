//! Errors in a text.

ghost use Rattle.std.specs.Prelude.{◌≡◌};

use std::alloc::{AllocError, AllocFailed};
use std::fmt;
use wast_base::{Span, clause_text};

/// What is wrong with a text, without its position (text format).
///
/// For example, `(module [)` has [`TextFault::Character`], and prints as `unexpected character`.
#[derive(Clone, Copy, Debug, PartialEq, Eq)]
pub enum TextFault {
    /// Allocation failed.
    Memory,
    /// No token begins with this character.
    Character,
    /// A token is followed directly by another one, as in `"a""b"`.
    Adjacent,
    /// A string has no end.
    OpenString,
    /// An escape in a string is wrong, such as `\q`.
    Escape,
    /// A string contains a control character.
    StringCharacter,
    /// A block comment has no end.
    OpenComment,
    /// An annotation has no end.
    OpenAnnotation,
    /// An annotation has no id, as in `(@)`.
    EmptyAnnotation,
    /// An id has no name.
    EmptyId,
    /// A name is not UTF-8.
    Utf8,
    /// Something else was expected.
    Expected(&'static str),
    /// This may not come here, for example an `end` without a block.
    Unexpected(&'static str),
    /// A text is not a number of the expected kind.
    Number,
    /// A number is out of range.
    Range,
    /// A word is not an instruction.
    Operator,
    /// An alignment is not a power of two.
    Alignment,
    /// A page size is not a power of two.
    PageSize,
    /// A branch hint is neither `"\00"` nor `"\01"`.
    Hint,
    /// A parameter comes after a result.
    ParamBehindResult,
    /// A token comes after the module.
    Trailing,
    /// Several fields are start functions.
    Starts,
    /// A branch hint is not before an instruction, or comes after another hint.
    HintWithoutInstruction,
    /// A block of a constant expression has no `end`, or an `end` has no block.
    UnbalancedBlocks,
    /// A parsed module was changed and is not well formed any more, by the rule of this number. No
    /// text has this fault.
    IllFormed(u8),
}

impl TextFault {
    /// Returns the message.
    fn text(self) -> &'static str {
        match self {
            TextFault::Memory => "out of memory",
            TextFault::Character => "unexpected character",
            TextFault::Adjacent => "expected whitespace or a parenthesis after token",
            TextFault::OpenString => "unterminated string",
            TextFault::Escape => "invalid string escape",
            TextFault::StringCharacter => "invalid character in string",
            TextFault::OpenComment => "unterminated block comment",
            TextFault::OpenAnnotation => "unterminated annotation",
            TextFault::EmptyAnnotation => "empty annotation id",
            TextFault::EmptyId => "empty identifier",
            TextFault::Utf8 => "malformed UTF-8 encoding",
            TextFault::Expected(what) | TextFault::Unexpected(what) => what,
            TextFault::Number => "invalid number",
            TextFault::Range => "constant out of range",
            TextFault::Operator => "unknown operator or unexpected token",
            TextFault::Alignment => "alignment must be a power of two",
            TextFault::PageSize => "page size must be a power of two",
            TextFault::Hint => "invalid value for branch hint",
            TextFault::ParamBehindResult => "`param` must come before `result`",
            TextFault::Trailing => "unexpected token after module",
            TextFault::Starts => "multiple start sections",
            TextFault::HintWithoutInstruction => {
                "branch hints must be on instructions, in increasing order, with value 0 or 1"
            }
            TextFault::UnbalancedBlocks => "unbalanced blocks in constant expression",
            TextFault::IllFormed(clause) => clause_text(clause),
        }
    }
}

impl fmt::Display for TextFault {
    fn fmt<W: fmt::Write>(&self, f: &mut fmt::Formatter<W>) -> fmt::Result {
        match *self {
            TextFault::Expected(what) => write!(f, "expected {what}"),
            TextFault::Unexpected(what) => write!(f, "unexpected {what}"),
            fault => f.write_str(fault.text()),
        }
    }
}

/// An error in a text, with its position (text format). `{}` prints the fault only.
///
/// For example, `(module [)` has [`TextFault::Character`] at offset 8.
#[derive(Clone, Copy, Debug, PartialEq, Eq)]
pub struct TextError {
    /// What is wrong.
    pub fault: TextFault,
    /// The position in the text.
    pub span: Span,
}

impl TextError {
    /// Makes an error from a fault and a position, for example
    /// `TextError::new(span, TextFault::Memory)`.
    pub fn new(span: Span, fault: TextFault) -> TextError
        ensures fault { result.fault ≡ fault }
        ensures span { result.span ≡ span }
    {
        TextError { fault, span }
    }
}

impl fmt::Display for TextError {
    fn fmt<W: fmt::Write>(&self, f: &mut fmt::Formatter<W>) -> fmt::Result {
        let fault = self.fault;
        write!(f, "{fault}")
    }
}

impl std::error::Error for TextError {}

impl From<AllocError> for TextFault {
    fn from(_error: AllocError) -> Self {
        TextFault::Memory
    }
}

impl<T: Drop> From<AllocFailed<T>> for TextFault {
    fn from(_error: AllocFailed<T>) -> Self {
        TextFault::Memory
    }
}
