//! The errors of a text.

ghost use Rattle.std.specs.Prelude.{◌≡◌};
ghost use Rattle.wat_bytes.specs.Texts.{number_of, place_of};

use std::fmt;
use wast_tree::{Error, Form, Span};
use wat_text::{TextError, TextFault};

/// An unsupported construct in a text. It is printed as E11 with its token.
///
/// # Example
///
///     let at = uncovered.span.offset;
///     assert!(rt; uncovered.form == form && at == offset, "{at}: {text}");
///     assert!(rt; uncovered.word == Some(word), "{text}");
#[derive(Clone, Copy, Debug, PartialEq, Eq)]
pub struct UncoveredForm<'a> {
    /// The construct.
    pub form: Form,
    /// The position of the token. Without a token it is the closest position known.
    pub span: Span,
    /// The first token of the text that belongs to the construct, in the field of the closest
    /// position or after it. For example, `i64.add128`.
    pub word: Option<&'a str>,
}

impl fmt::Display for UncoveredForm<'_> {
    fn fmt<W: fmt::Write>(&self, f: &mut fmt::Formatter<W>) -> fmt::Result {
        let form = self.form;
        match self.word {
            Some(word) => write!(f, "uncovered form: {form}: `{word}`"),
            None => write!(f, "uncovered form: {form}"),
        }
    }
}

/// Why a text has no bytes. It is printed without the position.
///
/// # Example
///
///     let refused = encode_text(rt.alloc(), "(func i64.add128)", &strings).err();
///     let refused = refused.expect(&rt, "it is covered");
///     let printed = format!(in rt.alloc(); "{refused}").expect(&rt, "memory");
///
/// This prints ``uncovered form: instruction beyond the table: `i64.add128` ``.
///
/// The contracts permit E12 from any call that allocates. Tests check that it comes only if an
/// allocation fails.
#[derive(Clone, Copy, Debug, PartialEq, Eq)]
pub enum Refused<'a> {
    /// The text is not a module in the text format, or a parsed module was changed and is not well
    /// formed any more, or allocation failed.
    Text(TextError),
    /// Resolving or encoding the module fails with this error.
    Module(Error<'a>),
    /// The module resolves, and has an unsupported construct (E11).
    Uncovered(UncoveredForm<'a>),
}

/// The number of E11.
const UNCOVERED: u32 = 11;

/// The number of E12.
const MEMORY: u32 = 12;

impl Refused<'_> {
    /// Returns the number of the error, 1 for E1 to 13 for E13, or `None` if the text is not a
    /// module. It is 12 for each failed allocation, also before the text was read.
    pub fn number(&self) -> Option<u32>
        ensures { result ≡ number_of self.now }
    {
        match self {
            Refused::Text(error) => match error.fault {
                TextFault::Memory => Some(MEMORY),
                _ => None,
            },
            Refused::Module(error) => Some(error.number()),
            Refused::Uncovered(_) => Some(UNCOVERED),
        }
    }

    /// Returns the position in the text, if there is one.
    pub fn span(&self) -> Option<Span>
        ensures { result ≡ place_of self.now }
    {
        match self {
            Refused::Text(error) => Some(error.span),
            Refused::Module(error) => error.span(),
            Refused::Uncovered(uncovered) => Some(uncovered.span),
        }
    }
}

impl fmt::Display for Refused<'_> {
    fn fmt<W: fmt::Write>(&self, f: &mut fmt::Formatter<W>) -> fmt::Result {
        match self {
            Refused::Text(error) => write!(f, "{error}"),
            Refused::Module(error) => write!(f, "{error}"),
            Refused::Uncovered(uncovered) => write!(f, "{uncovered}"),
        }
    }
}
