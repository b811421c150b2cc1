//! The first error of a text whose tokens have an error.
//!
//! All tokens of a text are read before its fields, so an error in a token is found first. An
//! earlier token may already be wrong, as `fnuc` in `(module (fnuc) (data "a))`. So the tokens
//! before the error are then read as fields.

ghost use Rattle.std.specs.Prelude.{◌≡◌, ◌≤◌};
ghost use Rattle.wat_tokens.specs.declared.faults.TextFault.TheVariants as fault;

use crate::modules::{TextKind, TextModule, module_of_tokens};
use std::alloc::Global;
use wast_tree::{Span, discard_fields};
use wat_tokens::{Placed, Strings, TextError, TextFault, Token, tokens_of};

/// At most this many constructs without an end are cut off: an annotation, and a string in it.
const MOST_OPEN: usize = 3;

/// Returns the tokens of a text up to an offset, but none of a string, a comment or an annotation
/// that ends after it. Fails only if an allocation fails.
fn tokens_before<'a>(
    alloc: Global,
    text: &'a str,
    place: Span,
    strings: &'a Strings,
) -> Result<Vec<Placed<'a>>, TextFault> {
    let mut end = place.offset;
    for _ in 0..MOST_OPEN {
        let count = text.floor_char_boundary(end);
        match tokens_of(alloc, &text[..count], strings) {
            Ok(tokens) => return Ok(tokens),
            Err(error) => match error.fault {
                TextFault::Memory => return Err(TextFault::Memory),
                _ => end = error.span.offset,
            },
        }
    }
    Ok(Vec::new(alloc))
}

/// Returns the offset before which an error of the fields counts. It is that of the token with the
/// error, or of the `(` before it.
fn known_before(tokens: &[Placed<'_>], place: Span) -> usize {
    match tokens.last() {
        Some(
            Placed {
                token: Token::Open,
                span,
            },
        ) => span.offset,
        _ => place.offset,
    }
}

/// Returns `error` if it is before the offset `known`, and otherwise `other`. A failed allocation
/// is always returned.
fn earlier(error: TextError, known: usize, other: TextError) -> TextError
    ensures place { result.span.offset ≤ other.span.offset }
{
    let before = known.min(other.span.offset);
    match error.fault {
        TextFault::Memory => TextError::new(other.span, TextFault::Memory),
        _ => match error.span.offset < before {
            true => error,
            false => other,
        },
    }
}

/// Drops a module.
fn discard(module: TextModule<'_>) {
    let TextModule {
        span: _span,
        id: _id,
        name: _name,
        kind,
    } = module;
    match kind {
        TextKind::Fields(fields) => discard_fields(fields),
        TextKind::Binary(_pieces) => (),
    }
}

/// Returns the error of reading the tokens before `error` as fields, if it is earlier, and
/// otherwise `error`. They end with a token that no rule of the text format takes.
fn error_before<'a>(
    alloc: Global,
    text: &str,
    tokens: Vec<Placed<'a>>,
    error: TextError,
    strings: &'a Strings,
) -> TextError
    ensures place { result.span.offset ≤ error.span.offset }
{
    let mut tokens = tokens;
    let known = known_before(tokens.as_slice(), error.span);
    let wrong = Placed {
        token: Token::Other(""),
        span: error.span,
    };
    match tokens.push(wrong) {
        Ok(()) => match module_of_tokens(alloc, text, tokens, error.span, strings) {
            Ok(module) => {
                discard(module);
                error
            }
            Err(before) => earlier(before, known, error),
        },
        Err(_) => TextError::new(error.span, TextFault::Memory),
    }
}

/// Returns the first error of a text whose tokens have this error: that of its fields, if it is
/// earlier, and otherwise the same.
pub(crate) fn first_error<'a>(
    alloc: Global,
    text: &'a str,
    strings: &'a Strings,
    error: TextError,
) -> TextError
    ensures memory { error.fault ≡ fault.Memory → result.fault ≡ fault.Memory }
    ensures place { result.span.offset ≤ error.span.offset }
{
    match error.fault {
        TextFault::Memory => error,
        _ => match tokens_before(alloc, text, error.span, strings) {
            Ok(tokens) => error_before(alloc, text, tokens, error, strings),
            Err(fault) => TextError::new(error.span, fault),
        },
    }
}
