//! Cuts the text in quotes of a module such as `(module quote "(func" ")")` into tokens (test
//! scripts: modules).
//!
//! The strings are joined to one text, so a token can begin in one string and end in the next. Each
//! token has the position of its first character in the source, or of the escape that writes this
//! character.

ghost use Rattle.std.specs.Prelude.{◌≡◌, ◌≢◌, ◌++◌, drop, set, map, Some, None, MatchResult, slice_get};
ghost use Rattle.wat_tokens.specs.declared.faults.TextFault.TheVariants as fault;
ghost use Rattle.wat_tokens.specs.declared.tokens.Placed.{Placed};
ghost use Rattle.wat_syntax.specs.Bare.{bare_placed};
ghost use Rattle.wat_text.specs.Denotes.{text_in, source_of, sources, place_of, put_in, tokens_in_quotes};

use std::alloc::Global;
use std::str;
use wast_tree::Span;
use wat_tokens::{Placed, Strings, TextError, TextFault, string_places, tokens_of};

/// A string of a text in quotes, with its position.
#[derive(Clone, Copy)]
pub(crate) struct Quote<'a> {
    pub span: Span,
    pub bytes: &'a [u8],
}

/// Joins the strings to one text, and stores it in `strings`.
fn joined<'a>(
    alloc: Global,
    quotes: &[Quote<'a>],
    strings: &'a Strings,
) -> Result<&'a [u8], TextFault>
    ensures { MatchResult result (λ kept. kept.now ≡ text_in quotes.now) (λ f. f ≡ fault.Memory) }
{
    let mut bytes = Vec::new(alloc);
    for quote in quotes {
        if bytes.extend_from_slice(quote.bytes).is_err() {
            return Err(TextFault::Memory);
        }
    }
    strings.keep(bytes.as_slice())
}

/// Returns the bytes of a text from an offset on.
fn text_from(text: &str, offset: usize) -> &[u8]
    ensures { result.now ≡ drop offset text.now }
{
    match text.as_bytes().get(offset..) {
        Some(rest) => rest,
        None => &[],
    }
}

/// Returns the offset in the source of each byte of a string. If the source does not have the
/// string, all are the offset of the string.
#[tactic(auto, using(crate::proofs::Quoting::exact_same, crate::proofs::Quoting::exact_other))]
fn source_of(alloc: Global, source: &str, quote: Quote<'_>) -> Result<Vec<usize>, TextFault>
    ensures { MatchResult result (λ places. places.items ≡ source_of source.now quote.entry) (λ f. f ≡ fault.Memory) }
{
    let at = quote.span.offset;
    let count = quote.bytes.len();
    let mut places = match string_places(alloc, text_from(source, at), at, count) {
        Ok(places) => places,
        Err(fault) => return Err(fault),
    };
    if places.len() == count {
        return Ok(places);
    }
    places.clear();
    match places.resize(count, at) {
        Ok(()) => Ok(places),
        Err(_) => Err(TextFault::Memory),
    }
}

/// Appends the offset in the source of each byte of a string.
fn push_source(
    alloc: Global,
    places: &mut Vec<usize>,
    source: &str,
    quote: Quote<'_>,
) -> Result<(), TextFault>
    ensures { MatchResult result (λ u. places.new.items ≡ places.old.items ++ source_of source.now quote.entry) (λ f. f ≡ fault.Memory) }
{
    match source_of(alloc, source, quote) {
        Ok(found) => match places.extend_from_slice(found.as_slice()) {
            Ok(()) => Ok(()),
            Err(_) => Err(TextFault::Memory),
        },
        Err(fault) => Err(fault),
    }
}

/// Returns the offset in the source of each byte of the strings.
fn sources(alloc: Global, source: &str, quotes: &[Quote<'_>]) -> Result<Vec<usize>, TextFault>
    ensures { MatchResult result (λ places. places.items ≡ sources source.now quotes.now) (λ f. f ≡ fault.Memory) }
{
    let mut places = Vec::new(alloc);
    for quote in quotes {
        if push_source(alloc, &mut places, source, *quote).is_err() {
            return Err(TextFault::Memory);
        }
    }
    Ok(places)
}

/// Returns the position of the byte of this number, or `none` if there is none.
fn place_of(places: &[usize], number: usize, none: Span) -> Span
    ensures { result ≡ place_of none places.now number }
{
    match places.get(number) {
        Some(offset) => Span { offset: *offset },
        None => none,
    }
}

/// Changes the position of the token of this number to that of its first byte.
fn place_token(tokens: &mut Vec<Placed<'_>>, at: usize, places: &[usize], none: Span)
    ensures { (p : Placed) → slice_get tokens.old.items at ≡ Some p → tokens.new.items ≡ set tokens.old.items at (put_in none places.now p) }
{
    if let Some(placed) = tokens.get_mut(at) {
        placed.span = place_of(places, placed.span.offset, none);
    }
}

/// Changes the position of each token to that of its first byte.
fn place_tokens(tokens: &mut Vec<Placed<'_>>, places: &[usize], none: Span)
    ensures { tokens.new.items ≡ map (put_in none places.now) tokens.old.items }
{
    for at in 0..tokens.len() {
        place_token(tokens, at, places, none);
    }
}

/// Returns the tokens of a text in quotes, each with the position of its first character in the
/// source. A text without strings has no tokens, and an error after its end has the position
/// `none`.
#[tactic(auto, using(crate::proofs::Quoting::cut_ok, crate::proofs::Quoting::cut_none, crate::proofs::Quoting::cut_not))]
pub(crate) fn quoted_tokens<'a>(
    alloc: Global,
    source: &str,
    quotes: &[Quote<'a>],
    none: Span,
    strings: &'a Strings,
) -> Result<Vec<Placed<'a>>, TextError>
    ensures { MatchResult result (λ found. tokens_in_quotes source.now none quotes.now ≡ Some (map bare_placed found.items)) (λ e. e.fault ≢ fault.Memory → tokens_in_quotes source.now none quotes.now ≡ None) }
{
    let bytes = match joined(alloc, quotes, strings) {
        Ok(bytes) => bytes,
        Err(fault) => return Err(TextError::new(none, fault)),
    };
    let places = match sources(alloc, source, quotes) {
        Ok(places) => places,
        Err(fault) => return Err(TextError::new(none, fault)),
    };
    let text = match str::from_utf8(bytes) {
        Ok(text) => text,
        Err(error) => {
            let span = place_of(places.as_slice(), error.valid_up_to(), none);
            return Err(TextError::new(span, TextFault::Utf8));
        }
    };
    match tokens_of(alloc, text, strings) {
        Ok(mut tokens) => {
            place_tokens(&mut tokens, places.as_slice(), none);
            Ok(tokens)
        }
        Err(error) => {
            let span = place_of(places.as_slice(), error.span.offset, none);
            Err(TextError::new(span, error.fault))
        }
    }
}
