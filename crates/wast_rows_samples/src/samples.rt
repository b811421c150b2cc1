//! The fields of the example modules.

ghost use Rattle.std.specs.Prelude.{◌≡◌, is_some, IfSome, IfErr};
ghost use Rattle.wast_base.specs.Faults.{out_of_memory};
ghost use Rattle.wast_rows_samples.specs.RowNumbers.{text_rows, is_among, is_row};

use crate::built_rows::built_row;
use crate::texts::text_of_row;
use crate::ways::Way;
use std::alloc::Global;
use wast_base::{Error, Fault, Seq, Span};
use wast_tree_nodes::ModuleField;
use wat_text::{TextError, read_tokens};
use wat_tokens::{Placed, Token, written_tokens_of};

/// Returns the bytes of a string literal. The only escapes in the texts are those of branch hints.
fn unescaped<'a>(string: &'a [u8]) -> &'a [u8] {
    match string {
        b"\\00" => b"\0",
        b"\\01" => b"\x01",
        string => string,
    }
}

/// Returns the token of a module for a token of its text.
fn token_of_row<'a>(token: Token<'a>, way: Way) -> Token<'a> {
    match token {
        Token::Id(name) => Token::Id(way.name(name)),
        Token::String(string) => Token::String(unescaped(string)),
        token => token,
    }
}

/// Replaces the ids and strings of a text by those of the module. Positions do not change.
fn write_in<'a>(tokens: &mut Vec<Placed<'a>>, way: Way) {
    for at in 0..tokens.len() {
        if let Some(placed) = tokens.get_mut(at) {
            placed.token = token_of_row(placed.token, way);
        }
    }
}

/// Returns the fields of a text, with its ids written in this way.
fn read_row<'a>(alloc: Global, text: &'a str, way: Way) -> Result<Seq<ModuleField<'a>>, TextError> {
    let mut tokens = written_tokens_of(alloc, text)?;
    write_in(&mut tokens, way);
    let end = Span { offset: text.len() };
    read_tokens(alloc, tokens, end)
}

/// Returns the fields of a text, or E12. Tests read all of these texts, so they have no other
/// error.
fn fields_of_text<'a>(
    alloc: Global,
    text: &'a str,
    way: Way,
) -> Result<Seq<ModuleField<'a>>, Error<'a>>
    ensures { IfErr result (λ e. e ≡ out_of_memory) }
{
    match read_row(alloc, text, way) {
        Ok(fields) => Ok(fields),
        Err(_) => Err(Error::refusal(Fault::Memory)),
    }
}

/// Returns the fields of a module that is a text, or E12. Returns `None` if the number is not that
/// of one.
fn read_text_row<'a>(
    alloc: Global,
    n: u32,
    way: Way,
) -> Option<Result<Seq<ModuleField<'a>>, Error<'a>>>
    ensures there { is_some result ≡ is_among text_rows n }
    ensures refusal { IfSome result (λ made. IfErr made (λ e. e ≡ out_of_memory)) }
{
    let text: &'a str = text_of_row(n)?;
    Some(fields_of_text(alloc, text, way))
}

/// Returns the fields of an example module, with its ids written in this way, or E12.
fn made_fields<'a>(
    alloc: Global,
    n: u32,
    way: Way,
) -> Option<Result<Seq<ModuleField<'a>>, Error<'a>>>
    ensures there { is_some result ≡ is_row n }
    ensures refusal { IfSome result (λ made. IfErr made (λ e. e ≡ out_of_memory)) }
{
    match read_text_row(alloc, n, way) {
        Some(fields) => Some(fields),
        None => built_row(alloc, n, way),
    }
}

/// Returns the fields of an example module by its number, or `None` if there is no such module.
///
/// The numbers are 1 to 19 and 21 to 65. The modules 58 to 64 are not well formed. Positions are
/// offsets in the text of the module: for a field that of its keyword, for an id that of its `$`.
/// For example, number 2 has the fields of `(module (func))`, with the function at 9.
///
/// # Example
///
///     made_module(sample_fields(alloc, n))
///
/// # Errors
///
/// E12: allocation failed.
pub fn sample_fields<'a>(alloc: Global, n: u32) -> Option<Result<Seq<ModuleField<'a>>, Error<'a>>>
    ensures there { is_some result ≡ is_row n }
    ensures refusal { IfSome result (λ made. IfErr made (λ e. e ≡ out_of_memory)) }
{
    made_fields(alloc, n, Way::Plain)
}

/// Returns the fields of [`sample_fields`] with an `r` before the name of each id.
///
/// For example, `(module (func $f))` becomes `(module (func $rf))`. Positions, name annotations,
/// and the strings of exports, imports and custom sections are the same.
///
/// # Example
///
///     made_module(twin_fields(alloc, n))
///
/// # Errors
///
/// E12: allocation failed.
pub fn twin_fields<'a>(alloc: Global, n: u32) -> Option<Result<Seq<ModuleField<'a>>, Error<'a>>>
    ensures there { is_some result ≡ is_row n }
    ensures refusal { IfSome result (λ made. IfErr made (λ e. e ≡ out_of_memory)) }
{
    made_fields(alloc, n, Way::Twin)
}
