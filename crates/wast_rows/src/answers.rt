//! The line that is written for a line of the input.

ghost use Rattle.std.specs.Prelude.{◌≡◌, IfOk, IfErr, Some, Ok, string_bytes};
ghost use Rattle.wast_rows.specs.declared.errors.RunError.TheVariants as error;
ghost use Rattle.wast_rows.specs.Answers.{TellsLine, TellsRow, TellsAnswer, refusal_text, no_row_text, ill_formed_text, generated_text};

use crate::errors::RunError;
use crate::numbers::number;
use std::alloc::{AllocError, Global};
use wast_core::{EncodeOptions, Module, discard_module};
use wast_tree::{Error, Fault, Gensym};

/// Returns `no row`.
fn no_row(alloc: Global) -> Result<String, AllocError>
    ensures { IfOk result (λ line. string_bytes line ≡ no_row_text) }
{
    String::from_str(alloc, "no row")
}

/// Returns `ill formed: C` with the number of a broken rule.
fn ill_formed(alloc: Global, clause: u8) -> Result<String, AllocError>
    ensures { IfOk result (λ line. string_bytes line ≡ ill_formed_text clause) }
{
    format!(in alloc; "ill formed: {clause}")
}

/// Returns `ill formed`.
fn generated(alloc: Global) -> Result<String, AllocError>
    ensures { IfOk result (λ line. string_bytes line ≡ generated_text) }
{
    String::from_str(alloc, "ill formed")
}

/// Returns the line of an error, with its position if it has one.
fn refusal(alloc: Global, error: Error<'_>) -> Result<String, AllocError>
    ensures { IfOk result (λ line. string_bytes line ≡ refusal_text error.entry) }
{
    match error.span() {
        Some(span) => {
            let offset = span.offset;
            format!(in alloc; "fault at {offset}: {error}")
        }
        None => format!(in alloc; "refused: {error}"),
    }
}

/// Returns the line of a result of encoding: the bytes in lower case hexadecimal, or the error. E12
/// ends the run instead.
fn told(alloc: Global, answer: Result<Vec<u8>, Error<'_>>) -> Result<String, RunError>
    ensures told { IfOk result (λ line. TellsAnswer answer.entry (string_bytes line)) }
    ensures err { IfErr result (λ e. e ≡ error.Memory) }
{
    match answer {
        Ok(bytes) => Ok(hex::encode(alloc, bytes.as_slice())?),
        Err(error) => {
            if matches!(error.fault(), Fault::Memory) {
                return Err(RunError::Memory);
            }
            Ok(refusal(alloc, error)?)
        }
    }
}

/// Returns the line of a module. It is encoded if it is well formed and has no generated id.
fn line_of_module(alloc: Global, module: &mut Module<'_>) -> Result<String, RunError>
    ensures told { IfOk result (λ line. TellsRow (Some (Ok «module».old)) (string_bytes line)) }
    ensures err { IfErr result (λ e. e ≡ error.Memory) }
{
    if let Some(clause) = module.ill_formed() {
        return Ok(ill_formed(alloc, clause)?);
    }
    if module.gensym_bound() > 0 {
        return Ok(generated(alloc)?);
    }
    let mut gensym = Gensym::new(1);
    let answer = EncodeOptions::new().encode_module(alloc, module, &mut gensym);
    told(alloc, answer)
}

/// Returns the line of a row, if there is one.
fn line_of_row(
    alloc: Global,
    row: Option<Result<Module<'_>, Error<'_>>>,
) -> Result<String, RunError>
    ensures told { IfOk result (λ line. TellsRow row.entry (string_bytes line)) }
    ensures err { IfErr result (λ e. e ≡ error.Memory) }
{
    match row {
        None => Ok(no_row(alloc)?),
        Some(Err(_)) => Err(RunError::Memory),
        Some(Ok(mut module)) => {
            let line = line_of_module(alloc, &mut module);
            discard_module(module);
            line
        }
    }
}

/// Returns the line that is written for a line of the input.
pub(crate) fn answer<'a, F: Fn(u32) -> Option<Result<Module<'a>, Error<'a>>>>(
    alloc: Global,
    line: &[u8],
    sample: &F,
) -> Result<String, RunError>
    requires { F.IsAlwaysCallable sample.now }
    ensures told { IfOk result (λ text. TellsLine (F.post sample.now) line.now (string_bytes text)) }
    ensures err { IfErr result (λ e. e ≡ error.Memory) }
{
    match number(line) {
        None => Ok(no_row(alloc)?),
        Some(n) => line_of_row(alloc, sample(n)),
    }
}
