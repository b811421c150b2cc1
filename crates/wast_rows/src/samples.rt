//! The example modules.

ghost use Rattle.std.specs.Prelude.{◌≡◌, is_some, IfSome, IfErr};
ghost use Rattle.wast_base.specs.Faults.{out_of_memory};
ghost use Rattle.wast_core.specs.declared.module.ModuleKind.TheVariants as kind;
ghost use Rattle.wast_rows_samples.specs.RowNumbers.{is_row};

use std::alloc::Global;
use wast_base::{Error, Span};
use wast_core::{Module, ModuleKind};
use wast_rows_samples::{sample_fields, twin_fields};
use wast_tree::{ModuleField, Seq};

/// Returns a module of fields, without id and name, at offset 1.
pub(crate) fn text_module<'a>(fields: Seq<ModuleField<'a>>) -> Module<'a>
    ensures { result.kind ≡ kind.Text fields.entry }
{
    Module {
        span: Span { offset: 1 },
        id: None,
        name: None,
        kind: ModuleKind::Text(fields),
    }
}

/// Returns the module of these fields, if they exist.
fn made_module<'a>(
    made: Option<Result<Seq<ModuleField<'a>>, Error<'a>>>,
) -> Option<Result<Module<'a>, Error<'a>>>
    requires { IfSome made (λ made. IfErr made (λ e. e ≡ out_of_memory)) }
    ensures there { is_some result ≡ is_some made.entry }
    ensures refusal { IfSome result (λ made. IfErr made (λ e. e ≡ out_of_memory)) }
{
    match made? {
        Ok(fields) => Some(Ok(text_module(fields))),
        Err(refused) => Some(Err(refused)),
    }
}

/// Returns an example module by its number, or `None` if there is no such module.
///
/// The numbers are those of [`sample_fields`]. The module has no id and no name, and is at offset
/// 1.
///
/// # Example
///
///     let made = sample(alloc, n).expect(rt, "there is such a row");
///
/// # Errors
///
/// E12: allocation failed.
pub fn sample<'a>(alloc: Global, n: u32) -> Option<Result<Module<'a>, Error<'a>>>
    ensures there { is_some result ≡ is_row n }
    ensures refusal { IfSome result (λ made. IfErr made (λ e. e ≡ out_of_memory)) }
{
    made_module(sample_fields(alloc, n))
}

/// Returns the module of [`sample`] with an `r` before the name of each id (text format:
/// identifiers).
///
/// For example, `(module (func $f))` becomes `(module (func $rf))`. Positions, name annotations,
/// and the strings of exports, imports and custom sections are the same.
///
/// # Example
///
///     let made = twin(alloc, n).expect(rt, "there is such a row");
///
/// # Errors
///
/// E12: allocation failed.
pub fn twin<'a>(alloc: Global, n: u32) -> Option<Result<Module<'a>, Error<'a>>>
    ensures there { is_some result ≡ is_row n }
    ensures refusal { IfSome result (λ made. IfErr made (λ e. e ≡ out_of_memory)) }
{
    made_module(twin_fields(alloc, n))
}
