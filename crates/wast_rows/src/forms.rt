//! Modules with one unsupported construct each.

ghost use Rattle.std.specs.Prelude.{◌≡◌, IfOk, IfErr};
ghost use Rattle.wast_base.specs.Faults.{out_of_memory};
ghost use Rattle.wast_rows.specs.Forms.{IsTextOf};

use crate::samples::text_module;
use std::alloc::Global;
use wast_base::{Error, Form};
use wast_core::Module;
use wast_rows_samples::form_fields;

/// Returns a small module with this unsupported construct and no other.
///
/// The fields are those of [`form_fields`]. The module has no id and no name, and is at offset 1.
///
/// # Example
///
///     let made = form_sample(alloc, form);
///
/// # Errors
///
/// E12: allocation failed.
pub fn form_sample<'a>(alloc: Global, form: Form) -> Result<Module<'a>, Error<'a>>
    ensures alone { IfOk result (λ m. IsTextOf form m.kind) }
    ensures refusal { IfErr result (λ e. e ≡ out_of_memory) }
{
    Ok(text_module(form_fields(alloc, form)?))
}
