//! A parsed text as a module of `wast_core`.

ghost use Rattle.std.specs.Prelude.{◌≡◌, ◌≤◌, length, IfOk, IfErr, IsTrue, IsFalse};
ghost use Rattle.wast_core.specs.Modules.{IsReady};
ghost use Rattle.wat_bytes.specs.Texts.{IsRead, module_of, unready};

use crate::laws::bare_laws;
use std::alloc::Global;
use std::mem::ManuallyDrop;
use wast_core::{Module, ModuleKind, discard_module};
use wast_tree::Span;
use wat_text::{Strings, TextError, TextFault, TextKind, TextModule, read};

/// The rule of well-formedness about generated ids.
const GENERATED: u8 = 6;

/// Parses a text. The module may be resolved with a counter at 1, because the rules read no other.
pub(crate) fn read_text<'a>(
    alloc: Global,
    text: &'a str,
    strings: &'a Strings,
) -> Result<TextModule<'a>, TextError>
    ensures read { IsRead text.now result }
    ensures ready { IfOk result (λ t. IsReady (module_of t) 1) }
    ensures place { IfErr result (λ e. e.span.offset ≤ length text.now) }
{
    bare_laws();
    read(alloc, text, strings)
}

/// Returns a parsed module as a [`Module`], for example to resolve it and to keep the tree (text
/// format: modules).
///
///     let parsed = read(rt.alloc(), text, &strings).expect(&rt, "a module");
///     let mut module = module_of(parsed);
pub fn module_of<'a>(text: TextModule<'a>) -> Module<'a>
    ensures { result ≡ module_of text.entry }
{
    let TextModule {
        span,
        id,
        name,
        kind,
    } = text;
    let kind = match kind {
        TextKind::Fields(fields) => ModuleKind::Text(fields),
        TextKind::Binary(pieces) => ModuleKind::Binary(pieces),
    };
    Module {
        span,
        id,
        name,
        kind,
    }
}

/// Returns whether a module may be resolved with a counter at 1. A caller may have changed it.
///
/// It takes `&mut` and changes nothing, because for a `&` the prover would compare the type of the
/// whole tree with itself.
pub(crate) fn is_ready(module: &mut Module<'_>) -> bool
    ensures ready { IsTrue result → IsReady «module».old 1 }
    ensures unready { IsFalse result → IsReady «module».old 1 → ⊥ }
    ensures stays { «module».new ≡ «module».old }
{
    module.well_formed() && module.gensym_bound() < 1
}

/// Returns why a module cannot be resolved with a counter at 1. It takes `&mut` for the reason that
/// [`is_ready`] has.
pub(crate) fn unready(module: &mut Module<'_>) -> TextError
    ensures why { result ≡ unready «module».old }
    ensures stays { «module».new ≡ «module».old }
{
    let clause = module.ill_formed().unwrap_or(GENERATED);
    TextError {
        fault: TextFault::IllFormed(clause),
        span: Span { offset: 0 },
    }
}

/// Frees a module. If it is the last one of a program, its memory is left to the end of the process,
/// because freeing visits the whole tree again.
pub(crate) fn release(module: Module<'_>, is_last: bool) {
    if is_last {
        // SAFETY: nothing uses or frees the module after this. `mem::forget` would do the same, but this
        // crate would have to prove again that each type of the tree may be dropped.
        let _leaked = unsafe { ManuallyDrop::new_unchecked(module) };
    } else {
        discard_module(module);
    }
}
