//! The bytes of a text.

ghost use Rattle.std.specs.Prelude.{IfErr};
ghost use Rattle.wast_core.specs.Modules.{IsReady};
ghost use Rattle.wat_bytes.specs.Texts.{EncodesModule, EncodesText, IsPlaced, OfText, OrUnready, RefusesWith, module_of};

use crate::laws::bare_laws;
use crate::modules::{is_ready, module_of, read_text, release, unready};
use crate::refusals::{Refused, UncoveredForm};
use crate::uncovered::{as_written, first_form};
use std::alloc::Global;
use wast_core::{EncodeOptions, Module, discard_module};
use wast_tree::{Error, Fault, Gensym};
use wat_text::{Strings, TextModule};

/// Returns the error of a module, with the position of an unsupported construct.
fn refusal<'a>(module: &mut Module<'_>, error: Error<'a>) -> Refused<'a>
    ensures { RefusesWith «module».old.kind error.entry result }
{
    let first = match error.fault() {
        Fault::Uncovered(_) => first_form(module),
        _ => None,
    };
    match first {
        Some(uncovered) => Refused::Uncovered(UncoveredForm {
            form: uncovered.form,
            span: uncovered.span,
            word: None,
        }),
        None => Refused::Module(error),
    }
}

/// Returns the bytes of a module that may be resolved with a counter at 1.
fn encoded<'a>(alloc: Global, module: &mut Module<'a>) -> Result<Vec<u8>, Refused<'a>>
    requires ready { IsReady «module».old 1 }
    ensures { EncodesModule «module».old result }
{
    let mut gensym = Gensym::new(1);
    let answer = EncodeOptions::new().encode_module(alloc, module, &mut gensym);
    match answer {
        Ok(bytes) => Ok(bytes),
        Err(error) => Err(refusal(module, error)),
    }
}

/// Returns the bytes of a module, if it may be resolved with a counter at 1.
#[tactic(auto, using(crate::proofs::Asked::encoded_asked))]
fn encoded_if_ready<'a>(alloc: Global, module: &mut Module<'a>) -> Result<Vec<u8>, Refused<'a>>
    ensures { OrUnready EncodesModule «module».old result }
{
    match is_ready(module) {
        true => encoded(alloc, module),
        false => Err(Refused::Text(unready(module))),
    }
}

/// Resolves and encodes a parsed module that may be resolved. If `is_last` is true, it is not freed.
fn encoded_module<'a>(
    alloc: Global,
    text: TextModule<'a>,
    is_last: bool,
) -> Result<Vec<u8>, Refused<'a>>
    requires ready { IsReady (module_of text) 1 }
    ensures { EncodesText text.entry result }
{
    let mut module = module_of(text);
    let answer = encoded(alloc, &mut module);
    release(module, is_last);
    answer
}

/// Resolves and encodes a parsed module (binary format: modules).
///
/// # Example
///
///     let module = read(rt.alloc(), text, &strings).expect(&rt, "a module");
///     assert!(rt;
///         encoded_text(rt.alloc(), module)
///             .expect(&rt, "bytes")
///             .as_slice()
///             == of_text.as_slice()
///     );
///
/// # Errors
///
/// - [`Refused::Text`]: the module is not well formed, or has a generated id. It has the first rule
///   of well-formedness that is broken, or else rule 6, at offset 0. This happens only after a
///   change of the module, because the rules of the text format read no such module.
/// - [`Refused::Uncovered`]: E11, with the position that
///   [`first_uncovered`](wast_tree::first_uncovered) finds in the resolved fields, and no token.
///   [`encode_text`] has the token.
/// - [`Refused::Module`]: each other error of `encode_module` of `wast_core`.
pub fn encoded_text<'a>(alloc: Global, text: TextModule<'a>) -> Result<Vec<u8>, Refused<'a>>
    ensures { OrUnready EncodesModule (module_of text.entry) result }
{
    let mut module = module_of(text);
    let answer = encoded_if_ready(alloc, &mut module);
    discard_module(module);
    answer
}

/// Returns the bytes of the module of this text. An unsupported construct has its token. If
/// `is_last` is true, the module is not freed.
#[tactic(auto, using(crate::proofs::OutOfMemory::memory_instead))]
fn encoded_in<'a>(
    alloc: Global,
    text: &'a str,
    strings: &'a Strings,
    module: TextModule<'a>,
    is_last: bool,
) -> Result<Vec<u8>, Refused<'a>>
    requires ready { IsReady (module_of «module») 1 }
    ensures { EncodesText «module».entry result }
{
    match encoded_module(alloc, module, is_last) {
        Err(Refused::Uncovered(found)) => match as_written(alloc, text, strings, found) {
            Ok(written) => Err(Refused::Uncovered(written)),
            Err(_) => Err(Refused::Module(Error::refusal(Fault::Memory))),
        },
        answer => answer,
    }
}

/// Does what [`encode_text`] does. If `is_last` is true, the module is not freed.
fn encode<'a>(
    alloc: Global,
    text: &'a str,
    strings: &'a Strings,
    is_last: bool,
) -> Result<Vec<u8>, Refused<'a>>
    ensures answer { OfText EncodesText text.now result }
    ensures place { IfErr result (IsPlaced text.now) }
{
    bare_laws();
    match read_text(alloc, text, strings) {
        Ok(module) => encoded_in(alloc, text, strings, module, is_last),
        Err(error) => Err(Refused::Text(error)),
    }
}

/// Converts a module from the text format to the binary format (text format: modules; binary
/// format: modules).
///
///     let of_text = encode_text(rt.alloc(), text, &strings).expect(&rt, "bytes");
///
/// `strings` stores strings with escapes. For a module that is already parsed, call
/// [`encoded_text`].
///
/// # Errors
///
/// - [`Refused::Text`]: the text is not a module. The position is in the text or at its end.
/// - [`Refused::Module`]: a check of resolving fails (E1 to E9), or the module is too large (E10).
/// - [`Refused::Uncovered`]: an unsupported construct (E11). To find its token, the text is read
///   again. In `(module (func i64.add128))` it is `i64.add128` at offset 14.
pub fn encode_text<'a>(
    alloc: Global,
    text: &'a str,
    strings: &'a Strings,
) -> Result<Vec<u8>, Refused<'a>>
    ensures answer { OfText EncodesText text.now result }
    ensures place { IfErr result (IsPlaced text.now) }
{
    encode(alloc, text, strings, false)
}

/// Encodes the last text of a program, as [`encode_text`] does, and leaks the tree of its module.
///
///     let last = encode_last_text(rt.alloc(), text, &strings);
///
/// It is for a program that ends soon after the call, because freeing the tree takes two hundredths
/// of the time of the conversion. For example, `wat a.wat b.wat` calls [`encode_text`] for `a.wat`,
/// and this function for `b.wat`. A library, or a program that goes on, calls [`encode_text`].
///
/// The tree keeps its memory until the process ends. After E1 to E9 and after an error of the text
/// nothing is leaked. The bytes and `strings` are freed as always.
pub fn encode_last_text<'a>(
    alloc: Global,
    text: &'a str,
    strings: &'a Strings,
) -> Result<Vec<u8>, Refused<'a>>
    ensures answer { OfText EncodesText text.now result }
    ensures place { IfErr result (IsPlaced text.now) }
{
    encode(alloc, text, strings, true)
}
