//! Encodes the modules of a script. The error of one is that of its own text.

ghost use Rattle.std.specs.Prelude.{◌≡◌, IfOk};
ghost use Rattle.wast_script.specs.Scripts.{module_in, script_tokens};
ghost use Rattle.wast_script_records.specs.Encoded.{HasBytes};
ghost use Rattle.wast_base.specs.Faults.{is_placed};
ghost use Rattle.wat_bytes.specs.Texts.{place_of};
ghost use Rattle.wat_messages.specs.Ranges.{Marks, range_of};

use std::alloc::Global;
use wast_script::{Script, ScriptModule};
use wast_tree::{Error, Fault, Span};
use wat_bytes::{Refused, UncoveredForm, encode_text, encoded_text};
use wat_messages::Diagnostic;
use wat_text::{Strings, TextError, TextFault};

/// The number of E12.
const MEMORY: u32 = 12;

/// Why a module of a script has no bytes: the error that its text has alone.
#[derive(Clone, Copy)]
pub struct ModuleError<'a> {
    /// The text of the module.
    pub text: &'a str,
    /// Where it begins in the text of the script.
    pub start: Span,
    /// The error, with a position in the text of the module.
    pub refused: Refused<'a>,
}

/// Returns a position of a text that begins at another one.
fn after(start: Span, span: Span) -> Span {
    Span {
        offset: start.offset.saturating_add(span.offset),
    }
}

/// Returns whether an error has a position: E1 to E9.
fn is_placed(fault: Fault<'_>) -> bool
    ensures { result ≡ is_placed fault.entry }
{
    match fault {
        Fault::TooLarge | Fault::Uncovered(_) | Fault::Memory | Fault::Component => false,
        Fault::ImportAfter(_)
        | Fault::Duplicate(_)
        | Fault::DuplicateField(_, _)
        | Fault::Unknown(_, _)
        | Fault::NotFunc
        | Fault::OutOfBounds
        | Fault::NoMatch
        | Fault::Labels
        | Fault::NoNamedFields(_, _) => true,
    }
}

/// Returns an error of a text that begins at a position of another one, with its position in that one.
fn error_after<'a>(start: Span, error: Error<'a>) -> Error<'a> {
    let Some(span) = error.span() else {
        return error;
    };
    let fault = error.fault();
    if is_placed(fault) {
        return Error::new(after(start, span), fault);
    }
    error
}

impl<'a> ModuleError<'a> {
    /// Returns that allocation failed.
    fn memory() -> ModuleError<'a> {
        let start = Span { offset: 0 };
        ModuleError {
            text: "",
            start,
            refused: Refused::Text(TextError::new(start, TextFault::Memory)),
        }
    }

    /// Returns whether allocation failed.
    pub(crate) fn is_memory(&self) -> bool {
        self.refused.number() == Some(MEMORY)
    }

    /// Returns the error with its position in the text of the script.
    pub fn in_script(&self) -> Refused<'a> {
        let start = self.start;
        match self.refused {
            Refused::Text(error) => Refused::Text(TextError {
                span: after(start, error.span),
                ..error
            }),
            Refused::Module(error) => Refused::Module(error_after(start, error)),
            Refused::Uncovered(found) => Refused::Uncovered(UncoveredForm {
                span: after(start, found.span),
                ..found
            }),
        }
    }
}

/// Returns the error of a module's text. An error of the script's tokens of the module is one of its text, which is read again,
/// because the position of an unsupported construct is that of its word.
fn error_of<'a>(
    alloc: Global,
    script: &Script<'a>,
    strings: &'a Strings,
    module: &ScriptModule<'a>,
    refused: Refused<'a>,
) -> ModuleError<'a> {
    let whole = ModuleError {
        text: script.text,
        start: Span { offset: 0 },
        refused,
    };
    if whole.is_memory() {
        return whole;
    }
    let Ok(text) = script.module_text(alloc, module, strings) else {
        return ModuleError::memory();
    };
    match encode_text(alloc, text, strings) {
        Err(refused) => ModuleError {
            text,
            start: script.start(module),
            refused,
        },
        Ok(_) => whole,
    }
}

/// Returns the bytes of a module of a script, in each of its forms: those of a binary module as they are.
///
/// # Errors
///
/// That of [`encode_text`] for the text of the module ([`Script::module_text`]), and allocation failed (E12).
pub fn encode_module<'a>(
    alloc: Global,
    script: &Script<'a>,
    strings: &'a Strings,
    module: &ScriptModule<'a>,
) -> Result<Vec<u8>, ModuleError<'a>>
    ensures { IfOk result (HasBytes (module_in (script_tokens script.now) «module».now)) }
{
    let answer = match script.read(alloc, module, strings) {
        Ok(text) => encoded_text(alloc, text),
        Err(error) => Err(Refused::Text(error)),
    };
    match answer {
        Ok(bytes) => Ok(bytes),
        Err(refused) => Err(error_of(alloc, script, strings, module, refused)),
    }
}

/// Returns the diagnostic of the error of a text.
pub fn diagnostic_of<'a>(text: &'a str, refused: &Refused<'a>) -> Diagnostic<'a>
    ensures { Marks text.now (place_of refused.now) (range_of result) }
{
    match refused {
        Refused::Text(error) => Diagnostic::of_text(text, *error),
        Refused::Module(error) => Diagnostic::of_module(text, *error),
        Refused::Uncovered(found) => {
            Diagnostic::of_uncovered(text, found.span, found.form, found.word)
        }
    }
}
