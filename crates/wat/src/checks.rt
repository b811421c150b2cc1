//! Checks the function bodies of a text, for `--check`.
//!
//! The text is encoded first, so that its errors are those of a conversion. Then it is read and
//! resolved once more, and its function bodies are validated.

use crate::causes::Told;
use crate::colors::style_of;
use crate::options::Options;
use crate::reports::{Report, report_function};
use crate::several::report_all;
use crate::words::word_of;
use std::alloc::{AllocError, Global};
use std::str;
use wast_core::{Module, ModuleKind, discard_module};
use wast_resolve::discard_names;
use wast_tree::{FuncKind, Gensym, Instruction, ModuleField, Seq, Span};
use wast_valid::{check_one, start_body};
use wast_valid_machine::{Cause, Context, Sig, Stop};
use wast_valid_tree::{Invalid, first_invalid, instr_for};
use wat_bytes::{encode_text, module_of};
use wat_command::{
    Escaped, Failure, Style, read_input, report_file_in, report_malformed_in, shown, text_before,
    warn_in,
};
use wat_text::{Strings, read};

/// What each binary module begins with, and no text.
const BINARY: &[u8] = b"\0asm";

/// The message for types that the validator does not cover.
const TYPES: &str = "not checked: a type of the module";

/// Returns the position of the function that is this field.
fn place_of(fields: &[ModuleField<'_>], field: usize) -> Span {
    match fields.get(field) {
        Some(ModuleField::Func(func)) => func.span,
        _ => Span { offset: 0 },
    }
}

/// Returns an instruction of the function that is this field. At the end of its body there is none.
fn instruction_at<'m, 'a>(
    fields: &'m [ModuleField<'a>],
    field: usize,
    instr: usize,
) -> Option<&'m Instruction<'a>> {
    let Some(ModuleField::Func(func)) = fields.get(field) else {
        return None;
    };
    match &func.kind {
        FuncKind::Inline { expression, .. } => expression.instrs.as_slice().get(instr),
        FuncKind::Import(_, _) => None,
    }
}

/// Returns a context in which there is nothing.
fn nothing(alloc: Global) -> Context {
    Context {
        types: Seq::new(alloc),
        funcs: Seq::new(alloc),
        tables: Seq::new(alloc),
        memories: Seq::new(alloc),
        globals: Seq::new(alloc),
        elems: Seq::new(alloc),
        datas: 0,
        declared: Seq::new(alloc),
        locals: Seq::new(alloc),
        params: 0,
    }
}

/// Returns whether the validator covers an instruction, whatever it refers to.
fn is_covered(alloc: Global, instruction: &Instruction<'_>) -> bool {
    let Ok(instr) = instr_for(alloc, &[], instruction) else {
        return false;
    };
    let Ok(mut state) = start_body(alloc, Sig::Empty) else {
        return false;
    };
    let context = nothing(alloc);
    match check_one(&mut state, &context, &instr) {
        Err(Stop::Invalid(Cause::Unsupported)) => false,
        _ => true,
    }
}

/// Returns whether a cause is that a type of the module is not covered. It is reported for the first
/// instruction of a function, whether the validator covers this or not.
fn is_of_type(alloc: Global, invalid: Invalid, instruction: Option<&Instruction<'_>>) -> bool {
    match (invalid.cause, instruction) {
        (Cause::Unsupported, Some(instruction)) => {
            invalid.instr == 0 && is_covered(alloc, instruction)
        }
        (Cause::Unsupported, None) => true,
        _ => false,
    }
}

/// Returns the message for an invalid function. What is not checked is named by its word.
fn message_of(
    alloc: Global,
    cause: Cause,
    instruction: Option<&Instruction<'_>>,
) -> Result<String, AllocError> {
    let told = Told(cause);
    match (cause, instruction) {
        (Cause::Unsupported, Some(instruction)) => {
            let word = word_of(alloc, instruction)?;
            format!(in alloc; "{told}: `{word}`")
        }
        _ => format!(in alloc; "{told}"),
    }
}

/// Returns where in a function an instruction is. Instructions count from 1.
fn note_of(
    alloc: Global,
    instr: usize,
    instruction: Option<&Instruction<'_>>,
) -> Result<String, AllocError> {
    let number = instr.saturating_add(1);
    match instruction {
        Some(instruction) => {
            let word = word_of(alloc, instruction)?;
            format!(in alloc; "at instruction {number} of the function, `{word}`")
        }
        None => String::from_str(alloc, "at the end of the function"),
    }
}

/// What is reported of an invalid function.
#[derive(Drop)]
struct Finding {
    /// The message.
    message: String,
    /// Which instruction it is about, or nothing.
    note: String,
    /// The position of the function.
    span: Span,
}

/// The result for a module.
#[derive(Drop)]
enum Checked {
    /// All function bodies are valid.
    Valid,
    /// A function is not.
    Invalid(Finding),
    /// The module is binary.
    Binary,
    /// Allocation failed.
    Memory,
}

/// Returns what is reported of an invalid function.
fn finding_of(
    alloc: Global,
    fields: &[ModuleField<'_>],
    invalid: Invalid,
) -> Result<Finding, AllocError> {
    let span = place_of(fields, invalid.field);
    let instruction = instruction_at(fields, invalid.field, invalid.instr);
    if is_of_type(alloc, invalid, instruction) {
        let message = String::from_str(alloc, TYPES)?;
        let note = String::from_str(alloc, "")?;
        return Ok(Finding {
            message,
            note,
            span,
        });
    }
    let message = message_of(alloc, invalid.cause, instruction)?;
    let note = note_of(alloc, invalid.instr, instruction)?;
    Ok(Finding {
        message,
        note,
        span,
    })
}

/// Checks the function bodies of resolved fields.
fn checked_fields(alloc: Global, fields: &[ModuleField<'_>]) -> Checked {
    match first_invalid(alloc, fields) {
        Ok(None) => Checked::Valid,
        Ok(Some(invalid)) => match finding_of(alloc, fields, invalid) {
            Ok(finding) => Checked::Invalid(finding),
            Err(_) => Checked::Memory,
        },
        Err(_) => Checked::Memory,
    }
}

/// Resolves a module that was encoded before, and checks its function bodies.
fn checked_module(alloc: Global, module: &mut Module<'_>) -> Checked {
    let mut gensym = Gensym::new(1);
    match module.check_and_resolve(alloc, &mut gensym) {
        Ok(names) => discard_names(names),
        Err(_) => return Checked::Memory,
    }
    match &module.kind {
        ModuleKind::Text(fields) => checked_fields(alloc, fields.as_slice()),
        ModuleKind::Binary(_) | ModuleKind::Refused(_) => Checked::Binary,
    }
}

/// Checks the function bodies of a text that was encoded before. So reading it again fails only if
/// an allocation does.
fn checked_text<'a>(alloc: Global, text: &'a str, strings: &'a Strings) -> Checked {
    match read(alloc, text, strings) {
        Ok(parsed) => {
            let mut module = module_of(parsed);
            let checked = checked_module(alloc, &mut module);
            discard_module(module);
            checked
        }
        Err(_) => Checked::Memory,
    }
}

/// Reports the result for a module.
fn report_checked(
    rt: &HostRuntime,
    style: Style,
    file: Escaped<'_>,
    text: &str,
    checked: &Checked,
) -> Result<(), Failure> {
    match checked {
        Checked::Valid => Ok(()),
        Checked::Invalid(finding) => {
            let report = Report {
                message: finding.message.as_str(),
                note: finding.note.as_str(),
                span: finding.span,
            };
            Err(report_function(rt, style, file, text, report))
        }
        Checked::Binary => Err(report_file_in(rt, style, file, "not checked: a binary module")),
        Checked::Memory => Err(Failure::memory(rt)),
    }
}

/// Checks a text. Reports its first error, or the first function that is not valid.
fn check_text(
    rt: &HostRuntime,
    style: Style,
    file: Escaped<'_>,
    text: &str,
) -> Result<(), Failure> {
    warn_in(rt, style, file, text);
    let strings = Strings::new(rt.alloc());
    if let Err(refused) = encode_text(rt.alloc(), text, &strings) {
        return Err(report_all(rt, style, file, text, &refused));
    }
    let checked = checked_text(rt.alloc(), text, &strings);
    report_checked(rt, style, file, text, &checked)
}

/// Checks the bytes of a file.
fn check_bytes(
    rt: &HostRuntime,
    style: Style,
    file: Escaped<'_>,
    bytes: &[u8],
) -> Result<(), Failure> {
    if bytes.starts_with(BINARY) {
        return Err(report_file_in(rt, style, file, "already a binary module"));
    }
    match str::from_utf8(bytes) {
        Ok(text) => check_text(rt, style, file, text),
        Err(error) => {
            let wrong = error.valid_up_to();
            let text = text_before(bytes, wrong);
            let byte = bytes.get(wrong).copied();
            Err(report_malformed_in(rt, style, file, text, byte))
        }
    }
}

/// Reads a file, and checks it. Nothing is written.
pub(crate) fn check_file(rt: &HostRuntime, options: &Options, file: &str) -> Result<(), Failure> {
    let style = style_of(rt, options);
    match read_input(rt, file) {
        Ok(bytes) => check_bytes(rt, style, shown(file), bytes.as_slice()),
        Err(error) => Err(Failure::of_read(rt, style, shown(file), error)),
    }
}
