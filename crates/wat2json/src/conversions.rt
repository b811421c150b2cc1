//! Converts the modules of a script to files.

ghost use Rattle.std.specs.Prelude.{◌≡◌, true, IfOk, string_bytes};
ghost use Rattle.wat2json.specs.Files.{IsContents, IsEncoded, file_name};

use crate::refusals::{Refusal, is_of_names, is_uncovered};
use std::alloc::{AllocError, Global};
use wast_script::{ModuleForm, Script, ScriptModule};
use wast_script_json::{ConvertedModule, ModuleFile, Role, commands_of, module_of};
use wast_script_records::encode_module;
use wast_tree::Span;
use wat_bytes::Refused;
use wat_text::Strings;

/// The contents of a module's file: its bytes or its text.
#[derive(Drop)]
struct Contents {
    bytes: Vec<u8>,
    is_text: bool,
}

/// Returns a text as the contents of a file.
fn text_contents(alloc: Global, text: &str) -> Result<Contents, AllocError>
    ensures { IfOk result (λ c. (c.is_text ≡ true) × (c.bytes.items ≡ text.now)) }
{
    Ok(Contents {
        bytes: Vec::from_slice(alloc, text.as_bytes())?,
        is_text: true,
    })
}

/// Returns the bytes of a module. If its names are wrong, and it may be wrong because an assertion is about that, this is its text.
fn encoded_contents<'a>(
    alloc: Global,
    script: &Script<'a>,
    strings: &'a Strings,
    module: &ScriptModule<'a>,
    role: Role,
) -> Result<Contents, Refusal<'a>>
    ensures { IfOk result (IsEncoded script.now «module».now role) }
{
    match encode_module(alloc, script, strings, module) {
        Ok(bytes) => Ok(Contents {
            bytes,
            is_text: false,
        }),
        Err(error) if matches!(role, Role::Wrong) && is_of_names(&error.refused) => {
            let contents = text_contents(alloc, script.source(module))?;
            Ok(contents)
        }
        Err(error) => Err(Refusal(error.in_script())),
    }
}

/// Returns the contents of a module's file. Only a module that actions run is encoded from its quotes.
fn contents_of<'a>(
    alloc: Global,
    script: &Script<'a>,
    strings: &'a Strings,
    module: &ScriptModule<'a>,
    role: Role,
) -> Result<Contents, Refusal<'a>>
    ensures { IfOk result (IsContents script.now «module».now role) }
{
    let is_quoted = matches!(module.form, ModuleForm::Quote);
    if matches!(role, Role::Run) || matches!(module.form, ModuleForm::Fields) {
        return encoded_contents(alloc, script, strings, module, role);
    }
    Ok(Contents {
        bytes: script.bytes(alloc, module)?,
        is_text: is_quoted,
    })
}

/// Returns the file of a module, which is the one of this number among those whose names begin with a stem: `a.0.wasm` is the first
/// of `a`.
fn file_of(
    alloc: Global,
    stem: &str,
    number: usize,
    contents: Contents,
) -> Result<ModuleFile, AllocError>
    ensures name { IfOk result (λ f. string_bytes f.name ≡ file_name stem.now number f.is_text) }
    ensures bytes { IfOk result (λ f. (f.bytes ≡ contents.bytes) × (f.is_text ≡ contents.is_text)) }
{
    let Contents { bytes, is_text } = contents;
    let extension = if is_text { "wat" } else { "wasm" };
    let name = format!(in alloc; "{stem}.{number}.{extension}")?;
    Ok(ModuleFile {
        name,
        bytes,
        is_text,
    })
}

/// Returns that a module is skipped for this error.
fn skipped<'a>(alloc: Global, refused: &Refused<'a>) -> Result<ConvertedModule, AllocError> {
    let reason = format!(in alloc; "{refused}")?;
    let place = refused.span().unwrap_or(Span::default());
    Ok(ConvertedModule::Skipped(reason, place))
}

/// The modules of a script that were converted so far.
#[derive(Drop)]
pub(crate) struct Modules {
    /// What they are converted to, in the order of their commands.
    pub converted: Vec<ConvertedModule>,
    /// How many of them are skipped.
    pub skipped: usize,
}

impl Modules {
    /// Appends what one more module is converted to.
    fn push(&mut self, module: ConvertedModule) -> Result<(), AllocError> {
        self.converted.push(module)?;
        Ok(())
    }

    /// Converts one more module. If modules may be skipped, one with an unsupported construct is.
    fn add<'a>(
        &mut self,
        alloc: Global,
        contents: Result<Contents, Refusal<'a>>,
        stem: &str,
        may_skip: bool,
    ) -> Result<(), Refusal<'a>> {
        match contents {
            Ok(contents) => {
                let number = self.converted.len().saturating_sub(self.skipped);
                let file = file_of(alloc, stem, number, contents)?;
                self.push(ConvertedModule::File(file))?;
            }
            Err(Refusal(refused)) if may_skip && is_uncovered(&refused) => {
                self.skipped = self.skipped.saturating_add(1);
                let module = skipped(alloc, &refused)?;
                self.push(module)?;
            }
            Err(refusal) => return Err(refusal),
        }
        Ok(())
    }
}

/// Converts the modules of a script. The names of their files begin with a stem. If modules may be skipped, those with unsupported
/// constructs (E11) are.
pub(crate) fn modules_of<'a>(
    alloc: Global,
    script: &Script<'a>,
    strings: &'a Strings,
    stem: &str,
    may_skip: bool,
) -> Result<Modules, Refusal<'a>> {
    let mut modules = Modules {
        converted: Vec::new(alloc),
        skipped: 0,
    };
    for command in commands_of(script) {
        if let Some((module, role)) = module_of(command) {
            let contents = contents_of(alloc, script, strings, &module, role);
            modules.add(alloc, contents, stem, may_skip)?;
        }
    }
    Ok(modules)
}
