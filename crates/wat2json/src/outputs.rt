//! Names and writes the files.

ghost use Rattle.std.specs.Prelude.{◌≡◌, Bool, true, OnOk, option_copied};
ghost use Rattle.wast_script_json.specs.Entries.{commands_in};
ghost use Rattle.wast_script_json.specs.Files.{module_for, modules_after, with_modules, Stands, IsCut, Passes, PassesAll, PrintsJson};
ghost use Rattle.wast_script_json.specs.References.{State};

use crate::options::{Misuse, Options};
use std::alloc::{AllocError, Global};
use std::io::{self, Write};
use wast_script::{Command, Script};
use wast_script_json::{ConvertedModule, ModuleFile, ScriptJson, commands_of, module_of};
use wat_command::{
    Escaped, Failure, NewFile, STANDARD, Style, file_key, is_kept, split_path, write_bytes,
    write_unsynced,
};

/// A piece of the JSON is written when it has so many bytes.
const PIECE: usize = 1 << 16;

/// What the names of module files begin with, if the script is from standard input and the JSON goes to standard output.
const UNNAMED: &str = "stdin";

/// Returns a name without its extension, if there is a name before that.
fn without_extension(name: &str) -> &str {
    match name.rsplit_once('.') {
        Some((stem, _)) if !stem.is_empty() => stem,
        _ => name,
    }
}

/// Returns what the names of outputs begin with: `a` for `folder/a.json`.
fn stem_of(path: &str) -> &str {
    if path == STANDARD {
        return UNNAMED;
    }
    let (_, name) = split_path(path);
    without_extension(name)
}

/// The files to write.
#[derive(Drop)]
pub(crate) struct Outputs {
    /// The path of the JSON file; `None` is standard output.
    pub target: Option<String>,
    /// The folder of the modules, with its slash; empty for the current one.
    pub folder: String,
    /// What the names of module files begin with.
    pub stem: String,
}

/// Returns a folder with its slash.
fn with_slash(alloc: Global, folder: &str) -> Result<String, AllocError> {
    let slash = if folder.is_empty() || folder.ends_with('/') {
        ""
    } else {
        "/"
    };
    format!(in alloc; "{folder}{slash}")
}

/// Returns the files in a folder, with their names from the script.
fn outputs_in(alloc: Global, options: &Options, folder: &str) -> Result<Outputs, AllocError> {
    let folder = with_slash(alloc, folder)?;
    let stem = stem_of(options.file.as_str());
    let target = if options.prints() {
        None
    } else {
        Some(format!(in alloc; "{folder}{stem}.json")?)
    };
    Ok(Outputs {
        target,
        folder,
        stem: String::from_str(alloc, stem)?,
    })
}

/// Returns the files that the options name: with `--output` the JSON file and others beside it, and without it all in the folder of
/// `--out-dir` or the current one.
pub(crate) fn outputs_of(alloc: Global, options: &Options) -> Result<Outputs, AllocError> {
    match (&options.target, &options.folder) {
        (Some(target), None) => {
            let (folder, _) = split_path(target.as_str());
            Ok(Outputs {
                target: Some(String::from_str(alloc, target.as_str())?),
                folder: String::from_str(alloc, folder)?,
                stem: String::from_str(alloc, stem_of(target.as_str()))?,
            })
        }
        (_, Some(folder)) => outputs_in(alloc, options, folder.as_str()),
        (None, None) => outputs_in(alloc, options, ""),
    }
}

impl Outputs {
    /// Returns the path of a module's file.
    fn path_of(&self, alloc: Global, file: &ModuleFile) -> Result<String, AllocError> {
        let (folder, name) = (self.folder.as_str(), file.name.as_str());
        format!(in alloc; "{folder}{name}")
    }
}

/// Checks that an output is not the script, which has this key, because the script would be lost.
fn check_output(rt: &HostRuntime, key: &str, path: &str) -> Result<(), Misuse> {
    let of_path = file_key(rt, path)?;
    if of_path.as_str() == key {
        let path = String::from_str(rt.alloc(), path)?;
        return Err(Misuse::ReadOutput(path));
    }
    Ok(())
}

/// Checks that no output replaces the script.
pub(crate) fn check_outputs(
    rt: &HostRuntime,
    script: &str,
    outputs: &Outputs,
    modules: &[ConvertedModule],
) -> Result<(), Misuse> {
    if !is_kept(rt, script) {
        return Ok(());
    }
    let key = file_key(rt, script)?;
    for module in modules.iter() {
        if let ConvertedModule::File(file) = module {
            let path = outputs.path_of(rt.alloc(), file)?;
            check_output(rt, key.as_str(), path.as_str())?;
        }
    }
    match &outputs.target {
        Some(target) => check_output(rt, key.as_str(), target.as_str()),
        None => Ok(()),
    }
}

/// Writes the file of a module, or reports why that failed.
fn write_module(rt: &HostRuntime, outputs: &Outputs, file: &ModuleFile) -> Result<(), Failure> {
    let Ok(path) = outputs.path_of(rt.alloc(), file) else {
        return Err(Failure::memory(rt));
    };
    match write_unsynced(rt, path.as_str(), file.bytes.as_slice()) {
        Ok(()) => Ok(()),
        Err(error) => Err(Failure::of_write_to(rt, Style::Plain, Escaped(path.as_str()), error)),
    }
}

/// Returns the first of the modules that are left, and those after it.
fn first_module(modules: &[ConvertedModule]) -> (Option<&ConvertedModule>, &[ConvertedModule])
    ensures first { option_copied result.0 ≡ module_for true modules.now }
    ensures rest { result.1.now ≡ modules_after true modules.now }
{
    match modules.split_first() {
        Some((module, others)) => (Some(module), others),
        None => (None, modules),
    }
}

/// Returns the first of the modules that are left, if a command has one, and those that are left after it.
fn split_module(
    is_needed: bool,
    modules: &[ConvertedModule],
) -> (Option<&ConvertedModule>, &[ConvertedModule])
    ensures first { option_copied result.0 ≡ module_for is_needed modules.now }
    ensures rest { result.1.now ≡ modules_after is_needed modules.now }
{
    match is_needed {
        true => first_module(modules),
        false => (None, modules),
    }
}

/// Writes the text so far, and forgets it.
fn write_text<'a, W: Write>(json: &mut ScriptJson<'a>, writer: &mut W) -> io::Result<()>
    ensures { OnOk result (IsCut json.old json.new (W.contents writer.old) (W.contents writer.new)) }
{
    write_bytes(writer, json.text().as_bytes())?;
    json.clear();
    Ok(())
}

/// Writes the text so far, if it is as long as a piece.
#[tactic(auto, using(wast_script_json::proofs::Pieces::uncut))]
fn write_piece<'a, W: Write>(json: &mut ScriptJson<'a>, writer: &mut W) -> io::Result<()>
    ensures { OnOk result (IsCut json.old json.new (W.contents writer.old) (W.contents writer.new)) }
{
    if json.text().len() < PIECE {
        return Ok(());
    }
    write_text(json, writer)
}

/// Writes a command, whose module was converted so.
fn write_command<'a, W: Write>(
    script: &Script<'a>,
    command: &Command<'a>,
    module: Option<&ConvertedModule>,
    json: &mut ScriptJson<'a>,
    writer: &mut W,
) -> io::Result<()>
    ensures { OnOk result ((s : State) (is_first : Bool) → Stands script.now.text.now s is_first json.old → Passes script.now s is_first command.now (option_copied «module».entry) json.old json.new (W.contents writer.old) (W.contents writer.new)) }
{
    json.command(script, command, module)?;
    write_piece(json, writer)?;
    Ok(())
}

/// Writes the JSON of the commands piece by piece, so that no more of it than a piece and one command is in memory.
fn write_pieces<'a, W: Write>(
    script: &Script<'a>,
    modules: &[ConvertedModule],
    json: &mut ScriptJson<'a>,
    writer: &mut W,
) -> io::Result<()>
    ensures { OnOk result ((s : State) (is_first : Bool) → Stands script.now.text.now s is_first json.old → PassesAll script.now s is_first (with_modules (commands_in script.now) modules.now) json.old json.new (W.contents writer.old) (W.contents writer.new)) }
{
    let commands = commands_of(script);
    let mut rest = modules;
    for command in commands {
        let is_needed = module_of(command).is_some();
        let (module, others) = split_module(is_needed, rest);
        write_command(script, command, module, json, writer)?;
        rest = others;
    }
    Ok(())
}

/// Writes the whole JSON.
fn write_json<W: Write>(
    rt: &HostRuntime,
    source: &str,
    script: &Script<'_>,
    modules: &[ConvertedModule],
    writer: &mut W,
) -> io::Result<()>
    ensures { OnOk result (PrintsJson script.now source.now (with_modules (commands_in script.now) modules.now) (W.contents writer.old) (W.contents writer.new)) }
{
    let mut json = ScriptJson::new(rt.alloc(), source)?;
    write_pieces(script, modules, &mut json, writer)?;
    json.end()?;
    write_bytes(writer, json.text().as_bytes())?;
    Ok(())
}

/// Writes the JSON file whole or not at all.
fn write_target(
    rt: &HostRuntime,
    source: &str,
    script: &Script<'_>,
    modules: &[ConvertedModule],
    path: &str,
) -> io::Result<()> {
    let mut file = NewFile::create(rt, path)?;
    let written = write_json(rt, source, script, modules, &mut file);
    file.finish(rt, path, true, written)
}

/// Prints the JSON to standard output.
fn print_json(
    rt: &HostRuntime,
    source: &str,
    script: &Script<'_>,
    modules: &[ConvertedModule],
) -> Result<(), Failure> {
    let mut stdout = rt.stdout();
    match write_json(rt, source, script, modules, &mut stdout) {
        Ok(()) => Ok(()),
        Err(error) => Err(Failure::of_write(rt, error)),
    }
}

/// Writes the files of the modules, and then the JSON, so that each file that it names is there and whole.
pub(crate) fn write_outputs(
    rt: &HostRuntime,
    source: &str,
    script: &Script<'_>,
    outputs: &Outputs,
    modules: &[ConvertedModule],
) -> Result<(), Failure> {
    for module in modules.iter() {
        if let ConvertedModule::File(file) = module {
            write_module(rt, outputs, file)?;
        }
    }
    let Some(target) = &outputs.target else {
        return print_json(rt, source, script, modules);
    };
    match write_target(rt, source, script, modules, target.as_str()) {
        Ok(()) => Ok(()),
        Err(error) => Err(Failure::of_write_to(rt, Style::Plain, Escaped(target.as_str()), error)),
    }
}
