//! Writes the commands of a script as JSON.

ghost use Rattle.std.specs.Prelude.{◌≡◌, ℕ, Bool, true, List, [], ◌++◌, IfOk, OnOk, option_copied};
ghost use Rattle.wast_script_json.specs.Json.{written};
ghost use Rattle.wast_base.specs.Lines.{line_of, column_of};
ghost use Rattle.wast_script_json.specs.Entries.{told};
ghost use Rattle.wast_script_json.specs.Commands.{of_converted, of_other, place_or, other_place, other_skipped, construct_in, place_of, types_for, acted_text, object_text, closes, opens, separator, before_command};
ghost use Rattle.wast_script_json.specs.Files.{beginning, closing, Stands, Writes};
ghost use Rattle.wast_script_json.specs.Known.{Knows};
ghost use Rattle.wast_script_json.specs.Places.{Counts};
ghost use Rattle.wast_script_json.specs.References.{State, nothing_known};

use crate::instances::Instances;
use crate::json::Json;
use crate::kinds::{ActionEntry, Entry, ModuleEntry, entry_of};
use crate::lines::{Lines, column_of};
use crate::modules::ConvertedModule;
use crate::objects::{write_command_of_action, write_module, write_other};
use std::alloc::{AllocError, Global};
use wast_script::{Command, CommandKind, Script};
use wast_tree::{Id, Span};

/// The commands of a script that were written so far.
#[derive(Drop)]
pub struct ScriptJson<'a> {
    json: Json,
    instances: Instances<'a>,
    lines: Lines,
    /// Whether the next command is the first of the script or of a thread.
    is_first: bool,
}

/// The position of an id, or another if there is none.
fn place_or(id: Option<Id<'_>>, span: Span) -> Span
    ensures { result ≡ place_or id.entry span }
{
    match id {
        Some(id) => id.span(),
        None => span,
    }
}

/// The position of the line of a command without a module and an action. That of `register` is its id, if there is one.
fn other_place(kind: CommandKind<'_>, span: Span) -> Span
    ensures { result ≡ other_place kind.entry span }
{
    match kind {
        CommandKind::Register(_, id) => place_or(id, span),
        _ => span,
    }
}

/// Returns whether a command without a module and an action refers to a module that is skipped.
fn other_skipped<'a>(instances: &Instances<'a>, kind: CommandKind<'a>) -> bool
    ensures { (s : State) → Knows instances.now s → result ≡ other_skipped s kind.entry }
{
    match kind {
        CommandKind::Instance(_, original) => instances.is_definition_skipped(original),
        CommandKind::Register(_, id) => instances.is_skipped(id),
        _ => false,
    }
}

/// The types of the results of an action, if the command has no results.
fn types_for<'i, 'a>(instances: &'i Instances<'a>, command: &ActionEntry<'a>) -> &'i str
    ensures { (s : State) → Knows instances.now s → result.now ≡ types_for s command.now.action command.now.results }
{
    match command.results {
        None => instances.types_of(command.action.module, command.action.name),
        Some(_) => "",
    }
}

/// The position of an unsupported construct.
fn construct_in(converted: Option<&ConvertedModule>) -> Option<Span>
    ensures { result ≡ construct_in (option_copied converted.entry) }
{
    match converted {
        Some(ConvertedModule::Skipped(_, place)) => Some(*place),
        Some(ConvertedModule::File(_)) => None,
        None => None,
    }
}

/// The line and the column of a position, if there is one.
fn place_of(lines: &mut Lines, text: &str, place: Option<Span>) -> (u64, u64)
    ensures counts { Counts text.now lines.old → Counts text.now lines.new }
    ensures place { Counts text.now lines.old → result ≡ place_of text.now place }
{
    match place {
        Some(place) => (lines.line_of(text, place), column_of(text, place)),
        None => (0, 0),
    }
}

/// Appends a command about a module.
fn module_object(
    json: &mut Json,
    lines: &mut Lines,
    text: &str,
    command: ModuleEntry<'_>,
    converted: Option<&ConvertedModule>,
) -> Result<(), AllocError>
    ensures counts { Counts text.now lines.old → Counts text.now lines.new }
    ensures text { OnOk result (Counts text.now lines.old → written json.new ≡ written json.old ++ of_converted (option_copied converted.entry) (line_of text.now command.entry.«module».span) (place_of text.now (construct_in (option_copied converted.entry))) command.entry.ty.now command.entry.«module» command.entry.role command.entry.is_definition (told command.entry.message)) }
{
    let line = lines.line_of(text, command.module.span);
    let place = place_of(lines, text, construct_in(converted));
    write_module(json, line, place, command, converted)?;
    Ok(())
}

/// Appends a command that has an action.
fn action_object<'a>(
    json: &mut Json,
    lines: &mut Lines,
    instances: &Instances<'a>,
    script: &Script<'a>,
    command: ActionEntry<'a>,
) -> Result<(), AllocError>
    ensures counts { Counts script.now.text.now lines.old → Counts script.now.text.now lines.new }
    ensures text { OnOk result ((s : State) → Knows instances.now s → Counts script.now.text.now lines.old → written json.new ≡ written json.old ++ acted_text script.now s command.entry.ty.now command.entry.action (told command.entry.message) command.entry.results) }
{
    let line = lines.line_of(script.text, command.action.span);
    let is_skipped = instances.is_skipped(command.action.module);
    let types = types_for(instances, &command);
    write_command_of_action(json, line, script, command, is_skipped, types)?;
    Ok(())
}

/// Appends a command without a module and an action.
fn other_object<'a>(
    json: &mut Json,
    lines: &mut Lines,
    instances: &Instances<'a>,
    text: &str,
    command: Command<'a>,
) -> Result<(), AllocError>
    ensures counts { Counts text.now lines.old → Counts text.now lines.new }
    ensures text { OnOk result ((s : State) → Knows instances.now s → Counts text.now lines.old → written json.new ≡ written json.old ++ of_other command.entry.kind (line_of text.now (other_place command.entry.kind command.entry.span)) (other_skipped s command.entry.kind)) }
{
    let line = lines.line_of(text, other_place(command.kind, command.span));
    let is_skipped = other_skipped(instances, command.kind);
    write_other(json, line, is_skipped, command.kind)?;
    Ok(())
}

/// Appends the object of a command.
fn write_object<'a>(
    json: &mut Json,
    lines: &mut Lines,
    instances: &Instances<'a>,
    script: &Script<'a>,
    command: Command<'a>,
    converted: Option<&ConvertedModule>,
) -> Result<(), AllocError>
    ensures counts { Counts script.now.text.now lines.old → Counts script.now.text.now lines.new }
    ensures text { OnOk result ((s : State) → Knows instances.now s → Counts script.now.text.now lines.old → written json.new ≡ written json.old ++ object_text script.now s command.entry (option_copied converted.entry)) }
{
    match entry_of(command.kind) {
        Entry::Module(entry) => {
            module_object(json, lines, script.text, entry, converted)?;
            Ok(())
        }
        Entry::Action(entry) => {
            action_object(json, lines, instances, script, entry)?;
            Ok(())
        }
        Entry::Other => {
            other_object(json, lines, instances, script.text, command)?;
            Ok(())
        }
    }
}

/// Returns whether a command is the end of a thread.
fn closes(kind: CommandKind<'_>) -> bool
    ensures { result ≡ closes kind.entry }
{
    match kind {
        CommandKind::ThreadEnd => true,
        _ => false,
    }
}

/// Returns whether the next command is the first of a thread.
fn opens(kind: CommandKind<'_>) -> bool
    ensures { result ≡ opens kind.entry }
{
    match kind {
        CommandKind::Thread(_, _) => true,
        _ => false,
    }
}

/// What is before a command that is not the end of a thread.
fn separator(is_first: bool) -> &'static str
    ensures { result.now ≡ separator is_first }
{
    match is_first {
        true => "",
        false => ",\n",
    }
}

/// Appends what is before a command, unless it is the end of a thread.
fn write_separator(json: &mut Json, is_first: bool, is_end: bool) -> Result<(), AllocError>
    ensures { OnOk result (written json.new ≡ written json.old ++ before_command is_first is_end) }
{
    match is_end {
        true => Ok(()),
        false => json.raw(separator(is_first)),
    }
}

impl<'a> ScriptJson<'a> {
    /// Begins a script from a file of this name, up to its first command.
    #[tactic(auto, using(crate::proofs::Pieces::begins))]
    pub fn new(alloc: Global, source: &str) -> Result<ScriptJson<'a>, AllocError>
        ensures text { IfOk result (λ w. written w.json ≡ beginning source.now) }
        ensures stands { IfOk result (λ w. (text : List ℕ) → Stands text nothing_known true w) }
    {
        let mut json = Json::new(alloc);
        json.raw("{\"source_filename\": ")?;
        json.string(source)?;
        json.raw(",\n \"commands\": [\n")?;
        Ok(ScriptJson {
            json,
            instances: Instances::new(alloc),
            lines: Lines::new(),
            is_first: true,
        })
    }

    /// Appends a command. `converted` is what its module is converted to, if it has one.
    pub fn command(
        &mut self,
        script: &Script<'a>,
        command: &Command<'a>,
        converted: Option<&ConvertedModule>,
    ) -> Result<(), AllocError>
        ensures appends { OnOk result ((s : State) (is_first : Bool) → Stands script.now.text.now s is_first self.old → Writes script.now s is_first command.now (option_copied converted.entry) self.old self.new) }
    {
        write_separator(&mut self.json, self.is_first, closes(command.kind))?;
        write_object(
            &mut self.json,
            &mut self.lines,
            &self.instances,
            script,
            *command,
            converted,
        )?;
        self.is_first = opens(command.kind);
        self.instances.pass(command.kind, converted)?;
        Ok(())
    }

    /// Ends the script after its last command.
    pub fn end(&mut self) -> Result<(), AllocError>
        ensures { OnOk result (written self.new.json ≡ written self.old.json ++ closing) }
    {
        self.json.raw("]}\n")
    }

    /// Returns the text since the last call of `clear`.
    pub fn text(&self) -> &str
        ensures { result.now ≡ written self.now.json }
    {
        self.json.text()
    }

    /// Forgets the text, which was written to a file. What is known before the next command stays.
    pub fn clear(&mut self)
        ensures text { written self.new.json ≡ [] }
        ensures stands { (text : List ℕ) (s : State) (is_first : Bool) → Stands text s is_first self.old → Stands text s is_first self.new }
    {
        self.json.clear();
    }
}
