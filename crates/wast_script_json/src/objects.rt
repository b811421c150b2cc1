//! Writes the object of each command, by the number of its line.

ghost use Rattle.std.specs.Prelude.{◌≡◌, [], ◌++◌, codes, OnOk, option_copied};
ghost use Rattle.wast_script.specs.Scripts.{part};
ghost use Rattle.wast_script_json.specs.Json.{written, key, member};
ghost use Rattle.wast_script_json.specs.Entries.{told};
ghost use Rattle.wast_script_json.specs.Values.{list_text};
ghost use Rattle.wast_script_json.specs.Commands.{typed_as, on_line, head, id_member, message_member, skipped_head, dependent, column_text, place_text, unsupported, definition_member, module_text, file_type, assertion_text, of_file, of_converted, verb, arguments_member, action_text, expected_text, outcome_text, of_action, unless_skipped, instance_text, register_text, thread_text, wait_text, of_other};

use crate::json::Json;
use crate::kinds::{ActionEntry, ModuleEntry, Role};
use crate::modules::ConvertedModule;
use crate::values::{write_arguments, write_results};
use std::alloc::AllocError;
use wast_script::{Action, ActionKind, CommandKind, Part, Script};
use wast_tree::Id;

/// Why a command is skipped that refers to a module that is.
const DEPENDS: &str = "its module is skipped";

/// Appends the type of a command.
#[tactic(auto, unfolding(crate::specs::Commands::typed_as))]
fn write_type(json: &mut Json, ty: &str) -> Result<(), AllocError>
    ensures { OnOk result (written json.new ≡ written json.old ++ typed_as ty.now) }
{
    json.raw("  {\"type\": ")?;
    json.string(ty)
}

/// Appends the number of a line.
#[tactic(auto, unfolding(crate::specs::Commands::on_line))]
fn write_line(json: &mut Json, line: u64) -> Result<(), AllocError>
    ensures { OnOk result (written json.new ≡ written json.old ++ on_line line) }
{
    json.key("line")?;
    json.number(line)
}

/// Appends the type of a command and its line.
#[tactic(auto, unfolding(crate::specs::Commands::head))]
fn write_head(json: &mut Json, line: u64, ty: &str) -> Result<(), AllocError>
    ensures { OnOk result (written json.new ≡ written json.old ++ head line ty.now) }
{
    write_type(json, ty)?;
    write_line(json, line)
}

/// Appends a name of an id under a key.
fn write_name(json: &mut Json, key: &str, id: Id<'_>) -> Result<(), AllocError>
    ensures { OnOk result (written json.new ≡ written json.old ++ id_member key.now (Some id.entry)) }
{
    json.key(key)?;
    json.id(id.name())
}

/// Appends an id under a key, if there is one.
fn write_id(json: &mut Json, key: &str, id: Option<Id<'_>>) -> Result<(), AllocError>
    ensures { OnOk result (written json.new ≡ written json.old ++ id_member key.now id.entry) }
{
    match id {
        Some(id) => write_name(json, key, id),
        None => Ok(()),
    }
}

/// Appends a message, if there is one.
fn write_message(json: &mut Json, message: Option<&str>) -> Result<(), AllocError>
    ensures { OnOk result (written json.new ≡ written json.old ++ message_member (told message.entry)) }
{
    match message {
        Some(message) => json.member("text", message),
        None => Ok(()),
    }
}

/// Appends the beginning of a command that is skipped, with its line and its own type.
#[tactic(auto, unfolding(crate::specs::Commands::skipped_head))]
fn write_skipped_head(json: &mut Json, line: u64, ty: &str) -> Result<(), AllocError>
    ensures { OnOk result (written json.new ≡ written json.old ++ skipped_head line ty.now) }
{
    write_head(json, line, "skipped")?;
    json.member("command", ty)
}

/// Appends a command that is skipped because it refers to a module that is.
#[tactic(auto, unfolding(crate::specs::Commands::dependent))]
fn write_dependent(json: &mut Json, line: u64, ty: &str) -> Result<(), AllocError>
    ensures { OnOk result (written json.new ≡ written json.old ++ dependent line ty.now) }
{
    write_skipped_head(json, line, ty)?;
    json.member("reason", DEPENDS)?;
    json.raw("}")
}

/// Appends a column, and the end of a position.
fn write_column(json: &mut Json, column: u64) -> Result<(), AllocError>
    ensures { OnOk result (written json.new ≡ written json.old ++ column_text column) }
{
    json.key("column")?;
    json.number(column)?;
    json.raw("}")
}

/// Appends a line and a column.
#[tactic(auto, unfolding(crate::specs::Commands::place_text))]
fn write_place(json: &mut Json, place: (u64, u64)) -> Result<(), AllocError>
    ensures { OnOk result (written json.new ≡ written json.old ++ place_text place) }
{
    json.raw("{\"line\": ")?;
    json.number(place.0)?;
    write_column(json, place.1)
}

/// Appends why a module is skipped, and where.
fn write_reason(json: &mut Json, reason: &str, place: (u64, u64)) -> Result<(), AllocError>
    ensures { OnOk result (written json.new ≡ written json.old ++ (member (codes "reason") reason.now ++ (key (codes "place") ++ place_text place))) }
{
    json.member("reason", reason)?;
    json.key("place")?;
    write_place(json, place)
}

/// Appends a command whose module is skipped, with the reason and its position.
#[tactic(auto, unfolding(crate::specs::Commands::unsupported))]
fn write_unsupported(
    json: &mut Json,
    line: u64,
    command: ModuleEntry<'_>,
    reason: &str,
    place: (u64, u64),
) -> Result<(), AllocError>
    ensures { OnOk result (written json.new ≡ written json.old ++ unsupported line command.entry.ty.now command.entry.«module».id reason.now place) }
{
    write_skipped_head(json, line, command.ty)?;
    write_id(json, "name", command.module.id)?;
    write_reason(json, reason, place)?;
    json.raw("}")
}

/// Appends whether a module is only defined.
fn write_definition(json: &mut Json, is_definition: bool) -> Result<(), AllocError>
    ensures { OnOk result (written json.new ≡ written json.old ++ definition_member is_definition) }
{
    match is_definition {
        true => json.member("definition", "true"),
        false => Ok(()),
    }
}

/// Appends the type of a module that is instantiated or defined, and its line.
fn write_module_head(
    json: &mut Json,
    line: u64,
    ty: &str,
    is_definition: bool,
) -> Result<(), AllocError>
    ensures { OnOk result (written json.new ≡ written json.old ++ (typed_as ty.now ++ (definition_member is_definition ++ on_line line))) }
{
    write_type(json, ty)?;
    write_definition(json, is_definition)?;
    write_line(json, line)
}

/// Appends a module that is instantiated or defined.
#[tactic(auto, unfolding(crate::specs::Commands::module_text))]
fn write_own_module(
    json: &mut Json,
    line: u64,
    command: ModuleEntry<'_>,
    file: &str,
) -> Result<(), AllocError>
    ensures { OnOk result (written json.new ≡ written json.old ++ module_text line command.entry.ty.now command.entry.is_definition command.entry.«module».id file.now) }
{
    write_module_head(json, line, command.ty, command.is_definition)?;
    write_id(json, "name", command.module.id)?;
    json.member("filename", file)?;
    json.raw("}")
}

/// The type of the file of a module.
fn file_type(is_text: bool) -> &'static str
    ensures { result.now ≡ file_type is_text }
{
    match is_text {
        true => "text",
        false => "binary",
    }
}

/// Appends the type of the file of a module, and the end of an assertion.
fn write_file_type(json: &mut Json, is_text: bool) -> Result<(), AllocError>
    ensures { OnOk result (written json.new ≡ written json.old ++ (member (codes "module_type") (file_type is_text) ++ codes "}")) }
{
    json.member("module_type", file_type(is_text))?;
    json.raw("}")
}

/// Appends an assertion about a module.
#[tactic(auto, unfolding(crate::specs::Commands::assertion_text))]
fn write_assertion(
    json: &mut Json,
    line: u64,
    command: ModuleEntry<'_>,
    file: &str,
    is_text: bool,
) -> Result<(), AllocError>
    ensures { OnOk result (written json.new ≡ written json.old ++ assertion_text line command.entry.ty.now file.now (told command.entry.message) is_text) }
{
    write_head(json, line, command.ty)?;
    json.member("filename", file)?;
    write_message(json, command.message)?;
    write_file_type(json, is_text)
}

/// Appends a command about a module that is a file.
fn write_file(
    json: &mut Json,
    line: u64,
    command: ModuleEntry<'_>,
    file: &str,
    is_text: bool,
) -> Result<(), AllocError>
    ensures { OnOk result (written json.new ≡ written json.old ++ of_file command.entry.role line command.entry.ty.now command.entry.«module» command.entry.is_definition (told command.entry.message) file.now is_text) }
{
    match command.role {
        Role::Run => write_own_module(json, line, command, file),
        Role::Started => write_assertion(json, line, command, file, is_text),
        Role::Wrong => write_assertion(json, line, command, file, is_text),
    }
}

/// Appends a command about a module, by what it was converted to. `place` is that of the construct for which it is skipped.
pub(crate) fn write_module(
    json: &mut Json,
    line: u64,
    place: (u64, u64),
    command: ModuleEntry<'_>,
    converted: Option<&ConvertedModule>,
) -> Result<(), AllocError>
    ensures { OnOk result (written json.new ≡ written json.old ++ of_converted (option_copied converted.entry) line place command.entry.ty.now command.entry.«module» command.entry.role command.entry.is_definition (told command.entry.message)) }
{
    match converted {
        Some(ConvertedModule::Skipped(reason, _)) => {
            write_unsupported(json, line, command, reason.as_str(), place)
        }
        Some(ConvertedModule::File(file)) => {
            write_file(json, line, command, file.name.as_str(), file.is_text)
        }
        None => write_dependent(json, line, command.ty),
    }
}

/// The beginning of an action: what it does.
fn verb(kind: ActionKind) -> &'static str
    ensures { result.now ≡ verb kind }
{
    match kind {
        ActionKind::Invoke => "{\"type\": \"invoke\"",
        ActionKind::Get => "{\"type\": \"get\"",
    }
}

/// Appends arguments under their key.
fn write_args(json: &mut Json, script: &Script<'_>, arguments: Part) -> Result<(), AllocError>
    ensures { OnOk result (written json.new ≡ written json.old ++ (key (codes "args") ++ list_text script.now.lanes.items (part arguments script.now.values.items))) }
{
    json.key("args")?;
    write_arguments(json, script, arguments)
}

/// Appends the arguments of an action that has them.
fn write_action_arguments(
    json: &mut Json,
    script: &Script<'_>,
    action: Action<'_>,
) -> Result<(), AllocError>
    ensures { OnOk result (written json.new ≡ written json.old ++ arguments_member action.entry.kind script.now.lanes.items (part action.entry.arguments script.now.values.items)) }
{
    match action.kind {
        ActionKind::Invoke => write_args(json, script, action.arguments),
        ActionKind::Get => Ok(()),
    }
}

/// Appends what an action does, and to which export.
fn write_export(json: &mut Json, action: Action<'_>) -> Result<(), AllocError>
    ensures { OnOk result (written json.new ≡ written json.old ++ (verb action.entry.kind ++ (id_member (codes "module") action.entry.«module» ++ member (codes "field") action.entry.name.now))) }
{
    json.raw(verb(action.kind))?;
    write_id(json, "module", action.module)?;
    json.member("field", action.name)
}

/// Appends an action.
#[tactic(auto, unfolding(crate::specs::Commands::action_text))]
fn write_action(json: &mut Json, script: &Script<'_>, action: Action<'_>) -> Result<(), AllocError>
    ensures { OnOk result (written json.new ≡ written json.old ++ action_text script.now action.entry) }
{
    json.key("action")?;
    write_export(json, action)?;
    write_action_arguments(json, script, action)?;
    json.raw("}")
}

/// Appends the types of results.
fn write_types(json: &mut Json, types: &str) -> Result<(), AllocError>
    ensures { OnOk result (written json.new ≡ written json.old ++ (key (codes "expected") ++ types.now)) }
{
    json.key("expected")?;
    json.raw(types)
}

/// Appends the results of an action, or their types.
fn write_expected(
    json: &mut Json,
    script: &Script<'_>,
    results: Option<Part>,
    types: &str,
) -> Result<(), AllocError>
    ensures { OnOk result (written json.new ≡ written json.old ++ expected_text script.now results types.now) }
{
    match results {
        Some(results) => write_results(json, script, results),
        None => write_types(json, types),
    }
}

/// Appends a message and results, and the end of a command that has an action.
fn write_outcome(
    json: &mut Json,
    script: &Script<'_>,
    command: ActionEntry<'_>,
    types: &str,
) -> Result<(), AllocError>
    ensures { OnOk result (written json.new ≡ written json.old ++ outcome_text script.now (told command.entry.message) command.entry.results types.now) }
{
    write_message(json, command.message)?;
    write_expected(json, script, command.results, types)?;
    json.raw("}")
}

/// Appends a command that has an action.
#[tactic(auto, unfolding(crate::specs::Commands::of_action))]
fn write_acting(
    json: &mut Json,
    line: u64,
    script: &Script<'_>,
    command: ActionEntry<'_>,
    types: &str,
) -> Result<(), AllocError>
    ensures { OnOk result (written json.new ≡ written json.old ++ of_action script.now line command.entry.ty.now command.entry.action (told command.entry.message) command.entry.results types.now) }
{
    write_head(json, line, command.ty)?;
    write_action(json, script, command.action)?;
    write_outcome(json, script, command, types)
}

/// Appends a command that has an action, which may refer to a module that is skipped. `types` are those of the action's results.
pub(crate) fn write_command_of_action(
    json: &mut Json,
    line: u64,
    script: &Script<'_>,
    command: ActionEntry<'_>,
    is_skipped: bool,
    types: &str,
) -> Result<(), AllocError>
    ensures { OnOk result (written json.new ≡ written json.old ++ unless_skipped is_skipped line command.entry.ty.now (of_action script.now line command.entry.ty.now command.entry.action (told command.entry.message) command.entry.results types.now)) }
{
    match is_skipped {
        true => write_dependent(json, line, command.ty),
        false => write_acting(json, line, script, command, types),
    }
}

/// Appends an instance of a definition.
#[tactic(auto, unfolding(crate::specs::Commands::instance_text))]
fn write_instance(
    json: &mut Json,
    line: u64,
    id: Option<Id<'_>>,
    original: Option<Id<'_>>,
) -> Result<(), AllocError>
    ensures { OnOk result (written json.new ≡ written json.old ++ instance_text line id.entry original.entry) }
{
    write_head(json, line, "instance")?;
    write_id(json, "instance", id)?;
    write_id(json, "definition", original)?;
    json.raw("}")
}

/// Appends `register`.
#[tactic(auto, unfolding(crate::specs::Commands::register_text))]
fn write_register(
    json: &mut Json,
    line: u64,
    name: &str,
    id: Option<Id<'_>>,
) -> Result<(), AllocError>
    ensures { OnOk result (written json.new ≡ written json.old ++ register_text line name.now id.entry) }
{
    write_head(json, line, "register")?;
    write_id(json, "name", id)?;
    json.member("as", name)?;
    json.raw("}")
}

/// Appends the key of the commands of a thread.
fn write_commands_key(json: &mut Json) -> Result<(), AllocError>
    ensures { OnOk result (written json.new ≡ written json.old ++ (key (codes "commands") ++ codes "[\n")) }
{
    json.key("commands")?;
    json.raw("[\n")
}

/// Appends a thread up to its first command.
#[tactic(auto, unfolding(crate::specs::Commands::thread_text))]
fn write_thread(
    json: &mut Json,
    line: u64,
    id: Id<'_>,
    shared: Option<Id<'_>>,
) -> Result<(), AllocError>
    ensures { OnOk result (written json.new ≡ written json.old ++ thread_text line id.entry shared.entry) }
{
    write_head(json, line, "thread")?;
    write_name(json, "name", id)?;
    write_id(json, "shared_module", shared)?;
    write_commands_key(json)
}

/// Appends `wait`.
#[tactic(auto, unfolding(crate::specs::Commands::wait_text))]
fn write_wait(json: &mut Json, line: u64, id: Id<'_>) -> Result<(), AllocError>
    ensures { OnOk result (written json.new ≡ written json.old ++ wait_text line id.entry) }
{
    write_head(json, line, "wait")?;
    write_name(json, "thread", id)?;
    json.raw("}")
}

/// Appends an instance of a definition, or that it is skipped.
fn write_unskipped_instance(
    json: &mut Json,
    line: u64,
    is_skipped: bool,
    id: Option<Id<'_>>,
    original: Option<Id<'_>>,
) -> Result<(), AllocError>
    ensures { OnOk result (written json.new ≡ written json.old ++ unless_skipped is_skipped line (codes "instance") (instance_text line id.entry original.entry)) }
{
    match is_skipped {
        true => write_dependent(json, line, "instance"),
        false => write_instance(json, line, id, original),
    }
}

/// Appends `register`, or that it is skipped.
fn write_unskipped_register(
    json: &mut Json,
    line: u64,
    is_skipped: bool,
    name: &str,
    id: Option<Id<'_>>,
) -> Result<(), AllocError>
    ensures { OnOk result (written json.new ≡ written json.old ++ unless_skipped is_skipped line (codes "register") (register_text line name.now id.entry)) }
{
    match is_skipped {
        true => write_dependent(json, line, "register"),
        false => write_register(json, line, name, id),
    }
}

/// Appends a command without a module and an action, which may refer to a module that is skipped.
pub(crate) fn write_other(
    json: &mut Json,
    line: u64,
    is_skipped: bool,
    kind: CommandKind<'_>,
) -> Result<(), AllocError>
    ensures { OnOk result (written json.new ≡ written json.old ++ of_other kind.entry line is_skipped) }
{
    match kind {
        CommandKind::Instance(id, original) => {
            write_unskipped_instance(json, line, is_skipped, id, original)
        }
        CommandKind::Register(name, id) => {
            write_unskipped_register(json, line, is_skipped, name, id)
        }
        CommandKind::Thread(id, shared) => write_thread(json, line, id, shared),
        CommandKind::ThreadEnd => json.raw("\n  ]}"),
        CommandKind::Wait(id) => write_wait(json, line, id),
        _ => Ok(()),
    }
}
