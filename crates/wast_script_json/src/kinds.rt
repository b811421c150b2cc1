//! What the commands of a script are in JSON.

ghost use Rattle.std.specs.Prelude.{◌≡◌, ◌&&◌, false, None, Some, codes};
ghost use Rattle.wast_script_json.specs.Entries.{OfModule, OfAction, told, entry_in, executed, wrong, entry_of, module_in, has_fields, is_nothing, has_nothing, commands_in};

use wast_script::{
    Action, Command, CommandKind, Execution, ModuleForm, Part, Script, ScriptModule,
};

/// What a module in a command is for.
#[derive(Clone, Copy, Debug, PartialEq, Eq)]
pub enum Role {
    /// Actions run it: its file is its bytes, also if it is quoted.
    Run,
    /// An assertion says what its instantiation does. A quoted module is a text.
    Started,
    /// An assertion says that it is wrong. A quoted module is a text, and names in any module may be wrong.
    Wrong,
}

/// A command about a module: `module`, or an assertion.
#[derive(Clone, Copy)]
pub(crate) struct ModuleEntry<'a> {
    /// Its type.
    pub ty: &'static str,
    /// The module.
    pub module: ScriptModule<'a>,
    /// What the module is for.
    pub role: Role,
    /// Whether the module is defined and not instantiated.
    pub is_definition: bool,
    /// The message of the assertion.
    pub message: Option<&'a str>,
}

/// A command with an action.
#[derive(Clone, Copy)]
pub(crate) struct ActionEntry<'a> {
    /// Its type.
    pub ty: &'static str,
    /// The action.
    pub action: Action<'a>,
    /// The message of the assertion.
    pub message: Option<&'a str>,
    /// The results of `assert_return`.
    pub results: Option<Part>,
}

/// A command, by what it has.
#[derive(Clone, Copy)]
pub(crate) enum Entry<'a> {
    /// It has a module.
    Module(ModuleEntry<'a>),
    /// It has an action.
    Action(ActionEntry<'a>),
    /// It has neither.
    Other,
}

/// A module that is instantiated or defined.
fn own_module<'a>(module: ScriptModule<'a>, is_definition: bool) -> Entry<'a>
    ensures { entry_in result ≡ OfModule (codes "module") «module».entry Role.Run is_definition None }
{
    Entry::Module(ModuleEntry {
        ty: "module",
        module,
        role: Role::Run,
        is_definition,
        message: None,
    })
}

/// An assertion about a module.
fn of_module<'a>(
    ty: &'static str,
    module: ScriptModule<'a>,
    role: Role,
    message: Option<&'a str>,
) -> Entry<'a>
    ensures { entry_in result ≡ OfModule ty.now «module».entry role false (told message.entry) }
{
    Entry::Module(ModuleEntry {
        ty,
        module,
        role,
        is_definition: false,
        message,
    })
}

/// A command with an action.
fn of_action<'a>(ty: &'static str, action: Action<'a>, message: Option<&'a str>) -> Entry<'a>
    ensures { entry_in result ≡ OfAction ty.now action.entry (told message.entry) None }
{
    Entry::Action(ActionEntry {
        ty,
        action,
        message,
        results: None,
    })
}

/// An assertion about what it runs: of an action it has one type, and of a module another.
fn of_execution<'a>(
    action_type: &'static str,
    module_type: &'static str,
    execution: Execution<'a>,
    message: Option<&'a str>,
) -> Entry<'a>
    ensures { entry_in result ≡ executed action_type.now module_type.now execution.entry (told message.entry) None }
{
    match execution {
        Execution::Action(action) => of_action(action_type, action, message),
        Execution::Module(module) => of_module(module_type, module, Role::Started, message),
    }
}

/// `assert_return`.
fn of_return<'a>(execution: Execution<'a>, results: Part) -> Entry<'a>
    ensures { entry_in result ≡ executed (codes "assert_return") (codes "assert_return") execution.entry None (Some results) }
{
    match execution {
        Execution::Action(action) => Entry::Action(ActionEntry {
            ty: "assert_return",
            action,
            message: None,
            results: Some(results),
        }),
        Execution::Module(module) => of_module("assert_return", module, Role::Started, None),
    }
}

/// An assertion that a module is wrong.
fn of_wrong<'a>(ty: &'static str, module: ScriptModule<'a>, message: &'a str) -> Entry<'a>
    ensures { entry_in result ≡ wrong ty.now «module».entry message.now }
{
    of_module(ty, module, Role::Wrong, Some(message))
}

/// Returns what a command is in JSON.
pub(crate) fn entry_of<'a>(kind: CommandKind<'a>) -> Entry<'a>
    ensures { entry_in result ≡ entry_of kind.entry }
{
    match kind {
        CommandKind::Module(module) => own_module(module, false),
        CommandKind::Definition(module) => own_module(module, true),
        CommandKind::Action(action) => of_action("action", action, None),
        CommandKind::AssertReturn(execution, results) => of_return(execution, results),
        CommandKind::AssertTrap(execution, message) => of_execution(
            "assert_trap",
            "assert_uninstantiable",
            execution,
            Some(message),
        ),
        CommandKind::AssertExhaustion(action, message) => {
            of_action("assert_exhaustion", action, Some(message))
        }
        CommandKind::AssertException(execution) => {
            of_execution("assert_exception", "assert_exception", execution, None)
        }
        CommandKind::AssertSuspension(execution, message) => of_execution(
            "assert_suspension",
            "assert_suspension",
            execution,
            Some(message),
        ),
        CommandKind::AssertMalformed(module, message) => {
            of_wrong("assert_malformed", module, message)
        }
        CommandKind::AssertMalformedCustom(module, message) => {
            of_wrong("assert_malformed_custom", module, message)
        }
        CommandKind::AssertInvalid(module, message) => of_wrong("assert_invalid", module, message),
        CommandKind::AssertInvalidCustom(module, message) => {
            of_wrong("assert_invalid_custom", module, message)
        }
        CommandKind::AssertUnlinkable(module, message) => {
            of_module("assert_unlinkable", module, Role::Started, Some(message))
        }
        CommandKind::Instance(_, _)
        | CommandKind::Register(_, _)
        | CommandKind::Thread(_, _)
        | CommandKind::ThreadEnd
        | CommandKind::Wait(_) => Entry::Other,
    }
}

/// Returns the module in a command, if it has one, and what it is for.
pub fn module_of<'a>(command: &Command<'a>) -> Option<(ScriptModule<'a>, Role)>
    ensures { result ≡ module_in (entry_of command.now.kind) }
{
    match entry_of(command.kind) {
        Entry::Module(entry) => Some((entry.module, entry.role)),
        Entry::Action(_) => None,
        Entry::Other => None,
    }
}

/// Returns whether a module has fields and is at the end of the text.
fn is_bare(form: ModuleForm, is_at_end: bool) -> bool
    ensures { result ≡ (has_fields form && is_at_end) }
{
    match form {
        ModuleForm::Fields => is_at_end,
        ModuleForm::Binary => false,
        ModuleForm::Quote => false,
    }
}

/// Returns whether a command is a module without tokens, which a script without commands is read as.
fn is_nothing(script: &Script<'_>, command: &Command<'_>) -> bool
    ensures { result ≡ is_nothing script.now.text.now command.now.kind }
{
    match command.kind {
        CommandKind::Module(module) => {
            is_bare(module.form, module.span.offset >= script.text.len())
        }
        _ => false,
    }
}

/// Returns whether a script has blanks and comments alone.
fn has_nothing(script: &Script<'_>) -> bool
    ensures { result ≡ has_nothing script.now }
{
    match script.commands.as_slice().first() {
        Some(command) => is_nothing(script, command),
        None => true,
    }
}

/// Returns the commands of a script. A script of blanks and comments has none.
pub fn commands_of<'s, 'a>(script: &'s Script<'a>) -> &'s [Command<'a>]
    ensures { result.now ≡ commands_in script.now }
{
    if has_nothing(script) {
        return &[];
    }
    script.commands.as_slice()
}
