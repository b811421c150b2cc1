//! Commands of a script, and the actions in them.

use crate::values::Part;
use wast_base::{Id, Span};

/// The form in which a script has a module.
#[derive(Clone, Copy, Debug, PartialEq, Eq)]
pub enum ModuleForm {
    /// Fields in the text format, also those of a script that is one module without its parentheses.
    Fields,
    /// `(module binary "..")`: the bytes of a module.
    Binary,
    /// `(module quote "..")`: a text that may be wrong on purpose.
    Quote,
}

/// A module of a script, which [`Script::read`](crate::Script::read) reads.
#[derive(Clone, Copy)]
pub struct ScriptModule<'a> {
    /// The position of its keyword, or of the first token if there is none.
    pub span: Span,
    /// Its id.
    pub id: Option<Id<'a>>,
    /// Its form.
    pub form: ModuleForm,
    /// Its `(` and its keyword among the tokens of the script, if it has them.
    pub(crate) head: Part,
    /// Its other tokens, without the word `definition`.
    pub(crate) rest: Part,
    /// The strings that a binary or quoted module has, among the tokens of the script.
    pub(crate) strings: Part,
}

/// What an action does.
#[derive(Clone, Copy, Debug, PartialEq, Eq)]
pub enum ActionKind {
    /// `invoke`: it calls an exported function.
    Invoke,
    /// `get`: it reads an exported global.
    Get,
}

/// An action: `(invoke $m "f" (i32.const 1))` or `(get $m "g")`.
#[derive(Clone, Copy)]
pub struct Action<'a> {
    /// The position of its keyword.
    pub span: Span,
    /// What it does.
    pub kind: ActionKind,
    /// The module; if there is none, the last one before it.
    pub module: Option<Id<'a>>,
    /// The name of the export.
    pub name: &'a str,
    /// The part of the script's values that are its arguments.
    pub arguments: Part,
}

/// What an assertion runs.
#[derive(Clone, Copy)]
pub enum Execution<'a> {
    /// An action.
    Action(Action<'a>),
    /// A module, which is instantiated.
    Module(ScriptModule<'a>),
}

/// What a command does or asserts. Messages are those of the reference interpreter.
#[derive(Clone, Copy)]
pub enum CommandKind<'a> {
    /// `(module ..)`: a module that is instantiated.
    Module(ScriptModule<'a>),
    /// `(module definition ..)`: a module that is not instantiated.
    Definition(ScriptModule<'a>),
    /// `(module instance $i $m)`: an instance `$i` of the module `$m`.
    Instance(Option<Id<'a>>, Option<Id<'a>>),
    /// `(register "name" $m)`: the module's exports can be imported from this name.
    Register(&'a str, Option<Id<'a>>),
    /// An action alone.
    Action(Action<'a>),
    /// `assert_return`: these are the results, a part of the script's values.
    AssertReturn(Execution<'a>, Part),
    /// `assert_trap`: it traps with this message.
    AssertTrap(Execution<'a>, &'a str),
    /// `assert_exhaustion`: it exhausts the stack, with this message.
    AssertExhaustion(Action<'a>, &'a str),
    /// `assert_exception`: it throws an exception.
    AssertException(Execution<'a>),
    /// `assert_suspension`: it suspends without a handler, with this message.
    AssertSuspension(Execution<'a>, &'a str),
    /// `assert_malformed`: the module cannot be read, with this message.
    AssertMalformed(ScriptModule<'a>, &'a str),
    /// `assert_malformed_custom`: an annotation or a custom section of the module cannot be read, with this message.
    AssertMalformedCustom(ScriptModule<'a>, &'a str),
    /// `assert_invalid`: the module is not valid, with this message.
    AssertInvalid(ScriptModule<'a>, &'a str),
    /// `assert_invalid_custom`: an annotation or a custom section of the module is not valid, with this message.
    AssertInvalidCustom(ScriptModule<'a>, &'a str),
    /// `assert_unlinkable`: the module cannot be linked, with this message.
    AssertUnlinkable(ScriptModule<'a>, &'a str),
    /// `(thread $t (shared (module $m)) ..)`: the commands up to the matching [`CommandKind::ThreadEnd`] run in a thread `$t`, which
    /// shares the module `$m`.
    Thread(Id<'a>, Option<Id<'a>>),
    /// The end of a thread.
    ThreadEnd,
    /// `(wait $t)`: waits for the thread `$t` to end.
    Wait(Id<'a>),
}

/// A command of a script.
#[derive(Clone, Copy)]
pub struct Command<'a> {
    /// The position of its keyword; of the end of a thread that of its parenthesis.
    pub span: Span,
    /// What it does or asserts.
    pub kind: CommandKind<'a>,
}
