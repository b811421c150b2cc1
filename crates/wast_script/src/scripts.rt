//! Scripts, and the modules in them.

ghost use Rattle.std.specs.Prelude.{◌≡◌, ◌≤◌, ◌++◌, length, map, min, All, IsTrue, IfOk, IfErr, OnOk, None, Some};
ghost use Rattle.wat_text.specs.Texts.{is_well_formed_text};
ghost use Rattle.wast_script.specs.Grammar.{script_in, script_of};
ghost use Rattle.wast_base.specs.Ids.{text_start};
ghost use Rattle.wat_syntax.specs.Tokens.{position_in};
ghost use Rattle.wat_syntax.specs.Bare.{bare_placed};
ghost use Rattle.wast_script.specs.Scripts.{part, module_in, string_bytes, joined_bytes, placed_up_to, script_tokens, commands_of};
ghost use Rattle.wast_script.specs.Scripts.{IsPieceAt, start_in};
ghost use Rattle.wast_script.specs.Modules.{last_position, IsModuleOf, IsNoModuleOf};
ghost use Rattle.wast_script.specs.Readers.{IsRefusal, IsNew};

use crate::commands::{Command, ScriptModule};
use crate::reader::{Lists, Reader};
use crate::values::{Number, Part, Value};
use std::alloc::{AllocError, Global};
use std::str;
use wast_base::Span;
use wat_text::{TextModule, read_module_tokens};
use wat_tokens::{Placed, Strings, TextError, TextFault, Token, tokens_of};

/// How many bytes the word `definition` has.
const DEFINITION: usize = 10;

/// A script that was read: its commands in the order of the text, and the lists that they have parts of.
#[derive(Drop)]
pub struct Script<'a> {
    /// The text of the script.
    pub text: &'a str,
    /// The commands. Those of a thread are between its [`Thread`](crate::CommandKind::Thread) and its
    /// [`ThreadEnd`](crate::CommandKind::ThreadEnd).
    pub commands: Vec<Command<'a>>,
    /// The arguments and results of all commands.
    pub values: Vec<Value<'a>>,
    /// The lanes of all vectors among them.
    pub lanes: Vec<Number>,
    /// The tokens of the text.
    tokens: Vec<Placed<'a>>,
}

/// Moves a position to the end of the text, if it is after it.
fn within(text: &str, span: Span) -> Span
    ensures value { result ≡ record { offset = min span.offset (length text.now) } }
    ensures within { result.offset ≤ length text.now }
{
    Span {
        offset: span.offset.min(text.len()),
    }
}

/// Moves the position of an error to the end of the text, if it is after it.
fn error_within(text: &str, error: TextError) -> TextError
    ensures fault { result.fault ≡ error.fault }
    ensures within { result.span.offset ≤ length text.now }
{
    TextError {
        span: within(text, error.span),
        ..error
    }
}

/// Moves the positions of commands to the end of the text, if they are after it.
#[tactic(auto, using(crate::proofs::Reading::placed_more, crate::proofs::Reading::all_within))]
fn commands_within<'a>(
    alloc: Global,
    text: &str,
    commands: &[Command<'a>],
) -> Result<Vec<Command<'a>>, AllocError>
    ensures places { IfOk result (λ found. All (λ c. c.span.offset ≤ length text.now) found.items) }
    ensures same { IfOk result (λ found. found.items ≡ map (placed_up_to (length text.now)) commands.now) }
{
    let mut found = Vec::new(alloc);
    for at in 0..commands.len() {
        let Command { span, kind } = commands[at];
        let span = within(text, span);
        found.push(Command { span, kind })?;
    }
    Ok(found)
}

/// The script of what was read of a text.
fn script_read<'a>(
    alloc: Global,
    text: &'a str,
    reader: Reader<'a>,
) -> Result<Script<'a>, AllocError>
    ensures places { IfOk result (λ s. All (λ c. c.span.offset ≤ length text.now) s.commands.items) }
    ensures commands { IfOk result (λ s. s.commands.items ≡ map (placed_up_to (length text.now)) reader.entry.lists.commands.items) }
    ensures values { IfOk result (λ s. s.values ≡ reader.entry.lists.values) }
    ensures lanes { IfOk result (λ s. s.lanes ≡ reader.entry.lists.lanes) }
    ensures tokens { IfOk result (λ s. s.tokens ≡ reader.entry.tokens) }
{
    let Reader { tokens, lists, .. } = reader;
    let Lists {
        commands,
        values,
        lanes,
    } = lists;
    let commands = commands_within(alloc, text, commands.as_slice())?;
    Ok(Script {
        text,
        commands,
        values,
        lanes,
        tokens,
    })
}

/// The script of the tokens of a text.
fn script_of_tokens<'a>(
    alloc: Global,
    text: &'a str,
    tokens: Vec<Placed<'a>>,
) -> Result<Script<'a>, TextError>
    ensures places { IfOk result (λ s. All (λ c. c.span.offset ≤ length text.now) s.commands.items) }
    ensures commands { IfOk result (λ s. script_in text.now (map bare_placed tokens.entry.items) ≡ Some (commands_of s)) }
    ensures refuses { IfErr result (λ e. IsRefusal e.fault → script_in text.now (map bare_placed tokens.entry.items) ≡ None) }
{
    let end = Span { offset: text.len() };
    let mut reader = Reader::new(alloc, tokens, end);
    reader.script();
    if let Some(fault) = reader.fault() {
        return Err(fault);
    }
    match script_read(alloc, text, reader) {
        Ok(script) => Ok(script),
        Err(_) => Err(TextError::new(end, TextFault::Memory)),
    }
}

/// The script of a text, wherever its faults are.
fn script_of<'a>(
    alloc: Global,
    text: &'a str,
    strings: &'a Strings,
) -> Result<Script<'a>, TextError>
    ensures places { IfOk result (λ s. All (λ c. c.span.offset ≤ length text.now) s.commands.items) }
    ensures commands { IfOk result (λ s. script_of text.now ≡ Some (commands_of s)) }
    ensures refuses { IfErr result (λ e. IsRefusal e.fault → script_of text.now ≡ None) }
{
    match tokens_of(alloc, text, strings) {
        Ok(tokens) => script_of_tokens(alloc, text, tokens),
        Err(error) => Err(error),
    }
}

/// Reads a script: its commands, or one module without its parentheses (the reference interpreter's format of scripts).
///
/// The fields of modules are not read yet: [`Script::read`] reads a module, and [`Script::bytes`] returns the strings of one that is
/// binary or quoted. So a script is read even if the fields of a module in it are wrong. Strings with escapes are kept in `strings`
/// for as long as the script lives. Allocates memory for the tokens and the commands.
///
/// # Errors
///
/// A [`TextFault`] with its position: the text is not a script, or allocation failed ([`TextFault::Memory`]). Commands of the
/// component model are not read.
#[tactic(auto, using(crate::proofs::Reading::moved))]
pub fn read_script<'a>(
    alloc: Global,
    text: &'a str,
    strings: &'a Strings,
) -> Result<Script<'a>, TextError>
    ensures commands { IfOk result (λ s. script_of text.now ≡ Some (commands_of s)) }
    ensures refuses { IfErr result (λ e. IsRefusal e.fault → script_of text.now ≡ None) }
    ensures places { IfOk result (λ s. All (λ c. c.span.offset ≤ length text.now) s.commands.items) }
    ensures place { IfErr result (λ e. e.span.offset ≤ length text.now) }
{
    match script_of(alloc, text, strings) {
        Ok(script) => Ok(script),
        Err(error) => Err(error_within(text, error)),
    }
}

/// The elements of a part of a list; none if the list has no such part.
#[tactic(auto, using(crate::proofs::Parts::part_is, crate::proofs::Parts::part_before, crate::proofs::Parts::part_beyond))]
fn part_of<T: Copy>(list: &[T], of: Part) -> &[T]
    ensures { result.now ≡ part of list.now }
{
    if of.start > of.end {
        return &[];
    }
    if of.end > list.len() {
        return &[];
    }
    &list[of.start..of.end]
}

/// Adds the elements of a part of a list of tokens to another list.
fn add_tokens<'a>(
    out: &mut Vec<Placed<'a>>,
    tokens: &[Placed<'a>],
    of: Part,
) -> Result<(), AllocError>
    ensures { OnOk result (out.new.items ≡ out.old.items ++ part of tokens.now) }
{
    out.extend_from_slice(part_of(tokens, of))
}

/// The bytes of a string; none of another token.
fn string_of<'a>(token: Token<'a>) -> &'a [u8]
    ensures { result.now ≡ string_bytes token.entry }
{
    match token {
        Token::String(bytes) => bytes,
        _ => &[],
    }
}

/// A text from one offset to another; nothing if an offset is within a character, or not in the text.
fn piece(text: &str, start: usize, end: usize) -> &str
    ensures { IsPieceAt text.now start result.now }
{
    match text.get(start..end) {
        Some(piece) => piece,
        None => "",
    }
}

/// The position of the first of some tokens, or the start of the text if there is none.
fn first_place(tokens: &[Placed<'_>]) -> Span
    ensures { result ≡ position_in tokens.now text_start }
{
    match tokens.first() {
        Some(placed) => placed.span,
        None => Span::default(),
    }
}

/// The position of the last of some tokens, or the start of the text if there is none.
#[tactic(auto, using(crate::proofs::Meant::last_is, crate::proofs::Meant::no_last))]
fn last_place(tokens: &[Placed<'_>]) -> Span
    ensures { result ≡ last_position (map bare_placed tokens.now) }
{
    match tokens.get(tokens.len().saturating_sub(1)) {
        Some(placed) => placed.span,
        None => Span::default(),
    }
}

impl<'a> Script<'a> {
    /// Returns the values of a part: the arguments of an action, or the results of an assertion. Does not allocate.
    pub fn values_in(&self, of: Part) -> &[Value<'a>]
        ensures { result.now ≡ part of self.now.values.items }
    {
        part_of(self.values.as_slice(), of)
    }

    /// Returns the lanes of a vector. Does not allocate.
    pub fn lanes_in(&self, of: Part) -> &[Number]
        ensures { result.now ≡ part of self.now.lanes.items }
    {
        part_of(self.lanes.as_slice(), of)
    }

    /// The tokens of a module, without the word `definition`.
    fn tokens_of(
        &self,
        alloc: Global,
        module: &ScriptModule<'a>,
    ) -> Result<Vec<Placed<'a>>, AllocError>
        ensures { IfOk result (λ found. found.items ≡ part «module».now.head self.now.tokens.items ++ part «module».now.rest self.now.tokens.items) }
    {
        let mut tokens = Vec::new(alloc);
        add_tokens(&mut tokens, self.tokens.as_slice(), module.head)?;
        add_tokens(&mut tokens, self.tokens.as_slice(), module.rest)?;
        Ok(tokens)
    }

    /// The position of the last token of a module.
    fn last_of(&self, module: &ScriptModule<'a>) -> Span {
        last_place(part_of(self.tokens.as_slice(), module.rest))
    }

    /// Reads a module, wherever its faults are.
    #[tactic(auto, using(crate::proofs::Meant::no_memory))]
    fn read_module(
        &self,
        alloc: Global,
        module: &ScriptModule<'a>,
        strings: &'a Strings,
    ) -> Result<TextModule<'a>, TextError>
        ensures well_formed { IfOk result (λ m. IsTrue (is_well_formed_text m.kind)) }
        ensures denotes { IfOk result (IsModuleOf (module_in (script_tokens self.now) «module».now)) }
        ensures refuses { IfErr result (λ e. IsNoModuleOf (module_in (script_tokens self.now) «module».now) e.fault) }
    {
        match self.tokens_of(alloc, module) {
            Ok(tokens) => {
                let end = last_place(tokens.as_slice());
                read_module_tokens(alloc, tokens, end, strings)
            }
            Err(_) => Err(TextError::new(self.last_of(module), TextFault::Memory)),
        }
    }

    /// Reads a module of the script, in each of its forms, as [`read`](wat_text::read) does from a text. Positions are those in the
    /// text of the script. Allocates memory for the module.
    ///
    /// # Errors
    ///
    /// As [`read`](wat_text::read): the module is not one of the text format, or allocation failed ([`TextFault::Memory`]).
    pub fn read(
        &self,
        alloc: Global,
        module: &ScriptModule<'a>,
        strings: &'a Strings,
    ) -> Result<TextModule<'a>, TextError>
        ensures well_formed { IfOk result (λ m. IsTrue (is_well_formed_text m.kind)) }
        ensures denotes { IfOk result (IsModuleOf (module_in (script_tokens self.now) «module».now)) }
        ensures refuses { IfErr result (λ e. IsNoModuleOf (module_in (script_tokens self.now) «module».now) e.fault) }
        ensures place { IfErr result (λ e. e.span.offset ≤ length self.now.text.now) }
    {
        match self.read_module(alloc, module, strings) {
            Ok(found) => Ok(found),
            Err(error) => Err(error_within(self.text, error)),
        }
    }

    /// Returns the bytes of the strings of a module: of a binary module its bytes, and of a quoted one its text, which may be wrong
    /// on purpose. A module with fields has none. Allocates memory for the bytes.
    ///
    /// # Errors
    ///
    /// [`AllocError`]: allocation failed.
    #[tactic(auto, using(crate::proofs::Joining::joined_none))]
    pub fn bytes(&self, alloc: Global, module: &ScriptModule<'a>) -> Result<Vec<u8>, AllocError>
        ensures strings { IfOk result (λ b. b.items ≡ joined_bytes (module_in (script_tokens self.now) «module».now).strings) }
    {
        let tokens = part_of(self.tokens.as_slice(), module.strings);
        let mut bytes = Vec::new(alloc);
        for placed in tokens {
            bytes.extend_from_slice(string_of(placed.token))?;
        }
        Ok(bytes)
    }

    /// Returns the position where the text of a module begins: that of its parenthesis, or the start of a script that is one module
    /// without its parentheses. Does not allocate.
    pub fn start(&self, module: &ScriptModule<'a>) -> Span
        ensures { result ≡ start_in self.now.tokens.items «module».now }
    {
        first_place(part_of(self.tokens.as_slice(), module.head))
    }

    /// The offset after the text of a module.
    fn end(&self, module: &ScriptModule<'a>) -> usize {
        match module.head.start == module.head.end {
            true => self.text.len(),
            false => self.last_of(module).offset.saturating_add(1),
        }
    }

    /// Returns the text of a module in the script, from its parenthesis to its end. Does not allocate.
    pub fn source(&self, module: &ScriptModule<'a>) -> &'a str
        ensures { IsPieceAt self.now.text.now (start_in self.now.tokens.items «module».now).offset result.now }
    {
        piece(self.text, self.start(module).offset, self.end(module))
    }

    /// The offset of the word `definition` in the text of a module, if it has it.
    fn definition(&self, module: &ScriptModule<'a>) -> Option<usize> {
        if module.head.end == module.rest.start {
            return None;
        }
        match self.tokens.get(module.head.end) {
            Some(placed) => Some(placed.span.offset.saturating_sub(self.start(module).offset)),
            None => None,
        }
    }

    /// Returns the text of a module as one that is no script: [`Script::source`], with spaces for the word `definition`, which only
    /// scripts have. For example, `(module definition $M)` is `(module            $M)`, in which the id has the same offset.
    ///
    /// Allocates memory for a text with that word, and keeps it in `strings`.
    ///
    /// # Errors
    ///
    /// [`AllocError`]: allocation failed.
    pub fn module_text(
        &self,
        alloc: Global,
        module: &ScriptModule<'a>,
        strings: &'a Strings,
    ) -> Result<&'a str, AllocError> {
        let source = self.source(module);
        let Some(start) = self.definition(module) else {
            return Ok(source);
        };
        let mut bytes = Vec::from_slice(alloc, source.as_bytes())?;
        for at in start..start.saturating_add(DEFINITION) {
            if let Some(byte) = bytes.get_mut(at) {
                *byte = b' ';
            }
        }
        match strings.keep(bytes.as_slice()) {
            Ok(kept) => Ok(str::from_utf8(kept).unwrap_or(source)),
            Err(_) => Err(AllocError),
        }
    }
}
