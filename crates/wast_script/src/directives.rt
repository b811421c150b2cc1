//! Reads commands.

ghost use Rattle.std.specs.Prelude.{◌≡◌, ◌≢◌, ◌≤◌, ◌<◌, ◌^◌, ◌-◌, ℕ, [], List, suc, None, Some, codes};
ghost use Rattle.wat_syntax.specs.Tokens.{after, position, count, peek};
ghost use Rattle.wast_script.specs.Words.{verb_named};
ghost use Rattle.wast_script.specs.Constants.{word_in, word_that, Value};
ghost use Rattle.wat_tokens.specs.declared.tokens.Placed.{Placed};
ghost use Rattle.wat_syntax.specs.Bare.{bare_id, bare_id_option};
ghost use Rattle.wast_script.specs.declared.commands.CommandKind.TheVariants as kind;
ghost use Rattle.wast_script.specs.Grammar.{module_command, module_or_instance, instance, register_command, action_command, message};
ghost use Rattle.wast_script.specs.Grammar.{return_command, exhaustion_command, exception_command, shared_module, thread_command, wait_command};
ghost use Rattle.wast_script.specs.Grammar.{command_of, command, command_or_end, commands_in, threads_after, ends_thread, begins_command, script};
ghost use Rattle.wast_script.specs.Grammar.{verb_in, about_module, about_run, AssertTrap, AssertSuspension, AssertMalformed};
ghost use Rattle.wast_script.specs.Grammar.{AssertMalformedCustom, AssertInvalid, AssertInvalidCustom, AssertUnlinkable};
ghost use Rattle.wast_script.specs.Grammar.{module_assertion, run_assertion, module_of_thread, all_commands, all_module};
ghost use Rattle.wast_script.specs.Scripts.{part, module_in, execution_in, kind_in, command_in};
ghost use Rattle.wast_script.specs.Readers.{left, all_bare, read_commands, read_values, HasExecuted, HasValues, HaveLanes, HaveValues};
ghost use Rattle.wast_script.specs.Readers.{IsRefused, IsNew, Decides, Moves, Reads, Pushes, TakesCommand, TakesCommands, ReadsAll};

use crate::commands::{ActionKind, Command, CommandKind, Execution, ScriptModule};
use crate::reader::Reader;
use crate::values::Part;
use crate::words::{Use, Verb, verb_of};
use wast_base::{Id, Span};

/// How many threads are open after a command.
fn threads_after(kind: CommandKind<'_>, threads: u128) -> u128
    requires { threads < 2 ^ 127 }
    ensures after { (ts : List Placed) (vs : List Value) → result ≡ threads_after (kind_in ts vs kind.entry) threads }
    ensures few { result ≤ suc threads }
{
    match kind {
        CommandKind::Thread(_, _) => threads + 1,
        CommandKind::ThreadEnd => threads.saturating_sub(1),
        _ => threads,
    }
}

impl<'a> Reader<'a> {
    /// Reads `(module instance` and what follows.
    fn instance(&mut self) -> CommandKind<'a>
        ensures decides { Decides instance self.old self.new (kind_in (all_bare self.new) [] result) }
        ensures plain { (vs : List Value) → kind_in (all_bare self.new) vs result ≡ kind_in (all_bare self.new) [] result }
        ensures few { (n : ℕ) → HasValues n result }
    {
        let instance = self.id();
        let module = self.id();
        self.close();
        CommandKind::Instance(instance, module)
    }

    /// Reads `module` and what follows, if it is no definition.
    fn module_or_instance(&mut self, span: Span, head: Part) -> CommandKind<'a>
        ensures decides { Decides (module_or_instance span (part head (all_bare self.old))) self.old self.new (kind_in (all_bare self.new) [] result) }
        ensures plain { (vs : List Value) → kind_in (all_bare self.new) vs result ≡ kind_in (all_bare self.new) [] result }
        ensures few { (n : ℕ) → HasValues n result }
    {
        if self.accept("instance") {
            return self.instance();
        }
        CommandKind::Module(self.module_after(span, head))
    }

    /// Reads `module` and what follows; its keyword is at a position.
    fn module_command(&mut self, span: Span, head: Part) -> CommandKind<'a>
        ensures decides { Decides (module_command span (part head (all_bare self.old))) self.old self.new (kind_in (all_bare self.new) [] result) }
        ensures plain { (vs : List Value) → kind_in (all_bare self.new) vs result ≡ kind_in (all_bare self.new) [] result }
        ensures few { (n : ℕ) → HasValues n result }
    {
        if self.accept("definition") {
            return CommandKind::Definition(self.module_after(span, head));
        }
        self.module_or_instance(span, head)
    }

    /// Reads `register` and what follows.
    fn register_command(&mut self) -> CommandKind<'a>
        ensures decides { Decides register_command self.old self.new (kind_in (all_bare self.new) [] result) }
        ensures plain { (vs : List Value) → kind_in (all_bare self.new) vs result ≡ kind_in (all_bare self.new) [] result }
        ensures few { (n : ℕ) → HasValues n result }
    {
        let name = self.text();
        let module = self.id();
        self.close();
        CommandKind::Register(name, module)
    }

    /// Reads a message and the end of a command.
    fn message(&mut self) -> &'a str
        ensures { Decides message self.old self.new result.now }
    {
        let message = self.text();
        self.close();
        message
    }

    /// Reads an action that is a command.
    fn action_command(&mut self, kind: ActionKind) -> CommandKind<'a>
        ensures { Reads (action_command kind) self.old self.new (λ vs. kind_in (all_bare self.new) vs result) (λ n. HasValues n result) }
    {
        CommandKind::Action(self.action_after(kind))
    }

    /// Reads `assert_return` and what follows.
    fn return_command(&mut self) -> CommandKind<'a>
        ensures { Reads return_command self.old self.new (λ vs. kind_in (all_bare self.new) vs result) (λ n. HasValues n result) }
    {
        let execution = self.execution();
        let results = self.values_of(Use::Result);
        self.close();
        CommandKind::AssertReturn(execution, results)
    }

    /// Reads `assert_exception` and what follows.
    fn exception_command(&mut self) -> CommandKind<'a>
        ensures { Reads exception_command self.old self.new (λ vs. kind_in (all_bare self.new) vs result) (λ n. HasValues n result) }
    {
        let execution = self.execution();
        self.close();
        CommandKind::AssertException(execution)
    }

    /// Reads `(module $m))` after `(shared`.
    fn module_of_thread(&mut self) -> Id<'a>
        ensures { Decides module_of_thread self.old self.new (bare_id result) }
    {
        self.wanted_form("module", "`(module`");
        let id = self.wanted_id();
        self.close();
        self.close();
        id
    }

    /// Reads `(shared (module $m))`, if it is next.
    fn shared_module(&mut self) -> Option<Id<'a>>
        ensures { Decides shared_module self.old self.new (bare_id_option result) }
    {
        if self.accept_form("shared") {
            return Some(self.module_of_thread());
        }
        None
    }

    /// Reads `thread` and what comes before its commands.
    fn thread_command(&mut self) -> CommandKind<'a>
        ensures decides { Decides thread_command self.old self.new (kind_in (all_bare self.new) [] result) }
        ensures plain { (vs : List Value) → kind_in (all_bare self.new) vs result ≡ kind_in (all_bare self.new) [] result }
        ensures few { (n : ℕ) → HasValues n result }
    {
        let id = self.wanted_id();
        let shared = self.shared_module();
        CommandKind::Thread(id, shared)
    }

    /// Reads `wait` and what follows.
    fn wait_command(&mut self) -> CommandKind<'a>
        ensures decides { Decides wait_command self.old self.new (kind_in (all_bare self.new) [] result) }
        ensures plain { (vs : List Value) → kind_in (all_bare self.new) vs result ≡ kind_in (all_bare self.new) [] result }
        ensures few { (n : ℕ) → HasValues n result }
    {
        let id = self.wanted_id();
        self.close();
        CommandKind::Wait(id)
    }

    /// Reads a module and a message.
    fn about_module(&mut self) -> (ScriptModule<'a>, &'a str)
        ensures { Decides about_module self.old self.new (module_in (all_bare self.new) result.0, result.1.now) }
    {
        let module = self.module();
        let message = self.message();
        (module, message)
    }

    /// Reads `assert_malformed` and what follows.
    fn malformed_command(&mut self) -> CommandKind<'a>
        ensures decides { Decides (module_assertion AssertMalformed) self.old self.new (kind_in (all_bare self.new) [] result) }
        ensures plain { (vs : List Value) → kind_in (all_bare self.new) vs result ≡ kind_in (all_bare self.new) [] result }
        ensures few { (n : ℕ) → HasValues n result }
    {
        let (module, message) = self.about_module();
        CommandKind::AssertMalformed(module, message)
    }

    /// Reads `assert_malformed_custom` and what follows.
    fn malformed_custom_command(&mut self) -> CommandKind<'a>
        ensures decides { Decides (module_assertion AssertMalformedCustom) self.old self.new (kind_in (all_bare self.new) [] result) }
        ensures plain { (vs : List Value) → kind_in (all_bare self.new) vs result ≡ kind_in (all_bare self.new) [] result }
        ensures few { (n : ℕ) → HasValues n result }
    {
        let (module, message) = self.about_module();
        CommandKind::AssertMalformedCustom(module, message)
    }

    /// Reads `assert_invalid` and what follows.
    fn invalid_command(&mut self) -> CommandKind<'a>
        ensures decides { Decides (module_assertion AssertInvalid) self.old self.new (kind_in (all_bare self.new) [] result) }
        ensures plain { (vs : List Value) → kind_in (all_bare self.new) vs result ≡ kind_in (all_bare self.new) [] result }
        ensures few { (n : ℕ) → HasValues n result }
    {
        let (module, message) = self.about_module();
        CommandKind::AssertInvalid(module, message)
    }

    /// Reads `assert_invalid_custom` and what follows.
    fn invalid_custom_command(&mut self) -> CommandKind<'a>
        ensures decides { Decides (module_assertion AssertInvalidCustom) self.old self.new (kind_in (all_bare self.new) [] result) }
        ensures plain { (vs : List Value) → kind_in (all_bare self.new) vs result ≡ kind_in (all_bare self.new) [] result }
        ensures few { (n : ℕ) → HasValues n result }
    {
        let (module, message) = self.about_module();
        CommandKind::AssertInvalidCustom(module, message)
    }

    /// Reads `assert_unlinkable` and what follows.
    fn unlinkable_command(&mut self) -> CommandKind<'a>
        ensures decides { Decides (module_assertion AssertUnlinkable) self.old self.new (kind_in (all_bare self.new) [] result) }
        ensures plain { (vs : List Value) → kind_in (all_bare self.new) vs result ≡ kind_in (all_bare self.new) [] result }
        ensures few { (n : ℕ) → HasValues n result }
    {
        let (module, message) = self.about_module();
        CommandKind::AssertUnlinkable(module, message)
    }

    /// Reads what an assertion runs, and a message.
    fn about_run(&mut self) -> (Execution<'a>, &'a str)
        ensures { Reads about_run self.old self.new (λ vs. (execution_in (all_bare self.new) vs result.0, result.1.now)) (λ n. HasExecuted n result.0) }
    {
        let execution = self.execution();
        let message = self.message();
        (execution, message)
    }

    /// Reads `assert_trap` and what follows.
    fn trap_command(&mut self) -> CommandKind<'a>
        ensures { Reads (run_assertion AssertTrap) self.old self.new (λ vs. kind_in (all_bare self.new) vs result) (λ n. HasValues n result) }
    {
        let (execution, message) = self.about_run();
        CommandKind::AssertTrap(execution, message)
    }

    /// Reads `assert_suspension` and what follows.
    fn suspension_command(&mut self) -> CommandKind<'a>
        ensures { Reads (run_assertion AssertSuspension) self.old self.new (λ vs. kind_in (all_bare self.new) vs result) (λ n. HasValues n result) }
    {
        let (execution, message) = self.about_run();
        CommandKind::AssertSuspension(execution, message)
    }

    /// Reads `assert_exhaustion` and what follows.
    fn exhaustion_command(&mut self) -> CommandKind<'a>
        ensures { Reads exhaustion_command self.old self.new (λ vs. kind_in (all_bare self.new) vs result) (λ n. HasValues n result) }
    {
        let action = self.invoke();
        let message = self.message();
        CommandKind::AssertExhaustion(action, message)
    }

    /// Reads a command after its verb, whose position and tokens are given.
    fn command_of(&mut self, verb: Verb, span: Span, head: Part) -> CommandKind<'a>
        ensures { Reads (command_of verb span (part head (all_bare self.old))) self.old self.new (λ vs. kind_in (all_bare self.new) vs result) (λ n. HasValues n result) }
    {
        match verb {
            Verb::Module => self.module_command(span, head),
            Verb::Register => self.register_command(),
            Verb::Invoke => self.action_command(ActionKind::Invoke),
            Verb::Get => self.action_command(ActionKind::Get),
            Verb::AssertReturn => self.return_command(),
            Verb::AssertTrap => self.trap_command(),
            Verb::AssertExhaustion => self.exhaustion_command(),
            Verb::AssertException => self.exception_command(),
            Verb::AssertSuspension => self.suspension_command(),
            Verb::AssertMalformed => self.malformed_command(),
            Verb::AssertMalformedCustom => self.malformed_custom_command(),
            Verb::AssertInvalid => self.invalid_command(),
            Verb::AssertInvalidCustom => self.invalid_custom_command(),
            Verb::AssertUnlinkable => self.unlinkable_command(),
            Verb::Thread => self.thread_command(),
            Verb::Wait => self.wait_command(),
        }
    }

    /// Returns the verb so far ahead, if there is one.
    fn verb(&self, ahead: usize) -> Option<Verb>
        ensures { result ≡ verb_in (peek ahead (left self.now)) }
    {
        match self.word(ahead) {
            Some(word) => verb_of(word),
            None => None,
        }
    }

    /// Reads the verb of a command.
    fn wanted_verb(&mut self) -> Verb
        ensures { Decides (word_that verb_named) self.old self.new result }
    {
        match self.verb(0) {
            Some(verb) => {
                self.skip();
                verb
            }
            None => {
                self.expected("a command");
                Verb::Wait
            }
        }
    }

    /// Reads a command.
    fn command(&mut self) -> Command<'a>
        ensures { Reads command self.old self.new (λ vs. command_in (all_bare self.new) vs result) (λ n. HasValues n result.kind) }
    {
        let start = self.at();
        self.open();
        let span = self.place();
        let verb = self.wanted_verb();
        let end = self.at();
        let kind = self.command_of(verb, span, Part { start, end });
        Command { span, kind }
    }

    /// Reads the end of a thread, which is next.
    fn thread_end(&mut self) -> Command<'a>
        ensures moves { Moves after self.old self.new }
        ensures command { result ≡ record { span = position (left self.old); kind = kind.ThreadEnd } }
    {
        let span = self.place();
        self.skip();
        Command {
            span,
            kind: CommandKind::ThreadEnd,
        }
    }

    /// Returns whether the end of a thread is next. So many threads are open.
    #[tactic(auto, using(crate::proofs::Verbs::some_thread, crate::proofs::Verbs::no_thread))]
    fn ends_thread(&self, threads: u128) -> bool
        ensures { result ≡ ends_thread threads (left self.now) }
    {
        threads > 0 && self.is_close(0)
    }

    /// Reads a command, or the end of a thread. So many threads are open.
    #[tactic(auto, using(crate::proofs::Verbs::end_read))]
    fn command_or_end(&mut self, threads: u128) -> Command<'a>
        ensures { Reads (command_or_end threads) self.old self.new (λ vs. command_in (all_bare self.new) vs result) (λ n. HasValues n result.kind) }
    {
        if self.ends_thread(threads) {
            return self.thread_end();
        }
        self.command()
    }

    /// Adds a command.
    #[tactic(auto, unfolding(crate::specs::Readers::left), using(crate::proofs::Pushing::command_pushed, crate::proofs::Pushing::command_failed))]
    fn push_command(&mut self, command: Command<'a>)
        ensures { Pushes self.old self.new command.entry }
    {
        match self.lists.commands.push(command) {
            Ok(()) => (),
            Err(_) => self.no_memory(),
        }
    }

    /// Reads a command, or the end of a thread, and adds it. Returns how many threads are open then.
    fn step(&mut self, threads: u128) -> u128
        requires { threads < 2 ^ 127 }
        ensures { TakesCommand threads result self.old self.new }
    {
        let command = self.command_or_end(threads);
        self.push_command(command);
        threads_after(command.kind, threads)
    }

    /// Reads commands up to the end of the text. Returns how many threads are open then.
    #[tactic(auto, using(crate::proofs::Commanding::running_first, crate::proofs::Commanding::running_more, crate::proofs::Commanding::running_end, crate::proofs::Commanding::running_last))]
    fn all_steps(&mut self) -> u128
        requires { IsNew self.old }
        ensures { TakesCommands result self.old self.new }
    {
        let mut threads = 0_u128;
        for _ in 0..self.left() {
            if self.left() == 0 {
                break;
            }
            threads = self.step(threads);
        }
        threads
    }

    /// Reads the commands up to the end of the text.
    #[tactic(auto, using(crate::proofs::Commanding::all_closed, crate::proofs::Commanding::one_open))]
    fn commands(&mut self)
        requires { IsNew self.old }
        ensures { ReadsAll all_commands self.old self.new }
    {
        let threads = self.all_steps();
        if threads > 0 {
            self.expected("`)`");
        }
    }

    /// Returns whether `(` and a verb are next.
    fn begins_command(&self) -> bool
        ensures { result ≡ begins_command (left self.now) }
    {
        self.is_open() && self.verb(1).is_some()
    }

    /// Reads a script that is one module without its parentheses.
    fn one_module(&mut self)
        requires { IsNew self.old }
        ensures { ReadsAll all_module self.old self.new }
    {
        let module = self.lone_module();
        self.push_command(Command {
            span: module.span,
            kind: CommandKind::Module(module),
        });
    }

    /// Reads a script: its commands, or one module without its parentheses.
    #[tactic(auto, using(crate::proofs::Commanding::by_commands, crate::proofs::Commanding::by_module))]
    pub(crate) fn script(&mut self)
        requires { IsNew self.old }
        ensures { ReadsAll script self.old self.new }
    {
        match self.begins_command() {
            true => self.commands(),
            false => self.one_module(),
        }
    }
}
