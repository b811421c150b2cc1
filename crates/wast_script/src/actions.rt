//! Reads actions, and what assertions run.

ghost use Rattle.std.specs.Prelude.{◌≤◌};
ghost use Rattle.wast_script.specs.Grammar.{action, arguments, invocation, run_action, execution};
ghost use Rattle.wast_script.specs.Scripts.{part, action_in, execution_in};
ghost use Rattle.wast_script.specs.Readers.{left, all_bare, HasArguments, HasExecuted, Reads};

use crate::commands::{Action, ActionKind, Execution};
use crate::reader::Reader;
use crate::values::Part;
use crate::words::Use;

impl<'a> Reader<'a> {
    /// Reads the arguments of an action.
    #[tactic(auto, using(crate::proofs::Acting::no_arguments))]
    fn arguments(&mut self, kind: ActionKind) -> Part
        ensures { Reads (arguments kind) self.old self.new (part result) (λ n. result.end ≤ n) }
    {
        match kind {
            ActionKind::Invoke => self.values_of(Use::Argument),
            ActionKind::Get => self.no_values(),
        }
    }

    /// Reads an action after its keyword, up to its end.
    pub(crate) fn action_after(&mut self, kind: ActionKind) -> Action<'a>
        ensures { Reads (action kind) self.old self.new (λ vs. action_in vs result) (λ n. HasArguments n result) }
    {
        let span = self.place_before();
        let module = self.id();
        let name = self.text();
        let arguments = self.arguments(kind);
        self.close();
        Action {
            span,
            kind,
            module,
            name,
            arguments,
        }
    }

    /// Reads `(invoke ..)`.
    pub(crate) fn invoke(&mut self) -> Action<'a>
        ensures { Reads invocation self.old self.new (λ vs. action_in vs result) (λ n. HasArguments n result) }
    {
        self.wanted_form("invoke", "`(invoke`");
        self.action_after(ActionKind::Invoke)
    }

    /// Reads an action with its parenthesis.
    #[tactic(auto, using(crate::proofs::Acting::get_read, crate::proofs::Acting::other_read))]
    fn run_action(&mut self) -> Execution<'a>
        ensures { Reads run_action self.old self.new (λ vs. execution_in (all_bare self.new) vs result) (λ n. HasExecuted n result) }
    {
        if self.accept_form("get") {
            return Execution::Action(self.action_after(ActionKind::Get));
        }
        Execution::Action(self.invoke())
    }

    /// Reads what an assertion runs: an action or a module.
    #[tactic(auto, using(crate::proofs::Acting::module_run, crate::proofs::Acting::action_run))]
    pub(crate) fn execution(&mut self) -> Execution<'a>
        ensures { Reads execution self.old self.new (λ vs. execution_in (all_bare self.new) vs result) (λ n. HasExecuted n result) }
    {
        if self.is_form("module") {
            return Execution::Module(self.module());
        }
        self.run_action()
    }
}
