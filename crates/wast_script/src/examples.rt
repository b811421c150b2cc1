//! Scripts, and what the definitions make of them.

ghost use Rattle.wast_script.specs.Worked.{Values, Modules, Scripts};

/// Values of commands: one that is read and one that is not, and alternatives.
#[tactic(auto, using(crate::proofs::Worked::values))]
pub(crate) fn values()
    ensures { Values }
{}

/// A module in its parentheses, and one without its end.
#[tactic(auto, using(crate::proofs::Worked::modules))]
pub(crate) fn modules()
    ensures { Modules }
{}

/// Commands of texts.
#[tactic(auto, using(crate::proofs::Worked::scripts))]
pub(crate) fn scripts()
    ensures { Scripts }
{}
