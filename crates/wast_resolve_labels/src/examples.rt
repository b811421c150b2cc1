//! An expression with its enclosing blocks and labels, which the definitions compute.

ghost use Rattle.wast_resolve_labels.specs.Worked.{ThreeAreOpen, LabelsThere, EndsThere};

/// The enclosing blocks of the example, the depths of its labels, and the labels allowed at `end`.
#[tactic(auto, using(crate::proofs::Worked::three_are_open, crate::proofs::Worked::labels_there, crate::proofs::Worked::ends_there))]
pub(crate) fn nested_blocks()
    ensures open_blocks { ThreeAreOpen }
    ensures labels { LabelsThere }
    ensures ends { EndsThere }
{}
