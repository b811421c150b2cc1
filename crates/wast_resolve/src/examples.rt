//! Function bodies that are stable, and others that are not, which the definition computes.

ghost use Rattle.wast_resolve.specs.WorkedStable.{Calls, Blocks, Labels};

/// `call 1` is stable, and `call $f` is not. A block with an index or a short type is, and one with
/// both is not. A label at `end` is not.
#[tactic(auto, using(crate::proofs::WorkedStable::calls, crate::proofs::WorkedStable::blocks, crate::proofs::WorkedStable::labels))]
pub(crate) fn stable_bodies()
    ensures calls { Calls }
    ensures blocks { Blocks }
    ensures labels { Labels }
{}
