//! Theorems about every list of fields after its inline parts are expanded.

ghost use Rattle.wast_expand_inline.specs.Laws.{NothingIsLeft, NothingIsLeftByPosition, StaysWritten, StaysByPosition, WantsNoReference, StaysSoundByPosition, StaysBelow, StaysWellFormed};

/// Theorem: no field of the result of [`deinline::run`](crate::deinline::run) has an inline export,
/// import, element or data (text format: abbreviations).
///
/// So expanding the result again changes nothing, and fields without inline parts are unchanged.
/// Both also hold if references are positions instead of ids. Well-formed fields stay well formed.
/// If the counter is past every generated id in the fields, it is past every one in the result.
///
/// For example, `(func (export "a"))` becomes `(export "a" (func [1])) (func [1])`. A second
/// expansion returns the same two fields. Call it in a proof to obtain its clauses.
#[tactic(auto, using(crate::proofs::Left::nothing_is_left, crate::proofs::Left::nothing_is_left_by_position, crate::proofs::Staying::stays_written, crate::proofs::Staying::stays_by_position, crate::proofs::Staying::wants_no_reference, crate::proofs::WrittenAsks::stays_sound_by_position, crate::proofs::Below::written_below, crate::proofs::Settled::written_well_formed))]
pub fn written_laws()
    ensures left { NothingIsLeft }
    ensures left_by_position { NothingIsLeftByPosition }
    ensures stays { StaysWritten }
    ensures stays_by_position { StaysByPosition }
    ensures wants_none { WantsNoReference }
    ensures sound_by_position { StaysSoundByPosition }
    ensures below { StaysBelow }
    ensures well_formed { StaysWellFormed }
{}
