//! Theorems about fields that are already resolved.

ghost use Rattle.wast_resolve_laws.specs.WorkedRests.{Row27, Row9, Row48};
ghost use Rattle.wast_resolve_laws.specs.Rests.{RestsMet, RestsStill, RestsByPosition, FillsNoMore, StartsStayWellFormed, StartsStayBelow, StartsAreMet, StartsComeBefore};

/// Theorem: resolving resolved fields changes nothing, also with start fields after them (text
/// format: abbreviations, indices, start functions). Call it in a proof to obtain its clauses.
///
/// For example, resolving `(func (type 0)) (type [1] (func)) (start 0)` returns the same fields.
///
/// These start fields have numbers. All checks pass again if those of the original fields pass and
/// the counter was past the generated ids in them. No id is generated.
///
/// Start fields with generated ids of functions may follow any fields. The greatest generated id is
/// still that of the fields. If each start field names a function, the checks still pass. After
/// resolving, the start fields come before the appended types, and other fields are the same.
#[tactic(auto, using(crate::proofs::Rested::rests_are_met, crate::proofs::Rested::rests_by_position, crate::proofs::Rested::fills_no_more, crate::proofs::Rested::starts_stay_well_formed, crate::proofs::StartsKept::starts_stay_below, crate::proofs::StartsFinished::starts_are_met))]
pub fn resting_laws()
    ensures met { RestsMet }
    ensures still { RestsStill }
    ensures by_position { RestsByPosition }
    ensures fills { FillsNoMore }
    ensures well_formed { StartsStayWellFormed }
    ensures below { StartsStayBelow }
    ensures starts_met { StartsAreMet }
    ensures starts { StartsComeBefore }
{}

/// Resolved example modules with start fields after them: all checks pass, and nothing changes.
#[tactic(auto, using(crate::proofs::RestsComputed::row27, crate::proofs::RestsComputed::row9, crate::proofs::RestsComputed::row48))]
pub(crate) fn rows_at_rest()
    ensures row27 { Row27 }
    ensures row9 { Row9 }
    ensures row48 { Row48 }
{}
