//! Theorems about resolved fields, about enclosing blocks, and about errors before resolving.

ghost use Rattle.wast_resolve_laws.specs.Laws.{SameAnswer, SameCounts, SameBodyCounts, ExplicitStaysWellFormed, NoIdIsLeft, FinishedStaysWellFormed, SamePositions, FinishedIsResolved, FinishedIsBelow, UsesHaveIndices, FinishedIsWrittenOut, ItemsStay, BlocksAreCounted, EarlyStays, EarlyIsFirst, SitesComeAfter};

use wast_resolve_labels::walking_law;

/// Theorem: properties of resolved fields, if the counter is past the generated ids in the fields.
/// Call it in a proof to obtain its clauses.
///
/// For example, `(func (export "a"))` resolves to
/// `(export "a" (func 0)) (func [1] (type 0)) (type [2] (func))`. No index is an id, and without
/// `[1]` and `[2]` it is the list by positions.
///
/// If all checks pass, no inline part is left, nothing is left to resolve, and the counter is past
/// the generated ids again. Each type use that needs a type has an index. A block with a short type
/// needs none. Well-formed fields stay well formed.
///
/// Generated ids change neither sizes nor which check fails first. For the sizes of bodies, no two
/// items may have the same id.
#[tactic(auto, using(crate::proofs::Explicit::explicit_answer, crate::proofs::Explicit::explicit_counts, crate::proofs::Explicit::explicit_bodies, crate::proofs::Explicit::explicit_well_formed, crate::proofs::Explicit::finished_numbered, crate::proofs::Explicit::finished_resolved, crate::proofs::Explicit::finished_well_formed, crate::proofs::Explicit::finished_by_position, crate::proofs::Explicit::finished_below, crate::proofs::Explicit::finished_indexed, crate::proofs::Explicit::finished_written_out, crate::proofs::Explicit::finished_items))]
pub fn resolved_laws()
    ensures answer { SameAnswer }
    ensures counts { SameCounts }
    ensures bodies { SameBodyCounts }
    ensures explicit { ExplicitStaysWellFormed }
    ensures numbers { NoIdIsLeft }
    ensures resolved { FinishedIsResolved }
    ensures well_formed { FinishedStaysWellFormed }
    ensures positions { SamePositions }
    ensures generations { FinishedIsBelow }
    ensures indices { UsesHaveIndices }
    ensures written_out { FinishedIsWrittenOut }
    ensures items { ItemsStay }
{}

/// Theorem: counting block starts and ends finds the enclosing blocks at an instruction (text
/// format, control instructions: labels). Call it in a proof to obtain its clause.
///
/// For example, after `block $a  block $b  end` the only enclosing block is `$a`.
pub fn label_law()
    ensures { BlocksAreCounted }
{
    walking_law();
}

/// Theorem: an error before resolving is also the error of resolving. Call it in a proof to obtain
/// its clauses.
///
/// For example, `(start $x) (func $a) (func $a)` fails with E2 at the second `$a`, before and by
/// resolving.
///
/// The checks before resolving are the order of imports and duplicate ids. If all of them pass,
/// resolving reports the first check of uses, labels and locals that fails.
#[tactic(auto, using(crate::proofs::EarlyDemands::early_stays, crate::proofs::EarlyDemands::early_is_first, crate::proofs::EarlyDemands::sites_come_after))]
pub fn early_law()
    ensures stays { EarlyStays }
    ensures first { EarlyIsFirst }
    ensures after { SitesComeAfter }
{}
