//! Theorems about every list of fields after type uses are resolved.

ghost use Rattle.wast_expand_types.specs.Laws.{UsesAreBound, TypesAreTheSpace, TakesTheTypeAtItsIndex, ImpliedAreNumbered, ImpliedAreNew, ImpliedAreDistinct, StaysExpanded, WantsNoMore, StaysWrittenOut};

/// Theorem: in the result of [`types::expand`](crate::types::expand) each type use that needs a
/// type has an index, and a second expansion changes nothing (text format, type uses:
/// abbreviations).
///
/// The type space of the result has the source's types, and then the appended ones. An appended
/// type has the signature of no eligible type, and of no other appended type. In its signature each
/// id of a source type is replaced by its number. The result has an inline export, import, element
/// or data exactly if the fields have one.
///
/// For example, `(func) (func)` becomes `(func (type [1])) (func (type [1])) (type [1] (func))`,
/// with one type for both functions. Call it in a proof to obtain its clauses.
#[tactic(auto, using(crate::proofs::HavingTypes::uses_are_bound, crate::proofs::NumberedTypes::implied_are_numbered, crate::proofs::HavingTypes::implied_are_new, crate::proofs::HavingTypes::implied_are_distinct, crate::proofs::AtRest::types_are_the_space, crate::proofs::AtRest::wants_no_more, crate::proofs::InPlace::stays_written_out))]
pub fn expanded_laws()
    ensures bound { UsesAreBound }
    ensures types { TypesAreTheSpace }
    ensures index { TakesTheTypeAtItsIndex }
    ensures numbered { ImpliedAreNumbered }
    ensures new { ImpliedAreNew }
    ensures distinct { ImpliedAreDistinct }
    ensures stays { StaysExpanded }
    ensures wants_no_more { WantsNoMore }
    ensures written_out { StaysWrittenOut }
{}
