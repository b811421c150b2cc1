//! Example modules and values that the definitions compute.

ghost use Rattle.wast_expand_keys.specs.WorkedExpansions.{SameSignatures, OrderedSignatures, DistinctSignatures, SameReferences, Row2, Row7, Row8, Row23, Row37, EligibleTypes, Several, AfterStruct, ByIdAndNumber, Row65, UnknownIds, FirstOfTwo, UsesInOrder, IndirectCalls};

/// Which signatures are equal.
#[tactic(auto, using(crate::proofs::Worked::same_signatures))]
pub(crate) fn same_signatures()
    ensures { SameSignatures }
{}

/// Which signatures come first in a map.
#[tactic(auto, using(crate::proofs::Worked::ordered_signatures))]
pub(crate) fn ordered_signatures()
    ensures { OrderedSignatures }
{}

/// Lists of signatures with and without a repetition.
#[tactic(auto, using(crate::proofs::Worked::distinct_signatures))]
pub(crate) fn distinct_signatures()
    ensures { DistinctSignatures }
{}

/// Which reference types are equal.
#[tactic(auto, using(crate::proofs::Worked::same_references))]
pub(crate) fn same_references()
    ensures { SameReferences }
{}

/// A function alone: its type is appended.
#[tactic(auto, using(crate::proofs::Worked::row2))]
pub(crate) fn row2()
    ensures { Row2 }
{}

/// A function before its type: no type is appended.
#[tactic(auto, using(crate::proofs::Worked::row7))]
pub(crate) fn row7()
    ensures { Row7 }
{}

/// A function and a group: the members are not matched, but they have indices.
#[tactic(auto, using(crate::proofs::Worked::row8))]
pub(crate) fn row8()
    ensures { Row8 }
{}

/// A type use with an index and another inline type: it is unchanged.
#[tactic(auto, using(crate::proofs::Worked::row23))]
pub(crate) fn row23()
    ensures { Row23 }
{}

/// An open type is not matched.
#[tactic(auto, using(crate::proofs::Worked::row37))]
pub(crate) fn row37()
    ensures { Row37 }
{}

/// Which types are eligible.
#[tactic(auto, using(crate::proofs::Worked::eligible_types))]
pub(crate) fn eligible_types()
    ensures { EligibleTypes }
{}

/// Several type uses, two of them with the same signature.
#[tactic(auto, using(crate::proofs::Worked::several))]
pub(crate) fn several()
    ensures { Several }
{}

/// A struct is not matched, but it has an index.
#[tactic(auto, using(crate::proofs::Worked::after_struct))]
pub(crate) fn after_struct()
    ensures { AfterStruct }
{}

/// The id and the number of a type are the same signature.
#[tactic(auto, using(crate::proofs::Worked::by_id_and_number))]
pub(crate) fn by_id_and_number()
    ensures { ByIdAndNumber }
{}

/// A number matches a type that has an id.
#[tactic(auto, using(crate::proofs::Worked::row65))]
pub(crate) fn row65()
    ensures { Row65 }
{}

/// Ids that are not defined.
#[tactic(auto, using(crate::proofs::Worked::unknown_ids))]
pub(crate) fn unknown_ids()
    ensures { UnknownIds }
{}

/// The first of two equal types is matched.
#[tactic(auto, using(crate::proofs::Worked::first_of_two))]
pub(crate) fn first_of_two()
    ensures { FirstOfTwo }
{}

/// An imported function, a tag and a function: their types are appended in this order.
#[tactic(auto, using(crate::proofs::Worked::uses_in_order))]
pub(crate) fn uses_in_order()
    ensures { UsesInOrder }
{}

/// Indirect calls in a body and in a constant expression: their types are appended in the order of
/// use.
#[tactic(auto, using(crate::proofs::Worked::indirect_calls))]
pub(crate) fn indirect_calls()
    ensures { IndirectCalls }
{}
