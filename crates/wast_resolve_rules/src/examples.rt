//! Example modules whose result or error the definitions compute.

ghost use Rattle.wast_resolve_rules.specs.WorkedAnswers.{Row27, Row31, Row32, Row2, Row7, Row8, Row24, TwoFunctions, ClashOfTypes, FieldsOfOneStruct, FieldsOfTwoStructs, ClashesInOrder, Row14, Row22, Row23, UnknownNames, MatchedByNumber, Row17, IndirectCalls};
ghost use Rattle.wast_resolve_rules.specs.WorkedBodies.{NestedLabels, InnermostOfTwo, CaughtOutside, CaughtInItself, DelegatedOutside, DelegatedToItself, LabelsAtEnds, BlockOfTwo, BehindNameless};
ghost use Rattle.wast_resolve_rules.specs.WorkedEarly.{RowsEarly, ImportedInPlace};
ghost use Rattle.wast_resolve_rules.specs.WorkedFields.{Row48, Row16};
ghost use Rattle.wast_resolve_rules.specs.WorkedImports.{Row12, Row13, Row21, BehindAMemory, ImportsInOrder, ImportedTwice, UnknownStart};
ghost use Rattle.wast_resolve_rules.specs.WorkedUnknowns.{UnknownInSegments, UnknownInTables, UnknownInGlobals};

/// A type, a function that calls itself and its export: each id becomes the number 0, at the
/// position of the id.
#[tactic(auto, using(crate::proofs::Worked::row27))]
pub(crate) fn row27()
    ensures { Row27 }
{}

/// An export of an unknown function: E4 at the index.
#[tactic(auto, using(crate::proofs::Worked::row31))]
pub(crate) fn row31()
    ensures { Row31 }
{}

/// Two types with the same id: E2 at the second.
#[tactic(auto, using(crate::proofs::Worked::row32))]
pub(crate) fn row32()
    ensures { Row32 }
{}

/// Functions without an index: their type is appended, or comes later in the module.
#[tactic(auto, using(crate::proofs::Worked::row2, crate::proofs::Worked::row7, crate::proofs::Worked::row8, crate::proofs::Worked::two_functions))]
pub(crate) fn without_an_index()
    ensures implied { Row2 }
    ensures later { Row7 }
    ensures beside_a_group { Row8 }
    ensures twice { TwoFunctions }
{}

/// A number is not checked, even if no type has it.
#[tactic(auto, using(crate::proofs::Worked::row24))]
pub(crate) fn row24()
    ensures { Row24 }
{}

/// Two types with the same id, after a type that gets a generated id: E2 at the second.
#[tactic(auto, using(crate::proofs::Worked::clash_of_types))]
pub(crate) fn clash_of_types()
    ensures { ClashOfTypes }
{}

/// Fields of structs with the same id: E3 at the second field of one struct, in the order of the
/// fields.
#[tactic(auto, using(crate::proofs::Worked::fields_of_one_struct, crate::proofs::Worked::fields_of_two_structs, crate::proofs::Worked::clashes_in_order))]
pub(crate) fn fields_of_structs()
    ensures one { FieldsOfOneStruct }
    ensures two { FieldsOfTwoStructs }
    ensures order { ClashesInOrder }
{}

/// Inline types beside an index: the signatures differ (E7), the type does not exist (E6), or is
/// not a function type (E5).
#[tactic(auto, using(crate::proofs::Worked::row14, crate::proofs::Worked::row22, crate::proofs::Worked::row23))]
pub(crate) fn inline_types()
    ensures no_match { Row14 }
    ensures out_of_bounds { Row22 }
    ensures not_func { Row23 }
{}

/// Inline types with references: the ids in a type use are looked up before it is compared with its
/// type.
#[tactic(auto, using(crate::proofs::Worked::unknown_names, crate::proofs::Worked::matched_by_number))]
pub(crate) fn inline_references()
    ensures unknown { UnknownNames }
    ensures by_number { MatchedByNumber }
{}

/// A parameter and a local with the same id: E2 at the local, after the types of the locals are
/// checked.
#[tactic(auto, using(crate::proofs::Worked::row17))]
pub(crate) fn row17()
    ensures { Row17 }
{}

/// Indirect calls: the inline type beside an index is removed. The table is looked up first.
#[tactic(auto, using(crate::proofs::Worked::indirect_calls))]
pub(crate) fn indirect_calls()
    ensures { IndirectCalls }
{}

/// Labels of blocks: depths count from the innermost block, and an inner label hides an outer one.
#[tactic(auto, using(crate::proofs::Worked::nested_labels, crate::proofs::Worked::innermost_of_two))]
pub(crate) fn labels_of_blocks()
    ensures nested { NestedLabels }
    ensures innermost { InnermostOfTwo }
{}

/// Labels in catch clauses and `delegate` are outside the block: E4 at the block's own label.
#[tactic(auto, using(crate::proofs::Worked::caught_outside, crate::proofs::Worked::caught_in_itself, crate::proofs::Worked::delegated_outside, crate::proofs::Worked::delegated_to_itself))]
pub(crate) fn labels_outside()
    ensures caught { CaughtOutside }
    ensures caught_itself { CaughtInItself }
    ensures delegated { DelegatedOutside }
    ensures delegated_itself { DelegatedToItself }
{}

/// A label at an `end` that differs from that of its block: E8 there. Without an enclosing block it
/// is not checked.
#[tactic(auto, using(crate::proofs::Worked::labels_at_ends))]
pub(crate) fn labels_at_ends()
    ensures { LabelsAtEnds }
{}

/// A block with two results: its type is appended.
#[tactic(auto, using(crate::proofs::Worked::block_of_two))]
pub(crate) fn block_of_two()
    ensures { BlockOfTwo }
{}

/// A local after an unnamed parameter, which counts. E4 at an unknown local.
#[tactic(auto, using(crate::proofs::Worked::behind_nameless))]
pub(crate) fn behind_nameless()
    ensures { BehindNameless }
{}

/// A struct field by its id. If it is unknown: E9 if no field has an id, else E4.
#[tactic(auto, using(crate::proofs::Worked::row48, crate::proofs::Worked::row16))]
pub(crate) fn named_fields()
    ensures named { Row48 }
    ensures unnamed { Row16 }
{}

/// Imports after definitions: E1 at the first, with the kind of the last definition, and before any
/// duplicate id.
#[tactic(auto, using(crate::proofs::Worked::row12, crate::proofs::Worked::row21, crate::proofs::Worked::behind_a_memory, crate::proofs::Worked::imports_in_order, crate::proofs::Worked::imported_twice))]
pub(crate) fn imports_in_order()
    ensures function { Row12 }
    ensures tag { Row21 }
    ensures memory { BehindAMemory }
    ensures order { ImportsInOrder }
    ensures twice { ImportedTwice }
{}

/// An unknown start function: E4 at the index, but E2 of two functions comes before it.
#[tactic(auto, using(crate::proofs::Worked::unknown_start, crate::proofs::Worked::row13))]
pub(crate) fn unknown_start()
    ensures unknown { UnknownStart }
    ensures clash { Row13 }
{}

/// Fields with several unknown ids: E4 at the first. The order is table, offset, functions for a
/// segment; type, then value for a table or a global.
#[tactic(auto, using(crate::proofs::Worked::unknown_in_segments, crate::proofs::Worked::unknown_in_tables, crate::proofs::Worked::unknown_in_globals))]
pub(crate) fn unknown_names_in_order()
    ensures segments { UnknownInSegments }
    ensures tables { UnknownInTables }
    ensures globals { UnknownInGlobals }
{}

/// Fields before resolving: E1 for imports after definitions, also for inline imports; and E2.
#[tactic(auto, using(crate::proofs::Worked::rows_early, crate::proofs::Worked::imported_in_place))]
pub(crate) fn rows_early()
    ensures rows { RowsEarly }
    ensures in_place { ImportedInPlace }
{}
