//! Examples that the definitions of the AST compute, as contracts of functions that do nothing.

ghost use Rattle.wast_tree.specs.Private.Examples.{SameIds, StandsInRow27, StandsInFilledMemory, StandsEverywhere, StandsInPlace, StandsInSegments, StandsInBlocks, KnownInRows, WellFormedRows, SettledIndices, UnsettledIndices, WellFormedFuncs, WellFormedHints, WellFormedTypes, WellFormedSegments, WellFormedEntities, WellFormedInPlace, WellFormedBlocks, IllFormedClauses, FirstIllFormed, WrittenOutFields, GenerationsOfRows, StandsInAccess, StandsInSharedImports, UncoveredForms, FirstUncovered};
ghost use Rattle.wast_tree.specs.Private.Instructions.{InstructionsAsk};

/// States which ids and indices are the same.
#[tactic(auto, using(crate::proofs::Worked::same_ids))]
pub(crate) fn same_ids()
    ensures { SameIds }
{}

/// States the sites of small modules, in their order, and the identifier contexts.
#[tactic(auto, using(crate::proofs::Worked::stands_in_row27, crate::proofs::Worked::stands_in_filled_memory, crate::proofs::Worked::stands_everywhere, crate::proofs::Worked::stands_in_place, crate::proofs::Worked::stands_in_segments, crate::proofs::Worked::stands_in_blocks, crate::proofs::Worked::stands_in_access, crate::proofs::Worked::stands_in_shared_imports, crate::proofs::Worked::known_in_rows))]
pub(crate) fn occurrences()
    ensures row27 { StandsInRow27 }
    ensures filled_memory { StandsInFilledMemory }
    ensures everywhere { StandsEverywhere }
    ensures in_place { StandsInPlace }
    ensures segments { StandsInSegments }
    ensures blocks { StandsInBlocks }
    ensures access { StandsInAccess }
    ensures shared_imports { StandsInSharedImports }
    ensures known { KnownInRows }
{}

/// States the checks of an instruction of each kind.
pub(crate) fn instructions()
    ensures { InstructionsAsk }
{}

/// States which modules are well formed, and which are not.
#[tactic(auto, using(crate::proofs::Worked::well_formed_rows, crate::proofs::Worked::settled_indices, crate::proofs::Worked::unsettled_indices, crate::proofs::Worked::well_formed_funcs, crate::proofs::Worked::well_formed_hints, crate::proofs::Worked::well_formed_types, crate::proofs::Worked::well_formed_segments, crate::proofs::Worked::well_formed_entities, crate::proofs::Worked::well_formed_in_place, crate::proofs::Worked::well_formed_blocks))]
pub(crate) fn well_formed()
    ensures rows { WellFormedRows }
    ensures settled { SettledIndices }
    ensures unsettled { UnsettledIndices }
    ensures funcs { WellFormedFuncs }
    ensures hints { WellFormedHints }
    ensures types { WellFormedTypes }
    ensures segments { WellFormedSegments }
    ensures entities { WellFormedEntities }
    ensures in_place { WellFormedInPlace }
    ensures blocks { WellFormedBlocks }
{}

/// States which rules of well-formedness small modules break, and at which positions.
pub(crate) fn ill_formed()
    ensures clauses { IllFormedClauses }
    ensures first { FirstIllFormed }
{}

/// States which modules are desugared, and which are not.
#[tactic(auto, using(crate::proofs::Worked::written_out_fields))]
pub(crate) fn written_out()
    ensures { WrittenOutFields }
{}

/// States the greatest generations of the ids of small modules.
#[tactic(auto, using(crate::proofs::Worked::generations_of_rows))]
pub(crate) fn generations()
    ensures { GenerationsOfRows }
{}

/// States the unsupported forms of small modules, and the position of the first.
#[tactic(auto, using(crate::proofs::Worked::uncovered_in_forms, crate::proofs::Worked::first_is_uncovered))]
pub(crate) fn uncovered()
    ensures forms { UncoveredForms }
    ensures first { FirstUncovered }
{}
