//! Tokens, and what the rules read them as.

ghost use Rattle.wat_syntax.specs.Keywords.{AreDistinct};
ghost use Rattle.wat_syntax.specs.WorkedBare.{Addresses, Texts};
ghost use Rattle.wat_syntax.specs.WorkedBodies.{Folds, Blocks, Hints, Tries, Fields};
ghost use Rattle.wat_syntax.specs.WorkedFields.{Functions, Tables, Memories, Globals, Elements, Bytes};
ghost use Rattle.wat_syntax.specs.WorkedTypes.{Values, References, Composites, Externals};
ghost use Rattle.wat_syntax.specs.WorkedCustoms.{Places, Tools, Linking, Fields as Sections};

/// Numbers, names, ids and indices.
#[tactic(auto, using(crate::proofs::WorkedTypes::values))]
pub(crate) fn values()
    ensures { Values }
{}

/// Types, each with one that is read and one that is not.
#[tactic(auto, using(crate::proofs::WorkedTypes::references, crate::proofs::WorkedTypes::composites, crate::proofs::WorkedTypes::externals))]
pub(crate) fn types()
    ensures references { References }
    ensures composites { Composites }
    ensures externals { Externals }
{}

/// Tokens and trees at addresses, and the tokens of texts.
#[tactic(auto, using(crate::proofs::WorkedBare::addresses, crate::proofs::WorkedBare::texts))]
pub(crate) fn addresses()
    ensures addresses { Addresses }
    ensures texts { Texts }
{}

/// Keywords that compare as the same are equal.
pub(crate) fn keywords()
    ensures { AreDistinct }
{}

/// Expressions and fields, each with one that is read and one that is not.
#[tactic(auto, using(crate::proofs::WorkedBodies::folds, crate::proofs::WorkedBodies::blocks, crate::proofs::WorkedBodies::hints, crate::proofs::WorkedBodies::tries, crate::proofs::WorkedBodies::fields))]
pub(crate) fn bodies()
    ensures folds { Folds }
    ensures blocks { Blocks }
    ensures hints { Hints }
    ensures tries { Tries }
    ensures fields { Fields }
{}

/// Fields with expressions, each with one that is read and one that is not.
#[tactic(auto, using(crate::proofs::WorkedFields::functions, crate::proofs::WorkedFields::tables, crate::proofs::WorkedFields::memories, crate::proofs::WorkedFields::globals, crate::proofs::WorkedFields::elements, crate::proofs::WorkedFields::bytes))]
pub(crate) fn fields()
    ensures functions { Functions }
    ensures tables { Tables }
    ensures memories { Memories }
    ensures globals { Globals }
    ensures elements { Elements }
    ensures bytes { Bytes }
{}

/// Custom sections and the fields of a module, each with one that is read and one that is not.
#[tactic(auto, using(crate::proofs::WorkedCustoms::places, crate::proofs::WorkedCustoms::tools, crate::proofs::WorkedCustoms::linking, crate::proofs::WorkedCustoms::fields))]
pub(crate) fn customs()
    ensures places { Places }
    ensures tools { Tools }
    ensures linking { Linking }
    ensures sections { Sections }
{}
