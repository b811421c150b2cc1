//! Example modules with other ids, which the definitions compute.

ghost use Rattle.wast_resolve_laws.specs.WorkedRenaming.{PrefixesNames, Row27, Row9, Row31, Row48, OneGiven};

/// With `r` before each name, a module resolves to the same indices, and an unknown id is reported
/// with `r` at its position. A map of one name extends to one of all names.
#[tactic(auto, using(crate::proofs::WorkedNames::prefixes_names, crate::proofs::WorkedNames::row27, crate::proofs::WorkedNames::row9, crate::proofs::WorkedNames::row31, crate::proofs::WorkedNames::row48, crate::proofs::WorkedNames::one_given))]
pub(crate) fn worked_renamings()
    ensures prefixing { PrefixesNames }
    ensures row27 { Row27 }
    ensures row9 { Row9 }
    ensures row31 { Row31 }
    ensures row48 { Row48 }
    ensures given { OneGiven }
{}
