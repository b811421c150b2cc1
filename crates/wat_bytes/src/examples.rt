//! Results whose content the prover computes.

ghost use Rattle.wat_bytes.specs.WorkedNames.{EachKind};
ghost use Rattle.wat_bytes.specs.WorkedResults.{Contents};

/// Computes the content of a list entry and of errors, which have no addresses.
pub(crate) fn worked_results()
    ensures { Contents }
{}

/// Computes the list of the ids of a module, with the position of each.
pub(crate) fn worked_names()
    ensures { EachKind }
{}
