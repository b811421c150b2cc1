//! Numbers that the prover computes.

ghost use Rattle.wast_script_records.specs.Worked.{NumbersOfFive};

/// Computes the number of one value of each kind.
pub(crate) fn worked_numbers()
    ensures { NumbersOfFive }
{}
