//! Lines of example modules, which the prover computes.

ghost use Rattle.wast_rows.specs.Worked.{LinesOfIllFormed};

/// Computes the lines of modules that are not encoded.
pub(crate) fn ill_formed()
    ensures { LinesOfIllFormed }
{}
