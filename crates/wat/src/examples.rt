//! Results whose content the prover computes.

ghost use Rattle.wat.specs.WorkedSections.{Worked};

/// Computes modules without their name sections.
pub(crate) fn worked_sections()
    ensures { Worked }
{}
