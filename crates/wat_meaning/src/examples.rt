//! Example modules whose meaning the prover computes.

ghost use Rattle.wat_meaning.specs.WorkedMeanings.{TwoTrees};

/// Computes two trees of one text, at any addresses: they mean the same.
pub(crate) fn worked_meanings()
    ensures { TwoTrees }
{}
