//! Texts, and what the definitions make of them.

ghost use Rattle.wat_text.specs.WorkedDenotes.{Modules, Binaries, InQuotes, Positions, Openings, Denoted};
ghost use Rattle.wat_text.specs.WorkedReaders.{Producers, Counted};

/// The modules of texts: fields alone, fields in parentheses, binary modules, and texts in quotes.
#[tactic(auto, using(crate::proofs::WorkedDenotes::modules, crate::proofs::WorkedDenotes::binaries, crate::proofs::WorkedDenotes::in_quotes, crate::proofs::WorkedDenotes::openings, crate::proofs::WorkedDenotes::denoted))]
pub(crate) fn modules()
    ensures modules { Modules }
    ensures binaries { Binaries }
    ensures quotes { InQuotes }
    ensures openings { Openings }
    ensures denoted { Denoted }
{}

/// Positions in a text of two strings.
#[tactic(auto, using(crate::proofs::WorkedDenotes::positions))]
pub(crate) fn positions()
    ensures { Positions }
{}

/// The values of `producers`, and the tokens that a reader counts.
#[tactic(auto, using(crate::proofs::WorkedReaders::producers, crate::proofs::WorkedReaders::counted))]
pub(crate) fn readers()
    ensures producers { Producers }
    ensures counted { Counted }
{}
