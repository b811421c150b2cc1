//! Texts, and the words that they are; strings, and the positions of their bytes.

ghost use Rattle.wat_tokens.specs.WorkedStrings.{Places};
ghost use Rattle.wat_tokens.specs.WorkedWords.{Words, Others, AreDistinct};

/// Words, texts that are not words, and the whole table.
#[tactic(auto, using(crate::proofs::WorkedWords::named, crate::proofs::WorkedWords::others, crate::proofs::WorkedWords::distinct))]
pub(crate) fn words()
    ensures words { Words }
    ensures others { Others }
    ensures distinct { AreDistinct }
{}

/// Strings with escapes and without.
#[tactic(auto, using(crate::proofs::WorkedStrings::places))]
pub(crate) fn places()
    ensures { Places }
{}
