//! Texts, and what the definitions compute for them.

ghost use Rattle.wat_grammar.specs.WorkedFloats.{Fractions, Decimals, NoDecimals, Hexadecimals, Magnitudes, Singles, Specials, Doubles};
ghost use Rattle.wat_grammar.specs.WorkedIntegers.{Digits, Numbers, Naturals, Unsigned, Signed, Integers, SignBefore};
ghost use Rattle.wat_grammar.specs.WorkedStrings.{Escapes, Strings};
ghost use Rattle.wat_grammar.specs.WorkedTokens.{Comments, Places, Quoted, Annotations};

/// Digits, and the characters next to them.
#[tactic(auto, using(crate::proofs::Worked::digits))]
pub(crate) fn digits()
    ensures { Digits }
{}

/// Numbers with underscores, decimal and hexadecimal.
#[tactic(auto, using(crate::proofs::Worked::numbers, crate::proofs::Worked::naturals))]
pub(crate) fn numbers()
    ensures digits { Numbers }
    ensures prefix { Naturals }
{}

/// Integers of 8 bits, and the first that are out of range.
#[tactic(auto, using(crate::proofs::Worked::unsigned, crate::proofs::Worked::signed, crate::proofs::Worked::integers, crate::proofs::Worked::sign_before))]
pub(crate) fn integers()
    ensures unsigned { Unsigned }
    ensures signed { Signed }
    ensures bits { Integers }
    ensures sign { SignBefore }
{}

/// Strings with escapes, and with wrong escapes.
#[tactic(auto, using(crate::proofs::Worked::escapes, crate::proofs::Worked::strings))]
pub(crate) fn strings()
    ensures escapes { Escapes }
    ensures whole { Strings }
{}

/// Floating-point numbers as fractions: decimal, hexadecimal, and texts that are not numbers.
#[tactic(auto, using(crate::proofs::WorkedFloats::fractions, crate::proofs::WorkedFloats::decimals, crate::proofs::WorkedFloats::no_decimals, crate::proofs::WorkedFloats::hexadecimals, crate::proofs::WorkedFloats::magnitudes))]
pub(crate) fn floats()
    ensures fractions { Fractions }
    ensures decimals { Decimals }
    ensures none { NoDecimals }
    ensures hexadecimals { Hexadecimals }
    ensures magnitudes { Magnitudes }
{}

/// The bits of floating-point numbers, rounded once.
#[tactic(auto, using(crate::proofs::WorkedFloats::singles, crate::proofs::WorkedFloats::specials, crate::proofs::WorkedFloats::doubles))]
pub(crate) fn float_bits()
    ensures singles { Singles }
    ensures specials { Specials }
    ensures doubles { Doubles }
{}

/// Comments, tokens with their offsets, strings and annotations.
#[tactic(auto, using(crate::proofs::Worked::comments, crate::proofs::Worked::places, crate::proofs::Worked::quoted, crate::proofs::Worked::annotations))]
pub(crate) fn tokens()
    ensures comments { Comments }
    ensures places { Places }
    ensures quoted { Quoted }
    ensures annotations { Annotations }
{}
