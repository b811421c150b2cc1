//! Theorems about the number of tokens that the rules leave.

ghost use Rattle.wat_laws.specs.Lengths.{TakesToken};

/// Theorem: an instruction has at least one token (text format: instructions).
///
/// So a loop over instructions needs no more rounds than there are tokens. For example, after
/// `i32.const 7` in `i32.const 7 drop`, one of three tokens is left. Call it in a proof to obtain
/// its clause.
#[tactic(auto, using(crate::proofs::Shrinks::takes_token))]
pub fn length_laws()
    ensures instruction { TakesToken }
{}
