//! The opcodes of instructions, compared with a second list.

ghost use Rattle.unit_tests.specs.StandardOpcodes.{AreStandard};

/// States that each instruction of the table of instructions has the opcode that the standard's
/// index of instructions has for its text.
#[tactic(auto, using(crate::proofs::Standard::are_standard))]
pub fn opcodes_are_standard()
    ensures { AreStandard }
{}
