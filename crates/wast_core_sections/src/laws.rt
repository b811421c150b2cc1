//! Theorems about sections, for callers' proofs. The functions do nothing when they run.

ghost use Rattle.wast_core_sections.specs.HintPlaces.{HintsPointAtInstructions};
ghost use Rattle.wast_core_sections.specs.Slots.{CustomsStandOnce};
ghost use Rattle.wast_core_sections.specs.StandardOrder.{OrderExamples, PartsAreOrdered};

/// Theorem: each custom section has one position in a module (text format: custom annotations).
///
/// So each custom section occurs once in the encoding. Custom sections with the same position are
/// in the order of the fields.
pub fn customs_law()
    ensures { CustomsStandOnce }
{}

/// Theorem: branch hints point at their instructions (branch hinting).
///
/// This is about bytes that are read as the parts of some fields, as those of
/// `EncodeOptions::encode_module` are. The section of hints has the function by its index. The
/// offset of a hint counts from the first byte after the size of the body in the code section, and
/// the instruction of the hint begins there.
pub fn hint_places()
    ensures { HintsPointAtInstructions }
{}

/// Theorem: sections are in the order of the standard (binary format: modules).
///
/// Each is there at most once. Custom sections can be anywhere, and each start field has a start
/// section.
pub fn order_law()
    ensures { PartsAreOrdered }
{}

/// Computes the order of a few sections.
pub(crate) fn order_examples()
    ensures { OrderExamples }
{}
