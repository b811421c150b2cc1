//! Theorems about text modules, for callers' proofs. The functions do nothing when they run.

ghost use Rattle.std.specs.Prelude.{◌≡◌, ℕ, List};
ghost use Rattle.wasm_out.specs.Parts.{Part};
ghost use Rattle.wasm_out.specs.Reads.{Reads};
ghost use Rattle.wast_resolve_laws.specs.Extended.{ExtendedIsInjective, ExtendedAgrees};
ghost use Rattle.wast_resolve_laws.specs.Renaming.{RenamedAnswer, RenamedCounts, RenamedFilled, RenamedTooLarge, WrittenAnswer};
ghost use Rattle.wast_core.specs.FiniteNames.{RenamesFinitely};
ghost use Rattle.wast_core.specs.Front.{RenamedParts, SameFront, WrittenMeans, WrittenFront};
ghost use Rattle.wast_core.specs.Laws.{MeansWhatIsWritten, TooLargeIsUnbounded};
ghost use Rattle.wast_core.specs.OtherForms.{RenamedForms, WrittenForms};

pub use crate::rests::at_rest;
use wasm_out::reading_laws;
pub use wast_core_sections::{customs_law, hint_places, order_law};
use wast_resolve::laws::naming_laws;
use wast_resolve::resolved_laws;

/// Theorem: bytes are the encoding of one module only, and a module has one encoding (binary
/// format: modules).
///
/// So the grammar reads the bytes that
/// [`EncodeOptions::encode_module`](crate::EncodeOptions::encode_module) returns as what the module
/// means, as no other module, and it reads no other bytes as this module.
pub fn one_meaning()
    ensures one_module { (bytes : List ℕ) (p q : List Part) → Reads bytes p → Reads bytes q → p ≡ q }
    ensures one_spelling { (b c : List ℕ) (p : List Part) → Reads b p → Reads c p → b ≡ c }
{
    reading_laws();
}

/// Theorem: the meaning of a module does not depend on the counter that resolved it (binary format:
/// modules).
///
/// If every check passes and the counter is past the ids of the fields, the resolved fields have
/// the parts that the source means. The meaning numbers items by position, without generated ids.
pub fn meaning_law()
    ensures { MeansWhatIsWritten }
{
    resolved_laws();
}

/// Theorem: fields that are too large to resolve are also too large to encode.
///
/// So for a bounded module neither resolving nor encoding returns E10. For example, a module with
/// 2^32 functions is not bounded, and neither is one with so many locals in a function.
pub fn bounded_law()
    ensures { TooLargeIsUnbounded }
{}

/// Theorem: renaming ids changes nothing but names (text format: identifiers). Each id of a module
/// gets another name at the same position, and no two names become the same.
///
/// - Resolving succeeds for both or fails for both. The first failed check has the same error at
///   the same position, because checks compare names and do not read them. If the error names an
///   id, that of the renamed module names the new id.
/// - Both have as many items, fields of structs, parameters, locals and enclosing blocks. As many
///   ids are generated. E10 from resolving is possible for both or for neither.
/// - Both have the same unsupported constructs in the same order. So E11 comes for both or for
///   neither, and names the same construct.
/// - The parts before the name section are the same. So the bytes that
///   [`EncodeOptions::encode_module`](crate::EncodeOptions::encode_module) returns begin the same,
///   each with its own name section after them.
///
/// The same holds after `deinline::run` from a counter past the ids of the fields, with its
/// generated ids or with other names for them, for example source ids. For unsupported constructs
/// and for the parts before the names, each check has to pass too.
///
/// A caller describes the other names by a finite map, for example from the names of one tree. If
/// no two names in it become one, the map extends to all names.
pub fn renaming()
    ensures answer { RenamedAnswer }
    ensures counts { RenamedCounts }
    ensures filled { RenamedFilled }
    ensures large { RenamedTooLarge }
    ensures parts { RenamedParts }
    ensures bytes { SameFront }
    ensures uncovered { RenamedForms }
    ensures written { WrittenAnswer }
    ensures written_parts { WrittenMeans }
    ensures written_bytes { WrittenFront }
    ensures written_uncovered { WrittenForms }
    ensures injective { ExtendedIsInjective }
    ensures agrees { ExtendedAgrees }
    ensures finite { RenamesFinitely }
{
    resolved_laws();
    naming_laws();
}
