//! Theorems about sections and modules: bytes determine the sections, and sections the bytes.

ghost use Rattle.std.specs.Prelude.{◌≡◌, ◌∷◌, ◌++◌, [], ℕ, List};
ghost use Rattle.wasm_ops.specs.Codes.{IsCode, IsWhole};
ghost use Rattle.wasm_out.specs.Built.{built_with, builder_of, behind_count};
ghost use Rattle.wasm_out.specs.Parts.{SectionKind, Entry, entry, PartKind, Listed, PartItems, Part, part, payload};
ghost use Rattle.wasm_out.specs.Readable.{IsSpellable, AreSpellable, IsSpellablePart};
ghost use Rattle.wasm_out.specs.Reads.{Reads};

/// Theorem: a section that is filled item by item has the payload of the list of the items (binary
/// format: sections).
///
/// For example, two calls of `FunctionSection::function` make the payload of a section of two
/// functions.
pub fn building_law()
    ensures more { (kind : SectionKind) (items : List (Entry kind)) (item : Entry kind) →
        built_with (builder_of (entry kind) items) (entry kind item) ≡ builder_of (entry kind) (items ++ item ∷ []) }
    ensures payloads { (kind : SectionKind) (items : List (Entry kind)) →
        behind_count (builder_of (entry kind) items) ≡ (payload (Listed kind) items).bytes }
{}

/// Theorem: bytes begin with at most one section, and determine its items (binary format:
/// sections).
///
/// For example, `03 02 01 00` is a function section with one function of type 0, and nothing else.
pub fn part_spelling_law()
    ensures entries { (kind : SectionKind) → IsCode (Entry kind) (IsSpellable kind) (entry kind) }
    ensures payloads { (kind : PartKind) → IsWhole (PartItems kind) (AreSpellable kind) (λ x. (payload kind x).bytes) }
    ensures parts { IsCode Part IsSpellablePart part }
{}

/// Theorem: bytes are read as at most one list of sections, and at most one list of bytes is read
/// as the same sections (binary format: modules).
///
/// For example, two readers of the same bytes get the same sections.
pub fn reading_laws()
    ensures one_module { (bytes : List ℕ) (p q : List Part) → Reads bytes p → Reads bytes q → p ≡ q }
    ensures one_spelling { (b c : List ℕ) (p : List Part) → Reads b p → Reads c p → b ≡ c }
{}
