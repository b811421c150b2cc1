//! Theorems about the encodings: each value has exactly one, and none is the beginning of another.

ghost use Rattle.std.specs.Prelude.{◌≡◌, ℕ, ℤ, true, List, [], ◌++◌, Some};
ghost use Rattle.wasm_ops.specs.Codes.{IsCode, IsPrefixCode};
ghost use Rattle.wasm_ops.specs.ConstExprs.{IsExpression, expression};
ghost use Rattle.wasm_ops.specs.Control.{block_type, catch_clause};
ghost use Rattle.wasm_ops.specs.Entities.{entity_type, global_type, memory_type, table_type, tag_type};
ghost use Rattle.wasm_ops.specs.Leb128.{SpellsUnsigned, SpellsSigned, unsigned, signed};
ghost use Rattle.wasm_ops.specs.Spelling.{Any, name, InRangeName, export_kind, array_type, composite_type, field_type, func_type, heap_type, ref_type, storage_type, struct_type, sub_type, val_type};
ghost use Rattle.wasm_ops.specs.declared.opcodes.Opcode.TheVariants.{Byte};
ghost use Rattle.wasm_ops.specs.Table.{Instr, IsInstr, table, kinds_of, are_distinct, all_apart, instr};
ghost use Rattle.wasm_ops.specs.declared.blocks.Catch.{Catch};
ghost use Rattle.wasm_ops.specs.declared.types.ExportKind.{ExportKind};

/// Theorem: an unsigned number has one shortest encoding, and bytes begin with that of at most one
/// number (binary format: integers).
///
/// For example, `e5 8e 26` is the only encoding of 624485 that [`write_u32`](crate::write_u32) can
/// append, although LEB128 permits longer ones.
pub fn unsigned_law()
    ensures exists { (n : ℕ) → SpellsUnsigned (unsigned n) n }
    ensures only { (bytes : List ℕ) (n : ℕ) → SpellsUnsigned bytes n → bytes ≡ unsigned n }
    ensures begins { (m n : ℕ) (r s : List ℕ) → unsigned m ++ r ≡ unsigned n ++ s → (m ≡ n) × (r ≡ s) }
{}

/// Theorem: a signed number has one shortest encoding, and bytes begin with that of at most one
/// number (binary format: integers).
///
/// For example, `bf 7f` is the only encoding of -65 in the fewest bytes.
pub fn signed_law()
    ensures exists { (z : ℤ) → SpellsSigned (signed z) z }
    ensures only { (bytes : List ℕ) (z : ℤ) → SpellsSigned bytes z → bytes ≡ signed z }
    ensures begins { (y z : ℤ) (r s : List ℕ) → signed y ++ r ≡ signed z ++ s → (y ≡ z) × (r ≡ s) }
{}

/// Theorem: bytes begin with the encoding of at most one value of each kind: names, types, catch
/// clauses and kinds of exports (binary format: values, types).
///
/// For example, `64 70` is `(ref func)`, and no other value type begins with these bytes. Each
/// clause is restricted to values that the encoder supports.
pub fn type_spelling_law()
    ensures names { IsCode (List ℕ) InRangeName name }
    ensures heap_types { IsPrefixCode heap_type }
    ensures ref_types { IsPrefixCode ref_type }
    ensures val_types { IsPrefixCode val_type }
    ensures block_types { IsPrefixCode block_type }
    ensures catches { IsCode Catch (λ x. (catch_clause x).in_range) (λ x. (catch_clause x).bytes) }
    ensures storage_types { IsPrefixCode storage_type }
    ensures field_types { IsPrefixCode field_type }
    ensures export_kinds { IsCode ExportKind Any export_kind }
    ensures func_types { IsPrefixCode func_type }
    ensures struct_types { IsPrefixCode struct_type }
    ensures array_types { IsPrefixCode array_type }
    ensures composite_types { IsPrefixCode composite_type }
    ensures sub_types { IsPrefixCode sub_type }
    ensures table_types { IsPrefixCode table_type }
    ensures memory_types { IsPrefixCode memory_type }
    ensures global_types { IsPrefixCode global_type }
    ensures tag_types { IsPrefixCode tag_type }
    ensures entity_types { IsPrefixCode entity_type }
{}

/// Theorem: bytes begin with at most one instruction, and with at most one constant expression
/// (binary format: instructions, expressions).
///
/// For example, `fc 0a 03 04` is `memory.copy 3 4`, and nothing else. No two entries of the opcode
/// table have the same opcode, and no opcode of one byte is a prefix byte. The byte `0b`, which
/// ends an expression, is an entry without immediates.
pub fn instruction_law()
    ensures distinct { are_distinct table ≡ true }
    ensures apart { all_apart table ≡ true }
    ensures instructions { IsCode Instr IsInstr (λ x. (instr x).bytes) }
    ensures end { kinds_of (Byte 0x0b) table ≡ Some [] }
    ensures expressions { IsCode (List Instr) IsExpression (λ x. (expression x).bytes) }
{}
