//! Types, bodies and exports of a resolved module as bytes.

ghost use Rattle.std.specs.Prelude.{IsTrue};
ghost use Rattle.std.specs.List.{list_all};
ghost use Rattle.wast_base.specs.Ids.{is_number};
ghost use Rattle.wast_tree_nodes.specs.Sites.{in_val, in_param, in_signature, in_struct_field, in_struct, in_array, in_inner, in_def, in_local};
ghost use Rattle.wasm_ops.specs.Leb128.{unsigned};
ghost use Rattle.wasm_ops.specs.Sinks.{Writes};
ghost use Rattle.wasm_ops.specs.Spelling as spelling;
ghost use Rattle.wasm_ops.specs.Spelling.{InRangeU32};
ghost use Rattle.wasm_out.specs.Bodies.{body_content};
ghost use Rattle.wasm_out.specs.Parts.{export_entry};
ghost use Rattle.wast_core_conv.specs.Encodable.{are_encodable, is_encodable_type, is_encodable_type_use, is_encodable_instr, is_encodable_kind};
ghost use Rattle.wast_core_conv.specs.Meaning as meaning;

use crate::conv;
use crate::conv_entities::type_index;
use wasm_ops::{Counted, Each, Encode, EncodeWith, EncodedBy, Name, Refusal, Sink};
use wasm_out::{LocalType, Locals};
use wast_base::{Id, Index, NameAnnotation};
use wast_tree_nodes::{
    ArrayType, Export, FuncKind, FunctionType, InnerTypeKind, Instruction, Local, StructField,
    StructType, Type, TypeDef, TypeUse, ValType,
};

/// Writes parts of a resolved module as bytes, with the number of each index (binary format). The
/// parts must have no unsupported construct.
///
/// `Each(items, Resolved)` writes a list of items one after another, and `Counted(items, Resolved)`
/// writes their number first. For example, `Counted(&exports, Resolved)` writes the content of an
/// export section.
#[derive(Clone, Copy)]
pub struct Resolved;

/// An index, by its number (binary format: indices).
impl EncodeWith<Index<'_>> for Resolved {
    ghost spelling = { λ _ i. unsigned (meaning.index_value i) };

    ghost in_range = { λ _ i. InRangeU32 (meaning.index_value i) };

    ghost is_ready = { λ _ i. is_number i };

    fn spell<S: Sink>(&self, index: &Index, out: &mut S) -> Result<(), Refusal> {
        conv::index(index).encode(out)
    }
}

/// A value type (binary format: value types).
impl EncodeWith<ValType<'_>> for Resolved {
    ghost spelling = { λ _ t. (spelling.val_type (meaning.as_val_type t)).bytes };

    ghost in_range = { λ _ t. (spelling.val_type (meaning.as_val_type t)).in_range };

    ghost is_ready = { λ _ t. are_encodable (in_val t) };

    fn spell<S: Sink>(&self, ty: &ValType, out: &mut S) -> Result<(), Refusal> {
        conv::val_type(ty).encode(out)
    }
}

/// A parameter, by its type (binary format: composite types).
impl<'a> EncodeWith<(Option<Id<'a>>, Option<NameAnnotation<'a>>, ValType<'a>)> for Resolved {
    ghost spelling = { λ _ p. (spelling.val_type (meaning.as_val_type p.2)).bytes };

    ghost in_range = { λ _ p. (spelling.val_type (meaning.as_val_type p.2)).in_range };

    ghost is_ready = { λ _ p. are_encodable (in_param p) };

    fn spell<S: Sink>(
        &self,
        param: &(Option<Id<'a>>, Option<NameAnnotation<'a>>, ValType<'a>),
        out: &mut S,
    ) -> Result<(), Refusal> {
        self.spell(&param.2, out)
    }
}

/// A function type (binary format: composite types).
impl EncodeWith<FunctionType<'_>> for Resolved {
    ghost spelling = { λ _ t. (spelling.func_type (meaning.as_func_type t)).bytes };

    ghost in_range = { λ _ t. (spelling.func_type (meaning.as_func_type t)).in_range };

    ghost is_ready = { λ _ t. are_encodable (in_signature t) };

    fn spell<S: Sink>(&self, ty: &FunctionType, out: &mut S) -> Result<(), Refusal> {
        let params = Counted(ty.params.as_slice(), Resolved);
        let results = Counted(ty.results.as_slice(), Resolved);
        (0x60u8, (params, results)).encode(out)
    }
}

/// A field of a struct (binary format: composite types).
impl EncodeWith<StructField<'_>> for Resolved {
    ghost spelling = { λ _ f. (spelling.field_type (meaning.as_field_type f)).bytes };

    ghost in_range = { λ _ f. (spelling.field_type (meaning.as_field_type f)).in_range };

    ghost is_ready = { λ _ f. are_encodable (in_struct_field f) };

    fn spell<S: Sink>(&self, field: &StructField, out: &mut S) -> Result<(), Refusal> {
        conv::field_type(field).encode(out)
    }
}

/// A struct type (binary format: composite types).
impl EncodeWith<StructType<'_>> for Resolved {
    ghost spelling = { λ _ t. (spelling.struct_type (meaning.as_struct_type t)).bytes };

    ghost in_range = { λ _ t. (spelling.struct_type (meaning.as_struct_type t)).in_range };

    ghost is_ready = { λ _ t. are_encodable (in_struct t) };

    fn spell<S: Sink>(&self, ty: &StructType, out: &mut S) -> Result<(), Refusal> {
        (0x5fu8, Counted(ty.fields.as_slice(), Resolved)).encode(out)
    }
}

/// An array type (binary format: composite types).
impl EncodeWith<ArrayType<'_>> for Resolved {
    ghost spelling = { λ _ t. (spelling.array_type (meaning.as_array_type t)).bytes };

    ghost in_range = { λ _ t. (spelling.array_type (meaning.as_array_type t)).in_range };

    ghost is_ready = { λ _ t. are_encodable (in_array t) };

    fn spell<S: Sink>(&self, ty: &ArrayType, out: &mut S) -> Result<(), Refusal> {
        conv::array_type(ty).encode(out)
    }
}

/// A composite type (binary format: composite types).
impl EncodeWith<InnerTypeKind<'_>> for Resolved {
    ghost spelling = { λ _ k. (spelling.composite_inner_type (meaning.as_inner_type k)).bytes };

    ghost in_range = { λ _ k. (spelling.composite_inner_type (meaning.as_inner_type k)).in_range };

    ghost is_ready = { λ _ k. are_encodable (in_inner k) };

    fn spell<S: Sink>(&self, kind: &InnerTypeKind, out: &mut S) -> Result<(), Refusal> {
        match kind {
            InnerTypeKind::Func(ty) => self.spell(ty, out),
            InnerTypeKind::Struct(ty) => self.spell(ty, out),
            InnerTypeKind::Array(ty) => self.spell(ty, out),
            InnerTypeKind::Cont(_) => unreachable!(),
        }
    }
}

/// A type definition (binary format: recursive types). A final type without supertypes is written
/// as its composite type alone.
impl EncodeWith<TypeDef<'_>> for Resolved {
    ghost spelling = { λ _ d. (spelling.sub_type (meaning.as_sub_type d)).bytes };

    ghost in_range = { λ _ d. (spelling.sub_type (meaning.as_sub_type d)).in_range };

    ghost is_ready = { λ _ d. are_encodable (in_def d) };

    fn spell<S: Sink>(&self, def: &TypeDef, out: &mut S) -> Result<(), Refusal> {
        let parents = Counted(def.parents.as_slice(), Resolved);
        let kind = EncodedBy(&def.kind, Resolved);
        if !def.final_type.unwrap_or(true) {
            return (0x50u8, (parents, kind)).encode(out);
        }
        if def.parents.is_empty() {
            return kind.encode(out);
        }
        (0x4fu8, (parents, kind)).encode(out)
    }
}

/// A type, by its definition (binary format: recursive types).
impl EncodeWith<Type<'_>> for Resolved {
    ghost spelling = { λ _ t. (spelling.sub_type (meaning.as_sub_type t.def)).bytes };

    ghost in_range = { λ _ t. (spelling.sub_type (meaning.as_sub_type t.def)).in_range };

    ghost is_ready = { λ _ t. is_encodable_type t };

    fn spell<S: Sink>(&self, ty: &Type, out: &mut S) -> Result<(), Refusal> {
        self.spell(&ty.def, out)
    }
}

/// A type use, by the index of its type (binary format: function section).
impl EncodeWith<TypeUse<'_, FunctionType<'_>>> for Resolved {
    ghost spelling = { λ _ u. unsigned (meaning.type_index u) };

    ghost in_range = { λ _ u. InRangeU32 (meaning.type_index u) };

    ghost is_ready = { λ _ u. is_encodable_type_use u };

    fn spell<S: Sink>(&self, type_use: &TypeUse<FunctionType>, out: &mut S) -> Result<(), Refusal> {
        type_index(type_use).encode(out)
    }
}

/// A local, by its type (binary format: code section).
impl LocalType<Local<'_>> for Resolved {
    ghost ty = { λ _ l. meaning.as_val_type l.ty };

    ghost is_ready = { λ _ l. are_encodable (in_local l) };

    fn local_type(&self, local: &Local) -> wasm_ops::ValType {
        conv::val_type(&local.ty)
    }
}

/// Writes a function body without its length.
fn put_content<S: Sink>(
    locals: &[Local],
    instructions: &[Instruction],
    out: &mut S,
) -> Result<(), Refusal>
    requires locals { IsTrue (list_all (λ l. are_encodable (in_local l)) locals.now) }
    requires instrs { IsTrue (list_all is_encodable_instr instructions.now) }
    ensures { Writes S.rules (body_content (meaning.body_of locals.now instructions.now)).in_range
        out.old out.new (body_content (meaning.body_of locals.now instructions.now)).bytes result }
{
    (
        Locals(locals, Resolved),
        (Each(instructions, Resolved), 0x0bu8),
    )
        .encode(out)
}

/// A function body without its length (binary format: code section).
impl EncodeWith<FuncKind<'_>> for Resolved {
    ghost spelling = { λ _ k. (body_content (meaning.as_body k)).bytes };

    ghost in_range = { λ _ k. (body_content (meaning.as_body k)).in_range };

    ghost is_ready = { λ _ k. is_encodable_kind k };

    fn spell<S: Sink>(&self, kind: &FuncKind, out: &mut S) -> Result<(), Refusal> {
        match kind {
            FuncKind::Import(..) => unreachable!(),
            FuncKind::Inline { locals, expression } => {
                put_content(locals.as_slice(), expression.instrs.as_slice(), out)
            }
        }
    }
}

/// An entry of the export section (binary format: export section).
impl EncodeWith<Export<'_>> for Resolved {
    ghost spelling = { λ _ e. (export_entry (meaning.as_export e)).bytes };

    ghost in_range = { λ _ e. (export_entry (meaning.as_export e)).in_range };

    ghost is_ready = { λ _ e. is_number e.item };

    fn spell<S: Sink>(&self, export: &Export, out: &mut S) -> Result<(), Refusal> {
        let item = (conv::export_kind(export.kind), conv::index(&export.item));
        (Name(export.name), item).encode(out)
    }
}
