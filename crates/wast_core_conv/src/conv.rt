//! Parts of a resolved module as values of the binary format.
//!
//! Every index in a part must be a number, each type use must have an index, and some calls need a
//! supported construct. After a successful `Module::resolve` of `wast_core` this is so, if the
//! module has no unsupported construct. A call that allocates fails with E12 if that fails.
//!
//!     let given = FunctionType::empty(alloc);
//!     let function = conv::func_type(alloc, &given).expect(&rt, "memory");

ghost use Rattle.std.specs.Prelude.{◌≡◌, Bool, true, map, option_map, IfOk, IfErr, IsTrue};
ghost use Rattle.std.specs.List.{All, flat_map, list_all};
ghost use Rattle.wast_base.specs.Ids.{is_number};
ghost use Rattle.wast_base.specs.Faults.{out_of_memory};
ghost use Rattle.wast_tree_nodes.specs.Sites.{in_heap, in_ref, in_val, in_param, in_storage, in_struct_field, in_array, in_struct, in_signature, in_inner, in_def, in_type};
ghost use Rattle.wast_tree_nodes.specs.Resolved.{are_numbered};
ghost use Rattle.wasm_ops.specs.ConstExprs as encodings;
ghost use Rattle.wasm_ops.specs.Table.{instrs, instr};
ghost use Rattle.wasm_out.specs.Built.{IsRefused};
ghost use Rattle.wast_core_conv.specs.Encodable.{is_number_if, is_encodable_instr, is_encodable_expression};
ghost use Rattle.wast_core_conv.specs.Meaning as meaning;

pub use crate::conv_entities::{entity_type, global_type, memory_type, table_type, tag_type};
pub use crate::conv_handles::Handles;
pub use crate::conv_immediates::{
    block_type, catch, handle, handles, mem_arg, memory_arg, table_arg,
};
pub use crate::conv_vectors::{
    array_fill, lane_arg, mem_arg_ordering, ordering, shuffle, v128_const,
};
use crate::values::Resolved;
use std::alloc::Global;
use wasm_ops::{
    CompositeInnerType, CompositeType, ConstExpr, ContType, Each, Encode, FuncType, StructType,
    SubType,
};
use wast_base::{Error, Id, Index, NameAnnotation, Seq};
use wast_tree_nodes::{Expression, FunctionType, InnerTypeKind, Instruction, Type, TypeDef};

/// A part of the tree that converts to a value of the binary format without allocating.
pub(crate) trait Convert {
    /// The type of the value.
    type Out: Drop;

    ghost becomes: { Self → Self.Out };

    /// Whether the indices in the part are numbers.
    ghost is_ready: { Self → Bool };

    fn convert(&self) -> Self::Out
        requires { IsTrue (is_ready self.now) }
        ensures { result ≡ becomes self.now };
}

/// Converts each item of a list.
pub(crate) fn converted<'e, T: Convert>(
    alloc: Global,
    items: &[T],
) -> Result<Seq<T::Out>, Error<'e>>
    requires { IsTrue (list_all T.is_ready items.now) }
    ensures list { IfOk result (λ made. made ≡ map T.becomes items.now) }
    ensures refusal { IfErr result (λ e. e ≡ out_of_memory) }
{
    let mut made = Seq::new(alloc);
    for item in items {
        made.push(item.convert())?;
    }
    Ok(made)
}

/// Returns the number of a resolved index (text format: indices). For example, the index `3` in
/// `(start 3)` has the number 3.
pub fn index(index: &Index) -> u32
    requires { IsTrue (is_number index.now) }
    ensures { result ≡ meaning.index_value index.now }
{
    match index {
        Index::Num(number, _) => *number,
        Index::Id(_) => unreachable!(),
    }
}

impl Convert for Index<'_> {
    type Out = u32;

    ghost becomes = { meaning.index_value };

    ghost is_ready = { is_number };

    fn convert(&self) -> u32 {
        index(self)
    }
}

fn abstract_type(ty: wast_tree_nodes::AbstractHeapType) -> wasm_ops::AbstractHeapType
    ensures { result ≡ meaning.as_abstract_type ty }
{
    match ty {
        wast_tree_nodes::AbstractHeapType::Func => wasm_ops::AbstractHeapType::Func,
        wast_tree_nodes::AbstractHeapType::Extern => wasm_ops::AbstractHeapType::Extern,
        wast_tree_nodes::AbstractHeapType::Exn => wasm_ops::AbstractHeapType::Exn,
        wast_tree_nodes::AbstractHeapType::NoExn => wasm_ops::AbstractHeapType::NoExn,
        wast_tree_nodes::AbstractHeapType::Any => wasm_ops::AbstractHeapType::Any,
        wast_tree_nodes::AbstractHeapType::Eq => wasm_ops::AbstractHeapType::Eq,
        wast_tree_nodes::AbstractHeapType::Struct => wasm_ops::AbstractHeapType::Struct,
        wast_tree_nodes::AbstractHeapType::Array => wasm_ops::AbstractHeapType::Array,
        wast_tree_nodes::AbstractHeapType::NoFunc => wasm_ops::AbstractHeapType::NoFunc,
        wast_tree_nodes::AbstractHeapType::NoExtern => wasm_ops::AbstractHeapType::NoExtern,
        wast_tree_nodes::AbstractHeapType::None => wasm_ops::AbstractHeapType::None,
        wast_tree_nodes::AbstractHeapType::I31 => wasm_ops::AbstractHeapType::I31,
        wast_tree_nodes::AbstractHeapType::Cont => wasm_ops::AbstractHeapType::Cont,
        wast_tree_nodes::AbstractHeapType::NoCont => wasm_ops::AbstractHeapType::NoCont,
    }
}

/// Converts a heap type (binary format: heap types). For example, `func` becomes
/// `HeapType::Abstract`, and the type index `3` becomes `HeapType::Concrete(3)`.
pub fn heap_type(ty: &wast_tree_nodes::HeapType) -> wasm_ops::HeapType
    requires { IsTrue (are_numbered (in_heap ty.now)) }
    ensures { result ≡ meaning.as_heap_type ty.now }
{
    match ty {
        wast_tree_nodes::HeapType::Abstract { shared, ty } => wasm_ops::HeapType::Abstract {
            shared: *shared,
            ty: abstract_type(*ty),
        },
        wast_tree_nodes::HeapType::Concrete(of) => wasm_ops::HeapType::Concrete(index(of)),
        wast_tree_nodes::HeapType::Exact(of) => wasm_ops::HeapType::Exact(index(of)),
    }
}

/// Converts a reference type (binary format: reference types). For example, `externref` becomes a
/// nullable reference to `extern`.
pub fn ref_type(ty: &wast_tree_nodes::RefType) -> wasm_ops::RefType
    requires { IsTrue (are_numbered (in_ref ty.now)) }
    ensures { result ≡ meaning.as_ref_type ty.now }
{
    wasm_ops::RefType {
        nullable: ty.nullable,
        heap_type: heap_type(&ty.heap),
    }
}

/// Converts a value type (binary format: value types). For example, `i32` becomes `ValType::I32`.
pub fn val_type(ty: &wast_tree_nodes::ValType) -> wasm_ops::ValType
    requires { IsTrue (are_numbered (in_val ty.now)) }
    ensures { result ≡ meaning.as_val_type ty.now }
{
    match ty {
        wast_tree_nodes::ValType::I32 => wasm_ops::ValType::I32,
        wast_tree_nodes::ValType::I64 => wasm_ops::ValType::I64,
        wast_tree_nodes::ValType::F32 => wasm_ops::ValType::F32,
        wast_tree_nodes::ValType::F64 => wasm_ops::ValType::F64,
        wast_tree_nodes::ValType::V128 => wasm_ops::ValType::V128,
        wast_tree_nodes::ValType::Ref(ty) => wasm_ops::ValType::Ref(ref_type(ty)),
    }
}

/// Converts the storage type of a struct field or an array element (binary format: composite
/// types). For example, `i8` becomes `StorageType::I8`.
pub fn storage_type(ty: &wast_tree_nodes::StorageType) -> wasm_ops::StorageType
    requires { IsTrue (are_numbered (in_storage ty.now)) }
    ensures { result ≡ meaning.as_storage_type ty.now }
{
    match ty {
        wast_tree_nodes::StorageType::I8 => wasm_ops::StorageType::I8,
        wast_tree_nodes::StorageType::I16 => wasm_ops::StorageType::I16,
        wast_tree_nodes::StorageType::Val(ty) => wasm_ops::StorageType::Val(val_type(ty)),
    }
}

/// Converts a field of a struct type (binary format: composite types). For example, `(mut i16)`
/// becomes a mutable field of `StorageType::I16`.
pub fn field_type(field: &wast_tree_nodes::StructField) -> wasm_ops::FieldType
    requires { IsTrue (are_numbered (in_struct_field field.now)) }
    ensures { result ≡ meaning.as_field_type field.now }
{
    wasm_ops::FieldType {
        element_type: storage_type(&field.ty),
        mutable: field.mutable,
    }
}

/// Converts an array type (binary format: composite types).
///
///     let array = conv::array_type(&ArrayType {
///         mutable: true,
///         ty: StorageType::I8,
///     });
///     assert!(rt; array.0.mutable && array.0.element_type == wasm_ops::StorageType::I8);
pub fn array_type(ty: &wast_tree_nodes::ArrayType) -> wasm_ops::ArrayType
    requires { IsTrue (are_numbered (in_array ty.now)) }
    ensures { result ≡ meaning.as_array_type ty.now }
{
    wasm_ops::ArrayType(wasm_ops::FieldType {
        element_type: storage_type(&ty.ty),
        mutable: ty.mutable,
    })
}

impl Convert for wast_tree_nodes::ValType<'_> {
    type Out = wasm_ops::ValType;

    ghost becomes = { meaning.as_val_type };

    ghost is_ready = { λ t. are_numbered (in_val t) };

    fn convert(&self) -> wasm_ops::ValType {
        val_type(self)
    }
}

impl<'a> Convert
    for (
        Option<Id<'a>>,
        Option<NameAnnotation<'a>>,
        wast_tree_nodes::ValType<'a>,
    ) {
    type Out = wasm_ops::ValType;

    ghost becomes = { λ p. meaning.as_val_type p.2 };

    ghost is_ready = { λ p. are_numbered (in_param p) };

    fn convert(&self) -> wasm_ops::ValType {
        val_type(&self.2)
    }
}

impl Convert for wast_tree_nodes::StructField<'_> {
    type Out = wasm_ops::FieldType;

    ghost becomes = { meaning.as_field_type };

    ghost is_ready = { λ f. are_numbered (in_struct_field f) };

    fn convert(&self) -> wasm_ops::FieldType {
        field_type(self)
    }
}

/// Converts a function type (binary format: composite types). The ids of its parameters are left
/// out.
///
///     let made = conv::func_type(alloc, &function).expect(&rt, "memory");
///     assert!(rt; made.params.as_slice() == [wasm_ops::ValType::I32].as_slice());
///     assert!(rt; made.results.as_slice() == [wasm_ops::ValType::F32].as_slice());
pub fn func_type<'e>(alloc: Global, ty: &FunctionType) -> Result<FuncType, Error<'e>>
    requires { IsTrue (are_numbered (in_signature ty.now)) }
    ensures value { IfOk result (λ made. made ≡ meaning.as_func_type ty.now) }
    ensures refusal { IfErr result (λ e. e ≡ out_of_memory) }
{
    let params = converted(alloc, ty.params.as_slice())?;
    let results = converted(alloc, ty.results.as_slice())?;
    Ok(FuncType { params, results })
}

/// Converts a struct type (binary format: composite types).
///
///     let structure = conv::struct_type(alloc, &given).expect(&rt, "memory");
///     assert!(rt; structure.fields.as_slice() == [want].as_slice());
pub fn struct_type<'e>(
    alloc: Global,
    ty: &wast_tree_nodes::StructType,
) -> Result<StructType, Error<'e>>
    requires { IsTrue (are_numbered (in_struct ty.now)) }
    ensures value { IfOk result (λ made. made ≡ meaning.as_struct_type ty.now) }
    ensures refusal { IfErr result (λ e. e ≡ out_of_memory) }
{
    let fields = converted(alloc, ty.fields.as_slice())?;
    Ok(StructType { fields })
}

/// Converts a continuation type: the index of its function type (stack switching).
///
///     let of = Index::Num(3, at(0));
///     assert!(rt; conv::cont_type(&ContType(of)) == wasm_ops::ContType(3));
pub fn cont_type(ty: &wast_tree_nodes::ContType) -> ContType
    requires { IsTrue (is_number ty.now.0) }
    ensures { result ≡ meaning.as_cont_type ty.now }
{
    ContType(index(&ty.0))
}

fn inner_type<'e>(alloc: Global, kind: &InnerTypeKind) -> Result<CompositeInnerType, Error<'e>>
    requires { IsTrue (are_numbered (in_inner kind.now)) }
    ensures value { IfOk result (λ made. made ≡ meaning.as_inner_type kind.now) }
    ensures refusal { IfErr result (λ e. e ≡ out_of_memory) }
{
    match kind {
        InnerTypeKind::Func(ty) => Ok(CompositeInnerType::Func(func_type(alloc, ty)?)),
        InnerTypeKind::Struct(ty) => Ok(CompositeInnerType::Struct(struct_type(alloc, ty)?)),
        InnerTypeKind::Array(ty) => Ok(CompositeInnerType::Array(array_type(ty))),
        InnerTypeKind::Cont(ty) => Ok(CompositeInnerType::Cont(cont_type(ty))),
    }
}

pub(crate) fn optional_index(optional: &Option<Index>) -> Option<u32>
    requires { IsTrue (is_number_if optional.now) }
    ensures { result ≡ option_map meaning.index_value optional.now }
{
    match optional {
        None => None,
        Some(some) => Some(index(some)),
    }
}

/// Converts a type definition: its composite type, its supertypes, and whether it is final (binary
/// format: recursive types).
///
///     let made = conv::sub_type(alloc, &ty.def).expect(&rt, "memory");
///     assert!(rt; !made.is_final && made.supertype_idxs.as_slice() == [3].as_slice());
///
/// A definition without `sub` is final, because `(type (func))` abbreviates `(type (sub final
/// (func)))`.
pub fn sub_type<'e>(alloc: Global, ty: &TypeDef) -> Result<SubType, Error<'e>>
    requires { IsTrue (are_numbered (in_def ty.now)) }
    ensures value { IfOk result (λ made. made ≡ meaning.as_sub_type ty.now) }
    ensures refusal { IfErr result (λ e. e ≡ out_of_memory) }
{
    let inner = inner_type(alloc, &ty.kind)?;
    let supertype_idxs = converted(alloc, ty.parents.as_slice())?;
    Ok(SubType {
        composite_type: CompositeType {
            inner,
            shared: ty.shared,
            descriptor: optional_index(&ty.descriptor),
            describes: optional_index(&ty.describes),
        },
        is_final: ty.final_type.unwrap_or(true),
        supertype_idxs,
    })
}

/// Converts each type of a recursion group.
pub(crate) fn group<'e>(alloc: Global, types: &[Type]) -> Result<Seq<SubType>, Error<'e>>
    requires { IsTrue (list_all (λ t. are_numbered (in_type t)) types.now) }
    ensures value { IfOk result (λ made. made ≡ map (λ t. meaning.as_sub_type t.def) types.now) }
    ensures refusal { IfErr result (λ e. e ≡ out_of_memory) }
{
    let mut made = Seq::new(alloc);
    for ty in types {
        made.push(sub_type(alloc, &ty.def)?)?;
    }
    Ok(made)
}

/// Converts the kind of an exported item (binary format: export section). For example, the kind of
/// `(export "a" (func 2))` becomes `ExportKind::Func`.
pub fn export_kind(kind: wast_tree_nodes::ExportKind) -> wasm_ops::ExportKind
    ensures { result ≡ meaning.as_export_kind kind }
{
    match kind {
        wast_tree_nodes::ExportKind::Func => wasm_ops::ExportKind::Func,
        wast_tree_nodes::ExportKind::Table => wasm_ops::ExportKind::Table,
        wast_tree_nodes::ExportKind::Memory => wasm_ops::ExportKind::Memory,
        wast_tree_nodes::ExportKind::Global => wasm_ops::ExportKind::Global,
        wast_tree_nodes::ExportKind::Tag => wasm_ops::ExportKind::Tag,
    }
}

/// Returns the bytes of instructions.
fn instrs_bytes<'e>(alloc: Global, instructions: &[Instruction]) -> Result<Vec<u8>, Error<'e>>
    requires { IsTrue (list_all is_encodable_instr instructions.now) }
    ensures value { IfOk result (λ made.
        (made.items ≡ flat_map (λ i. (instr (meaning.as_instr i)).bytes) instructions.now)
        × All (λ i. (instr (meaning.as_instr i)).in_range) instructions.now) }
    ensures refusal { IfErr result (IsRefused (All (λ i. (instr (meaning.as_instr i)).in_range) instructions.now)) }
{
    let mut bytes = Vec::new(alloc);
    Each(instructions, Resolved).encode(&mut bytes)?;
    Ok(bytes)
}

/// Converts a constant expression: its instructions as bytes (binary format: expressions). Encoding
/// the result appends the final `end`.
///
///     let expression = conv::const_expr(alloc, &given).expect(&rt, "memory");
///     let mut bytes = Vec::new(alloc);
///     assert!(rt; expression.encode(&mut bytes).is_ok());
///     assert!(rt; bytes.as_slice() == [0x41, 8, 0x0b].as_slice());
///
/// Its blocks must be balanced.
///
/// # Errors
///
/// E10, only if a number in an instruction is out of range.
pub fn const_expr<'e>(alloc: Global, expression: &Expression) -> Result<ConstExpr, Error<'e>>
    requires { IsTrue (is_encodable_expression expression.now) }
    ensures value { IfOk result (λ made.
        (made ≡ instrs (meaning.as_expression expression.now))
        × (encodings.expression (meaning.as_expression expression.now)).in_range) }
    ensures refusal { IfErr result (IsRefused (encodings.expression (meaning.as_expression expression.now)).in_range) }
{
    let bytes = instrs_bytes(alloc, expression.instrs.as_slice())?;
    Ok(ConstExpr::raw(bytes))
}
