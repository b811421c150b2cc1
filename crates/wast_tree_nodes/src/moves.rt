//! Functions that append, take out and drop parts of the AST. Code that drops a tree has to prove
//! all drop functions again, so the crates above call these, which are proved once.

ghost use Rattle.std.specs.Prelude.{◌≡◌, [], ◌∷◌, ◌++◌, IfOk, OnOk, OnErr, IfErr};
ghost use Rattle.wast_base.specs.Faults.{out_of_memory};
ghost use Rattle.wast_tree_nodes.specs.Tree.field;
ghost use Rattle.wast_tree_nodes.specs.Tree.index;
ghost use Rattle.wast_tree_nodes.specs.Types.{said_once};

use crate::customs::Dylink0Subsection;
use crate::entities::TagType;
use crate::fields::{Func, FuncKind, InlineExport, ModuleField};
use crate::immediates::BlockType;
use crate::imports::ItemKind;
use crate::instrs::{Expression, Instruction};
use crate::segments::{DataVal, ElemPayload};
use crate::types::{FunctionType, Type, TypeUse};
use std::alloc::Global;
use wast_base::{Boxed, Error, Index, Seq, Span};

/// Appends a field to a list.
#[inline(always)]
pub fn push_field<'a, 'e>(
    fields: &mut Seq<ModuleField<'a>>,
    field: ModuleField<'a>,
) -> Result<(), Error<'e>>
    ensures pushed { OnOk result (fields.new ≡ fields.old ++ field.entry ∷ []) }
    ensures unchanged { OnErr result (fields.new ≡ fields.old) }
    ensures refusal { IfErr result (λ e. e ≡ out_of_memory) }
{
    fields.push(field)?;
    Ok(())
}

/// Appends an instruction to a list.
#[inline(always)]
pub fn push_instruction<'a, 'e>(
    instrs: &mut Seq<Instruction<'a>>,
    instruction: Instruction<'a>,
) -> Result<(), Error<'e>>
    ensures pushed { OnOk result (instrs.new ≡ instrs.old ++ instruction.entry ∷ []) }
    ensures unchanged { OnErr result (instrs.new ≡ instrs.old) }
    ensures refusal { IfErr result (λ e. e ≡ out_of_memory) }
{
    instrs.push(instruction)?;
    Ok(())
}

/// Appends a type to a list.
#[inline(always)]
pub fn push_type<'a, 'e>(types: &mut Seq<Type<'a>>, ty: Type<'a>) -> Result<(), Error<'e>>
    ensures pushed { OnOk result (types.new ≡ types.old ++ ty.entry ∷ []) }
    ensures unchanged { OnErr result (types.new ≡ types.old) }
    ensures refusal { IfErr result (λ e. e ≡ out_of_memory) }
{
    types.push(ty)?;
    Ok(())
}

/// Appends an expression to a list.
#[inline(always)]
pub fn push_expression<'a, 'e>(
    exprs: &mut Seq<Expression<'a>>,
    expression: Expression<'a>,
) -> Result<(), Error<'e>>
    ensures pushed { OnOk result (exprs.new ≡ exprs.old ++ expression.entry ∷ []) }
    ensures unchanged { OnErr result (exprs.new ≡ exprs.old) }
    ensures refusal { IfErr result (λ e. e ≡ out_of_memory) }
{
    exprs.push(expression)?;
    Ok(())
}

/// Appends a piece of a data segment to a list.
#[inline(always)]
pub fn push_data<'a, 'e>(pieces: &mut Seq<DataVal<'a>>, piece: DataVal<'a>) -> Result<(), Error<'e>>
    ensures pushed { OnOk result (pieces.new ≡ pieces.old ++ piece.entry ∷ []) }
    ensures unchanged { OnErr result (pieces.new ≡ pieces.old) }
    ensures refusal { IfErr result (λ e. e ≡ out_of_memory) }
{
    pieces.push(piece)?;
    Ok(())
}

/// Appends a subsection of `dylink.0` to a list.
#[inline(always)]
pub fn push_subsection<'a, 'e>(
    subsections: &mut Seq<Dylink0Subsection<'a>>,
    subsection: Dylink0Subsection<'a>,
) -> Result<(), Error<'e>>
    ensures pushed { OnOk result (subsections.new ≡ subsections.old ++ subsection.entry ∷ []) }
    ensures unchanged { OnErr result (subsections.new ≡ subsections.old) }
    ensures refusal { IfErr result (λ e. e ≡ out_of_memory) }
{
    subsections.push(subsection)?;
    Ok(())
}

/// Moves a block's label and type into a new box.
#[inline(always)]
pub fn boxed_block<'a, 'e>(
    alloc: Global,
    block: BlockType<'a>,
) -> Result<Boxed<BlockType<'a>>, Error<'e>>
    ensures made { IfOk result (λ made. made ≡ block.entry) }
    ensures refusal { IfErr result (λ e. e ≡ out_of_memory) }
{
    Ok(Boxed::new(alloc, block)?)
}

/// Makes an empty list of fields, with room for `capacity` fields.
///
///     let mut fields = fields_with_capacity(alloc, 2).expect(rt, "memory");
pub fn fields_with_capacity<'a, 'e>(
    alloc: Global,
    capacity: usize,
) -> Result<Seq<ModuleField<'a>>, Error<'e>>
    ensures list { IfOk result (λ fields. fields ≡ []) }
    ensures refusal { IfErr result (λ e. e ≡ out_of_memory) }
{
    Ok(Seq::from_vec(Vec::with_capacity(alloc, capacity)?))
}

/// Takes a field out of its list, and leaves `(start 0)` there.
#[inline(always)]
pub fn take_field<'a>(place: &mut ModuleField<'a>) -> ModuleField<'a>
    ensures taken { result ≡ place.old }
    ensures left { place.new ≡ field.Start (index.Num 0 (record { offset = 0 })) }
{
    std::mem::replace(place, ModuleField::Start(Index::Num(0, Span { offset: 0 })))
}

/// Drops a list of fields.
pub fn discard_fields(fields: Seq<ModuleField<'_>>) {
    drop(fields);
}

/// Drops a field.
pub fn discard_field(field: ModuleField<'_>) {
    drop(field);
}

/// Drops a function.
pub fn discard_func(func: Func<'_>) {
    drop(func);
}

/// Drops the locals and body of a function.
pub fn discard_func_kind(kind: FuncKind<'_>) {
    drop(kind);
}

/// Drops the kind of an imported item.
pub fn discard_item_kind(kind: ItemKind<'_>) {
    drop(kind);
}

/// Drops the type of a tag.
pub fn discard_tag_type(ty: TagType<'_>) {
    drop(ty);
}

/// Drops an instruction.
pub fn discard_instruction(instruction: Instruction<'_>) {
    drop(instruction);
}

/// Drops an expression.
pub fn discard_expression(expression: Expression<'_>) {
    drop(expression);
}

/// Drops the inline exports of a field.
pub fn discard_exports(exports: InlineExport<'_>) {
    drop(exports);
}

/// Drops a type use.
pub fn discard_type_use<'a>(ty: TypeUse<'a, FunctionType<'a>>) {
    drop(ty);
}

/// Drops the inline type of a type use that also has an index. Other type uses are unchanged.
///
/// For example, `(type $t) (result i32)` becomes `(type $t)`.
pub fn discard_said_inline<'a>(ty: &mut TypeUse<'a, FunctionType<'a>>)
    ensures { ty.new ≡ said_once ty.old }
{
    if ty.index.is_some() {
        ty.inline = None;
    }
}

/// Drops a function type.
pub fn discard_function_type(ty: FunctionType<'_>) {
    drop(ty);
}

/// Drops a type definition.
pub fn discard_type(ty: Type<'_>) {
    drop(ty);
}

/// Drops the elements of a segment.
pub fn discard_elem_payload(payload: ElemPayload<'_>) {
    drop(payload);
}

/// Drops the bytes of a data segment.
pub fn discard_data(bytes: Seq<DataVal<'_>>) {
    drop(bytes);
}
