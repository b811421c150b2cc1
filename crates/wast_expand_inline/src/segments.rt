//! The segments of inline data and elements, and the types of the memories and tables that hold
//! them.

ghost use Rattle.std.specs.Prelude.{◌≡◌, ◌<◌, ◌^◌, length, Some, None, IsTrue, IfOk, IfErr};
ghost use Rattle.std.specs.Int.{div_ceil};
ghost use Rattle.wast_tree_nodes.specs.DataBytes.{all_bytes};
ghost use Rattle.wast_base.specs.Faults.{too_large, out_of_memory};
ghost use Rattle.wast_expand_inline.specs.Tree.field;
ghost use Rattle.wast_expand_inline.specs.Tree.data_kind;
ghost use Rattle.wast_expand_inline.specs.Tree.elem as elem_kind;
ghost use Rattle.wast_expand_inline.specs.Segments.{at_zero, element_count, page_count, filled_memory_type, filled_table_type, are_too_many};
ghost use Rattle.wast_expand_inline.specs.Written.{IsRefusedWhere};

use std::alloc::Global;
use wast_base::{Error, Fault, Index, Seq, Span};
use wast_tree_nodes::{
    Data, DataKind, DataVal, Elem, ElemKind, ElemPayload, Expression, Instruction, Limits,
    MemoryType, ModuleField, RefType, TableType,
};

/// Returns the number of bytes in all pieces. Fails with E10 if they are 2^32 or more.
fn byte_count<'e>(pieces: &[DataVal<'_>]) -> Result<u64, Error<'e>>
    ensures ok { IfOk result (λ n. n ≡ length (all_bytes pieces.now)) }
    ensures few { IfOk result (λ n. n < 2 ^ 32) }
    ensures refusal { IfErr result (λ e. (e ≡ too_large) × IsTrue (are_too_many pieces.now)) }
{
    let mut count: u64 = 0;
    for piece in pieces {
        let more = piece.len() as u64;
        if more > 0xffff_ffff - count {
            return Err(Error::refusal(Fault::TooLarge));
        }
        count = count + more;
    }
    Ok(count)
}

/// Returns how many pages of 2^`exponent` bytes hold `count` bytes, which are fewer than 2^32.
fn pages_of(count: u64, exponent: u32) -> u64
    requires { count < 2 ^ 32 }
    ensures { result ≡ div_ceil count (2 ^ exponent) }
{
    if exponent < 64 {
        count.div_ceil(1 << exponent)
    } else {
        count.min(1)
    }
}

/// Returns how many pages hold the bytes. A page has 65,536 bytes if there is no exponent.
fn page_count<'e>(pieces: &[DataVal<'_>], exponent: Option<u32>) -> Result<u64, Error<'e>>
    ensures ok { IfOk result (λ n. n ≡ page_count pieces.now exponent) }
    ensures refusal { IfErr result (λ e. (e ≡ too_large) × IsTrue (are_too_many pieces.now)) }
{
    let count = byte_count(pieces)?;
    match exponent {
        Some(exponent) => Ok(pages_of(count, exponent)),
        None => Ok(count.div_ceil(65_536)),
    }
}

/// Returns the type of a memory that is exactly large enough for the bytes.
pub(crate) fn filled_memory_type<'e>(
    is64: bool,
    pieces: &[DataVal<'_>],
    page_size_log2: Option<u32>,
) -> Result<MemoryType, Error<'e>>
    ensures ok { IfOk result (λ t. t ≡ filled_memory_type is64 pieces.now page_size_log2) }
    ensures refusal { IfErr result (λ e. (e ≡ too_large) × IsTrue (are_too_many pieces.now)) }
{
    let count = page_count(pieces, page_size_log2)?;
    Ok(MemoryType {
        limits: Limits {
            is64,
            min: count,
            max: Some(count),
        },
        shared: false,
        page_size_log2,
    })
}

/// Returns the number of elements.
fn element_count(payload: &ElemPayload<'_>) -> u64
    ensures { result ≡ element_count payload.now }
{
    match payload {
        ElemPayload::Indices(indices) => indices.len() as u64,
        ElemPayload::Exprs { exprs, .. } => exprs.len() as u64,
    }
}

/// Returns the type of a table that is exactly large enough for the elements.
pub(crate) fn filled_table_type<'a>(
    elem: RefType<'a>,
    is64: bool,
    shared: bool,
    payload: &ElemPayload<'_>,
) -> TableType<'a>
    ensures { result ≡ filled_table_type elem.entry is64 shared payload.now }
{
    let count = element_count(payload);
    TableType {
        limits: Limits {
            is64,
            min: count,
            max: Some(count),
        },
        elem,
        shared,
    }
}

/// Returns the offset 0 of a segment: `i64.const 0` if indices have 64 bits, else `i32.const 0`.
pub(crate) fn at_zero<'a>(alloc: Global, is64: bool) -> Result<Expression<'a>, Error<'a>>
    ensures ok { IfOk result (λ e. e ≡ at_zero is64) }
    ensures refusal { IfErr result (λ e. e ≡ out_of_memory) }
{
    if is64 {
        Expression::one(alloc, Instruction::i64_const(0))
    } else {
        Expression::one(alloc, Instruction::i32_const(0))
    }
}

/// Returns the type of the memory that holds the bytes, and the offset of their segment.
pub(crate) fn filling<'a>(
    alloc: Global,
    is64: bool,
    pieces: &[DataVal<'_>],
    page_size_log2: Option<u32>,
) -> Result<(MemoryType, Expression<'a>), Error<'a>>
    ensures ok { IfOk result (λ f. (f.0 ≡ filled_memory_type is64 pieces.now page_size_log2) × (f.1 ≡ at_zero is64)) }
    ensures refusal { IfErr result (λ e. IsRefusedWhere (are_too_many pieces.now) e) }
{
    let ty = filled_memory_type(is64, pieces, page_size_log2)?;
    match at_zero(alloc, is64) {
        Ok(offset) => Ok((ty, offset)),
        Err(e) => Err(e),
    }
}

/// Returns the data segment that fills a memory.
pub(crate) fn data_into<'a>(
    span: Span,
    memory: Index<'a>,
    offset: Expression<'a>,
    bytes: Seq<DataVal<'a>>,
) -> ModuleField<'a>
    ensures { result ≡ field.Data (record { span = span; id = None; name = None; kind = data_kind.Active memory.entry offset.entry; bytes = bytes.entry }) }
{
    ModuleField::Data(Data {
        span,
        id: None,
        name: None,
        kind: DataKind::Active { memory, offset },
        bytes,
    })
}

/// Returns the element segment that fills a table.
pub(crate) fn elem_into<'a>(
    span: Span,
    table: Index<'a>,
    offset: Expression<'a>,
    payload: ElemPayload<'a>,
) -> ModuleField<'a>
    ensures { result ≡ field.Elem (record { span = span; id = None; name = None; kind = elem_kind.Active (Some table.entry) offset.entry; payload = payload.entry }) }
{
    ModuleField::Elem(Elem {
        span,
        id: None,
        name: None,
        kind: ElemKind::Active {
            table: Some(table),
            offset,
        },
        payload,
    })
}
