//! Immediates of instructions as values of the binary format.

ghost use Rattle.std.specs.Int.{w64, is_power_of_two, trailing_zeros};
ghost use Rattle.std.specs.Prelude.{◌≡◌, ◌<◌, map, IsTrue};
ghost use Rattle.std.specs.List.{list_all};
ghost use Rattle.wast_base.specs.Ids.{is_number};
ghost use Rattle.wast_tree_nodes.specs.Sites.{OfBlock, constant_context, if_there, in_val, in_signature, in_use, in_catch, in_target};
ghost use Rattle.wast_tree_nodes.specs.Resolved.{are_numbered};
ghost use Rattle.wast_core_conv.specs.Encodable.{are_resolved, is_resolved_handle};
ghost use Rattle.wast_core_conv.specs.Meaning as meaning;

use crate::conv::{index, val_type};
use crate::conv_handles::Handles;
use crate::conv_vectors::mem_arg_ordering;
use wast_tree_nodes::{
    FunctionType, MemoryArg, ResumeTable, TableArg, TryTableCatch, TryTableCatchKind, ValType,
};

/// Returns the type of a block that has no type index and these results: none, or one.
fn given(results: &[ValType]) -> wasm_ops::BlockType
    requires { IsTrue (list_all (λ t. are_numbered (in_val t)) results.now) }
    ensures { result ≡ meaning.short_block_type results.now }
{
    match results.first() {
        None => wasm_ops::BlockType::Empty,
        Some(ty) => wasm_ops::BlockType::Result(val_type(ty)),
    }
}

/// Returns the type of a block that has no type index.
fn short_type(inline: &Option<FunctionType>) -> wasm_ops::BlockType
    requires { IsTrue (are_numbered (if_there in_signature inline.now)) }
    ensures { result ≡ meaning.short_type inline.now }
{
    match inline {
        None => wasm_ops::BlockType::Empty,
        Some(ty) => given(ty.results.as_slice()),
    }
}

/// Converts the type of a block (binary format: control instructions). For example,
/// `block (result i32)` becomes `BlockType::Result` of `i32`.
///
///     assert!(rt; conv::block_type(&block) == wasm_ops::BlockType::FunctionType(3));
///
/// If the block has a type index, an inline type next to it is not written. Without an index, the
/// inline type must have no parameters and at most one result.
pub fn block_type(block: &wast_tree_nodes::BlockType) -> wasm_ops::BlockType
    requires { IsTrue (are_resolved (in_use OfBlock block.now.ty)) }
    ensures { result ≡ meaning.as_block_type block.now }
{
    match &block.ty.index {
        Some(of) => wasm_ops::BlockType::FunctionType(index(of)),
        None => short_type(&block.ty.inline),
    }
}

/// Converts a catch clause of `try_table`, with the label that it branches to (binary format:
/// control instructions). For example, `(catch 1 0)` becomes `Catch::One` of tag 1 and label 0.
pub fn catch(clause: &TryTableCatch) -> wasm_ops::Catch
    requires { IsTrue (are_resolved (in_catch constant_context.blocks clause.now)) }
    ensures { result ≡ meaning.as_catch clause.now }
{
    let label = index(&clause.label);
    match &clause.kind {
        TryTableCatchKind::Catch(tag) => wasm_ops::Catch::One {
            tag: index(tag),
            label,
        },
        TryTableCatchKind::CatchRef(tag) => wasm_ops::Catch::OneRef {
            tag: index(tag),
            label,
        },
        TryTableCatchKind::CatchAll => wasm_ops::Catch::All { label },
        TryTableCatchKind::CatchAllRef => wasm_ops::Catch::AllRef { label },
    }
}

/// Returns the table index of an instruction (binary format: table instructions). For example,
/// `table.get 1` has the index 1.
pub fn table_arg(arg: &TableArg) -> u32
    requires { IsTrue (is_number arg.now.dst) }
    ensures { result ≡ meaning.index_value arg.now.dst }
{
    index(&arg.dst)
}

/// Returns the memory index of an instruction (binary format: memory instructions). For example,
/// `memory.size 1` has the index 1.
pub fn memory_arg(arg: &MemoryArg) -> u32
    requires { IsTrue (is_number arg.now.mem) }
    ensures { result ≡ meaning.index_value arg.now.mem }
{
    index(&arg.mem)
}

/// Converts the target of a memory argument: a memory, or the type of an array (binary format:
/// memory instructions).
fn mem_arg_target(target: &wast_tree_nodes::MemArgTarget) -> wasm_ops::MemArgTarget
    requires { IsTrue (are_numbered (in_target target.now)) }
    ensures { result ≡ meaning.as_mem_arg_target target.now }
{
    match target {
        wast_tree_nodes::MemArgTarget::Memory(memory) => wasm_ops::MemArgTarget::Memory(index(
            memory,
        )),
        wast_tree_nodes::MemArgTarget::Array(ty) => wasm_ops::MemArgTarget::Array(index(ty)),
    }
}

/// Returns the number of trailing zero bits of an alignment. For a power of two that is its
/// logarithm.
fn logarithm(align: u64) -> u32
    ensures zeros { result ≡ trailing_zeros w64 align }
    ensures below { IsTrue (is_power_of_two align) → result < 64 }
{
    align.trailing_zeros()
}

/// Converts a memory argument (binary format: memory instructions).
///
/// The binary format stores the logarithm of the alignment. For example, `align=8` becomes 3. If an
/// alignment is not a power of two, this is the number of its trailing zero bits.
pub fn mem_arg(arg: &wast_tree_nodes::MemArg) -> wasm_ops::MemArg
    requires { IsTrue (are_numbered (in_target arg.now.target)) }
    ensures value { result ≡ meaning.as_mem_arg arg.now }
    ensures aligned { IsTrue (is_power_of_two arg.now.align) → result.align < 64 }
{
    wasm_ops::MemArg {
        align: logarithm(arg.align),
        target: mem_arg_target(&arg.target),
        offset: arg.offset,
        ordering: arg.ordering.map(mem_arg_ordering),
    }
}

/// Converts a handler of a `resume` instruction (stack switching). For example, `(on 3 switch)`
/// becomes `Handle::OnSwitch` of tag 3.
pub fn handle(handle: &wast_tree_nodes::Handle) -> wasm_ops::Handle
    requires { IsTrue (is_resolved_handle handle.now) }
    ensures { result ≡ meaning.as_handle handle.now }
{
    match handle {
        wast_tree_nodes::Handle::OnLabel { tag, label } => wasm_ops::Handle::OnLabel {
            tag: index(tag),
            label: index(label),
        },
        wast_tree_nodes::Handle::OnSwitch { tag } => wasm_ops::Handle::OnSwitch { tag: index(tag) },
    }
}

/// Returns an iterator over the handlers of a resume table, in source order (stack switching).
/// [`Handles`] has an example.
pub fn handles<'b, 'a>(table: &'b ResumeTable<'a>) -> Handles<'b, 'a>
    requires { IsTrue (list_all is_resolved_handle table.now.handlers) }
    ensures { result ≡ map meaning.as_handle table.now.handlers }
{
    Handles::of(table)
}
