//! The example modules that no text gives: two close a block that is not open, and seven break one
//! rule of well-formedness each.

ghost use Rattle.std.specs.Prelude.{◌≡◌, is_some, IfSome, IfErr};
ghost use Rattle.wast_base.specs.Faults.{out_of_memory};
ghost use Rattle.wast_rows_samples.specs.RowNumbers.{built_rows, is_among};

use crate::parts::{at, func_of, one, one_instruction};
use crate::ways::Way;
use std::alloc::Global;
use wast_base::{BareOp, Error, Gensym, Id, Index, MemOp, Plain, Seq};
use wast_tree_build::{BlockKind, TreeBuilder};
use wast_tree_nodes::{
    BlockType, BranchHint, Elem, ElemKind, ElemPayload, Export, ExportKind, Expression, Func,
    GlobalType, InlineExport, Instruction, MemArg, Memory, MemoryKind, ModuleField, RefType,
    TypeUse, ValType,
};

/// `(module (func end $m))`
fn end_of_no_block<'a>(alloc: Global, maker: &mut TreeBuilder, way: Way) -> Seq<ModuleField<'a>> {
    let label = Id::new(way.name("m"), at(18));
    one_instruction(alloc, maker, Instruction::end_(Some(label)))
}

/// `(module (func end block $l br $l end))`
fn block_after_an_end<'a>(
    alloc: Global,
    maker: &mut TreeBuilder,
    way: Way,
) -> Seq<ModuleField<'a>> {
    let name = way.name("l");
    let mut instrs = Seq::new(alloc);
    maker.push_instruction(&mut instrs, Instruction::end_(None));
    let block = BlockType::new(Some(Id::new(name, at(24))), TypeUse::none());
    maker.push_block(&mut instrs, BlockKind::Block, block);
    let label = Index::Id(Id::new(name, at(30)));
    maker.push_instruction(&mut instrs, Instruction::br(label));
    maker.push_instruction(&mut instrs, Instruction::end_(None));
    let func = func_of(alloc, 9, instrs);
    one(alloc, maker, func)
}

/// `(module (func i32.load drop))`, but the load has the alignment 3.
fn load_aligned_to_three<'a>(alloc: Global, maker: &mut TreeBuilder) -> Seq<ModuleField<'a>> {
    let arg = MemArg::new(Index::Num(0, at(14)), 3, 0);
    let mut instrs = Seq::new(alloc);
    maker.push_instruction(&mut instrs, Instruction::Mem(MemOp::i32_load, arg));
    maker.push_instruction(&mut instrs, Instruction::Plain(Plain::Bare(BareOp::drop)));
    let func = func_of(alloc, 9, instrs);
    one(alloc, maker, func)
}

/// `(module (func i32.const 0 if end))` with these branch hints.
fn hinted_condition<'a>(
    alloc: Global,
    maker: &mut TreeBuilder,
    hints: &[BranchHint],
) -> Seq<ModuleField<'a>> {
    let mut instrs = Seq::new(alloc);
    maker.push_instruction(&mut instrs, Instruction::i32_const(0));
    maker.push_block(&mut instrs, BlockKind::If, BlockType::empty());
    maker.push_instruction(&mut instrs, Instruction::end_(None));
    let none = TypeUse::none();
    let func = Func::new(alloc, at(9), None, none, Seq::new(alloc), instrs);
    let hints = maker.hints(hints);
    one(alloc, maker, ModuleField::Func(func.with_hints(hints)))
}

/// `(module (memory (data "ab")))` with pages of 2^64 bytes.
fn memory_of_endless_pages<'a>(alloc: Global, maker: &mut TreeBuilder) -> Seq<ModuleField<'a>> {
    let memory = Memory {
        span: at(9),
        id: None,
        name: None,
        exports: InlineExport::none(alloc),
        kind: MemoryKind::Inline {
            is64: false,
            bytes: maker.string(b"ab"),
            page_size_log2: Some(64),
        },
    };
    one(alloc, maker, ModuleField::Memory(memory))
}

/// `(module (elem (i32.const 0) externref (ref.null extern)))`, an active segment without a table.
fn segment_of_external_references<'a>(
    alloc: Global,
    maker: &mut TreeBuilder,
) -> Seq<ModuleField<'a>> {
    let ty = RefType::externref();
    let null = maker.one_instruction(Instruction::ref_null(ty.heap));
    let mut exprs = Seq::new(alloc);
    maker.push_expression(&mut exprs, null);
    let kind = ElemKind::Active {
        table: None,
        offset: maker.one_instruction(Instruction::i32_const(0)),
    };
    let elem = Elem::new(at(9), None, kind, ElemPayload::Exprs { ty, exprs });
    one(alloc, maker, ModuleField::Elem(elem))
}

/// `(module (global i32 i32.const 0 end))`
fn global_that_ends_twice<'a>(alloc: Global, maker: &mut TreeBuilder) -> Seq<ModuleField<'a>> {
    let mut instrs = Seq::new(alloc);
    maker.push_instruction(&mut instrs, Instruction::i32_const(0));
    maker.push_instruction(&mut instrs, Instruction::end_(None));
    let value = Expression::new(alloc, instrs);
    let ty = GlobalType::new(ValType::I32, false);
    let global = wast_tree_nodes::Global::new(alloc, at(9), None, ty, value);
    one(alloc, maker, ModuleField::Global(global))
}

/// `(module (export "a" (func ..)))` with a generated id that no function has.
fn export_of_no_function<'a>(alloc: Global, maker: &mut TreeBuilder) -> Seq<ModuleField<'a>> {
    let id = Gensym::new(1).generate(at(26)).unwrap();
    let export = Export::new(at(9), "a", ExportKind::Func, Index::Id(id));
    one(alloc, maker, ModuleField::Export(export))
}

/// Returns the fields of a module that is built by hand, if the number is that of one.
fn fields_of_row<'a>(
    alloc: Global,
    maker: &mut TreeBuilder,
    n: u32,
    way: Way,
) -> Option<Seq<ModuleField<'a>>>
    ensures { is_some result ≡ is_among built_rows n }
{
    let on_if = BranchHint::new(1, 0);
    match n {
        25 => Some(end_of_no_block(alloc, maker, way)),
        56 => Some(block_after_an_end(alloc, maker, way)),
        58 => Some(load_aligned_to_three(alloc, maker)),
        59 => Some(hinted_condition(alloc, maker, &[on_if, on_if])),
        60 => Some(hinted_condition(alloc, maker, &[BranchHint::new(3, 0)])),
        61 => Some(memory_of_endless_pages(alloc, maker)),
        62 => Some(segment_of_external_references(alloc, maker)),
        63 => Some(global_that_ends_twice(alloc, maker)),
        64 => Some(export_of_no_function(alloc, maker)),
        _ => None,
    }
}

/// Returns the fields of a module that is built by hand, or E12. Returns `None` if the number is
/// not that of one.
pub(crate) fn built_row<'a>(
    alloc: Global,
    n: u32,
    way: Way,
) -> Option<Result<Seq<ModuleField<'a>>, Error<'a>>>
    ensures there { is_some result ≡ is_among built_rows n }
    ensures refusal { IfSome result (λ made. IfErr made (λ e. e ≡ out_of_memory)) }
{
    let mut maker = TreeBuilder::new(alloc);
    match fields_of_row(alloc, &mut maker, n, way) {
        Some(fields) => Some(maker.finish(fields)),
        None => None,
    }
}
