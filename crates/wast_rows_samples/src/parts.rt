//! Parts of the fields that are built by hand.

ghost use Rattle.std.specs.Prelude.{◌≡◌, [], ◌∷◌};
ghost use Rattle.wast_tree_build.specs.Makers.{Makes};
ghost use Rattle.wast_rows_samples.specs.SampledForms.{plain_func};

use std::alloc::Global;
use wast_base::{Seq, Span};
use wast_tree_build::TreeBuilder;
use wast_tree_nodes::{Func, Instruction, ModuleField, TypeUse};

pub(crate) fn at(offset: usize) -> Span
    ensures { result ≡ record { offset = offset } }
{
    Span { offset }
}

/// Returns a list of one field.
pub(crate) fn one<'a>(
    alloc: Global,
    maker: &mut TreeBuilder,
    field: ModuleField<'a>,
) -> Seq<ModuleField<'a>>
    ensures { Makes maker.old maker.new (result ≡ field.entry ∷ []) }
{
    let mut fields = Seq::new(alloc);
    maker.push_field(&mut fields, field);
    fields
}

/// Returns `(func ..)` with these instructions, at this offset.
pub(crate) fn func_of<'a>(
    alloc: Global,
    offset: usize,
    instrs: Seq<Instruction<'a>>,
) -> ModuleField<'a>
    ensures { result ≡ plain_func (record { offset = offset }) instrs.entry }
{
    let none = TypeUse::none();
    let func = Func::new(alloc, at(offset), None, none, Seq::new(alloc), instrs);
    ModuleField::Func(func)
}

/// Returns `(module (func ..))` with one instruction.
pub(crate) fn one_instruction<'a>(
    alloc: Global,
    maker: &mut TreeBuilder,
    instruction: Instruction<'a>,
) -> Seq<ModuleField<'a>>
    ensures { Makes maker.old maker.new (result ≡ plain_func (record { offset = 9 }) (instruction.entry ∷ []) ∷ []) }
{
    let mut instrs = Seq::new(alloc);
    maker.push_instruction(&mut instrs, instruction);
    let func = func_of(alloc, 9, instrs);
    one(alloc, maker, func)
}
