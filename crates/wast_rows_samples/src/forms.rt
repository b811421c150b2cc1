//! The fields of small modules with one unsupported construct each.

ghost use Rattle.std.specs.Prelude.{◌≡◌, [], ◌∷◌, None, Some, IfOk, IfErr};
ghost use Rattle.wast_base.specs.Faults.{out_of_memory};
ghost use Rattle.wast_base.specs.Ids.{source_id};
ghost use Rattle.wast_tree_build.specs.Makers.{Makes};
ghost use Rattle.wast_base.specs.declared.faults.Form.TheVariants as form;
ghost use Rattle.wast_tree_nodes.specs.declared.fields.ModuleField.TheVariants as field;
ghost use Rattle.wast_tree_nodes.specs.WorkedModules.{plain_def};
ghost use Rattle.wast_rows_samples.specs.SampledForms.{HoldsAlone};

use crate::parts::{at, func_of, one, one_instruction};
use std::alloc::Global;
use wast_base::{Error, Form, Id, Index, MemOp, Seq};
use wast_tree_build::TreeBuilder;
use wast_tree_nodes::{
    ArrayType, ContType, Custom, Dylink0, Dylink0Subsection, FunctionType, GlobalType, ImportItems,
    Imports, InnerTypeKind, Instruction, ItemKind, ItemSig, MemArg, MemArgTarget, ModuleField,
    Ordered, Ordering, StorageType, Type, TypeDef, TypeUse, ValType,
};

/// Returns a list of two fields.
fn two<'a>(
    alloc: Global,
    maker: &mut TreeBuilder,
    first: ModuleField<'a>,
    second: ModuleField<'a>,
) -> Seq<ModuleField<'a>>
    ensures { Makes maker.old maker.new (result ≡ first.entry ∷ second.entry ∷ []) }
{
    let mut fields = one(alloc, maker, first);
    maker.push_field(&mut fields, second);
    fields
}

/// Returns `(type ..)` of a composite type, at this offset.
fn type_of<'a>(
    alloc: Global,
    id: Option<Id<'a>>,
    offset: usize,
    kind: InnerTypeKind<'a>,
    shared: bool,
) -> ModuleField<'a>
    ensures { result ≡ field.Ty (record {
      span = record { offset = offset };
      id = id.entry;
      name = None;
      def = record { kind = kind.entry; shared = shared; parents = []; descriptor = None; describes = None; final_type = None };
    }) }
{
    let def = TypeDef {
        kind,
        shared,
        parents: Seq::new(alloc),
        descriptor: None,
        describes: None,
        final_type: None,
    };
    ModuleField::Ty(Type::new(at(offset), id, def))
}

/// `(type $a (func))` at the start of a module.
fn empty_type<'a>(alloc: Global, name: &'a str) -> ModuleField<'a>
    ensures { result ≡ field.Ty (record { span = record { offset = 9 }; id = Some (source_id name.entry (record { offset = 14 })); name = None; def = plain_def }) }
{
    let func = InnerTypeKind::Func(FunctionType::empty(alloc));
    let id = Id::new(name, at(14));
    type_of(alloc, Some(id), 9, func, false)
}

/// `(module (type $f (func)) (type (cont $f)))`
fn continuation<'a>(alloc: Global, maker: &mut TreeBuilder) -> Seq<ModuleField<'a>>
    ensures { Makes maker.old maker.new (HoldsAlone form.StackSwitching result) }
{
    let cont = InnerTypeKind::Cont(ContType(Index::Id(Id::new("f", at(37)))));
    let written = empty_type(alloc, "f");
    two(alloc, maker, written, type_of(alloc, None, 26, cont, false))
}

/// `(module (type (shared (func))))`
fn shared_type<'a>(alloc: Global, maker: &mut TreeBuilder) -> Seq<ModuleField<'a>>
    ensures { Makes maker.old maker.new (HoldsAlone form.Shared result) }
{
    let func = InnerTypeKind::Func(FunctionType::empty(alloc));
    one(alloc, maker, type_of(alloc, None, 9, func, true))
}

/// `(module (func atomic.fence acq_rel))`
fn ordered_fence<'a>(alloc: Global, maker: &mut TreeBuilder) -> Seq<ModuleField<'a>>
    ensures { Makes maker.old maker.new (HoldsAlone form.Ordering result) }
{
    one_instruction(
        alloc,
        maker,
        Instruction::atomic_fence(Some(Ordering::AcqRel)),
    )
}

/// `(module (global $g (mut i32) (i32.const 0)) (func global.atomic.get seq_cst $g))`
fn atomic_global<'a>(alloc: Global, maker: &mut TreeBuilder) -> Seq<ModuleField<'a>>
    ensures { Makes maker.old maker.new (HoldsAlone form.Atomic result) }
{
    let value = maker.one_instruction(Instruction::i32_const(0));
    let ty = GlobalType::new(ValType::I32, true);
    let global = wast_tree_nodes::Global::new(alloc, at(9), Some(Id::new("g", at(16))), ty, value);
    let access = Ordered {
        ordering: Ordering::SeqCst,
        inner: Index::Id(Id::new("g", at(76))),
    };
    let mut instrs = Seq::new(alloc);
    maker.push_instruction(&mut instrs, Instruction::GlobalAtomic(access));
    let func = func_of(alloc, 45, instrs);
    two(alloc, maker, ModuleField::Global(global), func)
}

/// `(module (type $t (func)) (import "m" "f" (func (exact (type $t)))))`
fn exact_import<'a>(alloc: Global, maker: &mut TreeBuilder) -> Seq<ModuleField<'a>>
    ensures { Makes maker.old maker.new (HoldsAlone form.Descriptor result) }
{
    let exact = ItemKind::FuncExact(TypeUse::of(Index::Id(Id::new("t", at(60)))));
    let sig = ItemSig::new(at(42), None, exact);
    let import = ModuleField::Import(Imports::single(at(26), "m", "f", sig));
    two(alloc, maker, empty_type(alloc, "t"), import)
}

/// `(module (import "m" (item "a") (item "b") (func)))`
fn grouped_import<'a>(alloc: Global, maker: &mut TreeBuilder) -> Seq<ModuleField<'a>>
    ensures { Makes maker.old maker.new (HoldsAlone form.CompactImports result) }
{
    let sig = ItemSig::new(at(43), None, ItemKind::Func(TypeUse::none()));
    let names: [&'a str; 2] = ["a", "b"];
    let items = ImportItems::Group2 {
        module: "m",
        sig,
        items: maker.names(&names),
    };
    let span = at(9);
    one(alloc, maker, ModuleField::Import(Imports { span, items }))
}

/// An array type `$a`, and a function that loads from an array of this type.
fn array_load<'a>(alloc: Global, maker: &mut TreeBuilder) -> Seq<ModuleField<'a>>
    ensures { Makes maker.old maker.new (HoldsAlone form.ArrayMemArg result) }
{
    let array = InnerTypeKind::Array(ArrayType {
        mutable: true,
        ty: StorageType::Val(ValType::I32),
    });
    let arg = MemArg {
        align: 4,
        offset: 0,
        target: MemArgTarget::Array(Index::Id(Id::new("a", at(57)))),
        ordering: None,
    };
    let mut instrs = Seq::new(alloc);
    maker.push_instruction(&mut instrs, Instruction::Mem(MemOp::i32_load, arg));
    let written = type_of(alloc, Some(Id::new("a", at(14))), 9, array, false);
    let func = func_of(alloc, 37, instrs);
    two(alloc, maker, written, func)
}

/// `(module (@dylink.0 ..))` with a subsection that names an architecture.
fn architecture<'a>(alloc: Global, maker: &mut TreeBuilder) -> Seq<ModuleField<'a>>
    ensures { Makes maker.old maker.new (HoldsAlone form.TargetArch result) }
{
    let mut subsections = Seq::new(alloc);
    maker.push_subsection(&mut subsections, Dylink0Subsection::TargetArch("a"));
    let info = Custom::Dylink0(Dylink0 { subsections });
    one(alloc, maker, ModuleField::Custom(info))
}

/// `(module (func i64.add128))`
fn wide_sum<'a>(alloc: Global, maker: &mut TreeBuilder) -> Seq<ModuleField<'a>>
    ensures { Makes maker.old maker.new (HoldsAlone form.Beyond result) }
{
    one_instruction(alloc, maker, Instruction::Beyond("i64.add128"))
}

/// Returns the fields of a module with this unsupported construct.
fn fields_of_form<'a>(alloc: Global, maker: &mut TreeBuilder, form: Form) -> Seq<ModuleField<'a>>
    ensures { Makes maker.old maker.new (HoldsAlone form result) }
{
    match form {
        Form::StackSwitching => continuation(alloc, maker),
        Form::Shared => shared_type(alloc, maker),
        Form::Ordering => ordered_fence(alloc, maker),
        Form::Atomic => atomic_global(alloc, maker),
        Form::Descriptor => exact_import(alloc, maker),
        Form::CompactImports => grouped_import(alloc, maker),
        Form::ArrayMemArg => array_load(alloc, maker),
        Form::TargetArch => architecture(alloc, maker),
        Form::Beyond => wide_sum(alloc, maker),
    }
}

/// Returns the fields of a small module with this unsupported construct, once, and no other.
///
/// For example, for `Form::Shared` they are those of `(module (type (shared (func))))`.
///
/// # Example
///
///     Ok(text_module(form_fields(alloc, form)?))
///
/// # Errors
///
/// E12: allocation failed.
pub fn form_fields<'a>(alloc: Global, form: Form) -> Result<Seq<ModuleField<'a>>, Error<'a>>
    ensures alone { IfOk result (λ fields. HoldsAlone form fields) }
    ensures refusal { IfErr result (λ e. e ≡ out_of_memory) }
{
    let mut maker = TreeBuilder::new(alloc);
    let fields = fields_of_form(alloc, &mut maker, form);
    maker.finish(fields)
}
