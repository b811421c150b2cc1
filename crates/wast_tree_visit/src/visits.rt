//! Visitors: calls for each item of a module, or for everything else that is checked, in order.
#![tactic(auto, using(crate::proofs::Visiting::visits_both, crate::proofs::Visiting::visits_one, crate::proofs::Visiting::visits_none, wast_tree_nodes::proofs::Asking::asked_asking, wast_tree_nodes::proofs::Asking::asked_both, crate::proofs::Visiting::asked_use))]

ghost use Rattle.std.specs.Prelude.{◌≡◌, ◌∷◌, ◌++◌, List, [], map, Option};
ghost use Rattle.std.specs.Prelude.{flat_map};
ghost use Rattle.wast_base.specs.Ids.{mark_of};
ghost use Rattle.wast_base.specs.Blocks.{Blocks};
ghost use Rattle.wast_tree_visit.specs.Tree.{TypeUse, FunctionType};
ghost use Rattle.wast_tree_visit.specs.Tree.form;
ghost use Rattle.wast_tree_visit.specs.Tree.space;
ghost use Rattle.wast_tree_nodes.specs.Items.{Item, item, item_of_sig, fields_of, items_of_type, items_of_import, items_in, items};
ghost use Rattle.wast_tree_nodes.specs.Sites.{Check, ItemIndex, InnerIndex, PlainId, Clause, Covered, BodyContext, if_there, in_index, in_id, in_heap, in_ref, in_val, in_storage, in_param, in_signature, in_struct_field, in_struct, in_array, in_inner, in_descriptor, in_def, in_type, in_rec, in_type_use, in_block, in_caught, in_catch, in_try_table, in_br_table, in_target, in_mem_arg, in_pair, in_access, in_cast, uncovered_check, check_sites, in_select, in_indirect, in_instr, in_instrs, in_expression, in_constant, in_local, in_func_kind, in_func, in_field, in_module, checks_of};
ghost use Rattle.wast_tree_visit.specs.Visits.{Visits};

use crate::clauses::{hints_stand, is_balanced, is_continuation, is_sequential};
use crate::field_items::items_of;
use wast_base::{Form, Id, Index, NameAnnotation, Seq, Space};
use wast_tree_nodes::{
    ArrayType, BlockType, BrTableIndices, CallIndirect, ContType, Expression, FieldItems, Func,
    FuncKind, FunctionType, HeapType, ImportItems, InnerTypeKind, Instruction, ItemSig, Local,
    MemArg, MemArgTarget, ModuleField, Rec, RefType, SelectTypes, StorageType, StructAccess,
    StructField, StructType, TryTable, TryTableCatch, TryTableCatchKind, Type, TypeDef, TypeUse,
    ValType,
};

/// A visitor of the items of a module, for [`visit_items`] (text format: modules).
///
/// For example, a visitor can count the functions, or collect their ids.
pub trait ItemVisitor<'a> {
    /// The change that a call makes to the visitor. An implementation defines it.
    ghost told: { Self → Item → Self → Type 0 };

    /// Visits an item: its index space, its id if it has one, and the fields of a struct type.
    fn item(&mut self, space: Space, id: &Option<Id<'a>>, fields: &[StructField<'a>])
        ensures { told self.old (item space id.now fields.now) self.new };
}

/// A visitor of everything in a module that is checked, other than its items, for [`visit_fields`].
///
/// The calls come in the order of the checks: field by field, and in a body instruction by
/// instruction (text format: identifiers, indices). For example, a visitor can count indices or
/// search for an id.
///
/// # Example
///
///     fn index(&mut self, _space: Space, index: &Index<'_>) {
///         self.tell(if index.is_resolved() { 1 } else { 2 });
///     }
pub trait Visitor {
    /// The change that a call makes to the visitor. An implementation defines it.
    ghost told: { Self → Check → Self → Type 0 };

    /// Visits an index of an item of this index space.
    fn index(&mut self, space: Space, index: &Index<'_>)
        ensures { told self.old (ItemIndex space index.now) self.new };

    /// Visits an index of a local, a label or a struct field.
    fn within(&mut self, index: &Index<'_>)
        ensures { told self.old (InnerIndex index.now) self.new };

    /// Visits an id that is not checked, such as that of a parameter or a label.
    fn id(&mut self, id: &Id<'_>)
        ensures { told self.old (PlainId (mark_of id.now)) self.new };

    /// Visits a rule of well-formedness, and whether it holds here.
    fn clause(&mut self, number: u8, holds: bool)
        ensures { told self.old (Clause number holds) self.new };

    /// Visits an unsupported form. `holds` is true if this part of the module is free of it.
    fn covered(&mut self, form: Form, holds: bool)
        ensures { told self.old (Covered form holds) self.new };
}

/// Visits each item of the fields, in the order in which items are numbered (text format: modules).
///
/// Items without an id are visited too. For example, `(import "a" "b" (func)) (func $f)` has two:
/// a function without an id, and the function `$f`.
pub fn visit_items<'a, V: ItemVisitor<'a>>(fields: &[ModuleField<'a>], visitor: &mut V)
    ensures { Visits V.told visitor.old (items fields.now) visitor.new }
{
    for field in fields {
        visit_items_in(field, visitor);
    }
}

/// Visits the items of a field.
pub(crate) fn visit_items_in<'a, V: ItemVisitor<'a>>(field: &ModuleField<'a>, visitor: &mut V)
    ensures { Visits V.told visitor.old (items_in field.now) visitor.new }
{
    match items_of(field) {
        FieldItems::Nothing => {}
        FieldItems::Lone(item) => visitor.item(item.space, item.id, &[]),
        FieldItems::Type(ty) => visit_type(ty, visitor),
        FieldItems::Types(types) => visit_members(types, visitor),
        FieldItems::Imported(items) => visit_import(items, visitor),
    }
}

/// Visits the items of an import.
fn visit_import<'a, V: ItemVisitor<'a>>(items: &ImportItems<'a>, visitor: &mut V)
    ensures { Visits V.told visitor.old (items_of_import items.now) visitor.new }
{
    match items {
        ImportItems::Single { sig, .. } => visit_sig(sig, visitor),
        ImportItems::Group1 { items, .. } => visit_sigs(items.as_slice(), visitor),
        ImportItems::Group2 { sig, items, .. } => visit_shared(sig, items.as_slice(), visitor),
    }
}

/// Visits the item of a signature.
fn visit_sig<'a, V: ItemVisitor<'a>>(sig: &ItemSig<'a>, visitor: &mut V)
    ensures { Visits V.told visitor.old (item_of_sig sig.now ∷ []) visitor.new }
{
    visitor.item(sig.kind.space(), &sig.id, &[]);
}

/// Visits an item for each of these names, with its signature.
fn visit_sigs<'a, V: ItemVisitor<'a>>(items: &[(&'a str, ItemSig<'a>)], visitor: &mut V)
    ensures { Visits V.told visitor.old (flat_map (λ p. item_of_sig p.1 ∷ []) items.now) visitor.new }
{
    for item in items {
        visit_sig(&item.1, visitor);
    }
}

/// Visits an item for each of these names, all with the same signature.
fn visit_shared<'a, V: ItemVisitor<'a>>(sig: &ItemSig<'a>, names: &[&'a str], visitor: &mut V)
    ensures { Visits V.told visitor.old (flat_map (λ name. item_of_sig sig.now ∷ []) names.now) visitor.new }
{
    for _name in names {
        visit_sig(sig, visitor);
    }
}

/// Visits a type, with the fields of a struct.
fn visit_type<'a, V: ItemVisitor<'a>>(ty: &Type<'a>, visitor: &mut V)
    ensures { Visits V.told visitor.old (items_of_type ty.now) visitor.new }
{
    visitor.item(Space::Ty, &ty.id, fields_of(&ty.def.kind));
}

/// Returns the fields of a struct type, and none for another type.
fn fields_of<'k, 'a>(kind: &'k InnerTypeKind<'a>) -> &'k [StructField<'a>]
    ensures { result.now ≡ fields_of kind.now }
{
    match kind {
        InnerTypeKind::Func(_) => &[],
        InnerTypeKind::Struct(ty) => ty.fields.as_slice(),
        InnerTypeKind::Array(_) | InnerTypeKind::Cont(_) => &[],
    }
}

/// Visits the types of a group, each an item.
fn visit_members<'a, V: ItemVisitor<'a>>(types: &[Type<'a>], visitor: &mut V)
    ensures { Visits V.told visitor.old (flat_map items_of_type types.now) visitor.new }
{
    for ty in types {
        visit_type(ty, visitor);
    }
}

/// A part of the AST that can be visited.
pub(crate) trait Visit {
    /// Its checks.
    ghost asks: { Self → List Check };

    /// Visits its checks, in order.
    fn visit<V: Visitor>(&self, visitor: &mut V)
        ensures { Visits V.told visitor.old (asks self.now) visitor.new };
}

/// Visits each part of a list.
pub(crate) fn visit_each<T: Visit, V: Visitor>(parts: &[T], visitor: &mut V)
    ensures { Visits V.told visitor.old (flat_map T.asks parts.now) visitor.new }
{
    for part in parts {
        part.visit(visitor);
    }
}

/// Visits the indices of a space.
pub(crate) fn visit_indices<V: Visitor>(space: Space, indices: &[Index<'_>], visitor: &mut V)
    ensures { Visits V.told visitor.old (flat_map (in_index space) indices.now) visitor.new }
{
    for index in indices {
        visitor.index(space, index);
    }
}

/// Visits an index of a space, if there is one.
pub(crate) fn visit_index<V: Visitor>(space: Space, index: &Option<Index<'_>>, visitor: &mut V)
    ensures { Visits V.told visitor.old (if_there (in_index space) index.now) visitor.new }
{
    if let Some(index) = index {
        visitor.index(space, index);
    }
}

/// Visits the index of a `descriptor` or `describes` clause, if there is one.
fn visit_descriptor<V: Visitor>(index: &Option<Index<'_>>, visitor: &mut V)
    ensures { Visits V.told visitor.old (if_there in_descriptor index.now) visitor.new }
{
    if let Some(index) = index {
        visitor.index(Space::Ty, index);
        visitor.covered(Form::Descriptor, false);
    }
}

impl<T: Visit> Visit for Seq<T> {
    ghost asks = { λ parts. flat_map T.asks parts };

    fn visit<V: Visitor>(&self, visitor: &mut V) {
        visit_each(self.as_slice(), visitor);
    }
}

impl<T: Visit> Visit for Option<T> {
    ghost asks = { if_there T.asks };

    fn visit<V: Visitor>(&self, visitor: &mut V) {
        if let Some(part) = self {
            part.visit(visitor);
        }
    }
}

impl Visit for Id<'_> {
    ghost asks = { in_id };

    fn visit<V: Visitor>(&self, visitor: &mut V) {
        visitor.id(self);
    }
}

impl Visit for HeapType<'_> {
    ghost asks = { in_heap };

    fn visit<V: Visitor>(&self, visitor: &mut V) {
        match self {
            HeapType::Abstract { shared, ty } => {
                visitor.covered(Form::Shared, !*shared);
                visitor.covered(Form::StackSwitching, !is_continuation(*ty));
            }
            HeapType::Concrete(index) => visitor.index(Space::Ty, index),
            HeapType::Exact(index) => {
                visitor.index(Space::Ty, index);
                visitor.covered(Form::Descriptor, false);
            }
        }
    }
}

impl Visit for RefType<'_> {
    ghost asks = { in_ref };

    fn visit<V: Visitor>(&self, visitor: &mut V) {
        self.heap.visit(visitor);
    }
}

impl Visit for ValType<'_> {
    ghost asks = { in_val };

    fn visit<V: Visitor>(&self, visitor: &mut V) {
        match self {
            ValType::I32 => {}
            ValType::I64 => {}
            ValType::F32 => {}
            ValType::F64 => {}
            ValType::V128 => {}
            ValType::Ref(ty) => ty.visit(visitor),
        }
    }
}

impl Visit for StorageType<'_> {
    ghost asks = { in_storage };

    fn visit<V: Visitor>(&self, visitor: &mut V) {
        match self {
            StorageType::I8 => {}
            StorageType::I16 => {}
            StorageType::Val(ty) => ty.visit(visitor),
        }
    }
}

impl<'a> Visit for (Option<Id<'a>>, Option<NameAnnotation<'a>>, ValType<'a>) {
    ghost asks = { in_param };

    fn visit<V: Visitor>(&self, visitor: &mut V) {
        self.0.visit(visitor);
        self.2.visit(visitor);
    }
}

impl Visit for FunctionType<'_> {
    ghost asks = { in_signature };

    fn visit<V: Visitor>(&self, visitor: &mut V) {
        self.params.visit(visitor);
        self.results.visit(visitor);
    }
}

impl Visit for StructField<'_> {
    ghost asks = { in_struct_field };

    fn visit<V: Visitor>(&self, visitor: &mut V) {
        self.id.visit(visitor);
        self.ty.visit(visitor);
    }
}

impl Visit for StructType<'_> {
    ghost asks = { in_struct };

    fn visit<V: Visitor>(&self, visitor: &mut V) {
        self.fields.visit(visitor);
    }
}

impl Visit for ArrayType<'_> {
    ghost asks = { in_array };

    fn visit<V: Visitor>(&self, visitor: &mut V) {
        self.ty.visit(visitor);
    }
}

impl Visit for ContType<'_> {
    ghost asks = { λ t. in_index space.Ty t.0 ++ uncovered_check form.StackSwitching };

    fn visit<V: Visitor>(&self, visitor: &mut V) {
        visitor.index(Space::Ty, &self.0);
        visitor.covered(Form::StackSwitching, false);
    }
}

impl Visit for InnerTypeKind<'_> {
    ghost asks = { in_inner };

    fn visit<V: Visitor>(&self, visitor: &mut V) {
        match self {
            InnerTypeKind::Func(ty) => ty.visit(visitor),
            InnerTypeKind::Struct(ty) => ty.visit(visitor),
            InnerTypeKind::Array(ty) => ty.visit(visitor),
            InnerTypeKind::Cont(ty) => ty.visit(visitor),
        }
    }
}

impl Visit for TypeDef<'_> {
    ghost asks = { in_def };

    fn visit<V: Visitor>(&self, visitor: &mut V) {
        visit_indices(Space::Ty, self.parents.as_slice(), visitor);
        visit_descriptor(&self.descriptor, visitor);
        visit_descriptor(&self.describes, visitor);
        self.kind.visit(visitor);
        visitor.covered(Form::Shared, !self.shared);
    }
}

impl Visit for Type<'_> {
    ghost asks = { in_type };

    fn visit<V: Visitor>(&self, visitor: &mut V) {
        self.def.visit(visitor);
    }
}

impl Visit for Rec<'_> {
    ghost asks = { in_rec };

    fn visit<V: Visitor>(&self, visitor: &mut V) {
        self.types.visit(visitor);
    }
}

impl<'a> Visit for TypeUse<'a, FunctionType<'a>> {
    ghost asks = { in_type_use };

    fn visit<V: Visitor>(&self, visitor: &mut V) {
        visit_index(Space::Ty, &self.index, visitor);
        self.inline.visit(visitor);
    }
}

impl Visit for MemArgTarget<'_> {
    ghost asks = { in_target };

    fn visit<V: Visitor>(&self, visitor: &mut V) {
        match self {
            MemArgTarget::Memory(memory) => visitor.index(Space::Memory, memory),
            MemArgTarget::Array(ty) => {
                visitor.index(Space::Ty, ty);
                visitor.covered(Form::ArrayMemArg, false);
            }
        }
    }
}

impl Visit for MemArg<'_> {
    ghost asks = { in_mem_arg };

    fn visit<V: Visitor>(&self, visitor: &mut V) {
        self.target.visit(visitor);
        visitor.clause(1, self.align.is_power_of_two());
        visitor.covered(Form::Ordering, self.ordering.is_none());
    }
}

impl Visit for BlockType<'_> {
    ghost asks = { λ b. checks_of (in_block [] b) };

    fn visit<V: Visitor>(&self, visitor: &mut V) {
        self.ty.visit(visitor);
        self.label.visit(visitor);
    }
}

impl Visit for TryTableCatchKind<'_> {
    ghost asks = { in_caught };

    fn visit<V: Visitor>(&self, visitor: &mut V) {
        match self {
            TryTableCatchKind::Catch(tag) => visitor.index(Space::Tag, tag),
            TryTableCatchKind::CatchRef(tag) => visitor.index(Space::Tag, tag),
            TryTableCatchKind::CatchAll => {}
            TryTableCatchKind::CatchAllRef => {}
        }
    }
}

impl Visit for TryTableCatch<'_> {
    ghost asks = { λ c. checks_of (in_catch [] c) };

    fn visit<V: Visitor>(&self, visitor: &mut V) {
        self.kind.visit(visitor);
        visitor.within(&self.label);
    }
}

impl Visit for TryTable<'_> {
    ghost asks = { λ t. checks_of (in_try_table [] t) };

    #[tactic(auto, using(crate::proofs::Visiting::visits_both, crate::proofs::Visiting::asked_try_table))]
    fn visit<V: Visitor>(&self, visitor: &mut V) {
        let block = self.block.get();
        block.ty.visit(visitor);
        self.catches.visit(visitor);
        block.label.visit(visitor);
    }
}

/// Visits the indices of labels.
fn visit_labels<V: Visitor>(labels: &[Index<'_>], visitor: &mut V)
    ensures { Visits V.told visitor.old (map InnerIndex labels.now) visitor.new }
{
    for label in labels {
        visitor.within(label);
    }
}

impl Visit for BrTableIndices<'_> {
    ghost asks = { λ t. checks_of (in_br_table [] t) };

    #[tactic(auto, using(crate::proofs::Visiting::visits_both, crate::proofs::Visiting::visits_one, crate::proofs::Visiting::asked_br_table))]
    fn visit<V: Visitor>(&self, visitor: &mut V) {
        visit_labels(self.labels.as_slice(), visitor);
        visitor.within(&self.default);
    }
}

impl Visit for CallIndirect<'_> {
    ghost asks = { λ c. checks_of (in_indirect c) };

    fn visit<V: Visitor>(&self, visitor: &mut V) {
        visitor.index(Space::Table, &self.table);
        self.ty.visit(visitor);
    }
}

impl Visit for SelectTypes<'_> {
    ghost asks = { in_select };

    fn visit<V: Visitor>(&self, visitor: &mut V) {
        self.tys.visit(visitor);
    }
}

/// Visits two indices.
fn visit_pair<V: Visitor>(
    visitor: &mut V,
    space: Space,
    index: &Index<'_>,
    other_space: Space,
    other: &Index<'_>,
)
    ensures { Visits V.told visitor.old (in_pair space index.now other_space other.now) visitor.new }
{
    visitor.index(space, index);
    visitor.index(other_space, other);
}

/// Visits an index of a space, in an unsupported form.
fn visit_uncovered_index<V: Visitor>(space: Space, index: &Index<'_>, form: Form, visitor: &mut V)
    ensures { Visits V.told visitor.old (in_index space index.now ++ uncovered_check form) visitor.new }
{
    visitor.index(space, index);
    visitor.covered(form, false);
}

/// Visits a part of an unsupported form.
fn visit_uncovered<T: Visit, V: Visitor>(part: &T, form: Form, visitor: &mut V)
    ensures { Visits V.told visitor.old (T.asks part.now ++ uncovered_check form) visitor.new }
{
    part.visit(visitor);
    visitor.covered(form, false);
}

impl Visit for StructAccess<'_> {
    ghost asks = { λ a. checks_of (in_access a) };

    fn visit<V: Visitor>(&self, visitor: &mut V) {
        visitor.index(Space::Ty, &self.owner);
        visitor.within(&self.field);
    }
}

/// Visits a branch on a cast.
fn visit_cast<V: Visitor>(label: &Index<'_>, to: &RefType<'_>, from: &RefType<'_>, visitor: &mut V)
    ensures { (blocks : Blocks) → Visits V.told visitor.old (checks_of (in_cast blocks label.now to.now from.now)) visitor.new }
{
    visitor.within(label);
    to.visit(visitor);
    from.visit(visitor);
}

/// Visits a branch on a cast, of an unsupported form.
fn visit_uncovered_cast<V: Visitor>(
    label: &Index<'_>,
    to: &RefType<'_>,
    from: &RefType<'_>,
    visitor: &mut V,
)
    ensures { (blocks : Blocks) → Visits V.told visitor.old (checks_of (in_cast blocks label.now to.now from.now ++ check_sites (uncovered_check form.Descriptor))) visitor.new }
{
    visit_cast(label, to, from, visitor);
    visitor.covered(Form::Descriptor, false);
}

/// Visits an instruction.
fn visit_instr<V: Visitor>(instr: &Instruction<'_>, visitor: &mut V)
    ensures { (h : BodyContext) → Visits V.told visitor.old (checks_of (in_instr h instr.now)) visitor.new }
{
    match instr {
        Instruction::Plain(_) | Instruction::Lane(_, _) => {}
        Instruction::Mem(_, arg) => arg.visit(visitor),
        Instruction::MemLane(_, access) => access.memarg.visit(visitor),
        Instruction::block(block)
        | Instruction::loop_(block)
        | Instruction::if_(block)
        | Instruction::try_(block) => block.get().visit(visitor),
        Instruction::else_(label) | Instruction::end_(label) => label.visit(visitor),
        Instruction::try_table(table) => table.visit(visitor),
        Instruction::br_table(table) => table.visit(visitor),
        Instruction::call_indirect(call) | Instruction::return_call_indirect(call) => {
            call.get().visit(visitor)
        }
        Instruction::array_new_fixed(arg) => visitor.index(Space::Ty, &arg.array),
        Instruction::ref_test(arg) => arg.rt.visit(visitor),
        Instruction::ref_cast(arg) => arg.rt.visit(visitor),
        Instruction::ref_cast_desc_eq(arg) => visit_uncovered(&arg.rt, Form::Descriptor, visitor),
        Instruction::br_on_cast(arg) => {
            let arg = arg.get();
            visit_cast(&arg.label, &arg.to_type, &arg.from_type, visitor)
        }
        Instruction::br_on_cast_fail(arg) => {
            let arg = arg.get();
            visit_cast(&arg.label, &arg.to_type, &arg.from_type, visitor)
        }
        Instruction::br_on_cast_desc_eq(arg) => {
            let arg = arg.get();
            visit_uncovered_cast(&arg.label, &arg.to_type, &arg.from_type, visitor)
        }
        Instruction::br_on_cast_desc_eq_fail(arg) => {
            let arg = arg.get();
            visit_uncovered_cast(&arg.label, &arg.to_type, &arg.from_type, visitor)
        }
        Instruction::v128_const(_) | Instruction::i8x16_shuffle(_) => {}
        Instruction::atomic_fence(ordering) => {
            visitor.covered(Form::Ordering, is_sequential(*ordering))
        }
        Instruction::GlobalAtomic(access) => {
            visit_uncovered_index(Space::Global, &access.inner, Form::Atomic, visitor)
        }
        Instruction::TableAtomic(access) => {
            visit_uncovered_index(Space::Table, &access.inner.dst, Form::Atomic, visitor)
        }
        Instruction::StructAtomic(access) => {
            visit_uncovered(&access.inner, Form::Atomic, visitor)
        }
        Instruction::ArrayAtomic(access) => {
            visit_uncovered_index(Space::Ty, &access.inner, Form::Atomic, visitor)
        }
        Instruction::resume(arg) => arg.visit(visitor),
        Instruction::resume_throw(arg) => arg.get().visit(visitor),
        Instruction::resume_throw_ref(arg) => arg.visit(visitor),
        Instruction::Beyond(_) => visitor.covered(Form::Beyond, false),
        Instruction::select(types) => types.visit(visitor),
        Instruction::i32_const(_)
        | Instruction::i64_const(_)
        | Instruction::f32_const(_)
        | Instruction::f64_const(_) => {}
        Instruction::ref_null(heap) => heap.visit(visitor),
        // Written by tools/ops from here.
        Instruction::catch(tag) | Instruction::throw(tag) => visitor.index(Space::Tag, tag),
        Instruction::rethrow(label)
        | Instruction::br(label)
        | Instruction::br_if(label)
        | Instruction::delegate(label)
        | Instruction::br_on_null(label)
        | Instruction::br_on_non_null(label) => visitor.within(label),
        Instruction::call(func) | Instruction::return_call(func) | Instruction::ref_func(func) =>
            visitor.index(Space::Func, func),
        Instruction::call_ref(ty)
        | Instruction::return_call_ref(ty)
        | Instruction::struct_new(ty)
        | Instruction::struct_new_default(ty)
        | Instruction::array_new(ty)
        | Instruction::array_new_default(ty)
        | Instruction::array_get(ty)
        | Instruction::array_get_s(ty)
        | Instruction::array_get_u(ty)
        | Instruction::array_set(ty) => visitor.index(Space::Ty, ty),
        Instruction::local_get(local)
        | Instruction::local_set(local)
        | Instruction::local_tee(local) => visitor.within(local),
        Instruction::global_get(global) | Instruction::global_set(global) => visitor.index(
            Space::Global,
            global,
        ),
        Instruction::table_get(arg)
        | Instruction::table_set(arg)
        | Instruction::table_grow(arg)
        | Instruction::table_size(arg)
        | Instruction::table_fill(arg) => visitor.index(Space::Table, &arg.dst),
        Instruction::memory_size(arg)
        | Instruction::memory_grow(arg)
        | Instruction::memory_fill(arg) => visitor.index(Space::Memory, &arg.mem),
        Instruction::struct_get(access)
        | Instruction::struct_get_s(access)
        | Instruction::struct_get_u(access)
        | Instruction::struct_set(access) => access.visit(visitor),
        Instruction::array_new_data(arg) => {
            visit_pair(visitor, Space::Ty, &arg.array, Space::Data, &arg.data_idx)
        }
        Instruction::array_new_elem(arg) => {
            visit_pair(visitor, Space::Ty, &arg.array, Space::Elem, &arg.elem_idx)
        }
        Instruction::array_fill(arg) => visitor.index(Space::Ty, &arg.array),
        Instruction::array_copy(arg) => {
            visit_pair(
                visitor,
                Space::Ty,
                &arg.dest_array,
                Space::Ty,
                &arg.src_array,
            )
        }
        Instruction::array_init_data(arg) => {
            visit_pair(visitor, Space::Ty, &arg.array, Space::Data, &arg.segment)
        }
        Instruction::array_init_elem(arg) => {
            visit_pair(visitor, Space::Ty, &arg.array, Space::Elem, &arg.segment)
        }
        Instruction::memory_init(arg) => {
            visit_pair(visitor, Space::Data, &arg.segment, Space::Memory, &arg.mem)
        }
        Instruction::data_drop(data) => visitor.index(Space::Data, data),
        Instruction::memory_copy(arg) => {
            visit_pair(visitor, Space::Memory, &arg.src, Space::Memory, &arg.dst)
        }
        Instruction::table_init(arg) => {
            visit_pair(visitor, Space::Elem, &arg.elem, Space::Table, &arg.table)
        }
        Instruction::elem_drop(elem) => visitor.index(Space::Elem, elem),
        Instruction::table_copy(arg) => {
            visit_pair(visitor, Space::Table, &arg.dst, Space::Table, &arg.src)
        }
        Instruction::struct_new_desc(ty)
        | Instruction::struct_new_default_desc(ty)
        | Instruction::ref_get_desc(ty) => {
            visit_uncovered_index(Space::Ty, ty, Form::Descriptor, visitor)
        }
        Instruction::cont_new(ty) => {
            visit_uncovered_index(Space::Ty, ty, Form::StackSwitching, visitor)
        }
        Instruction::cont_bind(arg) => arg.visit(visitor),
        Instruction::suspend(tag) => {
            visit_uncovered_index(Space::Tag, tag, Form::StackSwitching, visitor)
        }
        Instruction::switch(arg) => arg.visit(visitor),
        Instruction::memory_discard(arg) => {
            visit_uncovered_index(Space::Memory, &arg.mem, Form::Beyond, visitor)
        }
        // To here.
    }
}

/// Visits instructions, in order.
fn visit_instrs<V: Visitor>(instrs: &[Instruction<'_>], visitor: &mut V)
    ensures { (h : BodyContext) → Visits V.told visitor.old (checks_of (in_instrs h instrs.now)) visitor.new }
{
    for instr in instrs {
        visit_instr(instr, visitor);
    }
}

/// Visits the body of a function.
fn visit_expression<V: Visitor>(expression: &Expression<'_>, visitor: &mut V)
    ensures { (h : BodyContext) → Visits V.told visitor.old (checks_of (in_expression h expression.now)) visitor.new }
{
    let instrs = expression.instrs.as_slice();
    visit_instrs(instrs, visitor);
    visitor.clause(
        2,
        hints_stand(instrs.len(), expression.branch_hints.as_slice()),
    );
}

/// An expression is visited as a constant expression; a function body has its own function.
impl Visit for Expression<'_> {
    ghost asks = { λ e. checks_of (in_constant e) };

    fn visit<V: Visitor>(&self, visitor: &mut V) {
        let instrs = self.instrs.as_slice();
        visit_instrs(instrs, visitor);
        visitor.clause(5, is_balanced(instrs));
    }
}

impl Visit for Local<'_> {
    ghost asks = { in_local };

    fn visit<V: Visitor>(&self, visitor: &mut V) {
        self.ty.visit(visitor);
        self.id.visit(visitor);
    }
}

/// Visits the locals and body of a function, or its inline import.
#[tactic(auto, using(crate::proofs::Visiting::visits_both, crate::proofs::Visiting::visits_one, crate::proofs::Visiting::asked_inline))]
fn visit_func_kind<V: Visitor>(kind: &FuncKind<'_>, visitor: &mut V)
    ensures { (u : TypeUse FunctionType) → Visits V.told visitor.old (checks_of (in_func_kind u kind.now)) visitor.new }
{
    match kind {
        FuncKind::Import(_, exact) => visitor.covered(Form::Descriptor, !*exact),
        FuncKind::Inline { locals, expression } => {
            locals.visit(visitor);
            visit_expression(expression, visitor);
        }
    }
}

impl Visit for Func<'_> {
    ghost asks = { λ f. checks_of (in_func f) };

    fn visit<V: Visitor>(&self, visitor: &mut V) {
        self.ty.visit(visitor);
        visit_func_kind(&self.kind, visitor);
    }
}

impl Visit for ModuleField<'_> {
    ghost asks = { λ f. checks_of (in_field f) };

    fn visit<V: Visitor>(&self, visitor: &mut V) {
        match self {
            ModuleField::Ty(ty) => ty.visit(visitor),
            ModuleField::Rec(rec) => rec.visit(visitor),
            ModuleField::Import(import) => import.items.visit(visitor),
            ModuleField::Func(func) => func.visit(visitor),
            ModuleField::Table(table) => table.kind.visit(visitor),
            ModuleField::Memory(memory) => memory.kind.visit(visitor),
            ModuleField::Global(global) => global.visit(visitor),
            ModuleField::Export(export) => export.visit(visitor),
            ModuleField::Start(func) => visitor.index(Space::Func, func),
            ModuleField::Elem(elem) => elem.visit(visitor),
            ModuleField::Data(data) => data.kind.visit(visitor),
            ModuleField::Tag(tag) => tag.ty.visit(visitor),
            ModuleField::Custom(custom) => custom.visit(visitor),
        }
    }
}

/// Visits everything in the fields that is checked, other than their items (text format: modules).
///
/// These are indices, ids, rules of well-formedness and unsupported forms. For example,
/// `(export "a" (func $f))` has one index, `$f`.
///
///     let mut digits = Digits { told: 0 };
///     visit_fields(fields.as_slice(), &mut digits);
pub fn visit_fields<V: Visitor>(fields: &[ModuleField<'_>], visitor: &mut V)
    ensures { Visits V.told visitor.old (checks_of (in_module fields.now)) visitor.new }
{
    for field in fields {
        field.visit(visitor);
    }
}
