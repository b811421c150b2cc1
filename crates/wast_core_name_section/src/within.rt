//! Lists of names inside items: locals and labels of functions, fields of structs, parameters of
//! types and of tags.

ghost use Rattle.std.specs.Prelude.{◌≡◌, ◌+◌, nat_lt, ℕ, List, Option, length, map, IfOk};
ghost use Rattle.std.specs.List.{flat_map};
ghost use Rattle.wasm_out.specs.NameSectionBytes.{map_entry};
ghost use Rattle.wast_core_name_section.specs.Tree.ty;
ghost use Rattle.wast_core_name_section.specs.declared.within.Within.{Within};
ghost use Rattle.wast_core_name_section.specs.Checkpoints.{AreCheckpoints};
ghost use Rattle.wast_core_name_section.specs.GivenNames.{named_from};
ghost use Rattle.wast_core_name_section.specs.FoundNames.{saturated_count, names_listed, lists_found, lists_seen, WritesItems};
ghost use Rattle.wast_core_name_section.specs.WithinItems.{param_name, local_name, lists_in_type, lists_in_func, lists_in_tag, lists_in_imported_func, lists_in_imported_tag, lists_in_kind, lists_in_sig, lists_within, arity_at, params_then_locals, params_used, locals_of, locals_in, label_in, labels_in, field_names_of, param_names_of, inline_params, tag_params};

use crate::arities::{Arities, Checkpoints, FieldTypes, TypesOf};
use crate::imported::{count_imported, put_imported};
use crate::name_lists::{Listed, count_found, no_names, none, put_found};
use crate::name_maps::{CountItems, NameItems, count_each, put_each};
use crate::names_each::any_named;
use wasm_ops::{Refusal, Sink};
use wast_base::Index;
use wast_tree_nodes::{
    Func, FuncKind, FunctionType, ImportItems, InnerTypeKind, Instruction, ItemKind, ItemSig,
    Local, ModuleField, TagType, Type, TypeUse,
};

/// A kind of list inside items.
#[derive(Clone, Copy)]
pub(crate) enum Within {
    /// The parameters and locals of functions.
    Locals,
    /// The labels of functions.
    Labels,
    /// The fields of struct types.
    Fields,
    /// The parameters of function types.
    Parameters,
    /// The parameters of tags.
    TagParameters,
}

/// Returns the list inside a type.
fn listed_in_type<'b, 'a>(within: Within, ty: &'b Type<'a>) -> Option<Listed<'b, 'a>>
    ensures { lists_found result ≡ lists_in_type within ty.now }
{
    match within {
        Within::Fields => Some(field_names_of(&ty.def.kind)),
        Within::Parameters => Some(param_names_of(&ty.def.kind)),
        Within::Locals | Within::Labels | Within::TagParameters => None,
    }
}

/// Returns the fields of a struct type.
fn field_names_of<'b, 'a>(kind: &'b InnerTypeKind<'a>) -> Listed<'b, 'a>
    ensures { names_listed result ≡ named_from 0 (field_names_of kind.now) }
{
    match kind {
        InnerTypeKind::Struct(ty) => Listed::Fields(ty.fields.as_slice()),
        InnerTypeKind::Func(_) | InnerTypeKind::Array(_) | InnerTypeKind::Cont(_) => {
            Listed::Fields(none())
        }
    }
}

/// Returns the parameters of a signature.
fn params_in<'b, 'a>(ty: &'b FunctionType<'a>) -> Listed<'b, 'a>
    ensures { names_listed result ≡ named_from 0 (map param_name ty.now.params) }
{
    Listed::Locals(ty.params.as_slice(), 0, none())
}

/// Returns the parameters of a function type.
fn param_names_of<'b, 'a>(kind: &'b InnerTypeKind<'a>) -> Listed<'b, 'a>
    ensures { names_listed result ≡ named_from 0 (param_names_of kind.now) }
{
    match kind {
        InnerTypeKind::Func(ty) => params_in(ty),
        InnerTypeKind::Struct(_) | InnerTypeKind::Array(_) | InnerTypeKind::Cont(_) => {
            Listed::Fields(none())
        }
    }
}

/// Returns how many parameters the function type at the index of a type use has.
fn arity_at<A: Arities>(arities: &A, index: &Option<Index>) -> Option<u64>
    ensures { result ≡ arity_at (A.types arities.now) index.now }
{
    match index {
        Some(Index::Num(number, _)) => arities.arity_of(*number),
        Some(Index::Id(_)) | None => None,
    }
}

/// Returns the locals, numbered after the parameters of a type use. The type is looked up only if a
/// local has a name and there is no inline type.
fn locals_behind<'b, 'a, A: Arities>(
    arities: &A,
    ty: &'b TypeUse<'a, FunctionType<'a>>,
    locals: &'b [Local<'a>],
) -> Listed<'b, 'a>
    ensures { names_listed result ≡ named_from 0 (params_then_locals (params_used (A.types arities.now) ty.now) (map local_name locals.now)) }
{
    if let Some(inline) = &ty.inline {
        let params = inline.params.as_slice();
        return Listed::Locals(params, params.len() as u64, locals);
    }
    if !any_named(locals) {
        return Listed::Fields(none());
    }
    match arity_at(arities, &ty.index) {
        Some(arity) => Listed::Locals(none(), arity, locals),
        None => Listed::Fields(none()),
    }
}

/// Returns the locals of a function.
fn locals_in<'b, 'a>(kind: &'b FuncKind<'a>) -> &'b [Local<'a>]
    ensures { map local_name result.now ≡ locals_in kind.now }
{
    match kind {
        FuncKind::Import(..) => &[],
        FuncKind::Inline { locals, .. } => locals.as_slice(),
    }
}

/// Returns the parameters and locals of a function.
fn locals_of<'b, 'a, A: Arities>(arities: &A, func: &'b Func<'a>) -> Listed<'b, 'a>
    ensures { names_listed result ≡ named_from 0 (locals_of (A.types arities.now) func.now) }
{
    locals_behind(arities, &func.ty, locals_in(&func.kind))
}

/// Returns the instructions of a function, none if it is imported.
fn instrs_in<'b, 'a>(kind: &'b FuncKind<'a>) -> &'b [Instruction<'a>]
    ensures { flat_map label_in result.now ≡ labels_in kind.now }
{
    match kind {
        FuncKind::Import(..) => &[],
        FuncKind::Inline { expression, .. } => expression.instrs.as_slice(),
    }
}

/// Returns the labels of a function.
fn labels_of<'b, 'a>(func: &'b Func<'a>) -> Listed<'b, 'a>
    ensures { names_listed result ≡ named_from 0 (labels_in func.now.kind) }
{
    Listed::Labels(0, instrs_in(&func.kind))
}

/// Returns the list inside a function.
fn listed_in_func<'b, 'a, A: Arities>(
    within: Within,
    arities: &A,
    func: &'b Func<'a>,
) -> Option<Listed<'b, 'a>>
    ensures { lists_found result ≡ lists_in_func (A.types arities.now) within func.now }
{
    match within {
        Within::Locals => Some(locals_of(arities, func)),
        Within::Labels => Some(labels_of(func)),
        Within::Fields | Within::Parameters | Within::TagParameters => None,
    }
}

/// Returns the parameters of the inline type of a type use.
fn inline_params<'b, 'a>(ty: &'b TypeUse<'a, FunctionType<'a>>) -> Listed<'b, 'a>
    ensures { names_listed result ≡ named_from 0 (inline_params ty.now) }
{
    match &ty.inline {
        Some(inline) => params_in(inline),
        None => no_names(),
    }
}

/// Returns the parameters of a tag.
fn tag_params<'b, 'a>(ty: &'b TagType<'a>) -> Listed<'b, 'a>
    ensures { names_listed result ≡ named_from 0 (tag_params ty.now) }
{
    match ty {
        TagType::Exception(ty) => inline_params(ty),
    }
}

/// Returns the list inside a tag.
fn listed_in_tag<'b, 'a>(within: Within, ty: &'b TagType<'a>) -> Option<Listed<'b, 'a>>
    ensures { lists_found result ≡ lists_in_tag within ty.now }
{
    match within {
        Within::TagParameters => Some(tag_params(ty)),
        Within::Locals | Within::Labels | Within::Fields | Within::Parameters => None,
    }
}

/// Returns the list inside an imported function. The function is counted, and has no labels.
fn listed_in_imported_func<'b, 'a>(
    within: Within,
    ty: &'b TypeUse<'a, FunctionType<'a>>,
) -> Option<Listed<'b, 'a>>
    ensures { lists_found result ≡ lists_in_imported_func within ty.now }
{
    match within {
        Within::Locals => Some(inline_params(ty)),
        Within::Labels => Some(no_names()),
        Within::Fields | Within::Parameters | Within::TagParameters => None,
    }
}

/// Returns the list inside an imported tag. The tag is counted, and its list has no names.
fn listed_in_imported_tag<'b, 'a>(within: Within) -> Option<Listed<'b, 'a>>
    ensures { lists_found result ≡ lists_in_imported_tag within }
{
    match within {
        Within::TagParameters => Some(no_names()),
        Within::Locals | Within::Labels | Within::Fields | Within::Parameters => None,
    }
}

/// Returns the list inside an imported item of a kind.
fn listed_in_kind<'b, 'a>(within: Within, kind: &'b ItemKind<'a>) -> Option<Listed<'b, 'a>>
    ensures { lists_found result ≡ lists_in_kind within kind.now }
{
    match kind {
        ItemKind::Func(ty) | ItemKind::FuncExact(ty) => listed_in_imported_func(within, ty),
        ItemKind::Tag(_) => listed_in_imported_tag(within),
        ItemKind::Table(_) | ItemKind::Memory(_) | ItemKind::Global(_) => None,
    }
}

/// The lists inside a field.
#[derive(Clone, Copy)]
enum Lists<'b, 'a> {
    /// The list of its item, if it has one.
    One(Option<Listed<'b, 'a>>),
    /// The lists of the types of a recursion group.
    Types(&'b [Type<'a>]),
    /// The lists of the items of an import.
    Imported(&'b ImportItems<'a>),
}

/// Finds the lists inside a field of this list of fields.
#[inline(always)]
fn lists_in<'b, 'a, A: Arities>(
    within: Within,
    arities: &A,
    field: &'b ModuleField<'a>,
) -> Lists<'b, 'a>
    ensures { lists_seen within result ≡ lists_within (A.types arities.now) within field.now }
{
    match field {
        ModuleField::Ty(ty) => Lists::One(listed_in_type(within, ty)),
        ModuleField::Rec(rec) => Lists::Types(rec.types.as_slice()),
        ModuleField::Import(imports) => Lists::Imported(&imports.items),
        ModuleField::Func(func) => Lists::One(listed_in_func(within, arities, func)),
        ModuleField::Tag(tag) => Lists::One(listed_in_tag(within, &tag.ty)),
        _ => Lists::One(None),
    }
}

/// Finds the lists inside types.
impl<'a> NameItems<Type<'a>> for Within {
    ghost Entry = { List (ℕ × List ℕ) };

    ghost items = { lists_in_type };

    ghost entry = { λ x. (map_entry x).bytes };

    ghost in_range = { λ x. (map_entry x).in_range };

    fn put<S: Sink>(&self, part: &Type<'a>, position: u64, out: &mut S) -> Result<u64, Refusal> {
        put_found(position, listed_in_type(*self, part), out)
    }
}

impl<'a> CountItems<Type<'a>> for Within {
    fn count(&self, part: &Type<'a>) -> u64 {
        count_found(listed_in_type(*self, part))
    }
}

/// Finds the lists inside imported items.
impl<'a> NameItems<ItemSig<'a>> for Within {
    ghost Entry = { List (ℕ × List ℕ) };

    ghost items = { lists_in_sig };

    ghost entry = { λ x. (map_entry x).bytes };

    ghost in_range = { λ x. (map_entry x).in_range };

    fn put<S: Sink>(&self, part: &ItemSig<'a>, position: u64, out: &mut S) -> Result<u64, Refusal> {
        put_found(position, listed_in_kind(*self, &part.kind), out)
    }
}

impl<'a> CountItems<ItemSig<'a>> for Within {
    fn count(&self, part: &ItemSig<'a>) -> u64 {
        count_found(listed_in_kind(*self, &part.kind))
    }
}

/// A field whose lists are counted.
pub(crate) trait CountLists {
    /// The lists of the field, given the types of the module.
    ghost lists: { List ty.«Type» → Within → Self → List (Option (List (ℕ × List ℕ))) };

    /// Returns how many items of the field have such a list.
    fn count_lists<A: Arities>(&self, within: Within, arities: &A) -> u64
        ensures { result ≡ saturated_count (length (named_from 0 (lists (A.types arities.now) within self.now))) };
}

/// A field whose lists are written.
pub(crate) trait PutLists {
    /// The lists of the field, given the types of the module.
    ghost lists: { List ty.«Type» → Within → Self → List (Option (List (ℕ × List ℕ))) };

    /// Appends the lists, as [`NameItems::put`] does.
    fn put_lists<A: Arities, S: Sink>(
        &self,
        within: Within,
        arities: &A,
        position: u64,
        out: &mut S,
    ) -> Result<u64, Refusal>
        ensures written { WritesItems S.rules (λ x. (map_entry x).bytes) (λ x. (map_entry x).in_range) (lists (A.types arities.now) within self.now) position out.old out.new result }
        ensures next { IfOk result (λ p. p ≡ saturated_count (position + length (lists (A.types arities.now) within self.now))) };
}

impl CountLists for ModuleField<'_> {
    ghost lists = { lists_within };

    fn count_lists<A: Arities>(&self, within: Within, arities: &A) -> u64 {
        match lists_in(within, arities, self) {
            Lists::One(found) => count_found(found),
            Lists::Types(types) => count_each(&within, types),
            Lists::Imported(items) => count_imported(within, items),
        }
    }
}

impl PutLists for ModuleField<'_> {
    ghost lists = { lists_within };

    fn put_lists<A: Arities, S: Sink>(
        &self,
        within: Within,
        arities: &A,
        position: u64,
        out: &mut S,
    ) -> Result<u64, Refusal> {
        match lists_in(within, arities, self) {
            Lists::One(found) => put_found(position, found, out),
            Lists::Types(types) => put_each(&within, types, position, out),
            Lists::Imported(items) => put_imported(within, items, position, out),
        }
    }
}

/// Finds the lists inside the items of fields, and looks up types with `A`.
#[derive(Clone, Copy)]
pub(crate) struct WithinItems<A> {
    pub(crate) arities: A,
    pub(crate) within: Within,
}

impl<T: PutLists, A: Arities> NameItems<T> for WithinItems<A> {
    ghost Entry = { List (ℕ × List ℕ) };

    ghost items = { λ w. T.lists (A.types w.arities) w.within };

    ghost entry = { λ x. (map_entry x).bytes };

    ghost in_range = { λ x. (map_entry x).in_range };

    fn put<S: Sink>(&self, part: &T, position: u64, out: &mut S) -> Result<u64, Refusal> {
        part.put_lists(self.within, &self.arities, position, out)
    }
}

/// Returns how many items of some fields have a list of names.
pub(crate) fn count_lists<'b, T: FieldTypes + CountLists>(
    fields: &'b [T],
    there: &'b [T],
    within: Within,
    checkpoints: Checkpoints<'b>,
) -> u64
    requires { AreCheckpoints T.types fields.now checkpoints.places checkpoints.before.now }
    ensures { result ≡ saturated_count (length (named_from 0 (flat_map (T.lists (flat_map T.types fields.now) within) there.now))) }
{
    let arities = TypesOf::new(fields, checkpoints);
    let mut sum = 0u64;
    for part in there {
        sum = sum.saturating_add(part.count_lists(within, &arities));
    }
    sum
}

/// Returns whether any item of some fields has a list of names. Stops at the first field with one.
pub(crate) fn any_lists<'b, T: FieldTypes + CountLists>(
    fields: &'b [T],
    there: &'b [T],
    within: Within,
    checkpoints: Checkpoints<'b>,
) -> bool
    requires { AreCheckpoints T.types fields.now checkpoints.places checkpoints.before.now }
    ensures { result ≡ nat_lt 0 (length (named_from 0 (flat_map (T.lists (flat_map T.types fields.now) within) there.now))) }
{
    let arities = TypesOf::new(fields, checkpoints);
    for part in there {
        if part.count_lists(within, &arities) != 0 {
            return true;
        }
    }
    false
}
