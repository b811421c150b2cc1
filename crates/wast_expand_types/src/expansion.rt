//! The pass that adds ids to types and indices to type uses.

ghost use Rattle.std.specs.Prelude.{◌≡◌, ◌≤◌, ◌+◌, ◌++◌, All, IfOk, IfErr, IsTrue, OnOk};
ghost use Rattle.wast_base.specs.Faults.{out_of_memory};
ghost use Rattle.wast_base.specs.Filling.{one_if, given_if, with_ids_from, missing_id_count};
ghost use Rattle.wast_tree_nodes.specs.Items.{items, items_in};
ghost use Rattle.wast_tree_nodes.specs.Known.{names_in};
ghost use Rattle.wast_expand_types.specs.Tree.space;
ghost use Rattle.wast_expand_keys.specs.EligibleTypes.{is_eligible, taken_by};
ghost use Rattle.wast_expand_keys.specs.Expanders.{numbers_in, Extends};
ghost use Rattle.wast_expand_types.specs.Binding.{IsPassedField};
ghost use Rattle.wast_expand_types.specs.TypeItems.{StopsNaming};
ghost use Rattle.wast_expand_keys.specs.Expanded.{lacks_id, with_type_id, binding_of, bindings_in, bindings, expanded_fields, type_id_count, StopsExpanding};

use crate::binder::Binder;
use crate::binding::bind_fields;
use crate::type_names::gather_field;
use std::alloc::Global;
use std::mem;
use wast_base::{Error, Gensym, Id, Index, Seq};
use wast_expand_keys::{Expander, key_in, put_key, with_names};
use wast_resolve_namespace::NamespaceBuilder;
use wast_tree_nodes::{
    InnerTypeKind, ModuleField, TypeDef, discard_fields, push_field, take_field,
};

/// Resolves each type use without an index that needs a type, and appends missing types (text
/// format, type uses: abbreviations).
///
/// A type use matches the first eligible type with its signature. A type is eligible if it is a
/// function type in a field of its own, final, not shared, and without supertypes, descriptor and
/// describes. A member of a group is never matched. The type use of a block needs a type only if it
/// has a parameter or two results.
///
/// Signatures are compared by the numbers of the source's types. For example, `(ref $t)` equals
/// `(ref 0)` if `$t` is type 0. An id of no source type equals only itself.
///
/// If no eligible type has a signature, one is appended after all fields, in the order of first
/// use. In it, each id of a source type is replaced by its number. Types are referred to by id. A
/// type without an id gets a generated one at its position, unless it is a member of a group.
/// Generated ids are new if the counter is past `gensym_bound` of `wast_tree`. Ids and indices of
/// the source are unchanged, and so are the inline types of functions, imports and tags.
///
/// For example, `(type (func)) (func) (func (param i32))` becomes
/// `(type [1] (func)) (func (type [1]))`, `(func (type [2]) (param i32))` and
/// `(type [2] (func (param i32)))`.
///
/// # Example
///
///     let expanded = types::expand(alloc, fields, &mut Gensym::new(1)).expect(rt, "memory");
///     let count = expanded.len();
///     discard_fields(expanded);
///
/// # Errors
///
/// - E10: the counter would overflow a `u64`, or there are 2^32 source types or more.
/// - E12: allocation failed.
///
/// After an error the fields are dropped, and the counter has its old value.
pub fn expand<'a>(
    alloc: Global,
    fields: Seq<ModuleField<'a>>,
    gensym: &mut Gensym,
) -> Result<Seq<ModuleField<'a>>, Error<'a>>
    ensures list { IfOk result (λ out. out ≡ expanded_fields gensym.old fields.entry) }
    ensures counted { OnOk result (gensym.new ≡ gensym.old + type_id_count fields.entry) }
    ensures refusal { IfErr result (StopsExpanding gensym.old fields.entry) }
    ensures counter_grows { gensym.old ≤ gensym.new }
    ensures stays { IfErr result (λ e. gensym.new ≡ gensym.old) }
{
    expand_with(alloc, fields, gensym, false)
}

/// Does what [`expand`] does, and skips the bodies of functions if `skips_bodies`, so that a second
/// expansion does not walk over all instructions again.
///
/// Skipped bodies must have nothing to resolve: no type use needs a type, and each block has an
/// index or an inline type.
pub fn expand_with<'a>(
    alloc: Global,
    fields: Seq<ModuleField<'a>>,
    gensym: &mut Gensym,
    skips_bodies: bool,
) -> Result<Seq<ModuleField<'a>>, Error<'a>>
    requires { IsTrue skips_bodies → All IsPassedField fields }
    ensures list { IfOk result (λ out. out ≡ expanded_fields gensym.old fields.entry) }
    ensures counted { OnOk result (gensym.new ≡ gensym.old + type_id_count fields.entry) }
    ensures refusal { IfErr result (StopsExpanding gensym.old fields.entry) }
    ensures counter_grows { gensym.old ≤ gensym.new }
    ensures stays { IfErr result (λ e. gensym.new ≡ gensym.old) }
{
    let mut fields = fields;
    let first = gensym.peek();
    match expand_fields(alloc, &mut fields, gensym, skips_bodies) {
        Ok(()) => Ok(fields),
        Err(e) => {
            discard_fields(fields);
            *gensym = Gensym::new(first);
            Err(e)
        }
    }
}

/// Resolves the type uses of the fields, and appends types. `skips_bodies` is as in `expand_with`.
fn expand_fields<'a>(
    alloc: Global,
    fields: &mut Seq<ModuleField<'a>>,
    gensym: &mut Gensym,
    skips_bodies: bool,
) -> Result<(), Error<'a>>
    requires { IsTrue skips_bodies → All IsPassedField fields.old }
    ensures list { OnOk result (fields.new ≡ expanded_fields gensym.old fields.old) }
    ensures counted { OnOk result (gensym.new ≡ gensym.old + type_id_count fields.old) }
    ensures refusal { IfErr result (StopsExpanding gensym.old fields.old) }
    ensures counter_grows { gensym.old ≤ gensym.new }
{
    let mut names = NamespaceBuilder::none(alloc);
    name_types(fields, gensym, &mut names)?;
    let mut cx = with_names(alloc, names);
    bind_types(fields.as_slice(), &mut cx)?;
    let mut binder = Binder {
        alloc,
        cx,
        implied: Seq::new(alloc),
        gensym: mem::replace(gensym, Gensym::new(1)),
    };
    let bound = bind_fields(fields, skips_bodies, &mut binder);
    let Binder {
        alloc: _,
        cx: _cx,
        implied,
        gensym: next,
    } = binder;
    *gensym = next;
    match bound {
        Ok(()) => {
            append(fields, implied)?;
            Ok(())
        }
        Err(e) => {
            discard_fields(implied);
            Err(e)
        }
    }
}

/// Generates missing ids of types in fields of their own, and collects the ids that the source has.
fn name_types<'a>(
    fields: &mut Seq<ModuleField<'a>>,
    gensym: &mut Gensym,
    names: &mut NamespaceBuilder<'a>,
) -> Result<(), Error<'a>>
    ensures fields { OnOk result (fields.new ≡ with_ids_from lacks_id with_type_id gensym.old fields.old) }
    ensures counted { OnOk result (gensym.new ≡ gensym.old + missing_id_count lacks_id fields.old) }
    ensures names { OnOk result (names.new ≡ names.old ++ names_in space.Ty (items fields.old)) }
    ensures refusal { IfErr result (StopsNaming (gensym.old + missing_id_count lacks_id fields.old) (names.old ++ names_in space.Ty (items fields.old))) }
    ensures counter_grows { gensym.old ≤ gensym.new }
{
    for i in 0..fields.len() {
        name_type(fields.at_mut(i), gensym, names)?;
    }
    Ok(())
}

/// Does the same for one field.
fn name_type<'a>(
    field: &mut ModuleField<'a>,
    gensym: &mut Gensym,
    names: &mut NamespaceBuilder<'a>,
) -> Result<(), Error<'a>>
    ensures field { OnOk result (field.new ≡ given_if (lacks_id field.old) with_type_id gensym.old field.old) }
    ensures counted { OnOk result (gensym.new ≡ gensym.old + one_if (lacks_id field.old)) }
    ensures names { OnOk result (names.new ≡ names.old ++ names_in space.Ty (items_in field.old)) }
    ensures refusal { IfErr result (StopsNaming (gensym.old + one_if (lacks_id field.old)) (names.old ++ names_in space.Ty (items_in field.old))) }
    ensures counter_grows { gensym.old ≤ gensym.new }
{
    gather_field(names, field)?;
    match field {
        ModuleField::Ty(ty) => {
            gensym.fill(ty.span, &mut ty.id)?;
            Ok(())
        }
        _ => Ok(()),
    }
}

/// Adds the signatures of eligible types in all fields.
fn bind_types<'a>(fields: &[ModuleField<'a>], cx: &mut Expander<'a>) -> Result<(), Error<'a>>
    ensures ok { OnOk result (Extends cx.old.bound cx.new.bound (bindings (numbers_in cx.old) fields.now)) }
    ensures names { cx.new.names ≡ cx.old.names }
    ensures refusal { IfErr result (λ e. e ≡ out_of_memory) }
{
    for field in fields {
        bind_type(field, cx)?;
    }
    Ok(())
}

/// Adds the signature of the type in a field, if it is eligible.
fn bind_type<'a>(field: &ModuleField<'a>, cx: &mut Expander<'a>) -> Result<(), Error<'a>>
    ensures ok { OnOk result (Extends cx.old.bound cx.new.bound (bindings_in (numbers_in cx.old) field.now)) }
    ensures names { cx.new.names ≡ cx.old.names }
    ensures refusal { IfErr result (λ e. e ≡ out_of_memory) }
{
    match field {
        ModuleField::Ty(ty) => {
            bind_def(&ty.def, ty.id, cx)?;
            Ok(())
        }
        _ => Ok(()),
    }
}

/// Adds the signature of a type with the id of the type, if it is eligible and new.
fn bind_def<'a>(
    def: &TypeDef<'a>,
    id: Option<Id<'a>>,
    cx: &mut Expander<'a>,
) -> Result<(), Error<'a>>
    ensures ok { OnOk result (Extends cx.old.bound cx.new.bound (binding_of (taken_by (numbers_in cx.old) def.now) id.entry)) }
    ensures names { cx.new.names ≡ cx.old.names }
    ensures refusal { IfErr result (λ e. e ≡ out_of_memory) }
{
    if !is_eligible(def) {
        return Ok(());
    }
    match (&def.kind, id) {
        (InnerTypeKind::Func(ty), Some(id)) => {
            let key = key_in(ty, cx)?;
            put_key(cx, key, Index::Id(id))?;
            Ok(())
        }
        (InnerTypeKind::Func(_), None) => Ok(()),
        (InnerTypeKind::Struct(_) | InnerTypeKind::Array(_) | InnerTypeKind::Cont(_), _) => Ok(()),
    }
}

/// Returns whether a type use can match a type: it is final, not shared, and without supertypes,
/// descriptor and describes.
fn is_eligible(def: &TypeDef<'_>) -> bool
    ensures { result ≡ is_eligible def.now }
{
    def.final_type.unwrap_or(true)
        && !def.shared
        && def.parents.is_empty()
        && def.descriptor.is_none()
        && def.describes.is_none()
}

/// Appends fields.
fn append<'a>(
    fields: &mut Seq<ModuleField<'a>>,
    more: Seq<ModuleField<'a>>,
) -> Result<(), Error<'a>>
    ensures ok { OnOk result (fields.new ≡ fields.old ++ more.entry) }
    ensures refusal { IfErr result (λ e. e ≡ out_of_memory) }
{
    let mut more = more;
    let appended = push_each(fields, &mut more);
    discard_fields(more);
    appended
}

/// Appends fields, which are moved out of their list.
fn push_each<'a>(
    fields: &mut Seq<ModuleField<'a>>,
    more: &mut Seq<ModuleField<'a>>,
) -> Result<(), Error<'a>>
    ensures ok { OnOk result (fields.new ≡ fields.old ++ more.old) }
    ensures refusal { IfErr result (λ e. e ≡ out_of_memory) }
{
    for i in 0..more.len() {
        push_field(fields, take_field(more.at_mut(i)))?;
    }
    Ok(())
}
