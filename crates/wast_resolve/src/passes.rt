//! Collects the ids of all items of the fields, and then replaces each id by its index.

ghost use Rattle.std.specs.Prelude.{◌≡◌, None, All, IfOk, IfErr, IsTrue, OnOk};
ghost use Rattle.wast_tree_nodes.specs.Items.{items};
ghost use Rattle.wast_tree_nodes.specs.Known.{id_context};
ghost use Rattle.wast_resolve_rules.specs.Demands.{first_unmet, name_demands, IsUnnumbered};
ghost use Rattle.wast_resolve_rules.specs.Resolved.{resolved_fields};
ghost use Rattle.wast_resolve_names.specs.Resolvers.{known_of, scope_of};
ghost use Rattle.wast_resolve_rules.specs.Scopes.{module_scope};
ghost use Rattle.wast_resolve_passes.specs.NumberedBodies.{IsNumberedField};

use std::alloc::Global;
use wast_base::{Error, Seq};
use wast_resolve_names::{Resolver, with_types};
use wast_resolve_passes::walk_fields;
use wast_resolve_spaces::{name_spaces, type_shapes};
use wast_tree_nodes::{ModuleField, discard_fields};

/// Replaces each id in the fields by its index, and returns the ids with their indices (text
/// format: indices).
///
///     let (fields, resolver) = names::resolve(alloc, fields).expect(rt, "memory");
///     discard_fields(fields);
///
/// The new indices keep the positions of the ids. Inline exports, imports, elements and data are
/// unchanged. A type use without an index stays without one, because `types::expand` of
/// `wast_expand_types` adds them.
///
/// # Errors
///
/// The first check that fails, in the order of [`resolve`](crate::resolve), which lists them. There
/// is no E1. E10 never comes from inline data or from the counter. The fields are then dropped.
pub fn resolve<'a>(
    alloc: Global,
    fields: Seq<ModuleField<'a>>,
) -> Result<(Seq<ModuleField<'a>>, Resolver<'a>), Error<'a>>
    ensures met { OnOk result (first_unmet (name_demands fields.entry) ≡ None) }
    ensures list { IfOk result (λ r. r.0 ≡ resolved_fields fields.entry) }
    ensures names { IfOk result (λ r. known_of r.1 ≡ id_context (items fields.entry)) }
    ensures scope { IfOk result (λ r. scope_of r.1 ≡ module_scope fields.entry) }
    ensures refusal { IfErr result (IsUnnumbered fields.entry) }
{
    resolve_with(alloc, fields, false)
}

/// Does what [`resolve`] does, and skips the bodies of functions if `skips_bodies`. Then nothing may
/// be left to resolve in them.
pub(crate) fn resolve_with<'a>(
    alloc: Global,
    fields: Seq<ModuleField<'a>>,
    skips_bodies: bool,
) -> Result<(Seq<ModuleField<'a>>, Resolver<'a>), Error<'a>>
    requires { IsTrue skips_bodies → All IsNumberedField fields }
    ensures met { OnOk result (first_unmet (name_demands fields.entry) ≡ None) }
    ensures list { IfOk result (λ r. r.0 ≡ resolved_fields fields.entry) }
    ensures names { IfOk result (λ r. known_of r.1 ≡ id_context (items fields.entry)) }
    ensures scope { IfOk result (λ r. scope_of r.1 ≡ module_scope fields.entry) }
    ensures refusal { IfErr result (IsUnnumbered fields.entry) }
{
    let mut fields = fields;
    match resolve_fields(alloc, &mut fields, skips_bodies) {
        Ok(names) => Ok((fields, names)),
        Err(e) => {
            discard_fields(fields);
            Err(e)
        }
    }
}

/// Resolves the fields in their list. `skips_bodies` is as in `resolve_with`.
fn resolve_fields<'a>(
    alloc: Global,
    fields: &mut Seq<ModuleField<'a>>,
    skips_bodies: bool,
) -> Result<Resolver<'a>, Error<'a>>
    requires { IsTrue skips_bodies → All IsNumberedField fields.old }
    ensures met { OnOk result (first_unmet (name_demands fields.old) ≡ None) }
    ensures list { OnOk result (fields.new ≡ resolved_fields fields.old) }
    ensures names { IfOk result (λ r. known_of r ≡ id_context (items fields.old)) }
    ensures scope { IfOk result (λ r. scope_of r ≡ module_scope fields.old) }
    ensures refusal { IfErr result (IsUnnumbered fields.old) }
{
    let spaces = name_spaces(alloc, fields.as_slice())?;
    let types = type_shapes(alloc, fields.as_slice())?;
    let names = with_types(spaces, types);
    walk_fields(alloc, &names, fields, skips_bodies)?;
    Ok(names)
}
