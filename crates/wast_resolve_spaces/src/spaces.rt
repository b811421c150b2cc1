//! The index spaces of a module, filled from its fields.

ghost use Rattle.std.specs.Prelude.{◌≡◌, ⊤, List, [], Option as Maybe, None, IfOk, IfErr, OnOk, length};
ghost use Rattle.wast_base.specs.Faults.{diagnostic_of};
ghost use Rattle.wast_base.specs.Ids.{Name};
ghost use Rattle.wast_tree_nodes.specs.Items.{items};
ghost use Rattle.wast_tree_nodes.specs.Known.{id_context};
ghost use Rattle.wast_resolve_rules.specs.Demands.{first_unmet, item_demands, Answers, HasManyItems};
ghost use Rattle.wast_resolve_names.specs.Resolvers.{known_of};
ghost use Rattle.wast_resolve_names.specs.Gathers.{Gathers, Stops};
ghost use Rattle.wast_resolve_namespace.specs.Filling.{IsTried};

use crate::clashes::first_clash;
use crate::gathers::gather;
use std::alloc::Global;
use wast_base::Error;
use wast_resolve_names::{CachedNames, Resolver, filled, resolver_of};
use wast_resolve_namespace::NamespaceBuilder;
use wast_tree_nodes::ModuleField;

/// Returns an index space, and the position of its first item with the id of an earlier one, if
/// there is one.
fn try_space<'a>(
    alloc: Global,
    gathered: Result<NamespaceBuilder<'a>, Error<'a>>,
) -> Result<(CachedNames<'a>, Option<u32>), Error<'a>>
    ensures tried { (names : List (Maybe Name)) → Gathers (Ok []) names gathered.entry →
        IfOk result (λ r. IsTried names r.0 r.1) }
    ensures stops { (names : List (Maybe Name)) → Gathers (Ok []) names gathered.entry →
        IfErr result (λ e. Stops (diagnostic_of e) 0 (length names)) }
{
    match filled(gathered?, alloc)? {
        Ok(names) => Ok((names, None)),
        Err(clash) => Ok((CachedNames::new(alloc), Some(clash))),
    }
}

/// Returns the ids of all items of the fields with their indices (text format: identifiers).
///
/// For example, for `(module (func $f) (type $t (func)))` it has `$f` as function 0 and `$t` as
/// type 0.
///
/// # Errors
///
/// The first duplicate in the order of the fields, or an error without a position:
///
/// - E2: an item has the id of an earlier one in its space. After each struct, E3: a field has the
///   id of an earlier one.
/// - E10: an index space has 2^32 items or more, or a struct as many fields.
pub fn name_spaces<'a>(alloc: Global, fields: &[ModuleField<'a>]) -> Result<Resolver<'a>, Error<'a>>
    ensures met { OnOk result (first_unmet (item_demands (items fields.now)) ≡ None) }
    ensures names { IfOk result (λ r. known_of r ≡ id_context (items fields.now)) }
    ensures refusal { IfErr result (λ e.
        Answers ⊤ (HasManyItems fields.now) (diagnostic_of e) (first_unmet (item_demands (items fields.now)))) }
{
    let mut spaces = Vec::new(alloc);
    let mut clashes = [None; 8];
    for gathered in gather(alloc, fields)? {
        let (names, clash) = try_space(alloc, gathered)?;
        clashes[spaces.len()] = clash;
        spaces.push(names)?;
    }
    match first_clash(alloc, fields, clashes) {
        Some(clash) => Err(clash),
        None => Ok(resolver_of(alloc, spaces)),
    }
}
