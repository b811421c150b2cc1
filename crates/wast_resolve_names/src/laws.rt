//! Theorems about types that are resolved with the resolver of a module.

ghost use Rattle.wast_tree_nodes.specs.Sites.{in_heap, in_ref, in_val, in_storage, in_signature, in_def, in_type};
ghost use Rattle.wast_tree_map.specs.Mapped.{mapped_heap, mapped_ref, mapped_val, mapped_storage, mapped_signature, mapped_def};
ghost use Rattle.wast_resolve_core_types.specs.CoreTypes.{with_def};
ghost use Rattle.wast_resolve_names.specs.Laws.{ByResolver, NeedsOfResolver};

/// Theorem: with a [`Resolver`](crate::Resolver), the calls of `wast_resolve_core_types` replace
/// the ids in a type by the numbers of the module's types (text format: types, indices).
///
/// If an id is not that of a type, the error is E4 at the first such id. Generated ids must be
/// those of types, as in well-formed fields.
///
/// For example, if each id in `(func (param (ref $a)))` is defined, `resolve_type_func` replaces it
/// by its number. Call it in a proof to obtain its clauses.
#[tactic(auto, using(crate::proofs::CallingNames::by_resolver, crate::proofs::CallingNames::needs_of_resolver, wast_resolve_core_types::proofs::PartsOfTypes::heap_part, wast_resolve_core_types::proofs::PartsOfTypes::ref_part, wast_resolve_core_types::proofs::PartsOfTypes::val_part, wast_resolve_core_types::proofs::PartsOfTypes::storage_part))]
pub fn core_type_laws()
    ensures types { ByResolver in_type with_def }
    ensures defs { ByResolver in_def mapped_def }
    ensures functions { ByResolver in_signature mapped_signature }
    ensures values { ByResolver in_val mapped_val }
    ensures references { ByResolver in_ref mapped_ref }
    ensures heaps { ByResolver in_heap mapped_heap }
    ensures storages { ByResolver in_storage mapped_storage }
    ensures types_needs { NeedsOfResolver in_type }
    ensures defs_needs { NeedsOfResolver in_def }
    ensures functions_needs { NeedsOfResolver in_signature }
    ensures values_needs { NeedsOfResolver in_val }
    ensures references_needs { NeedsOfResolver in_ref }
    ensures heaps_needs { NeedsOfResolver in_heap }
    ensures storages_needs { NeedsOfResolver in_storage }
{}
