//! The checks of fields that need no resolving.

ghost use Rattle.std.specs.Prelude.{◌≡◌, ⊤, None, IfErr, OnOk};
ghost use Rattle.wast_base.specs.Faults.{diagnostic_of};
ghost use Rattle.wast_resolve_rules.specs.Demands.{first_unmet, Answers, HasManyItems};
ghost use Rattle.wast_resolve_rules.specs.Early.{early_demands};

use std::alloc::Global;
use wast_base::Error;
use wast_resolve_spaces::{check_order, name_spaces};
use wast_tree_nodes::ModuleField;

/// Checks the order of imports and duplicate ids of fields, without changing them (text format:
/// modules, identifiers).
///
///     let late = told(&rt, alloc, defined(alloc, 9, 14), imported(alloc, 19, 24));
///     assert!(rt; late == Err(Error::new(at(19), Fault::ImportAfter("function"))));
///
/// Here `told` calls `early_fault` on `(func $a) (func $a (import "m" "n"))`. The import comes
/// after a definition, because an inline import counts as an import at its field.
///
/// A tool can report these errors while the source is being edited. An error with a position is
/// also the one of [`resolve`](crate::resolve). That call checks the uses too: ids at indices,
/// labels, locals and inline types.
///
/// # Errors
///
/// - E1 at the first import after a definition of a function, table, memory, global or tag.
/// - Then, in the order of the items: E2 two items of an index space have the same id; E3 two
///   fields of a struct do.
/// - E10: an index space has 2^32 items or more, or a struct as many fields.
pub fn early_fault<'a>(alloc: Global, fields: &[ModuleField<'a>]) -> Result<(), Error<'a>>
    ensures met { OnOk result (first_unmet (early_demands fields.now) ≡ None) }
    ensures refusal { IfErr result (λ e.
        Answers ⊤ (HasManyItems fields.now) (diagnostic_of e) (first_unmet (early_demands fields.now))) }
{
    check_order(fields)?;
    name_spaces(alloc, fields)?;
    Ok(())
}
