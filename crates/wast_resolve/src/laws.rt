//! Theorems for proofs of callers. Those of `wast_resolve_laws` and `wast_resolve_names` are
//! re-exported.

ghost use Rattle.wast_resolve.specs.Laws.{SettledStays};

pub use wast_resolve_laws::{early_law, label_law, naming_laws, resolved_laws, resting_laws};
pub use wast_resolve_names::core_type_laws;

/// Theorem: an index that qualifies for look-ups before resolving qualifies afterwards (text
/// format: indices). Call it in a proof to obtain its clause.
///
/// A look-up of [`Names`](crate::Names) requires that a generated id is known. This is so if an
/// item of the fields has that id.
///
///     borne_law();
///     let names = module.resolve(alloc, gensym)?;
///     let start = number_start(&names, idx);
pub fn borne_law()
    ensures { SettledStays }
{}
