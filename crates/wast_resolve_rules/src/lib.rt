//! Defines the checks of resolving, in the order in which they are reported, and what fields are
//! resolved to (text format: identifiers, indices, modules).
//!
//! The crate has only definitions, for the contracts of `wast_resolve_passes`,
//! `wast_resolve_laws`, `wast_resolve` and `wast_core`. It is a crate of its own, so that the
//! example modules are not proved again after a change of a pass.
//!
//! # Example
//!
//! For example, resolving `(module (start $x) (func $a) (func $a))` fails with E2 at the second
//! `$a`. The unknown `$x` is not reported, because duplicate ids are checked before uses.
//!
//! # Modules
//!
//! - `specs/Demands.antt`: the checks E1 to E9 as one list, and the conditions for E10.
//! - `specs/ImportOrder.antt`: the check E1. `specs/Early.antt`: the checks that need no resolving.
//! - `specs/Scopes.antt`, `specs/Matches.antt`: the data that checks read, and when an inline type
//!   matches (E7).
//! - `specs/Explicit.antt`: the fields after inline parts are expanded and types appended.
//! - `specs/Resolved.antt`, `specs/Finished.antt`: the fields after ids are replaced by numbers.
//! - `specs/Stripped.antt`: resolved fields without generated ids.
//! - `examples`: example modules whose results the definitions compute. For example, `row32` has
//!   two types with one id, which fail with E2 at the second.
#![tactic(auto)]

mod examples;
