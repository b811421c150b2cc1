//! Resolves module fields: desugars them, checks them, and replaces each id by the index that it
//! names (text format: abbreviations, identifiers, indices, type uses).
//!
//! For callers who have fields without a module. `Module::resolve` of `wast_core` calls [`resolve`]
//! on a text module. A call that allocates fails with E12 if allocation fails.
//!
//! For example, `(func $f (export "a"))` becomes
//! `(export "a" (func 0)) (func $f (type 0)) (type [1] (func))`, with the generated id `[1]`.
//!
//! # Modules
//!
//! - `resolution`: [`resolve`], and [`Names`] for look-ups afterwards. The rules are in
//!   `wast_resolve_rules`.
//! - `early`: [`early_fault`], the checks that need no resolving.
//! - `stable`: whether function bodies can be skipped, because resolving changes nothing in them. So
//!   a resolved module is encoded without a second walk over its instructions.
//! - [`names`]: the last step of resolving alone, which `passes` has.
//! - [`laws`]: theorems for proofs of callers.
//! - [`resolve_type`] and the like: the indices in a type, by a user-defined [`ResolveCoreType`].
#![tactic(auto)]

mod early;
mod examples;
pub mod laws;
mod passes;
mod resolution;
mod stable;

pub use early::early_fault;
pub use laws::borne_law;
pub use resolution::{Names, discard_names, resolve};
pub use wast_resolve_core_types::{
    ResolveCoreType, resolve_heaptype, resolve_reftype, resolve_storagetype, resolve_type,
    resolve_type_def, resolve_type_func, resolve_valtype,
};
pub use wast_resolve_laws::{early_law, label_law, naming_laws, resolved_laws, resting_laws};
pub use wast_resolve_names::{Ns, Resolver, core_type_laws};
pub use wast_resolve_namespace::{Namespace, resolve_error};

/// The last step of resolving, which replaces ids by indices, and the trait for inline types.
pub mod names {
    pub use crate::passes::resolve;
    pub use wast_resolve_names::TypeReference;
}
