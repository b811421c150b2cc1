//! Resolves the indices in a type by a user-defined function (text format: types, indices).
//!
//! `wast_resolve_names` implements [`ResolveCoreType`] for the ids of a module, and
//! `wast_resolve_passes` resolves types with it. `wast_resolve` exports the calls.
//!
//! # Example
//!
//! For example, `resolve_type_func` of `(func (param (ref $a)) (result (ref $b)))` calls the
//! function on `$a`, and then on `$b` if the first call succeeds.
//!
//! # Modules
//!
//! - `core_types`: the calls. The rule is `CallsOn` of `specs/CoreTypes.antt`.
#![tactic(auto)]

mod core_types;

pub use core_types::{
    ResolveCoreType, resolve_heaptype, resolve_reftype, resolve_storagetype, resolve_type,
    resolve_type_def, resolve_type_func, resolve_valtype,
};
