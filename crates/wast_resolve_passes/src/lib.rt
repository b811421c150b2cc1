//! Replaces each id in module fields by the index that it names, and checks ids, labels and type
//! uses (text format: identifiers, indices, type uses).
//!
//! This is the last step of resolving: `wast_resolve` calls it with the ids and types that
//! `wast_resolve_spaces` found.
//!
//! # Example
//!
//! For example, `(func $f call $f) (export "a" (func $f))` becomes
//! `(func $f call 0) (export "a" (func 0))`. In `(func $f call $g)` the call fails with E4 at `$g`.
//!
//! # Modules
//!
//! - `walks`, `apart`, `constants`, `instrs`: one walk for each part of the tree (E4, E8, E9). The
//!   rule is `resolved_fields` of `wast_resolve_rules`.
//! - `locals`, `local_names`: the parameters and locals of a function (E2).
#![tactic(auto)]

mod apart;
mod constants;
mod instrs;
mod local_names;
mod locals;
mod walks;

pub use walks::walk_fields;
