//! Expands the inline exports, imports, elements and data of module fields into fields of their own
//! (text format: abbreviations).
//!
//! This is the first step of resolving: `wast_resolve` calls it before it resolves type uses. To
//! call only this step, use `wast_expand`.
//!
//! # Example
//!
//! For example, `(func $f (export "a"))` becomes `(export "a" (func $f)) (func $f)`. The field
//! `(memory (data "abc"))` becomes a data segment `(data (memory [1]) (i32.const 0) "abc")` and the
//! memory `(memory [1] 1 1)`. Here `[1]` is a generated id, because the source has no id for the
//! memory.
//!
//! # Modules
//!
//! - `deinline`: the public name of the pass, `run`.
//! - `writing`: the fields that replace a field. The rule is `desugar_field` of
//!   `specs/WriteOut.antt`.
//! - `references`: which items need an id. The rule is `wants_id` of `specs/Referring.antt`.
//! - `segments`: segments of inline data and elements, and the size of their memory or table. The
//!   rule is in `specs/Segments.antt`.
//! - `laws`: theorems about the result. `examples`: example modules that the definitions compute.
#![tactic(auto)]

mod examples;
mod laws;
mod references;
mod segments;
mod writing;

pub use laws::written_laws;

/// The pass over the fields of a module.
pub mod deinline {
    pub use crate::writing::run;
}
