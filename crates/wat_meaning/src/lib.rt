//! Theorems about what a text means: it does not depend on the addresses of ids, names and strings.
//!
//! The crate has no code that runs. A proof calls its functions to obtain their clauses.
//!
//! # Example
//!
//! Each tree of `(module (func $f) (export "a" (func $f)))` means the same sections, wherever its
//! texts are in memory (see [`meaning_laws`]).
//!
//! # Modules
//!
//! - `meanings` has [`meaning_laws`]: a tree means what its bare tree means, which has each text at
//!   address 0. The statements are in `specs/Laws.antt`.
//! - `examples`: an example module at two places in memory.
#![tactic(auto)]

mod examples;
mod meanings;

pub use meanings::meaning_laws;
