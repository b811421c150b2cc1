//! Finds the name of each item of a resolved module, and writes the name section (custom sections:
//! name section).
//!
//! `wast_core` uses this crate to encode a module. `rigyomad_c` uses it to list the names of a
//! module.
//!
//! # Example
//!
//! For `(module (func $f))` the section has the bytes `00 0b 04 6e 61 6d 65 01 04 01 00 01 66`. It
//! is a custom section called `name`, with one subsection that names function 0 `f`.
//!
//! # Modules
//!
//! - `names_payload` writes the section and its subsections.
//! - `name_maps` writes a map from positions to entries, for any kind of entry.
//! - `names_each` and `name_lists` find the names in a list of parameters, locals, labels or
//!   fields.
//! - `within` finds the lists inside items, and `imported` those of imported items.
//! - `named_fields` finds the fields that can have names of a kind, so that others are not walked.
//! - `arities` looks up how many parameters a type has, because locals are numbered after them.
//! - `examples` has example modules whose name sections the prover computes.
//!
//! The rules are in `specs/`: `GivenNames` defines the name of an item, `ModuleNames` the
//! subsections, and `WithinItems` the lists inside items.
#![tactic(auto)]

mod arities;
mod examples;
mod imported;
mod name_lists;
mod name_maps;
mod named_fields;
mod names_each;
mod names_payload;
mod within;

pub use names_payload::{given_name, put_names};
