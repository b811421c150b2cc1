//! Reads a module in the text format into the tree of `wast_tree`.
//!
//! The crate `wat_bytes` encodes what is read, and `wast_script` reads the modules of a test
//! script.
//!
//!     let module = read(rt.alloc(), text, &strings).expect(&rt, "a module");
//!
//! For the text `(module (func) (func $f))` the module has two fields.
//!
//! What is proved: [`read`] returns the module that the rules of the text format read. It fails
//! with another error than [`TextFault::Memory`] only if they read none.
//!
//! # Modules
//!
//! - `modules` has [`read`], and [`read_tokens`] and [`read_module_tokens`] for tokens.
//! - `fields`, `types`, `segments` and `customs` read the fields of a module.
//! - `bodies` reads expressions, and `instructions`, `immediates`, `operators` and `vectors` read
//!   one instruction.
//! - `quotes` joins the strings of `(module quote ..)`.
//! - `reader` has the tokens that are left, and the first error.
//!
//! The rules of the text format are in `wat_grammar` and `wat_syntax`. In `specs/`, `Denotes` has
//! the rules of a whole module, and `Readers` the contracts of functions that read a part of it.
#![tactic(auto)]

mod bodies;
mod customs;
mod errors;
mod examples;
mod fields;
mod immediates;
mod instructions;
mod modules;
mod operators;
mod quotes;
mod reader;
mod segments;
mod types;
mod vectors;

pub use modules::{TextKind, TextModule, read, read_module_tokens, read_tokens};
pub use wat_tokens::{Strings, TextError, TextFault};
