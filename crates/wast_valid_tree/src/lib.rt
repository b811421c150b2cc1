//! Validates the function bodies of a resolved module (WebAssembly Core Specification 3.0,
//! validation: functions).
//!
//! # Example
//!
//! In `(module (func (result i32) i64.const 1))` the body of the function is invalid: at its end,
//! instruction 1, `i32` is expected and `i64` is found.
//!
//! # Modules
//!
//! - `values`: types and instructions of the AST as `wast_valid` sees them.
//! - `bodies`: the first violation of a body.
//! - `contexts`, `declared`: what bodies refer to, from the fields of the module.
//! - `groups`: canonical type indices.
//! - `fields`: the first invalid function of a module.
#![tactic(auto)]

mod bodies;
mod contexts;
mod declared;
mod fields;
mod groups;
mod values;

pub use bodies::first_violation_of;
pub use fields::{Invalid, first_invalid};
pub use values::instr_for;
