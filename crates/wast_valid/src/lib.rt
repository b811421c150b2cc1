//! Validates function bodies (WebAssembly Core Specification 3.0, validation: instructions).
//!
//! `wast_valid_tree` calls it for the functions of a module. Callers with instructions of their own
//! make a [`Instr`] of each, and a `Context` of `wast_valid_machine`.
//!
//! # Example
//!
//! `i32.const 1 i32.add`, in a function without parameters, is invalid: instruction 1 misses an
//! operand of type `i32`.
//!
//! # Modules
//!
//! - `instrs`: instructions. `rows`: the types of those without immediates, and what loads and
//!   stores access.
//! - `plain`, `calls`, `variables`, `tables`, `memories`, `references`, `step`: one function for
//!   each kind of instruction.
//! - `body`: the first violation of a body.
#![tactic(auto)]

mod body;
mod calls;
mod examples;
mod instrs;
mod memories;
mod plain;
mod references;
mod rows;
mod step;
mod tables;
mod variables;

pub use body::{Refused, Violation, check_end, first_violation, found, start_body};
pub use instrs::{Instr, MemUse};
pub use rows::{Access, LaneAccess, LaneUse, Row};
pub use step::check_one;
