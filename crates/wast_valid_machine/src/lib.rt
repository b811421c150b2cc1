//! The machine that validates function bodies (WebAssembly Core Specification 3.0, appendix:
//! validation algorithm): types, subtyping, the operand stack, and control frames.
//!
//! `wast_valid` checks instructions with it. No type of the AST occurs here, so that proofs see
//! small values only.
//!
//! # Example
//!
//! For `i32.const 1`, [`State::put`] pushes `i32`. For `i32.add`, [`State::take_as`] pops two
//! operands of type `i32`; if one is missing, it returns the cause.
//!
//! # Modules
//!
//! - `types`, `matching`: types and subtyping.
//! - `stack`, `state`: the state, what bodies refer to, and why an instruction is invalid.
//! - `values`: operands. `control`, `tables`: blocks, labels and branches.
//! - `lookups`: items of a context.
#![tactic(auto)]

mod control;
mod lookups;
mod matching;
mod stack;
mod state;
mod tables;
mod types;
mod values;

pub use control::{check_sig, ends_of, starts_of};
pub use lookups::{
    check_heap, check_ty, elem_at, field_at, fields_at, func_at, func_type_of, global_at, greatest,
    has_value, local_at, memory_at, occurs, passes, reference_at, table_at,
};
pub use matching::{does_heap_match, does_match, does_ref_match, is_plain};
pub use stack::Stack;
pub use state::{Cause, Context, Frame, Global, Kind, Memory, Sig, State, Stop, Table, Tys};
pub use tables::count_of;
pub use types::{Def, Field, FuncTy, Heap, RefTy, Shape, Ty};
