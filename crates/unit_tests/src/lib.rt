//! Examples of callers of `wasm_ops` and `wasm_out`.
//!
//! Pages show them, so they are proved. `tests/library_tests` runs them. `call_tests` and the folder
//! `tests/` have the other calls.
//!
//! # Modules
//!
//! - `kept`: a user-defined sink.
//! - `sections`: sections with a constant expression. `writing`: a module without a syntax tree,
//!   whose contract states what its bytes are read as.
//! - `callers`: callers that see to what a call requires.
//! - `opcodes`: a second list of opcodes, with which the table of instructions agrees.
#![tactic(auto)]

pub mod callers;
mod kept;
pub mod opcodes;
pub mod sections;
pub mod writing;

pub use kept::Kept;
