//! Tests that are proved as callers: a user-defined resolver and visitor, the calls that check a
//! module first, and the commands of scripts.
//!
//! The pages of docs/ show them. `unit_tests` has the calls of `wasm_out`.
//! The tests of `tests/` are run alone, because a test of a tree takes minutes to prove.
//!
//! # Modules
//!
//! - `resolve`: a user-defined resolver, types that match, errors before resolving.
//! - `visits`: a user-defined visitor. `checked`: modules that are ready, and modules that are not.
//! - `scripts`: commands of scripts. `callers`: callers that see to what a call requires.
#![tactic(auto)]

pub mod callers;
#[cfg(test)]
mod checked;
#[cfg(test)]
mod resolve;
#[cfg(test)]
mod scripts;
#[cfg(test)]
mod visits;
