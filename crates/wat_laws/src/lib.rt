//! A theorem about the text format: an instruction has at least one token. It is stated in
//! `specs/Lengths.antt`, and the crate has no code that runs.
#![tactic(auto)]

mod lengths;

pub use lengths::length_laws;
