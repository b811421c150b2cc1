//! Theorems about what the rules of the text format read: it may be resolved.
//!
//! The crate has no code that runs. `laws` has the theorem that the fields are well formed and have
//! no generated id, which is stated in `specs/Ready.antt`.
#![tactic(auto)]

mod laws;

pub use laws::ready_laws;
