//! Theorems about resolved modules: generated ids change nothing, a second resolving changes
//! nothing, and renaming ids changes only names.
//!
//! The crate has no code that runs. A proof calls its functions to obtain their clauses. Callers
//! use them through `wast_resolve`. The crate does not depend on the passes, because its proofs
//! compare definitions.
//!
//! For example, resolving `(func)` returns `(func (type 0)) (type [1] (func))`, with the generated
//! id `[1]`. Resolving that again returns the same fields, by [`resting_laws`].
//!
//! # Modules
//!
//! The statements are in `specs/`, in the files named here.
//!
//! - `laws` (`Laws`): [`resolved_laws`] for resolved fields, [`label_law`] for enclosing blocks,
//!   and [`early_law`] for errors before resolving.
//! - `rests` (`Rests`): [`resting_laws`] for resolved fields, with or without start fields after
//!   them.
//! - `naming` (`Renaming`, `Extended`): [`naming_laws`] for modules with other ids.
//! - `examples`: example modules that the definitions compute.
#![tactic(auto)]

mod examples;
mod laws;
mod naming;
mod rests;

pub use laws::{early_law, label_law, resolved_laws};
pub use naming::naming_laws;
pub use rests::resting_laws;
