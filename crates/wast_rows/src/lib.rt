//! Example modules by number, and the lines that report what encoding returns for them.
//!
//! The program `wastrow` and tests use this crate. `run` is all of `wastrow` except its exit
//! status.
//!
//! # Example
//!
//!     let made = sample(alloc, n).expect(rt, "there is such a row");
//!
//! # Modules
//!
//! - `samples` and `forms` make modules of the fields of `wast_rows_samples`.
//! - `runs` reads lines and writes a line for each. `numbers` reads the number of a line, and
//!   `answers` writes the line of a module. `errors` has the errors of a run.
//! - `starting` adds a start field to a module, as a caller with indices outside of the module
//!   does.
//! - `examples` has lines that the prover computes.
//!
//! The rules are in `specs/`: `Answers` defines the line of a module, `Runs` what a run reads and
//! writes, and `Starting` what adding a start field returns.
#![tactic(auto)]

mod answers;
mod errors;
mod examples;
mod forms;
mod numbers;
mod runs;
mod samples;
mod starting;

pub use errors::RunError;
pub use forms::form_sample;
pub use runs::run;
pub use samples::{sample, twin};
pub use starting::add_start;
