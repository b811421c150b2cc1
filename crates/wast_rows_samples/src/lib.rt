//! The fields of the example modules by number, and of small modules with one unsupported construct
//! each.
//!
//! `wast_rows` makes modules of them, and tests use those. The positions in the fields are offsets
//! in the text of the module.
//!
//! # Example
//!
//!     made_module(sample_fields(alloc, n))
//!
//! # Modules
//!
//! - `samples` returns the fields of an example module, and of its twin, whose ids have other
//!   names. `ways` has the two ways to write ids.
//! - `texts` has the modules that are texts. `wat_text` reads them.
//! - `built_rows` builds the modules that no text gives, because they are not well formed or close
//!   a block that is not open.
//! - `forms` builds the modules with unsupported constructs. They are not read from texts, because
//!   their contract states which construct is in the fields.
//! - `parts` has what `built_rows` and `forms` share.
//!
//! A function with the name of a module returns its fields. If an allocation failed, some of them
//! may be missing. The caller that made the builder gets the error from `finish`.
#![tactic(auto)]

mod built_rows;
mod forms;
mod parts;
mod samples;
mod texts;
mod ways;

pub use forms::form_fields;
pub use samples::{sample_fields, twin_fields};
