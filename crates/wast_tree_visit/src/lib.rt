//! Reading the fields of a module: visitors, and the checks before resolving and encoding.
//!
//! `wast_tree` re-exports these calls. Resolving and encoding require what the checks test. No call
//! allocates, and none fails.
//!
//! If both hold, the fields of a module are ready for an id counter at 1:
//!
//!     assert!(rt; wast_tree::well_formed(fields.as_slice()));
//!     assert!(rt; wast_tree::gensym_bound(fields.as_slice()) == 0);
//!
//! # Modules
//!
//! - `visits`, `field_visits`, `continuation_visits`: visitors of items, and of everything else
//!   that is checked, in order.
//! - `check`: `well_formed` and `ill_formed`. `first_failing`: `first_ill_formed`, with a position.
//! - `clauses`: the rules of well-formedness for single parts.
//! - `settling`, `bearers`, `halving`: whether a generated id names an item, and the search for it.
//! - `forms`: `uncovered` and `scan_for_encoding`. `uncovered_places`: `first_uncovered`.
//! - `generations`: `gensym_bound`. `field_items`: the items of a field.
#![tactic(auto)]

mod bearers;
mod check;
mod clauses;
mod continuation_visits;
mod field_items;
mod field_visits;
mod first_failing;
mod forms;
mod generations;
mod halving;
mod settling;
mod uncovered_places;
mod visits;

pub use check::{ill_formed, well_formed};
pub use first_failing::{IllFormed, first_ill_formed};
pub use forms::{EncodingScan, scan_for_encoding, uncovered};
pub use generations::gensym_bound;
pub use uncovered_places::{Uncovered, first_uncovered};
pub use visits::{ItemVisitor, Visitor, visit_fields, visit_items};
