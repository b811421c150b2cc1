//! Finds the ranges of a list of module fields that contain each kind of field, in one walk.
//!
//! `wast_core` uses it to visit, for each section, only the fields from the first to the last of
//! that kind. Without it each section would walk over all fields.
//!
//! # Example
//!
//! In `(func) (export "a" (func 0)) (start 0) (export "b" (func 0))`, the range of exports is from
//! field 1 to before field 4, and the range of tags is empty.
//!
//! It is proved that no field of a kind is outside of its range. That a range is no larger than
//! needed is tested.
//!
//! # Modules
//!
//! - `stretches`: a range of fields. `finding`: the ranges of all kinds, found in one walk.
#![tactic(auto)]

mod finding;
mod stretches;

pub use finding::FieldRanges;
pub use stretches::FieldRange;
pub use wast_tree_nodes::FieldKind;
