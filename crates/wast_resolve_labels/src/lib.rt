//! Labels: the enclosing blocks of an instruction, and the depth of a label among them.
//!
//! `wast_resolve_passes` walks expressions with [`Labels`], to replace labels by depths and to
//! check those at `else` and `end`.
//!
//! # Example
//!
//!     let mut labels = Labels::new(rt.alloc());
//!     open_many(&rt, &mut labels, id("l"));
//!     let mut branch = Index::Id(id("l"));
//!     assert!(rt; labels.number(&mut branch) == Ok(0));
//!
//! # Modules
//!
//! - `labels`: opening and closing blocks, look-ups, and the checks E4 and E8.
//! - `index`: an index of blocks by label, for deep nesting. `marks`: two bytes of a label,
//!   compared first.
//! - `laws`: theorems for proofs about whole expressions. `examples`: an expression that computes.
#![tactic(auto)]

mod examples;
mod index;
mod labels;
mod laws;
mod marks;

pub use labels::Labels;
pub use laws::{expecting_law, walking_law};
