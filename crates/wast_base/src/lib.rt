//! The parts of a module's AST that do not depend on its fields: ids, indices, index spaces,
//! errors, the id counter, names of instructions, lists and boxes.
//!
//! Every other crate of the AST, of resolving and of encoding depends on this one. Callers use it
//! through `wast_tree`, `wast_expand`, `wast_resolve` and `wast_core`, which re-export its types.
//!
//! # Example
//!
//! A number and an id become indices, and the id keeps its position:
//!
//!     let number = Index::from(7);
//!     assert!(rt; number == Index::Num(7, at(3)) && number.span() == at(0));
//!     let id: Index<'static> = Id::new("f", at(4)).into();
//!
//! # Modules
//!
//! - `ids`: positions, ids and indices; when two are equal, and how they are printed.
//! - `order`: the order of names, and binary search among names.
//! - `numbering`: replacing an id by its number, for any index space or list of labels.
//! - `gensym`: the counter of generated ids.
//! - `faults`: the errors E1 to E13, with their numbers and messages.
//! - `spaces`: the eight index spaces.
//! - `plain`, `mem_ops`, `lane_ops`, `index_ops`: names of instructions, written by `tools/ops`.
//! - `seq`, `boxed`: a list and a box that contracts see by their contents.
//! - `lines`: the line and column of a position.
//!
//! The contracts state the result of every call exactly, except that an allocation may fail. Only
//! [`Seq::push`] and [`Boxed::new`] allocate.
#![tactic(auto)]

mod boxed;
mod examples;
mod faults;
mod gensym;
mod ids;
mod index_ops;
mod lane_ops;
mod lines;
mod mem_ops;
mod numbering;
mod order;
mod plain;
mod seq;
mod spaces;

pub use boxed::Boxed;
pub use faults::{Error, Fault, Form, clause_text};
pub use gensym::Gensym;
pub use ids::{Id, Index, NameAnnotation, Span};
pub use index_ops::{IndexOp, IndexPairOp};
pub use lane_ops::{LaneOp, MemLaneOp};
pub use lines::line_and_column;
pub use mem_ops::MemOp;
pub use numbering::{Numbering, denoted_number, number_index, try_number};
pub use order::{Named, compare_names, place_among};
pub use plain::{
    AnyOp, ArrayOp, BareOp, ExternOp, F32Op, F32x4Op, F64Op, F64x2Op, I8x16Op, I16x8Op, I31Op,
    I32Op, I32x4Op, I64Op, I64x2Op, Plain, RefOp, V128Op,
};
pub use seq::{IntoIter, Seq};
pub use spaces::Space;
