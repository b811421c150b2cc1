//! `TreeBuilder`, which builds the lists of an AST and reports a failed allocation once, at the
//! end.
//!
//! Callers that build a module by hand use it, and so does the parser `wat_text`. `wast_tree`
//! re-exports it.
//!
//! # Example
//!
//!     let (mut make, mut fields) = (TreeBuilder::new(alloc), Seq::new(alloc));
//!     let ty = make.function_type(&[(None, None, I32); 2], &[I32]);
//!     let ty = Type::new(at(11), id("reader", 16), TypeDef::func(alloc, ty));
//!     make.push_field(&mut fields, ModuleField::Ty(ty));
//!
//! After all fields, `make.finish(fields)` returns them, or E12 if any allocation failed.
//!
//! # Modules
//!
//! - `makers`: `TreeBuilder` and `BlockKind`.
#![tactic(auto)]

mod makers;

pub use makers::{BlockKind, TreeBuilder};
