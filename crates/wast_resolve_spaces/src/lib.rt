//! The index spaces and types of a module, filled from its fields, and the order of its imports
//! (text format: identifiers, modules).
//!
//! `wast_resolve` calls it before ids are replaced. Callers use it through that crate. A call that
//! allocates fails with E12 if allocation fails.
//!
//! For example, `(func $f) (func $g)` gives the function `$g` the index 1, and
//! `(func $f) (func $f)` fails with E2 at the second `$f`.
//!
//! # Modules
//!
//! - `gathers`, `clashes`, `spaces`: the index spaces, and the first duplicate id (E2, E3).
//! - `shapes`: the types by index.
//! - `imports`: the order of imports, and the first that comes after a definition (E1).
#![tactic(auto)]

mod clashes;
mod gathers;
mod imports;
mod shapes;
mod spaces;

pub use imports::{check_order, in_order};
pub use shapes::type_shapes;
pub use spaces::name_spaces;
