//! From a module in the text format to its bytes, and to the indices of its ids.
//!
//! The command `wat` and the C library `rigyomad_c` use this crate. It joins the parser `wat_text`
//! and the encoder `wast_core`.
//!
//! # Example
//!
//!     let strings = Strings::new(rt.alloc());
//!     let text = "(module (func) (func $f))";
//!     let of_text = encode_text(rt.alloc(), text, &strings).expect(&rt, "bytes");
//!
//! # Modules
//!
//! - `encodes` has [`encode_text`], and [`encoded_text`] for a module that is already parsed.
//! - `names` has [`names_of_text`] and [`number_in_text`], and the same for a parsed module.
//!   `lister` lists the ids of the items of fields.
//! - [`encode_last_text`] and [`names_of_last_text`] are for programs that end after the call. They
//!   do not free the tree.
//! - `refusals` has the errors, and `uncovered` finds the token of an unsupported construct.
//! - `modules` makes a module of `wast_core` from a parsed one.
//! - `laws` states that a text has one result, and `examples` has results that the prover computes.
//!
//! The rules are in `specs/`: `Texts` for the bytes of a text, `Names` for its ids, and `OneText`
//! for the theorems.
//!
//! What is proved: the result for a text is that of encoding or resolving the module that the text
//! denotes. Otherwise it is an error of the text, which denotes no module then, unless allocation
//! failed. [`one_result`] states in what the results of two calls for one text agree.
//!
//! A call without an allocator among its parameters does not allocate.
#![tactic(auto)]

mod encodes;
mod examples;
mod laws;
mod lister;
mod modules;
mod names;
mod refusals;
mod uncovered;

pub use encodes::{encode_last_text, encode_text, encoded_text};
pub use laws::one_result;
pub use modules::module_of;
pub use names::{Denoted, names_of, names_of_last_text, names_of_text, number_in, number_in_text};
pub use refusals::{Refused, UncoveredForm};
