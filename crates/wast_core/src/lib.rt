//! Resolves and encodes modules of the WebAssembly text format.
//!
//! This is the crate that callers use: they take a module from a parser, or build one with
//! `wast_tree`, and encode it here.
//!
//!     let bytes = EncodeOptions::new().encode_module(alloc, module, gensym)?;
//!
//! The program `crates/wast_core_example` builds a module, resolves ids in it and prints its bytes.
//!
//! # Modules
//!
//! - `module` has [`Module`] and [`Module::resolve`]. `wat` has [`Wat`]: a module or a component.
//! - `encode` has [`EncodeOptions`], and `spelled` has [`Encode`]. `wast_core_sections` writes the
//!   sections.
//! - `checked` has the same calls with a check of what they require, and [`CheckError`].
//! - [`laws`] and `rests` have theorems about modules, for callers' proofs.
//! - `examples` has example modules whose meaning the prover computes.
//!
//! [`Module::resolve`] succeeds only if every check of resolving passes. The grammar of the binary
//! format reads the bytes of [`EncodeOptions::encode_module`] as what the text module means, and as
//! no other module ([`one_meaning`]). The definitions are in `specs/`: `Headline` has the
//! contracts, `Meaning` defines the sections of a module, and `Bounded` when a module is too large.
#![tactic(auto)]

mod checked;
mod encode;
mod examples;
pub mod laws;
mod module;
mod rests;
mod spelled;
mod wat;

pub use checked::{CheckError, NotReady};
pub use encode::EncodeOptions;
pub use laws::{
    at_rest, bounded_law, customs_law, hint_places, meaning_law, one_meaning, order_law, renaming,
};
pub use module::{Module, ModuleKind, discard_module};
pub use spelled::Encode;
pub use wast_core_conv::{FuncSectionTy, RecOrType, SectionItem, conv};
pub use wat::Wat;
