//! Writes the sections of a resolved module (binary format: modules).
//!
//! `wast_core` uses this crate to encode a module. The crate does not depend on the resolver, so it
//! is proved in parallel.
//!
//! For example, for the fields `(func (type 0)) (type (func))` it appends
//! `00 61 73 6d 01 00 00 00`, a type section `01 04 01 60 00 00`, a function section `03 02 01 00`
//! and a code section `0a 04 01 02 00 0b`. The grammar of the binary format reads the bytes as
//! these sections.
//!
//! # Modules
//!
//! - `fields` returns the bytes of all fields, or appends them to a sink. `capped` is the vector
//!   that it writes to, and `one_move` inserts a length in it.
//! - `sections` writes a whole module, in the order of sections that `slots` defines. `entries`,
//!   `counts`, `customs` and `hints` write single kinds of sections, and `items` their lists.
//! - `laws` has theorems about positions of sections and of hints. `utf8_names` has one for this
//!   crate.
//!
//! A parameter `reaches` has the ranges of the fields. The definitions are in `specs/`: `Sections`
//! has the parts of each section, `Slots` their order, and `Writable` when all of it is in range.
#![tactic(auto)]

mod capped;
mod counts;
mod customs;
mod entries;
mod fields;
mod hints;
mod items;
mod laws;
mod one_move;
mod sections;
mod slots;
mod utf8_names;

pub use fields::{encode_covered, put_fields};
pub use laws::{customs_law, hint_places, order_law};
pub use slots::{SectionKind, Slot};
