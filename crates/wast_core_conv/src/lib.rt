//! Turns parts of a resolved module into values of the binary format, into section items, and into
//! bytes.
//!
//! `wast_core` uses this crate to encode a module. Callers use it through `wast_core`,
//! which re-exports [`conv`], [`SectionItem`], [`RecOrType`] and [`FuncSectionTy`].
//!
//! The type use `(type 3)` is an item of the function section. The payload of a section with this
//! item alone is the count 1 and the index 3:
//!
//!     let item = FuncSectionTy(&used);
//!     has_bytes(&rt, alloc, &item, &[1, 3]);
//!
//! # Modules
//!
//! - [`conv`] returns values of `wasm_ops`: types, immediates and constant expressions. Its parts
//!   are `conv_entities`, `conv_handles`, `conv_immediates`, `conv_segments` and `conv_vectors`.
//! - `values`, `instr_values`, `field_values`, `segment_values` and `custom_values` write bytes
//!   directly, with [`Resolved`]. This is how `wast_core` encodes, because it allocates no values.
//! - `hint_values` writes the branch hints of a function body.
//! - `section_items`, `field_items` and `segment_items` implement [`SectionItem`] for the fields.
//!
//! Converting a part and writing it directly give the same bytes. The definitions are in `specs/`:
//! `Values` and `FieldEntries` define the value of each part, and `Encodable` which parts may be
//! encoded.
#![tactic(auto)]

pub mod conv;
mod conv_entities;
mod conv_handles;
mod conv_immediates;
mod conv_segments;
mod conv_vectors;
mod custom_values;
mod field_items;
mod field_values;
mod hint_values;
mod instr_values;
mod section_items;
mod segment_items;
mod segment_values;
mod values;

pub use custom_values::SubsectionContent;
pub use hint_values::BodyHints;
pub use section_items::{FuncSectionTy, RecOrType, SectionItem};
pub use values::Resolved;
