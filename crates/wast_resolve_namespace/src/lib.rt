//! Namespaces: the numbers of ids in an index space, and how to build them from all items at once.
//!
//! `wast_resolve_passes` builds the namespaces of a module with it, and `wast_expand_types` those
//! of types. Callers meet [`Namespace`] through `wast_resolve`.
//!
//! # Example
//!
//!     let mut items = NamespaceBuilder::new(rt.alloc(), 0).expect(&rt, "memory");
//!     assert!(rt; items.add(Some(written("abcdefgh2"))) == Ok(()));
//!     let filled = items.build(rt.alloc()).expect(&rt, "memory");
//!
//! # Modules
//!
//! - `namespace`: look-ups, and adding one item at a time.
//! - `filling`: building a namespace from all items, and finding the first duplicate id.
//! - `sorting`, `heads`: sorting names, by eight bytes as one number if possible.
#![tactic(auto)]

mod filling;
mod heads;
mod namespace;
mod sorting;

pub use filling::NamespaceBuilder;
pub use heads::leading;
pub use namespace::{Namespace, resolve_error};
