//! Desugars module fields: expands inline exports, imports, elements and data, and resolves type
//! uses that have no index (text format: abbreviations, type uses).
//!
//! For callers who need these two steps without resolving ids. `wast_resolve` includes both.
//!
//! # Example
//!
//!     let expanded = types::expand(alloc, fields, &mut Gensym::new(1)).expect(rt, "memory");
//!     let count = expanded.len();
//!     discard_fields(expanded);
//!
//! For example, `deinline::run` turns `(func (export "a"))` into
//! `(export "a" (func [1])) (func [1])`. Then `types::expand` turns that into
//! `(export "a" (func [1])) (func [1] (type [2])) (type [2] (func))`.
//!
//! # Modules
//!
//! - [`deinline`]: expands inline parts. The rule is `WriteOut` of `wast_expand_inline`.
//! - [`types`]: resolves type uses and appends types. The rules are `EligibleTypes` and
//!   `ImpliedTypes` of `wast_expand_keys`.
//! - [`Expander`], [`FuncKey`], [`TypeKey`], [`TypeReference`]: the map from signatures to types,
//!   for callers with type uses of their own.
//! - [`expanded_laws`]: theorems about the result of `types::expand`.
//!
//! The only errors of both steps are E10 and E12. After an error the counter has its old value.
#![tactic(auto)]

pub use wast_expand_inline::deinline;
pub use wast_expand_keys::{Expander, FuncKey, TypeKey, TypeReference};
pub use wast_expand_types::{expanded_laws, types};
