//! Resolves each type use that needs a type and has no index, and appends the types that the source
//! does not define (text format: type uses).
//!
//! This is the second step of resolving: `wast_resolve` calls it after inline parts are expanded.
//! To call only this step, use `wast_expand`.
//!
//! # Example
//!
//! For example, `(func)` becomes `(func (type [1])) (type [1] (func))`, with the generated id
//! `[1]`. In `(func) (type $t (func))` the function gets `$t`, and no type is appended.
//!
//! # Modules
//!
//! - `types`: the public name of the pass, `expand`.
//! - `expansion`: the pass, and [`expand_with`], which can skip function bodies. The rule is
//!   `expanded_fields`, and the rule for eligible types `is_eligible`: both are definitions of
//!   `wast_expand_keys`.
//! - `binding`, `constants`: one `impl` of `Bind` for each part of the tree. `binder`: the state
//!   that they share. `type_names`: the ids of the source's types.
//! - `laws`: theorems about the result.
#![tactic(auto)]

mod binder;
mod binding;
mod constants;
mod expansion;
mod laws;
mod type_names;

pub use expansion::expand_with;
pub use laws::expanded_laws;

/// The pass over the fields of a module.
pub mod types {
    pub use crate::expansion::expand;
}
