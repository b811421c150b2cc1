//! The ids and types of a module, and look-ups in them (text format: identifiers, indices, types).
//!
//! `wast_resolve_spaces` makes a [`Resolver`] of the fields of a module, and `wast_resolve_passes`
//! replaces ids by what it looks up. The two do not wait for one another's proofs. `wast_resolve`
//! exports the resolver.
//!
//! # Example
//!
//! For example, in `(module (func $f) (func $g))` the index `$g` of `Ns::Func` becomes 1, and `$h`
//! fails with E4.
//!
//! # Modules
//!
//! - `resolver`: [`Resolver`], the index spaces and types of a module. `guesses`: fast look-ups of
//!   ids.
//! - `matches`: when an inline type matches the type at an index (E5, E6, E7), and the trait for
//!   inline types.
//! - `listed_ids`: the ids of fields of a struct, of parameters and of locals.
//! - `laws`: theorems about types that are resolved with a [`Resolver`].
#![tactic(auto)]

mod guesses;
mod laws;
mod listed_ids;
mod matches;
mod resolver;

pub use guesses::{CachedNames, filled};
pub use laws::core_type_laws;
pub use listed_ids::{HasId, count_ids, gather_each, gather_one, have_ids};
pub use matches::TypeReference;
pub use resolver::{
    Ns, Resolver, TypeShape, check_match, number_access, number_if_known, resolver_of,
    unsaid_params, with_types,
};
