//! Signatures of function types as keys of a map, and the definitions of what type uses resolve to
//! (text format: type uses).
//!
//! `wast_expand_types` resolves type uses with it, and `wast_resolve_rules` states the checks of
//! resolving over its definitions. The two do not wait for one another's proofs. `wast_expand`
//! exports its types.
//!
//! # Example
//!
//!     let mut cx = Expander::new(alloc);
//!     ty.expand(&mut cx).expect(rt, "memory");
//!     let empty = T::empty(alloc).key(&cx).expect(rt, "memory");
//!
//! For example, in `(func) (type $t (func))` the key of `(func)` has the index `$t`.
//!
//! # Modules
//!
//! - `keys`: [`FuncKey`], and the traits [`TypeReference`] and [`TypeKey`]. `same_signature` of
//!   `specs/Signatures.antt` is the rule for equal signatures.
//! - `expanders`: [`Expander`], the map from signatures to types.
//! - `examples`: example modules that the definitions compute.
#![tactic(auto)]

mod examples;
mod expanders;
mod keys;

pub use expanders::{Expander, put_key, with_names};
pub use keys::{FuncKey, TypeKey, TypeReference, key_in};
