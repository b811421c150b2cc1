//! The tokens of the text format: words, strings and numbers with their positions.
//!
//! A call allocates only if its comment says so, and may then fail with [`TextFault::Memory`].
#![tactic(auto)]

mod examples;
mod faults;
mod floats;
mod groups;
mod integers;
mod scans;
mod strings;
mod tokens;
mod words;

pub use faults::{TextError, TextFault};
pub use floats::{float32, float64};
pub use groups::TokenGroups;
pub use integers::{integer8, integer16, integer32, integer64, unsigned8, unsigned32, unsigned64};
pub use scans::{token_groups_of, tokens_of, written_tokens_of};
pub use strings::{StringError, Strings, string_places};
pub use tokens::{Annotation, Placed, Token};
pub use words::{
    Alignment, AtomicOp, BlockOp, IndexOrZeroOp, Key, OwnOp, PairOp, UncoveredOp, Word, look_up,
};
