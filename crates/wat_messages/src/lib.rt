//! Messages for the errors of a text: what was found, what may be there, and the range of the token.
//!
//! The commands and the C library print them. An error has its words and its position; a
//! [`Diagnostic`] finds the rest in the text. For example, for `(func i32.ad)` the error is "unknown
//! operator or unexpected token", and the message is "unknown operator or unexpected token:
//! `i32.ad`; did you mean `i32.add`?". The words of the error come first, because test runners
//! compare them.
//!
//! Nothing here allocates or fails. The time is linear in the text, and a word is compared with at
//! most some thousand others.
//!
//! # Modules
//!
//! - `diagnostics` has [`Diagnostic`] and [`Note`], and `details` what they print after the words.
//! - `findings` says what was found, `hints` what to write in its place, and `advice` what has to be
//!   known if there is no hint.
//! - `ranges` has [`Range`], the part of a text that an error is about.
//! - `lexemes` cuts a text at any offset, `definitions` finds ids and parentheses, and `around` has
//!   what is before and after an offset.
//! - `operations` finds the instruction for a word that is none, and `spellings` that of an old word.
//! - `fields` finds the field of a module that an error is in.
//! - `near` finds the nearest word of those in `lists`; `numbers` and `characters` name both.
#![tactic(auto)]

mod advice;
mod around;
mod characters;
mod definitions;
mod details;
mod diagnostics;
mod fields;
mod findings;
mod hints;
mod lexemes;
mod lists;
mod near;
mod numbers;
mod operations;
mod ranges;
mod spellings;

pub use diagnostics::{Diagnostic, Note};
pub use fields::field_around;
pub use findings::KnownId;
pub use near::{Nearest, NearestId};
pub use ranges::{Range, range_in};
