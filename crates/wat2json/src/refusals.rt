//! Why a script is not converted.

use std::alloc::AllocError;
use wast_tree::Span;
use wat_bytes::Refused;
use wat_text::{TextError, TextFault};

/// Why a script is not converted: an error of its text, or of a module in it.
#[derive(Clone, Copy)]
pub(crate) struct Refusal<'a>(pub Refused<'a>);

impl<'a> Refusal<'a> {
    /// Something that is not as expected at a position.
    pub fn of_text(error: TextError) -> Refusal<'a> {
        Refusal(Refused::Text(error))
    }
}

impl From<AllocError> for Refusal<'_> {
    fn from(_error: AllocError) -> Self {
        Refusal::of_text(TextError::new(Span::default(), TextFault::Memory))
    }
}

/// The number of the last fault of names and type uses, E9.
const LAST: u32 = 9;

/// Returns whether an error is an unsupported construct (E11).
pub(crate) fn is_uncovered(refused: &Refused<'_>) -> bool {
    matches!(refused, Refused::Uncovered(_))
}

/// Returns whether an error is about names, type uses or the order of imports (E1 to E9). A module that is malformed or not valid may
/// have one.
pub(crate) fn is_of_names(refused: &Refused<'_>) -> bool {
    match (refused, refused.number()) {
        (Refused::Module(_), Some(number)) => number <= LAST,
        _ => false,
    }
}
