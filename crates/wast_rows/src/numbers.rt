//! The number of a line.

ghost use Rattle.std.specs.Prelude.{◌≡◌, ◌≢◌, ◌<◌, IsTrue, length, not, slice_index, MatchOption};
ghost use Rattle.wast_rows.specs.Numerals.{IsDecimalOf, IsNoNumber};

use std::str;

/// Returns whether a line has no sign, and no zero before another digit.
#[tactic(auto, using(crate::proofs::Numerals::no_plus, crate::proofs::Numerals::no_leading_zero))]
fn has_plain_start(line: &[u8]) -> bool
    ensures sign { IsTrue result → slice_index line.now 0 ≢ 43 }
    ensures zero { IsTrue result → slice_index line.now 0 ≡ 48 → length line.now < 2 }
    ensures none { IsTrue (not result) → IsNoNumber line.now }
{
    match line.first() {
        Some(b'+') => false,
        Some(b'0') => line.len() < 2,
        _ => true,
    }
}

/// Returns the number of a line: a `u32` in decimal form, without sign and leading zeros.
///
/// Returns `None` for every other line, also for one that is not UTF-8.
pub(crate) fn number(line: &[u8]) -> Option<u32>
    ensures { MatchOption result (IsNoNumber line.now) (IsDecimalOf line.now) }
{
    if !has_plain_start(line) {
        return None;
    }
    match str::from_utf8(line) {
        Ok(text) => text.parse::<u32>().ok(),
        Err(_) => None,
    }
}
