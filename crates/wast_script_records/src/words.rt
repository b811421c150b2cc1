//! Words of 64 bits.

use std::alloc::AllocError;

/// The start of a string that is absent, or the number of a record that is absent.
pub const NONE: u64 = u64::MAX;

/// Appends words, the lowest byte of each first.
pub(crate) fn put_words(out: &mut Vec<u8>, words: &[u64]) -> Result<(), AllocError> {
    for word in words {
        let bytes = word.to_le_bytes();
        out.extend_from_slice(&bytes)?;
    }
    Ok(())
}
