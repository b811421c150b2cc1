//! Messages that are written to slices.

use std::fmt;

/// A message that is written to a slice: as many of its bytes as fit.
#[derive(Drop)]
pub(crate) struct Message<'a> {
    out: &'a mut [u8],
    size: usize,
}

impl<'a> Message<'a> {
    /// Returns an empty message.
    pub(crate) fn new(out: &'a mut [u8]) -> Message<'a> {
        Message { out, size: 0 }
    }

    /// Returns how many bytes the whole message has.
    pub(crate) fn size(&self) -> usize {
        self.size
    }
}

impl fmt::Write for Message<'_> {
    fn write_str(&mut self, text: &str) -> fmt::Result {
        for byte in text.as_bytes() {
            if let Some(room) = self.out.get_mut(self.size) {
                *room = *byte;
            }
            self.size = self.size.saturating_add(1);
        }
        Ok(())
    }
}
