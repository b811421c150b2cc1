//! Reads bytes of a binary module one after another.

/// The bytes that are left.
#[derive(Clone, Copy)]
pub(crate) struct Bytes<'b>(pub &'b [u8]);

impl<'b> Bytes<'b> {
    /// Returns whether no bytes are left.
    pub fn is_empty(&self) -> bool {
        self.0.is_empty()
    }

    /// Reads a byte.
    pub fn byte(&mut self) -> Option<u8> {
        let (first, rest) = self.0.split_first()?;
        self.0 = rest;
        Some(*first)
    }

    /// Reads so many bytes.
    pub fn take(&mut self, count: usize) -> Option<Bytes<'b>> {
        let (taken, rest) = self.0.split_at_checked(count)?;
        self.0 = rest;
        Some(Bytes(taken))
    }

    /// Reads an integer in LEB128, of which the low 64 bits are returned (binary format, integers).
    fn leb128(&mut self) -> Option<u64> {
        let mut value = 0_u64;
        for number in 0..10_u32 {
            let byte = self.byte()?;
            value |= ((byte & 0x7f) as u64).wrapping_shl(number * 7);
            if byte < 0x80 {
                return Some(value);
            }
        }
        None
    }

    /// Skips an integer in LEB128.
    pub fn skip_integer(&mut self) -> Option<()> {
        let _number = self.leb128()?;
        Some(())
    }

    /// Reads a count or an index.
    pub fn index(&mut self) -> Option<usize> {
        usize::try_from(self.leb128()?).ok()
    }

    /// Reads a list of bytes, as a name is (binary format, names).
    pub fn list(&mut self) -> Option<Bytes<'b>> {
        let count = self.index()?;
        self.take(count)
    }
}
