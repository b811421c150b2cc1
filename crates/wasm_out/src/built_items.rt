//! The items of a section, encoded one by one, with their number.

ghost use Rattle.std.specs.Prelude.{◌≡◌, ◌+◌, ◌==◌, length, true, IsTrue};
ghost use Rattle.wasm_ops.specs.Spelling.{InRangeU32};
ghost use Rattle.wasm_out.specs.Built.{Adds, behind_count, empty};

use std::alloc::Global;
use std::marker::Model;
use wasm_ops::{Encode, Raw, Refusal, Sink};
use wast_base::{Error, Fault};

/// Encoded items, and their number.
#[derive(Debug, Drop)]
pub(crate) struct BuiltItems {
    count: u32,
    bytes: Vec<u8>,
}

impl Model for BuiltItems {
    ghost use Rattle.wasm_ops.specs.Spelling.{InRangeU32};
    ghost use Rattle.wasm_out.specs.Built.{Built};

    ghost Value = { Built };

    ghost view = { λ s. record { count = s.count; bytes = s.bytes.items } };

    ghost invariant = { λ s. InRangeU32 s.count };
}

impl BuiltItems {
    /// Creates an empty list. Does not allocate.
    pub(crate) fn new(alloc: Global) -> Self
        ensures { result ≡ empty }
    {
        BuiltItems {
            count: 0,
            bytes: Vec::new(alloc),
        }
    }

    /// Returns whether there are no items.
    pub(crate) fn is_empty(&self) -> bool
        ensures { result ≡ (self.now.count == 0) }
    {
        self.count == 0
    }

    /// Returns how many bytes the items have.
    pub(crate) fn byte_len(&self) -> usize
        ensures { result ≡ length self.now.bytes }
    {
        self.bytes.len()
    }

    /// Adds an item, which the encoder supports.
    pub(crate) fn push<'e, T: Encode>(&mut self, item: &T) -> Result<(), Error<'e>>
        requires { IsTrue (T.is_ready item.now) }
        ensures { Adds (InRangeU32 (self.old.count + 1) × T.in_range item.now) self.old self.new
            (T.spelling item.now) result }
    {
        let Some(count) = self.count.checked_add(1) else {
            return Err(Error::refusal(Fault::TooLarge));
        };
        item.encode(&mut self.bytes)?;
        self.count = count;
        Ok(())
    }
}

/// The number of items, then the items (binary format: lists).
impl Encode for BuiltItems {
    ghost spelling = { behind_count };

    ghost in_range = { λ _. Unit {0} };

    ghost is_ready = { λ _. true };

    fn encode<S: Sink>(&self, out: &mut S) -> Result<(), Refusal> {
        (self.count, Raw(&self.bytes)).encode(out)
    }
}
