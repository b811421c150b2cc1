//! Memory arguments and memory orderings.

ghost use Rattle.std.specs.Prelude.{◌≡◌, ◌&&◌, ◌∷◌, []};
ghost use Rattle.wasm_ops.specs.Spelling.{Any};
ghost use Rattle.wasm_ops.specs.Memargs.{ordering_byte, is_covered_ordering, is_covered_memarg_ordering, index_of, is_covered_target, is_aligned, memarg};

use crate::encode::Encode;
use crate::sink::{Refusal, Sink};

/// A memory ordering of an atomic access (binary format: atomic memory instructions).
#[derive(Clone, Copy, Debug, PartialEq, Eq)]
pub enum Ordering {
    /// Sequentially consistent.
    SeqCst,
    /// Acquire and release.
    AcqRel,
}

impl Ordering {
    /// Returns whether the encoder supports it: only the sequentially consistent ordering.
    pub fn is_covered(self) -> bool
        ensures { result ≡ is_covered_ordering self }
    {
        match self {
            Ordering::SeqCst => true,
            Ordering::AcqRel => false,
        }
    }
}

/// An ordering is encoded as a byte.
impl Encode for Ordering {
    ghost spelling = { λ o. ordering_byte o ∷ [] };

    ghost in_range = { Any };

    ghost is_ready = { is_covered_ordering };

    fn encode<S: Sink>(&self, out: &mut S) -> Result<(), Refusal> {
        (*self as u8).encode(out)
    }
}

/// An ordering in a memory argument (binary format: atomic memory instructions).
///
/// The encoder supports none. The sequentially consistent ordering is the default, and needs no
/// byte.
#[derive(Clone, Copy, Debug, PartialEq, Eq)]
pub enum MemArgOrdering {
    /// The ordering of a load or a store.
    Op(Ordering),
    /// The orderings of a read-modify-write access.
    Rmw(Ordering),
}

impl MemArgOrdering {
    /// Returns whether the encoder supports it: never.
    pub fn is_covered(self) -> bool
        ensures { result ≡ is_covered_memarg_ordering self }
    {
        false // since each is a form that is not covered
    }
}

/// The memory or array that an access goes to (binary format: memory instructions).
#[derive(Clone, Copy, Debug, PartialEq, Eq)]
pub enum MemArgTarget {
    /// The memory at an index.
    Memory(u32),
    /// An array of the type at an index.
    Array(u32),
}

impl MemArgTarget {
    /// Returns whether the encoder supports it: only a memory.
    pub fn is_covered(self) -> bool
        ensures { result ≡ is_covered_target self }
    {
        match self {
            MemArgTarget::Memory(_) => true,
            MemArgTarget::Array(_) => false,
        }
    }

    /// Returns the index of the memory, or of the array type.
    pub(crate) fn index(self) -> u32
        ensures { result ≡ index_of self }
    {
        match self {
            MemArgTarget::Memory(index) => index,
            MemArgTarget::Array(index) => index,
        }
    }
}

/// A memory argument: alignment, offset and memory (binary format: memory instructions).
///
/// # Example
///
/// The default access to memory 0, with an alignment of one byte:
///
///     MemArg {
///         align: 0,
///         target: MemArgTarget::Memory(0),
///         offset: 0,
///         ordering: None,
///     }
#[derive(Clone, Copy, Debug, PartialEq, Eq)]
pub struct MemArg {
    /// The binary logarithm of the alignment. It must be below 64.
    pub align: u32,
    /// The memory or array of the access.
    pub target: MemArgTarget,
    /// The number that is added to the address.
    pub offset: u64,
    /// The ordering, if one is written.
    pub ordering: Option<MemArgOrdering>,
}

impl MemArg {
    /// Returns whether the logarithm of the alignment is below 64.
    pub fn is_aligned(&self) -> bool
        ensures { result ≡ is_aligned self.now }
    {
        self.align < 64
    }

    /// Returns whether the encoder supports it: an access to a memory without an ordering.
    pub fn is_covered(&self) -> bool
        ensures { result ≡ (memarg self.now).is_covered }
    {
        self.target.is_covered() && self.ordering.is_none()
    }
}

/// The memory index is left out for memory 0. Otherwise 64 is added to the logarithm of the
/// alignment, and the index follows: `align=4`, memory 1 and `offset=4` are `42 01 04`.
impl Encode for MemArg {
    ghost spelling = { λ x. (memarg x).bytes };

    ghost in_range = { λ x. (memarg x).in_range };

    ghost is_ready = { λ m. is_aligned m && (memarg m).is_covered };

    fn encode<S: Sink>(&self, out: &mut S) -> Result<(), Refusal> {
        let memory = self.target.index();
        if memory == 0 {
            return (self.align, self.offset).encode(out);
        }
        (self.align + 64, (memory, self.offset)).encode(out)
    }
}
