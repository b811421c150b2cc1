//! A vector of bytes that stops at a limit, so that a module that is too large takes little memory.

ghost use Rattle.std.specs.Prelude.{◌≡◌, [], ◌++◌, length, take, IfOk, IfErr};
ghost use Rattle.wasm_ops.specs.SinkLaws as laws;
ghost use Rattle.wasm_ops.specs.declared.sink.Refusal.TheVariants as refusal;

use crate::one_move::replace_byte;
use std::alloc::Global;
use wasm_ops::{Refusal, Sink};
use wast_base::Error;

/// The size in bytes that a vector without reserved memory stops at: 16 MiB.
const LIMIT: usize = 16_777_216;

/// The length in bytes past which a piece is long.
const SHORT: usize = 64;

/// Bytes that take a long piece only up to a limit.
///
/// A slice can be in many places of a tree, as the bytes of a name or of data. So a tree of a few
/// MiB can have 4 GiB of bytes. Short pieces are taken past the limit, because the tree has about
/// as much memory for each as its bytes take.
#[derive(Drop)]
pub(crate) struct Capped {
    bytes: Vec<u8>,
    limit: usize,
    is_full: bool,
}

impl Capped {
    /// Creates a vector that stops at the limit. Does not allocate.
    pub(crate) fn new(alloc: Global) -> Capped
        ensures { result.bytes.items ≡ [] }
    {
        Capped {
            bytes: Vec::new(alloc),
            limit: LIMIT,
            is_full: false,
        }
    }

    /// Creates a vector without a limit, with reserved memory for `size` bytes.
    pub(crate) fn reserve(alloc: Global, size: u64) -> Result<Capped, Refusal>
        ensures ok { IfOk result (λ c. c.bytes.items ≡ []) }
        ensures err { IfErr result (λ e. e ≡ refusal.Memory) }
    {
        let mut bytes = Vec::new(alloc);
        match bytes.reserve(size as usize) {
            Ok(()) => Ok(Capped {
                bytes,
                limit: usize::MAX,
                is_full: false,
            }),
            Err(_) => Err(Refusal::Memory),
        }
    }

    /// Returns whether a long piece was refused because of the limit.
    pub(crate) fn is_full(&self) -> bool
        ensures { result ≡ self.now.is_full }
    {
        self.is_full
    }

    /// Returns the bytes.
    pub(crate) fn finish(self) -> Vec<u8>
        ensures { result ≡ self.bytes }
    {
        self.bytes
    }

    /// Returns whether so many bytes are within the limit, and notes it if they are not.
    ///
    /// It is a separate function, because only the code for short pieces should be inlined.
    #[cold]
    #[inline(never)]
    fn has_room(&mut self, count: usize) -> bool
        ensures { self.new.bytes ≡ self.old.bytes }
    {
        if self.bytes.len().saturating_add(count) <= self.limit {
            return true;
        }
        self.is_full = true;
        false
    }
}

/// A vector whose bytes move once if a length of several bytes replaces one byte. A piece that is
/// not taken is refused as by a vector, and [`Capped::is_full`] returns whether it was the limit.
impl Sink for Capped {
    ghost rules = { record {
      appended = λ a b x. b.bytes.items ≡ a.bytes.items ++ x;
      fits = λ _ _. ⊥;
      size_of = λ a. length a.bytes.items;
      is_cut = λ a n b. b.bytes.items ≡ take n a.bytes.items;
      is_set = λ a at n b. b.bytes.items ≡ laws.with_number a.bytes.items at n;
      refusal = refusal.Memory;
    } };

    fn put<'e>(&mut self, bytes: &[u8]) -> Result<(), Error<'e>> {
        Ok(self.push_bytes(bytes)?)
    }

    #[inline(always)]
    fn push_bytes(&mut self, bytes: &[u8]) -> Result<(), Refusal> {
        if bytes.len() > SHORT && !self.has_room(bytes.len()) {
            return Err(Refusal::Memory);
        }
        match self.bytes.push_bytes(bytes) {
            Ok(()) => Ok(()),
            Err(refusal) => Err(refusal),
        }
    }

    #[inline(always)]
    fn push_number(&mut self, n: u64) -> Result<(), Refusal> {
        match self.bytes.push_number(n) {
            Ok(()) => Ok(()),
            Err(refusal) => Err(refusal),
        }
    }

    fn size(&self) -> u64 {
        self.bytes.size()
    }

    fn cut(&mut self, size: u64) {
        self.bytes.cut(size);
    }

    fn set_number(&mut self, at: u64, n: u64) -> bool {
        if replace_byte(&mut self.bytes, at as usize, n) {
            return true;
        }
        false
    }

    ghost laws = { record {
      none = λ a. laws.none a.bytes.items;
      grows = λ a b x. laws.grows a.bytes.items b.bytes.items x;
      joins = λ a b c x y. laws.joins a.bytes.items b.bytes.items c.bytes.items x y;
      cuts_back = λ a b c x. laws.cuts_back a.bytes.items b.bytes.items c.bytes.items x;
      sets = λ a b c byte n x. laws.sets a.bytes.items b.bytes.items c.bytes.items byte n x;
      fits_less = λ a m n le h. h;
      fits_rest = λ a b x n le h e. h;
    } };
}
