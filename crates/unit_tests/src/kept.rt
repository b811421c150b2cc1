//! A user-defined sink.

ghost use Rattle.std.specs.Prelude.{◌≡◌, ◌++◌, take, length};
ghost use Rattle.wasm_ops.specs.SinkLaws as laws;
ghost use Rattle.wasm_ops.specs.declared.sink.Refusal.TheVariants as refusal;

use wasm_ops::Sink;
use wast_base::Error;

/// A sink that stores its bytes, and counts the calls that append some.
#[derive(Debug, Drop)]
pub struct Kept {
    /// The bytes.
    pub bytes: Vec<u8>,
    /// The number of calls of `put`, including those whose bytes were cut off later.
    pub puts: u64,
}

/// It defines only what a sink must define. Any call may fail with E12, because allocation may
/// fail.
impl Sink for Kept {
    ghost rules = { record {
      appended = λ a b x. b.bytes.items ≡ a.bytes.items ++ x;
      fits = λ _ _. ⊥;
      size_of = λ a. length a.bytes.items;
      is_cut = λ a n b. b.bytes.items ≡ take n a.bytes.items;
      is_set = λ _ _ _ _. ⊥;
      refusal = refusal.Memory;
    } };

    fn put<'e>(&mut self, bytes: &[u8]) -> Result<(), Error<'e>> {
        self.puts = self.puts.saturating_add(1);
        self.bytes.put(bytes)
    }

    fn size(&self) -> u64 {
        self.bytes.size()
    }

    fn cut(&mut self, size: u64) {
        self.bytes.cut(size);
    }

    ghost laws = { record {
      none = λ a. laws.none a.bytes.items;
      grows = λ a b x. laws.grows a.bytes.items b.bytes.items x;
      joins = λ a b c x y. laws.joins a.bytes.items b.bytes.items c.bytes.items x y;
      cuts_back = λ a b c x. laws.cuts_back a.bytes.items b.bytes.items c.bytes.items x;
      sets = λ a b c byte n x h k. absurd k;
      fits_less = λ a m n le h. h;
      fits_rest = λ a b x n le h e. h;
    } };
}
