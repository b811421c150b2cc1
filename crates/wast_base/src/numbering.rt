//! Replacing ids by the numbers that they refer to.

ghost use Rattle.std.specs.Prelude.{◌≡◌, ℕ, Some, Option as Maybe, IfOk};
ghost use Rattle.wast_base.specs.Ids.{Name, name_of};
ghost use Rattle.wast_base.specs.Denoted.{denoted, resolved_index};
ghost use Rattle.wast_base.specs.FirstUnmet.{first_unmet, known_index};
ghost use Rattle.wast_base.specs.Outcomes.{Outcome};

use crate::faults::{Error, Fault};
use crate::ids::{Id, Index};

/// A source of numbers for ids, such as a namespace or the enclosing blocks (text format: indices).
///
/// For example, in `(module (func $a) (func $b))` the namespace of functions has 1 for `$b`.
pub trait Numbering<'a> {
    /// The number of a name, if the name is known.
    /// Implementations define it, and the contracts below state their results by it.
    ghost numbers: { Self → Name → Maybe ℕ };

    /// Returns the number of an id, or `None` if it is unknown. Ignores positions. Takes no memory.
    fn number_of(&self, id: &Id<'a>) -> Option<u32>
        ensures { result ≡ numbers self.now (name_of id.now) };
}

/// Returns the number that an index refers to, or `None` for an unknown id.
///
/// For example, if `$f` has the number 2, the result for the index `$f` is 2, and for the index 5
/// it is 5.
pub fn denoted_number<'a, N: Numbering<'a>>(numbering: &N, idx: &Index<'a>) -> Option<u32>
    ensures { result ≡ denoted (N.numbers numbering.now) idx.now }
{
    match idx {
        Index::Num(number, _) => Some(*number),
        Index::Id(id) => numbering.number_of(id),
    }
}

/// Replaces a known id by its number. Returns the number that the index refers to, or `None` for an
/// unknown id.
///
/// The number has the position of the id. A number and an unknown id are left unchanged. For
/// example, if `$f` has the number 2, `$f` at offset 8 becomes the number 2 at offset 8.
pub fn try_number<'a, N: Numbering<'a>>(numbering: &N, idx: &mut Index<'a>) -> Option<u32>
    ensures number { result ≡ denoted (N.numbers numbering.now) idx.old }
    ensures index { idx.new ≡ resolved_index (N.numbers numbering.now) idx.old }
{
    let id = match *idx {
        Index::Num(number, _) => return Some(number),
        Index::Id(id) => id,
    };
    let number = numbering.number_of(&id)?;
    *idx = Index::Num(number, id.span());
    Some(number)
}

/// Resolves an index as [`try_number`] does, but an unknown id is E4. Takes no memory.
///
/// `word` is the kind of item in the message. For example, with the word "func" an unknown `$g` at
/// offset 8 is the error "unknown func: failed to find name `$g`" at 8.
pub fn number_index<'a, N: Numbering<'a>>(
    numbering: &N,
    idx: &mut Index<'a>,
    word: &'a str,
) -> Result<u32, Error<'a>>
    ensures answer { Outcome ⊥ ⊥ (first_unmet (known_index (N.numbers numbering.now) word.now idx.old)) result }
    ensures number { IfOk result (λ n. denoted (N.numbers numbering.now) idx.old ≡ Some n) }
    ensures index { idx.new ≡ resolved_index (N.numbers numbering.now) idx.old }
{
    let id = match *idx {
        Index::Num(number, _) => return Ok(number),
        Index::Id(id) => id,
    };
    let Some(number) = numbering.number_of(&id) else {
        return Err(Error::new(id.span(), Fault::Unknown(word, id.name())));
    };
    *idx = Index::Num(number, id.span());
    Ok(number)
}
