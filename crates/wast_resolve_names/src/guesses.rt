//! Index spaces with cached positions: hash tables that make look-ups of ids fast if there are
//! many.

ghost use Rattle.std.specs.Prelude.{◌≡◌, IfOk, IfSome};
ghost use Rattle.std.specs.FinMap as finmap;
ghost use Rattle.wast_base.specs.Ids.{name_of};
ghost use Rattle.wast_resolve_namespace.specs.Filling.{FillsSpace};
ghost use Rattle.wast_resolve_namespace.specs.Namespaces.{empty_from, number_in};
ghost use Rattle.wast_resolve_namespace.specs.Places.{entries_of};
ghost use Rattle.wast_resolve_names.specs.Guesses.{Bears};

use std::alloc::{AllocError, Global};
use std::marker::Model;
use wast_base::{Id, Numbering};
use wast_resolve_namespace::{Namespace, NamespaceBuilder, leading};

/// Up to this number of ids there is no hash table.
const FEW: usize = 7;

/// The number of slots that a name can use, starting with the slot of its hash.
const TRIES: usize = 4;

/// An odd multiplier for hashes: its small multiples differ in their high bits.
const SPREAD: u64 = 0x9e37_79b9_7f4a_7c15;

/// An index space, with a hash table of positions.
///
/// For example, `$f` in the index space of `(func $f) (func)` has the number 0.
///
/// A cached position is only a hint. The id at that position is compared. If it differs or there is
/// no position, the index space is searched. Only [`filled`] allocates.
#[derive(Drop)]
pub struct CachedNames<'a> {
    names: Namespace<'a>,
    // positions plus one, each in a slot of its name; 0 is an empty slot
    slots: Vec<u32>,
}

impl<'a> Model for CachedNames<'a> {
    ghost use Rattle.wast_resolve_namespace.specs.Namespaces.{NameSpace, coded_space};

    ghost Value = { NameSpace };

    ghost coded = { coded_space };

    ghost view = { λ s. s.names };
}

impl<'a> CachedNames<'a> {
    /// Returns an empty index space with count 0.
    pub fn new(alloc: Global) -> Self
        ensures { result ≡ empty_from 0 }
    {
        CachedNames::with_count(alloc, 0)
    }

    /// Returns an index space without ids, with this count.
    ///
    /// For example, with count 2 it is the index space of `(func) (func)`.
    pub fn with_count(alloc: Global, count: u32) -> Self
        ensures { result ≡ empty_from count }
    {
        CachedNames {
            names: Namespace::with_count(alloc, count),
            slots: Vec::new(alloc),
        }
    }

    /// Adds a hash table to an index space. Allocates once, and only if there are many ids.
    fn of(alloc: Global, names: Namespace<'a>) -> Result<Self, AllocError>
        ensures { IfOk result (λ s. s ≡ names.entry) }
    {
        let slots = slots_of(alloc, names.pairs())?;
        Ok(CachedNames { names, slots })
    }

    /// Returns the number of an id, if it is known. Its position does not matter.
    pub fn find(&self, id: &Id<'a>) -> Option<u32>
        ensures { result ≡ number_in self.now (name_of id.now) }
    {
        let pairs = self.names.pairs();
        if let Some(at) = guess(&self.slots, pairs, id) {
            return Some(pairs[at].1);
        }
        self.names.find(id)
    }

    /// Returns the ids with their numbers, each once, as [`Namespace::pairs`] does.
    pub fn pairs(&self) -> &[(Id<'a>, u32)]
        ensures { entries_of result.now ≡ finmap.entries self.now.names }
    {
        self.names.pairs()
    }
}

impl<'a> Numbering<'a> for CachedNames<'a> {
    ghost numbers = { number_in };

    fn number_of(&self, id: &Id<'a>) -> Option<u32> {
        self.find(id)
    }
}

/// Returns the index space of collected items, or the position of the first item with an id of an
/// earlier one.
///
/// For example, it returns the position 2 for `$a`, `$b` and `$a`.
///
/// Allocates only for more than 7 ids: for the hash table, and to sort more than 20.
pub fn filled<'a>(
    gathering: NamespaceBuilder<'a>,
    alloc: Global,
) -> Result<Result<CachedNames<'a>, u32>, AllocError>
    ensures { IfOk result (FillsSpace gathering.entry) }
{
    match gathering.build(alloc)? {
        Ok(names) => {
            let guessed = CachedNames::of(alloc, names)?;
            Ok(Ok(guessed))
        }
        Err(clash) => Ok(Err(clash)),
    }
}

/// Returns a hash table for these ids, or an empty one if there are few.
fn slots_of<'a>(alloc: Global, names: &[(Id<'a>, u32)]) -> Result<Vec<u32>, AllocError> {
    if names.len() <= FEW {
        return Ok(Vec::new(alloc));
    }
    let mut slots = vec![in alloc; 0; names.len().saturating_mul(4)]?;
    for i in 0..names.len() {
        let first = slot(&names[i].0, slots.len());
        if let Ok(guess) = u32::try_from(i + 1) {
            leave(&mut slots, first, guess);
        }
    }
    Ok(slots)
}

/// Stores a position in the first empty slot of a name, if there is one.
fn leave(slots: &mut [u32], first: usize, guess: u32) {
    for i in 0..TRIES {
        let slot = first.wrapping_add(i);
        if slot < slots.len() && slots[slot] == 0 {
            slots[slot] = guess;
            return;
        }
    }
}

/// Returns a position at which the id occurs, if the hash table has one.
fn guess<'a>(slots: &[u32], names: &[(Id<'a>, u32)], id: &Id<'a>) -> Option<usize>
    ensures { IfSome result (Bears names.now id.now) }
{
    if slots.is_empty() {
        return None;
    }
    let first = slot(id, slots.len());
    for i in 0..TRIES {
        let guess = *slots.get(first.wrapping_add(i))?;
        let at = guess.checked_sub(1)? as usize;
        if at < names.len() && names[at].0.is_same(id) {
            return Some(at);
        }
    }
    None
}

/// Returns the first slot of a name.
#[inline(always)]
fn slot<'a>(id: &Id<'a>, slots: usize) -> usize {
    let hash = if id.is_gensym() {
        spread(0, id.generation())
    } else {
        hash(id.name().as_bytes())
    };
    ((hash >> 32).wrapping_mul(slots as u64) >> 32) as usize
}

/// Returns a hash whose high bits differ for most texts.
#[inline(always)]
fn hash(text: &[u8]) -> u64 {
    let mut hash = spread(text.len() as u64, leading(text));
    if text.len() <= 8 {
        return hash;
    }
    let mut rest = &text[8..];
    'words: while rest.len() > 8 {
        hash = spread(hash, leading(rest));
        rest = &rest[8..];
    }
    // the last eight bytes, some of which may be included already
    spread(hash, leading(&text[text.len() - 8..]))
}

/// Adds a word to a hash.
fn spread(hash: u64, word: u64) -> u64 {
    (hash.rotate_left(29) ^ word).wrapping_mul(SPREAD)
}
