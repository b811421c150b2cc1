//! Builds a namespace from the names of all items at once.

ghost use Rattle.std.specs.Prelude.{◌≡◌, ◌+◌, ◌<◌, ◌≤◌, ◌^◌, ◌↔◌, ◌++◌, ◌∷◌, [], IsTrue, List, Option as Maybe, length, IfOk, OnOk, OnErr};
ghost use Rattle.wast_base.specs.Ids.{Name, name_of, mark_of_option};
ghost use Rattle.wast_base.specs.Spaces.{name_if, position_of};
ghost use Rattle.wast_resolve_namespace.specs.Places.{entries_of};
ghost use Rattle.wast_resolve_namespace.specs.Filling.{ArePositions, names_from, IsFirstTie, HasFirstClash, FillsSpace, Denotes, first_number, first_of_each, least_of};
ghost use Rattle.wast_base.specs.Order.{key_cmp};

use crate::namespace::Namespace;
use crate::sorting::in_order;
use std::alloc::{AllocError, Global};
use std::marker::Model;
use wast_base::{Id, Numbering, compare_names};

/// The items of an index space in order, before their namespace is built.
///
/// Its model in contracts is the list of their names. Building sorts all ids once, so it is faster
/// than adding them one by one. The only error is `AllocError`: allocation failed.
///
/// # Example
///
///     let mut items = NamespaceBuilder::new(rt.alloc(), 0).expect(&rt, "memory");
///     assert!(rt; items.add(Some(written("abcdefgh2"))) == Ok(()));
///     let filled = items.build(rt.alloc()).expect(&rt, "memory");
#[derive(Drop)]
pub struct NamespaceBuilder<'a> {
    pairs: Vec<(Id<'a>, u32)>,
    count: u32,
}

impl<'a> Model for NamespaceBuilder<'a> {
    ghost Value = { List (Maybe Name) };

    ghost view = { λ g. names_from 0 g.pairs.items g.count };

    ghost invariant = { λ g. ArePositions 0 g.pairs.items g.count };
}

impl<'a> NamespaceBuilder<'a> {
    /// Creates a builder without items. Does not allocate.
    pub fn none(alloc: Global) -> Self
        ensures { result ≡ [] }
    {
        let pairs = Vec::new(alloc);
        NamespaceBuilder { pairs, count: 0 }
    }

    /// Creates a builder without items, with memory for `room` ids.
    pub fn new(alloc: Global, room: usize) -> Result<Self, AllocError>
        ensures { IfOk result (λ g. g ≡ []) }
    {
        let mut pairs = Vec::new(alloc);
        pairs.reserve(room)?;
        Ok(NamespaceBuilder { pairs, count: 0 })
    }

    /// Adds an item, with its id if it has one. Test [`is_full`](NamespaceBuilder::is_full) first.
    ///
    ///     assert!(rt; !items.is_full());
    ///     items.add(item).expect(rt, "memory");
    ///
    /// Allocates only if there are more ids than [`NamespaceBuilder::new`] reserved memory for. If
    /// that fails, the builder is unchanged.
    pub fn add(&mut self, id: Option<Id<'a>>) -> Result<(), AllocError>
        requires { length self.old + 1 < 2 ^ 32 }
        ensures ok { OnOk result (self.new ≡ self.old ++ name_if (mark_of_option id.entry) ∷ []) }
        ensures err { OnErr result (self.new ≡ self.old) }
    {
        let next = self.count + 1;
        if let Some(id) = id {
            self.pairs.push((id, self.count))?;
        }
        self.count = next;
        Ok(())
    }

    /// Returns whether there are 4,294,967,295 items, so that no more can be added.
    pub fn is_full(&self) -> bool
        ensures { IsTrue result ↔ (2 ^ 32 ≤ length self.now + 1) }
    {
        self.count == u32::MAX
    }

    /// Returns the position of the first duplicate: an item with the name of an earlier one.
    ///
    /// For example, the ids `$a $b $a $b` have the first duplicate at position 2.
    ///
    ///     let none = gathered(rt, alloc, ids).first_clash(alloc);
    ///     assert!(rt; none.expect(rt, "memory") == None);
    ///
    /// Allocates only if there are more than 20 ids, to sort them, and frees it.
    pub fn first_clash(self, alloc: Global) -> Result<Option<u32>, AllocError>
        ensures { IfOk result (HasFirstClash self.entry) }
    {
        let NamespaceBuilder { pairs, .. } = self;
        let pairs = in_order(alloc, pairs)?;
        Ok(first_tie(&pairs))
    }

    /// Returns the namespace of the items, or the position of the first duplicate.
    ///
    ///     let filled = items.build(rt.alloc()).expect(&rt, "memory");
    ///     let mut space: Namespace<'_> = filled.expect(&rt, "no clash");
    ///
    /// Each name has the position of its item. Allocates only if there are more than 20 ids, to
    /// sort them.
    pub fn build(self, alloc: Global) -> Result<Result<Namespace<'a>, u32>, AllocError>
        ensures { IfOk result (FillsSpace self.entry) }
    {
        let NamespaceBuilder { pairs, count } = self;
        let pairs = in_order(alloc, pairs)?;
        if let Some(number) = first_tie(&pairs) {
            return Ok(Err(number));
        }
        Ok(Ok(Namespace::from_sorted(pairs, count)))
    }

    /// Returns the namespace of the items, in which a duplicate id is that of the first item.
    ///
    ///     let space: Namespace<'_> = items.build_first_wins(rt.alloc()).expect(&rt, "memory");
    ///     assert!(rt; space.find(&a) == Some(1) && space.find(&b) == Some(3));
    pub fn build_first_wins(&self, alloc: Global) -> Result<Namespace<'a>, AllocError>
        ensures names { IfOk result (Denotes self.now) }
        ensures count { IfOk result (λ s. s.count ≡ length self.now) }
    {
        let pairs = Vec::from_slice(alloc, &self.pairs)?;
        let pairs = in_order(alloc, pairs)?;
        let firsts = first_of_each(alloc, &pairs)?;
        Ok(Namespace::from_sorted(firsts, self.count))
    }
}

/// An id has the position of the first item with it. Each look-up is a linear search, and does not
/// allocate.
impl<'a> Numbering<'a> for NamespaceBuilder<'a> {
    ghost numbers = { λ names name. position_of name names };

    fn number_of(&self, id: &Id<'a>) -> Option<u32> {
        first_number(&self.pairs, id)
    }
}

/// Returns the number of the first pair with this name.
fn first_number<'a>(pairs: &[(Id<'a>, u32)], id: &Id<'a>) -> Option<u32>
    ensures { result ≡ first_number (name_of id.now) pairs.now }
{
    for pair in pairs {
        if id.is_same(&pair.0) {
            return Some(pair.1);
        }
    }
    None
}

/// Returns the first pair of each name, if pairs of one name are neighbours.
fn first_of_each<'a>(
    alloc: Global,
    pairs: &[(Id<'a>, u32)],
) -> Result<Vec<(Id<'a>, u32)>, AllocError>
    ensures { IfOk result (λ firsts. entries_of firsts.items ≡ first_of_each key_cmp (entries_of pairs.now)) }
{
    let mut firsts = Vec::with_capacity(alloc, pairs.len())?;
    if pairs.is_empty() {
        return Ok(firsts);
    }
    firsts.push(pairs[0])?;
    'each: for t in 1..pairs.len() {
        if !compare_names(&pairs[t - 1].0, &pairs[t].0).is_eq() {
            firsts.push(pairs[t])?;
        }
    }
    Ok(firsts)
}

/// Returns the least number of a pair with the same name as the pair before it.
fn first_tie<'a>(pairs: &[(Id<'a>, u32)]) -> Option<u32>
    ensures { IsFirstTie (entries_of pairs.now) result }
{
    if pairs.is_empty() {
        return None;
    }
    let mut least: Option<u32> = None;
    'seek: for t in 0..pairs.len() - 1 {
        if pairs[t].0.is_same(&pairs[t + 1].0) {
            let number = pairs[t + 1].1;
            least = Some(lesser(least, number));
        }
    }
    least
}

/// Returns the lesser of two numbers, the first of which may be missing.
fn lesser(least: Option<u32>, number: u32) -> u32
    ensures { result ≡ least_of least number }
{
    match least {
        Some(other) if other < number => other,
        _ => number,
    }
}
