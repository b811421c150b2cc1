//! `Seq`, a `Vec` whose model in contracts is the list of its elements.

ghost use Rattle.std.specs.Prelude.{◌≡◌, [], ◌∷◌, ◌++◌, ◌<◌, ◌^◌, ◌==◌, length, Some, slice_get, slice_index_or, OnOk, OnErr};
ghost use Rattle.std.specs.Borrow.{sem};
ghost use Rattle.std.specs.Iterator.{YieldsFirst, item_count};
ghost use Rattle.std.specs.Iterator.Adapters.{IterYieldsInOrder, IterYieldsInReverse};
ghost use Rattle.std.specs.Slice.Iter.{iter_rest};

use std::alloc::{AllocError, Global};
use std::fmt::{self, Debug};
use std::marker::Model;
use std::{ops, slice, vec};

/// A `Vec` whose model in contracts is the list of its elements.
///
/// The lists of the AST have this type. Contracts see a `Vec` with its pointer and capacity, so
/// they could not state that two `Vec`s are equal. `for item in &list` and `list[index]` work as
/// for a `Vec`, and `{:?}` prints the list of elements. Only [`Seq::push`] allocates.
///
/// # Example
///
///     let mut list = Seq::new(alloc);
///     assert!(rt; list.is_empty() && list.len() == 0);
///     list.push(1).expect(&rt, "memory");
///     list.push(2).expect(&rt, "memory");
///     *list.at_mut(1) = 5;
///     assert!(rt; !list.is_empty() && list.len() == 2 && list.as_slice() == [1, 5].as_slice());
#[derive(Drop)]
pub struct Seq<T> {
    items: Vec<T>,
}

impl<T> Model for Seq<T> {
    ghost use Rattle.std.specs.Prelude.{List};
    ghost use Rattle.std.specs.Coded.{coded_list};

    ghost Value = { List T };

    ghost coded = { coded_list T.code };

    ghost view = { λ s. s.items.items };
}

impl<T> Seq<T> {
    ghost use Rattle.wast_base.specs.Lending.{LendsItem};

    /// Makes an empty list. [`Seq::push`] allocates from `alloc`.
    pub fn new(alloc: Global) -> Self
        ensures { result ≡ [] }
    {
        Seq {
            items: Vec::new(alloc),
        }
    }

    /// Makes a list of the elements of a vector, in order.
    pub fn from_vec(items: Vec<T>) -> Self
        ensures { result ≡ items.items }
    {
        Seq { items }
    }

    /// Returns the elements as a vector, in order. Takes no memory.
    pub fn into_vec(self) -> Vec<T>
        ensures { result.items ≡ self }
    {
        let Seq { items } = self;
        items
    }

    /// Borrows the elements as a slice, in order.
    pub fn as_slice(&self) -> &[T]
        ensures { result.now ≡ self.now }
    {
        self.items.as_slice()
    }

    /// Iterates over the elements, in order, as `for item in &list` does.
    pub fn iter(&self) -> slice::Iter<'_, T>
        ensures rest { iter_rest result ≡ self.now }
        ensures len { length (iter_rest result) ≡ length self.now }
        ensures bound { length (iter_rest result) < 2 ^ 64 }
        ensures runs { IterYieldsInOrder T }
        ensures runs_back { IterYieldsInReverse T }
    {
        self.items.as_slice().iter()
    }

    /// Returns the number of elements.
    pub fn len(&self) -> usize
        ensures { result ≡ length self.now }
    {
        self.items.len()
    }

    /// Returns whether the list is empty.
    pub fn is_empty(&self) -> bool
        ensures { result ≡ (length self.now == 0) }
    {
        self.items.is_empty()
    }

    /// Borrows the element at `index` mutably.
    pub fn at_mut(&mut self, index: usize) -> &mut T
        requires { index < length self.old }
        ensures* writes_back { sem 𝓛 (LendsItem T.row self.entry index result) }
        ensures value { result.now ≡ slice_index_or self.old index result.now }
    {
        &mut self.items[index]
    }
}

impl<T: Drop> Seq<T> {
    /// Appends an element. If an allocation fails, the list is unchanged and `item` is dropped.
    pub fn push(&mut self, item: T) -> Result<(), AllocError>
        ensures ok { OnOk result (self.new ≡ self.old ++ item ∷ []) }
        ensures err { OnErr result (self.new ≡ self.old) }
    {
        self.items.push(item)?;
        Ok(())
    }
}

impl<T> Seq<T> {
    /// Returns an iterator over the elements by value, in order.
    ///
    /// # Example
    ///
    ///     let mut rest = list.into_iter();
    ///     for want in [Some(1), Some(5), Some(9), None] {
    ///         assert!(rt; rest.next() == want);
    ///     }
    pub fn into_iter(self) -> IntoIter<T>
        ensures { result ≡ self }
    {
        let Seq { items } = self;
        IntoIter {
            rest: items.into_iter(),
        }
    }
}

impl<'a, T> IntoIterator for &'a Seq<T> {
    type Item = &'a T;

    type IntoIter = slice::Iter<'a, T>;

    ghost into_iter_gives = { λ s r. (iter_rest r ≡ s.now) × (length (iter_rest r) < 2 ^ 64) × IterYieldsInOrder T };

    fn into_iter(self) -> slice::Iter<'a, T> {
        self.iter()
    }
}

/// Borrows the element at an index, which has to be less than the length.
impl<T> ops::Index<usize> for Seq<T> {
    type Output = T;

    ghost can_index = { λ s index. index < length s };

    ghost index_gives = { λ s index item. slice_get s index ≡ Some item };

    fn index(&self, index: usize) -> &T {
        &self.items[index]
    }
}

impl<T: Debug> Debug for Seq<T> {
    ghost use Rattle.std.specs.Fmt.{debug_list};

    ghost debug_output = { λ s. debug_list T.debug_output s };

    fn fmt<W: fmt::Write>(&self, f: &mut fmt::Formatter<W>) -> fmt::Result {
        Debug::fmt(&self.items.as_slice(), f)
    }
}

/// An iterator over the elements of a `Seq` by value, from [`Seq::into_iter`].
///
/// Its model in contracts is the list of the elements that are left. No call on it allocates.
#[derive(Drop)]
pub struct IntoIter<T> {
    rest: vec::IntoIter<T>,
}

impl<T> Model for IntoIter<T> {
    ghost use Rattle.std.specs.Prelude.{List, ◌≡◌, length};
    ghost use Rattle.std.specs.Coded.{coded_list};
    ghost use Rattle.std.specs.Vec.Iter.{into_iter_items, into_iter_len};

    ghost Value = { List T };

    ghost coded = { coded_list T.code };

    ghost view = { λ s. into_iter_items s.rest };

    ghost invariant = { λ s. into_iter_len s.rest ≡ length (into_iter_items s.rest) };
}

impl<T: Drop> Iterator for IntoIter<T> {
    type Item = T;

    ghost next_gives = { YieldsFirst (λ s. s) };

    ghost remaining = { item_count (λ s. s) };

    fn next(&mut self) -> Option<T> {
        self.rest.next()
    }
}
