//! A namespace: the number of each name, and the number of items.

ghost use Rattle.std.specs.Prelude.{◌≡◌, ⊤, ◌+◌, ◌<◌, ◌≤◌, ◌^◌, ◌↔◌, IsTrue, is_some, not, Some, IfSome, IfOk, OnOk, OnErr, IfErr};
ghost use Rattle.std.specs.FinMap as finmap;
ghost use Rattle.std.specs.FinMap.{find, put};
ghost use Rattle.wast_base.specs.Ids.{name_of, place_of, mark_of, mark_of_option, text_of, is_generated};
ghost use Rattle.wast_base.specs.Faults.{diagnostic_of, At, Unknown};
ghost use Rattle.wast_base.specs.Spaces.{is_settled_index};
ghost use Rattle.wast_base.specs.FirstUnmet.{first_unmet, Answers, known_index};
ghost use Rattle.wast_base.specs.Denoted.{denoted, resolved_index};
ghost use Rattle.wast_base.specs.Outcomes.{Gives, unless_refused};
ghost use Rattle.wast_resolve_namespace.specs.Places.{entries_of, AreSorted, IsAt, IsPlace};
ghost use Rattle.wast_resolve_namespace.specs.Namespaces.{NameSpace, coded_space, empty_from, number_in, with_unnamed_item, named, registered, new_item, new_name};
ghost use Rattle.wast_base.specs.Order.{key_cmp, key_of};

use crate::heads::ending;
use std::alloc::{AllocError, Global};
use std::marker::Model;
use wast_base::{Error, Fault, Id, Index, Numbering, number_index, place_among, try_number};

/// Up to this many names are searched linearly first, because that is faster than a binary search.
const FEW: usize = 32;

/// A namespace: a finite map from names to numbers, and a count of items (text format: indices).
///
/// Its model in contracts is both. Names are those of ids, without their positions. Look-ups are a
/// binary search. Up to 32 names are searched linearly first. The count is at most 4,294,967,295.
/// Adding an id can fail with E12: allocation failed. The namespace is then unchanged.
///
/// # Example
///
///     assert!(rt; space.register(Some(written("abcdefgh1")), "func") == Ok(1));
///     assert!(rt; space.register_specific(written("b"), 9, "func") == Ok(()));
///     assert!(rt; space.pairs().len() == 3);
#[derive(Drop)]
pub struct Namespace<'a> {
    // Sorted by name.
    names: Vec<(Id<'a>, u32)>,
    count: u32,
}

impl<'a> Model for Namespace<'a> {
    ghost Value = { NameSpace };

    ghost coded = { coded_space };

    ghost view = { λ s. record { names = finmap.from_sorted (entries_of s.names.items); count = s.count } };

    ghost invariant = { λ s. AreSorted s.names.items };
}

impl<'a> Namespace<'a> {
    /// Creates a namespace without names, with the count 0. Does not allocate.
    pub fn new(alloc: Global) -> Self
        ensures { result ≡ empty_from 0 }
    {
        Namespace::with_count(alloc, 0)
    }

    /// Creates a namespace without names, with this count. Does not allocate.
    pub fn with_count(alloc: Global, count: u32) -> Self
        ensures { result ≡ empty_from count }
    {
        Namespace::from_sorted(Vec::new(alloc), count)
    }

    /// Creates a namespace of sorted names, with this count.
    pub(crate) fn from_sorted(names: Vec<(Id<'a>, u32)>, count: u32) -> Self
        requires { AreSorted names.items }
        ensures { result ≡ record { names = finmap.from_sorted (entries_of names.entry.items); count = count } }
    {
        Namespace { names, count }
    }

    /// Adds an item, with its id if it has one, and returns its number, which is the count before.
    /// Test [`is_full`](Namespace::is_full) first.
    ///
    ///     assert!(rt; space.register(Some(written("abcdefgh1")), "func") == Ok(1));
    ///
    /// A new name moves the greater ones in memory, so n calls take time that grows with n². To
    /// build a namespace of many items, use [`NamespaceBuilder`](crate::NamespaceBuilder).
    ///
    /// # Errors
    ///
    /// E2 at the id, if the namespace has the name already. The item is still counted, and the name
    /// has the new number. `desc` is the kind of item in the message.
    pub fn register(&mut self, id: Option<Id<'a>>, desc: &'a str) -> Result<u32, Error<'a>>
        requires { self.old.count + 1 < 2 ^ 32 }
        ensures answer { Gives (IsTrue (is_some id.entry)) (first_unmet (new_item self.old desc.now (mark_of_option id.entry))) self.old.count result }
        ensures state { self.new ≡ unless_refused result (registered self.old (mark_of_option id.entry)) self.old }
    {
        let number = self.count;
        if let Some(id) = id {
            let before = self.put(id, number)?;
            if before.is_some() {
                self.count += 1;
                return Err(Error::new(id.span(), Fault::Duplicate(desc)));
            }
        }
        self.count += 1;
        Ok(number)
    }

    /// Adds an item without an id, and returns its number, which is the count before. Does not
    /// allocate. Test [`is_full`](Namespace::is_full) first.
    pub fn alloc(&mut self) -> u32
        requires { self.old.count + 1 < 2 ^ 32 }
        ensures number { result ≡ self.old.count }
        ensures state { self.new ≡ with_unnamed_item self.old }
    {
        self.count += 1;
        self.count - 1
    }

    /// Returns whether the count is 4,294,967,295, so that no more items can be added. Does not
    /// allocate.
    pub fn is_full(&self) -> bool
        ensures { IsTrue result ↔ (2 ^ 32 ≤ self.now.count + 1) }
    {
        self.count == u32::MAX
    }

    /// Sets the number of an id, and leaves the count unchanged.
    ///
    ///     assert!(rt; space.register_specific(written("b"), 9, "func") == Ok(()));
    ///
    /// For example, the fields of a struct are numbered with it.
    ///
    /// # Errors
    ///
    /// E3 at the id, if the namespace has the name already. It has the new number all the same.
    /// `desc` is the kind of item in the message.
    pub fn register_specific(
        &mut self,
        id: Id<'a>,
        number: u32,
        desc: &'a str,
    ) -> Result<(), Error<'a>>
        ensures answer { Gives ⊤ (first_unmet (new_name self.old desc.now (mark_of id.entry))) tt result }
        ensures state { self.new ≡ unless_refused result (named self.old (name_of id.entry) number) self.old }
    {
        let before = self.put(id, number)?;
        if before.is_some() {
            return Err(Error::new(id.span(), Fault::DuplicateField(desc, id.name())));
        }
        Ok(())
    }

    /// Returns the number of an index, and replaces a known id by its number.
    ///
    /// A number is returned as it is. The new index keeps the position of the id. For an unknown id
    /// the result is `None`, and the index is unchanged. Does not allocate.
    pub fn try_resolve(&self, idx: &mut Index<'a>) -> Option<u32>
        ensures number { result ≡ denoted (number_in self.now) idx.old }
        ensures index { idx.new ≡ resolved_index (number_in self.now) idx.old }
    {
        try_number(self, idx)
    }

    /// Returns the number of an index, and replaces an id by its number. An unknown id is an error.
    ///
    /// The new index keeps the position of the id, as in [`Namespace::try_resolve`]. A generated id
    /// must be in the namespace. Does not allocate.
    ///
    /// # Errors
    ///
    /// E4 at the position of the id, if the namespace does not have it. `desc` is the kind of item
    /// in the message. The index is unchanged then.
    pub fn resolve(&self, idx: &mut Index<'a>, desc: &'a str) -> Result<u32, Error<'a>>
        requires { IsTrue (is_settled_index (number_in self.now) idx.old) }
        ensures number { IfOk result (λ n. denoted (number_in self.now) idx.old ≡ Some n) }
        ensures refusal { IfErr result (λ e. Answers ⊥ ⊥ (diagnostic_of e) (first_unmet (known_index (number_in self.now) desc.now idx.old))) }
        ensures index { idx.new ≡ resolved_index (number_in self.now) idx.old }
    {
        number_index(self, idx, desc)
    }

    /// Returns each name with its number, in the order of names. Does not allocate.
    ///
    /// The order is by the bytes of the text, then source ids before generated ones, then by
    /// generation.
    pub fn pairs(&self) -> &[(Id<'a>, u32)]
        ensures { entries_of result.now ≡ finmap.entries self.now.names }
    {
        &self.names
    }

    /// Returns the number of an id, if the namespace has it. Its position is ignored. Does not
    /// allocate.
    ///
    /// # Example
    ///
    ///     assert!(rt; space.find(&a) == Some(1) && space.find(&b) == Some(3));
    pub fn find(&self, id: &Id<'a>) -> Option<u32>
        ensures { result ≡ number_in self.now (name_of id.now) }
    {
        match sought(&self.names, id) {
            Ok(at) => Some(self.names[at].1),
            Err(_) => None,
        }
    }

    /// Sets the number of a name, and returns the number before. If allocation fails, nothing
    /// changes.
    fn put(&mut self, id: Id<'a>, number: u32) -> Result<Option<u32>, AllocError>
        ensures before { IfOk result (λ before. before ≡ number_in self.old (name_of id.entry)) }
        ensures ok { OnOk result (self.new ≡ named self.old (name_of id.entry) number) }
        ensures err { OnErr result (self.new ≡ self.old) }
    {
        let before = put_among(&mut self.names, id, number)?;
        Ok(before)
    }
}

impl<'a> Numbering<'a> for Namespace<'a> {
    ghost numbers = { number_in };

    fn number_of(&self, id: &Id<'a>) -> Option<u32> {
        self.find(id)
    }
}

/// Returns the position of a name among sorted names, or the position to insert it.
///
/// Few names are searched linearly first.
fn sought<'a>(names: &[(Id<'a>, u32)], id: &Id<'a>) -> Result<usize, usize>
    requires { AreSorted names.now }
    ensures { IsPlace names.now (key_of (name_of id.now)) result }
{
    if names.len() <= FEW {
        if let Some(at) = seen_among(names, id) {
            return Ok(at);
        }
    }
    place_of(names, id)
}

/// Returns the position of a name among sorted names, by a linear search that may miss it.
///
/// Whole names are compared only if their lengths and their last bytes are equal. So most names are
/// skipped in a few instructions. Nothing is guaranteed if the result is `None`.
fn seen_among<'a>(names: &[(Id<'a>, u32)], id: &Id<'a>) -> Option<usize>
    requires { AreSorted names.now }
    ensures { IfSome result (IsAt names.now (key_of (name_of id.now))) }
{
    let text = id.name().as_bytes();
    let end = ending(text);
    for i in 0..names.len() {
        let other = names[i].0.name().as_bytes();
        if other.len() == text.len() && ending(other) == end && names[i].0.is_same(id) {
            return Some(i);
        }
    }
    None
}

/// Returns the position of a name among sorted names, or the position to insert it, by binary
/// search.
fn place_of<'a>(names: &[(Id<'a>, u32)], id: &Id<'a>) -> Result<usize, usize>
    requires { AreSorted names.now }
    ensures { IsPlace names.now (key_of (name_of id.now)) result }
{
    let at = place_among(names, id);
    if at < names.len() && names[at].0.is_same(id) {
        Ok(at)
    } else {
        Err(at)
    }
}

/// Sets the number of a name among sorted names, and returns the number before. If allocation
/// fails, nothing changes.
fn put_among<'a>(
    names: &mut Vec<(Id<'a>, u32)>,
    id: Id<'a>,
    number: u32,
) -> Result<Option<u32>, AllocError>
    requires { AreSorted names.old.items }
    ensures before { IfOk result (λ before. before ≡ find key_cmp (key_of (name_of id.entry)) (entries_of names.old.items)) }
    ensures ok { OnOk result (entries_of names.new.items ≡ put key_cmp (key_of (name_of id.entry)) number (entries_of names.old.items)) }
    ensures err { OnErr result (names.new.items ≡ names.old.items) }
{
    match place_of(names, &id) {
        Ok(at) => {
            let before = names[at].1;
            names[at] = (id, number);
            Ok(Some(before))
        }
        Err(at) => {
            names.insert(at, (id, number))?;
            Ok(None)
        }
    }
}

/// Returns E4 at the position of an id: the id is not defined.
///
/// `ns` is the kind of item in the message, such as `func`. A generated id has no text for it, so
/// the id must be from the source.
pub fn resolve_error<'a>(id: Id<'a>, ns: &'a str) -> Error<'a>
    requires { IsTrue (not (is_generated (name_of id))) }
    ensures { diagnostic_of result ≡ At (Unknown ns.now (text_of (name_of id.entry))) (place_of id.entry) }
{
    Error::new(id.span(), Fault::Unknown(ns, id.name()))
}
