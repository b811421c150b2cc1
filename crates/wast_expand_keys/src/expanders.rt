//! The map from signatures to types.

ghost use Rattle.std.specs.Prelude.{◌≡◌, [], ◌∷◌, OnOk, OnErr, IfOk, IfErr, IfSome, IfNone, IsSome};
ghost use Rattle.wast_base.specs.Faults.{out_of_memory};
ghost use Rattle.wast_base.specs.Denoted.{resolved_index};
ghost use Rattle.wast_expand_keys.specs.Expanders.{nothing_bound, numbers_in, index_of, Extends};
ghost use Rattle.wast_expand_keys.specs.Hashed.{hash_of, with_hash, bindings_of, ArePlaced, BindsFirst};

use crate::keys::FuncKey;
use std::alloc::Global;
use std::collections::BTreeMap;
use std::hash::{FoldHasher, Hash, Hasher};
use std::marker::Model;
use wast_base::{Error, Index, try_number};
use wast_resolve_namespace::{Namespace, NamespaceBuilder};
use wast_tree_nodes::{FunctionType, HeapType, ValType};

/// A map from signatures to the indices of their types, with the ids of the source's types.
///
/// Its model in contracts is a list of signatures with indices and a list of ids. No two signatures
/// are equal, and their order is not specified. A call that fails with E12 leaves the model
/// unchanged, except [`TypeReference::expand`](crate::TypeReference::expand).
///
/// # Example
///
///     let mut cx = Expander::new(alloc);
///     ty.expand(&mut cx).expect(rt, "memory");
///     let empty = T::empty(alloc).key(&cx).expect(rt, "memory");
#[derive(Drop)]
pub struct Expander<'a> {
    alloc: Global,
    // ids of the source's types, in their order
    names: NamespaceBuilder<'a>,
    // the same ids for binary search, once a key refers to a type by id
    sorted: Option<Namespace<'a>>,
    // for each hash, the first key that has it
    firsts: BTreeMap<u64, (FuncKey<'a>, Index<'a>)>,
    // keys whose hash another key has in `firsts`
    others: BTreeMap<FuncKey<'a>, Index<'a>>,
}

impl<'a> Model for Expander<'a> {
    ghost use Rattle.std.specs.Prelude.{IfSome};
    ghost use Rattle.wast_resolve_namespace.specs.Filling.{Denotes};
    ghost use Rattle.wast_expand_keys.specs.Expanders.{Bound};
    ghost use Rattle.wast_expand_keys.specs.Hashed.{bindings_of, ArePlaced};

    ghost Value = { Bound };

    ghost view = { λ cx. record { names = cx.names; bound = bindings_of cx.firsts.entries cx.others.entries } };

    ghost invariant = { λ cx. ArePlaced cx.firsts.entries cx.others.entries × IfSome cx.sorted (Denotes cx.names) };
}

impl<'a> Expander<'a> {
    /// Returns a map without signatures and without ids of types. Does not allocate, but later
    /// calls allocate from `alloc`.
    ///
    /// For example, [`TypeKey::lookup`](crate::TypeKey::lookup) of any key in it returns `None`.
    pub fn new(alloc: Global) -> Self
        ensures { result ≡ nothing_bound }
    {
        with_names(alloc, NamespaceBuilder::none(alloc))
    }

    /// Returns the allocator of the map.
    pub(crate) fn alloc(&self) -> Global {
        self.alloc
    }

    /// Returns the number of the source type with this id, as an index. Other ids and numbers are
    /// unchanged.
    pub(crate) fn number(&self, index: Index<'a>) -> Index<'a>
        ensures { result ≡ resolved_index (numbers_in self.now) index.entry }
    {
        let mut index = index;
        match &self.sorted {
            Some(sorted) => sorted.try_resolve(&mut index),
            None => try_number(&self.names, &mut index),
        };
        index
    }

    /// Sorts the ids for [`number`](Expander::number), if a type refers to one and they are not
    /// sorted yet.
    ///
    /// Only then it allocates, because in most modules no signature has an id.
    pub(crate) fn sort_names_for(&mut self, ty: &FunctionType<'a>) -> Result<(), Error<'a>>
        ensures stays { self.new ≡ self.old }
        ensures refusal { IfErr result (λ e. e ≡ out_of_memory) }
    {
        if self.sorted.is_none() && names_a_type(ty) {
            let sorted = self.names.build_first_wins(self.alloc)?;
            self.sorted = Some(sorted);
        }
        Ok(())
    }

    /// Returns the index of a key, if it has one.
    #[tactic(auto, using(crate::proofs::Bound::found_in_order, crate::proofs::Placed::found_at_hash, crate::proofs::Placed::found_beside, crate::proofs::Placed::found_else))]
    pub(crate) fn get(&self, key: &FuncKey<'a>) -> Option<Index<'a>>
        ensures { result ≡ index_of self.now.bound key.now }
    {
        match self.firsts.get(&hash_of(key)) {
            Some(first) if first.0 == *key => Some(first.1),
            _ => self.others.get(key).copied(),
        }
    }
}

/// Returns a map without signatures, with these ids of types. Does not allocate.
///
/// For example, with the id `$t` alone, [`TypeReference::key`](crate::TypeReference::key) of
/// `(func (param (ref $t)))` has `(ref 0)`.
///
/// It is not a method, because methods of [`Expander`] are public in `wast_expand` too.
#[tactic(auto, using(crate::proofs::Placed::none_placed))]
pub fn with_names<'a>(alloc: Global, names: NamespaceBuilder<'a>) -> Expander<'a>
    ensures { result ≡ record { names = names.entry; bound = [] } }
{
    Expander {
        alloc,
        names,
        sorted: None,
        firsts: BTreeMap::new(alloc),
        others: BTreeMap::new(alloc),
    }
}

/// Adds a key with its index, unless the key has one. Other keys keep their indices.
///
/// For example, a second call for the same key with another index changes nothing.
/// [`TypeKey::insert`](crate::TypeKey::insert) does the same with a copy of the key.
pub fn put_key<'a>(
    cx: &mut Expander<'a>,
    key: FuncKey<'a>,
    index: Index<'a>,
) -> Result<(), Error<'a>>
    ensures ok { OnOk result (Extends cx.old.bound cx.new.bound ((key.entry, index.entry) ∷ [])) }
    ensures names { cx.new.names ≡ cx.old.names }
    ensures refusal { IfErr result (λ e. e ≡ out_of_memory) }
    ensures err { OnErr result (cx.new ≡ cx.old) }
{
    if let Some(key) = bind_first(&mut cx.firsts, key, index)? {
        cx.others.entry(key)?.or_insert(index);
    }
    Ok(())
}

/// Adds a key under its hash, unless the key has an index. Returns the key if another key has its
/// hash.
fn bind_first<'a>(
    firsts: &mut BTreeMap<u64, (FuncKey<'a>, Index<'a>)>,
    key: FuncKey<'a>,
    index: Index<'a>,
) -> Result<Option<FuncKey<'a>>, Error<'a>>
    ensures bound { IfOk result (λ rest. IfNone rest (BindsFirst firsts.old.entries firsts.new.entries key.entry index.entry)) }
    ensures rest { IfOk result (λ rest. IfSome rest (λ k. k ≡ key.entry)) }
    ensures taken { IfOk result (λ rest. IsSome rest → IsSome (with_hash firsts.old.entries (hash_of key.entry))) }
    ensures stays { IfOk result (λ rest. IsSome rest → firsts.new.entries ≡ firsts.old.entries) }
    ensures refusal { IfErr result (λ e. e ≡ out_of_memory) }
    ensures err { OnErr result (firsts.new.entries ≡ firsts.old.entries) }
{
    let hash = hash_of(&key);
    if let Some(first) = firsts.get(&hash) {
        return Ok(if first.0 == key { None } else { Some(key) });
    }
    firsts.insert(hash, (key, index))?;
    Ok(None)
}

/// Returns the hash of a key.
fn hash_of(key: &FuncKey<'_>) -> u64
    ensures { result ≡ hash_of key.now }
{
    let mut state = FoldHasher::default();
    key.hash(&mut state);
    state.finish()
}

/// Returns whether a function type refers to a type by id.
fn names_a_type<'a>(ty: &FunctionType<'a>) -> bool {
    for param in ty.params.as_slice() {
        if is_by_id(&param.2) {
            return true;
        }
    }
    for value in ty.results.as_slice() {
        if is_by_id(value) {
            return true;
        }
    }
    false
}

/// Returns whether a value type refers to a type by id.
fn is_by_id<'a>(ty: &ValType<'a>) -> bool {
    match ty {
        ValType::Ref(ty) => matches!(
            ty.heap,
            HeapType::Concrete(Index::Id(_)) | HeapType::Exact(Index::Id(_))
        ),
        _ => false,
    }
}
