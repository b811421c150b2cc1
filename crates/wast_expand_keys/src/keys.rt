//! Signatures of types as keys of a map.

ghost use Rattle.std.specs.Prelude.{◌≡◌, ◌∷◌, [], map, length, refl, IsOk, IfOk, IfErr, OnOk, OnErr};
ghost use Rattle.std.specs.Cmp.{partial_equiv_from_equiv};
ghost use Rattle.std.specs.Ordering.{as_partial_cmp};
ghost use Rattle.wast_base.specs.Faults.{out_of_memory};
ghost use Rattle.wast_expand_keys.specs.Signatures.{Signature, type_of_param, same_signature, signature_of, empty_signature};
ghost use Rattle.wast_expand_keys.specs.SignatureLaws.{signatures_equiv, signature_fed, signatures_alike};
ghost use Rattle.wast_expand_keys.specs.SignatureOrder.{signature_cmp, signatures_total, signatures_tied, signatures_ordered};
ghost use Rattle.wast_expand_keys.specs.Expanded.{unnamed_param, def_of};
ghost use Rattle.wast_tree_map.specs.Mapped.{mapped_heap};
ghost use Rattle.wast_expand_keys.specs.Numbers.{in_numbers, numbered_val, numbered_signature};
ghost use Rattle.wast_expand_keys.specs.Expanders.{numbers_in, index_of, Extends, Keeps};

use crate::expanders::{Expander, put_key};
use std::alloc::Global;
use std::cmp::Ordering;
use std::hash::{Hash, Hasher};
use std::marker::Model;
use wast_base::{Error, Id, Index, NameAnnotation, Seq, Span};
use wast_tree_nodes::{FunctionType, HeapType, InnerTypeKind, RefType, TypeDef, ValType};

/// The signature of a function type as a key: the types of its parameters, and of its results.
///
/// Keys are equal exactly if their signatures are equal. [`TypeReference::key`] replaces each id of
/// a source type by its number. So the keys of `(ref $t)` and `(ref 0)` are equal if `$t` is type 0
/// (text format: type uses).
///
///     FuncKey(list_of(rt, alloc, params), list_of(rt, alloc, results))
///
/// Keys are ordered so that maps can store them. The order has no meaning in the format. It is by
/// the number of parameters, then of results, then by the types of the parameters, then of the
/// results.
#[derive(Debug, Drop)]
pub struct FuncKey<'a>(pub Seq<ValType<'a>>, pub Seq<ValType<'a>>);

impl<'a> Model for FuncKey<'a> {
    ghost Value = { Signature };

    ghost view = { λ k. (k.0, k.1) };
}

impl<'a> PartialEq for FuncKey<'a> {
    ghost eq = { same_signature };

    ghost laws = { partial_equiv_from_equiv signatures_equiv };

    #[tactic(auto, using(crate::specs::SignatureLaws::same_values_are))]
    fn eq(&self, other: &FuncKey<'a>) -> bool {
        self.0.as_slice() == other.0.as_slice() && self.1.as_slice() == other.1.as_slice()
    }
}

impl<'a> Eq for FuncKey<'a> {
    ghost laws = { signatures_equiv };
}

impl<'a> PartialOrd for FuncKey<'a> {
    ghost partial_cmp = { as_partial_cmp signature_cmp };

    ghost laws = { signatures_ordered };

    fn partial_cmp(&self, other: &FuncKey<'a>) -> Option<Ordering> {
        Some(self.cmp(other))
    }
}

impl<'a> Ord for FuncKey<'a> {
    ghost cmp = { signature_cmp };

    ghost total = { signatures_total };

    ghost matches_partial_cmp = { λ s t. refl };

    ghost matches_eq = { signatures_tied };

    fn cmp(&self, other: &FuncKey<'a>) -> Ordering {
        by_lengths(self).cmp(&by_lengths(other))
    }
}

/// Returns the parts that decide the order of keys: the lengths of the lists, and then the lists.
fn by_lengths<'k, 'a>(key: &'k FuncKey<'a>) -> (usize, usize, &'k [ValType<'a>], &'k [ValType<'a>])
    ensures lengths { (result.0 ≡ length key.now.0) × (result.1 ≡ length key.now.1) }
    ensures types { (result.2.now, result.3.now) ≡ key.now }
{
    let (params, results) = (key.0.as_slice(), key.1.as_slice());
    (params.len(), results.len(), params, results)
}

impl<'a> Hash for FuncKey<'a> {
    ghost hash_input = { λ s. signature_fed ⟦<ValType<'a> as Hash>⟧.hash_input s };

    ghost respects_eq = { signatures_alike.fed };

    fn hash<H: Hasher>(&self, state: &mut H) {
        self.0.as_slice().hash(state);
        self.1.as_slice().hash(state);
    }
}

/// A type that a type use can have inline (text format: type uses). The only error of its calls is
/// E12: allocation failed.
///
/// # Example
///
///     let mut cx = Expander::new(alloc);
///     ty.expand(&mut cx).expect(rt, "memory");
///     let empty = T::empty(alloc).key(&cx).expect(rt, "memory");
pub trait TypeReference<'a> {
    /// The type of keys: equal types have equal keys.
    type Key: TypeKey<'a>;

    /// The signature of the type.
    ghost signature: { Self → Signature };

    /// Returns the type that is meant if none is inline: `(func)`. Does not allocate.
    ///
    /// For example, the empty [`FunctionType`] has no parameters and no results.
    fn empty(alloc: Global) -> Self
        ensures { signature result ≡ empty_signature };

    /// Returns the key: the signature, with each id of a source type in `cx` replaced by its
    /// number. The key is allocated.
    ///
    /// For example, the key of `(func (param (ref $t)))` has `(ref 0)` if `$t` is type 0.
    fn key(&self, cx: &Expander<'a>) -> Result<Self::Key, Error<'a>>
        ensures key { IfOk result (λ k.
            Self.Key.signature k ≡ numbered_signature (numbers_in cx.now) (signature self.now)) }
        ensures refusal { IfErr result (λ e. e ≡ out_of_memory) };

    /// Resolves the type uses inside the type.
    ///
    /// For example, it leaves `(func (param i32))` unchanged, because no type use is inside.
    /// Signatures in `cx` keep their indices.
    fn expand(&mut self, cx: &mut Expander<'a>) -> Result<(), Error<'a>>
        ensures stays { signature self.new ≡ signature self.old }
        ensures keeps { Keeps cx.old.bound cx.new.bound }
        ensures names { cx.new.names ≡ cx.old.names }
        ensures refusal { IfErr result (λ e. e ≡ out_of_memory) };
}

/// The key of a type that a type use can match (text format: type uses). The only error of its
/// calls is E12: allocation failed.
///
/// # Example
///
///     let before = key.lookup(cx);
///     key.insert(cx, indices[0]).expect(rt, "memory");
///     let after = key.lookup(cx);
pub trait TypeKey<'a> {
    /// The signature of the key.
    ghost signature: { Self → Signature };

    /// Returns the index of the key, if it has one. Does not allocate.
    ///
    /// For example, it returns `None` for each key of a new [`Expander`].
    fn lookup(&self, cx: &Expander<'a>) -> Option<Index<'a>>
        ensures { result ≡ index_of cx.now.bound (signature self.now) };

    /// Returns a type definition with this signature: final, without supertypes, with unnamed
    /// parameters.
    ///
    ///     let def = found.to_def(alloc, at(3), true).expect(&rt, "memory");
    ///     assert!(rt; def.shared && def.final_type.is_none());
    fn to_def(&self, alloc: Global, span: Span, shared: bool) -> Result<TypeDef<'a>, Error<'a>>
        ensures def { IfOk result (λ d. d ≡ def_of (signature self.now) shared) }
        ensures refusal { IfErr result (λ e. e ≡ out_of_memory) };

    /// Adds the key with an index, unless it has one. Other keys keep their indices.
    ///
    /// For example, a second call for the same key with another index changes nothing.
    fn insert(&self, cx: &mut Expander<'a>, index: Index<'a>) -> Result<(), Error<'a>>
        ensures ok { OnOk result (Extends cx.old.bound cx.new.bound ((signature self.now, index.entry) ∷ [])) }
        ensures names { cx.new.names ≡ cx.old.names }
        ensures refusal { IfErr result (λ e. e ≡ out_of_memory) }
        ensures err { OnErr result (cx.new ≡ cx.old) };
}

impl<'a> TypeReference<'a> for FunctionType<'a> {
    type Key = FuncKey<'a>;

    ghost signature = { signature_of };

    fn empty(alloc: Global) -> Self {
        FunctionType {
            params: Seq::new(alloc),
            results: Seq::new(alloc),
        }
    }

    fn key(&self, cx: &Expander<'a>) -> Result<FuncKey<'a>, Error<'a>> {
        let params = types_of(&self.params, cx)?;
        let results = numbered(&self.results, cx)?;
        Ok(FuncKey(params, results))
    }

    /// Does nothing, because a function type has no type use inside. Does not allocate.
    fn expand(&mut self, _cx: &mut Expander<'a>) -> Result<(), Error<'a>>
        ensures stays { signature_of self.new ≡ signature_of self.old }
        ensures keeps { Keeps _cx.old.bound _cx.new.bound }
        ensures names { _cx.new.names ≡ _cx.old.names }
        ensures unchanged { self.new ≡ self.old }
        ensures binds_nothing { _cx.new ≡ _cx.old }
        ensures refusal { IfErr result (λ e. e ≡ out_of_memory) }
        ensures ok { IsOk result }
    {
        Ok(())
    }
}

impl<'a> TypeKey<'a> for FuncKey<'a> {
    ghost signature = { λ s. s };

    fn lookup(&self, cx: &Expander<'a>) -> Option<Index<'a>> {
        cx.get(self)
    }

    fn to_def(&self, alloc: Global, _span: Span, shared: bool) -> Result<TypeDef<'a>, Error<'a>> {
        let params = params_of(alloc, &self.0)?;
        let results = copied(alloc, &self.1)?;
        Ok(TypeDef {
            kind: InnerTypeKind::Func(FunctionType { params, results }),
            shared,
            parents: Seq::new(alloc),
            descriptor: None,
            describes: None,
            final_type: None,
        })
    }

    fn insert(&self, cx: &mut Expander<'a>, index: Index<'a>) -> Result<(), Error<'a>> {
        let alloc = cx.alloc();
        let key = FuncKey(copied(alloc, &self.0)?, copied(alloc, &self.1)?);
        put_key(cx, key, index)
    }
}

/// Returns the key of a function type. Sorts the ids of types first, if that helps.
///
/// For example, the key of `(func (param (ref $t)))` has `(ref 0)` if `$t` is type 0.
/// [`TypeReference::key`] returns the same key, but searches unsorted ids one by one.
pub fn key_in<'a>(ty: &FunctionType<'a>, cx: &mut Expander<'a>) -> Result<FuncKey<'a>, Error<'a>>
    ensures ok { IfOk result (λ key. key ≡ numbered_signature (numbers_in cx.old) (signature_of ty.now)) }
    ensures stays { cx.new ≡ cx.old }
    ensures refusal { IfErr result (λ e. e ≡ out_of_memory) }
{
    cx.sort_names_for(ty)?;
    ty.key(cx)
}

/// A parameter: its id, its name annotation and its type.
type Param<'a> = (Option<Id<'a>>, Option<NameAnnotation<'a>>, ValType<'a>);

/// Returns the types of parameters, with ids of source types replaced by numbers.
fn types_of<'a>(params: &Seq<Param<'a>>, cx: &Expander<'a>) -> Result<Seq<ValType<'a>>, Error<'a>>
    ensures ok { IfOk result (λ types. types ≡ map (numbered_val (numbers_in cx.now)) (map type_of_param params.now)) }
    ensures refusal { IfErr result (λ e. e ≡ out_of_memory) }
{
    let mut types: Vec<ValType<'a>> = Vec::with_capacity(cx.alloc(), params.len())?;
    for param in params.as_slice() {
        types.push(numbered_val(param.2, cx))?;
    }
    Ok(Seq::from_vec(types))
}

/// Returns the value types, with ids of source types replaced by numbers.
fn numbered<'a>(types: &Seq<ValType<'a>>, cx: &Expander<'a>) -> Result<Seq<ValType<'a>>, Error<'a>>
    ensures ok { IfOk result (λ list. list ≡ map (numbered_val (numbers_in cx.now)) types.now) }
    ensures refusal { IfErr result (λ e. e ≡ out_of_memory) }
{
    let mut list: Vec<ValType<'a>> = Vec::with_capacity(cx.alloc(), types.len())?;
    for ty in types.as_slice() {
        list.push(numbered_val(*ty, cx))?;
    }
    Ok(Seq::from_vec(list))
}

/// Returns a value type, with the id of a source type replaced by its number.
fn numbered_val<'a>(ty: ValType<'a>, cx: &Expander<'a>) -> ValType<'a>
    ensures { result ≡ numbered_val (numbers_in cx.now) ty.entry }
{
    match ty {
        ValType::I32 => ValType::I32,
        ValType::I64 => ValType::I64,
        ValType::F32 => ValType::F32,
        ValType::F64 => ValType::F64,
        ValType::V128 => ValType::V128,
        ValType::Ref(ty) => ValType::Ref(RefType {
            nullable: ty.nullable,
            heap: numbered_heap(ty.heap, cx),
        }),
    }
}

/// Returns a heap type, with the id of a source type replaced by its number.
fn numbered_heap<'a>(heap: HeapType<'a>, cx: &Expander<'a>) -> HeapType<'a>
    ensures { result ≡ mapped_heap (in_numbers (numbers_in cx.now)) heap.entry }
{
    match heap {
        HeapType::Abstract { shared, ty } => HeapType::Abstract { shared, ty },
        HeapType::Concrete(index) => HeapType::Concrete(cx.number(index)),
        HeapType::Exact(index) => HeapType::Exact(cx.number(index)),
    }
}

/// Returns a parameter of this type without an id.
fn nameless<'a>(ty: ValType<'a>) -> Param<'a>
    ensures { result ≡ unnamed_param ty.entry }
{
    (None, None, ty)
}

/// Returns parameters of these types without ids.
fn params_of<'a>(alloc: Global, types: &Seq<ValType<'a>>) -> Result<Seq<Param<'a>>, Error<'a>>
    ensures ok { IfOk result (λ params. params ≡ map unnamed_param types.now) }
    ensures refusal { IfErr result (λ e. e ≡ out_of_memory) }
{
    let mut params: Vec<Param<'a>> = Vec::with_capacity(alloc, types.len())?;
    for ty in types.as_slice() {
        params.push(nameless(*ty))?;
    }
    Ok(Seq::from_vec(params))
}

/// Returns a copy of a list of value types.
fn copied<'a>(alloc: Global, types: &Seq<ValType<'a>>) -> Result<Seq<ValType<'a>>, Error<'a>>
    ensures ok { IfOk result (λ copy. copy ≡ types.now) }
    ensures refusal { IfErr result (λ e. e ≡ out_of_memory) }
{
    let items = Vec::from_slice(alloc, types.as_slice())?;
    Ok(Seq::from_vec(items))
}
