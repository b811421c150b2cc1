//! Imports, and the items that they import.

ghost use Rattle.std.specs.Prelude.{◌≡◌, ◌<◌, ◌++◌, None, length, map, slice_index_or, IfOk, IfErr, OnOk};
ghost use Rattle.wast_base.specs.Faults.{out_of_memory};
ghost use Rattle.wast_tree_nodes.specs.Imports.{item_sigs, unique_sigs};
ghost use Rattle.wast_tree_nodes.specs.Items.{space_of_kind};
ghost use Rattle.wast_tree_nodes.specs.Tree.import_items;

use crate::entities::{GlobalType, MemoryType, TableType, TagType};
use crate::types::{FunctionType, TypeUse};
use std::alloc::Global;
use wast_base::{Error, Id, NameAnnotation, Seq, Space, Span};

/// An import field, such as `(import "m" "n" (func $f))` (text format: imports).
///
/// It has one item, or a group of items (compact import section proposal).
///
/// # Example
///
///     let ready = ItemSig::new(at(87), id("ready", 92), ItemKind::Func(TypeUse::none()));
///     let ready = Imports::single(at(64), "host", "ready", ready);
///     make.push_field(&mut fields, ModuleField::Import(ready));
#[derive(Debug, Drop)]
pub struct Imports<'a> {
    /// The position of its keyword.
    pub span: Span,
    /// The imported items.
    pub items: ImportItems<'a>,
}

/// The items of an import field (text format: imports).
#[derive(Debug, Drop)]
pub enum ImportItems<'a> {
    /// One item.
    Single {
        /// The name of the module that it comes from.
        module: &'a str,
        /// The name of the item in that module.
        name: &'a str,
        /// Its id, kind and type.
        sig: ItemSig<'a>,
    },
    /// Items of one module, each with its own name and signature (compact import section).
    Group1 {
        /// The name of the module that they come from.
        module: &'a str,
        /// The name of each item, and its id, kind and type.
        items: Seq<(&'a str, ItemSig<'a>)>,
    },
    /// Items of one module that share a signature (compact import section).
    Group2 {
        /// The name of the module that they come from.
        module: &'a str,
        /// The id, kind and type of each of them.
        sig: ItemSig<'a>,
        /// The name of each item.
        items: Seq<&'a str>,
    },
}

/// The signature of an imported item, such as `(func $f (type $t))` (text format: imports).
#[derive(Debug, Drop)]
pub struct ItemSig<'a> {
    /// The position of its keyword.
    pub span: Span,
    /// Its id, if it has one.
    pub id: Option<Id<'a>>,
    /// Its name annotation, if it has one.
    pub name: Option<NameAnnotation<'a>>,
    /// Its kind, and its type.
    pub kind: ItemKind<'a>,
}

impl<'a> ItemSig<'a> {
    /// Makes the signature of an imported item.
    pub fn new(span: Span, id: Option<Id<'a>>, kind: ItemKind<'a>) -> ItemSig<'a>
        ensures { result ≡ record { span = span; id = id.entry; name = None; kind = kind.entry } }
    {
        ItemSig {
            span,
            id,
            name: None,
            kind,
        }
    }
}

/// The kind of an imported item, and its type (text format: imports).
#[derive(Debug, Drop)]
pub enum ItemKind<'a> {
    /// A function.
    Func(TypeUse<'a, FunctionType<'a>>),
    /// A function of exactly this type, not of a subtype (custom descriptors).
    FuncExact(TypeUse<'a, FunctionType<'a>>),
    /// A table.
    Table(TableType<'a>),
    /// A memory.
    Memory(MemoryType),
    /// A global.
    Global(GlobalType<'a>),
    /// A tag.
    Tag(TagType<'a>),
}

impl ItemKind<'_> {
    /// Returns the index space of the item.
    pub fn space(&self) -> Space
        ensures { result ≡ space_of_kind self.now }
    {
        match self {
            ItemKind::Func(_) | ItemKind::FuncExact(_) => Space::Func,
            ItemKind::Table(_) => Space::Table,
            ItemKind::Memory(_) => Space::Memory,
            ItemKind::Global(_) => Space::Global,
            ItemKind::Tag(_) => Space::Tag,
        }
    }
}

/// Appends the signatures of items.
fn push_sigs<'s, 'a, 'e>(
    sigs: &mut Vec<&'s ItemSig<'a>>,
    items: &'s [(&'a str, ItemSig<'a>)],
) -> Result<(), Error<'e>>
    ensures pushed { OnOk result (map (λ s. s.now) sigs.new.items ≡ map (λ s. s.now) sigs.old.items ++ map (λ p. p.1) items.now) }
    ensures refusal { IfErr result (λ e. e ≡ out_of_memory) }
{
    for item in items {
        sigs.push(&item.1)?;
    }
    Ok(())
}

/// Appends a signature once for each name.
fn push_shared<'s, 'a, 'e>(
    sigs: &mut Vec<&'s ItemSig<'a>>,
    sig: &'s ItemSig<'a>,
    names: &[&'a str],
) -> Result<(), Error<'e>>
    ensures pushed { OnOk result (map (λ s. s.now) sigs.new.items ≡ map (λ s. s.now) sigs.old.items ++ map (λ name. sig.now) names.now) }
    ensures refusal { IfErr result (λ e. e ≡ out_of_memory) }
{
    for _name in names {
        sigs.push(sig)?;
    }
    Ok(())
}

impl<'a> Imports<'a> {
    /// Makes an import of one item, from the names of its module and the item, and its signature.
    pub fn single(span: Span, module: &'a str, name: &'a str, sig: ItemSig<'a>) -> Imports<'a>
        ensures { result ≡ record { span = span; items = import_items.Single «module».entry name.entry sig.entry } }
    {
        Imports {
            span,
            items: ImportItems::Single { module, name, sig },
        }
    }

    /// Returns the signature of each item, in order. A shared one occurs once for each item.
    ///
    ///     let sigs = imports.item_sigs(alloc).expect(rt, "memory");
    pub fn item_sigs<'s, 'e>(&'s self, alloc: Global) -> Result<Vec<&'s ItemSig<'a>>, Error<'e>>
        ensures sigs { IfOk result (λ v. map (λ s. s.now) v.items ≡ item_sigs self.now.items) }
        ensures refusal { IfErr result (λ e. e ≡ out_of_memory) }
    {
        let mut sigs = Vec::new(alloc);
        match &self.items {
            ImportItems::Single { sig, .. } => sigs.push(sig)?,
            ImportItems::Group1 { items, .. } => push_sigs(&mut sigs, items.as_slice())?,
            ImportItems::Group2 { sig, items, .. } => {
                push_shared(&mut sigs, sig, items.as_slice())?;
            }
        }
        Ok(sigs)
    }

    /// Returns the number of signatures in the source. One that items share counts once.
    ///
    ///     assert!(rt; shared.unique_sigs() == 1);
    ///     shared.unique_sig_mut(0).span = at(8);
    pub fn unique_sigs(&self) -> usize
        ensures { result ≡ length (unique_sigs self.now.items) }
    {
        match &self.items {
            ImportItems::Single { .. } | ImportItems::Group2 { .. } => 1,
            ImportItems::Group1 { items, .. } => items.len(),
        }
    }

    /// Borrows signature number `i` of the source mutably, counted from 0.
    ///
    /// Test that `i` is below [`Imports::unique_sigs`] first.
    pub fn unique_sig_mut(&mut self, i: usize) -> &mut ItemSig<'a>
        requires { i < length (unique_sigs self.old.items) }
        ensures value { result.now ≡ slice_index_or (unique_sigs self.old.items) i result.now }
    {
        match &mut self.items {
            ImportItems::Single { sig, .. } => sig,
            ImportItems::Group1 { items, .. } => &mut items.at_mut(i).1,
            ImportItems::Group2 { sig, .. } => sig,
        }
    }
}
