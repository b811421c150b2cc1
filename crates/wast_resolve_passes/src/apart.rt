//! Walks over fields whose parts do not depend on each other: indices outside of bodies, and type
//! uses.
#![tactic(auto, using(wast_resolve_names::proofs::Parts::both_met, wast_resolve_names::proofs::Parts::first_fails, wast_resolve_names::proofs::Parts::second_fails))]

ghost use Rattle.std.specs.Prelude.{List, map, flat_map};
ghost use Rattle.wast_tree_nodes.specs.Sites.{OfItem, Site, check_sites, at_index, in_use, in_tag_type, in_item_kind, in_sig, in_import, in_memory_kind};
ghost use Rattle.wast_tree_map.specs.Mapped.{Change, mapped_tag_type, mapped_item_kind, mapped_sig, mapped_import_items, mapped_import, mapped_memory, mapped_tag};
ghost use Rattle.wast_resolve_names.specs.Walking.{WalksSites};

use crate::walks::{Walk, walk_index, walk_type_use};
use wast_base::{Error, Index, Seq, Space};
use wast_resolve_names::Resolver;
use wast_tree_nodes::{
    FunctionType, ImportItems, Imports, ItemKind, ItemSig, Memory, MemoryKind, Tag, TagType,
    TypeUse,
};

/// Resolves a part of a field that has no body.
pub(crate) fn walk_outside<'a, T: Walk<'a>>(
    names: &Resolver<'a>,
    part: &mut T,
) -> Result<(), Error<'a>>
    ensures { WalksSites names.now (λ part. check_sites (T.asks part)) T.mapped part.old part.new result }
{
    part.walk(names)
}

/// Resolves an index of a field.
pub(crate) fn walk_outside_index<'a>(
    names: &Resolver<'a>,
    space: Space,
    index: &mut Index<'a>,
) -> Result<(), Error<'a>>
    ensures { WalksSites names.now (at_index space) (λ f. f.index space) index.old index.new result }
{
    walk_index(names, space, index)
}

/// A part of a field whose parts do not declare ids for each other.
pub(crate) trait WalkApart<'a> {
    /// The sites in the part.
    ghost stands: { Self → List Site };

    /// The part of the tree that a change maps this one to.
    ghost mapped: { Change → Self → Self };

    /// Resolves the part. Fails with the first check that fails.
    fn walk_apart(&mut self, names: &Resolver<'a>) -> Result<(), Error<'a>>
        ensures { WalksSites names.now stands mapped self.old self.new result };
}

impl<'a> WalkApart<'a> for TypeUse<'a, FunctionType<'a>> {
    ghost stands = { in_use OfItem };

    ghost mapped = { λ f. f.used OfItem };

    fn walk_apart(&mut self, names: &Resolver<'a>) -> Result<(), Error<'a>> {
        walk_type_use(names, self)?;
        Ok(())
    }
}

impl<'a> WalkApart<'a> for TagType<'a> {
    ghost stands = { in_tag_type };

    ghost mapped = { mapped_tag_type };

    fn walk_apart(&mut self, names: &Resolver<'a>) -> Result<(), Error<'a>> {
        match self {
            TagType::Exception(ty) => ty.walk_apart(names),
        }
    }
}

impl<'a> WalkApart<'a> for ItemKind<'a> {
    ghost stands = { in_item_kind };

    ghost mapped = { mapped_item_kind };

    fn walk_apart(&mut self, names: &Resolver<'a>) -> Result<(), Error<'a>> {
        match self {
            ItemKind::Func(ty) => ty.walk_apart(names),
            ItemKind::FuncExact(ty) => ty.walk_apart(names),
            ItemKind::Table(ty) => walk_outside(names, ty),
            ItemKind::Memory(_) => Ok(()),
            ItemKind::Global(ty) => walk_outside(names, ty),
            ItemKind::Tag(ty) => ty.walk_apart(names),
        }
    }
}

impl<'a> WalkApart<'a> for ItemSig<'a> {
    ghost stands = { in_sig };

    ghost mapped = { mapped_sig };

    fn walk_apart(&mut self, names: &Resolver<'a>) -> Result<(), Error<'a>> {
        self.kind.walk_apart(names)?;
        Ok(())
    }
}

/// An item of an import group, with its name.
impl<'a> WalkApart<'a> for (&'a str, ItemSig<'a>) {
    ghost stands = { λ p. in_sig p.1 };

    ghost mapped = { λ f p. (p.0, mapped_sig f p.1) };

    fn walk_apart(&mut self, names: &Resolver<'a>) -> Result<(), Error<'a>> {
        self.1.walk_apart(names)?;
        Ok(())
    }
}

/// Resolves each part of a list, in order.
fn walk_each_apart<'a, T: WalkApart<'a>>(
    names: &Resolver<'a>,
    parts: &mut Seq<T>,
) -> Result<(), Error<'a>>
    ensures { WalksSites names.now (flat_map T.stands) (λ f. map (T.mapped f)) parts.old parts.new result }
{
    for i in 0..parts.len() {
        parts.at_mut(i).walk_apart(names)?;
    }
    Ok(())
}

impl<'a> WalkApart<'a> for ImportItems<'a> {
    ghost stands = { in_import };

    ghost mapped = { mapped_import_items };

    fn walk_apart(&mut self, names: &Resolver<'a>) -> Result<(), Error<'a>> {
        match self {
            ImportItems::Single { sig, .. } => sig.walk_apart(names),
            ImportItems::Group1 { items, .. } => walk_each_apart(names, items),
            ImportItems::Group2 { sig, .. } => sig.walk_apart(names),
        }
    }
}

impl<'a> WalkApart<'a> for Imports<'a> {
    ghost stands = { λ i. in_import i.items };

    ghost mapped = { mapped_import };

    fn walk_apart(&mut self, names: &Resolver<'a>) -> Result<(), Error<'a>> {
        self.items.walk_apart(names)?;
        Ok(())
    }
}

impl<'a> WalkApart<'a> for Memory<'a> {
    ghost stands = { λ m. in_memory_kind m.kind };

    ghost mapped = { mapped_memory };

    fn walk_apart(&mut self, _names: &Resolver<'a>) -> Result<(), Error<'a>> {
        match self.kind {
            MemoryKind::Import { .. } => Ok(()),
            MemoryKind::Normal(_) => Ok(()),
            MemoryKind::Inline { .. } => Ok(()),
        }
    }
}

impl<'a> WalkApart<'a> for Tag<'a> {
    ghost stands = { λ t. in_tag_type t.ty };

    ghost mapped = { mapped_tag };

    fn walk_apart(&mut self, names: &Resolver<'a>) -> Result<(), Error<'a>> {
        self.ty.walk_apart(names)?;
        Ok(())
    }
}
