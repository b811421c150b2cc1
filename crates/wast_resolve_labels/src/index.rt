//! Searching enclosing blocks by label: one by one, and with an index.

ghost use Rattle.std.specs.Prelude.{◌≡◌, ◌+◌, ◌-◌, ◌∷◌, length, Some, IsSome, IfOk, OnOk, OnErr};
ghost use Rattle.std.specs.BTreeMap.{get, Updates};
ghost use Rattle.wast_base.specs.Blocks.{Blocks};
ghost use Rattle.wast_base.specs.contracts.ids.IdOrd.TheImpl as by_name;
ghost use Rattle.wast_base.specs.Ids.{name_of};
ghost use Rattle.wast_base.specs.Spaces.{is_called};
ghost use Rattle.wast_resolve_labels.specs.OpenBlocks.{label_depth};
ghost use Rattle.wast_resolve_labels.specs.Indexed.{label_of, labels_of, innermost_if, HasPlaces, IsIndexed, IsIndexOf};
ghost use Rattle.wast_resolve_labels.specs.Marks.{label_mark, marks_of};

use crate::marks::mark_of;
use std::alloc::AllocError;
use std::collections::BTreeMap;
use wast_base::Id;

/// Returns the depth of a label among blocks with their marks, comparing one after the other.
#[inline(never)]
pub(crate) fn steps_back<'a>(blocks: &[Option<Id<'a>>], marks: &[u16], id: &Id<'a>) -> Option<usize>
    requires { marks.now ≡ marks_of blocks.now }
    ensures { result ≡ label_depth (name_of id.now) (labels_of blocks.now) }
{
    let mark = mark_of(id);
    let mut steps: usize = 0;
    while steps < blocks.len() {
        let at = blocks.len() - 1 - steps;
        if has_label(&blocks[at], marks[at], mark, id) {
            return Some(steps);
        }
        steps += 1;
    }
    None
}

/// Returns whether a block has a label. Names are compared only if the marks are equal.
#[inline(always)]
fn has_label<'a>(block: &Option<Id<'a>>, own: u16, mark: u16, id: &Id<'a>) -> bool
    requires own { own ≡ label_mark (label_of block.now) }
    requires mark { mark ≡ label_mark (Some (name_of id.now)) }
    ensures { result ≡ is_called (name_of id.now) (label_of block.now) }
{
    if own != mark {
        return false;
    }
    is_labelled(block, id)
}

/// Does the same by name.
fn is_labelled<'a>(block: &Option<Id<'a>>, id: &Id<'a>) -> bool
    ensures { result ≡ is_called (name_of id.now) (label_of block.now) }
{
    match block {
        Some(label) => id.is_same(label),
        None => false,
    }
}

/// Returns the position of the innermost indexed block with a label.
pub(crate) fn indexed_place<'a>(places: &BTreeMap<Id<'a>, usize>, id: &Id<'a>) -> Option<usize>
    ensures { result ≡ get by_name.ghosts.cmp places.now id.now }
{
    places.get(id).copied()
}

/// Indexes all blocks. If allocation fails, some are not indexed.
pub(crate) fn index_all<'a>(
    blocks: &[Option<Id<'a>>],
    places: &mut BTreeMap<Id<'a>, usize>,
    outer: &mut Vec<Option<usize>>,
) -> Result<(), AllocError>
    ensures { IsIndexOf blocks.now places.old outer.old.items → IsIndexOf blocks.now places.new outer.new.items }
{
    while outer.len() < blocks.len() {
        index_block(places, outer, blocks[outer.len()])?;
    }
    Ok(())
}

/// Indexes one more block, which is inside the indexed ones. If allocation fails, nothing changes.
fn index_block<'a>(
    places: &mut BTreeMap<Id<'a>, usize>,
    outer: &mut Vec<Option<usize>>,
    label: Option<Id<'a>>,
) -> Result<(), AllocError>
    ensures ok { OnOk result ((ls : Blocks) → length ls ≡ length outer.old.items → IsIndexed places.old outer.old.items ls
        → IsIndexed places.new outer.new.items (label_of label.entry ∷ ls)) }
    ensures grows { OnOk result (length outer.new.items ≡ length outer.old.items + 1) }
    ensures err { OnErr result ((places.new.entries ≡ places.old.entries) × (outer.new.items ≡ outer.old.items)) }
{
    outer.reserve(1)?;
    let further = keep_place(places, outer.len(), label)?;
    outer.push_reserved(further);
    Ok(())
}

/// Stores a position for a label, if there is one, and returns the position that was stored before.
fn keep_place<'a>(
    places: &mut BTreeMap<Id<'a>, usize>,
    place: usize,
    label: Option<Id<'a>>,
) -> Result<Option<usize>, AllocError>
    ensures ok { IfOk result (λ further. (ls : Blocks) → length ls ≡ place → HasPlaces places.old ls
        → HasPlaces places.new (label_of label.entry ∷ ls) × (further ≡ innermost_if (label_of label.entry) ls)) }
    ensures err { OnErr result (places.new.entries ≡ places.old.entries) }
{
    match label {
        Some(id) => Ok(places.insert(id, place)?),
        None => Ok(None),
    }
}

/// Removes the innermost indexed block from the index. Its label gets the position of the next one
/// further out with it, or leaves the index.
pub(crate) fn unindex_block<'a>(
    places: &mut BTreeMap<Id<'a>, usize>,
    outer: &mut Vec<Option<usize>>,
    label: Option<Id<'a>>,
)
    ensures indexed { (ls : Blocks) → IsIndexed places.old outer.old.items (label_of label.entry ∷ ls) → IsIndexed places.new outer.new.items ls }
    ensures shrinks { length outer.new.items ≡ length outer.old.items - 1 }
{
    if let (Some(further), Some(id)) = (outer.pop(), label) {
        put_further(places, id, further);
    }
}

/// Replaces the position of a label by that of the next block further out, or removes the label.
fn put_further<'a>(places: &mut BTreeMap<Id<'a>, usize>, id: Id<'a>, further: Option<usize>)
    ensures { IsSome (get by_name.ghosts.cmp places.old id.entry) → Updates by_name.ghosts.cmp places.old places.new id.entry further }
{
    match further {
        Some(place) => {
            // The label is in the map, so this does not allocate.
            let _ = places.insert(id, place);
        }
        None => {
            let _ = places.remove(&id);
        }
    }
}
