//! Lists the source ids of fields, one index space after another.

ghost use Rattle.std.specs.Prelude.{◌≡◌, ◌++◌, ◌∷◌, [], flat_map, map, IfOk, IfErr, OnOk};
ghost use Rattle.wast_base.specs.Faults.{out_of_memory};
ghost use Rattle.wast_base.specs.Ids.{mark_of_option};
ghost use Rattle.wast_tree_nodes.specs.Items.{items};
ghost use Rattle.wat_bytes.specs.Listing.{ListsOn, items_held};
ghost use Rattle.wat_bytes.specs.Names.{content_of, entries_in, entries_of, id_in, source_mark};

use crate::names::Denoted;
use std::alloc::{AllocError, Global};
use wast_core::{Module, ModuleKind};
use wast_tree::{Error, Id, ItemVisitor, ModuleField, Space, StructField, visit_items};

/// A visitor that lists the source ids of one index space.
#[derive(Drop)]
struct Lister<'a> {
    space: Space,
    /// The index of the next item of the index space.
    next: u32,
    /// The list, with the ids of other index spaces at its front.
    listed: Vec<Denoted<'a>>,
    /// Whether an entry is missing: allocation failed, or the index space has 2^32 items. Resolving
    /// fails for so many items (E10), so they are never visited.
    is_stopped: bool,
}

/// Returns an id, if it is from the source.
fn source_id<'a>(id: &Option<Id<'a>>) -> Option<Id<'a>>
    ensures { mark_of_option result ≡ source_mark (mark_of_option id.now) }
{
    let Some(id) = id else {
        return None;
    };
    if id.is_gensym() {
        return None;
    }
    Some(*id)
}

impl<'a> Lister<'a> {
    /// Counts an item of the index space, and lists its id if it is from the source.
    fn try_add(&mut self, id: &Option<Id<'a>>) -> Result<(), AllocError>
        ensures space { self.new.space ≡ self.old.space }
        ensures listed { OnOk result (ListsOn self.old (source_mark (mark_of_option id.now) ∷ []) self.new) }
    {
        let number = self.next;
        let Some(next) = number.checked_add(1) else {
            return Err(AllocError);
        };
        self.next = next;
        let Some(id) = source_id(id) else {
            return Ok(());
        };
        let space = self.space;
        self.listed.push(Denoted { space, id, number })?;
        Ok(())
    }

    /// Does the same, and stops if that fails.
    #[tactic(auto, using(crate::proofs::Listing::stops))]
    fn add(&mut self, id: &Option<Id<'a>>)
        ensures { ListsOn self.old (source_mark (mark_of_option id.now) ∷ []) self.new }
    {
        if self.try_add(id).is_err() {
            self.is_stopped = true;
        }
    }

    /// Lists the source ids of an index space, the lowest index first.
    fn list_space(&mut self, fields: &[ModuleField<'a>], space: Space) -> Result<(), AllocError>
        ensures { OnOk result (map content_of self.new.listed.items ≡ map content_of self.old.listed.items ++ entries_in (items fields.now) space) }
    {
        self.space = space;
        self.next = 0;
        self.is_stopped = false;
        visit_items(fields, self);
        if self.is_stopped {
            return Err(AllocError);
        }
        Ok(())
    }
}

impl<'a> ItemVisitor<'a> for Lister<'a> {
    ghost told = { λ old x new. ListsOn old (id_in old.space x) new };

    #[tactic(auto, using(crate::proofs::Listing::of_space, crate::proofs::Listing::of_other))]
    fn item(&mut self, space: Space, id: &Option<Id<'a>>, _fields: &[StructField<'a>]) {
        if self.space.is(space) {
            self.add(id);
        }
    }
}

/// Returns the source ids of some index spaces, one index space after another.
fn of_spaces<'a>(
    alloc: Global,
    fields: &[ModuleField<'a>],
    spaces: &[Space],
) -> Result<Vec<Denoted<'a>>, AllocError>
    ensures { IfOk result (λ all. map content_of all.items ≡ flat_map (entries_in (items fields.now)) spaces.now) }
{
    let mut lister = Lister {
        space: Space::Func,
        next: 0,
        listed: Vec::new(alloc),
        is_stopped: false,
    };
    for at in 0..spaces.len() {
        lister.list_space(fields, spaces[at])?;
    }
    Ok(lister.listed)
}

/// Returns the source ids of all index spaces.
fn of_fields<'a>(alloc: Global, fields: &[ModuleField<'a>]) -> Result<Vec<Denoted<'a>>, AllocError>
    ensures { IfOk result (λ all. map content_of all.items ≡ entries_of (items fields.now)) }
{
    let spaces = Space::ALL;
    of_spaces(alloc, fields, &spaces)
}

/// Returns the source ids of the fields that a module holds. It takes `&mut` and changes nothing,
/// for the reason that `is_ready` has.
pub(crate) fn of_module<'a>(
    alloc: Global,
    module: &mut Module<'a>,
) -> Result<Vec<Denoted<'a>>, Error<'a>>
    ensures list { IfOk result (λ all. map content_of all.items ≡ entries_of (items_held «module».old.kind)) }
    ensures refusal { IfErr result (λ e. e ≡ out_of_memory) }
{
    match &module.kind {
        ModuleKind::Text(fields) => {
            let all = of_fields(alloc, fields.as_slice())?;
            Ok(all)
        }
        ModuleKind::Binary(_) | ModuleKind::Refused(_) => Ok(Vec::new(alloc)),
    }
}
