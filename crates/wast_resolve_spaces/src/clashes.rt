//! The first duplicate id of a module, from the first duplicate of each index space.

ghost use Rattle.std.specs.Prelude.{◌≡◌, ⊤, [], None, IfOk, IfErr, MatchOption, length, map, option_map, slice_index_or};
ghost use Rattle.wast_base.specs.Ids.{mark_of_option};
ghost use Rattle.wast_base.specs.Faults.{diagnostic_of};
ghost use Rattle.wast_base.specs.Spaces.{name_if, rank_of};
ghost use Rattle.wast_tree_nodes.specs.Items.{field_ids, item, items};
ghost use Rattle.wast_tree_nodes.specs.Known.{names_in};
ghost use Rattle.wast_resolve_spaces.specs.Tree.{Space};
ghost use Rattle.wast_resolve_rules.specs.Demands.{first_unmet, item_demands, Answers, HasManyItems};
ghost use Rattle.wast_resolve_namespace.specs.Filling.{HasFirstClash};
ghost use Rattle.wast_resolve_names.specs.Gathers.{Stops};
ghost use Rattle.wast_resolve_spaces.specs.Clashes.{countdown, counted_down, CountsDown, clash_told, field_clash_told, FindsAmong};

use crate::gathers::gather_fields;
use std::alloc::Global;
use wast_base::{Error, Fault, Id, Space};
use wast_resolve_names::have_ids;
use wast_tree_nodes::{ModuleField, StructField};
use wast_tree_visit::{ItemVisitor, visit_items};

/// A visitor that counts items until it comes to the first duplicate of a space.
#[derive(Drop)]
struct Finder<'a> {
    alloc: Global,
    /// For each space, by rank: how many items come before its first duplicate, if there is one
    /// ahead.
    ahead: [Option<u32>; 8],
    /// The duplicate that was found, or the error that stopped the search.
    found: Option<Error<'a>>,
}

impl<'a> Finder<'a> {
    /// Counts an item, without its fields.
    fn count_down(&mut self, space: Space, id: &Option<Id<'a>>)
        ensures { countdown self.new ≡ counted_down (countdown self.old) (item space id.now []) }
    {
        if self.found.is_some() {
            return;
        }
        let rank = space.rank();
        match self.ahead[rank] {
            None => {}
            Some(0) => self.found = clash(space, id),
            Some(n) => self.ahead[rank] = Some(n - 1),
        }
    }
}

impl<'a> ItemVisitor<'a> for Finder<'a> {
    ghost told = { λ old x new. CountsDown (countdown old) x (countdown new) };

    fn item(&mut self, space: Space, id: &Option<Id<'a>>, fields: &[StructField<'a>]) {
        self.count_down(space, id);
        if self.found.is_none() {
            self.found = clash_among(self.alloc, fields);
        }
    }
}

/// Returns E2 at the id of an item, if it has one.
fn clash<'a>(space: Space, id: &Option<Id<'a>>) -> Option<Error<'a>>
    ensures { option_map diagnostic_of result ≡ clash_told (item space id.now []) }
{
    match id {
        None => None,
        Some(id) => Some(Error::new(id.span(), Fault::Duplicate(space.word()))),
    }
}

/// Returns the position of the first field of a struct with the id of an earlier field, if there is
/// one. Fails with E10 if there are 2^32 fields or more.
fn try_fields<'a>(alloc: Global, fields: &[StructField<'a>]) -> Result<Option<u32>, Error<'a>>
    ensures found { IfOk result (HasFirstClash (map name_if (field_ids fields.now))) }
    ensures stops { IfErr result (λ e. Stops (diagnostic_of e) 0 (length (map name_if (field_ids fields.now)))) }
{
    let gathering = gather_fields(alloc, fields)?;
    Ok(gathering.first_clash(alloc)?)
}

/// Returns E3 at the first field of a struct with the id of an earlier field, if there is one, or
/// E10 if there are 2^32 fields or more. Allocates only if a field has an id.
fn clash_among<'a>(alloc: Global, fields: &[StructField<'a>]) -> Option<Error<'a>>
    ensures { FindsAmong (field_ids fields.now) (option_map diagnostic_of result) }
{
    if !have_ids(fields) {
        return None;
    }
    match try_fields(alloc, fields) {
        Err(e) => Some(e),
        Ok(at) => field_clash(&fields[at? as usize].id),
    }
}

/// Returns E3 at the id of a field, if it has one.
fn field_clash<'a>(id: &Option<Id<'a>>) -> Option<Error<'a>>
    ensures { option_map diagnostic_of result ≡ field_clash_told (mark_of_option id.now) }
{
    match id {
        None => None,
        Some(id) => Some(Error::new(id.span(), Fault::DuplicateField("field", id.name()))),
    }
}

/// Returns the first duplicate in the order of the items: E2 at an item, or then E3 at a field of
/// its struct. Returns E10 if a struct has 2^32 fields or more.
///
/// `clashes` has, for each space by rank, the position of the first item with the id of an earlier
/// one. Allocates only for structs in which a field has an id.
pub(crate) fn first_clash<'a>(
    alloc: Global,
    fields: &[ModuleField<'a>],
    clashes: [Option<u32>; 8],
) -> Option<Error<'a>>
    requires { (s : Space) → HasFirstClash (names_in s (items fields.now)) (slice_index_or clashes (rank_of s) None) }
    ensures first { let unmet = first_unmet (item_demands (items fields.now)) in
        MatchOption result (unmet ≡ None) (λ e. Answers ⊤ (HasManyItems fields.now) (diagnostic_of e) unmet) }
    ensures free { result ≡ None → (s : Space) → slice_index_or clashes (rank_of s) None ≡ None }
{
    let mut finder = Finder {
        alloc,
        ahead: clashes,
        found: None,
    };
    visit_items(fields, &mut finder);
    finder.found
}
