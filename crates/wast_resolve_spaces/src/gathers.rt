//! Collects the items of each index space, and the fields of a struct.

ghost use Rattle.std.specs.Prelude.{◌≡◌, [], ◌∷◌, length, map, All, IfOk, IfErr};
ghost use Rattle.wast_base.specs.Faults.{out_of_memory};
ghost use Rattle.wast_base.specs.Ids.{mark_of_option};
ghost use Rattle.wast_base.specs.Spaces.{name_if};
ghost use Rattle.wast_tree_nodes.specs.Items.{field_ids, items};
ghost use Rattle.wast_tree_nodes.specs.Known.{names_in};
ghost use Rattle.wast_resolve_names.specs.Gathers.{Gathers, GathersItem, gathered_of};
ghost use Rattle.wast_resolve_spaces.specs.Tree.{Space};

use std::alloc::Global;
use wast_base::{Error, Id, Space};
use wast_resolve_names::{count_ids, gather_each, gather_one};
use wast_resolve_namespace::NamespaceBuilder;
use wast_tree_nodes::{ModuleField, StructField};
use wast_tree_visit::{ItemVisitor, visit_items};

/// The number of ids in each space, by rank. It is only a hint for the capacity, because it
/// saturates.
#[derive(Drop)]
struct Counter {
    ids: [usize; 8],
}

impl<'a> ItemVisitor<'a> for Counter {
    ghost told = { λ old x new. Unit {0} };

    fn item(&mut self, space: Space, id: &Option<Id<'a>>, _fields: &[StructField<'a>]) {
        if id.is_some() {
            let rank = space.rank();
            self.ids[rank] = self.ids[rank].saturating_add(1);
        }
    }
}

/// The items of each space, by rank, or the error that stopped it.
#[derive(Drop)]
struct Gatherer<'a> {
    gathered: Vec<Result<NamespaceBuilder<'a>, Error<'a>>>,
}

impl<'a> ItemVisitor<'a> for Gatherer<'a> {
    ghost told = { λ old x new. GathersItem old.gathered.items x new.gathered.items };

    fn item(&mut self, space: Space, id: &Option<Id<'a>>, _fields: &[StructField<'a>]) {
        let rank = space.rank();
        if rank < self.gathered.len() {
            add_to(&mut self.gathered[rank], *id);
        }
    }
}

/// Adds an item, unless there was an error.
fn add_to<'a>(gathered: &mut Result<NamespaceBuilder<'a>, Error<'a>>, id: Option<Id<'a>>)
    ensures { Gathers gathered.old (name_if (mark_of_option id.entry) ∷ []) gathered.new }
{
    if let Ok(gathering) = gathered {
        if let Err(e) = gather_one(gathering, id) {
            *gathered = Err(e);
        }
    }
}

/// Returns an empty list with capacity for some ids.
fn start<'a>(alloc: Global, ids: usize) -> Result<NamespaceBuilder<'a>, Error<'a>>
    ensures { Gathers (Ok []) [] result }
{
    Ok(NamespaceBuilder::new(alloc, ids)?)
}

/// Returns an empty list for each space, by rank, with capacity for its ids.
fn start_each<'a>(
    alloc: Global,
    ids: [usize; 8],
) -> Result<Vec<Result<NamespaceBuilder<'a>, Error<'a>>>, Error<'a>>
    ensures slots { IfOk result (λ v. length v.items ≡ 8) }
    ensures each { IfOk result (λ v. All (Gathers (Ok []) []) v.items) }
    ensures refusal { IfErr result (λ e. e ≡ out_of_memory) }
{
    let mut gathered = Vec::with_capacity(alloc, ids.len())?;
    for rank in 0..8 {
        let nothing: Result<NamespaceBuilder<'a>, Error<'a>> = start(alloc, ids[rank]);
        gathered.push(nothing)?;
    }
    Ok(gathered)
}

/// Returns the items of each space, by rank, or an error for the space: E10 if it has 2^32 items or
/// more, E12 if allocation fails.
///
/// Allocates once for each space, and once for all.
pub(crate) fn gather<'a>(
    alloc: Global,
    fields: &[ModuleField<'a>],
) -> Result<Vec<Result<NamespaceBuilder<'a>, Error<'a>>>, Error<'a>>
    ensures slots { IfOk result (λ v. length v.items ≡ 8) }
    ensures each { IfOk result (λ v. (s : Space) → Gathers (Ok []) (names_in s (items fields.now)) (gathered_of v.items s)) }
    ensures refusal { IfErr result (λ e. e ≡ out_of_memory) }
{
    let mut counter = Counter { ids: [0; 8] };
    visit_items(fields, &mut counter);
    let mut gatherer = Gatherer {
        gathered: start_each(alloc, counter.ids)?,
    };
    visit_items(fields, &mut gatherer);
    Ok(gatherer.gathered)
}

/// Returns the ids of the fields of a struct. Fails with E10 if there are 2^32 fields or more.
///
/// Allocates once, and only if a field has an id.
#[inline(always)]
pub(crate) fn gather_fields<'a>(
    alloc: Global,
    fields: &[StructField<'a>],
) -> Result<NamespaceBuilder<'a>, Error<'a>>
    ensures { Gathers (Ok []) (map name_if (field_ids fields.now)) result }
{
    let mut gathering = NamespaceBuilder::new(alloc, count_ids(fields))?;
    gather_each(&mut gathering, fields)?;
    Ok(gathering)
}
