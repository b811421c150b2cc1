//! The ids in a list of fields of a struct, of parameters or of locals.

ghost use Rattle.std.specs.Prelude.{◌≡◌, [], ◌∷◌, is_some, map, Ok, Option as Maybe};
ghost use Rattle.std.specs.List.{list_any};
ghost use Rattle.wast_base.specs.Ids.{Mark, mark_of_option};
ghost use Rattle.wast_base.specs.Spaces.{name_if};
ghost use Rattle.wast_resolve_names.specs.Gathers.{Gathers, with_gathered};

use wast_base::{Error, Fault, Id, NameAnnotation};
use wast_resolve_namespace::NamespaceBuilder;
use wast_tree_nodes::{Local, StructField, ValType};

/// Adds an item, with its id if it has one. Fails with E10 if there are 2^32, and with E12 if
/// allocation fails.
///
/// For example, after `$a` is added to no ids, the list is `$a`.
pub fn gather_one<'a>(
    gathering: &mut NamespaceBuilder<'a>,
    id: Option<Id<'a>>,
) -> Result<(), Error<'a>>
    ensures { Gathers (Ok gathering.old) (name_if (mark_of_option id.entry) ∷ []) (with_gathered result gathering.new) }
{
    if gathering.is_full() {
        return Err(Error::refusal(Fault::TooLarge));
    }
    gathering.add(id)?;
    Ok(())
}

/// An element that can have an id: a field of a struct, a parameter or a local.
///
/// For example, the parameter of `(param $a i32)` has one, and that of `(param i32)` has none.
pub trait HasId<'a> {
    /// The id, if there is one.
    ghost mark: { Self → Maybe Mark };

    /// Returns the id, if there is one. Does not allocate.
    fn id(&self) -> Option<Id<'a>>
        ensures { mark_of_option result ≡ mark self.now };
}

impl<'a> HasId<'a> for StructField<'a> {
    ghost mark = { λ f. mark_of_option f.id };

    fn id(&self) -> Option<Id<'a>> {
        self.id
    }
}

impl<'a> HasId<'a> for (Option<Id<'a>>, Option<NameAnnotation<'a>>, ValType<'a>) {
    ghost mark = { λ p. mark_of_option p.0 };

    fn id(&self) -> Option<Id<'a>> {
        self.0
    }
}

impl<'a> HasId<'a> for Local<'a> {
    ghost mark = { λ l. mark_of_option l.id };

    fn id(&self) -> Option<Id<'a>> {
        self.id
    }
}

/// Returns whether an element of a list has an id. Does not allocate.
///
/// For example, it is true of the parameters of `(func (param i32) (param $a i32))`.
pub fn have_ids<'a, T: HasId<'a>>(items: &[T]) -> bool
    ensures { result ≡ list_any is_some (map (λ x. name_if (T.mark x)) items.now) }
{
    for item in items {
        if item.id().is_some() {
            return true;
        }
    }
    false
}

/// Returns how many elements of a list have an id. Does not allocate.
///
/// For example, it is 1 for the parameters of `(func (param i32) (param $a i32))`.
pub fn count_ids<'a, T: HasId<'a>>(items: &[T]) -> usize {
    let mut ids: usize = 0;
    for item in items {
        if item.id().is_some() {
            ids = ids.saturating_add(1);
        }
    }
    ids
}

/// Adds the ids of a list, in order. Fails with E10 if there are 2^32, and with E12 if allocation
/// fails.
///
/// For example, `(param i32) (param $a i32)` adds an item without an id and `$a`.
pub fn gather_each<'a, T: HasId<'a>>(
    gathering: &mut NamespaceBuilder<'a>,
    items: &[T],
) -> Result<(), Error<'a>>
    ensures { Gathers (Ok gathering.old) (map (λ x. name_if (T.mark x)) items.now) (with_gathered result gathering.new) }
{
    for item in items {
        gather_one(gathering, item.id())?;
    }
    Ok(())
}
