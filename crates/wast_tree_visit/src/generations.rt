//! `gensym_bound`: the greatest generation of the ids of a module.

ghost use Rattle.std.specs.Prelude.{◌≡◌, max};
ghost use Rattle.wast_base.specs.Ids.{name_of, generation_of};
ghost use Rattle.wast_tree_nodes.specs.Generations.{generation_or_zero, generation_at, generation_in, greatest_generation};

use crate::visits::{ItemVisitor, Visitor, visit_fields, visit_items};
use wast_base::{Form, Id, Index, Space};
use wast_tree_nodes::{ModuleField, StructField};

/// A visitor that keeps the greatest generation of an id.
#[derive(Drop)]
struct Greatest {
    generation: u64,
}

impl Greatest {
    fn see(&mut self, id: &Id<'_>)
        ensures { self.new.generation ≡ max self.old.generation (generation_of (name_of id.now)) }
    {
        self.generation = self.generation.max(id.generation());
    }

    fn see_index(&mut self, index: &Index<'_>)
        ensures { self.new.generation ≡ max self.old.generation (generation_at index.now) }
    {
        match index {
            Index::Num(_, _) => {}
            Index::Id(id) => self.see(id),
        }
    }
}

impl<'a> ItemVisitor<'a> for Greatest {
    ghost told = { λ old x new. new.generation ≡ max old.generation (generation_or_zero x.id) };

    fn item(&mut self, _space: Space, id: &Option<Id<'a>>, _fields: &[StructField<'a>]) {
        if let Some(id) = id {
            self.see(id);
        }
    }
}

impl Visitor for Greatest {
    ghost told = { λ old a new. new.generation ≡ max old.generation (generation_in a) };

    fn index(&mut self, _space: Space, index: &Index<'_>) {
        self.see_index(index);
    }

    fn within(&mut self, index: &Index<'_>) {
        self.see_index(index);
    }

    fn id(&mut self, id: &Id<'_>) {
        self.see(id);
    }

    fn clause(&mut self, _number: u8, _holds: bool) {}

    fn covered(&mut self, _form: Form, _holds: bool) {}
}

/// Returns the greatest generation of an id in the fields, or 0 if no id is generated.
///
/// An id counter that starts above it generates ids that are new to the fields, as resolving
/// requires. All ids count: those of items, parameters, locals, labels and struct fields, and those
/// that are used as indices. The id of a signature counts even if its import group has no names.
///
///     assert!(rt; wast_tree::gensym_bound(fields.as_slice()) == 0);
pub fn gensym_bound(fields: &[ModuleField<'_>]) -> u64
    ensures { result ≡ greatest_generation fields.now }
{
    let mut greatest = Greatest { generation: 0 };
    visit_items(fields, &mut greatest);
    visit_fields(fields, &mut greatest);
    greatest.generation
}
