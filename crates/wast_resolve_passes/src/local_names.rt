//! The numbers of parameters and locals.

ghost use Rattle.std.specs.Prelude.{◌≡◌, codes};
ghost use Rattle.wast_base.specs.Ids.{name_of};
ghost use Rattle.wast_base.specs.FirstUnmet.{first_unmet, known_index};
ghost use Rattle.wast_resolve_namespace.specs.Namespaces.{empty_from};
ghost use Rattle.wast_base.specs.Outcomes.{Outcome};
ghost use Rattle.wast_resolve_rules.specs.Resolved.{resolved_index};
ghost use Rattle.wast_resolve_passes.specs.Locals.{local_in, AreFew};
ghost use Rattle.wast_resolve_names.specs.Walking.{Tries};

use std::alloc::Global;
use std::marker::Model;
use wast_base::{Error, Id, Index, Numbering, number_index, try_number};
use wast_resolve_names::CachedNames;

/// The ids of the parameters and locals of a function, with their numbers (text format, indices:
/// locals).
#[derive(Drop)]
pub(crate) struct LocalNames<'a> {
    // by position among the parameters and locals that are listed
    space: CachedNames<'a>,
    // the number of parameters before them, which are not listed and have no ids
    nameless: u32,
}

impl<'a> Model for LocalNames<'a> {
    ghost use Rattle.std.specs.Coded.{codes};
    ghost use Rattle.wast_resolve_namespace.specs.Namespaces.{coded_space};
    ghost use Rattle.wast_resolve_passes.specs.Locals.{LocalSpace, AreFew};

    ghost Value = { LocalSpace };

    ghost coded = { Prim.hlevel (codes, coded_space) };

    ghost view = { λ s. record { space = s.space; nameless = s.nameless } };

    ghost invariant = { λ s. AreFew (record { space = s.space; nameless = s.nameless }) };
}

impl<'a> LocalNames<'a> {
    /// Returns an empty list. Does not allocate.
    pub(crate) fn none(alloc: Global) -> Self
        ensures { result ≡ record { space = empty_from 0; nameless = 0 } }
    {
        LocalNames {
            space: CachedNames::new(alloc),
            nameless: 0,
        }
    }

    /// Returns these ids after some unnamed parameters.
    pub(crate) fn behind(nameless: u32, space: CachedNames<'a>) -> Self
        requires { AreFew (record { space = space; nameless = nameless }) }
        ensures { result ≡ record { space = space.entry; nameless = nameless } }
    {
        LocalNames { space, nameless }
    }

    /// Returns the number of an id, if it is known.
    fn find(&self, id: &Id<'a>) -> Option<u32>
        ensures { result ≡ local_in self.now (name_of id.now) }
    {
        match self.space.find(id) {
            Some(number) => Some(self.nameless + number),
            None => None,
        }
    }

    /// Resolves the index of a local. Fails with E4 at an unknown id, which is then unchanged.
    pub(crate) fn number(&self, idx: &mut Index<'a>) -> Result<(), Error<'a>>
        ensures answer { Outcome ⊥ ⊥ (first_unmet (known_index (local_in self.now) (codes "local") idx.old)) result }
        ensures index { idx.new ≡ resolved_index (local_in self.now) idx.old }
    {
        number_index(self, idx, "local")?;
        Ok(())
    }

    /// Resolves the index of a local, and returns whether it is known. An unknown id is unchanged.
    pub(crate) fn try_number(&self, idx: &mut Index<'a>) -> bool
        ensures { Tries (known_index (local_in self.now) (codes "local") idx.old)
            (resolved_index (local_in self.now) idx.old) idx.old idx.new result }
    {
        try_number(self, idx).is_some()
    }
}

impl<'a> Numbering<'a> for LocalNames<'a> {
    ghost numbers = { local_in };

    fn number_of(&self, id: &Id<'a>) -> Option<u32> {
        self.find(id)
    }
}
