//! `Gensym`, the counter of generated ids.

ghost use Rattle.std.specs.Prelude.{◌≡◌, ◌≤◌};
ghost use Rattle.wast_base.specs.Gensym.{Generates, Fills};

use crate::faults::{Error, Fault};
use crate::ids::{Id, Name, Span};
use std::marker::Model;

/// The counter that numbers generated ids.
///
/// Resolving generates an id for an item that needs one, because a reference by id stays right if
/// more items are added before the item. The number of a generated id is its generation. The model
/// of the counter in contracts is the generation of its next id, which is at least 1.
///
/// If the counter is at the greatest `u64`, generating an id fails with E10 and changes nothing. No
/// call on the counter allocates.
///
/// # Example
///
///     let mut gensym = Gensym::new(1);
///     let made = gensym.generate(at(5)).expect(&rt, "counter");
///     let next = gensym.generate(at(5)).expect(&rt, "counter");
///
/// The two ids have the generations 1 and 2.
#[derive(Debug, Drop)]
pub struct Gensym {
    next: u64,
}

impl Model for Gensym {
    ghost use Rattle.std.specs.Prelude.{ℕ, ◌<◌};

    ghost Value = { ℕ };

    ghost view = { λ g. g.next };

    ghost invariant = { λ g. 0 < g.next };
}

impl Gensym {
    /// Makes a counter whose first id has the generation `first`. Source ids have generation 0.
    pub fn new(first: u64) -> Self
        requires { 1 ≤ first }
        ensures { result ≡ first }
    {
        Gensym { next: first }
    }

    /// Returns the generation of the next id.
    pub fn peek(&self) -> u64
        ensures next { result ≡ self.now }
        ensures positive { 1 ≤ result }
    {
        self.next
    }

    /// Returns a new id at the position `span`, and raises the counter by one.
    pub fn generate<'a>(&mut self, span: Span) -> Result<Id<'a>, Error<'a>>
        ensures { Generates self.old span result self.new }
    {
        let generation = self.next;
        let Some(next) = generation.checked_add(1) else {
            return Err(Error::refusal(Fault::TooLarge));
        };
        self.next = next;
        Ok(Id {
            name: Name::Generated(generation),
            span,
        })
    }

    /// Returns the id in `slot`; if there is none, generates one at `span` and stores it there.
    ///
    /// # Example
    ///
    ///     let mut gensym = Gensym::new(3);
    ///     let mut slot = None;
    ///     let id = gensym.fill(at(4), &mut slot).expect(&rt, "counter");
    ///
    /// The id has generation 3 and is in `slot`, and a second call returns it again.
    pub fn fill<'a>(&mut self, span: Span, slot: &mut Option<Id<'a>>) -> Result<Id<'a>, Error<'a>>
        ensures { Fills self.old span slot.old result slot.new self.new }
    {
        if let Some(id) = slot {
            return Ok(*id);
        }
        let id = self.generate(span)?;
        *slot = Some(id);
        Ok(id)
    }
}
