//! The order of names, and the position of a name in a sorted list.

ghost use Rattle.std.specs.Prelude.{◌≡◌, map};
ghost use Rattle.wast_base.specs.Ids.{Name, name_of};
ghost use Rattle.wast_base.specs.Order.{key_cmp, key_of, AreInOrder, IsPlaceOf};

use crate::ids::Id;
use std::cmp::Ordering;

/// The sort key of an id: its text, and its generation if it is generated.
#[derive(Clone, Copy, PartialEq, Eq, PartialOrd, Ord)]
struct Key<'a> {
    text: &'a str,
    generation: Option<u64>,
}

impl<'a> Key<'a> {
    /// Returns the key of an id. Its position is ignored.
    #[tactic(auto, using(crate::proofs::Keys::written_has_none, crate::proofs::Keys::generated_has_one))]
    fn new(id: &Id<'a>) -> Self
        ensures { (result.text.now, result.generation) ≡ key_of (name_of id.now) }
    {
        let generation = if id.is_gensym() {
            Some(id.generation())
        } else {
            None
        };
        Key {
            text: id.name(),
            generation,
        }
    }
}

/// Compares two ids by the bytes of their names, then source before generated, then by generation.
///
/// Positions are ignored. The name of a generated id is `gensym`, so that generated ids sort among
/// source ids: `$a`, `$gensym`, generation 1, generation 2, `$h`.
#[tactic(auto, using(crate::proofs::Keys::compared))]
pub fn compare_names<'a>(a: &Id<'a>, b: &Id<'a>) -> Ordering
    ensures { result ≡ key_cmp (key_of (name_of a.now)) (key_of (name_of b.now)) }
{
    Key::new(a).cmp(&Key::new(b))
}

/// A value that has an id, so that [`place_among`] can search a slice of such values.
///
/// For example, an id has itself, and the pair `(id, 3)` has `id`.
pub trait Named<'a> {
    /// The name of its id.
    ghost name: { Self → Name };

    /// Returns its id.
    fn id(&self) -> Id<'a>
        ensures { name_of result ≡ name self.now };
}

impl<'a> Named<'a> for Id<'a> {
    ghost name = { λ id. name_of id };

    fn id(&self) -> Id<'a> {
        *self
    }
}

impl<'a> Named<'a> for (Id<'a>, u32) {
    ghost name = { λ e. name_of e.0 };

    fn id(&self) -> Id<'a> {
        self.0
    }
}

/// Returns the position of a name in a slice sorted by [`compare_names`], by binary search.
///
/// All names before the position are less than the name, and all others are not. For example, `$b`
/// in `$a $b $b $d` has position 1, and `$c` has position 3.
pub fn place_among<'a, T: Named<'a>>(named: &[T], id: &Id<'a>) -> usize
    requires { AreInOrder (map T.name named.now) }
    ensures { IsPlaceOf (map T.name named.now) (name_of id.now) result }
{
    let mut low = 0;
    let mut high = named.len();
    'halve: while low < high {
        let mid = low + (high - low) / 2;
        if compare_names(&named[mid].id(), id).is_lt() {
            low = mid + 1;
        } else {
            high = mid;
        }
    }
    low
}
