//! Index spaces.

ghost use Rattle.std.specs.Prelude.{◌≡◌, Some};
ghost use Rattle.wast_base.specs.Spaces.{word_of, rank_of, same_space};

use std::fmt;

/// An index space: a kind of item that has its own numbering (text format: indices).
///
/// In `(module (func $a) (memory $a))` both items have index 0, because functions and memories are
/// in different index spaces. `{}` prints [`Space::word`].
///
///     let space = Space::ALL[rank];
///     assert!(rt; space.rank() == rank && space.word() == words[rank]);
#[derive(Clone, Copy, Debug, PartialEq, Eq, Hash)]
pub enum Space {
    /// Functions.
    Func,
    /// Tables.
    Table,
    /// Memories.
    Memory,
    /// Globals.
    Global,
    /// Tags.
    Tag,
    /// Element segments.
    Elem,
    /// Data segments.
    Data,
    /// Types.
    Ty,
}

impl Space {
    /// All eight index spaces, each at the position that is its rank.
    pub const ALL: [Space; 8] = [
        Space::Func,
        Space::Table,
        Space::Memory,
        Space::Global,
        Space::Tag,
        Space::Elem,
        Space::Data,
        Space::Ty,
    ];

    /// Returns the word for an item of the space in messages: `func`, .., `type`.
    pub fn word(self) -> &'static str
        ensures { result.now ≡ word_of self }
    {
        match self {
            Space::Func => "func",
            Space::Table => "table",
            Space::Memory => "memory",
            Space::Global => "global",
            Space::Tag => "tag",
            Space::Elem => "elem",
            Space::Data => "data",
            Space::Ty => "type",
        }
    }

    /// Returns the number of the space, from 0 to 7: its position in [`Space::ALL`].
    pub fn rank(self) -> usize
        ensures { result ≡ rank_of self }
    {
        match self {
            Space::Func => 0,
            Space::Table => 1,
            Space::Memory => 2,
            Space::Global => 3,
            Space::Tag => 4,
            Space::Elem => 5,
            Space::Data => 6,
            Space::Ty => 7,
        }
    }

    /// Returns whether the two index spaces are the same.
    pub fn is(self, other: Space) -> bool
        ensures { result ≡ same_space self other }
    {
        self.rank() == other.rank()
    }
}

impl fmt::Display for Space {
    ghost output = { λ space. Some (word_of space) };

    fn fmt<W: fmt::Write>(&self, f: &mut fmt::Formatter<W>) -> fmt::Result {
        let word = self.word();
        write!(f, "{word}")
    }
}
