//! Positions in the source, ids and indices.

ghost use Rattle.std.specs.Prelude.{◌≡◌, Some};
ghost use Rattle.wast_base.specs.Ids.{source_id, text_of, name_of, place_of, generation_of, is_generated, span_of_index, is_number, same_id, same_index, text_start, index_of_number, by_id, id_text, index_text};

use std::fmt;

/// A position in the source: the offset of a character in bytes. The default is the start.
#[derive(Clone, Copy, Debug, PartialEq, Eq, Hash)]
pub struct Span {
    /// The number of bytes before the position.
    pub offset: usize,
}

/// The name of an id: the text of a source id, or the generation of a generated id.
///
/// The order is for maps. Source names, by bytes, come before generated names, by generation.
#[derive(Clone, Copy, Debug, PartialEq, Eq, PartialOrd, Ord, Hash)]
pub(crate) enum Name<'a> {
    Written(&'a str),
    Generated(u64),
}

/// An identifier of the source, such as `$f`, or a generated id (text format: identifiers).
///
/// An id has a name, a generation and a position. A source id has generation 0. Only a
/// [`Gensym`](crate::Gensym) makes a generated id, which has the name `gensym` and a generation
/// above 0. Ids are equal if their names and generations are; positions are ignored.
///
/// `{}` prints a source id as `$name`. It prints a generated id as `gensym 3`, which no source id
/// looks like.
///
/// Ids are ordered so that they can be keys of maps. Source ids, by the bytes of their names, come
/// before generated ids, by their generations. No call on an id allocates.
///
///     let id: Index<'static> = Id::new("f", at(4)).into();
///     assert!(rt; id == Index::Id(Id::new("f", at(9))) && id.span() == at(4));
#[derive(Clone, Copy, Debug)]
#[derive_where(PartialEq, Eq, PartialOrd, Ord, Hash)]
pub struct Id<'a> {
    pub(crate) name: Name<'a>,
    #[derive_where(skip(EqHashOrd))]
    pub(crate) span: Span,
}

/// A reference to an item, by its number or by its id (text format: indices).
///
/// Two indices are equal if they have the same number or equal ids; positions are ignored. A number
/// and an id are never equal. `{}` prints a number in decimal digits, and an id like [`Id`].
///
/// Indices are ordered so that they can be keys of maps: numbers come before ids. No call on an
/// index allocates.
///
///     let number = Index::from(7);
///     assert!(rt; number == Index::Num(7, at(3)) && number.span() == at(0));
#[derive(Clone, Copy, Debug)]
#[derive_where(PartialEq, Eq, PartialOrd, Ord, Hash)]
pub enum Index<'a> {
    /// A number, with the position of its first character or of the id that it replaces.
    Num(u32, #[derive_where(skip(EqHashOrd))] Span),
    /// An id that is not resolved yet.
    Id(Id<'a>),
}

/// A name annotation, `(@name "x")`: the name for the name section, instead of the id.
#[derive(Clone, Copy, Debug, PartialEq, Eq)]
pub struct NameAnnotation<'a> {
    /// The text of the name.
    pub name: &'a str,
}

impl<'a> Id<'a> {
    /// Makes a source id. `name` is without its `$`, and `span` is the position of the `$`.
    pub fn new(name: &'a str, span: Span) -> Self
        ensures { result ≡ source_id name.entry span }
    {
        Id {
            name: Name::Written(name),
            span,
        }
    }

    /// Returns the name without its `$`, or `gensym` for a generated id.
    pub fn name(&self) -> &'a str
        ensures { result.now ≡ text_of (name_of self.now) }
    {
        match self.name {
            Name::Written(name) => name,
            Name::Generated(_) => "gensym",
        }
    }

    /// Returns the position of the `$`, or for a generated id the position that it was made with.
    pub fn span(&self) -> Span
        ensures { result ≡ place_of self.now }
    {
        self.span
    }

    /// Returns whether the id is generated.
    pub fn is_gensym(&self) -> bool
        ensures { result ≡ is_generated (name_of self.now) }
    {
        matches!(self.name, Name::Generated(_))
    }

    /// Returns the generation, which is 0 for a source id.
    pub fn generation(&self) -> u64
        ensures { result ≡ generation_of (name_of self.now) }
    {
        match self.name {
            Name::Written(_) => 0,
            Name::Generated(generation) => generation,
        }
    }

    /// Returns whether the names and generations are equal, as `==` does. Positions are ignored.
    pub fn is_same(&self, other: &Id<'a>) -> bool
        ensures { result ≡ same_id self.now other.now }
    {
        *self == *other
    }
}

impl<'a> Index<'a> {
    /// Returns the position of the number or of the id.
    pub fn span(&self) -> Span
        ensures { result ≡ span_of_index self.now }
    {
        match self {
            Index::Num(_, span) => *span,
            Index::Id(id) => id.span,
        }
    }

    /// Returns whether the index is a number, so that there is no id to resolve.
    pub fn is_resolved(&self) -> bool
        ensures { result ≡ is_number self.now }
    {
        matches!(self, Index::Num(_, _))
    }

    /// Returns whether the numbers or the ids are equal, as `==` does. Positions are ignored.
    pub fn is_same(&self, other: &Index<'a>) -> bool
        ensures { result ≡ same_index self.now other.now }
    {
        *self == *other
    }
}

impl Default for Span {
    ghost is_default = { λ place. place ≡ text_start };

    fn default() -> Self {
        Span { offset: 0 }
    }
}

/// Makes an index from a number, for an index that is not from a source. Its position is 0.
impl From<u32> for Index<'_> {
    ghost from_gives = { λ number index. index ≡ index_of_number number };

    fn from(number: u32) -> Self {
        Index::Num(number, Span::default())
    }
}

/// Makes an index from an id, with its position.
impl<'a> From<Id<'a>> for Index<'a> {
    ghost from_gives = { λ id index. index ≡ by_id id };

    fn from(id: Id<'a>) -> Self {
        Index::Id(id)
    }
}

impl fmt::Display for Id<'_> {
    ghost output = { λ id. Some (id_text (name_of id)) };

    fn fmt<W: fmt::Write>(&self, f: &mut fmt::Formatter<W>) -> fmt::Result {
        match self.name {
            Name::Written(name) => write!(f, "${name}"),
            Name::Generated(generation) => write!(f, "gensym {generation}"),
        }
    }
}

impl fmt::Display for Index<'_> {
    ghost output = { λ index. Some (index_text index) };

    fn fmt<W: fmt::Write>(&self, f: &mut fmt::Formatter<W>) -> fmt::Result {
        match self {
            Index::Num(number, _) => write!(f, "{number}"),
            Index::Id(id) => write!(f, "{id}"),
        }
    }
}
