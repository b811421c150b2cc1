//! `FieldKind`, the kind of a field.

ghost use Rattle.std.specs.Prelude.{◌≡◌, ◌<◌};
ghost use Rattle.wast_tree_nodes.specs.Kinds.{kind_in, kind_rank, is_of};

use crate::customs::CustomPlace;
use crate::fields::ModuleField;
use crate::profiles::profile_of;

/// The kind of a field (text format: modules).
///
/// There is a kind for each variant of [`ModuleField`]. Custom sections have a kind for each
/// position in the binary module, because the encoder writes each position separately.
///
///     let starts = reaches.of_kind(FieldKind::Start);
#[derive(Clone, Copy)]
pub enum FieldKind {
    /// `(type ..)`
    Ty,
    /// `(rec ..)`
    Rec,
    /// `(import ..)`
    Import,
    /// `(func ..)`
    Func,
    /// `(table ..)`
    Table,
    /// `(memory ..)`
    Memory,
    /// `(global ..)`
    Global,
    /// `(export ..)`
    Export,
    /// `(start ..)`
    Start,
    /// `(elem ..)`
    Elem,
    /// `(data ..)`
    Data,
    /// `(tag ..)`
    Tag,
    /// `(@custom ..)` and its like, with this position in the binary module.
    Custom(CustomPlace),
}

impl FieldKind {
    /// Returns the number of the kind of a field, from 0 to 37.
    pub fn rank_of(field: &ModuleField<'_>) -> usize
        ensures same { result ≡ kind_rank (kind_in field.now) }
        ensures within { result < 38 }
    {
        profile_of(field).kind.rank()
    }

    /// Returns the number of the kind, from 0 to 37.
    pub fn rank(self) -> usize
        ensures same { result ≡ kind_rank self }
        ensures within { result < 38 }
    {
        match self {
            FieldKind::Ty => 0,
            FieldKind::Rec => 1,
            FieldKind::Import => 2,
            FieldKind::Func => 3,
            FieldKind::Table => 4,
            FieldKind::Memory => 5,
            FieldKind::Global => 6,
            FieldKind::Export => 7,
            FieldKind::Start => 8,
            FieldKind::Elem => 9,
            FieldKind::Data => 10,
            FieldKind::Tag => 11,
            FieldKind::Custom(place) => 12 + place.rank(),
        }
    }

    /// Returns whether a field has this kind.
    pub fn is_of(self, field: &ModuleField<'_>) -> bool
        ensures { result ≡ is_of self field.now }
    {
        self.rank() == FieldKind::rank_of(field)
    }
}
