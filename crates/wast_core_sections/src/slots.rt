//! The order of the sections of a module.

ghost use Rattle.std.specs.Prelude.{◌≡◌};
ghost use Rattle.wasm_out.specs.Parts.{section_id};
ghost use Rattle.wast_core_sections.specs.Slots.{section_kind};

use wast_tree_nodes::{CustomPlace, CustomPlaceAnchor};

/// A kind of section that is a list (binary format, modules: sections).
#[derive(Clone, Copy)]
pub enum SectionKind {
    /// Type section.
    Types,
    /// Import section.
    Imports,
    /// Function section: the types of functions.
    Functions,
    /// Table section.
    Tables,
    /// Memory section.
    Memories,
    /// Tag section.
    Tags,
    /// Global section.
    Globals,
    /// Export section.
    Exports,
    /// Element section.
    Elements,
    /// Code section: the bodies of functions.
    Code,
    /// Data section.
    Data,
}

impl SectionKind {
    /// Returns the id of such a section.
    pub(crate) fn id(self) -> u8
        ensures { result ≡ section_id (section_kind self) }
    {
        match self {
            SectionKind::Types => 1,
            SectionKind::Imports => 2,
            SectionKind::Functions => 3,
            SectionKind::Tables => 4,
            SectionKind::Memories => 5,
            SectionKind::Tags => 13,
            SectionKind::Globals => 6,
            SectionKind::Exports => 7,
            SectionKind::Elements => 9,
            SectionKind::Code => 10,
            SectionKind::Data => 11,
        }
    }
}

/// A position for sections in a module.
#[derive(Clone, Copy)]
pub enum Slot {
    /// Custom sections.
    Custom(CustomPlace),
    /// A section that is a list.
    Section(SectionKind),
    /// Start sections, one for each start field.
    Start,
    /// The data count section, if a body needs it.
    DataCount,
    /// The branch hints, if a body has some.
    Hints,
    /// The name section.
    Names,
}

/// The positions, in the order of the binary format (binary format: modules).
pub(crate) const ORDER: [Slot; 41] = [
    Slot::Custom(CustomPlace::BeforeFirst),
    Slot::Custom(CustomPlace::Before(CustomPlaceAnchor::Ty)),
    Slot::Section(SectionKind::Types),
    Slot::Custom(CustomPlace::After(CustomPlaceAnchor::Ty)),
    Slot::Custom(CustomPlace::Before(CustomPlaceAnchor::Import)),
    Slot::Section(SectionKind::Imports),
    Slot::Custom(CustomPlace::After(CustomPlaceAnchor::Import)),
    Slot::Custom(CustomPlace::Before(CustomPlaceAnchor::Func)),
    Slot::Section(SectionKind::Functions),
    Slot::Custom(CustomPlace::After(CustomPlaceAnchor::Func)),
    Slot::Custom(CustomPlace::Before(CustomPlaceAnchor::Table)),
    Slot::Section(SectionKind::Tables),
    Slot::Custom(CustomPlace::After(CustomPlaceAnchor::Table)),
    Slot::Custom(CustomPlace::Before(CustomPlaceAnchor::Memory)),
    Slot::Section(SectionKind::Memories),
    Slot::Custom(CustomPlace::After(CustomPlaceAnchor::Memory)),
    Slot::Custom(CustomPlace::Before(CustomPlaceAnchor::Tag)),
    Slot::Section(SectionKind::Tags),
    Slot::Custom(CustomPlace::After(CustomPlaceAnchor::Tag)),
    Slot::Custom(CustomPlace::Before(CustomPlaceAnchor::Global)),
    Slot::Section(SectionKind::Globals),
    Slot::Custom(CustomPlace::After(CustomPlaceAnchor::Global)),
    Slot::Custom(CustomPlace::Before(CustomPlaceAnchor::Export)),
    Slot::Section(SectionKind::Exports),
    Slot::Custom(CustomPlace::After(CustomPlaceAnchor::Export)),
    Slot::Custom(CustomPlace::Before(CustomPlaceAnchor::Start)),
    Slot::Start,
    Slot::Custom(CustomPlace::After(CustomPlaceAnchor::Start)),
    Slot::Custom(CustomPlace::Before(CustomPlaceAnchor::Elem)),
    Slot::Section(SectionKind::Elements),
    Slot::Custom(CustomPlace::After(CustomPlaceAnchor::Elem)),
    Slot::DataCount,
    Slot::Custom(CustomPlace::Before(CustomPlaceAnchor::Code)),
    Slot::Hints,
    Slot::Section(SectionKind::Code),
    Slot::Custom(CustomPlace::After(CustomPlaceAnchor::Code)),
    Slot::Custom(CustomPlace::Before(CustomPlaceAnchor::Data)),
    Slot::Section(SectionKind::Data),
    Slot::Custom(CustomPlace::After(CustomPlaceAnchor::Data)),
    Slot::Custom(CustomPlace::AfterLast),
    Slot::Names,
];
