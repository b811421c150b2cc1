//! Custom sections of the source.

ghost use Rattle.std.specs.Prelude.{◌≡◌, ◌<◌};
ghost use Rattle.wast_tree_nodes.specs.Tree.custom;
ghost use Rattle.wast_tree_nodes.specs.Customs.{custom_name, custom_place, anchor_rank, place_rank, stands_at, subsection_id};

use wast_base::{Seq, Span};

/// A custom section: `(@custom ..)`, `(@producers ..)` or `(@dylink.0 ..)`.
///
/// The first is of the text format (custom annotations), and the others are tool conventions. For
/// example, `(@custom "a" (after func) "x")` is a section named `a` with the byte of `x`.
#[derive(Debug, Drop)]
pub enum Custom<'a> {
    /// A section with a name, a position and any bytes.
    Raw(RawCustomSection<'a>),
    /// The tools that made the module (tool conventions: producers section).
    Producers(Producers<'a>),
    /// Information for a dynamic linker (tool conventions: dynamic linking).
    Dylink0(Dylink0<'a>),
}

impl<'a> Custom<'a> {
    /// Makes `(@custom "a" ..)`. `span` is its position in the source, `place` that in the module.
    pub fn raw(span: Span, place: CustomPlace, name: &'a str, bytes: Seq<&'a [u8]>) -> Custom<'a>
        ensures { result ≡ custom.Raw (record { span = span; place = place; name = name.entry; bytes = bytes.entry }) }
    {
        Custom::Raw(RawCustomSection {
            span,
            place,
            name,
            bytes,
        })
    }

    /// Returns the name of the section: its own, `producers` or `dylink.0`.
    pub fn name(&self) -> &'a str
        ensures { result.now ≡ custom_name self.now }
    {
        match self {
            Custom::Raw(section) => section.name,
            Custom::Producers(_) => "producers",
            Custom::Dylink0(_) => "dylink.0",
        }
    }

    /// Returns the position of the section in the binary module.
    ///
    /// `producers` is after the last section, `dylink.0` before the first. Others have their own.
    pub fn place(&self) -> CustomPlace
        ensures { result ≡ custom_place self.now }
    {
        match self {
            Custom::Raw(section) => section.place,
            Custom::Producers(_) => CustomPlace::AfterLast,
            Custom::Dylink0(_) => CustomPlace::BeforeFirst,
        }
    }

    /// Returns whether the section has this position in the binary module.
    pub fn stands_at(&self, place: CustomPlace) -> bool
        ensures { result ≡ stands_at place self.now }
    {
        place.rank() == self.place().rank()
    }
}

/// A custom section of any bytes, such as `(@custom "a" (after func) "x")`.
#[derive(Debug, Drop)]
pub struct RawCustomSection<'a> {
    /// The position of its keyword in the source.
    pub span: Span,
    /// Its position in the binary module.
    pub place: CustomPlace,
    /// Its name.
    pub name: &'a str,
    /// Its bytes, in pieces that follow one another.
    pub bytes: Seq<&'a [u8]>,
}

/// The position of a custom section among the sections of a module.
///
/// `(before func)` and `(after func)` are relative to the function section, even if the module has
/// none (text format: custom annotations).
///
///     let before = CustomPlace::Before(CustomPlaceAnchor::Code);
#[derive(Clone, Copy, Debug, PartialEq, Eq)]
pub enum CustomPlace {
    /// Before all other sections: `(before first)`
    BeforeFirst,
    /// Directly before a section, or before its position if the module has no such section.
    Before(CustomPlaceAnchor),
    /// Directly after a section, or after its position if the module has no such section.
    After(CustomPlaceAnchor),
    /// After all other sections except the name section: `(after last)`
    AfterLast,
}

impl CustomPlace {
    /// Returns the number of the position, from 0 to 25, so that positions can be compared.
    pub fn rank(self) -> usize
        ensures same { result ≡ place_rank self }
        ensures within { result < 26 }
    {
        match self {
            CustomPlace::BeforeFirst => 0,
            CustomPlace::AfterLast => 1,
            CustomPlace::Before(anchor) => 2 + anchor.rank(),
            CustomPlace::After(anchor) => 14 + anchor.rank(),
        }
    }
}

/// A section that a custom section can be before or after (text format: custom annotations).
#[derive(Clone, Copy, Debug, PartialEq, Eq)]
pub enum CustomPlaceAnchor {
    /// The type section.
    Ty,
    /// The import section.
    Import,
    /// The function section.
    Func,
    /// The table section.
    Table,
    /// The memory section.
    Memory,
    /// The tag section.
    Tag,
    /// The global section.
    Global,
    /// The export section.
    Export,
    /// The start section.
    Start,
    /// The element section.
    Elem,
    /// The code section.
    Code,
    /// The data section.
    Data,
}

impl CustomPlaceAnchor {
    /// Returns the number of the section among these, from 0 to 11.
    pub fn rank(self) -> usize
        ensures same { result ≡ anchor_rank self }
        ensures within { result < 12 }
    {
        match self {
            CustomPlaceAnchor::Ty => 0,
            CustomPlaceAnchor::Import => 1,
            CustomPlaceAnchor::Func => 2,
            CustomPlaceAnchor::Table => 3,
            CustomPlaceAnchor::Memory => 4,
            CustomPlaceAnchor::Tag => 5,
            CustomPlaceAnchor::Global => 6,
            CustomPlaceAnchor::Export => 7,
            CustomPlaceAnchor::Start => 8,
            CustomPlaceAnchor::Elem => 9,
            CustomPlaceAnchor::Code => 10,
            CustomPlaceAnchor::Data => 11,
        }
    }
}

/// The tools that made a module: `(@producers (language "R" "1"))` (tool conventions: producers).
#[derive(Debug, Drop)]
pub struct Producers<'a> {
    /// The fields. Each has a name and values, and a value is a name and a version.
    pub fields: Seq<(&'a str, Seq<(&'a str, &'a str)>)>,
}

/// Information for a dynamic linker: `(@dylink.0 ..)` (tool conventions: dynamic linking).
#[derive(Debug, Drop)]
pub struct Dylink0<'a> {
    /// The subsections, in source order.
    pub subsections: Seq<Dylink0Subsection<'a>>,
}

/// A subsection of `dylink.0` (tool conventions: dynamic linking).
#[derive(Debug, Drop)]
pub enum Dylink0Subsection<'a> {
    /// `(mem-info (memory 1 0) (table 1 0))`
    MemInfo {
        /// The bytes of memory that the module needs.
        memory_size: u32,
        /// The exponent of their alignment, a power of two.
        memory_align: u32,
        /// The table elements that the module needs.
        table_size: u32,
        /// The exponent of their alignment, a power of two.
        table_align: u32,
    },
    /// `(needed "a")`: the modules to load first.
    Needed(Seq<&'a str>),
    /// `(export-info "a" 1)`: exports with their flags.
    ExportInfo(Seq<(&'a str, u32)>),
    /// `(import-info "a" "b" 1)`: imports with their flags.
    ImportInfo(Seq<(&'a str, &'a str, u32)>),
    /// `(runtime-path "a")`: the folders to search for modules.
    RuntimePath(Seq<&'a str>),
    /// The target architecture. The encoder does not support it (E11).
    TargetArch(&'a str),
}

impl Dylink0Subsection<'_> {
    /// Returns the number of the subsection in the binary format; 6 for the target architecture.
    pub fn id(&self) -> u8
        ensures { result ≡ subsection_id self.now }
    {
        match self {
            Dylink0Subsection::MemInfo { .. } => 1,
            Dylink0Subsection::Needed(_) => 2,
            Dylink0Subsection::ExportInfo(_) => 3,
            Dylink0Subsection::ImportInfo(_) => 4,
            Dylink0Subsection::RuntimePath(_) => 5,
            Dylink0Subsection::TargetArch(_) => 6,
        }
    }
}
