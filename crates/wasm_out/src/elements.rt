//! Element segments and the element section.

ghost use Rattle.std.specs.Prelude.{◌&&◌, ◌+◌, IsTrue};
ghost use Rattle.wasm_ops.specs.Sinks.{Writes};
ghost use Rattle.wasm_ops.specs.Spelling.{InRangeU32, ref_type};
ghost use Rattle.wasm_out.specs.Built.{Adds};
ghost use Rattle.wasm_out.specs.BuiltElements.{segment_bytes, InRangeMode, is_ready_mode, is_form, ended, element_kind, listed_in, InRangeElements, AreElements};
ghost use Rattle.wasm_out.specs.ElementSegments.{passive_bytes, declared_bytes, active_bytes, has_active_form, element_type, table_index};
ghost use Rattle.wasm_out.specs.Parts as parts;
ghost use Rattle.wasm_out.specs.declared.elements.ElementKind.TheVariants as kinds;

use crate::builders::{ListKind, ListSection};
use crate::sections::ELEMENT_ID;
use wasm_ops::{AsItself, ConstExpr, Counted, Encode, RefType, Refusal, Sink};
use wast_base::Error;

/// The kind of the elements of a segment (binary format: element section).
#[derive(Clone, Copy, Debug, PartialEq, Eq)]
pub enum ElementKind {
    /// Indices of functions.
    Functions,
    /// Expressions of a reference type.
    Expressions(RefType),
}

/// The mode of an element segment (binary format: element section).
///
/// The type parameter is the offset, because callers keep expressions in types of their own.
#[derive(Clone, Copy, Debug)]
pub enum SegmentMode<O> {
    /// Passive: instructions such as `table.init` copy it.
    Passive,
    /// Declarative: it only declares the functions that `ref.func` may refer to.
    Declared,
    /// Active: it fills a table from an offset on. Without an index it is table 0.
    Active(Option<u32>, O),
}

/// An element segment: its mode, the kind of its elements, and their list (binary format: element
/// section).
///
/// For example, `(elem (i32.const 1) func 0 1)` is `00 41 01 0b 02 00 01`. The list is a type
/// parameter for the same reason as in [`SegmentMode`].
#[derive(Clone, Copy)]
pub struct ElementSegment<O, L> {
    /// The mode.
    pub mode: SegmentMode<O>,
    /// The kind of the elements.
    pub kind: ElementKind,
    /// The list of the elements.
    pub list: L,
}

impl<O: Encode, L: Encode> ElementSegment<O, L> {
    /// Appends a segment of function indices.
    fn put_functions<S: Sink>(&self, out: &mut S) -> Result<(), Refusal>
        requires { IsTrue (is_ready_mode O.is_ready self.now.mode && L.is_ready self.now.list) }
        ensures { Writes S.rules (InRangeMode O.in_range self.now.mode × L.in_range self.now.list) out.old out.new
            (segment_bytes O.spelling self.now.mode kinds.Functions (L.spelling self.now.list)) result }
    {
        let list = &self.list;
        match &self.mode {
            SegmentMode::Passive => (0x01u8, (0x00u8, list)).encode(out),
            SegmentMode::Declared => (0x03u8, (0x00u8, list)).encode(out),
            SegmentMode::Active(None, offset) => (0x00u8, (offset, list)).encode(out),
            SegmentMode::Active(Some(table), offset) => {
                (0x02u8, (*table, (offset, (0x00u8, list)))).encode(out)
            }
        }
    }

    /// Appends a segment of expressions. The type must be supported, and `funcref` without a table
    /// index.
    fn put_expressions<S: Sink>(&self, ty: RefType, out: &mut S) -> Result<(), Refusal>
        requires { IsTrue ((ref_type ty).is_covered
            && (is_ready_mode O.is_ready self.now.mode && L.is_ready self.now.list)) }
        ensures { Writes S.rules
            (InRangeMode O.in_range self.now.mode × ((ref_type ty).in_range × L.in_range self.now.list)) out.old out.new
            (segment_bytes O.spelling self.now.mode (kinds.Expressions ty) (L.spelling self.now.list)) result }
    {
        let list = &self.list;
        match &self.mode {
            SegmentMode::Passive => (0x05u8, (ty, list)).encode(out),
            SegmentMode::Declared => (0x07u8, (ty, list)).encode(out),
            SegmentMode::Active(None, offset) => (0x04u8, (offset, list)).encode(out),
            SegmentMode::Active(Some(table), offset) => {
                (0x06u8, (*table, (offset, (ty, list)))).encode(out)
            }
        }
    }
}

/// The mode and the kind determine the form. Expressions without a table index have no bytes for
/// their type, so it must be `funcref`.
impl<O: Encode, L: Encode> Encode for ElementSegment<O, L> {
    ghost spelling = { λ s. segment_bytes O.spelling s.mode s.kind (L.spelling s.list) };

    ghost in_range = { λ s. InRangeMode O.in_range s.mode × ((element_type s.kind).in_range × L.in_range s.list) };

    ghost is_ready = { λ s. is_form s.mode s.kind
        && ((element_type s.kind).is_covered && (is_ready_mode O.is_ready s.mode && L.is_ready s.list)) };

    fn encode<S: Sink>(&self, out: &mut S) -> Result<(), Refusal> {
        match self.kind {
            ElementKind::Functions => self.put_functions(out),
            ElementKind::Expressions(ty) => self.put_expressions(ty, out),
        }
    }
}

/// The elements of a segment that is added to an [`ElementSection`] (binary format: element
/// section).
///
///     let functions = Elements::Functions(vec![in alloc; 0]?);
#[derive(Debug, Drop)]
pub enum Elements {
    /// Functions, by index.
    Functions(Vec<u32>),
    /// Expressions of a reference type, which the encoder must support ([`RefType::is_covered`]).
    Expressions(RefType, Vec<ConstExpr>),
}

/// The kind of element sections.
#[derive(Clone, Copy, Debug)]
pub struct ElementSegments;

impl ListKind for ElementSegments {
    ghost kind = { parts.Elements };

    fn id() -> u8 {
        ELEMENT_ID
    }
}

/// The element section (binary format: element section).
pub type ElementSection = ListSection<ElementSegments>;

impl ElementSection {
    /// Adds a passive segment, which instructions such as `table.init` copy.
    ///
    ///     section.passive(&functions)?;
    pub fn passive<'e>(&mut self, elements: &Elements) -> Result<(), Error<'e>>
        requires { AreElements elements.now }
        ensures { Adds (InRangeU32 (self.old.count + 1) × InRangeElements elements.now) self.old self.new
            (passive_bytes (element_kind elements.now) (listed_in elements.now)) result }
    {
        self.add(SegmentMode::Passive, elements)
    }

    /// Adds a declarative segment: functions that `ref.func` may refer to.
    ///
    ///     section.declared(&functions)?;
    pub fn declared<'e>(&mut self, elements: &Elements) -> Result<(), Error<'e>>
        requires { AreElements elements.now }
        ensures { Adds (InRangeU32 (self.old.count + 1) × InRangeElements elements.now) self.old self.new
            (declared_bytes (element_kind elements.now) (listed_in elements.now)) result }
    {
        self.add(SegmentMode::Declared, elements)
    }

    /// Adds an active segment, which fills a table from an offset on. Without an index it is table
    /// 0.
    ///
    ///     section.active(Some(1), &offset, &expressions)?;
    ///
    /// Without a table index, expressions must have the type `funcref`.
    pub fn active<'e>(
        &mut self,
        table: Option<u32>,
        offset: &ConstExpr,
        elements: &Elements,
    ) -> Result<(), Error<'e>>
        requires elements { AreElements elements.now }
        requires form { IsTrue (has_active_form table (element_kind elements.now)) }
        ensures { Adds (InRangeU32 (self.old.count + 1) × ((table_index table).in_range × InRangeElements elements.now))
            self.old self.new (active_bytes table (ended offset.now) (element_kind elements.now) (listed_in elements.now))
            result }
    {
        self.add(SegmentMode::Active(table, offset), elements)
    }

    /// Adds a segment in any mode.
    fn add<'e>(
        &mut self,
        mode: SegmentMode<&ConstExpr>,
        elements: &Elements,
    ) -> Result<(), Error<'e>>
        requires elements { AreElements elements.now }
        requires form { IsTrue (is_form mode (element_kind elements.now)) }
        ensures { Adds
            (InRangeU32 (self.old.count + 1) × (InRangeMode (λ _. Unit {0}) mode.entry × InRangeElements elements.now))
            self.old self.new
            (segment_bytes (λ offset. ended offset.now) mode.entry (element_kind elements.now) (listed_in elements.now))
            result }
    {
        match elements {
            Elements::Functions(functions) => self.items.push(&ElementSegment {
                mode,
                kind: ElementKind::Functions,
                list: Counted(functions, AsItself),
            }),
            Elements::Expressions(ty, expressions) => self.items.push(&ElementSegment {
                mode,
                kind: ElementKind::Expressions(*ty),
                list: Counted(expressions, AsItself),
            }),
        }
    }
}
