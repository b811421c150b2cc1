//! Builds binary WebAssembly modules: sections, function bodies, name sections and whole modules.
//!
//! Callers without a syntax tree use it to write a module section by section. `wast_core` encodes
//! modules with its segments and locals.
//!
//! # Example
//!
//!     let mut types = TypeSection::new(alloc);
//!     types.subtype(&function_type(alloc)?)?;
//!     let mut functions = FunctionSection::new(alloc);
//!     functions.function(0)?;
//!
//! Then the sections are added to a module, in the order of the binary format:
//!
//!     let mut module = Module::new(alloc)?;
//!     module.section(&types)?;
//!     module.section(&functions)?;
//!
//! A call that returns a `Result` fails with E10 only if a count or length would be 2^32 or more,
//! and with E12 if allocation fails. Nothing is added then.
//!
//! # Modules
//!
//! - `modules`, `sections`: whole modules, the trait [`Section`], and sections without a list.
//! - `builders`, `entity_sections`: sections that are lists. `built_items`: the items of such a
//!   list.
//! - `bodies`, `locals`: function bodies, and their locals as runs of equal types.
//! - `elements`, `data_segments`: element and data segments in each form.
//! - `names`, `producers`, `hints`: custom sections. `worked_bytes`: examples with their bytes.
//! - `laws`: theorems, for callers who prove more: the bytes of a module determine its sections,
//!   and the sections the bytes.
#![tactic(auto)]

mod bodies;
mod builders;
mod built_items;
mod data_segments;
mod elements;
mod entity_sections;
mod hints;
pub mod laws;
mod locals;
mod modules;
mod names;
mod producers;
mod sections;
mod worked_bytes;

pub use bodies::Function;
pub use builders::{
    Code, CodeSection, ExportSection, Exports, FunctionSection, Functions, ListKind, ListSection,
    TypeSection, Types,
};
pub use data_segments::{DataMode, DataSection, DataSegment, DataSegments};
pub use elements::{
    ElementKind, ElementSection, ElementSegment, ElementSegments, Elements, SegmentMode,
};
pub use entity_sections::{
    GlobalSection, Globals, ImportSection, Imports, Memories, MemorySection, TableSection, Tables,
    TagSection, Tags,
};
pub use hints::{BranchHint, BranchHints};
pub use laws::{building_law, part_spelling_law, reading_laws};
pub use locals::{LocalType, Locals};
pub use modules::{HEADER, Module};
pub use names::{Direct, IndexedNames, Indirect, IndirectNameMap, NameMap, NameSection};
pub use producers::{ProducersField, ProducersSection};
pub use sections::{Build, CustomSection, DataCountSection, Section, StartSection};
