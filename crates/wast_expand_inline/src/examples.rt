//! Example modules whose expansion the definitions compute.

ghost use Rattle.wast_expand_inline.specs.WorkedFields.{EmptyMemory, LongMemory, ImportedFuncs, ExactImport, TableOfTwo, GlobalAndTag};

/// A memory with two inline exports and empty inline data: it has no page.
#[tactic(auto, using(crate::proofs::Worked::empty_memory))]
pub(crate) fn empty_memory()
    ensures { EmptyMemory }
{}

/// A memory with 64-bit indices and pages of two bytes, after an imported memory. Three bytes take
/// two pages, and the id stays.
#[tactic(auto, using(crate::proofs::Worked::long_memory))]
pub(crate) fn long_memory()
    ensures { LongMemory }
{}

/// Two functions with inline imports, one of them exported.
#[tactic(auto, using(crate::proofs::Worked::imported_funcs))]
pub(crate) fn imported_funcs()
    ensures { ImportedFuncs }
{}

/// A function with an inline import that is exact.
#[tactic(auto, using(crate::proofs::Worked::exact_import))]
pub(crate) fn exact_import()
    ensures { ExactImport }
{}

/// A table with two inline elements.
#[tactic(auto, using(crate::proofs::Worked::table_of_two))]
pub(crate) fn table_of_two()
    ensures { TableOfTwo }
{}

/// An imported global and a tag with inline exports, and a start field between them that stays.
#[tactic(auto, using(crate::proofs::Worked::global_and_tag))]
pub(crate) fn global_and_tag()
    ensures { GlobalAndTag }
{}
