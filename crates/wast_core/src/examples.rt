//! Example modules whose meaning the prover computes.

ghost use Rattle.wast_core.specs.WorkedMeanings.{Row1, Row2, Row8, Row24, Row27, AnnotatedFunction, SecondNamed, LongSection};
ghost use Rattle.wast_core.specs.WorkedAbbreviations.{Row4, Row5, Row6, Row44};
ghost use Rattle.wast_core.specs.WorkedEntries.{ImportedEntities, MemoryAndData, TableAndElements, TwoStarts};
ghost use Rattle.wast_core.specs.WorkedCounts.{CountedData, CountedNone, UncountedData};
ghost use Rattle.wast_core.specs.WorkedHints.{Row11, Row54};
ghost use Rattle.wast_core.specs.WorkedBlocks.{Row28, Row55, Row56};
ghost use Rattle.wast_core.specs.WorkedFronts as fronts;
ghost use Rattle.wast_core.specs.WorkedCustoms.{OwnNames, Row29, Row51, Row52, Row53};
ghost use Rattle.wast_core.specs.WorkedStarts as started;
ghost use Rattle.wast_core.specs.WorkedResolving.{ReadyModules, KnownNames27, ResolvedModules};
ghost use Rattle.wast_core.specs.WorkedAgain as again;
ghost use Rattle.wast_core.specs.WorkedFinite.{GeneratedIsWritten};

/// Computes the bytes of small modules. An implicit type definition is written without a name, also
/// after a recursion group. A number from the source stays. A name annotation is used before an id.
/// An item without a name is counted. A length of 128 or more takes two bytes.
pub(crate) fn worked_modules()
    ensures row1 { Row1 }
    ensures row2 { Row2 }
    ensures row8 { Row8 }
    ensures row24 { Row24 }
    ensures row27 { Row27 }
    ensures annotated { AnnotatedFunction }
    ensures second { SecondNamed }
    ensures long { LongSection }
{}

/// Computes entries of sections. Imported tables, memories and globals have their types. A passive
/// data segment has its own flag, and an active one its offset. An element segment has the flags of
/// its kind. Each start field is a section of its own.
pub(crate) fn worked_entries()
    ensures imports { ImportedEntities }
    ensures data { MemoryAndData }
    ensures elements { TableAndElements }
    ensures starts { TwoStarts }
{}

/// Computes inline forms. Inline exports, elements and data are in their sections, and refer to the
/// index of their item. A memory has as many pages as its bytes need, and a table as many elements.
pub(crate) fn worked_abbreviations()
    ensures row4 { Row4 }
    ensures row5 { Row5 }
    ensures row6 { Row6 }
    ensures row44 { Row44 }
{}

/// Computes data count sections. If a body needs one, it is before the code section, with the
/// number of data segments, even if that is 0. If no body needs one, there is none.
pub(crate) fn worked_counts()
    ensures counted { CountedData }
    ensures none { CountedNone }
    ensures uncounted { UncountedData }
{}

/// Computes labels. A label becomes the number of enclosing blocks inside its own block. Each
/// labelled block has a name, in the order in which the blocks begin. An `end` that closes no block
/// is written like any other.
pub(crate) fn worked_blocks()
    ensures row28 { Row28 }
    ensures row55 { Row55 }
    ensures row56 { Row56 }
{}

/// Computes custom sections. A custom section is before or after the section that its anchor names,
/// even if that section is left out. One called `name` replaces the name section. Producers
/// sections and `dylink.0` have their own bytes.
pub(crate) fn worked_customs()
    ensures own_names { OwnNames }
    ensures row29 { Row29 }
    ensures row51 { Row51 }
    ensures row52 { Row52 }
    ensures row53 { Row53 }
{}

/// Computes branch hints. The offset of a hint counts the locals of its body and the instructions
/// before its own. Imported functions are counted in the index of the function.
pub(crate) fn worked_hints()
    ensures row11 { Row11 }
    ensures row54 { Row54 }
{}

/// Computes renamed modules. With `r` before each name, the bytes before the name section are the
/// same, and the names have their `r`.
pub(crate) fn worked_fronts()
    ensures row27 { fronts.Row27 }
    ensures row9 { fronts.Row9 }
    ensures row48 { fronts.Row48 }
{}

/// Computes added start fields. A start field at the end has its section after the exports. The
/// resolved fields with the number of its function mean the same.
#[tactic(auto, using(crate::proofs::StartsComputed::row9, crate::proofs::StartsComputed::row48))]
pub(crate) fn worked_starts()
    ensures row27 { started.Row27 }
    ensures row9 { started.Row9 }
    ensures row48 { started.Row48 }
{}

/// Computes what resolving returns. A module can be resolved if it is well formed and the counter
/// is past its generated ids. Resolving leaves numbers, or keeps the error.
pub(crate) fn worked_resolving()
    ensures ready { ReadyModules }
    ensures names { KnownNames27 }
    ensures resolved { ResolvedModules }
{}

/// Computes second calls. A second call changes no field and no counter, and returns the same
/// bytes. For example, row 27 after a first call has numbers for indices. A second call with
/// another counter leaves these, and returns the bytes of the first.
pub(crate) fn worked_again()
    ensures resolved { again.ResolvedAgain }
    ensures encoded { again.EncodedAgain }
    ensures row9 { again.Row9 }
    ensures row48 { again.Row48 }
{}

/// Computes a renaming by a finite map, which maps a generated name to a source name. For example,
/// the function of `(module (func (export "a")))` gets a generated id. A map of one entry maps it
/// to `$f`, and only the name section of the bytes changes.
pub(crate) fn worked_finite_names()
    ensures { GeneratedIsWritten }
{}
