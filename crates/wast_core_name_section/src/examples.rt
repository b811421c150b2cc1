//! Example modules whose name sections the prover computes.

ghost use Rattle.wast_core_name_section.specs.WorkedNames.{Row34, Row35, InlineParameter, SecondOfGroup, NoFunctionType, GeneratedField, NamedGlobal, ImportedFunction, EachSpace, ImportedParameter, TagParameter, NamedLabels, GroupedImport, SharedSignature};

/// Computes the name sections of example modules. Each clause is a module and its bytes:
///
/// - `row34`, `row35`: a struct field has a name in the subsection of fields. A local is numbered
///   after the parameters of the function type.
/// - `inline`: with an inline type, its parameters have names. `nothing`: without a function type,
///   no local has a name.
/// - `group`: members of a recursion group have indices of their own.
/// - `generated`: a generated id is not a name.
/// - `global`, `imported`, `spaces`: items of each index space have names, and so have imports.
/// - `import_parameter`, `tag_parameter`: an imported function has names of parameters. An imported
///   tag is counted, but has none.
/// - `labels`: each instruction that opens a block is counted, with or without a label.
/// - `grouped_import`, `shared_signature`: each item of an import is counted, and has the names of
///   its signature, even if several items share one.
pub(crate) fn worked_names()
    ensures row34 { Row34 }
    ensures row35 { Row35 }
    ensures inline { InlineParameter }
    ensures group { SecondOfGroup }
    ensures nothing { NoFunctionType }
    ensures generated { GeneratedField }
    ensures global { NamedGlobal }
    ensures imported { ImportedFunction }
    ensures spaces { EachSpace }
    ensures import_parameter { ImportedParameter }
    ensures tag_parameter { TagParameter }
    ensures labels { NamedLabels }
    ensures grouped_import { GroupedImport }
    ensures shared_signature { SharedSignature }
{}
