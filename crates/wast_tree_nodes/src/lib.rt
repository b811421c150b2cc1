//! The AST types of a WebAssembly module in the text format, with constructors and functions that
//! read, move and drop parts of it.
//!
//! A parser, or a caller by hand, builds these types; `wast_resolve` and `wast_core` resolve and
//! encode them. Callers import them from `wast_tree`. Names follow the `ast` of the crate `wast`.
//!
//! The tag `(tag $stop)`, at offset 225:
//!
//!     let stop = Tag::new(alloc, at(225), id("stop", 229), TypeUse::none());
//!
//! # Modules
//!
//! - `fields`: the fields of a module. `imports`, `segments`, `customs`: their parts.
//! - `types`, `ref_types`, `entities`: types, and the types of tables, memories, globals and tags.
//! - `instrs`: instructions and expressions.
//! - `immediates`, `vectors`, `references`, `continuations`: the immediates of instructions.
//! - `profiles`, `kinds`: the kind, position and items of a field.
//! - `written_out`: whether fields are desugared.
//! - `moves`: functions that append, take out and drop parts of the AST.
//!
//! # Constructors
//!
//! A constructor leaves out what it has no argument for: name annotations, inline exports, branch
//! hints, orderings, and modifiers such as `shared`.
//!
//! # Errors
//!
//! Only calls that return a `Result` allocate. Their only error is E12: allocation failed. A list
//! to append to is then unchanged, and a value that the call took is dropped.
#![tactic(auto)]

mod continuations;
mod customs;
mod entities;
mod fields;
mod immediates;
mod imports;
mod instrs;
mod kinds;
mod moves;
mod profiles;
mod ref_types;
mod references;
mod segments;
mod types;
mod vectors;
mod written_out;

pub use continuations::ContBind;
pub use continuations::Handle;
pub use continuations::Resume;
pub use continuations::ResumeTable;
pub use continuations::ResumeThrow;
pub use continuations::ResumeThrowRef;
pub use continuations::Switch;
pub use customs::Custom;
pub use customs::CustomPlace;
pub use customs::CustomPlaceAnchor;
pub use customs::Dylink0;
pub use customs::Dylink0Subsection;
pub use customs::Producers;
pub use customs::RawCustomSection;
pub use entities::GlobalType;
pub use entities::Limits;
pub use entities::MemoryType;
pub use entities::TableType;
pub use entities::TagType;
pub use fields::Export;
pub use fields::ExportKind;
pub use fields::Func;
pub use fields::FuncKind;
pub use fields::Global;
pub use fields::GlobalKind;
pub use fields::InlineExport;
pub use fields::InlineImport;
pub use fields::Local;
pub use fields::Memory;
pub use fields::MemoryKind;
pub use fields::ModuleField;
pub use fields::Table;
pub use fields::TableKind;
pub use fields::Tag;
pub use fields::TagKind;
pub use immediates::BlockType;
pub use immediates::BrTableIndices;
pub use immediates::CallIndirect;
pub use immediates::F32;
pub use immediates::F64;
pub use immediates::MemArg;
pub use immediates::MemArgOrdering;
pub use immediates::MemArgTarget;
pub use immediates::MemoryArg;
pub use immediates::MemoryCopy;
pub use immediates::MemoryInit;
pub use immediates::Ordered;
pub use immediates::Ordering;
pub use immediates::SelectTypes;
pub use immediates::TableArg;
pub use immediates::TableCopy;
pub use immediates::TableInit;
pub use immediates::TryTable;
pub use immediates::TryTableCatch;
pub use immediates::TryTableCatchKind;
pub use imports::ImportItems;
pub use imports::Imports;
pub use imports::ItemKind;
pub use imports::ItemSig;
pub use instrs::BranchHint;
pub use instrs::Expression;
pub use instrs::Instruction;
pub use kinds::FieldKind;
pub use moves::boxed_block;
pub use moves::discard_data;
pub use moves::discard_elem_payload;
pub use moves::discard_exports;
pub use moves::discard_expression;
pub use moves::discard_field;
pub use moves::discard_fields;
pub use moves::discard_func;
pub use moves::discard_func_kind;
pub use moves::discard_function_type;
pub use moves::discard_instruction;
pub use moves::discard_item_kind;
pub use moves::discard_said_inline;
pub use moves::discard_tag_type;
pub use moves::discard_type;
pub use moves::discard_type_use;
pub use moves::fields_with_capacity;
pub use moves::push_data;
pub use moves::push_expression;
pub use moves::push_field;
pub use moves::push_instruction;
pub use moves::push_subsection;
pub use moves::push_type;
pub use moves::take_field;
pub use profiles::FieldItems;
pub use profiles::FieldProfile;
pub use profiles::LoneItem;
pub use profiles::profile_of;
pub use references::ArrayCopy;
pub use references::ArrayFill;
pub use references::ArrayInit;
pub use references::ArrayNewData;
pub use references::ArrayNewElem;
pub use references::ArrayNewFixed;
pub use references::BrOnCast;
pub use references::BrOnCastDescEq;
pub use references::BrOnCastDescEqFail;
pub use references::BrOnCastFail;
pub use references::RefCast;
pub use references::RefCastDescEq;
pub use references::RefTest;
pub use references::StructAccess;
pub use segments::Data;
pub use segments::DataKind;
pub use segments::DataVal;
pub use segments::Elem;
pub use segments::ElemKind;
pub use segments::ElemPayload;
pub use types::AbstractHeapType;
pub use types::ArrayType;
pub use types::ContType;
pub use types::FunctionType;
pub use types::HeapType;
pub use types::InnerTypeKind;
pub use types::Rec;
pub use types::RefType;
pub use types::StorageType;
pub use types::StructField;
pub use types::StructType;
pub use types::Type;
pub use types::TypeDef;
pub use types::TypeUse;
pub use types::ValType;
pub use vectors::I8x16Shuffle;
pub use vectors::LaneArg;
pub use vectors::LoadOrStoreLane;
pub use vectors::V128Const;
pub use written_out::is_written_out;
