//! The AST of a WebAssembly module in the text format, and the checks and visitors that read it.
//!
//! Build a module with these types and a [`TreeBuilder`], or parse one with `wat_text`. Then
//! `wast_core` resolves and encodes it. The types have the names of those in the crate `wast`.
//!
//! # Example
//!
//! The fields of `(module (type $reader (func (param i32 i32) (result i32))) ..)`:
//!
//!     let (mut make, mut fields) = (TreeBuilder::new(alloc), Seq::new(alloc));
//!     let ty = make.function_type(&[(None, None, I32); 2], &[I32]);
//!     let ty = Type::new(at(11), id("reader", 16), TypeDef::func(alloc, ty));
//!     make.push_field(&mut fields, ModuleField::Ty(ty));
//!
//! Before resolving, check the fields:
//!
//!     assert!(rt; wast_tree::well_formed(fields.as_slice()));
//!     assert!(rt; wast_tree::gensym_bound(fields.as_slice()) == 0);
//!
//! # Modules
//!
//! This crate re-exports four others. They are separate, because the checker proves a whole crate
//! again after a change:
//!
//! - `wast_base`: ids, indices, errors, the id counter, names of instructions, lists and boxes.
//! - `wast_tree_nodes`: the AST types, their constructors, and calls that move and drop parts.
//! - `wast_tree_build`: `TreeBuilder`.
//! - `wast_tree_visit`: `well_formed`, `uncovered`, `gensym_bound`, and visitors.
//!
//! # Memory
//!
//! A call allocates only if its comment, or that of its type, has `# Memory`, or if it can fail
//! with E12 or `AllocError`.
#![tactic(auto)]

pub use wast_base::{
    AnyOp, ArrayOp, BareOp, Boxed, Error, ExternOp, F32Op, F32x4Op, F64Op, F64x2Op, Fault, Form,
    Gensym, I8x16Op, I16x8Op, I31Op, I32Op, I32x4Op, I64Op, I64x2Op, Id, Index, IntoIter, LaneOp,
    MemLaneOp, MemOp, NameAnnotation, Plain, RefOp, Seq, Space, Span, V128Op, line_and_column,
};

mod examples;

pub use wast_tree_build::BlockKind;
pub use wast_tree_build::TreeBuilder;
pub use wast_tree_nodes::AbstractHeapType;
pub use wast_tree_nodes::ArrayCopy;
pub use wast_tree_nodes::ArrayFill;
pub use wast_tree_nodes::ArrayInit;
pub use wast_tree_nodes::ArrayNewData;
pub use wast_tree_nodes::ArrayNewElem;
pub use wast_tree_nodes::ArrayNewFixed;
pub use wast_tree_nodes::ArrayType;
pub use wast_tree_nodes::BlockType;
pub use wast_tree_nodes::BrOnCast;
pub use wast_tree_nodes::BrOnCastDescEq;
pub use wast_tree_nodes::BrOnCastDescEqFail;
pub use wast_tree_nodes::BrOnCastFail;
pub use wast_tree_nodes::BrTableIndices;
pub use wast_tree_nodes::BranchHint;
pub use wast_tree_nodes::CallIndirect;
pub use wast_tree_nodes::ContBind;
pub use wast_tree_nodes::ContType;
pub use wast_tree_nodes::Custom;
pub use wast_tree_nodes::CustomPlace;
pub use wast_tree_nodes::CustomPlaceAnchor;
pub use wast_tree_nodes::Data;
pub use wast_tree_nodes::DataKind;
pub use wast_tree_nodes::DataVal;
pub use wast_tree_nodes::Dylink0;
pub use wast_tree_nodes::Dylink0Subsection;
pub use wast_tree_nodes::Elem;
pub use wast_tree_nodes::ElemKind;
pub use wast_tree_nodes::ElemPayload;
pub use wast_tree_nodes::Export;
pub use wast_tree_nodes::ExportKind;
pub use wast_tree_nodes::Expression;
pub use wast_tree_nodes::F32;
pub use wast_tree_nodes::F64;
pub use wast_tree_nodes::Func;
pub use wast_tree_nodes::FuncKind;
pub use wast_tree_nodes::FunctionType;
pub use wast_tree_nodes::Global;
pub use wast_tree_nodes::GlobalKind;
pub use wast_tree_nodes::GlobalType;
pub use wast_tree_nodes::Handle;
pub use wast_tree_nodes::HeapType;
pub use wast_tree_nodes::I8x16Shuffle;
pub use wast_tree_nodes::ImportItems;
pub use wast_tree_nodes::Imports;
pub use wast_tree_nodes::InlineExport;
pub use wast_tree_nodes::InlineImport;
pub use wast_tree_nodes::InnerTypeKind;
pub use wast_tree_nodes::Instruction;
pub use wast_tree_nodes::ItemKind;
pub use wast_tree_nodes::ItemSig;
pub use wast_tree_nodes::LaneArg;
pub use wast_tree_nodes::Limits;
pub use wast_tree_nodes::LoadOrStoreLane;
pub use wast_tree_nodes::Local;
pub use wast_tree_nodes::MemArg;
pub use wast_tree_nodes::MemArgOrdering;
pub use wast_tree_nodes::MemArgTarget;
pub use wast_tree_nodes::Memory;
pub use wast_tree_nodes::MemoryArg;
pub use wast_tree_nodes::MemoryCopy;
pub use wast_tree_nodes::MemoryInit;
pub use wast_tree_nodes::MemoryKind;
pub use wast_tree_nodes::MemoryType;
pub use wast_tree_nodes::ModuleField;
pub use wast_tree_nodes::Ordered;
pub use wast_tree_nodes::Ordering;
pub use wast_tree_nodes::Producers;
pub use wast_tree_nodes::RawCustomSection;
pub use wast_tree_nodes::Rec;
pub use wast_tree_nodes::RefCast;
pub use wast_tree_nodes::RefCastDescEq;
pub use wast_tree_nodes::RefTest;
pub use wast_tree_nodes::RefType;
pub use wast_tree_nodes::Resume;
pub use wast_tree_nodes::ResumeTable;
pub use wast_tree_nodes::ResumeThrow;
pub use wast_tree_nodes::ResumeThrowRef;
pub use wast_tree_nodes::SelectTypes;
pub use wast_tree_nodes::StorageType;
pub use wast_tree_nodes::StructAccess;
pub use wast_tree_nodes::StructField;
pub use wast_tree_nodes::StructType;
pub use wast_tree_nodes::Switch;
pub use wast_tree_nodes::Table;
pub use wast_tree_nodes::TableArg;
pub use wast_tree_nodes::TableCopy;
pub use wast_tree_nodes::TableInit;
pub use wast_tree_nodes::TableKind;
pub use wast_tree_nodes::TableType;
pub use wast_tree_nodes::Tag;
pub use wast_tree_nodes::TagKind;
pub use wast_tree_nodes::TagType;
pub use wast_tree_nodes::TryTable;
pub use wast_tree_nodes::TryTableCatch;
pub use wast_tree_nodes::TryTableCatchKind;
pub use wast_tree_nodes::Type;
pub use wast_tree_nodes::TypeDef;
pub use wast_tree_nodes::TypeUse;
pub use wast_tree_nodes::V128Const;
pub use wast_tree_nodes::ValType;
pub use wast_tree_nodes::discard_data;
pub use wast_tree_nodes::discard_elem_payload;
pub use wast_tree_nodes::discard_exports;
pub use wast_tree_nodes::discard_expression;
pub use wast_tree_nodes::discard_field;
pub use wast_tree_nodes::discard_fields;
pub use wast_tree_nodes::discard_func;
pub use wast_tree_nodes::discard_func_kind;
pub use wast_tree_nodes::discard_function_type;
pub use wast_tree_nodes::discard_instruction;
pub use wast_tree_nodes::discard_item_kind;
pub use wast_tree_nodes::discard_said_inline;
pub use wast_tree_nodes::discard_tag_type;
pub use wast_tree_nodes::discard_type;
pub use wast_tree_nodes::discard_type_use;
pub use wast_tree_nodes::fields_with_capacity;
pub use wast_tree_nodes::is_written_out;
pub use wast_tree_nodes::push_field;
pub use wast_tree_nodes::take_field;
pub use wast_tree_visit::IllFormed;
pub use wast_tree_visit::ItemVisitor;
pub use wast_tree_visit::Uncovered;
pub use wast_tree_visit::Visitor;
pub use wast_tree_visit::first_ill_formed;
pub use wast_tree_visit::first_uncovered;
pub use wast_tree_visit::gensym_bound;
pub use wast_tree_visit::ill_formed;
pub use wast_tree_visit::uncovered;
pub use wast_tree_visit::visit_fields;
pub use wast_tree_visit::visit_items;
pub use wast_tree_visit::well_formed;
