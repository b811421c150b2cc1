//! Why a function body is not valid, as messages of `--check` say it.
//!
//! They begin with the words of the reference interpreter, where it has some.

use std::fmt;
use wast_valid_machine::{Cause, Heap, RefTy, Ty};

/// Prints a heap type as in the text format. For example, `func`, and `3` for a defined type.
#[derive(Clone, Copy)]
struct ShownHeap(Heap);

impl fmt::Display for ShownHeap {
    fn fmt<W: fmt::Write>(&self, f: &mut fmt::Formatter<W>) -> fmt::Result {
        match self.0 {
            Heap::Any => f.write_str("any"),
            Heap::Eqs => f.write_str("eq"),
            Heap::I31 => f.write_str("i31"),
            Heap::Structs => f.write_str("struct"),
            Heap::Arrays => f.write_str("array"),
            Heap::NoAny => f.write_str("none"),
            Heap::Funcs => f.write_str("func"),
            Heap::NoFunc => f.write_str("nofunc"),
            Heap::Externs => f.write_str("extern"),
            Heap::NoExtern => f.write_str("noextern"),
            Heap::Exns => f.write_str("exn"),
            Heap::NoExn => f.write_str("noexn"),
            Heap::Bottom => f.write_str("bot"),
            Heap::Defined(index) => write!(f, "{index}"),
        }
    }
}

/// Returns the short form of a nullable reference type (text format: reference types). It is empty
/// if there is none.
fn short_form(heap: Heap) -> &'static str {
    match heap {
        Heap::Any => "anyref",
        Heap::Eqs => "eqref",
        Heap::I31 => "i31ref",
        Heap::Structs => "structref",
        Heap::Arrays => "arrayref",
        Heap::NoAny => "nullref",
        Heap::Funcs => "funcref",
        Heap::NoFunc => "nullfuncref",
        Heap::Externs => "externref",
        Heap::NoExtern => "nullexternref",
        Heap::Exns => "exnref",
        Heap::NoExn => "nullexnref",
        Heap::Bottom | Heap::Defined(_) => "",
    }
}

/// Prints a reference type as in the text format. For example, `funcref`, `(ref null 3)` and `(ref func)`.
#[derive(Clone, Copy)]
struct ShownRef(RefTy);

impl fmt::Display for ShownRef {
    fn fmt<W: fmt::Write>(&self, f: &mut fmt::Formatter<W>) -> fmt::Result {
        let RefTy { nullable, heap } = self.0;
        let (short, shown) = (short_form(heap), ShownHeap(heap));
        if !nullable {
            return write!(f, "(ref {shown})");
        }
        if short.is_empty() {
            return write!(f, "(ref null {shown})");
        }
        f.write_str(short)
    }
}

/// Prints a value type as in the text format. In unreachable code an operand can have any type.
#[derive(Clone, Copy)]
struct Shown(Ty);

impl fmt::Display for Shown {
    fn fmt<W: fmt::Write>(&self, f: &mut fmt::Formatter<W>) -> fmt::Result {
        match self.0 {
            Ty::I32 => f.write_str("i32"),
            Ty::I64 => f.write_str("i64"),
            Ty::F32 => f.write_str("f32"),
            Ty::F64 => f.write_str("f64"),
            Ty::V128 => f.write_str("v128"),
            Ty::Ref(reference) => {
                let shown = ShownRef(reference);
                write!(f, "{shown}")
            }
            Ty::Unknown => f.write_str("any type"),
        }
    }
}

/// Returns the words for an index that is out of bounds, and the index.
fn unknown_in(cause: Cause) -> Option<(&'static str, u32)> {
    match cause {
        Cause::Local(index) => Some(("unknown local", index)),
        Cause::Global(index) => Some(("unknown global", index)),
        Cause::Function(index) => Some(("unknown function", index)),
        Cause::Table(index) => Some(("unknown table", index)),
        Cause::Memory(index) => Some(("unknown memory", index)),
        Cause::Elem(index) => Some(("unknown elem segment", index)),
        Cause::Data(index) => Some(("unknown data segment", index)),
        Cause::Type(index) => Some(("unknown type", index)),
        Cause::Field(index) => Some(("unknown field", index)),
        Cause::NotFunc(index) => Some(("non-function type", index)),
        Cause::NotStruct(index) => Some(("non-structure type", index)),
        Cause::Unset(index) => Some(("uninitialized local", index)),
        Cause::Immutable(index) => Some(("immutable global", index)),
        Cause::Undeclared(index) => Some(("undeclared function reference", index)),
        Cause::Packed(index) => Some(("field is packed", index)),
        _ => None,
    }
}

/// Prints a type mismatch. It prints nothing for another cause.
#[derive(Clone, Copy)]
struct Mismatch(Cause);

impl fmt::Display for Mismatch {
    fn fmt<W: fmt::Write>(&self, f: &mut fmt::Formatter<W>) -> fmt::Result {
        match self.0 {
            Cause::Mismatch { expected, found } => {
                let (expected, found) = (Shown(expected), Shown(found));
                write!(f, "expected {expected}, found {found}")
            }
            Cause::Missing(expected) => {
                let expected = Shown(expected);
                write!(f, "expected {expected}, found nothing")
            }
            Cause::MissingAny => f.write_str("expected an operand, found nothing"),
            Cause::Surplus(count) => write!(f, "expected nothing, found {count} more at the end"),
            Cause::NotNumeric(found) => {
                let found = Shown(found);
                write!(f, "expected a number or vector, found {found}")
            }
            Cause::Different { first, second } => {
                let (first, second) = (Shown(first), Shown(second));
                write!(
                    f,
                    "expected operands of one type, found {first} and {second}"
                )
            }
            Cause::NotReference(found) => {
                let found = Shown(found);
                write!(f, "expected a reference, found {found}")
            }
            Cause::Arity { expected, found } => {
                write!(f, "expected label arity {expected}, found {found}")
            }
            Cause::NotFuncs(table) => write!(f, "expected functions in table {table}"),
            Cause::Elements { expected, found } => {
                let (expected, found) = (ShownRef(expected), ShownRef(found));
                write!(f, "expected elements {expected}, found {found}")
            }
            Cause::Results(ty) => write!(
                f,
                "expected the results of the caller, found those of type {ty}"
            ),
            Cause::NoReference(label) => write!(
                f,
                "expected a reference as last type of label {label}"
            ),
            _ => Ok(()),
        }
    }
}

/// Prints why a function body is not valid. For example, `type mismatch: expected i32, found i64`.
#[derive(Clone, Copy)]
pub(crate) struct Told(pub Cause);

impl fmt::Display for Told {
    fn fmt<W: fmt::Write>(&self, f: &mut fmt::Formatter<W>) -> fmt::Result {
        let cause = self.0;
        if let Some((words, index)) = unknown_in(cause) {
            return write!(f, "{words} {index}");
        }
        match cause {
            Cause::Unsupported => f.write_str("not checked"),
            Cause::SelectTypes(count) => write!(f, "invalid result arity: {count}"),
            Cause::NoBlock => f.write_str("`else` or `end` without an open block"),
            Cause::NoIf => f.write_str("`else` in a block other than `if`"),
            Cause::Label(label) => write!(f, "unknown label {label}"),
            Cause::Align { natural, found } => {
                write!(
                    f,
                    "alignment must not be larger than natural: {found} for {natural} bytes"
                )
            }
            Cause::Offset(offset) => write!(f, "offset out of range: {offset}"),
            Cause::Lane(lane) => write!(f, "invalid lane index: {lane}"),
            _ => {
                let mismatch = Mismatch(cause);
                write!(f, "type mismatch: {mismatch}")
            }
        }
    }
}
