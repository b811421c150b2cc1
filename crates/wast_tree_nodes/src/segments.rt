//! Element segments and data segments.

ghost use Rattle.std.specs.Prelude.{◌≡◌, ◌++◌, None, length, OnOk, OnErr, IfErr};
ghost use Rattle.wast_tree_nodes.specs.Tree.data_kind;
ghost use Rattle.wast_tree_nodes.specs.DataBytes.{data_bytes};
ghost use Rattle.wast_base.specs.Faults.{out_of_memory};

use crate::instrs::Expression;
use crate::types::RefType;
use wast_base::{Error, Id, Index, NameAnnotation, Seq, Span};

/// An element segment, such as `(elem $e (table $t) (offset ..) func $f)`.
///
///     let elem = Elem::new(at(9), None, kind, ElemPayload::Exprs { ty, exprs });
///     one(alloc, maker, ModuleField::Elem(elem))
#[derive(Debug, Drop)]
pub struct Elem<'a> {
    /// The position of its keyword.
    pub span: Span,
    /// Its id, if it has one.
    pub id: Option<Id<'a>>,
    /// Its name annotation, if it has one.
    pub name: Option<NameAnnotation<'a>>,
    /// Whether it is passive, declarative or active.
    pub kind: ElemKind<'a>,
    /// Its elements.
    pub payload: ElemPayload<'a>,
}

impl<'a> Elem<'a> {
    /// Makes `(elem $e ..)`.
    pub fn new(
        span: Span,
        id: Option<Id<'a>>,
        kind: ElemKind<'a>,
        payload: ElemPayload<'a>,
    ) -> Elem<'a>
        ensures { result ≡ record { span = span; id = id.entry; name = None; kind = kind.entry; payload = payload.entry } }
    {
        Elem {
            span,
            id,
            name: None,
            kind,
            payload,
        }
    }
}

/// Whether an element segment is passive, declarative or active (text format: element segments).
#[derive(Debug, Drop)]
pub enum ElemKind<'a> {
    /// Instructions such as `table.init` copy it.
    Passive,
    /// It only declares functions for `ref.func`.
    Declared,
    /// It is copied to a table when the module is instantiated.
    Active {
        /// The table, or `None` for table 0.
        table: Option<Index<'a>>,
        /// The first index of the table that is written.
        offset: Expression<'a>,
    },
}

/// The elements of a segment (text format: element segments).
#[derive(Debug, Drop)]
pub enum ElemPayload<'a> {
    /// Indices of functions.
    Indices(Seq<Index<'a>>),
    /// Constant expressions.
    Exprs {
        /// The type of the elements.
        ty: RefType<'a>,
        /// The expressions, in source order.
        exprs: Seq<Expression<'a>>,
    },
}

/// A data segment, such as `(data $d (memory $m) (offset ..) "x")` (text format: data segments).
#[derive(Debug, Drop)]
pub struct Data<'a> {
    /// The position of its keyword.
    pub span: Span,
    /// Its id, if it has one.
    pub id: Option<Id<'a>>,
    /// Its name annotation, if it has one.
    pub name: Option<NameAnnotation<'a>>,
    /// Whether it is passive or active.
    pub kind: DataKind<'a>,
    /// Its bytes, in pieces that follow one another.
    pub bytes: Seq<DataVal<'a>>,
}

impl<'a> Data<'a> {
    /// Makes `(data $d ..)`.
    pub fn new(
        span: Span,
        id: Option<Id<'a>>,
        kind: DataKind<'a>,
        bytes: Seq<DataVal<'a>>,
    ) -> Data<'a>
        ensures { result ≡ record { span = span; id = id.entry; name = None; kind = kind.entry; bytes = bytes.entry } }
    {
        Data {
            span,
            id,
            name: None,
            kind,
            bytes,
        }
    }
}

/// Whether a data segment is passive or active (text format: data segments).
#[derive(Debug, Drop)]
pub enum DataKind<'a> {
    /// Instructions such as `memory.init` copy it.
    Passive,
    /// It is copied to a memory when the module is instantiated.
    Active {
        /// The memory.
        memory: Index<'a>,
        /// The first address that is written.
        offset: Expression<'a>,
    },
}

impl<'a> DataKind<'a> {
    /// Makes the kind of an active segment, from the memory and the first address.
    pub fn active(memory: Index<'a>, offset: Expression<'a>) -> DataKind<'a>
        ensures { result ≡ data_kind.Active memory.entry offset.entry }
    {
        DataKind::Active { memory, offset }
    }
}

/// A piece of the bytes of a data segment (text format: data segments).
#[derive(Debug, Drop)]
pub enum DataVal<'a> {
    /// A string: `"x"`
    String(&'a [u8]),
    /// The bytes of numbers, as of `(i16 1 2)`
    Integral(Seq<u8>),
}

impl DataVal<'_> {
    /// Borrows the bytes.
    fn as_slice(&self) -> &[u8]
        ensures { result.now ≡ data_bytes self.now }
    {
        match self {
            DataVal::String(bytes) => bytes,
            DataVal::Integral(bytes) => bytes.as_slice(),
        }
    }

    /// Returns the number of bytes.
    pub fn len(&self) -> usize
        ensures { result ≡ length (data_bytes self.now) }
    {
        self.as_slice().len()
    }

    /// Appends the bytes to `out`.
    ///
    ///     piece.push_onto(&mut bytes).expect(&rt, "memory");
    pub fn push_onto<'e>(&self, out: &mut Vec<u8>) -> Result<(), Error<'e>>
        ensures appended { OnOk result (out.new.items ≡ out.old.items ++ data_bytes self.now) }
        ensures refusal { IfErr result (λ e. e ≡ out_of_memory) }
        ensures unchanged { OnErr result (out.new.items ≡ out.old.items) }
    {
        out.extend_from_slice(self.as_slice())?;
        Ok(())
    }
}
