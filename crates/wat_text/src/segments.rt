//! Reads element segments and data segments (text format: element segments, data segments).

ghost use Rattle.std.specs.Prelude.{◌≡◌, ◌≢◌, ◌++◌, None, map, OnOk};
ghost use Rattle.wat_syntax.specs.Types.{reftype};
ghost use Rattle.wat_syntax.specs.Segments.{expression_in, elemexprs, funcindices, funcref_of, funcrefs, exprs_payload, funcrefs_payload};
ghost use Rattle.wat_syntax.specs.Segments.{elemlist, short_elemlist, tableuse, optional_number_index, table_or_first, active_elems};
ghost use Rattle.wat_syntax.specs.Segments.{is_active, elem_of, elemfield, data_number, numtype, numtype_keyword, data_numbers, numlist};
ghost use Rattle.wat_syntax.specs.Segments.{datavalue, datastring, is_numlist, memuse, is_data, data_kind_of, datafield};
ghost use Rattle.wat_text.specs.Readers.{left, IsRefused, Reads, Decides, ReadsOnto, Builds};
ghost use Rattle.wat_syntax.specs.Bare.{bare_index, bare_index_option, bare_indices, bare_ref};
ghost use Rattle.wat_syntax.specs.BareFields.{bare_data, bare_data_kind, bare_data_val, bare_elem, bare_elem_of, bare_payload};
ghost use Rattle.wat_syntax.specs.BareInstructions.{bare_expression};

use crate::fields::is_funcref;
use crate::operators::with_index;
use crate::reader::Reader;
use std::alloc::AllocError;
use wast_base::IndexOp;
use wast_tree::{
    Data, DataKind, DataVal, Elem, ElemKind, ElemPayload, Expression, Index, RefType, Seq, Span,
};
use wat_tokens::Key;

/// Appends bytes in little-endian order.
fn put<const N: usize>(out: &mut Vec<u8>, bytes: [u8; N]) -> Result<(), AllocError>
    ensures { OnOk result (out.new.items ≡ out.old.items ++ bytes.entry) }
{
    out.extend_from_slice(&bytes)
}

/// Returns the type of the numbers of a data segment that a keyword is, if it is one. For example,
/// `i16`.
fn number_type(key: Option<Key>) -> Option<Key>
    ensures { result ≡ numtype key }
{
    match key {
        Some(key @ (Key::I8 | Key::I16 | Key::I32 | Key::I64 | Key::F32 | Key::F64)) => Some(key),
        _ => None,
    }
}

/// Returns the table of an active element segment, if one is written. If none is, and the elements
/// are not of type `funcref`, it is table 0, at the position `place`. A segment without a table has
/// no bytes for another type.
fn number_or_first<'a>(
    number: Option<Index<'a>>,
    payload: &ElemPayload<'a>,
    place: Span,
) -> Option<Index<'a>>
    ensures { bare_index_option result ≡ table_or_first (bare_index_option number.entry) (bare_payload payload.now) place }
{
    match (number, payload) {
        (None, ElemPayload::Exprs { ty, .. }) if !is_funcref(*ty) => Some(Index::Num(0, place)),
        (number, _) => number,
    }
}

impl<'a> Reader<'a> {
    /// Reads an expression in `(`, this keyword and `)`, or else one folded instruction. It is an
    /// offset or an element, as in `(offset i32.const 0)` or `(i32.const 0)`.
    fn expression_in(&mut self, key: Key) -> Expression<'a>
        ensures { Reads (expression_in key) self.old self.new (bare_expression result) }
    {
        if self.accept_form(key) {
            let expression = self.expression();
            self.close();
            return expression;
        }
        self.folded()
    }

    /// Appends the function indices up to the closing `)`.
    #[tactic(auto, using(crate::proofs::Steps::one_bare, crate::proofs::Loops::part_end, crate::proofs::Loops::part_last, crate::proofs::Loops::none_after))]
    fn all_functions(&mut self, indices: &mut Seq<Index<'a>>)
        ensures { ReadsOnto funcindices self.old self.new (bare_indices indices.old) (bare_indices indices.new) }
    {
        for _ in 0..self.left() {
            if self.is_end() {
                break;
            }
            let index = self.index();
            self.push_index(indices, index);
        }
    }

    /// Reads function indices up to the closing `)` (text format: element segments).
    #[tactic(auto, using(crate::proofs::Loops::from_nothing))]
    pub(crate) fn functions(&mut self) -> Seq<Index<'a>>
        ensures { Reads funcindices self.old self.new (bare_indices result) }
    {
        let mut indices = Seq::new(self.alloc);
        self.all_functions(&mut indices);
        indices
    }

    /// Appends an expression to a list.
    #[tactic(auto, using(crate::proofs::Makes::none_failed), unfolding(crate::specs::Readers::left))]
    fn push_expression(&mut self, exprs: &mut Seq<Expression<'a>>, expression: Expression<'a>)
        ensures { Builds self.old self.new expression.entry exprs.old exprs.new }
    {
        self.make.push_expression(exprs, expression);
    }

    /// Appends the elements up to the closing `)`.
    #[tactic(auto, using(crate::proofs::Steps::one_built, crate::proofs::Loops::part_end, crate::proofs::Loops::part_last, crate::proofs::Loops::none_after))]
    fn all_expressions(&mut self, exprs: &mut Seq<Expression<'a>>)
        ensures { ReadsOnto elemexprs self.old self.new (map bare_expression exprs.old) (map bare_expression exprs.new) }
    {
        for _ in 0..self.left() {
            if self.is_end() {
                break;
            }
            let expression = self.expression_in(Key::Item);
            self.push_expression(exprs, expression);
        }
    }

    /// Reads elements of this type up to the closing `)` (text format: element segments).
    #[tactic(auto, using(crate::proofs::Loops::from_nothing))]
    pub(crate) fn expressions(&mut self, ty: RefType<'a>) -> ElemPayload<'a>
        ensures { Reads (exprs_payload (bare_ref ty.entry)) self.old self.new (bare_payload result) }
    {
        let mut exprs = Seq::new(self.alloc);
        self.all_expressions(&mut exprs);
        ElemPayload::Exprs { ty, exprs }
    }

    /// Reads a function index, as the expression `ref.func $f`.
    #[tactic(auto, using(crate::proofs::Makes::none_failed), unfolding(crate::specs::Readers::left))]
    fn function_expression(&mut self) -> Expression<'a>
        ensures { Reads funcref_of self.old self.new (bare_expression result) }
    {
        let reference = with_index(IndexOp::RefFunc, self.index());
        self.make.one_instruction(reference)
    }

    /// Reads function indices up to the closing `)`, and appends them as expressions.
    #[tactic(auto, using(crate::proofs::Steps::one_built, crate::proofs::Loops::part_end, crate::proofs::Loops::part_last, crate::proofs::Loops::none_after))]
    fn all_function_expressions(&mut self, exprs: &mut Seq<Expression<'a>>)
        ensures { ReadsOnto funcrefs self.old self.new (map bare_expression exprs.old) (map bare_expression exprs.new) }
    {
        for _ in 0..self.left() {
            if self.is_end() {
                break;
            }
            let expression = self.function_expression();
            self.push_expression(exprs, expression);
        }
    }

    /// Reads function indices up to the closing `)`, as expressions of this type: `$f` is
    /// `ref.func $f`.
    #[tactic(auto, using(crate::proofs::Loops::from_nothing))]
    pub(crate) fn function_expressions(&mut self, ty: RefType<'a>) -> ElemPayload<'a>
        ensures { Reads (funcrefs_payload (bare_ref ty.entry)) self.old self.new (bare_payload result) }
    {
        let mut exprs = Seq::new(self.alloc);
        self.all_function_expressions(&mut exprs);
        ElemPayload::Exprs { ty, exprs }
    }

    /// Reads the type of the elements.
    #[tactic(auto, using(crate::proofs::References::no_reftype))]
    fn element_type(&mut self) -> RefType<'a>
        ensures { Decides reftype self.old self.new (bare_ref result) }
    {
        if !self.is_ref_type() {
            self.expected("`func` or a reference type");
        }
        self.ref_type()
    }

    /// Reads a list of elements: `func $f $g`, or a reference type and expressions (text format:
    /// element segments).
    fn element_list(&mut self) -> ElemPayload<'a>
        ensures { Reads elemlist self.old self.new (bare_payload result) }
    {
        if self.accept(Key::Func) {
            return ElemPayload::Indices(self.functions());
        }
        let ty = self.element_type();
        self.expressions(ty)
    }

    /// Reads the list of elements of an active segment without `(table ..)`. It may leave out its
    /// `func` (text format: element segments, abbreviations).
    fn short_element_list(&mut self) -> ElemPayload<'a>
        ensures { Reads short_elemlist self.old self.new (bare_payload result) }
    {
        if self.is_key(0, Key::Func) || self.is_ref_type() {
            return self.element_list();
        }
        ElemPayload::Indices(self.functions())
    }

    /// Reads `(table $t)`, if it is next.
    fn table_use(&mut self) -> Option<Index<'a>>
        ensures { Decides tableuse self.old self.new (bare_index_option result) }
    {
        if !self.accept_form(Key::Table) {
            return None;
        }
        let index = self.index();
        self.close();
        Some(index)
    }

    /// Reads the number of a table, if one is next.
    fn table_number(&mut self) -> Option<Index<'a>>
        ensures { Decides optional_number_index self.old self.new (bare_index_option result) }
    {
        match self.is_number(0) {
            true => Some(self.index()),
            false => None,
        }
    }

    /// Reads an active element segment from its table on (text format: element segments).
    fn active_elements(&mut self) -> (ElemKind<'a>, ElemPayload<'a>)
        ensures { Reads active_elems self.old self.new (bare_elem_of result) }
    {
        let place = self.place_before();
        if let Some(table) = self.table_use() {
            let offset = self.expression_in(Key::Offset);
            let table = Some(table);
            return (ElemKind::Active { table, offset }, self.element_list());
        }
        let number = self.table_number();
        let offset = self.expression_in(Key::Offset);
        let payload = self.short_element_list();
        let table = number_or_first(number, &payload, place);
        (ElemKind::Active { table, offset }, payload)
    }

    /// Returns whether an element segment is active, because a table or an offset is next.
    fn is_active(&self) -> bool
        ensures { result ≡ is_active (left self.now) }
    {
        self.is_number(0) || self.is_open(0) && !self.is_ref_type()
    }

    /// Reads the mode of an element segment, and its elements (text format: element segments).
    fn elem_kind(&mut self) -> (ElemKind<'a>, ElemPayload<'a>)
        ensures { Reads elem_of self.old self.new (bare_elem_of result) }
    {
        if self.accept(Key::Declare) {
            return (ElemKind::Declared, self.element_list());
        }
        match self.is_active() {
            true => self.active_elements(),
            false => (ElemKind::Passive, self.element_list()),
        }
    }

    /// Reads the field `(elem ..)`, without its parentheses (text format: element segments).
    pub(crate) fn elem_field(&mut self) -> Elem<'a>
        ensures { Reads elemfield self.old self.new (bare_elem result) }
    {
        let span = self.place();
        self.skip();
        let (id, name) = (self.id(), self.name());
        let (kind, payload) = self.elem_kind();
        Elem {
            span,
            id,
            name,
            kind,
            payload,
        }
    }

    /// Appends the bytes of a number.
    fn put_number<const N: usize>(&mut self, out: &mut Vec<u8>, bytes: [u8; N])
        ensures make { self.new.make ≡ self.old.make }
        ensures clean { self.new.fault ≡ None → self.old.fault ≡ None }
        ensures pushed { self.new.fault ≡ None → out.new.items ≡ out.old.items ++ bytes.entry }
        ensures left { self.new.fault ≡ None → left self.new ≡ left self.old }
        ensures keeps { self.old.fault ≢ None → self.new.fault ≡ self.old.fault }
        ensures memory { self.old.fault ≡ None → IsRefused self.new.fault → ⊥ }
    {
        let pushed = put(out, bytes);
        self.took(pushed);
    }

    /// Reads one number of a data segment, and appends its bytes.
    fn data_number(&mut self, key: Key, out: &mut Vec<u8>)
        ensures { ReadsOnto (data_number key) self.old self.new out.old.items out.new.items }
    {
        match key {
            Key::I8 => {
                let number = self.integer8();
                self.put_number(out, number.to_le_bytes());
            }
            Key::I16 => {
                let number = self.integer16();
                self.put_number(out, number.to_le_bytes());
            }
            Key::I32 => {
                let number = self.integer32();
                self.put_number(out, number.to_le_bytes());
            }
            Key::I64 => {
                let number = self.integer64();
                self.put_number(out, number.to_le_bytes());
            }
            Key::F32 => {
                let number = self.single();
                self.put_number(out, number.bits.to_le_bytes());
            }
            Key::F64 => {
                let number = self.double();
                self.put_number(out, number.bits.to_le_bytes());
            }
            _ => self.expected("a number type"),
        }
    }

    /// Reads the type of the numbers of a data segment, such as `i16`.
    fn data_number_type(&mut self) -> Key
        ensures { Decides numtype_keyword self.old self.new result }
    {
        match number_type(self.key(0)) {
            Some(key) => {
                self.skip();
                key
            }
            None => {
                self.expected("a string or a number type");
                Key::I8
            }
        }
    }

    /// Reads numbers up to the closing `)`, and appends their bytes.
    #[tactic(auto, using(crate::proofs::Steps::one_list, crate::proofs::Loops::list_end, crate::proofs::Loops::list_last, crate::proofs::Loops::none_after))]
    fn all_numbers(&mut self, key: Key, out: &mut Vec<u8>)
        ensures { ReadsOnto (data_numbers key) self.old self.new out.old.items out.new.items }
    {
        for _ in 0..self.left() {
            if self.is_end() {
                break;
            }
            self.data_number(key, out);
        }
    }

    /// Reads numbers such as `(i16 1 2)`, and returns their bytes.
    #[tactic(auto, using(crate::proofs::Loops::from_nothing))]
    fn data_numbers(&mut self) -> DataVal<'a>
        ensures { Reads numlist self.old self.new (bare_data_val result) }
    {
        self.open();
        let mut out = Vec::new(self.alloc);
        let key = self.data_number_type();
        self.all_numbers(key, &mut out);
        self.close();
        DataVal::Integral(Seq::from_vec(out))
    }

    /// Reads a string or numbers.
    fn data_value(&mut self) -> DataVal<'a>
        ensures { Reads datavalue self.old self.new (bare_data_val result) }
    {
        match self.is_string() {
            true => DataVal::String(self.bytes()),
            false => self.data_numbers(),
        }
    }

    /// Appends a piece to a list.
    #[tactic(auto, using(crate::proofs::Makes::none_failed), unfolding(crate::specs::Readers::left))]
    fn push_data(&mut self, pieces: &mut Seq<DataVal<'a>>, piece: DataVal<'a>)
        ensures { Builds self.old self.new piece.entry pieces.old pieces.new }
    {
        self.make.push_data(pieces, piece);
    }

    /// Appends the strings and numbers up to the closing `)`.
    #[tactic(auto, using(crate::proofs::Steps::one_built, crate::proofs::Loops::part_end, crate::proofs::Loops::part_last, crate::proofs::Loops::none_after))]
    fn all_data(&mut self, pieces: &mut Seq<DataVal<'a>>)
        ensures { ReadsOnto datastring self.old self.new (map bare_data_val pieces.old) (map bare_data_val pieces.new) }
    {
        for _ in 0..self.left() {
            if self.is_end() {
                break;
            }
            let piece = self.data_value();
            self.push_data(pieces, piece);
        }
    }

    /// Reads the bytes of a data segment up to the closing `)` (text format: data segments).
    #[tactic(auto, using(crate::proofs::Loops::from_nothing))]
    pub(crate) fn data_bytes(&mut self) -> Seq<DataVal<'a>>
        ensures { Reads datastring self.old self.new (map bare_data_val result) }
    {
        let mut pieces = Seq::new(self.alloc);
        self.all_data(&mut pieces);
        pieces
    }

    /// Returns whether numbers are next, such as `(i16 1 2)`.
    fn is_numbers(&self) -> bool
        ensures { result ≡ is_numlist (left self.now) }
    {
        let is_type = matches!(
            self.key(1),
            Some(Key::I8 | Key::I16 | Key::I32 | Key::I64 | Key::F32 | Key::F64 | Key::V128)
        );
        self.is_open(0) && is_type
    }

    /// Reads the memory of a data segment: `(memory $m)`, or its number alone. Without one, it is
    /// memory 0.
    fn data_memory(&mut self) -> Index<'a>
        ensures { Decides memuse self.old self.new (bare_index result) }
    {
        let place = self.place_before();
        if self.accept_form(Key::Memory) {
            let index = self.index();
            self.close();
            return index;
        }
        match self.is_number(0) {
            true => self.index(),
            false => Index::Num(0, place),
        }
    }

    /// Returns whether the bytes of a data segment are next, so that the segment is passive.
    fn is_data(&self) -> bool
        ensures { result ≡ is_data (left self.now) }
    {
        self.is_end() || self.is_string() || self.is_numbers()
    }

    /// Reads the mode of a data segment (text format: data segments).
    fn data_kind(&mut self) -> DataKind<'a>
        ensures { Reads data_kind_of self.old self.new (bare_data_kind result) }
    {
        if self.is_data() {
            return DataKind::Passive;
        }
        let memory = self.data_memory();
        let offset = self.expression_in(Key::Offset);
        DataKind::Active { memory, offset }
    }

    /// Reads the field `(data ..)`, without its parentheses (text format: data segments).
    pub(crate) fn data_field(&mut self) -> Data<'a>
        ensures { Reads datafield self.old self.new (bare_data result) }
    {
        let span = self.place();
        self.skip();
        let (id, name) = (self.id(), self.name());
        let kind = self.data_kind();
        let bytes = self.data_bytes();
        Data {
            span,
            id,
            name,
            kind,
            bytes,
        }
    }
}
