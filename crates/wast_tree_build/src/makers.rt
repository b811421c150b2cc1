//! `TreeBuilder`, which builds the lists of an AST.

ghost use Rattle.std.specs.Prelude.{◌≡◌, [], ◌∷◌, ◌++◌, true, false, Some, IfOk, IfErr, IfSome};
ghost use Rattle.wast_base.specs.Faults.{out_of_memory};
ghost use Rattle.wast_tree_build.specs.Makers.{Makes, MayPut, MayMake, opener};
ghost use Rattle.wast_tree_build.specs.Tree.bytes;
ghost use Rattle.wast_tree_build.specs.Tree.instr;

use std::alloc::Global;
use std::marker::Model;
use wast_base::{BareOp, Boxed, Error, Fault, Id, Index, NameAnnotation, Plain, Seq};
use wast_tree_nodes::{
    BlockType, BrOnCast, BrOnCastDescEq, BrOnCastDescEqFail, BrOnCastFail, BranchHint,
    CallIndirect, DataVal, Dylink0Subsection, Expression, FunctionType, InlineExport, Instruction,
    Local, ModuleField, ResumeThrow, StructField, TryTable, TryTableCatch, Type, ValType,
    boxed_block, discard_fields, push_data, push_expression, push_field, push_instruction,
    push_subsection, push_type,
};

/// An instruction that opens a block and has only a block type (text format: control instructions).
///
///     make.push_block(&mut body, BlockKind::If, BlockType::empty());
#[derive(Clone, Copy, Debug, PartialEq, Eq)]
pub enum BlockKind {
    /// `block`
    Block,
    /// `loop`
    Loop,
    /// `if`
    If,
    /// `try` (legacy exceptions)
    Try,
}

impl BlockKind {
    /// Makes the instruction that opens a block of this kind.
    fn opener<'a>(self, block: Boxed<BlockType<'a>>) -> Instruction<'a>
        ensures { result ≡ opener self block.entry }
    {
        match self {
            BlockKind::Block => Instruction::block(block),
            BlockKind::Loop => Instruction::loop_(block),
            BlockKind::If => Instruction::if_(block),
            BlockKind::Try => Instruction::try_(block),
        }
    }
}

/// Builds the lists of an AST, and keeps a failed allocation until [`TreeBuilder::finish`].
///
/// Code that builds a module has no error to pass on and nothing to drop, because only `finish`
/// fails. After a failed allocation, a new list may be empty, an extended list may lack the new
/// element, and an instruction with boxed immediates may be `unreachable`. The model in contracts
/// is whether an allocation failed.
///
/// # Example
///
///     let (mut make, mut fields) = (TreeBuilder::new(alloc), Seq::new(alloc));
///     let ty = make.function_type(&[(None, None, I32); 2], &[I32]);
///     let ty = Type::new(at(11), id("reader", 16), TypeDef::func(alloc, ty));
///     make.push_field(&mut fields, ModuleField::Ty(ty));
///
/// # Memory
///
/// All calls except [`TreeBuilder::new`], [`TreeBuilder::is_refused`] and [`TreeBuilder::finish`]
/// may allocate what they build.
#[derive(Drop)]
pub struct TreeBuilder {
    alloc: Global,
    refused: bool,
}

impl Model for TreeBuilder {
    ghost use Rattle.std.specs.Prelude.{Bool};
    ghost use Rattle.std.specs.Coded.{coded_bool};

    ghost Value = { Bool };

    ghost coded = { coded_bool };

    ghost view = { λ m. m.refused };
}

impl TreeBuilder {
    /// Makes a builder. Other calls allocate from `alloc`.
    pub fn new(alloc: Global) -> TreeBuilder
        ensures { result ≡ false }
    {
        TreeBuilder {
            alloc,
            refused: false,
        }
    }

    /// Returns whether an allocation failed.
    ///
    ///     maker.push_data(&mut pieces, DataVal::String(b"ab"));
    ///     assert!(rt; !maker.is_refused());
    pub fn is_refused(&self) -> bool
        ensures { result ≡ self.now }
    {
        self.refused
    }

    /// Appends a field to a list (text format: modules).
    ///
    ///     make.push_field(&mut fields, ModuleField::Start(index(start, 504)));
    pub fn push_field<'a>(&mut self, fields: &mut Seq<ModuleField<'a>>, field: ModuleField<'a>)
        ensures made { Makes self.old self.new (fields.new ≡ fields.old ++ field.entry ∷ []) }
        ensures empty_on_failure { MayPut self.new fields.old fields.new field.entry }
    {
        if push_field(fields, field).is_err() {
            self.refused = true;
        }
    }

    /// Appends an instruction to a list (text format: expressions).
    ///
    /// # Example
    ///
    ///     make.push_instruction(&mut body, local_get(index("base", 412)));
    ///     make.push_instruction(&mut body, local_get(index("index", 428)));
    ///     make.push_instruction(&mut body, Plain(Bare::I32(I32Op::i32_add)));
    pub fn push_instruction<'a>(
        &mut self,
        instrs: &mut Seq<Instruction<'a>>,
        instruction: Instruction<'a>,
    )
        ensures made { Makes self.old self.new (instrs.new ≡ instrs.old ++ instruction.entry ∷ []) }
        ensures empty_on_failure { MayPut self.new instrs.old instrs.new instruction.entry }
    {
        if push_instruction(instrs, instruction).is_err() {
            self.refused = true;
        }
    }

    /// Moves a value into a new box, or returns `None` if the allocation failed.
    fn boxed<T: Drop>(&mut self, value: T) -> Option<Boxed<T>>
        ensures made { Makes self.old self.new (result ≡ Some value) }
        ensures value { IfSome result (λ b. b ≡ value) }
    {
        match Boxed::new(self.alloc, value) {
            Ok(value) => Some(value),
            Err(_) => {
                self.refused = true;
                None
            }
        }
    }

    /// Makes `call_indirect $t (type $f)`.
    ///
    /// This call and those for `return_call_indirect`, `br_on_cast` and so on box the immediates,
    /// because an [`Instruction`] has a fixed size.
    pub fn call_indirect<'a>(&mut self, arg: CallIndirect<'a>) -> Instruction<'a>
        ensures made { Makes self.old self.new (result ≡ instr.call_indirect arg.entry) }
    {
        match self.boxed(arg) {
            Some(arg) => Instruction::call_indirect(arg),
            None => Instruction::Plain(Plain::Bare(BareOp::unreachable)),
        }
    }

    /// Makes `return_call_indirect $t (type $f)`.
    pub fn return_call_indirect<'a>(&mut self, arg: CallIndirect<'a>) -> Instruction<'a>
        ensures made { Makes self.old self.new (result ≡ instr.return_call_indirect arg.entry) }
    {
        match self.boxed(arg) {
            Some(arg) => Instruction::return_call_indirect(arg),
            None => Instruction::Plain(Plain::Bare(BareOp::unreachable)),
        }
    }

    /// Makes `br_on_cast $l anyref (ref $t)`.
    pub fn br_on_cast<'a>(&mut self, arg: BrOnCast<'a>) -> Instruction<'a>
        ensures made { Makes self.old self.new (result ≡ instr.br_on_cast arg.entry) }
    {
        match self.boxed(arg) {
            Some(arg) => Instruction::br_on_cast(arg),
            None => Instruction::Plain(Plain::Bare(BareOp::unreachable)),
        }
    }

    /// Makes `br_on_cast_fail $l anyref (ref $t)`.
    pub fn br_on_cast_fail<'a>(&mut self, arg: BrOnCastFail<'a>) -> Instruction<'a>
        ensures made { Makes self.old self.new (result ≡ instr.br_on_cast_fail arg.entry) }
    {
        match self.boxed(arg) {
            Some(arg) => Instruction::br_on_cast_fail(arg),
            None => Instruction::Plain(Plain::Bare(BareOp::unreachable)),
        }
    }

    /// Makes `br_on_cast_desc_eq $l anyref (ref $t)`.
    pub fn br_on_cast_desc_eq<'a>(&mut self, arg: BrOnCastDescEq<'a>) -> Instruction<'a>
        ensures made { Makes self.old self.new (result ≡ instr.br_on_cast_desc_eq arg.entry) }
    {
        match self.boxed(arg) {
            Some(arg) => Instruction::br_on_cast_desc_eq(arg),
            None => Instruction::Plain(Plain::Bare(BareOp::unreachable)),
        }
    }

    /// Makes `br_on_cast_desc_eq_fail $l anyref (ref $t)`.
    pub fn br_on_cast_desc_eq_fail<'a>(&mut self, arg: BrOnCastDescEqFail<'a>) -> Instruction<'a>
        ensures made { Makes self.old self.new (result ≡ instr.br_on_cast_desc_eq_fail arg.entry) }
    {
        match self.boxed(arg) {
            Some(arg) => Instruction::br_on_cast_desc_eq_fail(arg),
            None => Instruction::Plain(Plain::Bare(BareOp::unreachable)),
        }
    }

    /// Makes `resume_throw $t $x (on $e $l)`.
    pub fn resume_throw<'a>(&mut self, arg: ResumeThrow<'a>) -> Instruction<'a>
        ensures made { Makes self.old self.new (result ≡ instr.resume_throw arg.entry) }
    {
        match self.boxed(arg) {
            Some(arg) => Instruction::resume_throw(arg),
            None => Instruction::Plain(Plain::Bare(BareOp::unreachable)),
        }
    }

    /// Appends an instruction that opens a block to a list (text format: control instructions).
    ///
    ///     let block = BlockType::new(Some(Id::new(name, at(24))), TypeUse::none());
    ///     maker.push_block(&mut instrs, BlockKind::Block, block);
    pub fn push_block<'a>(
        &mut self,
        instrs: &mut Seq<Instruction<'a>>,
        kind: BlockKind,
        block: BlockType<'a>,
    )
        ensures made { Makes self.old self.new (instrs.new ≡ instrs.old ++ opener kind block.entry ∷ []) }
        ensures empty_on_failure { MayPut self.new instrs.old instrs.new (opener kind block.entry) }
    {
        match boxed_block(self.alloc, block) {
            Ok(block) => self.push_instruction(instrs, kind.opener(block)),
            Err(_) => self.refused = true,
        }
    }

    /// Appends `try_table` to a list (text format: control instructions).
    ///
    /// # Example
    ///
    ///     let catches = maker.catches(&[clause]);
    ///     let mut instrs = Seq::new(alloc);
    ///     maker.push_try_table(&mut instrs, labelled(24), catches);
    pub fn push_try_table<'a>(
        &mut self,
        instrs: &mut Seq<Instruction<'a>>,
        block: BlockType<'a>,
        catches: Seq<TryTableCatch<'a>>,
    )
        ensures made { Makes self.old self.new (instrs.new ≡ instrs.old ++ instr.try_table (record { block = block.entry; catches = catches.entry }) ∷ []) }
        ensures empty_on_failure { MayPut self.new instrs.old instrs.new (instr.try_table (record { block = block.entry; catches = catches.entry })) }
    {
        match boxed_block(self.alloc, block) {
            Ok(block) => self.push_instruction(
                instrs,
                Instruction::try_table(TryTable { block, catches }),
            ),
            Err(_) => self.refused = true,
        }
    }

    /// Makes the list of the catch clauses of `try_table`.
    pub fn catches<'a>(&mut self, catches: &[TryTableCatch<'a>]) -> Seq<TryTableCatch<'a>>
        ensures made { Makes self.old self.new (result ≡ catches.now) }
        ensures empty_on_failure { MayMake self.new catches.now result }
    {
        copied(self, catches)
    }

    /// Appends a type to those of a `rec` group (text format: recursive types).
    ///
    ///     let mut types = Seq::new(alloc);
    ///     maker.push_type(&mut types, Type::new(at(14), None, def));
    pub fn push_type<'a>(&mut self, types: &mut Seq<Type<'a>>, ty: Type<'a>)
        ensures made { Makes self.old self.new (types.new ≡ types.old ++ ty.entry ∷ []) }
        ensures empty_on_failure { MayPut self.new types.old types.new ty.entry }
    {
        if push_type(types, ty).is_err() {
            self.refused = true;
        }
    }

    /// Appends an expression to the elements of a segment (text format: element segments).
    ///
    ///     let mut exprs = Seq::new(alloc);
    ///     maker.push_expression(&mut exprs, null);
    pub fn push_expression<'a>(
        &mut self,
        exprs: &mut Seq<Expression<'a>>,
        expression: Expression<'a>,
    )
        ensures made { Makes self.old self.new (exprs.new ≡ exprs.old ++ expression.entry ∷ []) }
        ensures empty_on_failure { MayPut self.new exprs.old exprs.new expression.entry }
    {
        if push_expression(exprs, expression).is_err() {
            self.refused = true;
        }
    }

    /// Appends a piece to the bytes of a data segment (text format: data segments).
    ///
    ///     maker.push_data(&mut pieces, DataVal::String(b"ab"));
    pub fn push_data<'a>(&mut self, pieces: &mut Seq<DataVal<'a>>, piece: DataVal<'a>)
        ensures made { Makes self.old self.new (pieces.new ≡ pieces.old ++ piece.entry ∷ []) }
        ensures empty_on_failure { MayPut self.new pieces.old pieces.new piece.entry }
    {
        if push_data(pieces, piece).is_err() {
            self.refused = true;
        }
    }

    /// Makes an expression of one instruction, without branch hints (text format: expressions).
    ///
    ///     let zero = make.one_instruction(i32_const(0));
    pub fn one_instruction<'a>(&mut self, instruction: Instruction<'a>) -> Expression<'a>
        ensures made { Makes self.old self.new (result ≡ record { instrs = instruction.entry ∷ []; branch_hints = [] }) }
        ensures empty_on_failure { MayPut self.new [] result.instrs instruction.entry }
        ensures hints { result.branch_hints ≡ [] }
    {
        let mut instrs = Seq::new(self.alloc);
        self.push_instruction(&mut instrs, instruction);
        Expression::new(self.alloc, instrs)
    }

    /// Makes a list of branch hints.
    ///
    ///     let hints = maker.hints(hints);
    ///     one(alloc, maker, ModuleField::Func(func.with_hints(hints)))
    pub fn hints(&mut self, hints: &[BranchHint]) -> Seq<BranchHint>
        ensures made { Makes self.old self.new (result ≡ hints.now) }
        ensures empty_on_failure { MayMake self.new hints.now result }
    {
        copied(self, hints)
    }

    /// Makes a function type, such as `(func (param i32 i32) (result i32))`.
    ///
    ///     let ty = make.function_type(&[(None, None, I32); 2], &[I32]);
    ///
    /// A parameter has an id, a name annotation and a type.
    pub fn function_type<'a>(
        &mut self,
        params: &[(Option<Id<'a>>, Option<NameAnnotation<'a>>, ValType<'a>)],
        results: &[ValType<'a>],
    ) -> FunctionType<'a>
        ensures made { Makes self.old self.new (result ≡ record { params = params.now; results = results.now }) }
        ensures lacks_params { MayMake self.new params.now result.params }
        ensures lacks_results { MayMake self.new results.now result.results }
    {
        let params = self.params(params);
        FunctionType::new(params, self.values(results))
    }

    /// Makes a list of value types, such as the results of a function.
    ///
    ///     let results = maker.values(&[ty]);
    pub fn values<'a>(&mut self, values: &[ValType<'a>]) -> Seq<ValType<'a>>
        ensures made { Makes self.old self.new (result ≡ values.now) }
        ensures empty_on_failure { MayMake self.new values.now result }
    {
        copied(self, values)
    }

    /// Makes a list of parameters, of the id, name annotation and type of each.
    ///
    ///     let params = maker.params(&[(None, None, ty)]);
    pub fn params<'a>(
        &mut self,
        params: &[(Option<Id<'a>>, Option<NameAnnotation<'a>>, ValType<'a>)],
    ) -> Seq<(Option<Id<'a>>, Option<NameAnnotation<'a>>, ValType<'a>)>
        ensures made { Makes self.old self.new (result ≡ params.now) }
        ensures empty_on_failure { MayMake self.new params.now result }
    {
        copied(self, params)
    }

    /// Makes a list of locals.
    ///
    ///     let locals = make.locals(&[Local::new(id("address", 342), I32)]);
    pub fn locals<'a>(&mut self, locals: &[Local<'a>]) -> Seq<Local<'a>>
        ensures made { Makes self.old self.new (result ≡ locals.now) }
        ensures empty_on_failure { MayMake self.new locals.now result }
    {
        copied(self, locals)
    }

    /// Makes a list of struct fields.
    ///
    ///     let fields = maker.struct_fields(fields);
    pub fn struct_fields<'a>(&mut self, fields: &[StructField<'a>]) -> Seq<StructField<'a>>
        ensures made { Makes self.old self.new (result ≡ fields.now) }
        ensures empty_on_failure { MayMake self.new fields.now result }
    {
        copied(self, fields)
    }

    /// Makes a list of indices, such as the functions of an element segment.
    pub fn indices<'a>(&mut self, indices: &[Index<'a>]) -> Seq<Index<'a>>
        ensures made { Makes self.old self.new (result ≡ indices.now) }
        ensures empty_on_failure { MayMake self.new indices.now result }
    {
        copied(self, indices)
    }

    /// Makes a list of names, such as those of the subsection `needed`.
    ///
    ///     let names = maker.names(names);
    pub fn names<'a>(&mut self, names: &[&'a str]) -> Seq<&'a str>
        ensures made { Makes self.old self.new (result ≡ names.now) }
        ensures empty_on_failure { MayMake self.new names.now result }
    {
        copied(self, names)
    }

    /// Makes the inline exports of a field (text format: exports).
    ///
    ///     let names: [&'a str; 1] = ["read"];
    ///     func.with_name("byte").with_exports(make.exports(&names))
    pub fn exports<'a>(&mut self, names: &[&'a str]) -> InlineExport<'a>
        ensures made { Makes self.old self.new (result ≡ record { names = names.now }) }
        ensures empty_on_failure { MayMake self.new names.now result.names }
    {
        InlineExport {
            names: self.names(names),
        }
    }

    /// Makes the bytes of a data segment of one string (text format: data segments).
    ///
    ///     let bytes = Memory::inline(alloc, at(149), id("bytes", 156), make.string(b"ready"));
    pub fn string<'a>(&mut self, string: &'a [u8]) -> Seq<DataVal<'a>>
        ensures made { Makes self.old self.new (result ≡ bytes.String string.entry ∷ []) }
        ensures empty_on_failure { MayPut self.new [] result (bytes.String string.entry) }
    {
        let mut pieces = Seq::new(self.alloc);
        self.push_data(&mut pieces, DataVal::String(string));
        pieces
    }

    /// Makes the bytes of a custom section, of pieces that follow one another.
    pub fn pieces<'a>(&mut self, pieces: &[&'a [u8]]) -> Seq<&'a [u8]>
        ensures made { Makes self.old self.new (result ≡ pieces.now) }
        ensures empty_on_failure { MayMake self.new pieces.now result }
    {
        copied(self, pieces)
    }

    /// Makes the values of a field of `producers`, of a name and a version each.
    ///
    /// # Example
    ///
    ///     let values = maker.versions(values);
    ///     let mut fields = Seq::new(alloc);
    ///     maker.push_producers(&mut fields, name, values);
    pub fn versions<'a>(&mut self, versions: &[(&'a str, &'a str)]) -> Seq<(&'a str, &'a str)>
        ensures made { Makes self.old self.new (result ≡ versions.now) }
        ensures empty_on_failure { MayMake self.new versions.now result }
    {
        copied(self, versions)
    }

    /// Appends a field to those of `producers`, with its name and values.
    pub fn push_producers<'a>(
        &mut self,
        fields: &mut Seq<(&'a str, Seq<(&'a str, &'a str)>)>,
        name: &'a str,
        versions: Seq<(&'a str, &'a str)>,
    )
        ensures made { Makes self.old self.new (fields.new ≡ fields.old ++ (name.entry, versions.entry) ∷ []) }
        ensures empty_on_failure { MayPut self.new fields.old fields.new (name.entry, versions.entry) }
    {
        if fields.push((name, versions)).is_err() {
            self.refused = true;
        }
    }

    /// Appends a subsection to those of `dylink.0` (tool conventions: dynamic linking).
    ///
    ///     maker.push_subsection(&mut subsections, Dylink0Subsection::TargetArch("a"));
    pub fn push_subsection<'a>(
        &mut self,
        subsections: &mut Seq<Dylink0Subsection<'a>>,
        subsection: Dylink0Subsection<'a>,
    )
        ensures made { Makes self.old self.new (subsections.new ≡ subsections.old ++ subsection.entry ∷ []) }
        ensures empty_on_failure { MayPut self.new subsections.old subsections.new subsection.entry }
    {
        if push_subsection(subsections, subsection).is_err() {
            self.refused = true;
        }
    }

    /// Makes the names of exports with their flags (tool conventions: dynamic linking).
    ///
    ///     let exported = Dylink0Subsection::ExportInfo(maker.export_flags(&[("a", 128)]));
    pub fn export_flags<'a>(&mut self, flags: &[(&'a str, u32)]) -> Seq<(&'a str, u32)>
        ensures made { Makes self.old self.new (result ≡ flags.now) }
        ensures empty_on_failure { MayMake self.new flags.now result }
    {
        copied(self, flags)
    }

    /// Makes the modules and names of imports with their flags (tool conventions: dynamic linking).
    ///
    ///     let imported = Dylink0Subsection::ImportInfo(maker.import_flags(&[("a", "b", 3)]));
    pub fn import_flags<'a>(
        &mut self,
        flags: &[(&'a str, &'a str, u32)],
    ) -> Seq<(&'a str, &'a str, u32)>
        ensures made { Makes self.old self.new (result ≡ flags.now) }
        ensures empty_on_failure { MayMake self.new flags.now result }
    {
        copied(self, flags)
    }

    /// Returns the fields, or drops them and returns E12 if an allocation of this builder failed.
    ///
    ///     make.push_field(&mut fields, ModuleField::Start(index(start, 504)));
    ///     make.finish(fields)
    pub fn finish<'a, 'e>(
        self,
        fields: Seq<ModuleField<'a>>,
    ) -> Result<Seq<ModuleField<'a>>, Error<'e>>
        ensures fields { IfOk result (λ made. (self ≡ false) × (made ≡ fields.entry)) }
        ensures refusal { IfErr result (λ e. (self ≡ true) × (e ≡ out_of_memory)) }
    {
        if self.refused {
            discard_fields(fields);
            return Err(Error::refusal(Fault::Memory));
        }
        Ok(fields)
    }
}

/// Makes a list of the same elements.
fn copied<T: Copy + Drop>(maker: &mut TreeBuilder, items: &[T]) -> Seq<T>
    ensures made { Makes maker.old maker.new (result ≡ items.now) }
    ensures empty_on_failure { MayMake maker.new items.now result }
{
    let mut list = Vec::new(maker.alloc);
    if list.extend_from_slice(items).is_err() {
        maker.refused = true;
    }
    Seq::from_vec(list)
}
