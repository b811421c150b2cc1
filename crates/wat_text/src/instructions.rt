//! Reads one instruction: its keyword and its immediates (text format: instructions).

ghost use Rattle.std.specs.Prelude.{◌≡◌, true, Some, [], map};
ghost use Rattle.wat_syntax.specs.Tokens.{one, peek, word_of};
ghost use Rattle.wat_syntax.specs.Values.{text_of};
ghost use Rattle.wat_syntax.specs.Instructions.{instruction as instruction_rule, blocktype, is_catch_word, is_catch, catch_clause};
ghost use Rattle.wat_syntax.specs.Instructions.{catch as catch_rule, catches as catches_rule, try_table_of, opener, is_plaininstr, plaininstr};
ghost use Rattle.wat_tokens.specs.declared.words.Word.TheVariants as a_word;
ghost use Rattle.wat_tokens.specs.declared.words.OwnOp.TheVariants as own;
ghost use Rattle.wat_tokens.specs.declared.tokens.Token.TheVariants as token;
ghost use Rattle.wat_text.specs.Readers.{left, Reads, Decides, ReadsOnto, Pushes, Builds};
ghost use Rattle.wat_syntax.specs.Tree.instr;
ghost use Rattle.wat_syntax.specs.Bare.{bare_text};
ghost use Rattle.wat_syntax.specs.BareInstructions.{bare_block, bare_catch, bare_instr};

use crate::operators::{with_index, with_pair, with_uncovered};
use crate::reader::Reader;
use wast_base::{IndexOp, MemOp};
use wast_tree::{
    BareOp, BlockKind, BlockType, Instruction, Plain, Seq, TryTableCatch, TryTableCatchKind,
};
use wat_tokens::{Alignment, BlockOp, Key, OwnOp, TextFault, Token, Word};

impl<'a> Reader<'a> {
    /// Reads the label and the type of a block (text format: control instructions). For example,
    /// `$l (result i32)` of `block $l (result i32)`.
    fn block_type(&mut self) -> BlockType<'a>
        ensures { Reads blocktype self.old self.new (bare_block result) }
    {
        let (label, label_name) = (self.id(), self.name());
        let ty = self.type_use(false);
        BlockType {
            label,
            label_name,
            ty,
        }
    }

    /// Reads a clause of `try_table` after its `(`, such as `catch $e $l` (text format: control
    /// instructions).
    fn catch(&mut self) -> TryTableCatch<'a>
        ensures { Decides catch_clause self.old self.new (bare_catch result) }
    {
        let word = self.word(0);
        self.skip();
        match word {
            Some(Word::Index(IndexOp::Catch)) => {
                let tag = self.index();
                TryTableCatch::new(TryTableCatchKind::Catch(tag), self.index())
            }
            Some(Word::Key(Key::CatchRef)) => {
                let tag = self.index();
                TryTableCatch::new(TryTableCatchKind::CatchRef(tag), self.index())
            }
            Some(Word::Key(Key::CatchAllRef)) => {
                TryTableCatch::new(TryTableCatchKind::CatchAllRef, self.index())
            }
            Some(Word::Plain(Plain::Bare(BareOp::catch_all))) => {
                TryTableCatch::new(TryTableCatchKind::CatchAll, self.index())
            }
            _ => {
                self.fail(TextFault::Operator);
                TryTableCatch::new(TryTableCatchKind::CatchAll, self.index())
            }
        }
    }

    /// Returns whether the second token is the keyword of a clause of `try_table`, such as `catch`.
    fn is_catch_word(&self) -> bool
        ensures { result ≡ is_catch_word (word_of (peek 1 (left self.now))) }
    {
        match self.word(1) {
            Some(Word::Index(IndexOp::Catch)) => true,
            Some(Word::Key(Key::CatchRef | Key::CatchAllRef)) => true,
            Some(Word::Plain(Plain::Bare(BareOp::catch_all))) => true,
            _ => false,
        }
    }

    /// Returns whether a clause of `try_table` is next.
    fn is_catch(&self) -> bool
        ensures { result ≡ is_catch (left self.now) }
    {
        self.is_open(0) && self.is_catch_word()
    }

    /// Reads a clause of `try_table`, in its parentheses.
    fn catch_form(&mut self) -> TryTableCatch<'a>
        requires { is_catch (left self.old) ≡ true }
        ensures { Decides catch_rule self.old self.new (bare_catch result) }
    {
        self.skip();
        let catch = self.catch();
        self.close();
        catch
    }

    /// Appends a clause of `try_table` to a list.
    fn push_catch(&mut self, catches: &mut Seq<TryTableCatch<'a>>, catch: TryTableCatch<'a>)
        ensures { Pushes self.old self.new catch.entry catches.old catches.new }
    {
        let pushed = catches.push(catch);
        self.took(pushed);
    }

    /// Reads clauses of `try_table` as long as one is next, and appends them (text format: control
    /// instructions).
    #[tactic(auto, using(crate::proofs::Steps::one_bare, crate::proofs::Loops::part_end, crate::proofs::Loops::part_last, crate::proofs::Loops::none_after))]
    fn catches(&mut self, catches: &mut Seq<TryTableCatch<'a>>)
        ensures { ReadsOnto catches_rule self.old self.new (map bare_catch catches.old) (map bare_catch catches.new) }
    {
        for _ in 0..self.left() {
            if !self.is_catch() {
                break;
            }
            let catch = self.catch_form();
            self.push_catch(catches, catch);
        }
    }

    /// Appends an instruction to a list.
    #[tactic(auto, using(crate::proofs::Makes::none_failed), unfolding(crate::specs::Readers::left))]
    fn push_instruction(&mut self, instrs: &mut Seq<Instruction<'a>>, instruction: Instruction<'a>)
        ensures { Builds self.old self.new instruction.entry instrs.old instrs.new }
    {
        self.make.push_instruction(instrs, instruction);
    }

    /// Appends `block` to a list of instructions.
    #[tactic(auto, using(crate::proofs::Makes::none_failed), unfolding(crate::specs::Readers::left))]
    fn push_block(&mut self, instrs: &mut Seq<Instruction<'a>>, block: BlockType<'a>)
        ensures { Builds self.old self.new (instr.block block.entry) instrs.old instrs.new }
    {
        self.make.push_block(instrs, BlockKind::Block, block);
    }

    /// Appends `loop` to a list of instructions.
    #[tactic(auto, using(crate::proofs::Makes::none_failed), unfolding(crate::specs::Readers::left))]
    fn push_loop(&mut self, instrs: &mut Seq<Instruction<'a>>, block: BlockType<'a>)
        ensures { Builds self.old self.new (instr.loop_ block.entry) instrs.old instrs.new }
    {
        self.make.push_block(instrs, BlockKind::Loop, block);
    }

    /// Appends `if` to a list of instructions.
    #[tactic(auto, using(crate::proofs::Makes::none_failed), unfolding(crate::specs::Readers::left))]
    fn push_if(&mut self, instrs: &mut Seq<Instruction<'a>>, block: BlockType<'a>)
        ensures { Builds self.old self.new (instr.if_ block.entry) instrs.old instrs.new }
    {
        self.make.push_block(instrs, BlockKind::If, block);
    }

    /// Appends `try` to a list of instructions.
    #[tactic(auto, using(crate::proofs::Makes::none_failed), unfolding(crate::specs::Readers::left))]
    fn push_try(&mut self, instrs: &mut Seq<Instruction<'a>>, block: BlockType<'a>)
        ensures { Builds self.old self.new (instr.try_ block.entry) instrs.old instrs.new }
    {
        self.make.push_block(instrs, BlockKind::Try, block);
    }

    /// Appends `try_table` to a list of instructions.
    #[tactic(auto, using(crate::proofs::Makes::none_failed), unfolding(crate::specs::Readers::left))]
    fn push_try_table(
        &mut self,
        instrs: &mut Seq<Instruction<'a>>,
        block: BlockType<'a>,
        catches: Seq<TryTableCatch<'a>>,
    )
        ensures { Builds self.old self.new (instr.try_table (record { block = block.entry; catches = catches.entry })) instrs.old instrs.new }
    {
        self.make.push_try_table(instrs, block, catches);
    }

    /// Reads the clauses of `try_table`, after its block type, and appends the instruction.
    #[tactic(auto, using(crate::proofs::Loops::from_nothing, crate::proofs::Loops::mapped))]
    fn try_table(&mut self, block: BlockType<'a>, instrs: &mut Seq<Instruction<'a>>)
        ensures { ReadsOnto (one (try_table_of (bare_block block.entry))) self.old self.new (map bare_instr instrs.old) (map bare_instr instrs.new) }
    {
        let mut catches = Seq::new(self.alloc);
        self.catches(&mut catches);
        self.push_try_table(instrs, block, catches);
    }

    /// Reads the block type of a block instruction, after its keyword, and appends the instruction.
    /// The instructions in the block are not read.
    #[inline(never)]
    #[tactic(auto, using(crate::proofs::Loops::mapped))]
    fn block(&mut self, op: BlockOp, instrs: &mut Seq<Instruction<'a>>)
        ensures { ReadsOnto (one (opener op)) self.old self.new (map bare_instr instrs.old) (map bare_instr instrs.new) }
    {
        let block = self.block_type();
        match op {
            BlockOp::block => self.push_block(instrs, block),
            BlockOp::loop_ => self.push_loop(instrs, block),
            BlockOp::if_ => self.push_if(instrs, block),
            BlockOp::try_ => self.push_try(instrs, block),
            BlockOp::try_table => self.try_table(block, instrs),
        }
    }

    /// Reads the memory argument of a load or a store, and returns the instruction.
    #[inline(always)]
    fn access(&mut self, op: MemOp, align: Alignment) -> Instruction<'a>
        ensures { Decides (plaininstr (a_word.Mem op align) (text_of [])) self.old self.new (bare_instr result) }
    {
        Instruction::Mem(op, self.mem_arg(align.bytes()))
    }

    /// Reads the index of an instruction such as `local.get`, and returns the instruction.
    #[inline(always)]
    fn indexed(&mut self, op: IndexOp) -> Instruction<'a>
        ensures { Decides (plaininstr (a_word.Index op) (text_of [])) self.old self.new (bare_instr result) }
    {
        with_index(op, self.index())
    }

    /// Reads the number of `i32.const`, and returns the instruction.
    #[inline(always)]
    fn i32_const(&mut self) -> Instruction<'a>
        ensures { Decides (plaininstr (a_word.Own own.i32_const) (text_of [])) self.old self.new (bare_instr result) }
    {
        Instruction::i32_const(self.integer32())
    }

    /// Reads the label of an `end`, if it has one, and returns the instruction.
    #[inline(always)]
    fn end_word(&mut self) -> Instruction<'a>
        ensures { Decides (plaininstr (a_word.Own own.end_) (text_of [])) self.old self.new (bare_instr result) }
    {
        Instruction::end_(self.id())
    }

    /// Reads the immediates of an instruction that begins no block, after its keyword, and returns
    /// the instruction. If the tree has no variant for it, the result has only its name, as for
    /// `i64.add128`.
    fn any_operator(&mut self, word: Word, name: &'a str) -> Instruction<'a>
        requires { is_plaininstr word ≡ true }
        ensures { Reads (plaininstr word (bare_text name.entry)) self.old self.new (bare_instr result) }
    {
        match word {
            Word::Plain(op) => Instruction::Plain(op),
            Word::Mem(op, align) => self.access(op, align),
            Word::Lane(op) => Instruction::Lane(op, self.lane_arg()),
            Word::MemLane(op, align) => Instruction::MemLane(
                op,
                self.load_or_store_lane(align.bytes()),
            ),
            Word::Index(op) => self.indexed(op),
            Word::IndexOrZero(op) => with_index(op.op(), self.index_or_zero()),
            Word::Uncovered(op) => with_uncovered(op, self.index()),
            Word::UncoveredOrZero(op) => with_uncovered(op, self.index_or_zero()),
            Word::Pair(op) => {
                let first = self.index();
                with_pair(op, first, self.index())
            }
            Word::OneOrTwo(op) => {
                let (first, second) = self.one_or_two();
                with_pair(op, first, second)
            }
            Word::NoneOrTwo(op) => {
                let (first, second) = self.none_or_two();
                with_pair(op, first, second)
            }
            Word::Own(op) => self.own(op),
            Word::Atomic(op) => self.atomic(op),
            Word::Beyond | Word::Block(_) | Word::Key(_) => Instruction::Beyond(name),
        }
    }

    /// Appends an instruction without immediates, such as `drop`.
    #[inline(never)]
    fn push_plain(&mut self, op: Plain, instrs: &mut Seq<Instruction<'a>>)
        ensures { ReadsOnto (one (plaininstr (a_word.Plain op) (text_of []))) self.old self.new (map bare_instr instrs.old) (map bare_instr instrs.new) }
    {
        self.push_instruction(instrs, Instruction::Plain(op));
    }

    /// Reads the memory argument of a load or a store, and appends the instruction.
    #[inline(never)]
    fn push_access(&mut self, op: MemOp, align: Alignment, instrs: &mut Seq<Instruction<'a>>)
        ensures { ReadsOnto (one (plaininstr (a_word.Mem op align) (text_of []))) self.old self.new (map bare_instr instrs.old) (map bare_instr instrs.new) }
    {
        let instruction = self.access(op, align);
        self.push_instruction(instrs, instruction);
    }

    /// Reads the index of an instruction such as `local.get`, and appends the instruction.
    #[inline(never)]
    fn push_indexed(&mut self, op: IndexOp, instrs: &mut Seq<Instruction<'a>>)
        ensures { ReadsOnto (one (plaininstr (a_word.Index op) (text_of []))) self.old self.new (map bare_instr instrs.old) (map bare_instr instrs.new) }
    {
        let instruction = self.indexed(op);
        self.push_instruction(instrs, instruction);
    }

    /// Reads the number of `i32.const`, and appends the instruction.
    #[inline(never)]
    fn push_i32_const(&mut self, instrs: &mut Seq<Instruction<'a>>)
        ensures { ReadsOnto (one (plaininstr (a_word.Own own.i32_const) (text_of []))) self.old self.new (map bare_instr instrs.old) (map bare_instr instrs.new) }
    {
        let instruction = self.i32_const();
        self.push_instruction(instrs, instruction);
    }

    /// Reads the label of an `end`, if it has one, and appends the instruction.
    #[inline(never)]
    fn push_end(&mut self, instrs: &mut Seq<Instruction<'a>>)
        ensures { ReadsOnto (one (plaininstr (a_word.Own own.end_) (text_of []))) self.old self.new (map bare_instr instrs.old) (map bare_instr instrs.new) }
    {
        let instruction = self.end_word();
        self.push_instruction(instrs, instruction);
    }

    /// Does what `push_operator` does, without its functions for frequent kinds. The compiler sets
    /// the locals of all arms to zero at its start, so it costs more than an instruction with one
    /// index.
    #[inline(never)]
    fn push_other(&mut self, word: Word, name: &'a str, instrs: &mut Seq<Instruction<'a>>)
        requires { is_plaininstr word ≡ true }
        ensures { ReadsOnto (one (plaininstr word (bare_text name.entry))) self.old self.new (map bare_instr instrs.old) (map bare_instr instrs.new) }
    {
        let instruction = self.any_operator(word, name);
        self.push_instruction(instrs, instruction);
    }

    /// Reads the immediates of an instruction that begins no block, after its keyword, and appends
    /// the instruction (text format: instructions). Each of the most frequent kinds has a function
    /// of its own.
    fn push_operator(&mut self, word: Word, name: &'a str, instrs: &mut Seq<Instruction<'a>>)
        requires { is_plaininstr word ≡ true }
        ensures { ReadsOnto (one (plaininstr word (bare_text name.entry))) self.old self.new (map bare_instr instrs.old) (map bare_instr instrs.new) }
    {
        match word {
            Word::Plain(op) => self.push_plain(op, instrs),
            Word::Mem(op, align) => self.push_access(op, align, instrs),
            Word::Index(op) => self.push_indexed(op, instrs),
            Word::Own(OwnOp::i32_const) => self.push_i32_const(instrs),
            Word::Own(OwnOp::end_) => self.push_end(instrs),
            _ => self.push_other(word, name, instrs),
        }
    }

    /// Reads an instruction by its keyword, and appends it.
    #[tactic(auto, using(crate::proofs::Words::not_opener, crate::proofs::Loops::mapped))]
    pub(crate) fn worded(&mut self, word: Word, name: &'a str, instrs: &mut Seq<Instruction<'a>>)
        requires { peek 0 (left self.old) ≡ Some (token.Word word (bare_text name)) }
        ensures { ReadsOnto (one instruction_rule) self.old self.new (map bare_instr instrs.old) (map bare_instr instrs.new) }
    {
        match word {
            Word::Key(_) => self.fail(TextFault::Operator),
            Word::Block(op) => {
                self.skip();
                self.block(op, instrs);
            }
            _ => {
                self.skip();
                self.push_operator(word, name, instrs);
            }
        }
    }

    /// Reads the keyword and the immediates of an instruction, and appends it (text format:
    /// instructions). Folded instructions are read in `bodies`.
    pub(crate) fn instruction(&mut self, instrs: &mut Seq<Instruction<'a>>)
        ensures { ReadsOnto (one instruction_rule) self.old self.new (map bare_instr instrs.old) (map bare_instr instrs.new) }
    {
        match self.look(0) {
            Some(Token::Word(word, name)) => self.worded(word, name, instrs),
            _ => self.fail(TextFault::Operator),
        }
    }
}
