//! Reads expressions: instructions in sequence or folded, to any depth.
//!
//! A list keeps what is open, so calls do not nest as deeply as the text does. Blocks without
//! parentheses are in the same list, because an `end` closes the block that was opened last. A `)`
//! must not close a block without `end`, such as the `loop` of `(func (block loop))`.
//!
//! Each function takes a step of the machine in specs/Machine.antt.

ghost use Rattle.std.specs.Prelude.{◌≡◌, true, false, [], None, Some, map, option_map, reverse};
ghost use Rattle.wat_syntax.specs.Tokens.{keyword, peek, word_of};
ghost use Rattle.wat_syntax.specs.Bodies.{part_of, expression as expression_rule, folded_expression};
ghost use Rattle.wat_text.specs.Readers.{left, Reads, Decides, Expects, Refuses};
ghost use Rattle.wat_text.specs.Machine.{Does, EndsExpression, in_rule};
ghost use Rattle.wat_text.specs.Machine as machine;
ghost use Rattle.wat_tokens.specs.declared.words.Key.TheVariants as key;
ghost use Rattle.wat_tokens.specs.declared.tokens.Token.TheVariants as token;
ghost use Rattle.wat_tokens.specs.declared.tokens.Annotation.TheVariants as annotation;
ghost use Rattle.wat_syntax.specs.Bare.{bare_text, bare_token};
ghost use Rattle.wat_syntax.specs.BareInstructions.{bare_expression, bare_instr};

use crate::reader::{Reader, fitted};
use std::alloc::Global;
use std::mem;
use wast_base::IndexOp;
use wast_tree::{
    BareOp, BranchHint, Expression, Instruction, Plain, Seq, Span, discard_expression,
};
use wat_tokens::{Annotation, BlockOp, Key, OwnOp, TextFault, Token, Word};

/// What is open. It determines what may come next and what closes it (text format: control
/// instructions, folded instructions).
#[derive(Clone, Copy)]
enum Level {
    /// A block without parentheses that only `end` closes: `block`, `loop`, `try_table`, an `if`
    /// after `else`, or a `try` after `catch_all`.
    Plain,
    /// An `if` without parentheses, before its `else`.
    PlainIf,
    /// A `try` without parentheses, before its first `catch`.
    PlainTry,
    /// A `try` without parentheses, after a `catch`.
    PlainCatch,
    /// The operands of an instruction that is written after them: `(drop (i32.const 0))`.
    Operands,
    /// A block in parentheses, for which `)` writes the `end`.
    Block,
    /// The condition of an `if` in parentheses, which is written after it.
    Condition,
    /// An `if` in parentheses, after its `then`.
    Then,
    /// A `try` in parentheses, before its `do`.
    Try,
    /// A `try` in parentheses, after its `do`.
    Do,
    /// A `try` in parentheses, after a `catch`.
    Catch,
    /// An `if` in parentheses after its `else`, or a `try` after its `catch_all`.
    Last,
    /// A `try` in parentheses, after its `delegate`, which is its end.
    Delegated,
    /// The instructions in an arm of an `if` or a `try`: `(then ..)`.
    Arm,
}

/// A part of a block without parentheses, or the word of an arm of one in parentheses.
#[derive(Clone, Copy)]
enum Part {
    /// `end`
    End,
    /// `else`
    Else,
    /// `catch`
    Catch,
    /// `catch_all`
    CatchAll,
    /// `delegate`
    Delegate,
}

/// A branch hint whose instruction comes next, with its position.
#[derive(Clone, Copy)]
struct Hint {
    value: u32,
    place: Span,
}

/// An open level, with the position of its keyword and the branch hint of the instruction that
/// waits in it.
#[derive(Clone, Copy)]
struct Open {
    level: Level,
    place: Span,
    hint: Option<Hint>,
}

/// What an expression is read for.
#[derive(Clone, Copy)]
enum Purpose {
    /// The body of a function, which may have branch hints.
    Body,
    /// A constant expression, an offset or an element, which may have none.
    Constant,
}

/// An expression that is read: its instructions, those that wait for operands, and what is open.
struct Body<'a> {
    instrs: Seq<Instruction<'a>>,
    waiting: Seq<Instruction<'a>>,
    levels: Vec<Open>,
    hints: Seq<BranchHint>,
}

/// Drops instructions.
fn discard<'a>(alloc: Global, instrs: Seq<Instruction<'a>>) {
    discard_expression(Expression::new(alloc, instrs));
}

/// Returns the level of a block without parentheses.
fn plain_level(op: BlockOp) -> Level
    ensures { result ≡ machine.plain_level op }
{
    match op {
        BlockOp::block | BlockOp::loop_ | BlockOp::try_table => Level::Plain,
        BlockOp::if_ => Level::PlainIf,
        BlockOp::try_ => Level::PlainTry,
    }
}

/// Returns whether a word is an instruction that neither opens a block nor is a part of one. For
/// example, `drop` is, and `block`, `else` and `end` are not.
fn is_simple(word: Word) -> bool
    ensures { result ≡ machine.is_simple word }
{
    match word {
        Word::Block(_) => false,
        Word::Own(OwnOp::end_ | OwnOp::else_) => false,
        Word::Index(IndexOp::Catch | IndexOp::Delegate) => false,
        Word::Plain(Plain::Bare(BareOp::catch_all)) => false,
        _ => true,
    }
}

impl Part {
    /// Returns the part of a block that a word is, if it is one.
    fn of(word: Word) -> Option<Part>
        ensures { option_map in_rule result ≡ part_of (Some word) }
    {
        match word {
            Word::Own(OwnOp::end_) => Some(Part::End),
            Word::Own(OwnOp::else_) => Some(Part::Else),
            Word::Index(IndexOp::Catch) => Some(Part::Catch),
            Word::Index(IndexOp::Delegate) => Some(Part::Delegate),
            Word::Plain(Plain::Bare(BareOp::catch_all)) => Some(Part::CatchAll),
            _ => None,
        }
    }

    /// Returns its word, as errors have it.
    fn name(self) -> &'static str {
        match self {
            Part::End => "`end`",
            Part::Else => "`else`",
            Part::Catch => "`catch`",
            Part::Delegate => "`delegate`",
            Part::CatchAll => "`catch_all`",
        }
    }

    /// Returns the state of the innermost block after this part: `Some(None)` if it is closed, and
    /// `None` if the part may not come there.
    fn after(self, level: Level) -> Option<Option<Level>>
        ensures { result ≡ machine.after_part level (in_rule self) }
    {
        match (self, level) {
            (Part::End, Level::Plain | Level::PlainIf | Level::PlainTry | Level::PlainCatch) =>
                Some(None),
            (Part::Else, Level::PlainIf) => Some(Some(Level::Plain)),
            (Part::Catch, Level::PlainTry | Level::PlainCatch) => Some(Some(Level::PlainCatch)),
            (Part::CatchAll, Level::PlainTry | Level::PlainCatch) => Some(Some(Level::Plain)),
            (Part::Delegate, Level::PlainTry) => Some(None),
            _ => None,
        }
    }
}

impl<'a> Body<'a> {
    /// Makes an expression of which nothing is read.
    fn new(alloc: Global) -> Body<'a>
        ensures instrs { result.instrs ≡ [] }
        ensures hints { result.hints ≡ [] }
        ensures levels { result.levels.items ≡ [] }
        ensures waiting { result.waiting ≡ [] }
    {
        Body {
            instrs: Seq::new(alloc),
            waiting: Seq::new(alloc),
            levels: Vec::new(alloc),
            hints: Seq::new(alloc),
        }
    }

    /// Returns what was read, and drops instructions that still wait.
    fn finish(self, alloc: Global) -> Expression<'a>
        ensures { result ≡ record { instrs = self.entry.instrs; branch_hints = self.entry.hints } }
    {
        let Body {
            instrs,
            waiting,
            levels,
            hints,
        } = self;
        drop(levels);
        discard(alloc, waiting);
        Expression {
            instrs: fitted(instrs),
            branch_hints: hints,
        }
    }

    /// Takes the last waiting operator, if there is one.
    fn take_waiting(&mut self, alloc: Global) -> Option<Instruction<'a>>
        ensures last { option_map bare_instr result ≡ machine.last_of (map bare_instr self.old.waiting) }
        ensures others { map bare_instr self.new.waiting ≡ machine.before_last (map bare_instr self.old.waiting) }
        ensures levels { self.new.levels ≡ self.old.levels }
        ensures instrs { self.new.instrs ≡ self.old.instrs }
        ensures hints { self.new.hints ≡ self.old.hints }
    {
        let mut waiting = mem::replace(&mut self.waiting, Seq::new(alloc)).into_vec();
        let last = waiting.pop();
        let none = mem::replace(&mut self.waiting, Seq::from_vec(waiting));
        discard(alloc, none);
        last
    }

    /// Returns the innermost level, if one is open.
    fn level(&self) -> Option<Level>
        ensures { result ≡ machine.level_of (reverse self.now.levels.items) }
    {
        match self.levels.last() {
            Some(open) => Some(open.level),
            None => None,
        }
    }

    /// Returns whether nothing is open.
    fn is_closed(&self) -> bool
        ensures { result ≡ machine.is_closed (reverse self.now.levels.items) }
    {
        match self.levels.last() {
            Some(_) => false,
            None => true,
        }
    }

    /// Returns the branch hint of the innermost level, if it has one.
    fn open_hint(&self) -> Option<Hint>
        ensures { result ≡ machine.hint_of_level (reverse self.now.levels.items) }
    {
        match self.levels.last() {
            Some(open) => open.hint,
            None => None,
        }
    }

    /// Returns whether instructions without parentheses may come next.
    fn takes_plain(&self) -> bool
        ensures { result ≡ machine.takes_plain (machine.level_of (reverse self.now.levels.items)) }
    {
        matches!(
            self.level(),
            None | Some(
                Level::Plain
                    | Level::PlainIf
                    | Level::PlainTry
                    | Level::PlainCatch
                    | Level::Block
                    | Level::Arm
            )
        )
    }
}

impl<'a> Reader<'a> {
    /// Opens a level at the position of its word.
    fn push_level(&mut self, body: &mut Body<'a>, level: Level, place: Span, hint: Option<Hint>)
        ensures { Does (machine.push_level level place hint) self.old self.new body.old body.new }
    {
        let open = Open { level, place, hint };
        if body.levels.push(open).is_err() {
            self.fail(TextFault::Memory);
        }
    }

    /// Opens an arm of the innermost level.
    fn push_arm(&mut self, body: &mut Body<'a>)
        ensures { Does machine.push_arm self.old self.new body.old body.new }
    {
        let place = self.place_before();
        self.push_level(body, Level::Arm, place, None);
    }

    /// Replaces the innermost level by another at the same position. Its hint is used.
    fn replace_level(&mut self, body: &mut Body<'a>, level: Level)
        ensures { Does (machine.replace_level level) self.old self.new body.old body.new }
    {
        if let Some(open) = body.levels.pop() {
            self.push_level(body, level, open.place, None);
        }
    }

    /// Appends a branch hint for the instruction that is appended next. It is not inlined, because
    /// few instructions have one.
    #[cold]
    #[inline(never)]
    fn push_hint(&mut self, body: &mut Body<'a>, hint: Hint)
        ensures { Does (machine.append_hint (Some hint)) self.old self.new body.old body.new }
    {
        let pushed = body
            .hints
            .push(BranchHint::new(body.instrs.len(), hint.value));
        self.took(pushed);
    }

    /// Appends a branch hint, if there is one, for the instruction that is appended next.
    fn append_hint(&mut self, body: &mut Body<'a>, hint: Option<Hint>)
        ensures { Does (machine.append_hint hint) self.old self.new body.old body.new }
    {
        if let Some(hint) = hint {
            self.push_hint(body, hint);
        }
    }

    /// Appends an instruction.
    fn append(&mut self, body: &mut Body<'a>, instruction: Instruction<'a>)
        ensures { Does (machine.append (bare_instr instruction.entry)) self.old self.new body.old body.new }
    {
        self.make.push_instruction(&mut body.instrs, instruction);
    }

    /// Appends the last waiting operator, if there is one.
    fn append_operator(&mut self, body: &mut Body<'a>)
        ensures { Does machine.append_operator self.old self.new body.old body.new }
    {
        if let Some(instruction) = body.take_waiting(self.alloc) {
            self.append(body, instruction);
        }
    }

    /// Appends the last waiting operator, with its branch hint.
    fn append_hinted_operator(&mut self, body: &mut Body<'a>, hint: Option<Hint>)
        ensures { Does (machine.append_hinted_operator hint) self.old self.new body.old body.new }
    {
        self.append_hint(body, hint);
        self.append_operator(body);
    }

    /// Reads an operator. It waits for its operands, because it comes after them in the tree.
    fn read_operator(&mut self, body: &mut Body<'a>)
        ensures { Does machine.read_operator self.old self.new body.old body.new }
    {
        self.instruction(&mut body.waiting);
    }

    /// Reads an instruction and appends it.
    fn read_instr(&mut self, body: &mut Body<'a>)
        ensures { Does machine.read_instr self.old self.new body.old body.new }
    {
        self.instruction(&mut body.instrs);
    }

    /// Reads the value of a branch hint, from its string to its `)`.
    fn hint_value(&mut self) -> u32
        ensures { Decides machine.value_of_hint self.old self.new result }
    {
        let place = self.place();
        let value = match self.bytes() {
            [0] => 0,
            [1] => 1,
            _ => {
                self.fail_at(place, TextFault::Hint);
                0
            }
        };
        self.close();
        value
    }

    /// Reads `(@metadata.code.branch_hint "\00")`. It is not inlined, because few instructions have
    /// a hint.
    #[cold]
    #[inline(never)]
    fn hint_form(&mut self, purpose: Purpose) -> Option<Hint>
        requires { peek 0 (left self.old) ≡ Some (token.Annotation annotation.BranchHint) }
        ensures { Decides (machine.hint (machine.may_hint purpose)) self.old self.new result }
    {
        let place = self.place();
        self.skip();
        let value = self.hint_value();
        if matches!(purpose, Purpose::Constant) {
            self.fail_at(place, TextFault::Unexpected("branch hint"));
        }
        Some(Hint { value, place })
    }

    /// Reads `(@metadata.code.branch_hint "\00")`, if it is next. The hint is of the next
    /// instruction (branch hinting).
    #[inline(always)]
    fn hint(&mut self, purpose: Purpose) -> Option<Hint>
        ensures { Decides (machine.hint (machine.may_hint purpose)) self.old self.new result }
    {
        match self.look(0) {
            Some(Token::Annotation(Annotation::BranchHint)) => self.hint_form(purpose),
            _ => None,
        }
    }

    /// Fails if there is a branch hint, because it comes before no instruction.
    fn no_hint(&mut self, hint: Option<Hint>)
        ensures { Expects (machine.without hint) self.old self.new }
    {
        if let Some(hint) = hint {
            self.fail_at(hint.place, TextFault::HintWithoutInstruction);
        }
    }

    /// Fails because a branch hint comes after another.
    fn second_hint(&mut self, purpose: Purpose)
        ensures { Refuses self.old self.new }
    {
        let place = self.place();
        let _second = self.hint(purpose);
        self.fail_at(place, TextFault::HintWithoutInstruction);
    }

    /// Returns the part of a block whose word is next, if one is.
    fn part_in(&self) -> Option<Part>
        ensures { option_map in_rule result ≡ part_of (word_of (peek 0 (left self.now))) }
    {
        match self.word(0) {
            Some(word) => Part::of(word),
            None => None,
        }
    }

    /// Reads `then` of an open `if` after its `(`.
    #[inline(never)]
    fn then_arm(&mut self, body: &mut Body<'a>, hint: Option<Hint>)
        ensures { Does (machine.then_arm hint) self.old self.new body.old body.new }
    {
        self.no_hint(hint);
        self.skip();
        let open = body.open_hint();
        self.append_hinted_operator(body, open);
        self.replace_level(body, Level::Then);
        self.push_arm(body);
    }

    /// Reads `else`.
    fn else_word(&mut self)
        ensures { Expects machine.else_word self.old self.new }
    {
        match self.part_in() {
            Some(Part::Else) => self.skip(),
            _ => self.expected("`else`"),
        }
    }

    /// Reads `else` of an open `if` after its `(`.
    #[inline(never)]
    fn else_arm(&mut self, body: &mut Body<'a>, hint: Option<Hint>)
        ensures { Does (machine.else_arm hint) self.old self.new body.old body.new }
    {
        self.no_hint(hint);
        self.else_word();
        self.append(body, Instruction::else_(None));
        self.replace_level(body, Level::Last);
        self.push_arm(body);
    }

    /// Reads `do`.
    fn do_word(&mut self)
        ensures { Expects (keyword key.Do) self.old self.new }
    {
        if !self.accept(Key::Do) {
            self.expected("`do`");
        }
    }

    /// Reads `do` of an open `try` after its `(`.
    #[inline(never)]
    fn do_arm(&mut self, body: &mut Body<'a>, hint: Option<Hint>)
        ensures { Does (machine.do_arm hint) self.old self.new body.old body.new }
    {
        self.no_hint(hint);
        self.do_word();
        self.replace_level(body, Level::Do);
        self.push_arm(body);
    }

    /// Reads `catch` of an open `try`, from the word on.
    fn catch_arm(&mut self, body: &mut Body<'a>)
        ensures { Does machine.catch_arm self.old self.new body.old body.new }
    {
        self.skip();
        let tag = self.index();
        self.append(body, Instruction::catch(tag));
        self.replace_level(body, Level::Catch);
        self.push_arm(body);
    }

    /// Reads `catch_all` of an open `try`, from the word on.
    fn catch_all_arm(&mut self, body: &mut Body<'a>)
        ensures { Does machine.catch_all_arm self.old self.new body.old body.new }
    {
        self.skip();
        self.append(body, Instruction::Plain(Plain::Bare(BareOp::catch_all)));
        self.replace_level(body, Level::Last);
        self.push_arm(body);
    }

    /// Reads `delegate` of an open `try`, from the word to its `)`.
    fn delegate_arm(&mut self, body: &mut Body<'a>)
        ensures { Does machine.delegate_arm self.old self.new body.old body.new }
    {
        self.skip();
        let label = self.index();
        self.close();
        self.append(body, Instruction::delegate(label));
        self.replace_level(body, Level::Delegated);
    }

    /// Reads an arm of an open `try` that has its `do`, after the `(` of the arm.
    #[inline(never)]
    fn first_handler(&mut self, body: &mut Body<'a>)
        ensures { Does machine.first_handler self.old self.new body.old body.new }
    {
        match self.part_in() {
            Some(Part::Catch) => self.catch_arm(body),
            Some(Part::CatchAll) => self.catch_all_arm(body),
            Some(Part::Delegate) => self.delegate_arm(body),
            _ => self.expected("`catch`, `catch_all` or `delegate`"),
        }
    }

    /// Reads an arm of an open `try` that has a `catch`, after the `(` of the arm.
    #[inline(never)]
    fn next_handler(&mut self, body: &mut Body<'a>)
        ensures { Does machine.next_handler self.old self.new body.old body.new }
    {
        match self.part_in() {
            Some(Part::Catch) => self.catch_arm(body),
            Some(Part::CatchAll) => self.catch_all_arm(body),
            _ => self.expected("`catch` or `catch_all`"),
        }
    }

    /// Reads a folded block after its `(` (text format: folded instructions).
    fn folded_block(&mut self, body: &mut Body<'a>, op: BlockOp, hint: Option<Hint>)
        ensures { Does (machine.folded_block op hint) self.old self.new body.old body.new }
    {
        let place = self.place();
        match op {
            BlockOp::if_ => {
                self.read_operator(body);
                self.push_level(body, Level::Condition, place, hint);
            }
            BlockOp::try_ => {
                self.append_hint(body, hint);
                self.read_instr(body);
                self.push_level(body, Level::Try, place, None);
            }
            BlockOp::block | BlockOp::loop_ | BlockOp::try_table => {
                self.append_hint(body, hint);
                self.read_instr(body);
                self.push_level(body, Level::Block, place, None);
            }
        }
    }

    /// Fails if the word of a part of a block is next, because it is not an operator.
    fn no_part(&mut self)
        ensures { Expects machine.no_part self.old self.new }
    {
        if let Some(part) = self.part_in() {
            self.fail(TextFault::Unexpected(part.name()));
        }
    }

    /// Reads an instruction with operands after its `(` (text format: folded instructions).
    fn with_operands(&mut self, body: &mut Body<'a>, hint: Option<Hint>)
        ensures { Does (machine.with_operands hint) self.old self.new body.old body.new }
    {
        let place = self.place();
        self.no_part();
        self.read_operator(body);
        self.push_level(body, Level::Operands, place, hint);
    }

    /// Reads a folded instruction after its `(`, at any token. It is not inlined, because most
    /// instructions do not need it.
    #[inline(never)]
    fn whole_operator(&mut self, body: &mut Body<'a>, hint: Option<Hint>)
        ensures { Does (machine.folded_operator hint) self.old self.new body.old body.new }
    {
        match self.word(0) {
            Some(Word::Block(op)) => self.folded_block(body, op, hint),
            _ => self.with_operands(body, hint),
        }
    }

    /// Reads an operator by its word. It waits for its operands.
    fn read_operator_at(&mut self, body: &mut Body<'a>, word: Word, name: &'a str)
        requires { peek 0 (left self.old) ≡ Some (token.Word word (bare_text name)) }
        ensures { Does machine.read_operator self.old self.new body.old body.new }
    {
        self.worded(word, name, &mut body.waiting);
    }

    /// Reads an instruction with operands after its `(`, by its word.
    #[inline(always)]
    fn operator_at(&mut self, body: &mut Body<'a>, word: Word, name: &'a str, hint: Option<Hint>)
        requires next { peek 0 (left self.old) ≡ Some (token.Word word (bare_text name)) }
        requires simple { machine.is_simple word ≡ true }
        ensures { Does (machine.folded_operator hint) self.old self.new body.old body.new }
    {
        let start = self.place();
        self.read_operator_at(body, word, name);
        self.push_level(body, Level::Operands, start, hint);
    }

    /// Reads a folded instruction after its `(`, by its word. Most instructions are simple, and are
    /// read at once.
    #[inline(always)]
    fn folded_word(&mut self, body: &mut Body<'a>, word: Word, name: &'a str, hint: Option<Hint>)
        requires { peek 0 (left self.old) ≡ Some (token.Word word (bare_text name)) }
        ensures { Does (machine.folded_operator hint) self.old self.new body.old body.new }
    {
        if is_simple(word) {
            self.operator_at(body, word, name, hint);
        } else {
            self.whole_operator(body, hint);
        }
    }

    /// Reads a folded instruction after its `(` (text format: folded instructions).
    #[inline(always)]
    fn folded_operator(&mut self, body: &mut Body<'a>, hint: Option<Hint>)
        ensures { Does (machine.folded_operator hint) self.old self.new body.old body.new }
    {
        match self.look(0) {
            Some(Token::Word(word, name)) => self.folded_word(body, word, name, hint),
            _ => self.whole_operator(body, hint),
        }
    }

    /// Reads what comes after `(` in the condition of an `if`.
    #[inline(never)]
    fn in_condition(&mut self, body: &mut Body<'a>, hint: Option<Hint>)
        ensures { Does (machine.in_condition hint) self.old self.new body.old body.new }
    {
        if self.is_key(0, Key::Then) {
            self.then_arm(body, hint);
        } else {
            self.folded_operator(body, hint);
        }
    }

    /// Reads what comes after `(` in an expression: an arm of an open `if` or `try`, if one has to
    /// come there, or a folded instruction. It is inlined, because one caller has no hint.
    #[inline(always)]
    fn opened(&mut self, body: &mut Body<'a>, hint: Option<Hint>)
        ensures { Does (machine.opened hint) self.old self.new body.old body.new }
    {
        match body.level() {
            Some(Level::Condition) => self.in_condition(body, hint),
            Some(Level::Then) => self.else_arm(body, hint),
            Some(Level::Try) => self.do_arm(body, hint),
            Some(Level::Do) => {
                self.no_hint(hint);
                self.first_handler(body);
            }
            Some(Level::Catch) => {
                self.no_hint(hint);
                self.next_handler(body);
            }
            Some(Level::Last | Level::Delegated) => self.expected("`)`"),
            _ => self.folded_operator(body, hint),
        }
    }

    /// Fails because a block has no `end`, at the position of the block.
    fn unclosed(&mut self, purpose: Purpose, place: Span)
        ensures { Refuses self.old self.new }
    {
        let fault = match purpose {
            Purpose::Body => TextFault::Expected("`end` of this block"),
            Purpose::Constant => TextFault::UnbalancedBlocks,
        };
        self.fail_at(place, fault);
    }

    /// Ends a level at its `)`.
    #[inline(always)]
    fn close_level(&mut self, body: &mut Body<'a>, last: Open, purpose: Purpose)
        ensures { Does (machine.close_level last) self.old self.new body.old body.new }
    {
        match last.level {
            Level::Operands => self.append_hinted_operator(body, last.hint),
            Level::Block | Level::Then | Level::Do | Level::Catch | Level::Last => {
                self.append(body, Instruction::end_(None));
            }
            Level::Condition => self.expected("`then`"),
            Level::Try => self.expected("`do`"),
            Level::Delegated | Level::Arm => {}
            Level::Plain | Level::PlainIf | Level::PlainTry | Level::PlainCatch => {
                self.unclosed(purpose, last.place);
            }
        }
    }

    /// Ends the level that `)` closes in an expression.
    #[inline(always)]
    fn closed(&mut self, body: &mut Body<'a>, hint: Option<Hint>, purpose: Purpose)
        ensures { Does (machine.closed hint) self.old self.new body.old body.new }
    {
        self.no_hint(hint);
        match body.levels.pop() {
            Some(open) => self.close_level(body, open, purpose),
            None => self.fail(TextFault::Unexpected("`)`")),
        }
    }

    /// Fails at a part of a block, such as `else`, that no open block takes.
    fn surplus(&mut self, purpose: Purpose, part: Part)
        ensures { Refuses self.old self.new }
    {
        match (purpose, part) {
            (Purpose::Constant, Part::End) => self.fail(TextFault::UnbalancedBlocks),
            _ => self.fail(TextFault::Unexpected(part.name())),
        }
    }

    /// Closes or changes the innermost block at one of its parts, such as `end` or `else`.
    fn part(&mut self, body: &mut Body<'a>, part: Part, purpose: Purpose)
        ensures { Does (machine.parted (in_rule part)) self.old self.new body.old body.new }
    {
        let next = match body.level() {
            Some(level) => part.after(level),
            None => None,
        };
        match next {
            Some(Some(level)) => self.replace_level(body, level),
            Some(None) => {
                let _closed = body.levels.pop();
            }
            None => self.surplus(purpose, part),
        }
    }

    /// Closes or changes the innermost block, if the next word is a part of a block.
    fn part_if_any(&mut self, body: &mut Body<'a>, purpose: Purpose)
        ensures { Does machine.parted_if_any self.old self.new body.old body.new }
    {
        if let Some(part) = self.part_in() {
            self.part(body, part, purpose);
        }
    }

    /// Reads an instruction without parentheses after its hint (text format: plain and block
    /// instructions).
    fn operator_word(&mut self, body: &mut Body<'a>, purpose: Purpose)
        ensures { Does machine.operator_word self.old self.new body.old body.new }
    {
        let place = self.place();
        match self.word(0) {
            Some(Word::Block(op)) => {
                self.read_instr(body);
                self.push_level(body, plain_level(op), place, None);
            }
            Some(_) => {
                self.part_if_any(body, purpose);
                self.read_instr(body);
            }
            None => self.fail(TextFault::Operator),
        }
    }

    /// Reads an instruction without parentheses (text format: plain and block instructions).
    fn plain(&mut self, body: &mut Body<'a>, hint: Option<Hint>, purpose: Purpose)
        ensures { Does (machine.plain hint) self.old self.new body.old body.new }
    {
        self.append_hint(body, hint);
        self.operator_word(body, purpose);
    }

    /// Fails at a token where only `(` or `)` may come.
    fn no_operator(&mut self, body: &Body<'a>)
        ensures { Refuses self.old self.new }
    {
        match body.level() {
            Some(Level::Condition | Level::Try) => self.expected("`(`"),
            Some(Level::Last | Level::Delegated) => self.expected("`)`"),
            _ => self.expected("`(` or `)`"),
        }
    }

    /// Does the next step of an expression after a branch hint, at a token that is not a
    /// parenthesis.
    fn other_step(&mut self, body: &mut Body<'a>, hint: Option<Hint>, purpose: Purpose)
        ensures { Does (machine.other hint) self.old self.new body.old body.new }
    {
        if body.takes_plain() {
            self.plain(body, hint, purpose);
        } else {
            self.no_operator(body);
        }
    }

    /// Does the next step of an expression after a branch hint.
    fn hinted_step(&mut self, body: &mut Body<'a>, hint: Option<Hint>, purpose: Purpose)
        ensures { Does (machine.hinted_step hint) self.old self.new body.old body.new }
    {
        match self.look(0) {
            Some(Token::Open) => {
                self.skip();
                self.opened(body, hint);
            }
            Some(Token::Close) => {
                self.skip();
                self.closed(body, hint, purpose);
            }
            Some(Token::Annotation(Annotation::BranchHint)) => self.second_hint(purpose),
            None if body.levels.is_empty() => self.no_hint(hint),
            _ => self.other_step(body, hint, purpose),
        }
    }

    /// Does the next step of an expression, at any token. It is not inlined, because most steps do
    /// not need it.
    #[inline(never)]
    fn whole_step(&mut self, body: &mut Body<'a>, purpose: Purpose)
        ensures { Does (machine.step (machine.may_hint purpose)) self.old self.new body.old body.new }
    {
        let hint = self.hint(purpose);
        self.hinted_step(body, hint, purpose);
    }

    /// Reads an instruction by its word, and appends it.
    fn read_instr_at(&mut self, body: &mut Body<'a>, word: Word, name: &'a str)
        requires { peek 0 (left self.old) ≡ Some (token.Word word (bare_text name)) }
        ensures { Does machine.read_instr self.old self.new body.old body.new }
    {
        self.worded(word, name, &mut body.instrs);
    }

    /// Does the next step of an expression, at a word. Most instructions are simple, and are read
    /// at once: they have no hint, and change nothing that is open.
    fn word_step(&mut self, body: &mut Body<'a>, word: Word, name: &'a str, purpose: Purpose)
        requires { peek 0 (left self.old) ≡ Some (token.Word word (bare_text name)) }
        ensures { Does (machine.step (machine.may_hint purpose)) self.old self.new body.old body.new }
    {
        if is_simple(word) && body.takes_plain() {
            self.read_instr_at(body, word, name);
        } else {
            self.whole_step(body, purpose);
        }
    }

    /// Does the next step of an expression, at a `(` without a branch hint before it.
    #[inline(never)]
    fn open_step(&mut self, body: &mut Body<'a>)
        requires { peek 0 (left self.old) ≡ Some token.Open }
        ensures { Does (machine.hinted_step None) self.old self.new body.old body.new }
    {
        self.skip();
        self.opened(body, None);
    }

    /// Does the next step of an expression, at a `)` without a branch hint before it.
    #[inline(never)]
    fn close_step(&mut self, body: &mut Body<'a>, purpose: Purpose)
        requires { peek 0 (left self.old) ≡ Some token.Close }
        ensures { Does (machine.hinted_step None) self.old self.new body.old body.new }
    {
        self.skip();
        self.closed(body, None, purpose);
    }

    /// Does the next step of an expression, at a token. Most tokens are words or parentheses, for
    /// which one look is enough.
    #[inline(always)]
    fn token_step(&mut self, body: &mut Body<'a>, next: Token<'a>, purpose: Purpose)
        requires { peek 0 (left self.old) ≡ Some (bare_token next) }
        ensures { Does (machine.step (machine.may_hint purpose)) self.old self.new body.old body.new }
    {
        match next {
            Token::Word(word, name) => self.word_step(body, word, name, purpose),
            Token::Open => self.open_step(body),
            Token::Close => self.close_step(body, purpose),
            _ => self.whole_step(body, purpose),
        }
    }

    /// Does the next step of an expression. It is inlined into the loops that call it.
    #[inline(always)]
    fn body_step(&mut self, body: &mut Body<'a>, purpose: Purpose)
        ensures { Does (machine.step (machine.may_hint purpose)) self.old self.new body.old body.new }
    {
        match self.look(0) {
            Some(next) => self.token_step(body, next, purpose),
            None => self.whole_step(body, purpose),
        }
    }

    /// Returns whether nothing is open, and the form or the text ends.
    fn is_done(&self, body: &Body<'a>) -> bool
        ensures { result ≡ machine.is_done (reverse body.now.levels.items) (left self.now) }
    {
        body.is_closed() && self.is_end()
    }

    /// Reads instructions up to the end of the form (text format: expressions).
    fn instructions(&mut self, purpose: Purpose) -> Expression<'a>
        ensures { Reads (expression_rule (machine.may_hint purpose)) self.old self.new (bare_expression result) }
    {
        let mut body = Body::new(self.alloc);
        for _ in 0..self.left() {
            if self.is_done(&body) {
                break;
            }
            self.body_step(&mut body, purpose);
        }
        let is_done = self.is_done(&body);
        self.end_body(&body, is_done, purpose);
        body.finish(self.alloc)
    }

    /// Reads the body of a function up to the end of the form (text format: functions).
    pub fn function_body(&mut self) -> Expression<'a>
        ensures { Reads (expression_rule true) self.old self.new (bare_expression result) }
    {
        self.instructions(Purpose::Body)
    }

    /// Reads a constant expression up to the end of the form (text format: expressions).
    pub fn expression(&mut self) -> Expression<'a>
        ensures { Reads (expression_rule false) self.old self.new (bare_expression result) }
    {
        self.instructions(Purpose::Constant)
    }

    /// Reads an expression of one folded instruction (text format: folded instructions).
    pub fn folded(&mut self) -> Expression<'a>
        ensures { Reads folded_expression self.old self.new (bare_expression result) }
    {
        let mut body = Body::new(self.alloc);
        self.open();
        self.folded_operator(&mut body, None);
        for _ in 0..self.left() {
            if body.is_closed() {
                break;
            }
            self.body_step(&mut body, Purpose::Constant);
        }
        self.end_body(&body, body.is_closed(), Purpose::Constant);
        body.finish(self.alloc)
    }

    /// Fails at what is open when no token is left.
    fn unfinished(&mut self, body: &Body<'a>, purpose: Purpose)
        ensures { Refuses self.old self.new }
    {
        match body.levels.last() {
            Some(
                Open {
                    level: Level::Plain | Level::PlainIf | Level::PlainTry | Level::PlainCatch,
                    place,
                    ..
                },
            ) => {
                let place = *place;
                self.unclosed(purpose, place);
            }
            _ => self.expected("`)`"),
        }
    }

    /// Fails if something is open. Each step takes a token, so no token is left then.
    fn end_body(&mut self, body: &Body<'a>, is_done: bool, purpose: Purpose)
        ensures { EndsExpression is_done self.old self.new }
    {
        if !is_done {
            self.unfinished(body, purpose);
        }
    }
}
