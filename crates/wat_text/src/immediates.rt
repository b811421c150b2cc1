//! Reads the immediates of instructions that need more than an index: memory arguments, labels,
//! casts and handlers (text format: instructions).

ghost use Rattle.std.specs.Prelude.{◌≡◌, true, List, [], ◌∷◌, ◌++◌, ℕ, option_map, map};
ghost use Rattle.std.specs.Borrow.{Bor};
ghost use Rattle.wat_tokens.specs.declared.words.Key.TheVariants as key;
ghost use Rattle.wat_tokens.specs.declared.words.OwnOp.TheVariants as own;
ghost use Rattle.wat_syntax.specs.Tokens.{peek, is_form};
ghost use Rattle.wat_syntax.specs.Instructions.{assignment, offset, align, memory_ordering, memarg, memarg_of, is_assigned, is_lane_alone};
ghost use Rattle.wat_syntax.specs.Instructions.{lane_memarg, struct_access, one_or_two, none_or_two, array_new_fixed, select, atomic_instr};
ghost use Rattle.wat_syntax.specs.Instructions.{atomic_of, br_table, callindirect, cast, handle, on, resumetable, own_instr};
ghost use Rattle.wat_syntax.specs.Instructions.{on_clauses as on_clauses_rule};
ghost use Rattle.wat_syntax.specs.Types.{indices};
ghost use Rattle.wat_text.specs.Readers.{left, Reads, Decides, Finds, ReadsOnto, Pushes};
ghost use Rattle.wat_syntax.specs.Bare.{bare_index, bare_indices};
ghost use Rattle.wat_syntax.specs.BareInstructions.{bare_access, bare_call, bare_cast, bare_handle, bare_instr};
ghost use Rattle.wat_syntax.specs.BareInstructions.{bare_mem_arg, bare_mem_lane, bare_resume_table, bare_two};

use crate::reader::Reader;
use wast_tree::{
    ArrayNewFixed, BrOnCast, BrOnCastDescEq, BrOnCastDescEqFail, BrOnCastFail, BrTableIndices,
    CallIndirect, Handle, Index, Instruction, LoadOrStoreLane, MemArg, MemArgOrdering,
    MemArgTarget, Ordered, Ordering, RefCast, RefCastDescEq, RefTest, Resume, ResumeTable,
    ResumeThrow, ResumeThrowRef, SelectTypes, Seq, StructAccess, TableArg,
};
use wat_tokens::{AtomicOp, Key, OwnOp, PairOp, TextFault, Token, Word, unsigned64};

impl<'a> Reader<'a> {
    /// Reads a word that begins with `name`, if one is next, and returns what comes after it. For
    /// example, with the name `offset=` the word `offset=4` has `4`.
    #[tactic(auto, using(crate::proofs::Prefixes::after_is, crate::proofs::Prefixes::after_not))]
    fn assigned(&mut self, name: &'static str) -> Option<&'a str>
        ensures { Finds (assignment name.now) self.old self.new (option_map (λ (text : Bor (List ℕ)). text.now) result) }
    {
        match self.look(0) {
            Some(Token::Other(text)) => {
                let value = text.strip_prefix(name)?;
                self.skip();
                Some(value)
            }
            _ => None,
        }
    }

    /// Reads `offset=4`, if it is next. Otherwise the offset is 0.
    #[tactic(auto, using(crate::proofs::Numbers::unsigned_is, crate::proofs::Numbers::unsigned_not))]
    fn offset(&mut self) -> u64
        ensures { Decides offset self.old self.new result }
    {
        let place = self.place();
        match self.assigned("offset=") {
            Some(text) => self.value(place, unsigned64(text), 0),
            None => 0,
        }
    }

    /// Reads `align=4`, if it is next. Otherwise it is the natural alignment. An alignment that is
    /// not a power of two is an error.
    #[tactic(auto, using(crate::proofs::Numbers::unsigned_is, crate::proofs::Numbers::unsigned_not))]
    fn align(&mut self, natural: u64) -> u64
        ensures { Decides (align natural) self.old self.new result }
    {
        let place = self.place();
        let Some(text) = self.assigned("align=") else {
            return natural;
        };
        let align = self.value(place, unsigned64(text), 1);
        if !align.is_power_of_two() {
            self.fail_at(place, TextFault::Alignment);
        }
        align
    }

    /// Reads `seq_cst` or `acq_rel`, if one of them is next, as `ordering` does, at any token.
    #[inline(never)]
    fn any_ordering(&mut self) -> Option<Ordering>
        ensures { Decides memory_ordering self.old self.new result }
    {
        if self.accept(Key::SeqCst) {
            return Some(Ordering::SeqCst);
        }
        if self.accept(Key::AcqRel) {
            return Some(Ordering::AcqRel);
        }
        None
    }

    /// Reads `seq_cst` or `acq_rel`, if one of them is next (shared-everything threads proposal). If
    /// no keyword is next, as in most memory arguments, one look is enough.
    fn ordering(&mut self) -> Option<Ordering>
        ensures { Decides memory_ordering self.old self.new result }
    {
        match self.key(0) {
            Some(_) => self.any_ordering(),
            None => None,
        }
    }

    /// Reads a memory argument such as `$m offset=4 align=4` (text format: memory instructions).
    /// `natural` is the alignment if none is written.
    pub fn mem_arg(&mut self, natural: u64) -> MemArg<'a>
        ensures { Decides (memarg natural) self.old self.new (bare_mem_arg result) }
    {
        let ordering = self.ordering().map(MemArgOrdering::Op);
        let memory = self.index_or_zero();
        self.mem_arg_of(natural, memory, ordering)
    }

    /// Reads the offset and the alignment of a memory argument, after its memory.
    fn mem_arg_of(
        &mut self,
        natural: u64,
        memory: Index<'a>,
        ordering: Option<MemArgOrdering>,
    ) -> MemArg<'a>
        ensures { Decides (memarg_of natural (bare_index memory.entry) ordering) self.old self.new (bare_mem_arg result) }
    {
        let offset = self.offset();
        let align = self.align(natural);
        MemArg {
            align,
            offset,
            target: MemArgTarget::Memory(memory),
            ordering,
        }
    }

    /// Returns whether the token after `ahead` others begins with `offset=` or `align=`.
    #[tactic(auto, using(crate::proofs::Prefixes::after_is, crate::proofs::Prefixes::after_not))]
    fn is_assigned(&self, ahead: usize) -> bool
        ensures { result ≡ is_assigned (peek ahead (left self.now)) }
    {
        match self.look(ahead) {
            Some(Token::Other(text)) => text.starts_with("offset=") || text.starts_with("align="),
            _ => false,
        }
    }

    /// Returns whether a number is next that is a lane and not a memory, as in
    /// `v128.load8_lane 1`.
    fn is_lane_alone(&self) -> bool
        ensures { result ≡ is_lane_alone (left self.now) }
    {
        self.is_number(0) && !self.is_number(1) && !self.is_assigned(1)
    }

    /// Reads a memory argument and a lane index (text format: vector instructions). A number alone
    /// is the lane. For example, `v128.load8_lane 0 1` has memory 0 and lane 1.
    pub fn load_or_store_lane(&mut self, natural: u64) -> LoadOrStoreLane<'a>
        ensures { Decides (lane_memarg natural) self.old self.new (bare_mem_lane result) }
    {
        let memarg = if self.is_lane_alone() {
            let place = self.place_before();
            MemArg::new(Index::Num(0, place), natural, 0)
        } else {
            self.mem_arg(natural)
        };
        let lane = self.lane_arg();
        LoadOrStoreLane { memarg, lane }
    }

    /// Reads the type and the field of an access to a struct, such as `$t $f` (text format:
    /// aggregate instructions).
    pub fn struct_access(&mut self) -> StructAccess<'a>
        ensures { Decides struct_access self.old self.new (bare_access result) }
    {
        let owner = self.index();
        let field = self.index();
        StructAccess { owner, field }
    }

    /// Reads an atomic access to a global, a table, a struct or an array, after its ordering.
    fn atomic_of(&mut self, op: AtomicOp, ordering: Ordering) -> Instruction<'a>
        ensures { Decides (atomic_of op ordering) self.old self.new (bare_instr result) }
    {
        match op {
            AtomicOp::Global => {
                let inner = self.index();
                Instruction::GlobalAtomic(Ordered { ordering, inner })
            }
            AtomicOp::Table => {
                let dst = self.index_or_zero();
                let inner = TableArg { dst };
                Instruction::TableAtomic(Ordered { ordering, inner })
            }
            AtomicOp::Struct => {
                let inner = self.struct_access();
                Instruction::StructAtomic(Ordered { ordering, inner })
            }
            AtomicOp::Array => {
                let inner = self.index();
                Instruction::ArrayAtomic(Ordered { ordering, inner })
            }
        }
    }

    /// Reads an atomic access to a global, a table, a struct or an array (shared-everything threads
    /// proposal). The ordering is `seq_cst` if none is written.
    pub fn atomic(&mut self, op: AtomicOp) -> Instruction<'a>
        ensures { Decides (atomic_instr op) self.old self.new (bare_instr result) }
    {
        match self.ordering() {
            Some(ordering) => self.atomic_of(op, ordering),
            None => self.atomic_of(op, Ordering::SeqCst),
        }
    }

    /// Reads labels after the first as long as one is next. Returns the last label of all, and
    /// appends the labels before it to the list.
    #[tactic(auto, using(crate::proofs::Labels::one_label, crate::proofs::Loops::part_end, crate::proofs::Loops::part_last, crate::proofs::Loops::none_after))]
    fn labels(&mut self, labels: &mut Seq<Index<'a>>, first: Index<'a>) -> Index<'a>
        ensures { ReadsOnto indices self.old self.new (bare_indices labels.old ++ bare_index first.entry ∷ []) (bare_indices labels.new ++ bare_index result ∷ []) }
    {
        let mut last = first;
        for _ in 0..self.left() {
            if !self.is_index(0) {
                break;
            }
            let index = self.index();
            self.push_index(labels, last);
            last = index;
        }
        last
    }

    /// Reads the labels of `br_table`, of which the last is the default (text format: control
    /// instructions).
    #[tactic(auto, using(crate::proofs::Labels::table_is))]
    fn br_table(&mut self) -> Instruction<'a>
        ensures { Reads br_table self.old self.new (bare_instr result) }
    {
        let mut labels = Seq::new(self.alloc);
        let first = self.index();
        let default = self.labels(&mut labels, first);
        Instruction::br_table(BrTableIndices { labels, default })
    }

    /// Reads the table and the type use of an indirect call, such as `$t (type 0)` (text format:
    /// control instructions). Without an index it is table 0.
    fn call_indirect(&mut self) -> CallIndirect<'a>
        ensures { Reads callindirect self.old self.new (bare_call result) }
    {
        let table = self.index_or_zero();
        let ty = self.type_use(false);
        CallIndirect { table, ty }
    }

    /// Reads the result types of `select`, if it has any, such as `(result i32)` (text format:
    /// parametric instructions).
    #[tactic(auto, using(crate::proofs::Loops::from_nothing))]
    fn select(&mut self) -> Instruction<'a>
        ensures { Reads select self.old self.new (bare_instr result) }
    {
        if !self.is_form(Key::Result) {
            return Instruction::select(SelectTypes { tys: None });
        }
        let mut values = Seq::new(self.alloc);
        self.all_results(&mut values);
        Instruction::select(SelectTypes { tys: Some(values) })
    }

    /// Reads two indices. One alone is the second, and the first is 0, at the position of the token
    /// before. For example, `memory.init $d` is `memory.init 0 $d`.
    pub fn one_or_two(&mut self) -> (Index<'a>, Index<'a>)
        ensures { Decides one_or_two self.old self.new (bare_two result) }
    {
        let place = self.place_before();
        let first = self.index();
        match self.optional_index() {
            Some(second) => (first, second),
            None => (Index::Num(0, place), first),
        }
    }

    /// Reads two indices, or none. Without any, both are 0, at the position of the token before.
    /// For example, `memory.copy` is `memory.copy 0 0`.
    pub fn none_or_two(&mut self) -> (Index<'a>, Index<'a>)
        ensures { Decides none_or_two self.old self.new (bare_two result) }
    {
        let place = self.place_before();
        match self.optional_index() {
            Some(first) => (first, self.index()),
            None => (Index::Num(0, place), Index::Num(0, place)),
        }
    }

    /// Reads the tag of a handler, and its label or `switch` (stack switching proposal).
    fn handle(&mut self) -> Handle<'a>
        ensures { Decides handle self.old self.new (bare_handle result) }
    {
        let tag = self.index();
        if let Some(Word::Pair(PairOp::switch)) = self.word(0) {
            self.skip();
            return Handle::OnSwitch { tag };
        }
        let label = self.index();
        Handle::OnLabel { tag, label }
    }

    /// Reads `(on $tag $label)` or `(on $tag switch)`.
    fn on_clause(&mut self) -> Handle<'a>
        requires { is_form key.On (left self.old) ≡ true }
        ensures { Decides on self.old self.new (bare_handle result) }
    {
        self.skip();
        self.skip();
        let handle = self.handle();
        self.close();
        handle
    }

    /// Appends a handler to a list.
    fn push_handle(&mut self, handlers: &mut Seq<Handle<'a>>, handle: Handle<'a>)
        ensures { Pushes self.old self.new handle.entry handlers.old handlers.new }
    {
        let pushed = handlers.push(handle);
        self.took(pushed);
    }

    /// Reads forms `(on ..)` as long as one is next, and appends the handlers.
    #[tactic(auto, using(crate::proofs::Steps::one_bare, crate::proofs::Loops::part_end, crate::proofs::Loops::part_last, crate::proofs::Loops::none_after))]
    fn on_clauses(&mut self, handlers: &mut Seq<Handle<'a>>)
        ensures { ReadsOnto on_clauses_rule self.old self.new (map bare_handle handlers.old) (map bare_handle handlers.new) }
    {
        for _ in 0..self.left() {
            if !self.is_form(Key::On) {
                break;
            }
            let handle = self.on_clause();
            self.push_handle(handlers, handle);
        }
    }

    /// Reads the handlers of a `resume` instruction (stack switching proposal).
    #[tactic(auto, using(crate::proofs::Loops::from_nothing))]
    fn resume_table(&mut self) -> ResumeTable<'a>
        ensures { Reads resumetable self.old self.new (bare_resume_table result) }
    {
        let mut handlers = Seq::new(self.alloc);
        self.on_clauses(&mut handlers);
        ResumeTable { handlers }
    }

    /// Reads the type and the length of `array.new_fixed` (text format: aggregate instructions).
    fn array_new_fixed(&mut self) -> Instruction<'a>
        ensures { Decides array_new_fixed self.old self.new (bare_instr result) }
    {
        let array = self.index();
        let length = self.number32();
        Instruction::array_new_fixed(ArrayNewFixed { array, length })
    }

    /// Reads the label and the two types of a branch by a cast, such as `$l anyref eqref` (text
    /// format: control instructions).
    fn cast(&mut self) -> BrOnCast<'a>
        ensures { Decides cast self.old self.new (bare_cast result) }
    {
        let label = self.index();
        let from_type = self.ref_type();
        let to_type = self.ref_type();
        BrOnCast {
            label,
            from_type,
            to_type,
        }
    }

    /// Reads the immediates of `br_on_cast`.
    #[tactic(auto, using(crate::proofs::Makes::none_failed), unfolding(crate::specs::Readers::left))]
    fn br_on_cast(&mut self) -> Instruction<'a>
        ensures { Reads (own_instr own.br_on_cast) self.old self.new (bare_instr result) }
    {
        let cast = self.cast();
        self.make.br_on_cast(cast)
    }

    /// Reads the immediates of `br_on_cast_fail`.
    #[tactic(auto, using(crate::proofs::Makes::none_failed), unfolding(crate::specs::Readers::left))]
    fn br_on_cast_fail(&mut self) -> Instruction<'a>
        ensures { Reads (own_instr own.br_on_cast_fail) self.old self.new (bare_instr result) }
    {
        let BrOnCast {
            label,
            from_type,
            to_type,
        } = self.cast();
        self.make.br_on_cast_fail(BrOnCastFail {
            label,
            from_type,
            to_type,
        })
    }

    /// Reads the immediates of `br_on_cast_desc_eq` (custom descriptors proposal).
    #[tactic(auto, using(crate::proofs::Makes::none_failed), unfolding(crate::specs::Readers::left))]
    fn br_on_cast_desc_eq(&mut self) -> Instruction<'a>
        ensures { Reads (own_instr own.br_on_cast_desc_eq) self.old self.new (bare_instr result) }
    {
        let BrOnCast {
            label,
            from_type,
            to_type,
        } = self.cast();
        self.make.br_on_cast_desc_eq(BrOnCastDescEq {
            label,
            from_type,
            to_type,
        })
    }

    /// Reads the immediates of `br_on_cast_desc_eq_fail` (custom descriptors proposal).
    #[tactic(auto, using(crate::proofs::Makes::none_failed), unfolding(crate::specs::Readers::left))]
    fn br_on_cast_desc_eq_fail(&mut self) -> Instruction<'a>
        ensures { Reads (own_instr own.br_on_cast_desc_eq_fail) self.old self.new (bare_instr result) }
    {
        let BrOnCast {
            label,
            from_type,
            to_type,
        } = self.cast();
        self.make.br_on_cast_desc_eq_fail(BrOnCastDescEqFail {
            label,
            from_type,
            to_type,
        })
    }

    /// Reads the immediates of `resume` (stack switching proposal).
    fn resume(&mut self) -> Instruction<'a>
        ensures { Reads (own_instr own.resume) self.old self.new (bare_instr result) }
    {
        let type_index = self.index();
        let table = self.resume_table();
        Instruction::resume(Resume { type_index, table })
    }

    /// Reads the immediates of `resume_throw` (stack switching proposal).
    #[tactic(auto, using(crate::proofs::Makes::none_failed), unfolding(crate::specs::Readers::left))]
    fn resume_throw(&mut self) -> Instruction<'a>
        ensures { Reads (own_instr own.resume_throw) self.old self.new (bare_instr result) }
    {
        let type_index = self.index();
        let tag_index = self.index();
        let table = self.resume_table();
        self.make.resume_throw(ResumeThrow {
            type_index,
            tag_index,
            table,
        })
    }

    /// Reads the immediates of `resume_throw_ref` (stack switching proposal).
    fn resume_throw_ref(&mut self) -> Instruction<'a>
        ensures { Reads (own_instr own.resume_throw_ref) self.old self.new (bare_instr result) }
    {
        let type_index = self.index();
        let table = self.resume_table();
        Instruction::resume_throw_ref(ResumeThrowRef { type_index, table })
    }

    /// Reads the immediates of `call_indirect`.
    #[tactic(auto, using(crate::proofs::Makes::none_failed), unfolding(crate::specs::Readers::left))]
    fn indirect_call(&mut self) -> Instruction<'a>
        ensures { Reads (own_instr own.call_indirect) self.old self.new (bare_instr result) }
    {
        let call = self.call_indirect();
        self.make.call_indirect(call)
    }

    /// Reads the immediates of `return_call_indirect`.
    #[tactic(auto, using(crate::proofs::Makes::none_failed), unfolding(crate::specs::Readers::left))]
    fn return_indirect_call(&mut self) -> Instruction<'a>
        ensures { Reads (own_instr own.return_call_indirect) self.old self.new (bare_instr result) }
    {
        let call = self.call_indirect();
        self.make.return_call_indirect(call)
    }

    /// Reads the immediates of an instruction that has its own kind of them, such as `br_table` or
    /// `ref.null`, and returns the instruction (text format: instructions).
    pub fn own(&mut self, op: OwnOp) -> Instruction<'a>
        ensures { Reads (own_instr op) self.old self.new (bare_instr result) }
    {
        match op {
            OwnOp::else_ => Instruction::else_(self.id()),
            OwnOp::end_ => Instruction::end_(self.id()),
            OwnOp::br_table => self.br_table(),
            OwnOp::call_indirect => self.indirect_call(),
            OwnOp::return_call_indirect => self.return_indirect_call(),
            OwnOp::select => self.select(),
            OwnOp::resume => self.resume(),
            OwnOp::resume_throw => self.resume_throw(),
            OwnOp::resume_throw_ref => self.resume_throw_ref(),
            OwnOp::br_on_cast => self.br_on_cast(),
            OwnOp::br_on_cast_fail => self.br_on_cast_fail(),
            OwnOp::br_on_cast_desc_eq => self.br_on_cast_desc_eq(),
            OwnOp::br_on_cast_desc_eq_fail => self.br_on_cast_desc_eq_fail(),
            OwnOp::i32_const => Instruction::i32_const(self.integer32()),
            OwnOp::i64_const => Instruction::i64_const(self.integer64()),
            OwnOp::f32_const => Instruction::f32_const(self.single()),
            OwnOp::f64_const => Instruction::f64_const(self.double()),
            OwnOp::v128_const => Instruction::v128_const(self.vector()),
            OwnOp::i8x16_shuffle => self.shuffle(),
            OwnOp::atomic_fence => Instruction::atomic_fence(self.ordering()),
            OwnOp::ref_null => Instruction::ref_null(self.heap_type()),
            OwnOp::ref_test => Instruction::ref_test(RefTest {
                rt: self.ref_type(),
            }),
            OwnOp::ref_cast => Instruction::ref_cast(RefCast {
                rt: self.ref_type(),
            }),
            OwnOp::ref_cast_desc_eq => Instruction::ref_cast_desc_eq(RefCastDescEq {
                rt: self.ref_type(),
            }),
            OwnOp::array_new_fixed => self.array_new_fixed(),
        }
    }
}
