//! The words of the text format. `tools/ops` writes this file.

ghost use Rattle.std.specs.Prelude.{◌≡◌, ◌<◌, ◌≤◌, ◌-◌};
ghost use Rattle.wat_tokens.specs.Buckets.{first_word_of, word_at, start_of, text_of, rows, letter, hash_of};
ghost use Rattle.wat_tokens.specs.Words.{alignment_bytes, found_in, op_of, word_named};

use wast_base::{
    AnyOp, ArrayOp, BareOp, ExternOp, F32Op, F32x4Op, F64Op, F64x2Op, I8x16Op, I16x8Op, I31Op,
    I32Op, I32x4Op, I64Op, I64x2Op, IndexOp, LaneOp, MemLaneOp, MemOp, Plain, RefOp, V128Op,
};

/// A word that means something of its own (text format, keywords).
///
/// For example, `i32.add` is a `Plain`, `func` is a `Key`, and `i32.sum` is none.
#[derive(Clone, Copy)]
pub enum Word {
    /// An instruction that has no immediate.
    Plain(Plain),
    /// One with a memory argument, and what it is aligned to where the text says nothing.
    Mem(MemOp, Alignment),
    /// One on a lane of a vector.
    Lane(LaneOp),
    /// A load or a store of a lane, and what it is aligned to where the text says nothing.
    MemLane(MemLaneOp, Alignment),
    /// One with an index.
    Index(IndexOp),
    /// One with an index that may be left out.
    IndexOrZero(IndexOrZeroOp),
    /// One with an index, of a form that no encoder covers.
    Uncovered(UncoveredOp),
    /// The same with an index that may be left out.
    UncoveredOrZero(UncoveredOp),
    /// One with two indices.
    Pair(PairOp),
    /// One with two indices, of which the first may be left out.
    OneOrTwo(PairOp),
    /// One with two indices, which may be left out together.
    NoneOrTwo(PairOp),
    /// One that opens a block.
    Block(BlockOp),
    /// One with immediates of its own.
    Own(OwnOp),
    /// One with an ordering and what is accessed.
    Atomic(AtomicOp),
    /// One that no encoder knows.
    Beyond,
    /// A word that is no instruction.
    Key(Key),
}

/// A power of two that a memory access is aligned to, such as the 4 bytes of `i32.load`.
#[allow(non_camel_case_types)]
#[derive(Clone, Copy)]
pub enum Alignment {
    /// 1 byte.
    One,
    /// 2 bytes.
    Two,
    /// 4 bytes.
    Four,
    /// 8 bytes.
    Eight,
    /// 16 bytes.
    Sixteen,
}

/// An instruction with an index that may be left out, as in `memory.size`.
#[allow(non_camel_case_types)]
#[derive(Clone, Copy)]
pub enum IndexOrZeroOp {
    /// `table.get`
    table_get,
    /// `table.set`
    table_set,
    /// `memory.size`
    memory_size,
    /// `memory.grow`
    memory_grow,
    /// `memory.fill`
    memory_fill,
    /// `table.grow`
    table_grow,
    /// `table.size`
    table_size,
    /// `table.fill`
    table_fill,
}

/// An instruction with an index, of a form that no encoder covers, as in `suspend 0`.
#[allow(non_camel_case_types)]
#[derive(Clone, Copy)]
pub enum UncoveredOp {
    /// `struct.new_desc`
    struct_new_desc,
    /// `struct.new_default_desc`
    struct_new_default_desc,
    /// `ref.get_desc`
    ref_get_desc,
    /// `cont.new`
    cont_new,
    /// `suspend`
    suspend,
    /// `memory.discard`
    memory_discard,
}

/// An instruction with two indices, as in `struct.get 0 1`.
#[allow(non_camel_case_types)]
#[derive(Clone, Copy)]
pub enum PairOp {
    /// `struct.get`
    struct_get,
    /// `struct.get_s`
    struct_get_s,
    /// `struct.get_u`
    struct_get_u,
    /// `struct.set`
    struct_set,
    /// `array.new_data`
    array_new_data,
    /// `array.new_elem`
    array_new_elem,
    /// `array.copy`
    array_copy,
    /// `array.init_data`
    array_init_data,
    /// `array.init_elem`
    array_init_elem,
    /// `memory.init`
    memory_init,
    /// `memory.copy`
    memory_copy,
    /// `table.init`
    table_init,
    /// `table.copy`
    table_copy,
    /// `cont.bind`
    cont_bind,
    /// `switch`
    switch,
}

/// An instruction that opens a block, such as `loop`.
#[allow(non_camel_case_types)]
#[derive(Clone, Copy)]
pub enum BlockOp {
    /// `block`
    block,
    /// `loop`
    loop_,
    /// `if`
    if_,
    /// `try`
    try_,
    /// `try_table`
    try_table,
}

/// An instruction with immediates of its own, as in `br_table 0 1`.
#[allow(non_camel_case_types)]
#[derive(Clone, Copy)]
pub enum OwnOp {
    /// `else`
    else_,
    /// `end`
    end_,
    /// `br_table`
    br_table,
    /// `call_indirect`
    call_indirect,
    /// `return_call_indirect`
    return_call_indirect,
    /// `select`
    select,
    /// `i32.const`
    i32_const,
    /// `i64.const`
    i64_const,
    /// `f32.const`
    f32_const,
    /// `f64.const`
    f64_const,
    /// `ref.null`
    ref_null,
    /// `array.new_fixed`
    array_new_fixed,
    /// `ref.test`
    ref_test,
    /// `ref.cast`
    ref_cast,
    /// `br_on_cast`
    br_on_cast,
    /// `br_on_cast_fail`
    br_on_cast_fail,
    /// `v128.const`
    v128_const,
    /// `i8x16.shuffle`
    i8x16_shuffle,
    /// `atomic.fence`
    atomic_fence,
    /// `resume`
    resume,
    /// `resume_throw`
    resume_throw,
    /// `resume_throw_ref`
    resume_throw_ref,
    /// `br_on_cast_desc_eq`
    br_on_cast_desc_eq,
    /// `br_on_cast_desc_eq_fail`
    br_on_cast_desc_eq_fail,
    /// `ref.cast_desc_eq`
    ref_cast_desc_eq,
}

/// What an atomic instruction accesses, where that is no memory: a global for `global.atomic.get`.
#[allow(non_camel_case_types)]
#[derive(Clone, Copy)]
pub enum AtomicOp {
    /// A global.
    Global,
    /// A table.
    Table,
    /// A struct.
    Struct,
    /// An array.
    Array,
}

/// A word that is no instruction, such as `func`.
#[allow(non_camel_case_types)]
#[derive(Clone, Copy, PartialEq, Eq)]
pub enum Key {
    /// `module`
    Module,
    /// `binary`
    Binary,
    /// `quote`
    Quote,
    /// `type`
    Ty,
    /// `rec`
    Rec,
    /// `sub`
    Sub,
    /// `final`
    Final,
    /// `shared`
    Shared,
    /// `descriptor`
    Descriptor,
    /// `describes`
    Describes,
    /// `exact`
    Exact,
    /// `func`
    Func,
    /// `struct`
    Struct,
    /// `array`
    Array,
    /// `cont`
    Cont,
    /// `field`
    Field,
    /// `mut`
    Mut,
    /// `param`
    Param,
    /// `result`
    Result,
    /// `local`
    Local,
    /// `import`
    Import,
    /// `export`
    Export,
    /// `table`
    Table,
    /// `memory`
    Memory,
    /// `global`
    Global,
    /// `tag`
    Tag,
    /// `elem`
    Elem,
    /// `data`
    Data,
    /// `start`
    Start,
    /// `item`
    Item,
    /// `offset`
    Offset,
    /// `declare`
    Declare,
    /// `then`
    Then,
    /// `do`
    Do,
    /// `on`
    On,
    /// `catch_ref`
    CatchRef,
    /// `catch_all_ref`
    CatchAllRef,
    /// `pagesize`
    Pagesize,
    /// `before`
    Before,
    /// `after`
    After,
    /// `first`
    First,
    /// `last`
    Last,
    /// `code`
    Code,
    /// `i8`
    I8,
    /// `i16`
    I16,
    /// `i32`
    I32,
    /// `i64`
    I64,
    /// `f32`
    F32,
    /// `f64`
    F64,
    /// `v128`
    V128,
    /// `i8x16`
    I8x16,
    /// `i16x8`
    I16x8,
    /// `i32x4`
    I32x4,
    /// `i64x2`
    I64x2,
    /// `f32x4`
    F32x4,
    /// `f64x2`
    F64x2,
    /// `ref`
    Ref,
    /// `null`
    Null,
    /// `extern`
    Extern,
    /// `exn`
    Exn,
    /// `noexn`
    Noexn,
    /// `any`
    Any,
    /// `eq`
    Eq,
    /// `nofunc`
    Nofunc,
    /// `noextern`
    Noextern,
    /// `none`
    None,
    /// `i31`
    I31,
    /// `nocont`
    Nocont,
    /// `funcref`
    Funcref,
    /// `externref`
    Externref,
    /// `exnref`
    Exnref,
    /// `anyref`
    Anyref,
    /// `eqref`
    Eqref,
    /// `structref`
    Structref,
    /// `arrayref`
    Arrayref,
    /// `i31ref`
    I31ref,
    /// `nullref`
    Nullref,
    /// `nullfuncref`
    Nullfuncref,
    /// `nullexternref`
    Nullexternref,
    /// `nullexnref`
    Nullexnref,
    /// `contref`
    Contref,
    /// `nullcontref`
    Nullcontref,
    /// `seq_cst`
    SeqCst,
    /// `acq_rel`
    AcqRel,
    /// `language`
    Language,
    /// `sdk`
    Sdk,
    /// `processed-by`
    ProcessedBy,
    /// `mem-info`
    MemInfo,
    /// `needed`
    Needed,
    /// `export-info`
    ExportInfo,
    /// `import-info`
    ImportInfo,
    /// `runtime-path`
    RuntimePath,
    /// `target-arch`
    TargetArch,
    /// `binding-weak`
    BindingWeak,
    /// `binding-local`
    BindingLocal,
    /// `visibility-hidden`
    VisibilityHidden,
    /// `undefined`
    Undefined,
    /// `exported`
    Exported,
    /// `explicit-name`
    ExplicitName,
    /// `no-strip`
    NoStrip,
    /// `tls`
    Tls,
    /// `absolute`
    Absolute,
}

impl Alignment {
    /// Returns how many bytes it is. It takes no memory.
    ///
    /// For example, `Alignment::Four.bytes()` is 4.
    pub fn bytes(self) -> u64
        ensures { result ≡ alignment_bytes self }
    {
        match self {
            Alignment::One => 1,
            Alignment::Two => 2,
            Alignment::Four => 4,
            Alignment::Eight => 8,
            Alignment::Sixteen => 16,
        }
    }
}

impl IndexOrZeroOp {
    /// Returns the instruction as one whose index is written. It takes no memory.
    ///
    /// For example, `table.get` is `IndexOp::TableGet`, because `table.get` alone means `table.get 0`.
    pub fn op(self) -> IndexOp
        ensures { result ≡ op_of self }
    {
        match self {
            IndexOrZeroOp::table_get => IndexOp::TableGet,
            IndexOrZeroOp::table_set => IndexOp::TableSet,
            IndexOrZeroOp::memory_size => IndexOp::MemorySize,
            IndexOrZeroOp::memory_grow => IndexOp::MemoryGrow,
            IndexOrZeroOp::memory_fill => IndexOp::MemoryFill,
            IndexOrZeroOp::table_grow => IndexOp::TableGrow,
            IndexOrZeroOp::table_size => IndexOp::TableSize,
            IndexOrZeroOp::table_fill => IndexOp::TableFill,
        }
    }
}

/// Where the words of each bucket begin in `WORDS`.
static FIRSTS: [u16; 1025] = [
    0, 0, 1, 4, 4, 4, 5, 6, 8, 9, 9, 10, 11, 11, 13, 13, 13, 14, 16, 16, 16, 18, 18, 18, 22, 24,
    25, 25, 26, 27, 28, 28, 30, 30, 32, 33, 33, 33, 33, 33, 33, 33, 34, 35, 36, 37, 38, 38, 39, 39,
    40, 41, 42, 42, 43, 43, 45, 45, 46, 46, 47, 50, 51, 52, 53, 56, 56, 56, 57, 57, 57, 58, 58, 62,
    63, 63, 63, 63, 63, 63, 63, 65, 67, 68, 68, 68, 69, 69, 69, 73, 73, 73, 74, 74, 74, 74, 74, 75,
    77, 77, 77, 77, 77, 77, 77, 77, 78, 78, 79, 81, 81, 81, 81, 81, 81, 82, 83, 84, 84, 84, 90, 90,
    93, 93, 94, 96, 97, 97, 97, 98, 98, 100, 100, 100, 102, 103, 104, 104, 107, 107, 108, 108, 108,
    108, 108, 109, 111, 111, 111, 113, 114, 115, 116, 118, 120, 121, 122, 124, 124, 126, 128, 128,
    129, 129, 130, 130, 131, 132, 132, 135, 136, 136, 136, 138, 138, 138, 138, 139, 139, 139, 139,
    139, 140, 140, 140, 140, 141, 143, 143, 143, 143, 143, 143, 143, 143, 143, 143, 144, 144, 144,
    146, 146, 146, 147, 147, 149, 150, 150, 151, 152, 153, 154, 154, 154, 156, 156, 156, 156, 156,
    157, 159, 160, 160, 160, 160, 160, 160, 160, 164, 164, 164, 164, 165, 166, 168, 168, 170, 172,
    172, 173, 173, 173, 175, 175, 175, 175, 175, 176, 179, 180, 180, 182, 184, 185, 185, 185, 185,
    187, 187, 188, 190, 192, 194, 194, 195, 195, 196, 196, 196, 197, 199, 199, 199, 200, 203, 203,
    203, 204, 204, 204, 204, 204, 204, 204, 205, 205, 205, 205, 207, 209, 209, 211, 213, 214, 214,
    214, 215, 216, 216, 216, 216, 216, 217, 217, 218, 218, 218, 219, 222, 222, 222, 225, 225, 226,
    226, 226, 226, 226, 226, 226, 227, 229, 230, 232, 232, 233, 233, 233, 233, 234, 234, 235, 236,
    236, 236, 238, 238, 241, 242, 242, 243, 243, 243, 243, 244, 244, 244, 244, 245, 245, 245, 245,
    246, 246, 249, 249, 250, 251, 253, 253, 255, 256, 257, 257, 258, 258, 258, 260, 261, 261, 261,
    262, 263, 263, 264, 264, 264, 266, 266, 266, 267, 268, 269, 270, 270, 272, 273, 275, 275, 275,
    275, 276, 277, 277, 278, 281, 282, 282, 282, 285, 285, 285, 285, 286, 286, 286, 286, 286, 286,
    287, 287, 288, 291, 292, 292, 292, 292, 293, 293, 293, 293, 294, 294, 294, 296, 297, 297, 297,
    297, 297, 297, 301, 303, 304, 306, 307, 307, 307, 309, 309, 313, 313, 313, 313, 314, 314, 315,
    317, 318, 320, 321, 323, 325, 325, 326, 326, 326, 327, 328, 328, 330, 330, 331, 333, 333, 333,
    333, 334, 334, 335, 335, 335, 336, 337, 337, 337, 340, 340, 340, 340, 342, 342, 345, 345, 346,
    348, 349, 350, 350, 351, 351, 352, 353, 354, 354, 357, 359, 359, 359, 359, 361, 361, 361, 361,
    363, 364, 367, 367, 369, 369, 371, 372, 372, 373, 375, 375, 375, 375, 375, 376, 380, 380, 382,
    383, 386, 387, 387, 387, 387, 388, 388, 389, 389, 389, 391, 393, 393, 394, 396, 398, 398, 399,
    401, 403, 404, 404, 404, 405, 406, 406, 406, 409, 410, 412, 412, 412, 413, 414, 418, 419, 419,
    420, 421, 421, 421, 421, 425, 425, 426, 426, 429, 429, 430, 430, 430, 431, 432, 433, 433, 434,
    434, 434, 436, 436, 437, 437, 437, 437, 439, 439, 439, 439, 439, 439, 440, 442, 443, 443, 444,
    444, 445, 445, 447, 447, 447, 447, 447, 447, 447, 448, 449, 453, 453, 453, 455, 456, 456, 456,
    456, 456, 457, 459, 459, 460, 462, 462, 462, 462, 464, 465, 465, 465, 465, 465, 465, 466, 467,
    467, 468, 469, 469, 469, 469, 469, 469, 469, 469, 470, 472, 473, 473, 473, 473, 473, 474, 474,
    474, 474, 475, 475, 475, 475, 476, 478, 478, 478, 480, 481, 481, 481, 481, 481, 482, 482, 483,
    483, 485, 486, 486, 486, 486, 486, 487, 487, 487, 487, 489, 490, 492, 493, 493, 495, 495, 495,
    496, 499, 499, 501, 502, 503, 503, 504, 504, 505, 505, 505, 506, 508, 509, 511, 512, 513, 514,
    515, 515, 515, 516, 517, 517, 518, 518, 518, 520, 521, 521, 523, 524, 527, 528, 530, 530, 531,
    531, 532, 533, 534, 534, 534, 538, 539, 541, 542, 543, 543, 545, 545, 546, 548, 548, 548, 551,
    551, 552, 552, 553, 554, 556, 557, 558, 558, 559, 559, 559, 559, 559, 559, 559, 560, 560, 560,
    560, 560, 560, 560, 560, 561, 561, 561, 561, 561, 561, 562, 567, 567, 567, 567, 568, 568, 568,
    571, 571, 572, 573, 577, 577, 577, 577, 578, 578, 579, 581, 581, 581, 581, 584, 584, 586, 586,
    587, 589, 589, 589, 589, 589, 589, 589, 590, 590, 591, 592, 592, 592, 594, 595, 595, 597, 597,
    597, 597, 597, 597, 598, 598, 600, 601, 601, 603, 604, 604, 606, 608, 609, 609, 610, 610, 610,
    613, 613, 614, 614, 615, 615, 615, 615, 615, 615, 615, 615, 616, 620, 620, 620, 620, 620, 621,
    622, 623, 623, 624, 624, 625, 625, 625, 627, 628, 628, 628, 629, 629, 629, 631, 631, 633, 635,
    635, 635, 636, 636, 636, 636, 636, 636, 636, 638, 640, 642, 642, 643, 644, 644, 644, 648, 650,
    651, 653, 653, 655, 655, 655, 655, 655, 655, 655, 655, 655, 656, 656, 656, 659, 659, 660, 662,
    662, 663, 663, 664, 664, 664, 665, 665, 666, 666, 666, 667, 667, 668, 668, 668, 669, 669, 669,
    670, 670, 671, 671, 671, 674, 676, 676, 678, 678, 678, 678, 679, 679, 679, 679, 680, 682, 683,
    683, 683, 686, 688, 689, 689, 689, 689, 690, 690, 690, 691, 695, 695, 696, 697, 700, 700, 700,
    700, 701, 703, 704, 704, 704, 704, 704, 705, 705, 705, 706, 706, 707, 707, 707, 708, 708, 708,
    710, 710, 711, 711, 711, 712, 713, 715, 715, 715, 715, 717, 717, 717, 717, 719, 719, 719, 720,
    722, 722, 723, 723, 724, 724, 724, 724,
];

/// The words, bucket after bucket.
static WORDS: [Word; 724] = [
    Word::Mem(MemOp::v128_load8x8_u, Alignment::Eight),
    Word::Plain(Plain::I8x16(I8x16Op::i8x16_lt_s)),
    Word::Plain(Plain::I8x16(I8x16Op::i8x16_gt_s)),
    Word::Plain(Plain::F64x2(F64x2Op::f64x2_pmin)),
    Word::Key(Key::Ty),
    Word::Plain(Plain::I64(I64Op::i64_trunc_sat_f64_u)),
    Word::Plain(Plain::I32x4(I32x4Op::i32x4_le_u)),
    Word::Plain(Plain::I32x4(I32x4Op::i32x4_ge_u)),
    Word::Plain(Plain::I64x2(I64x2Op::i64x2_shl)),
    Word::Plain(Plain::I64(I64Op::i64_trunc_f32_s)),
    Word::Key(Key::V128),
    Word::Mem(MemOp::i32_store8, Alignment::One),
    Word::Plain(Plain::I32x4(I32x4Op::i32x4_extadd_pairwise_i16x8_s)),
    Word::Mem(MemOp::i64_atomic_load8_u, Alignment::One),
    Word::Mem(MemOp::i32_atomic_rmw8_add_u, Alignment::One),
    Word::Mem(MemOp::i32_atomic_rmw8_and_u, Alignment::One),
    Word::Plain(Plain::I64(I64Op::i64_extend16_s)),
    Word::Key(Key::Sdk),
    Word::Plain(Plain::I32(I32Op::i32_sub)),
    Word::Plain(Plain::F32(F32Op::f32_sub)),
    Word::Plain(Plain::I32x4(I32x4Op::i32x4_trunc_sat_f64x2_s_zero)),
    Word::Plain(Plain::I32x4(I32x4Op::i32x4_trunc_sat_f64x2_u_zero)),
    Word::Index(IndexOp::StructNewDefault),
    Word::Key(Key::Undefined),
    Word::Plain(Plain::I32(I32Op::i32_or)),
    Word::Plain(Plain::V128(V128Op::v128_and)),
    Word::Pair(PairOp::array_new_elem),
    Word::IndexOrZero(IndexOrZeroOp::table_grow),
    Word::Plain(Plain::I32x4(I32x4Op::i32x4_extend_low_i16x8_s)),
    Word::Plain(Plain::I32x4(I32x4Op::i32x4_extmul_low_i16x8_s)),
    Word::Plain(Plain::F32(F32Op::f32_neg)),
    Word::Plain(Plain::F32(F32Op::f32_ceil)),
    Word::Index(IndexOp::ArrayFill),
    Word::Plain(Plain::F32x4(F32x4Op::f32x4_demote_f64x2_zero)),
    Word::Mem(MemOp::i64_atomic_rmw_sub, Alignment::Eight),
    Word::Key(Key::Declare),
    Word::Mem(MemOp::i64_atomic_rmw_or, Alignment::Eight),
    Word::Plain(Plain::I16x8(I16x8Op::i16x8_sub)),
    Word::Own(OwnOp::v128_const),
    Word::Key(Key::SeqCst),
    Word::Own(OwnOp::br_on_cast),
    Word::Plain(Plain::F32(F32Op::f32_nearest)),
    Word::Mem(MemOp::i32_atomic_load16_u, Alignment::Two),
    Word::Plain(Plain::I16x8(I16x8Op::i16x8_neg)),
    Word::Mem(MemOp::i32_atomic_rmw16_cmpxchg_u, Alignment::Two),
    Word::Plain(Plain::I32(I32Op::i32_trunc_f64_s)),
    Word::Key(Key::Table),
    Word::Plain(Plain::I64(I64Op::i64_add)),
    Word::Plain(Plain::I64(I64Op::i64_and)),
    Word::Plain(Plain::F64(F64Op::f64_add)),
    Word::Plain(Plain::I32(I32Op::i32_trunc_f32_u)),
    Word::Atomic(AtomicOp::Global),
    Word::Plain(Plain::V128(V128Op::v128_xor)),
    Word::Index(IndexOp::GlobalSet),
    Word::Atomic(AtomicOp::Global),
    Word::Key(Key::Extern),
    Word::Plain(Plain::F32(F32Op::f32_floor)),
    Word::Index(IndexOp::Br),
    Word::Mem(MemOp::i64_atomic_rmw16_add_u, Alignment::Two),
    Word::Mem(MemOp::i64_atomic_rmw32_add_u, Alignment::Four),
    Word::Mem(MemOp::i64_atomic_rmw16_and_u, Alignment::Two),
    Word::Mem(MemOp::i64_atomic_rmw32_and_u, Alignment::Four),
    Word::Key(Key::First),
    Word::Own(OwnOp::i64_const),
    Word::Own(OwnOp::f64_const),
    Word::Plain(Plain::F32(F32Op::f32_sqrt)),
    Word::Mem(MemOp::memory_atomic_notify, Alignment::Four),
    Word::Plain(Plain::I64(I64Op::i64_rem_u)),
    Word::Plain(Plain::I32x4(I32x4Op::i32x4_max_u)),
    Word::Plain(Plain::I64(I64Op::i64_ne)),
    Word::Plain(Plain::F64(F64Op::f64_ne)),
    Word::Plain(Plain::F64(F64Op::f64_le)),
    Word::Plain(Plain::F64(F64Op::f64_ge)),
    Word::Plain(Plain::I16x8(I16x8Op::i16x8_min_s)),
    Word::Plain(Plain::I64(I64Op::i64_xor)),
    Word::Mem(MemOp::v128_store, Alignment::Sixteen),
    Word::Key(Key::BindingWeak),
    Word::Index(IndexOp::ReturnCall),
    Word::Index(IndexOp::LocalGet),
    Word::Plain(Plain::I64(I64Op::i64_mul)),
    Word::Plain(Plain::F64(F64Op::f64_mul)),
    Word::Key(Key::On),
    Word::Mem(MemOp::i32_atomic_rmw_cmpxchg, Alignment::Four),
    Word::Plain(Plain::I64(I64Op::i64_extend_i32_u)),
    Word::Lane(LaneOp::i32x4_extract_lane),
    Word::Lane(LaneOp::i32x4_replace_lane),
    Word::Lane(LaneOp::f32x4_extract_lane),
    Word::Lane(LaneOp::f32x4_replace_lane),
    Word::Key(Key::I32x4),
    Word::Key(Key::F32x4),
    Word::Mem(MemOp::v128_load16_splat, Alignment::Two),
    Word::Mem(MemOp::v128_load32_splat, Alignment::Four),
    Word::Mem(MemOp::v128_load64_splat, Alignment::Eight),
    Word::Plain(Plain::F32x4(F32x4Op::f32x4_relaxed_min)),
    Word::Plain(Plain::F64x2(F64x2Op::f64x2_eq)),
    Word::Plain(Plain::I64x2(I64x2Op::i64x2_eq)),
    Word::Key(Key::TargetArch),
    Word::Mem(MemOp::i64_atomic_rmw8_xchg_u, Alignment::One),
    Word::Mem(MemOp::i64_store, Alignment::Eight),
    Word::Mem(MemOp::f64_store, Alignment::Eight),
    Word::Key(Key::Nullfuncref),
    Word::Key(Key::Nullcontref),
    Word::Plain(Plain::I64(I64Op::i64_shr_s)),
    Word::Mem(MemOp::i32_store16, Alignment::Two),
    Word::Plain(Plain::Ref(RefOp::ref_is_null)),
    Word::Plain(Plain::I32x4(I32x4Op::i32x4_extend_high_i16x8_u)),
    Word::Plain(Plain::I32x4(I32x4Op::i32x4_extmul_high_i16x8_u)),
    Word::Key(Key::Describes),
    Word::Plain(Plain::F64x2(F64x2Op::f64x2_max)),
    Word::Plain(Plain::F32x4(F32x4Op::f32x4_convert_i32x4_u)),
    Word::Key(Key::BindingLocal),
    Word::Plain(Plain::I64(I64Op::i64_lt_u)),
    Word::Plain(Plain::I64(I64Op::i64_gt_u)),
    Word::Plain(Plain::F32(F32Op::f32_convert_i32_s)),
    Word::Atomic(AtomicOp::Struct),
    Word::Own(OwnOp::ref_test),
    Word::Pair(PairOp::struct_set),
    Word::Atomic(AtomicOp::Struct),
    Word::Own(OwnOp::ref_cast_desc_eq),
    Word::Key(Key::Mut),
    Word::Mem(MemOp::i64_atomic_store32, Alignment::Four),
    Word::Pair(PairOp::cont_bind),
    Word::Mem(MemOp::i64_atomic_load, Alignment::Eight),
    Word::Key(Key::Then),
    Word::Plain(Plain::I64x2(I64x2Op::i64x2_abs)),
    Word::Plain(Plain::F64x2(F64x2Op::f64x2_abs)),
    Word::Plain(Plain::F32(F32Op::f32_min)),
    Word::MemLane(MemLaneOp::v128_load8_lane, Alignment::One),
    Word::Index(IndexOp::DataDrop),
    Word::Plain(Plain::F32x4(F32x4Op::f32x4_relaxed_nmadd)),
    Word::Key(Key::NoStrip),
    Word::Key(Key::Offset),
    Word::Plain(Plain::I64(I64Op::i64_le_s)),
    Word::Plain(Plain::I64(I64Op::i64_ge_s)),
    Word::Plain(Plain::I64x2(I64x2Op::i64x2_all_true)),
    Word::Key(Key::I16x8),
    Word::Plain(Plain::I64x2(I64x2Op::i64x2_splat)),
    Word::Plain(Plain::F64x2(F64x2Op::f64x2_splat)),
    Word::Plain(Plain::I8x16(I8x16Op::i8x16_popcnt)),
    Word::Plain(Plain::I31(I31Op::i31_get_s)),
    Word::Plain(Plain::I32(I32Op::i32_shr_u)),
    Word::Plain(Plain::F64x2(F64x2Op::f64x2_lt)),
    Word::Plain(Plain::F64x2(F64x2Op::f64x2_gt)),
    Word::Key(Key::I8),
    Word::Plain(Plain::I32x4(I32x4Op::i32x4_add)),
    Word::Plain(Plain::F32x4(F32x4Op::f32x4_add)),
    Word::Block(BlockOp::if_),
    Word::Mem(MemOp::i64_atomic_rmw8_or_u, Alignment::One),
    Word::Uncovered(UncoveredOp::struct_new_desc),
    Word::Lane(LaneOp::i16x8_extract_lane_u),
    Word::Plain(Plain::I16x8(I16x8Op::i16x8_shr_u)),
    Word::Own(OwnOp::br_on_cast_fail),
    Word::Plain(Plain::I32x4(I32x4Op::i32x4_relaxed_laneselect)),
    Word::Plain(Plain::I64(I64Op::i64_rotl)),
    Word::Key(Key::CatchAllRef),
    Word::Key(Key::Eqref),
    Word::Plain(Plain::F64(F64Op::f64_convert_i64_u)),
    Word::Plain(Plain::I32(I32Op::i32_le_u)),
    Word::Plain(Plain::I32(I32Op::i32_ge_u)),
    Word::Plain(Plain::I64(I64Op::i64_shl)),
    Word::Plain(Plain::I32x4(I32x4Op::i32x4_ne)),
    Word::Plain(Plain::F32x4(F32x4Op::f32x4_ne)),
    Word::Plain(Plain::F32x4(F32x4Op::f32x4_le)),
    Word::Plain(Plain::F32x4(F32x4Op::f32x4_ge)),
    Word::Index(IndexOp::CallRef),
    Word::Mem(MemOp::i64_load16_s, Alignment::Two),
    Word::Plain(Plain::I32(I32Op::i32_wrap_i64)),
    Word::Plain(Plain::I32x4(I32x4Op::i32x4_trunc_sat_f32x4_s)),
    Word::Uncovered(UncoveredOp::cont_new),
    Word::Key(Key::Contref),
    Word::Plain(Plain::I64x2(I64x2Op::i64x2_lt_s)),
    Word::Plain(Plain::I64x2(I64x2Op::i64x2_gt_s)),
    Word::Plain(Plain::Bare(BareOp::drop)),
    Word::Plain(Plain::I16x8(I16x8Op::i16x8_le_u)),
    Word::Plain(Plain::I16x8(I16x8Op::i16x8_ge_u)),
    Word::Mem(MemOp::i64_load8_u, Alignment::One),
    Word::Plain(Plain::I32(I32Op::i32_reinterpret_f32)),
    Word::Plain(Plain::I32x4(I32x4Op::i32x4_mul)),
    Word::Plain(Plain::F32x4(F32x4Op::f32x4_mul)),
    Word::Plain(Plain::I64(I64Op::i64_eqz)),
    Word::Plain(Plain::I64(I64Op::i64_div_u)),
    Word::Plain(Plain::I8x16(I8x16Op::i8x16_sub)),
    Word::Plain(Plain::I16x8(I16x8Op::i16x8_extadd_pairwise_i8x16_u)),
    Word::Mem(MemOp::i32_atomic_store, Alignment::Four),
    Word::Index(IndexOp::Throw),
    Word::Beyond,
    Word::Key(Key::ExplicitName),
    Word::Index(IndexOp::BrOnNull),
    Word::Plain(Plain::V128(V128Op::v128_not)),
    Word::Plain(Plain::I16x8(I16x8Op::i16x8_relaxed_q15mulr_s)),
    Word::Plain(Plain::I8x16(I8x16Op::i8x16_neg)),
    Word::Atomic(AtomicOp::Array),
    Word::Plain(Plain::I32x4(I32x4Op::i32x4_bitmask)),
    Word::Plain(Plain::I32x4(I32x4Op::i32x4_dot_i16x8_s)),
    Word::Key(Key::RuntimePath),
    Word::Key(Key::Binary),
    Word::Key(Key::F64),
    Word::Plain(Plain::I16x8(I16x8Op::i16x8_extend_low_i8x16_u)),
    Word::Plain(Plain::I16x8(I16x8Op::i16x8_extmul_low_i8x16_u)),
    Word::Key(Key::Struct),
    Word::Plain(Plain::I16x8(I16x8Op::i16x8_narrow_i32x4_s)),
    Word::Plain(Plain::I32x4(I32x4Op::i32x4_shr_s)),
    Word::Uncovered(UncoveredOp::suspend),
    Word::Plain(Plain::F64x2(F64x2Op::f64x2_div)),
    Word::Mem(MemOp::i32_load16_u, Alignment::Two),
    Word::Plain(Plain::I32x4(I32x4Op::i32x4_lt_u)),
    Word::Plain(Plain::I32x4(I32x4Op::i32x4_gt_u)),
    Word::Plain(Plain::I64x2(I64x2Op::i64x2_extend_low_i32x4_s)),
    Word::Plain(Plain::I64x2(I64x2Op::i64x2_extmul_low_i32x4_s)),
    Word::Index(IndexOp::ArrayNew),
    Word::Key(Key::Arrayref),
    Word::Mem(MemOp::v128_load16x4_s, Alignment::Eight),
    Word::Key(Key::Local),
    Word::Key(Key::Tls),
    Word::Mem(MemOp::v128_load32x2_u, Alignment::Eight),
    Word::Plain(Plain::I8x16(I8x16Op::i8x16_min_s)),
    Word::Mem(MemOp::v128_load8x8_s, Alignment::Eight),
    Word::Plain(Plain::F32(F32Op::f32_reinterpret_i32)),
    Word::Plain(Plain::I64(I64Op::i64_trunc_sat_f64_s)),
    Word::Plain(Plain::I32x4(I32x4Op::i32x4_le_s)),
    Word::Plain(Plain::I32x4(I32x4Op::i32x4_ge_s)),
    Word::Key(Key::Tag),
    Word::Plain(Plain::Extern(ExternOp::extern_convert_any)),
    Word::Plain(Plain::I64(I64Op::i64_trunc_sat_f32_u)),
    Word::Mem(MemOp::i64_atomic_load32_u, Alignment::Four),
    Word::Own(OwnOp::br_table),
    Word::Plain(Plain::I16x8(I16x8Op::i16x8_max_u)),
    Word::Plain(Plain::F64(F64Op::f64_promote_f32)),
    Word::Plain(Plain::F64x2(F64x2Op::f64x2_relaxed_max)),
    Word::Mem(MemOp::i32_atomic_rmw8_sub_u, Alignment::One),
    Word::Pair(PairOp::array_init_data),
    Word::Mem(MemOp::i64_atomic_rmw8_cmpxchg_u, Alignment::One),
    Word::Key(Key::I64),
    Word::Own(OwnOp::i8x16_shuffle),
    Word::Plain(Plain::F64x2(F64x2Op::f64x2_trunc)),
    Word::Index(IndexOp::LocalSet),
    Word::Plain(Plain::I64(I64Op::i64_rotr)),
    Word::Plain(Plain::I64(I64Op::i64_extend8_s)),
    Word::Plain(Plain::I64(I64Op::i64_eq)),
    Word::Plain(Plain::F64(F64Op::f64_eq)),
    Word::Key(Key::ProcessedBy),
    Word::Pair(PairOp::switch),
    Word::Plain(Plain::I16x8(I16x8Op::i16x8_relaxed_dot_i8x16_i7x16_s)),
    Word::Mem(MemOp::i32_atomic_rmw16_xor_u, Alignment::Two),
    Word::Plain(Plain::V128(V128Op::v128_any_true)),
    Word::Key(Key::Quote),
    Word::Mem(MemOp::v128_load, Alignment::Sixteen),
    Word::Lane(LaneOp::i16x8_replace_lane),
    Word::Plain(Plain::F32x4(F32x4Op::f32x4_pmin)),
    Word::Key(Key::Needed),
    Word::Plain(Plain::F64(F64Op::f64_max)),
    Word::Plain(Plain::I32(I32Op::i32_trunc_sat_f64_u)),
    Word::Key(Key::Func),
    Word::Plain(Plain::I32x4(I32x4Op::i32x4_shl)),
    Word::Key(Key::Do),
    Word::Plain(Plain::I8x16(I8x16Op::i8x16_swizzle)),
    Word::Plain(Plain::I32(I32Op::i32_trunc_f32_s)),
    Word::Own(OwnOp::select),
    Word::Atomic(AtomicOp::Array),
    Word::Atomic(AtomicOp::Array),
    Word::Mem(MemOp::i32_atomic_load8_u, Alignment::One),
    Word::Plain(Plain::F64(F64Op::f64_abs)),
    Word::Plain(Plain::I32(I32Op::i32_extend16_s)),
    Word::Own(OwnOp::resume_throw),
    Word::Mem(MemOp::i64_atomic_rmw16_sub_u, Alignment::Two),
    Word::Mem(MemOp::i64_atomic_rmw32_sub_u, Alignment::Four),
    Word::Plain(Plain::I16x8(I16x8Op::i16x8_q15mulr_sat_s)),
    Word::Uncovered(UncoveredOp::struct_new_default_desc),
    Word::Index(IndexOp::LocalTee),
    Word::Plain(Plain::I64(I64Op::i64_rem_s)),
    Word::Mem(MemOp::i64_store32, Alignment::Four),
    Word::Own(OwnOp::br_on_cast_desc_eq_fail),
    Word::Plain(Plain::I32x4(I32x4Op::i32x4_max_s)),
    Word::Mem(MemOp::i64_load, Alignment::Eight),
    Word::Mem(MemOp::f64_load, Alignment::Eight),
    Word::Key(Key::Exact),
    Word::Index(IndexOp::Rethrow),
    Word::Mem(MemOp::i32_atomic_rmw_sub, Alignment::Four),
    Word::Plain(Plain::I64x2(I64x2Op::i64x2_extend_high_i32x4_u)),
    Word::Plain(Plain::I64x2(I64x2Op::i64x2_extmul_high_i32x4_u)),
    Word::Plain(Plain::F64x2(F64x2Op::f64x2_convert_low_i32x4_u)),
    Word::Mem(MemOp::i32_atomic_rmw_or, Alignment::Four),
    Word::Plain(Plain::F64(F64Op::f64_lt)),
    Word::Plain(Plain::F64(F64Op::f64_gt)),
    Word::Plain(Plain::F64(F64Op::f64_copysign)),
    Word::Atomic(AtomicOp::Array),
    Word::Plain(Plain::Array(ArrayOp::array_len)),
    Word::Lane(LaneOp::i8x16_extract_lane_u),
    Word::Plain(Plain::I32(I32Op::i32_add)),
    Word::Plain(Plain::I32(I32Op::i32_and)),
    Word::Plain(Plain::F32(F32Op::f32_add)),
    Word::Plain(Plain::I8x16(I8x16Op::i8x16_shr_u)),
    Word::Plain(Plain::I64(I64Op::i64_extend_i32_s)),
    Word::Key(Key::After),
    Word::Mem(MemOp::i32_atomic_rmw16_add_u, Alignment::Two),
    Word::Mem(MemOp::i32_atomic_rmw16_and_u, Alignment::Two),
    Word::Index(IndexOp::BrIf),
    Word::Plain(Plain::I64(I64Op::i64_trunc_f64_u)),
    Word::Plain(Plain::F64x2(F64x2Op::f64x2_relaxed_madd)),
    Word::Mem(MemOp::i64_atomic_rmw_add, Alignment::Eight),
    Word::Mem(MemOp::i64_atomic_rmw_and, Alignment::Eight),
    Word::Own(OwnOp::i32_const),
    Word::Own(OwnOp::f32_const),
    Word::Atomic(AtomicOp::Struct),
    Word::Plain(Plain::I32(I32Op::i32_rem_u)),
    Word::Plain(Plain::I16x8(I16x8Op::i16x8_add)),
    Word::Pair(PairOp::array_init_elem),
    Word::Plain(Plain::I32x4(I32x4Op::i32x4_extend_high_i16x8_s)),
    Word::Plain(Plain::I32x4(I32x4Op::i32x4_extmul_high_i16x8_s)),
    Word::Plain(Plain::I32(I32Op::i32_ne)),
    Word::Plain(Plain::F32(F32Op::f32_ne)),
    Word::Plain(Plain::F32(F32Op::f32_le)),
    Word::Plain(Plain::F32(F32Op::f32_ge)),
    Word::Plain(Plain::I16x8(I16x8Op::i16x8_relaxed_laneselect)),
    Word::Plain(Plain::F32x4(F32x4Op::f32x4_convert_i32x4_s)),
    Word::Plain(Plain::I8x16(I8x16Op::i8x16_le_u)),
    Word::Plain(Plain::I8x16(I8x16Op::i8x16_ge_u)),
    Word::Plain(Plain::I32(I32Op::i32_xor)),
    Word::Plain(Plain::I64(I64Op::i64_lt_s)),
    Word::Plain(Plain::I64(I64Op::i64_gt_s)),
    Word::Index(IndexOp::Delegate),
    Word::Atomic(AtomicOp::Global),
    Word::Atomic(AtomicOp::Global),
    Word::IndexOrZero(IndexOrZeroOp::memory_size),
    Word::Beyond,
    Word::Plain(Plain::V128(V128Op::v128_andnot)),
    Word::Mem(MemOp::i64_atomic_store8, Alignment::One),
    Word::Index(IndexOp::Catch),
    Word::Plain(Plain::I32(I32Op::i32_mul)),
    Word::Plain(Plain::F32(F32Op::f32_mul)),
    Word::Plain(Plain::I16x8(I16x8Op::i16x8_ne)),
    Word::Index(IndexOp::StructNew),
    Word::Key(Key::Structref),
    Word::Mem(MemOp::i64_atomic_rmw_xor, Alignment::Eight),
    Word::Own(OwnOp::br_on_cast_desc_eq),
    Word::Atomic(AtomicOp::Table),
    Word::Own(OwnOp::array_new_fixed),
    Word::Plain(Plain::I32x4(I32x4Op::i32x4_eq)),
    Word::Plain(Plain::F32x4(F32x4Op::f32x4_eq)),
    Word::UncoveredOrZero(UncoveredOp::memory_discard),
    Word::Plain(Plain::V128(V128Op::v128_bitselect)),
    Word::Mem(MemOp::i32_atomic_rmw8_xchg_u, Alignment::One),
    Word::Mem(MemOp::i32_store, Alignment::Four),
    Word::Mem(MemOp::f32_store, Alignment::Four),
    Word::Plain(Plain::I16x8(I16x8Op::i16x8_mul)),
    Word::Plain(Plain::Ref(RefOp::ref_i31)),
    Word::Plain(Plain::I64x2(I64x2Op::i64x2_sub)),
    Word::Plain(Plain::F64x2(F64x2Op::f64x2_sub)),
    Word::Plain(Plain::I32(I32Op::i32_shr_s)),
    Word::Atomic(AtomicOp::Global),
    Word::Plain(Plain::F64(F64Op::f64_div)),
    Word::Index(IndexOp::ArrayGetU),
    Word::Atomic(AtomicOp::Table),
    Word::Own(OwnOp::end_),
    Word::Plain(Plain::F64x2(F64x2Op::f64x2_ceil)),
    Word::Plain(Plain::I64x2(I64x2Op::i64x2_neg)),
    Word::Plain(Plain::F64x2(F64x2Op::f64x2_neg)),
    Word::Plain(Plain::I16x8(I16x8Op::i16x8_bitmask)),
    Word::Plain(Plain::F32x4(F32x4Op::f32x4_max)),
    Word::Plain(Plain::I32(I32Op::i32_lt_u)),
    Word::Plain(Plain::I32(I32Op::i32_gt_u)),
    Word::Plain(Plain::I16x8(I16x8Op::i16x8_add_sat_u)),
    Word::Plain(Plain::I16x8(I16x8Op::i16x8_sub_sat_u)),
    Word::Block(BlockOp::block),
    Word::Lane(LaneOp::i16x8_extract_lane_s),
    Word::Mem(MemOp::v128_load32_zero, Alignment::Four),
    Word::Mem(MemOp::v128_load64_zero, Alignment::Eight),
    Word::Plain(Plain::I16x8(I16x8Op::i16x8_shr_s)),
    Word::Mem(MemOp::i32_atomic_load, Alignment::Four),
    Word::Plain(Plain::I32x4(I32x4Op::i32x4_abs)),
    Word::Plain(Plain::F32x4(F32x4Op::f32x4_abs)),
    Word::Key(Key::Any),
    Word::Plain(Plain::F64x2(F64x2Op::f64x2_nearest)),
    Word::OneOrTwo(PairOp::memory_init),
    Word::IndexOrZero(IndexOrZeroOp::table_size),
    Word::Plain(Plain::F64(F64Op::f64_convert_i64_s)),
    Word::Plain(Plain::I32(I32Op::i32_le_s)),
    Word::Plain(Plain::I32(I32Op::i32_ge_s)),
    Word::Plain(Plain::I32x4(I32x4Op::i32x4_all_true)),
    Word::Key(Key::Descriptor),
    Word::Plain(Plain::I16x8(I16x8Op::i16x8_lt_u)),
    Word::Plain(Plain::I16x8(I16x8Op::i16x8_gt_u)),
    Word::Plain(Plain::F64(F64Op::f64_convert_i32_u)),
    Word::Plain(Plain::I32x4(I32x4Op::i32x4_splat)),
    Word::Plain(Plain::F32x4(F32x4Op::f32x4_splat)),
    Word::Key(Key::Param),
    Word::Plain(Plain::I8x16(I8x16Op::i8x16_max_u)),
    Word::Plain(Plain::F64x2(F64x2Op::f64x2_floor)),
    Word::Atomic(AtomicOp::Array),
    Word::Block(BlockOp::loop_),
    Word::Plain(Plain::I32x4(I32x4Op::i32x4_relaxed_trunc_f32x4_u)),
    Word::Mem(MemOp::i64_atomic_rmw16_xchg_u, Alignment::Two),
    Word::Mem(MemOp::i64_atomic_rmw32_xchg_u, Alignment::Four),
    Word::Plain(Plain::I8x16(I8x16Op::i8x16_relaxed_swizzle)),
    Word::Plain(Plain::F32x4(F32x4Op::f32x4_lt)),
    Word::Plain(Plain::F32x4(F32x4Op::f32x4_gt)),
    Word::Atomic(AtomicOp::Struct),
    Word::Atomic(AtomicOp::Struct),
    Word::Mem(MemOp::i64_load32_u, Alignment::Four),
    Word::Plain(Plain::I16x8(I16x8Op::i16x8_le_s)),
    Word::Plain(Plain::I16x8(I16x8Op::i16x8_ge_s)),
    Word::Plain(Plain::F64(F64Op::f64_trunc)),
    Word::Plain(Plain::F64x2(F64x2Op::f64x2_sqrt)),
    Word::Key(Key::Null),
    Word::Mem(MemOp::i64_load8_s, Alignment::One),
    Word::Key(Key::Module),
    Word::Plain(Plain::I64(I64Op::i64_div_s)),
    Word::Plain(Plain::F64x2(F64x2Op::f64x2_pmax)),
    Word::Atomic(AtomicOp::Array),
    Word::Plain(Plain::I16x8(I16x8Op::i16x8_extadd_pairwise_i8x16_s)),
    Word::Plain(Plain::I64(I64Op::i64_clz)),
    Word::Plain(Plain::I64(I64Op::i64_ctz)),
    Word::Mem(MemOp::i32_atomic_rmw8_or_u, Alignment::One),
    Word::Beyond,
    Word::Index(IndexOp::ReturnCallRef),
    Word::Key(Key::Funcref),
    Word::Key(Key::Nullref),
    Word::Key(Key::MemInfo),
    Word::Lane(LaneOp::i8x16_replace_lane),
    Word::Atomic(AtomicOp::Array),
    Word::Plain(Plain::I32(I32Op::i32_rotl)),
    Word::MemLane(MemLaneOp::v128_load16_lane, Alignment::Two),
    Word::MemLane(MemLaneOp::v128_load32_lane, Alignment::Four),
    Word::MemLane(MemLaneOp::v128_load64_lane, Alignment::Eight),
    Word::MemLane(MemLaneOp::v128_store8_lane, Alignment::One),
    Word::Mem(MemOp::memory_atomic_wait64, Alignment::Eight),
    Word::Plain(Plain::F32(F32Op::f32_convert_i64_u)),
    Word::Plain(Plain::I16x8(I16x8Op::i16x8_extend_low_i8x16_s)),
    Word::Plain(Plain::I16x8(I16x8Op::i16x8_extmul_low_i8x16_s)),
    Word::Plain(Plain::I32(I32Op::i32_shl)),
    Word::Atomic(AtomicOp::Struct),
    Word::OneOrTwo(PairOp::table_init),
    Word::Key(Key::ExportInfo),
    Word::Mem(MemOp::i64_atomic_store16, Alignment::Two),
    Word::Plain(Plain::I32x4(I32x4Op::i32x4_min_u)),
    Word::Key(Key::Before),
    Word::Mem(MemOp::i32_load16_s, Alignment::Two),
    Word::Plain(Plain::I32x4(I32x4Op::i32x4_lt_s)),
    Word::Plain(Plain::I32x4(I32x4Op::i32x4_gt_s)),
    Word::Plain(Plain::I16x8(I16x8Op::i16x8_shl)),
    Word::Plain(Plain::I8x16(I8x16Op::i8x16_narrow_i16x8_u)),
    Word::Mem(MemOp::i64_atomic_rmw_xchg, Alignment::Eight),
    Word::Mem(MemOp::v128_load32x2_s, Alignment::Eight),
    Word::Mem(MemOp::i32_load8_u, Alignment::One),
    Word::Plain(Plain::I32(I32Op::i32_eqz)),
    Word::Own(OwnOp::call_indirect),
    Word::Plain(Plain::I32(I32Op::i32_div_u)),
    Word::Key(Key::Exported),
    Word::Key(Key::I16),
    Word::Plain(Plain::I64(I64Op::i64_trunc_sat_f32_s)),
    Word::Mem(MemOp::i64_atomic_rmw16_or_u, Alignment::Two),
    Word::Mem(MemOp::i64_atomic_rmw32_or_u, Alignment::Four),
    Word::Mem(MemOp::i64_atomic_rmw8_xor_u, Alignment::One),
    Word::Plain(Plain::I16x8(I16x8Op::i16x8_avgr_u)),
    Word::Key(Key::I31),
    Word::Atomic(AtomicOp::Global),
    Word::Plain(Plain::I16x8(I16x8Op::i16x8_max_s)),
    Word::Plain(Plain::I64(I64Op::i64_reinterpret_f64)),
    Word::Plain(Plain::F64x2(F64x2Op::f64x2_min)),
    Word::Plain(Plain::I64(I64Op::i64_popcnt)),
    Word::Plain(Plain::I32x4(I32x4Op::i32x4_relaxed_trunc_f64x2_s_zero)),
    Word::Plain(Plain::I32x4(I32x4Op::i32x4_relaxed_trunc_f64x2_u_zero)),
    Word::Plain(Plain::F32x4(F32x4Op::f32x4_div)),
    Word::Key(Key::Last),
    Word::Plain(Plain::I64(I64Op::i64_extend32_s)),
    Word::Atomic(AtomicOp::Global),
    Word::NoneOrTwo(PairOp::memory_copy),
    Word::Key(Key::CatchRef),
    Word::Plain(Plain::I8x16(I8x16Op::i8x16_add)),
    Word::Plain(Plain::I64x2(I64x2Op::i64x2_shr_u)),
    Word::Key(Key::Code),
    Word::Key(Key::None),
    Word::Plain(Plain::I8x16(I8x16Op::i8x16_relaxed_laneselect)),
    Word::Key(Key::Memory),
    Word::Plain(Plain::I32(I32Op::i32_trunc_sat_f64_s)),
    Word::Plain(Plain::I32(I32Op::i32_trunc_sat_f32_u)),
    Word::Pair(PairOp::struct_get_u),
    Word::Key(Key::Item),
    Word::Plain(Plain::V128(V128Op::v128_or)),
    Word::Atomic(AtomicOp::Table),
    Word::Plain(Plain::I8x16(I8x16Op::i8x16_ne)),
    Word::Plain(Plain::F32x4(F32x4Op::f32x4_relaxed_max)),
    Word::Mem(MemOp::i32_atomic_rmw8_cmpxchg_u, Alignment::One),
    Word::Plain(Plain::I16x8(I16x8Op::i16x8_extend_high_i8x16_u)),
    Word::Plain(Plain::I16x8(I16x8Op::i16x8_extmul_high_i8x16_u)),
    Word::Plain(Plain::F64(F64Op::f64_reinterpret_i64)),
    Word::Plain(Plain::F32x4(F32x4Op::f32x4_trunc)),
    Word::Plain(Plain::I32(I32Op::i32_rotr)),
    Word::Plain(Plain::I32(I32Op::i32_extend8_s)),
    Word::Mem(MemOp::i64_store8, Alignment::One),
    Word::Plain(Plain::I32(I32Op::i32_eq)),
    Word::Plain(Plain::F32(F32Op::f32_eq)),
    Word::Key(Key::Global),
    Word::Mem(MemOp::i64_atomic_rmw8_add_u, Alignment::One),
    Word::Mem(MemOp::i64_atomic_rmw8_and_u, Alignment::One),
    Word::Own(OwnOp::resume),
    Word::Plain(Plain::I64x2(I64x2Op::i64x2_extend_high_i32x4_s)),
    Word::Plain(Plain::I64x2(I64x2Op::i64x2_extmul_high_i32x4_s)),
    Word::Plain(Plain::F64x2(F64x2Op::f64x2_convert_low_i32x4_s)),
    Word::Plain(Plain::I64(I64Op::i64_sub)),
    Word::Plain(Plain::F64(F64Op::f64_sub)),
    Word::NoneOrTwo(PairOp::table_copy),
    Word::Plain(Plain::I64(I64Op::i64_or)),
    Word::Plain(Plain::I8x16(I8x16Op::i8x16_bitmask)),
    Word::Atomic(AtomicOp::Struct),
    Word::Key(Key::I31ref),
    Word::Plain(Plain::F64(F64Op::f64_neg)),
    Word::Plain(Plain::F64(F64Op::f64_ceil)),
    Word::Plain(Plain::F32(F32Op::f32_max)),
    Word::Plain(Plain::I8x16(I8x16Op::i8x16_add_sat_u)),
    Word::Plain(Plain::I8x16(I8x16Op::i8x16_sub_sat_u)),
    Word::Plain(Plain::I16x8(I16x8Op::i16x8_eq)),
    Word::Lane(LaneOp::i8x16_extract_lane_s),
    Word::Key(Key::Noexn),
    Word::Plain(Plain::I8x16(I8x16Op::i8x16_shr_s)),
    Word::Atomic(AtomicOp::Table),
    Word::Key(Key::Export),
    Word::Block(BlockOp::try_table),
    Word::IndexOrZero(IndexOrZeroOp::table_get),
    Word::Plain(Plain::F32(F32Op::f32_abs)),
    Word::Atomic(AtomicOp::Struct),
    Word::Plain(Plain::F64(F64Op::f64_nearest)),
    Word::Atomic(AtomicOp::Array),
    Word::Key(Key::Pagesize),
    Word::Plain(Plain::I8x16(I8x16Op::i8x16_lt_u)),
    Word::Plain(Plain::I8x16(I8x16Op::i8x16_gt_u)),
    Word::Mem(MemOp::i64_atomic_load16_u, Alignment::Two),
    Word::Mem(MemOp::i32_atomic_rmw16_sub_u, Alignment::Two),
    Word::Mem(MemOp::i64_atomic_rmw16_cmpxchg_u, Alignment::Two),
    Word::Mem(MemOp::i64_atomic_rmw32_cmpxchg_u, Alignment::Four),
    Word::Plain(Plain::I64(I64Op::i64_trunc_f64_s)),
    Word::Atomic(AtomicOp::Struct),
    Word::Plain(Plain::I32(I32Op::i32_rem_s)),
    Word::Plain(Plain::I64(I64Op::i64_trunc_f32_u)),
    Word::Mem(MemOp::i32_load, Alignment::Four),
    Word::Mem(MemOp::f32_load, Alignment::Four),
    Word::Plain(Plain::Ref(RefOp::ref_as_non_null)),
    Word::Plain(Plain::I32x4(I32x4Op::i32x4_extadd_pairwise_i16x8_u)),
    Word::Block(BlockOp::try_),
    Word::Mem(MemOp::v128_load8_splat, Alignment::One),
    Word::Key(Key::AcqRel),
    Word::Plain(Plain::F64(F64Op::f64_floor)),
    Word::Uncovered(UncoveredOp::ref_get_desc),
    Word::Plain(Plain::I16x8(I16x8Op::i16x8_abs)),
    Word::Key(Key::Rec),
    Word::Key(Key::Nocont),
    Word::Plain(Plain::I8x16(I8x16Op::i8x16_le_s)),
    Word::Plain(Plain::I8x16(I8x16Op::i8x16_ge_s)),
    Word::Plain(Plain::F32(F32Op::f32_lt)),
    Word::Plain(Plain::F32(F32Op::f32_gt)),
    Word::Plain(Plain::F32(F32Op::f32_copysign)),
    Word::Key(Key::Nullexnref),
    Word::Plain(Plain::I16x8(I16x8Op::i16x8_all_true)),
    Word::Plain(Plain::F64(F64Op::f64_sqrt)),
    Word::Plain(Plain::I32x4(I32x4Op::i32x4_extend_low_i16x8_u)),
    Word::Plain(Plain::I32x4(I32x4Op::i32x4_extmul_low_i16x8_u)),
    Word::Pair(PairOp::array_copy),
    Word::Plain(Plain::I16x8(I16x8Op::i16x8_splat)),
    Word::Own(OwnOp::ref_cast),
    Word::Key(Key::Elem),
    Word::Atomic(AtomicOp::Array),
    Word::Index(IndexOp::ArrayGet),
    Word::Plain(Plain::I32(I32Op::i32_trunc_f64_u)),
    Word::Index(IndexOp::RefFunc),
    Word::Plain(Plain::F32x4(F32x4Op::f32x4_relaxed_madd)),
    Word::Mem(MemOp::i32_atomic_rmw_add, Alignment::Four),
    Word::Mem(MemOp::i32_atomic_rmw_and, Alignment::Four),
    Word::Plain(Plain::Bare(BareOp::catch_all)),
    Word::Mem(MemOp::i64_atomic_rmw_cmpxchg, Alignment::Eight),
    Word::Key(Key::I64x2),
    Word::Key(Key::F64x2),
    Word::Index(IndexOp::ArrayGetS),
    Word::Plain(Plain::Bare(BareOp::nop)),
    Word::Lane(LaneOp::i64x2_extract_lane),
    Word::Lane(LaneOp::i64x2_replace_lane),
    Word::Lane(LaneOp::f64x2_extract_lane),
    Word::Lane(LaneOp::f64x2_replace_lane),
    Word::Plain(Plain::F64x2(F64x2Op::f64x2_relaxed_min)),
    Word::Plain(Plain::I8x16(I8x16Op::i8x16_shl)),
    Word::Plain(Plain::I32(I32Op::i32_lt_s)),
    Word::Plain(Plain::I32(I32Op::i32_gt_s)),
    Word::Index(IndexOp::Call),
    Word::Plain(Plain::I16x8(I16x8Op::i16x8_add_sat_s)),
    Word::Plain(Plain::I16x8(I16x8Op::i16x8_sub_sat_s)),
    Word::Key(Key::Ref),
    Word::Key(Key::VisibilityHidden),
    Word::Mem(MemOp::i32_atomic_store8, Alignment::One),
    Word::Mem(MemOp::i64_store16, Alignment::Two),
    Word::Atomic(AtomicOp::Global),
    Word::Plain(Plain::I16x8(I16x8Op::i16x8_min_u)),
    Word::Mem(MemOp::i32_atomic_rmw_xor, Alignment::Four),
    Word::Plain(Plain::I8x16(I8x16Op::i8x16_avgr_u)),
    Word::Plain(Plain::I16x8(I16x8Op::i16x8_lt_s)),
    Word::Plain(Plain::I16x8(I16x8Op::i16x8_gt_s)),
    Word::Plain(Plain::F64(F64Op::f64_convert_i32_s)),
    Word::Plain(Plain::I8x16(I8x16Op::i8x16_max_s)),
    Word::Key(Key::Exnref),
    Word::Key(Key::Array),
    Word::Plain(Plain::F64(F64Op::f64_min)),
    Word::Key(Key::Absolute),
    Word::Plain(Plain::I32x4(I32x4Op::i32x4_relaxed_trunc_f32x4_s)),
    Word::Plain(Plain::I32x4(I32x4Op::i32x4_sub)),
    Word::Plain(Plain::F32x4(F32x4Op::f32x4_sub)),
    Word::Plain(Plain::F64x2(F64x2Op::f64x2_relaxed_nmadd)),
    Word::Beyond,
    Word::Beyond,
    Word::Plain(Plain::F32(F32Op::f32_div)),
    Word::Key(Key::ImportInfo),
    Word::Mem(MemOp::i64_load32_s, Alignment::Four),
    Word::Plain(Plain::Bare(BareOp::throw_ref)),
    Word::Plain(Plain::F32x4(F32x4Op::f32x4_ceil)),
    Word::Plain(Plain::I32x4(I32x4Op::i32x4_neg)),
    Word::Plain(Plain::F32x4(F32x4Op::f32x4_neg)),
    Word::Key(Key::Nofunc),
    Word::Key(Key::Eq),
    Word::Key(Key::Final),
    Word::Plain(Plain::I64(I64Op::i64_shr_u)),
    Word::Index(IndexOp::BrOnNonNull),
    Word::Atomic(AtomicOp::Global),
    Word::Key(Key::Start),
    Word::Plain(Plain::F32x4(F32x4Op::f32x4_nearest)),
    Word::Index(IndexOp::GlobalGet),
    Word::Key(Key::Field),
    Word::Mem(MemOp::memory_atomic_wait32, Alignment::Four),
    Word::Plain(Plain::F32(F32Op::f32_convert_i64_s)),
    Word::Plain(Plain::I64x2(I64x2Op::i64x2_add)),
    Word::Plain(Plain::F64x2(F64x2Op::f64x2_add)),
    Word::Plain(Plain::F32(F32Op::f32_convert_i32_u)),
    Word::Index(IndexOp::ArrayNewDefault),
    Word::Plain(Plain::Bare(BareOp::return_)),
    Word::Plain(Plain::F32x4(F32x4Op::f32x4_floor)),
    Word::Plain(Plain::I32x4(I32x4Op::i32x4_min_s)),
    Word::Plain(Plain::I32x4(I32x4Op::i32x4_relaxed_dot_i8x16_i7x16_add_s)),
    Word::Plain(Plain::I64x2(I64x2Op::i64x2_relaxed_laneselect)),
    Word::Key(Key::I8x16),
    Word::Mem(MemOp::i32_atomic_rmw16_xchg_u, Alignment::Two),
    Word::Plain(Plain::I64(I64Op::i64_le_u)),
    Word::Plain(Plain::I64(I64Op::i64_ge_u)),
    Word::Plain(Plain::F32(F32Op::f32_trunc)),
    Word::Plain(Plain::F32x4(F32x4Op::f32x4_sqrt)),
    Word::Plain(Plain::I8x16(I8x16Op::i8x16_narrow_i16x8_s)),
    Word::Key(Key::Exn),
    Word::Atomic(AtomicOp::Struct),
    Word::Mem(MemOp::i32_load8_s, Alignment::One),
    Word::Plain(Plain::F64x2(F64x2Op::f64x2_ne)),
    Word::Plain(Plain::F64x2(F64x2Op::f64x2_le)),
    Word::Plain(Plain::F64x2(F64x2Op::f64x2_ge)),
    Word::Plain(Plain::I64x2(I64x2Op::i64x2_ne)),
    Word::Plain(Plain::I32(I32Op::i32_div_s)),
    Word::Plain(Plain::F32x4(F32x4Op::f32x4_pmax)),
    Word::Own(OwnOp::atomic_fence),
    Word::Plain(Plain::I32(I32Op::i32_clz)),
    Word::Plain(Plain::I32(I32Op::i32_ctz)),
    Word::Plain(Plain::I31(I31Op::i31_get_u)),
    Word::Key(Key::Noextern),
    Word::Plain(Plain::I8x16(I8x16Op::i8x16_eq)),
    Word::Key(Key::Sub),
    Word::Key(Key::Data),
    Word::Key(Key::Language),
    Word::Key(Key::F32),
    Word::Plain(Plain::I64x2(I64x2Op::i64x2_mul)),
    Word::Plain(Plain::F64x2(F64x2Op::f64x2_mul)),
    Word::Index(IndexOp::ElemDrop),
    Word::Mem(MemOp::i64_atomic_store, Alignment::Eight),
    Word::Own(OwnOp::return_call_indirect),
    Word::Mem(MemOp::i32_atomic_store16, Alignment::Two),
    Word::Plain(Plain::F64x2(F64x2Op::f64x2_promote_low_f32x4)),
    Word::Plain(Plain::I64x2(I64x2Op::i64x2_bitmask)),
    Word::IndexOrZero(IndexOrZeroOp::memory_fill),
    Word::Pair(PairOp::array_new_data),
    Word::Own(OwnOp::else_),
    Word::IndexOrZero(IndexOrZeroOp::table_set),
    Word::Mem(MemOp::i32_atomic_rmw_xchg, Alignment::Four),
    Word::Key(Key::Nullexternref),
    Word::Plain(Plain::I64x2(I64x2Op::i64x2_shr_s)),
    Word::Atomic(AtomicOp::Struct),
    Word::Plain(Plain::I8x16(I8x16Op::i8x16_abs)),
    Word::Key(Key::Shared),
    Word::Pair(PairOp::struct_get),
    Word::Mem(MemOp::i64_load16_u, Alignment::Two),
    Word::Plain(Plain::I32x4(I32x4Op::i32x4_trunc_sat_f32x4_u)),
    Word::Key(Key::Cont),
    Word::Plain(Plain::I8x16(I8x16Op::i8x16_all_true)),
    Word::Plain(Plain::I32(I32Op::i32_trunc_sat_f32_s)),
    Word::Mem(MemOp::i32_atomic_rmw16_or_u, Alignment::Two),
    Word::Mem(MemOp::i32_atomic_rmw8_xor_u, Alignment::One),
    Word::Pair(PairOp::struct_get_s),
    Word::Plain(Plain::I8x16(I8x16Op::i8x16_splat)),
    Word::Own(OwnOp::resume_throw_ref),
    Word::Own(OwnOp::ref_null),
    Word::Key(Key::Anyref),
    Word::MemLane(MemLaneOp::v128_store16_lane, Alignment::Two),
    Word::MemLane(MemLaneOp::v128_store32_lane, Alignment::Four),
    Word::MemLane(MemLaneOp::v128_store64_lane, Alignment::Eight),
    Word::Plain(Plain::F32x4(F32x4Op::f32x4_min)),
    Word::Plain(Plain::I32(I32Op::i32_popcnt)),
    Word::Plain(Plain::Bare(BareOp::unreachable)),
    Word::Plain(Plain::I16x8(I16x8Op::i16x8_extend_high_i8x16_s)),
    Word::Plain(Plain::I16x8(I16x8Op::i16x8_extmul_high_i8x16_s)),
    Word::Key(Key::I32),
    Word::Key(Key::Import),
    Word::Plain(Plain::I64x2(I64x2Op::i64x2_le_s)),
    Word::Plain(Plain::I64x2(I64x2Op::i64x2_ge_s)),
    Word::Plain(Plain::Ref(RefOp::ref_eq)),
    Word::Plain(Plain::Any(AnyOp::any_convert_extern)),
    Word::Plain(Plain::F32(F32Op::f32_demote_f64)),
    Word::IndexOrZero(IndexOrZeroOp::memory_grow),
    Word::Mem(MemOp::i64_atomic_rmw8_sub_u, Alignment::One),
    Word::Plain(Plain::I16x8(I16x8Op::i16x8_narrow_i32x4_u)),
    Word::Plain(Plain::I32x4(I32x4Op::i32x4_shr_u)),
    Word::IndexOrZero(IndexOrZeroOp::table_fill),
    Word::Atomic(AtomicOp::Array),
    Word::Key(Key::Result),
    Word::Index(IndexOp::ArraySet),
    Word::Atomic(AtomicOp::Array),
    Word::Plain(Plain::I8x16(I8x16Op::i8x16_add_sat_s)),
    Word::Plain(Plain::I8x16(I8x16Op::i8x16_sub_sat_s)),
    Word::Plain(Plain::I64x2(I64x2Op::i64x2_extend_low_i32x4_u)),
    Word::Plain(Plain::I64x2(I64x2Op::i64x2_extmul_low_i32x4_u)),
    Word::Mem(MemOp::v128_load16x4_u, Alignment::Eight),
    Word::Mem(MemOp::i64_atomic_rmw16_xor_u, Alignment::Two),
    Word::Mem(MemOp::i64_atomic_rmw32_xor_u, Alignment::Four),
    Word::Key(Key::Externref),
    Word::Plain(Plain::I8x16(I8x16Op::i8x16_min_u)),
];

/// The texts of the words, one after another.
static LETTERS: &str = "\
v128.load8x8_ui8x16.lt_si8x16.gt_sf64x2.pmintypei64.trunc_sat_f64_ui32x4.le_ui32x4.ge_u\
i64x2.shli64.trunc_f32_sv128i32.store8i32x4.extadd_pairwise_i16x8_si64.atomic.load8_u\
i32.atomic.rmw8.add_ui32.atomic.rmw8.and_ui64.extend16_ssdki32.subf32.sub\
i32x4.trunc_sat_f64x2_s_zeroi32x4.trunc_sat_f64x2_u_zerostruct.new_defaultundefinedi32.or\
v128.andarray.new_elemtable.growi32x4.extend_low_i16x8_si32x4.extmul_low_i16x8_sf32.neg\
f32.ceilarray.fillf32x4.demote_f64x2_zeroi64.atomic.rmw.subdeclarei64.atomic.rmw.ori16x8.sub\
v128.constseq_cstbr_on_castf32.nearesti32.atomic.load16_ui16x8.negi32.atomic.rmw16.cmpxchg_u\
i32.trunc_f64_stablei64.addi64.andf64.addi32.trunc_f32_uglobal.atomic.rmw.subv128.xor\
global.setglobal.atomic.rmw.orexternf32.floorbri64.atomic.rmw16.add_ui64.atomic.rmw32.add_u\
i64.atomic.rmw16.and_ui64.atomic.rmw32.and_ufirsti64.constf64.constf32.sqrt\
memory.atomic.notifyi64.rem_ui32x4.max_ui64.nef64.nef64.lef64.gei16x8.min_si64.xor\
v128.storebinding-weakreturn_calllocal.geti64.mulf64.muloni32.atomic.rmw.cmpxchg\
i64.extend_i32_ui32x4.extract_lanei32x4.replace_lanef32x4.extract_lanef32x4.replace_lanei32x4\
f32x4v128.load16_splatv128.load32_splatv128.load64_splatf32x4.relaxed_minf64x2.eqi64x2.eq\
target-archi64.atomic.rmw8.xchg_ui64.storef64.storenullfuncrefnullcontrefi64.shr_s\
i32.store16ref.is_nulli32x4.extend_high_i16x8_ui32x4.extmul_high_i16x8_udescribesf64x2.max\
f32x4.convert_i32x4_ubinding-locali64.lt_ui64.gt_uf32.convert_i32_sstruct.atomic.rmw.sub\
ref.teststruct.setstruct.atomic.rmw.orref.cast_desc_eqmuti64.atomic.store32cont.bind\
i64.atomic.loadtheni64x2.absf64x2.absf32.minv128.load8_lanedata.dropf32x4.relaxed_nmadd\
no-stripoffseti64.le_si64.ge_si64x2.all_truei16x8i64x2.splatf64x2.splati8x16.popcnt\
i31.get_si32.shr_uf64x2.ltf64x2.gti8i32x4.addf32x4.addifi64.atomic.rmw8.or_u\
struct.new_desci16x8.extract_lane_ui16x8.shr_ubr_on_cast_faili32x4.relaxed_laneselecti64.rotl\
catch_all_refeqreff64.convert_i64_ui32.le_ui32.ge_ui64.shli32x4.nef32x4.nef32x4.lef32x4.ge\
call_refi64.load16_si32.wrap_i64i32x4.trunc_sat_f32x4_scont.newcontrefi64x2.lt_si64x2.gt_s\
dropi16x8.le_ui16x8.ge_ui64.load8_ui32.reinterpret_f32i32x4.mulf32x4.muli64.eqzi64.div_u\
i8x16.subi16x8.extadd_pairwise_i8x16_ui32.atomic.storethrowi64.mul_wide_uexplicit-name\
br_on_nullv128.noti16x8.relaxed_q15mulr_si8x16.negarray.atomic.get_ui32x4.bitmask\
i32x4.dot_i16x8_sruntime-pathbinaryf64i16x8.extend_low_i8x16_ui16x8.extmul_low_i8x16_ustruct\
i16x8.narrow_i32x4_si32x4.shr_ssuspendf64x2.divi32.load16_ui32x4.lt_ui32x4.gt_u\
i64x2.extend_low_i32x4_si64x2.extmul_low_i32x4_sarray.newarrayrefv128.load16x4_slocaltls\
v128.load32x2_ui8x16.min_sv128.load8x8_sf32.reinterpret_i32i64.trunc_sat_f64_si32x4.le_s\
i32x4.ge_stagextern.convert_anyi64.trunc_sat_f32_ui64.atomic.load32_ubr_tablei16x8.max_u\
f64.promote_f32f64x2.relaxed_maxi32.atomic.rmw8.sub_uarray.init_datai64.atomic.rmw8.cmpxchg_u\
i64i8x16.shufflef64x2.trunclocal.seti64.rotri64.extend8_si64.eqf64.eqprocessed-byswitch\
i16x8.relaxed_dot_i8x16_i7x16_si32.atomic.rmw16.xor_uv128.any_truequotev128.load\
i16x8.replace_lanef32x4.pminneededf64.maxi32.trunc_sat_f64_ufunci32x4.shldoi8x16.swizzle\
i32.trunc_f32_sselectarray.atomic.rmw.addarray.atomic.rmw.andi32.atomic.load8_uf64.abs\
i32.extend16_sresume_throwi64.atomic.rmw16.sub_ui64.atomic.rmw32.sub_ui16x8.q15mulr_sat_s\
struct.new_default_desclocal.teei64.rem_si64.store32br_on_cast_desc_eq_faili32x4.max_s\
i64.loadf64.loadexactrethrowi32.atomic.rmw.subi64x2.extend_high_i32x4_u\
i64x2.extmul_high_i32x4_uf64x2.convert_low_i32x4_ui32.atomic.rmw.orf64.ltf64.gtf64.copysign\
array.atomic.rmw.xorarray.leni8x16.extract_lane_ui32.addi32.andf32.addi8x16.shr_u\
i64.extend_i32_safteri32.atomic.rmw16.add_ui32.atomic.rmw16.and_ubr_ifi64.trunc_f64_u\
f64x2.relaxed_maddi64.atomic.rmw.addi64.atomic.rmw.andi32.constf32.conststruct.atomic.get_u\
i32.rem_ui16x8.addarray.init_elemi32x4.extend_high_i16x8_si32x4.extmul_high_i16x8_si32.ne\
f32.nef32.lef32.gei16x8.relaxed_laneselectf32x4.convert_i32x4_si8x16.le_ui8x16.ge_ui32.xor\
i64.lt_si64.gt_sdelegateglobal.atomic.rmw.addglobal.atomic.rmw.andmemory.sizeref.i31_shared\
v128.andnoti64.atomic.store8catchi32.mulf32.muli16x8.nestruct.newstructref\
i64.atomic.rmw.xorbr_on_cast_desc_eqtable.atomic.rmw.xchgarray.new_fixedi32x4.eqf32x4.eq\
memory.discardv128.bitselecti32.atomic.rmw8.xchg_ui32.storef32.storei16x8.mulref.i31\
i64x2.subf64x2.subi32.shr_sglobal.atomic.rmw.xorf64.divarray.get_utable.atomic.getend\
f64x2.ceili64x2.negf64x2.negi16x8.bitmaskf32x4.maxi32.lt_ui32.gt_ui16x8.add_sat_u\
i16x8.sub_sat_ublocki16x8.extract_lane_sv128.load32_zerov128.load64_zeroi16x8.shr_s\
i32.atomic.loadi32x4.absf32x4.absanyf64x2.nearestmemory.inittable.sizef64.convert_i64_s\
i32.le_si32.ge_si32x4.all_truedescriptori16x8.lt_ui16x8.gt_uf64.convert_i32_ui32x4.splat\
f32x4.splatparami8x16.max_uf64x2.floorarray.atomic.rmw.xchgloopi32x4.relaxed_trunc_f32x4_u\
i64.atomic.rmw16.xchg_ui64.atomic.rmw32.xchg_ui8x16.relaxed_swizzlef32x4.ltf32x4.gt\
struct.atomic.rmw.addstruct.atomic.rmw.andi64.load32_ui16x8.le_si16x8.ge_sf64.truncf64x2.sqrt\
nulli64.load8_smodulei64.div_sf64x2.pmaxarray.atomic.geti16x8.extadd_pairwise_i8x16_si64.clz\
i64.ctzi32.atomic.rmw8.or_ui64.mul_wide_sreturn_call_reffuncrefnullrefmem-info\
i8x16.replace_lanearray.atomic.get_si32.rotlv128.load16_lanev128.load32_lanev128.load64_lane\
v128.store8_lanememory.atomic.wait64f32.convert_i64_ui16x8.extend_low_i8x16_s\
i16x8.extmul_low_i8x16_si32.shlstruct.atomic.rmw.xortable.initexport-infoi64.atomic.store16\
i32x4.min_ubeforei32.load16_si32x4.lt_si32x4.gt_si16x8.shli8x16.narrow_i16x8_u\
i64.atomic.rmw.xchgv128.load32x2_si32.load8_ui32.eqzcall_indirecti32.div_uexportedi16\
i64.trunc_sat_f32_si64.atomic.rmw16.or_ui64.atomic.rmw32.or_ui64.atomic.rmw8.xor_ui16x8.avgr_u\
i31global.atomic.rmw.xchgi16x8.max_si64.reinterpret_f64f64x2.mini64.popcnt\
i32x4.relaxed_trunc_f64x2_s_zeroi32x4.relaxed_trunc_f64x2_u_zerof32x4.divlasti64.extend32_s\
global.atomic.getmemory.copycatch_refi8x16.addi64x2.shr_ucodenonei8x16.relaxed_laneselect\
memoryi32.trunc_sat_f64_si32.trunc_sat_f32_ustruct.get_uitemv128.ortable.atomic.rmw.cmpxchg\
i8x16.nef32x4.relaxed_maxi32.atomic.rmw8.cmpxchg_ui16x8.extend_high_i8x16_u\
i16x8.extmul_high_i8x16_uf64.reinterpret_i64f32x4.trunci32.rotri32.extend8_si64.store8i32.eq\
f32.eqglobali64.atomic.rmw8.add_ui64.atomic.rmw8.and_uresumei64x2.extend_high_i32x4_s\
i64x2.extmul_high_i32x4_sf64x2.convert_low_i32x4_si64.subf64.subtable.copyi64.ori8x16.bitmask\
struct.atomic.rmw.xchgi31reff64.negf64.ceilf32.maxi8x16.add_sat_ui8x16.sub_sat_ui16x8.eq\
i8x16.extract_lane_snoexni8x16.shr_stable.atomic.setexporttry_tabletable.getf32.abs\
struct.atomic.getf64.nearestarray.atomic.rmw.cmpxchgpagesizei8x16.lt_ui8x16.gt_u\
i64.atomic.load16_ui32.atomic.rmw16.sub_ui64.atomic.rmw16.cmpxchg_ui64.atomic.rmw32.cmpxchg_u\
i64.trunc_f64_sstruct.atomic.get_si32.rem_si64.trunc_f32_ui32.loadf32.loadref.as_non_null\
i32x4.extadd_pairwise_i16x8_utryv128.load8_splatacq_relf64.floorref.get_desci16x8.absrec\
noconti8x16.le_si8x16.ge_sf32.ltf32.gtf32.copysignnullexnrefi16x8.all_truef64.sqrt\
i32x4.extend_low_i16x8_ui32x4.extmul_low_i16x8_uarray.copyi16x8.splatref.castelem\
array.atomic.setarray.geti32.trunc_f64_uref.funcf32x4.relaxed_maddi32.atomic.rmw.add\
i32.atomic.rmw.andcatch_alli64.atomic.rmw.cmpxchgi64x2f64x2array.get_snopi64x2.extract_lane\
i64x2.replace_lanef64x2.extract_lanef64x2.replace_lanef64x2.relaxed_mini8x16.shli32.lt_s\
i32.gt_scalli16x8.add_sat_si16x8.sub_sat_srefvisibility-hiddeni32.atomic.store8i64.store16\
global.atomic.rmw.cmpxchgi16x8.min_ui32.atomic.rmw.xori8x16.avgr_ui16x8.lt_si16x8.gt_s\
f64.convert_i32_si8x16.max_sexnrefarrayf64.minabsolutei32x4.relaxed_trunc_f32x4_si32x4.sub\
f32x4.subf64x2.relaxed_nmaddi64.add128i64.sub128f32.divimport-infoi64.load32_sthrow_ref\
f32x4.ceili32x4.negf32x4.negnofunceqfinali64.shr_ubr_on_non_nullglobal.atomic.setstart\
f32x4.nearestglobal.getfieldmemory.atomic.wait32f32.convert_i64_si64x2.addf64x2.add\
f32.convert_i32_uarray.new_defaultreturnf32x4.floori32x4.min_s\
i32x4.relaxed_dot_i8x16_i7x16_add_si64x2.relaxed_laneselecti8x16i32.atomic.rmw16.xchg_ui64.le_u\
i64.ge_uf32.truncf32x4.sqrti8x16.narrow_i16x8_sexnstruct.atomic.rmw.cmpxchgi32.load8_s\
f64x2.nef64x2.lef64x2.gei64x2.nei32.div_sf32x4.pmaxatomic.fencei32.clzi32.ctzi31.get_u\
noexterni8x16.eqsubdatalanguagef32i64x2.mulf64x2.mulelem.dropi64.atomic.store\
return_call_indirecti32.atomic.store16f64x2.promote_low_f32x4i64x2.bitmaskmemory.fill\
array.new_dataelsetable.seti32.atomic.rmw.xchgnullexternrefi64x2.shr_sstruct.atomic.set\
i8x16.abssharedstruct.geti64.load16_ui32x4.trunc_sat_f32x4_uconti8x16.all_true\
i32.trunc_sat_f32_si32.atomic.rmw16.or_ui32.atomic.rmw8.xor_ustruct.get_si8x16.splat\
resume_throw_refref.nullanyrefv128.store16_lanev128.store32_lanev128.store64_lanef32x4.min\
i32.popcntunreachablei16x8.extend_high_i8x16_si16x8.extmul_high_i8x16_si32importi64x2.le_s\
i64x2.ge_sref.eqany.convert_externf32.demote_f64memory.growi64.atomic.rmw8.sub_u\
i16x8.narrow_i32x4_ui32x4.shr_utable.fillarray.atomic.rmw.subresultarray.set\
array.atomic.rmw.ori8x16.add_sat_si8x16.sub_sat_si64x2.extend_low_i32x4_u\
i64x2.extmul_low_i32x4_uv128.load16x4_ui64.atomic.rmw16.xor_ui64.atomic.rmw32.xor_uexternref\
i8x16.min_u";

/// Where the text of each word begins in `LETTERS`.
static STARTS: [u16; 725] = [
    0, 14, 24, 34, 44, 48, 67, 77, 87, 96, 111, 115, 125, 154, 172, 193, 214, 228, 231, 238, 245,
    273, 301, 319, 328, 334, 342, 356, 366, 390, 414, 421, 429, 439, 462, 480, 487, 504, 513, 523,
    530, 540, 551, 570, 579, 605, 620, 625, 632, 639, 646, 661, 682, 690, 700, 720, 726, 735, 737,
    759, 781, 803, 825, 830, 839, 848, 856, 876, 885, 896, 902, 908, 914, 920, 931, 938, 948, 960,
    971, 980, 987, 994, 996, 1018, 1034, 1052, 1070, 1088, 1106, 1111, 1116, 1133, 1150, 1167,
    1184, 1192, 1200, 1211, 1233, 1242, 1251, 1262, 1273, 1282, 1293, 1304, 1329, 1354, 1363, 1372,
    1393, 1406, 1414, 1422, 1439, 1460, 1468, 1478, 1498, 1514, 1517, 1535, 1544, 1559, 1563, 1572,
    1581, 1588, 1603, 1612, 1631, 1639, 1645, 1653, 1661, 1675, 1680, 1691, 1702, 1714, 1723, 1732,
    1740, 1748, 1750, 1759, 1768, 1770, 1790, 1805, 1825, 1836, 1851, 1875, 1883, 1896, 1901, 1918,
    1926, 1934, 1941, 1949, 1957, 1965, 1973, 1981, 1993, 2005, 2028, 2036, 2043, 2053, 2063, 2067,
    2077, 2087, 2098, 2117, 2126, 2135, 2142, 2151, 2160, 2189, 2205, 2210, 2224, 2237, 2247, 2255,
    2278, 2287, 2305, 2318, 2335, 2347, 2353, 2356, 2380, 2404, 2410, 2430, 2441, 2448, 2457, 2469,
    2479, 2489, 2513, 2537, 2546, 2554, 2569, 2574, 2577, 2592, 2603, 2617, 2636, 2655, 2665, 2675,
    2678, 2696, 2715, 2734, 2742, 2753, 2768, 2785, 2806, 2821, 2846, 2849, 2862, 2873, 2882, 2890,
    2903, 2909, 2915, 2927, 2933, 2964, 2986, 2999, 3004, 3013, 3031, 3041, 3047, 3054, 3073, 3077,
    3086, 3088, 3101, 3116, 3122, 3142, 3162, 3180, 3187, 3201, 3213, 3235, 3257, 3276, 3299, 3308,
    3317, 3328, 3351, 3362, 3370, 3378, 3383, 3390, 3408, 3433, 3458, 3483, 3500, 3506, 3512, 3524,
    3544, 3553, 3573, 3580, 3587, 3594, 3605, 3621, 3626, 3648, 3670, 3675, 3690, 3708, 3726, 3744,
    3753, 3762, 3781, 3790, 3799, 3814, 3839, 3864, 3870, 3876, 3882, 3888, 3912, 3933, 3943, 3953,
    3960, 3968, 3976, 3984, 4005, 4026, 4037, 4051, 4062, 4079, 4084, 4091, 4098, 4106, 4116, 4125,
    4143, 4161, 4182, 4197, 4205, 4213, 4227, 4241, 4263, 4272, 4281, 4290, 4297, 4306, 4315, 4324,
    4345, 4352, 4363, 4379, 4382, 4392, 4401, 4410, 4423, 4432, 4440, 4448, 4463, 4478, 4483, 4503,
    4519, 4535, 4546, 4561, 4570, 4579, 4582, 4595, 4606, 4616, 4633, 4641, 4649, 4663, 4673, 4683,
    4693, 4710, 4721, 4732, 4737, 4748, 4759, 4780, 4784, 4811, 4834, 4857, 4878, 4886, 4894, 4915,
    4936, 4948, 4958, 4968, 4977, 4987, 4991, 5002, 5008, 5017, 5027, 5043, 5072, 5079, 5086, 5106,
    5120, 5135, 5142, 5149, 5157, 5175, 5193, 5201, 5217, 5233, 5249, 5265, 5285, 5302, 5326, 5350,
    5357, 5378, 5388, 5399, 5417, 5428, 5434, 5446, 5456, 5466, 5475, 5495, 5514, 5529, 5540, 5547,
    5560, 5569, 5577, 5580, 5599, 5620, 5641, 5662, 5674, 5677, 5699, 5710, 5729, 5738, 5748, 5780,
    5812, 5821, 5825, 5839, 5856, 5867, 5876, 5885, 5896, 5900, 5904, 5928, 5934, 5953, 5972, 5984,
    5988, 5995, 6019, 6027, 6044, 6069, 6094, 6119, 6138, 6149, 6157, 6170, 6180, 6186, 6192, 6198,
    6219, 6240, 6246, 6271, 6296, 6321, 6328, 6335, 6345, 6351, 6364, 6386, 6392, 6399, 6407, 6414,
    6429, 6444, 6452, 6472, 6477, 6488, 6504, 6510, 6519, 6528, 6535, 6552, 6563, 6587, 6595, 6605,
    6615, 6634, 6656, 6682, 6708, 6723, 6742, 6751, 6766, 6774, 6782, 6797, 6826, 6829, 6845, 6852,
    6861, 6873, 6882, 6885, 6891, 6901, 6911, 6917, 6923, 6935, 6945, 6959, 6967, 6991, 7015, 7025,
    7036, 7044, 7048, 7064, 7073, 7088, 7096, 7114, 7132, 7150, 7159, 7181, 7186, 7191, 7202, 7205,
    7223, 7241, 7259, 7277, 7294, 7303, 7311, 7319, 7323, 7338, 7353, 7356, 7373, 7390, 7401, 7426,
    7437, 7455, 7467, 7477, 7487, 7504, 7515, 7521, 7526, 7533, 7541, 7568, 7577, 7586, 7605, 7615,
    7625, 7632, 7643, 7655, 7664, 7674, 7683, 7692, 7698, 7700, 7705, 7714, 7728, 7745, 7750, 7763,
    7773, 7778, 7798, 7815, 7824, 7833, 7850, 7867, 7873, 7884, 7895, 7930, 7954, 7959, 7982, 7990,
    7998, 8007, 8017, 8037, 8040, 8065, 8076, 8084, 8092, 8100, 8108, 8117, 8127, 8139, 8146, 8153,
    8162, 8170, 8178, 8181, 8185, 8193, 8196, 8205, 8214, 8223, 8239, 8259, 8277, 8300, 8313, 8324,
    8338, 8342, 8351, 8370, 8383, 8394, 8411, 8420, 8426, 8436, 8448, 8471, 8475, 8489, 8508, 8529,
    8550, 8562, 8573, 8589, 8597, 8603, 8620, 8637, 8654, 8663, 8673, 8684, 8709, 8734, 8737, 8743,
    8753, 8763, 8769, 8787, 8801, 8812, 8833, 8853, 8864, 8874, 8894, 8900, 8909, 8928, 8943, 8958,
    8982, 9006, 9021, 9043, 9065, 9074, 9085,
];

/// Returns where the words of a bucket begin.
fn first_at(bucket: usize) -> usize
    requires { bucket < 1025 }
    ensures { result ≡ first_word_of bucket }
{
    FIRSTS[bucket] as usize
}

/// Returns the word with a number.
fn word_at(word: usize) -> Word
    requires { word < 724 }
    ensures { result ≡ word_at word }
{
    WORDS[word]
}

/// Returns where the text of a word begins.
fn start_at(word: usize) -> usize
    requires { word < 725 }
    ensures { result ≡ start_of word }
{
    STARTS[word] as usize
}

/// Returns the text of a word.
fn text_at(word: usize) -> &'static [u8]
    requires { word < 724 }
    ensures { result.now ≡ text_of word }
{
    &LETTERS.as_bytes()[start_at(word)..start_at(word + 1)]
}

/// Returns the byte at an index, or 0.
fn letter(name: &[u8], index: usize) -> usize
    ensures byte { result ≡ letter name.now index }
    ensures small { result < 256 }
{
    match name.get(index) {
        Some(byte) => *byte as usize,
        None => 0,
    }
}

/// Returns the bucket of a name. The numbers are such that no bucket has more than six words.
fn hash(name: &[u8]) -> usize
    ensures bucket { result ≡ hash_of name.now }
    ensures small { result < 1024 }
{
    let length = name.len();
    let second = letter(name, 1) * 907;
    let last = letter(name, length.wrapping_sub(1)) * 362;
    let third = letter(name, length.wrapping_sub(3)) * 360;
    (length % 1024 * 406 + second + last + third) % 1024
}

/// Returns the word with a text among the words from `first` on and before `end`.
#[tactic(auto, using(crate::proofs::Buckets::found_here, crate::proofs::Buckets::found_on, crate::proofs::Buckets::found_none))]
fn find(first: usize, end: usize, name: &[u8]) -> Option<Word>
    requires { end ≤ 724 }
    ensures { result ≡ found_in name.now (rows first (end - first)) }
{
    for word in first..end {
        if text_at(word) == name {
            return Some(word_at(word));
        }
    }
    None
}

/// Returns what a name means, if it means something of its own (text format, keywords). It takes no memory.
///
/// For example, `look_up("func")` is `Some(Word::Key(Key::Func))`, and `look_up("x")` is `None`.
pub fn look_up(name: &str) -> Option<Word>
    ensures { result ≡ word_named name.now }
{
    let name = name.as_bytes();
    let bucket = hash(name);
    find(first_at(bucket), first_at(bucket + 1), name)
}
