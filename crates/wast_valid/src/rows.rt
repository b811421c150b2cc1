//! The operands and results of instructions without immediates, and what loads and stores access
//! (validation: numeric, vector and memory instructions).

ghost use Rattle.std.specs.Prelude.{◌≡◌};
ghost use Rattle.wast_valid.specs.Rows.{row_of, row_of_i32, row_of_i64, row_of_f32, row_of_f64, row_of_i8x16, row_of_i16x8, row_of_i32x4, row_of_i64x2, row_of_f32x4, row_of_f64x2, row_of_v128, row_of_ref, row_of_array, row_of_i31, access_of, lane_access_of, lane_use_of};

use wast_base::{
    ArrayOp, F32Op, F32x4Op, F64Op, F64x2Op, I8x16Op, I16x8Op, I31Op, I32Op, I32x4Op, I64Op,
    I64x2Op, LaneOp, MemLaneOp, MemOp, Plain, RefOp, V128Op,
};
use wast_valid_machine::{Heap, RefTy, Ty};

/// The operands of an instruction, from the lowest to the top, and then its result.
///
/// For example, `i32.add` is `Binary(I32, I32, I32)`.
#[derive(Clone, Copy)]
pub enum Row {
    /// One operand and the result.
    Unary(Ty, Ty),
    /// Two operands and the result.
    Binary(Ty, Ty, Ty),
    /// Three operands and the result.
    Ternary(Ty, Ty, Ty, Ty),
}

/// An access of memory, with the number of bytes.
#[derive(Clone, Copy)]
pub enum Access {
    /// A load of a value of this type.
    Load(Ty, u64),
    /// A store of a value of this type.
    Store(Ty, u64),
}

/// An access of a lane, and the number of lanes of this size.
#[derive(Clone, Copy)]
pub struct LaneAccess {
    /// The access.
    pub access: Access,
    /// The number of lanes.
    pub lanes: u8,
}

/// The row of an instruction on a lane, and the number of lanes.
#[derive(Clone, Copy)]
pub struct LaneUse {
    /// Its operands and result.
    pub row: Row,
    /// The number of lanes.
    pub lanes: u8,
}

/// Returns the row of an instruction whose name begins with `i32`.
#[tactic(auto, unfolding(crate::specs::Rows::row_of_i32))]
fn i32_row(op: I32Op) -> Row
    ensures { result ≡ row_of_i32 op }
{
    match op {
        I32Op::i32_eqz
        | I32Op::i32_clz
        | I32Op::i32_ctz
        | I32Op::i32_popcnt
        | I32Op::i32_extend8_s
        | I32Op::i32_extend16_s => Row::Unary(Ty::I32, Ty::I32),
        I32Op::i32_eq
        | I32Op::i32_ne
        | I32Op::i32_lt_s
        | I32Op::i32_lt_u
        | I32Op::i32_gt_s
        | I32Op::i32_gt_u
        | I32Op::i32_le_s
        | I32Op::i32_le_u
        | I32Op::i32_ge_s
        | I32Op::i32_ge_u
        | I32Op::i32_add
        | I32Op::i32_sub
        | I32Op::i32_mul
        | I32Op::i32_div_s
        | I32Op::i32_div_u
        | I32Op::i32_rem_s
        | I32Op::i32_rem_u
        | I32Op::i32_and
        | I32Op::i32_or
        | I32Op::i32_xor
        | I32Op::i32_shl
        | I32Op::i32_shr_s
        | I32Op::i32_shr_u
        | I32Op::i32_rotl
        | I32Op::i32_rotr => Row::Binary(Ty::I32, Ty::I32, Ty::I32),
        I32Op::i32_wrap_i64 => Row::Unary(Ty::I64, Ty::I32),
        I32Op::i32_trunc_f32_s
        | I32Op::i32_trunc_f32_u
        | I32Op::i32_reinterpret_f32
        | I32Op::i32_trunc_sat_f32_s
        | I32Op::i32_trunc_sat_f32_u => Row::Unary(Ty::F32, Ty::I32),
        I32Op::i32_trunc_f64_s
        | I32Op::i32_trunc_f64_u
        | I32Op::i32_trunc_sat_f64_s
        | I32Op::i32_trunc_sat_f64_u => Row::Unary(Ty::F64, Ty::I32),
    }
}

/// Returns the row of an instruction whose name begins with `i64`.
#[tactic(auto, unfolding(crate::specs::Rows::row_of_i64))]
fn i64_row(op: I64Op) -> Row
    ensures { result ≡ row_of_i64 op }
{
    match op {
        I64Op::i64_eqz => Row::Unary(Ty::I64, Ty::I32),
        I64Op::i64_eq
        | I64Op::i64_ne
        | I64Op::i64_lt_s
        | I64Op::i64_lt_u
        | I64Op::i64_gt_s
        | I64Op::i64_gt_u
        | I64Op::i64_le_s
        | I64Op::i64_le_u
        | I64Op::i64_ge_s
        | I64Op::i64_ge_u => Row::Binary(Ty::I64, Ty::I64, Ty::I32),
        I64Op::i64_clz
        | I64Op::i64_ctz
        | I64Op::i64_popcnt
        | I64Op::i64_extend8_s
        | I64Op::i64_extend16_s
        | I64Op::i64_extend32_s => Row::Unary(Ty::I64, Ty::I64),
        I64Op::i64_add
        | I64Op::i64_sub
        | I64Op::i64_mul
        | I64Op::i64_div_s
        | I64Op::i64_div_u
        | I64Op::i64_rem_s
        | I64Op::i64_rem_u
        | I64Op::i64_and
        | I64Op::i64_or
        | I64Op::i64_xor
        | I64Op::i64_shl
        | I64Op::i64_shr_s
        | I64Op::i64_shr_u
        | I64Op::i64_rotl
        | I64Op::i64_rotr => Row::Binary(Ty::I64, Ty::I64, Ty::I64),
        I64Op::i64_extend_i32_s | I64Op::i64_extend_i32_u => Row::Unary(Ty::I32, Ty::I64),
        I64Op::i64_trunc_f32_s
        | I64Op::i64_trunc_f32_u
        | I64Op::i64_trunc_sat_f32_s
        | I64Op::i64_trunc_sat_f32_u => Row::Unary(Ty::F32, Ty::I64),
        I64Op::i64_trunc_f64_s
        | I64Op::i64_trunc_f64_u
        | I64Op::i64_reinterpret_f64
        | I64Op::i64_trunc_sat_f64_s
        | I64Op::i64_trunc_sat_f64_u => Row::Unary(Ty::F64, Ty::I64),
    }
}

/// Returns the row of an instruction whose name begins with `f32`.
#[tactic(auto, unfolding(crate::specs::Rows::row_of_f32))]
fn f32_row(op: F32Op) -> Row
    ensures { result ≡ row_of_f32 op }
{
    match op {
        F32Op::f32_eq
        | F32Op::f32_ne
        | F32Op::f32_lt
        | F32Op::f32_gt
        | F32Op::f32_le
        | F32Op::f32_ge => Row::Binary(Ty::F32, Ty::F32, Ty::I32),
        F32Op::f32_abs
        | F32Op::f32_neg
        | F32Op::f32_ceil
        | F32Op::f32_floor
        | F32Op::f32_trunc
        | F32Op::f32_nearest
        | F32Op::f32_sqrt => Row::Unary(Ty::F32, Ty::F32),
        F32Op::f32_add
        | F32Op::f32_sub
        | F32Op::f32_mul
        | F32Op::f32_div
        | F32Op::f32_min
        | F32Op::f32_max
        | F32Op::f32_copysign => Row::Binary(Ty::F32, Ty::F32, Ty::F32),
        F32Op::f32_convert_i32_s | F32Op::f32_convert_i32_u | F32Op::f32_reinterpret_i32 =>
            Row::Unary(Ty::I32, Ty::F32),
        F32Op::f32_convert_i64_s | F32Op::f32_convert_i64_u => Row::Unary(Ty::I64, Ty::F32),
        F32Op::f32_demote_f64 => Row::Unary(Ty::F64, Ty::F32),
    }
}

/// Returns the row of an instruction whose name begins with `f64`.
#[tactic(auto, unfolding(crate::specs::Rows::row_of_f64))]
fn f64_row(op: F64Op) -> Row
    ensures { result ≡ row_of_f64 op }
{
    match op {
        F64Op::f64_eq
        | F64Op::f64_ne
        | F64Op::f64_lt
        | F64Op::f64_gt
        | F64Op::f64_le
        | F64Op::f64_ge => Row::Binary(Ty::F64, Ty::F64, Ty::I32),
        F64Op::f64_abs
        | F64Op::f64_neg
        | F64Op::f64_ceil
        | F64Op::f64_floor
        | F64Op::f64_trunc
        | F64Op::f64_nearest
        | F64Op::f64_sqrt => Row::Unary(Ty::F64, Ty::F64),
        F64Op::f64_add
        | F64Op::f64_sub
        | F64Op::f64_mul
        | F64Op::f64_div
        | F64Op::f64_min
        | F64Op::f64_max
        | F64Op::f64_copysign => Row::Binary(Ty::F64, Ty::F64, Ty::F64),
        F64Op::f64_convert_i32_s | F64Op::f64_convert_i32_u => Row::Unary(Ty::I32, Ty::F64),
        F64Op::f64_convert_i64_s | F64Op::f64_convert_i64_u | F64Op::f64_reinterpret_i64 =>
            Row::Unary(Ty::I64, Ty::F64),
        F64Op::f64_promote_f32 => Row::Unary(Ty::F32, Ty::F64),
    }
}

/// Returns the row of an instruction whose name begins with `i8x16`.
#[tactic(auto, unfolding(crate::specs::Rows::row_of_i8x16))]
fn i8x16_row(op: I8x16Op) -> Row
    ensures { result ≡ row_of_i8x16 op }
{
    match op {
        I8x16Op::i8x16_swizzle
        | I8x16Op::i8x16_eq
        | I8x16Op::i8x16_ne
        | I8x16Op::i8x16_lt_s
        | I8x16Op::i8x16_lt_u
        | I8x16Op::i8x16_gt_s
        | I8x16Op::i8x16_gt_u
        | I8x16Op::i8x16_le_s
        | I8x16Op::i8x16_le_u
        | I8x16Op::i8x16_ge_s
        | I8x16Op::i8x16_ge_u
        | I8x16Op::i8x16_narrow_i16x8_s
        | I8x16Op::i8x16_narrow_i16x8_u
        | I8x16Op::i8x16_add
        | I8x16Op::i8x16_add_sat_s
        | I8x16Op::i8x16_add_sat_u
        | I8x16Op::i8x16_sub
        | I8x16Op::i8x16_sub_sat_s
        | I8x16Op::i8x16_sub_sat_u
        | I8x16Op::i8x16_min_s
        | I8x16Op::i8x16_min_u
        | I8x16Op::i8x16_max_s
        | I8x16Op::i8x16_max_u
        | I8x16Op::i8x16_avgr_u
        | I8x16Op::i8x16_relaxed_swizzle => Row::Binary(Ty::V128, Ty::V128, Ty::V128),
        I8x16Op::i8x16_splat => Row::Unary(Ty::I32, Ty::V128),
        I8x16Op::i8x16_abs | I8x16Op::i8x16_neg | I8x16Op::i8x16_popcnt => Row::Unary(
            Ty::V128,
            Ty::V128,
        ),
        I8x16Op::i8x16_all_true | I8x16Op::i8x16_bitmask => Row::Unary(Ty::V128, Ty::I32),
        I8x16Op::i8x16_shl | I8x16Op::i8x16_shr_s | I8x16Op::i8x16_shr_u => Row::Binary(
            Ty::V128,
            Ty::I32,
            Ty::V128,
        ),
        I8x16Op::i8x16_relaxed_laneselect => Row::Ternary(Ty::V128, Ty::V128, Ty::V128, Ty::V128),
    }
}

/// Returns the row of an instruction whose name begins with `i16x8`.
#[tactic(auto, unfolding(crate::specs::Rows::row_of_i16x8))]
fn i16x8_row(op: I16x8Op) -> Row
    ensures { result ≡ row_of_i16x8 op }
{
    match op {
        I16x8Op::i16x8_splat => Row::Unary(Ty::I32, Ty::V128),
        I16x8Op::i16x8_eq
        | I16x8Op::i16x8_ne
        | I16x8Op::i16x8_lt_s
        | I16x8Op::i16x8_lt_u
        | I16x8Op::i16x8_gt_s
        | I16x8Op::i16x8_gt_u
        | I16x8Op::i16x8_le_s
        | I16x8Op::i16x8_le_u
        | I16x8Op::i16x8_ge_s
        | I16x8Op::i16x8_ge_u
        | I16x8Op::i16x8_q15mulr_sat_s
        | I16x8Op::i16x8_narrow_i32x4_s
        | I16x8Op::i16x8_narrow_i32x4_u
        | I16x8Op::i16x8_add
        | I16x8Op::i16x8_add_sat_s
        | I16x8Op::i16x8_add_sat_u
        | I16x8Op::i16x8_sub
        | I16x8Op::i16x8_sub_sat_s
        | I16x8Op::i16x8_sub_sat_u
        | I16x8Op::i16x8_mul
        | I16x8Op::i16x8_min_s
        | I16x8Op::i16x8_min_u
        | I16x8Op::i16x8_max_s
        | I16x8Op::i16x8_max_u
        | I16x8Op::i16x8_avgr_u
        | I16x8Op::i16x8_extmul_low_i8x16_s
        | I16x8Op::i16x8_extmul_high_i8x16_s
        | I16x8Op::i16x8_extmul_low_i8x16_u
        | I16x8Op::i16x8_extmul_high_i8x16_u
        | I16x8Op::i16x8_relaxed_q15mulr_s
        | I16x8Op::i16x8_relaxed_dot_i8x16_i7x16_s => Row::Binary(Ty::V128, Ty::V128, Ty::V128),
        I16x8Op::i16x8_extadd_pairwise_i8x16_s
        | I16x8Op::i16x8_extadd_pairwise_i8x16_u
        | I16x8Op::i16x8_abs
        | I16x8Op::i16x8_neg
        | I16x8Op::i16x8_extend_low_i8x16_s
        | I16x8Op::i16x8_extend_high_i8x16_s
        | I16x8Op::i16x8_extend_low_i8x16_u
        | I16x8Op::i16x8_extend_high_i8x16_u => Row::Unary(Ty::V128, Ty::V128),
        I16x8Op::i16x8_all_true | I16x8Op::i16x8_bitmask => Row::Unary(Ty::V128, Ty::I32),
        I16x8Op::i16x8_shl | I16x8Op::i16x8_shr_s | I16x8Op::i16x8_shr_u => Row::Binary(
            Ty::V128,
            Ty::I32,
            Ty::V128,
        ),
        I16x8Op::i16x8_relaxed_laneselect => Row::Ternary(Ty::V128, Ty::V128, Ty::V128, Ty::V128),
    }
}

/// Returns the row of an instruction whose name begins with `i32x4`.
#[tactic(auto, unfolding(crate::specs::Rows::row_of_i32x4))]
fn i32x4_row(op: I32x4Op) -> Row
    ensures { result ≡ row_of_i32x4 op }
{
    match op {
        I32x4Op::i32x4_splat => Row::Unary(Ty::I32, Ty::V128),
        I32x4Op::i32x4_eq
        | I32x4Op::i32x4_ne
        | I32x4Op::i32x4_lt_s
        | I32x4Op::i32x4_lt_u
        | I32x4Op::i32x4_gt_s
        | I32x4Op::i32x4_gt_u
        | I32x4Op::i32x4_le_s
        | I32x4Op::i32x4_le_u
        | I32x4Op::i32x4_ge_s
        | I32x4Op::i32x4_ge_u
        | I32x4Op::i32x4_add
        | I32x4Op::i32x4_sub
        | I32x4Op::i32x4_mul
        | I32x4Op::i32x4_min_s
        | I32x4Op::i32x4_min_u
        | I32x4Op::i32x4_max_s
        | I32x4Op::i32x4_max_u
        | I32x4Op::i32x4_dot_i16x8_s
        | I32x4Op::i32x4_extmul_low_i16x8_s
        | I32x4Op::i32x4_extmul_high_i16x8_s
        | I32x4Op::i32x4_extmul_low_i16x8_u
        | I32x4Op::i32x4_extmul_high_i16x8_u => Row::Binary(Ty::V128, Ty::V128, Ty::V128),
        I32x4Op::i32x4_extadd_pairwise_i16x8_s
        | I32x4Op::i32x4_extadd_pairwise_i16x8_u
        | I32x4Op::i32x4_abs
        | I32x4Op::i32x4_neg
        | I32x4Op::i32x4_extend_low_i16x8_s
        | I32x4Op::i32x4_extend_high_i16x8_s
        | I32x4Op::i32x4_extend_low_i16x8_u
        | I32x4Op::i32x4_extend_high_i16x8_u
        | I32x4Op::i32x4_trunc_sat_f32x4_s
        | I32x4Op::i32x4_trunc_sat_f32x4_u
        | I32x4Op::i32x4_trunc_sat_f64x2_s_zero
        | I32x4Op::i32x4_trunc_sat_f64x2_u_zero
        | I32x4Op::i32x4_relaxed_trunc_f32x4_s
        | I32x4Op::i32x4_relaxed_trunc_f32x4_u
        | I32x4Op::i32x4_relaxed_trunc_f64x2_s_zero
        | I32x4Op::i32x4_relaxed_trunc_f64x2_u_zero => Row::Unary(Ty::V128, Ty::V128),
        I32x4Op::i32x4_all_true | I32x4Op::i32x4_bitmask => Row::Unary(Ty::V128, Ty::I32),
        I32x4Op::i32x4_shl | I32x4Op::i32x4_shr_s | I32x4Op::i32x4_shr_u => Row::Binary(
            Ty::V128,
            Ty::I32,
            Ty::V128,
        ),
        I32x4Op::i32x4_relaxed_laneselect | I32x4Op::i32x4_relaxed_dot_i8x16_i7x16_add_s =>
            Row::Ternary(Ty::V128, Ty::V128, Ty::V128, Ty::V128),
    }
}

/// Returns the row of an instruction whose name begins with `i64x2`.
#[tactic(auto, unfolding(crate::specs::Rows::row_of_i64x2))]
fn i64x2_row(op: I64x2Op) -> Row
    ensures { result ≡ row_of_i64x2 op }
{
    match op {
        I64x2Op::i64x2_splat => Row::Unary(Ty::I64, Ty::V128),
        I64x2Op::i64x2_abs
        | I64x2Op::i64x2_neg
        | I64x2Op::i64x2_extend_low_i32x4_s
        | I64x2Op::i64x2_extend_high_i32x4_s
        | I64x2Op::i64x2_extend_low_i32x4_u
        | I64x2Op::i64x2_extend_high_i32x4_u => Row::Unary(Ty::V128, Ty::V128),
        I64x2Op::i64x2_all_true | I64x2Op::i64x2_bitmask => Row::Unary(Ty::V128, Ty::I32),
        I64x2Op::i64x2_shl | I64x2Op::i64x2_shr_s | I64x2Op::i64x2_shr_u => Row::Binary(
            Ty::V128,
            Ty::I32,
            Ty::V128,
        ),
        I64x2Op::i64x2_add
        | I64x2Op::i64x2_sub
        | I64x2Op::i64x2_mul
        | I64x2Op::i64x2_eq
        | I64x2Op::i64x2_ne
        | I64x2Op::i64x2_lt_s
        | I64x2Op::i64x2_gt_s
        | I64x2Op::i64x2_le_s
        | I64x2Op::i64x2_ge_s
        | I64x2Op::i64x2_extmul_low_i32x4_s
        | I64x2Op::i64x2_extmul_high_i32x4_s
        | I64x2Op::i64x2_extmul_low_i32x4_u
        | I64x2Op::i64x2_extmul_high_i32x4_u => Row::Binary(Ty::V128, Ty::V128, Ty::V128),
        I64x2Op::i64x2_relaxed_laneselect => Row::Ternary(Ty::V128, Ty::V128, Ty::V128, Ty::V128),
    }
}

/// Returns the row of an instruction whose name begins with `f32x4`.
#[tactic(auto, unfolding(crate::specs::Rows::row_of_f32x4))]
fn f32x4_row(op: F32x4Op) -> Row
    ensures { result ≡ row_of_f32x4 op }
{
    match op {
        F32x4Op::f32x4_splat => Row::Unary(Ty::F32, Ty::V128),
        F32x4Op::f32x4_eq
        | F32x4Op::f32x4_ne
        | F32x4Op::f32x4_lt
        | F32x4Op::f32x4_gt
        | F32x4Op::f32x4_le
        | F32x4Op::f32x4_ge
        | F32x4Op::f32x4_add
        | F32x4Op::f32x4_sub
        | F32x4Op::f32x4_mul
        | F32x4Op::f32x4_div
        | F32x4Op::f32x4_min
        | F32x4Op::f32x4_max
        | F32x4Op::f32x4_pmin
        | F32x4Op::f32x4_pmax
        | F32x4Op::f32x4_relaxed_min
        | F32x4Op::f32x4_relaxed_max => Row::Binary(Ty::V128, Ty::V128, Ty::V128),
        F32x4Op::f32x4_demote_f64x2_zero
        | F32x4Op::f32x4_ceil
        | F32x4Op::f32x4_floor
        | F32x4Op::f32x4_trunc
        | F32x4Op::f32x4_nearest
        | F32x4Op::f32x4_abs
        | F32x4Op::f32x4_neg
        | F32x4Op::f32x4_sqrt
        | F32x4Op::f32x4_convert_i32x4_s
        | F32x4Op::f32x4_convert_i32x4_u => Row::Unary(Ty::V128, Ty::V128),
        F32x4Op::f32x4_relaxed_madd | F32x4Op::f32x4_relaxed_nmadd => Row::Ternary(
            Ty::V128,
            Ty::V128,
            Ty::V128,
            Ty::V128,
        ),
    }
}

/// Returns the row of an instruction whose name begins with `f64x2`.
#[tactic(auto, unfolding(crate::specs::Rows::row_of_f64x2))]
fn f64x2_row(op: F64x2Op) -> Row
    ensures { result ≡ row_of_f64x2 op }
{
    match op {
        F64x2Op::f64x2_splat => Row::Unary(Ty::F64, Ty::V128),
        F64x2Op::f64x2_eq
        | F64x2Op::f64x2_ne
        | F64x2Op::f64x2_lt
        | F64x2Op::f64x2_gt
        | F64x2Op::f64x2_le
        | F64x2Op::f64x2_ge
        | F64x2Op::f64x2_add
        | F64x2Op::f64x2_sub
        | F64x2Op::f64x2_mul
        | F64x2Op::f64x2_div
        | F64x2Op::f64x2_min
        | F64x2Op::f64x2_max
        | F64x2Op::f64x2_pmin
        | F64x2Op::f64x2_pmax
        | F64x2Op::f64x2_relaxed_min
        | F64x2Op::f64x2_relaxed_max => Row::Binary(Ty::V128, Ty::V128, Ty::V128),
        F64x2Op::f64x2_promote_low_f32x4
        | F64x2Op::f64x2_ceil
        | F64x2Op::f64x2_floor
        | F64x2Op::f64x2_trunc
        | F64x2Op::f64x2_nearest
        | F64x2Op::f64x2_abs
        | F64x2Op::f64x2_neg
        | F64x2Op::f64x2_sqrt
        | F64x2Op::f64x2_convert_low_i32x4_s
        | F64x2Op::f64x2_convert_low_i32x4_u => Row::Unary(Ty::V128, Ty::V128),
        F64x2Op::f64x2_relaxed_madd | F64x2Op::f64x2_relaxed_nmadd => Row::Ternary(
            Ty::V128,
            Ty::V128,
            Ty::V128,
            Ty::V128,
        ),
    }
}

/// Returns the row of an instruction whose name begins with `v128`.
#[tactic(auto, unfolding(crate::specs::Rows::row_of_v128))]
fn v128_row(op: V128Op) -> Row
    ensures { result ≡ row_of_v128 op }
{
    match op {
        V128Op::v128_not => Row::Unary(Ty::V128, Ty::V128),
        V128Op::v128_and | V128Op::v128_andnot | V128Op::v128_or | V128Op::v128_xor => Row::Binary(
            Ty::V128,
            Ty::V128,
            Ty::V128,
        ),
        V128Op::v128_bitselect => Row::Ternary(Ty::V128, Ty::V128, Ty::V128, Ty::V128),
        V128Op::v128_any_true => Row::Unary(Ty::V128, Ty::I32),
    }
}

/// Returns the row of an instruction whose name begins with `ref`, if it has a fixed type.
#[tactic(auto, unfolding(crate::specs::Rows::row_of_ref))]
pub(crate) fn ref_row(op: RefOp) -> Option<Row>
    ensures { result ≡ row_of_ref op }
{
    match op {
        RefOp::ref_eq => {
            let eqref = Ty::Ref(RefTy {
                nullable: true,
                heap: Heap::Eqs,
            });
            Some(Row::Binary(eqref, eqref, Ty::I32))
        }
        RefOp::ref_i31 => Some(Row::Unary(
            Ty::I32,
            Ty::Ref(RefTy {
                nullable: false,
                heap: Heap::I31,
            }),
        )),
        RefOp::ref_is_null | RefOp::ref_as_non_null => None,
    }
}

/// Returns the row of an instruction whose name begins with `array`.
#[tactic(auto, unfolding(crate::specs::Rows::row_of_array))]
fn array_row(op: ArrayOp) -> Row
    ensures { result ≡ row_of_array op }
{
    match op {
        ArrayOp::array_len => Row::Unary(
            Ty::Ref(RefTy {
                nullable: true,
                heap: Heap::Arrays,
            }),
            Ty::I32,
        ),
    }
}

/// Returns the row of an instruction whose name begins with `i31`.
#[tactic(auto, unfolding(crate::specs::Rows::row_of_i31))]
fn i31_row(op: I31Op) -> Row
    ensures { result ≡ row_of_i31 op }
{
    match op {
        I31Op::i31_get_s | I31Op::i31_get_u => Row::Unary(
            Ty::Ref(RefTy {
                nullable: true,
                heap: Heap::I31,
            }),
            Ty::I32,
        ),
    }
}

/// Returns the row of an instruction without immediates, or `None` if it has no fixed type.
#[tactic(auto, unfolding(crate::specs::Rows::row_of))]
pub fn row_for(op: Plain) -> Option<Row>
    ensures { result ≡ row_of op }
{
    match op {
        Plain::I32(op) => Some(i32_row(op)),
        Plain::I64(op) => Some(i64_row(op)),
        Plain::F32(op) => Some(f32_row(op)),
        Plain::F64(op) => Some(f64_row(op)),
        Plain::I8x16(op) => Some(i8x16_row(op)),
        Plain::I16x8(op) => Some(i16x8_row(op)),
        Plain::I32x4(op) => Some(i32x4_row(op)),
        Plain::I64x2(op) => Some(i64x2_row(op)),
        Plain::F32x4(op) => Some(f32x4_row(op)),
        Plain::F64x2(op) => Some(f64x2_row(op)),
        Plain::V128(op) => Some(v128_row(op)),
        Plain::Ref(op) => ref_row(op),
        Plain::Array(op) => Some(array_row(op)),
        Plain::I31(op) => Some(i31_row(op)),
        Plain::Bare(_) | Plain::Any(_) | Plain::Extern(_) => None,
    }
}

/// Returns what a load or a store accesses, or `None` for an atomic instruction.
#[tactic(auto, unfolding(crate::specs::Rows::access_of))]
pub fn access_for(op: MemOp) -> Option<Access>
    ensures { result ≡ access_of op }
{
    match op {
        MemOp::i32_load => Some(Access::Load(Ty::I32, 4)),
        MemOp::i64_load => Some(Access::Load(Ty::I64, 8)),
        MemOp::f32_load => Some(Access::Load(Ty::F32, 4)),
        MemOp::f64_load => Some(Access::Load(Ty::F64, 8)),
        MemOp::i32_load8_s | MemOp::i32_load8_u => Some(Access::Load(Ty::I32, 1)),
        MemOp::i32_load16_s | MemOp::i32_load16_u => Some(Access::Load(Ty::I32, 2)),
        MemOp::i64_load8_s | MemOp::i64_load8_u => Some(Access::Load(Ty::I64, 1)),
        MemOp::i64_load16_s | MemOp::i64_load16_u => Some(Access::Load(Ty::I64, 2)),
        MemOp::i64_load32_s | MemOp::i64_load32_u => Some(Access::Load(Ty::I64, 4)),
        MemOp::i32_store => Some(Access::Store(Ty::I32, 4)),
        MemOp::i64_store => Some(Access::Store(Ty::I64, 8)),
        MemOp::f32_store => Some(Access::Store(Ty::F32, 4)),
        MemOp::f64_store => Some(Access::Store(Ty::F64, 8)),
        MemOp::i32_store8 => Some(Access::Store(Ty::I32, 1)),
        MemOp::i32_store16 => Some(Access::Store(Ty::I32, 2)),
        MemOp::i64_store8 => Some(Access::Store(Ty::I64, 1)),
        MemOp::i64_store16 => Some(Access::Store(Ty::I64, 2)),
        MemOp::i64_store32 => Some(Access::Store(Ty::I64, 4)),
        MemOp::v128_load => Some(Access::Load(Ty::V128, 16)),
        MemOp::v128_load8x8_s
        | MemOp::v128_load8x8_u
        | MemOp::v128_load16x4_s
        | MemOp::v128_load16x4_u
        | MemOp::v128_load32x2_s
        | MemOp::v128_load32x2_u
        | MemOp::v128_load64_splat
        | MemOp::v128_load64_zero => Some(Access::Load(Ty::V128, 8)),
        MemOp::v128_load8_splat => Some(Access::Load(Ty::V128, 1)),
        MemOp::v128_load16_splat => Some(Access::Load(Ty::V128, 2)),
        MemOp::v128_load32_splat | MemOp::v128_load32_zero => Some(Access::Load(Ty::V128, 4)),
        MemOp::v128_store => Some(Access::Store(Ty::V128, 16)),
        _ => None,
    }
}

/// Returns the access of a load or a store of a lane, and the number of lanes of this size.
#[tactic(auto, unfolding(crate::specs::Rows::lane_access_of))]
pub fn lane_access_for(op: MemLaneOp) -> LaneAccess
    ensures { result ≡ lane_access_of op }
{
    match op {
        MemLaneOp::v128_load8_lane => LaneAccess {
            access: Access::Load(Ty::V128, 1),
            lanes: 16,
        },
        MemLaneOp::v128_load16_lane => LaneAccess {
            access: Access::Load(Ty::V128, 2),
            lanes: 8,
        },
        MemLaneOp::v128_load32_lane => LaneAccess {
            access: Access::Load(Ty::V128, 4),
            lanes: 4,
        },
        MemLaneOp::v128_load64_lane => LaneAccess {
            access: Access::Load(Ty::V128, 8),
            lanes: 2,
        },
        MemLaneOp::v128_store8_lane => LaneAccess {
            access: Access::Store(Ty::V128, 1),
            lanes: 16,
        },
        MemLaneOp::v128_store16_lane => LaneAccess {
            access: Access::Store(Ty::V128, 2),
            lanes: 8,
        },
        MemLaneOp::v128_store32_lane => LaneAccess {
            access: Access::Store(Ty::V128, 4),
            lanes: 4,
        },
        MemLaneOp::v128_store64_lane => LaneAccess {
            access: Access::Store(Ty::V128, 8),
            lanes: 2,
        },
    }
}

/// Returns the row of an instruction on a lane, and the number of lanes.
#[tactic(auto, unfolding(crate::specs::Rows::lane_use_of))]
pub fn lane_use_for(op: LaneOp) -> LaneUse
    ensures { result ≡ lane_use_of op }
{
    match op {
        LaneOp::i8x16_extract_lane_s | LaneOp::i8x16_extract_lane_u => LaneUse {
            row: Row::Unary(Ty::V128, Ty::I32),
            lanes: 16,
        },
        LaneOp::i8x16_replace_lane => LaneUse {
            row: Row::Binary(Ty::V128, Ty::I32, Ty::V128),
            lanes: 16,
        },
        LaneOp::i16x8_extract_lane_s | LaneOp::i16x8_extract_lane_u => LaneUse {
            row: Row::Unary(Ty::V128, Ty::I32),
            lanes: 8,
        },
        LaneOp::i16x8_replace_lane => LaneUse {
            row: Row::Binary(Ty::V128, Ty::I32, Ty::V128),
            lanes: 8,
        },
        LaneOp::i32x4_extract_lane => LaneUse {
            row: Row::Unary(Ty::V128, Ty::I32),
            lanes: 4,
        },
        LaneOp::i32x4_replace_lane => LaneUse {
            row: Row::Binary(Ty::V128, Ty::I32, Ty::V128),
            lanes: 4,
        },
        LaneOp::i64x2_extract_lane => LaneUse {
            row: Row::Unary(Ty::V128, Ty::I64),
            lanes: 2,
        },
        LaneOp::i64x2_replace_lane => LaneUse {
            row: Row::Binary(Ty::V128, Ty::I64, Ty::V128),
            lanes: 2,
        },
        LaneOp::f32x4_extract_lane => LaneUse {
            row: Row::Unary(Ty::V128, Ty::F32),
            lanes: 4,
        },
        LaneOp::f32x4_replace_lane => LaneUse {
            row: Row::Binary(Ty::V128, Ty::F32, Ty::V128),
            lanes: 4,
        },
        LaneOp::f64x2_extract_lane => LaneUse {
            row: Row::Unary(Ty::V128, Ty::F64),
            lanes: 2,
        },
        LaneOp::f64x2_replace_lane => LaneUse {
            row: Row::Binary(Ty::V128, Ty::F64, Ty::V128),
            lanes: 2,
        },
    }
}
