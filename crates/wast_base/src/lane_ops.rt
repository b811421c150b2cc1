//! Names of instructions on a lane of a vector. `tools/ops` writes this file.

/// An instruction on a lane of a vector (text format: instructions).
///
/// The number of a variant is its opcode. For an opcode of a prefix byte and a number it is 65536
/// times the prefix byte, plus the number: `fc 09` is `0xfc0009`.
#[allow(non_camel_case_types)]
#[derive(Clone, Copy, Debug, PartialEq, Eq)]
pub enum LaneOp {
    /// `i8x16.extract_lane_s`
    i8x16_extract_lane_s = 0xfd0015,
    /// `i8x16.extract_lane_u`
    i8x16_extract_lane_u,
    /// `i8x16.replace_lane`
    i8x16_replace_lane,
    /// `i16x8.extract_lane_s`
    i16x8_extract_lane_s,
    /// `i16x8.extract_lane_u`
    i16x8_extract_lane_u,
    /// `i16x8.replace_lane`
    i16x8_replace_lane,
    /// `i32x4.extract_lane`
    i32x4_extract_lane,
    /// `i32x4.replace_lane`
    i32x4_replace_lane,
    /// `i64x2.extract_lane`
    i64x2_extract_lane,
    /// `i64x2.replace_lane`
    i64x2_replace_lane,
    /// `f32x4.extract_lane`
    f32x4_extract_lane,
    /// `f32x4.replace_lane`
    f32x4_replace_lane,
    /// `f64x2.extract_lane`
    f64x2_extract_lane,
    /// `f64x2.replace_lane`
    f64x2_replace_lane,
}

/// A load of a lane of a vector, or a store of one (text format: instructions).
///
/// The number of a variant is its opcode. For an opcode of a prefix byte and a number it is 65536
/// times the prefix byte, plus the number: `fc 09` is `0xfc0009`.
#[allow(non_camel_case_types)]
#[derive(Clone, Copy, Debug, PartialEq, Eq)]
pub enum MemLaneOp {
    /// `v128.load8_lane`
    v128_load8_lane = 0xfd0054,
    /// `v128.load16_lane`
    v128_load16_lane,
    /// `v128.load32_lane`
    v128_load32_lane,
    /// `v128.load64_lane`
    v128_load64_lane,
    /// `v128.store8_lane`
    v128_store8_lane,
    /// `v128.store16_lane`
    v128_store16_lane,
    /// `v128.store32_lane`
    v128_store32_lane,
    /// `v128.store64_lane`
    v128_store64_lane,
}
