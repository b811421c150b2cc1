//! Immediates of vector instructions.

use crate::immediates::{F32, F64, MemArg};

/// The number of a lane, such as the 3 of `i8x16.extract_lane_s 3` (text format: instructions).
#[derive(Clone, Copy, Debug, PartialEq, Eq)]
pub struct LaneArg {
    /// The lane.
    pub lane: u8,
}

/// The immediates of a lane load or store, such as `v128.load8_lane offset=4 3`.
#[derive(Clone, Copy, Debug, PartialEq, Eq)]
pub struct LoadOrStoreLane<'a> {
    /// The memory argument.
    pub memarg: MemArg<'a>,
    /// The lane.
    pub lane: LaneArg,
}

/// The immediate of `v128.const i32x4 1 2 3 4`: a vector shape and its lanes.
#[derive(Clone, Copy, Debug, PartialEq, Eq)]
pub enum V128Const {
    /// `i8x16`
    I8x16([i8; 16]),
    /// `i16x8`
    I16x8([i16; 8]),
    /// `i32x4`
    I32x4([i32; 4]),
    /// `i64x2`
    I64x2([i64; 2]),
    /// `f32x4`
    F32x4([F32; 4]),
    /// `f64x2`
    F64x2([F64; 2]),
}

/// The lanes that a shuffle chooses: `i8x16.shuffle 0 1 2 3 4 5 6 7 8 9 10 11 12 13 14 31`.
#[derive(Clone, Copy, Debug, PartialEq, Eq)]
pub struct I8x16Shuffle {
    /// The numbers of the lanes, from 0 to 31.
    pub lanes: [u8; 16],
}
