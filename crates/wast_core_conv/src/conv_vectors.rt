//! Vectors, lanes and memory orderings as values of the binary format.

ghost use Rattle.std.specs.Int.{w8, w16, w32, w64, cast_unsigned, to_le_bytes};
ghost use Rattle.std.specs.Prelude.{◌≡◌, ◌<◌, [], ◌∷◌, flat_map, slice_index_or, pos, IsTrue};
ghost use Rattle.wast_base.specs.Ids.{is_number};
ghost use Rattle.wast_core_conv.specs.Meaning as meaning;

use crate::conv::index;
use wast_tree_nodes::{ArrayFill, F32, F64, I8x16Shuffle, LaneArg, V128Const};

/// Returns the bits of a lane.
fn byte_at(lanes: &[i8; 16], i: usize) -> u8
    requires { i < 16 }
    ensures { result ≡ cast_unsigned w8 (slice_index_or lanes.now i (pos 0)) }
{
    lanes[i].cast_unsigned()
}

/// Returns the bits of a lane.
fn half_at(lanes: &[i16; 8], i: usize) -> u16
    requires { i < 8 }
    ensures { result ≡ cast_unsigned w16 (slice_index_or lanes.now i (pos 0)) }
{
    lanes[i].cast_unsigned()
}

/// Returns the bits of a lane.
fn word_at(lanes: &[i32; 4], i: usize) -> u32
    requires { i < 4 }
    ensures { result ≡ cast_unsigned w32 (slice_index_or lanes.now i (pos 0)) }
{
    lanes[i].cast_unsigned()
}

/// Returns the bits of a lane.
fn long_at(lanes: &[i64; 2], i: usize) -> u64
    requires { i < 2 }
    ensures { result ≡ cast_unsigned w64 (slice_index_or lanes.now i (pos 0)) }
{
    lanes[i].cast_unsigned()
}

/// Returns the bytes of four 32-bit numbers, each in little-endian order.
fn of_words(a: u32, b: u32, c: u32, d: u32) -> [u8; 16]
    ensures { result ≡ flat_map (to_le_bytes w32) (a ∷ b ∷ c ∷ d ∷ []) }
{
    let [a0, a1, a2, a3] = a.to_le_bytes();
    let [b0, b1, b2, b3] = b.to_le_bytes();
    let [c0, c1, c2, c3] = c.to_le_bytes();
    let [d0, d1, d2, d3] = d.to_le_bytes();
    [
        a0, a1, a2, a3, b0, b1, b2, b3, c0, c1, c2, c3, d0, d1, d2, d3,
    ]
}

/// Returns the bytes of two 64-bit numbers, each in little-endian order.
fn of_longs(a: u64, b: u64) -> [u8; 16]
    ensures { result ≡ flat_map (to_le_bytes w64) (a ∷ b ∷ []) }
{
    let [a0, a1, a2, a3, a4, a5, a6, a7] = a.to_le_bytes();
    let [b0, b1, b2, b3, b4, b5, b6, b7] = b.to_le_bytes();
    [
        a0, a1, a2, a3, a4, a5, a6, a7, b0, b1, b2, b3, b4, b5, b6, b7,
    ]
}

/// Returns the bytes of 8-bit lanes.
fn of_i8x16(lanes: &[i8; 16]) -> [u8; 16]
    ensures { result ≡ meaning.i8_bytes lanes.now }
{
    [
        byte_at(lanes, 0),
        byte_at(lanes, 1),
        byte_at(lanes, 2),
        byte_at(lanes, 3),
        byte_at(lanes, 4),
        byte_at(lanes, 5),
        byte_at(lanes, 6),
        byte_at(lanes, 7),
        byte_at(lanes, 8),
        byte_at(lanes, 9),
        byte_at(lanes, 10),
        byte_at(lanes, 11),
        byte_at(lanes, 12),
        byte_at(lanes, 13),
        byte_at(lanes, 14),
        byte_at(lanes, 15),
    ]
}

/// Returns the bytes of 16-bit lanes.
fn of_i16x8(lanes: &[i16; 8]) -> [u8; 16]
    ensures { result ≡ meaning.i16_bytes lanes.now }
{
    let [a0, a1] = half_at(lanes, 0).to_le_bytes();
    let [b0, b1] = half_at(lanes, 1).to_le_bytes();
    let [c0, c1] = half_at(lanes, 2).to_le_bytes();
    let [d0, d1] = half_at(lanes, 3).to_le_bytes();
    let [e0, e1] = half_at(lanes, 4).to_le_bytes();
    let [f0, f1] = half_at(lanes, 5).to_le_bytes();
    let [g0, g1] = half_at(lanes, 6).to_le_bytes();
    let [h0, h1] = half_at(lanes, 7).to_le_bytes();
    [
        a0, a1, b0, b1, c0, c1, d0, d1, e0, e1, f0, f1, g0, g1, h0, h1,
    ]
}

/// Returns the bytes of 32-bit lanes.
fn of_i32x4(lanes: &[i32; 4]) -> [u8; 16]
    ensures { result ≡ meaning.i32_bytes lanes.now }
{
    of_words(
        word_at(lanes, 0),
        word_at(lanes, 1),
        word_at(lanes, 2),
        word_at(lanes, 3),
    )
}

/// Returns the bytes of 64-bit lanes.
fn of_i64x2(lanes: &[i64; 2]) -> [u8; 16]
    ensures { result ≡ meaning.i64_bytes lanes.now }
{
    of_longs(long_at(lanes, 0), long_at(lanes, 1))
}

/// Returns the bytes of four 32-bit floats.
fn of_f32x4(lanes: &[F32; 4]) -> [u8; 16]
    ensures { result ≡ meaning.f32_bytes lanes.now }
{
    of_words(lanes[0].bits, lanes[1].bits, lanes[2].bits, lanes[3].bits)
}

/// Returns the bytes of two 64-bit floats.
fn of_f64x2(lanes: &[F64; 2]) -> [u8; 16]
    ensures { result ≡ meaning.f64_bytes lanes.now }
{
    of_longs(lanes[0].bits, lanes[1].bits)
}

/// Returns the bytes of a vector, lowest first (binary format: vector instructions).
pub(crate) fn lane_bytes(value: &V128Const) -> [u8; 16]
    ensures { result ≡ meaning.lane_bytes value.now }
{
    match value {
        V128Const::I8x16(lanes) => of_i8x16(lanes),
        V128Const::I16x8(lanes) => of_i16x8(lanes),
        V128Const::I32x4(lanes) => of_i32x4(lanes),
        V128Const::I64x2(lanes) => of_i64x2(lanes),
        V128Const::F32x4(lanes) => of_f32x4(lanes),
        V128Const::F64x2(lanes) => of_f64x2(lanes),
    }
}

/// Converts a vector to the 128-bit number with the same bytes, lowest first (binary format: vector
/// instructions). For example, `v128.const i64x2 1 0` becomes 1.
pub fn v128_const(value: &V128Const) -> i128
    ensures { result ≡ meaning.as_v128 value.now }
{
    i128::from_le_bytes(lane_bytes(value))
}

/// Returns a lane index (binary format: vector instructions). For example,
/// `i8x16.extract_lane_s 3` has the lane 3.
pub fn lane_arg(arg: &LaneArg) -> u8
    ensures { result ≡ arg.now.lane }
{
    arg.lane
}

/// Returns the lanes that a shuffle selects (binary format: vector instructions).
pub fn shuffle(arg: &I8x16Shuffle) -> [u8; 16]
    ensures { result ≡ arg.now.lanes }
{
    arg.lanes
}

/// Returns the type index of `array.fill` (binary format: aggregate instructions). For example,
/// `array.fill 3` has the index 3.
pub fn array_fill(arg: &ArrayFill) -> u32
    requires { IsTrue (is_number arg.now.array) }
    ensures { result ≡ meaning.index_value arg.now.array }
{
    index(&arg.array)
}

/// Converts a memory ordering, such as `seq_cst` (binary format: atomic memory instructions).
pub fn ordering(ordering: wast_tree_nodes::Ordering) -> wasm_ops::Ordering
    ensures { result ≡ meaning.as_ordering ordering }
{
    match ordering {
        wast_tree_nodes::Ordering::SeqCst => wasm_ops::Ordering::SeqCst,
        wast_tree_nodes::Ordering::AcqRel => wasm_ops::Ordering::AcqRel,
    }
}

/// Returns the ordering of a fence. Without one in the source it is sequentially consistent.
pub(crate) fn fence_ordering(written: Option<wast_tree_nodes::Ordering>) -> wasm_ops::Ordering
    ensures { result ≡ meaning.fence_ordering written }
{
    match written {
        None => wasm_ops::Ordering::SeqCst,
        Some(written) => ordering(written),
    }
}

/// Converts the ordering of a memory argument (binary format: atomic memory instructions).
pub fn mem_arg_ordering(written: wast_tree_nodes::MemArgOrdering) -> wasm_ops::MemArgOrdering
    ensures { result ≡ meaning.as_mem_arg_ordering written }
{
    match written {
        wast_tree_nodes::MemArgOrdering::Op(own) => wasm_ops::MemArgOrdering::Op(ordering(own)),
        wast_tree_nodes::MemArgOrdering::Rmw(own) => wasm_ops::MemArgOrdering::Rmw(ordering(own)),
    }
}
