//! Names of loads, stores and other memory accesses. `tools/ops` writes this file.

/// An instruction with a memory argument (text format: instructions).
///
/// The number of a variant is its opcode. For an opcode of a prefix byte and a number it is 65536
/// times the prefix byte, plus the number: `fc 09` is `0xfc0009`.
#[allow(non_camel_case_types)]
#[derive(Clone, Copy, Debug, PartialEq, Eq)]
pub enum MemOp {
    /// `i32.load`
    i32_load = 0x28,
    /// `i64.load`
    i64_load,
    /// `f32.load`
    f32_load,
    /// `f64.load`
    f64_load,
    /// `i32.load8_s`
    i32_load8_s,
    /// `i32.load8_u`
    i32_load8_u,
    /// `i32.load16_s`
    i32_load16_s,
    /// `i32.load16_u`
    i32_load16_u,
    /// `i64.load8_s`
    i64_load8_s,
    /// `i64.load8_u`
    i64_load8_u,
    /// `i64.load16_s`
    i64_load16_s,
    /// `i64.load16_u`
    i64_load16_u,
    /// `i64.load32_s`
    i64_load32_s,
    /// `i64.load32_u`
    i64_load32_u,
    /// `i32.store`
    i32_store,
    /// `i64.store`
    i64_store,
    /// `f32.store`
    f32_store,
    /// `f64.store`
    f64_store,
    /// `i32.store8`
    i32_store8,
    /// `i32.store16`
    i32_store16,
    /// `i64.store8`
    i64_store8,
    /// `i64.store16`
    i64_store16,
    /// `i64.store32`
    i64_store32,
    /// `v128.load`
    v128_load = 0xfd0000,
    /// `v128.load8x8_s`
    v128_load8x8_s,
    /// `v128.load8x8_u`
    v128_load8x8_u,
    /// `v128.load16x4_s`
    v128_load16x4_s,
    /// `v128.load16x4_u`
    v128_load16x4_u,
    /// `v128.load32x2_s`
    v128_load32x2_s,
    /// `v128.load32x2_u`
    v128_load32x2_u,
    /// `v128.load8_splat`
    v128_load8_splat,
    /// `v128.load16_splat`
    v128_load16_splat,
    /// `v128.load32_splat`
    v128_load32_splat,
    /// `v128.load64_splat`
    v128_load64_splat,
    /// `v128.store`
    v128_store,
    /// `v128.load32_zero`
    v128_load32_zero = 0xfd005c,
    /// `v128.load64_zero`
    v128_load64_zero,
    /// `memory.atomic.notify`
    memory_atomic_notify = 0xfe0000,
    /// `memory.atomic.wait32`
    memory_atomic_wait32,
    /// `memory.atomic.wait64`
    memory_atomic_wait64,
    /// `i32.atomic.load`
    i32_atomic_load = 0xfe0010,
    /// `i64.atomic.load`
    i64_atomic_load,
    /// `i32.atomic.load8_u`
    i32_atomic_load8_u,
    /// `i32.atomic.load16_u`
    i32_atomic_load16_u,
    /// `i64.atomic.load8_u`
    i64_atomic_load8_u,
    /// `i64.atomic.load16_u`
    i64_atomic_load16_u,
    /// `i64.atomic.load32_u`
    i64_atomic_load32_u,
    /// `i32.atomic.store`
    i32_atomic_store,
    /// `i64.atomic.store`
    i64_atomic_store,
    /// `i32.atomic.store8`
    i32_atomic_store8,
    /// `i32.atomic.store16`
    i32_atomic_store16,
    /// `i64.atomic.store8`
    i64_atomic_store8,
    /// `i64.atomic.store16`
    i64_atomic_store16,
    /// `i64.atomic.store32`
    i64_atomic_store32,
    /// `i32.atomic.rmw.add`
    i32_atomic_rmw_add,
    /// `i64.atomic.rmw.add`
    i64_atomic_rmw_add,
    /// `i32.atomic.rmw8.add_u`
    i32_atomic_rmw8_add_u,
    /// `i32.atomic.rmw16.add_u`
    i32_atomic_rmw16_add_u,
    /// `i64.atomic.rmw8.add_u`
    i64_atomic_rmw8_add_u,
    /// `i64.atomic.rmw16.add_u`
    i64_atomic_rmw16_add_u,
    /// `i64.atomic.rmw32.add_u`
    i64_atomic_rmw32_add_u,
    /// `i32.atomic.rmw.sub`
    i32_atomic_rmw_sub,
    /// `i64.atomic.rmw.sub`
    i64_atomic_rmw_sub,
    /// `i32.atomic.rmw8.sub_u`
    i32_atomic_rmw8_sub_u,
    /// `i32.atomic.rmw16.sub_u`
    i32_atomic_rmw16_sub_u,
    /// `i64.atomic.rmw8.sub_u`
    i64_atomic_rmw8_sub_u,
    /// `i64.atomic.rmw16.sub_u`
    i64_atomic_rmw16_sub_u,
    /// `i64.atomic.rmw32.sub_u`
    i64_atomic_rmw32_sub_u,
    /// `i32.atomic.rmw.and`
    i32_atomic_rmw_and,
    /// `i64.atomic.rmw.and`
    i64_atomic_rmw_and,
    /// `i32.atomic.rmw8.and_u`
    i32_atomic_rmw8_and_u,
    /// `i32.atomic.rmw16.and_u`
    i32_atomic_rmw16_and_u,
    /// `i64.atomic.rmw8.and_u`
    i64_atomic_rmw8_and_u,
    /// `i64.atomic.rmw16.and_u`
    i64_atomic_rmw16_and_u,
    /// `i64.atomic.rmw32.and_u`
    i64_atomic_rmw32_and_u,
    /// `i32.atomic.rmw.or`
    i32_atomic_rmw_or,
    /// `i64.atomic.rmw.or`
    i64_atomic_rmw_or,
    /// `i32.atomic.rmw8.or_u`
    i32_atomic_rmw8_or_u,
    /// `i32.atomic.rmw16.or_u`
    i32_atomic_rmw16_or_u,
    /// `i64.atomic.rmw8.or_u`
    i64_atomic_rmw8_or_u,
    /// `i64.atomic.rmw16.or_u`
    i64_atomic_rmw16_or_u,
    /// `i64.atomic.rmw32.or_u`
    i64_atomic_rmw32_or_u,
    /// `i32.atomic.rmw.xor`
    i32_atomic_rmw_xor,
    /// `i64.atomic.rmw.xor`
    i64_atomic_rmw_xor,
    /// `i32.atomic.rmw8.xor_u`
    i32_atomic_rmw8_xor_u,
    /// `i32.atomic.rmw16.xor_u`
    i32_atomic_rmw16_xor_u,
    /// `i64.atomic.rmw8.xor_u`
    i64_atomic_rmw8_xor_u,
    /// `i64.atomic.rmw16.xor_u`
    i64_atomic_rmw16_xor_u,
    /// `i64.atomic.rmw32.xor_u`
    i64_atomic_rmw32_xor_u,
    /// `i32.atomic.rmw.xchg`
    i32_atomic_rmw_xchg,
    /// `i64.atomic.rmw.xchg`
    i64_atomic_rmw_xchg,
    /// `i32.atomic.rmw8.xchg_u`
    i32_atomic_rmw8_xchg_u,
    /// `i32.atomic.rmw16.xchg_u`
    i32_atomic_rmw16_xchg_u,
    /// `i64.atomic.rmw8.xchg_u`
    i64_atomic_rmw8_xchg_u,
    /// `i64.atomic.rmw16.xchg_u`
    i64_atomic_rmw16_xchg_u,
    /// `i64.atomic.rmw32.xchg_u`
    i64_atomic_rmw32_xchg_u,
    /// `i32.atomic.rmw.cmpxchg`
    i32_atomic_rmw_cmpxchg,
    /// `i64.atomic.rmw.cmpxchg`
    i64_atomic_rmw_cmpxchg,
    /// `i32.atomic.rmw8.cmpxchg_u`
    i32_atomic_rmw8_cmpxchg_u,
    /// `i32.atomic.rmw16.cmpxchg_u`
    i32_atomic_rmw16_cmpxchg_u,
    /// `i64.atomic.rmw8.cmpxchg_u`
    i64_atomic_rmw8_cmpxchg_u,
    /// `i64.atomic.rmw16.cmpxchg_u`
    i64_atomic_rmw16_cmpxchg_u,
    /// `i64.atomic.rmw32.cmpxchg_u`
    i64_atomic_rmw32_cmpxchg_u,
}
