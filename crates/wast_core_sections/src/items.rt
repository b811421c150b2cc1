//! Lists of items that are written one after another.
//!
//! The functions are generic in the item, because a proof would otherwise compare the type of a
//! list of fields with itself.

ghost use Rattle.std.specs.Prelude.{◌++◌, length, All, IsTrue};
ghost use Rattle.std.specs.List.{flat_map, list_all};
ghost use Rattle.wasm_ops.specs.Leb128.{unsigned};
ghost use Rattle.wasm_ops.specs.Sinks.{Writes};
ghost use Rattle.wasm_ops.specs.Spelling.{InRangeU32};
ghost use Rattle.wasm_out.specs.Parts.{section};

use wasm_ops::{Each, Encode, EncodeWith, Refusal, Sink, WithLength};

/// Appends the items.
pub(crate) fn put_items<'b, T, W: EncodeWith<T> + Copy, S: Sink>(
    items: &'b [T],
    way: W,
    out: &'b mut S,
) -> Result<(), Refusal>
    requires { IsTrue (list_all (W.is_ready way) items.now) }
    ensures { Writes S.rules (All (W.in_range way) items.now) out.old out.new (flat_map (W.spelling way) items.now) result }
{
    Each(items, way).encode(out)
}

/// Appends the items as a section with this id, after its length and a count.
pub(crate) fn put_listed<'b, T, W: EncodeWith<T> + Copy, S: Sink>(
    items: &'b [T],
    way: W,
    id: u8,
    count: u32,
    out: &'b mut S,
) -> Result<(), Refusal>
    requires { IsTrue (list_all (W.is_ready way) items.now) }
    ensures { Writes S.rules (Unit {0} × (InRangeU32 (length (unsigned count ++ flat_map (W.spelling way) items.now)) × (InRangeU32 count × All (W.in_range way) items.now)))
        out.old out.new (section id (unsigned count ++ flat_map (W.spelling way) items.now)) result }
{
    (id, WithLength((count, Each(items, way)))).encode(out)
}
