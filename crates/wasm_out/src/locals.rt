//! The locals of a body: maximal runs of equal types (binary format: code section).

ghost use Rattle.std.specs.Prelude.{◌≡◌, ◌<◌, ◌^◌, ◌&&◌, Bool, true, length, map, All, IsTrue, IfOk};
ghost use Rattle.std.specs.List.{flat_map, list_all};
ghost use Rattle.wasm_ops.specs.Sinks.{Writes};
ghost use Rattle.wasm_ops.specs.Spelling.{InRangeVec, val_type};
ghost use Rattle.wasm_ops.specs.declared.types.ValType.{ValType};
ghost use Rattle.wasm_out.specs.Bodies.{is_same_type, local_runs, locals, local_run};

use wasm_ops::{AsItself, Encode, Refusal, Sink, ValType};

/// A way to read the type of a local from an item of a list.
///
/// For example, [`AsItself`] reads it from a list of types. `wast_core` reads it from the locals of
/// its tree.
pub trait LocalType<T> {
    /// The type.
    ghost ty: { Self → T → ValType };

    /// Whether the type can be read.
    ghost is_ready: { Self → T → Bool };

    /// Returns the type of an item, as the type of a local.
    fn local_type(&self, item: &T) -> ValType
        requires { IsTrue (is_ready self.now item.now) }
        ensures { result ≡ ty self.now item.now };
}

/// Each item is its own type.
impl LocalType<ValType> for AsItself {
    ghost ty = { λ _ t. t };

    ghost is_ready = { λ _ _. true };

    fn local_type(&self, item: &ValType) -> ValType {
        *item
    }
}

/// Returns whether two types are equal.
fn is_same(one: ValType, other: ValType) -> bool
    ensures { result ≡ is_same_type one other }
{
    one == other
}

/// Appends a run: its length and its type. Fails like [`Encode::encode`].
#[inline(always)]
fn put_run<S: Sink>(out: &mut S, run: (usize, ValType)) -> Result<(), Refusal>
    requires few { run.0 < 2 ^ 32 }
    requires covered { IsTrue (val_type run.1).is_covered }
    ensures { Writes S.rules (local_run run).in_range out.old out.new (local_run run).bytes result }
{
    let start = out.size();
    out.push_number(run.0 as u64)?;
    let second = run.1.encode(out);
    if second.is_err() {
        out.cut(start);
    }
    second
}

/// Appends the maximal runs of equal types, and returns how many there are.
///
/// Fails like [`Encode::encode`].
fn put_runs<T, W: LocalType<T>, S: Sink>(
    items: &[T],
    way: &W,
    out: &mut S,
) -> Result<usize, Refusal>
    requires few { length items.now < 2 ^ 32 }
    requires ready { IsTrue (list_all (λ x. W.is_ready way.now x && (val_type (W.ty way.now x)).is_covered) items.now) }
    ensures runs { let runs = local_runs (map (W.ty way.now) items.now) in Writes S.rules (All (λ x. (local_run x).in_range) runs) out.old out.new (flat_map (λ x. (local_run x).bytes) runs) result }
    ensures count { IfOk result (λ n. n ≡ length (local_runs (map (W.ty way.now) items.now))) }
{
    if items.is_empty() {
        return Ok(0);
    }
    let start = out.size();
    let mut run = (1, way.local_type(&items[0]));
    let mut count = 1;
    for at in 1..items.len() {
        let next = way.local_type(&items[at]);
        if is_same(run.1, next) {
            run.0 += 1;
            continue;
        }
        let result = put_run(out, run);
        if let Err(refusal) = result {
            out.cut(start);
            return Err(refusal);
        }
        run = (1, next);
        count += 1;
    }
    let last = put_run(out, run);
    if let Err(refusal) = last {
        out.cut(start);
        return Err(refusal);
    }
    Ok(count)
}

/// Appends the number of runs, which is known, and the runs.
fn put_counted<T, W: LocalType<T>, S: Sink>(
    items: &[T],
    way: &W,
    count: usize,
    out: &mut S,
) -> Result<(), Refusal>
    requires few { length items.now < 2 ^ 32 }
    requires ready { IsTrue (list_all (λ x. W.is_ready way.now x && (val_type (W.ty way.now x)).is_covered) items.now) }
    requires count { count ≡ length (local_runs (map (W.ty way.now) items.now)) }
    ensures { let types = map (W.ty way.now) items.now in Writes S.rules (All (λ x. (local_run x).in_range) (local_runs types)) out.old out.new (locals types) result }
{
    let start = out.size();
    out.push_number(count as u64)?;
    let runs = put_runs(items, way, out);
    if let Err(refusal) = runs {
        out.cut(start);
        return Err(refusal);
    }
    Ok(())
}

/// Appends the number of runs, then the runs.
///
/// One byte reserves the position of the number, which is known after the runs are written.
fn put_locals<T, W: LocalType<T>, S: Sink>(items: &[T], way: &W, out: &mut S) -> Result<(), Refusal>
    requires few { length items.now < 2 ^ 32 }
    requires ready { IsTrue (list_all (λ x. W.is_ready way.now x && (val_type (W.ty way.now x)).is_covered) items.now) }
    ensures { let types = map (W.ty way.now) items.now in Writes S.rules (All (λ x. (local_run x).in_range) (local_runs types)) out.old out.new (locals types) result }
{
    let start = out.size();
    out.push_bytes(&[0])?;
    let count = match put_runs(items, way, out) {
        Ok(count) => count,
        Err(refusal) => {
            out.cut(start);
            return Err(refusal);
        }
    };
    if out.set_number(start, count as u64) {
        return Ok(());
    }
    out.cut(start);
    put_counted(items, way, count, out)
}

/// `Locals(items, way)`: the locals of a body, as maximal runs of equal types (binary format: code
/// section).
///
/// The number of runs comes first, then each run as its length and its type: `i32 i32 i64` is
/// `02 02 7f 01 7e`. A list of 2^32 locals or more is out of range. Only the sink allocates.
#[derive(Clone, Copy)]
pub struct Locals<'a, T, W>(pub &'a [T], pub W);

impl<'a, T, W: LocalType<T>> Encode for Locals<'a, T, W> {
    ghost spelling = { λ s. locals (map (W.ty s.1) s.0.now) };

    ghost in_range = { λ s. InRangeVec (λ x. (val_type x).in_range) (map (W.ty s.1) s.0.now) };

    ghost is_ready = { λ s. list_all (λ x. W.is_ready s.1 x && (val_type (W.ty s.1 x)).is_covered) s.0.now };

    fn encode<S: Sink>(&self, out: &mut S) -> Result<(), Refusal> {
        if u32::try_from(self.0.len()).is_err() {
            return Err(Refusal::TooLarge);
        }
        if self.0.is_empty() {
            return out.push_number(0);
        }
        put_locals(self.0, &self.1, out)
    }
}
