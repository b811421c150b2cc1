//! Branch hints of a resolved function as bytes.

ghost use Rattle.std.specs.Prelude.{◌≡◌, ◌≤◌, ◌+◌, ◌&&◌, [], length, map, All, IfOk, IfErr, IsTrue};
ghost use Rattle.std.specs.List.{flat_map, list_all};
ghost use Rattle.wasm_ops.specs.Sinks.{Writes};
ghost use Rattle.wasm_ops.specs.Spelling.{InRangeU32, InRangeVec, InRangeSized, vec, val_type};
ghost use Rattle.wasm_ops.specs.Table.{instr};
ghost use Rattle.wasm_ops.specs.declared.sink.Refusal.TheVariants as refusal;
ghost use Rattle.wasm_out.specs.Bodies as bodies;
ghost use Rattle.wasm_out.specs.Hints.{branch_hint};
ghost use Rattle.wast_tree_nodes.specs.Clauses.{stand_from};
ghost use Rattle.wast_tree_nodes.specs.Sites.{in_local};
ghost use Rattle.wast_core_conv.specs.Encodable.{are_encodable, is_encodable_instr};
ghost use Rattle.wast_core_conv.specs.Hints.{hint_at, as_branch_hint, as_hinted, InRangeHintsOf, body_hints, InRangeBodyHints, are_encodable_hints};
ghost use Rattle.wast_core_conv.specs.Meaning as meaning;

use crate::values::Resolved;
use wasm_ops::{Each, Encode, Length, Refusal, Sink};
use wasm_out::Locals;
use wast_tree_nodes::{BranchHint, FuncKind, Instruction, Local};

/// Counts the bytes of the locals of a body.
fn counted_locals(locals: &[Local]) -> Result<Length, Refusal>
    requires { IsTrue (list_all (λ l. are_encodable (in_local l)) locals.now) }
    ensures ok { let types = (meaning.body_of locals.now []).locals in
        IfOk result (λ n. (n ≡ length (bodies.locals types)) × InRangeSized (InRangeVec (λ x. (val_type x).in_range)) bodies.locals types) }
    ensures err { let types = (meaning.body_of locals.now []).locals in
        IfErr result (λ e. (e ≡ refusal.TooLarge) × (InRangeSized (InRangeVec (λ x. (val_type x).in_range)) bodies.locals types → ⊥)) }
{
    let mut length = Length::new();
    Locals(locals, Resolved).encode(&mut length)?;
    match u32::try_from(length.count()) {
        Ok(_) => Ok(length),
        Err(_) => Err(Refusal::TooLarge),
    }
}

/// Appends a hint with this value, for the instruction that follows these instructions.
///
/// `before` counts the bytes of the body before them. The call adds the bytes of these
/// instructions.
fn put_hint<S: Sink>(
    instrs: &[Instruction],
    value: u32,
    before: &mut Length,
    out: &mut S,
) -> Result<(), Refusal>
    requires instrs { IsTrue (list_all is_encodable_instr instrs.now) }
    requires value { value ≤ 1 }
    ensures counted { IfOk result (λ _. before.new ≡ before.old + length (flat_map (λ i. (instr (meaning.as_instr i)).bytes) instrs.now)) }
    ensures written { let hint = hint_at (before.old + length (flat_map (λ i. (instr (meaning.as_instr i)).bytes) instrs.now)) value in
        Writes S.rules (All (λ i. (instr (meaning.as_instr i)).in_range) instrs.now × (branch_hint hint).in_range) out.old out.new (branch_hint hint).bytes result }
{
    Each(instrs, Resolved).encode(before)?;
    let Ok(branch_func_offset) = u32::try_from(before.count()) else {
        return Err(Refusal::TooLarge);
    };
    wasm_out::BranchHint {
        branch_func_offset,
        branch_hint_value: value,
    }
    .encode(out)
}

/// The branch hints of a body without their count.
///
/// Between two hints only the instructions between them are counted. So each instruction is counted
/// once, and nothing is allocated.
#[derive(Clone, Copy)]
struct Hints<'b, 'a> {
    locals: &'b [Local<'a>],
    instrs: &'b [Instruction<'a>],
    hints: &'b [BranchHint],
}

impl Encode for Hints<'_, '_> {
    ghost spelling = { λ s. flat_map (λ h. (branch_hint (as_branch_hint (meaning.body_of s.locals.now s.instrs.now) h)).bytes) s.hints.now };

    ghost in_range = { λ s. InRangeHintsOf (meaning.body_of s.locals.now s.instrs.now) s.hints.now };

    ghost is_ready = { λ s. list_all (λ l. are_encodable (in_local l)) s.locals.now && (list_all is_encodable_instr s.instrs.now && stand_from (length s.instrs.now) 0 s.hints.now) };

    fn encode<S: Sink>(&self, out: &mut S) -> Result<(), Refusal> {
        let start = out.size();
        let mut before = counted_locals(self.locals)?;
        let mut next = 0usize;
        for hint in self.hints {
            let between = &self.instrs[next..hint.instr_index];
            let result = put_hint(between, hint.value, &mut before, out);
            if result.is_err() {
                out.cut(start);
                return result;
            }
            next = hint.instr_index;
        }
        Ok(())
    }
}

/// Appends the number of hints, and each hint.
fn put_hints<'b, 'a, S: Sink>(
    locals: &'b [Local<'a>],
    instrs: &'b [Instruction<'a>],
    hints: &'b [BranchHint],
    out: &mut S,
) -> Result<(), Refusal>
    requires locals { IsTrue (list_all (λ l. are_encodable (in_local l)) locals.now) }
    requires instrs { IsTrue (list_all is_encodable_instr instrs.now) }
    requires hints { IsTrue (stand_from (length instrs.now) 0 hints.now) }
    ensures { let body = meaning.body_of locals.now instrs.now in
        Writes S.rules (InRangeU32 (length hints.now) × InRangeHintsOf body hints.now)
        out.old out.new (vec (λ x. (branch_hint x).bytes) (map (as_branch_hint body) hints.now)) result }
{
    let Ok(count) = u32::try_from(hints.len()) else {
        return Err(Refusal::TooLarge);
    };
    let each = Hints {
        locals,
        instrs,
        hints,
    };
    (count, each).encode(out)
}

/// The branch hints of a function: their number, and each hint with its offset and value (branch
/// hinting). Nothing is allocated, except in the sink.
///
/// on. For example, in `(func (param i32) local.get 0 (@metadata.code.branch_hint "\01") if end)`
/// the `if` comes after the bytes `00 20 00` of the empty locals and of `local.get 0`. So the
/// offset is 3.
#[derive(Clone, Copy)]
pub struct BodyHints<'b, 'a>(pub &'b FuncKind<'a>);

impl Encode for BodyHints<'_, '_> {
    ghost spelling = { λ h. body_hints (as_hinted h.0.now) };

    ghost in_range = { λ h. InRangeBodyHints (as_hinted h.0.now) };

    ghost is_ready = { λ h. are_encodable_hints h.0.now };

    fn encode<S: Sink>(&self, out: &mut S) -> Result<(), Refusal> {
        match self.0 {
            FuncKind::Import(..) => unreachable!(),
            FuncKind::Inline { locals, expression } => put_hints(
                locals.as_slice(),
                expression.instrs.as_slice(),
                expression.branch_hints.as_slice(),
                out,
            ),
        }
    }
}
