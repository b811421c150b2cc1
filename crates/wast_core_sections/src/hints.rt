//! The section of branch hints, which is before the code section.

ghost use Rattle.std.specs.Prelude.{◌≡◌, ◌+◌, Bool, List, ◌∷◌, [], length, Option, All, IsNone, IsTrue, IfOk, IfSome};
ghost use Rattle.std.specs.List.{flat_map, list_all};
ghost use Rattle.wasm_ops.specs.Sinks.{Writes};
ghost use Rattle.wasm_ops.specs.Spelling.{InRangeU32};
ghost use Rattle.wasm_out.specs.Parts.{part, InRangePart};
ghost use Rattle.wast_core_conv.specs.Encodable.{is_encodable_import, is_encodable_field, is_encodable};
ghost use Rattle.wast_core_conv.specs.Hints.{HintedBody, are_encodable_hints};
ghost use Rattle.wast_core_sections.specs.Hints.{has_hints, if_hinted, imported_func, functions_in, hinted_functions, hinted_function, hints_part, InRangeHinted, InRangeHints};
ghost use Rattle.wast_core_name_section.specs.FoundNames.{saturated_count, WritesItems};
ghost use Rattle.wast_core_name_section.specs.GivenNames.{named_from};
ghost use Rattle.wast_core_ranges.specs.FieldRanges.{are_reaches};
ghost use Rattle.wast_tree_nodes.specs.Imports.{item_sigs};

use wasm_ops::{Encode, Name, Refusal, Sink, WithLength};
use wast_base::Space;
use wast_core_conv::BodyHints;
use wast_core_ranges::{FieldKind, FieldRanges};
use wast_tree_nodes::{FuncKind, ImportItems, Imports, ModuleField};

/// Returns the fields from the first function to the last, imports included.
fn function_fields<'b, 'a>(
    fields: &'b [ModuleField<'a>],
    reaches: &FieldRanges,
) -> &'b [ModuleField<'a>]
    requires { IsTrue (are_reaches fields.now reaches.now) }
    ensures same { flat_map functions_in result.now ≡ flat_map functions_in fields.now }
    ensures ready { IsTrue (is_encodable fields.now) → IsTrue (is_encodable result.now) }
{
    let imports = reaches.of_kind(FieldKind::Import);
    reaches.of_kind(FieldKind::Func).union(imports).of(fields)
}

/// Returns whether a function has hints.
fn has_hints(kind: &FuncKind) -> bool
    ensures { result ≡ has_hints kind.now }
{
    match kind {
        FuncKind::Import(..) => false,
        FuncKind::Inline { expression, .. } => !expression.branch_hints.is_empty(),
    }
}

/// Returns how many functions of a field have hints: none or one.
fn hinted_in(field: &ModuleField) -> u32
    ensures { result ≡ length (named_from 0 (functions_in field.now)) }
{
    match field {
        ModuleField::Func(func) => u32::from(has_hints(&func.kind)),
        _ => 0,
    }
}

/// Returns how many functions of these fields have hints, if these are less than 2^32.
fn count(fields: &[ModuleField]) -> Option<u32>
    ensures some { IfSome result (λ n. n ≡ length (hinted_functions fields.now)) }
    ensures none { IsNone result → InRangeU32 (length (hinted_functions fields.now)) → ⊥ }
{
    let mut sum = 0u32;
    for field in fields {
        let Some(next) = sum.checked_add(hinted_in(field)) else {
            return None;
        };
        sum = next;
    }
    Some(sum)
}

/// Returns how many functions an import defines: none or one. The import must not be a group.
fn imported(imports: &Imports) -> u64
    requires { IsTrue (is_encodable_import imports.now) }
    ensures { result ≡ length (flat_map imported_func (item_sigs imports.now.items)) }
{
    match &imports.items {
        ImportItems::Single { sig, .. } => u64::from(Space::Func.is(sig.kind.space())),
        ImportItems::Group1 { .. } | ImportItems::Group2 { .. } => unreachable!(),
    }
}

/// Appends the hints of a function at its index, if it has some, and returns the next index. From
/// 2^32 on, an index is out of range.
fn put_function<S: Sink>(kind: &FuncKind, index: u64, out: &mut S) -> Result<u64, Refusal>
    requires { IsTrue (are_encodable_hints kind.now) }
    ensures written { WritesItems S.rules hinted_function InRangeHinted (if_hinted kind.now ∷ []) index out.old out.new result }
    ensures next { IfOk result (λ n. n ≡ saturated_count (index + 1)) }
{
    let next = index.saturating_add(1);
    if !has_hints(kind) {
        return Ok(next);
    }
    let Ok(index) = u32::try_from(index) else {
        return Err(Refusal::TooLarge);
    };
    (index, BodyHints(kind)).encode(out)?;
    Ok(next)
}

/// A field whose hints are written. It is a trait, because a proof would otherwise compare the type
/// of a list of fields with itself.
trait PutHints {
    /// The functions of the field, with and without hints.
    ghost functions: { Self → List (Option HintedBody) };

    /// Whether the hints can be encoded.
    ghost is_ready: { Self → Bool };

    /// Appends the hints of its functions, numbered from an index on, and returns the next index.
    /// Allocates nothing, except in the sink.
    fn put_hints<S: Sink>(&self, index: u64, out: &mut S) -> Result<u64, Refusal>
        requires { IsTrue (is_ready self.now) }
        ensures written { WritesItems S.rules hinted_function InRangeHinted (functions self.now) index out.old out.new result }
        ensures next { IfOk result (λ n. n ≡ saturated_count (index + length (functions self.now))) };
}

impl PutHints for ModuleField<'_> {
    ghost functions = { functions_in };

    ghost is_ready = { is_encodable_field };

    fn put_hints<S: Sink>(&self, index: u64, out: &mut S) -> Result<u64, Refusal> {
        match self {
            ModuleField::Import(imports) => Ok(index.saturating_add(imported(imports))),
            ModuleField::Func(func) => put_function(&func.kind, index, out),
            _ => Ok(index),
        }
    }
}

/// The hints of the functions of these fields, each after its index.
#[derive(Clone, Copy)]
struct EachHint<'b, F>(&'b [F]);

impl<F: PutHints> Encode for EachHint<'_, F> {
    ghost spelling = { λ s. flat_map hinted_function (named_from 0 (flat_map F.functions s.0.now)) };

    ghost in_range = { λ s. All InRangeHinted (named_from 0 (flat_map F.functions s.0.now)) };

    ghost is_ready = { λ s. list_all F.is_ready s.0.now };

    fn encode<S: Sink>(&self, out: &mut S) -> Result<(), Refusal> {
        let start = out.size();
        let mut index = 0u64;
        for field in self.0 {
            match field.put_hints(index, out) {
                Ok(next) => index = next,
                Err(refusal) => {
                    out.cut(start);
                    return Err(refusal);
                }
            }
        }
        Ok(())
    }
}

/// Appends the section of the hints of these fields, if a function has some. `count` is the number
/// of functions that have hints.
fn put_counted<'b, F: PutHints, S: Sink>(
    fields: &'b [F],
    count: u32,
    out: &'b mut S,
) -> Result<(), Refusal>
    requires ready { IsTrue (list_all F.is_ready fields.now) }
    requires counted { count ≡ length (named_from 0 (flat_map F.functions fields.now)) }
    ensures { Writes S.rules (All InRangePart (hints_part (named_from 0 (flat_map F.functions fields.now))) × InRangeHints (named_from 0 (flat_map F.functions fields.now)))
        out.old out.new (flat_map part (hints_part (named_from 0 (flat_map F.functions fields.now)))) result }
{
    if count == 0 {
        return Ok(());
    }
    let payload = (Name("metadata.code.branch_hint"), (count, EachHint(fields)));
    (0u8, WithLength(payload)).encode(out)
}

/// Appends the section of branch hints, if a function has some.
pub(crate) fn put_hints<S: Sink>(
    fields: &[ModuleField],
    reaches: &FieldRanges,
    out: &mut S,
) -> Result<(), Refusal>
    requires ready { IsTrue (is_encodable fields.now) }
    requires reaches { IsTrue (are_reaches fields.now reaches.now) }
    ensures { Writes S.rules (All InRangePart (hints_part (hinted_functions fields.now)) × InRangeHints (hinted_functions fields.now))
        out.old out.new (flat_map part (hints_part (hinted_functions fields.now))) result }
{
    let there = function_fields(fields, reaches);
    let Some(count) = count(there) else {
        return Err(Refusal::TooLarge);
    };
    put_counted(there, count, out)
}
