//! Lists of named things: fields of structs, parameters and locals, and labels.

ghost use Rattle.std.specs.Prelude.{◌≡◌, ◌++◌, ◌+◌, ◌∷◌, nat_lt, [], length, true, All, IfOk};
ghost use Rattle.std.specs.List.{flat_map};
ghost use Rattle.wasm_out.specs.NameSectionBytes.{map_entry, name_entry};
ghost use Rattle.wasm_ops.specs.Sinks.{Writes};
ghost use Rattle.wasm_ops.specs.Spelling.{vec, InRangeVec};
ghost use Rattle.wast_core_name_section.specs.GivenNames.{named_from};
ghost use Rattle.wast_core_name_section.specs.FoundNames.{saturated_count, names_listed, lists_found, WritesItems};
ghost use Rattle.wast_core_name_section.specs.WithinItems.{param_name, field_name, local_name, label_in};

use crate::name_maps::put_entry;
use crate::names_each::{MayHaveName, any_named, from_named, put_named};
use crate::names_payload::given_name;
use wasm_ops::{Encode, Refusal, Sink};
use wast_base::{Id, NameAnnotation};
use wast_tree_nodes::{Instruction, Local, StructField, ValType};

type Param<'a> = (Option<Id<'a>>, Option<NameAnnotation<'a>>, ValType<'a>);

impl<'a> MayHaveName for (Option<Id<'a>>, Option<NameAnnotation<'a>>, ValType<'a>) {
    ghost names = { λ p. param_name p ∷ [] };

    fn item(&self) -> Option<Option<&str>> {
        Some(given_name(&self.1, &self.0))
    }
}

impl MayHaveName for StructField<'_> {
    ghost names = { λ f. field_name f ∷ [] };

    fn item(&self) -> Option<Option<&str>> {
        Some(given_name(&self.name, &self.id))
    }
}

impl MayHaveName for Local<'_> {
    ghost names = { λ l. local_name l ∷ [] };

    fn item(&self) -> Option<Option<&str>> {
        Some(given_name(&self.name, &self.id))
    }
}

/// An instruction that opens a block counts as an item with the name of its label. No other does.
impl MayHaveName for Instruction<'_> {
    ghost names = { label_in };

    #[inline(always)]
    fn item(&self) -> Option<Option<&str>> {
        match self.block_type() {
            Some(block) => Some(given_name(&block.label_name, &block.label)),
            None => None,
        }
    }
}

/// A list of named things.
#[derive(Clone, Copy)]
pub(crate) enum Listed<'b, 'a> {
    /// Fields of a struct.
    Fields(&'b [StructField<'a>]),
    /// Parameters numbered from 0 on, and locals from a position on.
    Locals(&'b [Param<'a>], u64, &'b [Local<'a>]),
    /// Labels of the blocks that instructions open, numbered from a position on.
    Labels(u64, &'b [Instruction<'a>]),
}

/// Returns whether anything in the list has a name.
fn is_named(listed: Listed) -> bool
    ensures { result ≡ nat_lt 0 (length (names_listed listed.entry)) }
{
    match listed {
        Listed::Fields(fields) => any_named(fields),
        Listed::Locals(params, _, locals) => any_named(params) | any_named(locals),
        Listed::Labels(_, instrs) => any_named(instrs),
    }
}

/// Returns the same names. Labels start at the first that has a name, so that the instructions
/// before it are not walked again.
fn from_first<'b, 'a>(listed: Listed<'b, 'a>) -> Listed<'b, 'a>
    ensures { names_listed result ≡ names_listed listed.entry }
{
    let Listed::Labels(first, instrs) = listed else {
        return listed;
    };
    let (before, rest) = from_named(instrs);
    match first.checked_add(before) {
        Some(position) => Listed::Labels(position, rest),
        None => listed,
    }
}

/// Appends the names of parameters and then those of locals, numbered from a position on, and
/// returns how many there are.
fn put_both<S: Sink>(
    params: &[Param],
    first: u64,
    locals: &[Local],
    out: &mut S,
) -> Result<u64, Refusal>
    ensures names { let es = named_from 0 (flat_map (λ p. param_name p ∷ []) params.now) ++ named_from first (flat_map (λ l. local_name l ∷ []) locals.now) in
        Writes S.rules (All (λ x. (name_entry x).in_range) es) out.old out.new (flat_map (λ x. (name_entry x).bytes) es) result }
    ensures count { IfOk result (λ n. n ≡ saturated_count (length (named_from 0 (flat_map (λ p. param_name p ∷ []) params.now)
        ++ named_from first (flat_map (λ l. local_name l ∷ []) locals.now)))) }
{
    let start = out.size();
    let before = put_named(params, 0, out)?;
    match put_named(locals, first, out) {
        Ok(count) => Ok(before.saturating_add(count)),
        Err(refusal) => {
            out.cut(start);
            Err(refusal)
        }
    }
}

/// Appends the names of the labels of blocks, numbered from a position on, and returns how many
/// there are.
fn put_labels<S: Sink>(first: u64, instrs: &[Instruction], out: &mut S) -> Result<u64, Refusal>
    ensures names { let es = named_from first (flat_map label_in instrs.now) in
        Writes S.rules (All (λ x. (name_entry x).in_range) es) out.old out.new (flat_map (λ x. (name_entry x).bytes) es) result }
    ensures count { IfOk result (λ n. n ≡ saturated_count (length (named_from first (flat_map label_in instrs.now)))) }
{
    put_named(instrs, first, out)
}

/// Appends the names in a list, with their positions, and returns how many there are. Fails as
/// [`Encode::encode`] does.
fn put_listed<S: Sink>(listed: Listed, out: &mut S) -> Result<u64, Refusal>
    ensures names { Writes S.rules (All (λ x. (name_entry x).in_range) (names_listed listed.entry)) out.old out.new (flat_map (λ x. (name_entry x).bytes) (names_listed listed.entry)) result }
    ensures count { IfOk result (λ n. n ≡ saturated_count (length (names_listed listed.entry))) }
{
    match listed {
        Listed::Fields(fields) => put_named(fields, 0, out),
        Listed::Locals(params, first, locals) => put_both(params, first, locals, out),
        Listed::Labels(first, instrs) => put_labels(first, instrs, out),
    }
}

/// The names in a list, with their positions.
#[derive(Clone, Copy)]
struct ListedNames<'b, 'a>(Listed<'b, 'a>);

impl Encode for ListedNames<'_, '_> {
    ghost spelling = { λ s. flat_map (λ x. (name_entry x).bytes) (names_listed s.0) };

    ghost in_range = { λ s. All (λ x. (name_entry x).in_range) (names_listed s.0) };

    ghost is_ready = { λ _. true };

    fn encode<S: Sink>(&self, out: &mut S) -> Result<(), Refusal> {
        put_listed(self.0, out)?;
        Ok(())
    }
}

/// The number of the names in a list, and these names.
#[derive(Clone, Copy)]
struct CountedNames<'b, 'a>(Listed<'b, 'a>);

impl Encode for CountedNames<'_, '_> {
    ghost spelling = { λ s. vec (λ x. (name_entry x).bytes) (names_listed s.0) };

    ghost in_range = { λ s. InRangeVec (λ x. (name_entry x).in_range) (names_listed s.0) };

    ghost is_ready = { λ _. true };

    fn encode<S: Sink>(&self, out: &mut S) -> Result<(), Refusal> {
        // A zero byte reserves room for the count, which is known once the names are written.
        let start = out.size();
        out.push_bytes(&[0])?;
        let count = match put_listed(self.0, out) {
            Ok(count) => count,
            Err(refusal) => {
                out.cut(start);
                return Err(refusal);
            }
        };
        let Ok(number) = u32::try_from(count) else {
            out.cut(start);
            return Err(Refusal::TooLarge);
        };
        if out.set_number(start, count) {
            return Ok(());
        }
        out.cut(start);
        (number, ListedNames(self.0)).encode(out)
    }
}

/// Returns 1 if the list exists and has names, and 0 otherwise.
pub(crate) fn count_found(found: Option<Listed>) -> u64
    ensures { result ≡ saturated_count (length (named_from 0 (lists_found found.entry))) }
{
    match found {
        Some(listed) if is_named(listed) => 1,
        _ => 0,
    }
}

/// Appends a list at its position if it exists and has names, and returns the next position.
pub(crate) fn put_found<S: Sink>(
    position: u64,
    found: Option<Listed>,
    out: &mut S,
) -> Result<u64, Refusal>
    ensures written { WritesItems S.rules (λ x. (map_entry x).bytes) (λ x. (map_entry x).in_range) (lists_found found.entry) position out.old out.new result }
    ensures next { IfOk result (λ p. p ≡ saturated_count (position + length (lists_found found.entry))) }
{
    let Some(listed) = found else {
        return Ok(position);
    };
    let listed = from_first(listed);
    if !is_named(listed) {
        return put_entry(position, None::<CountedNames>, out);
    }
    put_entry(position, Some(CountedNames(listed)), out)
}

/// Returns an empty list.
pub(crate) fn none<'b, T>() -> &'b [T]
    ensures { result.now ≡ [] }
{
    &[]
}

/// Returns a list without names.
pub(crate) fn no_names<'b, 'a>() -> Listed<'b, 'a>
    ensures { names_listed result ≡ [] }
{
    Listed::Fields(none())
}
