//! Sorts pairs of names and numbers.

ghost use Rattle.std.specs.Prelude.{◌≡◌, ◌+◌, ◌<◌, ◌≤◌, IsTrue, IfOk, length};
ghost use Rattle.std.specs.Ordering.{is_lt};
ghost use Rattle.std.specs.List.Sorted.{IsPermutation, IsSortedBy};
ghost use Rattle.wast_base.specs.Ids.{text_of, name_of};
ghost use Rattle.wast_resolve_namespace.specs.Heads.{IsHead, AreHeads};
ghost use Rattle.wast_base.specs.Order.{key_cmp};
ghost use Rattle.wast_resolve_namespace.specs.Places.{entry_of};
ghost use Rattle.wast_resolve_namespace.specs.Filling.{pair_cmp, AreRanked, AreRankedTo};

use crate::heads::{by_heads, first_eight};
use std::alloc::{AllocError, Global};
use std::cmp::Ordering;
use wast_base::{Id, compare_names};

/// Up to this many pairs are sorted in one array.
const FEW: usize = 20;

/// Sorts pairs by name, then by number. Allocates only if there are more than 20.
///
/// Pairs are compared by the first eight bytes of their names first, because numbers are compared
/// faster than names.
pub(crate) fn in_order<'a>(
    alloc: Global,
    pairs: Vec<(Id<'a>, u32)>,
) -> Result<Vec<(Id<'a>, u32)>, AllocError>
    ensures permutation { IfOk result (λ es. IsPermutation pairs.entry.items es.items) }
    ensures sorted { IfOk result (λ es. AreRanked es.items) }
{
    if pairs.len() > FEW {
        return many_in_order(alloc, &pairs);
    }
    let mut pairs = pairs;
    put_few_in_order(&mut pairs);
    Ok(pairs)
}

/// Sorts a copy of many pairs, by keys of eight bytes first, and again by name if that is not the
/// order of names.
fn many_in_order<'a>(
    alloc: Global,
    pairs: &[(Id<'a>, u32)],
) -> Result<Vec<(Id<'a>, u32)>, AllocError>
    ensures permutation { IfOk result (λ es. IsPermutation pairs.now es.items) }
    ensures sorted { IfOk result (λ es. AreRanked es.items) }
{
    let mut sorted = by_heads(alloc, pairs)?;
    if are_in_order(&sorted) {
        return Ok(sorted);
    }
    put_in_order(&mut sorted);
    Ok(sorted)
}

/// Sorts at most 20 pairs by name, then by number, without allocation.
///
/// It computes the key of each name once, and moves each pair back among those before it.
fn put_few_in_order<'a>(pairs: &mut [(Id<'a>, u32)])
    requires { length pairs.old ≤ 20 }
    ensures permutation { IsPermutation pairs.old pairs.new }
    ensures sorted { AreRanked pairs.new }
{
    let mut heads = [0u64; FEW];
    'each: for last in 0..pairs.len() {
        heads[last] = first_eight(pairs[last].0.name().as_bytes());
        put_back(pairs, &mut heads, last);
    }
}

/// Moves a pair back among the sorted pairs before it, step by step, with its key.
fn put_back<'a>(pairs: &mut [(Id<'a>, u32)], heads: &mut [u64; FEW], last: usize)
    requires within { last < length pairs.old }
    requires few { length pairs.old ≤ 20 }
    requires heads { AreHeads pairs.old heads.old (last + 1) }
    requires sorted { AreRankedTo pairs.old last }
    ensures permutation { IsPermutation pairs.old pairs.new }
    ensures heads { AreHeads pairs.new heads.new (last + 1) }
    ensures sorted { AreRankedTo pairs.new (last + 1) }
{
    let mut at = last;
    'back: while at > 0 {
        if !comes_before(&pairs[at], heads[at], &pairs[at - 1], heads[at - 1]) {
            break 'back;
        }
        pairs.swap(at - 1, at);
        heads.swap(at - 1, at);
        at -= 1;
    }
}

/// Returns whether a pair comes before another: by their keys, or by name and number if the keys
/// are equal.
#[inline(always)]
fn comes_before<'a>(pair: &(Id<'a>, u32), head: u64, other: &(Id<'a>, u32), other_head: u64) -> bool
    requires head { IsHead (text_of (name_of pair.now.0)) head }
    requires other { IsHead (text_of (name_of other.now.0)) other_head }
    ensures { result ≡ is_lt (pair_cmp key_cmp (entry_of pair.now) (entry_of other.now)) }
{
    if head != other_head {
        return head < other_head;
    }
    compare_pairs(pair, other).is_lt()
}

/// Returns whether the pairs are sorted by name, then by number.
fn are_in_order<'a>(pairs: &[(Id<'a>, u32)]) -> bool
    ensures { IsTrue result → AreRanked pairs.now }
{
    'seek: for t in 1..pairs.len() {
        if compare_pairs(&pairs[t], &pairs[t - 1]).is_lt() {
            return false;
        }
    }
    true
}

/// Sorts pairs by name, then by number.
fn put_in_order<'a>(pairs: &mut Vec<(Id<'a>, u32)>)
    ensures permutation { IsPermutation pairs.old.items pairs.new.items }
    ensures sorted { AreRanked pairs.new.items }
{
    pairs.sort_unstable_by(|a, b| compare_pairs(a, b));
}

/// Compares pairs by name, then by number.
pub(crate) fn compare_pairs<'a>(a: &(Id<'a>, u32), b: &(Id<'a>, u32)) -> Ordering
    ensures { result ≡ pair_cmp key_cmp (entry_of a.now) (entry_of b.now) }
{
    compare_names(&a.0, &b.0).then(a.1.cmp(&b.1))
}
