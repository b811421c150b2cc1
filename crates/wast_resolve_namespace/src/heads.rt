//! Prefix keys and suffix keys of names: eight bytes as one number.
//!
//! Many names are sorted by prefix keys, and names with the same key by keys of later bytes. A
//! search among a few names compares suffix keys first.

ghost use Rattle.std.specs.Prelude.{◌≡◌, ◌+◌, ◌<◌, ◌≤◌, IsTrue, IfOk, length, map};
ghost use Rattle.std.specs.List.Sorted.{IsPermutation};
ghost use Rattle.wast_resolve_namespace.specs.Heads.{pair_of, IsHead};

use crate::sorting::compare_pairs;
use std::alloc::{AllocError, Global};
use std::cmp::Ordering;
use wast_base::Id;

/// Up to this many pairs with the same key are sorted by name.
const SMALL: usize = 4;

/// The number of new keys that a sort may compute, per pair.
const TURNS: usize = 16;

/// How many bytes after the keys of a group are searched for those that all its names have.
const LOOK: usize = 64;

/// A name and its number, with a key: eight bytes of the name, from an offset on.
#[derive(Clone, Copy)]
struct Headed<'p, 'a> {
    head: u64,
    at: usize,
    pair: &'p (Id<'a>, u32),
}

/// Sorts a copy of the pairs by keys of their names, then by name and number. Allocates twice.
///
/// Nothing is guaranteed about the order. It is the order of names, unless names have zero bytes,
/// which few names have.
pub(crate) fn by_heads<'a>(
    alloc: Global,
    pairs: &[(Id<'a>, u32)],
) -> Result<Vec<(Id<'a>, u32)>, AllocError>
    ensures { IfOk result (λ es. IsPermutation pairs.now es.items) }
{
    let mut headed = with_heads(alloc, pairs)?;
    let sorted = sorted_pairs(alloc, &mut headed)?;
    Ok(sorted)
}

/// Sorts pairs and returns them without their keys.
fn sorted_pairs<'p, 'a>(
    alloc: Global,
    headed: &mut [Headed<'p, 'a>],
) -> Result<Vec<(Id<'a>, u32)>, AllocError>
    ensures { IfOk result (λ es. IsPermutation (map pair_of headed.old) es.items) }
{
    sort_groups(headed);
    let sorted = without_heads(alloc, headed)?;
    Ok(sorted)
}

/// Pairs each name with the key of its first bytes.
fn with_heads<'p, 'a>(
    alloc: Global,
    pairs: &'p [(Id<'a>, u32)],
) -> Result<Vec<Headed<'p, 'a>>, AllocError>
    ensures { IfOk result (λ hs. map pair_of hs.items ≡ pairs.now) }
{
    let mut headed = Vec::with_capacity(alloc, pairs.len())?;
    'each: for i in 0..pairs.len() {
        let head = leading(pairs[i].0.name().as_bytes());
        headed.push(Headed {
            head,
            at: 0,
            pair: &pairs[i],
        })?;
    }
    Ok(headed)
}

/// Returns the pairs without their keys.
fn without_heads<'p, 'a>(
    alloc: Global,
    headed: &[Headed<'p, 'a>],
) -> Result<Vec<(Id<'a>, u32)>, AllocError>
    ensures { IfOk result (λ es. es.items ≡ map pair_of headed.now) }
{
    let mut pairs = Vec::with_capacity(alloc, headed.len())?;
    'each: for i in 0..headed.len() {
        pairs.push(*headed[i].pair)?;
    }
    Ok(pairs)
}

/// Sorts pairs by key, and each group of pairs with the same key by keys of later bytes.
///
/// Each new key of a pair takes a turn. A group is sorted by name if it is small, if its first name
/// ends before its key, or if there are too few turns.
fn sort_groups<'p, 'a>(headed: &mut [Headed<'p, 'a>])
    ensures { IsPermutation (map pair_of headed.old) (map pair_of headed.new) }
{
    sort_by_head(headed);
    let mut turns = headed.len().saturating_mul(TURNS);
    let mut from = 0;
    'groups: while from < headed.len() {
        let after = sort_next(headed, from, turns);
        from = after.0;
        turns = after.1;
    }
}

/// Sorts the group at a position by name, or splits it by new keys.
///
/// Returns the position of the next group, and how many turns are left.
fn sort_next<'p, 'a>(headed: &mut [Headed<'p, 'a>], from: usize, turns: usize) -> (usize, usize)
    requires { from < length headed.old }
    ensures permutation { IsPermutation (map pair_of headed.old) (map pair_of headed.new) }
    ensures within { result.0 ≤ length headed.old }
    ensures progress { result.1 + from < turns + result.0 }
{
    let to = group_end(headed, from);
    let size = to - from;
    if size == 1 {
        return (to, turns);
    }
    if can_split(&headed[from], size, turns) {
        let left = turns - size;
        split_group(&mut headed[from..to]);
        return (from, left);
    }
    sort_by_name(&mut headed[from..to]);
    (to, turns)
}

/// Returns the position after the pairs with the same key as the pair at a position.
fn group_end<'p, 'a>(headed: &[Headed<'p, 'a>], from: usize) -> usize
    requires { from < length headed.now }
    ensures after { from < result }
    ensures within { result ≤ length headed.now }
{
    let end = headed.len();
    for to in from + 1..end {
        if !have_one_key(&headed[from], &headed[to]) {
            return to;
        }
    }
    end
}

/// Returns whether two pairs have the same key, from the same offset on.
fn have_one_key<'p, 'a>(a: &Headed<'p, 'a>, b: &Headed<'p, 'a>) -> bool {
    a.head == b.head && a.at == b.at
}

/// Returns whether a group can be split by new keys: it is not small, its first name does not end
/// before its key, and there are enough turns.
fn can_split<'p, 'a>(first: &Headed<'p, 'a>, size: usize, turns: usize) -> bool
    ensures { IsTrue result → size ≤ turns }
{
    if turns < size {
        return false;
    }
    SMALL < size && has_more(first)
}

/// Returns whether a name has bytes in its key or after it.
///
/// A name that ends in its key gets one more key, because the next key of a generated id is its
/// generation.
fn has_more<'p, 'a>(headed: &Headed<'p, 'a>) -> bool {
    let pair = headed.pair;
    headed.at < pair.0.name().len()
}

/// Sorts a group by new keys: the bytes after those that all its names begin with.
fn split_group<'p, 'a>(group: &mut [Headed<'p, 'a>])
    ensures { IsPermutation (map pair_of group.old) (map pair_of group.new) }
{
    let at = shared_bytes(group);
    set_heads(group, at);
    sort_by_head(group);
}

/// Sorts pairs by key.
fn sort_by_head<'p, 'a>(group: &mut [Headed<'p, 'a>])
    ensures { IsPermutation (map pair_of group.old) (map pair_of group.new) }
{
    group.sort_unstable_by(|a, b| compare_heads(a, b));
}

/// Sorts pairs by name, then by number.
fn sort_by_name<'p, 'a>(group: &mut [Headed<'p, 'a>])
    ensures { IsPermutation (map pair_of group.old) (map pair_of group.new) }
{
    group.sort_unstable_by(|a, b| compare_by_name(a, b));
}

/// Compares the keys of two pairs.
fn compare_heads<'p, 'a>(a: &Headed<'p, 'a>, b: &Headed<'p, 'a>) -> Ordering {
    a.head.cmp(&b.head)
}

/// Compares two pairs by name, then by number.
fn compare_by_name<'p, 'a>(a: &Headed<'p, 'a>, b: &Headed<'p, 'a>) -> Ordering {
    compare_pairs(a.pair, b.pair)
}

/// Sets the keys of pairs to the bytes from an offset on.
fn set_heads<'p, 'a>(group: &mut [Headed<'p, 'a>], at: usize)
    ensures { map pair_of group.new ≡ map pair_of group.old }
{
    'each: for i in 0..group.len() {
        let next = with_head(&group[i], at);
        group[i] = next;
    }
}

/// Returns a pair with the key of the bytes from an offset on.
fn with_head<'p, 'a>(one: &Headed<'p, 'a>, at: usize) -> Headed<'p, 'a>
    ensures { pair_of result ≡ pair_of one.now }
{
    let pair = one.pair;
    let head = head_from(pair, at);
    Headed { head, at, pair }
}

/// Returns the first eight bytes of a name from an offset on as a number.
///
/// If there are none, it is the generation of the id, which is 0 for a source id.
fn head_from<'a>(pair: &(Id<'a>, u32), at: usize) -> u64 {
    let rest = bytes_from(pair, at);
    if rest.is_empty() {
        return pair.0.generation();
    }
    leading(rest)
}

/// Returns the offset after the longest common prefix of a group, and at least the end of its keys.
///
/// It looks at a few bytes after the keys alone, because a turn must not cost more for longer names.
fn shared_bytes<'p, 'a>(group: &[Headed<'p, 'a>]) -> usize {
    let Some(first) = group.first() else {
        return 0;
    };
    let start = first.at.saturating_add(8);
    let rest = bytes_from(first.pair, start);
    let mut shared = &rest[..rest.len().min(LOOK)];
    for headed in group {
        shared = common_start(shared, bytes_from(headed.pair, start));
    }
    start.saturating_add(shared.len())
}

/// Returns the bytes of a name from an offset on, or none if it is shorter.
fn bytes_from<'a>(pair: &(Id<'a>, u32), start: usize) -> &'a [u8] {
    let text = pair.0.name().as_bytes();
    let from = start.min(text.len());
    &text[from..]
}

/// Returns the longest common prefix of two texts.
fn common_start<'a>(a: &'a [u8], b: &[u8]) -> &'a [u8] {
    if b.starts_with(a) {
        return a;
    }
    let most = a.len().min(b.len());
    for i in 0..most {
        if a[i] != b[i] {
            return &a[..i];
        }
    }
    &a[..most]
}

/// Returns the first eight bytes of a text as a number, the first one as the most significant.
///
/// Missing bytes count as 0: for `ab` it is 0x6162000000000000. Does not allocate.
pub fn leading(bytes: &[u8]) -> u64 {
    first_eight(bytes)
}

/// Does the same, with a contract: if the numbers of two texts differ, the texts have their order.
#[inline(always)]
pub(crate) fn first_eight(text: &[u8]) -> u64
    ensures { IsHead text.now result }
{
    if text.len() < 8 {
        return first_few(text);
    }
    u64::from_be_bytes([
        text[0], text[1], text[2], text[3], text[4], text[5], text[6], text[7],
    ])
}

/// The same for a text of fewer than eight bytes, from the last byte to the first.
#[inline(always)]
fn first_few(text: &[u8]) -> u64
    requires { length text.now < 8 }
    ensures { IsHead text.now result }
{
    let mut head = 0u64;
    let mut at = text.len();
    'back: while at > 0 {
        at -= 1;
        head = (head >> 8) + (u64::from(text[at]) << 56);
    }
    head
}

/// Returns the last eight bytes of a text as a number, or the last byte if there are fewer.
#[inline(always)]
pub(crate) fn ending(text: &[u8]) -> u64 {
    if text.is_empty() {
        return 0;
    }
    if text.len() < 8 {
        return u64::from(text[text.len() - 1]);
    }
    let end = &text[text.len() - 8..];
    u64::from_le_bytes([
        end[0], end[1], end[2], end[3], end[4], end[5], end[6], end[7],
    ])
}
