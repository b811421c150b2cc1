//! The instruction that may be meant by a word that is none.
//!
//! It has the type and the operation of the word. For example, for `i32.div` it is `i32.div_s` or
//! `i32.div_u`, and never `f32.div`; for `i32.trunc_s/f32` it is `i32.trunc_f32_s`.

use crate::lexemes::{bytes_from, first_bytes};
use crate::lists::INSTRUCTIONS;
use crate::near::{Nearest, Words};

/// One word that may be meant, or two.
#[derive(Clone, Copy)]
pub(crate) struct Choice<'a> {
    /// The word.
    pub word: &'a [u8],
    /// Another one; empty if there is none.
    pub other: &'a [u8],
}

impl<'a> Choice<'a> {
    /// Returns a word without another one.
    pub fn of(word: &'a [u8]) -> Choice<'a> {
        Choice { word, other: &[] }
    }
}

/// Returns the instructions.
fn instructions() -> Words<'static> {
    Words(INSTRUCTIONS.as_bytes())
}

/// Returns whether a byte separates the parts of a word.
fn is_separator(byte: u8) -> bool {
    matches!(byte, b'.' | b'_' | b'/' | b':')
}

/// Returns the first part of a word, and the rest after its separator.
fn cut_part(word: &[u8]) -> (&[u8], &[u8]) {
    for (count, byte) in word.iter().enumerate() {
        if is_separator(*byte) {
            let rest = bytes_from(word, count.saturating_add(1));
            return (first_bytes(word, count), rest);
        }
    }
    (word, bytes_from(word, word.len()))
}

/// Returns the type of an instruction, or what else is before its first `.`, and its operation. A word
/// without a `.` has no type.
fn cut_type(word: &[u8]) -> (&[u8], &[u8]) {
    for (count, byte) in word.iter().enumerate() {
        if *byte == b'.' {
            let rest = bytes_from(word, count.saturating_add(1));
            return (first_bytes(word, count), rest);
        }
    }
    (first_bytes(word, 0), word)
}

/// Returns the part of a word as it is written today.
fn part_today(part: &[u8]) -> &[u8] {
    match part {
        b"saturate" => b"sat",
        b"widen" => b"extend",
        b"v8x16" => b"i8x16",
        _ => part,
    }
}

/// Returns whether a word has a part.
fn has_part(word: &[u8], part: &[u8]) -> bool {
    let mut rest = word;
    for _ in 0..word.len() {
        let (first, more) = cut_part(rest);
        if part_today(first) == part {
            return true;
        }
        rest = more;
    }
    false
}

/// Returns whether another word has all parts of a word.
fn has_parts_of(other: &[u8], word: &[u8]) -> bool {
    let mut rest = word;
    for _ in 0..word.len() {
        if rest.is_empty() {
            break;
        }
        let (first, more) = cut_part(rest);
        if !has_part(other, part_today(first)) {
            return false;
        }
        rest = more;
    }
    true
}

/// Returns whether two words begin with the same part, and have the same parts in any order, as
/// `i32.trunc_s/f32` and `i32.trunc_f32_s`.
fn has_same_parts(word: &[u8], other: &[u8]) -> bool {
    let ((first, _), (type_of_other, _)) = (cut_part(word), cut_part(other));
    part_today(first) == type_of_other && has_parts_of(other, word) && has_parts_of(word, other)
}

/// Returns a word without the separators that it begins with.
fn letters_of(word: &[u8]) -> &[u8] {
    for (count, byte) in word.iter().enumerate() {
        if !is_separator(*byte) {
            return bytes_from(word, count);
        }
    }
    bytes_from(word, word.len())
}

/// Returns whether two words differ in separators and in capital letters alone.
fn has_same_letters(word: &[u8], other: &[u8]) -> bool {
    let mut rest = letters_of(other);
    for byte in word {
        if is_separator(*byte) {
            continue;
        }
        match rest {
            [first, more @ ..] if first.eq_ignore_ascii_case(byte) => rest = letters_of(more),
            _ => return false,
        }
    }
    rest.is_empty()
}

/// Returns whether an instruction is a word without its sign, as `f32.div` is `f32.div_s`.
fn is_unsigned(word: &[u8], instruction: &[u8]) -> bool {
    match word.strip_prefix(instruction) {
        Some(sign) => matches!(sign, b"_s" | b"_u"),
        None => false,
    }
}

/// Returns whether a word is an instruction up to a `_`, as `i32.div` is the front of `i32.div_s`.
fn is_front(word: &[u8], instruction: &[u8]) -> bool {
    match instruction.strip_prefix(word) {
        Some(rest) => rest.starts_with(b"_"),
        None => false,
    }
}

/// Returns the first instruction that is another spelling of a word.
fn respelled(word: &[u8]) -> Option<&'static [u8]> {
    let mut words = instructions();
    for _ in 0..words.0.len() {
        let candidate = words.next_word()?;
        if has_same_letters(word, candidate) || has_same_parts(word, candidate) {
            return Some(candidate);
        }
    }
    None
}

/// Returns the instruction that is a word without its sign.
fn without_sign(word: &[u8]) -> Option<&'static [u8]> {
    let mut words = instructions();
    for _ in 0..words.0.len() {
        let candidate = words.next_word()?;
        if is_unsigned(word, candidate) {
            return Some(candidate);
        }
    }
    None
}

/// Returns the instructions that a word is the front of, unless there are more than two.
fn longer(word: &[u8]) -> Option<Choice<'static>> {
    let mut words = instructions();
    let mut found = Choice::of(&[]);
    let mut count = 0_usize;
    for _ in 0..words.0.len() {
        let Some(candidate) = words.next_word() else {
            break;
        };
        if !is_front(word, candidate) {
            continue;
        }
        count = count.saturating_add(1);
        if count == 1 {
            found = Choice::of(candidate);
        } else {
            found.other = candidate;
        }
    }
    if matches!(count, 1 | 2) {
        Some(found)
    } else {
        None
    }
}

/// Returns whether an instruction has this operation, with or without what follows a `_`.
fn has_operation(instruction: &[u8], operation: &[u8]) -> bool {
    let (_, own) = cut_type(instruction);
    own == operation || is_front(operation, own)
}

/// Returns an operation without its sign.
fn stem_of(operation: &[u8]) -> &[u8] {
    match operation {
        [stem @ .., b'_', b's' | b'u'] => stem,
        _ => operation,
    }
}

/// Returns whether an instruction of some type has the operation of a word.
fn is_known_operation(operation: &[u8]) -> bool {
    let mut words = instructions();
    for _ in 0..words.0.len() {
        let Some(candidate) = words.next_word() else {
            break;
        };
        if has_operation(candidate, operation) {
            return true;
        }
    }
    false
}

/// Returns whether some instruction has this type.
fn is_known_type(wanted: &[u8]) -> bool {
    let mut words = instructions();
    for _ in 0..words.0.len() {
        let Some(candidate) = words.next_word() else {
            break;
        };
        if cut_type(candidate).0 == wanted {
            return true;
        }
    }
    false
}

/// Returns whether a typing error may have made a word of another one: such an error is seldom in the
/// first letter, unless the first two are exchanged.
fn may_begin(word: &[u8], other: &[u8]) -> bool {
    match (word.first(), other.first(), word.get(1), other.get(1)) {
        (Some(first), Some(begin), second, next) => {
            first == begin || second == Some(begin) && next == Some(first)
        }
        _ => false,
    }
}

/// Returns the instruction of a type with the operation that is nearest to one that no type has.
fn nearest_operation(kind: &[u8], operation: &[u8]) -> Option<&'static [u8]> {
    let mut nearest = Nearest::of_part(operation);
    let mut found = None;
    let mut words = instructions();
    for _ in 0..words.0.len() {
        let Some(candidate) = words.next_word() else {
            break;
        };
        let (own, other) = cut_type(candidate);
        if own != kind || !may_begin(operation, other) {
            continue;
        }
        if nearest.is_nearer(other) || nearest.is_nearer(stem_of(other)) {
            found = Some(candidate);
        }
    }
    found
}

/// Returns the first instruction with this operation whose type is nearest to one that is none.
fn nearest_type(kind: &[u8], operation: &[u8]) -> Option<&'static [u8]> {
    let mut nearest = Nearest::of_part(kind);
    let mut found = None;
    let mut words = instructions();
    for _ in 0..words.0.len() {
        let Some(candidate) = words.next_word() else {
            break;
        };
        let (own, other) = cut_type(candidate);
        if other == operation && nearest.is_nearer(own) {
            found = Some(candidate);
        }
    }
    found
}

/// Returns the instruction with a similar type or a similar operation, but not with both.
fn similar(word: &[u8]) -> Option<Choice<'static>> {
    let (kind, operation) = cut_type(word);
    let is_known = is_known_operation(stem_of(operation));
    let found = match (is_known_type(kind), is_known) {
        (true, false) => nearest_operation(kind, operation)?,
        (false, true) => nearest_type(kind, operation)?,
        _ => return None,
    };
    let front = stem_of(found);
    let has_sign = stem_of(operation) != operation;
    match longer(front) {
        Some(choice) if is_unsigned(found, front) && !has_sign => Some(choice),
        _ => Some(Choice::of(found)),
    }
}

/// Returns the instructions that may be meant by a word that is none, of its type and its operation.
pub(crate) fn suggested(word: &[u8]) -> Option<Choice<'static>> {
    if let Some(found) = respelled(word) {
        return Some(Choice::of(found));
    }
    if let Some(found) = longer(word) {
        return Some(found);
    }
    match without_sign(word) {
        Some(found) => Some(Choice::of(found)),
        None => similar(word),
    }
}
