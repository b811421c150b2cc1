//! The fields of a module, to go on after an error in one of them.

use crate::lexemes::{Kind, next_lexeme};
use crate::lists::FIELDS;
use crate::near::is_listed;
use crate::ranges::Range;

/// Returns how many parentheses are open around the fields of the module of a text.
fn depth_of_fields(text: &[u8]) -> usize {
    match next_lexeme(text, 0) {
        Some(open) if open.kind == Kind::Open => match next_lexeme(text, open.end) {
            Some(word) if matches!(word.bytes, b"module") => 1,
            _ => 0,
        },
        _ => 0,
    }
}

/// Returns whether a field of the module begins at an offset or after it, or the module ends there.
fn goes_on(text: &[u8], start: usize) -> bool {
    let Some(first) = next_lexeme(text, start) else {
        return true;
    };
    match next_lexeme(text, first.end) {
        Some(word) if first.kind == Kind::Open => is_listed(word.bytes, FIELDS.as_bytes()),
        _ => first.kind == Kind::Close,
    }
}

/// Returns the range of the field of the module that an offset is in, if the text can be read on after it.
///
/// It can if all parentheses of the text are paired, and another field comes next, or the end of the module. So an error after the
/// field is not a consequence of parentheses that are wrong in it. For example, the field around `i32.foo` in
/// `(module (func i32.foo) (func))` is 8 to 22, and `(module (func i32.foo (func))` has none.
pub fn field_around(text: &str, offset: usize) -> Option<Range> {
    let text = text.as_bytes();
    let base = depth_of_fields(text);
    let mut depth = 0_usize;
    let mut at = 0;
    let mut start = 0;
    let mut found = None;
    for _ in 0..text.len() {
        let Some(lexeme) = next_lexeme(text, at) else {
            break;
        };
        at = lexeme.end;
        if lexeme.kind == Kind::Open {
            if depth == base {
                start = lexeme.start;
            }
            depth = depth.saturating_add(1);
        } else if lexeme.kind == Kind::Close {
            depth = depth.checked_sub(1)?;
            if depth == base && start <= offset && offset < at {
                found = Some(Range { start, end: at });
            }
            if depth < base && next_lexeme(text, at).is_some() {
                return None;
            }
        }
    }
    match found {
        Some(field) if depth == 0 && goes_on(text, field.end) => Some(field),
        _ => None,
    }
}
