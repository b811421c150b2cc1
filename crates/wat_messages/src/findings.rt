//! What messages say of an error after its words.

use crate::around::Around;
use crate::definitions::{
    first_definition, last_close, module_end, nearest_name, numbered_type, open_around, open_block,
    quoted_string, read_before,
};
use crate::details::{Detail, Found, Hint, Place, first_character};
use crate::lexemes::{
    Kind, Lexeme, bytes_from, first_bytes, is_scalar_escape, lexeme_at, next_lexeme,
};
use crate::lists::{DYLINK_NAMES, FIELDS, INSTRUCTIONS};
use crate::near::is_listed;
use crate::numbers::{Number, number_after};
use crate::ranges::{Range, range_of_fault};
use wast_base::Fault;
use wat_tokens::TextFault;

/// Returns the token at an offset. A parenthesis is returned with the word that follows it directly.
fn found_at(text: &[u8], start: usize) -> Found<'_> {
    match lexeme_at(text, start) {
        Some(lexeme) if lexeme.kind == Kind::Open => opened_at(text, start),
        Some(lexeme) if lexeme.kind != Kind::Blank => Found(lexeme.bytes),
        _ => Found(&[]),
    }
}

/// Returns the parenthesis at an offset, with the word that follows it directly.
fn opened_at(text: &[u8], start: usize) -> Found<'_> {
    let rest = bytes_from(text, start);
    let count = match lexeme_at(rest, 1) {
        Some(word) if word.kind == Kind::Word => word.end,
        _ => 1,
    };
    Found(first_bytes(rest, count))
}

/// Returns the token at an offset, or the one before it if no token begins there.
fn touched_at(text: &[u8], start: usize) -> Option<Lexeme<'_>> {
    match lexeme_at(text, start) {
        Some(lexeme) if lexeme.kind != Kind::Other => Some(lexeme),
        _ => read_before(text, start).last,
    }
}

/// Returns what is said of a character that touches a token, which begins or ends at an offset.
fn adjacent(text: &[u8], start: usize) -> Detail<'_> {
    let Some(token) = touched_at(text, start) else {
        return Detail::Nothing;
    };
    match character_at(text, token.end) {
        Some(character) => Detail::Adjacent(token, character),
        None => Detail::Nothing,
    }
}

/// Returns what is said of a character.
fn character_at(text: &[u8], start: usize) -> Option<char> {
    first_character(bytes_from(text, start))
}

/// Returns what is said where a parenthesis has to be closed. An annotation has the offset of its
/// `@`, so the parenthesis before that is its own.
fn unclosed<'a>(text: &'a str, start: usize, found: Found<'a>) -> Detail<'a> {
    match open_around(text.as_bytes(), start) {
        Some(offset) => Detail::Unclosed(Place::new(text, offset), found),
        None => Detail::InPlace(found),
    }
}

/// Returns what is said where something was expected. A block without an `end` is at its keyword.
fn in_place<'a>(text: &'a str, around: &Around<'a>, expected: &str) -> Detail<'a> {
    let start = around.start;
    let found = found_at(around.text, start);
    match expected {
        "`)`" => unclosed(text, start, found),
        "`end` of this block" => Detail::Token(found),
        "`dylink.0` subsection name" => Detail::Among(found, DYLINK_NAMES),
        "`then`" | "`else`" => within(text, if_of(around), found),
        "a value type" if around.is_before_instruction() => within(text, around.head, found),
        "valid module field" => after_field(text, around, found),
        _ => Detail::InPlace(found),
    }
}

/// Returns the keyword of the `if` that an offset is in, or directly after.
fn if_of<'a>(around: &Around<'a>) -> Option<Lexeme<'a>> {
    if matches!(around.form(), b"if") {
        return around.head;
    }
    let open = open_around(around.text, around.last?.start)?;
    next_lexeme(around.text, open.saturating_add(1))
}

/// Returns what is said of a token in a form, which has this keyword.
fn within<'a>(text: &'a str, keyword: Option<Lexeme<'a>>, found: Found<'a>) -> Detail<'a> {
    match keyword {
        Some(head) => {
            let offset = head.start;
            Detail::Within(found, Found(head.bytes), Place::new(text, offset))
        }
        None => Detail::InPlace(found),
    }
}

/// Returns what is said of a token where a field of the module is expected. If it belongs into a
/// function, that may be closed too early.
fn after_field<'a>(text: &'a str, around: &Around<'a>, found: Found<'a>) -> Detail<'a> {
    let is_inner = match around.inner() {
        Some(word) => is_listed(word.bytes, INSTRUCTIONS.as_bytes())
            || matches!(
                word.bytes,
                b"param" | b"result" | b"local" | b"then" | b"catch"
            ),
        None => false,
    };
    match last_close(around.text, around.start) {
        Some(offset) if is_inner => Detail::After(found, Place::new(text, offset)),
        _ => Detail::InPlace(found),
    }
}

/// Returns what is said of what comes after the module.
fn trailing<'a>(text: &'a str, start: usize) -> Detail<'a> {
    let bytes = text.as_bytes();
    let found = found_at(bytes, start);
    match module_end(bytes, start) {
        Some(offset) => Detail::Closed(found, Place::new(text, offset)),
        None => Detail::Token(found),
    }
}

/// Returns what is said of a character that is not allowed in a string.
fn in_string(text: &str, start: usize) -> Detail<'_> {
    let bytes = text.as_bytes();
    match (character_at(bytes, start), read_before(bytes, start).last) {
        (Some(character), Some(string)) => {
            let offset = string.start;
            Detail::InString(character, Place::new(text, offset))
        }
        _ => Detail::Nothing,
    }
}

/// Returns the error that is told: at the end of the text no instruction is unknown, but a
/// parenthesis is open.
pub(crate) fn told(text: &[u8], start: usize, fault: TextFault) -> TextFault {
    match fault {
        TextFault::Operator if found_at(text, start).0.is_empty() => TextFault::Expected("`)`"),
        fault => fault,
    }
}

/// Returns what is said of an escape.
fn escape_at(text: &str, start: usize) -> Detail<'_> {
    let Range { start, end } = range_of_fault(text, start, TextFault::Escape);
    let rest = bytes_from(text.as_bytes(), start);
    let escape = first_bytes(rest, end.saturating_sub(start));
    let expected = if is_scalar_escape(escape) {
        "no character has this number"
    } else {
        "expected two hexadecimal digits, `\\u{..}`, or one of t n r \" ' \\ after `\\`"
    };
    Detail::Escape(Found(escape), expected)
}

/// Returns what is said of an error in this string, which has the text of a module or a part of it.
/// The end of that text has the offset of the string. What is around the token is not looked at.
fn detail_in<'a>(string: Lexeme<'a>, text: &'a [u8], start: usize, fault: TextFault) -> Detail<'a> {
    if string.start == start {
        return Detail::Quoted(Found(string.bytes));
    }
    match fault {
        TextFault::Expected(_) => Detail::InPlace(found_at(text, start)),
        TextFault::Operator | TextFault::Alignment | TextFault::PageSize | TextFault::Trailing =>
            Detail::Token(found_at(text, start)),
        _ => Detail::Nothing,
    }
}

/// Returns what is said of an error in the text format after its words.
pub(crate) fn detail_of<'a>(text: &'a str, around: &Around<'a>, fault: TextFault) -> Detail<'a> {
    let (bytes, start) = (around.text, around.start);
    if let Some(string) = quoted_string(bytes, start) {
        return detail_in(string, bytes, start, fault);
    }
    match fault {
        TextFault::Character => match character_at(bytes, start) {
            Some(character) => Detail::Character(character),
            None => Detail::InPlace(Found(&[])),
        },
        TextFault::StringCharacter => in_string(text, start),
        TextFault::Adjacent => adjacent(bytes, start),
        TextFault::Escape => escape_at(text, start),
        TextFault::Expected(what) => in_place(text, around, what),
        TextFault::Number => Detail::NoNumber(found_at(bytes, start), number_at(bytes, start)),
        TextFault::Range => Detail::OutOfRange(found_at(bytes, start), number_at(bytes, start)),
        TextFault::Operator => operator_at(text, around),
        TextFault::Trailing => trailing(text, start),
        TextFault::Alignment | TextFault::PageSize => Detail::Token(found_at(bytes, start)),
        TextFault::EmptyAnnotation => {
            Detail::Fixed("a name or a string has to follow `(@` directly")
        }
        TextFault::EmptyId => match bytes_from(bytes, start) {
            [b'$', b'"', ..] => Detail::Fixed("the string after `$` has to have a character"),
            _ => Detail::Fixed("a name or a string has to follow `$` directly"),
        },
        TextFault::Hint => Detail::Fixed("expected `\"\\00\"` or `\"\\01\"`"),
        _ => Detail::Nothing,
    }
}

/// What has to come after an export or an import in a function, and after its type.
const TYPE: &str = "parameters, results, locals and instructions";

/// Returns whether a keyword and strings are all that a form has, as an export in a function.
fn is_inline(around: &Around<'_>) -> bool {
    let Some(mut token) = around.inner() else {
        return false;
    };
    for _ in 0..around.text.len() {
        match around.after(token) {
            Some(next) if next.kind == Kind::String => token = next,
            Some(next) => return next.kind == Kind::Close,
            None => break,
        }
    }
    false
}

/// Returns what has to come after a token that comes too late; empty if the token is another one.
fn late(around: &Around<'_>, word: &[u8]) -> &'static str {
    let is_call = around.form().starts_with(b"call") || around.form().starts_with(b"return_call");
    match word {
        b"type" | b"param" | b"result" if is_call => "operands",
        b"type" | b"param" | b"result"
            if matches!(
                around.form(),
                b"block" | b"loop" | b"if" | b"try" | b"try_table"
            ) => { "instructions" }
        b"type" if matches!(around.form(), b"func") => TYPE,
        b"param" | b"result" => "locals and instructions",
        b"local" => "instructions",
        b"import" | b"export" if is_inline(around) => TYPE,
        _ => "",
    }
}

/// Returns what is said of a token that is no instruction. Before a field of the module, the
/// parenthesis of another one may be missing.
fn operator_at<'a>(text: &'a str, around: &Around<'a>) -> Detail<'a> {
    let found = found_at(around.text, around.start);
    let word = found.0.strip_prefix(b"(").unwrap_or(found.0);
    let behind = late(around, word);
    if !behind.is_empty() {
        return Detail::Early(found, behind);
    }
    match open_around(around.text, around.start) {
        Some(offset) if is_listed(word, FIELDS.as_bytes()) => {
            Detail::Field(found, Place::new(text, offset))
        }
        _ => Detail::Token(found),
    }
}

/// Returns the kind of number that an offset has.
fn number_at(text: &[u8], start: usize) -> Number {
    let found = found_at(text, start);
    if found.0.starts_with(b"offset=") || found.0.starts_with(b"align=") {
        return number_after(found.0);
    }
    number_after(read_before(text, start).word)
}

/// Returns the name of the id at an offset.
fn name_at(text: &[u8], start: usize) -> Found<'_> {
    match lexeme_at(text, start) {
        Some(lexeme) if lexeme.kind == Kind::Id => Found(lexeme.bytes),
        _ => Found(&[]),
    }
}

/// Returns what is said of an id that is defined twice in an index space.
fn twice<'a>(text: &'a str, start: usize, space: &str) -> Detail<'a> {
    let bytes = text.as_bytes();
    let found = name_at(bytes, start);
    let Some(id) = lexeme_at(bytes, start) else {
        return Detail::Nothing;
    };
    if found.0.is_empty() {
        return Detail::Nothing;
    }
    match first_definition(bytes, space, id.name(), start) {
        Some(first) if first.start < start => {
            let offset = first.start;
            Detail::Twice(found, Place::new(text, offset))
        }
        _ => Detail::Token(found),
    }
}

/// Returns what is said of a field that is unknown: where the struct type is, which is before it.
fn owner(text: &str, start: usize) -> Detail<'_> {
    let bytes = text.as_bytes();
    let Some(index) = read_before(bytes, start).last else {
        return Detail::Nothing;
    };
    match type_at(bytes, index.start) {
        Some(offset) => Detail::Owner(Found(index.bytes), Place::new(text, offset)),
        None => Detail::Nothing,
    }
}

/// Returns what is said of an id that is unknown: an item of another kind may have it.
fn elsewhere<'a>(text: &'a str, start: usize, name: &str) -> Detail<'a> {
    match first_definition(text.as_bytes(), "item", name.as_bytes(), start) {
        Some(item) => {
            let offset = item.start;
            Detail::Elsewhere(Found(item.word), Place::new(text, offset))
        }
        None => Detail::Nothing,
    }
}

/// Returns where a type is defined, by its id or its number in a text.
fn type_at(text: &[u8], start: usize) -> Option<usize> {
    let index = lexeme_at(text, start)?;
    if index.kind != Kind::Id {
        return numbered_type(text, index.bytes, start);
    }
    let definition = first_definition(text, "type", index.name(), start)?;
    Some(definition.start)
}

/// Returns what is said of the type of a type use.
fn typed(text: &str, start: usize) -> Detail<'_> {
    let bytes = text.as_bytes();
    let found = found_at(bytes, start);
    match type_at(bytes, start) {
        Some(offset) => Detail::Defined(found, Place::new(text, offset)),
        None => Detail::Token(found),
    }
}

/// Returns what is said of a label after `else` or `end` that is not that of its block.
fn label(text: &str, start: usize) -> Detail<'_> {
    let bytes = text.as_bytes();
    let found = found_at(bytes, start);
    let Some(end) = read_before(bytes, start).last else {
        return Detail::Token(found);
    };
    let Some(block) = open_block(bytes, end.start) else {
        return Detail::Token(found);
    };
    let offset = block.start;
    let own = match next_lexeme(bytes, block.end) {
        Some(next) if next.kind == Kind::Id => Some(Found(next.bytes)),
        _ => None,
    };
    Detail::Label(found, Found(block.bytes), Place::new(text, offset), own)
}

/// Returns what is said of an error of the module after its words.
pub(crate) fn detail_of_module<'a>(text: &'a str, start: usize, fault: Fault<'_>) -> Detail<'a> {
    let bytes = text.as_bytes();
    match fault {
        Fault::ImportAfter(_) => Detail::Fixed(
            "imports come before all functions, tables, memories, globals and tags",
        ),
        Fault::Duplicate(space) => twice(text, start, space),
        Fault::DuplicateField(space, _) => twice(text, start, space),
        Fault::Unknown(space, _) if space == "field" => owner(text, start),
        Fault::Unknown(_, name) => elsewhere(text, start, name),
        Fault::NotFunc | Fault::NoMatch => typed(text, start),
        Fault::OutOfBounds => Detail::Token(found_at(bytes, start)),
        Fault::Labels => label(text, start),
        _ => Detail::Nothing,
    }
}

/// What a caller knows of an id that is wrong.
#[derive(Clone, Copy)]
pub struct KnownId<'a> {
    /// The position of the first definition of its name, if it is defined twice.
    pub first: Option<usize>,
    /// The keyword of an item of another kind that has its name, and the position of the id of that item.
    pub elsewhere: Option<(&'static str, usize)>,
    /// The name that may be meant.
    pub near: Option<&'a str>,
}

/// Returns what is said of an id after the words of the error.
pub(crate) fn detail_of_id<'a>(text: &'a str, start: usize, known: KnownId<'a>) -> Detail<'a> {
    if let Some(offset) = known.first {
        let found = name_at(text.as_bytes(), start);
        return Detail::Twice(found, Place::new(text, offset));
    }
    match known.elsewhere {
        Some((word, offset)) => Detail::Elsewhere(Found(word.as_bytes()), Place::new(text, offset)),
        None => Detail::Nothing,
    }
}

/// Returns the id that may be meant where an error of the module is.
pub(crate) fn hint_of_module<'a>(
    text: &'a [u8],
    start: usize,
    fault: Fault<'a>,
) -> Option<Hint<'a>> {
    match fault {
        Fault::Unknown(space, name) => {
            let word = nearest_name(text, space, name.as_bytes(), start)?;
            Some(Hint::new("$", word, ""))
        }
        _ => None,
    }
}
