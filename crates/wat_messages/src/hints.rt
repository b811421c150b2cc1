//! What to write where an error in the text format is.

use crate::around::{Around, is_name, is_number};
use crate::definitions::first_definition;
use crate::details::Hint;
use crate::lexemes::{Kind, Lexeme, bytes_from, first_bytes, shown, word_length};
use crate::lists::{
    HEAP_TYPES, INSTRUCTIONS, KINDS, NUMBER_TYPES, REFERENCE_TYPES, VALUE_TYPES, words_for,
};
use crate::near::{Words, is_listed, nearest_of};
use crate::operations::suggested;
use crate::spellings::{begins_comment, today};
use wat_tokens::{TextFault, look_up};

/// Returns a hint of one word.
fn of_word(word: &[u8]) -> Hint<'_> {
    Hint::new("", word, "")
}

/// Returns the beginning of a comment, for that of another language.
fn comment() -> Hint<'static> {
    of_word(b";;")
}

/// Returns the text of a string, without its quotes, if it is closed.
fn unquoted(string: &[u8]) -> &[u8] {
    match string {
        [b'"', text @ .., b'"'] => text,
        _ => first_bytes(string, 0),
    }
}

/// Returns the id that may be meant by a word or a string: one that is defined, without its `$`.
fn defined_id<'a>(around: &Around<'a>) -> Option<Hint<'a>> {
    let found = around.found()?;
    let name = match found.kind {
        Kind::Word => found.bytes,
        Kind::String => unquoted(found.bytes),
        _ => return None,
    };
    if around.defines("item", name) || around.defines("local", name) {
        return Some(Hint::new("$", name, ""));
    }
    None
}

/// Returns the string that may be meant by a word or an id.
fn in_quotes<'a>(around: &Around<'a>) -> Option<Hint<'a>> {
    let found = around.found()?;
    let text = match found.bytes {
        [b'\'', text @ .., b'\''] => text,
        _ => found.name(),
    };
    match found.kind {
        Kind::Word | Kind::Id => Some(Hint::new("\"", text, "\"")),
        _ => None,
    }
}

/// Returns what is before a number that is an operand of this type.
fn constant_of(kind: &[u8]) -> &'static str {
    match kind {
        b"i32" => "(i32.const ",
        b"i64" => "(i64.const ",
        b"f32" => "(f32.const ",
        b"f64" => "(f64.const ",
        _ => "",
    }
}

/// Returns the number type that an operation is a conversion from, as that of `convert_i32_s`; empty
/// if there is none.
fn source_of(operation: &[u8]) -> &[u8] {
    let mut rest = operation;
    for _ in 0..operation.len() {
        match rest {
            [b'_', source @ ..] => {
                let source = first_bytes(source, 3);
                if !constant_of(source).is_empty() {
                    return source;
                }
                rest = bytes_from(rest, 1);
            }
            [_, more @ ..] => rest = more,
            [] => break,
        }
    }
    first_bytes(operation, 0)
}

/// Returns what is before a number that is an operand of an instruction. An instruction has operands of
/// its type. An address is an i32, and so is an operand of an instruction without a type. For one on
/// vectors nothing is returned.
fn constant_for(instruction: &[u8]) -> &'static str {
    let kind = first_bytes(instruction, 3);
    let operation = bytes_from(instruction, 4);
    let source = source_of(operation);
    if instruction.get(3) != Some(&b'.') || constant_of(kind).is_empty() {
        let is_vector = instruction.starts_with(b"v128") || instruction.get(3) == Some(&b'x');
        return if is_vector { "" } else { "(i32.const " };
    }
    if operation.starts_with(b"load") {
        return "(i32.const ";
    }
    constant_of(if source.is_empty() { kind } else { source })
}

/// Returns the operand that may be meant by a number.
fn constant<'a>(around: &Around<'a>, number: &'a [u8]) -> Option<Hint<'a>> {
    let before = constant_for(around.form());
    if before.is_empty() {
        return None;
    }
    Some(Hint::new(before, number, ")"))
}

/// Returns what may be meant by the id of a local or a global where an instruction is expected.
fn variable<'a>(
    around: &Around<'a>,
    id: Lexeme<'a>,
    local: &'static str,
    global: &'static str,
    after: &'static str,
) -> Option<Hint<'a>> {
    if around.defines("local", id.name()) {
        return Some(Hint::new(local, id.bytes, after));
    }
    if around.defines("global", id.name()) {
        return Some(Hint::new(global, id.bytes, after));
    }
    None
}

/// Returns the memory argument that is meant by a name, a `=` and a number that blanks separate.
fn memory_argument<'a>(around: &Around<'a>, name: Lexeme<'a>) -> Option<Hint<'a>> {
    let next = around.after(name)?;
    let number = match next.bytes {
        b"=" => around.word_after(next),
        [b'=', number @ ..] => number,
        number => number,
    };
    if !is_number(number) {
        return None;
    }
    match name.bytes {
        b"offset" | b"offset=" => Some(Hint::new("offset=", number, "")),
        b"align" | b"align=" => Some(Hint::new("align=", number, "")),
        _ => None,
    }
}

/// Returns what may be meant by a token among folded operands.
fn operand<'a>(around: &Around<'a>) -> Option<Hint<'a>> {
    let found = around.found()?;
    match found.kind {
        Kind::Id => return variable(around, found, "(local.get ", "(global.get ", ")"),
        Kind::Word => {}
        _ => return None,
    }
    match found.bytes {
        b"offset" | b"align" => return memory_argument(around, found),
        word if is_number(word) => return constant(around, word),
        word if begins_comment(word) => return Some(comment()),
        _ => {}
    }
    if is_listed(found.bytes, INSTRUCTIONS.as_bytes()) {
        return Some(Hint::new("(", found.bytes, ""));
    }
    None
}

/// Returns the beginning of the form that an export names an item with, for the keyword of the item.
fn form_of(word: &[u8]) -> &'static str {
    match word {
        b"table" => "(table ",
        b"memory" => "(memory ",
        b"global" => "(global ",
        b"tag" => "(tag ",
        _ => "(func ",
    }
}

/// Returns the item that an export may mean by an id, a number or a word.
fn exported<'a>(around: &Around<'a>, found: Lexeme<'a>) -> Option<Hint<'a>> {
    match found.kind {
        Kind::Id => {
            let before = match first_definition(around.text, "item", found.name(), around.start) {
                Some(item) => form_of(item.word),
                None => "(func ",
            };
            Some(Hint::new(before, found.bytes, ")"))
        }
        Kind::Word if is_number(found.bytes) => Some(Hint::new("(func ", found.bytes, ")")),
        Kind::Word if is_kind(found.bytes) => Some(Hint::new("(", found.bytes, "")),
        _ => None,
    }
}

/// Returns whether a word is a kind of item that modules import and export.
fn is_kind(word: &[u8]) -> bool {
    is_listed(word, KINDS.as_bytes())
}

/// Returns the form that may be meant where one is expected: that of an item, in an export or an
/// import, or a string in other quotes.
fn form<'a>(around: &Around<'a>) -> Option<Hint<'a>> {
    let found = around.found()?;
    if found.bytes.starts_with(b"'") {
        return in_quotes(around);
    }
    match around.form() {
        b"export" => exported(around, found),
        b"import" if is_kind(found.bytes) => Some(Hint::new("(", found.bytes, "")),
        b"import" if found.kind == Kind::Id => Some(Hint::new("(func ", found.bytes, ")")),
        _ => None,
    }
}

/// Returns whether a word is the type of a field.
fn is_field_type(word: &[u8]) -> bool {
    is_listed(word, VALUE_TYPES.as_bytes()) || is_listed(word, NUMBER_TYPES.as_bytes())
}

/// Returns the field that may be meant in a struct type.
fn struct_field<'a>(around: &Around<'a>) -> Option<Hint<'a>> {
    let (found, inner) = (around.found()?, around.inner()?);
    if !matches!(around.form(), b"struct") {
        return None;
    }
    let next = around.word_after(inner);
    match inner.bytes {
        b"mut" => Some(Hint::new("(field (mut ", next, "))")),
        word if is_field_type(word) => Some(Hint::new("(field ", word, ")")),
        _ if found.kind == Kind::Id && is_field_type(next) => {
            Some(Hint::new("(field ", found.bytes, " ..)"))
        }
        _ => None,
    }
}

/// Returns the id that may be meant by a word after a keyword that an id can follow: the word is no
/// other token, and something follows it.
fn missing_id<'a>(around: &Around<'a>, word: Lexeme<'a>) -> Option<Hint<'a>> {
    let next = around.after(word)?;
    if !is_name(word.bytes) || word.start != around.start || look_up(shown(word.bytes)).is_some() {
        return None;
    }
    let can_follow = matches!(
        around.last_word(),
        b"func"
            | b"param"
            | b"local"
            | b"field"
            | b"global"
            | b"memory"
            | b"table"
            | b"type"
            | b"tag"
    );
    if !can_follow || next.kind == Kind::Close && !matches!(around.last_word(), b"func") {
        return None;
    }
    Some(Hint::new("$", word.bytes, ""))
}

/// Returns the type that a heap type is that of a reference to, as `funcref` for `func`.
fn reference_to(word: &[u8]) -> Option<&'static [u8]> {
    let mut words = Words(REFERENCE_TYPES.as_bytes());
    for _ in 0..words.0.len() {
        let candidate = words.next_word()?;
        if candidate.strip_suffix(b"ref") == Some(word) {
            return Some(candidate);
        }
    }
    None
}

/// Returns the type that is meant by one of another kind: `funcref` by `func`, or `func` by `funcref`.
fn other_type<'a>(word: &'a [u8], expected: &str) -> Option<&'a [u8]> {
    match expected {
        "a value type" | "a reference type" => reference_to(word),
        "a heap type" => {
            let heap = word.strip_suffix(b"ref")?;
            if is_listed(heap, HEAP_TYPES.as_bytes()) {
                return Some(heap);
            }
            None
        }
        _ => None,
    }
}

/// Returns the word of a list that may be meant by a word that is none of the format.
fn of_list<'a>(word: &'a [u8], list: &'static [u8], is_field: bool) -> Option<&'a [u8]> {
    let new = today(word);
    if is_listed(new, list) || is_field && matches!(new, b"module") {
        return Some(new);
    }
    if look_up(shown(word)).is_some() {
        return None;
    }
    nearest_of(word, list)
}

/// Returns what may be meant by a word where one of several words is expected.
fn listed<'a>(around: &Around<'a>, expected: &str) -> Option<Hint<'a>> {
    let list = words_for(expected)?;
    let (found, word) = (around.found()?, around.inner()?);
    let is_field = expected == "valid module field";
    if word.kind == Kind::Id && around.defines("type", word.name()) {
        return Some(Hint::new("(ref ", word.bytes, ")"));
    }
    if word.kind != Kind::Word {
        return None;
    }
    match word.bytes {
        text if begins_comment(text) => return Some(comment()),
        b"mut" => return Some(Hint::new("(mut ", around.word_after(word), ")")),
        text if is_field && found.kind == Kind::Word && !around.is_opened() => {
            if is_listed(text, list) || matches!(text, b"module") {
                return Some(Hint::new("(", text, ""));
            }
        }
        _ => {}
    }
    let meant = match other_type(word.bytes, expected) {
        Some(other) => Some(other),
        None => of_list(word.bytes, list, is_field),
    };
    match meant {
        Some(meant) => Some(of_word(meant)),
        None => missing_id(around, word),
    }
}

/// Returns what may be meant by a token where an instruction is expected.
fn operator<'a>(around: &Around<'a>) -> Option<Hint<'a>> {
    let found = around.inner()?;
    if found.kind == Kind::Id {
        return variable(around, found, "local.get ", "global.get ", "");
    }
    if found.kind != Kind::Word {
        return None;
    }
    match found.bytes {
        b"->" => return Some(Hint::new("(result ", around.word_after(found), ")")),
        word if begins_comment(word) => return Some(comment()),
        word if is_number(word) => return Some(Hint::new("i32.const ", word, "")),
        word if look_up(shown(word)).is_some() => return None,
        _ => {}
    }
    match instruction(found.bytes) {
        Some(hint) => Some(hint),
        None => missing_id(around, found),
    }
}

/// Returns the instruction that may be meant by a word that is none.
fn instruction(word: &[u8]) -> Option<Hint<'static>> {
    let new = today(word);
    if is_listed(new, INSTRUCTIONS.as_bytes()) {
        return Some(of_word(new));
    }
    let choice = suggested(if new.is_empty() { word } else { new })?;
    let mut hint = of_word(choice.word);
    hint.other = choice.other;
    Some(hint)
}

/// Returns what may be meant by a number that is none.
fn number<'a>(around: &Around<'a>) -> Option<Hint<'a>> {
    let found = around.found()?;
    match found.bytes {
        b"offset=" | b"align=" => memory_argument(around, found),
        [b'#', digits @ ..] if is_number(digits) => Some(of_word(digits)),
        _ if found.kind == Kind::Word => missing_id(around, found),
        _ => None,
    }
}

/// Returns what may be meant by a character that begins no token.
fn character(text: &[u8]) -> Option<Hint<'_>> {
    match text {
        [b';', ..] => Some(comment()),
        [b'[' | b'{', ..] => Some(of_word(b"(")),
        [b']' | b'}', ..] => Some(of_word(b")")),
        [0xe2, 0x80, 0x9c | 0x9d, ..] => Some(of_word(b"\"")),
        _ => None,
    }
}

/// Returns how many bytes an id has that has characters outside of ASCII, from its name on.
fn name_length(text: &[u8]) -> usize {
    for (count, byte) in text.iter().enumerate() {
        if *byte < 0x80 && word_length(first_bytes(bytes_from(text, count), 1)) == 0 {
            return count;
        }
    }
    text.len()
}

/// Returns an id in quotes, for one with characters outside of ASCII that begins at an offset.
fn quoted_id(text: &[u8], start: usize) -> Option<Hint<'_>> {
    let rest = bytes_from(text, start.saturating_add(1));
    let name = first_bytes(rest, name_length(rest));
    if name.is_empty() {
        return None;
    }
    Some(Hint::new("$\"", name, "\""))
}

/// Returns what may be meant by a token and the character that touches it.
fn touching<'a>(around: &Around<'a>) -> Option<Hint<'a>> {
    let token = around.touched()?;
    let rest = bytes_from(around.text, token.end);
    match rest {
        [byte, ..] if token.kind == Kind::Id && *byte >= 0x80 => {
            quoted_id(around.text, token.start)
        }
        _ => character(rest),
    }
}

/// Returns what may be meant where something else was expected.
fn expected<'a>(around: &Around<'a>, what: &str) -> Option<Hint<'a>> {
    match what {
        "an index" => defined_id(around),
        "a string" | "a string or `(item`" => in_quotes(around),
        "`(` or `)`" => operand(around),
        "`(`" => form(around),
        "`)`" => struct_field(around),
        _ => listed(around, what),
    }
}

/// Returns what may be meant where an error in the text format is.
pub(crate) fn hint_of<'a>(around: &Around<'a>, fault: TextFault) -> Option<Hint<'a>> {
    match fault {
        TextFault::Operator => operator(around),
        TextFault::Expected(what) => expected(around, what),
        TextFault::Number => number(around),
        TextFault::Character => character(bytes_from(around.text, around.start)),
        TextFault::Adjacent => touching(around),
        TextFault::EmptyId => quoted_id(around.text, around.start),
        _ => None,
    }
}
