//! What has to be known to mend an error in the text format, for errors that are common.

use crate::around::{Around, is_number};
use crate::lexemes::{Kind, bytes_from};
use wat_tokens::TextFault;

/// Returns what is said where a number is expected: how many there have to be.
fn of_number(around: &Around<'_>) -> &'static str {
    if matches!(around.form(), b"memory") {
        return "a memory has a number of pages, such as `(memory 1)`";
    }
    match around.keyword {
        b"i8x16" => "`i8x16` has 16 numbers",
        b"i16x8" => "`i16x8` has 8 numbers",
        b"i32x4" => "`i32x4` has 4 numbers",
        b"f32x4" => "`f32x4` has 4 numbers",
        b"i64x2" => "`i64x2` has 2 numbers",
        b"f64x2" => "`f64x2` has 2 numbers",
        b"i8x16.shuffle" => "`i8x16.shuffle` has 16 lane indices",
        _ => "",
    }
}

/// Returns whether the form at the offset has an id directly after its keyword.
fn has_id(around: &Around<'_>) -> bool {
    match around.head {
        Some(head) => match around.after(head) {
            Some(next) => next.kind == Kind::Id && next.start < around.start,
            None => false,
        },
        None => false,
    }
}

/// What is said of several types or ids of one form.
const ONE: &str = "with an id, a `param`, `local` or `field` has one type";

/// Returns what is said where a value type is expected.
fn of_type(around: &Around<'_>) -> &'static str {
    let Some(found) = around.found() else {
        return "";
    };
    match around.after(found) {
        Some(next) if found.kind == Kind::Id && next.kind == Kind::Close => {
            return "a reference to a type is written `(ref $t)`";
        }
        _ if found.kind == Kind::Id && around.is_after_id() => return ONE,
        _ => {}
    }
    match found.bytes {
        b"(" if around.is_before_instruction() => "it is not closed before this",
        b")" => "for example `i32`",
        b"ref" => "a reference type is `funcref`, `(ref null func)` or similar",
        _ => "",
    }
}

/// Returns what is said where a form ends, and something more is in it.
fn of_end(around: &Around<'_>) -> &'static str {
    let is_annotation = match around.found() {
        Some(found) => found.bytes.starts_with(b"@"),
        None => false,
    };
    match around.form() {
        _ if is_annotation => "",
        b"param" | b"local" | b"field" if has_id(around) => ONE,
        b"struct" => "a struct has fields, such as `(field i32)`",
        _ => "",
    }
}

/// Returns what is said where a parenthesis is expected.
fn of_form(around: &Around<'_>) -> &'static str {
    match around.form() {
        b"data" | b"elem" => "an offset is an expression, such as `(i32.const 0)`",
        b"export" => "an export names an item, such as `(func $f)`",
        b"import" => "an import has an item, such as `(func $f)`",
        _ => "",
    }
}

/// Returns whether a word begins an offset.
fn is_offset(word: &[u8]) -> bool {
    matches!(
        word,
        b"offset" | b"i32.const" | b"i64.const" | b"global.get"
    )
}

/// Returns what is said where something was expected, and nothing is suggested.
fn of_expected(around: &Around<'_>, what: &str) -> &'static str {
    match what {
        "a number" => of_number(around),
        "an index" => match around.found() {
            Some(found) if found.kind == Kind::Word => "an id begins with `$`",
            _ => "",
        },
        "a value type" => of_type(around),
        "a reference type" => "for example `funcref`",
        "`)`" => of_end(around),
        "`(`" => of_form(around),
        "`then`" | "`else`" => "it has one `(then ..)`, and perhaps `(else ..)` after that",
        "a string" if matches!(around.form(), b"export") => "an export has its name first",
        "a string" | "a string or `(item`" if matches!(around.form(), b"import") => {
            "an import has two names"
        }
        "a string or a number type" => match around.inner() {
            Some(word) if is_offset(word.bytes) => "an offset comes before the strings",
            _ => "",
        },
        "valid module field" => match around.inner() {
            Some(word) if matches!(word.bytes, b"component") => "components are not supported",
            Some(word) if matches!(word.bytes, b"module") => "a module has no module in it",
            _ => "",
        },
        _ => "",
    }
}

/// Returns what is said of a token that may not be here.
fn of_unexpected(around: &Around<'_>, what: &str) -> &'static str {
    match what {
        "`end`" => "no block is open here",
        "`else`" if matches!(around.form(), b"if") => "`(then ..)` has to come before it",
        _ => "",
    }
}

/// Returns what is said of a token where an instruction is expected, and nothing is suggested.
fn of_operator(around: &Around<'_>) -> &'static str {
    let Some(found) = around.inner() else {
        return "";
    };
    match found.bytes {
        b"then" | b"else" => "it belongs to a folded `(if`",
        _ if found.kind == Kind::Id && matches!(around.form(), b"func") => {
            "an id comes directly after `func`"
        }
        _ => "",
    }
}

/// Returns what is said of what comes after the module.
fn of_trailing(around: &Around<'_>) -> &'static str {
    match around.inner() {
        Some(word) => match word.bytes {
            b"module" => "a text has one module",
            bytes if bytes.starts_with(b"assert_") => "`wat2json` reads scripts",
            b"invoke" | b"register" => "`wat2json` reads scripts",
            _ => "",
        },
        None => "",
    }
}

/// Returns what is said of a comma, which touches a token or not.
fn of_comma(around: &Around<'_>) -> &'static str {
    let Some(token) = around.touched() else {
        return match around.text {
            [0, b'a', b's', b'm', ..] => "this is a binary module",
            _ => "",
        };
    };
    let is_number = is_number(token.bytes) && token.end == around.start;
    match bytes_from(around.text, around.start) {
        [b',', next, ..] if is_number && next.is_ascii_digit() => "digits can be grouped by `_`",
        [b',', ..] => "spaces separate tokens",
        _ => "",
    }
}

/// Returns what is said of an error in the text format, if nothing is suggested; empty for most.
pub(crate) fn advice_of(around: &Around<'_>, fault: TextFault) -> &'static str {
    match fault {
        TextFault::Expected(what) => of_expected(around, what),
        TextFault::Unexpected(what) => of_unexpected(around, what),
        TextFault::Operator => of_operator(around),
        TextFault::Trailing => of_trailing(around),
        TextFault::Character | TextFault::Adjacent => of_comma(around),
        _ => "",
    }
}
