//! Old words of the text format, and words of other languages, with what is written today.

/// Returns what is written today for an old instruction; empty for others. Old conversions such as
/// `i32.wrap/i64` are found by their parts.
fn instruction_today(word: &[u8]) -> &'static str {
    match word {
        b"get_local" => "local.get",
        b"set_local" => "local.set",
        b"tee_local" => "local.tee",
        b"get_global" => "global.get",
        b"set_global" => "global.set",
        b"current_memory" => "memory.size",
        b"grow_memory" => "memory.grow",
        b"memory.drop" => "data.drop",
        b"table.drop" => "elem.drop",
        b"i32.atomic.wait" => "memory.atomic.wait32",
        b"i64.atomic.wait" => "memory.atomic.wait64",
        b"atomic.notify" | b"atomic.wake" => "memory.atomic.notify",
        b"i31.new" => "ref.i31",
        b"extern.internalize" => "any.convert_extern",
        b"extern.externalize" => "extern.convert_any",
        b"i8x16.any_true" | b"i16x8.any_true" | b"i32x4.any_true" => "v128.any_true",
        b"i32.mod" => "i32.rem",
        b"i64.mod" => "i64.rem",
        b"i32.gte" => "i32.ge",
        b"i64.gte" => "i64.ge",
        b"f32.gte" => "f32.ge",
        b"f64.gte" => "f64.ge",
        b"i32.lte" => "i32.le",
        b"i64.lte" => "i64.le",
        b"f32.lte" => "f32.le",
        b"f64.lte" => "f64.le",
        b"ret" => "return",
        _ => "",
    }
}

/// Returns the type for an old type or one of another language; empty for others.
fn type_today(word: &[u8]) -> &'static str {
    match word {
        b"anyfunc" => "funcref",
        b"int" | b"uint" | b"int32" | b"uint32" | b"bool" | b"char" | b"byte" => "i32",
        b"long" | b"int64" | b"uint64" => "i64",
        b"float" | b"float32" => "f32",
        b"double" | b"float64" => "f64",
        _ => "",
    }
}

/// Returns the field of a module for a word of another language; empty for others.
fn field_today(word: &[u8]) -> &'static str {
    match word {
        b"function" | b"fn" | b"fun" | b"def" | b"proc" => "func",
        b"mem" => "memory",
        b"var" | b"let" | b"const" => "global",
        b"Module" => "module",
        _ => "",
    }
}

/// Returns what is written today for an old word, or a word of another language; empty for others.
pub(crate) fn today(word: &[u8]) -> &'static [u8] {
    let mut found = instruction_today(word);
    if found.is_empty() {
        found = type_today(word);
    }
    if found.is_empty() {
        found = field_today(word);
    }
    found.as_bytes()
}

/// Returns whether a word begins a comment in another language.
pub(crate) fn begins_comment(word: &[u8]) -> bool {
    word.starts_with(b"//") || word.starts_with(b"#") || word.starts_with(b"--")
}
