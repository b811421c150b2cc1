//! What errors mean, for `--explain`. `tools/pages` writes docs/ERRORS.md from this table.

use std::io;

/// An error, and what to do about it.
#[derive(Clone, Copy)]
pub(crate) struct Entry {
    /// Its number, such as `E4`; empty for an error in the text format.
    pub number: &'static str,
    /// The words that its messages begin with.
    pub words: &'static str,
    /// What is wrong.
    pub cause: &'static str,
    /// A text that has it; empty if there is no small one.
    pub example: &'static str,
    /// What to do.
    pub fix: &'static str,
}

/// The errors: those with a number, then those in the text format.
const ENTRIES: [Entry; 36] = [
    Entry {
        number: "E1",
        words: "import after",
        cause: "An import comes after a definition. Imports have the first indices, so they come first.",
        example: r#"(module (func) (import "" "" (func)))"#,
        fix: "Move the import before all functions, tables, memories, globals and tags.",
    },
    Entry {
        number: "E2",
        words: "duplicate",
        cause: "Two items of one index space, or two locals of a function, have the same id.",
        example: "(module (type $t (func)) (type $t (func)))",
        fix: "Rename one of them. The message has the place of the first definition.",
    },
    Entry {
        number: "E3",
        words: "duplicate identifier",
        cause: "Two fields of a struct type have the same id.",
        example: "(module (type (struct (field $x i32) (field $x i32))))",
        fix: "Rename one of them. The message has the place of the first one.",
    },
    Entry {
        number: "E4",
        words: "unknown",
        cause: "No item of this kind has this id. Each kind has its own ids: $f can be a function and a global.",
        example: "(module (func $first) (start $fist))",
        fix: "Correct the id, or define the item. The message suggests an id that is similar.",
    },
    Entry {
        number: "E5",
        words: "invalid type: not a function type",
        cause: "A type use has the index of a type that is not a function type.",
        example: "(module (type (struct)) (func (type 0) (param i32)))",
        fix: "Give the index of a function type.",
    },
    Entry {
        number: "E6",
        words: "unknown type: type index out of bounds",
        cause: "A type use has an index, and there is no type with this index.",
        example: "(module (func (type 5) (param i32)))",
        fix: "Define the type, or leave the index out: then the type is found or added.",
    },
    Entry {
        number: "E7",
        words: "inline function type doesn't match type reference",
        cause: "A type use has an index, and other parameters or results than the type with this index.",
        example: "(module (type $t (func (param i32))) (func (type $t) (result i32)))",
        fix: "Remove the parameters and results, or give those of the type.",
    },
    Entry {
        number: "E8",
        words: "mismatching labels between end and block",
        cause: "The label after `else` or `end` is not the label of the block.",
        example: "(module (func block $l end $m))",
        fix: "Give the label of the block, or none.",
    },
    Entry {
        number: "E9",
        words: "accessing a named field",
        cause: "A field is accessed by its name, and the type is not a struct with a named field.",
        example: "(module (type (struct)) (func struct.get 0 $x))",
        fix: "Name the field in the type, or give its number.",
    },
    Entry {
        number: "E10",
        words: "too large",
        cause: "A count, a size or a position does not fit in 32 bits.",
        example: "",
        fix: "Split the module.",
    },
    Entry {
        number: "E11",
        words: "uncovered form",
        cause: "The module has a construct that the encoder does not support.",
        example: "(module (func i64.add128))",
        fix: "Replace the construct. docs/ERRORS.md lists those that are not supported.",
    },
    Entry {
        number: "E12",
        words: "out of memory",
        cause: "An allocation failed.",
        example: "",
        fix: "Free memory, or raise the limit of the process.",
    },
    Entry {
        number: "E13",
        words: "components are not encoded",
        cause: "The module is a component. Only a tree that a program builds can be one.",
        example: "",
        fix: "Pass a core module.",
    },
    Entry {
        number: "",
        words: "unexpected character",
        cause: "No token begins with this character. Outside of strings and comments a text is ASCII.",
        example: "(module ; (func))",
        fix: "Remove the character. A line comment begins with `;;`, a block comment with `(;`.",
    },
    Entry {
        number: "",
        words: "expected whitespace or a parenthesis after token",
        cause: "Two tokens touch, or a character that is not allowed touches a token.",
        example: r#"(module (data "a""b"))"#,
        fix: "Separate the tokens by a space, or remove the character that the message names.",
    },
    Entry {
        number: "",
        words: "unterminated string",
        cause: "A string has no closing quote.",
        example: r#"(module (data "a))"#,
        fix: "Close the string. A quote in a string is written `\\\"`.",
    },
    Entry {
        number: "",
        words: "invalid string escape",
        cause: "A backslash in a string begins no escape.",
        example: r#"(module (data "\q"))"#,
        fix: "Write `\\\\` for a backslash, `\\` and two hexadecimal digits for a byte, `\\u{..}` for a character.",
    },
    Entry {
        number: "",
        words: "invalid character in string",
        cause: "A string contains a control character, such as a tab or the end of a line.",
        example: "(module (data \"a\tb\"))",
        fix: "Write it as an escape: `\\t`, `\\n`, or `\\` and two hexadecimal digits.",
    },
    Entry {
        number: "",
        words: "unterminated block comment",
        cause: "A comment that begins with `(;` has no `;)`. Block comments nest.",
        example: "(module (; (func))",
        fix: "Close the comment with `;)`.",
    },
    Entry {
        number: "",
        words: "unterminated annotation",
        cause: "An annotation that begins with `(@` has no closing parenthesis.",
        example: "(module (@a (func)",
        fix: "Close the annotation.",
    },
    Entry {
        number: "",
        words: "empty annotation id",
        cause: "`(@` is not followed by a name.",
        example: "(module (@ a))",
        fix: "Write the name directly after `(@`.",
    },
    Entry {
        number: "",
        words: "empty identifier",
        cause: "`$` is not followed by a name.",
        example: "(module (func $))",
        fix: "Write the name directly after `$`, or remove the `$`.",
    },
    Entry {
        number: "",
        words: "malformed UTF-8 encoding",
        cause: "The bytes of the file, or those of a name, are not UTF-8.",
        example: r#"(module (export "\ff" (func 0)))"#,
        fix: "Save the file as UTF-8. In a name, write `\\u{..}` for a character.",
    },
    Entry {
        number: "",
        words: "expected",
        cause: "Something else has to be here. The message says what was found.",
        example: "(module (func) (fnuc))",
        fix: "Write what is expected, or close the parenthesis that the message names.",
    },
    Entry {
        number: "",
        words: "unexpected",
        cause: "This is allowed at other places only: an `end` needs an open block.",
        example: "(module (func end))",
        fix: "Remove it, or open the block.",
    },
    Entry {
        number: "",
        words: "invalid number",
        cause: "The token is not a number of the kind that is expected.",
        example: "(module (func i32.const 1x drop))",
        fix: "Correct the digits. Underscores are allowed between digits only.",
    },
    Entry {
        number: "",
        words: "constant out of range",
        cause: "The number does not fit in the bits of its type. The message has the range.",
        example: "(module (func i32.const 4294967296 drop))",
        fix: "Give a smaller number, or use a larger type.",
    },
    Entry {
        number: "",
        words: "unknown operator or unexpected token",
        cause: "An instruction is expected, and the token is not one.",
        example: "(module (func (i32.ad (i32.const 1) (i32.const 2)) drop))",
        fix: "Correct the instruction. Parameters, results and locals come before all instructions.",
    },
    Entry {
        number: "",
        words: "alignment must be a power of two",
        cause: "The number after `align=` is not 1, 2, 4, 8 and so on.",
        example: "(module (memory 1) (func i32.const 0 i32.load align=3 drop))",
        fix: "Give a power of two, at most the size of the access.",
    },
    Entry {
        number: "",
        words: "page size must be a power of two",
        cause: "The number in `(pagesize ..)` is not a power of two.",
        example: "(module (memory 1 (pagesize 3)))",
        fix: "Give 1 or 65536: engines accept these.",
    },
    Entry {
        number: "",
        words: "invalid value for branch hint",
        cause: "A branch hint is a string of one byte, 0 or 1.",
        example: r#"(module (func i32.const 0 (@metadata.code.branch_hint "\02") if end))"#,
        fix: "Write `\"\\00\"` if the branch is not likely, `\"\\01\"` if it is.",
    },
    Entry {
        number: "",
        words: "branch hints must be",
        cause: "A branch hint is before an instruction that takes none, or before another hint.",
        example: r#"(module (func nop (@metadata.code.branch_hint "\00")))"#,
        fix: "Write the hint directly before an `if`, a `br_if` or another branch.",
    },
    Entry {
        number: "",
        words: "`param` must come before `result`",
        cause: "A function type has its parameters first, then its results.",
        example: "(module (func (result i32) (param i32)))",
        fix: "Move the parameters before the results.",
    },
    Entry {
        number: "",
        words: "unexpected token after module",
        cause: "A text has one module, and something comes after its closing parenthesis.",
        example: "(module) (module)",
        fix: "Remove what comes after it, or a `)` too many. `wat2json` reads scripts of modules.",
    },
    Entry {
        number: "",
        words: "multiple start sections",
        cause: "A module has at most one start function, and a second one is at this index.",
        example: "(module (func) (start 0) (start 0))",
        fix: "Remove a start field. A function that calls both can be the one start function.",
    },
    Entry {
        number: "",
        words: "unbalanced blocks in constant expression",
        cause: "A constant expression has an `end` without a block, or a block without an `end`.",
        example: "(module (global i32 i32.const 0 end))",
        fix: "Remove the `end`, or close the block.",
    },
];

/// Returns whether an entry may be meant by a name: a message of its error, or the first words of it.
fn may_be(entry: &Entry, name: &str) -> bool {
    name.starts_with(entry.words) || entry.words.starts_with(name)
}

/// Returns whether this is the number of an entry, with its `E` or without, such as `E4`, `e4` and `4`.
fn is_number_of(entry: &Entry, name: &str) -> bool {
    let digits = name
        .strip_prefix('E')
        .or(name.strip_prefix('e'))
        .unwrap_or(name);
    entry.number.strip_prefix('E') == Some(digits)
}

/// Returns the entry with this number or these words. Otherwise it is the one with the most words that
/// begin the name, or begin with it. A message may be pasted with the `error: ` before it.
///
/// For example, `E4`, `4` and `error: unknown func: failed to find name` are names of E4.
pub(crate) fn entry_of(name: &str) -> Option<Entry> {
    let name = name.trim();
    let name = name.strip_prefix("error: ").unwrap_or(name);
    if name.is_empty() {
        return None;
    }
    let mut found: Option<Entry> = None;
    for entry in ENTRIES.iter() {
        if is_number_of(entry, name) || entry.words == name {
            return Some(*entry);
        }
        let is_longer = match &found {
            Some(other) => entry.words.len() > other.words.len(),
            None => true,
        };
        if is_longer && may_be(entry, name) {
            found = Some(*entry);
        }
    }
    found
}

/// Prints an entry: the words of the error, what is wrong, an example, and what to do.
pub(crate) fn print_entry(rt: &HostRuntime, entry: Entry) -> io::Result<()> {
    let Entry {
        number,
        words,
        cause,
        example,
        fix,
    } = entry;
    let colon = if number.is_empty() { "" } else { ": " };
    println!(rt; "{number}{colon}{words}\n\n{cause}")?;
    if !example.is_empty() {
        println!(rt; "\nExample:\n\n    {example}")?;
    }
    println!(rt; "\n{fix}")
}
