//! The text of `--help`. `tools/pages` reads the strings of this file for the man page.

use crate::options::OPTIONS;
use std::io;
use wat_command::{print_options, print_statuses};

/// What the command does.
const ABOUT: &str = "Turns WebAssembly text modules into binary modules.";

/// How it is called.
const USAGE: &str = "wat [OPTION]... [FILE]...";

/// What it reads and writes.
const DESCRIPTION: &str =
    "Reads FILE, or standard input if there is none or it is `-`, and writes the bytes to
standard output. Of several files each is written beside its source: `a.wasm` for `a.wat`.
After `--` each word is a file. With `--check` it writes nothing.";

/// The exit statuses, and what they mean.
const STATUSES: [(u8, &str); 4] = [
    (
        0,
        "the output was written, or the function bodies are valid",
    ),
    (
        1,
        "a text is not a module that can be encoded, or a body is not valid or not checked",
    ),
    (
        2,
        "wrong arguments, or a file cannot be read or an output not written",
    ),
    (3, "out of memory"),
];

/// Prints the help.
pub(crate) fn print_help(rt: &HostRuntime) -> io::Result<()> {
    println!(rt; "{ABOUT}\n\nUsage: {USAGE}\n\n{DESCRIPTION}\n")?;
    print_options(rt, &OPTIONS)?;
    println!(rt; "")?;
    print_statuses(rt, &STATUSES)
}
