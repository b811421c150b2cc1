//! The text of `--help`. `tools/pages` reads the strings of this file for the man page.

use crate::options::OPTIONS;
use std::io;
use wat_command::{print_options, print_statuses};

/// What the command does.
const ABOUT: &str = "Turns WebAssembly scripts of tests into JSON and binary modules.";

/// How it is called.
const USAGE: &str = "wat2json [OPTION]... FILE";

/// What it reads and writes.
const DESCRIPTION: &str =
    "Reads the script FILE, or standard input if it is `-`, and writes its commands to a JSON file,
`a.json` in the current folder for `a.wast`, and its modules beside that: `a.0.wasm`, `a.1.wasm`
and so on. A module in quotes that an assertion is about is written as its text, `a.2.wat`.
After `--` each word is a file.";

/// The exit statuses, and what they mean.
const STATUSES: [(u8, &str); 5] = [
    (0, "the files were written"),
    (1, "the text is not a script whose modules can be encoded"),
    (
        2,
        "wrong arguments, or a file cannot be read or an output not written",
    ),
    (3, "out of memory"),
    (4, "the files were written, and `--skip` skipped a module"),
];

/// Prints the help.
pub(crate) fn print_help(rt: &HostRuntime) -> io::Result<()> {
    println!(rt; "{ABOUT}\n\nUsage: {USAGE}\n\n{DESCRIPTION}\n")?;
    print_options(rt, &OPTIONS)?;
    println!(rt; "")?;
    print_statuses(rt, &STATUSES)
}
