//! Writes the commands of a script of tests as records in one list of bytes.
//!
//! The C library `rigyomad_c` hands the list to callers in C, Rust and Python, which walk it without further calls.
//!
//! # Example
//!
//! `(module) (assert_invalid (module quote "(func") "a")` has two command records and two module records. The first module has its
//! bytes, and the second the text `(func` and an error.
//!
//! # Layout
//!
//! All numbers are words of 64 bits, the lowest byte first. The header has 13 words: the number 2 of this layout; then offset and
//! count of the tables of commands, modules, actions, values and lanes; then offset and size of the bytes of all strings. Offsets
//! count from the start of the list, and records of a table follow each other.
//!
//! | record | words |
//! |---|---|
//! | command | type, place, id, `of`, text, module, action, results |
//! | module | form, place, id, source, quoted text, status, bytes, error number, place of the error, end of its token, message |
//! | action | kind, place, module, name, arguments |
//! | value | type, form, two words of its contents |
//! | lane | form, bits |
//!
//! - A place is three words: offset in the text of the script, line and column, both from 1 on. Line 0 is no place.
//! - An id, a text, a name, bytes and a message are two words: the start among the bytes of all strings, and the size. The start of
//!   one that is absent is [`NONE`]. An id is without its `$`.
//! - Results and arguments are two words: the number of the first value, and how many they are. A module and an action of a command
//!   are the number of its record, or [`NONE`].
//! - The source of a module is its start and size in the text of the script. The end of a token is an offset in that text.
//! - Types, kinds, forms, shapes and heap types have the numbers that `specs/Numbers.antt` defines.
//!
//! # Modules
//!
//! - `records` has [`records_of`], the tables and the header. `commands`, `modules`, `actions` and `values` write the records of each.
//! - `encodes` has [`encode_module`], the bytes of a module or the error of its text, and the diagnostic of that error.
//! - `words` writes words, and `lines` counts lines and columns. `examples` has numbers that the prover computes.
#![tactic(auto)]

mod actions;
mod commands;
mod encodes;
mod examples;
mod lines;
mod modules;
mod records;
mod values;
mod words;

pub use encodes::{ModuleError, diagnostic_of, encode_module};
pub use records::records_of;
pub use words::NONE;
