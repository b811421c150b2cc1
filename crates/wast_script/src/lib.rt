//! Reads scripts of tests: modules in the text format, with commands that run them and assert results.
//!
//! A script is a file `NAME.wast` of the specification's suite of tests. Runners of tests and the command `wat2json` use this crate.
//!
//! # Example
//!
//! The script `(module (func (export "f") (result i32) i32.const 7)) (assert_return (invoke "f") (i32.const 7))` has two commands: a
//! module at offset 1, and an assertion with one action, `f` without arguments, and one result.
//!
//! # Modules
//!
//! - `commands`: commands and actions, `values`: numbers, vectors and references.
//! - `scripts`: [`read_script`], and what a [`Script`] has of its modules.
//! - `directives`, `modules`, `actions`, `constants`: the reader of each part, over the tokens that `reader` has.
//! - `words`: the words that begin commands and values, `examples`: scripts whose commands the definitions compute.
//!
//! Which commands a text has is defined in `specs/Grammar.antt`, and its values in
//! `specs/Constants.antt`. The commands that are read are those. Each module is the one that the
//! rules of the text format read from its own tokens.
#![tactic(auto)]

mod actions;
mod commands;
mod constants;
mod directives;
mod examples;
mod modules;
mod reader;
mod scripts;
mod values;
mod words;

pub use commands::{Action, ActionKind, Command, CommandKind, Execution, ModuleForm, ScriptModule};
pub use scripts::{Script, read_script};
pub use values::{Number, Part, Shape, Value};
