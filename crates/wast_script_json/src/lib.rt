//! Writes the commands of a script of tests as JSON, as `wast2json` of wabt does.
//!
//! The program `wat2json` uses this crate. Encoding no module, it is proved beside the crates that do.
//!
//! For example, `(assert_return (invoke "f") (i32.const 7))` on line 2 becomes `{"type": "assert_return", "line": 2, "action": {"type":
//! "invoke", "field": "f", "args": []}, "expected": [{"type": "i32", "value": "7"}]}`.
//!
//! # Modules
//!
//! - `commands` has [`ScriptJson`]. `objects` writes the object of each command, `values` arguments and results, and `json` strings
//!   and members. `lines` counts lines.
//! - `kinds` says what each command is in JSON, which module it has, and which commands a script has. `modules` has what modules are
//!   converted to.
//! - `instances` knows which modules commands refer to. `interfaces` and `binary` read the exports of a module from its bytes.
//! - `examples` has examples that the definitions compute.
//!
//! The object of each command is defined in `specs/Commands.antt`, and the whole file in
//! `specs/Files.antt`. No contract says how the exports of a module are read from its bytes.
#![tactic(auto)]

mod binary;
mod commands;
mod examples;
mod instances;
mod interfaces;
mod json;
mod kinds;
mod lines;
mod modules;
mod objects;
mod values;

pub use commands::ScriptJson;
pub use kinds::{Role, commands_of, module_of};
pub use modules::{ConvertedModule, ModuleFile};
