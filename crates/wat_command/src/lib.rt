//! What the commands `wat` and `wat2json` have in common: how they read options, how they read and write files, how they report errors,
//! and how they end.
//!
//! # Modules
//!
//! - `choices`: options, and the lists of the help.
//! - `diagnostics`: what is printed about a text, with its source line and a caret.
//! - `escapes`: text as messages show it, with control characters as escapes.
//! - `failures`: why a run fails, and its exit status.
//! - `styles`: lines with and without colours, and `json`: a diagnostic as JSON.
//! - `files`: input, and files that are written whole or not at all.
#![tactic(auto)]

mod choices;
mod diagnostics;
mod escapes;
mod failures;
mod files;
mod json;
mod styles;

pub use choices::{
    Choice, choice_of, is_option, joined, near_option, print_options, print_statuses,
};
pub use diagnostics::{
    report, report_file_in, report_id_in, report_in, report_malformed, report_malformed_in,
    say_more, warn, warn_in,
};
pub use escapes::Escaped;
pub use failures::Failure;
pub use files::{
    NewFile, STANDARD, file_key, is_kept, read_input, shown, split_path, text_before, write_bytes,
    write_file, write_unsynced,
};
pub use styles::Style;
