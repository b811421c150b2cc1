//! Converts modules in the text format to binary modules.
//!
//! It reads the files in its arguments, or standard input, and writes the bytes to standard output
//! or to files. With `--hex` it writes one line of hexadecimal digits, and with `--names` the index
//! of each id. With `--check` it checks function bodies, and writes nothing. Errors are printed on standard error, and the exit status is that of the error: the
//! help lists them.
//!
//! # Modules
//!
//! - `options` reads the arguments, `help` prints the help, and `explanations` what errors mean.
//! - `several` reports the errors after the first one, for which `ids` finds the wrong ids of a module.
//! - `colors` decides how diagnostics are printed.
//! - `checks` checks the function bodies of one file, for `--check`. `causes` and `words` have its words, and `reports` prints them.
//! - `conversions` converts one file, `outputs` names its output, and `names` and `sections` make
//!   what `--names` and `--no-names` print. `examples` has results that the prover computes.
//! - `wat_command`, which `wat2json` uses too, has what reads and writes files, the diagnostics and
//!   the exit statuses.
#![tactic(auto)]

mod causes;
mod checks;
mod colors;
mod conversions;
mod examples;
mod explanations;
mod help;
mod ids;
mod names;
mod options;
mod outputs;
mod reports;
mod sections;
mod several;
mod words;

use checks::check_file;
use conversions::convert_file;
use explanations::print_entry;
use help::print_help;
use options::{Misuse, Options, Request};
use outputs::check_outputs;
use std::env;
use std::io::{self, IsTerminal};
use std::process::ExitCode;
use wat_command::{Failure, STANDARD};

/// The version of the command.
const VERSION: &str = "0.1.0";

/// Converts each file. Reports each one that fails, and returns the failure with the largest exit
/// status.
fn convert_files(rt: &HostRuntime, options: &Options) -> Result<(), Failure> {
    let mut worst = None;
    for (index, file) in options.files.iter().enumerate() {
        let is_last = index.saturating_add(1) == options.files.len();
        if let Err(failure) = convert_file(rt, options, file.as_str(), is_last) {
            worst = Some(failure.worse(worst));
        }
    }
    match worst {
        Some(failure) => Err(failure),
        None => Ok(()),
    }
}

/// Checks the function bodies of each file. Reports each one that fails, and returns the failure with
/// the largest exit status.
fn check_files(rt: &HostRuntime, options: &Options) -> Result<(), Failure> {
    if options.files.is_empty() {
        return check_file(rt, options, STANDARD);
    }
    let mut worst = None;
    for file in options.files.iter() {
        if let Err(failure) = check_file(rt, options, file.as_str()) {
            worst = Some(failure.worse(worst));
        }
    }
    match worst {
        Some(failure) => Err(failure),
        None => Ok(()),
    }
}

/// Reports that the bytes of a module would go to a terminal.
fn terminal_output(rt: &HostRuntime) -> Failure {
    let _ = eprintln!(rt;
        "error: bytes are not written to a terminal: use `-o FILE`, `--hex`, or `-o -` (see `wat --help`)"
    );
    Failure::System
}

/// Reports wrong arguments.
fn misused(rt: &HostRuntime, misuse: Misuse) -> Failure {
    if let Misuse::Memory = misuse {
        return Failure::memory(rt);
    }
    let _ = eprintln!(rt; "error: {misuse} (see `wat --help`)");
    Failure::System
}

/// Converts the files of the options, or checks them.
fn convert(rt: &HostRuntime, options: &Options) -> Result<(), Failure> {
    if options.checks {
        return check_files(rt, options);
    }
    if options.prints_bytes() && rt.stdout().is_terminal() {
        return Err(terminal_output(rt));
    }
    if !options.prints() {
        if let Err(misuse) = check_outputs(rt, options) {
            return Err(misused(rt, misuse));
        }
    }
    if options.files.is_empty() {
        return convert_file(rt, options, STANDARD, true);
    }
    convert_files(rt, options)
}

/// Reports the result of printing to standard output.
fn printed(rt: &HostRuntime, answer: io::Result<()>) -> Result<(), Failure> {
    match answer {
        Ok(()) => Ok(()),
        Err(error) => Err(Failure::of_write(rt, error)),
    }
}

/// Runs the command.
fn run(rt: &HostRuntime) -> Result<(), Failure> {
    let arguments = match env::args(rt) {
        Ok(arguments) => arguments,
        Err(error) => return Err(Failure::of_arguments(rt, "wat", error)),
    };
    match Request::new(rt.alloc(), arguments) {
        Ok(Request::Convert(options)) => convert(rt, &options),
        Ok(Request::Help) => printed(rt, print_help(rt)),
        Ok(Request::Explain(entry)) => printed(rt, print_entry(rt, entry)),
        Ok(Request::Version) => printed(rt, println!(rt; "wat {VERSION}")),
        Err(misuse) => Err(misused(rt, misuse)),
    }
}

fn main(rt: HostRuntime) -> ExitCode {
    match run(&rt) {
        Ok(()) => ExitCode::SUCCESS,
        Err(failure) => failure.status(),
    }
}
