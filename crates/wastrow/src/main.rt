//! Reads numbers of example modules, and writes a line for each: its bytes, or the error of
//! encoding.
//!
//! The exit status is 0 at the end of the input, 2 if reading or writing failed, and 3 if
//! allocation failed. For example, for the line `1` it writes
//! `0061736d01000000`.
#![tactic(auto)]

use std::process::ExitCode;
use wast_rows::{RunError, run, sample};

fn main(rt: HostRuntime) -> ExitCode {
    let alloc = rt.alloc();
    match run(
        alloc,
        &mut rt.stdin(),
        &mut rt.stdout(),
        |n| sample(alloc, n),
    ) {
        Ok(()) => ExitCode::SUCCESS,
        Err(RunError::Read | RunError::Write) => ExitCode::from(2),
        Err(RunError::Memory) => ExitCode::from(3),
    }
}
