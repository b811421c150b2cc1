//! Failed runs and their exit status.

use crate::escapes::Escaped;
use crate::json::message_line;
use crate::styles::Style;
use std::alloc::{AllocError, Global};
use std::io;
use std::process::ExitCode;

/// Why a run failed.
///
/// Its message is printed on standard error when it is found. If it cannot be printed there, it is
/// lost, and the exit status is the same.
#[derive(Clone, Copy)]
pub enum Failure {
    /// The text is not a module that can be encoded.
    Text,
    /// The arguments are wrong, or a file or a stream failed.
    System,
    /// Allocation failed.
    Memory,
}

/// Returns the object of JSON for a file that cannot be read or written.
fn file_line(
    alloc: Global,
    verb: &str,
    file: Escaped<'_>,
    error: &io::Error,
) -> Result<String, AllocError> {
    let message = format!(in alloc; "cannot {verb} {file}: {error}")?;
    message_line(alloc, "error", file.0, "", message.as_str(), None)
}

impl Failure {
    /// Returns the number of the exit status.
    fn number(self) -> u8 {
        match self {
            Failure::Text => 1,
            Failure::System => 2,
            Failure::Memory => 3,
        }
    }

    /// Returns the exit status.
    pub fn status(self) -> ExitCode {
        ExitCode::from(self.number())
    }

    /// Returns the failure with the larger exit status: this one, or one before it.
    pub fn worse(self, before: Option<Failure>) -> Failure {
        match before {
            Some(other) if other.number() > self.number() => other,
            _ => self,
        }
    }

    /// Reports that allocation failed. Does not allocate.
    pub fn memory(rt: &HostRuntime) -> Failure {
        let _ = eprintln!(rt; "error: out of memory");
        Failure::Memory
    }

    /// Reports that the arguments of a command cannot be read: one is not UTF-8, or allocation failed.
    pub fn of_arguments(rt: &HostRuntime, command: &str, error: io::Error) -> Failure {
        if let io::ErrorKind::OutOfMemory = error.kind() {
            return Failure::memory(rt);
        }
        let _ = eprintln!(rt; "error: argument is not UTF-8 (see `{command} --help`)");
        Failure::System
    }

    /// Reports in a style that a file cannot be read or written.
    fn of_file(
        rt: &HostRuntime,
        style: Style,
        verb: &str,
        file: Escaped<'_>,
        error: io::Error,
    ) -> Failure {
        if let io::ErrorKind::OutOfMemory = error.kind() {
            return Failure::memory(rt);
        }
        if style != Style::Json {
            let _ = eprintln!(rt; "error: cannot {verb} {file}: {error}");
            return Failure::System;
        }
        match file_line(rt.alloc(), verb, file, &error) {
            Ok(line) => {
                let _ = eprintln!(rt; "{line}");
                Failure::System
            }
            Err(_) => Failure::memory(rt),
        }
    }

    /// Reports in a style that the input cannot be read.
    pub fn of_read(rt: &HostRuntime, style: Style, file: Escaped<'_>, error: io::Error) -> Failure {
        Failure::of_file(rt, style, "read", file, error)
    }

    /// Reports that standard output cannot be written. Nothing is printed if its reader has closed it, as `head` does when it has
    /// enough.
    pub fn of_write(rt: &HostRuntime, error: io::Error) -> Failure {
        match error.kind() {
            io::ErrorKind::OutOfMemory => return Failure::memory(rt),
            io::ErrorKind::BrokenPipe => return Failure::System,
            _ => {}
        }
        let _ = eprintln!(rt; "error: cannot write output: {error}");
        Failure::System
    }

    /// Reports in a style that the file of an output cannot be written.
    pub fn of_write_to(
        rt: &HostRuntime,
        style: Style,
        file: Escaped<'_>,
        error: io::Error,
    ) -> Failure {
        Failure::of_file(rt, style, "write", file, error)
    }
}
