//! When diagnostics have colours.

use crate::options::Options;
use std::env;
use std::io::IsTerminal;
use wat_command::Style;

/// When diagnostics have colours: the value of `--color`.
#[derive(Clone, Copy)]
pub(crate) enum Color {
    /// If standard error is a terminal, and the environment variable `NO_COLOR` is empty or unset.
    Auto,
    /// Always.
    Always,
    /// Never.
    Never,
}

impl Color {
    /// Returns the value with this name.
    pub fn named(name: &str) -> Option<Color> {
        match name {
            "auto" => Some(Color::Auto),
            "always" => Some(Color::Always),
            "never" => Some(Color::Never),
            _ => None,
        }
    }

    /// Returns whether diagnostics have colours.
    fn is_on(self, rt: &HostRuntime) -> bool {
        match self {
            Color::Always => true,
            Color::Never => false,
            Color::Auto => rt.stderr().is_terminal() && !has_no_color(rt),
        }
    }
}

/// Returns whether the environment variable `NO_COLOR` is set and not empty.
fn has_no_color(rt: &HostRuntime) -> bool {
    match env::var(rt, "NO_COLOR") {
        Ok(value) => !value.as_str().is_empty(),
        Err(env::VarError::NotPresent) => false,
        Err(_) => true,
    }
}

/// Returns how the diagnostics of a run are printed.
pub(crate) fn style_of(rt: &HostRuntime, options: &Options) -> Style {
    if options.is_json {
        return Style::Json;
    }
    if options.color.is_on(rt) {
        return Style::Colored;
    }
    Style::Plain
}
