//! How diagnostics are printed: as lines for a reader, with or without colours, or as JSON.

/// How diagnostics are printed.
///
/// For example, `wat --json` prints one JSON object a line.
#[derive(Clone, Copy, PartialEq, Eq)]
pub enum Style {
    /// Lines for a reader.
    Plain,
    /// The same with colours, as escape sequences of a terminal.
    Colored,
    /// One JSON object for each diagnostic.
    Json,
}

/// The escape sequences before and after parts of a diagnostic. Without colours all are empty.
#[derive(Clone, Copy)]
pub(crate) struct Colors {
    /// Before `error`, and before what marks the range.
    pub error: &'static str,
    /// Before `warning`.
    pub warning: &'static str,
    /// Before the message.
    pub strong: &'static str,
    /// Before the number of the line and the margin.
    pub margin: &'static str,
    /// After each of them.
    pub reset: &'static str,
}

impl Style {
    /// Returns the escape sequences of the style.
    pub(crate) fn colors(self) -> Colors {
        match self {
            Style::Colored => Colors {
                error: "\u{1b}[1;31m",
                warning: "\u{1b}[1;33m",
                strong: "\u{1b}[1m",
                margin: "\u{1b}[1;34m",
                reset: "\u{1b}[0m",
            },
            Style::Plain | Style::Json => Colors {
                error: "",
                warning: "",
                strong: "",
                margin: "",
                reset: "",
            },
        }
    }
}
