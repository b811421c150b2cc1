//! The two ways to write the ids of an example module: as in its text, and as in its twin.

/// How ids are written.
#[derive(Clone, Copy)]
pub(crate) enum Way {
    /// As in the text of the module.
    Plain,
    /// With an `r` before each name.
    Twin,
}

impl Way {
    /// Returns the name of an id that has this name in the text.
    pub(crate) fn name<'a>(self, name: &'a str) -> &'a str {
        match self {
            Way::Plain => name,
            Way::Twin => twin_name(name),
        }
    }
}

/// Returns a name with an `r` before it. The table has the names of all ids of the example modules.
/// Other names are returned unchanged.
fn twin_name<'a>(name: &'a str) -> &'a str {
    match name {
        "a" => "ra",
        "b" => "rb",
        "e" => "re",
        "f" => "rf",
        "g" => "rg",
        "h" => "rh",
        "l" => "rl",
        "m" => "rm",
        "p" => "rp",
        "s" => "rs",
        "t" => "rt",
        "x" => "rx",
        "y" => "ry",
        name => name,
    }
}
