//! Characters in messages.

use std::fmt;

/// Returns the name of a character that is not seen, or looks like another one; empty for others.
fn name_of(character: char) -> &'static str {
    match character {
        '\0' => "null",
        '\t' => "tab",
        '\n' => "line feed",
        '\u{b}' => "vertical tab",
        '\u{c}' => "form feed",
        '\r' => "carriage return",
        '\u{1b}' => "escape",
        '\u{7f}' => "delete",
        '\u{85}' => "next line",
        '\u{a0}' => "no-break space",
        '\u{ad}' => "soft hyphen",
        '\u{61c}' => "Arabic letter mark",
        '\u{2002}' => "en space",
        '\u{2003}' => "em space",
        '\u{2009}' => "thin space",
        '\u{200a}' => "hair space",
        '\u{200b}' => "zero width space",
        '\u{200c}' => "zero width non-joiner",
        '\u{200d}' => "zero width joiner",
        '\u{200e}' => "left-to-right mark",
        '\u{200f}' => "right-to-left mark",
        '\u{2010}' | '\u{2011}' => "hyphen",
        '\u{2013}' => "en dash",
        '\u{2014}' => "em dash",
        '\u{2018}' | '\u{2019}' => "single quotation mark",
        '\u{201c}' | '\u{201d}' => "double quotation mark",
        '\u{2028}' => "line separator",
        '\u{2029}' => "paragraph separator",
        '\u{202a}' => "left-to-right embedding",
        '\u{202b}' => "right-to-left embedding",
        '\u{202c}' => "pop directional formatting",
        '\u{202d}' => "left-to-right override",
        '\u{202e}' => "right-to-left override",
        '\u{202f}' => "narrow no-break space",
        '\u{2060}' => "word joiner",
        '\u{2066}' => "left-to-right isolate",
        '\u{2067}' => "right-to-left isolate",
        '\u{2068}' => "first strong isolate",
        '\u{2069}' => "pop directional isolate",
        '\u{2212}' => "minus sign",
        '\u{3000}' => "ideographic space",
        '\u{feff}' => "byte order mark",
        _ => "",
    }
}

/// Prints a character: itself if it is of ASCII and is seen, and else its number and its name.
///
/// For example, `` `;` ``, `` `é` (U+00E9) `` and `U+200B (zero width space)`.
#[derive(Clone, Copy)]
pub(crate) struct Named(pub char);

impl fmt::Display for Named {
    fn fmt<W: fmt::Write>(&self, f: &mut fmt::Formatter<W>) -> fmt::Result {
        let character = self.0;
        let number = character as u32;
        let name = name_of(character);
        if !name.is_empty() {
            return write!(f, "U+{number:04X} ({name})");
        }
        if character.is_control() {
            return write!(f, "U+{number:04X}");
        }
        if character.is_ascii() {
            return write!(f, "`{character}`");
        }
        write!(f, "`{character}` (U+{number:04X})")
    }
}
