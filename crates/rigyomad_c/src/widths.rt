//! The columns of characters.

ghost use Rattle.std.specs.Prelude.{◌≡◌};
ghost use Rattle.std.specs.Char.{InScalarRange, OutOfScalarRange};
ghost use Rattle.rigyomad_c.specs.Notes.{width_of};

use unicode_width::UnicodeWidthChar;

/// Returns how many columns a terminal shows of a character, by its code. It is 1 for a control
/// character, and for a code that no character has.
pub(crate) fn width(code: u32) -> u32
    ensures character { InScalarRange code → result ≡ width_of code }
    ensures other { OutOfScalarRange code → result ≡ 1 }
{
    match char::from_u32(code) {
        Some(character) => match character.width() {
            Some(columns) => columns as u32,
            None => 1,
        },
        None => 1,
    }
}
