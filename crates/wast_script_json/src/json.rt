//! Writes the text of a JSON file.

ghost use Rattle.std.specs.Prelude.{◌≡◌, [], ◌++◌, OnOk, decimal};
ghost use Rattle.std.specs.Char.{encode_utf8};
ghost use Rattle.std.specs.List.{list_any};
ghost use Rattle.wast_script_json.specs.Json.{written, is_escaped, escaped, string, id_string, digit_string, key, member};

use std::alloc::{AllocError, Global};
use std::fmt::Write;

/// A text in JSON that is written piece by piece.
#[derive(Drop)]
pub(crate) struct Json {
    text: String,
}

/// Returns whether a character of a string is written as an escape.
fn is_escaped(character: char) -> bool
    ensures { result ≡ is_escaped character }
{
    character < ' ' || character == '"' || character == '\\'
}

/// Returns whether a text has a character that is written as an escape.
fn has_escapes(text: &str) -> bool
    ensures { result ≡ list_any is_escaped text.now }
{
    for byte in text.as_bytes() {
        if is_escaped(*byte as char) {
            return true;
        }
    }
    false
}

impl Json {
    /// An empty text.
    pub fn new(alloc: Global) -> Json
        ensures { written result ≡ [] }
    {
        Json {
            text: String::new(alloc),
        }
    }

    /// Returns the text since the last call of `clear`.
    pub fn text(&self) -> &str
        ensures { result.now ≡ written self.now }
    {
        self.text.as_str()
    }

    /// Forgets the text, after which the next piece begins.
    pub fn clear(&mut self)
        ensures { written self.new ≡ [] }
    {
        self.text.clear();
    }

    /// Appends a text as it is.
    pub fn raw(&mut self, text: &str) -> Result<(), AllocError>
        ensures { OnOk result (written self.new ≡ written self.old ++ text.now) }
    {
        self.text.push_str(text)
    }

    /// Appends a number in decimal digits.
    pub fn number(&mut self, number: u64) -> Result<(), AllocError>
        ensures { OnOk result (written self.new ≡ written self.old ++ decimal number) }
    {
        write!(self.text, "{number}")
    }

    /// Appends a number in decimal digits as a string: `"7"`.
    #[tactic(auto, unfolding(crate::specs::Json::digit_string))]
    pub fn digits(&mut self, number: u64) -> Result<(), AllocError>
        ensures { OnOk result (written self.new ≡ written self.old ++ digit_string number) }
    {
        write!(self.text, "\"{number}\"")
    }

    /// Appends a character of a string. Control characters, quotes and backslashes are escapes: a line feed is `\u000a`.
    #[tactic(auto, using(crate::proofs::Strings::plain_character, crate::proofs::Strings::escaped_character))]
    fn character(&mut self, character: char) -> Result<(), AllocError>
        ensures { OnOk result (written self.new ≡ written self.old ++ escaped (encode_utf8 character)) }
    {
        if !is_escaped(character) {
            return self.text.push(character);
        }
        let number = character as u32;
        write!(self.text, "\\u{number:04x}")
    }

    /// Appends the characters of a string. Few strings have escapes, so the others are appended at once.
    #[tactic(auto, using(crate::proofs::Strings::plain_text))]
    fn characters(&mut self, text: &str) -> Result<(), AllocError>
        ensures { OnOk result (written self.new ≡ written self.old ++ escaped text.now) }
    {
        if !has_escapes(text) {
            return self.raw(text);
        }
        for character in text.chars() {
            self.character(character)?;
        }
        Ok(())
    }

    /// Appends a string in its quotes.
    #[tactic(auto, unfolding(crate::specs::Json::string))]
    pub fn string(&mut self, text: &str) -> Result<(), AllocError>
        ensures { OnOk result (written self.new ≡ written self.old ++ string text.now) }
    {
        self.raw("\"")?;
        self.characters(text)?;
        self.raw("\"")
    }

    /// Appends an id as a string, with its `$`.
    #[tactic(auto, unfolding(crate::specs::Json::id_string))]
    pub fn id(&mut self, name: &str) -> Result<(), AllocError>
        ensures { OnOk result (written self.new ≡ written self.old ++ id_string name.now) }
    {
        self.raw("\"$")?;
        self.characters(name)?;
        self.raw("\"")
    }

    /// Appends the key of one more member of an object.
    #[tactic(auto, unfolding(crate::specs::Json::key))]
    pub fn key(&mut self, name: &str) -> Result<(), AllocError>
        ensures { OnOk result (written self.new ≡ written self.old ++ key name.now) }
    {
        self.raw(", \"")?;
        self.raw(name)?;
        self.raw("\": ")
    }

    /// Appends one more member of an object, a string.
    #[tactic(auto, unfolding(crate::specs::Json::member))]
    pub fn member(&mut self, name: &str, value: &str) -> Result<(), AllocError>
        ensures { OnOk result (written self.new ≡ written self.old ++ member name.now value.now) }
    {
        self.key(name)?;
        self.string(value)
    }
}
