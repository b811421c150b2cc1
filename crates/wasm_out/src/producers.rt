//! The producers section.

ghost use Rattle.std.specs.Prelude.{◌≡◌, ◌+◌, ◌==◌, ◌++◌};
ghost use Rattle.wasm_ops.specs.Spelling.{InRangeU32, name, InRangeName};
ghost use Rattle.wasm_out.specs.Built.{Adds, behind_count, empty};
ghost use Rattle.wasm_out.specs.Producers.{producers_payload, producer_value};

use crate::built_items::BuiltItems;
use crate::sections::{CUSTOM_ID, Section};
use std::alloc::Global;
use std::marker::Model;
use wasm_ops::{Encode, Name};
use wast_base::Error;

/// The values of a field of the producers section (tool conventions: producers section).
///
/// Its model in contracts is its items.
///
///     let mut values = ProducersField::new(alloc);
///     values.value("R", "1")?;
#[derive(Debug, Drop)]
pub struct ProducersField {
    items: BuiltItems,
}

impl Model for ProducersField {
    ghost use Rattle.wasm_out.specs.Built.{Built};

    ghost Value = { Built };

    ghost view = { λ s. s.items };
}

impl ProducersField {
    /// Creates a field without values. Does not allocate.
    pub fn new(alloc: Global) -> Self
        ensures { result ≡ empty }
    {
        ProducersField {
            items: BuiltItems::new(alloc),
        }
    }

    /// Returns whether there are no values.
    pub fn is_empty(&self) -> bool
        ensures { result ≡ (self.now.count == 0) }
    {
        self.items.is_empty()
    }

    /// Adds a value: its name and its version.
    ///
    ///     values.value("R", "1")?;
    pub fn value<'e>(&mut self, text: &str, version: &str) -> Result<(), Error<'e>>
        ensures { Adds (InRangeU32 (self.old.count + 1) × (InRangeName text.now × InRangeName version.now))
            self.old self.new (producer_value (text.now, version.now)).bytes result }
    {
        self.items.push(&(Name(text), Name(version)))
    }
}

/// The custom section `producers` (tool conventions: producers section).
///
/// Its model in contracts is its items.
///
///     let mut section = ProducersSection::new(alloc);
///     section.field("language", &values)?;
#[derive(Debug, Drop)]
pub struct ProducersSection {
    items: BuiltItems,
}

impl Model for ProducersSection {
    ghost use Rattle.wasm_out.specs.Built.{Built};

    ghost Value = { Built };

    ghost view = { λ s. s.items };
}

impl ProducersSection {
    /// Creates a section without fields. Does not allocate.
    pub fn new(alloc: Global) -> Self
        ensures { result ≡ empty }
    {
        ProducersSection {
            items: BuiltItems::new(alloc),
        }
    }

    /// Returns whether there are no fields.
    pub fn is_empty(&self) -> bool
        ensures { result ≡ (self.now.count == 0) }
    {
        self.items.is_empty()
    }

    /// Adds a field: its name and its values.
    ///
    ///     section.field("language", &values)?;
    pub fn field<'e>(&mut self, text: &str, values: &ProducersField) -> Result<(), Error<'e>>
        ensures { Adds (InRangeU32 (self.old.count + 1) × InRangeName text.now) self.old self.new
            (name text.now ++ behind_count values.now) result }
    {
        self.items.push(&(Name(text), &values.items))
    }
}

impl Section for ProducersSection {
    ghost number = { λ _. 0 };

    ghost payload = { λ s. producers_payload (behind_count s) };

    ghost in_range = { λ _. Unit {0} };

    fn id(&self) -> u8 {
        CUSTOM_ID
    }

    fn append_to<'e>(&self, out: &mut Vec<u8>) -> Result<(), Error<'e>> {
        Ok((Name("producers"), &self.items).encode(out)?)
    }
}
