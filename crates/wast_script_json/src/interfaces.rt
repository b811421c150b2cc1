//! Reads which functions and globals a binary module exports, and the types of their results.
//!
//! The bytes are those of a module that was encoded, or of `(module binary ..)`. If they are not those of a module, the exports that
//! come before the first error are found.

ghost use Rattle.std.specs.Prelude.{◌≡◌, string_bytes, option_map, option_and_then, option_copied};
ghost use Rattle.wast_script_json.specs.Exports.{exported, function_types, item_types, types_of};

use crate::binary::Bytes;
use std::alloc::{AllocError, AllocFailed, Global};
use std::collections::BTreeMap;

/// What is exported: the kind of the item, as its byte, and its number among those of its kind.
#[derive(Clone, Copy)]
struct Item {
    kind: u8,
    number: usize,
}

/// What a module exports: the types of functions, and the types of the functions and globals.
#[derive(Drop)]
pub(crate) struct Interface {
    alloc: Global,
    /// The results of each type, as a list in JSON.
    types: Vec<String>,
    /// The number of the type of each function.
    functions: Vec<usize>,
    /// The type of each global, as a list in JSON.
    globals: Vec<String>,
    /// The exports by their names.
    exports: BTreeMap<Vec<u8>, Item>,
}

impl Interface {
    /// What a module without exports has.
    fn new(alloc: Global) -> Interface {
        Interface {
            alloc,
            types: Vec::new(alloc),
            functions: Vec::new(alloc),
            globals: Vec::new(alloc),
            exports: BTreeMap::new(alloc),
        }
    }

    /// The item that is exported under a name.
    fn exported(&self, name: &str) -> Option<Item>
        ensures { result ≡ exported self.now name.now }
    {
        self.exports.get(name.as_bytes()).copied()
    }

    /// The types of the results of a function, as a list in JSON.
    fn function_types(&self, number: usize) -> Option<&String>
        ensures { option_map string_bytes (option_copied result) ≡ function_types self.now number }
    {
        match self.functions.get(number) {
            Some(ty) => self.types.get(*ty),
            None => None,
        }
    }

    /// The types of the results of an item, as a list in JSON.
    fn item_types(&self, item: Item) -> Option<&String>
        ensures { option_map string_bytes (option_copied result) ≡ item_types self.now item }
    {
        if item.kind == 0 {
            return self.function_types(item.number);
        }
        if item.kind == 3 {
            return self.globals.get(item.number);
        }
        None
    }

    /// The types of the results of an item, if there is one.
    fn exported_types(&self, item: Option<Item>) -> Option<&String>
        ensures { option_map string_bytes (option_copied result) ≡ option_and_then (item_types self.now) item }
    {
        match item {
            Some(item) => self.item_types(item),
            None => None,
        }
    }

    /// Returns the types of the results of an export, as a list in JSON; an empty list if there is no such export.
    pub fn types_of(&self, name: &str) -> &str
        ensures { result.now ≡ types_of self.now name.now }
    {
        match self.exported_types(self.exported(name)) {
            Some(list) => list.as_str(),
            None => "[]",
        }
    }
}

/// Why a module is not read to its end.
#[derive(Clone, Copy)]
enum Stop {
    Memory,
    Malformed,
}

impl From<AllocError> for Stop {
    fn from(_error: AllocError) -> Self {
        Stop::Memory
    }
}

impl<T: Drop> From<AllocFailed<T>> for Stop {
    fn from(_error: AllocFailed<T>) -> Self {
        Stop::Memory
    }
}

/// Returns the value that was read, or that the bytes are not those of a module.
fn read<T: Drop>(value: Option<T>) -> Result<T, Stop> {
    match value {
        Some(value) => Ok(value),
        None => Err(Stop::Malformed),
    }
}

/// The name of a type of values of one byte.
fn type_name(byte: u8) -> &'static str {
    match byte {
        0x7f => "i32",
        0x7e => "i64",
        0x7d => "f32",
        0x7c => "f64",
        0x7b => "v128",
        0x70 => "funcref",
        0x6f => "externref",
        0x69 => "exnref",
        0x68 => "contref",
        0x6e => "anyref",
        0x6d => "eqref",
        0x6c => "i31ref",
        0x6b => "structref",
        0x6a => "arrayref",
        0x71 => "nullref",
        0x72 => "nullexternref",
        0x73 => "nullfuncref",
        0x74 => "nullexnref",
        0x75 => "nullcontref",
        _ => "ref",
    }
}

/// Reads a heap type, and returns the name of references to it that may be null (binary format, heap types). Before a shared one is
/// `65`, and before an exact one `62`.
fn heap_type(bytes: &mut Bytes<'_>) -> Option<&'static str> {
    let first = *bytes.0.first()?;
    if first == 0x65 || first == 0x62 {
        let _prefix = bytes.byte()?;
    }
    let heap = *bytes.0.first()?;
    bytes.skip_integer()?;
    Some(type_name(heap))
}

/// Reads a type of values, and returns its name (binary format, value types). References to an abstract heap type that may be null
/// have the name of the short form, as `anyref` for `63 6e`. Those that may not be null are `ref`.
fn value_type(bytes: &mut Bytes<'_>) -> Option<&'static str> {
    let byte = bytes.byte()?;
    match byte {
        0x63 => heap_type(bytes),
        0x64 => {
            let _name = heap_type(bytes)?;
            Some("ref")
        }
        _ => Some(type_name(byte)),
    }
}

/// Skips the type of a field of a struct or an array.
fn skip_field(bytes: &mut Bytes<'_>) -> Option<()> {
    let _ty = value_type(bytes)?;
    let _mutability = bytes.byte()?;
    Some(())
}

/// Skips the types of so many fields.
fn skip_fields(bytes: &mut Bytes<'_>, count: usize) -> Option<()> {
    for _ in 0..count {
        skip_field(bytes)?;
    }
    Some(())
}

/// Skips so many types of values.
fn skip_types(bytes: &mut Bytes<'_>, count: usize) -> Option<()> {
    for _ in 0..count {
        let _ty = value_type(bytes)?;
    }
    Some(())
}

/// Skips limits (binary format, limits).
fn skip_limits(bytes: &mut Bytes<'_>) -> Option<()> {
    let flags = bytes.byte()?;
    bytes.skip_integer()?;
    if flags & 1 != 0 {
        bytes.skip_integer()?;
    }
    if flags & 8 != 0 {
        bytes.skip_integer()?;
    }
    Some(())
}

/// Skips the immediates of an instruction of constant expressions.
fn skip_immediates(bytes: &mut Bytes<'_>, opcode: u8) -> Option<()> {
    match opcode {
        0x41 | 0x42 | 0x23 | 0xd2 => bytes.skip_integer(),
        0xd0 => heap_type(bytes).map(|_| ()),
        0x43 => bytes.take(4).map(|_| ()),
        0x44 => bytes.take(8).map(|_| ()),
        0xfd => {
            bytes.skip_integer()?;
            bytes.take(16).map(|_| ())
        }
        0xfb => skip_aggregate(bytes),
        _ => Some(()),
    }
}

/// Skips the immediates of an instruction for structs, arrays and `i31`, from its number on.
fn skip_aggregate(bytes: &mut Bytes<'_>) -> Option<()> {
    let number = bytes.index()?;
    if number < 8 {
        bytes.skip_integer()?;
    }
    if number == 8 {
        bytes.skip_integer()?;
        bytes.skip_integer()?;
    }
    Some(())
}

/// Skips a constant expression up to its end (binary format, expressions).
fn skip_expression(bytes: &mut Bytes<'_>) -> Option<()> {
    for _ in 0..bytes.0.len() {
        let opcode = bytes.byte()?;
        if opcode == 0x0b {
            return Some(());
        }
        skip_immediates(bytes, opcode)?;
    }
    None
}

impl Interface {
    /// Reads so many types of values, as a list in JSON.
    fn type_list(&self, bytes: &mut Bytes<'_>, count: usize) -> Result<String, Stop> {
        let mut list = String::from_str(self.alloc, "[")?;
        for number in 0..count {
            let name = read(value_type(bytes))?;
            if number > 0 {
                list.push_str(", ")?;
            }
            list.push_str("{\"type\": \"")?;
            list.push_str(name)?;
            list.push_str("\"}")?;
        }
        list.push_str("]")?;
        Ok(list)
    }

    /// Reads the type of a function after its first byte, and returns its results.
    fn function_type(&self, bytes: &mut Bytes<'_>) -> Result<String, Stop> {
        let parameters = read(bytes.index())?;
        read(skip_types(bytes, parameters))?;
        let results = read(bytes.index())?;
        self.type_list(bytes, results)
    }

    /// Reads a type after its first byte, and returns the results of a function.
    fn composite(&self, bytes: &mut Bytes<'_>, form: u8) -> Result<String, Stop> {
        match form {
            0x60 => return self.function_type(bytes),
            0x5f => {
                let count = read(bytes.index())?;
                read(skip_fields(bytes, count))?;
            }
            0x5e => read(skip_field(bytes))?,
            0x5d => read(bytes.skip_integer())?,
            _ => return Err(Stop::Malformed),
        }
        Ok(String::new(self.alloc))
    }

    /// Reads a type of a group from its first byte on (binary format, recursive types). A shared one has `65` before its form.
    fn sub_type(&mut self, bytes: &mut Bytes<'_>, first: u8) -> Result<(), Stop> {
        let mut form = first;
        if first == 0x50 || first == 0x4f {
            let count = read(bytes.index())?;
            for _ in 0..count {
                read(bytes.skip_integer())?;
            }
            form = read(bytes.byte())?;
        }
        if form == 0x65 {
            form = read(bytes.byte())?;
        }
        let results = self.composite(bytes, form)?;
        self.types.push(results)?;
        Ok(())
    }

    /// Reads the types of a group.
    fn group(&mut self, bytes: &mut Bytes<'_>, count: usize) -> Result<(), Stop> {
        for _ in 0..count {
            let first = read(bytes.byte())?;
            self.sub_type(bytes, first)?;
        }
        Ok(())
    }

    /// Reads a group of types, or one that is alone.
    fn recursive_type(&mut self, bytes: &mut Bytes<'_>) -> Result<(), Stop> {
        let first = read(bytes.byte())?;
        if first == 0x4e {
            let count = read(bytes.index())?;
            return self.group(bytes, count);
        }
        self.sub_type(bytes, first)
    }

    /// Reads the type of a function, a number.
    fn function(&mut self, bytes: &mut Bytes<'_>) -> Result<(), Stop> {
        let ty = read(bytes.index())?;
        self.functions.push(ty)?;
        Ok(())
    }

    /// Reads the type of a global.
    fn global_type(&mut self, bytes: &mut Bytes<'_>) -> Result<(), Stop> {
        let list = self.type_list(bytes, 1)?;
        let _mutability = read(bytes.byte())?;
        self.globals.push(list)?;
        Ok(())
    }

    /// Reads an import (binary format, import section).
    fn import(&mut self, bytes: &mut Bytes<'_>) -> Result<(), Stop> {
        let (_module, _name) = (read(bytes.list())?, read(bytes.list())?);
        match read(bytes.byte())? {
            0 => self.function(bytes),
            1 => {
                let _ty = read(value_type(bytes))?;
                read(skip_limits(bytes))
            }
            2 => read(skip_limits(bytes)),
            3 => self.global_type(bytes),
            _ => {
                let _attribute = read(bytes.byte())?;
                read(bytes.skip_integer())
            }
        }
    }

    /// Reads a global (binary format, global section).
    fn global(&mut self, bytes: &mut Bytes<'_>) -> Result<(), Stop> {
        self.global_type(bytes)?;
        read(skip_expression(bytes))
    }

    /// Reads an export (binary format, export section).
    fn export(&mut self, bytes: &mut Bytes<'_>) -> Result<(), Stop> {
        let name = read(bytes.list())?;
        let kind = read(bytes.byte())?;
        let number = read(bytes.index())?;
        let name = Vec::from_slice(self.alloc, name.0)?;
        let _before = self.exports.insert(name, Item { kind, number })?;
        Ok(())
    }

    /// Reads an element of the section of this number.
    fn element(&mut self, section: u8, bytes: &mut Bytes<'_>) -> Result<(), Stop> {
        match section {
            1 => self.recursive_type(bytes),
            2 => self.import(bytes),
            3 => self.function(bytes),
            6 => self.global(bytes),
            _ => self.export(bytes),
        }
    }

    /// Reads a section that has types, imports, functions, globals or exports.
    fn section(&mut self, section: u8, bytes: &mut Bytes<'_>) -> Result<(), Stop> {
        let count = read(bytes.index())?;
        for _ in 0..count {
            self.element(section, bytes)?;
        }
        Ok(())
    }

    /// Reads the sections of a module.
    fn sections(&mut self, bytes: &mut Bytes<'_>) -> Result<(), Stop> {
        let _header = read(bytes.take(8))?;
        for _ in 0..bytes.0.len() {
            if bytes.is_empty() {
                break;
            }
            let section = read(bytes.byte())?;
            let mut contents = read(bytes.list())?;
            if matches!(section, 1 | 2 | 3 | 6 | 7) {
                self.section(section, &mut contents)?;
            }
        }
        Ok(())
    }
}

/// Returns what the module of these bytes exports.
pub(crate) fn interface_of(alloc: Global, bytes: &[u8]) -> Result<Interface, AllocError> {
    let mut interface = Interface::new(alloc);
    match interface.sections(&mut Bytes(bytes)) {
        Err(Stop::Memory) => Err(AllocError),
        _ => Ok(interface),
    }
}
