//! The encoder.

ghost use Rattle.std.specs.Prelude.{◌≡◌, ⊤, IfOk, IfErr};
ghost use Rattle.wast_base.specs.Faults.{out_of_memory};
ghost use Rattle.wast_core.specs.Headline.{Encodes, joined_pieces, name_of_module};
ghost use Rattle.wast_core.specs.Modules.{IsReady};
ghost use Rattle.wast_core.specs.Writing.{IsTextAtRest, IsAtRest, EncodesResolved, PutsModule, WritesInOrder};

use crate::laws::one_meaning;
use crate::module::{Module, ModuleKind};
use std::alloc::Global;
use wasm_ops::Sink;
use wast_base::{Error, Gensym};
use wast_core_name_section::given_name;
use wast_core_sections::{encode_covered, order_law, put_fields};
use wast_resolve::{discard_names, resolved_laws};

/// Joins the pieces of a binary module.
fn join<'e>(alloc: Global, pieces: &[&[u8]]) -> Result<Vec<u8>, Error<'e>>
    ensures bytes { IfOk result (λ v. v.items ≡ joined_pieces pieces.now) }
    ensures refusal { IfErr result (λ e. e ≡ out_of_memory) }
{
    let mut out = Vec::new(alloc);
    for piece in pieces {
        out.extend_from_slice(piece)?;
    }
    Ok(out)
}

/// Returns the bytes of a module that is already resolved, or the error that it keeps.
fn encode_resolved<'a>(alloc: Global, module: &Module<'a>) -> Result<Vec<u8>, Error<'a>>
    requires { IsAtRest «module».now.kind }
    ensures { EncodesResolved (name_of_module «module».now) «module».now.kind result }
{
    let name = given_name(&module.name, &module.id);
    match &module.kind {
        ModuleKind::Text(fields) => encode_covered(alloc, fields.as_slice(), name),
        ModuleKind::Binary(pieces) => join(alloc, pieces.as_slice()),
        ModuleKind::Refused(error) => Err(*error),
    }
}

/// The options of encoding. There are none yet.
///
///     let bytes = EncodeOptions::new().encode_module(alloc, module, gensym)?;
#[derive(Clone, Copy, Debug)]
pub struct EncodeOptions {}

impl Default for EncodeOptions {
    ghost is_default = { λ options. ⊤ };

    fn default() -> Self {
        EncodeOptions {}
    }
}

impl EncodeOptions {
    /// Returns the default options.
    pub fn new() -> Self {
        EncodeOptions::default()
    }

    /// Resolves the module and returns its binary encoding (binary format: modules).
    ///
    ///     let bytes = EncodeOptions::new().encode_module(alloc, module, gensym)?;
    ///
    /// For `(module (func))` the bytes are `00 61 73 6d 01 00 00 00`, a type section
    /// `01 04 01 60 00 00`, a function section `03 02 01 00` and a code section
    /// `0a 04 01 02 00 0b`. For a binary module they are its pieces, joined, whatever they contain.
    ///
    /// Call it directly on a module from a parser. Calling [`Module::resolve`] first is only needed
    /// to look up ids. Test what both require with [`Module::check`]. Afterwards the module is
    /// resolved, and a second call returns the same bytes, unless it returns E10 or E12
    /// ([`at_rest`](crate::laws::at_rest)).
    ///
    /// # Errors
    ///
    /// - An error of [`Module::resolve`]. The module keeps it.
    /// - E11: the resolved module has a construct that the encoder does not support. It names the
    ///   first one, and is returned before anything is allocated for the encoding.
    /// - E10: a count, length or position does not fit in 32 bits, or the bytes do not fit in a
    ///   `usize`.
    /// - E12: allocation failed.
    ///
    /// After E10, E11 and E12 from encoding the module stays resolved, so a caller can report
    /// `first_uncovered` of `wast_tree`, which has a position.
    pub fn encode_module<'a>(
        &self,
        alloc: Global,
        module: &mut Module<'a>,
        gensym: &mut Gensym,
    ) -> Result<Vec<u8>, Error<'a>>
        requires { IsReady «module».old gensym.old }
        ensures answer { Encodes «module».old gensym.old result «module».new gensym.new }
        ensures order { IfOk result (λ bytes. WritesInOrder «module».old.kind bytes.items) }
        ensures stays { «module».new ≡ record «module».old { kind = «module».new.kind } }
        ensures ready { IsReady «module».new gensym.new }
    {
        resolved_laws();
        order_law();
        one_meaning();
        discard_names(module.resolve(alloc, gensym)?);
        encode_resolved(alloc, module)
    }

    /// Appends the bytes of a resolved text module to a sink (binary format: modules). Allocates
    /// nothing, except in the sink.
    ///
    /// # Example
    ///
    ///     let mut length = Length::new();
    ///     assert!(rt; options.put_module(&module, &mut length).is_ok() && length.count() == 52);
    ///     let mut out = Vec::new(alloc);
    ///     assert!(rt; options.put_module(&module, &mut out).is_ok());
    ///
    /// [`Module::resolve`] must have succeeded on the module before.
    ///
    /// # Errors
    ///
    /// After an error the sink is unchanged.
    ///
    /// - E11: the module has an unsupported construct. It names the first one. If there is one, no
    ///   other error is returned.
    /// - The error of the sink, only if the bytes do not fit in it.
    /// - E10, only if a count, length or position does not fit in 32 bits.
    pub fn put_module<'e, S: Sink>(self, module: &Module, out: &mut S) -> Result<(), Error<'e>>
        requires { IsTextAtRest «module».now.kind }
        ensures { PutsModule S.rules (name_of_module «module».now) «module».now.kind out.old out.new result }
    {
        let name = given_name(&module.name, &module.id);
        match &module.kind {
            ModuleKind::Text(fields) => put_fields(fields.as_slice(), name, out),
            ModuleKind::Binary(_) | ModuleKind::Refused(_) => unreachable!(),
        }
    }
}

impl<'a> Module<'a> {
    /// Encodes the module with the default options, as [`EncodeOptions::encode_module`] does.
    ///
    ///     let first = module.encode(alloc, &mut gensym);
    pub fn encode(&mut self, alloc: Global, gensym: &mut Gensym) -> Result<Vec<u8>, Error<'a>>
        requires { IsReady self.old gensym.old }
        ensures answer { Encodes self.old gensym.old result self.new gensym.new }
        ensures order { IfOk result (λ bytes. WritesInOrder self.old.kind bytes.items) }
        ensures stays { self.new ≡ record self.old { kind = self.new.kind } }
        ensures ready { IsReady self.new gensym.new }
    {
        EncodeOptions::new().encode_module(alloc, self, gensym)
    }
}
