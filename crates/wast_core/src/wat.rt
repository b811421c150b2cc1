//! The content of a text: a module or a component.

ghost use Rattle.wast_core.specs.Wats.{IsReadyWat, EncodesWat};

use crate::encode::EncodeOptions;
use crate::module::Module;
use std::alloc::Global;
use wast_base::{Error, Fault, Gensym, Span};

/// The content of a text (text format: modules).
///
///     let mut wat = Wat::Module(row(&rt, alloc, 27));
///     let answer = wat.encode(alloc, &mut Gensym::new(1));
#[derive(Debug, Drop)]
pub enum Wat<'a> {
    /// `(module ..)`, or only the fields of one.
    Module(Module<'a>),
    /// The position of `(component ..)`. Components are not encoded.
    Component(Span),
}

impl EncodeOptions {
    /// Encodes the module of a text, as [`EncodeOptions::encode_module`] does, with the same
    /// requirements and errors.
    ///
    ///     let mut wat = Wat::Module(row(&rt, alloc, 27));
    ///     let answer = EncodeOptions::new().encode_wat(alloc, &mut wat, &mut Gensym::new(1));
    ///
    /// For a component it fails with E13. Nothing changes then, and nothing is allocated.
    pub fn encode_wat<'a>(
        &self,
        alloc: Global,
        wat: &mut Wat<'a>,
        gensym: &mut Gensym,
    ) -> Result<Vec<u8>, Error<'a>>
        requires { IsReadyWat wat.old gensym.old }
        ensures answer { EncodesWat wat.old gensym.old result wat.new gensym.new }
        ensures ready { IsReadyWat wat.new gensym.new }
    {
        match wat {
            Wat::Module(module) => self.encode_module(alloc, module, gensym),
            Wat::Component(_) => Err(Error::refusal(Fault::Component)),
        }
    }
}

impl<'a> Wat<'a> {
    /// Encodes the module of a text with the default options, as [`EncodeOptions::encode_wat`]
    /// does. [`Wat`] has an example.
    pub fn encode(&mut self, alloc: Global, gensym: &mut Gensym) -> Result<Vec<u8>, Error<'a>>
        requires { IsReadyWat self.old gensym.old }
        ensures answer { EncodesWat self.old gensym.old result self.new gensym.new }
        ensures ready { IsReadyWat self.new gensym.new }
    {
        EncodeOptions::new().encode_wat(alloc, self, gensym)
    }
}
