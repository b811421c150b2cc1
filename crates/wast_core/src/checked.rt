//! Resolving and encoding that check the module first, for callers who prove nothing.

ghost use Rattle.std.specs.Prelude.{◌≡◌, Some, is_none, IfOk, IfErr, OnOk};
ghost use Rattle.wast_core.specs.Checked.{first_ill_formed_kind, IsUnready, Checks, reason_text, check_text, reason_span, check_span};
ghost use Rattle.wast_core.specs.Headline.{Encodes, Resolves};
ghost use Rattle.wast_core.specs.Modules.{is_well_formed_kind, IsReady};
ghost use Rattle.wast_core.specs.Writing.{IsAtRest};

use crate::encode::EncodeOptions;
use crate::module::{Module, ModuleKind};
use std::alloc::Global;
use std::fmt;
use wast_base::{Error, Gensym, Span};
use wast_resolve::Names;
use wast_tree_visit::{IllFormed, first_ill_formed};

/// Why a module is not ready to be resolved.
///
/// `{}` prints what is wrong, without the position. For example, a load with the alignment 3 gives
/// `alignment must be a power of two`.
#[derive(Clone, Copy, Debug, PartialEq, Eq)]
pub enum NotReady {
    /// The module is not well formed: the first rule that it breaks, with the closest position.
    IllFormed(IllFormed),
    /// The id counter is not past this generation, which a generated id of the module has.
    CounterTooLow(u64),
}

impl NotReady {
    /// Returns the position of what is not well formed.
    pub fn span(&self) -> Option<Span>
        ensures { result ≡ reason_span self.now }
    {
        match self {
            NotReady::IllFormed(found) => Some(found.span),
            NotReady::CounterTooLow(_) => None,
        }
    }
}

impl fmt::Display for NotReady {
    ghost output = { λ r. Some (reason_text r) };

    fn fmt<W: fmt::Write>(&self, f: &mut fmt::Formatter<W>) -> fmt::Result {
        match *self {
            NotReady::IllFormed(found) => write!(f, "{found}"),
            NotReady::CounterTooLow(_) => {
                write!(f, "id counter must be past the generated ids of the module")
            }
        }
    }
}

/// Why a checked call returned no result. `{}` prints what is wrong, without the position.
#[derive(Clone, Copy, Debug, PartialEq, Eq)]
pub enum CheckError<'a> {
    /// The module is not ready. Nothing has changed.
    NotReady(NotReady),
    /// The module was ready, and the call failed with this error, E1 to E13.
    Failed(Error<'a>),
}

impl<'a> CheckError<'a> {
    /// Returns the position of the error, if it has one.
    ///
    ///     assert!(rt; error == Some(found) && found.span() == Some(at(23)));
    pub fn span(&self) -> Option<Span>
        ensures { result ≡ check_span self.now }
    {
        match self {
            CheckError::NotReady(reason) => reason.span(),
            CheckError::Failed(error) => error.span(),
        }
    }
}

impl fmt::Display for CheckError<'_> {
    ghost output = { λ e. Some (check_text e) };

    fn fmt<W: fmt::Write>(&self, f: &mut fmt::Formatter<W>) -> fmt::Result {
        match *self {
            CheckError::NotReady(reason) => write!(f, "{reason}"),
            CheckError::Failed(error) => write!(f, "{error}"),
        }
    }
}

impl std::error::Error for CheckError<'_> {}

/// `?` turns an error of another call on the module, such as a look-up in its names, into one.
impl<'a> From<Error<'a>> for CheckError<'a> {
    ghost use Rattle.std.specs.Prelude.{◌≡◌};
    ghost use Rattle.wast_core.specs.declared.checked.CheckError.TheVariants as check_error;

    ghost from_gives = { λ e c. c ≡ check_error.Failed e };

    fn from(error: Error<'a>) -> Self {
        CheckError::Failed(error)
    }
}

/// Returns the first rule of well-formedness that the content breaks, with a position.
fn first_ill_formed_in(kind: &ModuleKind<'_>) -> Option<IllFormed>
    ensures first { result ≡ first_ill_formed_kind kind.now }
    ensures none { is_none result ≡ is_well_formed_kind kind.now }
{
    match kind {
        ModuleKind::Text(fields) => first_ill_formed(fields.as_slice()),
        ModuleKind::Binary(_) | ModuleKind::Refused(_) => None,
    }
}

impl<'a> Module<'a> {
    /// Checks what [`Module::resolve`] and [`EncodeOptions::encode_module`] require: a well-formed
    /// module, and an id counter past its generated ids.
    ///
    ///     assert!(rt; made.check(&gensym).is_ok());
    ///
    /// # Errors
    ///
    /// - [`NotReady::IllFormed`]: the module breaks a rule of well-formedness.
    /// - [`NotReady::CounterTooLow`]: it breaks none, and the counter is not past its ids.
    pub fn check(&self, gensym: &Gensym) -> Result<(), NotReady>
        ensures ok { IfOk result (λ _. IsReady self.now gensym.now) }
        ensures err { IfErr result (IsUnready self.now gensym.now) }
    {
        match first_ill_formed_in(&self.kind) {
            Some(found) => Err(NotReady::IllFormed(found)),
            None => {
                let bound = self.gensym_bound();
                if gensym.peek() <= bound {
                    return Err(NotReady::CounterTooLow(bound));
                }
                Ok(())
            }
        }
    }

    /// Checks the module as [`Module::check`] does, and resolves it as [`Module::resolve`] does.
    /// The module keeps an error of [`Module::resolve`].
    ///
    ///     let names = made.check_and_resolve(alloc, &mut gensym);
    pub fn check_and_resolve(
        &mut self,
        alloc: Global,
        gensym: &mut Gensym,
    ) -> Result<Names<'a>, CheckError<'a>>
        ensures answer { Checks (λ r m n. Resolves self.old.kind gensym.old r m.kind n) self.old gensym.old result self.new gensym.new }
        ensures stays { self.new ≡ record self.old { kind = self.new.kind } }
        ensures ready { IsReady self.old gensym.old → IsReady self.new gensym.new }
        ensures at_rest { OnOk result (IsAtRest self.new.kind) }
    {
        match self.check(gensym) {
            Ok(()) => match self.resolve(alloc, gensym) {
                Ok(names) => Ok(names),
                Err(error) => Err(CheckError::Failed(error)),
            },
            Err(reason) => Err(CheckError::NotReady(reason)),
        }
    }
}

impl EncodeOptions {
    /// Checks the module as [`Module::check`] does, and encodes it as
    /// [`EncodeOptions::encode_module`] does. A caller without proofs can call it on any module.
    ///
    ///     let answer = EncodeOptions::new().check_and_encode(alloc, &mut module, &mut gensym);
    ///
    /// For `(module (func))` it returns the bytes that `encode_module` returns.
    pub fn check_and_encode<'a>(
        &self,
        alloc: Global,
        module: &mut Module<'a>,
        gensym: &mut Gensym,
    ) -> Result<Vec<u8>, CheckError<'a>>
        ensures answer { Checks (Encodes «module».old gensym.old) «module».old gensym.old result «module».new gensym.new }
        ensures stays { «module».new ≡ record «module».old { kind = «module».new.kind } }
        ensures ready { IsReady «module».old gensym.old → IsReady «module».new gensym.new }
    {
        match module.check(gensym) {
            Ok(()) => match self.encode_module(alloc, module, gensym) {
                Ok(bytes) => Ok(bytes),
                Err(error) => Err(CheckError::Failed(error)),
            },
            Err(reason) => Err(CheckError::NotReady(reason)),
        }
    }
}
