//! `Boxed`, a `Box` whose model in contracts is the value inside.

ghost use Rattle.std.specs.Prelude.{◌≡◌, IfOk};
ghost use Rattle.std.specs.Borrow.{sem};

use std::alloc::{AllocError, Global};
use std::fmt::{self, Debug};
use std::marker::Model;

/// A `Box` whose model in contracts is the value inside.
///
/// Large parts of the AST are boxed, and the model lets contracts compare them by value, not by
/// address. `{:?}` prints the value, as for a `Box`. Only [`Boxed::new`] allocates.
///
/// # Example
///
///     let mut boxed = Boxed::new(alloc, 7).expect(&rt, "memory");
///     assert!(rt; *boxed.get() == 7);
///     *boxed.get_mut() = 8;
///     assert!(rt; boxed.into_inner() == 8);
#[derive(Drop)]
pub struct Boxed<T> {
    inner: Box<T>,
}

impl<T> Model for Boxed<T> {
    ghost Value = { T };

    ghost coded = { T.code };

    ghost view = { λ b. b.inner.value };
}

impl<T> Boxed<T> {
    ghost use Rattle.wast_base.specs.Lending.{LendsValue};

    /// Borrows the value.
    pub fn get(&self) -> &T
        ensures { result.now ≡ self.now }
    {
        &self.inner
    }

    /// Borrows the value mutably.
    pub fn get_mut(&mut self) -> &mut T
        ensures* writes_back { sem 𝓛 (LendsValue T.row self.entry result) }
        ensures value { result.now ≡ self.old }
    {
        &mut *self.inner
    }

    /// Moves the value out of the box and frees the box.
    pub fn into_inner(self) -> T
        ensures { result ≡ self }
    {
        let Boxed { inner } = self;
        Box::into_inner(inner)
    }
}

impl<T: Drop> Boxed<T> {
    /// Allocates a box for the value. If the allocation fails, the value is dropped.
    pub fn new(alloc: Global, value: T) -> Result<Self, AllocError>
        ensures { IfOk result (λ b. b ≡ value) }
    {
        Ok(Boxed {
            inner: Box::new(alloc, value)?,
        })
    }
}

impl<T: Debug> Debug for Boxed<T> {
    ghost debug_output = { λ b. T.debug_output b };

    fn fmt<W: fmt::Write>(&self, f: &mut fmt::Formatter<W>) -> fmt::Result {
        Debug::fmt(self.get(), f)
    }
}
