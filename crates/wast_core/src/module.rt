//! Modules of the text format, and how they are resolved.

ghost use Rattle.std.specs.Prelude.{◌≡◌, ◌<◌, ◌≤◌, Some, None, is_none, OnOk, IsTrue};
ghost use Rattle.wast_base.specs.Ids.{text_start};
ghost use Rattle.wast_core.specs.declared.module.ModuleKind.TheVariants as module_kind;
ghost use Rattle.wast_core.specs.Modules.{is_well_formed, is_well_formed_kind, ill_formed, generation_bound, bound_of_kind, IsReady};
ghost use Rattle.wast_core.specs.Headline.{Resolves, ResolvesKind, Counts};
ghost use Rattle.wast_core.specs.Writing.{IsAtRest};

use std::alloc::Global;
use std::fmt::Debug;
use std::{fmt, mem};
use wast_base::{Error, Fault, Gensym, Id, NameAnnotation, Seq, Span};
use wast_resolve::{Names, resolved_laws};
use wast_tree_nodes::{ModuleField, discard_fields};
use wast_tree_visit::{gensym_bound, ill_formed, well_formed};

/// The content of a module.
///
///     let kind = ModuleKind::Text(fields(alloc, start)?);
#[derive(Drop)]
pub enum ModuleKind<'a> {
    /// The fields of a text module.
    Text(Seq<ModuleField<'a>>),
    /// The pieces of the bytes of a binary module: `(module binary "..")`.
    Binary(Seq<&'a [u8]>),
    /// The error of an earlier [`Module::resolve`]. The fields are gone.
    Refused(Error<'a>),
}

/// Writes fields for `Debug`, one after another.
fn tell_fields<W: fmt::Write>(
    fields: &[ModuleField<'_>],
    f: &mut fmt::Formatter<W>,
) -> fmt::Result {
    f.write_str("Text([")?;
    for i in 0..fields.len() {
        if i > 0 {
            f.write_str(", ")?;
        }
        Debug::fmt(&fields[i], f)?;
    }
    f.write_str("])")
}

impl Debug for ModuleKind<'_> {
    fn fmt<W: fmt::Write>(&self, f: &mut fmt::Formatter<W>) -> fmt::Result {
        match self {
            ModuleKind::Text(fields) => tell_fields(fields.as_slice(), f),
            ModuleKind::Binary(pieces) => Debug::fmt(pieces, f),
            ModuleKind::Refused(error) => Debug::fmt(error, f),
        }
    }
}

/// A module: `(module $m ..)` (text format: modules).
///
/// # Example
///
///     let mut module = Module {
///         span: at(1),
///         id: None,
///         name: None,
///         kind,
///     };
#[derive(Debug, Drop)]
pub struct Module<'a> {
    /// The position of the keyword `module`.
    pub span: Span,
    /// The id of the module, if it has one.
    pub id: Option<Id<'a>>,
    /// The `@name` annotation of the module, if it has one.
    pub name: Option<NameAnnotation<'a>>,
    /// The content of the module.
    pub kind: ModuleKind<'a>,
}

impl<'a> Module<'a> {
    /// Returns a module with these fields, without an id and without a name (text format: modules).
    /// Its position is the start of the text.
    ///
    /// For example, the module of no fields is `(module)`, and its bytes are
    /// `00 61 73 6d 01 00 00 00`.
    pub fn new(fields: Seq<ModuleField<'a>>) -> Self
        ensures { result ≡ record { span = text_start; id = None; name = None; kind = module_kind.Text fields.entry } }
    {
        Module {
            span: Span::default(),
            id: None,
            name: None,
            kind: ModuleKind::Text(fields),
        }
    }

    /// Returns the module with a `@name` annotation (text format: custom annotations). For example,
    /// `with_name("m")` makes `(module (@name "m"))` of `(module)`.
    pub fn with_name(self, name: &'a str) -> Self
        ensures { result ≡ record self.entry { name = Some (record { name = name.entry }) } }
    {
        let name = Some(NameAnnotation { name });
        Module { name, ..self }
    }

    /// Returns the module with this position of its keyword.
    pub fn with_span(self, span: Span) -> Self
        ensures { result ≡ record self.entry { span = span } }
    {
        Module { span, ..self }
    }

    /// Returns whether the module is well formed, as [`Module::resolve`] and
    /// [`EncodeOptions::encode_module`](crate::EncodeOptions::encode_module) require. Does not
    /// allocate.
    ///
    ///     let is_ready = module.well_formed() && module.gensym_bound() < gensym.peek();
    ///
    /// To learn which rule it breaks, call [`Module::ill_formed`].
    pub fn well_formed(&self) -> bool
        ensures { result ≡ is_well_formed self.now }
    {
        match &self.kind {
            ModuleKind::Text(fields) => well_formed(fields.as_slice()),
            ModuleKind::Binary(_) | ModuleKind::Refused(_) => true,
        }
    }

    /// Returns the number of the first rule of well-formedness that the module breaks, or `None` if
    /// it is well formed (text format: indices, modules).
    ///
    /// `ill_formed` of `wast_tree` lists the rules, and `first_ill_formed` of `wast_tree` returns a
    /// position. A binary module and one with an earlier error break no rule. Unsupported
    /// constructs are well formed, because they are reported when the module is encoded. Does not
    /// allocate.
    ///
    /// # Example
    ///
    ///     if let Some(clause) = module.ill_formed() {
    ///         return Ok(ill_formed(alloc, clause)?);
    ///     }
    pub fn ill_formed(&self) -> Option<u8>
        ensures least { result ≡ ill_formed self.now }
        ensures none { is_none result ≡ is_well_formed self.now }
    {
        match &self.kind {
            ModuleKind::Text(fields) => ill_formed(fields.as_slice()),
            ModuleKind::Binary(_) | ModuleKind::Refused(_) => None,
        }
    }

    /// Returns the largest generation of a generated id in the module, or 0 if it has none.
    ///
    /// A counter for [`Module::resolve`] has to be larger, so that new ids are new. Does not
    /// allocate. [`Module::well_formed`] has an example.
    pub fn gensym_bound(&self) -> u64
        ensures { result ≡ generation_bound self.now }
    {
        let held = match &self.kind {
            ModuleKind::Text(fields) => gensym_bound(fields.as_slice()),
            ModuleKind::Binary(_) | ModuleKind::Refused(_) => 0,
        };
        let own = match &self.id {
            Some(id) => id.generation(),
            None => 0,
        };
        own.max(held)
    }

    /// Resolves the module: desugars it, and replaces every id by the index that it names (text
    /// format: abbreviations, type uses, indices).
    ///
    /// Inline exports, imports, elements and data become fields of their own. A type use without an
    /// index gets one; if no type definition matches, one is appended after all fields. For
    /// example, `(func (export "a") (result i32) i32.const 7)` becomes `(export "a" (func 0))`,
    /// `(func (type 0) (result i32) i32.const 7)` and `(type (func (result i32)))`.
    ///
    ///     let names = module.resolve(alloc, gensym)?;
    ///     let mut read = Index::Id(Id::new("read", at(244)));
    ///
    /// The returned [`Names`] look up more ids, for indices that the caller keeps outside the
    /// module. A binary module is not changed and has no names.
    ///
    /// The module must be well formed, and the id counter past every generated id in it. Test both
    /// with [`Module::well_formed`] and `module.gensym_bound() < gensym.peek()`.
    ///
    /// # Errors
    ///
    /// The first check that fails, with its position. The order is E1, then E2 and E3 of the items,
    /// then all others field by field.
    ///
    /// - E1: an import comes after the definition of a function, table, memory, global or tag.
    /// - E2: two items of an index space have the same id. Field by field: two parameters or locals
    ///   of a function have the same id.
    /// - E3: two fields of a struct have the same id.
    /// - E4: an id is not defined.
    /// - E5, E6, E7: an inline type does not match the index beside it.
    /// - E8: the label at an `else` or `end` is not that of its block.
    /// - E9: a field is named of a type that is not a struct with named fields.
    ///
    /// Two errors without a position can come in place of any result:
    ///
    /// - E10, only if the id counter would overflow, or if a part is too large. Too large is an index
    ///   space with 2^32 items or more, a struct with as many fields, or a function with as many
    ///   parameters and locals. So is an expression with as many enclosing blocks, or a memory with
    ///   as many bytes of inline data.
    /// - E12: allocation failed.
    ///
    /// The module keeps the error, and every later call returns it again. The counter has its old
    /// value, so other modules can reuse it.
    pub fn resolve(&mut self, alloc: Global, gensym: &mut Gensym) -> Result<Names<'a>, Error<'a>>
        requires { IsReady self.old gensym.old }
        ensures answer { Resolves self.old.kind gensym.old result self.new.kind gensym.new }
        ensures stays { self.new ≡ record self.old { kind = self.new.kind } }
        ensures ready { IsReady self.new gensym.new }
        ensures at_rest { OnOk result (IsAtRest self.new.kind) }
    {
        let placeholder = ModuleKind::Refused(Error::refusal(Fault::Memory));
        let kind = mem::replace(&mut self.kind, placeholder);
        let (kind, answer) = resolve_kind(alloc, kind, gensym);
        discard_kind(mem::replace(&mut self.kind, kind));
        answer
    }
}

/// Resolves the content of a module, and returns the new content and the result.
fn resolve_kind<'a>(
    alloc: Global,
    kind: ModuleKind<'a>,
    gensym: &mut Gensym,
) -> (ModuleKind<'a>, Result<Names<'a>, Error<'a>>)
    requires well_formed { IsTrue (is_well_formed_kind kind) }
    requires above { bound_of_kind kind < gensym.old }
    ensures held { ResolvesKind gensym.old kind.entry result.1 result.0 }
    ensures counter { Counts kind.entry result.0 gensym.old gensym.new }
    ensures counter_grows { gensym.old ≤ gensym.new }
    ensures well_formed { IsTrue (is_well_formed_kind result.0) }
    ensures above { bound_of_kind result.0 < gensym.new }
    ensures at_rest { OnOk result.1 (IsAtRest result.0) }
{
    resolved_laws();
    match kind {
        ModuleKind::Text(fields) => match wast_resolve::resolve(alloc, fields, gensym) {
            Ok((fields, names)) => (ModuleKind::Text(fields), Ok(names)),
            Err(error) => (ModuleKind::Refused(error), Err(error)),
        },
        ModuleKind::Binary(pieces) => (ModuleKind::Binary(pieces), Ok(Names::empty(alloc))),
        ModuleKind::Refused(error) => (ModuleKind::Refused(error), Err(error)),
    }
}

/// Frees the content of a module.
fn discard_kind(kind: ModuleKind<'_>) {
    match kind {
        ModuleKind::Text(fields) => discard_fields(fields),
        ModuleKind::Binary(_) | ModuleKind::Refused(_) => {}
    }
}

/// Frees a module.
///
///     discard_module(module);
pub fn discard_module(module: Module<'_>) {
    discard_kind(module.kind);
}
