//! The index spaces and types of a module.

ghost use Rattle.std.specs.Prelude.{◌≡◌, Some, [], option_map, IfOk, IfErr};
ghost use Rattle.wast_base.specs.Ids.{name_of};
ghost use Rattle.wast_resolve_names.specs.LookUps.{IsSettledFor, AnswersFor, LooksTypesUp};
ghost use Rattle.wast_resolve_rules.specs.Resolved.{resolved_index, numbered_at, numbering_change};
ghost use Rattle.std.specs.FinMap as finmap;
ghost use Rattle.wast_resolve_namespace.specs.Namespaces.{number_in};
ghost use Rattle.wast_resolve_namespace.specs.Places.{entries_of};
ghost use Rattle.wast_tree_map.specs.Mapped.{mapped_access};
ghost use Rattle.wast_resolve_rules.specs.Scopes.{Function, Struct, Other, denoted, type_at, params_of, implicit_param_count, field_in};
ghost use Rattle.wast_resolve_names.specs.Tree.space;
ghost use Rattle.wast_resolve_rules.specs.Matches.{same_type};
ghost use Rattle.wast_resolve_rules.specs.Demands.{first_unmet, ask_demands, match_demands, field_at, access_demand};
ghost use Rattle.wast_base.specs.Outcomes.{Outcome};
ghost use Rattle.wast_resolve_names.specs.Resolvers.{space_of, space_in, known_of, scope_of, read_shape, without_types, with_types, IsFieldsOf};
ghost use Rattle.wast_tree_nodes.specs.Sites.{in_index};
ghost use Rattle.wast_resolve_names.specs.Walking.{Tries, Walks};

use crate::guesses::CachedNames;
use crate::matches::has_signature;
use std::alloc::Global;
use std::marker::Model;
use wast_base::{
    Error, Fault, Id, Index, Numbering, Space, denoted_number, number_index, try_number,
};
use wast_expand_keys::FuncKey;
use wast_resolve_core_types::ResolveCoreType;
use wast_tree_nodes::{FunctionType, StructAccess, TypeUse};

/// An index space in which an index can be looked up (text format: indices).
///
/// For example, the index in `(export "a" (func $f))` is in `Ns::Func`.
#[derive(Clone, Copy, Debug, PartialEq, Eq, Hash)]
pub enum Ns {
    /// Functions.
    Func,
    /// Tables.
    Table,
    /// Globals.
    Global,
    /// Memories.
    Memory,
    /// Tags.
    Tag,
    /// Types.
    Ty,
}

impl Ns {
    /// Returns the index space as a `Space`.
    fn space(self) -> Space
        ensures { result ≡ space_of self }
    {
        match self {
            Ns::Func => Space::Func,
            Ns::Table => Space::Table,
            Ns::Global => Space::Global,
            Ns::Memory => Space::Memory,
            Ns::Tag => Space::Tag,
            Ns::Ty => Space::Ty,
        }
    }
}

/// What checks read of a type: the signature of a function type, or the ids of the fields of a
/// struct if one has an id.
#[derive(Drop)]
pub struct TypeShape<'a> {
    signature: Option<FuncKey<'a>>,
    fields: Option<CachedNames<'a>>,
}

impl<'a> TypeShape<'a> {
    /// Returns the data of a type that is neither.
    pub fn other() -> Self
        ensures { read_shape result ≡ Other }
    {
        TypeShape {
            signature: None,
            fields: None,
        }
    }

    /// Returns the data of a function type with this signature.
    pub fn of_func(key: FuncKey<'a>) -> Self
        ensures { read_shape result ≡ Function key.entry }
    {
        TypeShape {
            signature: Some(key),
            fields: None,
        }
    }

    /// Returns the ids of the fields, if it is a struct in which a field has an id.
    fn fields(&self) -> Option<&CachedNames<'a>>
        ensures { IsFieldsOf (Some (read_shape self.now)) (option_map (λ names. names.now) result) }
    {
        match &self.signature {
            Some(_) => None,
            None => self.fields.as_ref(),
        }
    }

    /// Returns the data of a struct whose fields have these ids.
    pub fn of_struct(names: CachedNames<'a>) -> Self
        ensures { read_shape result ≡ Struct (λ name. number_in names.entry name) }
    {
        TypeShape {
            signature: None,
            fields: Some(names),
        }
    }
}

/// The ids of a module with their indices, and its types (text format: indices, types).
///
///     let (fields, resolver) = names::resolve(alloc, fields).expect(rt, "memory");
///     discard_fields(fields);
///
/// Look-ups do not allocate.
#[derive(Drop)]
pub struct Resolver<'a> {
    spaces: Vec<CachedNames<'a>>,
    // by index
    types: Vec<TypeShape<'a>>,
}

impl<'a> Model for Resolver<'a> {
    ghost use Rattle.std.specs.Coded.{codes};
    ghost use Rattle.wast_resolve_namespace.specs.Namespaces.{coded_space};
    ghost use Rattle.wast_resolve_names.specs.Resolvers.{Resolution};

    ghost Value = { Resolution };

    ghost coded = { Prim.hlevel (codes, coded_space) };

    ghost view = { λ r. record { spaces = r.spaces.items; types = r.types.items } };
}

impl<'a> Resolver<'a> {
    /// Returns a resolver without ids and types.
    ///
    /// For example, a look-up of `$f` in it fails with E4.
    pub fn empty(alloc: Global) -> Self
        ensures { result ≡ without_types [] }
    {
        resolver_of(alloc, Vec::new(alloc))
    }

    /// Replaces an id by its index, and returns the number. A number is unchanged.
    ///
    /// For example, in `(module (func $f) (func $g))` the index `$g` of `Ns::Func` becomes 1.
    ///
    /// The new index keeps the position of the id. A generated id must be one that the resolver
    /// has.
    ///
    /// # Errors
    ///
    /// E4 at the position of the id, if no item has it. The index is then unchanged.
    pub fn resolve(&self, idx: &mut Index<'a>, ns: Ns) -> Result<u32, Error<'a>>
        requires { IsSettledFor (known_of self.now) (space_of ns) idx.old }
        ensures number { IfOk result (λ n. denoted ((known_of self.now).number (space_of ns)) idx.old ≡ Some n) }
        ensures refusal { IfErr result (AnswersFor (known_of self.now) (space_of ns) idx.old) }
        ensures index { idx.new ≡ numbered_at (known_of self.now) (space_of ns) idx.old }
    {
        self.number(idx, ns.space())
    }

    /// Does what [`resolve`](Resolver::resolve) does, but generated ids need not be known.
    ///
    /// For example, in `(module (func $f) (func $g))` the index `$g` of `Space::Func` becomes 1.
    ///
    /// # Errors
    ///
    /// E4 at the position of the id, if no item has it. The index is then unchanged.
    pub fn number(&self, idx: &mut Index<'a>, space: Space) -> Result<u32, Error<'a>>
        ensures number { IfOk result (λ n. denoted ((known_of self.now).number space) idx.old ≡ Some n) }
        ensures refusal { IfErr result (AnswersFor (known_of self.now) space idx.old) }
        ensures index { idx.new ≡ numbered_at (known_of self.now) space idx.old }
    {
        let names = NamesIn {
            resolver: self,
            space,
        };
        number_index(&names, idx, space.word())
    }

    /// Returns the number of an index in a space, if it is known.
    fn denoted(&self, space: Space, idx: &Index<'a>) -> Option<u32>
        ensures { result ≡ denoted ((known_of self.now).number space) idx.now }
    {
        let names = NamesIn {
            resolver: self,
            space,
        };
        denoted_number(&names, idx)
    }

    /// Returns whether two indices name the same type.
    pub(crate) fn same_type(&self, a: &Index<'a>, b: &Index<'a>) -> bool
        ensures { result ≡ same_type (known_of self.now) a.now b.now }
    {
        match (self.denoted(Space::Ty, a), self.denoted(Space::Ty, b)) {
            (Some(m), Some(n)) => m == n,
            (Some(_), None) => false,
            (None, Some(_)) => false,
            (None, None) => false,
        }
    }

    /// Resolves the index of a field of the struct type with this number. Fails with E9 or E4 at an
    /// id.
    fn number_field(&self, owner: u32, field: &mut Index<'a>) -> Result<(), Error<'a>>
        ensures { Walks ⊥ ⊥ (field_at (scope_of self.now).types (Some owner) field.old)
            (resolved_index (field_in (type_at (scope_of self.now).types (Some owner))) field.old) field.new result }
    {
        let id = match *field {
            Index::Num(_, _) => return Ok(()),
            Index::Id(id) => id,
        };
        let Some(names) = self.fields_of(owner) else {
            return Err(Error::new(id.span(), Fault::NoNamedFields(id.name(), owner)));
        };
        number_index(names, field, "field")?;
        Ok(())
    }

    /// Returns the ids of the fields of the struct type with this number, if a field has one.
    fn fields_of(&self, owner: u32) -> Option<&CachedNames<'a>>
        ensures { IsFieldsOf (type_at (scope_of self.now).types (Some owner)) (option_map (λ names. names.now) result) }
    {
        match self.types.get(owner as usize) {
            Some(shape) => shape.fields(),
            None => None,
        }
    }

    /// Returns the number of parameters of the function type at an index, or 0.
    fn params_at(&self, idx: &Index<'a>) -> usize
        ensures { result ≡ params_of (type_at (scope_of self.now).types (denoted ((known_of self.now).number space.Ty) idx.now)) }
    {
        let Some(number) = self.denoted(Space::Ty, idx) else {
            return 0;
        };
        let Some(shape) = self.types.get(number as usize) else {
            return 0;
        };
        match &shape.signature {
            None => 0,
            Some(key) => key.0.len(),
        }
    }

    /// Returns the number of an id in a space.
    fn find(&self, space: Space, id: &Id<'a>) -> Option<u32>
        ensures { result ≡ number_in (space_in self.now.spaces space) (name_of id.now) }
    {
        let rank = space.rank();
        if rank < self.spaces.len() {
            self.spaces[rank].find(id)
        } else {
            None
        }
    }

    /// Returns the ids of a space with their numbers, each once, as [`CachedNames::pairs`] does.
    ///
    /// For example, for `(module (func $a) (func) (func $b))` the pairs of `Space::Func` are `$a`
    /// with 0 and `$b` with 2.
    pub fn pairs(&self, space: Space) -> &[(Id<'a>, u32)]
        ensures { entries_of result.now ≡ finmap.entries (space_in self.now.spaces space).names }
    {
        let rank = space.rank();
        if rank < self.spaces.len() {
            self.spaces[rank].pairs()
        } else {
            &[]
        }
    }
}

/// Returns a resolver with these index spaces, in the order of their ranks, and without types.
/// Does not allocate.
///
/// For example, with the index space of `(func $f)` first, `$f` is function 0.
///
/// It and the functions below are not methods, because methods of [`Resolver`] are public in
/// `wast_resolve` too.
pub fn resolver_of<'a>(alloc: Global, spaces: Vec<CachedNames<'a>>) -> Resolver<'a>
    ensures { result ≡ without_types spaces.entry.items }
{
    Resolver {
        spaces,
        types: Vec::new(alloc),
    }
}

/// Returns the same index spaces with these types. Does not allocate.
///
/// For example, with the shape of `(func)` alone, type 0 is a function type without parameters.
pub fn with_types<'a>(names: Resolver<'a>, types: Vec<TypeShape<'a>>) -> Resolver<'a>
    ensures { result ≡ with_types names.entry types.entry.items }
{
    Resolver {
        spaces: names.spaces,
        types,
    }
}

/// Replaces an id by its index, and returns whether it is known. An unknown id is unchanged. Does
/// not allocate.
///
/// For example, in `(module (func $f) (func $g))` it replaces the function `$g` by 1.
pub fn number_if_known<'a>(names: &Resolver<'a>, idx: &mut Index<'a>, space: Space) -> bool
    ensures { Tries (ask_demands (known_of names.now) (in_index space idx.old))
        (numbered_at (known_of names.now) space idx.old) idx.old idx.new result }
{
    let names = NamesIn {
        resolver: names,
        space,
    };
    try_number(&names, idx).is_some()
}

/// Checks an inline type against the type at an index. Fails with E6, E5 or E7 at the index. Does not
/// allocate.
///
/// For example, `(param i32)` beside the index of `(type (func))` fails with E7.
pub fn check_match<'a>(
    names: &Resolver<'a>,
    idx: &Index<'a>,
    inline: &FunctionType<'a>,
) -> Result<(), Error<'a>>
    ensures { Outcome ⊥ ⊥ (first_unmet (match_demands (scope_of names.now) idx.now inline.now)) result }
{
    let Some(number) = names.denoted(Space::Ty, idx) else {
        return Err(Error::new(idx.span(), Fault::OutOfBounds));
    };
    let Some(shape) = names.types.get(number as usize) else {
        return Err(Error::new(idx.span(), Fault::OutOfBounds));
    };
    let Some(key) = &shape.signature else {
        return Err(Error::new(idx.span(), Fault::NotFunc));
    };
    if has_signature(names, inline, key) {
        Ok(())
    } else {
        Err(Error::new(idx.span(), Fault::NoMatch))
    }
}

/// Resolves a struct field access: the index of the type, then that of the field. Does not
/// allocate.
///
/// For example, `struct.get $s $x` becomes `struct.get 0 1` in
/// `(type $s (struct (field $w i32) (field $x i32)))`.
///
/// Fails with E4 at an unknown id of a type. An id of a field fails with E9 if the type is not
/// a struct with named fields, and with E4 if it is unknown.
pub fn number_access<'a>(
    names: &Resolver<'a>,
    access: &mut StructAccess<'a>,
) -> Result<(), Error<'a>>
    ensures { Walks ⊥ ⊥ (access_demand (scope_of names.now) access.old.owner access.old.field)
        (mapped_access (numbering_change (scope_of names.now)) access.old) access.new result }
{
    let owner = names.number(&mut access.owner, Space::Ty)?;
    names.number_field(owner, &mut access.field)?;
    Ok(())
}

/// Returns how many parameters a function has by its index alone. With an inline type it is 0. Does
/// not allocate.
///
/// For example, it is 1 for `(type 0)` in `(type (func (param i32))) (func (type 0))`.
pub fn unsaid_params<'a>(names: &Resolver<'a>, ty: &TypeUse<'a, FunctionType<'a>>) -> usize
    ensures { result ≡ implicit_param_count (scope_of names.now) (Some ty.now) }
{
    match (&ty.index, &ty.inline) {
        (Some(index), None) => names.params_at(index),
        (Some(_), Some(_)) => 0,
        (None, Some(_)) => 0,
        (None, None) => 0,
    }
}

/// The look-up of ids in one space of a module.
#[derive(Drop)]
struct NamesIn<'r, 'a> {
    resolver: &'r Resolver<'a>,
    space: Space,
}

impl<'r, 'a> Numbering<'a> for NamesIn<'r, 'a> {
    ghost numbers = { λ names. (known_of names.resolver.now).number names.space };

    fn number_of(&self, id: &Id<'a>) -> Option<u32> {
        self.resolver.find(self.space, id)
    }
}

impl<'a> ResolveCoreType<'a> for &Resolver<'a> {
    ghost needs = { λ names i. IsSettledFor (known_of names.now) space.Ty i };

    ghost called = { LooksTypesUp (λ names. known_of names.now) };

    fn resolve_type_name(&mut self, name: &mut Index<'a>) -> Result<u32, Error<'a>> {
        self.resolve(name, Ns::Ty)
    }
}
