//! The data that checks read of the types of a module, by index.

ghost use Rattle.std.specs.Prelude.{◌≡◌, ◌≤◌, ◌^◌, None, [], ◌∷◌, ◌++◌, length, map, flat_map, IfOk, IfErr, OnOk};
ghost use Rattle.wast_base.specs.Faults.{out_of_memory};
ghost use Rattle.wast_base.specs.Spaces.{name_if};
ghost use Rattle.wast_tree_nodes.specs.Items.{field_ids, fields_of};
ghost use Rattle.wast_expand_keys.specs.Signatures.{signature_of};
ghost use Rattle.wast_resolve_rules.specs.Demands.{first_unmet, field_demands, HasMany};
ghost use Rattle.wast_resolve_names.specs.Resolvers.{read_shape};
ghost use Rattle.wast_resolve_rules.specs.Scopes.{Function, struct_shape, shape_of, shapes_in, shapes_of_types};
ghost use Rattle.wast_resolve_spaces.specs.Shaping.{NamesFields, type_demands, types_demands, type_fields, types_fields, IsRefused};

use crate::gathers::gather_fields;
use std::alloc::Global;
use std::slice;
use wast_base::Error;
use wast_expand_keys::{Expander, TypeReference};
use wast_resolve_names::{CachedNames, TypeShape, filled, have_ids};
use wast_tree_nodes::{FunctionType, InnerTypeKind, ModuleField, StructField, Type};

/// Returns the ids of the fields of a struct with their numbers. No two ids may be the same. Fails
/// with E10 if there are 2^32 fields or more.
fn field_names<'a>(alloc: Global, fields: &[StructField<'a>]) -> Result<CachedNames<'a>, Error<'a>>
    requires { first_unmet (field_demands (field_ids fields.now)) ≡ None }
    ensures names { IfOk result (NamesFields (field_ids fields.now)) }
    ensures refusal { IfErr result (IsRefused (2 ^ 32 ≤ length (field_ids fields.now))) }
{
    match filled(gather_fields(alloc, fields)?, alloc)? {
        Ok(names) => Ok(names),
        Err(_) => unreachable!(),
    }
}

/// Returns the data of a struct type. Allocates only if a field has an id.
fn struct_shape<'a>(alloc: Global, fields: &[StructField<'a>]) -> Result<TypeShape<'a>, Error<'a>>
    requires { first_unmet (field_demands (field_ids fields.now)) ≡ None }
    ensures shape { IfOk result (λ t. read_shape t ≡ struct_shape (map name_if (field_ids fields.now))) }
    ensures refusal { IfErr result (IsRefused (2 ^ 32 ≤ length (field_ids fields.now))) }
{
    if !have_ids(fields) {
        return Ok(TypeShape::other());
    }
    let names = field_names(alloc, fields)?;
    Ok(TypeShape::of_struct(names))
}

/// Returns the data of a function type.
fn func_shape<'a>(alloc: Global, ty: &FunctionType<'a>) -> Result<TypeShape<'a>, Error<'a>>
    ensures shape { IfOk result (λ t. read_shape t ≡ Function (signature_of ty.now)) }
    ensures refusal { IfErr result (λ e. e ≡ out_of_memory) }
{
    let cx = Expander::new(alloc);
    let key = ty.key(&cx)?;
    Ok(TypeShape::of_func(key))
}

/// Returns the data of a composite type.
fn kind_shape<'a>(alloc: Global, kind: &InnerTypeKind<'a>) -> Result<TypeShape<'a>, Error<'a>>
    requires { first_unmet (field_demands (field_ids (fields_of kind.now))) ≡ None }
    ensures shape { IfOk result (λ t. read_shape t ≡ shape_of kind.now) }
    ensures refusal { IfErr result (IsRefused (2 ^ 32 ≤ length (field_ids (fields_of kind.now)))) }
{
    match kind {
        InnerTypeKind::Func(ty) => func_shape(alloc, ty),
        InnerTypeKind::Struct(ty) => struct_shape(alloc, ty.fields.as_slice()),
        InnerTypeKind::Array(_) => Ok(TypeShape::other()),
        InnerTypeKind::Cont(_) => Ok(TypeShape::other()),
    }
}

/// Adds a type.
fn add_type<'a>(
    alloc: Global,
    ty: &Type<'a>,
    read: &mut Vec<TypeShape<'a>>,
) -> Result<(), Error<'a>>
    requires { first_unmet (type_demands ty.now) ≡ None }
    ensures ok { OnOk result (map read_shape read.new.items ≡ map read_shape read.old.items ++ shape_of ty.now.def.kind ∷ []) }
    ensures refusal { IfErr result (IsRefused (2 ^ 32 ≤ type_fields ty.now)) }
{
    let shape = kind_shape(alloc, &ty.def.kind)?;
    read.push(shape)?;
    Ok(())
}

/// Adds the types of a group, one by one.
fn add_types<'a>(
    alloc: Global,
    types: &[Type<'a>],
    read: &mut Vec<TypeShape<'a>>,
) -> Result<(), Error<'a>>
    requires { first_unmet (flat_map type_demands types.now) ≡ None }
    ensures ok { OnOk result (map read_shape read.new.items ≡ map read_shape read.old.items ++ map (λ t. shape_of t.def.kind) types.now) }
    ensures refusal { IfErr result (IsRefused (HasMany (map type_fields types.now))) }
{
    for ty in types {
        add_type(alloc, ty, read)?;
    }
    Ok(())
}

/// Adds the types of a field.
fn add_field<'a>(
    alloc: Global,
    field: &ModuleField<'a>,
    read: &mut Vec<TypeShape<'a>>,
) -> Result<(), Error<'a>>
    requires { first_unmet (types_demands field.now) ≡ None }
    ensures ok { OnOk result (map read_shape read.new.items ≡ map read_shape read.old.items ++ shapes_in field.now) }
    ensures refusal { IfErr result (IsRefused (HasMany (types_fields field.now))) }
{
    match field {
        ModuleField::Ty(ty) => add_types(alloc, slice::from_ref(ty), read),
        ModuleField::Rec(rec) => add_types(alloc, rec.types.as_slice(), read),
        ModuleField::Import(_) => Ok(()),
        ModuleField::Func(_) => Ok(()),
        ModuleField::Table(_) => Ok(()),
        ModuleField::Memory(_) => Ok(()),
        ModuleField::Global(_) => Ok(()),
        ModuleField::Export(_) => Ok(()),
        ModuleField::Start(_) => Ok(()),
        ModuleField::Elem(_) => Ok(()),
        ModuleField::Data(_) => Ok(()),
        ModuleField::Tag(_) => Ok(()),
        ModuleField::Custom(_) => Ok(()),
    }
}

/// Returns the data of the types of a module, by index. No two fields of a struct may have the same
/// id. Fails with E10 if a struct in which a field has an id has 2^32 fields or more.
///
/// Allocates for each function type, and for each struct in which a field has an id.
pub fn type_shapes<'a>(
    alloc: Global,
    fields: &[ModuleField<'a>],
) -> Result<Vec<TypeShape<'a>>, Error<'a>>
    requires { first_unmet (flat_map types_demands fields.now) ≡ None }
    ensures types { IfOk result (λ read. map read_shape read.items ≡ shapes_of_types fields.now) }
    ensures refusal { IfErr result (IsRefused (HasMany (flat_map types_fields fields.now))) }
{
    let mut read = Vec::new(alloc);
    for field in fields {
        add_field(alloc, field, &mut read)?;
    }
    Ok(read)
}
