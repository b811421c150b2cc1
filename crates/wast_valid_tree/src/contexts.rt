//! What bodies refer to, from the fields of a module (validation: contexts).

use crate::values::{reference, type_index, use_index, value};
use std::alloc::{AllocError, Global};
use wast_base::{Index, Seq};
use wast_tree_nodes::{
    Elem, ElemPayload, FunctionType, GlobalType, ImportItems, InnerTypeKind, ItemKind, MemoryKind,
    ModuleField, RefType, StorageType, StructType, TableKind, TypeDef, TypeUse,
};
use wast_valid::Refused;
use wast_valid_machine::{
    Context, Def, Field, FuncTy, Global as GlobalTy, Heap, Memory, RefTy, Shape, Table,
};

/// Returns the same, with an error of this crate.
pub(crate) fn pushed(outcome: Result<(), AllocError>) -> Result<(), Refused> {
    match outcome {
        Ok(()) => Ok(()),
        Err(_) => Err(Refused),
    }
}

/// Returns an empty context.
pub(crate) fn empty(alloc: Global) -> Context {
    Context {
        types: Seq::new(alloc),
        funcs: Seq::new(alloc),
        tables: Seq::new(alloc),
        memories: Seq::new(alloc),
        globals: Seq::new(alloc),
        elems: Seq::new(alloc),
        datas: 0,
        declared: Seq::new(alloc),
        locals: Seq::new(alloc),
        params: 0,
    }
}

/// Adds the items of a field. Returns `false` if one of their types is not covered.
pub(crate) fn add_field(
    alloc: Global,
    cs: &[u32],
    c: &mut Context,
    field: &ModuleField,
) -> Result<bool, Refused> {
    match field {
        ModuleField::Ty(ty) => add_type(alloc, cs, c, &ty.def),
        ModuleField::Rec(rec) => {
            for ty in &rec.types {
                if !add_type(alloc, cs, c, &ty.def)? {
                    return Ok(false);
                }
            }
            Ok(true)
        }
        ModuleField::Import(imports) => add_imports(cs, c, &imports.items),
        ModuleField::Func(func) => add_func(cs, c, &func.ty),
        ModuleField::Table(table) => match &table.kind {
            TableKind::Import { ty, .. } | TableKind::Normal { ty, .. } => {
                add_table(cs, c, &ty.elem, ty.limits.is64)
            }
            TableKind::Inline { elem, is64, .. } => add_table(cs, c, elem, *is64),
        },
        ModuleField::Memory(memory) => match &memory.kind {
            MemoryKind::Import { ty, .. } | MemoryKind::Normal(ty) => {
                add_memory(c, ty.limits.is64)
            }
            MemoryKind::Inline { is64, .. } => add_memory(c, *is64),
        },
        ModuleField::Global(global) => add_global(cs, c, &global.ty),
        ModuleField::Elem(elem) => add_elem(cs, c, elem),
        ModuleField::Data(_) => {
            c.datas = c.datas.saturating_add(1);
            Ok(true)
        }
        _ => Ok(true),
    }
}

fn add_imports(cs: &[u32], c: &mut Context, items: &ImportItems) -> Result<bool, Refused> {
    match items {
        ImportItems::Single { sig, .. } => add_import(cs, c, &sig.kind),
        ImportItems::Group1 { items, .. } => {
            for item in items {
                if !add_import(cs, c, &item.1.kind)? {
                    return Ok(false);
                }
            }
            Ok(true)
        }
        ImportItems::Group2 { sig, items, .. } => {
            for _item in items {
                if !add_import(cs, c, &sig.kind)? {
                    return Ok(false);
                }
            }
            Ok(true)
        }
    }
}

fn add_import(cs: &[u32], c: &mut Context, kind: &ItemKind) -> Result<bool, Refused> {
    match kind {
        ItemKind::Func(ty) => add_func(cs, c, ty),
        ItemKind::FuncExact(_) => Ok(false),
        ItemKind::Table(ty) => add_table(cs, c, &ty.elem, ty.limits.is64),
        ItemKind::Memory(ty) => add_memory(c, ty.limits.is64),
        ItemKind::Global(ty) => add_global(cs, c, ty),
        ItemKind::Tag(_) => Ok(true),
    }
}

fn add_func(cs: &[u32], c: &mut Context, ty: &TypeUse<FunctionType>) -> Result<bool, Refused> {
    match use_index(cs, ty) {
        None => Ok(false),
        Some(n) => {
            pushed(c.funcs.push(n))?;
            Ok(true)
        }
    }
}

fn add_table(cs: &[u32], c: &mut Context, elem: &RefType, is_64: bool) -> Result<bool, Refused> {
    match reference(cs, elem) {
        None => Ok(false),
        Some(elem) => {
            pushed(c.tables.push(Table { elem, is_64 }))?;
            Ok(true)
        }
    }
}

fn add_memory(c: &mut Context, is_64: bool) -> Result<bool, Refused> {
    pushed(c.memories.push(Memory { is_64 }))?;
    Ok(true)
}

fn add_global(cs: &[u32], c: &mut Context, ty: &GlobalType) -> Result<bool, Refused> {
    if ty.shared {
        return Ok(false);
    }
    match value(cs, &ty.ty) {
        None => Ok(false),
        Some(t) => {
            pushed(
                c.globals.push(GlobalTy {
                    ty: t,
                    mutable: ty.mutable,
                }),
            )?;
            Ok(true)
        }
    }
}

/// Adds an element segment. A list of function indices has the type `(ref func)`.
fn add_elem(cs: &[u32], c: &mut Context, elem: &Elem) -> Result<bool, Refused> {
    let ty = match &elem.payload {
        ElemPayload::Indices(_) => Some(RefTy {
            nullable: false,
            heap: Heap::Funcs,
        }),
        ElemPayload::Exprs { ty, .. } => reference(cs, ty),
    };
    match ty {
        None => Ok(false),
        Some(ty) => {
            pushed(c.elems.push(ty))?;
            Ok(true)
        }
    }
}

/// Adds a type. Returns `false` if it is not covered.
pub(crate) fn add_type(
    alloc: Global,
    cs: &[u32],
    c: &mut Context,
    def: &TypeDef,
) -> Result<bool, Refused> {
    if def.shared || def.parents.len() > 1 {
        return Ok(false);
    }
    match shape_for(alloc, cs, &def.kind)? {
        None => Ok(false),
        Some(shape) => {
            let parent = parent(cs, def.parents.as_slice());
            pushed(c.types.push(Def { shape, parent }))?;
            Ok(true)
        }
    }
}

fn parent(cs: &[u32], parents: &[Index]) -> Option<u32> {
    match parents {
        [] => None,
        [first, ..] => Some(type_index(cs, first)),
    }
}

fn shape_for(alloc: Global, cs: &[u32], kind: &InnerTypeKind) -> Result<Option<Shape>, Refused> {
    match kind {
        InnerTypeKind::Func(ty) => func_shape(alloc, cs, ty),
        InnerTypeKind::Struct(ty) => struct_shape(alloc, cs, ty),
        InnerTypeKind::Array(ty) => match field_for(cs, &ty.ty, ty.mutable) {
            None => Ok(None),
            Some(field) => Ok(Some(Shape::Array(field))),
        },
        InnerTypeKind::Cont(_) => Ok(None),
    }
}

fn func_shape(alloc: Global, cs: &[u32], ty: &FunctionType) -> Result<Option<Shape>, Refused> {
    let mut params = Seq::new(alloc);
    for param in &ty.params {
        match value(cs, &param.2) {
            None => return Ok(None),
            Some(t) => pushed(params.push(t))?,
        }
    }
    let mut results = Seq::new(alloc);
    for ty in &ty.results {
        match value(cs, ty) {
            None => return Ok(None),
            Some(t) => pushed(results.push(t))?,
        }
    }
    Ok(Some(Shape::Func(FuncTy { params, results })))
}

fn struct_shape(alloc: Global, cs: &[u32], ty: &StructType) -> Result<Option<Shape>, Refused> {
    let mut fields = Seq::new(alloc);
    for item in &ty.fields {
        match field_for(cs, &item.ty, item.mutable) {
            None => return Ok(None),
            Some(field) => pushed(fields.push(field))?,
        }
    }
    Ok(Some(Shape::Record(fields)))
}

/// Returns the type of a field, unless it is packed.
fn field_for(cs: &[u32], ty: &StorageType, mutable: bool) -> Option<Field> {
    match ty {
        StorageType::I8 | StorageType::I16 => None,
        StorageType::Val(ty) => match value(cs, ty) {
            None => None,
            Some(t) => Some(Field {
                ty: t,
                packed: false,
                mutable,
            }),
        },
    }
}
