//! Callers of calls that require something, which see to it before.

use std::alloc::Global;
use wast_core::{EncodeOptions, Module, ModuleKind, Wat};
use wast_resolve::{Namespace, discard_names};
use wast_rows::add_start;
use wast_tree::{Error, Gensym, Id, Imports, Index, Span};

/// Adds an item to a namespace, and returns its index, or `None` if the namespace is full.
pub fn register<'a>(
    space: &mut Namespace<'a>,
    id: Option<Id<'a>>,
) -> Option<Result<u32, Error<'a>>> {
    match space.is_full() {
        true => None,
        false => Some(space.register(id, "func")),
    }
}

/// Sets the position of a signature of imports, and returns whether there is such a signature.
pub fn move_signature(imports: &mut Imports<'_>, number: usize, span: Span) -> bool {
    let is_there = number < imports.unique_sigs();
    if is_there {
        imports.unique_sig_mut(number).span = span;
    }
    is_there
}

/// Encodes the module of a text, or returns `None` if it cannot be resolved.
pub fn encode<'a>(
    alloc: Global,
    wat: &mut Wat<'a>,
    gensym: &mut Gensym,
) -> Option<Result<Vec<u8>, Error<'a>>> {
    let is_ready = match wat {
        Wat::Module(module) => module.check(gensym).is_ok(),
        Wat::Component(_) => true,
    };
    match is_ready {
        true => Some(EncodeOptions::new().encode_wat(alloc, wat, gensym)),
        false => None,
    }
}

/// Resolves a module and appends its bytes. Returns whether it is one of fields that can be resolved.
pub fn put<'a>(
    alloc: Global,
    module: &mut Module<'a>,
    gensym: &mut Gensym,
    out: &mut Vec<u8>,
) -> Result<bool, Error<'a>> {
    if module.check(gensym).is_err() {
        return Ok(false);
    }
    match module.resolve(alloc, gensym) {
        Ok(names) => discard_names(names),
        Err(error) => return Err(error),
    }
    match &module.kind {
        ModuleKind::Text(_) => EncodeOptions::new().put_module(module, out)?,
        ModuleKind::Binary(_) | ModuleKind::Refused(_) => return Ok(false),
    }
    Ok(true)
}

/// Encodes a module with a start function, or returns `None` if it cannot be resolved.
pub fn started<'a>(
    alloc: Global,
    module: &mut Module<'a>,
    gensym: &mut Gensym,
    function: u32,
) -> Option<Result<Vec<u8>, Error<'a>>> {
    if module.check(gensym).is_err() {
        return None;
    }
    let start = Index::Num(function, module.span);
    match &module.kind {
        ModuleKind::Binary(_) => None,
        ModuleKind::Text(_) | ModuleKind::Refused(_) => Some(add_start(
            alloc, module, gensym, start,
        )),
    }
}
