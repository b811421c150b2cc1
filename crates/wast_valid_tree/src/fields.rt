//! The first invalid function of a module.

use crate::bodies::first_violation_of;
use crate::contexts::{add_field, empty, pushed};
use crate::declared::{declare_field, declare_none};
use crate::groups::canonical_indices;
use crate::values::{use_index, value};
use std::alloc::Global;
use wast_base::Seq;
use wast_tree_nodes::{Func, FuncKind, Local, ModuleField};
use wast_valid::{Refused, Violation};
use wast_valid_machine::{Cause, Context, Shape, Sig, Stop, check_ty};

/// The first violation of a module.
#[derive(Clone, Copy)]
pub struct Invalid {
    /// The number of the field that is invalid.
    pub field: usize,
    /// The number of the instruction of its body, from 0. The end of the body counts as one more.
    pub instr: usize,
    /// Why it is invalid, or [`Cause::Unsupported`] if the validator does not cover it.
    pub cause: Cause,
}

/// Returns the first function body that is invalid, or `None` if all are valid (validation:
/// functions).
///
/// The fields are those of a resolved module. Only bodies of functions are validated so far.
pub fn first_invalid(alloc: Global, fields: &[ModuleField]) -> Result<Option<Invalid>, Refused> {
    let (cs, is_covered) = match canonical_indices(alloc, fields)? {
        Some(cs) => (cs, true),
        None => (Seq::new(alloc), false),
    };
    first_in_fields(alloc, fields, cs.as_slice(), is_covered)
}

/// Returns the first function body that is invalid, given the canonical index of each type, and
/// whether all types are covered.
fn first_in_fields(
    alloc: Global,
    fields: &[ModuleField],
    cs: &[u32],
    are_types_covered: bool,
) -> Result<Option<Invalid>, Refused> {
    let mut c = empty(alloc);
    let mut is_covered = are_types_covered;
    for field in fields {
        if !add_field(alloc, cs, &mut c, field)? {
            is_covered = false;
        }
    }
    declare_none(&mut c)?;
    for field in fields {
        declare_field(&mut c.declared, field);
    }
    for k in 0..fields.len() {
        if let ModuleField::Func(func) = &fields[k] {
            match first_in_func(alloc, cs, is_covered, &mut c, func)? {
                None => {}
                Some(violation) => {
                    return Ok(Some(Invalid {
                        field: k,
                        instr: violation.instr,
                        cause: violation.cause,
                    }));
                }
            }
        }
    }
    Ok(None)
}

/// Returns the first violation of a function.
fn first_in_func(
    alloc: Global,
    cs: &[u32],
    is_covered: bool,
    c: &mut Context,
    func: &Func,
) -> Result<Option<Violation>, Refused> {
    match &func.kind {
        FuncKind::Import(_, _) => Ok(None),
        FuncKind::Inline { locals, expression } => {
            if !is_covered {
                return Ok(Some(unsupported()));
            }
            match use_index(cs, &func.ty) {
                None => Ok(Some(unsupported())),
                Some(n) => {
                    if let Some(violation) = set_locals(alloc, cs, c, n, locals.as_slice())? {
                        return Ok(Some(violation));
                    }
                    first_violation_of(alloc, cs, c, Sig::Func(n), expression.instrs.as_slice())
                }
            }
        }
    }
}

/// Returns the violation of what the validator does not cover.
fn unsupported() -> Violation {
    Violation {
        instr: 0,
        cause: Cause::Unsupported,
    }
}

/// Sets the parameters and locals of a function. Returns a violation if one has no type.
fn set_locals(
    alloc: Global,
    cs: &[u32],
    c: &mut Context,
    n: u32,
    locals: &[Local],
) -> Result<Option<Violation>, Refused> {
    let mut tys = Seq::new(alloc);
    match c.types.as_slice().get(n as usize) {
        None => {
            return Ok(Some(Violation {
                instr: 0,
                cause: Cause::Type(n),
            }));
        }
        Some(def) => match &def.shape {
            Shape::Func(f) => {
                for param in &f.params {
                    pushed(tys.push(*param))?;
                }
            }
            _ => {
                return Ok(Some(Violation {
                    instr: 0,
                    cause: Cause::NotFunc(n),
                }));
            }
        },
    }
    let params = tys.len();
    for local in locals {
        match value(cs, &local.ty) {
            None => return Ok(Some(unsupported())),
            Some(t) => {
                if let Err(Stop::Invalid(cause)) = check_ty(c.types.as_slice(), t) {
                    return Ok(Some(Violation { instr: 0, cause }));
                }
                pushed(tys.push(t))?;
            }
        }
    }
    c.locals = tys;
    c.params = params;
    Ok(None)
}
