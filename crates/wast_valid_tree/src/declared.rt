//! Functions that occur outside of bodies, so that `ref.func` may refer to them (validation:
//! modules).

use crate::contexts::pushed;
use crate::values::number;
use wast_base::{Index, Seq};
use wast_tree_nodes::{
    Elem, ElemKind, ElemPayload, ExportKind, Expression, GlobalKind, Instruction, ModuleField,
    TableKind,
};
use wast_valid::Refused;
use wast_valid_machine::Context;

/// Fills the list of declared functions, with none of them.
pub(crate) fn declare_none(c: &mut Context) -> Result<(), Refused> {
    for _i in 0..c.funcs.len() {
        pushed(c.declared.push(false))?;
    }
    Ok(())
}

fn declare(declared: &mut Seq<bool>, func: &Index) {
    let n = number(func) as usize;
    if n < declared.len() {
        *declared.at_mut(n) = true;
    }
}

fn declare_in(declared: &mut Seq<bool>, e: &Expression) {
    for instruction in &e.instrs {
        if let Instruction::ref_func(func) = instruction {
            declare(declared, func);
        }
    }
}

/// Declares the functions that occur in a field, outside of bodies and of `start`.
pub(crate) fn declare_field(declared: &mut Seq<bool>, field: &ModuleField) {
    match field {
        ModuleField::Global(global) => {
            if let GlobalKind::Inline(e) = &global.kind {
                declare_in(declared, e);
            }
        }
        ModuleField::Table(table) => {
            if let TableKind::Normal { init_expr, .. } = &table.kind {
                if let Some(e) = init_expr {
                    declare_in(declared, e);
                }
            }
        }
        ModuleField::Elem(elem) => declare_elem(declared, elem),
        ModuleField::Export(export) => {
            if let ExportKind::Func = export.kind {
                declare(declared, &export.item);
            }
        }
        _ => {}
    }
}

fn declare_elem(declared: &mut Seq<bool>, elem: &Elem) {
    if let ElemKind::Active { offset, .. } = &elem.kind {
        declare_in(declared, offset);
    }
    match &elem.payload {
        ElemPayload::Indices(funcs) => {
            for func in funcs {
                declare(declared, func);
            }
        }
        ElemPayload::Exprs { exprs, .. } => {
            for e in exprs {
                declare_in(declared, e);
            }
        }
    }
}
