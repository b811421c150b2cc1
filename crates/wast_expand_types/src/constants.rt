//! Resolves type uses in the constant expressions of tables, globals and segments.

ghost use Rattle.std.specs.Prelude.{option_map};
ghost use Rattle.wast_tree_nodes.specs.Sites.{if_there, in_constant, in_table_kind, in_global, in_global_kind, in_elem, in_elem_kind, in_payload, in_data_kind};
ghost use Rattle.wast_tree_map.specs.Mapped.{mapped_constant, mapped_table, mapped_table_kind, mapped_global, mapped_global_kind, mapped_elem, mapped_elem_kind, mapped_payload, mapped_data, mapped_data_kind};
ghost use Rattle.wast_expand_keys.specs.NeedingUses.{needed_in};
ghost use Rattle.wast_expand_keys.specs.Expanded.{binding_change};

use crate::binder::Binder;
use crate::binding::{Bind, bind_each};
use wast_base::Error;
use wast_tree_nodes::{
    Data, DataKind, Elem, ElemKind, ElemPayload, Expression, Global, GlobalKind, Table, TableKind,
};

impl<'a> Bind<'a> for Table<'a> {
    ghost needed = { λ t. needed_in (in_table_kind t.kind) };

    ghost bound = { λ find. mapped_table (binding_change find) };

    fn bind(&mut self, binder: &mut Binder<'a>) -> Result<(), Error<'a>> {
        self.kind.bind(binder)?;
        Ok(())
    }
}

impl<'a> Bind<'a> for TableKind<'a> {
    ghost needed = { λ k. needed_in (in_table_kind k) };

    ghost bound = { λ find. mapped_table_kind (binding_change find) };

    fn bind(&mut self, binder: &mut Binder<'a>) -> Result<(), Error<'a>> {
        match self {
            TableKind::Import { .. } => Ok(()),
            TableKind::Normal { init_expr, .. } => {
                init_expr.bind(binder)?;
                Ok(())
            }
            TableKind::Inline { payload, .. } => {
                payload.bind(binder)?;
                Ok(())
            }
        }
    }
}

impl<'a> Bind<'a> for Global<'a> {
    ghost needed = { λ g. needed_in (in_global g) };

    ghost bound = { λ find. mapped_global (binding_change find) };

    fn bind(&mut self, binder: &mut Binder<'a>) -> Result<(), Error<'a>> {
        self.kind.bind(binder)?;
        Ok(())
    }
}

impl<'a> Bind<'a> for GlobalKind<'a> {
    ghost needed = { λ k. needed_in (in_global_kind k) };

    ghost bound = { λ find. mapped_global_kind (binding_change find) };

    fn bind(&mut self, binder: &mut Binder<'a>) -> Result<(), Error<'a>> {
        match self {
            GlobalKind::Import(_) => Ok(()),
            GlobalKind::Inline(value) => {
                value.bind(binder)?;
                Ok(())
            }
        }
    }
}

impl<'a> Bind<'a> for Elem<'a> {
    ghost needed = { λ e. needed_in (in_elem e) };

    ghost bound = { λ find. mapped_elem (binding_change find) };

    fn bind(&mut self, binder: &mut Binder<'a>) -> Result<(), Error<'a>> {
        self.kind.bind(binder)?;
        self.payload.bind(binder)?;
        Ok(())
    }
}

impl<'a> Bind<'a> for ElemKind<'a> {
    ghost needed = { λ k. needed_in (in_elem_kind k) };

    ghost bound = { λ find. mapped_elem_kind (binding_change find) };

    fn bind(&mut self, binder: &mut Binder<'a>) -> Result<(), Error<'a>> {
        match self {
            ElemKind::Passive => Ok(()),
            ElemKind::Declared => Ok(()),
            ElemKind::Active { offset, .. } => {
                offset.bind(binder)?;
                Ok(())
            }
        }
    }
}

impl<'a> Bind<'a> for ElemPayload<'a> {
    ghost needed = { λ p. needed_in (in_payload p) };

    ghost bound = { λ find. mapped_payload (binding_change find) };

    fn bind(&mut self, binder: &mut Binder<'a>) -> Result<(), Error<'a>> {
        match self {
            ElemPayload::Indices(_) => Ok(()),
            ElemPayload::Exprs { exprs, .. } => {
                bind_each(exprs, binder)?;
                Ok(())
            }
        }
    }
}

impl<'a> Bind<'a> for Data<'a> {
    ghost needed = { λ d. needed_in (in_data_kind d.kind) };

    ghost bound = { λ find. mapped_data (binding_change find) };

    fn bind(&mut self, binder: &mut Binder<'a>) -> Result<(), Error<'a>> {
        self.kind.bind(binder)?;
        Ok(())
    }
}

impl<'a> Bind<'a> for DataKind<'a> {
    ghost needed = { λ k. needed_in (in_data_kind k) };

    ghost bound = { λ find. mapped_data_kind (binding_change find) };

    fn bind(&mut self, binder: &mut Binder<'a>) -> Result<(), Error<'a>> {
        match self {
            DataKind::Passive => Ok(()),
            DataKind::Active { offset, .. } => {
                offset.bind(binder)?;
                Ok(())
            }
        }
    }
}

impl<'a> Bind<'a> for Option<Expression<'a>> {
    ghost needed = { if_there (λ e. needed_in (in_constant e)) };

    ghost bound = { λ find o. option_map (mapped_constant (binding_change find)) o };

    fn bind(&mut self, binder: &mut Binder<'a>) -> Result<(), Error<'a>> {
        match self {
            None => Ok(()),
            Some(expression) => {
                expression.bind(binder)?;
                Ok(())
            }
        }
    }
}
