//! Visits of fields other than types and functions.
#![tactic(auto, using(crate::proofs::Visiting::visits_both, crate::proofs::Visiting::visits_one, crate::proofs::Visiting::visits_none, wast_tree_nodes::proofs::Asking::asked_asking, wast_tree_nodes::proofs::Asking::asked_both, crate::proofs::Visiting::asked_use, crate::proofs::Visiting::asked_if, crate::proofs::Visiting::asked_index_if, crate::proofs::Visiting::asked_each, crate::proofs::Visiting::asked_indices))]

ghost use Rattle.wast_tree_nodes.specs.Sites.{in_index, in_table_type, in_global_type, in_tag_type, in_item_kind, in_sig, in_shared_id, in_import, in_table_kind, in_memory_kind, in_global_kind, in_global, exported_space, in_elem_kind, in_payload, in_elem, in_data_kind, in_subsection, in_custom, checks_of};
ghost use Rattle.wast_tree_visit.specs.Visits.{Visits};

use crate::clauses::{is_page_exponent, suits};
use crate::visits::{Visit, Visitor, visit_index, visit_indices};
use wast_base::{Form, Id, Space};
use wast_tree_nodes::{
    Custom, DataKind, Dylink0Subsection, Elem, ElemKind, ElemPayload, Export, Global, GlobalKind,
    GlobalType, ImportItems, ItemKind, ItemSig, MemoryKind, TableKind, TableType, TagType,
};

impl Visit for TableType<'_> {
    ghost asks = { in_table_type };

    fn visit<V: Visitor>(&self, visitor: &mut V) {
        self.elem.visit(visitor);
        visitor.covered(Form::Shared, !self.shared);
    }
}

impl Visit for GlobalType<'_> {
    ghost asks = { in_global_type };

    fn visit<V: Visitor>(&self, visitor: &mut V) {
        self.ty.visit(visitor);
        visitor.covered(Form::Shared, !self.shared);
    }
}

impl Visit for TagType<'_> {
    ghost asks = { λ t. checks_of (in_tag_type t) };

    fn visit<V: Visitor>(&self, visitor: &mut V) {
        match self {
            TagType::Exception(ty) => ty.visit(visitor),
        }
    }
}

impl Visit for ItemKind<'_> {
    ghost asks = { λ k. checks_of (in_item_kind k) };

    fn visit<V: Visitor>(&self, visitor: &mut V) {
        match self {
            ItemKind::Func(ty) => ty.visit(visitor),
            ItemKind::FuncExact(ty) => {
                ty.visit(visitor);
                visitor.covered(Form::Descriptor, false);
            }
            ItemKind::Table(ty) => ty.visit(visitor),
            ItemKind::Memory(_) => {}
            ItemKind::Global(ty) => ty.visit(visitor),
            ItemKind::Tag(ty) => ty.visit(visitor),
        }
    }
}

impl Visit for ItemSig<'_> {
    ghost asks = { λ s. checks_of (in_sig s) };

    fn visit<V: Visitor>(&self, visitor: &mut V) {
        self.kind.visit(visitor);
    }
}

impl<'a> Visit for (&'a str, ItemSig<'a>) {
    ghost asks = { λ p. checks_of (in_sig p.1) };

    fn visit<V: Visitor>(&self, visitor: &mut V) {
        self.1.visit(visitor);
    }
}

impl Visit for ImportItems<'_> {
    ghost asks = { λ i. checks_of (in_import i) };

    fn visit<V: Visitor>(&self, visitor: &mut V) {
        match self {
            ImportItems::Single { sig, .. } => sig.visit(visitor),
            ImportItems::Group1 { items, .. } => {
                items.visit(visitor);
                visitor.covered(Form::CompactImports, false);
            }
            ImportItems::Group2 { sig, items, .. } => {
                sig.visit(visitor);
                visit_shared_id(items.as_slice(), &sig.id, visitor);
                visitor.covered(Form::CompactImports, false);
            }
        }
    }
}

/// Visits the id of a signature that names share, if there is no name and so no item has the id.
#[tactic(auto, using(crate::proofs::Visiting::visits_none, crate::proofs::Visiting::shared_by_none, crate::proofs::Visiting::shared_by_some))]
fn visit_shared_id<V: Visitor>(names: &[&str], id: &Option<Id<'_>>, visitor: &mut V)
    ensures { Visits V.told visitor.old (in_shared_id names.now id.now) visitor.new }
{
    if names.is_empty() {
        id.visit(visitor);
    }
}

impl Visit for TableKind<'_> {
    ghost asks = { λ k. checks_of (in_table_kind k) };

    fn visit<V: Visitor>(&self, visitor: &mut V) {
        match self {
            TableKind::Import { ty, .. } => ty.visit(visitor),
            TableKind::Normal { ty, init_expr } => {
                ty.visit(visitor);
                init_expr.visit(visitor);
            }
            TableKind::Inline {
                elem,
                shared,
                payload,
                ..
            } => {
                elem.visit(visitor);
                payload.visit(visitor);
                visitor.covered(Form::Shared, !*shared);
            }
        }
    }
}

impl Visit for MemoryKind<'_> {
    ghost asks = { λ k. checks_of (in_memory_kind k) };

    fn visit<V: Visitor>(&self, visitor: &mut V) {
        match self {
            MemoryKind::Import { .. } => {}
            MemoryKind::Normal(_) => {}
            MemoryKind::Inline { page_size_log2, .. } => {
                visitor.clause(3, is_page_exponent(*page_size_log2))
            }
        }
    }
}

impl Visit for GlobalKind<'_> {
    ghost asks = { λ k. checks_of (in_global_kind k) };

    fn visit<V: Visitor>(&self, visitor: &mut V) {
        match self {
            GlobalKind::Import(_) => {}
            GlobalKind::Inline(value) => value.visit(visitor),
        }
    }
}

impl Visit for Global<'_> {
    ghost asks = { λ g. checks_of (in_global g) };

    fn visit<V: Visitor>(&self, visitor: &mut V) {
        self.ty.visit(visitor);
        self.kind.visit(visitor);
    }
}

impl Visit for Export<'_> {
    ghost asks = { λ e. in_index (exported_space e.kind) e.item };

    fn visit<V: Visitor>(&self, visitor: &mut V) {
        visitor.index(self.kind.space(), &self.item);
    }
}

impl Visit for ElemKind<'_> {
    ghost asks = { λ k. checks_of (in_elem_kind k) };

    fn visit<V: Visitor>(&self, visitor: &mut V) {
        match self {
            ElemKind::Passive => {}
            ElemKind::Declared => {}
            ElemKind::Active { table, offset } => {
                visit_index(Space::Table, table, visitor);
                offset.visit(visitor);
            }
        }
    }
}

impl Visit for ElemPayload<'_> {
    ghost asks = { λ p. checks_of (in_payload p) };

    #[tactic(auto, using(crate::proofs::Visiting::visits_both, crate::proofs::Visiting::asked_exprs, crate::proofs::Visiting::asked_indices))]
    fn visit<V: Visitor>(&self, visitor: &mut V) {
        match self {
            ElemPayload::Indices(indices) => {
                visit_indices(Space::Func, indices.as_slice(), visitor)
            }
            ElemPayload::Exprs { ty, exprs } => {
                exprs.visit(visitor);
                ty.visit(visitor);
            }
        }
    }
}

impl Visit for Elem<'_> {
    ghost asks = { λ e. checks_of (in_elem e) };

    fn visit<V: Visitor>(&self, visitor: &mut V) {
        self.kind.visit(visitor);
        self.payload.visit(visitor);
        visitor.clause(4, suits(&self.kind, &self.payload));
    }
}

impl Visit for DataKind<'_> {
    ghost asks = { λ k. checks_of (in_data_kind k) };

    fn visit<V: Visitor>(&self, visitor: &mut V) {
        match self {
            DataKind::Passive => {}
            DataKind::Active { memory, offset } => {
                visitor.index(Space::Memory, memory);
                offset.visit(visitor);
            }
        }
    }
}

impl Visit for Dylink0Subsection<'_> {
    ghost asks = { in_subsection };

    fn visit<V: Visitor>(&self, visitor: &mut V) {
        match self {
            Dylink0Subsection::MemInfo { .. } => {}
            Dylink0Subsection::Needed(_) => {}
            Dylink0Subsection::ExportInfo(_) => {}
            Dylink0Subsection::ImportInfo(_) => {}
            Dylink0Subsection::RuntimePath(_) => {}
            Dylink0Subsection::TargetArch(_) => visitor.covered(Form::TargetArch, false),
        }
    }
}

impl Visit for Custom<'_> {
    ghost asks = { λ c. checks_of (in_custom c) };

    fn visit<V: Visitor>(&self, visitor: &mut V) {
        match self {
            Custom::Raw(_) => {}
            Custom::Producers(_) => {}
            Custom::Dylink0(info) => info.subsections.visit(visitor),
        }
    }
}
