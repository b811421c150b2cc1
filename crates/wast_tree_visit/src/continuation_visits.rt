//! Visits of the immediates of stack switching instructions.
#![tactic(auto, using(crate::proofs::Visiting::visits_both, crate::proofs::Visiting::visits_one, crate::proofs::Visiting::visits_none, wast_tree_nodes::proofs::Asking::asked_asking, wast_tree_nodes::proofs::Asking::asked_both, crate::proofs::Visiting::asked_handlers))]

ghost use Rattle.std.specs.Prelude.{◌++◌, []};
ghost use Rattle.wast_tree_visit.specs.Tree.form;
ghost use Rattle.wast_tree_visit.specs.Tree.space;
ghost use Rattle.wast_tree_nodes.specs.Sites.{in_pair, in_handle, in_handlers, at_index, check_sites, uncovered_check, checks_of};

use crate::visits::{Visit, Visitor};
use wast_base::{Form, Space};
use wast_tree_nodes::{ContBind, Handle, Resume, ResumeTable, ResumeThrow, ResumeThrowRef, Switch};

impl Visit for ContBind<'_> {
    ghost asks = { λ a. in_pair space.Ty a.argument_index space.Ty a.result_index ++ uncovered_check form.StackSwitching };

    fn visit<V: Visitor>(&self, visitor: &mut V) {
        visitor.index(Space::Ty, &self.argument_index);
        visitor.index(Space::Ty, &self.result_index);
        visitor.covered(Form::StackSwitching, false);
    }
}

impl Visit for Switch<'_> {
    ghost asks = { λ a. in_pair space.Ty a.type_index space.Tag a.tag_index ++ uncovered_check form.StackSwitching };

    fn visit<V: Visitor>(&self, visitor: &mut V) {
        visitor.index(Space::Ty, &self.type_index);
        visitor.index(Space::Tag, &self.tag_index);
        visitor.covered(Form::StackSwitching, false);
    }
}

impl Visit for Handle<'_> {
    ghost asks = { λ h. checks_of (in_handle [] h) };

    fn visit<V: Visitor>(&self, visitor: &mut V) {
        match self {
            Handle::OnLabel { tag, label } => {
                visitor.index(Space::Tag, tag);
                visitor.within(label);
            }
            Handle::OnSwitch { tag } => visitor.index(Space::Tag, tag),
        }
    }
}

impl Visit for ResumeTable<'_> {
    ghost asks = { λ t. checks_of (in_handlers [] t) };

    fn visit<V: Visitor>(&self, visitor: &mut V) {
        self.handlers.visit(visitor);
        visitor.covered(Form::StackSwitching, false);
    }
}

impl Visit for Resume<'_> {
    ghost asks = { λ a. checks_of (at_index space.Ty a.type_index ++ in_handlers [] a.table) };

    fn visit<V: Visitor>(&self, visitor: &mut V) {
        visitor.index(Space::Ty, &self.type_index);
        self.table.visit(visitor);
    }
}

impl Visit for ResumeThrow<'_> {
    ghost asks = { λ a. checks_of (check_sites (in_pair space.Ty a.type_index space.Tag a.tag_index) ++ in_handlers [] a.table) };

    fn visit<V: Visitor>(&self, visitor: &mut V) {
        visitor.index(Space::Ty, &self.type_index);
        visitor.index(Space::Tag, &self.tag_index);
        self.table.visit(visitor);
    }
}

impl Visit for ResumeThrowRef<'_> {
    ghost asks = { λ a. checks_of (at_index space.Ty a.type_index ++ in_handlers [] a.table) };

    fn visit<V: Visitor>(&self, visitor: &mut V) {
        visitor.index(Space::Ty, &self.type_index);
        self.table.visit(visitor);
    }
}
