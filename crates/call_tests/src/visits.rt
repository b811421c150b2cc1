//! A user-defined visitor of the parts of fields other than their items.

use wast_tree::{
    Custom, Dylink0, Dylink0Subsection, Form, Func, Id, Index, Instruction, ModuleField, Seq,
    Space, Span, TreeBuilder, TypeUse, Visitor, discard_fields, visit_fields,
};

fn at(offset: usize) -> Span {
    Span { offset }
}

/// The calls of the visitor as digits, one for each.
#[derive(Drop)]
struct Digits {
    told: u64,
}

impl Digits {
    fn tell(&mut self, digit: u64) {
        self.told = self.told.saturating_mul(10).saturating_add(digit);
    }
}

impl Visitor for Digits {
    ghost told = { λ old x new. Unit {0} };

    fn index(&mut self, _space: Space, index: &Index<'_>) {
        self.tell(if index.is_resolved() { 1 } else { 2 });
    }

    fn within(&mut self, _index: &Index<'_>) {
        self.tell(3);
    }

    fn id(&mut self, _id: &Id<'_>) {
        self.tell(4);
    }

    fn clause(&mut self, _number: u8, holds: bool) {
        self.tell(if holds { 5 } else { 6 });
    }

    fn covered(&mut self, _form: Form, holds: bool) {
        self.tell(if holds { 7 } else { 8 });
    }
}

/// Returns the digits for these fields. The list is borrowed mutably, because with a shared borrow
/// the prover would compare the whole tree with itself.
fn told_of(fields: &mut Seq<ModuleField>) -> u64 {
    let mut digits = Digits { told: 0 };
    visit_fields(fields.as_slice(), &mut digits);
    digits.told
}

#[test]
fn visitor_calls_are_in_field_order(rt: HostRuntime) {
    let alloc = rt.alloc();
    let mut maker = TreeBuilder::new(alloc);
    let mut fields = Seq::new(alloc);
    // (start $f)
    let start = Index::Id(Id::new("f", at(9)));
    maker.push_field(&mut fields, ModuleField::Start(start));
    // (func (type 0) call $f local.get 0)
    let mut body = Seq::new(alloc);
    let call = Instruction::call(Index::Id(Id::new("f", at(30))));
    maker.push_instruction(&mut body, call);
    let get = Instruction::local_get(Index::Num(0, at(40)));
    maker.push_instruction(&mut body, get);
    let uses = TypeUse::of(Index::Num(0, at(20)));
    let func = Func::new(alloc, at(15), None, uses, Seq::new(alloc), body);
    maker.push_field(&mut fields, ModuleField::Func(func));
    // (@dylink.0 (target-arch "a"))
    let mut subsections = Seq::new(alloc);
    maker.push_subsection(&mut subsections, Dylink0Subsection::TargetArch("a"));
    let info = Custom::Dylink0(Dylink0 { subsections });
    maker.push_field(&mut fields, ModuleField::Custom(info));
    let mut fields = maker.finish(fields).expect(&rt, "memory");
    let told = told_of(&mut fields);
    discard_fields(fields);
    // the start function; the type, the call, the local, and that there are no hints; the architecture
    assert!(rt; told == 212358, "{told}");
}
