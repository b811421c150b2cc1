//! A user-defined resolver of the indices in types, inline types that match a type of a module, and
//! errors before resolving.

ghost use Rattle.std.specs.Prelude.{⊤};

use std::alloc::Global;
use std::process::Abort;
use wast_resolve::names::TypeReference;
use wast_resolve::{
    ResolveCoreType, Resolver, early_fault, names, resolve_heaptype, resolve_reftype,
    resolve_storagetype, resolve_valtype,
};
use wast_tree::{
    Error, Fault, Func, FuncKind, FunctionType, HeapType, Id, Index, InlineExport, InlineImport,
    ModuleField, RefType, Seq, Span, StorageType, TreeBuilder, Type, TypeDef, TypeUse, ValType,
    discard_fields, discard_function_type,
};

fn at(offset: usize) -> Span {
    Span { offset }
}

/// Returns the numbers from `next` on, and an error at `end`.
#[derive(Drop)]
struct Counted {
    next: u32,
    end: u32,
}

impl<'a> ResolveCoreType<'a> for Counted {
    ghost needs = { λ counted i. ⊤ };

    ghost called = { λ old i new j result. ⊤ };

    fn resolve_type_name(&mut self, name: &mut Index<'a>) -> Result<u32, Error<'a>> {
        if self.next >= self.end {
            return Err(no_more(name.span()));
        }
        let number = self.next;
        *name = Index::Num(number, name.span());
        self.next = number + 1;
        Ok(number)
    }
}

fn no_more(span: Span) -> Error<'static> {
    Error::new(span, Fault::Unknown("type", "x"))
}

fn x_at(offset: usize) -> Index<'static> {
    Index::Id(Id::new("x", at(offset)))
}

/// `(ref $x)`
fn ref_at(offset: usize) -> ValType<'static> {
    ValType::Ref(RefType {
        nullable: false,
        heap: HeapType::Concrete(x_at(offset)),
    })
}

/// Returns whether a type is a reference to the type with this number.
fn is_ref_to(ty: ValType<'_>, number: u32) -> bool {
    match ty {
        ValType::Ref(ty) => ty.heap == HeapType::Concrete(Index::Num(number, at(0))),
        _ => false,
    }
}

#[test]
fn type_parts_are_resolved_by_user_resolver(rt: HostRuntime) {
    let mut cx = Counted { next: 0, end: 4 };
    let mut heap = HeapType::Concrete(x_at(0));
    let mut reference = RefType {
        nullable: true,
        heap,
    };
    let mut value = ref_at(2);
    let mut storage = StorageType::Val(value);
    assert!(rt; resolve_heaptype(&mut cx, &mut heap) == Ok(()));
    assert!(rt; resolve_reftype(&mut cx, &mut reference) == Ok(()));
    assert!(rt; resolve_valtype(&mut cx, &mut value) == Ok(()));
    assert!(rt; resolve_storagetype(&mut cx, &mut storage) == Ok(()));
    assert!(rt; heap == HeapType::Concrete(Index::Num(0, at(0))));
    assert!(rt; reference.nullable && reference.heap == HeapType::Concrete(Index::Num(1, at(0))));
    assert!(rt; is_ref_to(value, 2));
    assert!(rt; matches!(storage, StorageType::Val(ty) if is_ref_to(ty, 3)));
    assert!(rt; resolve_storagetype(&mut cx, &mut StorageType::I8) == Ok(()));
    assert!(rt; resolve_valtype(&mut cx, &mut value) == Err(no_more(at(2))));
}

/// `(type (func ..))`
fn type_of<'a>(alloc: Global, function: FunctionType<'a>) -> ModuleField<'a> {
    ModuleField::Ty(Type::new(at(9), None, TypeDef::func(alloc, function)))
}

/// Returns the resolver of `(module (type (func)) (type (func (param i32))))`.
fn resolver<'a>(rt: &impl Abort, alloc: Global) -> Resolver<'a> {
    let mut maker = TreeBuilder::new(alloc);
    let takes = FunctionType::new(maker.params(&[(None, None, ValType::I32)]), Seq::new(alloc));
    let mut fields = Seq::new(alloc);
    maker.push_field(&mut fields, type_of(alloc, FunctionType::empty(alloc)));
    maker.push_field(&mut fields, type_of(alloc, takes));
    let fields = maker.finish(fields).expect(rt, "memory");
    let (fields, resolver) = names::resolve(alloc, fields).expect(rt, "memory");
    discard_fields(fields);
    resolver
}

#[test]
fn check_matches_reports_mismatch_and_unknown_type(rt: HostRuntime) {
    let alloc = rt.alloc();
    let cx = resolver(&rt, alloc);
    let mut function = FunctionType::empty(alloc);
    assert!(rt; names::TypeReference::resolve(&mut function, &cx) == Ok(()));
    assert!(rt; function.params.is_empty() && function.results.is_empty());
    for (number, answer) in [
        (0, Ok(())),
        (1, Err(Error::new(at(3), Fault::NoMatch))),
        (2, Err(Error::new(at(3), Fault::OutOfBounds))),
    ] {
        let idx = Index::Num(number, at(3));
        assert!(rt;
            function.check_matches(&idx, &cx) == answer,
            "type {number}"
        );
    }
    discard_function_type(function);
}

/// `(func $a)`, with its keyword and its id at these offsets
fn defined<'a>(alloc: Global, keyword: usize, id: usize) -> ModuleField<'a> {
    let id = Some(Id::new("a", at(id)));
    ModuleField::Func(Func::new(
        alloc,
        at(keyword),
        id,
        TypeUse::none(),
        Seq::new(alloc),
        Seq::new(alloc),
    ))
}

/// `(func $a (import "m" "n"))`
fn imported<'a>(alloc: Global, keyword: usize, id: usize) -> ModuleField<'a> {
    let source = InlineImport {
        module: "m",
        field: "n",
    };
    ModuleField::Func(Func {
        span: at(keyword),
        id: Some(Id::new("a", at(id))),
        name: None,
        exports: InlineExport::none(alloc),
        kind: FuncKind::Import(source, false),
        ty: TypeUse::none(),
    })
}

/// Returns the result of `early_fault` for two fields.
fn told<'a>(
    rt: &impl Abort,
    alloc: Global,
    first: ModuleField<'a>,
    second: ModuleField<'a>,
) -> Result<(), Error<'a>> {
    let mut maker = TreeBuilder::new(alloc);
    let mut fields = Seq::new(alloc);
    maker.push_field(&mut fields, first);
    maker.push_field(&mut fields, second);
    let fields = maker.finish(fields).expect(rt, "memory");
    let told = early_fault(alloc, fields.as_slice());
    discard_fields(fields);
    told
}

#[test]
fn early_fault_reports_late_import_and_duplicate_id(rt: HostRuntime) {
    let alloc = rt.alloc();
    let late = told(&rt, alloc, defined(alloc, 9, 14), imported(alloc, 19, 24));
    assert!(rt; late == Err(Error::new(at(19), Fault::ImportAfter("function"))));
    let twice = told(&rt, alloc, imported(alloc, 9, 14), defined(alloc, 35, 40));
    assert!(rt; twice == Err(Error::new(at(40), Fault::Duplicate("func"))));
    let start = ModuleField::Start(Index::Id(Id::new("b", at(42))));
    assert!(rt; told(&rt, alloc, imported(alloc, 9, 14), start) == Ok(()));
}
