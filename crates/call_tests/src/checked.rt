//! The calls that check a module first, on modules that are ready and on modules that are not.

use std::alloc::Global;
use std::process::Abort;
use wast_core::{CheckError, EncodeOptions, Module, ModuleKind, NotReady, discard_module};
use wast_resolve::discard_names;
use wast_rows::sample;
use wast_tree::{
    Error, Fault, Func, Gensym, IllFormed, Index, Instruction, MemArg, MemOp, ModuleField, Seq,
    Span, TreeBuilder, TypeUse,
};

const BYTES_OF_4: &str = "0061736d0100000001040160000003020100070501016100000a040102000b";

fn at(offset: usize) -> Span {
    Span { offset }
}

/// Returns a module without an id.
fn module(kind: ModuleKind<'_>) -> Module<'_> {
    Module {
        span: at(1),
        id: None,
        name: None,
        kind,
    }
}

/// Returns the module of a row.
fn row<'a>(rt: &impl Abort, alloc: Global, n: u32) -> Module<'a> {
    let made = sample(alloc, n).expect(rt, "there is such a row");
    made.expect(rt, "memory")
}

/// Encodes any module with a counter at 1, and drops it.
fn bytes_of<'a>(alloc: Global, mut module: Module<'a>) -> Result<Vec<u8>, CheckError<'a>> {
    let mut gensym = Gensym::new(1);
    let answer = EncodeOptions::new().check_and_encode(alloc, &mut module, &mut gensym);
    discard_module(module);
    answer
}

/// Returns `(module (func i32.load))`, whose load has the alignment 3.
fn misaligned<'a>(alloc: Global) -> Result<Module<'a>, Error<'a>> {
    let (mut maker, mut fields) = (TreeBuilder::new(alloc), Seq::new(alloc));
    let mut body = Seq::new(alloc);
    let access = MemArg::new(Index::Num(0, at(23)), 3, 0);
    maker.push_instruction(&mut body, Instruction::Mem(MemOp::i32_load, access));
    let none = TypeUse::none();
    let func = Func::new(alloc, at(9), None, none, Seq::new(alloc), body);
    maker.push_field(&mut fields, ModuleField::Func(func));
    match maker.finish(fields) {
        Ok(fields) => Ok(module(ModuleKind::Text(fields))),
        Err(refused) => Err(refused),
    }
}

#[test]
fn checked_calls_return_results_of_unchecked_calls(rt: HostRuntime) {
    let alloc = rt.alloc();
    let bytes = bytes_of(alloc, row(&rt, alloc, 4)).expect(&rt, "memory");
    let text = hex::encode(alloc, bytes.as_slice()).expect(&rt, "memory");
    assert!(rt; text.as_str() == BYTES_OF_4, "{text}");
    let mut made = row(&rt, alloc, 4);
    let mut gensym = Gensym::new(1);
    assert!(rt; made.check(&gensym).is_ok());
    let names = made.check_and_resolve(alloc, &mut gensym);
    discard_names(names.expect(&rt, "memory"));
    assert!(rt; gensym.peek() == 3);
    discard_module(made);
    let component = Error::refusal(Fault::Component);
    let mut failed = module(ModuleKind::Refused(component));
    let error = failed.check_and_resolve(alloc, &mut gensym).err();
    assert!(rt; error == Some(CheckError::from(component)));
    assert!(rt; bytes_of(alloc, failed).err() == error);
}

#[test]
fn modules_that_are_not_ready_do_not_change(rt: HostRuntime) {
    let alloc = rt.alloc();
    let mut wrong = misaligned(alloc).expect(&rt, "memory");
    let rule = IllFormed {
        clause: 1,
        span: at(23),
    };
    let found = CheckError::NotReady(NotReady::IllFormed(rule));
    let mut gensym = Gensym::new(7);
    let error = wrong.check_and_resolve(alloc, &mut gensym).err();
    assert!(rt; error == Some(found) && found.span() == Some(at(23)));
    assert!(rt; bytes_of(alloc, wrong).err() == Some(found));
    let text = format!(in alloc; "{found}").expect(&rt, "memory");
    assert!(rt; text.as_str() == "alignment must be a power of two");
    let mut named = row(&rt, alloc, 4);
    named.id = gensym.generate(at(8)).ok();
    assert!(rt; named.check(&gensym).is_ok());
    let low = NotReady::CounterTooLow(7);
    assert!(rt; named.check(&Gensym::new(7)).err() == Some(low) && low.span().is_none());
    assert!(rt; bytes_of(alloc, named).err() == Some(CheckError::NotReady(low)));
}
