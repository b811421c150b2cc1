//! Builds a module by hand, resolves it, looks up ids in it, and prints its bytes.
//!
//! It then builds the same module with an undefined id, and prints the error with its line and
//! column.
#![tactic(auto)]

ghost use Rattle.std.specs.Prelude.{◌≡◌, IfErr};
ghost use Rattle.wast_base.specs.Faults.{out_of_memory};
ghost use Rattle.wast_core.specs.Modules.{IsReady};

use std::alloc::Global;
use std::io;
use wast_core::{EncodeOptions, Module, ModuleKind, discard_module};
use wast_tree::Instruction::{
    Mem, Plain, end_, global_get, i32_const, local_get, local_tee, throw,
};
use wast_tree::ValType::I32;
use wast_tree::{
    BlockKind, BlockType, ElemPayload, Error, Func, Gensym, Global as GlobalField, GlobalType,
    I32Op, Id, Imports, Index, ItemKind, ItemSig, Local, MemArg, MemOp, Memory, ModuleField,
    Plain as Bare, RefType, Seq, Span, Table, Tag, TreeBuilder, Type, TypeDef, TypeUse,
    line_and_column,
};

/// The module as a text. The positions in the tree are offsets in it.
const TEXT: &str = "(module
  (type $reader (func (param i32 i32) (result i32)))
  (import \"host\" \"ready\" (func $ready))
  (table $calls funcref (elem $ready $read))
  (memory $bytes (data \"ready\"))
  (global $closed (mut i32) (i32.const 0))
  (tag $stop)
  (func $read (@name \"byte\") (export \"read\") (param $base i32) (param $index i32) (result i32)
    (local $address i32)
    global.get $closed if throw $stop end
    local.get $base local.get $index i32.add local.tee $address
    i32.load8_u $bytes offset=4)
  (start $ready))
";

fn at(offset: usize) -> Span {
    Span { offset }
}

fn id(name: &str, offset: usize) -> Option<Id<'_>> {
    Some(Id::new(name, at(offset)))
}

fn index(name: &str, offset: usize) -> Index<'_> {
    Index::Id(Id::new(name, at(offset)))
}

/// Returns `(func $read ..)`.
fn read<'a>(alloc: Global, make: &mut TreeBuilder) -> Func<'a> {
    let params = [(id("base", 288), None, I32), (id("index", 306), None, I32)];
    let ty = TypeUse::inline(make.function_type(&params, &[I32]));
    let locals = make.locals(&[Local::new(id("address", 342), I32)]);
    let byte = MemArg::new(index("bytes", 478), 1, 4);
    let mut body = Seq::new(alloc);
    make.push_instruction(&mut body, global_get(index("closed", 371)));
    make.push_block(&mut body, BlockKind::If, BlockType::empty());
    make.push_instruction(&mut body, throw(index("stop", 388)));
    make.push_instruction(&mut body, end_(None));
    make.push_instruction(&mut body, local_get(index("base", 412)));
    make.push_instruction(&mut body, local_get(index("index", 428)));
    make.push_instruction(&mut body, Plain(Bare::I32(I32Op::i32_add)));
    make.push_instruction(&mut body, local_tee(index("address", 453)));
    make.push_instruction(&mut body, Mem(MemOp::i32_load8_u, byte));
    let func = Func::new(alloc, at(239), id("read", 244), ty, locals, body);
    let names: [&'a str; 1] = ["read"];
    func.with_name("byte").with_exports(make.exports(&names))
}

/// Returns the fields of the module, whose start function has this name.
fn fields<'a>(alloc: Global, start: &'a str) -> Result<Seq<ModuleField<'a>>, Error<'a>>
    ensures { IfErr result (λ e. e ≡ out_of_memory) }
{
    let (mut make, mut fields) = (TreeBuilder::new(alloc), Seq::new(alloc));
    let ty = make.function_type(&[(None, None, I32); 2], &[I32]);
    let ty = Type::new(at(11), id("reader", 16), TypeDef::func(alloc, ty));
    make.push_field(&mut fields, ModuleField::Ty(ty));
    let ready = ItemSig::new(at(87), id("ready", 92), ItemKind::Func(TypeUse::none()));
    let ready = Imports::single(at(64), "host", "ready", ready);
    make.push_field(&mut fields, ModuleField::Import(ready));
    let elems = ElemPayload::Indices(make.indices(&[index("ready", 131), index("read", 138)]));
    let calls = Table::inline(alloc, at(104), id("calls", 110), RefType::funcref(), elems);
    make.push_field(&mut fields, ModuleField::Table(calls));
    let bytes = Memory::inline(alloc, at(149), id("bytes", 156), make.string(b"ready"));
    make.push_field(&mut fields, ModuleField::Memory(bytes));
    let zero = make.one_instruction(i32_const(0));
    let ty = GlobalType::new(I32, true);
    let closed = GlobalField::new(alloc, at(182), id("closed", 189), ty, zero);
    make.push_field(&mut fields, ModuleField::Global(closed));
    let stop = Tag::new(alloc, at(225), id("stop", 229), TypeUse::none());
    make.push_field(&mut fields, ModuleField::Tag(stop));
    let read = read(alloc, &mut make);
    make.push_field(&mut fields, ModuleField::Func(read));
    make.push_field(&mut fields, ModuleField::Start(index(start, 504)));
    make.finish(fields)
}

/// Indices that the names of the module return.
#[derive(Clone, Copy)]
struct Numbers<'a> {
    read: Index<'a>,
    closed: Index<'a>,
    stop: Index<'a>,
    reader: Index<'a>,
}

/// Resolves the module, looks up a function, a global, a tag and a type, and encodes it.
fn encoded<'a>(
    alloc: Global,
    module: &mut Module<'a>,
    gensym: &mut Gensym,
) -> Result<(Numbers<'a>, Vec<u8>), Error<'a>>
    requires { IsReady «module».old gensym.old }
    ensures { IsReady «module».new gensym.new }
{
    let names = module.resolve(alloc, gensym)?;
    let mut read = Index::Id(Id::new("read", at(244)));
    let mut closed = Index::Id(Id::new("closed", at(189)));
    let mut stop = Index::Id(Id::new("stop", at(229)));
    let mut reader = Index::Id(Id::new("reader", at(16)));
    names.resolve_func(&mut read)?;
    names.resolve_global(&mut closed)?;
    names.resolve_tag(&mut stop)?;
    names.resolve_type(&mut reader)?;
    let numbers = Numbers {
        read,
        closed,
        stop,
        reader,
    };
    let bytes = EncodeOptions::new().encode_module(alloc, module, gensym)?;
    Ok((numbers, bytes))
}

/// Builds the module with this start function, and encodes it. Returns `None` if the module is not
/// well formed, or a counter at 1 is not past its ids.
fn made<'a>(alloc: Global, start: &'a str) -> Result<Option<(Numbers<'a>, Vec<u8>)>, Error<'a>> {
    let kind = ModuleKind::Text(fields(alloc, start)?);
    let mut module = Module {
        span: at(1),
        id: None,
        name: None,
        kind,
    };
    let mut gensym = Gensym::new(1);
    let is_ready = module.well_formed() && module.gensym_bound() < gensym.peek();
    let answer = match is_ready {
        true => encoded(alloc, &mut module, &mut gensym).map(Some),
        false => Ok(None),
    };
    discard_module(module);
    answer
}

/// Prints the result, or the error with its line and column in the text.
fn print_module(rt: &impl Print, alloc: Global, start: &str) -> io::Result<()> {
    match made(alloc, start) {
        Ok(Some((numbers, bytes))) => {
            println!(rt; "{}", hex::encode(alloc, bytes.as_slice())?)?;
            let Numbers { read, closed, .. } = numbers;
            println!(rt; "$read: {read:?}, $closed: {closed:?}")?;
            let Numbers { stop, reader, .. } = numbers;
            println!(rt; "$stop: {stop:?}, $reader: {reader:?}")
        }
        Ok(None) => println!(rt; "not ready"),
        Err(error) => match error.span() {
            Some(place) => {
                let (line, column) = line_and_column(TEXT, place);
                println!(rt; "{line}:{column}: {error}")
            }
            None => println!(rt; "{error}"),
        },
    }
}

fn main(rt: HostRuntime) -> io::Result<()> {
    print_module(&rt, rt.alloc(), "ready")?;
    print_module(&rt, rt.alloc(), "gone")
}
