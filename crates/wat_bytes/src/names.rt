//! The ids of a text, their indices and their positions.

ghost use Rattle.std.specs.Prelude.{◌≡◌, IfErr};
ghost use Rattle.wast_base.specs.Ids.{Written};
ghost use Rattle.wast_resolve_names.specs.LookUps.{IsSettledFor};
ghost use Rattle.wast_resolve_names.specs.Resolvers.{known_to};
ghost use Rattle.wast_resolve_rules.specs.Resolved.{numbered_at};
ghost use Rattle.wast_core.specs.Headline.{ResolvesKind};
ghost use Rattle.wast_core.specs.Modules.{IsReady};
ghost use Rattle.wat_bytes.specs.Texts.{IsPlaced, OfText, OrUnready, module_of};
ghost use Rattle.wat_bytes.specs.Names.{ListsModule, ListsReady, ListsText, NumbersModule, NumbersText, ResolvesModule, ResolvesReady};

use crate::laws::bare_laws;
use crate::lister;
use crate::modules::{is_ready, module_of, read_text, release, unready};
use crate::refusals::Refused;
use std::alloc::Global;
use wast_core::{Module, discard_module};
use wast_resolve::{Names, discard_names};
use wast_tree::{Error, Gensym, Id, Index, Space, Span};
use wat_text::{Strings, TextModule};

/// An id of a text with its index space, its index and its position (text format: identifiers,
/// indices).
///
/// # Example
///
///     for (denoted, (space, name, number, offset)) in names.iter().zip(&told) {
///         assert!(rt; denoted.space.is(*space) && denoted.id.name() == *name);
///         assert!(rt; denoted.number == *number && denoted.id.span().offset == *offset);
///     }
#[derive(Clone, Copy, Debug, PartialEq, Eq)]
pub struct Denoted<'a> {
    /// The index space.
    pub space: Space,
    /// The id, with its position.
    pub id: Id<'a>,
    /// The index of the item with this id.
    pub number: u32,
}

/// Resolves a module that may be resolved with a counter at 1, and returns its names.
fn resolved<'a>(alloc: Global, module: &mut Module<'a>) -> Result<Names<'a>, Error<'a>>
    requires ready { IsReady «module».old 1 }
    ensures answer { ResolvesReady «module».old result }
    ensures left { ResolvesKind 1 «module».old.kind result «module».new.kind }
{
    let mut gensym = Gensym::new(1);
    module.resolve(alloc, &mut gensym)
}

/// Does what [`resolved`] does, with an error of this crate.
fn names_known<'a>(alloc: Global, module: &mut Module<'a>) -> Result<Names<'a>, Refused<'a>>
    requires ready { IsReady «module».old 1 }
    ensures { ResolvesModule «module».old result }
{
    match resolved(alloc, module) {
        Ok(names) => Ok(names),
        Err(error) => Err(Refused::Module(error)),
    }
}

/// Resolves a module that may be resolved with a counter at 1, and returns its source ids.
fn listed<'a>(alloc: Global, module: &mut Module<'a>) -> Result<Vec<Denoted<'a>>, Error<'a>>
    requires ready { IsReady «module».old 1 }
    ensures { ListsReady «module».old result }
{
    match resolved(alloc, module) {
        Ok(names) => {
            discard_names(names);
            lister::of_module(alloc, module)
        }
        Err(error) => Err(error),
    }
}

/// Does what [`listed`] does, with an error of this crate.
fn all_listed<'a>(alloc: Global, module: &mut Module<'a>) -> Result<Vec<Denoted<'a>>, Refused<'a>>
    requires ready { IsReady «module».old 1 }
    ensures { ListsModule «module».old result }
{
    match listed(alloc, module) {
        Ok(all) => Ok(all),
        Err(error) => Err(Refused::Module(error)),
    }
}

/// Returns the source ids of a module, if it may be resolved with a counter at 1.
#[tactic(auto, using(crate::proofs::Asked::listed_asked))]
fn listed_if_ready<'a>(
    alloc: Global,
    module: &mut Module<'a>,
) -> Result<Vec<Denoted<'a>>, Refused<'a>>
    ensures { OrUnready ListsModule «module».old result }
{
    match is_ready(module) {
        true => all_listed(alloc, module),
        false => Err(Refused::Text(unready(module))),
    }
}

/// Resolves a parsed module that may be resolved, and returns its source ids. If `is_last` is true,
/// it is not freed.
fn names_in<'a>(
    alloc: Global,
    text: TextModule<'a>,
    is_last: bool,
) -> Result<Vec<Denoted<'a>>, Refused<'a>>
    requires ready { IsReady (module_of text) 1 }
    ensures { ListsText text.entry result }
{
    let mut module = module_of(text);
    let answer = all_listed(alloc, &mut module);
    release(module, is_last);
    answer
}

/// Resolves a parsed module, and returns each of its ids with its index and its position (text
/// format: identifiers, indices).
///
///     let module = read(rt.alloc(), text, &strings).expect(&rt, "a module");
///     assert!(rt; names_of(rt.alloc(), module).expect(&rt, "names").len() == 1);
///
/// The list is ordered by the index space, as [`Space::ALL`](wast_tree::Space::ALL) is, and then by
/// the index. Ids that resolving generates are not in it. For example, for
/// `(module (func) (func $f) (type $t (func)))` it has `$f` at 21, the function 1, and `$t` at 31,
/// the type 0.
///
/// # Errors
///
/// - [`Refused::Text`]: the module is not well formed, or has a generated id, as
///   [`encoded_text`](crate::encoded_text).
/// - [`Refused::Module`]: each error of `Module::resolve` of `wast_core`.
pub fn names_of<'a>(alloc: Global, text: TextModule<'a>) -> Result<Vec<Denoted<'a>>, Refused<'a>>
    ensures { OrUnready ListsModule (module_of text.entry) result }
{
    let mut module = module_of(text);
    let answer = listed_if_ready(alloc, &mut module);
    discard_module(module);
    answer
}

/// Does what [`names_of_text`] does. If `is_last` is true, the module is not freed.
fn list_names<'a>(
    alloc: Global,
    text: &'a str,
    strings: &'a Strings,
    is_last: bool,
) -> Result<Vec<Denoted<'a>>, Refused<'a>>
    ensures answer { OfText ListsText text.now result }
    ensures place { IfErr result (IsPlaced text.now) }
{
    bare_laws();
    match read_text(alloc, text, strings) {
        Ok(module) => names_in(alloc, module, is_last),
        Err(error) => Err(Refused::Text(error)),
    }
}

/// Parses a module in the text format, resolves it, and returns each of its ids with its index and
/// its position (text format: identifiers, indices). The order is that of [`names_of`].
///
///     let names = names_of_text(rt.alloc(), EACH_SPACE, &strings).expect(&rt, "names");
///     assert!(rt; names.len() == 8);
///
/// `strings` stores strings with escapes.
///
/// # Errors
///
/// - [`Refused::Text`]: the text is not a module. The position is in the text or at its end.
/// - [`Refused::Module`]: as [`names_of`].
pub fn names_of_text<'a>(
    alloc: Global,
    text: &'a str,
    strings: &'a Strings,
) -> Result<Vec<Denoted<'a>>, Refused<'a>>
    ensures answer { OfText ListsText text.now result }
    ensures place { IfErr result (IsPlaced text.now) }
{
    list_names(alloc, text, strings, false)
}

/// Lists the names of the last text of a program, as [`names_of_text`] does, and leaks the tree of
/// its module.
///
///     let last = names_of_last_text(rt.alloc(), text, &strings);
///
/// It is for a program that ends soon after the call, as
/// [`encode_last_text`](crate::encode_last_text) is. The tree keeps its memory until the process
/// ends. The list and `strings` are freed as always.
pub fn names_of_last_text<'a>(
    alloc: Global,
    text: &'a str,
    strings: &'a Strings,
) -> Result<Vec<Denoted<'a>>, Refused<'a>>
    ensures answer { OfText ListsText text.now result }
    ensures place { IfErr result (IsPlaced text.now) }
{
    list_names(alloc, text, strings, true)
}

/// Replaces an id by its index in an index space, if it is known.
fn look_up<'a>(names: &Names<'a>, space: Space, index: &mut Index<'a>) -> Result<(), Error<'a>>
    requires { IsSettledFor (known_to names.now) space index.old }
    ensures { index.new ≡ numbered_at (known_to names.now) space index.old }
{
    match space {
        Space::Func => names.resolve_func(index),
        Space::Table => names.resolve_table(index),
        Space::Memory => names.resolve_memory(index),
        Space::Global => names.resolve_global(index),
        Space::Tag => names.resolve_tag(index),
        Space::Elem => names.resolve_elem(index),
        Space::Data => names.resolve_data(index),
        Space::Ty => names.resolve_type(index),
    }
}

/// Returns the index of a source name in an index space, if there is one.
fn number_of<'a>(names: &Names<'a>, space: Space, name: &'a str) -> Option<u32>
    ensures { result ≡ (known_to names.now).number space (Written name.now) }
{
    let mut index = Index::Id(Id::new(name, Span::default()));
    let _answer = look_up(names, space, &mut index);
    match index {
        Index::Num(number, _) => Some(number),
        Index::Id(_) => None,
    }
}

/// Resolves a module that may be resolved with a counter at 1, and returns the index of a name in an
/// index space.
#[tactic(auto, using(crate::proofs::Resolvable::numbers_made))]
fn found_in<'a>(
    alloc: Global,
    module: &mut Module<'a>,
    space: Space,
    name: &'a str,
) -> Result<Option<u32>, Refused<'a>>
    requires ready { IsReady «module».old 1 }
    ensures { NumbersModule space name.now «module».old result }
{
    match names_known(alloc, module) {
        Ok(names) => {
            let number = number_of(&names, space, name);
            discard_names(names);
            Ok(number)
        }
        Err(refused) => Err(refused),
    }
}

/// Returns the index of a name in an index space of a module, if the module may be resolved with a
/// counter at 1.
#[tactic(auto, using(crate::proofs::Asked::numbered_asked))]
fn found_if_ready<'a>(
    alloc: Global,
    module: &mut Module<'a>,
    space: Space,
    name: &'a str,
) -> Result<Option<u32>, Refused<'a>>
    ensures { OrUnready (NumbersModule space name.now) «module».old result }
{
    match is_ready(module) {
        true => found_in(alloc, module, space, name),
        false => Err(Refused::Text(unready(module))),
    }
}

/// Resolves a parsed module that may be resolved, and returns the index of a name in an index space.
fn found_in_text<'a>(
    alloc: Global,
    text: TextModule<'a>,
    space: Space,
    name: &'a str,
) -> Result<Option<u32>, Refused<'a>>
    requires ready { IsReady (module_of text) 1 }
    ensures { NumbersText space name.now text.entry result }
{
    let mut module = module_of(text);
    let answer = found_in(alloc, &mut module, space, name);
    discard_module(module);
    answer
}

/// Resolves a parsed module, and returns the index of a name in an index space (text format:
/// indices).
///
/// # Example
///
///     let module = read(rt.alloc(), text, &strings).expect(&rt, "a module");
///     let number = number_in(rt.alloc(), module, Space::Func, "f").expect(&rt, "a number");
///     assert!(rt; number == Some(1));
///
/// The name is without its `$`. The result is `None` if no item of the index space has the name.
/// For example, for `(module (func) (func $f))` and `f` it is 1 among the functions, and `None`
/// among the tables.
///
/// # Errors
///
/// As [`names_of`].
pub fn number_in<'a>(
    alloc: Global,
    text: TextModule<'a>,
    space: Space,
    name: &'a str,
) -> Result<Option<u32>, Refused<'a>>
    ensures { OrUnready (NumbersModule space name.now) (module_of text.entry) result }
{
    let mut module = module_of(text);
    let answer = found_if_ready(alloc, &mut module, space, name);
    discard_module(module);
    answer
}

/// Parses a module in the text format, resolves it, and returns the index of a name in an index
/// space, as [`number_in`] does (text format: indices).
///
///     let found = number_in_text(rt.alloc(), EACH_SPACE, &strings, *other, name);
///     let found = found.expect(&rt, "a number");
///
/// `strings` stores strings with escapes.
///
/// # Errors
///
/// As [`names_of_text`].
pub fn number_in_text<'a>(
    alloc: Global,
    text: &'a str,
    strings: &'a Strings,
    space: Space,
    name: &'a str,
) -> Result<Option<u32>, Refused<'a>>
    ensures answer { OfText (NumbersText space name.now) text.now result }
    ensures place { IfErr result (IsPlaced text.now) }
{
    bare_laws();
    match read_text(alloc, text, strings) {
        Ok(module) => found_in_text(alloc, module, space, name),
        Err(error) => Err(Refused::Text(error)),
    }
}
