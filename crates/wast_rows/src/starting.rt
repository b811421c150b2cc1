//! Adds a start field to a module, as a caller with indices outside of the module does.

ghost use Rattle.std.specs.Prelude.{◌≡◌, ◌≤◌, IfOk, IfErr, OnOk};
ghost use Rattle.wast_base.specs.declared.spaces.Space.TheVariants as space;
ghost use Rattle.wast_resolve_rules.specs.Resolved.{numbered_at};
ghost use Rattle.wast_resolve_names.specs.LookUps.{IsSettledFor, IsMetBy, AnswersFor};
ghost use Rattle.wast_resolve_names.specs.Resolvers.{known_to};
ghost use Rattle.wast_core.specs.Headline.{Counts, name_of_module};
ghost use Rattle.wast_core.specs.Modules.{IsReady};
ghost use Rattle.wast_rows.specs.Starting.{IsNoBinary, IsSettledStart, AddsStart, CountsStart};
ghost use Rattle.wast_rows.specs.StartSteps.{FindsStart, IsText, PutsStart};

use std::alloc::Global;
use wast_core::laws::{at_rest, one_meaning};
use wast_core::{EncodeOptions, Module, ModuleKind};
use wast_resolve::laws::borne_law;
use wast_resolve::{Names, discard_names};
use wast_tree::{Error, Gensym, Index, ModuleField, push_field};

/// Replaces the index of a function by its number.
fn number_start<'a>(names: &Names<'a>, idx: Index<'a>) -> Result<Index<'a>, Error<'a>>
    requires { IsSettledFor (known_to names.now) space.Func idx }
    ensures met { OnOk result (IsMetBy (known_to names.now) space.Func idx.entry) }
    ensures number { IfOk result (λ start. start ≡ numbered_at (known_to names.now) space.Func idx.entry) }
    ensures refusal { IfErr result (AnswersFor (known_to names.now) space.Func idx.entry) }
{
    let mut start = idx;
    names.resolve_func(&mut start)?;
    Ok(start)
}

/// Resolves the module, and then the index of a function.
fn find_start<'a>(
    alloc: Global,
    module: &mut Module<'a>,
    gensym: &mut Gensym,
    idx: Index<'a>,
) -> Result<Index<'a>, Error<'a>>
    requires ready { IsReady «module».old gensym.old }
    requires text { IsNoBinary «module».old.kind }
    requires settled { IsSettledStart «module».old.kind idx }
    ensures answer { FindsStart gensym.old «module».old.kind idx.entry result «module».new.kind }
    ensures stays { «module».new ≡ record «module».old { kind = «module».new.kind } }
    ensures counter { Counts «module».old.kind «module».new.kind gensym.old gensym.new }
    ensures ready { IsReady «module».new gensym.new }
{
    borne_law();
    let names = module.resolve(alloc, gensym)?;
    let start = number_start(&names, idx);
    discard_names(names);
    start
}

/// Appends a start field to the fields of a text module.
fn put_start<'a>(module: &mut Module<'a>, start: Index<'a>) -> Result<(), Error<'a>>
    requires { IsText «module».old.kind }
    ensures put { PutsStart «module».old.kind start.entry result «module».new.kind }
    ensures stays { «module».new ≡ record «module».old { kind = «module».new.kind } }
{
    match &mut module.kind {
        ModuleKind::Text(fields) => push_field(fields, ModuleField::Start(start)),
        ModuleKind::Binary(_) | ModuleKind::Refused(_) => unreachable!(),
    }
}

/// Resolves a module, appends a start field with this function, and encodes it (text format: start
/// functions; binary format: start section).
///
/// # Example
///
///     let answer = add_start(alloc, &mut module, &mut gensym, by_id("f", 80));
///
/// The module must be ready for [`Module::resolve`], and not binary. A generated id in the index
/// must be that of a function of the module.
///
/// # Errors
///
/// In this order:
///
/// - An error of resolving. The module keeps it. A module with an earlier error returns that.
/// - E4 `func` at the position of the index: no function has its name. Or E12: no memory for the
///   field. The module is then resolved, without the field.
/// - E12 or E10 when the fields are resolved again with the start field. The module keeps it.
/// - E11, E10 and E12 of [`EncodeOptions::encode_module`]. The module is then resolved, with the
///   field.
pub fn add_start<'a>(
    alloc: Global,
    module: &mut Module<'a>,
    gensym: &mut Gensym,
    idx: Index<'a>,
) -> Result<Vec<u8>, Error<'a>>
    requires ready { IsReady «module».old gensym.old }
    requires text { IsNoBinary «module».old.kind }
    requires settled { IsSettledStart «module».old.kind idx }
    ensures answer { AddsStart gensym.old (name_of_module «module».old) «module».old.kind idx.entry result «module».new.kind }
    ensures stays { «module».new ≡ record «module».old { kind = «module».new.kind } }
    ensures counter { CountsStart gensym.old «module».old.kind result «module».new.kind gensym.new }
    ensures counter_grows { gensym.old ≤ gensym.new }
    ensures ready { IsReady «module».new gensym.new }
{
    at_rest();
    one_meaning();
    let start = find_start(alloc, module, gensym, idx)?;
    put_start(module, start)?;
    EncodeOptions::new().encode_module(alloc, module, gensym)
}
