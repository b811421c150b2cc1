//! The ids of the parameters and locals of a function.

ghost use Rattle.std.specs.Prelude.{◌≡◌, ◌<◌, ◌≤◌, ◌^◌, ◌+◌, ◌↔◌, [], length, slice_index_or, None, Some, IsTrue, IfOk, IfErr};
ghost use Rattle.wast_base.specs.Ids.{mark_of_option};
ghost use Rattle.wast_base.specs.Faults.{diagnostic_of};
ghost use Rattle.wast_tree_nodes.specs.Sites.{param_marks, declaration_sites};
ghost use Rattle.wast_resolve_names.specs.Resolvers.{scope_of};
ghost use Rattle.wast_resolve_rules.specs.Scopes.{Scope, implicit_param_count as nameless_of};
ghost use Rattle.wast_resolve_rules.specs.Demands.{declared_ids};
ghost use Rattle.wast_resolve_namespace.specs.Filling.{FillsSpace};
ghost use Rattle.wast_resolve_names.specs.Gathers.{Stops, Gathers};
ghost use Rattle.wast_resolve_passes.specs.Locals.{params_in, body_declarations, marks_of, names as names_of, NumbersFrom, NumbersIn, locals_in, NamesLocals};

use crate::local_names::LocalNames;
use std::alloc::Global;
use wast_base::{Error, Fault, Id, NameAnnotation};
use wast_resolve_names::{
    CachedNames, Resolver, count_ids, filled, gather_each, have_ids, unsaid_params,
};
use wast_resolve_namespace::NamespaceBuilder;
use wast_tree_nodes::{FuncKind, FunctionType, Local, TypeUse, ValType};

/// A parameter: its id, its name annotation and its type.
type Param<'a> = (Option<Id<'a>>, Option<NameAnnotation<'a>>, ValType<'a>);

/// Collects the ids of parameters and locals. Allocates once: E12 if that fails, E10 if there are
/// 2^32 of them.
fn gather_locals<'a>(
    alloc: Global,
    params: &[Param<'a>],
    locals: &[Local<'a>],
) -> Result<NamespaceBuilder<'a>, Error<'a>>
    ensures { Gathers (Ok []) (names_of (marks_of params.now locals.now)) result }
{
    let ids = count_ids(params).saturating_add(count_ids(locals));
    let mut gathering = NamespaceBuilder::new(alloc, ids)?;
    gather_each(&mut gathering, params)?;
    gather_each(&mut gathering, locals)?;
    Ok(gathering)
}

/// Returns the id at a position among parameters and locals.
fn id_at<'a>(params: &[Param<'a>], locals: &[Local<'a>], at: usize) -> Option<Id<'a>>
    ensures { mark_of_option result ≡ slice_index_or (marks_of params.now locals.now) at None }
{
    if at < params.len() {
        return params[at].0;
    }
    let at = at - params.len();
    if at < locals.len() {
        locals[at].id
    } else {
        None
    }
}

/// Returns the ids with their positions, or the position of the first duplicate. Allocates only if
/// there is an id.
fn try_names<'a>(
    alloc: Global,
    params: &[Param<'a>],
    locals: &[Local<'a>],
) -> Result<Result<CachedNames<'a>, u32>, Error<'a>>
    requires { length (marks_of params.now locals.now) < 2 ^ 32 }
    ensures found { IfOk result (FillsSpace (names_of (marks_of params.now locals.now))) }
    ensures stops { IfErr result (λ e. Stops (diagnostic_of e) 0 (length (marks_of params.now locals.now))) }
{
    if !have_ids(params) && !have_ids(locals) {
        let count = params.len() + locals.len();
        return Ok(Ok(CachedNames::with_count(alloc, count as u32)));
    }
    let gathering = gather_locals(alloc, params, locals)?;
    Ok(filled(gathering, alloc)?)
}

/// Returns whether there are 2^32 parameters and locals or more, unnamed ones included.
fn are_many<'a>(nameless: usize, params: &[Param<'a>], locals: &[Local<'a>]) -> bool
    ensures { IsTrue result ↔ (2 ^ 32 ≤ nameless + length (marks_of params.now locals.now)) }
{
    let named = params.len().saturating_add(locals.len());
    nameless.saturating_add(named) > u32::MAX as usize
}

/// Returns the ids of parameters and locals after some unnamed ones. Fails with E2 at the first
/// duplicate.
fn name_each<'a>(
    alloc: Global,
    nameless: usize,
    params: &[Param<'a>],
    locals: &[Local<'a>],
) -> Result<LocalNames<'a>, Error<'a>>
    ensures numbers { IfOk result (NumbersFrom nameless (names_of (marks_of params.now locals.now))) }
    ensures names { (c : Scope) → NamesLocals c nameless (declaration_sites [] (marks_of params.now locals.now))
        (length (marks_of params.now locals.now)) result }
{
    if are_many(nameless, params, locals) {
        return Err(Error::refusal(Fault::TooLarge));
    }
    match try_names(alloc, params, locals)? {
        Ok(space) => Ok(LocalNames::behind(nameless as u32, space)),
        Err(at) => match id_at(params, locals, at as usize) {
            Some(id) => Err(Error::new(id.span(), Fault::Duplicate("local"))),
            None => Ok(LocalNames::none(alloc)),
        },
    }
}

/// Returns the ids of the parameters of an inline type and of locals, after some unnamed
/// parameters.
fn name_declared<'a>(
    alloc: Global,
    nameless: usize,
    inline: &Option<FunctionType<'a>>,
    locals: &[Local<'a>],
) -> Result<LocalNames<'a>, Error<'a>>
    ensures numbers { IfOk result (NumbersFrom nameless (names_of (marks_of (params_in inline.now) locals.now))) }
    ensures names { (c : Scope) → NamesLocals c nameless (declaration_sites [] (marks_of (params_in inline.now) locals.now))
        (length (marks_of (params_in inline.now) locals.now)) result }
{
    match inline {
        None => name_each(alloc, nameless, &[], locals),
        Some(ty) => name_each(alloc, nameless, ty.params.as_slice(), locals),
    }
}

/// Returns the ids of the parameters and locals of a function. Fails with E2 at the first
/// duplicate.
///
/// Without an inline type, the parameters of the type at the index come first, and they have no
/// ids. A function with an inline import has no body, so nothing is looked up in it.
///
/// Allocates for the ids: E12 if that fails, E10 if there are 2^32 parameters and locals or more.
pub(crate) fn name_locals<'a>(
    alloc: Global,
    names: &Resolver<'a>,
    ty: &TypeUse<'a, FunctionType<'a>>,
    kind: &FuncKind<'a>,
) -> Result<LocalNames<'a>, Error<'a>>
    ensures numbers { IfOk result (NumbersIn (scope_of names.now) (locals_in ty.now kind.now) kind.now) }
    ensures names { (c : Scope) → NamesLocals c (nameless_of (scope_of names.now) (Some ty.now))
        (body_declarations (param_marks ty.now.inline) kind.now) (length (declared_ids ty.now.inline kind.now)) result }
{
    match kind {
        FuncKind::Import(..) => Ok(LocalNames::none(alloc)),
        FuncKind::Inline { locals, .. } => {
            name_declared(
                alloc,
                unsaid_params(names, ty),
                &ty.inline,
                locals.as_slice(),
            )
        }
    }
}
