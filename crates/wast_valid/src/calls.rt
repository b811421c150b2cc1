//! Blocks, branches and calls (validation: control instructions).

ghost use Rattle.std.specs.Prelude.{◌≡◌, Ok, IfOk, IfErr, OnOk, OnErr, Some};
ghost use Rattle.wast_valid_machine.specs.Reports.{Reports};
ghost use Rattle.wast_valid.specs.Steps.{sig_known, opens, opens_if, branches_if, branches_on_null, branches_on_non_null, calls_one, tail_calls_one, takes_callee, calls_ref, tail_calls_ref, takes_index, calls_indirect, tail_calls_indirect};

use crate::memories::address_type;
use crate::plain::check_drop;
use wast_valid_machine::{
    Cause, Context, Def, Heap, Kind, RefTy, Sig, State, Stop, Ty, Tys, check_ty, count_of,
    does_heap_match, func_at, func_type_of, passes, reference_at, table_at,
};

/// Checks that the type of a block refers to types of the module.
#[tactic(auto, unfolding(crate::specs::Steps::sig_known))]
pub(crate) fn check_sig_known(state: &mut State, types: &[Def], sig: Sig) -> Result<(), Stop>
    ensures ok { OnOk result (sig_known types.now sig state.old ≡ Ok state.new) }
    ensures err { IfErr result (λ e. Reports (sig_known types.now sig state.old) e) }
{
    match sig {
        Sig::One(t) => check_ty(types, t),
        _ => Ok(()),
    }
}

/// Checks `block` or `loop`.
#[tactic(auto, using(wast_valid_machine::proofs::Binds::then_ok, wast_valid_machine::proofs::Binds::then_reports, wast_valid_machine::proofs::Binds::reports_bind, wast_valid_machine::proofs::Binds::reports_memory), unfolding(crate::specs::Steps::opens, wast_valid_machine::specs::Checks::bind))]
pub(crate) fn check_block(
    state: &mut State,
    types: &[Def],
    kind: Kind,
    sig: Sig,
) -> Result<(), Stop>
    ensures ok { OnOk result (opens types.now kind sig state.old ≡ Ok state.new) }
    ensures err { IfErr result (λ e. Reports (opens types.now kind sig state.old) e) }
{
    check_sig_known(state, types, sig)?;
    state.begin(types, kind, sig)?;
    Ok(())
}

/// Checks `if`.
#[tactic(auto, using(wast_valid_machine::proofs::Binds::then_ok, wast_valid_machine::proofs::Binds::then_reports, wast_valid_machine::proofs::Binds::reports_bind, wast_valid_machine::proofs::Binds::reports_memory), unfolding(crate::specs::Steps::opens_if, wast_valid_machine::specs::Checks::bind))]
pub(crate) fn check_if(state: &mut State, types: &[Def], sig: Sig) -> Result<(), Stop>
    ensures ok { OnOk result (opens_if types.now sig state.old ≡ Ok state.new) }
    ensures err { IfErr result (λ e. Reports (opens_if types.now sig state.old) e) }
{
    state.take_as(types, Ty::I32)?;
    check_block(state, types, Kind::If, sig)?;
    Ok(())
}

/// Checks `br_if`.
#[tactic(auto, using(wast_valid_machine::proofs::Binds::then_ok, wast_valid_machine::proofs::Binds::then_reports, wast_valid_machine::proofs::Binds::reports_bind, wast_valid_machine::proofs::Binds::reports_memory), unfolding(crate::specs::Steps::branches_if, wast_valid_machine::specs::Checks::bind))]
pub(crate) fn check_br_if(state: &mut State, types: &[Def], n: u32) -> Result<(), Stop>
    ensures ok { OnOk result (branches_if types.now n state.old ≡ Ok state.new) }
    ensures err { IfErr result (λ e. Reports (branches_if types.now n state.old) e) }
{
    state.take_as(types, Ty::I32)?;
    state.may_branch_to(types, n as usize)?;
    Ok(())
}

/// Checks `br_on_null`.
#[tactic(auto, using(wast_valid_machine::proofs::Binds::then_ok, wast_valid_machine::proofs::Binds::then_reports, wast_valid_machine::proofs::Binds::reports_bind, wast_valid_machine::proofs::Binds::reports_memory), unfolding(crate::specs::Steps::branches_on_null, wast_valid_machine::specs::Checks::bind, wast_valid_machine::specs::Machine::reference_in))]
pub(crate) fn check_br_on_null(state: &mut State, types: &[Def], n: u32) -> Result<(), Stop>
    ensures ok { OnOk result (branches_on_null types.now n state.old ≡ Ok state.new) }
    ensures err { IfErr result (λ e. Reports (branches_on_null types.now n state.old) e) }
{
    let tys = state.label_at(n as usize)?;
    let found = state.take(Cause::MissingAny)?;
    let reference = reference_at(found)?;
    state.convert(types, tys, tys)?;
    state.put(Ty::Ref(RefTy {
        nullable: false,
        heap: reference.heap,
    }))?;
    Ok(())
}

/// Checks `br_on_non_null`.
#[tactic(auto, using(wast_valid_machine::proofs::Binds::then_ok, wast_valid_machine::proofs::Binds::then_reports, wast_valid_machine::proofs::Binds::reports_bind, wast_valid_machine::proofs::Binds::reports_memory), unfolding(crate::specs::Steps::branches_on_non_null, wast_valid_machine::specs::Checks::bind, wast_valid_machine::specs::Machine::reference_in, wast_valid_machine::specs::Checks::check))]
pub(crate) fn check_br_on_non_null(state: &mut State, types: &[Def], n: u32) -> Result<(), Stop>
    ensures ok { OnOk result (branches_on_non_null types.now n state.old ≡ Ok state.new) }
    ensures err { IfErr result (λ e. Reports (branches_on_non_null types.now n state.old) e) }
{
    let tys = state.label_at(n as usize)?;
    passes(count_of(types, tys) != 0, Cause::NoReference(n as usize))?;
    let found = state.take(Cause::MissingAny)?;
    let reference = reference_at(found)?;
    state.put(Ty::Ref(RefTy {
        nullable: false,
        heap: reference.heap,
    }))?;
    state.convert(types, tys, tys)?;
    check_drop(state)?;
    Ok(())
}

/// Checks `call`.
#[tactic(auto, using(wast_valid_machine::proofs::Binds::then_ok, wast_valid_machine::proofs::Binds::then_reports, wast_valid_machine::proofs::Binds::reports_bind, wast_valid_machine::proofs::Binds::reports_memory), unfolding(crate::specs::Steps::calls_one, wast_valid_machine::specs::Checks::bind, crate::specs::Steps::callee))]
pub(crate) fn check_call(state: &mut State, c: &Context, x: u32) -> Result<(), Stop>
    ensures ok { OnOk result (calls_one c.now x state.old ≡ Ok state.new) }
    ensures err { IfErr result (λ e. Reports (calls_one c.now x state.old) e) }
{
    let n = func_type_of(c, x)?;
    state.convert(c.types.as_slice(), Tys::Params(n), Tys::Results(n))?;
    Ok(())
}

/// Checks `return_call`.
#[tactic(auto, using(wast_valid_machine::proofs::Binds::then_ok, wast_valid_machine::proofs::Binds::then_reports, wast_valid_machine::proofs::Binds::reports_bind, wast_valid_machine::proofs::Binds::reports_memory), unfolding(crate::specs::Steps::tail_calls_one, wast_valid_machine::specs::Checks::bind, crate::specs::Steps::callee))]
pub(crate) fn check_return_call(state: &mut State, c: &Context, x: u32) -> Result<(), Stop>
    ensures ok { OnOk result (tail_calls_one c.now x state.old ≡ Ok state.new) }
    ensures err { IfErr result (λ e. Reports (tail_calls_one c.now x state.old) e) }
{
    let n = func_type_of(c, x)?;
    state.tail_call(c.types.as_slice(), n)?;
    Ok(())
}

/// Pops the function that `call_ref` calls.
#[tactic(auto, using(wast_valid_machine::proofs::Binds::then_ok, wast_valid_machine::proofs::Binds::then_reports, wast_valid_machine::proofs::Binds::reports_bind, wast_valid_machine::proofs::Binds::reports_memory), unfolding(crate::specs::Steps::takes_callee, wast_valid_machine::specs::Checks::bind))]
pub(crate) fn take_callee(state: &mut State, types: &[Def], n: u32) -> Result<(), Stop>
    ensures ok { OnOk result (takes_callee types.now n state.old ≡ Ok state.new) }
    ensures err { IfErr result (λ e. Reports (takes_callee types.now n state.old) e) }
{
    func_at(types, n)?;
    state.take_as(
        types,
        Ty::Ref(RefTy {
            nullable: true,
            heap: Heap::Defined(n),
        }),
    )?;
    Ok(())
}

/// Checks `call_ref`.
#[tactic(auto, using(wast_valid_machine::proofs::Binds::then_ok, wast_valid_machine::proofs::Binds::then_reports, wast_valid_machine::proofs::Binds::reports_bind, wast_valid_machine::proofs::Binds::reports_memory), unfolding(crate::specs::Steps::calls_ref, wast_valid_machine::specs::Checks::bind))]
pub(crate) fn check_call_ref(state: &mut State, types: &[Def], n: u32) -> Result<(), Stop>
    ensures ok { OnOk result (calls_ref types.now n state.old ≡ Ok state.new) }
    ensures err { IfErr result (λ e. Reports (calls_ref types.now n state.old) e) }
{
    take_callee(state, types, n)?;
    state.convert(types, Tys::Params(n), Tys::Results(n))?;
    Ok(())
}

/// Checks `return_call_ref`.
#[tactic(auto, using(wast_valid_machine::proofs::Binds::then_ok, wast_valid_machine::proofs::Binds::then_reports, wast_valid_machine::proofs::Binds::reports_bind, wast_valid_machine::proofs::Binds::reports_memory), unfolding(crate::specs::Steps::tail_calls_ref, wast_valid_machine::specs::Checks::bind))]
pub(crate) fn check_return_call_ref(state: &mut State, types: &[Def], n: u32) -> Result<(), Stop>
    ensures ok { OnOk result (tail_calls_ref types.now n state.old ≡ Ok state.new) }
    ensures err { IfErr result (λ e. Reports (tail_calls_ref types.now n state.old) e) }
{
    take_callee(state, types, n)?;
    state.tail_call(types, n)?;
    Ok(())
}

/// Pops the table index of an indirect call.
#[tactic(auto, using(wast_valid_machine::proofs::Binds::then_ok, wast_valid_machine::proofs::Binds::then_reports, wast_valid_machine::proofs::Binds::reports_bind, wast_valid_machine::proofs::Binds::reports_memory), unfolding(crate::specs::Steps::takes_index, wast_valid_machine::specs::Checks::bind, wast_valid_machine::specs::Checks::check))]
pub(crate) fn take_index(state: &mut State, c: &Context, n: u32, x: u32) -> Result<(), Stop>
    ensures ok { OnOk result (takes_index c.now n x state.old ≡ Ok state.new) }
    ensures err { IfErr result (λ e. Reports (takes_index c.now n x state.old) e) }
{
    let types = c.types.as_slice();
    let table = table_at(c, x)?;
    passes(
        does_heap_match(types, table.elem.heap, Heap::Funcs),
        Cause::NotFuncs(x),
    )?;
    func_at(types, n)?;
    state.take_as(types, address_type(table.is_64))?;
    Ok(())
}

/// Checks `call_indirect`.
#[tactic(auto, using(wast_valid_machine::proofs::Binds::then_ok, wast_valid_machine::proofs::Binds::then_reports, wast_valid_machine::proofs::Binds::reports_bind, wast_valid_machine::proofs::Binds::reports_memory), unfolding(crate::specs::Steps::calls_indirect, wast_valid_machine::specs::Checks::bind))]
pub(crate) fn check_call_indirect(
    state: &mut State,
    c: &Context,
    n: u32,
    x: u32,
) -> Result<(), Stop>
    ensures ok { OnOk result (calls_indirect c.now n x state.old ≡ Ok state.new) }
    ensures err { IfErr result (λ e. Reports (calls_indirect c.now n x state.old) e) }
{
    take_index(state, c, n, x)?;
    state.convert(c.types.as_slice(), Tys::Params(n), Tys::Results(n))?;
    Ok(())
}

/// Checks `return_call_indirect`.
#[tactic(auto, using(wast_valid_machine::proofs::Binds::then_ok, wast_valid_machine::proofs::Binds::then_reports, wast_valid_machine::proofs::Binds::reports_bind, wast_valid_machine::proofs::Binds::reports_memory), unfolding(crate::specs::Steps::tail_calls_indirect, wast_valid_machine::specs::Checks::bind))]
pub(crate) fn check_return_call_indirect(
    state: &mut State,
    c: &Context,
    n: u32,
    x: u32,
) -> Result<(), Stop>
    ensures ok { OnOk result (tail_calls_indirect c.now n x state.old ≡ Ok state.new) }
    ensures err { IfErr result (λ e. Reports (tail_calls_indirect c.now n x state.old) e) }
{
    take_index(state, c, n, x)?;
    state.tail_call(c.types.as_slice(), n)?;
    Ok(())
}
