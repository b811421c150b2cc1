//! Instructions without immediates, and on lanes (validation: numeric, vector and parametric
//! instructions).

ghost use Rattle.std.specs.Prelude.{◌≡◌, Ok, IfOk, IfErr, OnOk, OnErr, Some};
ghost use Rattle.wast_valid_machine.specs.Reports.{Reports};
ghost use Rattle.wast_valid.specs.Steps.{applies, by_row, tests_null, removes_null, drops, bare_step, ref_step, without_immediates, on_lane, shuffles, selects, selects_typed, same_numeric, joined};

use crate::rows::{LaneUse, Row, ref_row, row_for};
use wast_base::{BareOp, Plain, RefOp};
use wast_valid_machine::{
    Cause, Def, RefTy, State, Stop, Ty, check_ty, is_plain, passes, reference_at,
};

/// Pops one operand, and pushes the result.
#[tactic(auto, using(wast_valid_machine::proofs::Binds::then_ok, wast_valid_machine::proofs::Binds::then_reports, wast_valid_machine::proofs::Binds::reports_bind, wast_valid_machine::proofs::Binds::reports_memory), unfolding(crate::specs::Steps::applies, wast_valid_machine::specs::Checks::bind))]
pub(crate) fn check_unary(state: &mut State, types: &[Def], a: Ty, gives: Ty) -> Result<(), Stop>
    ensures ok { OnOk result (applies types.now (Row.Unary a gives) state.old ≡ Ok state.new) }
    ensures err { IfErr result (λ e. Reports (applies types.now (Row.Unary a gives) state.old) e) }
{
    state.take_as(types, a)?;
    state.put(gives)?;
    Ok(())
}

/// Pops two operands, and pushes the result.
#[tactic(auto, using(wast_valid_machine::proofs::Binds::then_ok, wast_valid_machine::proofs::Binds::then_reports, wast_valid_machine::proofs::Binds::reports_bind, wast_valid_machine::proofs::Binds::reports_memory), unfolding(crate::specs::Steps::applies, wast_valid_machine::specs::Checks::bind))]
pub(crate) fn check_binary(
    state: &mut State,
    types: &[Def],
    a: Ty,
    b: Ty,
    gives: Ty,
) -> Result<(), Stop>
    ensures ok { OnOk result (applies types.now (Row.Binary a b gives) state.old ≡ Ok state.new) }
    ensures err { IfErr result (λ e. Reports (applies types.now (Row.Binary a b gives) state.old) e) }
{
    state.take_as(types, b)?;
    state.take_as(types, a)?;
    state.put(gives)?;
    Ok(())
}

/// Pops three operands, and pushes the result.
#[tactic(auto, using(wast_valid_machine::proofs::Binds::then_ok, wast_valid_machine::proofs::Binds::then_reports, wast_valid_machine::proofs::Binds::reports_bind, wast_valid_machine::proofs::Binds::reports_memory), unfolding(crate::specs::Steps::applies, wast_valid_machine::specs::Checks::bind))]
pub(crate) fn check_ternary(
    state: &mut State,
    types: &[Def],
    a: Ty,
    b: Ty,
    c: Ty,
    gives: Ty,
) -> Result<(), Stop>
    ensures ok { OnOk result (applies types.now (Row.Ternary a b c gives) state.old ≡ Ok state.new) }
    ensures err { IfErr result (λ e. Reports (applies types.now (Row.Ternary a b c gives) state.old) e) }
{
    state.take_as(types, c)?;
    state.take_as(types, b)?;
    state.take_as(types, a)?;
    state.put(gives)?;
    Ok(())
}

/// Pops the operands of a row, and pushes its result.
#[tactic(auto, unfolding(crate::specs::Steps::applies, wast_valid_machine::specs::Checks::bind))]
pub(crate) fn check_row(state: &mut State, types: &[Def], row: Row) -> Result<(), Stop>
    ensures ok { OnOk result (applies types.now row state.old ≡ Ok state.new) }
    ensures err { IfErr result (λ e. Reports (applies types.now row state.old) e) }
{
    match row {
        Row::Unary(a, gives) => check_unary(state, types, a, gives),
        Row::Binary(a, b, gives) => check_binary(state, types, a, b, gives),
        Row::Ternary(a, b, c, gives) => check_ternary(state, types, a, b, c, gives),
    }
}

/// Checks an instruction by its row, if it has one.
#[tactic(auto, unfolding(crate::specs::Steps::by_row, wast_valid_machine::specs::Reports::Reports))]
pub(crate) fn check_by_row(state: &mut State, types: &[Def], row: Option<Row>) -> Result<(), Stop>
    ensures ok { OnOk result (by_row types.now row state.old ≡ Ok state.new) }
    ensures err { IfErr result (λ e. Reports (by_row types.now row state.old) e) }
{
    match row {
        None => Err(Stop::Invalid(Cause::Unsupported)),
        Some(row) => check_row(state, types, row),
    }
}

/// Checks `ref.is_null`.
#[tactic(auto, using(wast_valid_machine::proofs::Binds::then_ok, wast_valid_machine::proofs::Binds::then_reports, wast_valid_machine::proofs::Binds::reports_bind, wast_valid_machine::proofs::Binds::reports_memory), unfolding(crate::specs::Steps::tests_null, wast_valid_machine::specs::Checks::bind, wast_valid_machine::specs::Machine::reference_in))]
pub(crate) fn check_is_null(state: &mut State) -> Result<(), Stop>
    ensures ok { OnOk result (tests_null state.old ≡ Ok state.new) }
    ensures err { IfErr result (λ e. Reports (tests_null state.old) e) }
{
    let found = state.take(Cause::MissingAny)?;
    let _reference = reference_at(found)?;
    state.put(Ty::I32)?;
    Ok(())
}

/// Checks `ref.as_non_null`.
#[tactic(auto, using(wast_valid_machine::proofs::Binds::then_ok, wast_valid_machine::proofs::Binds::then_reports, wast_valid_machine::proofs::Binds::reports_bind, wast_valid_machine::proofs::Binds::reports_memory), unfolding(crate::specs::Steps::removes_null, wast_valid_machine::specs::Checks::bind, wast_valid_machine::specs::Machine::reference_in))]
pub(crate) fn check_as_non_null(state: &mut State) -> Result<(), Stop>
    ensures ok { OnOk result (removes_null state.old ≡ Ok state.new) }
    ensures err { IfErr result (λ e. Reports (removes_null state.old) e) }
{
    let found = state.take(Cause::MissingAny)?;
    let reference = reference_at(found)?;
    state.put(Ty::Ref(RefTy {
        nullable: false,
        heap: reference.heap,
    }))?;
    Ok(())
}

/// Checks `drop`.
#[tactic(auto, using(wast_valid_machine::proofs::Binds::then_ok, wast_valid_machine::proofs::Binds::then_reports, wast_valid_machine::proofs::Binds::reports_bind, wast_valid_machine::proofs::Binds::reports_memory), unfolding(crate::specs::Steps::drops, wast_valid_machine::specs::Checks::bind))]
pub(crate) fn check_drop(state: &mut State) -> Result<(), Stop>
    ensures ok { OnOk result (drops state.old ≡ Ok state.new) }
    ensures err { IfErr result (λ e. Reports (drops state.old) e) }
{
    let _dropped = state.take(Cause::MissingAny)?;
    Ok(())
}

/// Checks an instruction whose name has no dot.
#[tactic(auto, unfolding(crate::specs::Steps::bare_step, wast_valid_machine::specs::Reports::Reports))]
pub(crate) fn check_bare(state: &mut State, types: &[Def], op: BareOp) -> Result<(), Stop>
    ensures ok { OnOk result (bare_step types.now op state.old ≡ Ok state.new) }
    ensures err { IfErr result (λ e. Reports (bare_step types.now op state.old) e) }
{
    match op {
        BareOp::unreachable => {
            state.cut();
            Ok(())
        }
        BareOp::nop => Ok(()),
        BareOp::return_ => state.return_all(types),
        BareOp::drop => check_drop(state),
        BareOp::throw_ref | BareOp::catch_all => Err(Stop::Invalid(Cause::Unsupported)),
    }
}

/// Checks an instruction whose name begins with `ref`.
#[tactic(auto, unfolding(crate::specs::Steps::ref_step))]
pub(crate) fn check_ref(state: &mut State, types: &[Def], op: RefOp) -> Result<(), Stop>
    ensures ok { OnOk result (ref_step types.now op state.old ≡ Ok state.new) }
    ensures err { IfErr result (λ e. Reports (ref_step types.now op state.old) e) }
{
    match op {
        RefOp::ref_is_null => check_is_null(state),
        RefOp::ref_as_non_null => check_as_non_null(state),
        RefOp::ref_eq | RefOp::ref_i31 => check_by_row(state, types, ref_row(op)),
    }
}

/// Checks an instruction without immediates.
#[tactic(auto, unfolding(crate::specs::Steps::without_immediates))]
pub(crate) fn check_plain(state: &mut State, types: &[Def], op: Plain) -> Result<(), Stop>
    ensures ok { OnOk result (without_immediates types.now op state.old ≡ Ok state.new) }
    ensures err { IfErr result (λ e. Reports (without_immediates types.now op state.old) e) }
{
    match op {
        Plain::Bare(op) => check_bare(state, types, op),
        Plain::Ref(op) => check_ref(state, types, op),
        _ => check_by_row(state, types, row_for(op)),
    }
}

/// Checks an instruction on a lane.
#[tactic(auto, using(wast_valid_machine::proofs::Binds::then_ok, wast_valid_machine::proofs::Binds::then_reports, wast_valid_machine::proofs::Binds::reports_bind, wast_valid_machine::proofs::Binds::reports_memory), unfolding(crate::specs::Steps::on_lane, wast_valid_machine::specs::Checks::bind, wast_valid_machine::specs::Checks::check))]
pub(crate) fn check_lane(
    state: &mut State,
    types: &[Def],
    used: LaneUse,
    lane: u8,
) -> Result<(), Stop>
    ensures ok { OnOk result (on_lane types.now used lane state.old ≡ Ok state.new) }
    ensures err { IfErr result (λ e. Reports (on_lane types.now used lane state.old) e) }
{
    passes(lane < used.lanes, Cause::Lane(lane))?;
    check_row(state, types, used.row)?;
    Ok(())
}

/// Checks `i8x16.shuffle`, with the first lane that is not below 32.
#[tactic(auto, unfolding(crate::specs::Steps::shuffles, wast_valid_machine::specs::Reports::Reports))]
pub(crate) fn check_shuffle(state: &mut State, types: &[Def], lane: Option<u8>) -> Result<(), Stop>
    ensures ok { OnOk result (shuffles types.now lane state.old ≡ Ok state.new) }
    ensures err { IfErr result (λ e. Reports (shuffles types.now lane state.old) e) }
{
    match lane {
        Some(lane) => Err(Stop::Invalid(Cause::Lane(lane))),
        None => check_binary(state, types, Ty::V128, Ty::V128, Ty::V128),
    }
}

/// Checks `select` without types.
#[tactic(auto, using(wast_valid_machine::proofs::Binds::then_ok, wast_valid_machine::proofs::Binds::then_reports, wast_valid_machine::proofs::Binds::reports_bind, wast_valid_machine::proofs::Binds::reports_memory), unfolding(crate::specs::Steps::selects, wast_valid_machine::specs::Checks::bind, wast_valid_machine::specs::Checks::check))]
pub(crate) fn check_select(state: &mut State, types: &[Def]) -> Result<(), Stop>
    ensures ok { OnOk result (selects types.now state.old ≡ Ok state.new) }
    ensures err { IfErr result (λ e. Reports (selects types.now state.old) e) }
{
    state.take_as(types, Ty::I32)?;
    let second = state.take(Cause::MissingAny)?;
    let first = state.take(Cause::MissingAny)?;
    passes(is_plain(second), Cause::NotNumeric(second))?;
    passes(is_plain(first), Cause::NotNumeric(first))?;
    passes(
        is_same_numeric(second, first),
        Cause::Different { first, second },
    )?;
    state.put(join(second, first))?;
    Ok(())
}

/// Checks `select` with a type.
#[tactic(auto, using(wast_valid_machine::proofs::Binds::then_ok, wast_valid_machine::proofs::Binds::then_reports, wast_valid_machine::proofs::Binds::reports_bind, wast_valid_machine::proofs::Binds::reports_memory), unfolding(crate::specs::Steps::selects_typed, wast_valid_machine::specs::Checks::bind))]
pub(crate) fn check_select_typed(state: &mut State, types: &[Def], t: Ty) -> Result<(), Stop>
    ensures ok { OnOk result (selects_typed types.now t state.old ≡ Ok state.new) }
    ensures err { IfErr result (λ e. Reports (selects_typed types.now t state.old) e) }
{
    check_ty(types, t)?;
    state.take_as(types, Ty::I32)?;
    state.take_as(types, t)?;
    state.take_as(types, t)?;
    state.put(t)?;
    Ok(())
}

/// Returns whether two operands of `select` have the same type.
#[tactic(auto, unfolding(crate::specs::Steps::same_numeric))]
fn is_same_numeric(a: Ty, b: Ty) -> bool
    ensures { result ≡ same_numeric a b }
{
    match (a, b) {
        (Ty::Unknown, _) => true,
        (_, Ty::Unknown) => true,
        (Ty::I32, Ty::I32) => true,
        (Ty::I64, Ty::I64) => true,
        (Ty::F32, Ty::F32) => true,
        (Ty::F64, Ty::F64) => true,
        (Ty::V128, Ty::V128) => true,
        _ => false,
    }
}

/// Returns the type of two operands of the same type.
#[tactic(auto, unfolding(crate::specs::Steps::joined))]
fn join(a: Ty, b: Ty) -> Ty
    ensures { result ≡ joined a b }
{
    match a {
        Ty::Unknown => b,
        _ => a,
    }
}
