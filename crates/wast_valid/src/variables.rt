//! Locals and globals (validation: variable instructions).

ghost use Rattle.std.specs.Prelude.{◌≡◌, Ok, IfOk, IfErr, OnOk, OnErr, Some};
ghost use Rattle.wast_valid_machine.specs.Reports.{Reports};
ghost use Rattle.wast_valid.specs.Steps.{gets_local, sets_local, tees_local, gets_global, sets_global};

use wast_valid_machine::{Cause, Context, State, Stop, global_at, has_value, local_at, passes};

/// Checks `local.get`.
#[tactic(auto, using(wast_valid_machine::proofs::Binds::then_ok, wast_valid_machine::proofs::Binds::then_reports, wast_valid_machine::proofs::Binds::reports_bind, wast_valid_machine::proofs::Binds::reports_memory), unfolding(crate::specs::Steps::gets_local, wast_valid_machine::specs::Checks::bind, wast_valid_machine::specs::Checks::check))]
pub(crate) fn check_local_get(state: &mut State, c: &Context, x: u32) -> Result<(), Stop>
    ensures ok { OnOk result (gets_local c.now x state.old ≡ Ok state.new) }
    ensures err { IfErr result (λ e. Reports (gets_local c.now x state.old) e) }
{
    let t = local_at(c, x)?;
    let is_set = has_value(c, state, x, t);
    passes(is_set, Cause::Unset(x))?;
    state.put(t)?;
    Ok(())
}

/// Checks `local.set`.
#[tactic(auto, using(wast_valid_machine::proofs::Binds::then_ok, wast_valid_machine::proofs::Binds::then_reports, wast_valid_machine::proofs::Binds::reports_bind, wast_valid_machine::proofs::Binds::reports_memory), unfolding(crate::specs::Steps::sets_local, wast_valid_machine::specs::Checks::bind))]
pub(crate) fn check_local_set(state: &mut State, c: &Context, x: u32) -> Result<(), Stop>
    ensures ok { OnOk result (sets_local c.now x state.old ≡ Ok state.new) }
    ensures err { IfErr result (λ e. Reports (sets_local c.now x state.old) e) }
{
    let t = local_at(c, x)?;
    state.take_as(c.types.as_slice(), t)?;
    state.mark_set(c, x, t)?;
    Ok(())
}

/// Checks `local.tee`.
#[tactic(auto, using(wast_valid_machine::proofs::Binds::then_ok, wast_valid_machine::proofs::Binds::then_reports, wast_valid_machine::proofs::Binds::reports_bind, wast_valid_machine::proofs::Binds::reports_memory), unfolding(crate::specs::Steps::tees_local, wast_valid_machine::specs::Checks::bind))]
pub(crate) fn check_local_tee(state: &mut State, c: &Context, x: u32) -> Result<(), Stop>
    ensures ok { OnOk result (tees_local c.now x state.old ≡ Ok state.new) }
    ensures err { IfErr result (λ e. Reports (tees_local c.now x state.old) e) }
{
    let t = local_at(c, x)?;
    state.take_as(c.types.as_slice(), t)?;
    state.mark_set(c, x, t)?;
    state.put(t)?;
    Ok(())
}

/// Checks `global.get`.
#[tactic(auto, using(wast_valid_machine::proofs::Binds::then_ok, wast_valid_machine::proofs::Binds::then_reports, wast_valid_machine::proofs::Binds::reports_bind, wast_valid_machine::proofs::Binds::reports_memory), unfolding(crate::specs::Steps::gets_global, wast_valid_machine::specs::Checks::bind))]
pub(crate) fn check_global_get(state: &mut State, c: &Context, x: u32) -> Result<(), Stop>
    ensures ok { OnOk result (gets_global c.now x state.old ≡ Ok state.new) }
    ensures err { IfErr result (λ e. Reports (gets_global c.now x state.old) e) }
{
    let global = global_at(c, x)?;
    state.put(global.ty)?;
    Ok(())
}

/// Checks `global.set`.
#[tactic(auto, using(wast_valid_machine::proofs::Binds::then_ok, wast_valid_machine::proofs::Binds::then_reports, wast_valid_machine::proofs::Binds::reports_bind, wast_valid_machine::proofs::Binds::reports_memory), unfolding(crate::specs::Steps::sets_global, wast_valid_machine::specs::Checks::bind, wast_valid_machine::specs::Checks::check))]
pub(crate) fn check_global_set(state: &mut State, c: &Context, x: u32) -> Result<(), Stop>
    ensures ok { OnOk result (sets_global c.now x state.old ≡ Ok state.new) }
    ensures err { IfErr result (λ e. Reports (sets_global c.now x state.old) e) }
{
    let global = global_at(c, x)?;
    passes(global.mutable, Cause::Immutable(x))?;
    state.take_as(c.types.as_slice(), global.ty)?;
    Ok(())
}
