//! Tables (validation: table instructions).

ghost use Rattle.std.specs.Prelude.{◌≡◌, Ok, IfOk, IfErr, OnOk, OnErr, Some};
ghost use Rattle.wast_valid_machine.specs.Reports.{Reports};
ghost use Rattle.wast_valid.specs.Steps.{gets_table, sets_table, sizes_table, grows_table, fills_table, copies_table, inits_table, drops_elem};

use crate::memories::{address_type, take_three};
use crate::plain::{check_binary, check_unary};
use wast_valid_machine::{
    Cause, Context, State, Stop, Ty, does_ref_match, elem_at, passes, table_at,
};

/// Checks `table.get`.
#[tactic(auto, using(wast_valid_machine::proofs::Binds::then_ok, wast_valid_machine::proofs::Binds::then_reports, wast_valid_machine::proofs::Binds::reports_bind, wast_valid_machine::proofs::Binds::reports_memory), unfolding(crate::specs::Steps::gets_table, wast_valid_machine::specs::Checks::bind))]
pub(crate) fn check_table_get(state: &mut State, c: &Context, x: u32) -> Result<(), Stop>
    ensures ok { OnOk result (gets_table c.now x state.old ≡ Ok state.new) }
    ensures err { IfErr result (λ e. Reports (gets_table c.now x state.old) e) }
{
    let table = table_at(c, x)?;
    check_unary(
        state,
        c.types.as_slice(),
        address_type(table.is_64),
        Ty::Ref(table.elem),
    )?;
    Ok(())
}

/// Checks `table.set`.
#[tactic(auto, using(wast_valid_machine::proofs::Binds::then_ok, wast_valid_machine::proofs::Binds::then_reports, wast_valid_machine::proofs::Binds::reports_bind, wast_valid_machine::proofs::Binds::reports_memory), unfolding(crate::specs::Steps::sets_table, wast_valid_machine::specs::Checks::bind))]
pub(crate) fn check_table_set(state: &mut State, c: &Context, x: u32) -> Result<(), Stop>
    ensures ok { OnOk result (sets_table c.now x state.old ≡ Ok state.new) }
    ensures err { IfErr result (λ e. Reports (sets_table c.now x state.old) e) }
{
    let table = table_at(c, x)?;
    state.take_as(c.types.as_slice(), Ty::Ref(table.elem))?;
    state.take_as(c.types.as_slice(), address_type(table.is_64))?;
    Ok(())
}

/// Checks `table.size`.
#[tactic(auto, using(wast_valid_machine::proofs::Binds::then_ok, wast_valid_machine::proofs::Binds::then_reports, wast_valid_machine::proofs::Binds::reports_bind, wast_valid_machine::proofs::Binds::reports_memory), unfolding(crate::specs::Steps::sizes_table, wast_valid_machine::specs::Checks::bind))]
pub(crate) fn check_table_size(state: &mut State, c: &Context, x: u32) -> Result<(), Stop>
    ensures ok { OnOk result (sizes_table c.now x state.old ≡ Ok state.new) }
    ensures err { IfErr result (λ e. Reports (sizes_table c.now x state.old) e) }
{
    let table = table_at(c, x)?;
    state.put(address_type(table.is_64))?;
    Ok(())
}

/// Checks `table.grow`.
#[tactic(auto, using(wast_valid_machine::proofs::Binds::then_ok, wast_valid_machine::proofs::Binds::then_reports, wast_valid_machine::proofs::Binds::reports_bind, wast_valid_machine::proofs::Binds::reports_memory), unfolding(crate::specs::Steps::grows_table, wast_valid_machine::specs::Checks::bind))]
pub(crate) fn check_table_grow(state: &mut State, c: &Context, x: u32) -> Result<(), Stop>
    ensures ok { OnOk result (grows_table c.now x state.old ≡ Ok state.new) }
    ensures err { IfErr result (λ e. Reports (grows_table c.now x state.old) e) }
{
    let table = table_at(c, x)?;
    let at = address_type(table.is_64);
    check_binary(state, c.types.as_slice(), Ty::Ref(table.elem), at, at)?;
    Ok(())
}

/// Checks `table.fill`.
#[tactic(auto, using(wast_valid_machine::proofs::Binds::then_ok, wast_valid_machine::proofs::Binds::then_reports, wast_valid_machine::proofs::Binds::reports_bind, wast_valid_machine::proofs::Binds::reports_memory), unfolding(crate::specs::Steps::fills_table, wast_valid_machine::specs::Checks::bind))]
pub(crate) fn check_table_fill(state: &mut State, c: &Context, x: u32) -> Result<(), Stop>
    ensures ok { OnOk result (fills_table c.now x state.old ≡ Ok state.new) }
    ensures err { IfErr result (λ e. Reports (fills_table c.now x state.old) e) }
{
    let table = table_at(c, x)?;
    let at = address_type(table.is_64);
    take_three(state, c.types.as_slice(), at, Ty::Ref(table.elem), at)?;
    Ok(())
}

/// Checks `table.copy`.
#[tactic(auto, using(wast_valid_machine::proofs::Binds::then_ok, wast_valid_machine::proofs::Binds::then_reports, wast_valid_machine::proofs::Binds::reports_bind, wast_valid_machine::proofs::Binds::reports_memory), unfolding(crate::specs::Steps::copies_table, wast_valid_machine::specs::Checks::bind, wast_valid_machine::specs::Checks::check))]
pub(crate) fn check_table_copy(state: &mut State, c: &Context, x: u32, y: u32) -> Result<(), Stop>
    ensures ok { OnOk result (copies_table c.now x y state.old ≡ Ok state.new) }
    ensures err { IfErr result (λ e. Reports (copies_table c.now x y state.old) e) }
{
    let dst = table_at(c, x)?;
    let src = table_at(c, y)?;
    passes(
        does_ref_match(c.types.as_slice(), src.elem, dst.elem),
        Cause::Elements {
            expected: dst.elem,
            found: src.elem,
        },
    )?;
    let count = address_type(dst.is_64 && src.is_64);
    take_three(
        state,
        c.types.as_slice(),
        address_type(dst.is_64),
        address_type(src.is_64),
        count,
    )?;
    Ok(())
}

/// Checks `table.init`.
#[tactic(auto, using(wast_valid_machine::proofs::Binds::then_ok, wast_valid_machine::proofs::Binds::then_reports, wast_valid_machine::proofs::Binds::reports_bind, wast_valid_machine::proofs::Binds::reports_memory), unfolding(crate::specs::Steps::inits_table, wast_valid_machine::specs::Checks::bind, wast_valid_machine::specs::Checks::check))]
pub(crate) fn check_table_init(state: &mut State, c: &Context, x: u32, y: u32) -> Result<(), Stop>
    ensures ok { OnOk result (inits_table c.now x y state.old ≡ Ok state.new) }
    ensures err { IfErr result (λ e. Reports (inits_table c.now x y state.old) e) }
{
    let dst = table_at(c, x)?;
    let src = elem_at(c, y)?;
    passes(
        does_ref_match(c.types.as_slice(), src, dst.elem),
        Cause::Elements {
            expected: dst.elem,
            found: src,
        },
    )?;
    take_three(
        state,
        c.types.as_slice(),
        address_type(dst.is_64),
        Ty::I32,
        Ty::I32,
    )?;
    Ok(())
}

/// Checks `elem.drop`.
#[tactic(auto, using(wast_valid_machine::proofs::Binds::then_ok, wast_valid_machine::proofs::Binds::then_reports, wast_valid_machine::proofs::Binds::reports_bind, wast_valid_machine::proofs::Binds::reports_memory), unfolding(crate::specs::Steps::drops_elem, wast_valid_machine::specs::Checks::bind))]
pub(crate) fn check_elem_drop(state: &mut State, c: &Context, x: u32) -> Result<(), Stop>
    ensures ok { OnOk result (drops_elem c.now x state.old ≡ Ok state.new) }
    ensures err { IfErr result (λ e. Reports (drops_elem c.now x state.old) e) }
{
    let _elem = elem_at(c, x)?;
    Ok(())
}
