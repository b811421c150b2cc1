//! Memories (validation: memory instructions).

ghost use Rattle.std.specs.Prelude.{◌≡◌, Ok, IfOk, IfErr, OnOk, OnErr, Some};
ghost use Rattle.wast_valid_machine.specs.Reports.{Reports};
ghost use Rattle.wast_valid.specs.Steps.{address, offset_fits, bytes_of, use_of, memory_use, moves, accesses, lane_moves, lane_accesses, takes_three, sizes_memory, grows_memory, fills_memory, copies_memory, drops_data, inits_memory};

use crate::instrs::MemUse;
use crate::plain::check_unary;
use crate::rows::{Access, LaneAccess};
use wast_valid_machine::{Cause, Context, Def, State, Stop, Ty, memory_at, passes};

/// Returns the type of an address, or of a table index.
#[tactic(auto, unfolding(crate::specs::Steps::address))]
pub(crate) fn address_type(is_64: bool) -> Ty
    ensures { result ≡ address is_64 }
{
    if is_64 { Ty::I64 } else { Ty::I32 }
}

/// Returns whether an offset is an address of a memory.
#[tactic(auto, unfolding(crate::specs::Steps::offset_fits))]
fn does_offset_fit(is_64: bool, offset: u64) -> bool
    ensures { result ≡ offset_fits is_64 offset }
{
    if is_64 {
        return true;
    }
    offset < 0x1_0000_0000
}

/// Returns the number of bytes of an access.
#[tactic(auto, unfolding(crate::specs::Steps::bytes_of))]
fn byte_count(access: Access) -> u64
    ensures { result ≡ bytes_of access }
{
    match access {
        Access::Load(_, n) | Access::Store(_, n) => n,
    }
}

/// Checks a memory argument, and returns the type of the address.
#[tactic(auto, unfolding(crate::specs::Steps::use_of, wast_valid_machine::specs::Checks::bind, wast_valid_machine::specs::Checks::check, wast_valid_machine::specs::Reports::Reports))]
fn check_use(is_64: bool, bytes: u64, arg: MemUse) -> Result<Ty, Stop>
    ensures ok { IfOk result (λ t. use_of is_64 bytes arg ≡ Ok t) }
    ensures err { IfErr result (λ e. Reports (use_of is_64 bytes arg) e) }
{
    if arg.align > bytes {
        return Err(Stop::Invalid(Cause::Align {
            natural: bytes,
            found: arg.align,
        }));
    }
    if !does_offset_fit(is_64, arg.offset) {
        return Err(Stop::Invalid(Cause::Offset(arg.offset)));
    }
    Ok(address_type(is_64))
}

/// Checks the memory argument of an access, and returns the type of the address.
#[tactic(auto, using(wast_valid_machine::proofs::Binds::then_ok, wast_valid_machine::proofs::Binds::then_reports, wast_valid_machine::proofs::Binds::reports_bind, wast_valid_machine::proofs::Binds::reports_memory), unfolding(crate::specs::Steps::memory_use, wast_valid_machine::specs::Checks::bind))]
fn memory_use_of(c: &Context, bytes: u64, arg: MemUse) -> Result<Ty, Stop>
    ensures ok { IfOk result (λ t. memory_use c.now bytes arg ≡ Ok t) }
    ensures err { IfErr result (λ e. Reports (memory_use c.now bytes arg) e) }
{
    let memory = memory_at(c, arg.memory)?;
    let at = check_use(memory.is_64, bytes, arg)?;
    Ok(at)
}

/// Checks the operand and the result of a load.
#[tactic(auto, using(wast_valid_machine::proofs::Binds::then_ok, wast_valid_machine::proofs::Binds::then_reports, wast_valid_machine::proofs::Binds::reports_bind, wast_valid_machine::proofs::Binds::reports_memory), unfolding(crate::specs::Steps::moves, wast_valid_machine::specs::Checks::bind))]
pub(crate) fn check_load(
    state: &mut State,
    types: &[Def],
    at: Ty,
    t: Ty,
    n: u64,
) -> Result<(), Stop>
    ensures ok { OnOk result (moves types.now at (Access.Load t n) state.old ≡ Ok state.new) }
    ensures err { IfErr result (λ e. Reports (moves types.now at (Access.Load t n) state.old) e) }
{
    state.take_as(types, at)?;
    state.put(t)?;
    Ok(())
}

/// Checks the operands of a store.
#[tactic(auto, using(wast_valid_machine::proofs::Binds::then_ok, wast_valid_machine::proofs::Binds::then_reports, wast_valid_machine::proofs::Binds::reports_bind, wast_valid_machine::proofs::Binds::reports_memory), unfolding(crate::specs::Steps::moves, wast_valid_machine::specs::Checks::bind))]
pub(crate) fn check_store(
    state: &mut State,
    types: &[Def],
    at: Ty,
    t: Ty,
    n: u64,
) -> Result<(), Stop>
    ensures ok { OnOk result (moves types.now at (Access.Store t n) state.old ≡ Ok state.new) }
    ensures err { IfErr result (λ e. Reports (moves types.now at (Access.Store t n) state.old) e) }
{
    state.take_as(types, t)?;
    state.take_as(types, at)?;
    Ok(())
}

/// Checks the operands and results of an access.
#[tactic(auto, unfolding(crate::specs::Steps::moves, wast_valid_machine::specs::Checks::bind))]
pub(crate) fn check_move(
    state: &mut State,
    types: &[Def],
    at: Ty,
    access: Access,
) -> Result<(), Stop>
    ensures ok { OnOk result (moves types.now at access state.old ≡ Ok state.new) }
    ensures err { IfErr result (λ e. Reports (moves types.now at access state.old) e) }
{
    match access {
        Access::Load(t, n) => check_load(state, types, at, t, n),
        Access::Store(t, n) => check_store(state, types, at, t, n),
    }
}

/// Checks a load or a store.
#[tactic(auto, using(wast_valid_machine::proofs::Binds::then_ok, wast_valid_machine::proofs::Binds::then_reports, wast_valid_machine::proofs::Binds::reports_bind, wast_valid_machine::proofs::Binds::reports_memory), unfolding(crate::specs::Steps::accesses, wast_valid_machine::specs::Checks::bind))]
pub(crate) fn check_known_access(
    state: &mut State,
    c: &Context,
    access: Access,
    arg: MemUse,
) -> Result<(), Stop>
    ensures ok { OnOk result (accesses c.now (Some access) arg state.old ≡ Ok state.new) }
    ensures err { IfErr result (λ e. Reports (accesses c.now (Some access) arg state.old) e) }
{
    let at = memory_use_of(c, byte_count(access), arg)?;
    check_move(state, c.types.as_slice(), at, access)?;
    Ok(())
}

/// Checks a load or a store, or an instruction that accesses memory otherwise.
#[tactic(auto, unfolding(crate::specs::Steps::accesses, wast_valid_machine::specs::Reports::Reports))]
pub(crate) fn check_access(
    state: &mut State,
    c: &Context,
    access: Option<Access>,
    arg: MemUse,
) -> Result<(), Stop>
    ensures ok { OnOk result (accesses c.now access arg state.old ≡ Ok state.new) }
    ensures err { IfErr result (λ e. Reports (accesses c.now access arg state.old) e) }
{
    match access {
        None => Err(Stop::Invalid(Cause::Unsupported)),
        Some(access) => check_known_access(state, c, access, arg),
    }
}

/// Checks the operands and the result of a load of a lane.
#[tactic(auto, using(wast_valid_machine::proofs::Binds::then_ok, wast_valid_machine::proofs::Binds::then_reports, wast_valid_machine::proofs::Binds::reports_bind, wast_valid_machine::proofs::Binds::reports_memory), unfolding(crate::specs::Steps::lane_moves, wast_valid_machine::specs::Checks::bind))]
pub(crate) fn check_lane_load(
    state: &mut State,
    types: &[Def],
    at: Ty,
    t: Ty,
    n: u64,
) -> Result<(), Stop>
    ensures ok { OnOk result (lane_moves types.now at (Access.Load t n) state.old ≡ Ok state.new) }
    ensures err { IfErr result (λ e. Reports (lane_moves types.now at (Access.Load t n) state.old) e) }
{
    state.take_as(types, Ty::V128)?;
    state.take_as(types, at)?;
    state.put(Ty::V128)?;
    Ok(())
}

/// Checks the operands of a store of a lane.
#[tactic(auto, using(wast_valid_machine::proofs::Binds::then_ok, wast_valid_machine::proofs::Binds::then_reports, wast_valid_machine::proofs::Binds::reports_bind, wast_valid_machine::proofs::Binds::reports_memory), unfolding(crate::specs::Steps::lane_moves, wast_valid_machine::specs::Checks::bind))]
pub(crate) fn check_lane_store(
    state: &mut State,
    types: &[Def],
    at: Ty,
    t: Ty,
    n: u64,
) -> Result<(), Stop>
    ensures ok { OnOk result (lane_moves types.now at (Access.Store t n) state.old ≡ Ok state.new) }
    ensures err { IfErr result (λ e. Reports (lane_moves types.now at (Access.Store t n) state.old) e) }
{
    state.take_as(types, Ty::V128)?;
    state.take_as(types, at)?;
    Ok(())
}

/// Checks the operands and results of an access of a lane.
#[tactic(auto, unfolding(crate::specs::Steps::lane_moves, wast_valid_machine::specs::Checks::bind))]
pub(crate) fn check_lane_move(
    state: &mut State,
    types: &[Def],
    at: Ty,
    access: Access,
) -> Result<(), Stop>
    ensures ok { OnOk result (lane_moves types.now at access state.old ≡ Ok state.new) }
    ensures err { IfErr result (λ e. Reports (lane_moves types.now at access state.old) e) }
{
    match access {
        Access::Load(t, n) => check_lane_load(state, types, at, t, n),
        Access::Store(t, n) => check_lane_store(state, types, at, t, n),
    }
}

/// Checks a load or a store of a lane.
#[tactic(auto, using(wast_valid_machine::proofs::Binds::then_ok, wast_valid_machine::proofs::Binds::then_reports, wast_valid_machine::proofs::Binds::reports_bind, wast_valid_machine::proofs::Binds::reports_memory), unfolding(crate::specs::Steps::lane_accesses, wast_valid_machine::specs::Checks::bind, wast_valid_machine::specs::Checks::check))]
pub(crate) fn check_lane_access(
    state: &mut State,
    c: &Context,
    used: LaneAccess,
    arg: MemUse,
    lane: u8,
) -> Result<(), Stop>
    ensures ok { OnOk result (lane_accesses c.now used arg lane state.old ≡ Ok state.new) }
    ensures err { IfErr result (λ e. Reports (lane_accesses c.now used arg lane state.old) e) }
{
    let at = memory_use_of(c, byte_count(used.access), arg)?;
    passes(lane < used.lanes, Cause::Lane(lane))?;
    check_lane_move(state, c.types.as_slice(), at, used.access)?;
    Ok(())
}

/// Pops three operands.
#[tactic(auto, using(wast_valid_machine::proofs::Binds::then_ok, wast_valid_machine::proofs::Binds::then_reports, wast_valid_machine::proofs::Binds::reports_bind, wast_valid_machine::proofs::Binds::reports_memory), unfolding(crate::specs::Steps::takes_three, wast_valid_machine::specs::Checks::bind))]
pub(crate) fn take_three(state: &mut State, types: &[Def], a: Ty, b: Ty, c: Ty) -> Result<(), Stop>
    ensures ok { OnOk result (takes_three types.now a b c state.old ≡ Ok state.new) }
    ensures err { IfErr result (λ e. Reports (takes_three types.now a b c state.old) e) }
{
    state.take_as(types, c)?;
    state.take_as(types, b)?;
    state.take_as(types, a)?;
    Ok(())
}

/// Checks `memory.size`.
#[tactic(auto, using(wast_valid_machine::proofs::Binds::then_ok, wast_valid_machine::proofs::Binds::then_reports, wast_valid_machine::proofs::Binds::reports_bind, wast_valid_machine::proofs::Binds::reports_memory), unfolding(crate::specs::Steps::sizes_memory, wast_valid_machine::specs::Checks::bind))]
pub(crate) fn check_memory_size(state: &mut State, c: &Context, x: u32) -> Result<(), Stop>
    ensures ok { OnOk result (sizes_memory c.now x state.old ≡ Ok state.new) }
    ensures err { IfErr result (λ e. Reports (sizes_memory c.now x state.old) e) }
{
    let memory = memory_at(c, x)?;
    state.put(address_type(memory.is_64))?;
    Ok(())
}

/// Checks `memory.grow`.
#[tactic(auto, using(wast_valid_machine::proofs::Binds::then_ok, wast_valid_machine::proofs::Binds::then_reports, wast_valid_machine::proofs::Binds::reports_bind, wast_valid_machine::proofs::Binds::reports_memory), unfolding(crate::specs::Steps::grows_memory, wast_valid_machine::specs::Checks::bind))]
pub(crate) fn check_memory_grow(state: &mut State, c: &Context, x: u32) -> Result<(), Stop>
    ensures ok { OnOk result (grows_memory c.now x state.old ≡ Ok state.new) }
    ensures err { IfErr result (λ e. Reports (grows_memory c.now x state.old) e) }
{
    let memory = memory_at(c, x)?;
    let at = address_type(memory.is_64);
    check_unary(state, c.types.as_slice(), at, at)?;
    Ok(())
}

/// Checks `memory.fill`.
#[tactic(auto, using(wast_valid_machine::proofs::Binds::then_ok, wast_valid_machine::proofs::Binds::then_reports, wast_valid_machine::proofs::Binds::reports_bind, wast_valid_machine::proofs::Binds::reports_memory), unfolding(crate::specs::Steps::fills_memory, wast_valid_machine::specs::Checks::bind))]
pub(crate) fn check_memory_fill(state: &mut State, c: &Context, x: u32) -> Result<(), Stop>
    ensures ok { OnOk result (fills_memory c.now x state.old ≡ Ok state.new) }
    ensures err { IfErr result (λ e. Reports (fills_memory c.now x state.old) e) }
{
    let memory = memory_at(c, x)?;
    let at = address_type(memory.is_64);
    take_three(state, c.types.as_slice(), at, Ty::I32, at)?;
    Ok(())
}

/// Checks `memory.copy`.
#[tactic(auto, using(wast_valid_machine::proofs::Binds::then_ok, wast_valid_machine::proofs::Binds::then_reports, wast_valid_machine::proofs::Binds::reports_bind, wast_valid_machine::proofs::Binds::reports_memory), unfolding(crate::specs::Steps::copies_memory, wast_valid_machine::specs::Checks::bind))]
pub(crate) fn check_memory_copy(state: &mut State, c: &Context, x: u32, y: u32) -> Result<(), Stop>
    ensures ok { OnOk result (copies_memory c.now x y state.old ≡ Ok state.new) }
    ensures err { IfErr result (λ e. Reports (copies_memory c.now x y state.old) e) }
{
    let dst = memory_at(c, x)?;
    let src = memory_at(c, y)?;
    let count = address_type(dst.is_64 && src.is_64);
    take_three(
        state,
        c.types.as_slice(),
        address_type(dst.is_64),
        address_type(src.is_64),
        count,
    )?;
    Ok(())
}

/// Checks `data.drop`.
#[tactic(auto, unfolding(crate::specs::Steps::drops_data, wast_valid_machine::specs::Checks::bind, wast_valid_machine::specs::Checks::check))]
pub(crate) fn check_data(state: &mut State, c: &Context, x: u32) -> Result<(), Stop>
    ensures ok { OnOk result (drops_data c.now x state.old ≡ Ok state.new) }
    ensures err { IfErr result (λ e. Reports (drops_data c.now x state.old) e) }
{
    passes((x as usize) < c.datas, Cause::Data(x))
}

/// Checks `memory.init`.
#[tactic(auto, using(wast_valid_machine::proofs::Binds::then_ok, wast_valid_machine::proofs::Binds::then_reports, wast_valid_machine::proofs::Binds::reports_bind, wast_valid_machine::proofs::Binds::reports_memory), unfolding(crate::specs::Steps::inits_memory, wast_valid_machine::specs::Checks::bind))]
pub(crate) fn check_memory_init(state: &mut State, c: &Context, x: u32, y: u32) -> Result<(), Stop>
    ensures ok { OnOk result (inits_memory c.now x y state.old ≡ Ok state.new) }
    ensures err { IfErr result (λ e. Reports (inits_memory c.now x y state.old) e) }
{
    let memory = memory_at(c, x)?;
    check_data(state, c, y)?;
    take_three(
        state,
        c.types.as_slice(),
        address_type(memory.is_64),
        Ty::I32,
        Ty::I32,
    )?;
    Ok(())
}
