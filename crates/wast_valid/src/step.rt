//! One instruction.

ghost use Rattle.std.specs.Prelude.{◌≡◌, Ok, IfOk, IfErr, OnOk, OnErr};
ghost use Rattle.wast_valid_machine.specs.Reports.{Reports};
ghost use Rattle.wast_valid.specs.Steps.{step};

use crate::calls::{
    check_block, check_br_if, check_br_on_non_null, check_br_on_null, check_call,
    check_call_indirect, check_call_ref, check_if, check_return_call, check_return_call_indirect,
    check_return_call_ref,
};
use crate::instrs::Instr;
use crate::memories::{
    check_access, check_data, check_lane_access, check_memory_copy, check_memory_fill,
    check_memory_grow, check_memory_init, check_memory_size,
};
use crate::plain::{check_lane, check_plain, check_select, check_select_typed, check_shuffle};
use crate::references::{
    check_cast, check_ref_func, check_ref_null, check_struct_get, check_struct_new,
};
use crate::rows::{access_for, lane_access_for, lane_use_for};
use crate::tables::{
    check_elem_drop, check_table_copy, check_table_fill, check_table_get, check_table_grow,
    check_table_init, check_table_set, check_table_size,
};
use crate::variables::{
    check_global_get, check_global_set, check_local_get, check_local_set, check_local_tee,
};
use wast_valid_machine::{Cause, Context, Kind, State, Stop, Ty};

/// Checks an instruction.
#[tactic(auto, using(wast_valid_machine::proofs::Binds::reports_memory), unfolding(crate::specs::Steps::step, wast_valid_machine::specs::Reports::Reports))]
pub fn check_one(state: &mut State, c: &Context, instr: &Instr) -> Result<(), Stop>
    ensures ok { OnOk result (step c.now instr.now state.old ≡ Ok state.new) }
    ensures err { IfErr result (λ e. Reports (step c.now instr.now state.old) e) }
{
    match instr {
        Instr::Unsupported => Err(Stop::Invalid(Cause::Unsupported)),
        Instr::Plain(op) => check_plain(state, c.types.as_slice(), *op),
        Instr::Mem(op, arg) => check_access(state, c, access_for(*op), *arg),
        Instr::MemLane(op, arg, lane) => check_lane_access(
            state,
            c,
            lane_access_for(*op),
            *arg,
            *lane,
        ),
        Instr::Lane(op, lane) => check_lane(state, c.types.as_slice(), lane_use_for(*op), *lane),
        Instr::Const(t) => state.put(*t),
        Instr::i8x16_shuffle(lane) => check_shuffle(state, c.types.as_slice(), *lane),
        Instr::select => check_select(state, c.types.as_slice()),
        Instr::select_typed(t) => check_select_typed(state, c.types.as_slice(), *t),
        Instr::select_many(n) => Err(Stop::Invalid(Cause::SelectTypes(*n))),
        Instr::block(sig) => check_block(state, c.types.as_slice(), Kind::Block, *sig),
        Instr::loop_(sig) => check_block(state, c.types.as_slice(), Kind::Loop, *sig),
        Instr::if_(sig) => check_if(state, c.types.as_slice(), *sig),
        Instr::else_ => state.turn_frame(c.types.as_slice()),
        Instr::end_ => state.end_frame(c.types.as_slice()),
        Instr::br(n) => state.branch_to(c.types.as_slice(), *n as usize),
        Instr::br_if(n) => check_br_if(state, c.types.as_slice(), *n),
        Instr::br_table(labels, n) => state.check_table(c.types.as_slice(), labels.as_slice(), *n),
        Instr::br_on_null(n) => check_br_on_null(state, c.types.as_slice(), *n),
        Instr::br_on_non_null(n) => check_br_on_non_null(state, c.types.as_slice(), *n),
        Instr::call(x) => check_call(state, c, *x),
        Instr::call_ref(n) => check_call_ref(state, c.types.as_slice(), *n),
        Instr::call_indirect(n, x) => check_call_indirect(state, c, *n, *x),
        Instr::return_call(x) => check_return_call(state, c, *x),
        Instr::return_call_ref(n) => check_return_call_ref(state, c.types.as_slice(), *n),
        Instr::return_call_indirect(n, x) => check_return_call_indirect(state, c, *n, *x),
        Instr::local_get(x) => check_local_get(state, c, *x),
        Instr::local_set(x) => check_local_set(state, c, *x),
        Instr::local_tee(x) => check_local_tee(state, c, *x),
        Instr::global_get(x) => check_global_get(state, c, *x),
        Instr::global_set(x) => check_global_set(state, c, *x),
        Instr::table_get(x) => check_table_get(state, c, *x),
        Instr::table_set(x) => check_table_set(state, c, *x),
        Instr::table_size(x) => check_table_size(state, c, *x),
        Instr::table_grow(x) => check_table_grow(state, c, *x),
        Instr::table_fill(x) => check_table_fill(state, c, *x),
        Instr::table_copy(x, y) => check_table_copy(state, c, *x, *y),
        Instr::table_init(x, y) => check_table_init(state, c, *x, *y),
        Instr::elem_drop(x) => check_elem_drop(state, c, *x),
        Instr::memory_size(x) => check_memory_size(state, c, *x),
        Instr::memory_grow(x) => check_memory_grow(state, c, *x),
        Instr::memory_fill(x) => check_memory_fill(state, c, *x),
        Instr::memory_copy(x, y) => check_memory_copy(state, c, *x, *y),
        Instr::memory_init(x, y) => check_memory_init(state, c, *x, *y),
        Instr::data_drop(x) => check_data(state, c, *x),
        Instr::ref_null(h) => check_ref_null(state, c.types.as_slice(), *h),
        Instr::ref_func(x) => check_ref_func(state, c, *x),
        Instr::ref_test(r) => check_cast(state, c.types.as_slice(), *r, Ty::I32),
        Instr::ref_cast(r) => check_cast(state, c.types.as_slice(), *r, Ty::Ref(*r)),
        Instr::struct_new(n) => check_struct_new(state, c.types.as_slice(), *n),
        Instr::struct_get(n, k) => check_struct_get(state, c.types.as_slice(), *n, *k),
    }
}
