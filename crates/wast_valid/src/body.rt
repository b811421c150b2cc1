//! Function bodies and their first violation.

ghost use Rattle.std.specs.Prelude.{◌≡◌, Ok, IfOk, IfErr, OnOk, OnErr, Some, None};
ghost use Rattle.wast_valid_machine.specs.Reports.{Reports};
ghost use Rattle.wast_valid.specs.Bodies.{first_invalid_body, end_of, start, IsFound};

use crate::instrs::Instr;
use crate::step::check_one;
use std::alloc::Global;
use wast_valid_machine::{Cause, Context, Kind, Sig, Stack, State, Stop};

/// Allocation failed.
#[derive(Clone, Copy)]
pub struct Refused;

/// A violation: which instruction is invalid, and why.
#[derive(Clone, Copy)]
pub struct Violation {
    /// The number of the instruction, from 0. The end of the body counts as one more.
    pub instr: usize,
    /// Why it is invalid.
    pub cause: Cause,
}

/// Returns the first violation of a function body, or `None` if it is valid (validation:
/// functions).
///
/// `sig` is the type of the function: [`Sig::Func`] of its type index.
///
/// For a function with a result `i32` and the body `i64.const 1`, the violation is at instruction
/// 1, the end: a mismatch, with `i32` expected and `i64` found.
pub fn first_violation(
    alloc: Global,
    c: &Context,
    sig: Sig,
    instrs: &[Instr],
) -> Result<Option<Violation>, Refused>
    ensures { IfOk result (λ v. v ≡ first_invalid_body c.now sig instrs.now) }
{
    let mut state = match start_body(alloc, sig) {
        Ok(state) => state,
        Err(_) => return Err(Refused),
    };
    for n in 0..instrs.len() {
        match check_one(&mut state, c, &instrs[n]) {
            Ok(()) => {}
            Err(stop) => return found(n, stop),
        }
    }
    match check_end(&mut state, c) {
        Ok(()) => Ok(None),
        Err(stop) => found(instrs.len(), stop),
    }
}

/// Returns the state at the start of a body.
pub fn start_body(alloc: Global, sig: Sig) -> Result<State, Refused>
    ensures { IfOk result (λ s. s ≡ start sig) }
{
    let mut state = State {
        values: Stack::new(alloc),
        frames: Stack::new(alloc),
        inits: Stack::new(alloc),
    };
    match state.open(Kind::Body, sig) {
        Ok(()) => Ok(state),
        Err(_) => Err(Refused),
    }
}

/// Returns the violation at an instruction, or that allocation failed.
pub fn found(n: usize, stop: Stop) -> Result<Option<Violation>, Refused>
    ensures { IfOk result (λ v. IsFound n stop v) }
{
    match stop {
        Stop::Memory => Err(Refused),
        Stop::Invalid(cause) => Ok(Some(Violation { instr: n, cause })),
    }
}

/// Checks the end of a body.
#[tactic(auto, using(wast_valid_machine::proofs::Binds::then_ok, wast_valid_machine::proofs::Binds::then_reports, wast_valid_machine::proofs::Binds::reports_bind, wast_valid_machine::proofs::Binds::reports_memory), unfolding(crate::specs::Bodies::end_of, wast_valid_machine::specs::Checks::bind, wast_valid_machine::specs::Checks::check, wast_valid_machine::specs::Reports::Reports))]
pub fn check_end(state: &mut State, c: &Context) -> Result<(), Stop>
    ensures ok { OnOk result (end_of c.now state.old ≡ Ok state.new) }
    ensures err { IfErr result (λ e. Reports (end_of c.now state.old) e) }
{
    let _frame = state.leave_frame(c.types.as_slice())?;
    if state.frames.len() == 0 {
        Ok(())
    } else {
        Err(Stop::Invalid(Cause::NoBlock))
    }
}
