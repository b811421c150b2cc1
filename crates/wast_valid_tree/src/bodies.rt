//! The first violation of a body.

ghost use Rattle.std.specs.Prelude.{◌≡◌, map, IfOk};
ghost use Rattle.wast_valid.specs.Bodies.{first_invalid_body};
ghost use Rattle.wast_valid_tree.specs.Values.{instr_of};

use crate::values::instr_for;
use std::alloc::Global;
use wast_tree_nodes::Instruction;
use wast_valid::{Refused, Violation, check_end, check_one, found, start_body};
use wast_valid_machine::{Context, Sig};

/// Returns the first violation of a body, or `None` if it is valid (validation: functions).
///
/// `sig` is the type of the function, and `cs` has the canonical index of each type.
pub fn first_violation_of(
    alloc: Global,
    cs: &[u32],
    c: &Context,
    sig: Sig,
    instrs: &[Instruction],
) -> Result<Option<Violation>, Refused>
    ensures { IfOk result (λ v. v ≡ first_invalid_body c.now sig (map (instr_of cs.now) instrs.now)) }
{
    let mut state = match start_body(alloc, sig) {
        Ok(state) => state,
        Err(_) => return Err(Refused),
    };
    for n in 0..instrs.len() {
        let one = match instr_for(alloc, cs, &instrs[n]) {
            Ok(one) => one,
            Err(_) => return Err(Refused),
        };
        match check_one(&mut state, c, &one) {
            Ok(()) => {}
            Err(stop) => return found(n, stop),
        }
    }
    match check_end(&mut state, c) {
        Ok(()) => Ok(None),
        Err(stop) => found(instrs.len(), stop),
    }
}
