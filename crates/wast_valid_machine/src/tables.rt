//! The labels of `br_table`, and the results of tail calls (validation: control instructions).

ghost use Rattle.std.specs.Prelude.{◌≡◌, [], length, Ok, IfOk, IfErr, OnOk, OnErr};
ghost use Rattle.wast_valid_machine.specs.Control.{target, targets, branch_table, all_match, same_results, returns, tail_calls};
ghost use Rattle.wast_valid_machine.specs.Machine.{exchange, tys_of};
ghost use Rattle.wast_valid_machine.specs.Reports.{Reports};

use crate::lookups::passes;
use crate::matching::does_match;
use crate::stack::Stack;
use crate::state::{Cause, State, Stop, Tys};
use crate::types::{Def, Ty};
use crate::values::{params, results, type_at};

impl State {
    /// Checks that the operands have the types of a label. They stay.
    #[tactic(auto, using(crate::proofs::Binds::then_ok, crate::proofs::Binds::then_reports, crate::proofs::Binds::reports_bind), unfolding(crate::specs::Control::target, crate::specs::Checks::bind, crate::specs::Checks::check))]
    fn check_target(
        &mut self,
        types: &[Def],
        arity: usize,
        n: u32,
        kept: &mut Stack<Ty>,
    ) -> Result<(), Stop>
        requires { kept.old ≡ [] }
        ensures ok { OnOk result (target types.now arity n self.old ≡ Ok self.new) }
        ensures empty { OnOk result (kept.new ≡ []) }
        ensures err { IfErr result (λ e. Reports (target types.now arity n self.old) e) }
    {
        let tys = self.label_at(n as usize)?;
        let found = count_of(types, tys);
        passes(
            found == arity,
            Cause::Arity {
                expected: arity,
                found,
            },
        )?;
        self.exchange_tys(types, tys, kept)?;
        Ok(())
    }

    /// Checks that operands of these types are there. They stay.
    #[tactic(auto, unfolding(crate::specs::Machine::exchange, crate::specs::Machine::tys_of, crate::specs::Machine::keep_all, crate::specs::Machine::push_all))]
    fn exchange_tys(&mut self, types: &[Def], want: Tys, kept: &mut Stack<Ty>) -> Result<(), Stop>
        requires { kept.old ≡ [] }
        ensures ok { OnOk result (exchange types.now want self.old ≡ Ok self.new) }
        ensures empty { OnOk result (kept.new ≡ []) }
        ensures err { IfErr result (λ e. Reports (exchange types.now want self.old) e) }
    {
        match want {
            Tys::None_ => Ok(()),
            Tys::One(t) => {
                let one = [t];
                self.keep_list(types, &one, kept)
            }
            Tys::Params(n) => self.keep_list(types, params(types, n), kept),
            Tys::Results(n) => self.keep_list(types, results(types, n), kept),
        }
    }

    /// Checks the labels of `br_table` but the default one.
    fn check_targets(
        &mut self,
        types: &[Def],
        arity: usize,
        labels: &[u32],
        kept: &mut Stack<Ty>,
    ) -> Result<(), Stop>
        requires { kept.old ≡ [] }
        ensures ok { OnOk result (targets types.now arity labels.now self.old ≡ Ok self.new) }
        ensures err { IfErr result (λ e. Reports (targets types.now arity labels.now self.old) e) }
    {
        for k in 0..labels.len() {
            self.check_target(types, arity, labels[k], kept)?;
        }
        Ok(())
    }

    /// Checks `br_table`.
    #[tactic(auto, using(crate::proofs::Binds::then_ok, crate::proofs::Binds::then_reports, crate::proofs::Binds::reports_bind), unfolding(crate::specs::Control::branch_table, crate::specs::Checks::bind))]
    pub fn check_table(&mut self, types: &[Def], labels: &[u32], n: u32) -> Result<(), Stop>
        ensures ok { OnOk result (branch_table types.now labels.now n self.old ≡ Ok self.new) }
        ensures err { IfErr result (λ e. Reports (branch_table types.now labels.now n self.old) e) }
    {
        self.take_as(types, Ty::I32)?;
        let tys = self.label_at(n as usize)?;
        let mut kept = self.values.another();
        self.check_targets(types, count_of(types, tys), labels, &mut kept)?;
        self.branch_to(types, n as usize)?;
        Ok(())
    }

    /// Checks that the results of a function type match those of the function.
    #[tactic(auto, using(crate::proofs::Binds::then_ok, crate::proofs::Binds::then_reports, crate::proofs::Binds::reports_bind), unfolding(crate::specs::Control::same_results, crate::specs::Checks::bind))]
    fn check_results(&self, types: &[Def], n: u32) -> Result<(), Stop>
        ensures ok { OnOk result (same_results types.now n self.now ≡ Ok self.now) }
        ensures err { IfErr result (λ e. Reports (same_results types.now n self.now) e) }
    {
        let tys = self.label_at(self.frames.len().saturating_sub(1))?;
        passes(do_results_match(types, n, tys), Cause::Results(n))?;
        Ok(())
    }

    /// Checks a call that ends the function.
    #[tactic(auto, using(crate::proofs::Binds::then_ok, crate::proofs::Binds::then_reports, crate::proofs::Binds::reports_bind), unfolding(crate::specs::Control::tail_calls, crate::specs::Checks::bind))]
    pub fn tail_call(&mut self, types: &[Def], n: u32) -> Result<(), Stop>
        ensures ok { OnOk result (tail_calls types.now n self.old ≡ Ok self.new) }
        ensures err { IfErr result (λ e. Reports (tail_calls types.now n self.old) e) }
    {
        self.check_results(types, n)?;
        self.take_tys(types, Tys::Params(n))?;
        self.cut();
        Ok(())
    }

    /// Checks `return`.
    #[tactic(auto, unfolding(crate::specs::Control::returns))]
    pub fn return_all(&mut self, types: &[Def]) -> Result<(), Stop>
        ensures ok { OnOk result (returns types.now self.old ≡ Ok self.new) }
        ensures err { IfErr result (λ e. Reports (returns types.now self.old) e) }
    {
        let outermost = self.frames.len().saturating_sub(1);
        self.branch_to(types, outermost)
    }
}

/// Returns whether the results of a function type match these types.
#[tactic(auto, unfolding(crate::specs::Machine::tys_of))]
fn do_results_match(types: &[Def], n: u32, tys: Tys) -> bool
    ensures { result ≡ all_match types.now (tys_of types.now (Tys.Results n)) (tys_of types.now tys) }
{
    let found = results(types, n);
    match tys {
        Tys::None_ => do_all_match(types, found, &[]),
        Tys::One(t) => {
            let one = [t];
            do_all_match(types, found, &one)
        }
        Tys::Params(m) => do_all_match(types, found, params(types, m)),
        Tys::Results(m) => do_all_match(types, found, results(types, m)),
    }
}

/// Returns whether each type matches the one at the same position, and there are as many.
fn do_all_match(types: &[Def], found: &[Ty], expected: &[Ty]) -> bool
    ensures { result ≡ all_match types.now found.now expected.now }
{
    if found.len() != expected.len() {
        return false;
    }
    for i in 0..found.len() {
        if !does_match(types, type_at(found, i), type_at(expected, i)) {
            return false;
        }
    }
    true
}

/// Returns how many types are meant.
#[tactic(auto, unfolding(crate::specs::Machine::tys_of))]
pub fn count_of(types: &[Def], tys: Tys) -> usize
    ensures { result ≡ length (tys_of types.now tys) }
{
    match tys {
        Tys::None_ => 0,
        Tys::One(_) => 1,
        Tys::Params(n) => params(types, n).len(),
        Tys::Results(n) => results(types, n).len(),
    }
}
