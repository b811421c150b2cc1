//! Operands.

ghost use Rattle.std.specs.Prelude.{◌≡◌, [], ◌∷◌, ◌<◌, reverse, length, slice_get, Some, Ok, IfOk, IfErr, OnOk, OnErr};
ghost use Rattle.wast_valid_machine.specs.Machine.{pop_or, pop_as, keep_all, expect, expect_all, expect_tys, push, push_all, push_tys, tys_of};
ghost use Rattle.wast_valid_machine.specs.Reports.{Reports};

use crate::matching::does_match;
use crate::stack::Stack;
use crate::state::{Cause, State, Stop, Tys};
use crate::types::{Def, Shape, Ty};

impl State {
    /// Takes an operand.
    #[inline(always)]
    #[tactic(auto, unfolding(crate::specs::Machine::pop_or, crate::specs::Machine::pop_in, crate::specs::Machine::pop_by, crate::specs::Machine::pop_below, crate::specs::Machine::pop_top, crate::specs::Reports::Reports))]
    pub fn take(&mut self, cause: Cause) -> Result<Ty, Stop>
        ensures ok { IfOk result (λ t. pop_or cause self.old ≡ Ok (record { ty = t; rest = self.new })) }
        ensures err { IfErr result (λ e. Reports (pop_or cause self.old) e) }
    {
        let Some(frame) = self.frames.at(0) else {
            return Err(Stop::Invalid(Cause::NoBlock));
        };
        if self.values.len() <= frame.height {
            if frame.unreachable {
                return Ok(Ty::Unknown);
            }
            return Err(Stop::Invalid(cause));
        }
        match self.values.pop() {
            Some(t) => Ok(t),
            None => Err(Stop::Invalid(cause)),
        }
    }

    /// Takes an operand of a type.
    #[tactic(auto, using(crate::proofs::Binds::bind_ok, crate::proofs::Binds::reports_bind), unfolding(crate::specs::Machine::expect, crate::specs::Checks::check, crate::specs::Checks::bind, crate::specs::Reports::Reports))]
    pub fn take_as(&mut self, types: &[Def], want: Ty) -> Result<(), Stop>
        ensures ok { OnOk result (expect types.now want self.old ≡ Ok self.new) }
        ensures err { IfErr result (λ e. Reports (expect types.now want self.old) e) }
    {
        let found = self.take(Cause::Missing(want))?;
        if does_match(types, found, want) {
            Ok(())
        } else {
            Err(Stop::Invalid(Cause::Mismatch {
                expected: want,
                found,
            }))
        }
    }

    /// Takes an operand of a type, and returns the type that it has.
    #[tactic(auto, using(crate::proofs::Binds::bind_ok, crate::proofs::Binds::reports_bind), unfolding(crate::specs::Machine::pop_as, crate::specs::Checks::check, crate::specs::Checks::bind, crate::specs::Reports::Reports))]
    pub fn take_found(&mut self, types: &[Def], want: Ty) -> Result<Ty, Stop>
        ensures ok { IfOk result (λ t. pop_as types.now want self.old ≡ Ok (record { ty = t; rest = self.new })) }
        ensures err { IfErr result (λ e. Reports (pop_as types.now want self.old) e) }
    {
        let found = self.take(Cause::Missing(want))?;
        if does_match(types, found, want) {
            Ok(found)
        } else {
            Err(Stop::Invalid(Cause::Mismatch {
                expected: want,
                found,
            }))
        }
    }

    /// Checks that operands of these types are there. They stay.
    #[tactic(auto, using(crate::proofs::Binds::reports_memory))]
    pub fn keep_list(
        &mut self,
        types: &[Def],
        want: &[Ty],
        kept: &mut Stack<Ty>,
    ) -> Result<(), Stop>
        ensures ok { OnOk result ((keep_all types.now (reverse want.now) kept.old self.old ≡ Ok self.new) × (kept.new ≡ [])) }
        ensures err { IfErr result (λ e. Reports (keep_all types.now (reverse want.now) kept.old self.old) e) }
    {
        let mut left = want.len();
        while left > 0 {
            let last = type_at(want, left - 1);
            let found = self.take_found(types, last)?;
            match kept.push(found) {
                Ok(()) => {}
                Err(_) => return Err(Stop::Memory),
            }
            left -= 1;
        }
        self.put_back(kept)?;
        Ok(())
    }

    /// Puts operands back on top.
    fn put_back(&mut self, kept: &mut Stack<Ty>) -> Result<(), Stop>
        ensures ok { OnOk result (self.new ≡ push_all kept.old self.old) }
        ensures empty { OnOk result (kept.new ≡ []) }
        ensures err { IfErr result (λ e. e ≡ Stop.Memory) }
    {
        while let Some(t) = kept.pop() {
            self.put(t)?;
        }
        Ok(())
    }

    /// Takes operands of these types, the last one first.
    pub fn take_list(&mut self, types: &[Def], want: &[Ty]) -> Result<(), Stop>
        ensures ok { OnOk result (expect_all types.now (reverse want.now) self.old ≡ Ok self.new) }
        ensures err { IfErr result (λ e. Reports (expect_all types.now (reverse want.now) self.old) e) }
    {
        let mut left = want.len();
        while left > 0 {
            let last = type_at(want, left - 1);
            self.take_as(types, last)?;
            left -= 1;
        }
        Ok(())
    }

    /// Puts an operand on top.
    #[inline(always)]
    pub fn put(&mut self, t: Ty) -> Result<(), Stop>
        ensures ok { OnOk result (self.new ≡ push t self.old) }
        ensures err { IfErr result (λ e. e ≡ Stop.Memory) }
    {
        match self.values.push(t) {
            Ok(()) => Ok(()),
            Err(_) => Err(Stop::Memory),
        }
    }

    /// Puts operands on top, in order.
    pub fn put_list(&mut self, given: &[Ty]) -> Result<(), Stop>
        ensures ok { OnOk result (self.new ≡ push_all given.now self.old) }
        ensures err { IfErr result (λ e. e ≡ Stop.Memory) }
    {
        for i in 0..given.len() {
            self.put(type_at(given, i))?;
        }
        Ok(())
    }
}

/// Returns a type of a list.
#[inline(always)]
pub fn type_at(tys: &[Ty], n: usize) -> Ty
    requires { n < length tys.now }
    ensures { slice_get tys.now n ≡ Some result }
{
    tys[n]
}

/// Returns the parameters of a function type.
#[tactic(auto, unfolding(crate::specs::Machine::tys_of))]
pub fn params(types: &[Def], n: u32) -> &[Ty]
    ensures { result.now ≡ tys_of types.now (Tys.Params n) }
{
    match types.get(n as usize) {
        None => &[],
        Some(def) => match &def.shape {
            Shape::Func(f) => f.params.as_slice(),
            _ => &[],
        },
    }
}

/// Returns the results of a function type.
#[tactic(auto, unfolding(crate::specs::Machine::tys_of))]
pub fn results(types: &[Def], n: u32) -> &[Ty]
    ensures { result.now ≡ tys_of types.now (Tys.Results n) }
{
    match types.get(n as usize) {
        None => &[],
        Some(def) => match &def.shape {
            Shape::Func(f) => f.results.as_slice(),
            _ => &[],
        },
    }
}
