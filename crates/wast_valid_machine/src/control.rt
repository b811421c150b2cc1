//! Control frames and labels.

ghost use Rattle.std.specs.Prelude.{◌≡◌, Ok, IfOk, IfErr, OnOk, OnErr};
ghost use Rattle.wast_valid_machine.specs.Machine.{expect_tys, push_tys, tys_of, open_frame, enter, leave, cut_off, starts, ends, label_tys};
ghost use Rattle.wast_valid_machine.specs.Control.{block_type, begins, label, branch, may_branch, converts, ends_block, ends_kind, turns_block, turns_kind};
ghost use Rattle.wast_valid_machine.specs.Reports.{Reports};

use crate::state::{Cause, Frame, Kind, Sig, State, Stop, Tys};
use crate::types::{Def, Shape};
use crate::values::{params, results};

/// Returns the types at the start of a block.
#[tactic(auto, unfolding(crate::specs::Machine::starts))]
pub fn starts_of(sig: Sig) -> Tys
    ensures { result ≡ starts sig }
{
    match sig {
        Sig::Empty | Sig::One(_) => Tys::None_,
        Sig::Func(n) => Tys::Params(n),
    }
}

/// Returns the types at its end.
#[tactic(auto, unfolding(crate::specs::Machine::ends))]
pub fn ends_of(sig: Sig) -> Tys
    ensures { result ≡ ends sig }
{
    match sig {
        Sig::Empty => Tys::None_,
        Sig::One(t) => Tys::One(t),
        Sig::Func(n) => Tys::Results(n),
    }
}

/// Returns the types of the label of a frame.
#[tactic(auto, unfolding(crate::specs::Machine::label_tys))]
fn label_of(kind: Kind, sig: Sig) -> Tys
    ensures { result ≡ label_tys kind sig }
{
    match kind {
        Kind::Loop => starts_of(sig),
        _ => ends_of(sig),
    }
}

/// Checks that the index of a block type is that of a function type.
#[tactic(auto, unfolding(crate::specs::Control::block_type, crate::specs::Control::func_type, crate::specs::Control::is_func, crate::specs::Checks::bind, crate::specs::Checks::check, crate::specs::Checks::known, crate::specs::Reports::Reports))]
pub fn check_sig(types: &[Def], sig: Sig) -> Result<(), Stop>
    ensures ok { OnOk result (block_type types.now sig ≡ Ok sig) }
    ensures err { IfErr result (λ e. Reports (block_type types.now sig) e) }
{
    match sig {
        Sig::Func(n) => match types.get(n as usize) {
            None => Err(Stop::Invalid(Cause::Type(n))),
            Some(def) => match &def.shape {
                Shape::Func(_) => Ok(()),
                _ => Err(Stop::Invalid(Cause::NotFunc(n))),
            },
        },
        _ => Ok(()),
    }
}

impl State {
    /// Takes operands of these types.
    #[tactic(auto, unfolding(crate::specs::Machine::expect_tys, crate::specs::Machine::tys_of, crate::specs::Machine::expect_all))]
    pub fn take_tys(&mut self, types: &[Def], want: Tys) -> Result<(), Stop>
        ensures ok { OnOk result (expect_tys types.now want self.old ≡ Ok self.new) }
        ensures err { IfErr result (λ e. Reports (expect_tys types.now want self.old) e) }
    {
        match want {
            Tys::None_ => Ok(()),
            Tys::One(t) => {
                let one = [t];
                self.take_list(types, &one)
            }
            Tys::Params(n) => self.take_list(types, params(types, n)),
            Tys::Results(n) => self.take_list(types, results(types, n)),
        }
    }

    /// Puts operands of these types on top.
    #[tactic(auto, unfolding(crate::specs::Machine::push_tys, crate::specs::Machine::tys_of, crate::specs::Machine::push_all))]
    pub fn put_tys(&mut self, types: &[Def], given: Tys) -> Result<(), Stop>
        ensures ok { OnOk result (self.new ≡ push_tys types.now given self.old) }
        ensures err { IfErr result (λ e. e ≡ Stop.Memory) }
    {
        match given {
            Tys::None_ => Ok(()),
            Tys::One(t) => self.put(t),
            Tys::Params(n) => self.put_list(params(types, n)),
            Tys::Results(n) => self.put_list(results(types, n)),
        }
    }

    /// Takes operands, and puts others on top.
    #[tactic(auto, using(crate::proofs::Binds::then_ok, crate::proofs::Binds::then_reports, crate::proofs::Binds::reports_bind, crate::proofs::Binds::reports_memory), unfolding(crate::specs::Control::converts, crate::specs::Checks::bind))]
    pub fn convert(&mut self, types: &[Def], takes: Tys, gives: Tys) -> Result<(), Stop>
        ensures ok { OnOk result (converts types.now takes gives self.old ≡ Ok self.new) }
        ensures err { IfErr result (λ e. Reports (converts types.now takes gives self.old) e) }
    {
        self.take_tys(types, takes)?;
        self.put_tys(types, gives)?;
        Ok(())
    }

    /// Opens a frame, without its operands.
    pub fn open(&mut self, kind: Kind, sig: Sig) -> Result<(), Stop>
        ensures ok { OnOk result (self.new ≡ open_frame kind sig self.old) }
        ensures err { IfErr result (λ e. e ≡ Stop.Memory) }
    {
        let frame = Frame {
            kind,
            sig,
            height: self.values.len(),
            inits: self.inits.len(),
            unreachable: false,
        };
        match self.frames.push(frame) {
            Ok(()) => Ok(()),
            Err(_) => Err(Stop::Memory),
        }
    }

    /// Opens a frame with its operands.
    pub fn enter_frame(&mut self, types: &[Def], kind: Kind, sig: Sig) -> Result<(), Stop>
        ensures ok { OnOk result (self.new ≡ enter types.now kind sig self.old) }
        ensures err { IfErr result (λ e. e ≡ Stop.Memory) }
    {
        self.open(kind, sig)?;
        self.put_tys(types, starts_of(sig))?;
        Ok(())
    }

    /// Makes the rest of the innermost frame unreachable.
    pub fn cut(&mut self)
        ensures { self.new ≡ cut_off self.old }
    {
        if let Some(frame) = self.frames.at(0) {
            self.values.cut(frame.height);
            self.frames.replace(Frame {
                unreachable: true,
                ..frame
            });
        }
    }

    /// Closes the innermost frame, and returns it.
    #[tactic(auto, using(crate::proofs::Binds::then_ok, crate::proofs::Binds::then_reports, crate::proofs::Binds::reports_bind), unfolding(crate::specs::Machine::leave, crate::specs::Machine::leave_in, crate::specs::Checks::bind, crate::specs::Checks::check, crate::specs::Reports::Reports))]
    pub fn leave_frame(&mut self, types: &[Def]) -> Result<Frame, Stop>
        ensures ok { IfOk result (λ f. leave types.now self.old ≡ Ok (record { frame = f; rest = self.new })) }
        ensures err { IfErr result (λ e. Reports (leave types.now self.old) e) }
    {
        let Some(frame) = self.frames.at(0) else {
            return Err(Stop::Invalid(Cause::NoBlock));
        };
        self.take_tys(types, ends_of(frame.sig))?;
        let height = self.values.len();
        if height != frame.height {
            return Err(Stop::Invalid(Cause::Surplus(height.saturating_sub(frame.height))));
        }
        let _ = self.frames.pop();
        self.inits.cut(frame.inits);
        Ok(frame)
    }

    /// Begins a block.
    #[tactic(auto, using(crate::proofs::Binds::then_ok, crate::proofs::Binds::then_reports, crate::proofs::Binds::reports_bind, crate::proofs::Binds::reports_memory), unfolding(crate::specs::Control::begins, crate::specs::Checks::bind))]
    pub fn begin(&mut self, types: &[Def], kind: Kind, sig: Sig) -> Result<(), Stop>
        ensures ok { OnOk result (begins types.now kind sig self.old ≡ Ok self.new) }
        ensures err { IfErr result (λ e. Reports (begins types.now kind sig self.old) e) }
    {
        check_sig(types, sig)?;
        self.take_tys(types, starts_of(sig))?;
        self.enter_frame(types, kind, sig)?;
        Ok(())
    }

    /// Returns the types of a label.
    #[tactic(auto, unfolding(crate::specs::Control::label, crate::specs::Checks::bind, crate::specs::Checks::known, crate::specs::Reports::Reports))]
    pub fn label_at(&self, n: usize) -> Result<Tys, Stop>
        ensures ok { IfOk result (λ l. label self.now n ≡ Ok l) }
        ensures err { IfErr result (λ e. Reports (label self.now n) e) }
    {
        match self.frames.at(n) {
            None => Err(Stop::Invalid(Cause::Label(n))),
            Some(frame) => Ok(label_of(frame.kind, frame.sig)),
        }
    }

    /// Branches.
    #[tactic(auto, using(crate::proofs::Binds::then_ok, crate::proofs::Binds::then_reports, crate::proofs::Binds::reports_bind), unfolding(crate::specs::Control::branch, crate::specs::Checks::bind))]
    pub fn branch_to(&mut self, types: &[Def], n: usize) -> Result<(), Stop>
        ensures ok { OnOk result (branch types.now n self.old ≡ Ok self.new) }
        ensures err { IfErr result (λ e. Reports (branch types.now n self.old) e) }
    {
        let tys = self.label_at(n)?;
        self.take_tys(types, tys)?;
        self.cut();
        Ok(())
    }

    /// Branches, or not.
    #[tactic(auto, using(crate::proofs::Binds::then_ok, crate::proofs::Binds::then_reports, crate::proofs::Binds::reports_bind), unfolding(crate::specs::Control::may_branch, crate::specs::Checks::bind))]
    pub fn may_branch_to(&mut self, types: &[Def], n: usize) -> Result<(), Stop>
        ensures ok { OnOk result (may_branch types.now n self.old ≡ Ok self.new) }
        ensures err { IfErr result (λ e. Reports (may_branch types.now n self.old) e) }
    {
        let tys = self.label_at(n)?;
        self.convert(types, tys, tys)?;
        Ok(())
    }

    /// Ends a block.
    #[tactic(auto, using(crate::proofs::Binds::then_ok, crate::proofs::Binds::then_reports, crate::proofs::Binds::reports_bind), unfolding(crate::specs::Control::ends_block, crate::specs::Checks::bind))]
    pub fn end_frame(&mut self, types: &[Def]) -> Result<(), Stop>
        ensures ok { OnOk result (ends_block types.now self.old ≡ Ok self.new) }
        ensures err { IfErr result (λ e. Reports (ends_block types.now self.old) e) }
    {
        let frame = self.leave_frame(types)?;
        self.end_kind(types, frame.kind, frame.sig)?;
        Ok(())
    }

    /// Ends a block of a kind, which has been left.
    #[tactic(auto, using(crate::proofs::Binds::then_ok, crate::proofs::Binds::then_reports, crate::proofs::Binds::reports_bind, crate::proofs::Binds::reports_memory), unfolding(crate::specs::Control::ends_kind, crate::specs::Checks::bind))]
    fn end_kind(&mut self, types: &[Def], kind: Kind, sig: Sig) -> Result<(), Stop>
        ensures ok { OnOk result (ends_kind types.now kind sig self.old ≡ Ok self.new) }
        ensures err { IfErr result (λ e. Reports (ends_kind types.now kind sig self.old) e) }
    {
        match kind {
            Kind::If => {
                self.enter_frame(types, Kind::Else, sig)?;
                let _frame = self.leave_frame(types)?;
                self.put_tys(types, ends_of(sig))?;
                Ok(())
            }
            _ => {
                self.put_tys(types, ends_of(sig))?;
                Ok(())
            }
        }
    }

    /// Turns from an `if` to its `else`.
    #[tactic(auto, using(crate::proofs::Binds::then_ok, crate::proofs::Binds::then_reports, crate::proofs::Binds::reports_bind), unfolding(crate::specs::Control::turns_block, crate::specs::Checks::bind))]
    pub fn turn_frame(&mut self, types: &[Def]) -> Result<(), Stop>
        ensures ok { OnOk result (turns_block types.now self.old ≡ Ok self.new) }
        ensures err { IfErr result (λ e. Reports (turns_block types.now self.old) e) }
    {
        let frame = self.leave_frame(types)?;
        self.turn_kind(types, frame.kind, frame.sig)?;
        Ok(())
    }

    /// Begins the `else` of a block of a kind, which has been left.
    #[tactic(auto, using(crate::proofs::Binds::reports_memory), unfolding(crate::specs::Control::turns_kind, crate::specs::Reports::Reports))]
    fn turn_kind(&mut self, types: &[Def], kind: Kind, sig: Sig) -> Result<(), Stop>
        ensures ok { OnOk result (turns_kind types.now kind sig self.old ≡ Ok self.new) }
        ensures err { IfErr result (λ e. Reports (turns_kind types.now kind sig self.old) e) }
    {
        match kind {
            Kind::If => {
                self.enter_frame(types, Kind::Else, sig)?;
                Ok(())
            }
            _ => Err(Stop::Invalid(Cause::NoIf)),
        }
    }
}
