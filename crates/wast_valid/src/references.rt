//! References and structs (validation: reference and aggregate instructions).

ghost use Rattle.std.specs.Prelude.{◌≡◌, Ok, IfOk, IfErr, OnOk, OnErr, Some};
ghost use Rattle.wast_valid_machine.specs.Reports.{Reports};
ghost use Rattle.wast_valid.specs.Steps.{makes_null, makes_ref, casts, makes_struct, reads_field};

use crate::plain::check_unary;
use wast_valid_machine::{
    Cause, Context, Def, Heap, RefTy, State, Stop, Ty, check_heap, field_at, fields_at,
    func_type_of, greatest, occurs, passes,
};

/// Checks `ref.null`.
#[tactic(auto, using(wast_valid_machine::proofs::Binds::then_ok, wast_valid_machine::proofs::Binds::then_reports, wast_valid_machine::proofs::Binds::reports_bind, wast_valid_machine::proofs::Binds::reports_memory), unfolding(crate::specs::Steps::makes_null, wast_valid_machine::specs::Checks::bind))]
pub(crate) fn check_ref_null(state: &mut State, types: &[Def], h: Heap) -> Result<(), Stop>
    ensures ok { OnOk result (makes_null types.now h state.old ≡ Ok state.new) }
    ensures err { IfErr result (λ e. Reports (makes_null types.now h state.old) e) }
{
    check_heap(types, h)?;
    state.put(Ty::Ref(RefTy {
        nullable: true,
        heap: h,
    }))?;
    Ok(())
}

/// Checks `ref.func`.
#[tactic(auto, using(wast_valid_machine::proofs::Binds::then_ok, wast_valid_machine::proofs::Binds::then_reports, wast_valid_machine::proofs::Binds::reports_bind, wast_valid_machine::proofs::Binds::reports_memory), unfolding(crate::specs::Steps::makes_ref, wast_valid_machine::specs::Checks::bind, wast_valid_machine::specs::Checks::check, crate::specs::Steps::callee))]
pub(crate) fn check_ref_func(state: &mut State, c: &Context, x: u32) -> Result<(), Stop>
    ensures ok { OnOk result (makes_ref c.now x state.old ≡ Ok state.new) }
    ensures err { IfErr result (λ e. Reports (makes_ref c.now x state.old) e) }
{
    let n = func_type_of(c, x)?;
    passes(occurs(c, x), Cause::Undeclared(x))?;
    state.put(Ty::Ref(RefTy {
        nullable: false,
        heap: Heap::Defined(n),
    }))?;
    Ok(())
}

/// Checks `ref.cast`, whose result is the type, or `ref.test`, whose result is `i32`.
#[tactic(auto, using(wast_valid_machine::proofs::Binds::then_ok, wast_valid_machine::proofs::Binds::then_reports, wast_valid_machine::proofs::Binds::reports_bind, wast_valid_machine::proofs::Binds::reports_memory), unfolding(crate::specs::Steps::casts, wast_valid_machine::specs::Checks::bind))]
pub(crate) fn check_cast(state: &mut State, types: &[Def], r: RefTy, t: Ty) -> Result<(), Stop>
    ensures ok { OnOk result (casts types.now r t state.old ≡ Ok state.new) }
    ensures err { IfErr result (λ e. Reports (casts types.now r t state.old) e) }
{
    check_heap(types, r.heap)?;
    state.take_as(
        types,
        Ty::Ref(RefTy {
            nullable: true,
            heap: greatest(types, r.heap),
        }),
    )?;
    state.put(t)?;
    Ok(())
}

/// Checks `struct.new`.
#[tactic(auto, using(wast_valid_machine::proofs::Binds::then_ok, wast_valid_machine::proofs::Binds::then_reports, wast_valid_machine::proofs::Binds::reports_bind, wast_valid_machine::proofs::Binds::reports_memory), unfolding(crate::specs::Steps::makes_struct, wast_valid_machine::specs::Checks::bind))]
pub(crate) fn check_struct_new(state: &mut State, types: &[Def], n: u32) -> Result<(), Stop>
    ensures ok { OnOk result (makes_struct types.now n state.old ≡ Ok state.new) }
    ensures err { IfErr result (λ e. Reports (makes_struct types.now n state.old) e) }
{
    let fields = fields_at(types, n)?;
    state.take_fields(types, fields)?;
    state.put(Ty::Ref(RefTy {
        nullable: false,
        heap: Heap::Defined(n),
    }))?;
    Ok(())
}

/// Checks `struct.get`.
#[tactic(auto, using(wast_valid_machine::proofs::Binds::then_ok, wast_valid_machine::proofs::Binds::then_reports, wast_valid_machine::proofs::Binds::reports_bind, wast_valid_machine::proofs::Binds::reports_memory), unfolding(crate::specs::Steps::reads_field, wast_valid_machine::specs::Checks::bind, wast_valid_machine::specs::Checks::check))]
pub(crate) fn check_struct_get(state: &mut State, types: &[Def], n: u32, k: u32) -> Result<(), Stop>
    ensures ok { OnOk result (reads_field types.now n k state.old ≡ Ok state.new) }
    ensures err { IfErr result (λ e. Reports (reads_field types.now n k state.old) e) }
{
    let fields = fields_at(types, n)?;
    let field = field_at(fields, k)?;
    passes(!field.packed, Cause::Packed(k))?;
    check_unary(
        state,
        types,
        Ty::Ref(RefTy {
            nullable: true,
            heap: Heap::Defined(n),
        }),
        field.ty,
    )?;
    Ok(())
}
