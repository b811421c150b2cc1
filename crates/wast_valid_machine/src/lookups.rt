//! Items of a context that instructions refer to (validation: contexts).

ghost use Rattle.std.specs.Prelude.{◌≡◌, ◌<◌, ◌==◌, length, map, reverse, Ok, IfOk, IfErr, OnOk, OnErr, Some, None, slice_get};
ghost use Rattle.std.specs.List.{list_any};
ghost use Rattle.wast_valid_machine.specs.Checks.{check, known};
ghost use Rattle.wast_valid_machine.specs.Control.{func_type};
ghost use Rattle.wast_valid_machine.specs.Lookups.{is_set, mark, top_of, top_of_abstract, heap_known, ty_known, struct_type, is_declared};
ghost use Rattle.wast_valid_machine.specs.Machine.{expect_all};
ghost use Rattle.wast_valid_machine.specs.Types.{reference_of};
ghost use Rattle.wast_valid_machine.specs.Reports.{Reports};
ghost use Rattle.wast_valid_machine.specs.declared.state.State.{State};

use crate::matching::{abstract_at, as_reference, is_defaultable, least};
use crate::stack::Stack;
use crate::state::{Cause, Context, Global, Memory, State, Stop, Table};
use crate::types::{Def, Field, Heap, RefTy, Shape, Ty};

/// Returns the index of the type of a function.
#[tactic(auto, unfolding(crate::specs::Checks::known, crate::specs::Reports::Reports))]
pub fn func_type_of(c: &Context, x: u32) -> Result<u32, Stop>
    ensures ok { IfOk result (λ t. known (Cause.Function x) (slice_get c.now.funcs x) ≡ Ok t) }
    ensures err { IfErr result (λ e. Reports (known (Cause.Function x) (slice_get c.now.funcs x)) e) }
{
    match c.funcs.as_slice().get(x as usize) {
        None => Err(Stop::Invalid(Cause::Function(x))),
        Some(t) => Ok(*t),
    }
}

/// Returns the type of a table.
#[tactic(auto, unfolding(crate::specs::Checks::known, crate::specs::Reports::Reports))]
pub fn table_at(c: &Context, x: u32) -> Result<Table, Stop>
    ensures ok { IfOk result (λ t. known (Cause.Table x) (slice_get c.now.tables x) ≡ Ok t) }
    ensures err { IfErr result (λ e. Reports (known (Cause.Table x) (slice_get c.now.tables x)) e) }
{
    match c.tables.as_slice().get(x as usize) {
        None => Err(Stop::Invalid(Cause::Table(x))),
        Some(t) => Ok(*t),
    }
}

/// Returns the type of a memory.
#[tactic(auto, unfolding(crate::specs::Checks::known, crate::specs::Reports::Reports))]
pub fn memory_at(c: &Context, x: u32) -> Result<Memory, Stop>
    ensures ok { IfOk result (λ t. known (Cause.Memory x) (slice_get c.now.memories x) ≡ Ok t) }
    ensures err { IfErr result (λ e. Reports (known (Cause.Memory x) (slice_get c.now.memories x)) e) }
{
    match c.memories.as_slice().get(x as usize) {
        None => Err(Stop::Invalid(Cause::Memory(x))),
        Some(t) => Ok(*t),
    }
}

/// Returns the type of a global.
#[tactic(auto, unfolding(crate::specs::Checks::known, crate::specs::Reports::Reports))]
pub fn global_at(c: &Context, x: u32) -> Result<Global, Stop>
    ensures ok { IfOk result (λ t. known (Cause.Global x) (slice_get c.now.globals x) ≡ Ok t) }
    ensures err { IfErr result (λ e. Reports (known (Cause.Global x) (slice_get c.now.globals x)) e) }
{
    match c.globals.as_slice().get(x as usize) {
        None => Err(Stop::Invalid(Cause::Global(x))),
        Some(t) => Ok(*t),
    }
}

/// Returns the type of the elements of an element segment.
#[tactic(auto, unfolding(crate::specs::Checks::known, crate::specs::Reports::Reports))]
pub fn elem_at(c: &Context, x: u32) -> Result<RefTy, Stop>
    ensures ok { IfOk result (λ t. known (Cause.Elem x) (slice_get c.now.elems x) ≡ Ok t) }
    ensures err { IfErr result (λ e. Reports (known (Cause.Elem x) (slice_get c.now.elems x)) e) }
{
    match c.elems.as_slice().get(x as usize) {
        None => Err(Stop::Invalid(Cause::Elem(x))),
        Some(t) => Ok(*t),
    }
}

/// Returns the type of a local.
#[tactic(auto, unfolding(crate::specs::Checks::known, crate::specs::Reports::Reports))]
pub fn local_at(c: &Context, x: u32) -> Result<Ty, Stop>
    ensures ok { IfOk result (λ t. known (Cause.Local x) (slice_get c.now.locals x) ≡ Ok t) }
    ensures err { IfErr result (λ e. Reports (known (Cause.Local x) (slice_get c.now.locals x)) e) }
{
    match c.locals.as_slice().get(x as usize) {
        None => Err(Stop::Invalid(Cause::Local(x))),
        Some(t) => Ok(*t),
    }
}

/// Returns a field.
#[tactic(auto, unfolding(crate::specs::Checks::known, crate::specs::Reports::Reports))]
pub fn field_at(fields: &[Field], k: u32) -> Result<Field, Stop>
    ensures ok { IfOk result (λ t. known (Cause.Field k) (slice_get fields.now k) ≡ Ok t) }
    ensures err { IfErr result (λ e. Reports (known (Cause.Field k) (slice_get fields.now k)) e) }
{
    match fields.get(k as usize) {
        None => Err(Stop::Invalid(Cause::Field(k))),
        Some(t) => Ok(*t),
    }
}

/// Returns the type of a field.
#[inline(always)]
fn field_type(fields: &[Field], n: usize) -> Ty
    requires { n < length fields.now }
    ensures { slice_get (map (λ f. f.ty) fields.now) n ≡ Some result }
{
    fields[n].ty
}

/// Fails with this cause unless a check passes.
#[tactic(auto, unfolding(crate::specs::Checks::check, crate::specs::Reports::Reports))]
pub fn passes(holds: bool, cause: Cause) -> Result<(), Stop>
    ensures ok { OnOk result ((s : State) → check holds cause s ≡ Ok s) }
    ensures err { IfErr result (λ e. (s : State) → Reports (check holds cause s) e) }
{
    if holds {
        Ok(())
    } else {
        Err(Stop::Invalid(cause))
    }
}

/// Checks that an index is that of a function type.
#[tactic(auto, unfolding(crate::specs::Control::func_type, crate::specs::Control::is_func, crate::specs::Checks::bind, crate::specs::Checks::check, crate::specs::Checks::known, crate::specs::Reports::Reports))]
pub fn func_at(types: &[Def], n: u32) -> Result<(), Stop>
    ensures ok { OnOk result (func_type types.now n ≡ Ok n) }
    ensures err { IfErr result (λ e. Reports (func_type types.now n) e) }
{
    match types.get(n as usize) {
        None => Err(Stop::Invalid(Cause::Type(n))),
        Some(def) => match &def.shape {
            Shape::Func(_) => Ok(()),
            _ => Err(Stop::Invalid(Cause::NotFunc(n))),
        },
    }
}

/// Returns the fields of a struct type.
#[tactic(auto, unfolding(crate::specs::Lookups::struct_type, crate::specs::Checks::bind, crate::specs::Checks::known, crate::specs::Reports::Reports))]
pub fn fields_at(types: &[Def], n: u32) -> Result<&[Field], Stop>
    ensures ok { IfOk result (λ fs. struct_type types.now n ≡ Ok fs.now) }
    ensures err { IfErr result (λ e. Reports (struct_type types.now n) e) }
{
    match types.get(n as usize) {
        None => Err(Stop::Invalid(Cause::Type(n))),
        Some(def) => match &def.shape {
            Shape::Record(fields) => Ok(fields.as_slice()),
            _ => Err(Stop::Invalid(Cause::NotStruct(n))),
        },
    }
}

/// Checks that a heap type is one of the module.
#[tactic(auto, unfolding(crate::specs::Lookups::heap_known, crate::specs::Checks::bind, crate::specs::Checks::known, crate::specs::Reports::Reports))]
pub fn check_heap(types: &[Def], h: Heap) -> Result<(), Stop>
    ensures ok { OnOk result ((s : State) → heap_known types.now h s ≡ Ok s) }
    ensures err { IfErr result (λ e. (s : State) → Reports (heap_known types.now h s) e) }
{
    match h {
        Heap::Defined(n) => match types.get(n as usize) {
            None => Err(Stop::Invalid(Cause::Type(n))),
            Some(_) => Ok(()),
        },
        _ => Ok(()),
    }
}

/// Checks that a value type refers to a type of the module.
#[tactic(auto, unfolding(crate::specs::Lookups::ty_known))]
pub fn check_ty(types: &[Def], t: Ty) -> Result<(), Stop>
    ensures ok { OnOk result ((s : State) → ty_known types.now t s ≡ Ok s) }
    ensures err { IfErr result (λ e. (s : State) → Reports (ty_known types.now t s) e) }
{
    match t {
        Ty::Ref(r) => check_heap(types, r.heap),
        _ => Ok(()),
    }
}

/// Returns the greatest type of a hierarchy.
pub fn greatest(types: &[Def], h: Heap) -> Heap
    ensures { result ≡ top_of types.now h }
{
    match h {
        Heap::Defined(n) => greatest_abstract(least(abstract_at(types, n))),
        other => greatest_abstract(least(other)),
    }
}

fn greatest_abstract(h: Heap) -> Heap
    ensures { result ≡ top_of_abstract h }
{
    match h {
        Heap::NoFunc => Heap::Funcs,
        Heap::NoExtern => Heap::Externs,
        Heap::NoExn => Heap::Exns,
        _ => Heap::Any,
    }
}

/// Returns whether a function occurs outside of bodies.
#[tactic(auto, unfolding(crate::specs::Lookups::is_declared))]
pub fn occurs(c: &Context, x: u32) -> bool
    ensures { result ≡ is_declared c.now x }
{
    match c.declared.as_slice().get(x as usize) {
        None => false,
        Some(is_declared) => *is_declared,
    }
}

/// Returns the reference that an operand is.
#[tactic(auto, unfolding(crate::specs::Checks::known, crate::specs::Reports::Reports))]
pub fn reference_at(t: Ty) -> Result<RefTy, Stop>
    ensures ok { IfOk result (λ r. known (Cause.NotReference t) (reference_of t) ≡ Ok r) }
    ensures err { IfErr result (λ e. Reports (known (Cause.NotReference t) (reference_of t)) e) }
{
    match as_reference(t) {
        None => Err(Stop::Invalid(Cause::NotReference(t))),
        Some(r) => Ok(r),
    }
}

/// Returns whether a number is on a stack.
fn is_on(stack: &Stack<u32>, x: u32) -> bool
    ensures { result ≡ list_any (λ y. y == x) stack.now }
{
    for depth in 0..stack.len() {
        match stack.at(depth) {
            None => return false,
            Some(y) => {
                if y == x {
                    return true;
                }
            }
        }
    }
    false
}

/// Returns whether a local has a value.
#[tactic(auto, unfolding(crate::specs::Lookups::is_set))]
pub fn has_value(c: &Context, s: &State, x: u32, t: Ty) -> bool
    ensures { result ≡ is_set c.now s.now x t }
{
    is_defaultable(t) || (x as usize) < c.params || is_on(&s.inits, x)
}

impl State {
    /// Marks a local as set.
    pub fn mark_set(&mut self, c: &Context, x: u32, t: Ty) -> Result<(), Stop>
        ensures ok { OnOk result (self.new ≡ mark c.now x t self.old) }
        ensures err { IfErr result (λ e. e ≡ Stop.Memory) }
    {
        if has_value(c, self, x, t) {
            return Ok(());
        }
        match self.inits.push(x) {
            Ok(()) => Ok(()),
            Err(_) => Err(Stop::Memory),
        }
    }

    /// Takes the fields of a struct, the last one first.
    pub fn take_fields(&mut self, types: &[Def], fields: &[Field]) -> Result<(), Stop>
        ensures ok { OnOk result (expect_all types.now (reverse (map (λ f. f.ty) fields.now)) self.old ≡ Ok self.new) }
        ensures err { IfErr result (λ e. Reports (expect_all types.now (reverse (map (λ f. f.ty) fields.now)) self.old) e) }
    {
        let mut left = fields.len();
        while left > 0 {
            let last = field_type(fields, left - 1);
            self.take_as(types, last)?;
            left -= 1;
        }
        Ok(())
    }
}
