//! Bodies that the definitions compute.

ghost use Rattle.wast_valid.specs.Worked.{Adds, WrongResult, NoOperand, LeftOver, AnyOperand, SomeOperand, LoopLabel, BlockLabel, NoElse, WithElse, Tables, UnevenTables, Calls, Indirect, Selects, SelectsReference, Unset, SetInBlock, Subtype, NoSubtype, Casts, Immutable, Undeclared, TooManyEnds, TooAligned, Stores, TailCalls, OtherResults, NoReferenceLabel};

/// Function bodies, with their first violations.
#[tactic(auto, using(crate::proofs::Worked::adds, crate::proofs::Worked::wrong_result, crate::proofs::Worked::no_operand, crate::proofs::Worked::left_over, crate::proofs::Worked::any_operand, crate::proofs::Worked::some_operand, crate::proofs::Worked::loop_label, crate::proofs::Worked::block_label, crate::proofs::Worked::no_else, crate::proofs::Worked::with_else, crate::proofs::Worked::tables, crate::proofs::Worked::uneven_tables, crate::proofs::Worked::calls, crate::proofs::Worked::indirect, crate::proofs::Worked::works_selects, crate::proofs::Worked::selects_reference, crate::proofs::Worked::unset, crate::proofs::Worked::set_in_block, crate::proofs::Worked::subtype, crate::proofs::Worked::no_subtype, crate::proofs::Worked::works_casts, crate::proofs::Worked::immutable, crate::proofs::Worked::undeclared, crate::proofs::Worked::too_many_ends, crate::proofs::Worked::too_aligned, crate::proofs::Worked::stores, crate::proofs::Worked::works_tail_calls, crate::proofs::Worked::other_results, crate::proofs::Worked::no_reference_label))]
pub(crate) fn worked_bodies()
    ensures adds { Adds }
    ensures wrong_result { WrongResult }
    ensures no_operand { NoOperand }
    ensures left_over { LeftOver }
    ensures any_operand { AnyOperand }
    ensures some_operand { SomeOperand }
    ensures loop_label { LoopLabel }
    ensures block_label { BlockLabel }
    ensures no_else { NoElse }
    ensures with_else { WithElse }
    ensures tables { Tables }
    ensures uneven_tables { UnevenTables }
    ensures calls { Calls }
    ensures indirect { Indirect }
    ensures selects { Selects }
    ensures selects_reference { SelectsReference }
    ensures unset { Unset }
    ensures set_in_block { SetInBlock }
    ensures subtype { Subtype }
    ensures no_subtype { NoSubtype }
    ensures casts { Casts }
    ensures immutable { Immutable }
    ensures undeclared { Undeclared }
    ensures too_many_ends { TooManyEnds }
    ensures too_aligned { TooAligned }
    ensures stores { Stores }
    ensures tail_calls { TailCalls }
    ensures other_results { OtherResults }
    ensures no_reference_label { NoReferenceLabel }
{}
