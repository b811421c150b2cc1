//! Theorems about the fields of a module that the rules of the text format read.

ghost use Rattle.wat_ready.specs.Ready.{AreWellFormed, AreWellFormedWithAddresses, HaveNoGeneratedId, IdIsNotGenerated};

/// Theorem: what the rules of the text format read may be resolved (text format: modules).
///
/// The fields are well formed, also if their texts have other addresses. No id in them is
/// generated, and neither is the id of the module. For example, this holds for the fields
/// `(func $f) (export "a" (func $f))`. Call it in a proof to obtain its clauses.
#[tactic(auto, using(crate::proofs::Ready::well_formed, crate::proofs::Ready::well_formed_with_addresses, crate::proofs::Ready::not_generated, crate::proofs::Ready::id_not_generated))]
pub fn ready_laws()
    ensures well_formed { AreWellFormed }
    ensures addresses { AreWellFormedWithAddresses }
    ensures fields { HaveNoGeneratedId }
    ensures id { IdIsNotGenerated }
{}
