//! The theorem that resolving and encoding a second time changes nothing, for callers' proofs.

ghost use Rattle.wast_resolve_laws.specs.Rests.{RestsMet, RestsStill, FillsNoMore, StartsStayWellFormed, StartsStayBelow};
ghost use Rattle.wast_core.specs.AtRest.{StartsLast, NumbersLast, RestsBounded, RestsWithheld, SecondResolve, SecondEncoding};

use crate::laws::{bounded_law, meaning_law, one_meaning};
use wast_resolve::{resolved_laws, resting_laws};

/// Theorem: a resolved module does not change when it is resolved again (text format: modules;
/// binary format: start section).
///
/// So a second [`Module::resolve`](crate::Module::resolve), from any counter, succeeds. It returns
/// names that know the same, and changes neither a field nor the counter. A second
/// [`EncodeOptions::encode_module`](crate::EncodeOptions::encode_module) returns the same bytes.
///
/// A second call can still return E12, if allocation fails. It does not return E10, if the fields
/// were bounded and the counter is below 2^64, because the resolved fields are then bounded too.
///
/// With start fields of numbers after them, resolved fields do not change either. They are then
/// well formed if the module is, have its largest generation, and mean what the module means with
/// these start fields last. Start fields of ids that name functions mean this too, once each is a
/// number.
pub fn at_rest()
    ensures met { RestsMet }
    ensures still { RestsStill }
    ensures fills { FillsNoMore }
    ensures well_formed { StartsStayWellFormed }
    ensures below { StartsStayBelow }
    ensures starts_last { StartsLast }
    ensures numbers_last { NumbersLast }
    ensures bounded { RestsBounded }
    ensures withheld { RestsWithheld }
    ensures second_resolve { SecondResolve }
    ensures second_encoding { SecondEncoding }
{
    resting_laws();
    resolved_laws();
    meaning_law();
    bounded_law();
    one_meaning();
}
