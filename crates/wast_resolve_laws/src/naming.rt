//! Theorems about modules with other ids.

ghost use Rattle.wast_resolve_laws.specs.Extended.{ExtendedIsInjective, ExtendedAgrees};
ghost use Rattle.wast_resolve_laws.specs.Renaming.{RenamedAnswer, RenamedPositions, RenamedCounts, RenamedFilled, RenamedTooLarge, WrittenAnswer, WrittenPositions};

/// Theorem: a module with other ids resolves to the same, with the other names. Each id has another
/// name at the same position, and no two names become one. Call it in a proof to obtain its
/// clauses.
///
/// For example, with `r` before each name, `(export "a" (func $g))` fails with E4 at the same
/// position. The error has the name `rg` instead of `g`.
///
/// The first check that fails, the sizes, the number of generated ids and the condition for E10 are
/// the same. Expanding inline parts first does not change which check fails first. If all checks
/// pass, it does not change the result by positions, apart from generated ids and positions of
/// indices in type uses.
///
/// A finite map of names in which no two names become one extends to all names.
#[tactic(auto, using(crate::proofs::Renamed::renamed_answer, crate::proofs::Renamed::renamed_positions, crate::proofs::Renamed::written_answer, crate::proofs::Renamed::written_by_positions, crate::proofs::Extending::extended_is_injective, crate::proofs::Extending::extended_agrees))]
pub fn naming_laws()
    ensures answer { RenamedAnswer }
    ensures positions { RenamedPositions }
    ensures counts { RenamedCounts }
    ensures filled { RenamedFilled }
    ensures large { RenamedTooLarge }
    ensures written { WrittenAnswer }
    ensures written_positions { WrittenPositions }
    ensures injective { ExtendedIsInjective }
    ensures agrees { ExtendedAgrees }
{}
