//! Theorems about a tree and its bare tree, which has each text at address 0.

ghost use Rattle.wat_meaning.specs.Laws.{SameAnswer, SameBounds, SameCount, SameForms, SameGeneration, SameMeaning, SameNumbers, SameRules, SameTooLarge};

use wast_core::laws::{bounded_law, renaming};
use wast_resolve::naming_laws;

/// Theorem: what a text means does not depend on the addresses of its ids, names and strings (text
/// format: modules).
///
/// A tree has addresses of the text that it was read from. Its bare tree has each text at address
/// 0. Both agree in the following, and so do two trees of one text, because they have one bare
/// tree:
///
/// - All checks of resolving pass, or the same check fails first, at the same position.
/// - They mean the same parts of a binary module, so they have the same bytes.
/// - If the checks pass, they have the same unsupported constructs in the same order, once resolved
///   (E11).
/// - Each source id refers to the same index, if both are resolved from one counter past their
///   generated ids.
/// - They have the same number of generated ids, and the same greatest generation.
/// - Both are well formed, or neither is. Both can be too large to resolve (E10), or neither.
///
/// If the bare tree is small enough to encode, so is the tree.
///
/// For example, each tree of `(module (func $f) (export "a" (func $f)))` means the same sections,
/// wherever the texts of `$f` and "a" are in memory. Call it in a proof to obtain its clauses.
pub fn meaning_laws()
    ensures answer { SameAnswer }
    ensures meaning { SameMeaning }
    ensures forms { SameForms }
    ensures numbers { SameNumbers }
    ensures count { SameCount }
    ensures rules { SameRules }
    ensures generation { SameGeneration }
    ensures large { SameTooLarge }
    ensures bounds { SameBounds }
{
    bounded_law();
    naming_laws();
    renaming();
}
