//! Theorems about the results of calls on texts. The functions do nothing when they run.

ghost use Rattle.wat_bytes.specs.BareLaws.{Laws};
ghost use Rattle.wat_bytes.specs.OneText.{SameBytes, SameError, SameList, SameListing, SameLookUp, SameNumber, SameSuccess};

use wat_meaning::meaning_laws;

/// States in one clause what `meaning_laws` states: a tree has the result of its bare tree.
pub(crate) fn bare_laws()
    ensures { Laws }
{
    meaning_laws();
}

/// Theorem: the result for a text depends on the text alone (text format: modules).
///
/// Two calls for one text that succeed return the same bytes, list of names, or index of a name. If
/// one succeeds, another of the same function fails only with E10 or E12. If two calls of
/// [`encode_text`](crate::encode_text) fail otherwise, both have an error of the text, or the same
/// error of the module at the same position. Only tests check the position of E11, and which error
/// a text has.
///
/// For example, each call that returns bytes for `(module (func $f) (export "a" (func $f)))`
/// returns the same bytes, and each list of its names has `$f` at 14 as function 0. For
/// `(module (func $f) (func $f))` no call returns bytes.
///
/// The other functions are [`names_of_text`](crate::names_of_text) and
/// [`number_in_text`](crate::number_in_text). The calls for a last text have the same contracts.
/// Call it in a proof to obtain its clauses.
///   or E10.
pub fn one_result()
    ensures bytes { SameBytes }
    ensures success { SameSuccess }
    ensures error { SameError }
    ensures number { SameNumber }
    ensures look_up { SameLookUp }
    ensures list { SameList }
    ensures listing { SameListing }
{}
