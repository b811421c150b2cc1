//! Examples that the definitions compute: positions in a text of two lines, and names in order.

ghost use Rattle.wast_base.specs.Worked.{PlacesInTwoLines, NamesInOrder};

/// States the lines and columns of four positions in a text of two lines.
#[tactic(auto, using(crate::proofs::Worked::places_in_two_lines))]
pub(crate) fn two_lines()
    ensures { PlacesInTwoLines }
{}

/// States the order of some names.
#[tactic(auto, using(crate::proofs::Worked::names_in_order))]
pub(crate) fn names_in_order()
    ensures { NamesInOrder }
{}
