//! The one map over the tree of a text module, as definitions and theorems. It has no code.
//!
//! A map replaces the indices, type uses and ids of a module, and keeps its shape. Type expansion,
//! resolving and renaming are maps, so their proofs share these theorems.
//!
//! For example, the change that replaces the index `$f` by 0 maps `(start $f)` to `(start 0)`, and
//! `(func $f call $f)` to `(func $f call 0)`.
//!
//! # Modules
//!
//! - `specs/Mapped.antt`: changes, and the tree that a change maps a tree to.
//! - `specs/Named.antt`: changes that rename ids.
//! - `specs/Laws.antt`: the theorems below. `specs/Tree.antt`: short names for the AST types.
#![tactic(auto)]

ghost use Rattle.wast_tree_map.specs.Laws.{StandsMapped, StaysStill, MapsJoin, MapsTwice, MapsAlike, StaysWrittenOut, ItemsStay, StandsNamed, MapsJoinNamed, ItemsNamed};

/// Theorem: what maps of module fields keep, and when two maps are equal.
///
/// For example, replacing `$f` by 0 and then 0 by 5 is the map that replaces `$f` by 5.
///
/// - The map that changes nothing keeps the fields. Mapped fields are desugared if and only if the
///   fields are.
/// - If a map keeps the ids of parameters and other ids within items, the sites of the mapped
///   fields are the mapped sites. If it also keeps the ids of items, it keeps the items.
/// - If the first of two maps keeps ids within items, both one after another are their composition.
///   They are also any third map that agrees with them at each site and id.
/// - Two maps have the same result if they are equal at each site and id.
/// - If a map renames ids, the sites and items are renamed too. A third map is as above.
pub fn map_laws()
    ensures stands { StandsMapped }
    ensures still { StaysStill }
    ensures joins { MapsJoin }
    ensures twice { MapsTwice }
    ensures alike { MapsAlike }
    ensures written_out { StaysWrittenOut }
    ensures items { ItemsStay }
    ensures stands_named { StandsNamed }
    ensures joins_named { MapsJoinNamed }
    ensures items_named { ItemsNamed }
{}
