//! Theorems about the enclosing blocks at each position of an expression.

ghost use Rattle.wast_resolve_labels.specs.Laws.{StepsAsCounted, WalksAsCounted, HasFewBlocks, HasRoom, DenotesTheLast, DenotesNothing, ExpectsTheLast, ExpectsAny};

/// Theorem: a walk over instructions has the blocks that are opened and not closed yet (text
/// format: control instructions, labels).
///
/// They are at most as many as the openers before the position. Before an opener they are fewer
/// than all openers. The depth of a label is the number of unclosed openers after the last unclosed
/// one with the label. Without such an opener it has no depth.
///
/// For example, after `block $a loop $b block nop end` the enclosing blocks are `$b`, `$a`. Call it
/// in a proof to obtain its clauses.
pub fn walking_law()
    ensures step { StepsAsCounted }
    ensures walk { WalksAsCounted }
    ensures few { HasFewBlocks }
    ensures room { HasRoom }
    ensures denotes { DenotesTheLast }
    ensures denotes_nothing { DenotesNothing }
{}

/// Theorem: which labels `else` and `end` may have (text format: control instructions, labels).
///
/// If a block is open, a label is allowed exactly if it is that of the last unclosed opener. If no
/// block is open, any label is allowed. For example, after `block $a` the label of `end $a` is
/// allowed, and that of `end $b` is not.
pub fn expecting_law()
    ensures last { ExpectsTheLast }
    ensures any { ExpectsAny }
{}
