//! The section of branch hints.

ghost use Rattle.std.specs.Prelude.{◌≡◌, ◌+◌, ◌==◌, IsTrue};
ghost use Rattle.std.specs.List.{list_all};
ghost use Rattle.wasm_ops.specs.Spelling.{InRangeU32};
ghost use Rattle.wasm_out.specs.Built.{Adds, behind_count, empty};
ghost use Rattle.wasm_out.specs.Hints.{is_likely_or_not, hints_payload, branch_hint, function_hints};

use crate::built_items::BuiltItems;
use crate::sections::{CUSTOM_ID, Section};
use std::alloc::Global;
use std::marker::Model;
use wasm_ops::{AsItself, Counted, Encode, Name, Refusal, Sink};
use wast_base::Error;

/// A branch hint: a position in a function body, and whether its branch is likely taken (branch
/// hinting).
///
/// # Example
///
///     let first = [BranchHint {
///         branch_func_offset: 5,
///         branch_hint_value: 1,
///     }];
#[derive(Clone, Copy, Debug, PartialEq, Eq)]
pub struct BranchHint {
    /// The offset of the instruction, from the locals of the body.
    pub branch_func_offset: u32,
    /// 1 if the branch is likely taken, 0 if it is not.
    pub branch_hint_value: u32,
}

/// A hint, whose value must be 0 or 1 and has one byte (branch hinting).
impl Encode for BranchHint {
    ghost spelling = { λ x. (branch_hint x).bytes };

    ghost in_range = { λ x. (branch_hint x).in_range };

    ghost is_ready = { is_likely_or_not };

    fn encode<S: Sink>(&self, out: &mut S) -> Result<(), Refusal> {
        (self.branch_func_offset, (1u8, self.branch_hint_value)).encode(out)
    }
}

/// The custom section `metadata.code.branch_hint` (branch hinting).
///
/// It comes before the code section. Its model in contracts is its functions.
///
///     section.function_hints(0, &first)?;
#[derive(Debug, Drop)]
pub struct BranchHints {
    items: BuiltItems,
}

impl Model for BranchHints {
    ghost use Rattle.wasm_out.specs.Built.{Built};

    ghost Value = { Built };

    ghost view = { λ s. s.items };
}

impl BranchHints {
    /// Creates a section without functions. Does not allocate.
    pub fn new(alloc: Global) -> Self
        ensures { result ≡ empty }
    {
        BranchHints {
            items: BuiltItems::new(alloc),
        }
    }

    /// Returns whether there are no functions.
    pub fn is_empty(&self) -> bool
        ensures { result ≡ (self.now.count == 0) }
    {
        self.items.is_empty()
    }

    /// Adds the hints of a function, in the order of their instructions. Each value must be 0 or 1.
    /// The index counts imported functions too.
    ///
    ///     section.function_hints(0, &first)?;
    pub fn function_hints<'e>(
        &mut self,
        function_index: u32,
        hints: &[BranchHint],
    ) -> Result<(), Error<'e>>
        requires { IsTrue (list_all is_likely_or_not hints.now) }
        ensures { Adds (InRangeU32 (self.old.count + 1) × (function_hints (function_index, hints.now)).in_range) self.old self.new
            (function_hints (function_index, hints.now)).bytes result }
    {
        self.items.push(&(function_index, Counted(hints, AsItself)))
    }
}

impl Section for BranchHints {
    ghost number = { λ _. 0 };

    ghost payload = { λ s. hints_payload (behind_count s) };

    ghost in_range = { λ _. Unit {0} };

    fn id(&self) -> u8 {
        CUSTOM_ID
    }

    fn append_to<'e>(&self, out: &mut Vec<u8>) -> Result<(), Error<'e>> {
        Ok((Name("metadata.code.branch_hint"), &self.items).encode(out)?)
    }
}
