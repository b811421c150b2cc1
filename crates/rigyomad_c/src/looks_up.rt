//! Looks up names.

ghost use Rattle.std.specs.Prelude.{◌≡◌, IfSome, IsTrue, is_none};
ghost use Rattle.wast_base.specs.Spaces.{rank_of};
ghost use Rattle.rigyomad_c.specs.Answers.{ResolveReturns, DenotesRead, IsNoSpace};

use crate::statuses::Status;
use std::alloc::Global;
use std::str;
use wast_tree::Space;
use wat_bytes::number_in_text;
use wat_text::Strings;

/// Returns the index space with a number.
fn space_at(space: u32) -> Option<Space>
    ensures space { IfSome result (λ s. rank_of s ≡ space) }
    ensures none { IsTrue (is_none result) → IsNoSpace space }
{
    match space {
        0 => Some(Space::Func),
        1 => Some(Space::Table),
        2 => Some(Space::Memory),
        3 => Some(Space::Global),
        4 => Some(Space::Tag),
        5 => Some(Space::Elem),
        6 => Some(Space::Data),
        7 => Some(Space::Ty),
        _ => None,
    }
}

/// Looks up a name in an index space of the module of a text.
fn look_up_in(alloc: Global, text: &str, space: Space, name: &str, number: &mut u32) -> Status
    ensures { DenotesRead text.now space name.now number.old number.new result }
{
    let strings = Strings::new(alloc);
    match number_in_text(alloc, text, &strings, space, name) {
        Ok(Some(found)) => {
            *number = found;
            Status::Done
        }
        Ok(None) => Status::Unknown,
        Err(refused) => Status::of(&refused),
    }
}

/// Writes the index of a name in an index space of the module of a text.
pub(crate) fn look_up(
    alloc: Global,
    text: &[u8],
    space: u32,
    name: &[u8],
    number: &mut u32,
) -> Status
    ensures { ResolveReturns text.now space name.now number.old number.new result }
{
    let Some(space) = space_at(space) else {
        return Status::Unknown;
    };
    let Ok(text) = str::from_utf8(text) else {
        return Status::Utf8;
    };
    let Ok(name) = str::from_utf8(name) else {
        return Status::Utf8;
    };
    look_up_in(alloc, text, space, name, number)
}
