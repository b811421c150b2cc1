//! Marks of labels: two bytes that are compared before names.

ghost use Rattle.std.specs.Prelude.{◌≡◌, Some};
ghost use Rattle.wast_base.specs.Ids.{name_of};
ghost use Rattle.wast_resolve_labels.specs.Indexed.{label_of};
ghost use Rattle.wast_resolve_labels.specs.Marks.{label_mark};

use wast_base::Id;

/// Returns the mark of a label that may be missing.
#[inline(always)]
pub(crate) fn mark_if<'a>(label: &Option<Id<'a>>) -> u16
    ensures { result ≡ label_mark (label_of label.now) }
{
    match label {
        Some(id) => mark_of(id),
        None => 0,
    }
}

/// Returns the mark of a label: the lowest byte of its length, and its last byte.
#[inline(always)]
pub(crate) fn mark_of<'a>(id: &Id<'a>) -> u16
    ensures { result ≡ label_mark (Some (name_of id.now)) }
{
    let text = id.name().as_bytes();
    if text.is_empty() {
        return 0;
    }
    let long = (text.len() % 256) as u16;
    long * 256 + u16::from(text[text.len() - 1])
}
