//! The position from which the search for a generated id starts, by binary search. It affects only
//! the speed: it is close if generations rise in the order of the items, as a counter generates
//! them.

use crate::bearers::{HasItems, Place};
use wast_base::{Id, Space, Span};

/// The number of fields or items that the search for the next generated id may skip.
const FAR: usize = 64;

/// The number of ranges that are kept apart.
const STRETCHES: usize = 16;

/// A list of fields or items.
trait Row {
    /// Returns the generation of the first generated id of the space at an index, or 0 if none.
    fn generation(&self, index: usize, space: Space) -> u64;
}

/// The fields of a module.
#[derive(Drop)]
struct Fields<'f, T>(&'f [T]);

impl<'f, T: HasItems> Row for Fields<'f, T> {
    fn generation(&self, index: usize, space: Space) -> u64 {
        let Some(field) = self.0.get(index) else {
            return 0;
        };
        first_generation(field, space)
    }
}

/// The items of a field.
#[derive(Drop)]
struct Items<'f, T>(&'f T);

impl<'f, T: HasItems> Row for Items<'f, T> {
    fn generation(&self, index: usize, space: Space) -> u64 {
        self.0.generation(index, space)
    }
}

/// Returns the number of items of a field.
fn count_items<T: HasItems>(field: &T, space: Space) -> usize {
    field.look(0, space, &Id::new("", Span::default())).items
}

/// Returns the generation of the first generated id of the space in a field, or 0.
///
/// It may also be 0 if many items come before the first such id.
fn first_generation<T: HasItems>(field: &T, space: Space) -> u64 {
    let first = field.generation(0, space);
    if first != 0 {
        return first;
    }
    for item in 1..count_items(field, space).min(FAR) {
        let generation = field.generation(item, space);
        if generation != 0 {
            return generation;
        }
    }
    0
}

/// A range of fields or items.
#[derive(Clone, Copy)]
struct Stretch {
    first: usize,
    end: usize,
}

/// Ranges of fields that contain all items of a space with generated ids, each far from the next.
///
/// The last range extends to the last such field.
#[derive(Clone, Copy)]
pub(crate) struct Stretches {
    count: usize,
    all: [Stretch; STRETCHES],
}

impl Stretches {
    /// Returns the ranges of these fields for a space.
    pub(crate) fn of<T: HasItems>(fields: &[T], space: Space) -> Stretches {
        let mut stretches = Stretches {
            count: 0,
            all: [Stretch { first: 0, end: 0 }; STRETCHES],
        };
        for index in 0..fields.len() {
            if first_generation(&fields[index], space) != 0 {
                stretches.add(index);
            }
        }
        stretches
    }

    /// Adds an index, which is after all others.
    fn add(&mut self, index: usize) {
        let end = index.saturating_add(1);
        if self.count > 0 && self.count <= STRETCHES {
            let last = &mut self.all[self.count - 1];
            if self.count == STRETCHES || index.saturating_sub(last.end) < FAR {
                last.end = end;
                return;
            }
        }
        if self.count < STRETCHES {
            self.all[self.count] = Stretch { first: index, end };
            self.count += 1;
        }
    }

    /// Returns the last range whose first generation is not above that of an id.
    fn stretch_of<R: Row>(&self, row: &R, space: Space, id: &Id<'_>) -> Stretch {
        let mut found = self.all[0];
        for stretch in &self.all[..self.count.min(STRETCHES)] {
            if row.generation(stretch.first, space) <= id.generation() {
                found = *stretch;
            }
        }
        found
    }
}

/// Returns the next index from `from` on that has a generated id of the space.
///
/// It returns `end` if there is none before `end`, or none soon.
fn next<R: Row>(row: &R, from: usize, end: usize, space: Space) -> usize {
    let far = end.min(from.saturating_add(FAR));
    for index in from..far {
        if row.generation(index, space) != 0 {
            return index;
        }
    }
    end
}

/// Returns the last index of a range whose generation is not above that of the id.
///
/// Generations have to rise within the range.
fn halved<R: Row>(row: &R, stretch: Stretch, space: Space, id: &Id<'_>) -> usize {
    let mut first = stretch.first;
    let mut end = stretch.end;
    for _halving in 0..usize::BITS {
        if end <= first.saturating_add(1) {
            break;
        }
        let middle = first + (end - first) / 2;
        let index = next(row, middle, end, space);
        if index < end && row.generation(index, space) <= id.generation() {
            first = index;
        } else {
            end = middle;
        }
    }
    first
}

/// Returns the position before the item that has the id, if generations rise in the order of items.
///
/// It may return `None` if they do not, or if many fields without such an id are between the items.
pub(crate) fn halved_place<T: HasItems>(
    fields: &[T],
    stretches: &Stretches,
    space: Space,
    id: &Id<'_>,
) -> Option<Place> {
    let row = Fields(fields);
    let index = halved(&row, stretches.stretch_of(&row, space, id), space, id);
    let field = fields.get(index)?;
    let items = Stretch {
        first: 0,
        end: count_items(field, space),
    };
    let item = halved(&Items(field), items, space, id);
    if !field.look(item, space, id).found {
        return None;
    }
    Some(Place { field: index, item })
}
