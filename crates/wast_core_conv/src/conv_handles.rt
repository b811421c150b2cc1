//! Handlers of `resume` instructions as values of the binary format.

ghost use Rattle.std.specs.Prelude.{◌≡◌, map, IsTrue};
ghost use Rattle.std.specs.Iterator.{YieldsFirst, item_count};
ghost use Rattle.std.specs.List.{list_all};
ghost use Rattle.wast_core_conv.specs.Encodable.{is_resolved_handle};
ghost use Rattle.wast_core_conv.specs.Meaning as meaning;

use crate::conv_immediates::handle;
use std::marker::Model;
use std::slice;
use wast_tree_nodes::{Handle, ResumeTable};

/// An iterator over the handlers of a `resume` instruction, converted one by one.
///
///     let mut handles = conv::handles(&table);
///     assert!(rt; handles.next() == Some(wasm_ops::Handle::OnSwitch { tag: 3 }));
///     assert!(rt; handles.next() == None);
#[derive(Drop)]
pub struct Handles<'b, 'a> {
    rest: slice::Iter<'b, Handle<'a>>,
}

impl<'b, 'a> Handles<'b, 'a> {
    /// Returns the handlers of a resume table.
    pub(crate) fn of(table: &'b ResumeTable<'a>) -> Self
        requires { IsTrue (list_all is_resolved_handle table.now.handlers) }
        ensures { result ≡ map meaning.as_handle table.now.handlers }
    {
        Handles {
            rest: table.handlers.as_slice().iter(),
        }
    }
}

impl<'b, 'a> Model for Handles<'b, 'a> {
    ghost use Rattle.std.specs.Prelude.{List, map, IsTrue};
    ghost use Rattle.std.specs.List.{list_all};
    ghost use Rattle.std.specs.Slice.Iter.{iter_rest};
    ghost use Rattle.wasm_ops.specs.declared.blocks.Handle.{Handle};
    ghost use Rattle.wast_core_conv.specs.Encodable.{is_resolved_handle};
    ghost use Rattle.wast_core_conv.specs.Meaning as meaning;

    ghost Value = { List Handle };

    ghost view = { λ s. map meaning.as_handle (iter_rest s.rest) };

    ghost invariant = { λ s. IsTrue (list_all is_resolved_handle (iter_rest s.rest)) };
}

impl<'b, 'a> Iterator for Handles<'b, 'a> {
    type Item = wasm_ops::Handle;

    ghost next_gives = { YieldsFirst (λ rest. rest) };

    ghost remaining = { item_count (λ rest. rest) };

    fn next(&mut self) -> Option<wasm_ops::Handle> {
        let first = self.rest.next()?;
        Some(handle(first))
    }

    fn size_hint(&self) -> (usize, Option<usize>) {
        let len = self.len();
        (len, Some(len))
    }
}

impl<'b, 'a> ExactSizeIterator for Handles<'b, 'a> {
    fn len(&self) -> usize {
        self.rest.len()
    }
}
