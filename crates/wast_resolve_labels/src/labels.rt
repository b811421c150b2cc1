//! The enclosing blocks of an instruction, by their labels.

ghost use Rattle.std.specs.Prelude.{◌≡◌, ◌+◌, ◌<◌, ◌≤◌, ◌^◌, ◌↔◌, [], ◌∷◌, length, Some, None, codes, IsTrue, IsFalse, IfOk, IfSome, OnOk, OnErr};
ghost use Rattle.wast_base.specs.Blocks.{without_innermost};
ghost use Rattle.wast_base.specs.Ids.{name_of, mark_of_option};
ghost use Rattle.wast_base.specs.Spaces.{name_if};
ghost use Rattle.wast_base.specs.Denoted.{denoted, resolved_index};
ghost use Rattle.wast_base.specs.FirstUnmet.{first_unmet, known_index};
ghost use Rattle.wast_base.specs.Outcomes.{Outcome};
ghost use Rattle.wast_resolve_labels.specs.Asked.{number_among, wrong_label};
ghost use Rattle.wast_resolve_labels.specs.OpenBlocks.{label_depth, is_innermost, is_expected_label};

use crate::index::{index_all, indexed_place, steps_back, unindex_block};
use crate::marks::mark_if;
use std::alloc::{AllocError, Global};
use std::collections::BTreeMap;
use std::marker::Model;
use wast_base::{Error, Fault, Id, Index, Numbering, number_index};

/// This many innermost blocks are searched one by one, before indexing the others is considered.
const NEAR: usize = 16;

/// Indexing a block takes about as long as comparing this many blocks.
const DUE: usize = 256;

/// The enclosing blocks of an instruction, by their labels (text format: control instructions,
/// labels).
///
/// Its model in contracts is the list of labels, innermost first. Only [`open`](Labels::open),
/// [`reach`](Labels::reach) and [`reach_all`](Labels::reach_all) allocate. If allocation fails, the
/// blocks do not change.
///
/// Look-ups compare the blocks that are not indexed, one by one, and then use an index of the
/// others, which are the outermost. Each block has a mark, made of the length and the last byte of
/// its label. Blocks with another mark are skipped.
///
/// If `reach` is called before each look-up, blocks are indexed as soon as comparing them has taken
/// as long as indexing them. So apart from the 16 innermost, all look-ups together compare at most
/// a few hundred blocks for each block that is opened, however deep the nesting is. This is tested,
/// not proved.
///
/// # Example
///
///     let mut labels = Labels::new(rt.alloc());
///     open_many(&rt, &mut labels, id("l"));
///     let mut branch = Index::Id(id("l"));
///     assert!(rt; labels.number(&mut branch) == Ok(0));
///     assert!(rt; branch == Index::Num(0, Span { offset: 7 }));
#[derive(Drop)]
pub struct Labels<'a> {
    // All enclosing blocks, the outermost first.
    open: Vec<Option<Id<'a>>>,
    // For each of them, the mark of its label.
    marks: Vec<u16>,
    // For each label of an indexed block, the position of the innermost indexed block with it.
    places: BTreeMap<Id<'a>, usize>,
    // For each indexed block, the outermost first, the position of the next one further out with
    // its label.
    outer: Vec<Option<usize>>,
    // How many blocks were compared since blocks were indexed last.
    spent: usize,
}

impl<'a> Model for Labels<'a> {
    ghost use Rattle.std.specs.Prelude.{◌≡◌, ◌<◌, ◌^◌, length};
    ghost use Rattle.wast_base.specs.Blocks.{Blocks};
    ghost use Rattle.wast_resolve_labels.specs.Indexed.{labels_of, IsIndexOf};
    ghost use Rattle.wast_resolve_labels.specs.Marks.{marks_of};

    ghost Value = { Blocks };

    ghost view = { λ s. labels_of s.open.items };

    ghost invariant = { λ s. (length s.open.items < 2 ^ 32) × IsIndexOf s.open.items s.places s.outer.items × (s.marks.items ≡ marks_of s.open.items) };
}

impl<'a> Labels<'a> {
    /// Creates an empty list: no enclosing blocks.
    pub fn new(alloc: Global) -> Self
        ensures { result ≡ [] }
    {
        Labels {
            open: Vec::new(alloc),
            marks: Vec::new(alloc),
            places: BTreeMap::new(alloc),
            outer: Vec::new(alloc),
            spent: 0,
        }
    }

    /// Returns whether there are 4,294,967,295 enclosing blocks, so that no more can be opened.
    pub fn is_full(&self) -> bool
        ensures { IsTrue result ↔ (2 ^ 32 ≤ length self.now + 1) }
    {
        self.open.len() >= u32::MAX as usize
    }

    /// Opens a block with its label, if it has one. It is then the innermost block. Test
    /// [`is_full`](Labels::is_full) first.
    ///
    ///     assert!(rt; !labels.is_full());
    ///     labels.open(label).expect(rt, "memory");
    pub fn open(&mut self, label: Option<Id<'a>>) -> Result<(), AllocError>
        requires { length self.old + 1 < 2 ^ 32 }
        ensures ok { OnOk result (self.new ≡ name_if (mark_of_option label.entry) ∷ self.old) }
        ensures err { OnErr result (self.new ≡ self.old) }
    {
        self.open.reserve(1)?;
        self.marks.reserve(1)?;
        let mark = mark_if(&label);
        self.open.push_reserved(label);
        self.marks.push_reserved(mark);
        Ok(())
    }

    /// Prepares for looking up a label, so that all look-ups together are fast. Depths do not
    /// change.
    ///
    /// It indexes all enclosing blocks if three conditions hold:
    ///
    /// - the index is an id;
    /// - none of the innermost blocks has it: at most 16 that are not indexed;
    /// - comparing the others has taken as long by now as indexing them does.
    ///
    /// A block is indexed once, however many labels are looked up.
    ///
    /// # Example
    ///
    ///     let mut branch = Index::Id(id(text.as_str()));
    ///     labels.reach(&branch).expect(rt, "memory");
    ///     assert!(rt; labels.number(&mut branch) == Ok(want));
    pub fn reach(&mut self, idx: &Index<'a>) -> Result<(), AllocError>
        ensures { self.new ≡ self.old }
    {
        if let Index::Id(id) = idx {
            if self.is_far(id) {
                self.index_if_due()?;
            }
        }
        Ok(())
    }

    /// Prepares for looking up a label that no innermost block has, like [`reach`](Labels::reach).
    ///
    ///     labels.reach_all().expect(&rt, "memory");
    ///
    /// It indexes all enclosing blocks if more than 16 are not indexed, and comparing them has
    /// taken as long by now as indexing them does.
    pub fn reach_all(&mut self) -> Result<(), AllocError>
        ensures { self.new ≡ self.old }
    {
        if !self.is_near() {
            self.index_if_due()?;
        }
        Ok(())
    }

    /// Indexes all blocks, if it is due.
    fn index_if_due(&mut self) -> Result<(), AllocError>
        ensures { self.new ≡ self.old }
    {
        if self.is_due() {
            index_all(&self.open, &mut self.places, &mut self.outer)?;
        }
        Ok(())
    }

    /// Returns whether indexing is due, because as many blocks were compared by now as it costs.
    ///
    /// It counts that all blocks that are not indexed are compared once more, and restarts the
    /// count if it is due.
    fn is_due(&mut self) -> bool
        ensures { self.new ≡ self.old }
    {
        let rest = self.open.len() - self.outer.len();
        self.spent = self.spent.saturating_add(rest);
        if self.spent / DUE < rest {
            return false;
        }
        self.spent = 0;
        true
    }

    /// Returns whether each look-up is fast: at most 16 enclosing blocks are not indexed. Then
    /// [`reach`](Labels::reach) does nothing.
    #[inline(always)]
    pub fn is_near(&self) -> bool {
        self.open.len() - self.outer.len() <= NEAR
    }

    /// Returns whether many blocks are not indexed, and none of the innermost ones has the label.
    fn is_far(&self, id: &Id<'a>) -> bool {
        !self.is_near() && self.near(id).is_none()
    }

    /// Closes the innermost block, if there is one.
    pub fn close(&mut self)
        ensures { self.new ≡ without_innermost self.old }
    {
        if let Some(label) = self.open.pop() {
            let _ = self.marks.pop();
            if self.outer.len() > self.open.len() {
                unindex_block(&mut self.places, &mut self.outer, label);
            }
        }
    }

    /// Returns the depth of a label: how many enclosing blocks are inside the innermost one with
    /// it. If no enclosing block has the label, it is `None`. The position of the id is ignored.
    ///
    /// # Example
    ///
    ///     for _ in 0..100 {
    ///         open(&rt, &mut labels, None);
    ///     }
    ///     assert!(rt; labels.denotes(&id("l")) == Some(100));
    pub fn denotes(&self, id: &Id<'a>) -> Option<u32>
        ensures { result ≡ label_depth (name_of id.now) self.now }
    {
        if self.is_innermost(id) {
            return Some(0);
        }
        self.sought(id)
    }

    /// Returns the depth of a label, among all enclosing blocks.
    fn sought(&self, id: &Id<'a>) -> Option<u32>
        ensures { result ≡ label_depth (name_of id.now) self.now }
    {
        let indexed = self.outer.len();
        let (_, near) = self.open.split_at(indexed);
        let (_, near_marks) = self.marks.split_at(indexed);
        if let Some(steps) = steps_back(near, near_marks, id) {
            return Some(steps as u32);
        }
        let place = indexed_place(&self.places, id)?;
        Some((self.open.len() - 1 - place) as u32)
    }

    /// Returns the depth of a label, if one of the innermost blocks has it.
    ///
    /// These are at most 16 blocks that are not indexed. The innermost of all is compared first,
    /// because most branches go there.
    #[inline(always)]
    fn near(&self, id: &Id<'a>) -> Option<u32>
        ensures { IfSome result (λ n. label_depth (name_of id.now) self.now ≡ Some n) }
    {
        if self.is_innermost(id) {
            Some(0)
        } else {
            self.sought_near(id)
        }
    }

    /// The same, comparing these blocks one by one.
    #[inline(never)]
    fn sought_near(&self, id: &Id<'a>) -> Option<u32>
        ensures { IfSome result (λ n. label_depth (name_of id.now) self.now ≡ Some n) }
    {
        let open = self.open.as_slice();
        let first = open.len().saturating_sub(NEAR).max(self.outer.len());
        let (_, nearest) = open.split_at(first);
        let (_, nearest_marks) = self.marks.split_at(first);
        let steps = steps_back(nearest, nearest_marks, id)?;
        Some(steps as u32)
    }

    /// Replaces a label by its depth if that is fast, and returns whether it did. Otherwise the
    /// index is unchanged.
    ///
    ///     assert!(&rt; labels.is_near() && !labels.try_number(&mut outermost));
    ///
    /// It is fast for a number, and for the label of one of the innermost blocks: at most 16 that
    /// are not indexed. For the others call [`number`](Labels::number).
    #[inline(always)]
    pub fn try_number(&self, idx: &mut Index<'a>) -> bool
        ensures met { IsTrue result → first_unmet (known_index (number_among self.now) (codes "label") idx.old) ≡ None }
        ensures index { IsTrue result → idx.new ≡ resolved_index (number_among self.now) idx.old }
        ensures stays { IsFalse result → idx.new ≡ idx.old }
    {
        let (number, span) = match idx {
            Index::Num(_, _) => return true,
            Index::Id(id) => (self.near(id), id.span()),
        };
        match number {
            Some(number) => {
                *idx = Index::Num(number, span);
                true
            }
            None => false,
        }
    }

    /// Returns the depth of a label index, and replaces a label by its depth, at the position of
    /// the label. A number is returned as it is.
    ///
    /// # Example
    ///
    ///     let mut branch = Index::Id(id("l"));
    ///     assert!(rt; labels.number(&mut branch) == Ok(0));
    ///     assert!(rt; branch == Index::Num(0, Span { offset: 7 }));
    ///
    /// # Errors
    ///
    /// E4 `label` at the position of the label, if no enclosing block has it. The index is then
    /// unchanged.
    pub fn number(&self, idx: &mut Index<'a>) -> Result<u32, Error<'a>>
        ensures answer { Outcome ⊥ ⊥ (first_unmet (known_index (number_among self.now) (codes "label") idx.old)) result }
        ensures number { IfOk result (λ n. denoted (number_among self.now) idx.old ≡ Some n) }
        ensures index { idx.new ≡ resolved_index (number_among self.now) idx.old }
    {
        number_index(self, idx, "label")
    }

    /// Returns whether the innermost block has this label. Without enclosing blocks it is `false`.
    #[inline(always)]
    pub fn is_innermost(&self, id: &Id<'a>) -> bool
        ensures { result ≡ is_innermost (name_of id.now) self.now }
    {
        match self.open.last() {
            Some(Some(label)) => id.is_same(label),
            _ => false,
        }
    }

    /// Returns whether `else` or `end` may repeat this label (text format: control instructions).
    ///
    /// It may be left out, or be that of the innermost block. Without enclosing blocks any label is
    /// allowed, as in the `wast` crate.
    pub fn expects(&self, label: Option<Id<'a>>) -> bool
        ensures { result ≡ is_expected_label (name_if (mark_of_option label.entry)) self.now }
    {
        match label {
            Some(id) => self.open.is_empty() || self.is_innermost(&id),
            None => true,
        }
    }

    /// Checks the label at an `else` or `end`, before the block is closed.
    ///
    /// For example, in `block $a end $b` the label `$b` is E8.
    ///
    /// # Errors
    ///
    /// E8 at the position of the label, if [`expects`](Labels::expects) returns `false` for it.
    pub fn check(&self, label: Option<Id<'a>>) -> Result<(), Error<'a>>
        ensures { Outcome ⊥ ⊥ (wrong_label self.now (mark_of_option label.entry)) result }
    {
        if let Some(id) = label {
            if !self.expects(label) {
                return Err(Error::new(id.span(), Fault::Labels));
            }
        }
        Ok(())
    }
}

impl<'a> Numbering<'a> for Labels<'a> {
    ghost numbers = { λ s. number_among s };

    fn number_of(&self, id: &Id<'a>) -> Option<u32> {
        self.denotes(id)
    }
}
