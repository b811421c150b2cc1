//! Immediates of instructions on continuations (stack switching).

use wast_base::{Index, Seq};

/// `cont.bind $a $r` (stack switching)
#[derive(Clone, Copy, Debug, PartialEq, Eq)]
pub struct ContBind<'a> {
    /// The type of the continuation that the arguments are for.
    pub argument_index: Index<'a>,
    /// The type of the resulting continuation.
    pub result_index: Index<'a>,
}

/// `switch $t $e` (stack switching)
#[derive(Clone, Copy, Debug, PartialEq, Eq)]
pub struct Switch<'a> {
    /// The type of the continuation.
    pub type_index: Index<'a>,
    /// The tag.
    pub tag_index: Index<'a>,
}

/// `resume $t (on $e $l)` (stack switching)
#[derive(Debug, Drop)]
pub struct Resume<'a> {
    /// The type of the continuation.
    pub type_index: Index<'a>,
    /// The handlers.
    pub table: ResumeTable<'a>,
}

/// `resume_throw $t $x (on $e $l)` (stack switching)
#[derive(Debug, Drop)]
pub struct ResumeThrow<'a> {
    /// The type of the continuation.
    pub type_index: Index<'a>,
    /// The tag of the exception that is thrown.
    pub tag_index: Index<'a>,
    /// The handlers.
    pub table: ResumeTable<'a>,
}

/// `resume_throw_ref $t (on $e $l)` (stack switching)
#[derive(Debug, Drop)]
pub struct ResumeThrowRef<'a> {
    /// The type of the continuation.
    pub type_index: Index<'a>,
    /// The handlers.
    pub table: ResumeTable<'a>,
}

/// The handlers of a `resume` instruction (stack switching).
#[derive(Debug, Drop)]
pub struct ResumeTable<'a> {
    /// The handlers, in source order.
    pub handlers: Seq<Handle<'a>>,
}

/// A handler of a `resume` instruction (stack switching).
#[derive(Clone, Copy, Debug, PartialEq, Eq)]
pub enum Handle<'a> {
    /// `(on $e $l)`
    OnLabel {
        /// The tag.
        tag: Index<'a>,
        /// The label.
        label: Index<'a>,
    },
    /// `(on $e switch)`
    OnSwitch {
        /// The tag.
        tag: Index<'a>,
    },
}
