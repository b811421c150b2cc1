//! `Stack`, whose model in contracts is the list of its elements from the top.

ghost use Rattle.std.specs.Prelude.{◌≡◌, ◌<◌, ◌-◌, ◌≤◌, ◌^◌, [], ◌∷◌, length, drop, Some, None, slice_get, OnOk, OnErr, MatchOption};

use std::alloc::{AllocError, Global};
use std::marker::Model;

/// A stack, whose model in contracts is the list of its elements from the top.
#[derive(Drop)]
pub struct Stack<T> {
    items: Vec<T>,
}

impl<T> Model for Stack<T> {
    ghost use Rattle.std.specs.Prelude.{List, reverse};

    ghost Value = { List T };

    ghost view = { λ s. reverse s.items.items };
}

impl<T: Drop> Stack<T> {
    /// Makes an empty stack.
    pub fn new(alloc: Global) -> Self
        ensures { result ≡ [] }
    {
        Stack {
            items: Vec::new(alloc),
        }
    }

    /// Makes an empty stack with the allocator of this one.
    pub fn another(&self) -> Self
        ensures { result ≡ [] }
    {
        Stack {
            items: Vec::new(*self.items.allocator()),
        }
    }

    /// Returns the number of elements.
    #[inline(always)]
    pub fn len(&self) -> usize
        ensures { result ≡ length self.now }
    {
        self.items.len()
    }

    /// Pushes an element.
    #[inline(always)]
    pub fn push(&mut self, item: T) -> Result<(), AllocError>
        ensures ok { OnOk result (self.new ≡ item ∷ self.old) }
        ensures err { OnErr result (self.new ≡ self.old) }
    {
        self.items.push(item)?;
        Ok(())
    }

    /// Replaces the element on top.
    #[inline(always)]
    pub fn replace(&mut self, item: T)
        requires { 0 < length self.old }
        ensures { self.new ≡ item ∷ drop 1 self.old }
    {
        let _ = self.items.pop();
        self.items.push_reserved(item);
    }

    /// Pops the element on top.
    #[inline(always)]
    pub fn pop(&mut self) -> Option<T>
        ensures { MatchOption result ((self.old ≡ []) × (self.new ≡ [])) (λ x. self.old ≡ x ∷ self.new) }
    {
        self.items.pop()
    }
}

impl<T: Copy + Drop> Stack<T> {
    /// Returns the element at a depth, 0 for the top, or `None` if there are fewer elements.
    #[inline(always)]
    pub fn at(&self, depth: usize) -> Option<T>
        ensures { result ≡ slice_get self.now depth }
    {
        let len = self.items.len();
        if depth < len {
            Some(self.items[len - 1 - depth])
        } else {
            None
        }
    }

    /// Pops elements until at most `keep` are left.
    pub fn cut(&mut self, keep: usize)
        ensures { self.new ≡ drop (length self.old - keep) self.old }
    {
        while self.len() > keep {
            let _ = self.pop();
        }
    }
}
