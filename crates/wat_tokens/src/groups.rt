//! Puts the tokens of a text in groups.
//!
//! A reader frees each group after reading it, so that what it builds can reuse the memory. A long
//! list of tokens would also have to be moved as it grows. Calls fail only if allocation fails.

ghost use Rattle.std.specs.Prelude.{◌≡◌, ◌<◌, ◌∷◌, ◌++◌, [], All, IfOk, MatchResult, vec_len, vec_capacity};
ghost use Rattle.wat_tokens.specs.Scans.{seen_all, token_of, IsNamed, IsNamedPart};
ghost use Rattle.wat_tokens.specs.Groups.{all_in, tokens_in, IsCounted};
ghost use Rattle.wat_tokens.specs.declared.faults.TextFault.TheVariants as fault;

use crate::faults::TextFault;
use crate::tokens::Placed;
use std::alloc::Global;
use std::collections::VecDeque;
use std::mem;

/// How many tokens a group has, except for the last one. A group takes 16 KB.
const GROUP: usize = 512;

/// The tokens of a text in groups, in the order of the text.
///
/// For example, 600 tokens are a group of 512 and one of 88.
#[derive(Drop)]
pub struct TokenGroups<'a> {
    /// The groups.
    pub groups: VecDeque<Vec<Placed<'a>>>,
    /// How many tokens the groups have together.
    pub count: usize,
}

impl<'a> TokenGroups<'a> {
    /// Appends a group.
    #[tactic(auto, using(crate::proofs::Grouped::group_put, crate::proofs::Grouped::group_counted))]
    fn add(&mut self, group: Vec<Placed<'a>>) -> Result<(), TextFault>
        ensures all { MatchResult result (λ u. all_in self.new.groups.items ≡ all_in self.old.groups.items ++ group.entry.items) (λ f. f ≡ fault.Memory) }
        ensures count { IsCounted self.old → IfOk result (λ u. IsCounted self.new) }
    {
        let Some(count) = self.count.checked_add(group.len()) else {
            return Err(TextFault::Memory);
        };
        match self.groups.push_back(group) {
            Ok(()) => {
                self.count = count;
                Ok(())
            }
            Err(_) => Err(TextFault::Memory),
        }
    }
}

/// Tokens that are put in groups: the full groups, and the last one.
#[derive(Drop)]
pub(crate) struct Grouping<'a> {
    alloc: Global,
    full: TokenGroups<'a>,
    last: Vec<Placed<'a>>,
}

impl<'a> Grouping<'a> {
    /// Returns groups without tokens.
    #[tactic(auto, unfolding(crate::specs::Groups::tokens_in), using(crate::proofs::Grouped::nothing_put, crate::proofs::Grouped::nothing_counted))]
    pub(crate) fn new(alloc: Global) -> Grouping<'a>
        ensures none { tokens_in result ≡ [] }
        ensures count { IsCounted result.full }
    {
        let groups = VecDeque::new(alloc);
        let last = Vec::new(alloc);
        Grouping {
            alloc,
            full: TokenGroups { groups, count: 0 },
            last,
        }
    }

    /// Puts the last group after the full ones, and begins a new one.
    #[cold]
    #[inline(never)]
    #[tactic(auto, unfolding(crate::specs::Groups::tokens_in), using(crate::proofs::Grouped::group_begun))]
    fn begin_group(&mut self) -> Result<(), TextFault>
        ensures same { MatchResult result (λ u. tokens_in self.new ≡ tokens_in self.old) (λ f. f ≡ fault.Memory) }
        ensures count { IsCounted self.old.full → IfOk result (λ u. IsCounted self.new.full) }
    {
        let Ok(next) = Vec::with_capacity(self.alloc, GROUP) else {
            return Err(TextFault::Memory);
        };
        let last = mem::replace(&mut self.last, next);
        match self.full.add(last) {
            Ok(()) => Ok(()),
            Err(fault) => Err(fault),
        }
    }

    /// Begins a new group, if the last one is full.
    fn make_room(&mut self) -> Result<(), TextFault>
        ensures same { MatchResult result (λ u. tokens_in self.new ≡ tokens_in self.old) (λ f. f ≡ fault.Memory) }
        ensures count { IsCounted self.old.full → IfOk result (λ u. IsCounted self.new.full) }
    {
        if self.last.len() < GROUP {
            return Ok(());
        }
        self.begin_group()
    }

    /// Appends a token to the last group.
    #[tactic(auto, unfolding(crate::specs::Groups::tokens_in), using(crate::proofs::Grouped::token_put))]
    fn push_last(&mut self, token: Placed<'a>) -> Result<(), TextFault>
        ensures put { MatchResult result (λ u. tokens_in self.new ≡ tokens_in self.old ++ token.entry ∷ []) (λ f. f ≡ fault.Memory) }
        ensures full { self.new.full ≡ self.old.full }
    {
        match self.last.push(token) {
            Ok(()) => Ok(()),
            Err(_) => Err(TextFault::Memory),
        }
    }

    /// Appends a token to the last group, which has room, so that nothing is allocated.
    #[tactic(auto, unfolding(crate::specs::Groups::tokens_in), using(crate::proofs::Grouped::token_put))]
    fn put_last(&mut self, token: Placed<'a>)
        requires { vec_len self.old.last < vec_capacity self.old.last }
        ensures put { tokens_in self.new ≡ tokens_in self.old ++ token.entry ∷ [] }
        ensures full { self.new.full ≡ self.old.full }
    {
        self.last.push_reserved(token);
    }

    /// Appends a token, as `push` does, if the last group has no room. The loop over a text does
    /// not contain this, so that a token need not be in memory before it is in its group.
    #[cold]
    #[inline(never)]
    fn push_further(&mut self, token: Placed<'a>) -> Result<(), TextFault>
        ensures put { MatchResult result (λ u. tokens_in self.new ≡ tokens_in self.old ++ token.entry ∷ []) (λ f. f ≡ fault.Memory) }
        ensures count { IsCounted self.old.full → IfOk result (λ u. IsCounted self.new.full) }
    {
        match self.make_room() {
            Ok(()) => match self.push_last(token) {
                Ok(()) => Ok(()),
                Err(fault) => Err(fault),
            },
            Err(fault) => Err(fault),
        }
    }

    /// Appends a token.
    #[inline(always)]
    fn push(&mut self, token: Placed<'a>) -> Result<(), TextFault>
        ensures put { MatchResult result (λ u. tokens_in self.new ≡ tokens_in self.old ++ token.entry ∷ []) (λ f. f ≡ fault.Memory) }
        ensures count { IsCounted self.old.full → IfOk result (λ u. IsCounted self.new.full) }
    {
        if self.last.len() < self.last.capacity() {
            self.put_last(token);
            return Ok(());
        }
        self.push_further(token)
    }

    /// Appends a token, if there is one.
    #[inline(always)]
    #[tactic(auto, using(crate::proofs::Steps::seen_more, crate::proofs::Steps::named_more))]
    pub(crate) fn put(&mut self, token: Option<Placed<'a>>) -> Result<(), TextFault>
        ensures put { MatchResult result (λ u. seen_all (tokens_in self.new) ≡ seen_all (tokens_in self.old) ++ token_of token.entry) (λ f. f ≡ fault.Memory) }
        ensures words { IsNamedPart token.entry → All (λ p. IsNamed p.token) (tokens_in self.old) → IfOk result (λ u. All (λ p. IsNamed p.token) (tokens_in self.new)) }
        ensures count { IsCounted self.old.full → IfOk result (λ u. IsCounted self.new.full) }
    {
        match token {
            Some(token) => match self.push(token) {
                Ok(()) => Ok(()),
                Err(fault) => Err(fault),
            },
            None => Ok(()),
        }
    }

    /// Returns the groups, including the last one.
    #[tactic(auto, unfolding(crate::specs::Groups::tokens_in))]
    pub(crate) fn finish(self) -> Result<TokenGroups<'a>, TextFault>
        ensures all { MatchResult result (λ found. all_in found.groups.items ≡ tokens_in self.entry) (λ f. f ≡ fault.Memory) }
        ensures count { IsCounted self.entry.full → IfOk result IsCounted }
    {
        let Grouping { full, last, .. } = self;
        let mut found = full;
        match found.add(last) {
            Ok(()) => Ok(found),
            Err(fault) => Err(fault),
        }
    }
}
