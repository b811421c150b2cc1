//! Reads the tokens of a text one after another, up to the first error.
//!
//! A reader keeps the first error, and has no tokens left from then on. So a function that reads a
//! part of the tree always returns one, and has no error to pass on. Each loop over the tokens also
//! ends.
//!
//! The next token is the first one that is left. A form is `(`, a keyword, and all up to the
//! closing `)`, such as `(result i32 i64)`.
//!
//! The tokens are in groups. A group is freed as soon as a token after it is read, so the tree
//! takes its memory.

ghost use Rattle.std.specs.Prelude.{◌≡◌, ◌≢◌, ◌-◌, true, false, None, Some, Ok, Err, drop, length, map, option_map, slice_get, IfSome};
ghost use Rattle.wat_syntax.specs.Tokens.{peek, after, position, position_in, count, is_lparen, is_end, word_of, key_of, is_key, is_form, lparen, rparen, keyword, form};
ghost use Rattle.wat_tokens.specs.declared.faults.TextFault.TheVariants as fault;
ghost use Rattle.wat_syntax.specs.Values.{number_text, u32, begins_number, is_number, is_string, is_index, string, name, id, name_annotation, index};
ghost use Rattle.wat_syntax.specs.Values.{optional_index, index_or_zero};
ghost use Rattle.wat_tokens.specs.Groups.{all_in, IsCounted};
ghost use Rattle.wat_text.specs.Readers.{left, exactly, grouped, token_in, IsClean, IsRefused, Decides, Expects, Accepts, Finds, Fails, Pushes};
ghost use Rattle.wat_text.specs.Denotes.{all_bare};
ghost use Rattle.wat_syntax.specs.Bare.{bare_id_option, bare_index, bare_index_option, bare_name_option, bare_placed, bare_text, bare_token};

use std::alloc::{AllocError, Global};
use std::collections::VecDeque;
use wast_tree::{Id, Index, NameAnnotation, Seq, Span, TreeBuilder};
use wat_tokens::{
    Annotation, Key, Placed, TextError, TextFault, Token, TokenGroups, Word, unsigned32,
};

/// Returns the token after `ahead` others in groups of tokens, or `None` if they have not so many.
#[tactic(auto, using(crate::proofs::Groups::first_in, crate::proofs::Groups::later_in, crate::proofs::Groups::none_in))]
fn token_in<'a>(groups: &VecDeque<Vec<Placed<'a>>>, ahead: usize) -> Option<Placed<'a>>
    ensures { result ≡ token_in groups.now.items ahead }
{
    let mut rest = ahead;
    for group in groups {
        match group.get(rest) {
            Some(placed) => return Some(*placed),
            None => rest -= group.len(),
        }
    }
    None
}

/// Returns whether a text begins as a number does, with a digit or a sign.
fn begins_number(text: &str) -> bool
    ensures { result ≡ begins_number text.now }
{
    matches!(text.as_bytes().first(), Some(b'0'..=b'9' | b'+' | b'-'))
}

/// Frees the memory that a list does not use. A list grows by doubling while it is read, and the
/// module keeps it.
pub(crate) fn fitted<T>(list: Seq<T>) -> Seq<T>
    ensures { result ≡ list }
{
    let mut items = list.into_vec();
    items.shrink_to_fit();
    Seq::from_vec(items)
}

/// The tokens of a text, how many of them are read, and the first error.
#[derive(Drop)]
pub(crate) struct Reader<'a> {
    pub alloc: Global,
    /// Appends parts of the tree to lists, and stores whether an allocation failed.
    pub make: TreeBuilder,
    /// The group of tokens that is read. Tokens before it are freed.
    tokens: Vec<Placed<'a>>,
    /// The groups after it.
    later: VecDeque<Vec<Placed<'a>>>,
    /// How many tokens this group and those after it have.
    count: usize,
    /// How many tokens of this group are read. After an error, it is past all tokens, so that none
    /// is left.
    at: usize,
    /// The position after the last token.
    end: Span,
    fault: Option<TextError>,
}

impl<'a> Reader<'a> {
    /// Makes a reader of the tokens in a list. `end` is the position after the last one.
    #[tactic(auto, unfolding(crate::specs::Readers::left), using(crate::proofs::Groups::one_group))]
    pub(crate) fn new(alloc: Global, tokens: Vec<Placed<'a>>, end: Span) -> Reader<'a>
        ensures left { left result ≡ all_bare tokens.entry.items end }
        ensures clean { IsClean result }
    {
        let count = tokens.len();
        let later = VecDeque::new(alloc);
        Reader {
            alloc,
            make: TreeBuilder::new(alloc),
            tokens,
            later,
            count,
            at: 0,
            end,
            fault: None,
        }
    }

    /// Makes a reader of the tokens in groups. `end` is the position after the last one.
    #[tactic(auto, unfolding(crate::specs::Readers::left), using(crate::proofs::Groups::all_groups))]
    pub(crate) fn of_groups(alloc: Global, groups: TokenGroups<'a>, end: Span) -> Reader<'a>
        requires { IsCounted groups }
        ensures left { left result ≡ all_bare (all_in groups.entry.groups.items) end }
        ensures clean { IsClean result }
    {
        let tokens = Vec::new(alloc);
        let TokenGroups {
            groups: later,
            count,
        } = groups;
        Reader {
            alloc,
            make: TreeBuilder::new(alloc),
            tokens,
            later,
            count,
            at: 0,
            end,
            fault: None,
        }
    }

    /// Returns the first error, if there is one. If an allocation of the tree failed, the error is
    /// `Memory`, whatever else is wrong.
    pub(crate) fn finish(self) -> Option<TextError>
        ensures clean { result ≡ None → IsClean self.entry }
        ensures refused { IfSome result (λ e. e.fault ≢ fault.Memory → (self.entry.make ≡ false) × (self.entry.fault ≡ Some e)) }
    {
        if self.make.is_refused() {
            return Some(TextError::new(self.end, TextFault::Memory));
        }
        self.fault
    }

    /// Returns how many tokens this group and those after it have.
    #[inline(always)]
    #[tactic(auto, using(crate::proofs::Groups::group_length))]
    fn all(&self) -> usize
        ensures { result ≡ length (grouped self.now.tokens.items self.now.count self.now.later.items) }
    {
        let here = self.tokens.len();
        here + self.count.saturating_sub(here)
    }

    /// Returns how many tokens are left.
    #[tactic(auto, unfolding(crate::specs::Readers::left, wat_syntax::specs::Tokens::count), using(crate::proofs::Lefts::counted))]
    pub(crate) fn left(&self) -> usize
        ensures { result ≡ count (left self.now) }
    {
        self.all().saturating_sub(self.at)
    }

    /// Returns the token after `ahead` others in the groups after this one, or `None` if no such
    /// token is counted.
    #[tactic(auto, unfolding(crate::specs::Readers::token_in), using(crate::proofs::Groups::exactly_here, crate::proofs::Groups::exactly_lacks, crate::proofs::Groups::exactly_past))]
    fn token_after(&self, ahead: usize) -> Option<Placed<'a>>
        ensures { result ≡ slice_get (exactly (self.now.count - length self.now.tokens.items) (all_in self.now.later.items)) ahead }
    {
        if self.count.saturating_sub(self.tokens.len()) <= ahead {
            return None;
        }
        match token_in(&self.later, ahead) {
            Some(placed) => Some(placed),
            None => Some(Placed {
                token: Token::Close,
                span: Span { offset: 0 },
            }),
        }
    }

    /// Returns the token with this number in this group and those after it, if they have so many.
    #[tactic(auto, using(crate::proofs::Groups::token_here, crate::proofs::Groups::token_there))]
    fn token_at(&self, at: usize) -> Option<Placed<'a>>
        ensures { result ≡ slice_get (grouped self.now.tokens.items self.now.count self.now.later.items) at }
    {
        match self.tokens.get(at) {
            Some(placed) => Some(*placed),
            None => self.token_after(at - self.tokens.len()),
        }
    }

    /// Does what [`Reader::look`] does, in the groups after this one too. It is not inlined,
    /// because few tokens are looked for there.
    #[cold]
    #[inline(never)]
    #[tactic(auto, unfolding(crate::specs::Readers::left, wat_syntax::specs::Tokens::peek), using(crate::proofs::Lefts::none_peeked, crate::proofs::Groups::peeked_at, crate::proofs::Groups::none_peeked_at))]
    fn look_further(&self, ahead: usize) -> Option<Token<'a>>
        ensures { option_map bare_token result ≡ peek ahead (left self.now) }
    {
        let all = self.all();
        if all.saturating_sub(self.at) <= ahead {
            return None;
        }
        match self.token_at(self.at + ahead) {
            Some(placed) => Some(placed.token),
            None => None,
        }
    }

    /// Returns the token that [`Reader::look_further`] finds, in registers. That function writes it
    /// to memory, which the compiler clears first. A look that finds its token in the group clears
    /// nothing.
    #[inline(always)]
    fn further_token(&self, ahead: usize) -> Option<Token<'a>>
        ensures { option_map bare_token result ≡ peek ahead (left self.now) }
    {
        match self.look_further(ahead) {
            Some(token) => Some(token),
            None => None,
        }
    }

    /// Returns the position of the token with this number in this group and those after it, or the
    /// end if they have not so many.
    #[cold]
    #[inline(never)]
    #[tactic(auto, using(crate::proofs::Groups::placed_at, crate::proofs::Groups::none_placed_at))]
    fn place_of(&self, at: usize) -> Span
        ensures { result ≡ position_in (drop at (map bare_placed (grouped self.now.tokens.items self.now.count self.now.later.items))) self.now.end }
    {
        match self.token_at(at) {
            Some(placed) => placed.span,
            None => self.end,
        }
    }

    /// Returns the token after `ahead` others. Returns `None` at the end, and after an error.
    #[inline(always)]
    #[tactic(auto, unfolding(crate::specs::Readers::left, wat_syntax::specs::Tokens::peek), using(crate::proofs::Groups::peeked_here))]
    pub(crate) fn look(&self, ahead: usize) -> Option<Token<'a>>
        ensures { option_map bare_token result ≡ peek ahead (left self.now) }
    {
        match self.tokens.get(self.at.saturating_add(ahead)) {
            Some(placed) => Some(placed.token),
            None => self.further_token(ahead),
        }
    }

    /// Returns the position of the next token, or the end if no token is left.
    #[inline(always)]
    #[tactic(auto, unfolding(crate::specs::Readers::left, wat_syntax::specs::Tokens::position), using(crate::proofs::Groups::placed_here))]
    pub(crate) fn place(&self) -> Span
        ensures { result ≡ position (left self.now) }
    {
        match self.tokens.get(self.at) {
            Some(placed) => placed.span,
            None => self.place_of(self.at),
        }
    }

    /// Returns the position of the token that was read last.
    #[tactic(auto, unfolding(crate::specs::Readers::left), using(crate::proofs::Groups::placed_here))]
    pub(crate) fn place_before(&self) -> Span
        ensures { result ≡ (left self.now).before }
    {
        let before = self.at.saturating_sub(1);
        match self.tokens.get(before) {
            Some(placed) => placed.span,
            None => self.place_of(before),
        }
    }

    /// Frees this group and goes on to the next one, if its first token is read.
    #[tactic(auto, unfolding(crate::specs::Readers::left))]
    fn next_group(&mut self)
        ensures left { left self.new ≡ left self.old }
        ensures fault { self.new.fault ≡ self.old.fault }
        ensures make { self.new.make ≡ self.old.make }
    {
        let read = self.tokens.len();
        if self.at <= read {
            return;
        }
        if let Some(group) = self.later.pop_front() {
            let mut tokens = group;
            let rest = self.count.saturating_sub(read);
            tokens.truncate(rest);
            self.tokens = tokens;
            self.count = rest;
            self.at -= read;
        }
    }

    /// Reads the next token, which is in the groups after this one, if there is one.
    #[cold]
    #[inline(never)]
    fn skip_further(&mut self)
        ensures left { left self.new ≡ after (left self.old) }
        ensures fault { self.new.fault ≡ self.old.fault }
        ensures make { self.new.make ≡ self.old.make }
    {
        if self.at < self.all() {
            self.at += 1;
            self.next_group();
        }
    }

    /// Reads the next token, whatever it is.
    #[inline(always)]
    #[tactic(auto, unfolding(crate::specs::Readers::left, wat_syntax::specs::Tokens::after))]
    pub(crate) fn skip(&mut self)
        ensures left { left self.new ≡ after (left self.old) }
        ensures fault { self.new.fault ≡ self.old.fault }
        ensures make { self.new.make ≡ self.old.make }
    {
        if self.at < self.tokens.len() {
            self.at += 1;
        } else {
            self.skip_further();
        }
    }

    /// Stores an error at a position, unless there already is one. It is not inlined, because a
    /// text has at most one error.
    #[cold]
    #[inline(never)]
    pub(crate) fn fail_at(&mut self, span: Span, fault: TextFault)
        ensures { Fails fault span self.old self.new }
    {
        self.at = usize::MAX;
        if self.fault.is_none() {
            self.fault = Some(TextError { fault, span });
        }
    }

    /// Stores an error at the next token, unless there already is one.
    #[cold]
    #[inline(never)]
    pub(crate) fn fail(&mut self, fault: TextFault)
        ensures { Fails fault (position (left self.old)) self.old self.new }
    {
        let place = self.place();
        self.fail_at(place, fault);
    }

    /// Stores that `what` was expected at the next token, unless there already is an error.
    pub(crate) fn expected(&mut self, what: &'static str)
        ensures { Fails (fault.Expected what.entry) (position (left self.old)) self.old self.new }
    {
        self.fail(TextFault::Expected(what));
    }

    /// Returns the word that the token after `ahead` others is, if it is a keyword or the name of
    /// an instruction.
    pub(crate) fn word(&self, ahead: usize) -> Option<Word>
        ensures { result ≡ word_of (peek ahead (left self.now)) }
    {
        match self.look(ahead) {
            Some(Token::Word(word, _)) => Some(word),
            _ => None,
        }
    }

    /// Returns the keyword that the token after `ahead` others is, if it is one.
    pub(crate) fn key(&self, ahead: usize) -> Option<Key>
        ensures { result ≡ key_of (peek ahead (left self.now)) }
    {
        match self.look(ahead) {
            Some(Token::Word(Word::Key(key), _)) => Some(key),
            _ => None,
        }
    }

    /// Returns whether the token after `ahead` others is this keyword.
    pub(crate) fn is_key(&self, ahead: usize, key: Key) -> bool
        ensures { result ≡ is_key key (key_of (peek ahead (left self.now))) }
    {
        match self.key(ahead) {
            Some(found) => found == key,
            None => false,
        }
    }

    /// Returns whether the token after `ahead` others is `(`.
    pub(crate) fn is_open(&self, ahead: usize) -> bool
        ensures { result ≡ is_lparen (peek ahead (left self.now)) }
    {
        matches!(self.look(ahead), Some(Token::Open))
    }

    /// Returns whether `)` is next, or no token is left.
    pub(crate) fn is_end(&self) -> bool
        ensures { result ≡ is_end (peek 0 (left self.now)) }
    {
        matches!(self.look(0), None | Some(Token::Close))
    }

    /// Returns whether `(` and this keyword are next.
    pub(crate) fn is_form(&self, key: Key) -> bool
        ensures { result ≡ is_form key (left self.now) }
    {
        self.is_open(0) && self.is_key(1, key)
    }

    /// Reads this keyword, if it is next, and returns whether it is.
    pub(crate) fn accept(&mut self, key: Key) -> bool
        ensures { Accepts (keyword key) self.old self.new result }
    {
        let is_there = self.is_key(0, key);
        if is_there {
            self.skip();
        }
        is_there
    }

    /// Reads `(` and this keyword, if they are next, and returns whether they are.
    pub(crate) fn accept_form(&mut self, key: Key) -> bool
        ensures { Accepts (form key) self.old self.new result }
    {
        let is_there = self.is_form(key);
        if is_there {
            self.skip();
            self.skip();
        }
        is_there
    }

    /// Reads `(`, or fails.
    pub(crate) fn open(&mut self)
        ensures { Expects lparen self.old self.new }
    {
        match self.look(0) {
            Some(Token::Open) => self.skip(),
            _ => self.expected("`(`"),
        }
    }

    /// Reads `)`, or fails.
    pub(crate) fn close(&mut self)
        ensures { Expects rparen self.old self.new }
    {
        match self.look(0) {
            Some(Token::Close) => self.skip(),
            _ => self.expected("`)`"),
        }
    }

    /// Reads an id such as `$f`, if one is next (text format: identifiers).
    pub(crate) fn id(&mut self) -> Option<Id<'a>>
        ensures { Finds id self.old self.new (bare_id_option result) }
    {
        let place = self.place();
        match self.look(0) {
            Some(Token::Id(name)) => {
                self.skip();
                Some(Id::new(name, place))
            }
            _ => None,
        }
    }

    /// Reads a name annotation such as `(@name "a")`, if one is next (text format: custom
    /// annotations).
    pub(crate) fn name(&mut self) -> Option<NameAnnotation<'a>>
        ensures { Decides name_annotation self.old self.new (bare_name_option result) }
    {
        match self.look(0) {
            Some(Token::Annotation(Annotation::Name)) => {
                self.skip();
                let name = self.text();
                self.close();
                Some(NameAnnotation { name })
            }
            _ => None,
        }
    }

    /// Reads a string, and returns its bytes (text format: strings).
    pub(crate) fn bytes(&mut self) -> &'a [u8]
        ensures { Decides string self.old self.new (bare_text result) }
    {
        match self.look(0) {
            Some(Token::String(bytes)) => {
                self.skip();
                bytes
            }
            _ => {
                self.expected("a string");
                &[]
            }
        }
    }

    /// Returns whether a string is next.
    pub(crate) fn is_string(&self) -> bool
        ensures { result ≡ is_string (peek 0 (left self.now)) }
    {
        matches!(self.look(0), Some(Token::String(_)))
    }

    /// Reads a name, which is a string in UTF-8 (text format: names).
    #[tactic(auto, using(crate::proofs::Names::utf8_is, crate::proofs::Names::utf8_not))]
    pub(crate) fn text(&mut self) -> &'a str
        ensures { Decides name self.old self.new (bare_text result) }
    {
        let place = self.place();
        let bytes = self.bytes();
        match std::str::from_utf8(bytes) {
            Ok(name) => name,
            Err(_) => {
                self.fail_at(place, TextFault::Utf8);
                ""
            }
        }
    }

    /// Returns whether the token after `ahead` others begins as a number does.
    pub(crate) fn is_number(&self, ahead: usize) -> bool
        ensures { result ≡ is_number (peek ahead (left self.now)) }
    {
        match self.look(ahead) {
            Some(Token::Other(text)) => begins_number(text),
            _ => false,
        }
    }

    /// Returns whether the token after `ahead` others is an id, or begins as a number does.
    pub(crate) fn is_index(&self, ahead: usize) -> bool
        ensures { result ≡ is_index (peek ahead (left self.now)) }
    {
        match self.look(ahead) {
            Some(Token::Id(_)) => true,
            Some(Token::Other(text)) => begins_number(text),
            _ => false,
        }
    }

    /// Reads a number, and returns its text.
    pub(crate) fn number(&mut self) -> &'a str
        ensures { Decides number_text self.old self.new (bare_text result) }
    {
        match self.look(0) {
            Some(Token::Other(text)) => {
                self.skip();
                text
            }
            _ => {
                self.expected("a number");
                ""
            }
        }
    }

    /// Returns the value of a token. If the token has none, stores the error at its position, and
    /// returns `none`.
    pub(crate) fn value<T: Drop>(&mut self, span: Span, value: Result<T, TextFault>, none: T) -> T
        ensures make { self.new.make ≡ self.old.make }
        ensures clean { self.new.fault ≡ None → self.old.fault ≡ None }
        ensures gives { self.new.fault ≡ None → value ≡ Ok result }
        ensures left { self.new.fault ≡ None → left self.new ≡ left self.old }
        ensures keeps { self.old.fault ≢ None → self.new.fault ≡ self.old.fault }
        ensures refuses { self.old.fault ≡ None → self.new.fault ≢ None → (e : TextFault) × (value ≡ Err e) }
    {
        match value {
            Ok(value) => value,
            Err(fault) => {
                self.fail_at(span, fault);
                none
            }
        }
    }

    /// Reads an unsigned 32-bit integer.
    #[tactic(auto, using(crate::proofs::Numbers::unsigned_is, crate::proofs::Numbers::unsigned_not))]
    pub(crate) fn number32(&mut self) -> u32
        ensures { Decides u32 self.old self.new result }
    {
        let place = self.place();
        let text = self.number();
        self.value(place, unsigned32(text), 0)
    }

    /// Reads an unsigned 32-bit integer, if one is next.
    #[tactic(auto, using(crate::proofs::Numbers::unsigned_is, crate::proofs::Numbers::unsigned_not))]
    fn optional_u32(&mut self) -> Option<u32>
        ensures { Finds u32 self.old self.new result }
    {
        match self.look(0) {
            Some(Token::Other(text)) => match unsigned32(text) {
                Ok(number) => {
                    self.skip();
                    Some(number)
                }
                Err(_) => None,
            },
            _ => None,
        }
    }

    /// Reads an index of any kind, as `index` does, which reads most numbers without this function.
    #[inline(never)]
    #[tactic(auto, using(crate::proofs::Numbers::no_u32))]
    fn any_index(&mut self) -> Index<'a>
        ensures { Decides index self.old self.new (bare_index result) }
    {
        let place = self.place();
        if let Some(id) = self.id() {
            return Index::Id(id);
        }
        if !self.is_number(0) {
            self.expected("an index");
        }
        Index::Num(self.number32(), place)
    }

    /// Reads an index: an id or a number (text format: indices). In printed modules most indices
    /// are numbers, for which one look is enough.
    pub(crate) fn index(&mut self) -> Index<'a>
        ensures { Decides index self.old self.new (bare_index result) }
    {
        let place = self.place();
        match self.optional_u32() {
            Some(number) => Index::Num(number, place),
            None => self.any_index(),
        }
    }

    /// Reads an index, if one is next.
    pub(crate) fn optional_index(&mut self) -> Option<Index<'a>>
        ensures { Decides optional_index self.old self.new (bare_index_option result) }
    {
        if self.is_index(0) {
            return Some(self.index());
        }
        None
    }

    /// Reads an index, if one is next. Otherwise returns 0, at the position of the token before.
    pub(crate) fn index_or_zero(&mut self) -> Index<'a>
        ensures { Decides index_or_zero self.old self.new (bare_index result) }
    {
        let place = self.place_before();
        match self.optional_index() {
            Some(index) => index,
            None => Index::Num(0, place),
        }
    }

    /// Stores the error `Memory`, if an allocation failed.
    pub(crate) fn took(&mut self, pushed: Result<(), AllocError>)
        ensures make { self.new.make ≡ self.old.make }
        ensures clean { self.new.fault ≡ None → self.old.fault ≡ None }
        ensures pushed { self.new.fault ≡ None → pushed ≡ Ok tt }
        ensures left { self.new.fault ≡ None → left self.new ≡ left self.old }
        ensures keeps { self.old.fault ≢ None → self.new.fault ≡ self.old.fault }
        ensures memory { self.old.fault ≡ None → IsRefused self.new.fault → ⊥ }
    {
        if pushed.is_err() {
            self.fail(TextFault::Memory);
        }
    }

    /// Appends an index to a list.
    pub(crate) fn push_index(&mut self, indices: &mut Seq<Index<'a>>, index: Index<'a>)
        ensures { Pushes self.old self.new index.entry indices.old indices.new }
    {
        let pushed = indices.push(index);
        self.took(pushed);
    }
}
