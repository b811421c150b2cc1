//! The tokens of a script, and what is read of them: one after another, up to the first fault.
//!
//! A reader keeps the first fault, and from then on has no tokens left. So what reads a part always returns one, and each loop over
//! the tokens that are left ends.

ghost use Rattle.std.specs.Prelude.{◌≡◌, ◌≢◌, ◌-◌, [], None, Some, Ok, Err, option_map, length};
ghost use Rattle.wat_tokens.specs.declared.faults.TextFault.TheVariants as fault;
ghost use Rattle.wat_syntax.specs.Tokens.{peek, after, position, count, key_of, is_key, is_lparen, is_rparen, lparen, rparen};
ghost use Rattle.wat_syntax.specs.Tokens.{form as key_form};
ghost use Rattle.wat_syntax.specs.Values.{number_text, u32, is_index, is_number, is_string, name, id};
ghost use Rattle.wat_syntax.specs.Bare.{bare_text, bare_token, bare_id, bare_id_option};
ghost use Rattle.wast_script.specs.Constants.{word_in, is_word, is_form, the_word, form};
ghost use Rattle.wat_text.specs.Denotes.{all_of};
ghost use Rattle.wast_script.specs.Readers.{left, all_bare, IsRefusal, IsRefused, Decides, Expects, Accepts, Finds, Moves, Fails};

use crate::commands::Command;
use crate::values::{Number, Value};
use std::alloc::Global;
use wast_base::{Id, Span};
use wat_tokens::{Key, Placed, TextError, TextFault, Token, Word};

/// What was read of a script.
#[derive(Drop)]
pub(crate) struct Lists<'a> {
    /// The commands.
    pub commands: Vec<Command<'a>>,
    /// Their arguments and results.
    pub values: Vec<Value<'a>>,
    /// The lanes of the vectors among them.
    pub lanes: Vec<Number>,
}

/// The tokens of a script, how far they are read, and what was read.
#[derive(Drop)]
pub(crate) struct Reader<'a> {
    pub alloc: Global,
    /// The tokens of the script.
    pub tokens: Vec<Placed<'a>>,
    /// What was read.
    pub lists: Lists<'a>,
    /// How many tokens are read. After a fault, no token is left.
    at: usize,
    /// The position after the last token.
    end: Span,
    fault: Option<TextError>,
}

impl<'a> Reader<'a> {
    /// Nothing is read yet.
    #[tactic(auto, unfolding(crate::specs::Readers::left))]
    pub(crate) fn new(alloc: Global, tokens: Vec<Placed<'a>>, end: Span) -> Reader<'a>
        ensures left { left result ≡ all_of (all_bare result) end }
        ensures tokens { result.tokens ≡ tokens.entry }
        ensures clean { result.fault ≡ None }
        ensures commands { result.lists.commands.items ≡ [] }
        ensures values { result.lists.values.items ≡ [] }
    {
        let lists = Lists {
            commands: Vec::new(alloc),
            values: Vec::new(alloc),
            lanes: Vec::new(alloc),
        };
        Reader {
            alloc,
            tokens,
            lists,
            at: 0,
            end,
            fault: None,
        }
    }

    /// Returns the first fault, if there is one.
    pub(crate) fn fault(&self) -> Option<TextError>
        ensures { result ≡ self.now.fault }
    {
        self.fault
    }

    /// Returns how many tokens are left.
    #[tactic(auto, unfolding(crate::specs::Readers::left, wat_syntax::specs::Tokens::count), using(wat_text::proofs::Lefts::counted))]
    pub(crate) fn left(&self) -> usize
        ensures { result ≡ count (left self.now) }
    {
        self.tokens.len().saturating_sub(self.at)
    }

    /// Returns how many tokens are read.
    pub(crate) fn at(&self) -> usize
        ensures { result ≡ length self.now.tokens.items - count (left self.now) }
    {
        self.tokens.len().saturating_sub(self.left())
    }

    /// Returns the token after so many others; `None` at the end, and after a fault.
    #[tactic(auto, unfolding(crate::specs::Readers::left, wat_syntax::specs::Tokens::peek), using(wat_text::proofs::Lefts::peeked, wat_text::proofs::Lefts::none_peeked))]
    pub(crate) fn look(&self, ahead: usize) -> Option<Token<'a>>
        ensures { option_map bare_token result ≡ peek ahead (left self.now) }
    {
        match self.tokens.get(self.at.saturating_add(ahead)) {
            Some(placed) => Some(placed.token),
            None => None,
        }
    }

    /// Returns the position of the next token.
    #[tactic(auto, unfolding(crate::specs::Readers::left, wat_syntax::specs::Tokens::position), using(wat_text::proofs::Lefts::placed, wat_text::proofs::Lefts::none_placed))]
    pub(crate) fn place(&self) -> Span
        ensures { result ≡ position (left self.now) }
    {
        match self.tokens.get(self.at) {
            Some(placed) => placed.span,
            None => self.end,
        }
    }

    /// Returns the position of the token that was read last.
    #[tactic(auto, unfolding(crate::specs::Readers::left), using(wat_text::proofs::Lefts::placed, wat_text::proofs::Lefts::none_placed))]
    pub(crate) fn place_before(&self) -> Span
        ensures { result ≡ (left self.now).before }
    {
        match self.tokens.get(self.at.saturating_sub(1)) {
            Some(placed) => placed.span,
            None => self.end,
        }
    }

    /// Reads the next token, whatever it is.
    #[tactic(auto, unfolding(crate::specs::Readers::left, wat_syntax::specs::Tokens::after))]
    pub(crate) fn skip(&mut self)
        ensures { Moves after self.old self.new }
    {
        if self.at < self.tokens.len() {
            self.at += 1;
        }
    }

    /// Keeps a fault at a position, unless there is one.
    pub(crate) fn fail_at(&mut self, span: Span, fault: TextFault)
        ensures { Fails fault span self.old self.new }
    {
        self.at = usize::MAX;
        if self.fault.is_none() {
            self.fault = Some(TextError { fault, span });
        }
    }

    /// Keeps that something else was expected at the next token.
    pub(crate) fn expected(&mut self, what: &'static str)
        ensures { Fails (fault.Expected what.entry) (position (left self.old)) self.old self.new }
    {
        let place = self.place();
        self.fail_at(place, TextFault::Expected(what));
    }

    /// Returns the word so far ahead, if there is one.
    pub(crate) fn word(&self, ahead: usize) -> Option<&'a str>
        ensures { option_map (λ w. w.now) result ≡ word_in (peek ahead (left self.now)) }
    {
        match self.look(ahead) {
            Some(Token::Word(_, word) | Token::Other(word)) => Some(word),
            _ => None,
        }
    }

    /// Returns the keyword of modules so far ahead, if there is one.
    pub(crate) fn key(&self, ahead: usize) -> Option<Key>
        ensures { result ≡ key_of (peek ahead (left self.now)) }
    {
        match self.look(ahead) {
            Some(Token::Word(Word::Key(key), _)) => Some(key),
            _ => None,
        }
    }

    /// Returns whether this keyword of modules is so far ahead.
    fn is_key(&self, ahead: usize, key: Key) -> bool
        ensures { result ≡ is_key key (key_of (peek ahead (left self.now))) }
    {
        match self.key(ahead) {
            Some(found) => found == key,
            None => false,
        }
    }

    /// Returns whether this word is so far ahead.
    pub(crate) fn is_word(&self, ahead: usize, word: &str) -> bool
        ensures { result ≡ is_word word.now (peek ahead (left self.now)) }
    {
        match self.word(ahead) {
            Some(found) => found == word,
            None => false,
        }
    }

    /// Reads this word, if it is the next token.
    pub(crate) fn accept(&mut self, word: &str) -> bool
        ensures { Accepts (the_word word.now) self.old self.new result }
    {
        let is_there = self.is_word(0, word);
        if is_there {
            self.skip();
        }
        is_there
    }

    /// Returns whether `(` is next.
    pub(crate) fn is_open(&self) -> bool
        ensures { result ≡ is_lparen (peek 0 (left self.now)) }
    {
        matches!(self.look(0), Some(Token::Open))
    }

    /// Returns whether `)` is so far ahead.
    pub(crate) fn is_close(&self, ahead: usize) -> bool
        ensures { result ≡ is_rparen (peek ahead (left self.now)) }
    {
        matches!(self.look(ahead), Some(Token::Close))
    }

    /// Returns whether `(` and this word are next.
    pub(crate) fn is_form(&self, word: &str) -> bool
        ensures { result ≡ is_form word.now (left self.now) }
    {
        self.is_open() && self.is_word(1, word)
    }

    /// Reads `(` and this word, if they are next.
    pub(crate) fn accept_form(&mut self, word: &str) -> bool
        ensures { Accepts (form word.now) self.old self.new result }
    {
        let is_there = self.is_form(word);
        if is_there {
            self.skip();
            self.skip();
        }
        is_there
    }

    /// Reads `(` and this keyword of modules, if they are next.
    pub(crate) fn accept_key_form(&mut self, key: Key) -> bool
        ensures { Accepts (key_form key) self.old self.new result }
    {
        let is_there = self.is_open() && self.is_key(1, key);
        if is_there {
            self.skip();
            self.skip();
        }
        is_there
    }

    /// Reads `(`.
    pub(crate) fn open(&mut self)
        ensures { Expects lparen self.old self.new }
    {
        match self.look(0) {
            Some(Token::Open) => self.skip(),
            _ => self.expected("`(`"),
        }
    }

    /// Reads `)`.
    pub(crate) fn close(&mut self)
        ensures { Expects rparen self.old self.new }
    {
        match self.look(0) {
            Some(Token::Close) => self.skip(),
            _ => self.expected("`)`"),
        }
    }

    /// Reads this word.
    pub(crate) fn wanted_word(&mut self, word: &str, what: &'static str)
        ensures { Expects (the_word word.now) self.old self.new }
    {
        match self.is_word(0, word) {
            true => self.skip(),
            false => self.expected(what),
        }
    }

    /// Reads `(` and this word.
    pub(crate) fn wanted_form(&mut self, word: &str, what: &'static str)
        ensures { Expects (form word.now) self.old self.new }
    {
        if self.is_form(word) {
            self.skip();
            self.skip();
        } else {
            self.expected(what);
        }
    }

    /// Reads an id, if there is one (text format, identifiers).
    pub(crate) fn id(&mut self) -> Option<Id<'a>>
        ensures { Finds id self.old self.new (bare_id_option result) }
    {
        let place = self.place();
        match self.look(0) {
            Some(Token::Id(name)) => {
                self.skip();
                Some(Id::new(name, place))
            }
            _ => None,
        }
    }

    /// Reads an id.
    pub(crate) fn wanted_id(&mut self) -> Id<'a>
        ensures { Decides id self.old self.new (bare_id result) }
    {
        match self.id() {
            Some(id) => id,
            None => {
                self.expected("an id");
                Id::new("", self.end)
            }
        }
    }

    /// Returns whether a string is so far ahead.
    pub(crate) fn is_string(&self, ahead: usize) -> bool
        ensures { result ≡ is_string (peek ahead (left self.now)) }
    {
        matches!(self.look(ahead), Some(Token::String(_)))
    }

    /// Reads a string in UTF-8 (text format, names).
    #[tactic(auto, using(wat_text::proofs::Names::utf8_is, wat_text::proofs::Names::utf8_not))]
    pub(crate) fn text(&mut self) -> &'a str
        ensures { Decides name self.old self.new (bare_text result) }
    {
        let place = self.place();
        let Some(Token::String(bytes)) = self.look(0) else {
            self.expected("a string");
            return "";
        };
        self.skip();
        match std::str::from_utf8(bytes) {
            Ok(text) => text,
            Err(_) => {
                self.fail_at(place, TextFault::Utf8);
                ""
            }
        }
    }

    /// Returns whether a number is next.
    pub(crate) fn is_number(&self) -> bool
        ensures { result ≡ is_number (peek 0 (left self.now)) }
    {
        match self.look(0) {
            Some(Token::Other(text)) => {
                matches!(text.as_bytes().first(), Some(b'0'..=b'9' | b'+' | b'-'))
            }
            _ => false,
        }
    }

    /// Returns whether an id is next, or what begins as a number does.
    pub(crate) fn is_index(&self) -> bool
        ensures { result ≡ is_index (peek 0 (left self.now)) }
    {
        matches!(self.look(0), Some(Token::Id(_))) || self.is_number()
    }

    /// Reads the text of a number.
    pub(crate) fn number(&mut self) -> &'a str
        ensures { Decides number_text self.old self.new (bare_text result) }
    {
        match self.look(0) {
            Some(Token::Other(text)) => {
                self.skip();
                text
            }
            _ => {
                self.expected("a number");
                ""
            }
        }
    }

    /// Returns the value of a text, or keeps a fault at its position.
    pub(crate) fn value<T: Drop>(&mut self, span: Span, value: Result<T, TextFault>, none: T) -> T
        ensures lists { self.new.lists ≡ self.old.lists }
        ensures tokens { self.new.tokens ≡ self.old.tokens }
        ensures clean { self.new.fault ≡ None → self.old.fault ≡ None }
        ensures gives { self.new.fault ≡ None → value ≡ Ok result }
        ensures left { self.new.fault ≡ None → left self.new ≡ left self.old }
        ensures keeps { self.old.fault ≢ None → self.new.fault ≡ self.old.fault }
        ensures refuses { self.old.fault ≡ None → IsRefused self.new.fault → (e : TextFault) × (value ≡ Err e) × IsRefusal e }
    {
        match value {
            Ok(value) => value,
            Err(fault) => {
                self.fail_at(span, fault);
                none
            }
        }
    }

    /// Keeps that allocation failed.
    pub(crate) fn no_memory(&mut self)
        ensures { Fails fault.Memory (position (left self.old)) self.old self.new }
    {
        let place = self.place();
        self.fail_at(place, TextFault::Memory);
    }
}
