//! The ids that a text defines, and the parentheses that are open at a position.

use crate::lexemes::{Kind, Lexeme, next_lexeme};
use crate::near::NearestId;

/// At most this many ids are compared with one that is unknown.
const MOST: usize = 4096;

/// An id that a text defines.
#[derive(Clone, Copy)]
pub(crate) struct Definition<'a> {
    /// The keyword before it, such as `func` or `param`.
    pub word: &'a [u8],
    /// Its name.
    pub name: &'a [u8],
    /// The offset of its `$`.
    pub start: usize,
    /// Whether it is that of an item of the module.
    is_item: bool,
}

impl<'a> Definition<'a> {
    /// Returns whether it is in the index space with this word, as messages have it, or in any of
    /// those of the module if the word is `item`.
    fn is_in(&self, space: &str) -> bool {
        match space {
            "local" => matches!(self.word, b"param" | b"local"),
            "label" => matches!(
                self.word,
                b"block" | b"loop" | b"if" | b"try" | b"try_table"
            ),
            "field" => matches!(self.word, b"field"),
            "item" => self.is_item && !matches!(self.word, b"start"),
            _ => self.is_item && self.word == space.as_bytes(),
        }
    }
}

/// Where the ids of an index space are known.
#[derive(Clone, Copy, PartialEq, Eq)]
enum Scope {
    /// In the module.
    Module,
    /// In one field of the module.
    Field,
    /// In one struct type.
    Struct,
}

/// Returns where two ids of an index space have to differ.
fn scope_of(space: &str) -> Scope {
    match space {
        "local" | "label" => Scope::Field,
        "field" => Scope::Struct,
        _ => Scope::Module,
    }
}

/// Returns where an id of an index space is looked up. That of a field may be in any type.
fn search_scope_of(space: &str) -> Scope {
    match scope_of(space) {
        Scope::Field => Scope::Field,
        Scope::Module | Scope::Struct => Scope::Module,
    }
}

/// What was read of a text.
#[derive(Clone, Copy)]
pub(crate) struct Walk<'a> {
    /// The text.
    text: &'a [u8],
    /// The offset of what is not read yet.
    at: usize,
    /// How many parentheses are open.
    depth: usize,
    /// How many of them are around the keyword of a field of the module.
    base: usize,
    /// The offset of the keyword of the module, or 0 if there is none.
    module: usize,
    /// The offset of the last keyword `struct`.
    holder: usize,
    /// The keyword of the field.
    head: &'a [u8],
    /// The offset of the field's keyword.
    field: usize,
    /// The last lexeme.
    last: Option<Lexeme<'a>>,
    /// Whether `(` was before it.
    was_open: bool,
}

impl<'a> Walk<'a> {
    /// Begins to read a text.
    fn new(text: &'a [u8]) -> Walk<'a> {
        Walk {
            text,
            at: 0,
            depth: 0,
            base: 1,
            module: 0,
            holder: 0,
            head: &[],
            field: 0,
            last: None,
            was_open: false,
        }
    }

    /// Returns whether the last lexeme is `(`.
    fn is_opened(&self) -> bool {
        match self.last {
            Some(last) => last.kind == Kind::Open,
            None => false,
        }
    }

    /// Reads a word: it may begin a module, or a field of it. A script has several modules.
    fn take_word(&mut self, word: &Lexeme<'a>) {
        if !self.is_opened() {
            return;
        }
        if matches!(word.bytes, b"module") {
            self.base = self.depth.saturating_add(1);
            self.module = word.start;
            self.head = &[];
            return;
        }
        if matches!(word.bytes, b"struct") {
            self.holder = word.start;
        }
        if self.depth != self.base {
            return;
        }
        self.head = word.bytes;
        self.field = word.start;
    }

    /// Returns the definition of an id, if it is one.
    fn definition(&self, id: &Lexeme<'a>) -> Option<Definition<'a>> {
        let word = self.last?;
        if word.kind != Kind::Word {
            return None;
        }
        let is_inner = self.depth == self.base.saturating_add(1)
            && matches!(self.head, b"rec" | b"import");
        Some(Definition {
            word: word.bytes,
            name: id.name(),
            start: id.start,
            is_item: self.was_open && (self.depth == self.base || is_inner),
        })
    }

    /// Returns whether a lexeme begins the definition of a type, in a group or not.
    fn is_type(&self, word: &Lexeme<'a>) -> bool {
        let is_inner = self.depth == self.base.saturating_add(1) && matches!(self.head, b"rec");
        matches!(word.bytes, b"type") && self.is_opened() && (self.depth == self.base || is_inner)
    }

    /// Reads one more lexeme, and returns the definition that it is.
    fn take(&mut self, lexeme: Lexeme<'a>) -> Option<Definition<'a>> {
        let mut found = None;
        match lexeme.kind {
            Kind::Open => self.depth = self.depth.saturating_add(1),
            Kind::Close => self.depth = self.depth.saturating_sub(1),
            Kind::Word => self.take_word(&lexeme),
            Kind::Id => found = self.definition(&lexeme),
            _ => {}
        }
        self.was_open = self.is_opened();
        self.last = Some(lexeme);
        self.at = lexeme.end;
        found
    }

    /// Returns whether another module has begun since then, or another field or struct if ids are
    /// known in one.
    fn is_apart(&self, before: &Walk<'_>, scope: Scope) -> bool {
        let is_apart = match scope {
            Scope::Module => false,
            Scope::Field => self.field != before.field,
            Scope::Struct => self.holder != before.holder,
        };
        is_apart || self.module != before.module
    }

    /// Returns the next lexeme, if it begins before an offset.
    fn next_before(&self, end: usize) -> Option<Lexeme<'a>> {
        match next_lexeme(self.text, self.at) {
            Some(lexeme) if lexeme.start < end => Some(lexeme),
            _ => None,
        }
    }
}

/// Returns the first definition of a name in an index space, in the module of an offset.
pub(crate) fn first_definition<'a>(
    text: &'a [u8],
    space: &str,
    name: &[u8],
    place: usize,
) -> Option<Definition<'a>> {
    let mut walk = Walk::new(text);
    let mut found = None;
    for _ in 0..text.len() {
        let Some(lexeme) = walk.next_before(text.len()) else {
            break;
        };
        let before = walk;
        let definition = walk.take(lexeme);
        if walk.is_apart(&before, scope_of(space)) {
            if walk.at > place {
                break;
            }
            found = None;
        }
        if let Some(definition) = definition {
            if found.is_none() && definition.name == name && definition.is_in(space) {
                found = Some(definition);
            }
        }
    }
    found
}

/// Returns the number that decimal digits are.
fn decimal(digits: &[u8]) -> Option<usize> {
    let mut number = 0_usize;
    for digit in digits {
        if !digit.is_ascii_digit() {
            return None;
        }
        let value = usize::from(digit.saturating_sub(b'0'));
        number = number.saturating_mul(10).saturating_add(value);
    }
    Some(number)
}

/// Returns the offset of the keyword of the type with this number, in the module of an offset.
pub(crate) fn numbered_type(text: &[u8], digits: &[u8], place: usize) -> Option<usize> {
    let wanted = decimal(digits)?;
    let mut walk = Walk::new(text);
    let mut found = None;
    let mut count = 0_usize;
    for _ in 0..text.len() {
        let Some(lexeme) = walk.next_before(text.len()) else {
            break;
        };
        let before = walk;
        let _ = walk.take(lexeme);
        if walk.is_apart(&before, Scope::Module) {
            if walk.at > place {
                break;
            }
            found = None;
            count = 0;
        }
        if before.is_type(&lexeme) {
            if count == wanted {
                found = Some(lexeme.start);
            }
            count = count.saturating_add(1);
        }
    }
    found
}

/// Returns the name of an index space that is nearest to one that is unknown at an offset.
pub(crate) fn nearest_name<'a>(
    text: &'a [u8],
    space: &str,
    name: &'a [u8],
    place: usize,
) -> Option<&'a [u8]> {
    let mut walk = Walk::new(text);
    let mut nearest = NearestId::new(name);
    let mut count = 0_usize;
    for _ in 0..text.len() {
        let Some(lexeme) = walk.next_before(text.len()) else {
            break;
        };
        let before = walk;
        let definition = walk.take(lexeme);
        if walk.is_apart(&before, search_scope_of(space)) {
            if walk.at > place {
                break;
            }
            nearest = NearestId::new(name);
        }
        if let Some(definition) = definition {
            if definition.is_in(space) && count < MOST {
                count = count.saturating_add(1);
                nearest.compare(definition.name);
            }
        }
    }
    nearest.found()
}

/// What was read before an offset of a text.
#[derive(Clone, Copy)]
pub(crate) struct Before<'a> {
    /// How many parentheses are open.
    depth: usize,
    /// The last word that begins with a letter.
    pub word: &'a [u8],
    /// The last lexeme.
    pub last: Option<Lexeme<'a>>,
}

/// Returns whether a word begins with a letter, so that it is no number.
fn is_keyword(word: &[u8]) -> bool {
    match word {
        [first, ..] => first.is_ascii_lowercase() && !matches!(word, b"inf" | b"nan"),
        [] => false,
    }
}

/// Reads a text up to an offset.
pub(crate) fn read_before(text: &[u8], end: usize) -> Before<'_> {
    let mut walk = Walk::new(text);
    let mut before = Before {
        depth: 0,
        word: &[],
        last: None,
    };
    for _ in 0..text.len() {
        let Some(lexeme) = walk.next_before(end) else {
            break;
        };
        if lexeme.kind == Kind::Word && is_keyword(lexeme.bytes) {
            before.word = lexeme.bytes;
        }
        let _ = walk.take(lexeme);
        before.depth = walk.depth;
        before.last = walk.last;
    }
    before
}

/// Returns the offset of the last parenthesis that is open at an offset, if this many are.
fn last_open(text: &[u8], end: usize, before: Before<'_>) -> Option<usize> {
    let mut walk = Walk::new(text);
    let mut found = None;
    for _ in 0..text.len() {
        let Some(lexeme) = walk.next_before(end) else {
            break;
        };
        let start = lexeme.start;
        let is_open = lexeme.kind == Kind::Open;
        let _ = walk.take(lexeme);
        if is_open && walk.depth == before.depth {
            found = Some(start);
        }
    }
    found
}

/// Returns the offset of the last parenthesis that is open at an offset. One directly before a token
/// at the offset is that of the token, and is not meant.
pub(crate) fn open_around(text: &[u8], start: usize) -> Option<usize> {
    let own = last_open(text, start, read_before(text, start))?;
    match next_lexeme(text, own.saturating_add(1)) {
        Some(lexeme) if lexeme.start == start => last_open(text, own, read_before(text, own)),
        _ => Some(own),
    }
}

/// Returns the offset of the parenthesis that closes the module before an offset.
pub(crate) fn module_end(text: &[u8], end: usize) -> Option<usize> {
    let mut walk = Walk::new(text);
    let mut found = None;
    for _ in 0..text.len() {
        let Some(lexeme) = walk.next_before(end) else {
            break;
        };
        let _ = walk.take(lexeme);
        if lexeme.kind == Kind::Close && walk.depth == 0 && walk.module > 0 {
            found = Some(lexeme.start);
        }
    }
    found
}

/// Returns the offset of the last parenthesis before an offset that closes something.
pub(crate) fn last_close(text: &[u8], end: usize) -> Option<usize> {
    let mut at = 0;
    let mut found = None;
    for _ in 0..text.len() {
        match next_lexeme(text, at) {
            Some(lexeme) if lexeme.start < end => {
                at = lexeme.end;
                if lexeme.kind == Kind::Close {
                    found = Some(lexeme.start);
                }
            }
            _ => break,
        }
    }
    found
}

/// How many blocks that are not folded are open after a lexeme, if `count` are open before it.
fn blocks_after(walk: &Walk<'_>, word: &Lexeme<'_>, count: usize) -> usize {
    if word.kind != Kind::Word || walk.is_opened() {
        return count;
    }
    match word.bytes {
        b"block" | b"loop" | b"if" | b"try" | b"try_table" => count.saturating_add(1),
        b"end" | b"delegate" => count.saturating_sub(1),
        _ => count,
    }
}

/// Returns how many blocks that are not folded are open at an offset.
fn open_blocks(text: &[u8], end: usize) -> usize {
    let mut walk = Walk::new(text);
    let mut count = 0;
    for _ in 0..text.len() {
        let Some(lexeme) = walk.next_before(end) else {
            break;
        };
        count = blocks_after(&walk, &lexeme, count);
        let _ = walk.take(lexeme);
    }
    count
}

/// Returns the keyword of the last block that is open at an offset and is not folded.
pub(crate) fn open_block(text: &[u8], end: usize) -> Option<Lexeme<'_>> {
    let wanted = open_blocks(text, end);
    let mut walk = Walk::new(text);
    let (mut count, mut found) = (0, None);
    for _ in 0..text.len() {
        let Some(lexeme) = walk.next_before(end) else {
            break;
        };
        let before = count;
        count = blocks_after(&walk, &lexeme, count);
        if count > before && count == wanted {
            found = Some(lexeme);
        }
        let _ = walk.take(lexeme);
    }
    found
}

/// Returns the string that has an offset, if it is one of a module in quotes: it follows `quote`, or
/// other strings after that.
pub(crate) fn quoted_string(text: &[u8], place: usize) -> Option<Lexeme<'_>> {
    let mut is_quoted = false;
    let mut at = 0;
    for _ in 0..text.len() {
        match next_lexeme(text, at) {
            Some(lexeme) if lexeme.start <= place => {
                at = lexeme.end;
                if lexeme.kind != Kind::String {
                    is_quoted = matches!(lexeme.bytes, b"quote");
                } else if is_quoted && place < at {
                    return Some(lexeme);
                }
            }
            _ => return None,
        }
    }
    None
}
