//! Finds the token of an unsupported construct in a text.

ghost use Rattle.std.specs.Prelude.{◌≡◌, option_map, IfOk};
ghost use Rattle.wat_bytes.specs.Texts.{first_form};

use crate::modules::module_of;
use crate::refusals::UncoveredForm;
use std::alloc::Global;
use wast_core::{Module, ModuleKind, discard_module};
use wast_tree::{Form, Span, Uncovered, first_uncovered};
use wat_text::{Strings, TextModule, read};
use wat_tokens::{Key, OwnOp, PairOp, Placed, TextError, Token, UncoveredOp, Word, tokens_of};

/// Returns the first unsupported construct of a module. It takes `&mut` and changes nothing, for
/// the reason that `is_ready` has.
pub(crate) fn first_form(module: &mut Module<'_>) -> Option<Uncovered>
    ensures form { option_map (λ u. u.form) result ≡ first_form «module».old.kind }
    ensures stays { «module».new ≡ «module».old }
{
    match &module.kind {
        ModuleKind::Text(fields) => first_uncovered(fields.as_slice()),
        ModuleKind::Binary(_) | ModuleKind::Refused(_) => None,
    }
}

/// Returns the position of the first unsupported construct of a parsed module, if it is this one.
fn place_in(text: TextModule<'_>, form: Form) -> Option<Span> {
    let mut module = module_of(text);
    let first = first_form(&mut module);
    discard_module(module);
    match first {
        Some(uncovered) if uncovered.form == form => Some(uncovered.span),
        _ => None,
    }
}

/// Returns the position of the first unsupported construct in the fields before resolving, if it is
/// this one. Resolving adds positions, for example the start of the text for an index that the text
/// leaves out. Fails only if an allocation does, because the text was read before.
fn written_place<'a>(
    alloc: Global,
    text: &'a str,
    strings: &'a Strings,
    form: Form,
) -> Result<Option<Span>, TextError> {
    let module = read(alloc, text, strings)?;
    Ok(place_in(module, form))
}

/// Returns whether a word is an instruction or a type of stack switching.
fn is_switching(word: Word) -> bool {
    match word {
        Word::Key(Key::Cont | Key::Contref | Key::Nullcontref | Key::Nocont) => true,
        Word::Uncovered(UncoveredOp::cont_new | UncoveredOp::suspend) => true,
        Word::Pair(PairOp::cont_bind | PairOp::switch) => true,
        Word::Own(OwnOp::resume | OwnOp::resume_throw | OwnOp::resume_throw_ref) => true,
        _ => false,
    }
}

/// Returns whether a word is of a descriptor or an exact type.
fn is_descriptor(word: Word) -> bool {
    match word {
        Word::Key(Key::Exact | Key::Descriptor | Key::Describes) => true,
        Word::Uncovered(UncoveredOp::struct_new_desc | UncoveredOp::struct_new_default_desc) =>
            true,
        Word::Uncovered(UncoveredOp::ref_get_desc) => true,
        Word::Own(OwnOp::ref_cast_desc_eq | OwnOp::br_on_cast_desc_eq) => true,
        Word::Own(OwnOp::br_on_cast_desc_eq_fail) => true,
        _ => false,
    }
}

/// Returns whether a word is the ordering of a memory access, or `acq_rel` of a fence. The encoder
/// supports `atomic.fence seq_cst`.
fn is_ordering(before: Token<'_>, word: Word) -> bool {
    match before {
        Token::Word(Word::Mem(_, _) | Word::MemLane(_, _), _) => {
            matches!(word, Word::Key(Key::SeqCst | Key::AcqRel))
        }
        Token::Word(Word::Own(OwnOp::atomic_fence), _) => matches!(word, Word::Key(Key::AcqRel)),
        _ => false,
    }
}

/// Returns whether a word belongs to a construct, between the tokens before and after it. Some
/// words are also in supported constructs: `shared` after the limits of a memory, and `item` before
/// an expression.
fn is_of(form: Form, before: Token<'_>, word: Word, after: Option<Token<'_>>) -> bool {
    match form {
        Form::StackSwitching => is_switching(word),
        Form::Shared => {
            matches!(word, Word::Key(Key::Shared)) && !matches!(before, Token::Other(_))
        }
        Form::Ordering => is_ordering(before, word),
        Form::Atomic => matches!(word, Word::Atomic(_)),
        Form::Descriptor => is_descriptor(word),
        Form::CompactImports => {
            matches!(word, Word::Key(Key::Item)) && matches!(after, Some(Token::String(_)))
        }
        Form::TargetArch => matches!(word, Word::Key(Key::TargetArch)),
        Form::Beyond => {
            matches!(
                word,
                Word::Beyond | Word::UncoveredOrZero(UncoveredOp::memory_discard)
            )
        }
        Form::ArrayMemArg => false,
    }
}

/// Returns the text of a token, if it belongs to a construct, between the tokens before and after
/// it.
fn word_of<'a>(
    form: Form,
    before: Token<'a>,
    token: Token<'a>,
    after: Option<Token<'a>>,
) -> Option<&'a str> {
    match token {
        Token::Word(word, text) if is_of(form, before, word, after) => Some(text),
        _ => None,
    }
}

/// Returns the token at an index, if there is one.
fn token_at<'a>(tokens: &[Placed<'a>], index: usize) -> Option<Token<'a>> {
    match tokens.get(index) {
        Some(placed) => Some(placed.token),
        None => None,
    }
}

/// Returns how deep fields are nested in the parentheses of a text: 1 in `(module (func))`, and 0
/// in `(func)`.
fn field_depth(tokens: &[Placed<'_>]) -> usize {
    match tokens.get(1) {
        Some(placed) if matches!(placed.token, Token::Word(Word::Key(Key::Module), _)) => 1,
        _ => 0,
    }
}

/// Returns the first token that belongs to a construct, in the field of a position or after it. A
/// token before the position counts, because the position may be that of an index after its
/// instruction, as `1` in `(type (cont 1))`.
fn first_word<'a>(tokens: &[Placed<'a>], form: Form, from: Span) -> Option<(Span, &'a str)> {
    let field = field_depth(tokens);
    let mut depth = 0_usize;
    let mut found = None;
    let mut before = Token::Open;
    for (index, placed) in tokens.iter().enumerate() {
        match placed.token {
            Token::Open | Token::Annotation(_) => {
                if depth == field {
                    found = None;
                }
                depth = depth.saturating_add(1);
            }
            Token::Close => depth = depth.saturating_sub(1),
            token => {
                if found.is_none() {
                    let after = token_at(tokens, index.saturating_add(1));
                    found = word_of(form, before, token, after).map(|word| (placed.span, word));
                }
            }
        }
        before = placed.token;
        if found.is_some() && placed.span.offset >= from.offset {
            return found;
        }
    }
    None
}

/// Returns a construct at its first token, in the field of a position or after it. Without such a
/// token it is at the position.
fn at_word<'a>(tokens: &[Placed<'a>], form: Form, from: Span) -> UncoveredForm<'a>
    ensures { result.form ≡ form }
{
    match first_word(tokens, form, from) {
        Some((span, word)) => UncoveredForm {
            form,
            span,
            word: Some(word),
        },
        None => UncoveredForm {
            form,
            span: from,
            word: None,
        },
    }
}

/// Returns an unsupported construct that was found in resolved fields, with its token. It reads the
/// text again, because E11 is rare and has no token. Fails only if an allocation does.
pub(crate) fn as_written<'a>(
    alloc: Global,
    text: &'a str,
    strings: &'a Strings,
    found: UncoveredForm<'a>,
) -> Result<UncoveredForm<'a>, TextError>
    ensures { IfOk result (λ u. u.form ≡ found.entry.form) }
{
    let written = written_place(alloc, text, strings, found.form)?;
    let tokens = tokens_of(alloc, text, strings)?;
    let from = written.unwrap_or(found.span);
    Ok(at_word(tokens.as_slice(), found.form, from))
}
