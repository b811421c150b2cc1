//! Options of the commands, and the lists of them and of exit statuses in the help.

use crate::files::STANDARD;
use std::alloc::{AllocError, Global};
use std::{fmt, io, str};
use wat_messages::Nearest;

/// An option of a command. Its effect is of a type of the command.
#[derive(Clone, Copy)]
pub struct Choice<A> {
    /// Its short form; empty if it has none.
    pub short: &'static str,
    /// Its long form.
    pub long: &'static str,
    /// The name of its value; empty if it takes none.
    pub value: &'static str,
    /// What it does, in one line.
    pub help: &'static str,
    /// Its effect.
    pub action: A,
}

/// Returns the option that a word names.
pub fn choice_of<A: Copy>(choices: &[Choice<A>], word: &str) -> Option<Choice<A>> {
    for choice in choices.iter() {
        if word == choice.long || (word == choice.short && !word.is_empty()) {
            return Some(Choice {
                short: choice.short,
                long: choice.long,
                value: choice.value,
                help: choice.help,
                action: choice.action,
            });
        }
    }
    None
}

/// Returns whether a word is an option, or `--`.
pub fn is_option(word: &str) -> bool {
    word.starts_with('-') && word != STANDARD
}

/// Returns the value that follows the short form of an option in a word, for example in `-oFILE`. After `-o=` it could be meant
/// with the `=` or without, so there is none.
fn short_value<'a, A: Copy>(choice: &Choice<A>, word: &'a str) -> Option<&'a str> {
    if choice.short.is_empty() || choice.value.is_empty() {
        return None;
    }
    match word.strip_prefix(choice.short) {
        Some(value) if !value.is_empty() && !value.starts_with('=') => Some(value),
        _ => None,
    }
}

/// Returns the option and the value of a word that has both in this way.
fn joined_short<A: Copy>(
    alloc: Global,
    choices: &[Choice<A>],
    word: &str,
) -> Result<Option<(Choice<A>, String)>, AllocError> {
    for choice in choices.iter() {
        if let Some(value) = short_value(choice, word) {
            let value = String::from_str(alloc, value)?;
            return Ok(choice_of(choices, choice.long).map(|choice| (choice, value)));
        }
    }
    Ok(None)
}

/// Returns the option and the value of a word that has both, for example `--output=FILE` or `-oFILE`.
pub fn joined<A: Copy>(
    alloc: Global,
    choices: &[Choice<A>],
    word: &str,
) -> Result<Option<(Choice<A>, String)>, AllocError> {
    let Some((name, value)) = word.split_once('=') else {
        return joined_short(alloc, choices, word);
    };
    match choice_of(choices, name) {
        Some(choice) if name == choice.long => {
            let value = String::from_str(alloc, value)?;
            Ok(Some((choice, value)))
        }
        _ => joined_short(alloc, choices, word),
    }
}

/// Returns whether a word is a short form, but for its case.
fn has_other_case(short: &str, word: &str) -> bool {
    match (short.as_bytes(), word.as_bytes()) {
        ([b'-', first], [b'-', second]) => first.eq_ignore_ascii_case(second),
        _ => false,
    }
}

/// Returns the form of an option that may be meant by a word that is none, with or without a value after `=`: the nearest long form,
/// or a short form in the other case.
///
/// For example, `--hex` may be meant by `--hexx`, and `-V` by `-v`.
pub fn near_option<'a, A: Copy>(choices: &[Choice<A>], word: &'a str) -> Option<&'a str> {
    let name = match word.split_once('=') {
        Some((name, _)) => name,
        None => word,
    };
    let mut nearest = Nearest::new(name.as_bytes());
    for choice in choices.iter() {
        if has_other_case(choice.short, name) {
            return Some(choice.short);
        }
        nearest.compare(choice.long.as_bytes());
    }
    str::from_utf8(nearest.found()?).ok()
}

/// How many columns a long form and its value have in the list of options.
const COLUMNS: usize = 18;

/// The words of an option, as a line of the list has them.
#[derive(Clone, Copy)]
struct Forms {
    short: &'static str,
    long: &'static str,
    value: &'static str,
}

impl fmt::Display for Forms {
    fn fmt<W: fmt::Write>(&self, f: &mut fmt::Formatter<W>) -> fmt::Result {
        let (short, long, value) = (self.short, self.long, self.value);
        let comma = if short.is_empty() { "    " } else { ", " };
        write!(f, "  {short}{comma}{long} {value}")?;
        for _ in long.len().saturating_add(value.len())..COLUMNS {
            f.write_str(" ")?;
        }
        Ok(())
    }
}

/// Prints the list of options.
pub fn print_options<A: Copy>(rt: &HostRuntime, choices: &[Choice<A>]) -> io::Result<()> {
    println!(rt; "Options:")?;
    for choice in choices.iter() {
        let Choice {
            short,
            long,
            value,
            ..
        } = *choice;
        let (forms, help) = (Forms { short, long, value }, choice.help);
        println!(rt; "{forms}{help}")?;
    }
    Ok(())
}

/// Prints the list of exit statuses, each with what it means.
pub fn print_statuses(rt: &HostRuntime, statuses: &[(u8, &'static str)]) -> io::Result<()> {
    println!(rt; "Exit status:")?;
    for status in statuses.iter() {
        let (number, meaning) = *status;
        println!(rt; "  {number}  {meaning}")?;
    }
    Ok(())
}
