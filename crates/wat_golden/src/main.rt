//! A test of the parser: prints a line for each line of its input, which is a module in the text
//! format. The line is the bytes of the module in hexadecimal, or the error and its offset.
//!
//! A text with line feeds or control characters is stored with escapes, because a line is one text.
//! Its line begins with `\`. After this `\n` is a line feed, `\r` a carriage return, `\t` a tab,
//! `\\` a backslash, and a backslash with two hexadecimal digits is a byte. For example,
//! `\(module\n)` is a module of two lines.
#![tactic(auto)]

use std::alloc::{AllocError, Global};
use std::io::{self, BufRead, BufReader};
use std::str;
use wat_bytes::{Refused, encode_text};
use wat_text::Strings;

/// Prints the error of a text.
fn print_refusal(rt: &impl Print, refused: Refused<'_>) -> io::Result<()> {
    if let Refused::Text(error) = refused {
        let offset = error.span.offset;
        return println!(rt; "not read at {offset}: {error}");
    }
    if let Refused::Uncovered(uncovered) = refused {
        let form = uncovered.form;
        return println!(rt; "refused: uncovered form: {form}");
    }
    match refused.span() {
        Some(span) => {
            let offset = span.offset;
            println!(rt; "fault at {offset}: {refused}")
        }
        None => println!(rt; "refused: {refused}"),
    }
}

/// Prints the line of a text.
fn print_answer(rt: &impl Print, alloc: Global, text: &str) -> io::Result<()> {
    let strings = Strings::new(alloc);
    match encode_text(alloc, text, &strings) {
        Ok(bytes) => println!(rt; "{}", hex::encode(alloc, bytes.as_slice())?),
        Err(refused) => print_refusal(rt, refused),
    }
}

/// How much of an escape was read.
#[derive(Clone, Copy)]
enum Escape {
    /// Nothing.
    None,
    /// Its backslash.
    Begun,
    /// Its backslash and a hexadecimal digit with this value.
    Digit(u8),
}

/// Returns the value of a hexadecimal digit, or 0 for another character.
fn hex_digit(byte: u8) -> u8 {
    match byte {
        b'0'..=b'9' => byte - b'0',
        b'a'..=b'f' => byte - b'a' + 10,
        _ => 0,
    }
}

/// Reads a byte of a line with escapes, and appends the byte of the text that ends with it.
fn read_byte(out: &mut Vec<u8>, escape: Escape, byte: u8) -> Result<Escape, AllocError> {
    let stands_for = match (escape, byte) {
        (Escape::None, b'\\') => return Ok(Escape::Begun),
        (Escape::None, byte) => byte,
        (Escape::Begun, b'n') => b'\n',
        (Escape::Begun, b'r') => b'\r',
        (Escape::Begun, b't') => b'\t',
        (Escape::Begun, b'\\') => b'\\',
        (Escape::Begun, digit) => return Ok(Escape::Digit(hex_digit(digit))),
        (Escape::Digit(high), digit) => (high & 15) << 4 | hex_digit(digit),
    };
    out.push(stands_for)?;
    Ok(Escape::None)
}

/// Returns the text of a line with escapes, without the backslash at its start.
fn unescaped(alloc: Global, line: &str) -> Result<Vec<u8>, AllocError> {
    let mut out = Vec::new(alloc);
    let mut escape = Escape::None;
    for byte in line.as_bytes() {
        escape = read_byte(&mut out, escape, *byte)?;
    }
    Ok(out)
}

/// Prints the line of a text that is stored with escapes.
fn print_escaped(rt: &impl Print, alloc: Global, line: &str) -> io::Result<()> {
    let bytes = unescaped(alloc, line)?;
    match str::from_utf8(bytes.as_slice()) {
        Ok(text) => print_answer(rt, alloc, text),
        Err(_) => println!(rt; "the text of this line is not UTF-8"),
    }
}

fn main(rt: HostRuntime) -> io::Result<()> {
    let alloc = rt.alloc();
    for line in BufReader::new(alloc, rt.reader())?.lines(alloc) {
        let line = line?;
        match line.as_str().strip_prefix('\\') {
            Some(escaped) => print_escaped(&rt, alloc, escaped)?,
            None => print_answer(&rt, alloc, line.as_str())?,
        }
    }
    Ok(())
}
