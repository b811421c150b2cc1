//! Runs: a line is written for each line that is read.

ghost use Rattle.std.specs.Prelude.{◌≡◌, ℕ, ◌<◌, ◌≤◌, List, [], ◌∷◌, ◌++◌, length, take, OnOk, OnErr, IfOk, IfErr, IfSome, IfNone};
ghost use Rattle.std.specs.Io.KnownBytes.{Appends, Consumes, IsAtEnd, Keeps};
ghost use Rattle.wast_rows.specs.Answers.{TellsLine};
ghost use Rattle.wast_rows.specs.declared.errors.RunError.TheVariants as error;
ghost use Rattle.wast_rows.specs.Runs.{IsOpen, Ran, Stopped, EndedWriter, AnswersWriter, StopsWriter, AnswersLine, StopsLine, BeginsBytes};

use crate::answers::answer;
use crate::errors::RunError;
use std::alloc::Global;
use std::io::{ErrorKind, Read, Write};
use wast_core::Module;
use wast_tree::Error;

/// The largest number of calls of `read` in a run.
const MOST_READS: u32 = 1_000_000;

/// The number of bytes that a run reads at once.
const PIECE_LEN: usize = 4096;

/// Writes all bytes. If writing fails, a prefix of them may be written.
fn write_bytes<W: Write>(writer: &mut W, bytes: &[u8]) -> Result<(), RunError>
    ensures ok { OnOk result (Appends (W.contents writer.old) (W.contents writer.new) bytes.now) }
    ensures err { OnErr result (BeginsBytes bytes.now (W.contents writer.old) (W.contents writer.new)) }
    ensures error { IfErr result (λ e. e ≡ error.Write) }
{
    let mut rest = bytes;
    for _ in 0..u64::MAX {
        if rest.is_empty() {
            return writer.flush().map_err(|_| RunError::Write);
        }
        let count = write_some(writer, rest)?;
        rest = &rest[count..];
    }
    Err(RunError::Write)
}

/// Writes once, and returns how many bytes were taken. It is 0 if the write was interrupted.
fn write_some<W: Write>(writer: &mut W, bytes: &[u8]) -> Result<usize, RunError>
    ensures bound { IfOk result (λ count. count ≤ length bytes.now) }
    ensures ok { IfOk result (λ count. Appends (W.contents writer.old) (W.contents writer.new) (take count bytes.now)) }
    ensures err { OnErr result (Keeps (W.contents writer.old) (W.contents writer.new)) }
    ensures error { IfErr result (λ e. e ≡ error.Write) }
{
    match writer.write(bytes) {
        Ok(0) => Err(RunError::Write),
        Ok(count) => Ok(count),
        Err(error) => {
            if error.kind() == ErrorKind::Interrupted {
                Ok(0)
            } else {
                Err(RunError::Write)
            }
        }
    }
}

/// Writes the line for a line of the input, and a line feed.
fn answer_line<'a, W: Write, F: Fn(u32) -> Option<Result<Module<'a>, Error<'a>>>>(
    alloc: Global,
    line: &[u8],
    writer: &mut W,
    sample: &F,
) -> Result<(), RunError>
    requires { F.IsAlwaysCallable sample.now }
    ensures ok { OnOk result (AnswersLine (TellsLine (F.post sample.now)) line.now (W.contents writer.old) (W.contents writer.new)) }
    ensures err { IfErr result (λ e. StopsLine (TellsLine (F.post sample.now)) line.now e (W.contents writer.old) (W.contents writer.new)) }
{
    let mut text = answer(alloc, line, sample)?;
    text.push('\n')?;
    write_bytes(writer, text.as_bytes())
}

/// Adds a byte to the line that is read, or writes its line if the byte is a line feed.
fn take_byte<'a, W: Write, F: Fn(u32) -> Option<Result<Module<'a>, Error<'a>>>>(
    alloc: Global,
    byte: u8,
    pending: &mut Vec<u8>,
    writer: &mut W,
    sample: &F,
) -> Result<(), RunError>
    requires callable { F.IsAlwaysCallable sample.now }
    requires still_open { IsOpen pending.old.items }
    ensures ok { OnOk result (EndedWriter (TellsLine (F.post sample.now)) (pending.old.items ++ (byte ∷ [])) pending.new.items (W.contents writer.old) (W.contents writer.new)) }
    ensures err { IfErr result (λ e. (rest : List ℕ) → StopsWriter (TellsLine (F.post sample.now)) (pending.old.items ++ (byte ∷ rest)) e (W.contents writer.old) (W.contents writer.new)) }
{
    if byte != b'\n' {
        pending.push(byte)?;
        return Ok(());
    }
    answer_line(alloc, pending.as_slice(), writer, sample)?;
    pending.clear();
    Ok(())
}

/// Adds bytes to the line that is read, and writes a line for each that ends in them.
fn feed<'a, W: Write, F: Fn(u32) -> Option<Result<Module<'a>, Error<'a>>>>(
    alloc: Global,
    bytes: &[u8],
    pending: &mut Vec<u8>,
    writer: &mut W,
    sample: &F,
) -> Result<(), RunError>
    requires callable { F.IsAlwaysCallable sample.now }
    requires still_open { IsOpen pending.old.items }
    ensures ok { OnOk result (EndedWriter (TellsLine (F.post sample.now)) (pending.old.items ++ bytes.now) pending.new.items (W.contents writer.old) (W.contents writer.new)) }
    ensures err { IfErr result (λ e. StopsWriter (TellsLine (F.post sample.now)) (pending.old.items ++ bytes.now) e (W.contents writer.old) (W.contents writer.new)) }
{
    for byte in bytes {
        take_byte(alloc, *byte, pending, writer, sample)?;
    }
    Ok(())
}

/// Writes the line for the last line of the input, if that has no line feed.
fn finish<'a, W: Write, F: Fn(u32) -> Option<Result<Module<'a>, Error<'a>>>>(
    alloc: Global,
    pending: &[u8],
    writer: &mut W,
    sample: &F,
) -> Result<(), RunError>
    requires callable { F.IsAlwaysCallable sample.now }
    requires still_open { IsOpen pending.now }
    ensures ok { OnOk result (AnswersWriter (TellsLine (F.post sample.now)) pending.now (W.contents writer.old) (W.contents writer.new)) }
    ensures err { IfErr result (λ e. StopsWriter (TellsLine (F.post sample.now)) pending.now e (W.contents writer.old) (W.contents writer.new)) }
{
    if pending.is_empty() {
        return Ok(());
    }
    answer_line(alloc, pending, writer, sample)
}

/// Reads once. Returns the bytes, none if the read was interrupted, or `None` at the end.
fn read_piece<'b, R: Read>(
    reader: &mut R,
    buffer: &'b mut [u8],
) -> Result<Option<&'b [u8]>, RunError>
    requires { 0 < length buffer.old }
    ensures piece { IfOk result (λ piece. IfSome piece (λ bytes. Consumes (R.remaining reader.old) (R.remaining reader.new) bytes.now)) }
    ensures end { IfOk result (λ piece. IfNone piece (IsAtEnd (R.remaining reader.new))) }
    ensures no_more { IfOk result (λ piece. IfNone piece (Consumes (R.remaining reader.old) (R.remaining reader.new) [])) }
    ensures err { OnErr result (Keeps (R.remaining reader.old) (R.remaining reader.new)) }
    ensures error { IfErr result (λ e. e ≡ error.Read) }
{
    match reader.read(buffer) {
        Ok(0) => Ok(None),
        Ok(count) => Ok(Some(&buffer[..count])),
        Err(error) => {
            if error.kind() == ErrorKind::Interrupted {
                Ok(Some(&[]))
            } else {
                Err(RunError::Read)
            }
        }
    }
}

/// Reads lines up to the end of the input, and writes one line for each.
///
/// A line is the bytes before a line feed, or after the last one if there are any. A carriage
/// return is a byte of its line. `sample` returns the module of a number, and has to return for
/// every number. The line that is written is:
///
/// - `no row` if the line is not a `u32` in decimal form, has a sign or leading zeros, or has no
///   module;
/// - `ill formed: C` if the module is not well formed, with the first rule C that it breaks;
/// - `ill formed` if it is well formed and has a generated id;
/// - its bytes in lower case hexadecimal, as encoding with a counter at 1 returns them;
/// - `fault at P: text` or `refused: text` if encoding fails with or without a position P.
///
/// What is written before an error stays. After `Read`, there is a line for each line of the input
/// whose line feed was read. After `Memory`, there are lines for the first lines, each of them
/// whole. After `Write`, a prefix of the next line may follow these.
///
/// # Example
///
///     let result = run(alloc, &mut input, &mut output, |n| odd_row(alloc, n));
///
/// # Errors
///
/// - `Read`: a read fails, or a million reads do not reach the end.
/// - `Write`: a write or a flush fails, or a write takes no byte.
/// - `Memory`: allocation failed, also while a module is made or encoded. Every error that `sample`
///   returns counts as this one.
///
/// A read or a write that is interrupted is tried again.
///
/// The contract states what was read and written only for readers and writers with known bytes, as
/// `&[u8]` and `Vec<u8>` have. It does not for the standard streams.
pub fn run<'a, R: Read, W: Write, F: Fn(u32) -> Option<Result<Module<'a>, Error<'a>>>>(
    alloc: Global,
    reader: &mut R,
    writer: &mut W,
    sample: F,
) -> Result<(), RunError>
    requires { F.IsAlwaysCallable sample }
    ensures ok { OnOk result (Ran (TellsLine (F.post sample)) (R.remaining reader.old) (R.remaining reader.new) (W.contents writer.old) (W.contents writer.new)) }
    ensures err { IfErr result (λ e. Stopped (TellsLine (F.post sample)) e (R.remaining reader.old) (R.remaining reader.new) (W.contents writer.old) (W.contents writer.new)) }
{
    let mut buffer = [0u8; PIECE_LEN];
    let mut pending = Vec::new(alloc);
    for _ in 0..MOST_READS {
        let Some(piece) = read_piece(reader, &mut buffer)? else {
            return finish(alloc, pending.as_slice(), writer, &sample);
        };
        feed(alloc, piece, &mut pending, writer, &sample)?;
    }
    Err(RunError::Read)
}
