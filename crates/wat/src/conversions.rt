//! Converts one text.
//!
//! The contract of [`convert_bytes`] says what standard output gets for a text. It speaks of any
//! writer whose bytes are known, because the contracts of the library do not say what bytes a
//! stream of the system has. That files get the same bytes is tested.

ghost use Rattle.std.specs.Prelude.{◌≡◌, true, false, Ok, IfOk, OnOk, OnErr};
ghost use Rattle.std.specs.Io.KnownBytes.{Appends, Keeps};
ghost use Rattle.wat_bytes.specs.Names.{ListsText};
ghost use Rattle.wat_bytes.specs.Texts.{EncodesText, OfText};
ghost use Rattle.wat_command.specs.Fronts.{AppendsFront};
ghost use Rattle.wat.specs.Outputs.{HasNames, IsOutput, OutputBy, Writes, Gets, Converts, Stops, hex_line as hex_line_of, selected as selected_bytes};

use crate::colors::style_of;
use crate::names::name_lines;
use crate::options::{Options, Output};
use crate::outputs::output_path;
use crate::sections::without_names;
use crate::several::report_all;
use std::alloc::{AllocError, Global};
use std::io::Write;
use std::str;
use wat_bytes::{
    Denoted, Refused, encode_last_text, encode_text, names_of_last_text, names_of_text,
};
use wat_command::{
    Escaped, Failure, Style, read_input, report_file_in, report_malformed_in, shown, text_before,
    warn_in, write_bytes, write_file,
};
use wat_text::Strings;

/// What each binary module begins with, and no text.
const BINARY: &[u8] = b"\0asm";

/// Removes the name section, if the options have `--no-names`.
fn selected(alloc: Global, options: &Options, bytes: Vec<u8>) -> Result<Vec<u8>, AllocError>
    ensures { IfOk result (λ out. out.items ≡ selected_bytes options.now.omits_names bytes.items) }
{
    if options.omits_names {
        return without_names(alloc, bytes.as_slice());
    }
    Ok(bytes)
}

/// Returns bytes as one line of hexadecimal digits.
fn hex_line(alloc: Global, bytes: &[u8]) -> Result<Vec<u8>, AllocError>
    ensures { IfOk result (λ line. line.items ≡ hex_line_of bytes.now) }
{
    let mut line = hex::encode(alloc, bytes)?;
    line.push('\n')?;
    Ok(line.into_bytes())
}

/// Returns the output for the bytes of a module.
fn output_of_bytes(alloc: Global, options: &Options, bytes: Vec<u8>) -> Result<Vec<u8>, AllocError>
    ensures { IfOk result (λ out. OutputBy options.now bytes.items out.items) }
{
    let bytes = selected(alloc, options, bytes)?;
    if let Output::Hex = options.output {
        return hex_line(alloc, bytes.as_slice());
    }
    Ok(bytes)
}

/// Returns an output, or reports that allocation failed.
fn allocated(rt: &HostRuntime, output: Result<Vec<u8>, AllocError>) -> Result<Vec<u8>, Failure>
    ensures { IfOk result (λ bytes. output ≡ Ok bytes) }
{
    match output {
        Ok(bytes) => Ok(bytes),
        Err(_) => Err(Failure::memory(rt)),
    }
}

/// Returns the bytes of a text. If it is the last one, its module is not freed.
fn bytes_of<'a>(
    alloc: Global,
    text: &'a str,
    strings: &'a Strings,
    is_last: bool,
) -> Result<Vec<u8>, Refused<'a>>
    ensures answer { OfText EncodesText text.now result }
{
    if is_last {
        return encode_last_text(alloc, text, strings);
    }
    encode_text(alloc, text, strings)
}

/// Returns the ids of a text. If it is the last one, its module is not freed.
fn names_of<'a>(
    alloc: Global,
    text: &'a str,
    strings: &'a Strings,
    is_last: bool,
) -> Result<Vec<Denoted<'a>>, Refused<'a>>
    ensures answer { OfText ListsText text.now result }
{
    if is_last {
        return names_of_last_text(alloc, text, strings);
    }
    names_of_text(alloc, text, strings)
}

/// Returns the output for the module of a text, or reports its error.
fn module_output<'a>(
    rt: &HostRuntime,
    options: &Options,
    style: Style,
    file: Escaped<'_>,
    text: &'a str,
    strings: &'a Strings,
    is_last: bool,
) -> Result<Vec<u8>, Failure>
    ensures { IfOk result (λ out. IsOutput options.now text.now out.items) }
{
    match bytes_of(rt.alloc(), text, strings, is_last) {
        Ok(bytes) => allocated(rt, output_of_bytes(rt.alloc(), options, bytes)),
        Err(refused) => Err(report_all(rt, style, file, text, &refused)),
    }
}

/// Returns the list of the ids of a text, or reports its error.
fn names_output<'a>(
    rt: &HostRuntime,
    style: Style,
    file: Escaped<'_>,
    text: &'a str,
    strings: &'a Strings,
    is_last: bool,
) -> Result<Vec<u8>, Failure>
    ensures { IfOk result (λ out. HasNames text.now out.items) }
{
    match names_of(rt.alloc(), text, strings, is_last) {
        Ok(names) => allocated(rt, name_lines(rt.alloc(), names.as_slice())),
        Err(refused) => Err(report_all(rt, style, file, text, &refused)),
    }
}

/// Returns the output for a text.
fn output_of_text(
    rt: &HostRuntime,
    options: &Options,
    style: Style,
    file: Escaped<'_>,
    text: &str,
    is_last: bool,
) -> Result<Vec<u8>, Failure>
    ensures { IfOk result (λ out. Writes options.now text.now out.items) }
{
    warn_in(rt, style, file, text);
    let strings = Strings::new(rt.alloc());
    match options.output {
        Output::Names => names_output(rt, style, file, text, &strings, is_last),
        Output::Bytes | Output::Hex => {
            module_output(rt, options, style, file, text, &strings, is_last)
        }
    }
}

/// Returns the output for the bytes of a file.
fn output_of(
    rt: &HostRuntime,
    options: &Options,
    file: Escaped<'_>,
    bytes: &[u8],
    is_last: bool,
) -> Result<Vec<u8>, Failure>
    ensures { IfOk result (λ out. Writes options.now bytes.now out.items) }
{
    let style = style_of(rt, options);
    if bytes.starts_with(BINARY) {
        return Err(report_file_in(rt, style, file, "already a binary module"));
    }
    match str::from_utf8(bytes) {
        Ok(text) => output_of_text(rt, options, style, file, text, is_last),
        Err(error) => {
            let wrong = error.valid_up_to();
            let text = text_before(bytes, wrong);
            let byte = bytes.get(wrong).copied();
            Err(report_malformed_in(rt, style, file, text, byte))
        }
    }
}

/// Writes to standard output, or reports why that failed.
fn print_output<W: Write>(rt: &HostRuntime, output: &[u8], stdout: &mut W) -> Result<(), Failure>
    ensures whole { OnOk result (Appends (W.contents stdout.old) (W.contents stdout.new) output.now) }
    ensures front { OnErr result (AppendsFront (W.contents stdout.old) (W.contents stdout.new) output.now) }
{
    match write_bytes(stdout, output) {
        Ok(()) => Ok(()),
        Err(error) => Err(Failure::of_write(rt, error)),
    }
}

/// Writes to the file with this path, or reports why that failed.
fn write_output_to(
    rt: &HostRuntime,
    style: Style,
    path: &str,
    output: &[u8],
) -> Result<(), Failure> {
    match write_file(rt, path, output) {
        Ok(()) => Ok(()),
        Err(error) => Err(Failure::of_write_to(rt, style, Escaped(path), error)),
    }
}

/// Writes the output of a file to the file that `--output` names, or to one with a name of its own.
fn store_output(
    rt: &HostRuntime,
    options: &Options,
    file: &str,
    output: &[u8],
) -> Result<(), Failure> {
    match output_path(rt.alloc(), options, file) {
        Ok(path) => write_output_to(rt, style_of(rt, options), path.as_str(), output),
        Err(_) => Err(Failure::memory(rt)),
    }
}

/// Writes the output of a file to standard output or to a file.
fn write_output<W: Write>(
    rt: &HostRuntime,
    options: &Options,
    file: &str,
    output: &[u8],
    is_printed: bool,
    stdout: &mut W,
) -> Result<(), Failure>
    ensures whole { OnOk result (Gets is_printed (W.contents stdout.old) (W.contents stdout.new) output.now) }
    ensures front { is_printed ≡ true → OnErr result (AppendsFront (W.contents stdout.old) (W.contents stdout.new) output.now) }
    ensures stored { is_printed ≡ false → Keeps (W.contents stdout.old) (W.contents stdout.new) }
{
    if is_printed {
        return print_output(rt, output, stdout);
    }
    store_output(rt, options, file, output)
}

/// Converts the bytes of a file, and writes the output to standard output or to a file. If it is the
/// last file, its module is not freed, because the process ends soon.
fn convert_bytes<W: Write>(
    rt: &HostRuntime,
    options: &Options,
    file: &str,
    bytes: &[u8],
    is_last: bool,
    is_printed: bool,
    stdout: &mut W,
) -> Result<(), Failure>
    ensures whole { OnOk result (Converts options.now bytes.now is_printed (W.contents stdout.old) (W.contents stdout.new)) }
    ensures nothing { OnErr result (Stops options.now bytes.now is_printed (W.contents stdout.old) (W.contents stdout.new)) }
{
    let output = output_of(rt, options, shown(file), bytes, is_last)?;
    write_output(rt, options, file, output.as_slice(), is_printed, stdout)
}

/// Reads a file, and writes its output. If it is the last one, its module is not freed.
pub(crate) fn convert_file(
    rt: &HostRuntime,
    options: &Options,
    file: &str,
    is_last: bool,
) -> Result<(), Failure> {
    let bytes = match read_input(rt, file) {
        Ok(bytes) => bytes,
        Err(error) => {
            let style = style_of(rt, options);
            return Err(Failure::of_read(rt, style, shown(file), error));
        }
    };
    let mut stdout = rt.stdout();
    convert_bytes(
        rt,
        options,
        file,
        bytes.as_slice(),
        is_last,
        options.prints(),
        &mut stdout,
    )
}
