//! Reads files, and writes files whole or not at all.

ghost use Rattle.std.specs.Prelude.{◌+◌, ◌≤◌, ◌-◌, IfOk, OnOk, OnErr, length, take, drop};
ghost use Rattle.std.specs.Io.KnownBytes.{Appends, Keeps};
ghost use Rattle.wat_command.specs.Fronts.{AppendsFront};

use crate::escapes::Escaped;
use std::alloc::AllocError;
use std::fs::{self, File, Metadata, OpenOptions, Permissions};
use std::io::{self, ErrorKind, Read, Write};
use std::os::unix::fs::{MetadataExt, OpenOptionsExt, PermissionsExt, fchown};
use std::str;

/// The file name for standard input and standard output.
pub const STANDARD: &str = "-";

/// At most this many names of temporary files are tried.
const MOST: u32 = 1_000_000;

/// At most this many links are followed, as by the system.
const LINKS: u32 = 40;

/// A temporary file that is written piece by piece, and renamed when it is complete.
#[derive(Drop)]
pub struct NewFile {
    /// The open file.
    file: File,
    /// The path of the temporary file. A device, a pipe or the target of a link is written without one.
    temporary: Option<String>,
}

/// Returns the folder of a path, with its slash, and the name in it.
pub fn split_path(path: &str) -> (&str, &str) {
    match path.rsplit_once('/') {
        Some((_, name)) => (path.strip_suffix(name).unwrap_or(""), name),
        None => ("", path),
    }
}

/// Returns the name of a file, as messages have it.
pub fn shown(file: &str) -> Escaped<'_> {
    if file == STANDARD {
        return Escaped("<stdin>");
    }
    Escaped(file)
}

/// Returns the key of a file by its device and number, and by the name of a file in it.
fn key_in(rt: &HostRuntime, found: &Metadata, name: &str) -> Result<String, AllocError> {
    let (device, number) = (found.dev(), found.ino());
    format!(in rt.alloc(); "{device} {number} {name}")
}

/// Returns the path that a symbolic link leads to, or nothing if this is no link.
fn linked(rt: &HostRuntime, path: &str) -> Result<Option<String>, AllocError> {
    match fs::read_link(rt, path) {
        Ok(target) => {
            let target = target.as_str();
            let (folder, _) = split_path(path);
            let folder = if target.starts_with('/') { "" } else { folder };
            let path = format!(in rt.alloc(); "{folder}{target}")?;
            Ok(Some(path))
        }
        Err(error) if error.kind() == ErrorKind::OutOfMemory => Err(AllocError),
        Err(_) => Ok(None),
    }
}

/// Returns the path at which a file is created that is opened by this one: that of a link which leads to nothing is another.
fn end_of_links(rt: &HostRuntime, path: &str) -> Result<String, AllocError> {
    let mut path = String::from_str(rt.alloc(), path)?;
    for _ in 0..LINKS {
        match linked(rt, path.as_str())? {
            Some(next) => path = next,
            None => break,
        }
    }
    Ok(path)
}

/// Returns the key of a file. All paths of one file have the same key, also those through links.
///
/// For a file that does not exist yet it is made of its folder and its name. A path in a folder that
/// does not exist is its own key.
pub fn file_key(rt: &HostRuntime, path: &str) -> Result<String, AllocError> {
    if let Ok(found) = fs::metadata(rt, path) {
        return key_in(rt, &found, "");
    }
    let end = end_of_links(rt, path)?;
    let path = end.as_str();
    let (folder, name) = split_path(path);
    let folder = if folder.is_empty() { "." } else { folder };
    match fs::metadata(rt, folder) {
        Ok(found) => key_in(rt, &found, name),
        Err(_) => String::from_str(rt.alloc(), path),
    }
}

/// Returns whether a file to read would be lost if an output replaced it, or would be that output if it
/// does not exist. Standard input, devices and pipes would not.
pub fn is_kept(rt: &HostRuntime, file: &str) -> bool {
    match fs::metadata(rt, file) {
        Ok(found) => found.is_file() && file != STANDARD,
        Err(_) => file != STANDARD,
    }
}

/// Reads all bytes of a file, or of standard input.
pub fn read_input(rt: &HostRuntime, file: &str) -> io::Result<Vec<u8>> {
    let mut bytes = Vec::new(rt.alloc());
    if file == STANDARD {
        let mut reader = rt.stdin();
        let _count = reader.read_to_end(&mut bytes)?;
    } else {
        let mut reader = File::open(rt, file)?;
        let _count = reader.read_to_end(&mut bytes)?;
    }
    Ok(bytes)
}

/// Returns the part of the bytes that is UTF-8, up to this offset.
pub fn text_before(bytes: &[u8], offset: usize) -> &str {
    match bytes.get(..offset) {
        Some(part) => str::from_utf8(part).unwrap_or(""),
        None => "",
    }
}

/// Writes bytes from an offset on, as many as the writer takes, and returns the offset after them.
fn write_from<W: Write>(writer: &mut W, bytes: &[u8], at: usize) -> io::Result<usize>
    requires { at ≤ length bytes.now }
    ensures within { IfOk result (λ end. (at ≤ end) × (end ≤ length bytes.now)) }
    ensures ok { IfOk result (λ end. Appends (W.contents writer.old) (W.contents writer.new) (take (end - at) (drop at bytes.now))) }
    ensures err { OnErr result (Keeps (W.contents writer.old) (W.contents writer.new)) }
{
    match writer.write(&bytes[at..]) {
        Ok(count) => Ok(at + count),
        Err(error) => Err(error),
    }
}

/// Writes all bytes to a writer, for example to standard output. After an error the writer has a
/// prefix of them. It calls `write` itself, because the contract of `write_all` does not say what a
/// writer has after an error.
#[tactic(auto, using(crate::proofs::Fronts::nothing, crate::proofs::Fronts::further, crate::proofs::Fronts::stayed, crate::proofs::Fronts::front, crate::proofs::Fronts::all_of))]
pub fn write_bytes<W: Write>(writer: &mut W, bytes: &[u8]) -> io::Result<()>
    ensures whole { OnOk result (Appends (W.contents writer.old) (W.contents writer.new) bytes.now) }
    ensures front { OnErr result (AppendsFront (W.contents writer.old) (W.contents writer.new) bytes.now) }
{
    let mut at = 0;
    for _ in 0..u64::MAX {
        if at == bytes.len() {
            return writer.flush();
        }
        match write_from(writer, bytes, at) {
            Ok(end) if end > at => at = end,
            Ok(_) => return Err(io::Error::from(ErrorKind::WriteZero)),
            Err(error) => {
                if error.kind() != ErrorKind::Interrupted {
                    return Err(error);
                }
            }
        }
    }
    Err(io::Error::from(ErrorKind::Interrupted))
}

/// Creates a file with these permissions, less those that the user masks. It never opens one that is
/// already there.
fn create_new(rt: &HostRuntime, path: &str, mode: u32) -> io::Result<File> {
    let mut options = OpenOptions::new();
    let _ = options.write(true).create_new(true).mode(mode);
    options.open(rt, path)
}

/// Creates a file in the folder of this path.
fn create_temporary(rt: &HostRuntime, path: &str, mode: u32) -> io::Result<NewFile> {
    let (folder, _) = split_path(path);
    for number in 0..MOST {
        let path = format!(in rt.alloc(); "{folder}.wat-{number}.tmp")?;
        match create_new(rt, path.as_str(), mode) {
            Ok(file) => {
                let temporary = Some(path);
                return Ok(NewFile { file, temporary });
            }
            Err(error) => {
                if error.kind() != ErrorKind::AlreadyExists {
                    return Err(error);
                }
            }
        }
    }
    Err(io::Error::from(ErrorKind::AlreadyExists))
}

/// Returns the permissions of a file that has not the group of the file that it replaces. Its group and all others may do what the old
/// group and all others might both do, so that nobody gets a permission.
fn for_another_group(mode: u32) -> u32 {
    let both = mode & (mode >> 3) & 0o7;
    (mode & 0o700) | (both << 3) | both
}

/// Creates a temporary file beside a regular file that it will replace, if that may be written. It has the group and the permissions of
/// that file before its first byte, so that nobody can read it who could not read the old file.
fn create_beside(rt: &HostRuntime, path: &str) -> io::Result<NewFile> {
    let existing = OpenOptions::new().write(true).open(rt, path)?;
    let found = existing.metadata()?;
    let mode = found.permissions().mode();
    let created = create_temporary(rt, path, mode & 0o700)?;
    match created.take_permissions(found.gid(), mode) {
        Ok(()) => Ok(created),
        Err(error) => {
            created.remove(rt);
            Err(error)
        }
    }
}

/// Opens a device, a pipe, or the target of a link.
fn open_in_place(rt: &HostRuntime, path: &str) -> io::Result<NewFile> {
    let file = File::create(rt, path)?;
    let temporary = None;
    Ok(NewFile { file, temporary })
}

impl NewFile {
    /// Begins a file that gets this path.
    ///
    /// A device, a pipe or a symbolic link is written directly, because replacing it would break what
    /// it is used for.
    pub fn create(rt: &HostRuntime, path: &str) -> io::Result<NewFile> {
        match fs::symlink_metadata(rt, path) {
            Ok(found) => {
                if found.is_file() {
                    return create_beside(rt, path);
                }
                open_in_place(rt, path)
            }
            Err(error) => {
                if error.kind() == ErrorKind::NotFound {
                    return create_temporary(rt, path, 0o666);
                }
                Err(error)
            }
        }
    }

    /// Gives the file this group, unless it has it, and returns whether that is allowed.
    fn take_group(&self, group: u32) -> io::Result<bool> {
        let found = self.file.metadata()?;
        Ok(found.gid() == group || fchown(&self.file, None, Some(group)).is_ok())
    }

    /// Gives the file the group and the permissions of the file that it replaces. If the user may not give it the group, it has fewer
    /// permissions.
    fn take_permissions(&self, group: u32, mode: u32) -> io::Result<()> {
        let mode = if self.take_group(group)? {
            mode
        } else {
            for_another_group(mode)
        };
        self.file.set_permissions(Permissions::from_mode(mode))
    }

    /// Gives the file its path, if all was written.
    fn publish(&self, rt: &HostRuntime, path: &str, is_synced: bool) -> io::Result<()> {
        let Some(temporary) = &self.temporary else {
            return Ok(());
        };
        if is_synced {
            self.file.sync_all()?;
        }
        fs::rename(rt, temporary.as_str(), path)
    }

    /// Removes the temporary file.
    fn remove(&self, rt: &HostRuntime) {
        if let Some(temporary) = &self.temporary {
            let _ = fs::remove_file(rt, temporary.as_str());
        }
    }

    /// Ends the file, which was written with this result, and gives it its path. If it was not written, or if that fails, the
    /// temporary file is removed.
    ///
    /// If it is synced, the call waits until the system has the bytes, because an error that comes later would be lost.
    pub fn finish(
        self,
        rt: &HostRuntime,
        path: &str,
        is_synced: bool,
        written: io::Result<()>,
    ) -> io::Result<()> {
        let published = match written {
            Ok(()) => self.publish(rt, path, is_synced),
            Err(error) => Err(error),
        };
        if published.is_err() {
            self.remove(rt);
        }
        published
    }
}

impl Write for NewFile {
    fn write(&mut self, buf: &[u8]) -> io::Result<usize> {
        self.file.write(buf)
    }

    fn flush(&mut self) -> io::Result<()> {
        self.file.flush()
    }
}

/// Writes a file completely or not at all.
fn write_whole(rt: &HostRuntime, path: &str, bytes: &[u8], is_synced: bool) -> io::Result<()> {
    let mut file = NewFile::create(rt, path)?;
    let written = file.write_all(bytes);
    file.finish(rt, path, is_synced, written)
}

/// Writes a file completely or not at all, and waits until the system has its bytes.
///
/// A device, a pipe or a symbolic link is written directly, because replacing it would break what
/// it is used for.
pub fn write_file(rt: &HostRuntime, path: &str, bytes: &[u8]) -> io::Result<()> {
    write_whole(rt, path, bytes, true)
}

/// Writes a file as [`write_file`] does, without waiting for the system. It is for many files of one run.
pub fn write_unsynced(rt: &HostRuntime, path: &str, bytes: &[u8]) -> io::Result<()> {
    write_whole(rt, path, bytes, false)
}
