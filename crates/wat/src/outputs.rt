//! Which file an output is written to.

use crate::options::{Misuse, Options, Output};
use std::alloc::{AllocError, Global};
use std::fs;
use wat_command::{file_key, is_kept, split_path};

/// Returns a name without this extension, if there is a name before it.
fn without_extension<'a>(name: &'a str, extension: &str) -> Option<&'a str> {
    match name.strip_suffix(extension) {
        Some(stem) if !stem.is_empty() => Some(stem),
        _ => None,
    }
}

/// Returns a name without the extension `.wat` or `.wast`.
fn stem_of(name: &str) -> &str {
    if let Some(stem) = without_extension(name, ".wat") {
        return stem;
    }
    without_extension(name, ".wast").unwrap_or(name)
}

/// Returns the extension of an output.
fn extension_of(output: Output) -> &'static str {
    match output {
        Output::Bytes => ".wasm",
        Output::Hex => ".hex",
        Output::Names => ".names",
    }
}

/// Returns the path of the output of a file: that of `--output`, or one in the folder of the outputs
/// or of the file.
pub(crate) fn output_path(
    alloc: Global,
    options: &Options,
    file: &str,
) -> Result<String, AllocError> {
    if let Some(target) = &options.target {
        return String::from_str(alloc, target.as_str());
    }
    let (beside, name) = split_path(file);
    let folder = match &options.folder {
        Some(folder) => folder.as_str(),
        None => beside,
    };
    let slash = if folder.is_empty() || folder.ends_with('/') {
        ""
    } else {
        "/"
    };
    let stem = stem_of(name);
    let extension = extension_of(options.output);
    format!(in alloc; "{folder}{slash}{stem}{extension}")
}

/// Returns the keys of the outputs of all files, sorted.
fn sorted_keys(rt: &HostRuntime, options: &Options) -> Result<Vec<String>, AllocError> {
    let mut keys = Vec::new(rt.alloc());
    for file in options.files.iter() {
        let path = output_path(rt.alloc(), options, file.as_str())?;
        let key = file_key(rt, path.as_str())?;
        keys.push(key)?;
    }
    keys.sort()?;
    Ok(keys)
}

/// Returns a key that is twice in a sorted list.
fn repeated(keys: &[String]) -> Option<&str> {
    let mut previous = "";
    for key in keys.iter() {
        if key.as_str() == previous {
            return Some(previous);
        }
        previous = key.as_str();
    }
    None
}

/// Returns the path of the output that has this key.
fn path_of(rt: &HostRuntime, options: &Options, key: &str) -> Result<String, AllocError> {
    let mut found = String::new(rt.alloc());
    for file in options.files.iter() {
        let path = output_path(rt.alloc(), options, file.as_str())?;
        let of_path = file_key(rt, path.as_str())?;
        if of_path.as_str() == key {
            found = path;
        }
    }
    Ok(found)
}

/// Returns an output that two files have, or that is itself a file to read: one of the outputs, or the
/// file, would be lost.
fn lost(rt: &HostRuntime, options: &Options) -> Result<Option<Misuse>, AllocError> {
    let keys = sorted_keys(rt, options)?;
    if let Some(key) = repeated(keys.as_slice()) {
        let path = path_of(rt, options, key)?;
        return Ok(Some(Misuse::SharedOutput(path)));
    }
    for file in options.files.iter() {
        let key = file_key(rt, file.as_str())?;
        if is_kept(rt, file.as_str()) && keys.as_slice().binary_search(&key).is_ok() {
            let path = path_of(rt, options, key.as_str())?;
            return Ok(Some(Misuse::ReadOutput(path)));
        }
    }
    Ok(None)
}

/// Returns the file of `--output`, if it is there and has the name of a text. Nobody writes a module over a text on purpose.
fn replaced_text(rt: &HostRuntime, options: &Options) -> Result<Option<Misuse>, AllocError> {
    let Some(target) = &options.target else {
        return Ok(None);
    };
    let path = target.as_str();
    let is_text = path.ends_with(".wat") || path.ends_with(".wast");
    if !is_text || fs::metadata(rt, path).is_err() {
        return Ok(None);
    }
    let path = String::from_str(rt.alloc(), path)?;
    Ok(Some(Misuse::TextOutput(path)))
}

/// Returns an output that would replace something else.
fn replaced(rt: &HostRuntime, options: &Options) -> Result<Option<Misuse>, AllocError> {
    match lost(rt, options)? {
        Some(misuse) => Ok(Some(misuse)),
        None => replaced_text(rt, options),
    }
}

/// Checks that no output replaces another one, a file to read or a text.
pub(crate) fn check_outputs(rt: &HostRuntime, options: &Options) -> Result<(), Misuse> {
    match replaced(rt, options) {
        Ok(None) => Ok(()),
        Ok(Some(misuse)) => Err(misuse),
        Err(_) => Err(Misuse::Memory),
    }
}
