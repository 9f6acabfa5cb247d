//! A file of the output, which is complete or as it was.

use crate::errors::StatError;
use crate::files::or_standard_input;
use crate::output::print;
use std::fs::{self, File, Metadata, Permissions};
use std::io::{self, ErrorKind, Write};
use std::os::unix::fs::MetadataExt;

/// The most names that are tried for a new file.
const MOST_NAMES: u32 = 1_000;

/// Checks that the file of a name is not an input too.
///
/// # Errors
/// Returns a usage error if the file is an input, by this name or another one.
pub fn check_output(rt: &HostRuntime, name: &str, inputs: &[&str]) -> Result<(), StatError> {
    if name != "-" && is_input(rt, name, inputs) {
        return Err(StatError::usage(rt.alloc(), name, "is an input too"));
    }
    Ok(())
}

/// Writes bytes to the file of a name, or to standard output if that is `-`.
///
/// The bytes are written to a new file beside it, which then takes the name: after an error the file
/// is as it was. A device or a pipe is written to directly.
pub fn write_output(rt: &HostRuntime, name: &str, bytes: &[u8]) -> Result<(), StatError> {
    if name == "-" {
        return print(rt, bytes);
    }
    write_file(rt, name, bytes).map_err(|cause| StatError::file(rt.alloc(), name, cause))
}

/// Whether a file is an input. Without names that is standard input.
fn is_input(rt: &HostRuntime, name: &str, inputs: &[&str]) -> bool {
    let Ok(file) = fs::metadata(rt, name) else {
        return false;
    };
    for input in or_standard_input(inputs) {
        if is_same(rt, path_of(*input), &file) {
            return true;
        }
    }
    false
}

/// Returns the path of an input, which may be standard input.
fn path_of<'a>(input: &'a str) -> &'a str {
    if input == "-" { "/dev/stdin" } else { input }
}

/// Whether a path is that of a file.
fn is_same(rt: &HostRuntime, path: &str, file: &Metadata) -> bool {
    match fs::metadata(rt, path) {
        Ok(other) => file.is_file() && other.dev() == file.dev() && other.ino() == file.ino(),
        Err(_) => false,
    }
}

/// Writes bytes to a file, which need not exist.
fn write_file(rt: &HostRuntime, name: &str, bytes: &[u8]) -> io::Result<()> {
    match fs::metadata(rt, name) {
        Ok(found) if found.is_file() => {
            let path = fs::canonicalize(rt, name)?;
            let path = path.to_str().unwrap_or(name);
            replace(rt, path, Some(found.permissions()), bytes)
        }
        Ok(_) => fs::write(rt, name, bytes),
        Err(_) => replace(rt, name, None, bytes),
    }
}

/// Writes bytes to a new file, which then takes a name. It is removed after an error.
fn replace(
    rt: &HostRuntime,
    name: &str,
    permissions: Option<Permissions>,
    bytes: &[u8],
) -> io::Result<()> {
    let (beside, file) = create_beside(rt, name)?;
    match fill(file, permissions, bytes) {
        Ok(()) => rename(rt, beside.as_str(), name),
        Err(cause) => {
            let _ = fs::remove_file(rt, beside.as_str());
            Err(cause)
        }
    }
}

/// Renames a file. It is removed after an error.
fn rename(rt: &HostRuntime, from: &str, to: &str) -> io::Result<()> {
    let renamed = fs::rename(rt, from, to);
    if renamed.is_err() {
        let _ = fs::remove_file(rt, from);
    }
    renamed
}

/// Creates a file beside that of a name, and returns its own name.
fn create_beside(rt: &HostRuntime, name: &str) -> io::Result<(String, File)> {
    for number in 0..MOST_NAMES {
        let beside = format!(in rt.alloc(); "{name}.{number}.tmp")?;
        match File::create_new(rt, beside.as_str()) {
            Ok(file) => return Ok((beside, file)),
            Err(cause) if cause.kind() == ErrorKind::AlreadyExists => {}
            Err(cause) => return Err(cause),
        }
    }
    Err(ErrorKind::AlreadyExists.into())
}

/// Writes bytes to a new file, and sets its permissions if they are known.
fn fill(mut file: File, permissions: Option<Permissions>, bytes: &[u8]) -> io::Result<()> {
    if let Some(permissions) = permissions {
        file.set_permissions(permissions)?;
    }
    file.write_all(bytes)
}
