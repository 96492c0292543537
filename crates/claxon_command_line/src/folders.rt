//! What lies in a folder.
ghost use Rattle.std.specs.Prelude.{◌↔◌, IsTrue};
ghost use Rattle.claxon_command_line.specs.Folders.{IsFlacName};

use crate::names::read_name;
use claxon_input::error::Result;
use claxon_input::input::{BufferedReader, ReadBytes};
use std::alloc::{AllocError, Global};
use std::rt::Files;
use std::{fs, result};

/// Whether this is the name of a folder, or of a symbolic link to one.
pub fn is_folder<Q: Files>(rt: &Q, name: &str) -> bool {
    match fs::metadata(rt, name) {
        Ok(metadata) => metadata.is_dir(),
        Err(_) => false,
    }
}

/// Whether this is the name of a folder itself.
pub fn is_real_folder<Q: Files>(rt: &Q, name: &str) -> bool {
    match fs::symlink_metadata(rt, name) {
        Ok(metadata) => metadata.is_dir(),
        Err(_) => false,
    }
}

/// Whether this is the name of what holds no bytes of its own, as a pipe, a device or a folder, or of a symbolic link to it.
pub fn is_no_file<Q: Files>(rt: &Q, name: &str) -> bool {
    match fs::metadata(rt, name) {
        Ok(metadata) => !metadata.is_file(),
        Err(_) => false,
    }
}

/// Whether a name ends with `.flac`, in letters of either case.
pub fn is_flac_name(name: &str) -> bool
    ensures { IsTrue result ↔ IsFlacName name.now }
{
    let name = name.as_bytes();
    name[name.len().saturating_sub(5)..].eq_ignore_ascii_case(b".flac")
}

/// Adds the paths of what lies in a folder, so that they are taken from the end in order of their names.
///
/// # Errors
///
/// An `IoError` if the folder can't be read, `OutOfMemory` if memory is refused.
pub fn add_contents<Q: Files + AllocGlobal>(
    rt: &Q,
    folder: &str,
    paths: &mut Vec<Vec<u8>>,
) -> Result<()> {
    let mut contents = contents_of(rt, folder)?;
    contents.sort_unstable_by(|a, b| b.as_slice().cmp(a.as_slice()));
    for path in contents {
        paths.push(path)?;
    }
    Ok(())
}

// The paths of what lies in a folder, in no order.
fn contents_of<Q: Files + AllocGlobal>(rt: &Q, folder: &str) -> Result<Vec<Vec<u8>>> {
    let alloc = rt.alloc();
    let front = with_slash(alloc, folder)?;
    let mut names = BufferedReader::new(alloc, rt.open_dir(folder)?)?;
    paths_of(alloc, &mut names, front.as_slice())
}

// A folder's name, with a slash at its end.
fn with_slash(alloc: Global, folder: &str) -> result::Result<Vec<u8>, AllocError> {
    let back: &[u8] = if folder.ends_with('/') { b"" } else { b"/" };
    joined(alloc, folder.as_bytes(), back)
}

// The paths of the names that are read, each after `front`, but for the names of a folder itself and of the one above it.
fn paths_of<R: ReadBytes>(alloc: Global, names: &mut R, front: &[u8]) -> Result<Vec<Vec<u8>>> {
    let mut paths = Vec::new(alloc);
    let mut name = Vec::new(alloc);
    for _ in 0..u64::MAX {
        if !read_name(names, &mut name)? {
            break;
        }
        if !is_dots(name.as_slice()) {
            paths.push(joined(alloc, front, name.as_slice())?)?;
        }
    }
    Ok(paths)
}

// Whether the name is that of the folder itself, or of the one above it.
fn is_dots(name: &[u8]) -> bool {
    matches!(name, b"." | b"..")
}

fn joined(alloc: Global, front: &[u8], back: &[u8]) -> result::Result<Vec<u8>, AllocError> {
    let mut joined = Vec::new(alloc);
    joined.extend_from_slice(front)?;
    joined.extend_from_slice(back)?;
    Ok(joined)
}
