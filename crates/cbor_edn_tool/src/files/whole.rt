//! Files that are replaced whole, and the files behind links.

use super::told::{Told, tell, tell_error, tell_no_memory};
use cbor_edn_files::disk::StdDisk;
use cbor_edn_files::replace::{ReplaceError, replace};
use std::fs::{self, OpenOptions};
use std::io::{self, ErrorKind};
use std::path::{Path, PathBuf};

/// How many links a name may lead through, as Linux has it.
const MOST_LINKS: usize = 40;

/// The file behind links, which stay: the name as it was given, where it is no link. It is told unless it is a plain file.
pub(super) fn plain_file(rt: &HostRuntime, name: &str) -> Result<PathBuf, Told> {
    match fs::metadata(rt, name) {
        Ok(metadata) if metadata.is_file() => behind_links(rt, name),
        Ok(metadata) if metadata.is_dir() => Err(tell(rt, name, "Is a directory")),
        Ok(_) => Err(tell(rt, name, "Not a regular file")),
        Err(error) => Err(tell_error(rt, name, &error)),
    }
}

fn behind_links(rt: &HostRuntime, name: &str) -> Result<PathBuf, Told> {
    last_of_links(rt, name).map_err(|error| tell_unnamed(rt, name, &error))
}

/// The name behind links, of which there may be no file.
fn last_of_links(rt: &HostRuntime, name: &str) -> io::Result<PathBuf> {
    let mut path = PathBuf::from_str(rt.alloc(), name)?;
    for _ in 0..MOST_LINKS {
        match fs::symlink_metadata(rt, path.as_str()) {
            Ok(metadata) if metadata.is_symlink() => {}
            Err(error) if error.kind() != ErrorKind::NotFound => return Err(error),
            _ => return Ok(path),
        }
        let next = fs::read_link(rt, path.as_str())?;
        path.pop();
        path.push(next.as_str())?;
    }
    Err(io::Error::from(ErrorKind::FilesystemLoop))
}

/// Tells of a link whose file has a name that no call here takes.
fn tell_unnamed(rt: &HostRuntime, name: &str, error: &io::Error) -> Told {
    if error.kind() == ErrorKind::InvalidFilename {
        return tell(rt, name, "A link to a name that is not UTF-8");
    }
    tell_error(rt, name, error)
}

/// Puts a text in place of a file, which is told by another name. One that may not be written stays, though its folder would allow that
/// it is replaced.
pub(super) fn put(rt: &HostRuntime, name: &str, target: &str, text: &[u8]) -> Result<(), Told> {
    let mut options = OpenOptions::new();
    options.write(true);
    if let Err(error) = options.open(rt, target) {
        return Err(tell_error(rt, name, &error));
    }
    put_over(rt, name, target, text)
}

/// The same with any bytes and for a file that need not be there, told by the name that it is given.
pub(crate) fn put_output(rt: &HostRuntime, name: &str, bytes: &[u8]) -> Result<(), Told> {
    match fs::metadata(rt, name) {
        Err(error) if error.kind() == ErrorKind::NotFound => {
            put_over(rt, name, behind_links(rt, name)?.as_str(), bytes)
        }
        _ => put(rt, name, plain_file(rt, name)?.as_str(), bytes),
    }
}

fn put_over(rt: &HostRuntime, name: &str, target: &str, bytes: &[u8]) -> Result<(), Told> {
    match replace(rt.alloc(), &mut StdDisk::new(rt), target, bytes) {
        Ok(()) => Ok(()),
        Err(error) => Err(tell_not_replaced(rt, name, &error)),
    }
}

fn tell_not_replaced(rt: &HostRuntime, name: &str, error: &ReplaceError) -> Told {
    match error {
        ReplaceError::Io(error) => tell_error(rt, name, error),
        ReplaceError::Left(error, draft) => {
            let _ = tell(rt, draft, "Error removing draft");
            tell_error(rt, name, error)
        }
        ReplaceError::NoName => tell(rt, name, "No name for a draft is free"),
        ReplaceError::Memory(_) => tell_no_memory(rt, name),
    }
}
