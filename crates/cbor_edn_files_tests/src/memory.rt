//! Files in memory, whose moments are known: they keep each change, and are proved to be a file system as [`Disk`] says.
ghost use Rattle.std.specs.Prelude.{◌≡◌, [], Some, None, IfOk, OnOk, OnErr, false, option_map};
ghost use Rattle.cbor_edn_files.specs.Moments.{newest};
ghost use Rattle.cbor_edn_files_tests.specs.Changes.{moments_of, IsMaking, IsRenaming, IsRemoval, IsOneMore};

use cbor_edn_files::disk::{Disk, MakeError};
use std::alloc::{AllocError, Global};
use std::io::{self, ErrorKind};

/// A change of what names have.
#[derive(Drop)]
pub enum Change {
    /// A file is made of these bytes.
    Made(String, Vec<u8>),
    /// The file of the first name gets the second one, in place of the file that had it.
    Renamed(String, String),
    /// A file is removed.
    Removed(String),
}

/// What a name has behind changes: the bytes of its file, or none.
pub fn bytes_behind<'a>(changes: &'a [Change], name: &'a str) -> Option<&'a [u8]>
    ensures { option_map (λ b. b.now) result ≡ newest (moments_of changes.now) name.now }
{
    let Some((last, earlier)) = changes.split_last() else {
        return None;
    };
    match last {
        Change::Made(made, bytes) => {
            if made.as_str() == name {
                Some(bytes.as_slice())
            } else {
                bytes_behind(earlier, name)
            }
        }
        Change::Renamed(from, to) => {
            if to.as_str() == name {
                bytes_behind(earlier, from.as_str())
            } else if from.as_str() == name {
                None
            } else {
                bytes_behind(earlier, name)
            }
        }
        Change::Removed(removed) => {
            if removed.as_str() == name {
                None
            } else {
                bytes_behind(earlier, name)
            }
        }
    }
}

/// Files in memory. So many calls fail, from the call of this number on; a file that is not made whole may be there in half.
#[derive(Drop)]
pub struct Memory {
    alloc: Global,
    changes: Vec<Change>,
    calls: usize,
    first: usize,
    failing: usize,
    half: bool,
}

impl Memory {
    /// No files, of which these calls fail.
    pub fn new(alloc: Global, first: usize, failing: usize, half: bool) -> Memory
        ensures { result.changes.items ≡ [] }
    {
        Memory {
            alloc,
            changes: Vec::new(alloc),
            calls: 0,
            first,
            failing,
            half,
        }
    }

    /// What a name has: the bytes of its file, or none.
    pub fn bytes<'a>(&'a self, name: &'a str) -> Option<&'a [u8]>
        ensures { option_map (λ b. b.now) result ≡ newest (moments_of self.now.changes.items) name.now }
    {
        bytes_behind(&self.changes, name)
    }

    /// Makes a file without a call that may fail.
    pub fn put(&mut self, name: &str, bytes: &[u8]) -> Result<(), AllocError>
        ensures made { OnOk result (IsOneMore (IsMaking name.now bytes.now) self.old.changes.items self.new.changes.items) }
        ensures refused { OnErr result (self.new.changes.items ≡ self.old.changes.items) }
    {
        let change = made(self.alloc, name, bytes)?;
        self.changes.push(change)?;
        Ok(())
    }

    /// Whether the call that is made now fails.
    fn fails(&mut self) -> bool
        ensures { self.new.changes.items ≡ self.old.changes.items }
    {
        let call = self.calls;
        self.calls = call.saturating_add(1);
        self.first <= call && call < self.first.saturating_add(self.failing)
    }

    fn has(&self, name: &str) -> bool
        ensures there { (result ≡ false) → newest (moments_of self.now.changes.items) name.now ≡ None }
    {
        self.bytes(name).is_some()
    }
}

fn made(alloc: Global, name: &str, bytes: &[u8]) -> Result<Change, AllocError>
    ensures { IfOk result (IsMaking name.now bytes.now) }
{
    Ok(Change::Made(
        String::from_str(alloc, name)?,
        Vec::from_slice(alloc, bytes)?,
    ))
}

fn renamed(alloc: Global, from: &str, to: &str) -> Result<Change, AllocError>
    ensures { IfOk result (IsRenaming from.now to.now) }
{
    Ok(Change::Renamed(String::from_str(alloc, from)?, String::from_str(alloc, to)?))
}

fn removed(alloc: Global, name: &str) -> Result<Change, AllocError>
    ensures { IfOk result (IsRemoval name.now) }
{
    Ok(Change::Removed(String::from_str(alloc, name)?))
}

fn broken() -> io::Error {
    io::Error::from(ErrorKind::Other)
}

impl Disk for Memory {
    ghost moments = { λ disk. Some (moments_of disk.changes.items) };

    fn make(&mut self, name: &str, _like: &str, bytes: &[u8]) -> Result<(), MakeError> {
        if self.has(name) {
            return Err(MakeError::Taken);
        }
        if !self.fails() {
            return match self.put(name, bytes) {
                Ok(()) => Ok(()),
                Err(AllocError) => Err(MakeError::Refused(broken())),
            };
        }
        if self.half && self.put(name, &bytes[..bytes.len() / 2]).is_ok() {
            return Err(MakeError::Failed(broken()));
        }
        Err(MakeError::Refused(broken()))
    }

    fn rename(&mut self, from: &str, to: &str) -> io::Result<()> {
        if self.fails() || !self.has(from) {
            return Err(broken());
        }
        let change = renamed(self.alloc, from, to)?;
        self.changes.push(change)?;
        Ok(())
    }

    fn remove(&mut self, name: &str) -> io::Result<()> {
        if self.fails() || !self.has(name) {
            return Err(broken());
        }
        let change = removed(self.alloc, name)?;
        self.changes.push(change)?;
        Ok(())
    }
}
