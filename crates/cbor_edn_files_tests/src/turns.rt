//! Replacements of which each call fails in turn: the file has what it had or the new bytes, and a draft is left only where the error
//! names it.
use crate::memory::Memory;
use cbor_edn_expect::failures::Failures;
use cbor_edn_files::replace::{DRAFTS, ReplaceError, draft_name, replace};
use std::alloc::{AllocError, Global};
use std::test::Fail;

const FILE: &str = "f";

const DRAFT: &str = "f.cbor-edn-0";

const OLD: &[u8] = b"old";

const NEW: &[u8] = b"new bytes";

const OTHERS: &[u8] = b"another's";

fn has(disk: &Memory, name: &str, bytes: &[u8]) -> bool {
    match disk.bytes(name) {
        Some(found) => found == bytes,
        None => false,
    }
}

fn is_free(disk: &Memory, name: &str) -> bool {
    disk.bytes(name).is_none()
}

/// What came of a replacement, or `wrong` where names do not have what the answer says.
fn told(disk: &Memory, answer: &Result<(), ReplaceError>) -> &'static str {
    match answer {
        Ok(()) if has(disk, FILE, NEW) && is_free(disk, DRAFT) => "done",
        Err(ReplaceError::Io(_)) if has(disk, FILE, OLD) && is_free(disk, DRAFT) => "old",
        Err(ReplaceError::Left(_, draft))
            if draft.as_str() == DRAFT && has(disk, FILE, OLD) && !is_free(disk, DRAFT) => {
            "left"
        }
        _ => "wrong",
    }
}

/// What comes of it where so many calls fail, from one on.
fn tried(
    alloc: Global,
    first: usize,
    failing: usize,
    half: bool,
) -> Result<&'static str, AllocError> {
    let mut disk = Memory::new(alloc, first, failing, half);
    disk.put(FILE, OLD)?;
    let answer = replace(alloc, &mut disk, FILE, NEW);
    Ok(told(&disk, &answer))
}

/// The first call that fails, how many do, whether a file that is not made whole is there in half, and what comes of it. A draft is made
/// and renamed; behind a fault it is removed.
const TURNS: &[(usize, usize, bool, &str)] = &[
    (0, 0, false, "done"),
    // the draft is not made
    (0, 1, false, "old"),
    (0, 2, false, "old"),
    // it is not made whole, and removed or not
    (0, 1, true, "old"),
    (0, 2, true, "left"),
    // it is not renamed, and removed or not
    (1, 1, false, "old"),
    (1, 2, false, "left"),
    (1, 1, true, "old"),
    (1, 2, true, "left"),
    (2, 9, true, "done"),
];

#[test]
fn each_call_fails(rt: HostRuntime) -> Result<(), Fail> {
    let alloc = rt.alloc();
    let mut failures = Failures::new(alloc);
    for (first, failing, half, wanted) in TURNS {
        let row = format!(in alloc; "{first} {failing} {half}")?;
        let answer = tried(alloc, *first, *failing, *half)?;
        failures.row(alloc, &row, answer, wanted)?;
    }
    failures.end()
}

fn with_drafts(alloc: Global, count: u32) -> Result<Memory, AllocError> {
    let mut disk = Memory::new(alloc, 0, 0, false);
    disk.put(FILE, OLD)?;
    for number in 0..count {
        let draft = draft_name(alloc, FILE, number)?;
        disk.put(&draft, OTHERS)?;
    }
    Ok(disk)
}

/// Whether the drafts of others stay, and no other is left.
fn stay(alloc: Global, disk: &Memory, count: u32) -> Result<bool, AllocError> {
    for number in 0..count {
        if !has(disk, &draft_name(alloc, FILE, number)?, OTHERS) {
            return Ok(false);
        }
    }
    Ok(is_free(disk, &draft_name(alloc, FILE, count)?))
}

#[test]
fn drafts_of_others(rt: HostRuntime) -> Result<(), Fail> {
    let alloc = rt.alloc();
    let mut failures = Failures::new(alloc);
    let mut disk = with_drafts(alloc, 2)?;
    let answer = replace(alloc, &mut disk, FILE, NEW);
    failures.holds(
        alloc,
        "they are passed over",
        answer.is_ok() && has(&disk, FILE, NEW),
    )?;
    failures.holds(alloc, "and stay", stay(alloc, &disk, 2)?)?;
    let mut disk = with_drafts(alloc, DRAFTS)?;
    let answer = replace(alloc, &mut disk, FILE, NEW);
    let is_refused = matches!(answer, Err(ReplaceError::NoName)) && has(&disk, FILE, OLD);
    failures.holds(alloc, "no name is free", is_refused)?;
    failures.holds(alloc, "and all stay", stay(alloc, &disk, DRAFTS)?)?;
    failures.end()
}

/// A name, a number and the name of the draft, where each N stands for 120 bytes.
const NAMES: &[(&str, u32, &str)] = &[
    ("a.edn", 0, "a.edn.cbor-edn-0"),
    ("../d.d/a", 4294967295, "../d.d/a.cbor-edn-4294967295"),
    ("N", 7, "N.cbor-edn-7"),
    ("Nx", 7, "long-name.cbor-edn-7"),
    ("/d/N", 8, "/d/N.cbor-edn-8"),
    ("/d/Nx", 999, "/d/long-name.cbor-edn-999"),
    ("/Nx/e", 0, "/Nx/e.cbor-edn-0"),
    ("/Nx", 0, "/long-name.cbor-edn-0"),
];

/// A text with 120 bytes in place of each N.
fn with_long_parts(alloc: Global, text: &str) -> Result<String, AllocError> {
    let mut long = String::new(alloc);
    for c in text.chars() {
        if c == 'N' {
            for _ in 0..40 {
                long.push_str("\u{20ac}")?;
            }
        } else {
            long.push(c)?;
        }
    }
    Ok(long)
}

#[test]
fn names_of_drafts(rt: HostRuntime) -> Result<(), Fail> {
    let alloc = rt.alloc();
    let mut failures = Failures::new(alloc);
    for (name, number, wanted) in NAMES {
        let long = with_long_parts(alloc, name)?;
        let draft = draft_name(alloc, &long, *number)?;
        failures.row(alloc, name, &draft, &with_long_parts(alloc, wanted)?)?;
    }
    failures.end()
}
