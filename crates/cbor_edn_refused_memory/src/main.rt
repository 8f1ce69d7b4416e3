//! Calls of trees, literals and lists of edits, one after the other, for a script that has each of their allocations refused in turn.
//!
//! Each call prints its name and what came of it: `done` where it answered as it must, `refused` where it answered want of memory and
//! left what it must, and `wrong` at any other answer. Those that take no memory print `ready` before it.
#![tactic(auto)]

mod acts;
mod answers;
mod callbacks;
mod change;
mod conversions;
mod edits;
mod free;
mod ready;
mod spaces;
mod trees;
mod wanted;

use crate::trees::Row;
use cbor_edn_expect::memory::word;
use std::io;

fn print_answers(rt: &HostRuntime) -> io::Result<()> {
    for row in wanted::ANSWERS {
        let told = word(answers::answered(rt.alloc(), row));
        println!(rt; "{}: {told}", row.0)?;
    }
    Ok(())
}

/// Prints that a row is ready, too: a script has all requests for memory refused from that line to the next.
fn print_free(rt: &HostRuntime) -> io::Result<()> {
    for row in free::FREE {
        let told = match ready::prepared(rt.alloc(), row) {
            Ok(ready) => {
                println!(rt; "{}: ready", row.0)?;
                word(free::called(rt.alloc(), ready))
            }
            Err(failure) => word(Err(failure)),
        };
        println!(rt; "{}: {told}", row.0)?;
    }
    Ok(())
}

fn print_changes(rt: &HostRuntime, rows: &[Row]) -> io::Result<()> {
    for row in rows {
        let told = word(trees::changed(rt.alloc(), row));
        println!(rt; "{}: {told}", row.0)?;
    }
    Ok(())
}

fn print_edits(rt: &HostRuntime) -> io::Result<()> {
    for script in edits::SCRIPTS {
        let told = word(edits::edited(rt.alloc(), script));
        println!(rt; "{}: {told}", script.name)?;
    }
    Ok(())
}

fn main(rt: HostRuntime) -> io::Result<()> {
    print_answers(&rt)?;
    print_free(&rt)?;
    print_changes(&rt, spaces::SPACES)?;
    print_changes(&rt, spaces::COMMENTS_AND_INDICATORS)?;
    print_changes(&rt, conversions::VISITS)?;
    print_changes(&rt, conversions::ACTS)?;
    print_edits(&rt)
}
