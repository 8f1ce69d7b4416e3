//! Runs of the commands, one after the other, for a script that has each of their allocations refused in turn.
//!
//! Each call prints its name and what came of it: `done` where it answered as it must, `refused` where it answered want of memory and
//! nothing was written, and `wrong` at any other answer. Those that take no memory print `ready` before it.
#![tactic(auto)]

mod files;
mod findings;
mod free;
mod lines;
mod runs;
mod served;

use cbor_edn_expect::memory::word;
use std::io;

fn print_runs(rt: &HostRuntime) -> io::Result<()> {
    for row in runs::RUNS {
        let told = word(runs::run_once(rt.alloc(), row));
        println!(rt; "{}: {told}", row.name)?;
    }
    for row in runs::CONVERTED {
        let told = word(runs::converted_once(rt.alloc(), row));
        println!(rt; "{}: {told}", row.name)?;
    }
    for row in runs::APART {
        let told = word(runs::converted_apart(rt.alloc(), row));
        println!(rt; "{}: {told}", row.0)?;
    }
    let told = word(runs::converted_long_array(rt.alloc()));
    println!(rt; "engine::converted, elements of a long array: {told}")?;
    for row in runs::PRINTED {
        let told = word(runs::printed_once(rt.alloc(), row));
        println!(rt; "{}: {told}", row.0)?;
    }
    for row in runs::TAKEN {
        let told = word(runs::steps_taken(rt.alloc(), row));
        println!(rt; "{}: {told}", row.0)?;
    }
    for row in runs::THERE_AND_BACK {
        let told = word(runs::recoded_bytes(rt.alloc(), row));
        println!(rt; "{}: {told}", row.0)?;
    }
    Ok(())
}

/// Prints that a row is ready, too: a script has all requests for memory refused from that line to the next.
fn print_free(rt: &HostRuntime) -> io::Result<()> {
    for row in free::FREE {
        println!(rt; "{}: ready", row.0)?;
        let told = word(free::called(rt.alloc(), row));
        println!(rt; "{}: {told}", row.0)?;
    }
    Ok(())
}

fn main(rt: HostRuntime) -> io::Result<()> {
    print_runs(&rt)?;
    for (name, call) in files::CALLS {
        let told = word(files::called(rt.alloc(), *call));
        println!(rt; "{name}: {told}")?;
    }
    for input in findings::INPUTS {
        let told = word(findings::found(rt.alloc(), input));
        println!(rt; "{}: {told}", input.name)?;
    }
    print_free(&rt)?;
    for row in served::SERVED {
        let told = word(served::serve_once(rt.alloc(), row));
        println!(rt; "{}: {told}", row.name)?;
    }
    for row in lines::LINES {
        let told = word(lines::read(rt.alloc(), row));
        println!(rt; "{}: {told}", row.0)?;
    }
    for row in lines::REPLACING {
        let told = word(lines::read_replacing(rt.alloc(), row));
        println!(rt; "{}: {told}", row.0)?;
    }
    Ok(())
}
