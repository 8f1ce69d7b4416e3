//! `fmt`: EDN in place.

use super::show::write;
use super::told::{Told, spoken, tell, tell_lost, tell_refused};
use super::whole::{plain_file, put};
use super::{bytes_behind, bytes_of};
use cbor_edn::format::{FormatOptions, formatted};

/// Lays out a file in place, or standard input to standard output.
pub(super) fn format_file(
    rt: &HostRuntime,
    options: &FormatOptions,
    name: &str,
) -> Result<(), Told> {
    if name == "-" {
        return format_input(rt, options);
    }
    let target = plain_file(rt, name)?;
    let bytes = bytes_behind(rt, name, target.as_str())?;
    if !options.force {
        if let Some(words) = why_no_edn(name, &bytes) {
            return Err(tell(rt, name, words));
        }
    }
    let text = text_of(rt, options, name, &bytes)?;
    if text == bytes {
        return Ok(());
    }
    if options.only_lists {
        return Err(list(rt, name));
    }
    put(rt, name, target.as_str(), &text)?;
    let _ = tell(rt, name, "Laid out");
    Ok(())
}

/// Why a file is none to lay out, whatever the grammar says of it.
fn why_no_edn(name: &str, bytes: &[u8]) -> Option<&'static str> {
    if name.ends_with(".cbor") {
        Some("Named as CBOR, not as EDN: --force lays it out")
    } else if bytes.contains(&0) {
        Some("No text: it holds a NUL byte")
    } else if str::from_utf8(bytes).is_err() {
        Some("No text: it is not UTF-8")
    } else {
        None
    }
}

fn text_of(
    rt: &HostRuntime,
    options: &FormatOptions,
    name: &str,
    bytes: &[u8],
) -> Result<Vec<u8>, Told> {
    formatted(rt.alloc(), options, bytes).map_err(|fault| tell_refused(
        rt,
        name,
        &options.steps(),
        bytes,
        fault,
    ))
}

fn format_input(rt: &HostRuntime, options: &FormatOptions) -> Result<(), Told> {
    let bytes = bytes_of(rt, "-")?;
    let text = text_of(rt, options, "-", &bytes)?;
    if !options.only_lists {
        return write(rt, &text);
    }
    if text == bytes {
        Ok(())
    } else {
        Err(list(rt, spoken("-")))
    }
}

/// Lists a file that would change, by its name as it was given: a program may read it.
fn list(rt: &HostRuntime, name: &str) -> Told {
    match println!(rt; "{name}") {
        Ok(()) => Told::OfFile,
        Err(error) => tell_lost(rt, &error),
    }
}
