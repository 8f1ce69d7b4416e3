//! `check`: files that are EDN with an encoding, or CBOR.

use super::bytes_of;
use super::told::{Told, tell_finding, tell_no_memory};
use cbor_edn::file_options::CheckOptions;
use cbor_edn_findings::finding::in_input;

/// Looks at a file. Nothing is told where it is as it should be.
pub(super) fn check_file(rt: &HostRuntime, options: &CheckOptions, name: &str) -> Result<(), Told> {
    let bytes = bytes_of(rt, name)?;
    let steps = options.steps(options.cbor || name.ends_with(".cbor"));
    match in_input(rt.alloc(), &steps, &bytes) {
        Ok(None) => Ok(()),
        Ok(Some(finding)) => Err(tell_finding(rt, name, &bytes, &finding)),
        Err(_) => Err(tell_no_memory(rt, name)),
    }
}
