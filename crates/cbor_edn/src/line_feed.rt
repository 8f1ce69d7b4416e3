//! Line feeds at the end of texts.
ghost use Rattle.std.specs.Prelude.{◌≡◌, OnOk};
ghost use Rattle.cbor_edn.specs.Format.{ended, is_ended as ends};

use std::alloc::AllocError;

/// Puts a line feed behind a text that has none at its end, unless it is empty.
pub(crate) fn end_line(text: &mut Vec<u8>) -> Result<(), AllocError>
    ensures { OnOk result (text.new.items ≡ ended text.old.items) }
{
    if !is_ended(text) {
        text.push(b'\n')?;
    }
    Ok(())
}

fn is_ended(text: &[u8]) -> bool
    ensures { result ≡ ends text.now }
{
    match text.last() {
        Some(byte) => *byte == b'\n',
        None => true,
    }
}
