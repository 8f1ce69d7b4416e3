//! Indicators and labels as texts.
ghost use Rattle.std.specs.Prelude.{◌≡◌, ◌++◌, OnOk};
ghost use Rattle.cbor_edn_parts.specs.base.Buffer.{buffer_bytes};
ghost use Rattle.cbor_edn_parts.specs.base.Indicator.{indicator_text};
ghost use Rattle.cbor_edn_model.specs.tree.Trees.{opener_text};

use crate::text::opener::OpenerKind;
use cbor_edn_parts::base::buffer::TextBuffer;
use cbor_edn_parts::base::indicator::Indicator;
use std::alloc::AllocError;

/// Writes an encoding indicator with its underscore at the end of a text, if there is one. Fails where memory runs out.
pub fn print_indicator(out: &mut TextBuffer, indicator: Option<Indicator>) -> Result<(), AllocError>
    ensures { OnOk result (buffer_bytes out.new ≡ buffer_bytes out.old ++ indicator_text indicator) }
{
    match indicator {
        None => Ok(()),
        Some(indicator) => out.push_str(indicator.as_str()),
    }
}

/// Writes a label at the end of a text: `1_0` or `simple`. Fails where memory runs out, and a part of it may stand then.
pub fn print_opener(out: &mut TextBuffer, opener: OpenerKind) -> Result<(), AllocError>
    ensures { OnOk result (buffer_bytes out.new ≡ buffer_bytes out.old ++ opener_text opener) }
{
    match opener {
        OpenerKind::Tag(indicator, number) => {
            out.push_str(itoa::Buffer::new().format(number))?;
            print_indicator(out, indicator)
        }
        OpenerKind::Simple => out.push_str("simple"),
    }
}
