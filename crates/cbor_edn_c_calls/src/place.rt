//! Where a fault is.
ghost use Rattle.std.specs.Prelude.{◌≡◌};
ghost use Rattle.cbor_edn_c_calls.specs.Reports.{text_place};

use cbor_edn_parts::base::error::ParseError;

/// Where in an input a fault is.
#[derive(Clone, Copy)]
pub enum Place {
    /// Such a fault has no place.
    Nowhere,
    /// It has one, but memory to find it ran out.
    NotFound,
    /// At a byte of a text, from 0; the line and the column from 1. Columns count characters.
    InText {
        offset: usize,
        line: usize,
        column: usize,
    },
    /// At a byte of CBOR, from 0.
    InBytes {
        offset: usize,
    },
}

impl Place {
    /// The place that a refusal of a text says.
    pub fn of_text(error: &ParseError) -> Place
        ensures { result ≡ text_place error.now }
    {
        Place::InText {
            offset: error.offset(),
            line: error.line(),
            column: error.column(),
        }
    }
}
