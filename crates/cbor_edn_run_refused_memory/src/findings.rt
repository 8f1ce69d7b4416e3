//! What is found at fault in an input, and the lines that tell so.
use cbor_edn::NESTING_LIMIT;
use cbor_edn::file_options::CheckOptions;
use cbor_edn_expect::memory::Failure;
use cbor_edn_findings::finding::in_input;
use cbor_edn_findings::shown::lines;
use std::alloc::Global;

/// An input by its name, whether it is CBOR, and the lines, of which there are none where it is as it should be.
pub(crate) struct Input {
    pub(crate) name: &'static str,
    cbor: bool,
    bytes: &'static [u8],
    lines: &'static str,
}

/// The inputs. The byte of CBOR is that of the head which RFC 8949, section 3.3 or the scope of EDN refuses.
pub(crate) const INPUTS: &[Input] = &[
    Input {
        name: "finding::in_input, well",
        cbor: false,
        bytes: b"[1, 2]",
        lines: "",
    },
    Input {
        name: "finding::in_input, no EDN",
        cbor: false,
        bytes: b"[1,\n 2",
        lines: "f:2:3: Invalid EDN\n 2\n  ^\n",
    },
    Input {
        name: "finding::in_input, no encoding",
        cbor: false,
        bytes: b"[dt'1970-01-01T00:00:23Z', {1: <<2, 1.5>>}]",
        lines: "f:1:37: Number has no encoding\n[dt'1970-01-01T00:00:23Z', {1: <<2, 1.5>>}]\n                                    ^\n",
    },
    Input {
        name: "finding::in_input, no UTF-8",
        cbor: false,
        bytes: b"a\x1b\xff",
        lines: "f:1:3: Not UTF-8\na<U+001B>\n         ^\n",
    },
    Input {
        name: "finding::in_input, no CBOR",
        cbor: true,
        bytes: b"\x82\x01\xbf\x62ab\xf8\x18",
        lines: "f: Invalid simple value (byte 6)\n",
    },
];

/// Looks at an input.
pub(crate) fn found(alloc: Global, input: &Input) -> Result<bool, Failure> {
    let options = CheckOptions {
        apply_999: false,
        cbor: false,
        limit: NESTING_LIMIT,
    };
    let steps = options.steps(input.cbor);
    match in_input(alloc, &steps, input.bytes)? {
        Some(finding) => {
            let told = lines(alloc, "f", input.bytes, &finding)?;
            Ok(told.as_str() == input.lines)
        }
        None => Ok(input.lines.is_empty()),
    }
}
