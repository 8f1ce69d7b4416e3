//! Runs as a program does them, with what stands in the sink and in that of faults.
use crate::runs::{options_of, roomy_sink};
use cbor_edn::engine::{Command, StdSource, serve};
use cbor_edn_expect::memory::Failure;
use std::alloc::Global;

/// A run, of which a fault is told by a line.
pub(crate) struct Service {
    pub(crate) name: &'static str,
    command: Command,
    input: &'static [u8],
    output: &'static [u8],
    line: &'static [u8],
}

/// Outputs and statuses by the repository's `README.md`, lines by the messages of the faults.
pub(crate) const SERVED: &[Service] = &[
    Service {
        name: "engine::serve",
        command: Command::Diag2Diag,
        input: b"1 / one /,2",
        output: b"1,\n2\n",
        line: b"",
    },
    Service {
        name: "engine::serve, no UTF-8",
        command: Command::Diag2Cbor,
        input: b"\xff",
        output: b"",
        line: b"cbor-edn: Error processing input file\n",
    },
    Service {
        name: "engine::serve, no EDN",
        command: Command::Diag2Diag,
        input: b"[,]",
        output: b"",
        line: b"cbor-edn: Error parsing input data: Invalid EDN in line 1 column 2 (byte 1)\n",
    },
    Service {
        name: "engine::serve, no encoding",
        command: Command::Diag2Cbor,
        input: b"[1, 1.0]",
        output: b"",
        line: b"cbor-edn: Error encoding output data: Number has no encoding\n",
    },
    Service {
        name: "engine::serve, no digits",
        command: Command::Cbor2Diag,
        input: b"1g",
        output: b"",
        line: b"cbor-edn: Error decoding hexadecimal input\n",
    },
    Service {
        name: "engine::serve, no CBOR",
        command: Command::Cbor2Diag,
        input: b"82 01",
        output: b"",
        line: b"cbor-edn: Error decoding input data: Expected item, out of data\n",
    },
];

const OUT_OF_MEMORY: &[u8] = b"cbor-edn: Out of memory\n";

/// Makes a run. Where memory was refused nothing may have been written, and a line is given up where it is refused for that.
pub(crate) fn serve_once(alloc: Global, row: &Service) -> Result<bool, Failure> {
    let mut sink_of_run = roomy_sink(alloc)?;
    let mut sink_of_faults = roomy_sink(alloc)?;
    let status = serve(
        alloc,
        &options_of(row.command, true, false),
        &mut StdSource::new(row.input),
        &mut sink_of_run,
        &mut sink_of_faults,
    );
    let written = sink_of_run.into_inner();
    let told = sink_of_faults.into_inner();
    if status == u8::from(!row.line.is_empty())
        && written.as_slice() == row.output
        && told.as_slice() == row.line
    {
        return Ok(true);
    }
    if status == 1 && written.is_empty() && (told.is_empty() || told.as_slice() == OUT_OF_MEMORY) {
        return Err(Failure::Refused);
    }
    Ok(false)
}
