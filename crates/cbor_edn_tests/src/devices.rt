//! Devices that move few bytes a call, fail at one call and count their calls: of a run, and of std below its devices.
ghost use Rattle.std.specs.Prelude.{◌≡◌, None, IfOk};

use cbor_edn::engine::{Count, DeviceFault, Sink, Source};
use std::alloc::Global;
use std::io;

/// Gives a text a few bytes a call, fails at one call, and counts the calls.
#[derive(Drop)]
pub(crate) struct SlowSource<'a> {
    rest: &'a [u8],
    step: usize,
    calls_before_fault: Option<usize>,
    pub(crate) calls: usize,
    failed: Count,
    since: Count,
}

impl<'a> SlowSource<'a> {
    pub(crate) fn new(
        rest: &'a [u8],
        step: usize,
        calls_before_fault: Option<usize>,
    ) -> SlowSource<'a> {
        SlowSource {
            rest,
            step,
            calls_before_fault,
            calls: 0,
            failed: Count::new(),
            since: Count::new(),
        }
    }
}

impl<'a> Source for SlowSource<'a> {
    ghost remaining = { λ _. None };

    ghost failures = { λ s. s.failed.total };

    ghost since = { λ s. s.since.total };

    fn read(&mut self, buffer: &mut [u8]) -> Result<usize, DeviceFault> {
        self.calls = self.calls.saturating_add(1);
        if counts_down(&mut self.calls_before_fault) {
            self.failed.raise();
            self.since = Count::new();
            return Err(DeviceFault);
        }
        let n = self.step.min(self.rest.len()).min(buffer.len());
        let (front, rest) = self.rest.split_at(n);
        buffer[..n].copy_from_slice(front);
        self.rest = rest;
        self.since.raise();
        Ok(n)
    }
}

/// Takes a few bytes a call, fails at one call, and counts the calls.
#[derive(Drop)]
pub(crate) struct SlowSink {
    pub(crate) taken: Vec<u8>,
    step: usize,
    calls_before_fault: Option<usize>,
    pub(crate) calls: usize,
    failed: Count,
    since: Count,
}

impl SlowSink {
    pub(crate) fn new(alloc: Global, step: usize, calls_before_fault: Option<usize>) -> SlowSink {
        SlowSink {
            taken: Vec::new(alloc),
            step: step.max(1),
            calls_before_fault,
            calls: 0,
            failed: Count::new(),
            since: Count::new(),
        }
    }
}

impl Sink for SlowSink {
    ghost contents = { λ _. None };

    ghost failures = { λ s. s.failed.total };

    ghost since = { λ s. s.since.total };

    fn write(&mut self, bytes: &[u8]) -> Result<usize, DeviceFault> {
        self.calls = self.calls.saturating_add(1);
        let n = self.step.min(bytes.len());
        if n == 0
            || counts_down(&mut self.calls_before_fault)
            || self.taken.extend_from_slice(&bytes[..n]).is_err()
        {
            self.failed.raise();
            self.since = Count::new();
            return Err(DeviceFault);
        }
        self.since.raise();
        Ok(n)
    }
}

/// Whether the count is at its end; else it is one lower from then on.
fn counts_down(count: &mut Option<usize>) -> bool {
    match *count {
        None => false,
        Some(n) => {
            *count = n.checked_sub(1);
            n == 0
        }
    }
}

/// How a call of a device of std fails.
#[derive(Clone, Copy, Debug)]
pub(crate) enum Failure {
    Broken,
    Interrupted,
    /// It takes no byte; a reader that gives none is at its end.
    TakesNone,
}

impl Failure {
    fn answer(self) -> io::Result<usize>
        ensures { IfOk result (λ n. n ≡ 0) }
    {
        match self {
            Failure::Broken => Err(io::Error::from(io::ErrorKind::BrokenPipe)),
            Failure::Interrupted => Err(io::Error::from(io::ErrorKind::Interrupted)),
            Failure::TakesNone => Ok(0),
        }
    }
}

/// Gives a text a few bytes a call, but at one call, and counts the calls.
#[derive(Drop)]
pub(crate) struct SlowReader<'a> {
    rest: &'a [u8],
    step: usize,
    failure: Failure,
    calls_before_fault: usize,
    pub(crate) calls: usize,
}

impl<'a> SlowReader<'a> {
    pub(crate) fn new(
        rest: &'a [u8],
        step: usize,
        failure: Failure,
        calls_before_fault: usize,
    ) -> SlowReader<'a> {
        SlowReader {
            rest,
            step,
            failure,
            calls_before_fault,
            calls: 0,
        }
    }
}

impl<'a> io::Read for SlowReader<'a> {
    fn read(&mut self, buffer: &mut [u8]) -> io::Result<usize> {
        let is_fault = self.calls == self.calls_before_fault;
        self.calls = self.calls.saturating_add(1);
        if is_fault {
            return self.failure.answer();
        }
        let n = self.step.min(self.rest.len()).min(buffer.len());
        let (front, rest) = self.rest.split_at(n);
        buffer[..n].copy_from_slice(front);
        self.rest = rest;
        Ok(n)
    }
}

/// Takes a byte a call, but at one call, and counts the calls.
#[derive(Drop)]
pub(crate) struct SlowWriter {
    pub(crate) taken: Vec<u8>,
    failure: Failure,
    calls_before_fault: usize,
    pub(crate) calls: usize,
}

impl SlowWriter {
    pub(crate) fn new(alloc: Global, failure: Failure, calls_before_fault: usize) -> SlowWriter {
        SlowWriter {
            taken: Vec::new(alloc),
            failure,
            calls_before_fault,
            calls: 0,
        }
    }
}

impl io::Write for SlowWriter {
    fn write(&mut self, bytes: &[u8]) -> io::Result<usize> {
        let is_fault = self.calls == self.calls_before_fault;
        self.calls = self.calls.saturating_add(1);
        if is_fault {
            return self.failure.answer();
        }
        let n = bytes.len().min(1);
        self.taken.extend_from_slice(&bytes[..n])?;
        Ok(n)
    }

    fn flush(&mut self) -> io::Result<()> {
        Ok(())
    }
}
