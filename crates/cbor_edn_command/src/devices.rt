//! Where the bytes of a run come from and go to.
ghost use Rattle.std.specs.Prelude.{◌≡◌, ℕ, ◌+◌, ◌<◌, List, Option, IfOk, length, if◌then◌else◌, is_err};
ghost use Rattle.std.specs.Io.{ReadsAtMost, WritesAtMost};
ghost use Rattle.std.specs.Io.KnownBytes.{ReadConsumes, WriteAppends};

use crate::count::Count;
use std::io::{Read, Write};

/// A device that failed: a call gave or took no byte. It does not say why.
#[derive(Debug, Clone, Copy, PartialEq, Eq)]
pub struct DeviceFault;

/// Where bytes come from. A caller may implement it, as for a socket; [`StdSource`] is of any reader of std.
pub trait Source {
    /// The bytes that are left, where they are known.
    ghost remaining: { Self → Option (List ℕ) };

    /// How many calls failed so far.
    ghost failures: { Self → ℕ };

    /// How many calls succeeded since the last that failed, or since the beginning.
    ghost since: { Self → ℕ };

    /// Gives some bytes at the front of the buffer, and answers how many. `Ok(0)` for a buffer with room is the end of the input.
    fn read(&mut self, buffer: &mut [u8]) -> Result<usize, DeviceFault>
        ensures bound { ReadsAtMost result buffer.new }
        // A call that fails gave no byte.
        ensures bytes { ReadConsumes (remaining self.old) (remaining self.new) result buffer.new }
        ensures counted { failures self.new ≡ failures self.old + (if is_err result then 1 else 0) }
        ensures last { since self.new ≡ (if is_err result then 0 else since self.old + 1) };
}

/// Where bytes go. A caller may implement it, as for a socket; [`StdSink`] is of any writer of std.
pub trait Sink {
    /// The bytes that were taken, where they are known.
    ghost contents: { Self → Option (List ℕ) };

    /// How many calls failed so far.
    ghost failures: { Self → ℕ };

    /// How many calls succeeded since the last that failed, or since the beginning.
    ghost since: { Self → ℕ };

    /// Takes some bytes from the front, at least one, and answers how many. There are some to take: a sink that takes none has failed.
    fn write(&mut self, bytes: &[u8]) -> Result<usize, DeviceFault>
        requires { 0 < length bytes.now }
        ensures bound { WritesAtMost result bytes.now }
        ensures some { IfOk result (λ n. 0 < n) }
        // A call that fails took no byte.
        ensures bytes { WriteAppends (contents self.old) (contents self.new) result bytes.now }
        ensures counted { failures self.new ≡ failures self.old + (if is_err result then 1 else 0) }
        ensures last { since self.new ≡ (if is_err result then 0 else since self.old + 1) };
}

/// Any reader of std as a source. Its errors are told as [`DeviceFault`].
#[derive(Drop)]
pub struct StdSource<R> {
    inner: R,
    failed: Count,
    since: Count,
}

impl<R> StdSource<R> {
    /// A source that reads from here.
    pub fn new(inner: R) -> StdSource<R>
        ensures { (result.inner ≡ inner) × (result.failed.total ≡ 0) × (result.since.total ≡ 0) }
    {
        StdSource {
            inner,
            failed: Count::new(),
            since: Count::new(),
        }
    }
}

impl<R: Read> Source for StdSource<R> {
    ghost remaining = { λ s. R.remaining s.inner };

    ghost failures = { λ s. s.failed.total };

    ghost since = { λ s. s.since.total };

    fn read(&mut self, buffer: &mut [u8]) -> Result<usize, DeviceFault> {
        match self.inner.read(buffer) {
            Ok(n) => {
                self.since.raise();
                Ok(n)
            }
            Err(_) => {
                self.failed.raise();
                self.since = Count::new();
                Err(DeviceFault)
            }
        }
    }
}

/// Any writer of std as a sink. Its errors are told as [`DeviceFault`], and so is a write of no byte.
#[derive(Drop)]
pub struct StdSink<W> {
    inner: W,
    failed: Count,
    since: Count,
}

impl<W> StdSink<W> {
    /// A sink that writes to here. It has no buffer of its own.
    pub fn new(inner: W) -> StdSink<W>
        ensures { (result.inner ≡ inner) × (result.failed.total ≡ 0) × (result.since.total ≡ 0) }
    {
        StdSink {
            inner,
            failed: Count::new(),
            since: Count::new(),
        }
    }
}

impl<W> StdSink<W> {
    /// The writer, with what was written to it, and not flushed.
    pub fn into_inner(self) -> W
        ensures { result ≡ self.inner }
    {
        let StdSink {
            inner,
            failed: _,
            since: _,
        } = self;
        inner
    }
}

impl<W: Write> Sink for StdSink<W> {
    ghost contents = { λ s. W.contents s.inner };

    ghost failures = { λ s. s.failed.total };

    ghost since = { λ s. s.since.total };

    fn write(&mut self, bytes: &[u8]) -> Result<usize, DeviceFault> {
        match self.inner.write(bytes) {
            Ok(n) if n > 0 => {
                self.since.raise();
                Ok(n)
            }
            _ => {
                self.failed.raise();
                self.since = Count::new();
                Err(DeviceFault)
            }
        }
    }
}
