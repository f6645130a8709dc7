ghost use Rattle.std.specs.Prelude.{◌≡◌, false, true, is_err, IfSome, MatchResult, OnOk};
ghost use Rattle.std.specs.Io.{WritesAtMost};
ghost use Rattle.std.specs.Io.KnownBytes.{Appends, Keeps, WriteAppends};
ghost use Rattle.command_line.specs.Failures.{IsFailure, RemembersFailure};
ghost use Rattle.command_line.specs.StoppingWriter.{contents_of, inner_of, writing_failed};

use super::OutputFault;
use super::one_write::OneWrite;
use crate::failure::has_failed;
use std::fmt::Display;
use std::io;
use std::io::{ErrorKind, Write};

/// A writer that remembers whether a write failed, other than by an interruption, and from then on
/// passes nothing on to the writer within.
#[derive(Drop)]
pub struct StoppingWriter<W> {
    inner: W,
    failed: bool,
}

impl<W> StoppingWriter<W> {
    pub fn new(inner: W) -> StoppingWriter<W>
        ensures inner { inner_of result ≡ inner }
        ensures failed { writing_failed result ≡ false }
    {
        StoppingWriter {
            inner,
            failed: false,
        }
    }

    /// Whether a write failed.
    pub fn has_failed(&self) -> bool
        ensures { result ≡ writing_failed self.now }
    {
        self.failed
    }

    /// An error if a write has failed.
    fn ready(&self) -> io::Result<()>
        ensures { MatchResult result (λ _. writing_failed self.now ≡ false) (λ e. IsFailure e × (writing_failed self.now ≡ true)) }
    {
        if self.failed {
            return Err(io::Error::from(ErrorKind::BrokenPipe));
        }
        Ok(())
    }
}

impl<W: Write> StoppingWriter<W> {
    /// Writes all the bytes, and flushes.
    pub fn put(&mut self, bytes: &[u8]) -> Result<(), OutputFault>
        ensures written { OnOk result (Appends (contents_of W.contents self.old) (contents_of W.contents self.new) bytes.now) }
        ensures failed { writing_failed self.new ≡ is_err result }
        ensures stopped { writing_failed self.old ≡ true → self.new ≡ self.old }
    {
        self.ready()?;
        let written = self.write_all(bytes);
        self.settled(written)
    }

    /// Writes what is shown, and flushes.
    pub fn put_text<D: Display + Drop>(&mut self, text: D) -> Result<(), OutputFault>
        ensures written { OnOk result (IfSome (D.output text) (Appends (contents_of W.contents self.old) (contents_of W.contents self.new))) }
        ensures failed { writing_failed self.new ≡ is_err result }
        ensures stopped { writing_failed self.old ≡ true → self.new ≡ self.old }
    {
        self.ready()?;
        let written = self.write_fmt(text);
        self.settled(written)
    }

    /// Flushes what was written, and remembers whether the write or the flush failed.
    fn settled(&mut self, written: io::Result<()>) -> Result<(), OutputFault>
        ensures kept { Keeps (contents_of W.contents self.old) (contents_of W.contents self.new) }
        ensures failed { writing_failed self.new ≡ is_err result }
        ensures written { is_err written ≡ true → is_err result ≡ true }
    {
        let flushed = match written {
            Ok(()) => self.flush(),
            Err(e) => Err(e),
        };
        self.failed = flushed.is_err();
        Ok(flushed?)
    }
}

impl<W: OneWrite> Write for StoppingWriter<W> {
    ghost contents = { contents_of W.contents };

    fn write(&mut self, buf: &[u8]) -> io::Result<usize>
        ensures bound { WritesAtMost result buf.now }
        ensures bytes { WriteAppends (contents_of W.contents self.old) (contents_of W.contents self.new) result buf.now }
        ensures once { writing_failed self.old ≡ false → W.wrote (inner_of self.old) buf.now result (inner_of self.new) }
        ensures failed { RemembersFailure (writing_failed self.old) (writing_failed self.new) result }
        ensures stopped { writing_failed self.old ≡ true → inner_of self.new ≡ inner_of self.old }
    {
        self.ready()?;
        let result = self.inner.write_once(buf);
        self.failed = has_failed(&result);
        result
    }

    fn flush(&mut self) -> io::Result<()>
        ensures bytes { Keeps (contents_of W.contents self.old) (contents_of W.contents self.new) }
        ensures once { writing_failed self.old ≡ false → W.flushed (inner_of self.old) result (inner_of self.new) }
        ensures failed { RemembersFailure (writing_failed self.old) (writing_failed self.new) result }
        ensures stopped { writing_failed self.old ≡ true → inner_of self.new ≡ inner_of self.old }
    {
        self.ready()?;
        let result = self.inner.flush_once();
        self.failed = has_failed(&result);
        result
    }
}
