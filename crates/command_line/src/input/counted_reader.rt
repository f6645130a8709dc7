ghost use Rattle.std.specs.Prelude.{◌≡◌, ◌≤◌, ◌+◌, min, false, true};
ghost use Rattle.std.specs.Io.{ReadsAtMost};
ghost use Rattle.std.specs.Io.KnownBytes.{ReadConsumes};
ghost use Rattle.command_line.specs.Limits.{read_limit};

use super::one_read::OneRead;
use crate::failure::has_failed;
use std::io;
use std::io::{ErrorKind, Read};

/// The most reads that are made of one reader.
pub const MAX_READS: u64 = 2_097_152;

/// A reader that counts its reads. Once one has failed, other than by an interruption, and after [`MAX_READS`] reads, each
/// further one fails, and the reader within is not read.
#[derive(Drop)]
pub struct CountedReader<R> {
    inner: R,
    reads: u64,
    failed: bool,
    ghost limited: { reads ≤ read_limit },
}

impl<R> CountedReader<R> {
    ghost use Rattle.command_line.specs.CountedReader.{inner_of, reads_of, reading_failed};

    pub fn new(inner: R) -> CountedReader<R>
        ensures inner { inner_of result ≡ inner }
        ensures reads { reads_of result ≡ 0 }
        ensures failed { reading_failed result ≡ false }
    {
        CountedReader {
            inner,
            reads: 0,
            failed: false,
        }
    }

    /// How many reads were made.
    pub fn reads(&self) -> u64
        ensures { result ≡ reads_of self.now }
    {
        self.reads
    }
}

impl<R: OneRead> Read for CountedReader<R> {
    ghost use Rattle.command_line.specs.CountedReader.{inner_of, reads_of, reading_failed, remaining_of, IsSpent};
    ghost use Rattle.command_line.specs.Failures.{RemembersFailure};

    ghost remaining = { remaining_of R.remaining };

    fn read(&mut self, buf: &mut [u8]) -> io::Result<usize>
        ensures bound { ReadsAtMost result buf.new }
        ensures bytes { ReadConsumes (remaining_of R.remaining self.old) (remaining_of R.remaining self.new) result buf.new }
        ensures failed { RemembersFailure (reading_failed self.old) (reading_failed self.new) result }
        ensures once { ¬ (IsSpent self.old) → R.made (inner_of self.old) result buf.new (inner_of self.new) }
        ensures counted { reading_failed self.old ≡ false → reads_of self.new ≡ min (reads_of self.old + 1) read_limit }
        ensures stopped { IsSpent self.old → (inner_of self.new ≡ inner_of self.old) × (reads_of self.new ≡ reads_of self.old) × (reading_failed self.new ≡ true) }
    {
        if self.failed || self.reads == MAX_READS {
            self.failed = true;
            return Err(io::Error::from(ErrorKind::TimedOut));
        }
        self.reads += 1;
        let result = self.inner.read_once(buf);
        self.failed = has_failed(&result);
        result
    }
}
