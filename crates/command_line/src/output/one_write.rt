ghost use Rattle.std.specs.Prelude.{ℕ, List, Result, ⊤};
ghost use Rattle.std.specs.Io.{WritesAtMost};
ghost use Rattle.std.specs.Io.KnownBytes.{Keeps, WriteAppends};
ghost use Rattle.std.specs.declared.io.Error.{Error};

use std::io;
use std::io::Write;

/// A writer, with words for one write and one flush of it: what wraps a writer says by them that it makes one and hands on its
/// answer. The words have no meaning of their own, so nothing but a write or a flush shows them.
pub trait OneWrite: Write {
    // The writer before, the bytes that it was given, its answer, and the writer after.
    ghost wrote: { Self → List ℕ → Result ℕ Error → Self → Type 0 };

    // The writer before, its answer, and the writer after.
    ghost flushed: { Self → Result (Unit {0}) Error → Self → Type 0 };

    fn write_once(&mut self, buf: &[u8]) -> io::Result<usize>
        ensures bound { WritesAtMost result buf.now }
        ensures bytes { WriteAppends (Self.contents self.old) (Self.contents self.new) result buf.now }
        ensures wrote { wrote self.old buf.now result self.new };

    fn flush_once(&mut self) -> io::Result<()>
        ensures bytes { Keeps (Self.contents self.old) (Self.contents self.new) }
        ensures flushed { flushed self.old result self.new };
}

impl<W: Write> OneWrite for W {
    ghost wrote = { λ before bytes answer after. ⊤ };

    ghost flushed = { λ before answer after. ⊤ };

    fn write_once(&mut self, buf: &[u8]) -> io::Result<usize> {
        self.write(buf)
    }

    fn flush_once(&mut self) -> io::Result<()> {
        self.flush()
    }
}
