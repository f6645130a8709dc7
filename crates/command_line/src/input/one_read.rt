ghost use Rattle.std.specs.Prelude.{ℕ, List, Result, ⊤};
ghost use Rattle.std.specs.Io.{ReadsAtMost};
ghost use Rattle.std.specs.Io.KnownBytes.{ReadConsumes};
ghost use Rattle.std.specs.declared.io.Error.{Error};

use std::io;
use std::io::Read;

/// A reader, with a word for one read of it: what wraps a reader says by `made` that it makes one read and hands on its answer.
/// The word has no meaning of its own, so nothing but a read shows it.
pub trait OneRead: Read {
    // The reader before, its answer, the buffer, and the reader after.
    ghost made: { Self → Result ℕ Error → List ℕ → Self → Type 0 };

    fn read_once(&mut self, buf: &mut [u8]) -> io::Result<usize>
        ensures bound { ReadsAtMost result buf.new }
        ensures bytes { ReadConsumes (Self.remaining self.old) (Self.remaining self.new) result buf.new }
        ensures made { made self.old result buf.new self.new };
}

impl<R: Read> OneRead for R {
    ghost made = { λ before answer buffer after. ⊤ };

    fn read_once(&mut self, buf: &mut [u8]) -> io::Result<usize> {
        self.read(buf)
    }
}
