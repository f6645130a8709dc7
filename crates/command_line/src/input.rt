//! Reading the program's input within its limits.
ghost use Rattle.std.specs.Prelude.{◌≡◌, ◌≤◌, ◌<◌, true, IfSome, IfOk, IfErr, OnOk, vec_len};
ghost use Rattle.std.specs.Io.{ReadsAtMost};
ghost use Rattle.std.specs.Io.KnownBytes.{ReadConsumes, IsAtEnd};
ghost use Rattle.command_line.specs.CountedReader.{reads_of, reading_failed, remaining_of};
ghost use Rattle.command_line.specs.Limits.{input_limit, read_limit};
ghost use Rattle.command_line.specs.FaultTexts.{is_of_reading};
ghost use Rattle.command_line.specs.Input.{IsReadOf, TakesWithinLimit, AnswersFailure};

mod counted_reader;
mod one_read;

use crate::fault::Fault;
pub use counted_reader::{CountedReader, MAX_READS};
use std::alloc::Global;
use std::io::{ErrorKind, Read};

/// The most bytes of an input.
pub const MAX_INPUT: usize = 1_048_576;

/// How many bytes are asked of the reader at once.
const CHUNK: usize = 4096;

/// Reads to the end of the input, within [`MAX_INPUT`] bytes and [`MAX_READS`] reads.
///
/// `TooLong` is answered as soon as one byte more than the limit has come, and the reader is asked
/// for no more. An interrupted read is made again; another error, and an input that has not ended
/// after [`MAX_READS`] reads, is `Io`. A new reader that is never interrupted meets no such limit,
/// since each of its reads gives a byte.
pub fn read_input<R: Read>(alloc: Global, reader: &mut CountedReader<R>) -> Result<Vec<u8>, Fault>
    ensures limit { IfOk result (λ bytes. vec_len bytes ≤ input_limit) }
    ensures reads { reads_of reader.new ≤ read_limit }
    ensures failure { AnswersFailure (reading_failed reader.new) result }
    ensures fault { IfErr result (λ fault. is_of_reading fault ≡ true) }

    // If the reader's bytes are known.
    ensures input { IfSome (remaining_of R.remaining reader.old) (λ input. IsReadOf input result) }
    ensures end { OnOk result (IsAtEnd (remaining_of R.remaining reader.new)) }
    ensures taken { TakesWithinLimit (remaining_of R.remaining reader.old)
        (remaining_of R.remaining reader.new) (result ≡ Err Fault.TooLong) }
{
    let mut bytes = Vec::new(alloc);
    let mut chunk = [0u8; CHUNK];
    loop {
        let room = (MAX_INPUT + 1 - bytes.len()).min(CHUNK);
        let count = read_retrying(reader, &mut chunk[..room])?;
        if count == 0 {
            return Ok(bytes);
        }
        if count > MAX_INPUT - bytes.len() {
            return Err(Fault::TooLong);
        }
        bytes.extend_from_slice(&chunk[..count])?;
    }
}

/// One read, made again if it was interrupted.
fn read_retrying<R: Read>(reader: &mut CountedReader<R>, buffer: &mut [u8]) -> Result<usize, Fault>
    ensures bound { ReadsAtMost result buffer.new }
    ensures bytes { ReadConsumes (remaining_of R.remaining reader.old) (remaining_of R.remaining reader.new) result buffer.new }
    ensures failure { AnswersFailure (reading_failed reader.new) result }
    ensures fault { IfErr result (λ fault. fault ≡ Fault.Io) }
{
    loop {
        match reader.read(buffer) {
            Ok(count) => return Ok(count),
            Err(e) if e.kind() == ErrorKind::Interrupted => {}
            Err(_) => return Err(Fault::Io),
        }
    }
}
