use command_line::{CountedReader, Status, StoppingWriter, run};
use std::alloc::Global;
use std::io;
use std::io::{ErrorKind, Read, Write};
use std::test::Fail;

/// Gives at most two bytes a read, and fails at read number `failing`; numbers begin at 1.
#[derive(Drop)]
struct FakeReader<'a> {
    rest: &'a [u8],
    failing: usize,
    calls: usize,
}

impl Read for FakeReader<'_> {
    fn read(&mut self, buf: &mut [u8]) -> io::Result<usize> {
        self.calls = self.calls.saturating_add(1);
        if self.calls == self.failing {
            return Err(io::Error::from(ErrorKind::Other));
        }
        let count = buf.len().min(2).min(self.rest.len());
        let (given, rest) = self.rest.split_at(count);
        buf[..count].copy_from_slice(given);
        self.rest = rest;
        Ok(count)
    }
}

/// Has room for some bytes, three a write at most, and counts the calls after a failed one.
#[derive(Drop)]
struct FakeWriter {
    room: usize,
    has_failed: bool,
    later_calls: usize,
}

impl Write for FakeWriter {
    fn write(&mut self, buf: &[u8]) -> io::Result<usize> {
        if self.has_failed {
            self.later_calls = self.later_calls.saturating_add(1);
        }
        let count = buf.len().min(3).min(self.room);
        if count == 0 {
            self.has_failed = true;
            return Err(io::Error::from(ErrorKind::BrokenPipe));
        }
        self.room -= count;
        Ok(count)
    }

    fn flush(&mut self) -> io::Result<()> {
        Ok(())
    }
}

/// Runs `inventory` on a reader and a writer, which may fail.
fn inventory<R: Read + Drop, W: Write + Drop>(
    alloc: Global,
    reader: R,
    writer: W,
) -> Result<Status, Fail> {
    let mut words = Vec::new(alloc);
    for word in ["cmisctl", "inventory"] {
        words.push(String::from_str(alloc, word)?)?;
    }
    let mut reader = CountedReader::new(reader);
    let mut writer = StoppingWriter::new(writer);
    let mut errors = StoppingWriter::new(Vec::new(alloc));
    Ok(run(
        alloc,
        Ok(words),
        false,
        &mut reader,
        &mut writer,
        &mut errors,
    ))
}

#[test]
fn words_that_cannot_be_read_are_refused(rt: HostRuntime) -> Result<(), Fail> {
    let foreign = "error: a word of the command line is not UTF-8\n";
    for (kind, ends, text) in [
        (ErrorKind::InvalidData, Status::CommandLine, foreign),
        (ErrorKind::OutOfMemory, Status::Memory, "fault memory\n"),
    ] {
        let mut written = Vec::new(rt.alloc());
        let mut reader = CountedReader::new(b"an input".as_slice());
        let mut writer = StoppingWriter::new(&mut written);
        let words = Err(io::Error::from(kind));
        let mut errors = StoppingWriter::new(Vec::new(rt.alloc()));
        let ended = run(
            rt.alloc(),
            words,
            false,
            &mut reader,
            &mut writer,
            &mut errors,
        );
        assert_eq!(rt; ended, ends);
        assert_eq!(rt; reader.reads(), 0);
        assert_eq!(rt; written.as_slice(), text.as_bytes());
    }
    Ok(())
}

#[test]
fn a_failed_read_is_said(rt: HostRuntime) -> Result<(), Fail> {
    // 8 bytes take four reads, and a fifth finds the end.
    for failing in 1..=5 {
        let mut fake = FakeReader {
            rest: b"an input",
            failing,
            calls: 0,
        };
        let mut written = Vec::new(rt.alloc());
        let ends = inventory(rt.alloc(), &mut fake, &mut written)?;
        assert_eq!(rt; ends, Status::ReadOrWrite);
        assert_eq!(rt; written.as_slice(), b"fault IO\n".as_slice());
        assert_eq!(rt; fake.calls, failing);
    }
    Ok(())
}

#[test]
fn nothing_is_written_after_a_failed_write(rt: HostRuntime) -> Result<(), Fail> {
    // What is written is the line 'fault IM1', ten bytes with its LF.
    for room in 0..10 {
        let mut writer = FakeWriter {
            room,
            has_failed: false,
            later_calls: 0,
        };
        let ends = inventory(rt.alloc(), b"no image".as_slice(), &mut writer)?;
        assert_eq!(rt; ends, Status::ReadOrWrite);
        assert_eq!(rt; (writer.room, writer.later_calls), (0, 0));
    }
    Ok(())
}
