use command_line::StoppingWriter;
use std::io;
use std::io::{ErrorKind, Write};
use std::test::Fail;

/// Takes `room` bytes, two a write, and then fails; `flushes` says whether a flush succeeds.
#[derive(Drop)]
struct FakeWriter {
    room: usize,
    flushes: bool,
    has_failed: bool,
    was_tried_again: bool,
}

impl Write for FakeWriter {
    fn write(&mut self, buf: &[u8]) -> io::Result<usize> {
        if self.has_failed {
            self.was_tried_again = true;
        }
        if self.room == 0 {
            self.has_failed = true;
            return Err(io::Error::from(ErrorKind::BrokenPipe));
        }
        let count = buf.len().min(self.room).min(2);
        self.room -= count;
        Ok(count)
    }

    fn flush(&mut self) -> io::Result<()> {
        if self.has_failed {
            self.was_tried_again = true;
        }
        if self.flushes {
            Ok(())
        } else {
            Err(io::Error::from(ErrorKind::BrokenPipe))
        }
    }
}

#[test]
fn the_bytes_are_appended(rt: HostRuntime) -> Result<(), Fail> {
    let mut writer = b"fault".to_vec(rt.alloc())?;
    {
        let mut writer = StoppingWriter::new(&mut writer);
        writer.put(b" IO")?;
        writer.put(b"")?;
        writer.put_text(format_args!("\n"))?;
    }
    assert_eq!(rt; writer.as_slice(), b"fault IO\n".as_slice());
    Ok(())
}

#[test]
fn nothing_is_written_after_a_failed_write(rt: HostRuntime) {
    let text = b"fault IO\n";
    for room in 0..=text.len() {
        for flushes in [true, false] {
            let (has_failed, was_tried_again) = (false, false);
            let mut fake = FakeWriter {
                room,
                flushes,
                has_failed,
                was_tried_again,
            };
            let mut writer = StoppingWriter::new(&mut fake);
            let is_written = writer.put(text).is_ok();
            assert_eq!(rt; is_written, flushes && room == text.len());
            assert_eq!(rt; writer.put_text("more").is_ok(), false);
            assert!(rt; !fake.was_tried_again);
        }
    }
}
