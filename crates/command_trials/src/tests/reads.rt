use command_line::{CountedReader, Fault, MAX_READS, read_input};
use std::io;
use std::io::{ErrorKind, Read};
use std::test::Fail;

/// Gives one byte a read, `left` of them. Its reads from number `errors.0` to before number `errors.1` are interrupted;
/// numbers begin at 1.
#[derive(Drop)]
struct FakeReader {
    left: usize,
    errors: (u64, u64),
    calls: u64,
}

impl Read for FakeReader {
    fn read(&mut self, buf: &mut [u8]) -> io::Result<usize> {
        self.calls = self.calls.saturating_add(1);
        if self.errors.0 <= self.calls && self.calls < self.errors.1 {
            return Err(io::Error::from(ErrorKind::Interrupted));
        }
        let count = buf.len().min(1).min(self.left);
        self.left -= count;
        buf[..count].fill(b'x');
        Ok(count)
    }
}

#[test]
fn an_interrupted_read_is_made_again(rt: HostRuntime) -> Result<(), Fail> {
    for number in 1..22 {
        let mut reader = CountedReader::new(FakeReader {
            left: 20,
            errors: (number, number + 3),
            calls: 0,
        });
        assert_eq!(rt;
            read_input(rt.alloc(), &mut reader)?.as_slice(),
            [b'x'; 20].as_slice()
        );
        assert_eq!(rt; reader.reads(), 24);
    }
    Ok(())
}

#[test]
fn the_reads_are_limited(rt: HostRuntime) {
    for (errors, fault) in [(MAX_READS, None), (MAX_READS + 1, Some(Fault::Io))] {
        let mut fake = FakeReader {
            left: 0,
            errors: (1, errors),
            calls: 0,
        };
        let answer = read_input(rt.alloc(), &mut CountedReader::new(&mut fake));
        assert_eq!(rt; answer.err(), fault);
        assert_eq!(rt; fake.calls, MAX_READS);
    }
}
