ghost use Rattle.std.specs.Prelude.{◌≡◌, ◌<◌, ◌≤◌, ◌*◌, length, sum};
ghost use Rattle.command_block.specs.Messages.{check_code, complement};

use arrayvec::ArrayVec;

/// How many bytes the body of a message has at most.
pub const MAX_BODY: usize = 120;

/// A command with its body, which is stored on page 9Fh.
#[derive(Debug, PartialEq, Eq, Drop)]
pub struct Message {
    pub id: u16,
    pub body: ArrayVec<u8, MAX_BODY>,
    /// Whether the module's reply is read.
    pub replies: bool,
}

/// The sum of bytes.
pub fn total(bytes: &[u8]) -> u32
    requires { length bytes.now < 256 }
    ensures value { result ≡ sum bytes.now }
    ensures bound { result ≤ 255 * length bytes.now }
{
    let mut sum: u32 = 0;
    for byte in bytes {
        sum += u32::from(*byte);
    }
    sum
}

/// The one's complement of the lowest byte of a sum.
pub fn complement(sum: u32) -> u8
    ensures { result ≡ complement sum }
{
    (255 - sum % 256) as u8
}

impl Message {
    /// The check code of its header and body.
    pub fn check_code(&self) -> u8
        ensures { result ≡ check_code self.now }
    {
        let id = u32::from(self.id);
        let length = self.body.len() as u32;
        complement(id / 256 + id % 256 + length + total(self.body.as_slice()))
    }
}
