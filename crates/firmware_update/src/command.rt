ghost use Rattle.std.specs.Prelude.{◌≡◌, ◌<◌, ◌≤◌, ◌^◌, ◌++◌, [], ◌∷◌, length, take, true, false};
ghost use Rattle.arrayvec.specs.ArrayVec.{array_vec_len};
ghost use Rattle.firmware_update.specs.Blocks.{block_length};
ghost use Rattle.firmware_update.specs.Payloads.{HasRoom, be32, block_bytes, block_message, message, message_of, password_message, start_message};

use arrayvec::ArrayVec;
use command_block::{MAX_BODY, Message};

/// How many bytes of the file a block has at most.
pub const MAX_BLOCK: u32 = 116;

/// What a module is asked about its firmware, or told to do with it.
#[derive(Clone, Copy, Debug, PartialEq, Eq)]
pub enum Command {
    /// How firmware is managed. (CMD 0041h)
    Features,
    /// Which image runs, which is committed and which is valid. (CMD 0100h)
    Info,
    /// A download of the file begins, with so many of its first bytes. (CMD 0101h)
    Start { header: u8 },
    /// The bytes at this address of what follows the header. (CMD 0103h)
    Block { header: u8, address: u32 },
    /// All bytes were sent. (CMD 0107h)
    Complete,
    /// The download is given up. (CMD 0102h)
    Abort,
    /// The image that doesn't run is to run, after a reset. (CMD 0109h)
    Run,
    /// The image that runs is to run after each reset. (CMD 010Ah)
    Commit,
}

/// How many bytes the block at an address has: as many as fit, or what is left of the file; none at its end.
pub fn block_length(size: u32, header: u8, address: u32) -> u32
    ensures { result ≡ block_length size header address }
{
    size.saturating_sub(address)
        .saturating_sub(u32::from(header))
        .min(MAX_BLOCK)
}

impl Command {
    /// As a message of the command data block, about this file.
    pub fn message(self, file: &[u8]) -> Message
        requires short { length file.now < 2 ^ 32 }
        requires room { HasRoom self }
        ensures { result ≡ message_of file.now self }
    {
        match self {
            Command::Features => empty(0x0041, true),
            Command::Info => empty(0x0100, true),
            Command::Start { header } => start(file, header),
            Command::Block { header, address } => block(address, block_of(file, header, address)),
            Command::Complete => empty(0x0107, false),
            Command::Abort => empty(0x0102, false),
            Command::Run => run(),
            Command::Commit => empty(0x010a, false),
        }
    }
}

/// What gives access to a module that asks for a password, as a message that is to be delivered before an update. (CMD 0001h)
pub fn password_message(password: u32) -> Message
    ensures { result ≡ password_message password }
{
    Message {
        id: 0x0001,
        body: be32(password),
        replies: false,
    }
}

fn empty(id: u16, replies: bool) -> Message
    ensures { result ≡ message id [] replies }
{
    Message {
        id,
        body: ArrayVec::new(),
        replies,
    }
}

// The size of the file, four bytes that are kept free, and the file's first bytes.
fn start(file: &[u8], header: u8) -> Message
    requires short { length file.now < 2 ^ 32 }
    requires room { header ≤ 112 }
    ensures { result ≡ start_message (length file.now) (take header file.now) }
{
    let mut body = be32(file.len() as u32);
    body.push(0);
    body.push(0);
    body.push(0);
    body.push(0);
    let end = usize::from(header).min(file.len());
    body.try_extend_from_slice(&file[..end]).unwrap();
    Message {
        id: 0x0101,
        body,
        replies: false,
    }
}

fn block(address: u32, bytes: &[u8]) -> Message
    requires { length bytes.now ≤ 116 }
    ensures { result ≡ block_message address bytes.now }
{
    let mut body = be32(address);
    body.try_extend_from_slice(bytes).unwrap();
    Message {
        id: 0x0103,
        body,
        replies: false,
    }
}

// To the image that doesn't run, with a reset, at once.
fn run() -> Message
    ensures { result ≡ message 265 (0 ∷ 0 ∷ 0 ∷ 0 ∷ []) false }
{
    let mut body = ArrayVec::new();
    body.push(0);
    body.push(0);
    body.push(0);
    body.push(0);
    Message {
        id: 0x0109,
        body,
        replies: false,
    }
}

// Four bytes, the highest first.
fn be32(n: u32) -> ArrayVec<u8, MAX_BODY>
    ensures { result.items ≡ be32 n }
{
    let mut bytes = ArrayVec::new();
    bytes.push((n / 0x0100_0000) as u8);
    bytes.push((n / 0x0001_0000 % 256) as u8);
    bytes.push((n / 0x0100 % 256) as u8);
    bytes.push((n % 256) as u8);
    bytes
}

// The bytes of the block at an address.
fn block_of(file: &[u8], header: u8, address: u32) -> &[u8]
    requires { length file.now < 2 ^ 32 }
    ensures bytes { result.now ≡ block_bytes file.now header address }
    ensures length { length result.now ≤ 116 }
{
    let count = block_length(file.len() as u32, header, address) as usize;
    if count == 0 {
        return &file[..0];
    }
    let from = usize::from(header) + address as usize;
    &file[from..from + count]
}
