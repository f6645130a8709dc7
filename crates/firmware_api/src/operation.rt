ghost use Rattle.std.specs.Prelude.{◌≡◌, ◌≤◌, length};
ghost use Rattle.firmware_api.specs.Operations.{address_of, operation_of, reply_of, waiting};

use arrayvec::ArrayVec;
use bus_model::{Dev, MAX_STORE, Op, Reply};

/// What C does for a conversation.
#[repr(C)]
#[derive(Clone, Copy)]
pub struct Operation {
    /// How long to wait; 0 for a fetch and a store.
    pub milliseconds: u32,
    /// 0 for a fetch, 1 for a store, 2 for a wait.
    pub kind: u8,
    /// The device's address on the bus: A0h or A2h.
    pub device: u8,
    /// The address of the first byte.
    pub offset: u8,
    /// How many bytes are fetched or stored.
    pub count: u8,
    /// The bytes of a store, and zeros after them.
    pub bytes: [u8; MAX_STORE],
}

impl Operation {
    /// Becomes the operation.
    pub fn put(&mut self, op: &Op)
        ensures { self.new ≡ operation_of op.now }
    {
        self.milliseconds = 0;
        self.bytes = [0; MAX_STORE];
        match op {
            Op::Fetch { dev, offset, count } => {
                self.kind = 0;
                self.device = address_of(*dev);
                self.offset = *offset;
                self.count = *count;
            }
            Op::Store { dev, offset, bytes } => {
                self.kind = 1;
                self.device = address_of(*dev);
                self.offset = *offset;
                self.count = bytes.len() as u8;
                self.bytes[..bytes.len()].copy_from_slice(bytes);
            }
        }
    }

    /// Becomes a wait of so many milliseconds.
    pub fn put_wait(&mut self, milliseconds: u32)
        ensures { self.new ≡ waiting milliseconds }
    {
        *self = Operation {
            milliseconds,
            kind: 2,
            device: 0,
            offset: 0,
            count: 0,
            bytes: [0; MAX_STORE],
        };
    }
}

fn address_of(dev: Dev) -> u8
    ensures { result ≡ address_of dev }
{
    match dev {
        Dev::A0 => 0xA0,
        Dev::A2 => 0xA2,
    }
}

/// The reply by its number: 0 if the bus refused, 1 if a store was taken, 2 if these bytes were fetched.
pub fn reply_of(number: u8, bytes: &[u8]) -> Option<Reply>
    ensures { result ≡ reply_of number bytes.now }
{
    match number {
        0 => Some(Reply::Refused),
        1 => Some(Reply::Done),
        2 => match ArrayVec::try_from(bytes) {
            Ok(bytes) => Some(Reply::Bytes(bytes)),
            Err(_) => None,
        },
        _ => None,
    }
}
