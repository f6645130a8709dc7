//! What is fetched and stored.
ghost use Rattle.std.specs.Prelude.{◌≡◌, ◌<◌, length};
ghost use Rattle.bus_model.specs.Operations.{IsWellShaped};
ghost use Rattle.command_block.specs.Operations as spec;

use crate::message::Message;
use arrayvec::ArrayVec;
use bus_model::{Dev, Op};

/// The status of the command.
pub fn read_status() -> Op
    ensures operation { result ≡ spec.read_status }
    ensures shape { IsWellShaped result }
{
    Op::Fetch {
        dev: Dev::A0,
        offset: 37,
        count: 1,
    }
}

/// Up to eight bytes of the body.
pub fn piece(message: &Message, at: u8) -> Op
    requires { at < length message.now.body.items }
    ensures operation { result ≡ spec.piece message.now at }
    ensures shape { IsWellShaped result }
{
    let body = message.body.as_slice();
    let from = usize::from(at);
    let end = (from + 8).min(body.len());
    let bytes = ArrayVec::try_from(&body[from..end]).unwrap();
    Op::Store {
        dev: Dev::A0,
        offset: 136 + at,
        bytes,
    }
}

/// What was stored of the body before this byte.
pub fn read_back(message: &Message, at: u8) -> Op
    ensures operation { result ≡ spec.read_back message.now at }
    ensures shape { IsWellShaped result }
{
    let count = usize::from(at).min(message.body.len()).max(1);
    Op::Fetch {
        dev: Dev::A0,
        offset: 136,
        count: count as u8,
    }
}

/// The lengths and the check code; the reply's are cleared.
pub fn head(message: &Message) -> Op
    ensures operation { result ≡ spec.head message.now }
    ensures shape { IsWellShaped result }
{
    let mut bytes = ArrayVec::new();
    bytes.push(0);
    bytes.push(0);
    bytes.push(message.body.len() as u8);
    bytes.push(message.check_code());
    bytes.push(0);
    bytes.push(0);
    Op::Store {
        dev: Dev::A0,
        offset: 130,
        bytes,
    }
}

/// The id, which has the module carry it out.
pub fn trigger(message: &Message) -> Op
    ensures operation { result ≡ spec.trigger message.now }
    ensures shape { IsWellShaped result }
{
    let mut bytes = ArrayVec::new();
    bytes.push((message.id / 256) as u8);
    bytes.push((message.id % 256) as u8);
    Op::Store {
        dev: Dev::A0,
        offset: 128,
        bytes,
    }
}

/// The length of the reply and its check code.
pub fn read_count() -> Op
    ensures operation { result ≡ spec.read_count }
    ensures shape { IsWellShaped result }
{
    Op::Fetch {
        dev: Dev::A0,
        offset: 134,
        count: 2,
    }
}

/// A reply of so many bytes, 1 to 120.
pub fn read_reply(count: u8) -> Op
    ensures operation { result ≡ spec.read_reply count }
    ensures shape { IsWellShaped result }
{
    let count = count.min(120);
    Op::Fetch {
        dev: Dev::A0,
        offset: 136,
        count: if count == 0 { 1 } else { count },
    }
}
