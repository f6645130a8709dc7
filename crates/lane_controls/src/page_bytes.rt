//! Operations on bytes of an upper page.
ghost use Rattle.std.specs.Prelude.{◌≡◌, ◌+◌, ◌≤◌};
ghost use Rattle.bus_model.specs.Operations.{IsWellShaped};
ghost use Rattle.bus_model.specs.declared.device.Dev.TheVariants.{A0};
ghost use Rattle.bus_model.specs.declared.operation.Op.TheVariants.{Fetch};
ghost use Rattle.lane_controls.specs.ByteHistories as bytes;

use arrayvec::ArrayVec;
use bus_model::{Dev, Op};

/// Reads one byte.
pub fn read_at(address: u8) -> Op
    requires { 128 ≤ address }
    ensures value { result ≡ bytes.read_at address }
    ensures shape { IsWellShaped result }
{
    read_from(address, 1)
}

/// Reads so many bytes.
pub fn read_from(address: u8, count: u8) -> Op
    requires from { 128 ≤ address }
    requires some { 1 ≤ count }
    requires to { address + count ≤ 256 }
    ensures value { result ≡ Fetch A0 address count }
    ensures shape { IsWellShaped result }
{
    Op::Fetch {
        dev: Dev::A0,
        offset: address,
        count,
    }
}

/// Stores one byte.
pub fn store_at(address: u8, byte: u8) -> Op
    requires { 128 ≤ address }
    ensures value { result ≡ bytes.store_at address byte }
    ensures shape { IsWellShaped result }
{
    let mut bytes = ArrayVec::new();
    bytes.push(byte);
    Op::Store {
        dev: Dev::A0,
        offset: address,
        bytes,
    }
}
