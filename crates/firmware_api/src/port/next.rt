// What a port wants next, as C is told.
ghost use Rattle.std.specs.Prelude.{◌≡◌};
ghost use Rattle.firmware_api.specs.PortsTold as spec;

use crate::operation::Operation;
use bus_model::MAX_STORE;
use conversations::Next;
use paged_memory::{Half, Key};
use port_manager::{Port, Rest};
use saved_port::place_of;

/// What a port wants next.
#[repr(C)]
#[derive(Clone, Copy)]
pub struct NextOfPort {
    /// Nothing is to be made before this moment; 0 if it is none that is waited for.
    pub moment: u64,
    /// 0 for an operation, 1 for a moment, 2 for a reply, 3 for nothing.
    pub kind: u8,
    /// 1 if the operation fetches a whole half, which lies here.
    pub whole: u8,
    pub upper: u8,
    pub bank: u8,
    pub page: u8,
    pub operation: Operation,
}

impl NextOfPort {
    /// Becomes what this port wants.
    pub fn fill(&mut self, port: &Port, next: Next<Rest>)
        ensures { self.new ≡ spec.next_told port.now next }
    {
        *self = nothing();
        match next {
            Next::Do(op) => {
                self.put_place(place_of(port));
                self.operation.put(&op);
            }
            Next::Wait(_time) => {
                self.kind = 1;
                self.moment = port.until();
            }
            Next::End(Rest::Busy) => self.kind = 2,
            Next::End(Rest::Idle) => self.kind = 3,
        }
    }

    fn put_place(&mut self, place: Option<Key>)
        ensures { self.new ≡ spec.with_place place self.old }
    {
        if let Some(key) = place {
            self.whole = 1;
            self.upper = match key.half {
                Half::Lower => 0,
                Half::Upper => 1,
            };
            self.bank = key.bank;
            self.page = key.page;
        }
    }
}

fn nothing() -> NextOfPort
    ensures { result ≡ spec.nothing }
{
    NextOfPort {
        moment: 0,
        kind: 0,
        whole: 0,
        upper: 0,
        bank: 0,
        page: 0,
        operation: Operation {
            milliseconds: 0,
            kind: 0,
            device: 0,
            offset: 0,
            count: 0,
            bytes: [0; MAX_STORE],
        },
    }
}
