//! What a host asks of the statistics of a module, and what the module shows of it.

/// Byte 144 of page 2Fh as it was stored, which asks for a freeze or for its end, and how many units of time that still takes.
#[derive(Clone, Copy, Debug, PartialEq, Eq)]
pub struct Request {
    pub control: u8,
    pub left: u16,
}

impl Request {
    ghost use Rattle.std.specs.Prelude.{◌≡◌};
    ghost use Rattle.simulated_statistics.specs.Requests as spec;

    /// Whether it asks for a freeze, and not for its end.
    pub fn asks_freeze(self) -> bool
        ensures { result ≡ spec.asks_freeze self }
    {
        self.control >= 128
    }

    /// Whether it is done.
    pub fn is_done(self) -> bool
        ensures { result ≡ spec.is_done self }
    {
        self.left == 0
    }

    // One unit of time later.
    pub(crate) fn ticked(self) -> Request
        ensures { result ≡ spec.ticked self }
    {
        Request {
            left: self.left.saturating_sub(1),
            ..self
        }
    }

    // FreezeDone and UnfreezeDone, above the bits of the image's byte.
    fn done_byte(self, byte: u8) -> u8
        ensures { result ≡ spec.done_byte self byte }
    {
        let rest = byte % 64;
        match (self.is_done(), self.asks_freeze()) {
            (true, true) => 128 + rest,
            (true, false) => 64 + rest,
            (false, _) => rest,
        }
    }

    // What an address of page 2Fh reads as, if the image has this byte there.
    pub(crate) fn shown_at(self, address: u8, byte: u8) -> u8
        ensures { result ≡ spec.shown_at self address byte }
    {
        match address {
            144 => self.control,
            145 => self.done_byte(byte),
            _ => byte,
        }
    }
}
