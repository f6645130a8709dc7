// The flags of a bank's eight lanes that its page 11h was read to raise, and the codes of those lanes beside them: of bank 0 as a port
// keeps them, and of a further bank by themselves.
ghost use Rattle.std.specs.Prelude.{◌≡◌};
ghost use Rattle.port_manager.specs.Flags as spec;

use crate::codes::LaneCodes;
use crate::flags::{counted, counts_since, dated, last_since};

/// Each flag of a bank's lanes, byte by byte as they stand in its page 11h, and in a byte from the first lane on: how often it was read as
/// raised since that was acknowledged, as far as 16 bits count, and the moment of the last time, or 0.
#[derive(Clone, Copy, Drop)]
pub struct LaneFlags {
    /// Bytes 134 to 152, which have a bit for each lane.
    pub counts: [u16; 152],
    pub last: [u64; 152],
    /// The lanes' data path states, and their configuration statuses.
    pub states: LaneCodes,
    pub statuses: LaneCodes,
}

impl LaneFlags {
    /// None was raised, and no code was read.
    pub fn none() -> LaneFlags
        ensures { result ≡ spec.no_lanes }
    {
        LaneFlags {
            counts: [0; 152],
            last: [0; 152],
            states: LaneCodes::none(),
            statuses: LaneCodes::none(),
        }
    }

    /// Bytes from this address on were read of the bank's page 11h at this moment.
    pub fn take(&mut self, offset: u8, bytes: &[u8], now: u64)
        ensures { self.new ≡ spec.lanes_with self.old offset bytes.now now }
    {
        self.counts = counted(&self.counts, offset, bytes, 134);
        self.last = dated(&self.last, offset, bytes, 134, now);
        self.states = self.states.with(offset, bytes, 128, now);
        self.statuses = self.statuses.with(offset, bytes, 202, now);
    }

    /// Flags that were last read as raised at this moment or before it are known, and count no longer.
    pub fn acknowledge(&mut self, moment: u64)
        ensures { self.new ≡ spec.lanes_since self.old moment }
    {
        self.counts = counts_since(&self.counts, &self.last, moment);
        self.last = last_since(&self.last, moment);
    }
}
