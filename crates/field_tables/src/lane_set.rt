use bitflags::{Flag, Flags};
use std::marker::Model;

/// A set of lanes, numbered 1 to 8.
#[derive(Clone, Copy, Debug, PartialEq, Eq)]
pub struct LaneSet {
    /// Bit i-1 is 1 if lane i is in the set.
    bits: u8,
}

impl Model for LaneSet {
    ghost use Rattle.std.specs.Prelude.{◌<◌};
    ghost use Rattle.std.specs.Coded.{coded_ℕ};
    ghost use Rattle.std.specs.FinSet as set;
    ghost use Rattle.field_tables.specs.LaneSets.{Lanes, byte_of, lanes_in};
    ghost use Rattle.field_tables.specs.LaneBytes.{byte_of-lanes_in};

    ghost Value = { Lanes };

    ghost coded = { set.code coded_ℕ };

    ghost view = { λ lanes. lanes_in lanes.bits };

    ghost invariant = { λ lanes. lanes.bits < 256 };

    ghost inverse = { λ lanes. record { bits = byte_of lanes } };

    ghost inverse_ok = { λ lanes fits i. record { bits = byte_of-lanes_in lanes.bits fits i } };
}

impl LaneSet {
    ghost use Rattle.std.specs.Prelude.{◌≡◌, ◌+◌, ◌≤◌};
    ghost use Rattle.std.specs.FinSet as set;
    ghost use Rattle.field_tables.specs.LaneSets.{byte_of, lanes_in, run_of};
    ghost use Rattle.field_tables.specs.LaneSets as lanes;

    /// The set without lanes.
    pub fn empty() -> Self
        ensures { result ≡ set.empty }
    {
        LaneSet::from(0)
    }

    /// So many consecutive lanes, from this one on.
    pub fn run(first: u8, count: u8) -> Self
        requires from_one { 1 ≤ first }
        requires to_eight { first + count ≤ 9 }
        ensures { result ≡ run_of first count }
    {
        let from = first - 1;
        let ones = (1u16 << (from + count)) - (1 << from);
        LaneSet::from(ones as u8)
    }

    /// The byte that has the set: bit i-1 is 1 if lane i is in it.
    pub fn byte(self) -> u8
        ensures byte { result ≡ byte_of self }
        ensures lanes { lanes_in result ≡ self }
    {
        self.bits
    }

    /// Whether a lane is in the set; none but 1 to 8 is.
    pub fn contains(self, lane: u8) -> bool
        ensures { result ≡ set.contains self lane }
    {
        let byte = self.byte();
        match lane {
            1..=8 => (byte >> (lane - 1)) & 1 == 1,
            _ => false,
        }
    }

    pub fn is_empty(self) -> bool
        ensures { result ≡ lanes.is_empty self }
    {
        self.byte() == 0
    }

    /// Whether the sets share no lane.
    pub fn is_disjoint(self, other: LaneSet) -> bool
        ensures { result ≡ lanes.is_disjoint self other }
    {
        self.byte() & other.byte() == 0
    }

    /// Whether each lane of this set is in the other one.
    pub fn is_subset(self, other: LaneSet) -> bool
        ensures { result ≡ set.is_subset self other }
    {
        let byte = self.byte();
        byte & other.byte() == byte
    }

    /// The lanes of either set.
    pub fn union(self, other: LaneSet) -> LaneSet
        ensures { result ≡ set.union self other }
    {
        LaneSet::from(self.byte() | other.byte())
    }
}

impl Default for LaneSet {
    ghost use Rattle.std.specs.Prelude.{◌≡◌};
    ghost use Rattle.std.specs.FinSet as set;

    ghost is_default = { λ lanes. lanes ≡ set.empty };

    fn default() -> LaneSet {
        LaneSet::empty()
    }
}

impl From<u8> for LaneSet {
    ghost use Rattle.std.specs.Prelude.{◌≡◌};
    ghost use Rattle.field_tables.specs.LaneSets.{lanes_in};

    ghost from_gives = { λ byte lanes. lanes ≡ lanes_in byte };

    /// The lanes of a byte: lane i is in the set if bit i-1 is 1.
    fn from(byte: u8) -> LaneSet {
        LaneSet { bits: byte }
    }
}

/// No lane has a name.
impl Flags for LaneSet {
    ghost use Rattle.std.specs.Prelude.{⊤, []};
    ghost use Rattle.field_tables.specs.LaneSets.{byte_of};

    type Bits = u8;

    ghost exact = { ⊤ };

    ghost table = { [] };

    ghost set_of = { byte_of };

    fn flags<'a>() -> &'a [Flag<LaneSet>] {
        &[]
    }

    fn bits(&self) -> u8 {
        LaneSet::byte(*self)
    }

    fn from_bits_retain(bits: u8) -> LaneSet {
        LaneSet::from(bits)
    }
}
