//! How a reading of statistics ends.
use arrayvec::ArrayVec;

/// How many pages may have statistics.
pub const MAX_PAGES: usize = 16;

/// What was read of a module's statistics.
#[derive(Clone, Copy, Debug, PartialEq, Eq, Drop)]
pub enum Statistics {
    /// Page 01h or 2Fh couldn't be read: whether the module has any isn't known.
    Unknown,
    /// The module advertises none.
    Unsupported,
    /// The module didn't accept the request to freeze them. What was read may not belong together.
    Refused,
    /// It accepted the request, and didn't freeze them in time. What was read may not belong together.
    Pending,
    /// What was read was so while they were frozen.
    Frozen,
}

/// What became of a request to freeze statistics.
#[derive(Clone, Copy, Debug, PartialEq, Eq, Drop)]
pub enum Release {
    /// None was made.
    NotNeeded,
    /// One was made, whether taken or refused, and no release was accepted since: they may still be frozen.
    MayBeFrozen,
    /// A release was accepted. Whether it is done wasn't seen.
    Accepted,
    /// A release was accepted and done.
    Released,
}

/// How a reading of statistics ended.
#[derive(Drop)]
pub struct VdmEnd {
    pub statistics: Statistics,
    pub release: Release,
    /// The numbers of advertised pages that couldn't be read.
    pub missing: ArrayVec<u16, MAX_PAGES>,
}

impl Release {
    ghost use Rattle.std.specs.Prelude.{◌≡◌};
    ghost use Rattle.vdm_reading.specs.VdmStages.{may_be_frozen};

    /// Whether a freeze may be left on.
    pub fn may_be_frozen(self) -> bool
        ensures { result ≡ may_be_frozen self }
    {
        matches!(self, Release::MayBeFrozen)
    }
}
