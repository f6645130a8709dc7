// What somebody has asked of a port, beyond what its module is wanted for.
ghost use Rattle.std.specs.Prelude.{◌≡◌};
ghost use Rattle.port_manager.specs.Requests as spec;

use crate::deciding::Wanted;
use field_tables::LaneSet;

/// What somebody has asked of a port, beyond what its module is wanted for.
#[derive(Clone, Copy, Debug, PartialEq, Eq)]
pub enum Request {
    /// Nothing: the module is to be awake, and as it is wanted.
    Wake,
    /// The module is to be in low power, for which these host lanes may be taken down, and no others.
    Sleep(LaneSet),
    /// The module is to be as it is wanted. Until it is, or is left alone, these host lanes may be taken down.
    Provision(LaneSet),
    /// No data path is to have one of these host lanes, which may be taken down.
    Deactivate(LaneSet),
}

impl Request {
    /// What is wanted, with what was asked.
    pub fn granted(self, wanted: &Wanted) -> Wanted
        ensures { result ≡ spec.granted self wanted.now }
    {
        let hosts = wanted.hosts;
        Wanted {
            hosts,
            stay: wanted.stay,
            paired: wanted.paired,
            counts_by_id: wanted.counts_by_id,
            max_power: wanted.max_power,
            may_take_down: self.permitted(wanted.may_take_down),
            asleep: wanted.asleep || self.is_sleep(),
            down: wanted.down.union(self.down()),
        }
    }

    /// What is left of it once the module is as it is wanted, or is left alone.
    pub fn ended(self) -> Request
        ensures { result ≡ spec.ended self }
    {
        match self {
            Request::Provision(_lanes) => Request::Wake,
            Request::Wake => Request::Wake,
            Request::Sleep(lanes) => Request::Sleep(lanes),
            Request::Deactivate(lanes) => Request::Deactivate(lanes),
        }
    }

    // The host lanes that may be taken down where these may be without it.
    fn permitted(self, may: LaneSet) -> LaneSet
        ensures { result ≡ spec.permitted self may }
    {
        match self {
            Request::Wake => may,
            Request::Sleep(lanes) => lanes,
            Request::Provision(lanes) | Request::Deactivate(lanes) => may.union(lanes),
        }
    }

    fn is_sleep(self) -> bool
        ensures { result ≡ spec.is_sleep self }
    {
        match self {
            Request::Sleep(_lanes) => true,
            Request::Wake | Request::Provision(_) | Request::Deactivate(_) => false,
        }
    }

    fn down(self) -> LaneSet
        ensures { result ≡ spec.down self }
    {
        match self {
            Request::Deactivate(lanes) => lanes,
            Request::Wake | Request::Sleep(_) | Request::Provision(_) => LaneSet::empty(),
        }
    }
}
