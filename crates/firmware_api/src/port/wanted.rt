// What a port's module is wanted for, as C tells it.
ghost use Rattle.std.specs.Prelude.{◌≡◌};
ghost use Rattle.firmware_api.specs.PortsTold.{wanted_in};

use field_tables::LaneSet;
use port_manager::Wanted;

/// What a port's module is wanted for.
#[repr(C)]
#[derive(Clone, Copy)]
pub struct PortWanted {
    /// A weight for each HostInterfaceID.
    pub weights: [u32; 256],
    /// What a data path weighs more if it is among the active ones.
    pub stay: u32,
    /// How the module is read: each number but 0 says yes.
    pub paired: u8,
    pub counts_by_id: u8,
    /// The most power that it may need to be woken up, in quarters of a watt; 255 is no limit.
    pub most_power: u8,
    /// The host lanes that may be taken down although they are up.
    pub may_take_down: u8,
}

impl PortWanted {
    /// The same for the manager.
    pub fn wanted(&self) -> Wanted
        ensures { result ≡ wanted_in self.now }
    {
        Wanted {
            hosts: self.weights,
            stay: self.stay,
            paired: self.paired != 0,
            counts_by_id: self.counts_by_id != 0,
            max_power: self.most_power,
            may_take_down: LaneSet::from(self.may_take_down),
            asleep: false,
            down: LaneSet::empty(),
        }
    }
}
