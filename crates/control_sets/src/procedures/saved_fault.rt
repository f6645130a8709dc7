ghost use Rattle.std.specs.Prelude.{◌≡◌, Some};
ghost use Rattle.control_sets.specs.SavedNumbers.{bus_fault_number, bus_fault_numbered, fault_in, fault_numbered, saved_fault};
ghost use Rattle.control_sets.specs.SavedNumbers as spec;

use crate::fault::ProvisionFault;
use bus_model::BusFault;

/// Why a procedure ended without success, as plain numbers.
#[repr(C)]
#[derive(Clone, Copy, Debug, PartialEq, Eq)]
pub struct SavedFault {
    /// The number in the fault's code, as 1 for PV1; 0 if there is no fault.
    pub code: u8,
    /// Its first value, or 0; for PV5 the number in the code of the bus's fault.
    pub first: u8,
    /// Its second value, or 0.
    pub second: u8,
}

impl SavedFault {
    /// The numbers of a fault, or of none.
    pub fn of(fault: Option<ProvisionFault>) -> SavedFault
        ensures { result ≡ saved_fault fault }
    {
        match fault {
            Some(fault) => numbers_of(fault),
            None => numbers(0, 0, 0),
        }
    }

    /// Whether there is a fault, and which; `None` if the numbers are no fault's.
    pub fn fault(&self) -> Option<Option<ProvisionFault>>
        ensures { result ≡ fault_in self.now }
    {
        match (self.code, self.first, self.second) {
            (0, 0, 0) => Some(None),
            _ => Some(Some(self.numbered()?)),
        }
    }

    fn numbered(&self) -> Option<ProvisionFault>
        ensures { result ≡ fault_numbered self.now }
    {
        match (self.code, self.first, self.second) {
            (1, lane, status) => Some(ProvisionFault::Rejected(lane, status)),
            (2, lane, 0) => Some(ProvisionFault::StagedDiffers(lane)),
            (3, lane, 0) => Some(ProvisionFault::ActiveDiffers(lane)),
            (4, 0, 0) => Some(ProvisionFault::GaveUp),
            (5, number, 0) => Some(ProvisionFault::Bus(bus_fault_numbered(number)?)),
            (6, code, 0) => Some(ProvisionFault::ModuleState(code)),
            (7, code, 0) => Some(ProvisionFault::Reserved(code)),
            _ => None,
        }
    }
}

fn numbers_of(fault: ProvisionFault) -> SavedFault
    ensures { result ≡ spec.numbers_of fault }
{
    match fault {
        ProvisionFault::Rejected(lane, status) => numbers(1, lane, status),
        ProvisionFault::StagedDiffers(lane) => numbers(2, lane, 0),
        ProvisionFault::ActiveDiffers(lane) => numbers(3, lane, 0),
        ProvisionFault::GaveUp => numbers(4, 0, 0),
        ProvisionFault::Bus(fault) => numbers(5, bus_fault_number(fault), 0),
        ProvisionFault::ModuleState(code) => numbers(6, code, 0),
        ProvisionFault::Reserved(code) => numbers(7, code, 0),
    }
}

fn numbers(code: u8, first: u8, second: u8) -> SavedFault
    ensures { result ≡ spec.numbers code first second }
{
    SavedFault {
        code,
        first,
        second,
    }
}

fn bus_fault_number(fault: BusFault) -> u8
    ensures { result ≡ bus_fault_number fault }
{
    match fault {
        BusFault::TraceFull => 1,
        BusFault::BadShape => 2,
    }
}

fn bus_fault_numbered(number: u8) -> Option<BusFault>
    ensures { result ≡ bus_fault_numbered number }
{
    match number {
        1 => Some(BusFault::TraceFull),
        2 => Some(BusFault::BadShape),
        _ => None,
    }
}
