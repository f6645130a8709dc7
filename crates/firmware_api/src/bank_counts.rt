// What was read of the lanes of a further bank, which C keeps beside a port.
ghost use Rattle.std.specs.Prelude.{◌≡◌, ◌≢◌};
ghost use Rattle.port_manager.specs.Flags.{lanes_since, lanes_with};
ghost use Rattle.saved_port.specs.SavedPorts.{lane_flags_in};
ghost use Rattle.firmware_api.specs.BankCounts as spec;
ghost use Rattle.firmware_api.specs.Statuses.{done, status_by};

use crate::half::HalfBytes;
use crate::status::{DONE, NO_PLACE};
use port_manager::LaneFlags;
use saved_port::{SavedLanes, numbers_of_lanes, put_lanes};

/// Page 11h of a further bank was read at this moment: it is counted as a port counts that of bank 0.
#[unsafe(no_mangle)]
pub extern "C" fn dovecounter_bank_count(
    counts: &mut SavedLanes,
    half: &HalfBytes,
    moment: u64,
) -> u32
    ensures status { result ≡ status_by (spec.bank_refusal half.now) }
    ensures counted { result ≡ done → lane_flags_in counts.new ≡ lanes_with (lane_flags_in counts.old) 128 half.now.bytes moment }
    ensures refused { result ≢ done → counts.new ≡ counts.old }
{
    if !is_of_further_bank(half) {
        return NO_PLACE;
    }
    let lanes = &mut LaneFlags::none();
    put_lanes(counts, lanes);
    lanes.take(128, &half.bytes, moment);
    *counts = numbers_of_lanes(lanes);
    DONE
}

fn is_of_further_bank(half: &HalfBytes) -> bool
    ensures { result ≡ spec.is_of_further_bank half.now }
{
    let is_lanes = half.device == 0xA0 && half.upper == 1 && half.page == 0x11;
    is_lanes && half.bank >= 1 && half.bank <= 3
}

/// The flags that were last read as raised at this moment or before it are known.
#[unsafe(no_mangle)]
pub extern "C" fn dovecounter_bank_acknowledge(counts: &mut SavedLanes, moment: u64)
    ensures { lane_flags_in counts.new ≡ lanes_since (lane_flags_in counts.old) moment }
{
    let lanes = &mut LaneFlags::none();
    put_lanes(counts, lanes);
    lanes.acknowledge(moment);
    *counts = numbers_of_lanes(lanes);
}
