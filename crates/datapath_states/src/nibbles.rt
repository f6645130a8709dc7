ghost use Rattle.std.specs.Prelude.{◌≡◌, ◌≤◌, ◌<◌, ◌*◌, ◌+◌, ◌/◌, length};
ghost use Rattle.datapath_states.specs.Lanes.{code_in, codes_in};

/// The codes of `N` lanes, four bits each: lane 1 in the lower half of the first byte, lane 2 in its upper half, and so on.
pub fn lanes<const N: usize>(bytes: &[u8]) -> [u8; N]
    requires { N ≤ 2 * length bytes.now }
    ensures { result ≡ codes_in bytes.now N }
{
    let mut lanes = [0; N];
    for (index, lane) in lanes.iter_mut().enumerate() {
        *lane = nibble(bytes, index);
    }
    lanes
}

// The nibble of the lane with so many before it.
#[tactic(auto, using(crate::proofs::LaneNibbles::lower_half, crate::proofs::LaneNibbles::upper_half))]
fn nibble(bytes: &[u8], before: usize) -> u8
    requires { before / 2 < length bytes.now }
    ensures { result ≡ code_in bytes.now (before + 1) }
{
    let byte = bytes[before / 2];
    if before % 2 == 0 {
        byte % 16
    } else {
        byte / 16
    }
}
