//! Which lanes belong to paths that are up.
ghost use Rattle.std.specs.Prelude.{◌≡◌, ◌<◌, length};
ghost use Rattle.lane_controls.specs.TestPlans as spec;

/// The lanes of paths that are up, by bytes 128 to 131 of page 11h: bit i-1 is lane i.
#[tactic(auto, unfolding(crate::specs::TestPlans::up_lanes))]
pub fn up_lanes(states: &[u8]) -> u8
    requires { length states.now ≡ 4 }
    ensures { result ≡ spec.up_lanes states.now }
{
    up_pair(states[0]) + up_pair(states[1]) * 4 + up_pair(states[2]) * 16 + up_pair(states[3]) * 64
}

fn up_pair(byte: u8) -> u8
    ensures value { result ≡ spec.up_pair byte }
    ensures few { result < 4 }
{
    let first = if byte % 16 == 1 { 0 } else { 1 };
    let second = if byte / 16 == 1 { 0 } else { 2 };
    first + second
}
