//! A byte of which only some bits are changed.
ghost use Rattle.std.specs.Prelude.{◌≡◌};
ghost use Rattle.lane_controls.specs.Merging as spec;

/// The byte with the bits of the mask taken from others.
#[tactic(auto, unfolding(crate::specs::Merging::merged))]
pub fn merged(mask: u8, bits: u8, byte: u8) -> u8
    ensures { result ≡ spec.merged mask bits byte }
{
    byte & !mask | bits & mask
}
