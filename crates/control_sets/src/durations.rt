//! How long states last, as a module advertises, and how long to pause between two polls of them.
ghost use Rattle.std.specs.Prelude.{◌≡◌, ◌≤◌, ◌*◌, max};
ghost use Rattle.control_sets.specs.Durations.{states_in_a_row};
ghost use Rattle.control_sets.specs.Durations as spec;

use conversations::Patience;
use field_tables::{field, number};
use paged_memory::Image;

/// How many milliseconds to pause wherever a transaction brought nothing, if the module has this memory: at least 100, and so
/// long that 4,000 pauses last three times as long as the longest state that it advertises.
pub fn pause_for(image: &Image) -> u32
    ensures { result ≡ spec.pause_for image.now }
{
    larger(SHORTEST_PAUSE, longest_wait(image).div_ceil(POLLS))
}

const SHORTEST_PAUSE: u32 = 100;

const POLLS: u32 = 4000;

/// How patient a conversation is on a real bus, if the module has this memory: it pauses so long, and gives up after pauses that last
/// three times as long as the longest state that the module advertises, and at least ten seconds.
pub fn patience_for(image: &Image) -> Patience
    ensures { result ≡ spec.patience_for image.now }
{
    Patience {
        pause: pause_for(image),
        limit: larger(SHORTEST_LIMIT, longest_wait(image)),
    }
}

const SHORTEST_LIMIT: u32 = 10_000;

/// The end of the range that a code stands for, in milliseconds; none of a code without an upper end or without a meaning.
pub fn longest_duration(code: u8) -> Option<u32>
    ensures { result ≡ spec.longest_duration code }
{
    DURATIONS.get(usize::from(code)).copied()
}

const DURATIONS: [u32; 13] = [
    1, 5, 10, 50, 100, 500, 1_000, 5_000, 10_000, 60_000, 300_000, 600_000, 3_000_000,
];

// For three states in a row.
fn longest_wait(image: &Image) -> u32
    ensures value { result ≡ states_in_a_row * spec.longest_of (spec.states_of image.now) }
    ensures few { result ≤ 9000000 }
{
    3 * longest_state(image)
}

fn longest_state(image: &Image) -> u32
    ensures value { result ≡ spec.longest_of (spec.states_of image.now) }
    ensures few { result ≤ 3000000 }
{
    let module = larger(
        lasts(number(image, field!(Cmis MaxDurationModulePwrUp))),
        lasts(number(image, field!(Cmis MaxDurationModulePwrDn))),
    );
    let path = larger(
        lasts(number(image, field!(Cmis MaxDurationDPInit))),
        lasts(number(image, field!(Cmis MaxDurationDPDeinit))),
    );
    let output = larger(
        lasts(number(image, field!(Cmis MaxDurationDPTxTurnOn))),
        lasts(number(image, field!(Cmis MaxDurationDPTxTurnOff))),
    );
    larger(module, larger(path, output))
}

#[tactic(auto, using(crate::proofs::PauseLaws::lasts_few))]
fn lasts(code: u8) -> u32
    ensures value { result ≡ spec.lasts code }
    ensures few { result ≤ 3000000 }
{
    longest_duration(code).unwrap_or(3_000_000)
}

fn larger(one: u32, other: u32) -> u32
    ensures { result ≡ max one other }
{
    if one < other { other } else { one }
}
