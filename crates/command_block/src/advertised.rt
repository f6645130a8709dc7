//! What a module advertises of its command data block.
ghost use Rattle.std.specs.Prelude.{◌≡◌};
ghost use Rattle.command_block.specs.Advertised as spec;

/// What page 01h says of the command data block.
#[derive(Clone, Copy, Debug, PartialEq, Eq, Drop)]
pub struct Advertised {
    /// How many commands can be under way at once; 0: there is no command data block. 3 is reserved.
    pub instances: u8,
    /// Whether the module answers while it carries a command out.
    pub background_mode: bool,
    /// Whether the next page of an extended payload follows the end of one by itself.
    pub auto_paging: bool,
    /// How many pages extended payloads have, from A0h on.
    pub epl_pages: u8,
    /// One transaction carries eight bytes, and eight more for each of these.
    pub length_extension: u8,
    /// For how many milliseconds the module may refuse transactions.
    pub max_busy_time: u32,
}

impl Advertised {
    /// From bytes 163 to 166.
    pub fn of(features: u8, extension: u8, trigger: u8, busy: u8) -> Advertised
        ensures { result ≡ spec.advertised features extension trigger busy }
    {
        Advertised {
            instances: features / 64,
            background_mode: features / 32 % 2 == 1,
            auto_paging: features / 16 % 2 == 1,
            epl_pages: pages_of(features % 16),
            length_extension: extension,
            max_busy_time: busy_time(trigger, busy),
        }
    }
}

fn pages_of(code: u8) -> u8
    ensures { result ≡ spec.pages_of code }
{
    if code <= 4 {
        code
    } else if code == 5 {
        8
    } else if code == 6 {
        12
    } else if code == 7 {
        16
    } else {
        0
    }
}

fn busy_time(trigger: u8, busy: u8) -> u32
    ensures { result ≡ spec.busy_time trigger busy }
{
    if busy / 128 == 1 {
        let steps = u32::from(trigger % 32);
        if steps == 0 { 160 } else { steps * 160 }
    } else {
        80 - u32::from(busy % 128).min(80)
    }
}
