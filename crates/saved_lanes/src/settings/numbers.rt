// The numbers of a change of signal integrity settings.
use lane_controls::SETTINGS;

/// What each lane is to have, or has: lane 1 first, or bit i-1 for lane i.
#[repr(C)]
#[derive(Clone, Copy)]
pub struct SavedTargets {
    /// Lanes whose transmitter equalizes its input by itself.
    pub adaptive: u8,
    /// Which stored equalization each lane recalls, 0 to 3.
    pub recall: [u8; 8],
    /// The fixed equalization of the input.
    pub fixed_input: [u8; 8],
    /// Lanes whose clock is recovered in the transmitter, and in the receiver.
    pub recover_tx: u8,
    pub recover_rx: u8,
    /// The equalization of the output, before and after the cursor.
    pub pre_cursor: [u8; 8],
    pub post_cursor: [u8; 8],
    /// The code of the output's amplitude.
    pub amplitude: [u8; 8],
}

/// What a module can do.
#[repr(C)]
#[derive(Clone, Copy)]
pub struct SavedLimits {
    /// Bit i: the code i of an amplitude, 0 to 3.
    pub amplitudes: u8,
    /// The greatest codes.
    pub fixed_input: u8,
    pub pre_cursor: u8,
    pub post_cursor: u8,
}

/// What is to be changed.
#[repr(C)]
#[derive(Clone, Copy)]
pub struct SavedSettingsChange {
    /// Host lanes: bit i-1 is lane i.
    pub lanes: u8,
    /// Host lanes that may be disturbed though their path is up.
    pub permitted: u8,
    /// How often settings may be staged again, or be looked for again in the active set.
    pub tries: u8,
    /// Those of other lanes don't count.
    pub targets: SavedTargets,
}

/// A change under way.
#[repr(C)]
#[derive(Clone, Copy)]
pub struct SavedSettings {
    /// What stands in each, so that other memory is not taken for one.
    pub magic: u32,
    /// For how many milliseconds nothing was done.
    pub idle: u32,
    /// How patient it is, in milliseconds.
    pub pause: u32,
    pub limit: u32,
    /// How many operations were made, and how many may be.
    pub steps: u16,
    pub max_steps: u16,
    pub lanes: u8,
    pub tries: u8,
    /// 0 to 9: what is done next, in the order of `SettingsStage`, with three pieces to be stored; 10 if it ended.
    pub stage: u8,
    /// How it ended: 0 to 5, in their order, or 0.
    pub end: u8,
    /// The lane that it ended at, or 0.
    pub end_lane: u8,
    /// How often it may still be tried again.
    pub left: u8,
    /// 1 if it is to pause before the next operation, else 0.
    pub due: u8,
    /// 1 if nothing is known of the page selection after a refusal, else 0.
    pub doubts: u8,
    /// 2 if this page was read back, 1 if that is awaited, else 0.
    pub selection: u8,
    pub page: u16,
    /// 1 if the selection of that page was accepted and isn't read back, else 0.
    pub taken: u8,
    pub taken_page: u16,
    /// Bytes 153 to 173 of page 10h as they are wanted.
    pub settings: [u8; SETTINGS],
    /// Bytes 145 to 173 as they were read.
    pub staged: [u8; 29],
    /// Bytes 153 to 173 as they are to be stored.
    pub mixed: [u8; SETTINGS],
}
