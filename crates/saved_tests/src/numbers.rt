// The numbers of a link test.

/// Bits of a control of page 13h that are switched.
#[repr(C)]
#[derive(Clone, Copy, Default)]
pub struct SavedSwitch {
    /// The control's byte on page 13h; 0 where there is none.
    pub control: u8,
    /// Which bits.
    pub mask: u8,
    /// To what.
    pub bits: u8,
}

/// A control that was switched.
#[repr(C)]
#[derive(Clone, Copy, Default)]
pub struct SavedChange {
    pub switch: SavedSwitch,
    /// Its byte before.
    pub original: u8,
}

/// What a link test is to do.
#[repr(C)]
#[derive(Clone, Copy)]
pub struct SavedTestPlan {
    /// How many milliseconds pass before each time that results are read.
    pub period: u32,
    /// How many of the switches count.
    pub count: u8,
    /// Host lanes that it may disturb though their path is up.
    pub permitted: u8,
    /// How often a control may be stored again.
    pub tries: u8,
    /// The code that selects its results.
    pub results: u8,
    /// How often they are read.
    pub rounds: u8,
    /// The host lanes of each media lane's path; all eight where that isn't known.
    pub media_paths: [u8; 8],
    pub switches: [SavedSwitch; 16],
}

/// A test under way.
#[repr(C)]
#[derive(Clone, Copy)]
pub struct SavedTest {
    /// What stands in each, so that other memory is not taken for one.
    pub magic: u32,
    /// For how many milliseconds nothing was done.
    pub idle: u32,
    /// How patient it is, in milliseconds.
    pub pause: u32,
    pub limit: u32,
    pub plan: SavedTestPlan,
    /// How many switches of the plan were begun.
    pub next_switch: usize,
    /// How many operations were made, and how many may be.
    pub steps: u16,
    pub max_steps: u16,
    /// How far it has come: 0 to 14, in the order of the stages.
    pub stage: u8,
    /// The byte that the control in hand showed, or 0.
    pub byte: u8,
    /// What is in hand, or zeros.
    pub hand: SavedChange,
    /// How often the control in hand may be stored again.
    pub tries: u8,
    /// How often results are still to be read.
    pub rounds: u8,
    /// Why it was broken off: 1 to 9, in the order of the faults, or 0; and of which control, or 0.
    pub fault: u8,
    pub fault_control: u8,
    /// How many controls are on, couldn't be switched off, and how many bytes of results were read.
    pub on_count: u8,
    pub still_on_count: u8,
    pub result_count: u8,
    /// 1 if it is to pause before the next operation, else 0.
    pub due: u8,
    /// 1 if nothing is known of the page selection after a refusal, else 0.
    pub doubts: u8,
    /// 2 if this page was read back, 1 if that is awaited, else 0.
    pub selection: u8,
    pub page: u16,
    /// 1 if the selection of that page was accepted and isn't read back, else 0.
    pub taken: u8,
    pub taken_page: u16,
    pub flags: [u8; 8],
    pub on: [SavedChange; 16],
    pub still_on: [SavedChange; 16],
    pub results: [u8; 128],
}
