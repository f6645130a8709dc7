// The numbers of a change of lanes.

/// What is to be changed.
#[repr(C)]
#[derive(Clone, Copy)]
pub struct SavedLaneChange {
    /// Which control: 0 to 7, in the order of their bytes.
    pub control: u8,
    /// For which lanes: bit i-1 is lane i.
    pub lanes: u8,
    /// 1 if it is to be 1 for them, else 0.
    pub on: u8,
    /// How often it may be stored.
    pub max_stores: u8,
    /// Host lanes that it may disturb though their path is up.
    pub permitted: u8,
    /// The host lanes of each media lane's path; all eight where that isn't known.
    pub media_paths: [u8; 8],
}

/// A change under way.
#[repr(C)]
#[derive(Clone, Copy)]
pub struct SavedChanging {
    /// What stands in each, so that other memory is not taken for one.
    pub magic: u32,
    /// For how many milliseconds nothing was done.
    pub idle: u32,
    /// How patient it is, in milliseconds.
    pub pause: u32,
    pub limit: u32,
    /// How many operations were made, and how many may be.
    pub steps: u16,
    pub max_steps: u16,
    pub change: SavedLaneChange,
    /// 0 if the control is unread, 1 if it was found, 2 if the change is admitted, 3 if it ended.
    pub stage: u8,
    /// How it ended: 0 to 4, in their order, or 0.
    pub end: u8,
    /// The control's byte as it was read, or 0.
    pub byte: u8,
    /// The host lanes that would be disturbed, or 0.
    pub disturbed: u8,
    /// How often it may still be stored.
    pub left: u8,
    /// 1 if the last store was refused, else 0.
    pub refused: u8,
    /// 1 if it is to pause before the next operation, else 0.
    pub due: u8,
    /// 1 if nothing is known of the page selection after a refusal, else 0.
    pub doubts: u8,
    /// 2 if this page was read back, 1 if that is awaited, else 0.
    pub selection: u8,
    pub page: u16,
    /// 1 if the selection of that page was accepted and isn't read back, else 0.
    pub taken: u8,
    pub taken_page: u16,
}
