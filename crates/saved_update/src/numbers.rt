// The numbers of what works at a module's firmware.

/// How long the module may need, in milliseconds, as far as it has said that.
#[repr(C)]
#[derive(Clone, Copy)]
pub struct SavedDurations {
    pub start: u32,
    pub abort: u32,
    pub block: u32,
    pub complete: u32,
}

/// A command on its way.
#[repr(C)]
#[derive(Clone, Copy)]
pub struct SavedDelivery {
    /// For how many milliseconds nothing was done.
    pub idle: u32,
    /// How many operations were made.
    pub steps: u16,
    /// 0 to 8, in their order.
    pub phase: u8,
    /// The byte from which on the body is stored next, or up to which it is read back, or how long the reply is.
    pub at: u8,
    /// The check code of the reply.
    pub check: u8,
    /// 1 if it is to pause before the next operation, else 0.
    pub due: u8,
    /// 2 if this page was read back, 1 if that is awaited, else 0.
    pub selection: u8,
    pub page: u16,
    /// 1 if the selection of that page was accepted and isn't read back, else 0.
    pub taken: u8,
    pub taken_page: u16,
    /// 0 if nothing came of it yet; 1 if it succeeded, 2 if it failed, 3 if it was not sent, 4 if that is unknown.
    pub outcome: u8,
    /// With which status it failed, or 0.
    pub status: u8,
    /// How many bytes the reply has.
    pub count: u8,
    /// Those bytes, and zeros after them.
    pub reply: [u8; 128],
}

/// How far an update has come.
#[repr(C)]
#[derive(Clone, Copy)]
pub struct SavedStage {
    /// From which address on blocks are sent, or 0.
    pub address: u32,
    /// 0 to 8, in their order.
    pub stage: u8,
    /// How many bytes a Start takes, or 0.
    pub header: u8,
    /// 1 if the bank that ran is the second, else 0.
    pub old: u8,
}

/// An update, or a single command.
#[repr(C)]
#[derive(Clone, Copy)]
pub struct SavedUpdate {
    /// What stands in each, so that other memory is not taken for one.
    pub magic: u32,
    /// How many bytes the file has.
    pub size: u32,
    pub durations: SavedDurations,
    pub stage: SavedStage,
    pub password: u32,
    /// 0 for an update; 1 to 5 for a single command.
    pub work: u8,
    /// 1 if the update ends before the Commit, else 0.
    pub held: u8,
    /// How often the command may be sent again.
    pub tries: u8,
    /// Why it has failed: 1 to 6, in their order, or 0.
    pub fault: u8,
    /// The status with which the module refused, or 0.
    pub status: u8,
    /// 1 if a download that a fault left open was aborted, 2 if that can't be, else 0.
    pub closing: u8,
    pub delivery: SavedDelivery,
}
