// The numbers of a port.

use control_sets::{ControlSet, SavedProcedure};

/// How long a port waits, in milliseconds.
#[repr(C)]
#[derive(Clone, Copy)]
pub struct SavedTimes {
    pub settle: u32,
    pub period: u32,
    pub first: u32,
    pub most: u32,
    pub recheck: u32,
}

/// A code of each lane, when it changed last, and how often.
#[repr(C)]
#[derive(Clone, Copy)]
pub struct SavedCodes {
    pub last: [u64; 8],
    pub changes: [u16; 8],
    pub codes: [u8; 8],
}

/// How often each flag of a bank's lanes was read as raised, and when last; and those lanes' data path states and configuration statuses.
#[repr(C)]
#[derive(Clone, Copy)]
pub struct SavedLanes {
    pub counts: [u16; 152],
    pub last: [u64; 152],
    pub states: SavedCodes,
    pub statuses: SavedCodes,
}

/// How often each flag of the module was read as raised, and when last; and the same of the lanes of bank 0.
#[repr(C)]
#[derive(Clone, Copy)]
pub struct SavedFlags {
    pub module_counts: [u16; 32],
    pub module_last: [u64; 32],
    pub lanes: SavedLanes,
}

/// Why a module is left alone: a number, what the memory shows, or the place of a half that is absent.
#[repr(C)]
#[derive(Clone, Copy)]
pub struct SavedLeft {
    /// 1 to 5, or 11 to 16, of which the last digit is the number in the fault's code; 0 if it isn't.
    pub reason: u8,
    pub value: u8,
    pub device: u8,
    pub upper: u8,
    pub bank: u8,
    pub page: u8,
}

/// What the module is to have.
#[repr(C)]
#[derive(Clone, Copy)]
pub struct SavedGoal {
    pub control: ControlSet,
    pub lanes: u8,
    pub outside: u8,
}

/// What works at a module.
#[repr(C)]
#[derive(Clone, Copy)]
pub struct SavedWork {
    /// What a procedure is saved as. Of others what they have of it: of a reading which halves are requested (in place of lanes), and how
    /// many were read or left out.
    pub saved: SavedProcedure,
    /// How many operations may be made.
    pub most: u16,
    /// 1 if the module was woken up before it is read, else 0.
    pub woken: u8,
    /// 1 if nothing is known of the page selection after a refusal, else 0.
    pub doubts: u8,
    /// 1 if the last selection was accepted and isn't read back, where a page may be lacked; else 0.
    pub taken: u8,
    /// The page of that selection, or 0.
    pub taken_page: u16,
    /// How far a look or a change of power has come.
    pub stage: u8,
    /// The byte that a change of power has found, or 0.
    pub found: u8,
}

/// A port, without the memory that its reading has read.
#[repr(C)]
#[derive(Clone, Copy)]
pub struct SavedPort {
    pub flags: SavedFlags,
    pub due: u64,
    pub recheck_at: u64,
    /// When the first of the refusals began.
    pub silent_since: u64,
    pub work: SavedWork,
    pub times: SavedTimes,
    /// What stands in each port, so that other memory is not taken for one.
    pub magic: u32,
    pub back_off: u32,
    /// How many transactions in a row were refused.
    pub refusals: u32,
    /// How many halves its reading has read: the caller's.
    pub half_count: u16,
    /// 0 if no module is there, 1 if it is left alone; 2 to 8 if it is read, woken up, provisioned, activated, looked at as one that is
    /// as wanted, put to sleep, looked at as one whose lanes came up.
    pub stage: u8,
    pub held: u8,
    /// 0 if nothing is, 1 if the reply is awaited, 2 if it is stale, 3 if it is forsaken.
    pub outstanding: u8,
    pub vain: u8,
    /// Of the page that was read to be selected: 2 if one was, and 0.
    pub selection: u8,
    pub page: u16,
    pub goal: SavedGoal,
    pub left: SavedLeft,
    /// What somebody has asked: 1 to sleep, 2 to provision, 3 to deactivate, 0 nothing; and of which lanes.
    pub request: u8,
    pub request_lanes: u8,
    /// Byte 0 of the lower memory, as it was last read, or 0.
    pub identifier: u8,
    /// 1 if an apply was refused, for which the module was read anew.
    pub apply_refused: u8,
}
