// The numbers of provisioning with settings.
use control_sets::{SavedFault, SavedProcedure};
use lane_controls::SETTINGS;

/// Why it failed, if it did.
#[repr(C)]
#[derive(Clone, Copy)]
pub struct SavedExplicitFault {
    /// 0 if it didn't, 1 if as without settings, 2 if other settings are staged, 3 if a lane has other active settings.
    pub kind: u8,
    /// That lane, or 0.
    pub lane: u8,
    /// As without settings, or zeros.
    pub provision: SavedFault,
}

/// How far staging or comparing has come.
#[repr(C)]
#[derive(Clone, Copy)]
pub struct SavedStage {
    /// Of staging 0 to 5: what is done next, in the order of `StagingStage`, with three pieces to be stored; 6 if it ended. Of comparing 0,
    /// or 1 if it ended.
    pub stage: u8,
    /// How often it may still be tried again, or 0.
    pub left: u8,
    pub fault: SavedExplicitFault,
}

/// Provisioning with settings under way.
#[repr(C)]
#[derive(Clone, Copy)]
pub struct SavedExplicit {
    /// What stands in each, so that other memory is not taken for one.
    pub magic: u32,
    /// Its tasks, and all that a procedure of these has besides.
    pub procedure: SavedProcedure,
    pub staging: SavedStage,
    pub comparing: SavedStage,
    /// 0 if no look at the module's state is due, 1 if one is, 2 if one showed another state than ModuleReady.
    pub look: u8,
    /// The code that it showed, or 0.
    pub left: u8,
    /// The host lanes whose settings are changed: bit i-1 is lane i.
    pub lanes: u8,
    /// How often settings may be staged again, or be looked for again in the active set.
    pub tries: u8,
    /// Bytes 153 to 173 of page 10h as they are wanted.
    pub settings: [u8; SETTINGS],
    /// The same as they are to be stored, or zeros.
    pub mixed: [u8; SETTINGS],
}
