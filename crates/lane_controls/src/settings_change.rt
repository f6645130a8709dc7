//! Signal integrity settings for lanes that are up, which stay up: staged, read back, applied at once, and read from the active set.
ghost use Rattle.std.specs.Prelude.{◌≡◌, ◌≤◌, ◌<◌, [], length};
ghost use Rattle.bus_model.specs.Operations.{IsWellShaped};
ghost use Rattle.bus_model.specs.declared.device.Dev.TheVariants.{A0};
ghost use Rattle.bus_model.specs.declared.operation.Op.TheVariants.{Store};
ghost use Rattle.conversations.specs.Wanted.{IfDo};
ghost use Rattle.lane_controls.specs.SettingsChanges as spec;
ghost use Rattle.lane_controls.specs.SettingsSteps as steps;

mod conversation;
mod lanes;
mod turns;

use crate::page_bytes::{read_from, store_at};
use crate::signal_settings::SETTINGS;
use arrayvec::ArrayVec;
use bus_model::{Dev, Op};
use conversations::Next;
use field_tables::LaneSet;
pub use lanes::inactive_lane;

/// How many control bytes stand before the settings.
const CONTROLS: usize = 8;

/// Settings that these host lanes are to have.
#[derive(Clone, Copy)]
pub struct SettingsChange {
    pub lanes: LaneSet,
    /// Bytes 153 to 173 of page 10h, of which those of these lanes count.
    pub settings: [u8; SETTINGS],
    /// How often settings may be staged again, or be looked for again in the active set.
    pub tries: u8,
}

/// How a change of settings ended; with a lane, at the lowest one that is so.
#[derive(Clone, Copy, Debug, PartialEq, Eq, Drop)]
pub enum SettingsEnd {
    /// The lanes have the settings in the active set, as it was read last.
    Active,
    /// It is in neither DPActivated nor DPInitialized: nothing was stored.
    NotUp(u8),
    /// It isn't under explicit control, or its staged control byte isn't the active one: nothing was stored.
    NotExplicit(u8),
    /// Other settings are staged after all tries: nothing was applied.
    NotStaged,
    /// The module rejected it.
    Rejected(u8),
    /// It has other settings in the active set.
    NotActive(u8),
}

/// A part of the settings that one store carries.
#[derive(Clone, Copy)]
pub enum SettingsPiece {
    /// Bytes 153 to 160.
    First,
    /// Bytes 161 to 168.
    Second,
    /// Bytes 169 to 173.
    Third,
}

/// How far a change of settings has come.
#[derive(Clone, Copy)]
pub enum SettingsStage {
    /// Path states are to be read.
    States,
    /// Staged control bytes and settings are to be read.
    Staged,
    /// Active control bytes are to be read.
    Controls,
    /// A piece of the settings is to be staged.
    Storing(SettingsPiece),
    /// They are to be read back.
    Stored,
    /// They are to be applied.
    Applying,
    /// Configuration statuses are to be read.
    Applied,
    /// Active settings are to be read.
    Comparing,
    Ended(SettingsEnd),
}

/// A change of settings under way.
#[derive(Drop)]
pub struct ChangingSettings {
    pub change: SettingsChange,
    pub stage: SettingsStage,
    /// Bytes 145 to 173 of page 10h, once they were read.
    pub staged: [u8; CONTROLS + SETTINGS],
    /// The settings to be staged: the other lanes' as they were read.
    pub mixed: [u8; SETTINGS],
    /// How often it may still be tried again.
    pub tries: u8,
}

impl SettingsChange {
    /// Nothing was done yet.
    pub fn begin(self) -> ChangingSettings
        ensures value { result ≡ spec.begun self }
        ensures told { steps.IsTold [] result }
    {
        let tries = self.tries;
        ChangingSettings {
            change: self,
            stage: SettingsStage::States,
            staged: [0; CONTROLS + SETTINGS],
            mixed: [0; SETTINGS],
            tries,
        }
    }
}

impl ChangingSettings {
    fn op(&self) -> Next<SettingsEnd>
        ensures value { result ≡ spec.wants self.now }
        ensures shape { IfDo result IsWellShaped }
    {
        match self.stage {
            SettingsStage::States => Next::Do(read_from(128, 4)),
            SettingsStage::Staged => Next::Do(read_from(145, 29)),
            SettingsStage::Controls => Next::Do(read_from(206, 8)),
            SettingsStage::Storing(piece) => Next::Do(store_piece(piece, &self.mixed)),
            SettingsStage::Stored => Next::Do(read_from(153, 21)),
            SettingsStage::Applying => Next::Do(store_at(144, self.change.lanes.byte())),
            SettingsStage::Applied => Next::Do(read_from(202, 4)),
            SettingsStage::Comparing => Next::Do(read_from(214, 21)),
            SettingsStage::Ended(end) => Next::End(end),
        }
    }
}

/// Stores a piece of the settings.
pub fn store_piece(piece: SettingsPiece, settings: &[u8; SETTINGS]) -> Op
    ensures value { result ≡ spec.store_piece piece settings.now }
    ensures shape { IsWellShaped result }
{
    match piece {
        SettingsPiece::First => store_from(153, &settings[..8]),
        SettingsPiece::Second => store_from(161, &settings[8..16]),
        SettingsPiece::Third => store_from(169, &settings[16..21]),
    }
}

fn store_from(address: u8, bytes: &[u8]) -> Op
    requires from { 128 ≤ address }
    requires to { address < 248 }
    requires some { 1 ≤ length bytes.now }
    requires few { length bytes.now ≤ 8 }
    ensures value { result ≡ Store A0 address (record { items = bytes.now }) }
    ensures shape { IsWellShaped result }
{
    Op::Store {
        dev: Dev::A0,
        offset: address,
        bytes: listed(bytes),
    }
}

fn listed(bytes: &[u8]) -> ArrayVec<u8, 8>
    requires { length bytes.now ≤ 8 }
    ensures { result.items ≡ bytes.now }
{
    ArrayVec::try_from(bytes).unwrap()
}
