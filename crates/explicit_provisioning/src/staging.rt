//! Settings are staged among those of other lanes, and read back.
ghost use Rattle.std.specs.Prelude.{◌≡◌, ◌≤◌, ◌+◌};
ghost use Rattle.bus_model.specs.Operations.{IsWellShaped};
ghost use Rattle.conversations.specs.Wanted.{IfDo, IsReplyTo};
ghost use Rattle.conversations.specs.Watching.{read_state};
ghost use Rattle.lane_controls.specs.SettingsChanges.{read_from};
ghost use Rattle.explicit_provisioning.specs.Staging as spec;

use crate::fault::ExplicitFault;
use crate::following::Leads;
use bus_model::{Dev, Op, Reply};
use control_sets::ProvisionFault;
use conversations::{Conversation, NeedsPages, Next};
use field_tables::{Register, field, number_in_byte, register};
use lane_controls::{SETTINGS, SettingsChange, SettingsPiece, store_piece};
use module_states::{ModuleState, state_of};
use paged_memory::PageAddressing;

/// Settings that are being staged.
#[derive(Drop)]
pub struct StagingSettings {
    pub change: SettingsChange,
    pub stage: StagingStage,
}

/// How far that has come.
#[derive(Clone, Copy)]
pub enum StagingStage {
    /// The module's state is to be read.
    Finding,
    /// What is staged is to be read.
    Reading,
    /// A piece of these settings is to be stored; so often all may be stored again.
    Storing(SettingsPiece, [u8; SETTINGS], u8),
    /// They are to be read back.
    Stored([u8; SETTINGS], u8),
    /// They are staged, or why not.
    Ended(Option<ExplicitFault>),
}

impl StagingStage {
    fn op(self) -> Next<Option<ExplicitFault>>
        ensures value { result ≡ spec.wants self }
        ensures shape { IfDo result IsWellShaped }
    {
        match self {
            StagingStage::Finding => Next::Do(read_state()),
            StagingStage::Reading => Next::Do(read_controls(145, 29)),
            StagingStage::Storing(piece, settings, _) => Next::Do(store_piece(piece, &settings)),
            StagingStage::Stored(_, _) => Next::Do(read_controls(153, 21)),
            StagingStage::Ended(fault) => Next::End(fault),
        }
    }

    fn after(self, change: &SettingsChange, reply: &Reply) -> StagingStage
        requires { IsReplyTo (spec.wants self) reply.now }
        ensures { result ≡ spec.after change.now self reply.now }
    {
        match (self, reply) {
            (StagingStage::Finding, Reply::Bytes(bytes)) => {
                found(number_in_byte(field!(Cmis ModuleState), bytes[0]))
            }
            (StagingStage::Reading, Reply::Bytes(bytes)) => {
                StagingStage::Storing(SettingsPiece::First, change.mixed(bytes), change.tries)
            }
            (StagingStage::Storing(piece, settings, tries), _) => {
                after_piece(piece, settings, tries)
            }
            (StagingStage::Stored(settings, tries), Reply::Bytes(bytes)) => {
                checked(bytes, settings, tries)
            }
            (stage, _) => stage,
        }
    }
}

// By the code of the module's state.
fn found(code: u8) -> StagingStage
    ensures { result ≡ spec.found code }
{
    match state_of(code) {
        Ok(ModuleState::Ready) => StagingStage::Reading,
        Ok(_) => fails(ProvisionFault::ModuleState(code)),
        Err(_) => fails(ProvisionFault::Reserved(code)),
    }
}

fn fails(fault: ProvisionFault) -> StagingStage
    ensures { result ≡ spec.fails fault }
{
    StagingStage::Ended(Some(ExplicitFault::Provision(fault)))
}

fn after_piece(piece: SettingsPiece, settings: [u8; SETTINGS], tries: u8) -> StagingStage
    ensures { result ≡ spec.after_piece piece settings tries }
{
    match piece {
        SettingsPiece::First => StagingStage::Storing(SettingsPiece::Second, settings, tries),
        SettingsPiece::Second => StagingStage::Storing(SettingsPiece::Third, settings, tries),
        SettingsPiece::Third => StagingStage::Stored(settings, tries),
    }
}

fn checked(bytes: &[u8], settings: [u8; SETTINGS], tries: u8) -> StagingStage
    ensures { result ≡ spec.checked bytes.now settings tries }
{
    if bytes == settings.as_slice() {
        StagingStage::Ended(None)
    } else if tries > 0 {
        StagingStage::Storing(SettingsPiece::First, settings, tries - 1)
    } else {
        StagingStage::Ended(Some(ExplicitFault::NotStaged))
    }
}

// Reads the module's state.
fn read_state() -> Op
    ensures value { result ≡ read_state }
    ensures shape { IsWellShaped result }
{
    let span = register(Register::GlobalStatus);
    Op::Fetch {
        dev: span.dev,
        offset: span.first,
        count: span.count(),
    }
}

impl StagingSettings {
    /// Nothing was done yet.
    pub fn of(change: &SettingsChange) -> StagingSettings
        ensures { result ≡ record { change = change.now; stage = spec.begun } }
    {
        let settings = change.settings;
        StagingSettings {
            change: SettingsChange {
                lanes: change.lanes,
                settings,
                tries: change.tries,
            },
            stage: StagingStage::Finding,
        }
    }
}

impl Conversation for StagingSettings {
    ghost use Rattle.explicit_provisioning.specs.Staging as spec;

    type Topic = SettingsChange;

    type End = Option<ExplicitFault>;

    ghost topic = { λ it. it.change };

    ghost wants = { λ it. spec.wants it.stage };

    ghost after = { λ it reply. record it { stage = spec.after it.change it.stage reply } };

    ghost told = { λ events it. spec.IsStagingTold it.change events it.stage };

    ghost ends = { λ change events fault. spec.StagingEnds change events fault };

    ghost goes_on = { λ change events. spec.StagingGoesOn change events };

    fn next(&self) -> Next<Option<ExplicitFault>> {
        self.stage.op()
    }

    fn take(&mut self, reply: &Reply) {
        self.stage = self.stage.after(&self.change, reply);
    }

    fn waited(&mut self) {}

    fn asked(&mut self, _number: u32) {}
}

impl NeedsPages for StagingSettings {
    ghost use Rattle.std.specs.Prelude.{Some, false};
    ghost use Rattle.paged_memory.specs.declared.page_addressing.PageAddressing.TheVariants.{BankAndPage};
    ghost use Rattle.explicit_provisioning.specs.Staging as spec;

    ghost page = { λ it. spec.page_at it.stage };

    ghost needs = { spec.staging_needs };

    ghost addressing = { λ it. Some BankAndPage };

    ghost addressed = { λ change events. Some BankAndPage };

    ghost may_lack = { λ change. false };

    ghost lacking = { λ it number. it };

    fn page(&self) -> Option<u16> {
        match self.stage {
            StagingStage::Finding | StagingStage::Ended(_) => None,
            _ => Some(CONTROLS_PAGE),
        }
    }

    fn addressing(&self) -> Option<PageAddressing> {
        Some(PageAddressing::BankAndPage)
    }

    fn may_lack(&self) -> bool {
        false
    }

    fn lacks(&mut self, _number: u16) {}
}

impl Leads for StagingSettings {
    ghost use Rattle.std.specs.Prelude.{is_none};
    ghost use Rattle.explicit_provisioning.specs.Staging.{is_staged};

    ghost passes = { is_none };

    ghost over = { is_staged };

    fn is_over(&self) -> bool {
        matches!(self.stage, StagingStage::Ended(None))
    }
}

// Reads bytes of page 10h.
fn read_controls(address: u8, count: u8) -> Op
    requires some { 1 ≤ count }
    requires from { 128 ≤ address }
    requires to { address + count ≤ 256 }
    ensures value { result ≡ read_from address count }
    ensures shape { IsWellShaped result }
{
    Op::Fetch {
        dev: Dev::A0,
        offset: address,
        count,
    }
}

/// Controls of lanes.
const CONTROLS_PAGE: u16 = 0x10;
