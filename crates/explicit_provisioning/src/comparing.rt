//! Active settings are compared with those that lanes were to get.
ghost use Rattle.std.specs.Prelude.{◌≡◌, ◌≤◌, ◌+◌};
ghost use Rattle.bus_model.specs.Operations.{IsWellShaped};
ghost use Rattle.conversations.specs.Wanted.{IfDo, IsReplyTo};
ghost use Rattle.explicit_provisioning.specs.Comparing as spec;

use crate::fault::ExplicitFault;
use bus_model::{Dev, Op, Reply};
use conversations::{Conversation, NeedsPages, Next};
use field_tables::LaneNumber;
use lane_controls::{SettingsChange, inactive_lane};
use paged_memory::PageAddressing;

/// Settings that are being looked for in the active set.
#[derive(Drop)]
pub struct ComparingSettings {
    pub change: SettingsChange,
    pub stage: ComparingStage,
}

/// How far that has come.
#[derive(Clone, Copy)]
pub enum ComparingStage {
    /// Active settings are to be read; so often they may be read again.
    Reading(u8),
    /// The lanes have their settings, or why not.
    Ended(Option<ExplicitFault>),
}

impl ComparingStage {
    fn op(self) -> Next<Option<ExplicitFault>>
        ensures value { result ≡ spec.wants self }
        ensures shape { IfDo result IsWellShaped }
    {
        match self {
            ComparingStage::Reading(_) => Next::Do(Op::Fetch {
                dev: Dev::A0,
                offset: 214,
                count: 21,
            }),
            ComparingStage::Ended(fault) => Next::End(fault),
        }
    }

    fn after(self, change: &SettingsChange, reply: &Reply) -> ComparingStage
        requires { IsReplyTo (spec.wants self) reply.now }
        ensures { result ≡ spec.after change.now self reply.now }
    {
        match (self, reply) {
            (ComparingStage::Reading(tries), Reply::Bytes(bytes)) => {
                compared(inactive_lane(change.lanes, &change.settings, bytes), tries)
            }
            (stage, _) => stage,
        }
    }
}

fn compared(inactive: Option<LaneNumber>, tries: u8) -> ComparingStage
    ensures { result ≡ spec.compared inactive tries }
{
    match inactive {
        None => ComparingStage::Ended(None),
        Some(_) if tries > 0 => ComparingStage::Reading(tries - 1),
        Some(lane) => ComparingStage::Ended(Some(ExplicitFault::NotActive(lane.number()))),
    }
}

impl ComparingSettings {
    /// Nothing was done yet.
    pub fn of(change: &SettingsChange) -> ComparingSettings
        ensures { result ≡ record { change = change.now; stage = spec.begun change.now } }
    {
        let settings = change.settings;
        ComparingSettings {
            change: SettingsChange {
                lanes: change.lanes,
                settings,
                tries: change.tries,
            },
            stage: ComparingStage::Reading(change.tries),
        }
    }
}

impl Conversation for ComparingSettings {
    ghost use Rattle.explicit_provisioning.specs.Comparing as spec;

    type Topic = SettingsChange;

    type End = Option<ExplicitFault>;

    ghost topic = { λ it. it.change };

    ghost wants = { λ it. spec.wants it.stage };

    ghost after = { λ it reply. record it { stage = spec.after it.change it.stage reply } };

    ghost told = { λ events it. spec.IsComparingTold it.change events it.stage };

    ghost ends = { λ change events fault. spec.ComparingEnds change events fault };

    ghost goes_on = { λ change events. spec.ComparingGoesOn change events };

    fn next(&self) -> Next<Option<ExplicitFault>> {
        self.stage.op()
    }

    fn take(&mut self, reply: &Reply) {
        self.stage = self.stage.after(&self.change, reply);
    }

    fn waited(&mut self) {}

    fn asked(&mut self, _number: u32) {}
}

impl NeedsPages for ComparingSettings {
    ghost use Rattle.std.specs.Prelude.{Some, false};
    ghost use Rattle.paged_memory.specs.declared.page_addressing.PageAddressing.TheVariants.{BankAndPage};
    ghost use Rattle.explicit_provisioning.specs.Comparing as spec;

    ghost page = { λ it. spec.page_at it.stage };

    ghost needs = { spec.comparing_needs };

    ghost addressing = { λ it. Some BankAndPage };

    ghost addressed = { λ change events. Some BankAndPage };

    ghost may_lack = { λ change. false };

    ghost lacking = { λ it number. it };

    fn page(&self) -> Option<u16> {
        match self.stage {
            ComparingStage::Reading(_) => Some(ACTIVE_SET_PAGE),
            ComparingStage::Ended(_) => None,
        }
    }

    fn addressing(&self) -> Option<PageAddressing> {
        Some(PageAddressing::BankAndPage)
    }

    fn may_lack(&self) -> bool {
        false
    }

    fn lacks(&mut self, _number: u16) {}
}

/// The active set.
const ACTIVE_SET_PAGE: u16 = 0x11;
