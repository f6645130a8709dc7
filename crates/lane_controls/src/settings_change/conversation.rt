use super::{ChangingSettings, SettingsChange, SettingsEnd, SettingsStage};
use bus_model::Reply;
use conversations::{Conversation, NeedsPages, Next};
use paged_memory::PageAddressing;

impl Conversation for ChangingSettings {
    ghost use Rattle.lane_controls.specs.SettingsChanges.{after, wants};
    ghost use Rattle.lane_controls.specs.SettingsSteps.{GoesOn, HasEnded, IsTold};

    type Topic = SettingsChange;

    type End = SettingsEnd;

    ghost topic = { λ changing. changing.change };

    ghost wants = { wants };

    ghost after = { after };

    ghost told = { λ events changing. IsTold events changing };

    ghost ends = { λ change events end. HasEnded change events end };

    ghost goes_on = { λ change events. GoesOn change events };

    fn next(&self) -> Next<SettingsEnd> {
        self.op()
    }

    fn take(&mut self, reply: &Reply) {
        self.advance(reply);
    }

    fn waited(&mut self) {}

    fn asked(&mut self, _number: u32) {}
}

impl NeedsPages for ChangingSettings {
    ghost use Rattle.std.specs.Prelude.{Some, false};
    ghost use Rattle.paged_memory.specs.declared.page_addressing.PageAddressing.TheVariants.{BankAndPage};
    ghost use Rattle.lane_controls.specs.SettingsChanges.{page_at, settings_after};

    ghost page = { λ changing. page_at changing.stage };

    ghost needs = { λ change events. page_at (settings_after change events).stage };

    ghost addressing = { λ changing. Some BankAndPage };

    ghost addressed = { λ change events. Some BankAndPage };

    ghost may_lack = { λ change. false };

    ghost lacking = { λ changing number. changing };

    fn page(&self) -> Option<u16> {
        match self.stage {
            SettingsStage::States
            | SettingsStage::Controls
            | SettingsStage::Applied
            | SettingsStage::Comparing => Some(STATES_PAGE),
            SettingsStage::Ended(_) => None,
            _ => Some(CONTROLS_PAGE),
        }
    }

    fn addressing(&self) -> Option<PageAddressing> {
        Some(PageAddressing::BankAndPage)
    }

    fn may_lack(&self) -> bool {
        false
    }

    fn lacks(&mut self, _number: u16) {}
}

/// Controls of lanes.
const CONTROLS_PAGE: u16 = 0x10;

/// States of lanes and paths, and the active set.
const STATES_PAGE: u16 = 0x11;
