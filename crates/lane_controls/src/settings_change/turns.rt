//! What a reply makes of a change of settings.
ghost use Rattle.std.specs.Prelude.{◌≡◌, length};
ghost use Rattle.conversations.specs.Wanted.{IsReplyTo};
ghost use Rattle.lane_controls.specs.declared.settings_change.SettingsStage.TheVariants as stage;
ghost use Rattle.lane_controls.specs.SettingsChanges as spec;

use super::lanes::{down_lane, inactive_lane, rejected_lane, unfit_lane, waiting_lane};
use super::{ChangingSettings, SettingsEnd, SettingsPiece, SettingsStage};
use bus_model::Reply;
use field_tables::LaneNumber;

impl ChangingSettings {
    fn end(&mut self, end: SettingsEnd)
        ensures { self.new ≡ spec.goes_to (stage.Ended end) self.old }
    {
        self.stage = SettingsStage::Ended(end);
    }

    fn states_read(&mut self, states: &[u8])
        requires { length states.now ≡ 4 }
        ensures { self.new ≡ spec.states_read states.now self.old }
    {
        match down_lane(self.change.lanes, states) {
            Some(lane) => self.end(SettingsEnd::NotUp(lane.number())),
            None => self.stage = SettingsStage::Staged,
        }
    }

    fn controls_read(&mut self, active: &[u8])
        requires { length active.now ≡ 8 }
        ensures { self.new ≡ spec.controls_read active.now self.old }
    {
        match unfit_lane(self.change.lanes, &self.staged, active) {
            Some(lane) => self.end(SettingsEnd::NotExplicit(lane.number())),
            None => {
                self.mixed = self.change.mixed(&self.staged);
                self.stage = SettingsStage::Storing(SettingsPiece::First);
            }
        }
    }

    fn stored_read(&mut self, bytes: &[u8])
        ensures { self.new ≡ spec.stored_read bytes.now self.old }
    {
        if bytes == self.mixed.as_slice() {
            self.stage = SettingsStage::Applying;
        } else if self.tries > 0 {
            self.stage = SettingsStage::Storing(SettingsPiece::First);
            self.tries -= 1;
        } else {
            self.end(SettingsEnd::NotStaged);
        }
    }

    fn statuses_read(&mut self, statuses: &[u8])
        requires { length statuses.now ≡ 4 }
        ensures { self.new ≡ spec.statuses_read statuses.now self.old }
    {
        match rejected_lane(self.change.lanes, statuses) {
            Some(lane) => self.end(SettingsEnd::Rejected(lane.number())),
            None => self.compare_unless(waiting_lane(self.change.lanes, statuses)),
        }
    }

    fn compare_unless(&mut self, waiting: Option<LaneNumber>)
        ensures { self.new ≡ spec.if_waiting waiting (spec.goes_to stage.Comparing self.old) self.old }
    {
        match waiting {
            Some(_lane) => {}
            None => self.stage = SettingsStage::Comparing,
        }
    }

    fn active_read(&mut self, active: &[u8])
        requires { length active.now ≡ 21 }
        ensures { self.new ≡ spec.active_read active.now self.old }
    {
        let inactive = self.inactive(active);
        self.active_by(inactive);
    }

    fn inactive(&self, active: &[u8]) -> Option<LaneNumber>
        requires { length active.now ≡ 21 }
        ensures { result ≡ spec.inactive_lane self.now.change.lanes self.now.change.settings active.now }
    {
        inactive_lane(self.change.lanes, &self.change.settings, active)
    }

    fn active_by(&mut self, inactive: Option<LaneNumber>)
        ensures { self.new ≡ spec.active_by inactive self.old }
    {
        match inactive {
            None => self.end(SettingsEnd::Active),
            Some(_) if self.tries > 0 => {
                self.stage = SettingsStage::Applied;
                self.tries -= 1;
            }
            Some(lane) => self.end(SettingsEnd::NotActive(lane.number())),
        }
    }

    // Takes a reply.
    pub(super) fn advance(&mut self, reply: &Reply)
        requires { IsReplyTo (spec.wants self.old) reply.now }
        ensures { self.new ≡ spec.after self.old reply.now }
    {
        match (self.stage, reply) {
            (SettingsStage::States, Reply::Bytes(bytes)) => self.states_read(bytes),
            (SettingsStage::Staged, Reply::Bytes(bytes)) => {
                self.stage = SettingsStage::Controls;
                self.staged.copy_from_slice(bytes);
            }
            (SettingsStage::Controls, Reply::Bytes(bytes)) => self.controls_read(bytes),
            (SettingsStage::Storing(piece), _) => self.stage = stage_after(piece),
            (SettingsStage::Stored, Reply::Bytes(bytes)) => self.stored_read(bytes),
            (SettingsStage::Applying, Reply::Done) => self.stage = SettingsStage::Applied,
            (SettingsStage::Applied, Reply::Bytes(bytes)) => self.statuses_read(bytes),
            (SettingsStage::Comparing, Reply::Bytes(bytes)) => self.active_read(bytes),
            _ => {}
        }
    }
}

fn stage_after(piece: SettingsPiece) -> SettingsStage
    ensures { result ≡ spec.stage_after piece }
{
    match piece {
        SettingsPiece::First => SettingsStage::Storing(SettingsPiece::Second),
        SettingsPiece::Second => SettingsStage::Storing(SettingsPiece::Third),
        SettingsPiece::Third => SettingsStage::Stored,
    }
}
