//! A control of page 10h changed for some lanes alone.
ghost use Rattle.std.specs.Prelude.{◌≡◌, ℕ, [], if◌then◌else◌, length};
ghost use Rattle.std.specs.FinSet as set;
ghost use Rattle.field_tables.specs.LaneSets.{lanes_in};
ghost use Rattle.conversations.specs.Wanted.{IfDo, IsReplyTo};
ghost use Rattle.lane_controls.specs.LaneChanges as spec;

use crate::control::hosts_of;
use crate::lane_register::LaneRegister;
use crate::merging::merged;
use crate::page_bytes::{read_at, read_from, store_at};
use crate::path_lanes::up_lanes;
use bus_model::Reply;
use conversations::{Conversation, NeedsPages, Next};
use field_tables::LaneSet;
use paged_memory::PageAddressing;

/// A control that is to be 1 or 0 for these lanes, and to stay as it is for the others.
#[derive(Clone, Copy, Debug, PartialEq, Eq)]
pub struct LaneChange {
    pub register: LaneRegister,
    pub lanes: LaneSet,
    pub on: bool,
    /// How often it may be stored.
    pub max_stores: u8,
    /// Host lanes that it may disturb though their path is up: bit i-1 is lane i.
    pub permitted: u8,
    /// The host lanes of each media lane's path; all eight where that isn't known.
    pub media_paths: [u8; 8],
}

/// How a change of lanes ended: the byte as it was read last.
#[derive(Clone, Copy, Debug, PartialEq, Eq, Drop)]
pub enum LaneEnd {
    /// The lanes had it already: nothing was stored.
    Unchanged(u8),
    /// It was stored, and read back since.
    Changed(u8),
    /// The module accepted the last store, and the lanes differ from it.
    Ignored(u8),
    /// The module refused the last store, and it had no effect.
    Refused(u8),
    /// The paths of these host lanes are up, and may not be disturbed: bit i-1 is lane i. Nothing was stored since the byte was read.
    NotPermitted { byte: u8, lanes: u8 },
}

/// How far a change of lanes has come.
#[derive(Clone, Copy, Debug, PartialEq, Eq)]
pub enum LaneStage {
    /// The byte is to be read, at first or since it was stored.
    Unread,
    /// It was read so, and is to be changed; which paths are up is to be read.
    Found(u8),
    /// None of them stands against that, and it is to be stored.
    Admitted(u8),
    Ended(LaneEnd),
}

/// A change of lanes under way.
#[derive(Clone, Copy, Debug, PartialEq, Eq, Drop)]
pub struct ChangingLanes {
    pub change: LaneChange,
    pub stage: LaneStage,
    /// How often it may still be stored.
    pub left: u8,
    /// Whether the last store was refused.
    pub refused: bool,
}

impl LaneChange {
    /// Nothing was read or stored yet.
    pub fn begin(self) -> ChangingLanes
        ensures value { result ≡ spec.begun self }
        ensures told { spec.IsTold [] result }
    {
        let left = self.max_stores;
        ChangingLanes {
            change: self,
            stage: LaneStage::Unread,
            left,
            refused: false,
        }
    }

    /// The byte to be stored where this one was read: as wanted for its lanes, and unchanged for the others.
    pub fn wanted(self, byte: u8) -> u8
        ensures value { result ≡ spec.wanted_byte self byte }
        ensures lanes { (lane : ℕ) → set.contains (lanes_in result) lane ≡ (if set.contains self.lanes lane then self.on else set.contains (lanes_in byte) lane) }
    {
        merged(self.lanes.byte(), bits_of(self.on), byte)
    }

    fn host_lanes(self) -> u8
        ensures { result ≡ spec.concerned self }
    {
        let lanes = self.lanes.byte();
        if self.register.is_media() {
            hosts_of(&self.media_paths, lanes)
        } else {
            lanes
        }
    }

    // The host lanes that it would disturb without permission.
    #[tactic(auto, unfolding(crate::specs::LaneChanges::disturbed))]
    fn disturbed(self, states: &[u8]) -> u8
        requires { length states.now ≡ 4 }
        ensures { result ≡ spec.disturbed self states.now }
    {
        let permitted = self.permitted;
        self.host_lanes() & up_lanes(states) & !permitted
    }
}

fn bits_of(on: bool) -> u8
    ensures { result ≡ spec.bits_of on }
{
    if on { 255 } else { 0 }
}

impl ChangingLanes {
    // Takes a reply.
    fn advance(&mut self, reply: &Reply)
        requires { IsReplyTo (spec.wants self.old) reply.now }
        ensures { self.new ≡ spec.after self.old reply.now }
    {
        match self.stage {
            LaneStage::Unread => {
                if let Reply::Bytes(bytes) = reply {
                    self.stage = self.stage_read(bytes[0]);
                }
            }
            LaneStage::Found(byte) => {
                if let Reply::Bytes(bytes) = reply {
                    self.stage = self.stage_looked(byte, bytes);
                }
            }
            LaneStage::Admitted(_) => {
                self.stage = LaneStage::Unread;
                self.left = self.left.saturating_sub(1);
                self.refused = matches!(reply, Reply::Refused);
            }
            LaneStage::Ended(_) => {}
        }
    }

    fn stage_read(&self, byte: u8) -> LaneStage
        ensures { result ≡ spec.stage_read self.now byte }
    {
        if self.change.wanted(byte) == byte {
            return LaneStage::Ended(self.end_as_wanted(byte));
        }
        if self.left > 0 {
            return LaneStage::Found(byte);
        }
        LaneStage::Ended(self.end_otherwise(byte))
    }

    fn stage_looked(&self, byte: u8, states: &[u8]) -> LaneStage
        requires { length states.now ≡ 4 }
        ensures { result ≡ spec.stage_looked self.now.change byte states.now }
    {
        let lanes = self.change.disturbed(states);
        if lanes == 0 {
            LaneStage::Admitted(byte)
        } else {
            LaneStage::Ended(LaneEnd::NotPermitted { byte, lanes })
        }
    }

    fn end_as_wanted(&self, byte: u8) -> LaneEnd
        ensures { result ≡ spec.end_as_wanted self.now.left self.now.change.max_stores byte }
    {
        if self.left == self.change.max_stores {
            LaneEnd::Unchanged(byte)
        } else {
            LaneEnd::Changed(byte)
        }
    }

    fn end_otherwise(&self, byte: u8) -> LaneEnd
        ensures { result ≡ spec.end_otherwise self.now.refused byte }
    {
        if self.refused {
            LaneEnd::Refused(byte)
        } else {
            LaneEnd::Ignored(byte)
        }
    }
}

impl Conversation for ChangingLanes {
    ghost use Rattle.conversations.specs.Events.{steps_of};
    ghost use Rattle.lane_controls.specs.LaneChanges.{AreLaneSteps, HasEnded, IsTold, after, wants};

    type Topic = LaneChange;

    type End = LaneEnd;

    ghost topic = { λ changing. changing.change };

    ghost wants = { wants };

    ghost after = { after };

    ghost told = { λ events changing. IsTold (steps_of events) changing };

    ghost ends = { λ change events end. HasEnded change (steps_of events) end };

    ghost goes_on = { λ change events. AreLaneSteps change (steps_of events) };

    fn next(&self) -> Next<LaneEnd> {
        let address = self.change.register.address();
        match self.stage {
            LaneStage::Unread => Next::Do(read_at(address)),
            LaneStage::Found(_) => Next::Do(read_from(128, 4)),
            LaneStage::Admitted(byte) => Next::Do(store_at(address, self.change.wanted(byte))),
            LaneStage::Ended(end) => Next::End(end),
        }
    }

    fn take(&mut self, reply: &Reply) {
        self.advance(reply);
    }

    fn waited(&mut self) {}

    fn asked(&mut self, _number: u32) {}
}

impl NeedsPages for ChangingLanes {
    ghost use Rattle.std.specs.Prelude.{Some, false};
    ghost use Rattle.conversations.specs.Events.{steps_of};
    ghost use Rattle.lane_controls.specs.LaneChanges.{lane_after, page_at};
    ghost use Rattle.paged_memory.specs.declared.page_addressing.PageAddressing.TheVariants.{BankAndPage};

    ghost page = { λ changing. page_at changing.stage };

    ghost needs = { λ change events. page_at (lane_after change (steps_of events)).stage };

    ghost addressing = { λ changing. Some BankAndPage };

    ghost addressed = { λ change events. Some BankAndPage };

    ghost may_lack = { λ change. false };

    ghost lacking = { λ changing number. changing };

    fn page(&self) -> Option<u16> {
        match self.stage {
            LaneStage::Unread | LaneStage::Admitted(_) => Some(CONTROLS_PAGE),
            LaneStage::Found(_) => Some(STATES_PAGE),
            LaneStage::Ended(_) => None,
        }
    }

    fn addressing(&self) -> Option<PageAddressing> {
        Some(PageAddressing::BankAndPage)
    }

    fn may_lack(&self) -> bool {
        false
    }

    fn lacks(&mut self, _number: u16) {}
}

/// Controls of lanes.
const CONTROLS_PAGE: u16 = 0x10;

/// States of lanes and paths.
const STATES_PAGE: u16 = 0x11;
