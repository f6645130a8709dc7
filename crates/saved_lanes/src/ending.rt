// How a change of lanes ended, as numbers.
ghost use Rattle.std.specs.Prelude.{◌≡◌};
ghost use Rattle.saved_lanes.specs.Endings as spec;

use crate::saving::numbers_of_end;
use conversations::{Spent, Timed};
use lane_controls::{LaneEnd, PatientLaneProcedure};

/// How a change ended.
#[repr(C)]
#[derive(Clone, Copy)]
pub struct SavedLaneEnd {
    /// 0 if the lanes were as wanted, 1 if they are since, 2 if they differ after an accepted store, 3 after a refused one, 4 if it isn't
    /// permitted, 5 if the module didn't answer for too long, 6 after as many operations as may be.
    pub end: u8,
    /// The control's byte as it was read last, or 0 with 5 and 6.
    pub byte: u8,
    /// The host lanes that it may not disturb, or 0 but with 4.
    pub lanes: u8,
    /// How often it was stored, accepted or refused.
    pub stores: u8,
}

/// The numbers of how it ended.
pub fn ending_of(procedure: &PatientLaneProcedure, spent: &Spent<Timed<LaneEnd>>) -> SavedLaneEnd
    ensures { result ≡ spec.ending_of procedure.now spent.now }
{
    let changing = &procedure.conversation.conversation.conversation;
    let stores = changing.change.max_stores.saturating_sub(changing.left);
    let (end, byte, lanes) = numbers_of_timed(&spent.end);
    SavedLaneEnd {
        end,
        byte,
        lanes,
        stores,
    }
}

fn numbers_of_timed(end: &Option<Timed<LaneEnd>>) -> (u8, u8, u8)
    ensures { result ≡ spec.numbers_of_timed end.now }
{
    match end {
        Some(Timed::InTime(end)) => numbers_of_end(*end),
        Some(Timed::Overdue) => (5, 0, 0),
        None => (6, 0, 0),
    }
}
