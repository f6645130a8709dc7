// What can still be gained from the states that are reached.
ghost use Rattle.std.specs.Prelude.{◌≡◌, ◌+◌, ◌≤◌, ◌<◌, ◌-◌, ◌*◌, All, replicate};
ghost use Rattle.plan_certificate.specs.Plans.{AreAllowed};
ghost use Rattle.plan_certificate.specs.Moves.{LeadsOn, decisions_by};
ghost use Rattle.lane_planner.specs.Marks.{MarksReached};
ghost use Rattle.lane_planner.specs.Tables.{HasGains, IsTable, most_by};

use crate::marks::Marks;
use crate::table::Table;
use applications::{Advert, AppWeights};
use plan_certificate::{FollowedMoves, HOST_LANES, Move, Path, STATES, State};

/// Puts the gains of the marked states into the table, by their places.
pub fn put_gains(
    advert: &Advert,
    weights: &AppWeights,
    kept: &[Path],
    marks: &Marks,
    table: &mut Table,
)
    requires kept { AreAllowed advert.now kept.now }
    requires marks { MarksReached advert.now weights.now kept.now marks.now }
    requires blank { table.old ≡ replicate STATES 0 }
    ensures { HasGains advert.now weights.now kept.now 0 table.new }
{
    let mut moves = FollowedMoves::none();
    for boundary in (0..HOST_LANES).rev() {
        moves.list(advert, weights, kept, boundary);
        let mut from = 256 * usize::from(boundary);
        let end = from + 256;
        while let Some(place) = marks.first(from, end) {
            let state = State::at(place);
            let free = moves.may_stay_free;
            let gain = most(free, moves.moves.as_slice(), table, &state);
            table.put(place, gain);
            from = place + 1;
        }
    }
}

// The most that a decision from the state weighs together with what can be gained where it leads; 0 if there is none.
fn most(may_stay_free: bool, moves: &[Move], table: &Table, state: &State) -> u64
    requires table { IsTable table.now }
    requires open { state.now.boundary < 8 }
    requires lead_on { All (LeadsOn state.now.boundary) moves.now }
    ensures most { result ≡ most_by table.now (decisions_by may_stay_free state.now moves.now) }
    ensures small { result ≤ 17179869180 * (8 - state.now.boundary) }
{
    let mut most = 0;
    if may_stay_free {
        let free = state.free_decision().end;
        most = table.at(free.place());
    }
    for one in moves {
        if one.is_open(state) {
            most = most.max(one.weight + table.at(one.decision(state).end.place()));
        }
    }
    most
}
