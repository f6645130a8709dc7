// Which states decisions from the start reach.
ghost use Rattle.std.specs.Prelude.{◌≡◌, ◌<◌, ◌+◌, All};
ghost use Rattle.plan_certificate.specs.Plans.{AreAllowed};
ghost use Rattle.plan_certificate.specs.Moves.{LeadsOn, decisions_by};
ghost use Rattle.lane_planner.specs.Marks.{MarksEnds, MarksReached, NothingMarked};

use crate::marks::Marks;
use applications::{Advert, AppWeights};
use plan_certificate::{FollowedMoves, HOST_LANES, Move, Path, State};

/// Marks, by their places, the states that decisions from the start reach.
pub fn reached(advert: &Advert, weights: &AppWeights, kept: &[Path], marks: &mut Marks)
    requires kept { AreAllowed advert.now kept.now }
    requires blank { NothingMarked marks.old }
    ensures { MarksReached advert.now weights.now kept.now marks.new }
{
    let mut moves = FollowedMoves::none();
    marks.mark(0);
    for boundary in 0..HOST_LANES {
        moves.list(advert, weights, kept, boundary);
        let mut from = 256 * usize::from(boundary);
        let end = from + 256;
        while let Some(place) = marks.first(from, end) {
            let state = State::at(place);
            let free = moves.may_stay_free;
            mark_ends(marks, free, moves.moves.as_slice(), &state);
            from = place + 1;
        }
    }
}

// Marks where the decisions from a state lead.
fn mark_ends(marks: &mut Marks, may_stay_free: bool, moves: &[Move], state: &State)
    requires open { state.now.boundary < 8 }
    requires lead_on { All (LeadsOn state.now.boundary) moves.now }
    ensures { MarksEnds (decisions_by may_stay_free state.now moves.now) marks.old marks.new }
{
    if may_stay_free {
        let free = state.free_decision().end;
        marks.mark(free.place());
    }
    for one in moves {
        if one.is_open(state) {
            let end = one.decision(state).end;
            marks.mark(end.place());
        }
    }
}
