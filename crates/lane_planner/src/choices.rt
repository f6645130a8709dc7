// The path that the plan takes at each state.
ghost use Rattle.std.specs.Prelude.{◌≡◌, ◌+◌, ◌<◌, All, IfSome, find};
ghost use Rattle.plan_certificate.specs.Plans.{IsAdmissible};
ghost use Rattle.plan_certificate.specs.Moves.{LeadsOn};
ghost use Rattle.lane_planner.specs.Tables.{HasGains, IsReadOff, IsTable, move_keeps_gain};

use crate::table::Table;
use applications::{Advert, AppWeights};
use arrayvec::ArrayVec;
use plan_certificate::{HOST_LANES, Move, Path, Plan, State, is_among, put_moves};

/// The plan that the gains lead to, from the start upwards.
pub fn read_off(advert: &Advert, weights: &AppWeights, kept: &[Path], table: &Table) -> Plan
    requires kept { IsAdmissible advert.now kept.now }
    requires gains { HasGains advert.now weights.now kept.now 0 table.now }
    ensures { IsReadOff advert.now weights.now kept.now table.now result }
{
    let mut state = State::start();
    let mut paths = ArrayVec::new();
    let mut moves = ArrayVec::new();
    while state.boundary < HOST_LANES {
        put_moves(&mut moves, advert, weights, kept, state.boundary + 1);
        match chosen(moves.as_slice(), kept, table, &state) {
            Some(one) => {
                paths.push(one.path);
                state = one.decision(&state).end;
            }
            None => state = state.free_decision().end,
        }
    }
    Plan { paths }
}

// The first move that is open, weighs something or is a kept path's, and after which the state's whole gain can still be
// had.
fn chosen(moves: &[Move], kept: &[Path], table: &Table, state: &State) -> Option<Move>
    requires table { IsTable table.now }
    requires open { state.now.boundary < 8 }
    requires lead_on { All (LeadsOn state.now.boundary) moves.now }
    ensures found { result ≡ find (move_keeps_gain kept.now table.now state.now) moves.now }
    ensures leads_on { IfSome result (λ one. LeadsOn state.now.boundary one) }
{
    for one in moves {
        if keeps_gain(one, kept, table, state) {
            return Some(*one);
        }
    }
    None
}

#[tactic(auto, using(crate::proofs::DisjointLanes::byte_below))]
fn keeps_gain(one: &Move, kept: &[Path], table: &Table, state: &State) -> bool
    requires table { IsTable table.now }
    requires open { state.now.boundary < 8 }
    requires leads_on { LeadsOn state.now.boundary one.now }
    ensures { result ≡ move_keeps_gain kept.now table.now state.now one.now }
{
    if !one.is_open(state) || one.weight == 0 && !is_among(kept, one.path) {
        return false;
    }
    let rest = table.at(one.decision(state).end.place());
    one.weight + rest == table.at(state.place())
}
