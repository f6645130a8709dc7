ghost use Rattle.std.specs.Prelude.{◌≡◌, ◌≤◌, ◌<◌, ◌+◌, ◌-◌, ◌++◌, [], length, All, AllPairs};
ghost use Rattle.plan_certificate.specs.Paths.{IsLower};
ghost use Rattle.plan_certificate.specs.Plans.{AreAllowed};
ghost use Rattle.plan_certificate.specs.States.{paths_of_app};
ghost use Rattle.plan_certificate.specs.Moves.{LeadsOn};
ghost use Rattle.plan_certificate.specs.Moves as spec;

use crate::kept::is_eligible_as;
use crate::path::Path;
use crate::state::{Decision, State};
use applications::{Advert, AppWeights};
use arrayvec::ArrayVec;
use field_tables::LaneSet;

/// How many paths that are allowed begin at a host lane at most: one for each Application and media lane.
pub const MAX_MOVES: usize = 120;

/// A path that a plan may hold, and what its decision needs: how far it leads, its media lanes, what it weighs.
#[derive(Clone, Copy, Debug, PartialEq, Eq, Default)]
pub struct Move {
    pub path: Path,
    /// How many host lanes it takes.
    pub host_lanes: u8,
    /// The media lanes that it takes.
    pub media_lanes: LaneSet,
    pub weight: u64,
}

impl Move {
    /// Whether the state uses none of its media lanes.
    pub fn is_open(self, state: &State) -> bool
        ensures { result ≡ spec.is_open state.now self }
    {
        self.media_lanes.is_disjoint(state.used)
    }

    /// The decision of its path.
    pub fn decision(self, state: &State) -> Decision
        requires { state.now.boundary + self.host_lanes ≤ 8 }
        ensures { result ≡ spec.move_decision state.now self }
    {
        Decision {
            weight: self.weight,
            end: State {
                boundary: state.boundary + self.host_lanes,
                used: state.used.union(self.media_lanes),
            },
        }
    }
}

/// Puts the moves of the paths from a host lane on that a plan with the kept ones may hold in the place of others, by rising
/// Application and media lane.
pub fn put_moves(
    moves: &mut ArrayVec<Move, MAX_MOVES>,
    advert: &Advert,
    weights: &AppWeights,
    kept: &[Path],
    host: u8,
)
    requires { AreAllowed advert.now kept.now }
    ensures moves { moves.new.items ≡ spec.moves_at advert.now weights.now kept.now host }
    ensures rising { AllPairs (λ one later. IsLower one.path later.path) moves.new.items }
    ensures lead_on { All (LeadsOn (host - 1)) moves.new.items }
{
    let _bound = weights.bound();
    moves.clear();
    for app in advert.apps() {
        push_moves(moves, advert, weights, kept, host, app.number);
    }
}

/// Adds those of one Application.
pub(crate) fn push_moves<const ROOM: usize>(
    moves: &mut ArrayVec<Move, ROOM>,
    advert: &Advert,
    weights: &AppWeights,
    kept: &[Path],
    host: u8,
    app: u8,
)
    requires room { length moves.old.items + 8 ≤ ROOM }
    requires kept { AreAllowed advert.now kept.now }
    ensures moves { moves.new.items ≡ moves.old.items ++ spec.moves_of advert.now weights.now kept.now (paths_of_app host app) }
    ensures few { length moves.new.items ≤ length moves.old.items + 8 }
{
    // What does not hang on the media lane is found once.
    let first = Path {
        app,
        host,
        media: 1,
    };
    let application = first.application(advert);
    let begins = first.may_begin(&application);
    let weight = weights.of_path(app, host);
    for before in 0..8 {
        let path = Path {
            app,
            host,
            media: before + 1,
        };
        if is_eligible_as(advert, kept, &application, begins, path) {
            let media_lanes = LaneSet::run(path.media, application.media_lanes);
            moves.push(Move {
                path,
                host_lanes: application.host_lanes,
                media_lanes,
                weight,
            });
        }
    }
}
