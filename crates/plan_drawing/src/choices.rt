// The choices in a state.
ghost use Rattle.std.specs.Prelude.{◌≡◌, ◌+◌, ◌≤◌, ◌<◌, [], length, map, true, IfSome};
ghost use Rattle.plan_certificate.specs.Paths.{is_allowed};
ghost use Rattle.plan_certificate.specs.Plans.{AreAllowed};
ghost use Rattle.plan_certificate.specs.States.{fits};
ghost use Rattle.lane_planner.specs.Tables.{IsTable};
ghost use Rattle.plan_drawing.specs.Choices as spec;
ghost use Rattle.plan_drawing.specs.Walks.{basis_of, decision_of};

use applications::App;
use arrayvec::ArrayVec;
use field_tables::LaneNumber;
use lane_planner::{Problem, Table};
use plan_certificate::{Decision, Path, State, is_among, is_eligible_as, may_stay_free};

/// How many choices there are at most: one for each Application, and the free lane.
pub const MAX_CHOICES: usize = 16;

/// What can be done at a host lane, with what it weighs in the end.
#[derive(Clone, Copy, Debug, PartialEq, Eq, Default)]
pub struct Choice {
    /// The path that begins there; if none does, the lane stays free.
    pub path: Option<Path>,
    /// What the path weighs.
    pub weight: u64,
    /// What can still be gained after it.
    pub rest: u64,
    /// Both together.
    pub sum: u64,
}

/// The best media lane of each Application, and the free lane, by falling sums.
#[tactic(auto, using(crate::proofs::RankedChoices::ranked_append))]
pub fn choices_in(problem: &Problem, gains: &Table, state: &State) -> ArrayVec<Choice, MAX_CHOICES>
    requires kept { AreAllowed problem.now.advert.now problem.now.kept.now }
    requires gains { IsTable gains.now }
    requires open { state.now.boundary < 8 }
    ensures { result.items ≡ spec.ranked (spec.choices_in (basis_of problem.now gains.now) state.now) }
{
    let mut choices = ArrayVec::new();
    for app in problem.advert.apps() {
        place_if_some(&mut choices, best_of_app(problem, gains, state, app));
    }
    place_if_some(&mut choices, free_if_may(problem, gains, state));
    choices
}

#[tactic(auto, unfolding(crate::specs::Choices::ranked_with))]
fn place_if_some(choices: &mut ArrayVec<Choice, MAX_CHOICES>, choice: Option<Choice>)
    requires { length choices.old.items < MAX_CHOICES }
    ensures placed { choices.new.items ≡ spec.ranked_with choices.old.items (spec.listed choice) }
    ensures few { length choices.new.items ≤ length choices.old.items + 1 }
{
    if let Some(choice) = choice {
        place(choices, choice);
    }
}

// Puts a choice before the first whose sum is smaller.
#[tactic(auto, unfolding(crate::specs::Choices::placed))]
fn place(choices: &mut ArrayVec<Choice, MAX_CHOICES>, choice: Choice)
    requires { length choices.old.items < MAX_CHOICES }
    ensures placed { choices.new.items ≡ spec.placed choice choices.old.items }
    ensures len { length choices.new.items ≡ length choices.old.items + 1 }
{
    let at = first_smaller(choices.as_slice(), choice.sum);
    choices.insert(at, choice);
}

// Where the first choice is whose sum is smaller, or else the end.
fn first_smaller(choices: &[Choice], sum: u64) -> usize
    ensures place { result ≡ spec.first_smaller choices.now sum }
    ensures within { result ≤ length choices.now }
{
    for (index, other) in choices.iter().enumerate() {
        if other.sum < sum {
            return index;
        }
    }
    choices.len()
}

// The first whose sum none exceeds.
fn greatest(choices: &[Choice]) -> Option<Choice>
    ensures { result ≡ spec.greatest choices.now }
{
    choices
        .iter()
        .copied()
        .find(|choice| is_greatest(choices, choice))
}

fn is_greatest(choices: &[Choice], choice: &Choice) -> bool
    ensures { result ≡ spec.is_greatest choices.now choice.now }
{
    choices.iter().all(|other| other.sum <= choice.sum)
}

// An Application's path on its best media lane, if it has one; of equal ones the lowest.
fn best_of_app(problem: &Problem, gains: &Table, state: &State, app: &App) -> Option<Choice>
    requires kept { AreAllowed problem.now.advert.now problem.now.kept.now }
    requires gains { IsTable gains.now }
    requires open { state.now.boundary < 8 }
    ensures { result ≡ spec.best_of_app (basis_of problem.now gains.now) state.now app.now }
{
    let choices = worth_choices(problem, gains, state, app, &LaneNumber::all());
    greatest(choices.as_slice())
}

// The choices of an Application that are worth it, on these media lanes.
#[tactic(auto, unfolding(crate::specs::Choices::worth_choices))]
fn worth_choices(
    problem: &Problem,
    gains: &Table,
    state: &State,
    app: &App,
    lanes: &[LaneNumber],
) -> ArrayVec<Choice, 8>
    requires kept { AreAllowed problem.now.advert.now problem.now.kept.now }
    requires gains { IsTable gains.now }
    requires open { state.now.boundary < 8 }
    requires few { length lanes.now ≤ 8 }
    ensures { result.items ≡ spec.worth_choices (basis_of problem.now gains.now) state.now (map (spec.path_on (state.now.boundary + 1) app.now.number) lanes.now) }
{
    let mut choices = ArrayVec::new();
    for lane in lanes {
        let path = Path {
            app: app.number,
            host: state.boundary + 1,
            media: lane.number(),
        };
        if is_worth(problem, state, path) {
            choices.push(choice_of(problem, gains, state, Some(path)));
        }
    }
    choices
}

// Whether the path fits, and weighs something or is kept.
fn is_worth(problem: &Problem, state: &State, path: Path) -> bool
    requires { AreAllowed problem.now.advert.now problem.now.kept.now }
    ensures { result ≡ spec.is_worth (basis_of problem.now []) state.now path }
{
    let kept = problem.kept;
    let kept = kept.paths.as_slice();
    fits(problem, kept, state, path) && (path.weight(problem.weights) > 0 || is_among(kept, path))
}

fn fits(problem: &Problem, kept: &[Path], state: &State, path: Path) -> bool
    requires { AreAllowed problem.now.advert.now kept.now }
    ensures { result ≡ fits problem.now.advert.now kept.now state.now path }
{
    let app = path.application(problem.advert);
    is_eligible_as(problem.advert, kept, &app, path.may_begin(&app), path)
        && path.media_lanes(problem.advert).is_disjoint(state.used)
}

fn choice_of(problem: &Problem, gains: &Table, state: &State, path: Option<Path>) -> Choice
    requires gains { IsTable gains.now }
    requires open { state.now.boundary < 8 }
    requires allowed { IfSome path (λ path. is_allowed problem.now.advert.now path ≡ true) }
    requires begins { IfSome path (λ path. path.host ≡ state.now.boundary + 1) }
    ensures { result ≡ spec.choice_of (basis_of problem.now gains.now) state.now path }
{
    let decision = decision_of(problem, state, path);
    let rest = gains.of(&decision.end);
    Choice {
        path,
        weight: decision.weight,
        rest,
        sum: decision.weight + rest,
    }
}

/// The decision of the path that begins in a state, or of the free lane.
#[tactic(auto, unfolding(plan_certificate::specs::Paths::is_allowed))]
pub fn decision_of(problem: &Problem, state: &State, path: Option<Path>) -> Decision
    requires open { state.now.boundary < 8 }
    requires allowed { IfSome path (λ path. is_allowed problem.now.advert.now path ≡ true) }
    requires begins { IfSome path (λ path. path.host ≡ state.now.boundary + 1) }
    ensures decision { result ≡ decision_of (basis_of problem.now []) state.now path }
    ensures small { result.weight ≤ 17179869180 }
    ensures within { result.end.boundary ≤ 8 }
{
    match path {
        Some(path) => Decision {
            weight: path.weight(problem.weights),
            end: State {
                boundary: state.boundary + path.application(problem.advert).host_lanes,
                used: state.used.union(path.media_lanes(problem.advert)),
            },
        },
        None => state.free_decision(),
    }
}

// The free lane, if it may stay free.
fn free_if_may(problem: &Problem, gains: &Table, state: &State) -> Option<Choice>
    requires kept { AreAllowed problem.now.advert.now problem.now.kept.now }
    requires gains { IsTable gains.now }
    requires open { state.now.boundary < 8 }
    ensures { result ≡ spec.free_if_may (basis_of problem.now gains.now) state.now }
{
    let kept = problem.kept;
    if may_stay_free(problem.advert, kept.paths.as_slice(), state.boundary + 1) {
        Some(choice_of(problem, gains, state, None))
    } else {
        None
    }
}
