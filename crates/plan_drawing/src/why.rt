// Why no plan weighs more.
ghost use Rattle.std.specs.Prelude.{◌≡◌, ◌+◌, ◌++◌, ◌∷◌, [], ◌≤◌, ◌<◌, ℕ, List, IfOk, OnOk, map};
ghost use Rattle.std.specs.List.{list_any};
ghost use Rattle.text_lines.specs.Lines.{text_of};
ghost use Rattle.plan_certificate.specs.Plans.{AreAllowed};
ghost use Rattle.plan_certificate.specs.States.{start};
ghost use Rattle.lane_planner.specs.Tables.{IsTable};
ghost use Rattle.plan_drawing.specs.Walks.{basis_of, begins_at, next_state};
ghost use Rattle.plan_drawing.specs.Why.{choice_line, is_taken, lane_line, name_of, note_of, reasons_on, state_lines};

use crate::choices::{Choice, choices_in, decision_of};
use crate::columns::{push_left, push_number, push_right};
use field_tables::LaneNumber;
use lane_planner::{Problem, Table};
use plan_certificate::{Path, State, is_among};
use std::alloc::{AllocError, Global};

/// Adds, for each of these host lanes that the plan decides on, what could have been done there.
#[tactic(auto, unfolding(crate::specs::Walks::states_on))]
pub fn push_why(
    out: &mut Vec<u8>,
    problem: &Problem,
    gains: &Table,
    paths: &[Path],
    lanes: &[LaneNumber],
) -> Result<(), AllocError>
    requires kept { AreAllowed problem.now.advert.now problem.now.kept.now }
    requires paths { AreAllowed problem.now.advert.now paths.now }
    requires gains { IsTable gains.now }
    ensures { OnOk result (out.new.items ≡ out.old.items ++ text_of (reasons_on (basis_of problem.now gains.now) paths.now start lanes.now)) }
{
    let mut state = State::start();
    for lane in lanes {
        state = push_lane_if_next(out, problem, gains, paths, state, lane.number())?;
    }
    Ok(())
}

// Adds what could have been done at a host lane if the plan decides on it in this state, and says where the plan comes to.
#[tactic(auto, using(crate::proofs::ToldStates::told_here, crate::proofs::ToldStates::told_past))]
fn push_lane_if_next(
    out: &mut Vec<u8>,
    problem: &Problem,
    gains: &Table,
    paths: &[Path],
    state: State,
    lane: u8,
) -> Result<State, AllocError>
    requires kept { AreAllowed problem.now.advert.now problem.now.kept.now }
    requires paths { AreAllowed problem.now.advert.now paths.now }
    requires gains { IsTable gains.now }
    requires lane { lane ≤ 8 }
    requires within { state.boundary ≤ 8 }
    ensures told { IfOk result (λ next. (lanes : List ℕ)
        → out.old.items ++ text_of (reasons_on (basis_of problem.now gains.now) paths.now state (lane ∷ lanes))
        ≡ out.new.items ++ text_of (reasons_on (basis_of problem.now gains.now) paths.now next lanes)) }
    ensures within { IfOk result (λ next. next.boundary ≤ 8) }
{
    if state.boundary + 1 != lane {
        return Ok(state);
    }
    push_state(out, problem, gains, paths, &state)?;
    Ok(next_state(problem, paths, &state))
}

// Where the plan comes to from a state.
fn next_state(problem: &Problem, paths: &[Path], state: &State) -> State
    requires open { state.now.boundary < 8 }
    requires paths { AreAllowed problem.now.advert.now paths.now }
    ensures next { result ≡ next_state (basis_of problem.now []) paths.now state.now }
    ensures within { result.boundary ≤ 8 }
{
    let lane = state.boundary + 1;
    for path in paths {
        if path.host == lane {
            return decision_of(problem, state, Some(*path)).end;
        }
    }
    state.free_decision().end
}

#[tactic(auto, unfolding(crate::specs::Why::state_lines))]
fn push_state(
    out: &mut Vec<u8>,
    problem: &Problem,
    gains: &Table,
    paths: &[Path],
    state: &State,
) -> Result<(), AllocError>
    requires kept { AreAllowed problem.now.advert.now problem.now.kept.now }
    requires gains { IsTable gains.now }
    requires open { state.now.boundary < 8 }
    ensures { OnOk result (out.new.items ≡ out.old.items ++ text_of (state_lines (basis_of problem.now gains.now) paths.now state.now)) }
{
    let lane = state.boundary + 1;
    let gain = gains.of(state);
    push_lane(out, lane, gain)?;
    let choices = choices_in(problem, gains, state);
    push_choices(out, paths, lane, gain, choices.as_slice())
}

fn push_choices(
    out: &mut Vec<u8>,
    paths: &[Path],
    lane: u8,
    gain: u64,
    choices: &[Choice],
) -> Result<(), AllocError>
    ensures { OnOk result (out.new.items ≡ out.old.items ++ text_of (map (choice_line paths.now lane gain) choices.now)) }
{
    for choice in choices {
        push_choice(out, paths, lane, gain, choice)?;
    }
    Ok(())
}

#[tactic(auto, unfolding(crate::specs::Why::lane_line))]
fn push_lane(out: &mut Vec<u8>, lane: u8, gain: u64) -> Result<(), AllocError>
    ensures { OnOk result (out.new.items ≡ out.old.items ++ (lane_line lane gain ++ 10 ∷ [])) }
{
    out.extend_from_slice(b"host lane ")?;
    push_number(out, u64::from(lane))?;
    out.extend_from_slice(b", ")?;
    push_number(out, gain)?;
    out.extend_from_slice(b" to gain\n")
}

#[tactic(auto, unfolding(crate::specs::Why::choice_line))]
fn push_choice(
    out: &mut Vec<u8>,
    paths: &[Path],
    lane: u8,
    gain: u64,
    choice: &Choice,
) -> Result<(), AllocError>
    ensures { OnOk result (out.new.items ≡ out.old.items ++ (choice_line paths.now lane gain choice.now ++ 10 ∷ [])) }
{
    out.extend_from_slice(b"  ")?;
    push_left(out, 24, &name_of(*out.allocator(), choice.path)?)?;
    out.extend_from_slice(b" ")?;
    push_right(out, 6, choice.weight)?;
    out.extend_from_slice(b" + ")?;
    push_right(out, 6, choice.rest)?;
    out.extend_from_slice(b" = ")?;
    push_right(out, 6, choice.sum)?;
    out.extend_from_slice(b"  ")?;
    push_note(out, is_taken(paths, lane, choice.path), gain, choice.sum)?;
    out.push(b'\n')?;
    Ok(())
}

#[tactic(auto, unfolding(crate::specs::Why::name_of))]
fn name_of(alloc: Global, path: Option<Path>) -> Result<Vec<u8>, AllocError>
    ensures { IfOk result (λ name. name.items ≡ name_of path) }
{
    match path {
        Some(path) => {
            let mut name = b"app ".to_vec(alloc)?;
            push_number(&mut name, u64::from(path.app))?;
            name.extend_from_slice(b", media lane ")?;
            push_number(&mut name, u64::from(path.media))?;
            Ok(name)
        }
        None => b"left free".to_vec(alloc),
    }
}

// Whether the plan does so at the host lane.
fn is_taken(paths: &[Path], lane: u8, path: Option<Path>) -> bool
    ensures { result ≡ is_taken paths.now lane path }
{
    match path {
        Some(path) => is_among(paths, path),
        None => !any_begins(paths, lane),
    }
}

fn any_begins(paths: &[Path], lane: u8) -> bool
    ensures { result ≡ list_any (begins_at lane) paths.now }
{
    paths.iter().any(|path| path.host == lane)
}

#[tactic(auto, unfolding(crate::specs::Why::note_of))]
fn push_note(out: &mut Vec<u8>, taken: bool, gain: u64, sum: u64) -> Result<(), AllocError>
    ensures { OnOk result (out.new.items ≡ out.old.items ++ note_of taken gain sum) }
{
    if taken {
        out.extend_from_slice(b"taken")
    } else if sum == gain {
        out.extend_from_slice(b"as much")
    } else {
        push_number(out, gain.saturating_sub(sum))?;
        out.extend_from_slice(b" less")
    }
}
