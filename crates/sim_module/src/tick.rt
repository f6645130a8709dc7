//! What a tick makes of a module.
ghost use Rattle.std.specs.Prelude.{◌≡◌};
ghost use Rattle.sim_module.specs.Ticks as spec;

use crate::lane::{Lane, next_left};
use crate::moving::{Moving, lane_in};
use applications::LaneSet;
use control_sets::ControlSet;
use datapath_states::PathState;
use field_tables::LaneNumber;
use module_states::ModuleState;

impl Moving {
    ghost use Rattle.std.specs.Prelude.{◌≡◌, map, slice_set, true};
    ghost use Rattle.sim_module.specs.Lanes.{active_bytes, all_lanes};
    ghost use Rattle.sim_module.specs.Record.{bare, module_of};
    ghost use Rattle.sim_module.specs.declared.fixed.Fixed.{Fixed};
    ghost use Rattle.sim_module.specs.Down.{is_held};
    ghost use Rattle.sim_module.specs.Resting.{IsStill, RestsIf, all_stay};
    ghost use Rattle.sim_module.specs.Ticks as spec;

    fn next_module_state(&self) -> ModuleState
        ensures { result ≡ spec.next_module_state (bare self.now) }
    {
        let inputs = module_states::ModuleInputs {
            low_power: self.has_low_power(),
            deactivated: self.all_deactivated(),
            done: self.ticks_left == 1,
        };
        module_states::next(self.state, inputs)
    }

    fn all_deactivated(&self) -> bool
        ensures { result ≡ spec.all_deactivated (bare self.now) }
    {
        LaneNumber::all()
            .iter()
            .all(|lane| self.is_deactivated(*lane))
    }

    // Given the active bytes, and whether some lane holds down its path.
    fn next_path_state(&self, active: &ControlSet, held: bool, lane: LaneNumber) -> PathState
        requires active { active.now ≡ active_bytes (bare self.now) }
        requires held { held ≡ is_held (bare self.now) }
        ensures { result ≡ spec.next_path_state (bare self.now) lane }
    {
        let before = self.lane(lane);
        let inputs = datapath_states::PathInputs {
            down: self.is_down(active, held, lane),
            done: before.ticks_left == 1,
        };
        datapath_states::next(before.path, inputs)
    }

    #[tactic(auto, unfolding(crate::specs::Ticks::ticked_lane))]
    fn ticked_lane(&self, active: &ControlSet, held: bool, lane: LaneNumber) -> Lane
        requires active { active.now ≡ active_bytes (bare self.now) }
        requires held { held ≡ is_held (bare self.now) }
        ensures { result ≡ spec.ticked_lane (bare self.now) lane }
    {
        let next = self.next_path_state(active, held, lane);
        let moved = self.lane(lane).moved(self.delays, next);
        if self.apply_left == 1 {
            moved.applied()
        } else {
            moved
        }
    }

    fn ticked_lanes(&self) -> [Lane; 8]
        ensures { result ≡ map (spec.ticked_lane (bare self.now)) all_lanes }
    {
        let active = self.active();
        let held = self.is_held();
        let mut lanes = self.lanes;
        for (index, lane) in lanes.iter_mut().enumerate() {
            *lane = self.ticked_lane(&active, held, LaneNumber::at(index as u8));
        }
        lanes
    }

    // Given the lane's next state.
    #[tactic(auto, unfolding(crate::specs::Ticks::arrives))]
    fn arrives(&self, next: PathState, lane: LaneNumber) -> bool
        requires { next ≡ spec.next_path_state (bare self.now) lane }
        ensures { result ≡ spec.arrives (bare self.now) lane }
    {
        next != self.lane(lane).path && is_steady(next)
    }

    // The lanes whose flag of a changed path state is raised, given all lanes after the tick.
    fn arriving(&self, after: &[Lane; 8]) -> LaneSet
        requires { after.now ≡ map (spec.ticked_lane (bare self.now)) all_lanes }
        ensures { result ≡ spec.arriving (bare self.now) }
    {
        let mut lanes = LaneSet::empty();
        for place in 0..8 {
            let lane = LaneNumber::at(place);
            let next = lane_in(after, lane).path;
            if self.arrives(next, lane) {
                lanes = lanes.union(LaneSet::run(lane.number(), 1));
            }
        }
        lanes
    }

    // Whether each lane stays, given all lanes after the tick.
    fn all_stay(&self, after: &[Lane; 8]) -> bool
        ensures { result ≡ all_stay (bare self.now) after.now }
    {
        LaneNumber::all()
            .iter()
            .all(|lane| self.lane(*lane).stays(lane_in(after, *lane)))
    }

    // If true, a tick leaves all as it is. Given are the module's next state, all lanes after the tick, and the flags of changed
    // path states.
    fn is_still(&self, state: ModuleState, after: &[Lane; 8], flags: u8) -> bool
        requires state { state ≡ spec.next_module_state (bare self.now) }
        requires after { after.now ≡ map (spec.ticked_lane (bare self.now)) all_lanes }
        requires flags { slice_set self.now.lane_flags 0 flags ≡ spec.ticked_flags (bare self.now) }
        ensures { result ≡ true → IsStill self.now }
    {
        if self.apply_left != 0 {
            return false;
        }
        if self.ticks_left != 0 {
            return false;
        }
        if state != self.state {
            return false;
        }
        if flags != self.lane_flags[0] {
            return false;
        }
        self.all_stay(after)
    }

    // Everything moves from its values before. If it answers true, a further tick leaves all as it is.
    #[tactic(auto, unfolding(crate::specs::Ticks::ticked))]
    fn pass_tick(&mut self) -> bool
        ensures new { bare self.new ≡ spec.ticked (bare self.old) }
        ensures rests { RestsIf result (bare self.new) }
    {
        let state = self.next_module_state();
        let lanes = self.ticked_lanes();
        let flags = self.lane_flags[0] | self.arriving(&lanes).byte();
        let rests = self.is_still(state, &lanes, flags);
        self.ticks_left = next_left(
            state == self.state,
            self.ticks_left,
            self.delays.of_module(state),
        );
        self.state = state;
        self.lanes = lanes;
        self.lane_flags[0] = flags;
        self.apply_left = self.apply_left.saturating_sub(1);
        rests
    }

    /// Lets one tick pass, whatever the part of the module that never changes. If it answers true, further ticks leave all as it is.
    pub fn tick(&mut self) -> bool
        ensures new { (fixed : Fixed) → module_of fixed self.new ≡ spec.ticked (module_of fixed self.old) }
        ensures rests { (fixed : Fixed) → RestsIf result (module_of fixed self.new) }
    {
        self.pass_tick()
    }
}

// Whether a path stays in the state until it is told to leave it.
fn is_steady(state: PathState) -> bool
    ensures { result ≡ spec.is_steady state }
{
    matches!(
        state,
        PathState::Deactivated | PathState::Initialized | PathState::Activated
    )
}
