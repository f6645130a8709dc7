//! What a store to ApplyDPInit makes of a module.
ghost use Rattle.std.specs.Prelude.{◌≡◌};
ghost use Rattle.sim_module.specs.Applies as spec;

use crate::fixed::Fixed;
use crate::lane::Lane;
use crate::moving::Moving;
use applications::{Advert, App, LaneSet};
use control_sets::{agree, control_at};
use datapath_states::ConfigStatus;
use field_tables::{LaneNumber, field, is_set};

impl Moving {
    ghost use Rattle.std.specs.Prelude.{◌≡◌, map};
    ghost use Rattle.sim_module.specs.Lanes.{all_lanes};
    ghost use Rattle.sim_module.specs.Record.{bare, module_of};
    ghost use Rattle.sim_module.specs.Applies as spec;

    // Why a lane can't be applied together with the lanes of a mask.
    #[tactic(auto, unfolding(crate::specs::Applies::refusal))]
    fn refusal(&self, fixed: &Fixed, mask: LaneSet, lane: LaneNumber) -> Option<ConfigStatus>
        ensures { result ≡ spec.refusal (module_of fixed.now self.now) mask lane }
    {
        if !self.is_deactivated(lane) {
            return Some(ConfigStatus::RejectedLanesInUse);
        }
        let staged = self.is_staged(lane);
        if staged && self.staged_app(fixed, lane).is_none() {
            return Some(ConfigStatus::RejectedInvalidAppSel);
        }
        if staged && self.is_explicit(lane) {
            return Some(ConfigStatus::RejectedInvalidSi);
        }
        if staged && !self.is_path_right(fixed, lane) {
            return Some(ConfigStatus::RejectedInvalidDataPath);
        }
        if !self.are_paths_within(fixed, mask, lane) {
            return Some(ConfigStatus::RejectedPartialDataPath);
        }
        None
    }

    fn is_staged(&self, lane: LaneNumber) -> bool
        ensures { result ≡ spec.is_staged (bare self.now) lane }
    {
        control_at(&self.staged(), lane).is_used()
    }

    // The Application that a staged lane asks for.
    fn staged_app(&self, fixed: &Fixed, lane: LaneNumber) -> Option<App>
        ensures { result ≡ spec.staged_app (module_of fixed.now self.now) lane }
    {
        let number = control_at(&self.staged(), lane).app_sel_code;
        app_numbered(&fixed.advert, number)
    }

    fn is_explicit(&self, lane: LaneNumber) -> bool
        ensures { result ≡ spec.is_explicit (bare self.now) lane }
    {
        is_set(field!(Cmis StagedExplicit), self.lane(lane).staged)
    }

    fn is_path_right(&self, fixed: &Fixed, lane: LaneNumber) -> bool
        ensures { result ≡ spec.is_path_right (module_of fixed.now self.now) lane }
    {
        let first = control_at(&self.staged(), lane).first_lane();
        match self.staged_app(fixed, lane) {
            Some(app) => self.is_path_for(lane, first, app),
            None => true,
        }
    }

    // Whether a path of an Application from a first lane on can be there, with this lane.
    fn is_path_for(&self, lane: LaneNumber, first: LaneNumber, app: App) -> bool
        ensures { result ≡ spec.is_path_for (bare self.now) lane first app }
    {
        if app.host_lanes > 9 - first.number() || !app.host_starts.contains(first.number()) {
            return false;
        }
        let lanes = LaneSet::run(first.number(), app.host_lanes);
        lanes.contains(lane.number()) && self.are_staged_alike(lanes, lane)
    }

    fn are_staged_alike(&self, lanes: LaneSet, lane: LaneNumber) -> bool
        ensures { result ≡ spec.are_staged_alike (bare self.now) lanes lane }
    {
        let staged = self.staged();
        LaneNumber::all().iter().all(|other| !lanes.contains(other.number())
            || agree(&staged, lane, *other))
    }

    // Whether the lanes of both paths of a lane are in a mask.
    fn are_paths_within(&self, fixed: &Fixed, mask: LaneSet, lane: LaneNumber) -> bool
        ensures { result ≡ spec.are_paths_within (module_of fixed.now self.now) mask lane }
    {
        LaneNumber::all().iter().all(|other| {
            mask.contains(other.number())
                || !(self.is_of_staged_path(fixed, lane, *other)
                    || self.is_of_active_path(lane, *other))
        })
    }

    fn is_of_staged_path(&self, fixed: &Fixed, lane: LaneNumber, other: LaneNumber) -> bool
        ensures { result ≡ spec.is_of_staged_path (module_of fixed.now self.now) lane other }
    {
        let first = control_at(&self.staged(), lane).first_lane();
        match self.staged_app(fixed, lane) {
            Some(app) => {
                first.number() <= other.number() && other.number() - first.number() < app.host_lanes
            }
            None => false,
        }
    }

    fn is_of_active_path(&self, lane: LaneNumber, other: LaneNumber) -> bool
        ensures { result ≡ spec.is_of_active_path (bare self.now) lane other }
    {
        let active = self.active();
        control_at(&active, lane).is_used() && agree(&active, lane, other)
    }

    // Whether each lane of a mask can be applied.
    #[tactic(auto, unfolding(crate::specs::Applies::is_applicable))]
    fn is_applicable(&self, fixed: &Fixed, mask: LaneSet) -> bool
        ensures { result ≡ spec.is_applicable (module_of fixed.now self.now) mask }
    {
        LaneNumber::all().iter().all(|lane| {
            !mask.contains(lane.number()) || self.refusal(fixed, mask, *lane).is_none()
        })
    }

    // A lane after the apply. Whether each lane of the mask can be applied is found once for all lanes.
    #[tactic(auto, unfolding(crate::specs::Applies::applied_to))]
    fn applied_to(&self, fixed: &Fixed, mask: LaneSet, applicable: bool, lane: LaneNumber) -> Lane
        requires { applicable ≡ spec.is_applicable (module_of fixed.now self.now) mask }
        ensures { result ≡ spec.applied_to (module_of fixed.now self.now) mask lane }
    {
        let before = self.lane(lane);
        if !mask.contains(lane.number()) {
            before.dropped()
        } else if applicable {
            before.begun()
        } else {
            before.refused(
                self.refusal(fixed, mask, lane)
                    .unwrap_or(ConfigStatus::Rejected),
            )
        }
    }

    fn lanes_applied_to(&self, fixed: &Fixed, mask: LaneSet, applicable: bool) -> [Lane; 8]
        requires { applicable ≡ spec.is_applicable (module_of fixed.now self.now) mask }
        ensures { result ≡ map (spec.applied_to (module_of fixed.now self.now) mask) all_lanes }
    {
        let mut lanes = self.lanes;
        for (index, lane) in lanes.iter_mut().enumerate() {
            *lane = self.applied_to(fixed, mask, applicable, LaneNumber::at(index as u8));
        }
        lanes
    }

    // Applies the staged control bytes of the lanes of a mask.
    #[tactic(auto, unfolding(crate::specs::Applies::applied))]
    pub(crate) fn apply(&mut self, fixed: &Fixed, mask: LaneSet)
        ensures { module_of fixed.now self.new ≡ spec.applied (module_of fixed.now self.old) mask }
    {
        if mask.is_empty() {
            return;
        }
        let applicable = self.is_applicable(fixed, mask);
        self.lanes = self.lanes_applied_to(fixed, mask, applicable);
        self.apply_left = if applicable { self.delays.apply } else { 0 };
    }
}

// The usable Application of a number.
fn app_numbered(advert: &Advert, number: u8) -> Option<App>
    ensures { result ≡ spec.app_numbered advert.now number }
{
    advert
        .apps()
        .iter()
        .copied()
        .find(|app| is_numbered(app, number))
}

fn is_numbered(app: &App, number: u8) -> bool
    ensures { result ≡ spec.is_numbered number app.now }
{
    app.number == number && app.is_usable()
}
