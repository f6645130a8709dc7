ghost use Rattle.std.specs.Prelude.{◌≡◌, ◌≤◌, ◌+◌, true};
ghost use Rattle.plan_certificate.specs.Paths as spec;
ghost use Rattle.plan_certificate.specs.Plans as plans;

use applications::{Advert, App, AppWeights};
use field_tables::{LaneNumber, LaneSet};

/// A data path: an Application on consecutive host lanes and consecutive media lanes.
#[repr(C)]
#[derive(Clone, Copy, Debug, PartialEq, Eq, Default)]
pub struct Path {
    /// The Application's number, 1 to 15 in an allowed path.
    pub app: u8,
    /// The first host lane, 1 to 8 in an allowed path.
    pub host: u8,
    /// The first media lane, 1 to 8 in an allowed path.
    pub media: u8,
}

impl Path {
    /// The Application of the path; if none has its number, one without lanes.
    #[tactic(auto, unfolding(crate::specs::Paths::app_of))]
    pub fn application(self, advert: &Advert) -> App
        ensures { result ≡ spec.app_of advert.now self }
    {
        let apps = advert.apps();
        let number = usize::from(self.app);
        if 1 <= number && number <= apps.len() {
            return apps[number - 1];
        }
        App::default()
    }

    /// Whether the Application has usable numbers of lanes, and may begin at the path's host lane.
    pub fn may_begin(self, app: &App) -> bool
        ensures { result ≡ spec.may_begin app.now self.host }
    {
        app.is_usable() && is_run(app.host_starts, self.host, app.host_lanes)
    }

    /// Whether such an Application may begin at the path's media lane, and takes no unsupported one.
    pub fn may_take(self, app: &App, advert: &Advert) -> bool
        requires { spec.may_begin app.now self.host ≡ true }
        ensures { result ≡ spec.may_take advert.now app.now self.host self.media }
    {
        is_run(app.media_starts, self.media, app.media_lanes)
            && LaneSet::run(self.media, app.media_lanes).is_disjoint(advert.unsupported())
            && self.is_paired(app, advert)
    }

    // Whether the module may join its first lanes.
    fn is_paired(self, app: &App, advert: &Advert) -> bool
        ensures { result ≡ spec.is_paired advert.now app.now self.host self.media }
    {
        !advert.is_paired()
            || rank(app.host_starts, self.host) == rank(app.media_starts, self.media)
    }

    /// Whether the module can carry the path.
    #[tactic(auto, unfolding(crate::specs::Paths::is_allowed))]
    pub fn is_allowed(self, advert: &Advert) -> bool
        ensures { result ≡ spec.is_allowed advert.now self }
    {
        let app = self.application(advert);
        self.may_begin(&app) && self.may_take(&app, advert)
    }

    /// The host lanes of the path.
    #[tactic(auto, unfolding(crate::specs::Paths::is_allowed))]
    pub fn host_lanes(self, advert: &Advert) -> LaneSet
        requires { spec.is_allowed advert.now self ≡ true }
        ensures { result ≡ spec.host_lanes advert.now self }
    {
        LaneSet::run(self.host, self.application(advert).host_lanes)
    }

    /// The media lanes of the path.
    #[tactic(auto, unfolding(crate::specs::Paths::is_allowed))]
    pub fn media_lanes(self, advert: &Advert) -> LaneSet
        requires { spec.is_allowed advert.now self ≡ true }
        ensures { result ≡ spec.media_lanes advert.now self }
    {
        LaneSet::run(self.media, self.application(advert).media_lanes)
    }

    /// Whether the paths share neither a host lane nor a media lane.
    #[tactic(auto, unfolding(crate::specs::Plans::are_apart))]
    pub fn is_apart(self, other: Path, advert: &Advert) -> bool
        requires self_allowed { spec.is_allowed advert.now self ≡ true }
        requires other_allowed { spec.is_allowed advert.now other ≡ true }
        ensures { result ≡ plans.are_apart advert.now self other }
    {
        self.host_lanes(advert)
            .is_disjoint(other.host_lanes(advert))
            && self
                .media_lanes(advert)
                .is_disjoint(other.media_lanes(advert))
    }

    /// What the path weighs.
    pub fn weight(self, weights: &AppWeights) -> u64
        ensures weight { result ≡ spec.path_weight weights.now self }
        ensures small { result ≤ 17179869180 }
    {
        weights.of_path(self.app, self.host)
    }
}

// How many of the lanes come before this one.
#[tactic(auto, unfolding(crate::specs::Paths::rank))]
fn rank(lanes: LaneSet, lane: u8) -> usize
    ensures { result ≡ spec.rank lanes lane }
{
    LaneNumber::all()
        .iter()
        .filter(|other| other.number() < lane && lanes.contains(other.number()))
        .count()
}

// Whether there are so many lanes from the first on, and a path may begin there.
fn is_run(starts: LaneSet, first: u8, count: u8) -> bool
    requires { count ≤ 8 }
    ensures { result ≡ spec.is_run starts first count }
{
    1 <= first && u16::from(first) + u16::from(count) <= 9 && starts.contains(first)
}
