// How a plan's paths are shown.
ghost use Rattle.std.specs.Prelude.{Some};
ghost use Rattle.plan_reports.specs.PlanText.{path_text, span_text};

use std::fmt;

/// A data path by its first and last lanes.
#[derive(Clone, Copy)]
pub struct PathLanes {
    pub app: u8,
    pub host: LaneSpan,
    pub media: LaneSpan,
}

impl fmt::Display for PathLanes {
    ghost output = { λ shown. Some (path_text shown) };

    #[tactic(auto, unfolding(crate::specs::PlanText::path_text))]
    fn fmt<W: fmt::Write>(&self, f: &mut fmt::Formatter<W>) -> fmt::Result {
        let (app, host, media) = (self.app, self.host, self.media);
        write!(f, "app {app} host {host} media {media}")
    }
}

/// Consecutive lanes by their numbers.
#[derive(Clone, Copy)]
pub struct LaneSpan {
    pub first: u8,
    pub last: u8,
}

impl fmt::Display for LaneSpan {
    ghost output = { λ shown. Some (span_text shown) };

    #[tactic(auto, unfolding(crate::specs::PlanText::span_text))]
    fn fmt<W: fmt::Write>(&self, f: &mut fmt::Formatter<W>) -> fmt::Result {
        let (first, last) = (self.first, self.last);
        write!(f, "{first}-{last}")
    }
}
