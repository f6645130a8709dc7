// What is measured in a lane, and at each limit.
ghost use Rattle.std.specs.Prelude.{Some};
ghost use Rattle.report_entries.specs.Monitors.{lane_measure, limits_text};
ghost use Rattle.report_entries.specs.Shown.{measure};

use crate::shown::{Measure, Thousandths};
use field_tables::PerLimit;
use std::fmt;

/// A lane and what is measured there.
#[derive(Clone, Copy)]
pub struct LaneMeasure(pub u8, pub Measure);

impl fmt::Display for LaneMeasure {
    ghost output = { λ shown. Some (lane_measure shown.0 (measure shown.1.0 shown.1.1.now)) };

    #[tactic(auto, unfolding(crate::specs::Monitors::lane_measure))]
    fn fmt<W: fmt::Write>(&self, f: &mut fmt::Formatter<W>) -> fmt::Result {
        let (lane, amount) = (self.0, self.1);
        write!(f, "{lane} {amount}")
    }
}

/// Thousandths at each limit: alarms before warnings, and of both high before low.
#[derive(Clone, Copy)]
pub struct LimitsText(pub PerLimit<Thousandths>);

impl fmt::Display for LimitsText {
    ghost output = { λ shown. Some (limits_text shown.0) };

    #[tactic(auto, unfolding(crate::specs::Monitors::limits_text))]
    fn fmt<W: fmt::Write>(&self, f: &mut fmt::Formatter<W>) -> fmt::Result {
        let (high_alarm, low_alarm) = (self.0.high_alarm, self.0.low_alarm);
        let (high_warning, low_warning) = (self.0.high_warning, self.0.low_warning);
        write!(f, "{high_alarm} {low_alarm} {high_warning} {low_warning}")
    }
}
