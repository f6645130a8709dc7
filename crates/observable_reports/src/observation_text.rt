// An observation as a line of text.
ghost use Rattle.std.specs.Prelude.{◌≡◌, Some, option_map};
ghost use Rattle.observable_reports.specs.AmountTexts.{shown_as};
ghost use Rattle.observable_reports.specs.ObservationText.{advert_word, bounds_text, flag_word, flags_text, format_of, known_text, levels_text, measured_text, observation_text, place_text};

use crate::amount_text::{ShownAmount, shown_as};
use field_tables::PerLimit;
use observables::{
    Amount, Format, Observation, Side, Subject, figure_name, lane_of, quantity_row, scope_name,
    unit_name,
};
use std::fmt;

/// What stands behind the name of its quantity.
#[derive(Clone, Copy)]
pub struct ObservationText(pub Observation);

impl fmt::Display for ObservationText {
    ghost output = { λ shown. Some (observation_text shown.0) };

    #[tactic(auto, unfolding(crate::specs::ObservationText::observation_text))]
    fn fmt<W: fmt::Write>(&self, f: &mut fmt::Formatter<W>) -> fmt::Result {
        let (measured, bounds) = (MeasuredText(self.0), BoundsText(self.0));
        write!(f, "{measured} {bounds}")
    }
}

// What is measured, where and how much.
#[derive(Clone, Copy)]
struct MeasuredText(Observation);

impl fmt::Display for MeasuredText {
    ghost output = { λ shown. Some (measured_text shown.0) };

    #[tactic(auto, unfolding(crate::specs::ObservationText::measured_text))]
    fn fmt<W: fmt::Write>(&self, f: &mut fmt::Formatter<W>) -> fmt::Result {
        let seen = self.0;
        let figure = figure_name(seen.observable.figure);
        let place = PlaceText(seen.subject, seen.observable.side);
        let format = format_of(seen);
        let (amount, unit) = (KnownText(shown(format, seen.amount)), unit_name(seen.unit));
        write!(f, "{figure} {place} {amount} {unit}")
    }
}

// Its limits and flags, and whether it is advertised.
#[derive(Clone, Copy)]
struct BoundsText(Observation);

impl fmt::Display for BoundsText {
    ghost output = { λ shown. Some (bounds_text shown.0) };

    #[tactic(auto, unfolding(crate::specs::ObservationText::bounds_text))]
    fn fmt<W: fmt::Write>(&self, f: &mut fmt::Formatter<W>) -> fmt::Result {
        let seen = self.0;
        let format = format_of(seen);
        let (levels, flags) = (LevelsText(format, seen.limits), FlagsText(seen.flags));
        let advert = advert_word(seen.advertised);
        write!(f, "limits {levels} flags {flags} {advert}")
    }
}

/// How its words count.
#[tactic(auto, unfolding(crate::specs::ObservationText::format_of))]
pub fn format_of(seen: Observation) -> Format
    ensures { result ≡ format_of seen }
{
    quantity_row(seen.observable.quantity).format
}

/// An amount, if it is known, as it is shown.
pub fn shown(format: Format, amount: Option<Amount>) -> Option<ShownAmount>
    ensures { result ≡ option_map (shown_as format) amount }
{
    Some(shown_as(format, amount?))
}

#[derive(Clone, Copy)]
struct KnownText(Option<ShownAmount>);

impl fmt::Display for KnownText {
    ghost output = { λ known. Some (known_text known.0) };

    #[tactic(auto, unfolding(crate::specs::ObservationText::known_text))]
    fn fmt<W: fmt::Write>(&self, f: &mut fmt::Formatter<W>) -> fmt::Result {
        match self.0 {
            None => f.write_str("unknown"),
            Some(amount) => write!(f, "{amount}"),
        }
    }
}

/// What is measured of, and the number of its lane.
#[derive(Clone, Copy)]
pub struct PlaceText(pub Subject, pub Side);

impl fmt::Display for PlaceText {
    ghost output = { λ place. Some (place_text place.0 place.1) };

    #[tactic(auto, unfolding(crate::specs::ObservationText::place_text))]
    fn fmt<W: fmt::Write>(&self, f: &mut fmt::Formatter<W>) -> fmt::Result {
        let scope = scope_name(self.0, self.1);
        match lane_of(self.0) {
            None => f.write_str(scope),
            Some(number) => write!(f, "{scope}-{number}"),
        }
    }
}

// Four limits.
#[derive(Clone, Copy)]
struct LevelsText(Format, PerLimit<Option<Amount>>);

impl fmt::Display for LevelsText {
    ghost output = { λ levels. Some (levels_text levels.0 levels.1) };

    #[tactic(auto, unfolding(crate::specs::ObservationText::levels_text))]
    fn fmt<W: fmt::Write>(&self, f: &mut fmt::Formatter<W>) -> fmt::Result {
        let (format, levels) = (self.0, self.1);
        let high_alarm = KnownText(shown(format, levels.high_alarm));
        let low_alarm = KnownText(shown(format, levels.low_alarm));
        let high_warning = KnownText(shown(format, levels.high_warning));
        let low_warning = KnownText(shown(format, levels.low_warning));
        write!(f, "{high_alarm} {low_alarm} {high_warning} {low_warning}")
    }
}

// Four flags.
#[derive(Clone, Copy)]
struct FlagsText(Option<PerLimit<bool>>);

impl fmt::Display for FlagsText {
    ghost output = { λ flags. Some (flags_text flags.0) };

    #[tactic(auto, unfolding(crate::specs::ObservationText::flags_text))]
    fn fmt<W: fmt::Write>(&self, f: &mut fmt::Formatter<W>) -> fmt::Result {
        match self.0 {
            None => f.write_str("unknown unknown unknown unknown"),
            Some(flags) => {
                let (high_alarm, low_alarm) = (
                    flag_word(flags.high_alarm),
                    flag_word(flags.low_alarm),
                );
                let high_warning = flag_word(flags.high_warning);
                let low_warning = flag_word(flags.low_warning);
                write!(f, "{high_alarm} {low_alarm} {high_warning} {low_warning}")
            }
        }
    }
}

#[tactic(auto, unfolding(crate::specs::ObservationText::flag_word))]
fn flag_word(raised: bool) -> &'static str
    ensures { result.now ≡ flag_word raised }
{
    if raised { "yes" } else { "no" }
}

// Whether the module says that it measures something.
#[tactic(auto, unfolding(crate::specs::ObservationText::advert_word))]
fn advert_word(advertised: bool) -> &'static str
    ensures { result.now ≡ advert_word advertised }
{
    if advertised {
        "advertised"
    } else {
        "unadvertised"
    }
}
