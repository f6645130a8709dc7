// What a module measures as JSON.
ghost use Rattle.std.specs.Prelude.{◌≡◌, ◌++◌, map, IfOk, OnOk, option_map};
ghost use Rattle.json.specs.Tree.{json_tokens};
ghost use Rattle.report_entries.specs.EntryJson.{IsJsonText};
ghost use Rattle.report_entries.specs.JsonTrees.{all_member_tokens, all_tokens};
ghost use Rattle.observable_reports.specs.ObservationJson.{absent_members, advert_members, alarm_members, amount_members, array_members, bound_members, bounded_members, flag_alarms, flag_members, flag_warnings, flags_json, flags_members, known_members, limits_json, list_members, measured_members, number_members, observables_json, observation_json, observations_json, place_members, report_members, warning_members, what_members};

use crate::amount_text::ShownAmount;
use crate::observation_text::{format_of, shown};
use field_tables::PerLimit;
use observables::{
    Amount, Format, Observation, Subject, figure_name, lane_of, quantity_name, scope_name,
    unit_name,
};
use paged_memory::Key;
use report_entries::json_document::{begin, end};
use report_entries::{JsonWriter, put_count, put_shown};
use std::alloc::{AllocError, Global};

/// What was measured, and the page that is needed and not there.
pub fn json(alloc: Global, seen: &[Observation], absent: Option<Key>) -> Result<Vec<u8>, AllocError>
    ensures { IfOk result (λ text. IsJsonText (observables_json seen.now absent) text.items) }
{
    let mut out = begin(alloc)?;
    put_report(&mut out, seen, absent)?;
    end(out)
}

fn put_report(
    out: &mut JsonWriter,
    seen: &[Observation],
    absent: Option<Key>,
) -> Result<(), AllocError>
    ensures { OnOk result (out.new ≡ out.old ++ all_member_tokens (report_members seen.now absent)) }
{
    put_list(out, seen)?;
    put_absent(out, absent)
}

#[tactic(auto, unfolding(crate::specs::ObservationJson::list_members))]
fn put_list(out: &mut JsonWriter, seen: &[Observation]) -> Result<(), AllocError>
    ensures { OnOk result (out.new ≡ out.old ++ all_member_tokens (list_members seen.now)) }
{
    put_array(out, "observables", seen)
}

#[tactic(auto, unfolding(crate::specs::ObservationJson::array_members))]
fn put_array(out: &mut JsonWriter, key: &str, seen: &[Observation]) -> Result<(), AllocError>
    ensures { OnOk result (out.new ≡ out.old ++ all_member_tokens (array_members key.now seen.now)) }
{
    out.key(key)?;
    put_observations(out, seen)
}

fn put_absent(out: &mut JsonWriter, absent: Option<Key>) -> Result<(), AllocError>
    ensures { OnOk result (out.new ≡ out.old ++ all_member_tokens (absent_members absent)) }
{
    match absent {
        None => Ok(()),
        Some(key) => put_count(out, "absent_page", key.page),
    }
}

fn put_observations(out: &mut JsonWriter, seen: &[Observation]) -> Result<(), AllocError>
    ensures { OnOk result (out.new ≡ out.old ++ json_tokens (observations_json seen.now)) }
{
    out.begin_array()?;
    put_each_observation(out, seen)?;
    out.end_array()
}

fn put_each_observation(out: &mut JsonWriter, seen: &[Observation]) -> Result<(), AllocError>
    ensures { OnOk result (out.new ≡ out.old ++ all_tokens (map observation_json seen.now)) }
{
    for observation in seen {
        put_observation(out, *observation)?;
    }
    Ok(())
}

fn put_observation(out: &mut JsonWriter, seen: Observation) -> Result<(), AllocError>
    ensures { OnOk result (out.new ≡ out.old ++ json_tokens (observation_json seen)) }
{
    out.begin_object()?;
    put_measured(out, seen)?;
    put_bounded(out, seen)?;
    out.end_object()
}

#[tactic(auto, unfolding(crate::specs::ObservationJson::measured_members))]
fn put_measured(out: &mut JsonWriter, seen: Observation) -> Result<(), AllocError>
    ensures { OnOk result (out.new ≡ out.old ++ all_member_tokens (measured_members seen)) }
{
    put_what(out, seen)?;
    put_place(out, seen)?;
    put_amount(out, format_of(seen), seen)
}

#[tactic(auto, unfolding(crate::specs::ObservationJson::bounded_members))]
fn put_bounded(out: &mut JsonWriter, seen: Observation) -> Result<(), AllocError>
    ensures { OnOk result (out.new ≡ out.old ++ all_member_tokens (bounded_members seen)) }
{
    put_bounds(out, format_of(seen), seen)?;
    put_advert(out, seen.advertised)
}

#[tactic(auto, unfolding(crate::specs::ObservationJson::what_members))]
fn put_what(out: &mut JsonWriter, seen: Observation) -> Result<(), AllocError>
    ensures { OnOk result (out.new ≡ out.old ++ all_member_tokens (what_members seen)) }
{
    put_shown(out, "name", quantity_name(seen.observable.quantity))?;
    put_shown(out, "figure", figure_name(seen.observable.figure))
}

#[tactic(auto, unfolding(crate::specs::ObservationJson::place_members))]
fn put_place(out: &mut JsonWriter, seen: Observation) -> Result<(), AllocError>
    ensures { OnOk result (out.new ≡ out.old ++ all_member_tokens (place_members seen)) }
{
    put_shown(out, "scope", scope_name(seen.subject, seen.observable.side))?;
    put_number(out, seen.subject)
}

fn put_number(out: &mut JsonWriter, subject: Subject) -> Result<(), AllocError>
    ensures { OnOk result (out.new ≡ out.old ++ all_member_tokens (number_members subject)) }
{
    match lane_of(subject) {
        None => Ok(()),
        Some(number) => put_count(out, "number", number),
    }
}

#[tactic(auto, unfolding(crate::specs::ObservationJson::amount_members))]
fn put_amount(out: &mut JsonWriter, format: Format, seen: Observation) -> Result<(), AllocError>
    ensures { OnOk result (out.new ≡ out.old ++ all_member_tokens (amount_members format seen)) }
{
    put_known(out, "amount", shown(format, seen.amount))?;
    put_shown(out, "unit", unit_name(seen.unit))
}

// An amount, if it is known.
#[tactic(auto, unfolding(crate::specs::ObservationJson::known_members))]
fn put_known(out: &mut JsonWriter, key: &str, amount: Option<ShownAmount>) -> Result<(), AllocError>
    ensures { OnOk result (out.new ≡ out.old ++ all_member_tokens (known_members key.now amount)) }
{
    match amount {
        None => Ok(()),
        Some(amount) => {
            out.key(key)?;
            out.scalar(amount)
        }
    }
}

#[tactic(auto, unfolding(crate::specs::ObservationJson::bound_members))]
fn put_bounds(out: &mut JsonWriter, format: Format, seen: Observation) -> Result<(), AllocError>
    ensures { OnOk result (out.new ≡ out.old ++ all_member_tokens (bound_members format seen)) }
{
    out.key("limits")?;
    put_limits(out, format, seen.limits)?;
    put_flags(out, seen.flags)
}

fn put_limits(
    out: &mut JsonWriter,
    format: Format,
    levels: PerLimit<Option<Amount>>,
) -> Result<(), AllocError>
    ensures { OnOk result (out.new ≡ out.old ++ json_tokens (limits_json format levels)) }
{
    out.begin_object()?;
    put_alarms(out, format, levels)?;
    put_warnings(out, format, levels)?;
    out.end_object()
}

#[tactic(auto, unfolding(crate::specs::ObservationJson::alarm_members))]
fn put_alarms(
    out: &mut JsonWriter,
    format: Format,
    levels: PerLimit<Option<Amount>>,
) -> Result<(), AllocError>
    ensures { OnOk result (out.new ≡ out.old ++ all_member_tokens (alarm_members format levels)) }
{
    put_known(out, "high_alarm", shown(format, levels.high_alarm))?;
    put_known(out, "low_alarm", shown(format, levels.low_alarm))
}

#[tactic(auto, unfolding(crate::specs::ObservationJson::warning_members))]
fn put_warnings(
    out: &mut JsonWriter,
    format: Format,
    levels: PerLimit<Option<Amount>>,
) -> Result<(), AllocError>
    ensures { OnOk result (out.new ≡ out.old ++ all_member_tokens (warning_members format levels)) }
{
    put_known(out, "high_warning", shown(format, levels.high_warning))?;
    put_known(out, "low_warning", shown(format, levels.low_warning))
}

#[tactic(auto, unfolding(crate::specs::ObservationJson::flags_members))]
fn put_flags(out: &mut JsonWriter, flags: Option<PerLimit<bool>>) -> Result<(), AllocError>
    ensures { OnOk result (out.new ≡ out.old ++ all_member_tokens (flags_members flags)) }
{
    match flags {
        None => Ok(()),
        Some(flags) => {
            out.key("flags")?;
            put_known_flags(out, flags)
        }
    }
}

fn put_known_flags(out: &mut JsonWriter, flags: PerLimit<bool>) -> Result<(), AllocError>
    ensures { OnOk result (out.new ≡ out.old ++ json_tokens (flags_json flags)) }
{
    out.begin_object()?;
    put_flag_alarms(out, flags)?;
    put_flag_warnings(out, flags)?;
    out.end_object()
}

#[tactic(auto, unfolding(crate::specs::ObservationJson::flag_alarms))]
fn put_flag_alarms(out: &mut JsonWriter, flags: PerLimit<bool>) -> Result<(), AllocError>
    ensures { OnOk result (out.new ≡ out.old ++ all_member_tokens (flag_alarms flags)) }
{
    put_flag(out, "high_alarm", flags.high_alarm)?;
    put_flag(out, "low_alarm", flags.low_alarm)
}

#[tactic(auto, unfolding(crate::specs::ObservationJson::flag_warnings))]
fn put_flag_warnings(out: &mut JsonWriter, flags: PerLimit<bool>) -> Result<(), AllocError>
    ensures { OnOk result (out.new ≡ out.old ++ all_member_tokens (flag_warnings flags)) }
{
    put_flag(out, "high_warning", flags.high_warning)?;
    put_flag(out, "low_warning", flags.low_warning)
}

#[tactic(auto, unfolding(crate::specs::ObservationJson::flag_members))]
fn put_flag(out: &mut JsonWriter, key: &str, value: bool) -> Result<(), AllocError>
    ensures { OnOk result (out.new ≡ out.old ++ all_member_tokens (flag_members key.now value)) }
{
    out.key(key)?;
    out.boolean(value)
}

#[tactic(auto, unfolding(crate::specs::ObservationJson::advert_members))]
fn put_advert(out: &mut JsonWriter, advertised: bool) -> Result<(), AllocError>
    ensures { OnOk result (out.new ≡ out.old ++ all_member_tokens (advert_members advertised)) }
{
    put_flag(out, "advertised", advertised)
}
