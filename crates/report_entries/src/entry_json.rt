// A report as JSON.
ghost use Rattle.std.specs.Prelude.{◌≡◌, ◌++◌, map, OnOk, IfOk, IfSome, Some};
ghost use Rattle.json.specs.Json.{document};
ghost use Rattle.json.specs.Layout.{pretty};
ghost use Rattle.json.specs.Tree.{json_tokens};
ghost use Rattle.report_entries.specs.Entries.{content_of, entry_of};
ghost use Rattle.report_entries.specs.EntryJson.{alarm_members, amount_json, amount_members, amounts_json, app_json, apps_json, config_status_members, count_members, entries_members, flag_json, flags_json, IsJsonText, form_members, kind_members, lane_members, lane_state_json, lane_states_json, lanes_members, limits_json, path_state_members, report_json, content_members, starts_members, state_members, string_members, usable_members, warning_members};
ghost use Rattle.report_entries.specs.JsonTrees.{all_member_tokens, all_tokens};

use crate::entry::{Content, Entry, LaneState};
use crate::fact_json::put_fact;
use crate::flag::Flag;
use crate::json_writer::JsonWriter;
use crate::shown::{Revision, TextIn};
use applications::App;
use field_tables::PerLimit;
use std::alloc::{AllocError, Global};
use std::fmt::Display;
use text_lines::Hexadecimal;

/// The JSON of a report, in lines that end in LF.
pub fn json(alloc: Global, entries: &[Entry]) -> Result<Vec<u8>, AllocError>
    ensures { IfOk result (λ text. IsJsonText (report_json (map entry_of entries.now)) text.items) }
{
    let mut text = json_lines(alloc, entries)?;
    text.push(b'\n')?;
    Ok(text)
}

// The same without the last LF. Reading it gives back the entries.
fn json_lines(alloc: Global, entries: &[Entry]) -> Result<Vec<u8>, AllocError>
    ensures text { IfOk result (λ text.
        text.items ≡ pretty (json_tokens (report_json (map entry_of entries.now)))) }
    ensures reads_back { IfOk result (λ text.
        document text.items ≡ Some (report_json (map entry_of entries.now))) }
{
    let mut out = JsonWriter::new(alloc);
    out.begin_object()?;
    put_form(&mut out)?;
    put_entries(&mut out, entries)?;
    out.end_object()?;
    Ok(out.into_bytes())
}

#[tactic(auto, unfolding(crate::specs::EntryJson::form_members))]
pub fn put_form(out: &mut JsonWriter) -> Result<(), AllocError>
    ensures { OnOk result (out.new ≡ out.old ++ all_member_tokens form_members) }
{
    put_count(out, "dovecounter", 1)
}

/// Adds the members of a report.
pub fn put_entries(out: &mut JsonWriter, entries: &[Entry]) -> Result<(), AllocError>
    ensures { OnOk result (out.new
        ≡ out.old ++ all_member_tokens (entries_members (map entry_of entries.now))) }
{
    for entry in entries {
        put_content(out, entry.name, &entry.content)?;
    }
    Ok(())
}

#[tactic(auto, unfolding(crate::specs::EntryJson::content_members))]
fn put_content(
    out: &mut JsonWriter,
    name: &'static str,
    content: &Content,
) -> Result<(), AllocError>
    ensures { OnOk result (out.new
        ≡ out.old ++ all_member_tokens (content_members name.now (content_of content.now))) }
{
    match content {
        Content::Amount(millis, unit) => {
            out.key_in(name, unit.key())?;
            out.amount(*millis)
        }
        Content::Lanes(millis, unit) => {
            out.key_in(name, unit.key())?;
            put_amounts(out, millis.as_slice())
        }
        Content::Limits(limits, unit) => {
            out.key_in(name, unit.key())?;
            put_limits(out, *limits)
        }
        Content::State(code) => put_state(out, name, *code),
        Content::Right(right) => {
            out.key_in(name, "right")?;
            out.boolean(*right)
        }
        Content::Word(word) => {
            out.key_of(name)?;
            out.string(*word)
        }
        Content::Number(number) => {
            out.key_of(name)?;
            out.number(u64::from(*number))
        }
        Content::Code(byte) => {
            out.key_of(name)?;
            out.number(u64::from(*byte))
        }
        Content::Revision(byte) => {
            out.key_of(name)?;
            out.shown(Revision(*byte))
        }
        Content::Text(bytes) => {
            out.key_of(name)?;
            out.shown(TextIn(bytes.as_slice()))
        }
        Content::Oui(bytes) => {
            out.key_of(name)?;
            out.shown(Hexadecimal(bytes))
        }
        Content::LaneSet(lanes) => {
            out.key_of(name)?;
            out.number(u64::from(lanes.byte()))
        }
        Content::LaneStates(states) => {
            out.key_of(name)?;
            put_lane_states(out, states.as_slice())
        }
        Content::Flags(flags) => {
            out.key_of(name)?;
            put_flags(out, flags)
        }
        Content::Apps(apps) => {
            out.key_of(name)?;
            put_apps(out, apps.as_slice())
        }
        Content::Fact(place, fact) => put_fact(out, name, *place, fact),
    }
}

// A count under a key.
#[tactic(auto, unfolding(crate::specs::EntryJson::count_members))]
pub fn put_count(out: &mut JsonWriter, key: &str, count: u8) -> Result<(), AllocError>
    ensures { OnOk result (out.new ≡ out.old ++ all_member_tokens (count_members key.now count)) }
{
    out.key(key)?;
    out.number(u64::from(count))
}

#[tactic(auto, unfolding(crate::specs::EntryJson::amount_members))]
fn put_amount(out: &mut JsonWriter, key: &str, millis: i64) -> Result<(), AllocError>
    ensures { OnOk result (out.new ≡ out.old ++ all_member_tokens (amount_members key.now millis)) }
{
    out.key(key)?;
    out.amount(millis)
}

// A value under a key, as a string.
#[tactic(auto, unfolding(crate::specs::EntryJson::string_members))]
pub fn put_shown<V: Display + Drop>(
    out: &mut JsonWriter,
    key: &str,
    value: V,
) -> Result<(), AllocError>
    ensures { IfSome (V.output value) (λ shown.
        OnOk result (out.new ≡ out.old ++ all_member_tokens (string_members key.now shown))) }
{
    out.key(key)?;
    out.shown(value)
}

fn put_limits(out: &mut JsonWriter, limits: PerLimit<i64>) -> Result<(), AllocError>
    ensures { OnOk result (out.new ≡ out.old ++ json_tokens (limits_json limits)) }
{
    out.begin_object()?;
    put_alarms(out, limits)?;
    put_warnings(out, limits)?;
    out.end_object()
}

#[tactic(auto, unfolding(crate::specs::EntryJson::alarm_members))]
fn put_alarms(out: &mut JsonWriter, limits: PerLimit<i64>) -> Result<(), AllocError>
    ensures { OnOk result (out.new ≡ out.old ++ all_member_tokens (alarm_members limits)) }
{
    put_amount(out, "high_alarm", limits.high_alarm)?;
    put_amount(out, "low_alarm", limits.low_alarm)
}

#[tactic(auto, unfolding(crate::specs::EntryJson::warning_members))]
fn put_warnings(out: &mut JsonWriter, limits: PerLimit<i64>) -> Result<(), AllocError>
    ensures { OnOk result (out.new ≡ out.old ++ all_member_tokens (warning_members limits)) }
{
    put_amount(out, "high_warning", limits.high_warning)?;
    put_amount(out, "low_warning", limits.low_warning)
}

#[tactic(auto, unfolding(crate::specs::EntryJson::state_members, crate::specs::EntryJson::count_members, crate::specs::EntryJson::string_members))]
fn put_state(out: &mut JsonWriter, name: &str, code: u8) -> Result<(), AllocError>
    ensures { OnOk result (out.new ≡ out.old ++ all_member_tokens (state_members name.now code)) }
{
    out.key_of(name)?;
    out.number(u64::from(code))?;
    if let Ok(state) = module_states::state_of(code) {
        out.key_in(name, "name")?;
        out.shown(state)?;
    }
    Ok(())
}

fn put_lane_state(out: &mut JsonWriter, state: LaneState) -> Result<(), AllocError>
    ensures { OnOk result (out.new ≡ out.old ++ json_tokens (lane_state_json state)) }
{
    out.begin_object()?;
    put_path_state(out, state.path)?;
    put_config_status(out, state.status)?;
    out.end_object()
}

#[tactic(auto, unfolding(crate::specs::EntryJson::path_state_members))]
fn put_path_state(out: &mut JsonWriter, code: u8) -> Result<(), AllocError>
    ensures { OnOk result (out.new ≡ out.old ++ all_member_tokens (path_state_members code)) }
{
    put_count(out, "path_state", code)?;
    match datapath_states::state_of(code) {
        Ok(state) => put_shown(out, "path_state_name", state),
        Err(_) => Ok(()),
    }
}

#[tactic(auto, unfolding(crate::specs::EntryJson::config_status_members))]
fn put_config_status(out: &mut JsonWriter, code: u8) -> Result<(), AllocError>
    ensures { OnOk result (out.new ≡ out.old ++ all_member_tokens (config_status_members code)) }
{
    put_count(out, "config_status", code)?;
    match datapath_states::status_of(code) {
        Ok(status) => put_shown(out, "config_status_name", status),
        Err(_) => Ok(()),
    }
}

fn put_flag(out: &mut JsonWriter, flag: Flag) -> Result<(), AllocError>
    ensures { OnOk result (out.new ≡ out.old ++ json_tokens (flag_json flag)) }
{
    out.begin_object()?;
    put_shown(out, "name", flag.name)?;
    put_lane(out, flag.lane)?;
    out.end_object()
}

fn put_lane(out: &mut JsonWriter, lane: Option<u8>) -> Result<(), AllocError>
    ensures { OnOk result (out.new ≡ out.old ++ all_member_tokens (lane_members lane)) }
{
    match lane {
        Some(lane) => put_count(out, "lane", lane),
        None => Ok(()),
    }
}

fn put_app(out: &mut JsonWriter, app: &App) -> Result<(), AllocError>
    ensures { OnOk result (out.new ≡ out.old ++ json_tokens (app_json app.now)) }
{
    out.begin_object()?;
    put_kind(out, app)?;
    put_lane_counts(out, app)?;
    put_starts(out, app)?;
    put_usable(out, app)?;
    out.end_object()
}

#[tactic(auto, unfolding(crate::specs::EntryJson::kind_members))]
fn put_kind(out: &mut JsonWriter, app: &App) -> Result<(), AllocError>
    ensures { OnOk result (out.new ≡ out.old ++ all_member_tokens (kind_members app.now)) }
{
    put_count(out, "number", app.number)?;
    put_count(out, "host", app.host_id)?;
    put_count(out, "media", app.media_id)
}

#[tactic(auto, unfolding(crate::specs::EntryJson::lanes_members))]
fn put_lane_counts(out: &mut JsonWriter, app: &App) -> Result<(), AllocError>
    ensures { OnOk result (out.new ≡ out.old ++ all_member_tokens (lanes_members app.now)) }
{
    put_count(out, "host_lanes", app.host_lanes)?;
    put_count(out, "media_lanes", app.media_lanes)
}

#[tactic(auto, unfolding(crate::specs::EntryJson::starts_members))]
fn put_starts(out: &mut JsonWriter, app: &App) -> Result<(), AllocError>
    ensures { OnOk result (out.new ≡ out.old ++ all_member_tokens (starts_members app.now)) }
{
    put_count(out, "host_starts", app.host_starts.byte())?;
    put_count(out, "media_starts", app.media_starts.byte())
}

#[tactic(auto, unfolding(crate::specs::EntryJson::usable_members))]
fn put_usable(out: &mut JsonWriter, app: &App) -> Result<(), AllocError>
    ensures { OnOk result (out.new ≡ out.old ++ all_member_tokens (usable_members app.now)) }
{
    out.key("usable")?;
    out.boolean(app.is_usable())
}

fn put_amounts(out: &mut JsonWriter, values: &[i64]) -> Result<(), AllocError>
    ensures { OnOk result (out.new ≡ out.old ++ json_tokens (amounts_json values.now)) }
{
    out.begin_array()?;
    put_each_millis(out, values)?;
    out.end_array()
}

fn put_each_millis(out: &mut JsonWriter, values: &[i64]) -> Result<(), AllocError>
    ensures { OnOk result (out.new ≡ out.old ++ all_tokens (map amount_json values.now)) }
{
    for millis in values {
        out.amount(*millis)?;
    }
    Ok(())
}

fn put_lane_states(out: &mut JsonWriter, states: &[LaneState]) -> Result<(), AllocError>
    ensures { OnOk result (out.new ≡ out.old ++ json_tokens (lane_states_json states.now)) }
{
    out.begin_array()?;
    put_each_state(out, states)?;
    out.end_array()
}

fn put_each_state(out: &mut JsonWriter, states: &[LaneState]) -> Result<(), AllocError>
    ensures { OnOk result (out.new ≡ out.old ++ all_tokens (map lane_state_json states.now)) }
{
    for state in states {
        put_lane_state(out, *state)?;
    }
    Ok(())
}

fn put_flags(out: &mut JsonWriter, flags: &[Flag]) -> Result<(), AllocError>
    ensures { OnOk result (out.new ≡ out.old ++ json_tokens (flags_json flags.now)) }
{
    out.begin_array()?;
    put_each_flag(out, flags)?;
    out.end_array()
}

fn put_each_flag(out: &mut JsonWriter, flags: &[Flag]) -> Result<(), AllocError>
    ensures { OnOk result (out.new ≡ out.old ++ all_tokens (map flag_json flags.now)) }
{
    for flag in flags {
        put_flag(out, *flag)?;
    }
    Ok(())
}

fn put_apps(out: &mut JsonWriter, apps: &[App]) -> Result<(), AllocError>
    ensures { OnOk result (out.new ≡ out.old ++ json_tokens (apps_json apps.now)) }
{
    out.begin_array()?;
    put_each_app(out, apps)?;
    out.end_array()
}

fn put_each_app(out: &mut JsonWriter, apps: &[App]) -> Result<(), AllocError>
    ensures { OnOk result (out.new ≡ out.old ++ all_tokens (map app_json apps.now)) }
{
    for app in apps {
        put_app(out, app)?;
    }
    Ok(())
}
