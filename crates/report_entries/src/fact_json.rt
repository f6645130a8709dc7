// Facts as JSON.
ghost use Rattle.std.specs.Prelude.{◌≡◌, ◌++◌, ◌∷◌, [], OnOk, map};
ghost use Rattle.json.specs.Tree.{json_tokens};
ghost use Rattle.report_entries.specs.EntryJson.{coded_members, config_status_name, count_json, fact_key, fact_members, module_state_name, names_json, path_state_name, shown_json};
ghost use Rattle.report_entries.specs.Facts.{fact_of, texts_of};
ghost use Rattle.report_entries.specs.JsonTrees.{all_member_tokens, all_tokens};

use crate::fact::{Fact, Place};
use crate::json_writer::JsonWriter;
use crate::shown::{Revision, TextIn};
use crate::shown_fact::{Level, Milliwatts, Version};
use std::alloc::AllocError;
use text_lines::Hexadecimal;

/// Adds the members of a fact.
#[tactic(auto, unfolding(crate::specs::EntryJson::fact_members, crate::specs::EntryJson::coded_members, crate::specs::EntryJson::string_members))]
pub fn put_fact(
    out: &mut JsonWriter,
    name: &str,
    place: Place,
    fact: &Fact,
) -> Result<(), AllocError>
    ensures { OnOk result (out.new ≡ out.old ++ all_member_tokens (fact_members name.now place (fact_of fact.now))) }
{
    match fact {
        Fact::Word(word) => {
            out.key_at(name, place)?;
            out.string(*word)
        }
        Fact::Yes(yes) => {
            out.key_at(name, place)?;
            out.boolean(*yes)
        }
        Fact::Number(number) => {
            out.key_at(name, place)?;
            out.number(u64::from(*number))
        }
        Fact::Named(code, title) => {
            put_code(out, name, place, *code)?;
            out.key_at_in(name, place, "name")?;
            out.string(*title)
        }
        Fact::Names(names) => {
            out.key_at(name, place)?;
            put_names(out, names.as_slice())
        }
        Fact::Revision(byte) => {
            out.key_at(name, place)?;
            out.shown(Revision(*byte))
        }
        Fact::Version(major, minor) => {
            out.key_at(name, place)?;
            out.shown(Version(*major, *minor))
        }
        Fact::Text(bytes) => {
            out.key_at(name, place)?;
            out.shown(TextIn(bytes.as_slice()))
        }
        Fact::Oui(bytes) => {
            out.key_at(name, place)?;
            out.shown(Hexadecimal(bytes))
        }
        Fact::Amount(millis, unit) => {
            out.key_at_in(name, place, unit.key())?;
            out.amount(*millis)
        }
        Fact::Level(power) => {
            out.key_at_in(name, place, "dbm")?;
            out.scalar(Level(*power))
        }
        Fact::Milliwatts(power) => {
            out.key_at(name, place)?;
            out.scalar(Milliwatts(*power))
        }
        Fact::LaneSet(lanes) => {
            out.key_at(name, place)?;
            out.number(u64::from(lanes.byte()))
        }
        Fact::ModuleState(code) => put_module_state(out, name, place, *code),
        Fact::PathState(code) => put_path_state(out, name, place, *code),
        Fact::ConfigStatus(code) => put_config_status(out, name, place, *code),
    }
}

fn put_code(out: &mut JsonWriter, name: &str, place: Place, code: u8) -> Result<(), AllocError>
    ensures { OnOk result (out.new ≡ out.old ++ all_member_tokens ((fact_key name.now place, count_json code) ∷ [])) }
{
    out.key_at(name, place)?;
    out.number(u64::from(code))
}

#[tactic(auto, unfolding(crate::specs::EntryJson::coded_members, crate::specs::EntryJson::string_members))]
fn put_module_state(
    out: &mut JsonWriter,
    name: &str,
    place: Place,
    code: u8,
) -> Result<(), AllocError>
    ensures { OnOk result (out.new
        ≡ out.old ++ all_member_tokens (coded_members name.now place code (module_state_name code))) }
{
    put_code(out, name, place, code)?;
    if let Ok(state) = module_states::state_of(code) {
        out.key_at_in(name, place, "name")?;
        out.shown(state)?;
    }
    Ok(())
}

#[tactic(auto, unfolding(crate::specs::EntryJson::coded_members, crate::specs::EntryJson::string_members))]
fn put_path_state(
    out: &mut JsonWriter,
    name: &str,
    place: Place,
    code: u8,
) -> Result<(), AllocError>
    ensures { OnOk result (out.new
        ≡ out.old ++ all_member_tokens (coded_members name.now place code (path_state_name code))) }
{
    put_code(out, name, place, code)?;
    if let Ok(state) = datapath_states::state_of(code) {
        out.key_at_in(name, place, "name")?;
        out.shown(state)?;
    }
    Ok(())
}

#[tactic(auto, unfolding(crate::specs::EntryJson::coded_members, crate::specs::EntryJson::string_members))]
fn put_config_status(
    out: &mut JsonWriter,
    name: &str,
    place: Place,
    code: u8,
) -> Result<(), AllocError>
    ensures { OnOk result (out.new
        ≡ out.old ++ all_member_tokens (coded_members name.now place code (config_status_name code))) }
{
    put_code(out, name, place, code)?;
    if let Ok(status) = datapath_states::status_of(code) {
        out.key_at_in(name, place, "name")?;
        out.shown(status)?;
    }
    Ok(())
}

fn put_names(out: &mut JsonWriter, names: &[&'static str]) -> Result<(), AllocError>
    ensures { OnOk result (out.new ≡ out.old ++ json_tokens (names_json (texts_of names.now))) }
{
    out.begin_array()?;
    put_each_name(out, names)?;
    out.end_array()
}

fn put_each_name(out: &mut JsonWriter, names: &[&'static str]) -> Result<(), AllocError>
    ensures { OnOk result (out.new ≡ out.old ++ all_tokens (map shown_json names.now)) }
{
    for name in names {
        out.string(*name)?;
    }
    Ok(())
}
