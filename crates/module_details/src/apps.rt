// The Applications of a CMIS module, by name.
ghost use Rattle.std.specs.Prelude.{◌≡◌, ◌++◌, ◌∷◌, [], OnOk};
ghost use Rattle.std.specs.List.{flat_map};
ghost use Rattle.report_entries.specs.Entries.{as_entries};
ghost use Rattle.report_entries.specs.Facts.{fact_of};
ghost use Rattle.module_details.specs.AppDetails as spec;
ghost use Rattle.module_details.specs.AppDetails.{app_entries, app_entry, apps_entries, host_entry, interface_entries, lane_entries, medium_entry, start_entries};

use crate::facts::named;
use applications::{App, apps_in, page_refusal};
use code_names::{Table, media_interface_name};
use field_tables::{field, number};
use module_decoding::is_flat;
use paged_memory::Image;
use report_entries::{Content, Entry, Fact, Place, add_entry};
use std::alloc::AllocError;

/// Adds the entries of each Application; none if they are not read.
#[tactic(auto, unfolding(crate::specs::AppDetails::apps_entries))]
pub fn add_apps(entries: &mut Vec<Entry>, image: &Image) -> Result<(), AllocError>
    ensures { OnOk result (as_entries entries.new ≡ as_entries entries.old ++ apps_entries image.now) }
{
    let flat = is_flat(image);
    if !flat && page_refusal(image).is_some() {
        return Ok(());
    }
    let media = number(image, field!(Cmis MediaType));
    let apps = apps_in(image);
    add_each_app(entries, flat, media, apps.as_slice())
}

fn add_each_app(
    entries: &mut Vec<Entry>,
    flat: bool,
    media: u8,
    apps: &[App],
) -> Result<(), AllocError>
    ensures { OnOk result (as_entries entries.new ≡ as_entries entries.old ++ flat_map (app_entries flat media) apps.now) }
{
    for app in apps {
        add_app(entries, flat, media, app)?;
    }
    Ok(())
}

#[tactic(auto, unfolding(crate::specs::AppDetails::app_entries))]
fn add_app(entries: &mut Vec<Entry>, flat: bool, media: u8, app: &App) -> Result<(), AllocError>
    ensures { OnOk result (as_entries entries.new ≡ as_entries entries.old ++ app_entries flat media app.now) }
{
    if flat && app.number > 8 {
        return Ok(());
    }
    add_interfaces(entries, media, app)?;
    add_lanes(entries, app)?;
    add_starts(entries, flat, app)
}

#[tactic(auto, unfolding(crate::specs::AppDetails::interface_entries))]
fn add_interfaces(entries: &mut Vec<Entry>, media: u8, app: &App) -> Result<(), AllocError>
    ensures { OnOk result (as_entries entries.new ≡ as_entries entries.old ++ interface_entries media app.now) }
{
    add_host(entries, app)?;
    add_medium(entries, media, app)
}

#[tactic(auto, unfolding(crate::specs::AppDetails::host_entry))]
fn add_host(entries: &mut Vec<Entry>, app: &App) -> Result<(), AllocError>
    ensures { OnOk result (as_entries entries.new ≡ as_entries entries.old ++ host_entry app.now ∷ []) }
{
    let host = named(Table::HostInterfaces, app.host_id);
    add_app_fact(entries, "host-interface", app, host)
}

#[tactic(auto, unfolding(crate::specs::AppDetails::medium_entry))]
fn add_medium(entries: &mut Vec<Entry>, media: u8, app: &App) -> Result<(), AllocError>
    ensures { OnOk result (as_entries entries.new ≡ as_entries entries.old ++ medium_entry media app.now ∷ []) }
{
    add_app_fact(entries, "media-interface", app, medium(media, app.media_id))
}

#[tactic(auto, unfolding(crate::specs::AppDetails::lane_entries))]
fn add_lanes(entries: &mut Vec<Entry>, app: &App) -> Result<(), AllocError>
    ensures { OnOk result (as_entries entries.new ≡ as_entries entries.old ++ lane_entries app.now) }
{
    add_app_fact(
        entries,
        "host-lanes",
        app,
        Fact::Number(u16::from(app.host_lanes)),
    )?;
    add_app_fact(
        entries,
        "media-lanes",
        app,
        Fact::Number(u16::from(app.media_lanes)),
    )
}

#[tactic(auto, unfolding(crate::specs::AppDetails::start_entries))]
fn add_starts(entries: &mut Vec<Entry>, flat: bool, app: &App) -> Result<(), AllocError>
    ensures { OnOk result (as_entries entries.new ≡ as_entries entries.old ++ start_entries flat app.now) }
{
    add_app_fact(entries, "host-starts", app, Fact::LaneSet(app.host_starts))?;
    if flat {
        return Ok(());
    }
    add_app_fact(
        entries,
        "media-starts",
        app,
        Fact::LaneSet(app.media_starts),
    )
}

#[tactic(auto, unfolding(crate::specs::AppDetails::app_entry))]
fn add_app_fact(
    entries: &mut Vec<Entry>,
    name: &'static str,
    app: &App,
    fact: Fact,
) -> Result<(), AllocError>
    ensures { OnOk result (as_entries entries.new
        ≡ as_entries entries.old ++ app_entry name.now app.now (fact_of fact) ∷ []) }
{
    add_entry(entries, name, Content::Fact(Place::App(app.number), fact))
}

fn medium(media: u8, code: u8) -> Fact
    ensures { fact_of result ≡ spec.medium media code }
{
    Fact::Named(code, media_interface_name(media, code).text())
}
