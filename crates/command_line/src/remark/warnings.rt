ghost use Rattle.std.specs.Prelude.{◌≡◌, ◌==◌};
ghost use Rattle.std.specs.List.{list_all};
ghost use Rattle.command_line.specs.PlanWarnings.{is_named, is_unknown, names_some, no_warnings, stays_unused, unknown_in, warnings_of};

use super::shown_byte::ShownByte;
use applications::{Advert, App, WeightTable, Weights};
use std::fmt;

/// What is odd about a plan that is given.
#[derive(Clone, Copy)]
pub struct Warnings {
    /// By HostInterfaceID: it weighs something, and no Application of the module has it.
    unknown_hosts: [bool; 256],
    /// The same by MediaInterfaceID.
    unknown_media: [bool; 256],
    /// The same by the number of an Application.
    unknown_apps: [bool; 256],
    /// Staying weighs something, and no data path is known to be in the Active Control Set.
    stays_unused: bool,
    has_no_paths: bool,
}

impl Warnings {
    /// Nothing.
    pub fn none() -> Warnings
        ensures { result ≡ no_warnings }
    {
        Warnings {
            unknown_hosts: [false; 256],
            unknown_media: [false; 256],
            unknown_apps: [false; 256],
            stays_unused: false,
            has_no_paths: false,
        }
    }

    /// Of a plan for this module by these weights, which has paths or none.
    pub fn of(advert: &Advert, weights: &Weights, has_paths: bool) -> Warnings
        ensures { result ≡ warnings_of advert.now weights.now has_paths }
    {
        let unknown_hosts = unknown_in(advert, weights, WeightTable::Host);
        let unknown_media = unknown_in(advert, weights, WeightTable::Media);
        let unknown_apps = unknown_in(advert, weights, WeightTable::App);
        Warnings {
            unknown_hosts,
            unknown_media,
            unknown_apps,
            stays_unused: stays_unused(advert, weights),
            has_no_paths: !has_paths,
        }
    }
}

// Whether the weight of staying counts for nothing, as no data path is known to be in the Active Control Set.
fn stays_unused(advert: &Advert, weights: &Weights) -> bool
    ensures { result ≡ stays_unused advert.now weights.now }
{
    weights.stay() != 0 && has_no_code(&advert.active().app_sel_codes)
}

fn has_no_code(codes: &[u8; 8]) -> bool
    ensures { result ≡ list_all (λ code. code == 0) codes.now }
{
    codes.iter().all(|code| *code == 0)
}

// Of each number of a table, whether its weight counts for nothing.
fn unknown_in(advert: &Advert, weights: &Weights, table: WeightTable) -> [bool; 256]
    ensures { result ≡ unknown_in advert.now weights.now table }
{
    let mut all = [false; 256];
    for (number, unknown) in all.iter_mut().enumerate() {
        *unknown = is_unknown(advert, weights, table, number as u8);
    }
    all
}

// Whether the weight of this one does.
fn is_unknown(advert: &Advert, weights: &Weights, table: WeightTable, number: u8) -> bool
    ensures { result ≡ is_unknown advert.now weights.now table number }
{
    weights.table(table)[usize::from(number)] != 0 && !names_some(advert, table, number)
}

// Whether an Application is named by it.
fn names_some(advert: &Advert, table: WeightTable, number: u8) -> bool
    ensures { result ≡ names_some advert.now table number }
{
    advert.apps().iter().any(|app| is_named(app, table, number))
}

fn is_named(app: &App, table: WeightTable, number: u8) -> bool
    ensures { result ≡ is_named table number app.now }
{
    match table {
        WeightTable::Host => app.host_id == number,
        WeightTable::Media => app.media_id == number,
        WeightTable::App => app.number == number,
    }
}

/// A line for each key of the weights that names no Application or that counts for nothing, and one for a plan without paths.
impl fmt::Display for Warnings {
    fn fmt<W: fmt::Write>(&self, f: &mut fmt::Formatter<W>) -> fmt::Result {
        for number in 0..=255u8 {
            if self.unknown_hosts[usize::from(number)] {
                let key = ShownByte(number);
                writeln!(
                    f,
                    "cmisctl: key {key}: no Application of this module has this host interface, so its weight counts for nothing; 'apps' prints those that it has, after 'host'"
                )?;
            }
        }
        for number in 0..=255u8 {
            if self.unknown_media[usize::from(number)] {
                let key = ShownByte(number);
                writeln!(
                    f,
                    "cmisctl: key {key} of 'media': no Application of this module has this media interface, so its weight counts for nothing; 'apps' prints those that it has, after 'media'"
                )?;
            }
        }
        for number in 0..=255u8 {
            if self.unknown_apps[usize::from(number)] {
                writeln!(
                    f,
                    "cmisctl: key {number} of 'app': this module has no Application of this number, so its weight counts for nothing; 'apps' prints those that it has, after 'app'"
                )?;
            }
        }
        if self.stays_unused {
            writeln!(
                f,
                "cmisctl: key stay: no data path is known to be in the Active Control Set, so the weight of staying counts for nothing; '--now' looks at that of the image"
            )?;
        }
        if self.has_no_paths {
            writeln!(
                f,
                "cmisctl: the plan has no data paths: 'provision' would make all control bytes 00, which takes every data path down"
            )?;
        }
        Ok(())
    }
}
