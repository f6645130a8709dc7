// How much data paths are wanted, by their Application, and by whether they are active.
ghost use Rattle.std.specs.Prelude.{◌≡◌, ◌≤◌, ◌<◌, ◌==◌, ℕ, find, map, option_copied, slice_index};
ghost use Rattle.std.specs.List.{range_with_len};
ghost use Rattle.applications.specs.declared.app.App.{App};
ghost use Rattle.applications.specs.AppWeights.{active_app, weight_of_number};
ghost use Rattle.applications.specs.Weights.{weight_at};

use super::Weights;
use crate::active::number_of_lane;
use crate::advert::Advert;
use crate::app::App;
use std::array;
use std::marker::Model;

/// What the data paths of each Application weigh, and which of them weigh more, as they are active.
#[derive(Debug, Drop)]
pub struct AppWeights {
    by_number: [u64; 16],
    active: [u8; 8],
    stay: u32,
}

impl Model for AppWeights {
    ghost use Rattle.applications.specs.AppWeights.{ArePathWeights, PathWeights};

    ghost Value = { PathWeights };

    ghost view = { λ weights. record { by_app = weights.by_number; active = weights.active; stay = weights.stay } };

    ghost invariant = { λ weights. ArePathWeights (record { by_app = weights.by_number; active = weights.active; stay = weights.stay }) };
}

impl AppWeights {
    ghost use Rattle.applications.specs.AppWeights.{app_weights, stay_at, weight_from};
    ghost use Rattle.applications.specs.Weights.{weights_of_hosts};

    /// Of a module's Applications, by weights.
    pub fn of(advert: &Advert, weights: &Weights) -> AppWeights
        ensures { result ≡ app_weights advert.now weights.now }
    {
        AppWeights {
            by_number: weights_by_number(
                advert,
                &weights.by_host_id,
                &weights.by_media_id,
                &weights.by_app,
            ),
            active: active_apps(advert),
            stay: weights.stay,
        }
    }

    /// By weights of host interfaces and of staying alone.
    pub fn by_host(advert: &Advert, weights: &[u32; 256], stay: u32) -> AppWeights
        ensures { result ≡ app_weights advert.now (weights_of_hosts weights.now stay) }
    {
        AppWeights {
            by_number: weights_by_number(advert, weights, &[], &[]),
            active: active_apps(advert),
            stay,
        }
    }

    /// None weighs more, since each is the sum of four weights of 32 bits at most.
    #[tactic(auto, using(crate::proofs::LightWeights::path_light))]
    pub fn bound(&self) -> u64
        ensures value { result ≡ 17179869180 }
        ensures bound { (number host : ℕ) → weight_from self.now number host ≤ result }
    {
        let _weights = &self.by_number;
        4 * u64::from(u32::MAX)
    }

    /// What a data path of the Application with this number from a host lane on weighs.
    #[tactic(auto, unfolding(crate::specs::AppWeights::weight_from))]
    pub fn of_path(&self, number: u8, host: u8) -> u64
        ensures weight { result ≡ weight_from self.now number host }
        ensures small { result ≤ 17179869180 }
    {
        self.of_app(number) + self.of_staying(number, host)
    }

    fn of_app(&self, number: u8) -> u64
        ensures weight { result ≡ weight_at self.now.by_app number }
        ensures small { result ≤ 12884901885 }
    {
        self.by_number
            .get(usize::from(number))
            .copied()
            .unwrap_or(0)
    }

    fn of_staying(&self, number: u8, host: u8) -> u64
        ensures weight { result ≡ stay_at self.now number host }
        ensures small { result ≤ 4294967295 }
    {
        if number != 0 && number_of_lane(&self.active, usize::from(host)) == number {
            u64::from(self.stay)
        } else {
            0
        }
    }
}

// What the data paths of each Application weigh, by tables of weights.
fn weights_by_number(
    advert: &Advert,
    by_host: &[u32],
    by_media: &[u32],
    by_app: &[u32],
) -> [u64; 16]
    ensures weights { (stay : ℕ) → result ≡ map (weight_of_number advert.now (record { by_host = by_host.now; by_media = by_media.now; by_app = by_app.now; stay = stay })) (range_with_len 0 16) }
    ensures small { (k : ℕ) → k < 16 → slice_index result k ≤ 12884901885 }
{
    array::from_fn(|number| weight_of_number(advert, by_host, by_media, by_app, number as u8))
}

// The Application of which an active path begins at each host lane.
fn active_apps(advert: &Advert) -> [u8; 8]
    ensures { result ≡ map (active_app advert.now) (range_with_len 1 8) }
{
    array::from_fn(|before| active_app(advert, before + 1))
}

// The same of one lane.
#[tactic(auto, unfolding(crate::specs::AppWeights::active_app))]
fn active_app(advert: &Advert, host: usize) -> u8
    requires { host ≤ 8 }
    ensures { result ≡ active_app advert.now host }
{
    let active = advert.active();
    let number = active.app_sel_code(host);
    let is_active = app_with(advert, number).is_some_and(|app| active.is_active(app, host));
    if is_active { number } else { 0 }
}

// What a data path of the Application with this number weighs, by tables of weights.
#[tactic(auto, unfolding(crate::specs::AppWeights::weight_of_number))]
fn weight_of_number(
    advert: &Advert,
    by_host: &[u32],
    by_media: &[u32],
    by_app: &[u32],
    number: u8,
) -> u64
    ensures weight { (stay : ℕ) → result ≡ weight_of_number advert.now (record { by_host = by_host.now; by_media = by_media.now; by_app = by_app.now; stay = stay }) number }
    ensures small { result ≤ 12884901885 }
{
    match app_with(advert, number) {
        Some(app) => {
            weight_at(by_host, app.host_id)
                + weight_at(by_media, app.media_id)
                + weight_at(by_app, app.number)
        }
        None => 0,
    }
}

fn app_with(advert: &Advert, number: u8) -> Option<&App>
    ensures { option_copied result ≡ find (λ (app : App). app.number == number) advert.now.apps }
{
    advert.apps().iter().find(|app| app.number == number)
}

// What a table says of a number.
fn weight_at(table: &[u32], number: u8) -> u64
    ensures weight { result ≡ weight_at table.now number }
    ensures small { result ≤ 4294967295 }
{
    u64::from(table.get(usize::from(number)).copied().unwrap_or(0))
}
