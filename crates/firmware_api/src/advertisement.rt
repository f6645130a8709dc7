ghost use Rattle.std.specs.Prelude.{◌≡◌, ◌≢◌};
ghost use Rattle.firmware_api.specs.Advertisements.{advertisement_of, application_at, application_of, applications_of};
ghost use Rattle.firmware_api.specs.Halves.{advert_of, conventions_of, module_refusal};
ghost use Rattle.firmware_api.specs.Statuses.{done, status_by};

use crate::half::{HalfBytes, conventions_of, read_advert_under};
use crate::status::DONE;
use applications::{Advert, App, MAX_APPS};

/// An Application: what a data path of the module may carry, and on which lanes it may begin. In a byte of lanes bit i-1
/// is that of lane i.
#[repr(C)]
#[derive(Clone, Copy, Default)]
pub struct Application {
    /// 1 to 15; AppSelCode names it by this number. 0 after the last one.
    pub number: u8,
    /// HostInterfaceID (SFF-8024).
    pub host_id: u8,
    /// MediaInterfaceID (SFF-8024).
    pub media_id: u8,
    pub host_lanes: u8,
    pub media_lanes: u8,
    /// The host lanes where a data path may begin.
    pub host_starts: u8,
    /// The media lanes where a data path may begin.
    pub media_starts: u8,
}

/// What a module advertises.
#[repr(C)]
#[derive(Clone, Copy)]
pub struct Advertisement {
    /// How many Applications there are.
    pub count: u8,
    /// The media lanes that no data path may use.
    pub unsupported: u8,
    /// By rising number; zeros after the last one.
    pub applications: [Application; MAX_APPS],
}

/// Puts into `advertisement` what the module whose memory has these halves advertises, with the lane counts that it has, or with
/// those that the interface IDs imply where they are 0, unless `counts_by_id` is 0.
#[unsafe(no_mangle)]
#[tactic(auto, unfolding(crate::specs::Halves::refusal_under))]
pub extern "C" fn dovecounter_advertisement(
    halves: &[HalfBytes],
    counts_by_id: u8,
    advertisement: &mut Advertisement,
) -> u32
    ensures status { result ≡ status_by (module_refusal halves.now) }
    ensures done { result ≡ done → advertisement.new ≡ advertisement_of (advert_of halves.now (conventions_of 0 counts_by_id 0)) }
    ensures refused { result ≢ done → advertisement.new ≡ advertisement.old }
{
    match read_advert_under(conventions_of(0, counts_by_id, 0), halves) {
        Ok(advert) => {
            put_advertisement(&advert, advertisement);
            DONE
        }
        Err(status) => status,
    }
}

fn put_advertisement(advert: &Advert, advertisement: &mut Advertisement)
    ensures { advertisement.new ≡ advertisement_of advert.now }
{
    let apps = advert.apps();
    advertisement.count = apps.len() as u8;
    advertisement.unsupported = advert.unsupported().byte();
    put_applications(apps, &mut advertisement.applications);
}

fn put_applications(apps: &[App], applications: &mut [Application; MAX_APPS])
    ensures { applications.new ≡ applications_of apps.now }
{
    for (place, application) in applications.iter_mut().enumerate() {
        *application = application_at(apps, place);
    }
}

fn application_at(apps: &[App], place: usize) -> Application
    ensures { result ≡ application_at apps.now place }
{
    match apps.get(place) {
        Some(app) => application_of(app),
        None => Application::default(),
    }
}

fn application_of(app: &App) -> Application
    ensures { result ≡ application_of app.now }
{
    Application {
        number: app.number,
        host_id: app.host_id,
        media_id: app.media_id,
        host_lanes: app.host_lanes,
        media_lanes: app.media_lanes,
        host_starts: app.host_starts.byte(),
        media_starts: app.media_starts.byte(),
    }
}
