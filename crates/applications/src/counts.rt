//! Lane counts that a descriptor leaves to the interface IDs.
ghost use Rattle.std.specs.Prelude.{◌≡◌, ◌≤◌, Option, length, map};
ghost use Rattle.applications.specs.CountsById as spec;

use crate::app::{App, MAX_APPS};
use arrayvec::ArrayVec;
use interface_lanes::{host_lanes_by_id, media_lanes_by_id};

/// The Applications, each with the lane counts that its interface IDs imply where its own are 0.
pub fn counted_apps(media_type: u8, apps: &[App]) -> ArrayVec<App, MAX_APPS>
    requires { length apps.now ≤ MAX_APPS }
    ensures { result.items ≡ map (spec.counted media_type) apps.now }
{
    let mut counted = ArrayVec::new();
    for app in apps {
        counted.push(counted_app(media_type, *app));
    }
    counted
}

fn counted_app(media_type: u8, app: App) -> App
    ensures { result ≡ spec.counted media_type app }
{
    App {
        host_lanes: count_by(host_lanes_by_id(app.host_id), app.host_lanes),
        media_lanes: count_by(media_lanes_by_id(media_type, app.media_id), app.media_lanes),
        ..app
    }
}

// The count of a descriptor, or if that is 0, the implied one, if it is known.
fn count_by(implied: Option<u8>, count: u8) -> u8
    ensures { result ≡ spec.count_by implied count }
{
    if count == 0 {
        implied.unwrap_or(0)
    } else {
        count
    }
}
