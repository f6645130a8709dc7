ghost use Rattle.std.specs.Prelude.{◌≡◌, ◌≤◌, IsTrue};
ghost use Rattle.applications.specs.Descriptors.{apps_of, is_column};
ghost use Rattle.applications.specs.Descriptors as spec;

use crate::app::{App, MAX_APPS};
use arrayvec::ArrayVec;
use field_tables::CmisField::{
    AppHost, AppHostLanes, AppHostLanesMore, AppHostMore, AppHostStarts, AppHostStartsMore,
    AppMedia, AppMediaLanes, AppMediaLanesMore, AppMediaMore, MediaStarts,
};
use field_tables::{CmisField, Field, number_at};
use paged_memory::Image;

// The HostInterfaceID that ends the list.
const LIST_END: u8 = 0xFF;

/// The Applications before the one whose HostInterfaceID ends the list.
#[tactic(auto, unfolding(crate::specs::Descriptors::apps_of))]
pub fn apps_in(image: &Image) -> ArrayVec<App, MAX_APPS>
    ensures { result.items ≡ apps_of image.now }
{
    let mut apps = ArrayVec::new();
    for before in 0..15 {
        let app = app_at(image, before + 1);
        if app.host_id == LIST_END {
            return apps;
        }
        apps.push(app);
    }
    apps
}

/// What stands in the descriptor of a number.
#[tactic(auto, unfolding(crate::specs::Descriptors::app_at))]
fn app_at(image: &Image, number: u8) -> App
    requires first { 1 ≤ number }
    requires last { number ≤ 15 }
    ensures { result ≡ spec.app_at image.now number }
{
    App {
        number,
        host_id: described(image, AppHost, AppHostMore, number),
        media_id: described(image, AppMedia, AppMediaMore, number),
        host_lanes: described(image, AppHostLanes, AppHostLanesMore, number),
        media_lanes: described(image, AppMediaLanes, AppMediaLanesMore, number),
        host_starts: described(image, AppHostStarts, AppHostStartsMore, number).into(),
        media_starts: number_at(image, Field::Cmis(MediaStarts), number).into(),
    }
}

// What the descriptor of a number has in a column: those of 1 to 8 are in one field, those of 9 to 15 in another.
fn described(image: &Image, first: CmisField, more: CmisField, number: u8) -> u8
    requires one { 1 ≤ number }
    requires last { number ≤ 15 }
    requires first_fits { IsTrue (is_column first 8) }
    requires more_fits { IsTrue (is_column more 7) }
    ensures { result ≡ spec.described image.now first more number }
{
    if number <= 8 {
        number_at(image, Field::Cmis(first), number)
    } else {
        number_at(image, Field::Cmis(more), number - 8)
    }
}
