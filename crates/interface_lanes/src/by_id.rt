//! The count of an ID.
ghost use Rattle.std.specs.Prelude.{◌≡◌, find, option_copied};
ghost use Rattle.interface_lanes.specs.LanesById as spec;
ghost use Rattle.interface_lanes.specs.Rows.{count_in, has_id};

use crate::row::Row;
use crate::tables::host_interfaces::host_interface_lanes;
use crate::tables::multi_mode_media::multi_mode_media_lanes;
use crate::tables::single_mode_media::single_mode_media_lanes;

/// How many host lanes a HostInterfaceID implies, if that is known.
pub fn host_lanes_by_id(host_id: u8) -> Option<u8>
    ensures { result ≡ spec.host_lanes_by_id host_id }
{
    count_in(host_interface_lanes(), host_id)
}

/// How many media lanes a MediaInterfaceID implies, by the media type of its module, if that is known.
pub fn media_lanes_by_id(media_type: u8, media_id: u8) -> Option<u8>
    ensures { result ≡ spec.media_lanes_by_id media_type media_id }
{
    match media_type {
        1 => count_in(multi_mode_media_lanes(), media_id),
        2 => count_in(single_mode_media_lanes(), media_id),
        _ => None,
    }
}

fn count_in(rows: &'static [Row], id: u8) -> Option<u8>
    ensures { result ≡ count_in rows.now id }
{
    match row_in(rows, id) {
        Some(row) => Some(row.count),
        None => None,
    }
}

fn row_in(rows: &'static [Row], id: u8) -> Option<&'static Row>
    ensures { option_copied result ≡ find (has_id id) rows.now }
{
    rows.iter().find(|row| row.id == id)
}
