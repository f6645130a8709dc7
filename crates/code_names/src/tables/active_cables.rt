//! What the media lanes are, on an active cable; BER is the greatest bit error ratio (SFF-8024, Table 4-9 Active Cable Assembly Media Interface IDs).
ghost use Rattle.std.specs.Prelude.{◌≡◌, map};
ghost use Rattle.code_names.specs.Rows.{row_of};
ghost use Rattle.code_names.specs.ActiveCables.{active_cable_names};

use crate::row::{Name, Row};

const ROWS: &[Row] = rows! {
    0x00 "Undefined";
    0x01 "Active cable, BER < 10^-12";
    0x02 "Active cable, BER < 5x10^-5";
    0x03 "Active cable, BER < 2.6x10^-4";
    0x04 "Active cable, BER < 10^-6";
    0xbf "Active loopback module";
    0xc0 to 0xff VendorSpecific;
};

pub fn active_cable_names() -> &'static [Row]
    ensures { map row_of result.now ≡ active_cable_names }
{
    ROWS
}
