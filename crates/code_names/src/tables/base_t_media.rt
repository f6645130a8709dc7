//! What the media lanes are, on twisted pairs (SFF-8024, Table 4-10 BASE-T Media Interface IDs).
ghost use Rattle.std.specs.Prelude.{◌≡◌, map};
ghost use Rattle.code_names.specs.Rows.{row_of};
ghost use Rattle.code_names.specs.BaseTMedia.{base_t_media_names};

use crate::row::{Name, Row};

const ROWS: &[Row] = rows! {
    0x00 "Undefined";
    0x01 "1000BASE-T";
    0x02 "2.5GBASE-T";
    0x03 "5GBASE-T";
    0x04 "10GBASE-T";
    0x05 to 0xbf Reserved;
    0xc0 to 0xff VendorSpecific;
};

pub fn base_t_media_names() -> &'static [Row]
    ensures { map row_of result.now ≡ base_t_media_names }
{
    ROWS
}
