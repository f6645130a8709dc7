//! What the media lanes are, on a copper cable that amplifies nothing (SFF-8024, Table 4-8 Passive Copper Cable Media Interface IDs).
ghost use Rattle.std.specs.Prelude.{◌≡◌, map};
ghost use Rattle.code_names.specs.Rows.{row_of};
ghost use Rattle.code_names.specs.PassiveCopper.{passive_copper_names};

use crate::row::{Name, Row};

const ROWS: &[Row] = rows! {
    0x00 "Undefined";
    0x01 "Copper cable";
    0x02 to 0xbe Reserved;
    0xbf "Passive loopback module";
    0xc0 to 0xff VendorSpecific;
};

pub fn passive_copper_names() -> &'static [Row]
    ensures { map row_of result.now ≡ passive_copper_names }
{
    ROWS
}
