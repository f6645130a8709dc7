//! How rates are selected (SFF-8472, Rate Identifiers).
ghost use Rattle.std.specs.Prelude.{◌≡◌, map};
ghost use Rattle.code_names.specs.Rows.{row_of};
ghost use Rattle.code_names.specs.Sff8472RateSelects.{sff8472_rate_select_names};

use crate::row::{Name, Row};

const ROWS: &[Row] = rows! {
    0x00 "Unspecified";
    0x01 "4/2/1G rate select and AS0/AS1 (SFF-8079)";
    0x02 "8/4/2G Rx rate select (SFF-8431)";
    0x04 "8/4/2G Tx rate select (SFF-8431)";
    0x06 "8/4/2G independent Rx and Tx rate select (SFF-8431)";
    0x08 "16/8/4G Rx rate select (FC-PI-5)";
    0x0a "16/8/4G independent Rx and Tx rate select (FC-PI-5)";
    0x0c "32/16/8G independent Rx and Tx rate select (FC-PI-6)";
    0x0e "10/8G Rx and Tx rate select";
};

pub fn sff8472_rate_select_names() -> &'static [Row]
    ensures { map row_of result.now ≡ sff8472_rate_select_names }
{
    ROWS
}
