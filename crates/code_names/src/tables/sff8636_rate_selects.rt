//! How rates are selected (SFF-8636, Extended Rate Select Compliance).
ghost use Rattle.std.specs.Prelude.{◌≡◌, map};
ghost use Rattle.code_names.specs.Rows.{row_of};
ghost use Rattle.code_names.specs.Sff8636RateSelects.{sff8636_rate_select_names};

use crate::row::{Name, Row};

const ROWS: &[Row] = rows! {
    0x00 "None";
    0x01 "Version 1";
    0x02 "Version 2";
};

pub fn sff8636_rate_select_names() -> &'static [Row]
    ensures { map row_of result.now ≡ sff8636_rate_select_names }
{
    ROWS
}
