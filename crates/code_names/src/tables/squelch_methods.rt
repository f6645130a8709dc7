//! What a transmitter's squelch reduces (OIF-CMIS-05.0, Supported Controls Advertisement).
ghost use Rattle.std.specs.Prelude.{◌≡◌, map};
ghost use Rattle.code_names.specs.Rows.{row_of};
ghost use Rattle.code_names.specs.SquelchMethods.{squelch_method_names};

use crate::row::{Name, Row};

const ROWS: &[Row] = rows! {
    0x00 "none";
    0x01 "OMA";
    0x02 "average power";
    0x03 "OMA or average power";
};

pub fn squelch_method_names() -> &'static [Row]
    ensures { map row_of result.now ≡ squelch_method_names }
{
    ROWS
}
