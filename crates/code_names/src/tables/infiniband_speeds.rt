//! At which speeds of InfiniBand a module works, by the bits of byte 164 (SFF-8636, Extended Module Codes).
ghost use Rattle.std.specs.Prelude.{◌≡◌, map};
ghost use Rattle.code_names.specs.Rows.{row_of};
ghost use Rattle.code_names.specs.InfinibandSpeeds.{infiniband_speed_names};

use crate::row::{Name, Row};

const ROWS: &[Row] = rows! {
    0x00 "SDR";
    0x01 "DDR";
    0x02 "QDR";
    0x03 "FDR";
    0x04 "EDR";
    0x05 "HDR";
    0x06 to 0x07 Reserved;
};

pub fn infiniband_speed_names() -> &'static [Row]
    ensures { map row_of result.now ≡ infiniband_speed_names }
{
    ROWS
}
