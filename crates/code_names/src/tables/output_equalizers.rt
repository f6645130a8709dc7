//! Which equalizers of a receiver's output a host can control (OIF-CMIS-05.0, Supported Signal Integrity Controls Advertisement).
ghost use Rattle.std.specs.Prelude.{◌≡◌, map};
ghost use Rattle.code_names.specs.Rows.{row_of};
ghost use Rattle.code_names.specs.OutputEqualizers.{output_equalizer_names};

use crate::row::{Name, Row};

const ROWS: &[Row] = rows! {
    0x00 "none";
    0x01 "pre-cursor";
    0x02 "post-cursor";
    0x03 "pre-cursor and post-cursor";
};

pub fn output_equalizer_names() -> &'static [Row]
    ensures { map row_of result.now ≡ output_equalizer_names }
{
    ROWS
}
