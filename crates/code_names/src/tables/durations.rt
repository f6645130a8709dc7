//! How long a state lasts at most (OIF-CMIS-05.0, Durations Advertising).
ghost use Rattle.std.specs.Prelude.{◌≡◌, map};
ghost use Rattle.code_names.specs.Rows.{row_of};
ghost use Rattle.code_names.specs.Durations.{duration_names};

use crate::row::{Name, Row};

const ROWS: &[Row] = rows! {
    0x00 "below 1 ms";
    0x01 "1 to 5 ms";
    0x02 "5 to 10 ms";
    0x03 "10 to 50 ms";
    0x04 "50 to 100 ms";
    0x05 "100 to 500 ms";
    0x06 "500 ms to 1 s";
    0x07 "1 to 5 s";
    0x08 "5 to 10 s";
    0x09 "10 s to 1 min";
    0x0a "1 to 5 min";
    0x0b "5 to 10 min";
    0x0c "10 to 50 min";
    0x0d "50 min or more";
    0x0e to 0x0f Reserved;
};

pub fn duration_names() -> &'static [Row]
    ensures { map row_of result.now ≡ duration_names }
{
    ROWS
}
