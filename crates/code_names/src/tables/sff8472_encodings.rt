//! How bits are coded on the medium (SFF-8024, Table 4-2 Encoding Values, the column of SFF-8472).
ghost use Rattle.std.specs.Prelude.{◌≡◌, map};
ghost use Rattle.code_names.specs.Rows.{row_of};
ghost use Rattle.code_names.specs.Sff8472Encodings.{sff8472_encoding_names};

use crate::row::{Name, Row};

const ROWS: &[Row] = rows! {
    0x00 "Unspecified";
    0x01 "8B/10B";
    0x02 "4B/5B";
    0x03 "NRZ";
    0x04 "Manchester";
    0x05 "SONET Scrambled";
    0x06 "64B/66B";
    0x07 "256B/257B";
    0x08 "PAM4";
    0x09 to 0xff Reserved;
};

pub fn sff8472_encoding_names() -> &'static [Row]
    ensures { map row_of result.now ≡ sff8472_encoding_names }
{
    ROWS
}
