//! How the serial interface of a module is defined (SFF-8472, Extended Identifier).
ghost use Rattle.std.specs.Prelude.{◌≡◌, map};
ghost use Rattle.code_names.specs.Rows.{row_of};
ghost use Rattle.code_names.specs.Sff8472ExtendedIdentifiers.{sff8472_extended_identifier_names};

use crate::row::{Name, Row};

const ROWS: &[Row] = rows! {
    0x00 "Not specified";
    0x01 "MOD_DEF 1";
    0x02 "MOD_DEF 2";
    0x03 "MOD_DEF 3";
    0x04 "Two-wire interface";
    0x05 "MOD_DEF 5";
    0x06 "MOD_DEF 6";
    0x07 "MOD_DEF 7";
    0x08 to 0xff Reserved;
};

pub fn sff8472_extended_identifier_names() -> &'static [Row]
    ensures { map row_of result.now ≡ sff8472_extended_identifier_names }
{
    ROWS
}
