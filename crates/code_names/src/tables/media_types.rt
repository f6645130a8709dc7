//! On which kind of medium a module's Applications are, and so by which table their media interfaces are named (OIF-CMIS-05.0, Media Type Encodings).
ghost use Rattle.std.specs.Prelude.{◌≡◌, map};
ghost use Rattle.code_names.specs.Rows.{row_of};
ghost use Rattle.code_names.specs.MediaTypes.{media_type_names};

use crate::row::{Name, Row};

const ROWS: &[Row] = rows! {
    0x00 "Undefined";
    0x01 "Optical interfaces: MMF";
    0x02 "Optical interfaces: SMF";
    0x03 "Passive copper cables";
    0x04 "Active cables";
    0x05 "BASE-T";
    0x06 to 0x3f Reserved;
    0x40 to 0x8f VendorSpecific;
    0x90 to 0xff Reserved;
};

pub fn media_type_names() -> &'static [Row]
    ensures { map row_of result.now ≡ media_type_names }
{
    ROWS
}
