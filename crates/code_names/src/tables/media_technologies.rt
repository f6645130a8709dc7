//! What makes the light, or how a copper cable is equalized (OIF-CMIS-05.0, Media Interface Technology Encodings).
ghost use Rattle.std.specs.Prelude.{◌≡◌, map};
ghost use Rattle.code_names.specs.Rows.{row_of};
ghost use Rattle.code_names.specs.MediaTechnologies.{media_technology_names};

use crate::row::{Name, Row};

const ROWS: &[Row] = rows! {
    0x00 "850 nm VCSEL";
    0x01 "1310 nm VCSEL";
    0x02 "1550 nm VCSEL";
    0x03 "1310 nm FP";
    0x04 "1310 nm DFB";
    0x05 "1550 nm DFB";
    0x06 "1310 nm EML";
    0x07 "1550 nm EML";
    0x08 "Others";
    0x09 "1490 nm DFB";
    0x0a "Copper cable, unequalized";
    0x0b "Copper cable, passive equalized";
    0x0c "Copper cable, near and far end limiting active equalizers";
    0x0d "Copper cable, far end limiting active equalizers";
    0x0e "Copper cable, near end limiting active equalizers";
    0x0f "Copper cable, linear active equalizers";
    0x10 "C-band tunable laser";
    0x11 "L-band tunable laser";
    0x15 to 0xff Reserved;
};

pub fn media_technology_names() -> &'static [Row]
    ensures { map row_of result.now ≡ media_technology_names }
{
    ROWS
}
