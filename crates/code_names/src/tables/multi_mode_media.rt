//! What the media lanes are, on multi-mode fibre at 850 nm (SFF-8024, Table 4-6 MM Media Interface IDs).
ghost use Rattle.std.specs.Prelude.{◌≡◌, map};
ghost use Rattle.code_names.specs.Rows.{row_of};
ghost use Rattle.code_names.specs.MultiModeMedia.{multi_mode_media_names};

use crate::row::{Name, Row};

const ROWS: &[Row] = rows! {
    0x00 "Undefined";
    0x01 "10GBASE-SW";
    0x02 "10GBASE-SR";
    0x03 "25GBASE-SR";
    0x04 "40GBASE-SR4";
    0x05 "40GE SWDM4";
    0x06 "40GE BiDi";
    0x07 "50GBASE-SR";
    0x08 "100GBASE-SR10";
    0x09 "100GBASE-SR4";
    0x0a "100GE SWDM4";
    0x0b "100GE BiDi";
    0x0c "100GBASE-SR2";
    0x0d "100GBASE-SR1";
    0x0e "200GBASE-SR4";
    0x0f "400GBASE-SR16";
    0x10 "400GBASE-SR8";
    0x11 "400GBASE-SR4";
    0x12 "800GBASE-SR8";
    0x13 "8GFC-MM";
    0x14 "10GFC-MM";
    0x15 "16GFC-MM";
    0x16 "32GFC-MM";
    0x17 "64GFC-MM";
    0x18 "128GFC-MM4";
    0x19 "256GFC-MM4";
    0x1a "400GBASE-SR4.2";
    0x1b "200GBASE-SR2";
    0x1d "100GBASE-VR1";
    0x1e "200GBASE-VR2";
    0x1f "400GBASE-VR4";
    0x20 "800GBASE-VR8";
    0xc0 to 0xff VendorSpecific;
};

pub fn multi_mode_media_names() -> &'static [Row]
    ensures { map row_of result.now ≡ multi_mode_media_names }
{
    ROWS
}
