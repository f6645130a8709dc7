//! How many lanes media interfaces of multi-mode fibre at 850 nm have (SFF-8024, Table 4-6 MM Media Interface IDs).
ghost use Rattle.std.specs.Prelude.{◌≡◌};
ghost use Rattle.interface_lanes.specs.MultiModeMedia.{multi_mode_media_lanes};

use crate::row::Row;

const ROWS: &[Row] = rows! {
    0x01 1; // 10GBASE-SW
    0x02 1; // 10GBASE-SR
    0x03 1; // 25GBASE-SR
    0x04 4; // 40GBASE-SR4
    0x05 4; // 40GE SWDM4
    0x07 1; // 50GBASE-SR
    0x09 4; // 100GBASE-SR4
    0x0a 4; // 100GE SWDM4
    0x0c 2; // 100GBASE-SR2
    0x0d 1; // 100GBASE-SR1
    0x0e 4; // 200GBASE-SR4
    0x10 8; // 400GBASE-SR8
    0x11 4; // 400GBASE-SR4
    0x12 8; // 800GBASE-SR8
    0x13 1; // 8GFC-MM
    0x15 1; // 16GFC-MM
    0x16 1; // 32GFC-MM
    0x17 1; // 64GFC-MM
    0x18 4; // 128GFC-MM4
    0x19 4; // 256GFC-MM4
    0x1b 2; // 200GBASE-SR2
    0x1d 1; // 100GBASE-VR1
    0x1e 2; // 200GBASE-VR2
    0x1f 4; // 400GBASE-VR4
    0x20 8; // 800GBASE-VR8
};

pub fn multi_mode_media_lanes() -> &'static [Row]
    ensures { result.now ≡ multi_mode_media_lanes }
{
    ROWS
}
