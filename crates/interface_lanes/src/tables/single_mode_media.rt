//! How many lanes media interfaces of single-mode fibre have (SFF-8024, Table 4-7 SM Media Interface IDs).
ghost use Rattle.std.specs.Prelude.{◌≡◌};
ghost use Rattle.interface_lanes.specs.SingleModeMedia.{single_mode_media_lanes};

use crate::row::Row;

const ROWS: &[Row] = rows! {
    0x01 1; // 10GBASE-LW
    0x02 1; // 10GBASE-EW
    0x03 1; // 10G-ZW
    0x04 1; // 10GBASE-LR
    0x05 1; // 10GBASE-ER
    0x06 1; // 10G-ZR
    0x07 1; // 25GBASE-LR
    0x08 1; // 25GBASE-ER
    0x09 4; // 40GBASE-LR4
    0x0a 1; // 40GBASE-FR
    0x0b 1; // 50GBASE-FR
    0x0c 1; // 50GBASE-LR
    0x0d 4; // 100GBASE-LR4
    0x0e 4; // 100GBASE-ER4
    0x0f 4; // 100G PSM4
    0x10 4; // 100G CWDM4
    0x11 4; // 100G 4WDM-10
    0x12 4; // 100G 4WDM-20
    0x13 4; // 100G 4WDM-40
    0x14 1; // 100GBASE-DR
    0x15 1; // 100G-FR/100GBASE-FR1
    0x16 1; // 100G-LR/100GBASE-LR1
    0x17 4; // 200GBASE-DR4
    0x18 4; // 200GBASE-FR4
    0x19 4; // 200GBASE-LR4
    0x1a 8; // 400GBASE-FR8
    0x1b 8; // 400GBASE-LR8
    0x1c 4; // 400GBASE-DR4
    0x1d 4; // 400G-FR4/400GBASE-FR4
    0x1e 4; // 400G-LR4-10
    0x1f 1; // 8GFC-SM
    0x21 1; // 16GFC-SM
    0x22 1; // 32GFC-SM
    0x23 1; // 64GFC-SM
    0x24 4; // 128GFC-PSM4
    0x25 4; // 256GFC-PSM4
    0x26 4; // 128GFC-CWDM4
    0x27 4; // 256GFC-CWDM4
    0x2c 4; // 4I1-9D1F
    0x2d 4; // 4L1-9C1F
    0x2e 4; // 4L1-9D1F
    0x2f 4; // C4S1-9D1F
    0x30 4; // C4S1-4D1F
    0x31 4; // 4I1-4D1F
    0x32 8; // 8R1-4D1F
    0x33 8; // 8I1-4D1F
    0x34 4; // 100G CWDM4-OCP
    0x3e 1; // 400ZR, DWDM, amplified
    0x3f 1; // 400ZR, single wavelength, unamplified
    0x40 1; // 50GBASE-ER
    0x41 4; // 200GBASE-ER4
    0x42 8; // 400GBASE-ER8
    0x43 4; // 400GBASE-LR4-6
    0x44 1; // 100GBASE-ZR
    0x46 1; // ZR400-OFEC-16QAM
    0x47 1; // ZR300-OFEC-8QAM
    0x48 1; // ZR200-OFEC-QPSK
    0x49 1; // ZR100-OFEC-QPSK
    0x4a 1; // 100G-LR1-20
    0x4b 1; // 100G-ER1-30
    0x4c 1; // 100G-ER1-40
};

pub fn single_mode_media_lanes() -> &'static [Row]
    ensures { result.now ≡ single_mode_media_lanes }
{
    ROWS
}
