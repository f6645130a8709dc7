//! What the media lanes are, on single-mode fibre (SFF-8024, Table 4-7 SM Media Interface IDs).
ghost use Rattle.std.specs.Prelude.{◌≡◌, map};
ghost use Rattle.code_names.specs.Rows.{row_of};
ghost use Rattle.code_names.specs.SingleModeMedia.{single_mode_media_names};

use crate::row::{Name, Row};

const ROWS: &[Row] = rows! {
    0x00 "Undefined";
    0x01 "10GBASE-LW";
    0x02 "10GBASE-EW";
    0x03 "10G-ZW";
    0x04 "10GBASE-LR";
    0x05 "10GBASE-ER";
    0x06 "10G-ZR";
    0x07 "25GBASE-LR";
    0x08 "25GBASE-ER";
    0x09 "40GBASE-LR4";
    0x0a "40GBASE-FR";
    0x0b "50GBASE-FR";
    0x0c "50GBASE-LR";
    0x0d "100GBASE-LR4";
    0x0e "100GBASE-ER4";
    0x0f "100G PSM4";
    0x10 "100G CWDM4";
    0x11 "100G 4WDM-10";
    0x12 "100G 4WDM-20";
    0x13 "100G 4WDM-40";
    0x14 "100GBASE-DR";
    0x15 "100G-FR/100GBASE-FR1";
    0x16 "100G-LR/100GBASE-LR1";
    0x17 "200GBASE-DR4";
    0x18 "200GBASE-FR4";
    0x19 "200GBASE-LR4";
    0x1a "400GBASE-FR8";
    0x1b "400GBASE-LR8";
    0x1c "400GBASE-DR4";
    0x1d "400G-FR4/400GBASE-FR4";
    0x1e "400G-LR4-10";
    0x1f "8GFC-SM";
    0x20 "10GFC-SM";
    0x21 "16GFC-SM";
    0x22 "32GFC-SM";
    0x23 "64GFC-SM";
    0x24 "128GFC-PSM4";
    0x25 "256GFC-PSM4";
    0x26 "128GFC-CWDM4";
    0x27 "256GFC-CWDM4";
    0x2c "4I1-9D1F";
    0x2d "4L1-9C1F";
    0x2e "4L1-9D1F";
    0x2f "C4S1-9D1F";
    0x30 "C4S1-4D1F";
    0x31 "4I1-4D1F";
    0x32 "8R1-4D1F";
    0x33 "8I1-4D1F";
    0x34 "100G CWDM4-OCP";
    0x38 "10G-SR";
    0x39 "10G-LR";
    0x3a "25G-SR";
    0x3b "25G-LR";
    0x3c "10G-LR-BiDi";
    0x3d "25G-LR-BiDi";
    0x3e "400ZR, DWDM, amplified";
    0x3f "400ZR, single wavelength, unamplified";
    0x40 "50GBASE-ER";
    0x41 "200GBASE-ER4";
    0x42 "400GBASE-ER8";
    0x43 "400GBASE-LR4-6";
    0x44 "100GBASE-ZR";
    0x46 "ZR400-OFEC-16QAM";
    0x47 "ZR300-OFEC-8QAM";
    0x48 "ZR200-OFEC-QPSK";
    0x49 "ZR100-OFEC-QPSK";
    0x4a "100G-LR1-20";
    0x4b "100G-ER1-30";
    0x4c "100G-ER1-40";
    0xc0 to 0xff VendorSpecific;
};

pub fn single_mode_media_names() -> &'static [Row]
    ensures { map row_of result.now ≡ single_mode_media_names }
{
    ROWS
}
