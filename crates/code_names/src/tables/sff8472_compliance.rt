//! Which specifications a module complies with, by the bits of bytes 3 to 10, from bit 0 of byte 3, then those of byte 62 (SFF-8472, Transceiver Compliance Codes and Fibre Channel Speed 2).
ghost use Rattle.std.specs.Prelude.{◌≡◌, map};
ghost use Rattle.code_names.specs.Rows.{row_of};
ghost use Rattle.code_names.specs.Sff8472Compliance.{sff8472_compliance_names};

use crate::row::{Name, Row};

const ROWS: &[Row] = rows! {
    0x00 "InfiniBand 1X Copper Passive";
    0x01 "InfiniBand 1X Copper Active";
    0x02 "InfiniBand 1X LX";
    0x03 "InfiniBand 1X SX";
    0x04 "10GBASE-SR";
    0x05 "10GBASE-LR";
    0x06 "10GBASE-LRM";
    0x07 "10GBASE-ER";
    0x08 "OC-48 short reach";
    0x09 "OC-48 intermediate reach";
    0x0a "OC-48 long reach";
    0x0b "SONET reach specifier bit 2";
    0x0c "SONET reach specifier bit 1";
    0x0d "OC-192 short reach";
    0x0e "ESCON SMF, 1310 nm laser";
    0x0f "ESCON MMF, 1310 nm LED";
    0x10 "OC-3 short reach";
    0x11 "OC-3 single mode, intermediate reach";
    0x12 "OC-3 single mode, long reach";
    0x13 to 0x13 Reserved;
    0x14 "OC-12 short reach";
    0x15 "OC-12 single mode, intermediate reach";
    0x16 "OC-12 single mode, long reach";
    0x17 to 0x17 Reserved;
    0x18 "1000BASE-SX";
    0x19 "1000BASE-LX";
    0x1a "1000BASE-CX";
    0x1b "1000BASE-T";
    0x1c "100BASE-LX/LX10";
    0x1d "100BASE-FX";
    0x1e "BASE-BX10";
    0x1f "BASE-PX";
    0x20 "Electrical inter-enclosure (EL)";
    0x21 "Longwave laser (LC)";
    0x22 "Shortwave laser, linear Rx (SA)";
    0x23 "Medium distance (M)";
    0x24 "Long distance (L)";
    0x25 "Intermediate distance (I)";
    0x26 "Short distance (S)";
    0x27 "Very long distance (V)";
    0x2a "Passive cable";
    0x2b "Active cable";
    0x2c "Longwave laser (LL)";
    0x2d "Shortwave laser with OFC (SL)";
    0x2e "Shortwave laser without OFC (SN)";
    0x2f "Electrical intra-enclosure (EL)";
    0x30 "Single mode (SM)";
    0x31 to 0x31 Reserved;
    0x32 "Multimode 50 um (M5)";
    0x33 "Multimode 62.5 um (M6)";
    0x34 "Video coax (TV)";
    0x35 "Miniature coax (MI)";
    0x36 "Twisted pair (TP)";
    0x37 "Twin axial pair (TW)";
    0x38 "100 MBps";
    0x39 "Extended";
    0x3a "200 MBps";
    0x3b "3200 MBps";
    0x3c "400 MBps";
    0x3d "1600 MBps";
    0x3e "800 MBps";
    0x3f "1200 MBps";
    0x40 "64GFC";
    0x41 to 0x47 Reserved;
};

pub fn sff8472_compliance_names() -> &'static [Row]
    ensures { map row_of result.now ≡ sff8472_compliance_names }
{
    ROWS
}
