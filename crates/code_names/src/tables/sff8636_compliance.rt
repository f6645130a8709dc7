//! Which specifications a module complies with, by the bits of bytes 131 to 138, from bit 0 of byte 131 (SFF-8636, Specification Compliance).
ghost use Rattle.std.specs.Prelude.{◌≡◌, map};
ghost use Rattle.code_names.specs.Rows.{row_of};
ghost use Rattle.code_names.specs.Sff8636Compliance.{sff8636_compliance_names};

use crate::row::{Name, Row};

const ROWS: &[Row] = rows! {
    0x00 "40G active cable (XLPPI)";
    0x01 "40GBASE-LR4";
    0x02 "40GBASE-SR4";
    0x03 "40GBASE-CR4";
    0x04 "10GBASE-SR";
    0x05 "10GBASE-LR";
    0x06 "10GBASE-LRM";
    0x07 "Extended";
    0x08 "OC-48 short reach";
    0x09 "OC-48 intermediate reach";
    0x0a "OC-48 long reach";
    0x0b "40G OTN (OTU3B/OTU3C)";
    0x0c to 0x13 Reserved;
    0x14 "SAS 3.0G";
    0x15 "SAS 6.0G";
    0x16 "SAS 12.0G";
    0x17 "SAS 24.0G";
    0x18 "1000BASE-SX";
    0x19 "1000BASE-LX";
    0x1a "1000BASE-CX";
    0x1b "1000BASE-T";
    0x1c to 0x1f Reserved;
    0x20 "Electrical inter-enclosure (EL)";
    0x21 "Longwave laser (LC)";
    0x22 to 0x22 Reserved;
    0x23 "Medium distance (M)";
    0x24 "Long distance (L)";
    0x25 "Intermediate distance (I)";
    0x26 "Short distance (S)";
    0x27 "Very long distance (V)";
    0x28 to 0x2b Reserved;
    0x2c "Longwave laser (LL)";
    0x2d "Shortwave laser with OFC (SL)";
    0x2e "Shortwave laser without OFC (SN)";
    0x2f "Electrical intra-enclosure (EL)";
    0x30 "Single mode (SM)";
    0x31 "Multimode 50 um (OM3)";
    0x32 "Multimode 50 um (M5)";
    0x33 "Multimode 62.5 um (M6)";
    0x34 "Video coax (TV)";
    0x35 "Miniature coax (MI)";
    0x36 "Twisted pair (TP)";
    0x37 "Twin axial pair (TW)";
    0x38 "100 MBps";
    0x39 "Extended";
    0x3a "200 MBps";
    0x3b "3200 MBps";
    0x3c "400 MBps";
    0x3d "1600 MBps";
    0x3e "800 MBps";
    0x3f "1200 MBps";
};

pub fn sff8636_compliance_names() -> &'static [Row]
    ensures { map row_of result.now ≡ sff8636_compliance_names }
{
    ROWS
}
