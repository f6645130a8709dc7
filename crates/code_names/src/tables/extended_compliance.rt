//! Which Ethernet or other link a module is made for, beside the bits of its own standard (SFF-8024, Table 4-4 Extended Specification Compliance Codes).
ghost use Rattle.std.specs.Prelude.{◌≡◌, map};
ghost use Rattle.code_names.specs.Rows.{row_of};
ghost use Rattle.code_names.specs.ExtendedCompliance.{extended_compliance_names};

use crate::row::{Name, Row};

const ROWS: &[Row] = rows! {
    0x00 "Unspecified";
    0x01 "100G AOC or 25GAUI C2M AOC, BER 5x10^-5";
    0x02 "100GBASE-SR4 or 25GBASE-SR";
    0x03 "100GBASE-LR4 or 25GBASE-LR";
    0x04 "100GBASE-ER4 or 25GBASE-ER";
    0x05 "100GBASE-SR10";
    0x06 "100G CWDM4";
    0x07 "100G PSM4 Parallel SMF";
    0x08 "100G ACC or 25GAUI C2M ACC, BER 5x10^-5";
    0x09 "Obsolete";
    0x0b "100GBASE-CR4, 25GBASE-CR CA-25G-L or 50GBASE-CR2 with RS FEC";
    0x0c "25GBASE-CR CA-25G-S or 50GBASE-CR2 with BASE-R FEC";
    0x0d "25GBASE-CR CA-25G-N or 50GBASE-CR2 without FEC";
    0x0e "10 Mb/s Single Pair Ethernet";
    0x10 "40GBASE-ER4";
    0x11 "4 x 10GBASE-SR";
    0x12 "40G PSM4 Parallel SMF";
    0x13 "G959.1 profile P1I1-2D1";
    0x14 "G959.1 profile P1S1-2D2";
    0x15 "G959.1 profile P1L1-2D2";
    0x16 "10GBASE-T with SFI electrical interface";
    0x17 "100G CLR4";
    0x18 "100G AOC or 25GAUI C2M AOC, BER 10^-12";
    0x19 "100G ACC or 25GAUI C2M ACC, BER 10^-12";
    0x1a "100GE-DWDM2";
    0x1b "100G 1550 nm WDM";
    0x1c "10GBASE-T Short Reach";
    0x1d "5GBASE-T";
    0x1e "2.5GBASE-T";
    0x1f "40G SWDM4";
    0x20 "100G SWDM4";
    0x21 "100G PAM4 BiDi";
    0x22 "4WDM-10 MSA";
    0x23 "4WDM-20 MSA";
    0x24 "4WDM-40 MSA";
    0x25 "100GBASE-DR, CAUI-4";
    0x26 "100G-FR or 100GBASE-FR1, CAUI-4";
    0x27 "100G-LR or 100GBASE-LR1, CAUI-4";
    0x28 "100GBASE-SR1, CAUI-4";
    0x29 "100GBASE-SR1, 200GBASE-SR2 or 400GBASE-SR4";
    0x2a "100GBASE-FR1";
    0x2b "100GBASE-LR1";
    0x2c "100G-LR1-20 MSA, CAUI-4";
    0x2d "100G-ER1-30 MSA, CAUI-4";
    0x2e "100G-ER1-40 MSA, CAUI-4";
    0x2f "100G-LR1-20 MSA";
    0x30 "Active copper cable with 50GAUI, 100GAUI-2 or 200GAUI-4 C2M, BER 10^-6";
    0x31 "Active optical cable with 50GAUI, 100GAUI-2 or 200GAUI-4 C2M, BER 10^-6";
    0x32 "Active copper cable with 50GAUI, 100GAUI-2 or 200GAUI-4 C2M, BER 2.6x10^-4";
    0x33 "Active optical cable with 50GAUI, 100GAUI-2 or 200GAUI-4 C2M, BER 2.6x10^-4";
    0x34 "100G-ER1-30 MSA";
    0x35 "100G-ER1-40 MSA";
    0x36 "100GBASE-VR1, 200GBASE-VR2 or 400GBASE-VR4";
    0x37 "10GBASE-BR";
    0x38 "25GBASE-BR";
    0x39 "50GBASE-BR";
    0x3a "100GBASE-VR1, CAUI-4";
    0x3f "100GBASE-CR1, 200GBASE-CR2 or 400GBASE-CR4";
    0x40 "50GBASE-CR, 100GBASE-CR2 or 200GBASE-CR4";
    0x41 "50GBASE-SR, 100GBASE-SR2 or 200GBASE-SR4";
    0x42 "50GBASE-FR or 200GBASE-DR4";
    0x43 "200GBASE-FR4";
    0x44 "200G 1550 nm PSM4";
    0x45 "50GBASE-LR";
    0x46 "200GBASE-LR4";
    0x47 "400GBASE-DR4";
    0x48 "400GBASE-FR4";
    0x49 "400GBASE-LR4-6";
    0x50 "64GFC EA";
    0x51 "64GFC SW";
    0x52 "64GFC LW";
    0x53 "128GFC EA";
    0x54 "128GFC SW";
    0x55 "128GFC LW";
    0x82 to 0xff Reserved;
};

pub fn extended_compliance_names() -> &'static [Row]
    ensures { map row_of result.now ≡ extended_compliance_names }
{
    ROWS
}
