//! Which kind of module it is, and by which standard it is managed (SFF-8024, Table 4-1 Identifier Values).
ghost use Rattle.std.specs.Prelude.{◌≡◌, map};
ghost use Rattle.code_names.specs.Rows.{row_of};
ghost use Rattle.code_names.specs.Identifiers.{identifier_names};

use crate::row::{Name, Row};

const ROWS: &[Row] = rows! {
    0x00 "Unknown or unspecified";
    0x01 "GBIC";
    0x02 "Module soldered to motherboard";
    0x03 "SFP/SFP+/SFP28";
    0x04 "300 pin XBI";
    0x05 "XENPAK";
    0x06 "XFP";
    0x07 "XFF";
    0x08 "XFP-E";
    0x09 "XPAK";
    0x0a "X2";
    0x0b "DWDM-SFP/SFP+";
    0x0c "QSFP";
    0x0d "QSFP+ or later";
    0x0e "CXP or later";
    0x0f "Shielded Mini Multilane HD 4X";
    0x10 "Shielded Mini Multilane HD 8X";
    0x11 "QSFP28 or later";
    0x12 "CXP2 (CXP28) or later";
    0x13 "CDFP (Style 1/Style 2)";
    0x14 "Shielded Mini Multilane HD 4X Fanout Cable";
    0x15 "Shielded Mini Multilane HD 8X Fanout Cable";
    0x16 "CDFP (Style 3)";
    0x17 "microQSFP";
    0x18 "QSFP-DD";
    0x19 "OSFP";
    0x1a "SFP-DD";
    0x1b "DSFP";
    0x1c "x4 MiniLink/OcuLink";
    0x1d "x8 MiniLink";
    0x1e "QSFP+ or later with CMIS";
    0x1f "SFP-DD with CMIS";
    0x20 "SFP+ and later with CMIS";
    0x21 "OSFP-XD with CMIS";
    0x22 "OIF-ELSFP with CMIS";
    0x23 "CDFP (x4 PCIe) with CMIS";
    0x24 "CDFP (x8 PCIe) with CMIS";
    0x25 "CDFP (x16 PCIe) with CMIS";
    0x26 to 0x7f Reserved;
    0x80 to 0xff VendorSpecific;
};

pub fn identifier_names() -> &'static [Row]
    ensures { map row_of result.now ≡ identifier_names }
{
    ROWS
}
