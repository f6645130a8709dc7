//! What is plugged into the module (SFF-8024, Table 4-3 Connector Types).
ghost use Rattle.std.specs.Prelude.{◌≡◌, map};
ghost use Rattle.code_names.specs.Rows.{row_of};
ghost use Rattle.code_names.specs.Connectors.{connector_names};

use crate::row::{Name, Row};

const ROWS: &[Row] = rows! {
    0x00 "Unknown or unspecified";
    0x01 "SC";
    0x02 "Fibre Channel Style 1 copper";
    0x03 "Fibre Channel Style 2 copper";
    0x04 "BNC/TNC";
    0x05 "Fibre Channel coax headers";
    0x06 "Fiber Jack";
    0x07 "LC";
    0x08 "MT-RJ";
    0x09 "MU";
    0x0a "SG";
    0x0b "Optical pigtail";
    0x0c "MPO 1x12";
    0x0d "MPO 2x16";
    0x0e to 0x1f Reserved;
    0x20 "HSSDC II";
    0x21 "Copper pigtail";
    0x22 "RJ45";
    0x23 "No separable connector";
    0x24 "MXC 2x16";
    0x25 "CS optical connector";
    0x26 "SN optical connector";
    0x27 "MPO 2x12";
    0x28 "MPO 1x16";
    0x29 to 0x6e Reserved;
    0x70 to 0x7f Reserved;
    0x80 to 0xff VendorSpecific;
};

pub fn connector_names() -> &'static [Row]
    ensures { map row_of result.now ≡ connector_names }
{
    ROWS
}
