//! By which revision of SFF-8472 a module has diagnostics (SFF-8472, SFF-8472 Compliance).
ghost use Rattle.std.specs.Prelude.{◌≡◌, map};
ghost use Rattle.code_names.specs.Rows.{row_of};
ghost use Rattle.code_names.specs.Sff8472Revisions.{sff8472_revision_names};

use crate::row::{Name, Row};

const ROWS: &[Row] = rows! {
    0x00 "Not specified";
    0x01 "Rev 9.3";
    0x02 "Rev 9.5";
    0x03 "Rev 10.2";
    0x04 "Rev 10.4";
    0x05 "Rev 11.0";
    0x06 "Rev 11.3";
    0x07 "Rev 11.4";
    0x08 "Rev 12.3";
    0x09 "Rev 12.4";
};

pub fn sff8472_revision_names() -> &'static [Row]
    ensures { map row_of result.now ≡ sff8472_revision_names }
{
    ROWS
}
