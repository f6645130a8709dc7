//! By which revision of its standard a module is made (SFF-8636, Revision Compliance).
ghost use Rattle.std.specs.Prelude.{◌≡◌, map};
ghost use Rattle.code_names.specs.Rows.{row_of};
ghost use Rattle.code_names.specs.Sff8636Revisions.{sff8636_revision_names};

use crate::row::{Name, Row};

const ROWS: &[Row] = rows! {
    0x00 "Not specified";
    0x01 "SFF-8436 Rev 4.8 or earlier";
    0x02 "SFF-8436 Rev 4.8 or earlier, bytes 186 to 189 by SFF-8636";
    0x03 "SFF-8636 Rev 1.3 or earlier";
    0x04 "SFF-8636 Rev 1.4";
    0x05 "SFF-8636 Rev 1.5";
    0x06 "SFF-8636 Rev 2.0";
    0x07 "SFF-8636 Rev 2.5, 2.6 and 2.7";
    0x08 "SFF-8636 Rev 2.8, 2.9 and 2.10";
};

pub fn sff8636_revision_names() -> &'static [Row]
    ensures { map row_of result.now ≡ sff8636_revision_names }
{
    ROWS
}
