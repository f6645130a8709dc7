//! What made a module fail (OIF-CMIS-05.0, Module Fault Information).
ghost use Rattle.std.specs.Prelude.{◌≡◌, map};
ghost use Rattle.code_names.specs.Rows.{row_of};
ghost use Rattle.code_names.specs.ModuleFaults.{module_fault_names};

use crate::row::{Name, Row};

const ROWS: &[Row] = rows! {
    0x00 "No fault detected";
    0x01 "TEC runaway";
    0x02 "Data memory corrupted";
    0x03 "Program memory corrupted";
    0x04 to 0x1f Reserved;
    0x20 to 0x3f VendorSpecific;
    0x40 to 0xff Reserved;
};

pub fn module_fault_names() -> &'static [Row]
    ensures { map row_of result.now ≡ module_fault_names }
{
    ROWS
}
