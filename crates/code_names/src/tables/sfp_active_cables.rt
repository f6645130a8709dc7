//! Which specifications an active cable complies with (SFF-8472, Active Cable Specification Compliance).
ghost use Rattle.std.specs.Prelude.{◌≡◌, map};
ghost use Rattle.code_names.specs.Rows.{row_of};
ghost use Rattle.code_names.specs.SfpActiveCables.{sfp_active_cable_names};

use crate::row::{Name, Row};

const ROWS: &[Row] = rows! {
    0x00 "Unspecified";
    0x01 "SFF-8431 Appendix E";
    0x02 "FC-PI-4 Appendix H";
    0x03 "SFF-8431 Appendix E and FC-PI-4 Appendix H";
    0x04 "SFF-8431 limiting";
    0x08 "FC-PI-4 limiting";
    0x0c "SFF-8431 limiting and FC-PI-4 limiting";
};

pub fn sfp_active_cable_names() -> &'static [Row]
    ensures { map row_of result.now ≡ sfp_active_cable_names }
{
    ROWS
}
