//! Which specifications a passive cable complies with (SFF-8472, Passive Cable Specification Compliance).
ghost use Rattle.std.specs.Prelude.{◌≡◌, map};
ghost use Rattle.code_names.specs.Rows.{row_of};
ghost use Rattle.code_names.specs.SfpPassiveCables.{sfp_passive_cable_names};

use crate::row::{Name, Row};

const ROWS: &[Row] = rows! {
    0x00 "Unspecified";
    0x01 "SFF-8431 Appendix E";
    0x02 "FC-PI-4 Appendix H";
    0x03 "SFF-8431 Appendix E and FC-PI-4 Appendix H";
};

pub fn sfp_passive_cable_names() -> &'static [Row]
    ensures { map row_of result.now ≡ sfp_passive_cable_names }
{
    ROWS
}
