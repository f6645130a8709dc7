//! The name of a code.
ghost use Rattle.std.specs.Prelude.{◌≡◌, find, map, option_map, option_copied};
ghost use Rattle.code_names.specs.Names.{name_in, rows_of};
ghost use Rattle.code_names.specs.Rows.{meaning_of, row_has, row_of};

use crate::row::{Name, Row};
use crate::table::Table;
use crate::tables::active_cables::active_cable_names;
use crate::tables::base_t_media::base_t_media_names;
use crate::tables::connectors::connector_names;
use crate::tables::durations::duration_names;
use crate::tables::extended_compliance::extended_compliance_names;
use crate::tables::host_interfaces::host_interface_names;
use crate::tables::identifiers::identifier_names;
use crate::tables::infiniband_speeds::infiniband_speed_names;
use crate::tables::media_technologies::media_technology_names;
use crate::tables::media_types::media_type_names;
use crate::tables::module_faults::module_fault_names;
use crate::tables::multi_mode_media::multi_mode_media_names;
use crate::tables::output_equalizers::output_equalizer_names;
use crate::tables::passive_copper::passive_copper_names;
use crate::tables::sff8472_compliance::sff8472_compliance_names;
use crate::tables::sff8472_encodings::sff8472_encoding_names;
use crate::tables::sff8472_extended_identifiers::sff8472_extended_identifier_names;
use crate::tables::sff8472_rate_selects::sff8472_rate_select_names;
use crate::tables::sff8472_revisions::sff8472_revision_names;
use crate::tables::sff8636_compliance::sff8636_compliance_names;
use crate::tables::sff8636_encodings::sff8636_encoding_names;
use crate::tables::sff8636_rate_selects::sff8636_rate_select_names;
use crate::tables::sff8636_revisions::sff8636_revision_names;
use crate::tables::sfp_active_cables::sfp_active_cable_names;
use crate::tables::sfp_passive_cables::sfp_passive_cable_names;
use crate::tables::single_mode_media::single_mode_media_names;
use crate::tables::squelch_methods::squelch_method_names;

/// What a table says of a code.
pub fn name_of(table: Table, code: u8) -> Name
    ensures { meaning_of result ≡ name_in table code }
{
    match row_by(table, code) {
        Some(row) => row.name,
        None => Name::Unlisted,
    }
}

fn row_by(table: Table, code: u8) -> Option<&'static Row>
    ensures { option_map row_of (option_copied result) ≡ find (row_has code) (rows_of table) }
{
    rows_of(table).iter().find(|row| row.has(code))
}

fn rows_of(table: Table) -> &'static [Row]
    ensures { map row_of result.now ≡ rows_of table }
{
    match table {
        Table::Identifiers => identifier_names(),
        Table::Connectors => connector_names(),
        Table::Sff8472Encodings => sff8472_encoding_names(),
        Table::Sff8636Encodings => sff8636_encoding_names(),
        Table::ExtendedCompliance => extended_compliance_names(),
        Table::HostInterfaces => host_interface_names(),
        Table::MultiModeMedia => multi_mode_media_names(),
        Table::SingleModeMedia => single_mode_media_names(),
        Table::PassiveCopper => passive_copper_names(),
        Table::ActiveCables => active_cable_names(),
        Table::BaseTMedia => base_t_media_names(),
        Table::MediaTypes => media_type_names(),
        Table::MediaTechnologies => media_technology_names(),
        Table::ModuleFaults => module_fault_names(),
        Table::Durations => duration_names(),
        Table::SquelchMethods => squelch_method_names(),
        Table::OutputEqualizers => output_equalizer_names(),
        Table::Sff8636Revisions => sff8636_revision_names(),
        Table::Sff8636RateSelects => sff8636_rate_select_names(),
        Table::Sff8636Compliance => sff8636_compliance_names(),
        Table::InfinibandSpeeds => infiniband_speed_names(),
        Table::Sff8472ExtendedIdentifiers => sff8472_extended_identifier_names(),
        Table::Sff8472Revisions => sff8472_revision_names(),
        Table::Sff8472RateSelects => sff8472_rate_select_names(),
        Table::Sff8472Compliance => sff8472_compliance_names(),
        Table::SfpPassiveCables => sfp_passive_cable_names(),
        Table::SfpActiveCables => sfp_active_cable_names(),
    }
}
