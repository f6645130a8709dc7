// The names of media interfaces.
ghost use Rattle.std.specs.Prelude.{◌≡◌};
ghost use Rattle.code_names.specs.MediaInterfaces.{media_interface_name, media_interface_table};
ghost use Rattle.code_names.specs.Rows.{meaning_of};

use crate::names::name_of;
use crate::row::Name;
use crate::table::Table;

/// What is said of a media interface's code, by the media type of its module.
pub fn media_interface_name(media_type: u8, code: u8) -> Name
    ensures { meaning_of result ≡ media_interface_name media_type code }
{
    match media_interface_table(media_type) {
        Some(table) => name_of(table, code),
        None => Name::Unlisted,
    }
}

fn media_interface_table(media_type: u8) -> Option<Table>
    ensures { result ≡ media_interface_table media_type }
{
    match media_type {
        1 => Some(Table::MultiModeMedia),
        2 => Some(Table::SingleModeMedia),
        3 => Some(Table::PassiveCopper),
        4 => Some(Table::ActiveCables),
        5 => Some(Table::BaseTMedia),
        _ => None,
    }
}
