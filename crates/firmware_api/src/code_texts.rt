// The names of codes, as texts for C.
ghost use Rattle.std.specs.Prelude.{◌≡◌, ◌≢◌, ◌≤◌, length, option_map, List, Some, ℕ};
ghost use Rattle.std.specs.Borrow.{Bor};
ghost use Rattle.firmware_api.specs.CodeTexts.{code_text, media_text, table_by};
ghost use Rattle.firmware_api.specs.Statuses.{done, status_by};
ghost use Rattle.firmware_api.specs.Texts.{text_refusal, with_text};

use crate::texts::put;
use code_names::{Table, media_interface_name, name_of};

/// Puts what a table says of a code into `buffer`, and its length into `text_length`.
#[unsafe(no_mangle)]
pub extern "C" fn dovecounter_code_name(
    table: u32,
    code: u8,
    buffer: &mut [u8],
    text_length: &mut usize,
) -> u32
    ensures status { result ≡ status_by (text_refusal (code_text table code) (length buffer.old)) }
    ensures written { result ≡ done → option_map (with_text buffer.old) (code_text table code) ≡ Some (buffer.new, text_length.new) }
    ensures short { result ≡ done → text_length.new ≤ 256 }
    ensures refused { result ≢ done → (buffer.new ≡ buffer.old) × (text_length.new ≡ text_length.old) }
{
    put(code_text(table, code), buffer, text_length)
}

/// The same of a media interface, by the media type of its module.
#[unsafe(no_mangle)]
pub extern "C" fn dovecounter_media_name(
    media_type: u8,
    code: u8,
    buffer: &mut [u8],
    text_length: &mut usize,
) -> u32
    ensures status { result ≡ status_by (text_refusal (Some (media_text media_type code)) (length buffer.old)) }
    ensures written { result ≡ done → option_map (with_text buffer.old) (Some (media_text media_type code)) ≡ Some (buffer.new, text_length.new) }
    ensures short { result ≡ done → text_length.new ≤ 256 }
    ensures refused { result ≢ done → (buffer.new ≡ buffer.old) × (text_length.new ≡ text_length.old) }
{
    put(Some(media_text(media_type, code)), buffer, text_length)
}

fn code_text(table: u32, code: u8) -> Option<&'static str>
    ensures { option_map (λ (t : Bor (List ℕ)). t.now) result ≡ code_text table code }
{
    match table_by(table) {
        Some(table) => Some(name_of(table, code).text()),
        None => None,
    }
}

fn media_text(media_type: u8, code: u8) -> &'static str
    ensures { result.now ≡ media_text media_type code }
{
    media_interface_name(media_type, code).text()
}

// The numbers of tables are those of the header.
#[tactic(auto, unfolding(crate::specs::CodeTexts::table_by))]
fn table_by(number: u32) -> Option<Table>
    ensures { result ≡ table_by number }
{
    match number {
        1 => Some(Table::Identifiers),
        2 => Some(Table::Connectors),
        3 => Some(Table::Sff8472Encodings),
        4 => Some(Table::Sff8636Encodings),
        5 => Some(Table::ExtendedCompliance),
        6 => Some(Table::HostInterfaces),
        7 => Some(Table::MultiModeMedia),
        8 => Some(Table::SingleModeMedia),
        9 => Some(Table::PassiveCopper),
        10 => Some(Table::ActiveCables),
        11 => Some(Table::BaseTMedia),
        12 => Some(Table::MediaTypes),
        13 => Some(Table::MediaTechnologies),
        14 => Some(Table::ModuleFaults),
        15 => Some(Table::Durations),
        16 => Some(Table::SquelchMethods),
        17 => Some(Table::OutputEqualizers),
        18 => Some(Table::Sff8636Revisions),
        19 => Some(Table::Sff8636RateSelects),
        20 => Some(Table::Sff8636Compliance),
        21 => Some(Table::InfinibandSpeeds),
        22 => Some(Table::Sff8472ExtendedIdentifiers),
        23 => Some(Table::Sff8472Revisions),
        24 => Some(Table::Sff8472RateSelects),
        25 => Some(Table::Sff8472Compliance),
        26 => Some(Table::SfpPassiveCables),
        27 => Some(Table::SfpActiveCables),
        _ => None,
    }
}
