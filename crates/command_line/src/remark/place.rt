ghost use Rattle.std.specs.Prelude.{Some};
ghost use Rattle.command_line.specs.Places.{place_text};

use super::shown_byte::ShownByte;
use applications::WeightTable;
use paged_memory::Key;
use std::fmt;

/// Where a fault is, by its values, each in the base in which it stands in the input or in the standards.
#[derive(Clone, Copy, Debug, PartialEq, Eq)]
pub enum Place {
    Nowhere,
    Parts(usize),
    ImageLine(usize),
    WeightsLine(Option<usize>),
    KeptLine(usize),
    CertificateLine(usize),
    ScriptLine(usize),
    Half(Key),
    Page(u8),
    Identifier(u8),
    Revision(u8),
    WeightsKey(WeightTable, u8),
    Path(usize),
    KeptPath(usize),
    Entry(usize),
    Lane(u8),
    LaneStatus(u8, u8),
    State(u8),
    Code(u8),
}

/// After a comma, or nothing.
impl fmt::Display for Place {
    ghost output = { λ place. Some (place_text place) };

    fn fmt<W: fmt::Write>(&self, f: &mut fmt::Formatter<W>) -> fmt::Result {
        match *self {
            Place::Nowhere => Ok(()),
            Place::Parts(1) => write!(f, ", 1 part"),
            Place::Parts(count) => write!(f, ", {count} parts"),
            Place::ImageLine(line) => write!(f, ", line {line} of the image"),
            Place::WeightsLine(None) => Ok(()),
            Place::WeightsLine(Some(line)) => write!(f, ", line {line} of the weights"),
            Place::KeptLine(line) => write!(f, ", line {line} of the kept paths"),
            Place::CertificateLine(line) => write!(f, ", line {line} of the certificate"),
            Place::ScriptLine(line) => write!(f, ", line {line} of the script"),
            Place::Half(key) => write!(f, ", {key}"),
            Place::Page(page) => {
                let page = ShownByte(page);
                write!(f, ", page {page}")
            }
            Place::Identifier(identifier) => {
                let identifier = ShownByte(identifier);
                write!(f, ", identifier {identifier}")
            }
            Place::Revision(revision) => {
                let (major, minor) = (revision / 16, revision % 16);
                write!(f, ", revision {major}.{minor}")
            }
            Place::WeightsKey(WeightTable::Host, host_id) => {
                let host_id = ShownByte(host_id);
                write!(f, ", key {host_id}")
            }
            Place::WeightsKey(WeightTable::Media, media_id) => {
                let media_id = ShownByte(media_id);
                write!(f, ", key {media_id} of 'media'")
            }
            Place::WeightsKey(WeightTable::App, number) => write!(f, ", key {number} of 'app'"),
            Place::Path(number) => write!(f, ", path {number}"),
            Place::KeptPath(number) => write!(f, ", kept path {number}"),
            Place::Entry(number) => write!(f, ", entry {number}"),
            Place::Lane(lane) => write!(f, ", lane {lane}"),
            Place::LaneStatus(lane, status) => write!(f, ", lane {lane}, status {status}"),
            Place::State(code) => write!(f, ", state {code}"),
            Place::Code(code) => write!(f, ", code {code}"),
        }
    }
}
