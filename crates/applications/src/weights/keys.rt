// What the keys of weights name.
ghost use Rattle.std.specs.Prelude.{◌≡◌, ◌<◌, unwrap_or};
ghost use Rattle.applications.specs.WeightKeys as spec;

use super::table::WeightTable;
use text_lines::read_decimal;

impl WeightTable {
    /// What a key of the table names: an interface ID, or the number of an Application.
    pub fn named_by(self, key: &[u8]) -> Option<u8>
        ensures number { result ≡ spec.named_by self key.now }
        ensures byte { unwrap_or (spec.named_by self key.now) 0 < 256 }
    {
        match self {
            WeightTable::Host | WeightTable::Media => id_of_key(key),
            WeightTable::App => app_of_key(key),
        }
    }
}

/// The interface ID that a key writes, as `0Bh` or `0bh` write 11.
#[tactic(auto, unfolding(crate::specs::WeightKeys::id_of_key))]
pub fn id_of_key(key: &[u8]) -> Option<u8>
    ensures { result ≡ spec.id_of_key key.now }
{
    let [high, low, b'h'] = key else {
        return None;
    };
    let high = char::from(*high).to_digit(16)?;
    let low = char::from(*low).to_digit(16)?;
    Some((16 * high + low) as u8)
}

// The number of an Application, from 1 on, that a key writes in decimal.
#[tactic(auto, using(crate::proofs::KeyLemmas::app_found, crate::proofs::KeyLemmas::app_none, crate::proofs::KeyLemmas::zero_none))]
fn app_of_key(key: &[u8]) -> Option<u8>
    ensures { result ≡ spec.app_of_key key.now }
{
    match read_decimal(key, 15) {
        Some(number) if 1 <= number => Some(number as u8),
        _ => None,
    }
}
