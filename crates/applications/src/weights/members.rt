ghost use Rattle.std.specs.Prelude.{◌≡◌, []};
ghost use Rattle.toml.specs.View.{view, table_view};
ghost use Rattle.applications.specs.WeightTables.{KeysRise, members_of, weights_of};
ghost use Rattle.applications.specs.WeightTables as spec;
ghost use Rattle.applications.specs.WeightFaults.{AnswersWith, fault_after};

use super::fault::WeightsFault;
use super::table::WeightTable;
use toml::{Table, Value};

/// The weights that the members of a table list, by what their keys name.
#[tactic(auto, using(crate::proofs::DocumentKeys::rise_view, crate::proofs::TableMembers::bad_key, crate::proofs::TableMembers::same_key_twice, crate::proofs::TableMembers::bad_weight))]
pub fn read_members(table: WeightTable, members: &Table) -> Result<[u32; 256], WeightsFault>
    ensures answer { let read = members_of (table_view members.now) in
        AnswersWith (fault_after table [] read) (weights_of table read) result }
    ensures in_byte_order { KeysRise (members_of (table_view members.now)) }
{
    let mut weights = [0; 256];
    let mut listed = [false; 256];
    for (key, value) in members {
        let Some(number) = table.named_by(key.as_bytes()) else {
            return Err(WeightsFault::BadKey(table));
        };
        if listed[usize::from(number)] {
            return Err(WeightsFault::SameKeyTwice(table, number));
        }
        let Some(weight) = weight_of_value(value) else {
            return Err(WeightsFault::BadWeight(table, number));
        };
        weights[usize::from(number)] = weight;
        listed[usize::from(number)] = true;
    }
    Ok(weights)
}

/// The weight that a value is: a whole number of 32 bits.
pub fn weight_of_value(value: &Value) -> Option<u32>
    ensures { result ≡ spec.weight_of_value (view value.now) }
{
    u32::try_from(value.as_integer()?).ok()
}
