ghost use Rattle.std.specs.Prelude.{◌≡◌, IsTrue, Some, option_map};
ghost use Rattle.toml.specs.Data.{get_member};
ghost use Rattle.toml.specs.View.{table_view, view};
ghost use Rattle.applications.specs.WeightTables.{KeysRise, members_in, members_of, stay_in, table_in, weights_in, weights_of};
ghost use Rattle.applications.specs.WeightFaults.{AnswersWith, fault_in, has_more, has_other_key, is_known, is_no_stay, is_no_table, judges_keys, weights_fault};
ghost use Rattle.applications.specs.declared.weights.table.WeightTable.{WeightTable};

use super::Weights;
use super::fault::WeightsFault;
use super::members::{read_members, weight_of_value};
use super::table::WeightTable;
use toml::{Table, Value};

// The key of the weight of staying.
const STAY: &str = "stay";

/// The weights that the tables of a document list.
#[tactic(auto, using(crate::proofs::WeightAnswers::fault_no_host, crate::proofs::WeightAnswers::fault_more, crate::proofs::WeightAnswers::fault_tables, crate::proofs::DocumentKeys::each_table))]
pub fn read_document(document: &Table) -> Result<Weights, WeightsFault>
    ensures answer { let read = Some (table_view document.now) in
        AnswersWith (weights_fault read) (weights_in read) result }
    ensures in_byte_order { IsTrue (judges_keys result) → (table : WeightTable) → KeysRise (members_in table (Some (table_view document.now))) }
{
    if table_in(document, WeightTable::Host).is_none() {
        return Err(WeightsFault::NoHostTable);
    }
    if has_more(document) {
        return Err(WeightsFault::OtherKey);
    }
    let by_host_id = read_table(document, WeightTable::Host);
    let by_media_id = read_table(document, WeightTable::Media);
    let by_app = read_table(document, WeightTable::App);
    Ok(Weights {
        by_host_id: by_host_id?,
        by_media_id: by_media_id?,
        by_app: by_app?,
        stay: stay_in(document),
    })
}

/// Those of one table, which may be absent.
#[tactic(auto, using(crate::proofs::TableMembers::weights_of_none, crate::proofs::DocumentKeys::rise_none))]
fn read_table(document: &Table, table: WeightTable) -> Result<[u32; 256], WeightsFault>
    ensures answer { let read = Some (table_view document.now) in
        AnswersWith (fault_in table read) (weights_of table (members_in table read)) result }
    ensures in_byte_order { KeysRise (members_in table (Some (table_view document.now))) }
{
    match table_in(document, table) {
        Some(members) => read_members(table, members),
        None => Ok([0; 256]),
    }
}

fn table_in(document: &Table, table: WeightTable) -> Option<&Table>
    ensures { option_map (λ members. table_view members.now) result ≡ table_in table (table_view document.now) }
{
    value_at(document, table.name())?.as_table()
}

#[tactic(auto, using(toml::proofs::Views::table_get))]
fn value_at<'a>(document: &'a Table, key: &str) -> Option<&'a Value>
    ensures { option_map (λ value. view value.now) result ≡ get_member key.now (table_view document.now) }
{
    document.get(key)
}

// The weight of staying, or 0 if there is none.
#[tactic(auto, unfolding(crate::specs::WeightKeys::stay_name))]
fn stay_in(document: &Table) -> u32
    ensures { result ≡ stay_in (table_view document.now) }
{
    value_at(document, STAY).map_or(0, |value| weight_of_value(value).unwrap_or(0))
}

// Whether a document has more than the three tables and the weight of staying.
fn has_more(document: &Table) -> bool
    ensures { result ≡ has_more (table_view document.now) }
{
    has_other_key(document)
        || is_no_table(document, WeightTable::Media)
        || is_no_table(document, WeightTable::App)
        || is_no_stay(document)
}

fn has_other_key(document: &Table) -> bool
    ensures { result ≡ has_other_key (members_of (table_view document.now)) }
{
    document.keys().any(|key| !is_known(key.as_str()))
}

// Whether something else has the name of a table.
fn is_no_table(document: &Table, table: WeightTable) -> bool
    ensures { result ≡ is_no_table table (table_view document.now) }
{
    value_at(document, table.name()).is_some_and(|value| !value.is_table())
}

// Whether what stands as the weight of staying is no weight.
#[tactic(auto, unfolding(crate::specs::WeightKeys::stay_name))]
fn is_no_stay(document: &Table) -> bool
    ensures { result ≡ is_no_stay (table_view document.now) }
{
    value_at(document, STAY).is_some_and(|value| weight_of_value(value).is_none())
}

// The name of a table, or of the weight of staying.
#[tactic(auto, unfolding(crate::specs::WeightFaults::is_known, crate::specs::WeightKeys::stay_name))]
fn is_known(key: &str) -> bool
    ensures { result ≡ is_known key.now }
{
    key == WeightTable::Host.name()
        || key == WeightTable::Media.name()
        || key == WeightTable::App.name()
        || key == STAY
}
