ghost use Rattle.std.specs.Prelude.{◌≡◌, ◌≤◌, ◌∷◌, length};
ghost use Rattle.applications.specs.FaultWords.{table_words};

use super::table::WeightTable;
use text_lines::{PrintedWords, ToWords};
use thiserror::Error;

/// Why a text lists no weights.
#[derive(Clone, Copy, Debug, PartialEq, Eq, Drop, Error)]
#[error("the text lists no weights")]
pub enum WeightsFault {
    /// The text is not UTF-8, or no TOML document.
    NotToml,
    /// The document has no table `host`.
    NoHostTable,
    /// The document has more than the tables of weights and the weight of staying, or that is no whole number of 32 bits.
    OtherKey,
    /// A key of this table names nothing that it weighs.
    BadKey(WeightTable),
    /// Two keys of this table name the same.
    SameKeyTwice(WeightTable, u8),
    /// The value of this interface ID, or of the Application with this number, is no whole number of 32 bits.
    BadWeight(WeightTable, u8),
    /// An allocation was refused.
    Memory,
}

impl ToWords for WeightsFault {
    ghost use Rattle.applications.specs.FaultWords.{weights_fault_words};

    ghost words = { weights_fault_words };

    ghost most = { 3 };

    fn to_words(&self) -> PrintedWords {
        match self {
            WeightsFault::NotToml => PrintedWords::of("WT1"),
            WeightsFault::NoHostTable => PrintedWords::of("WT2"),
            WeightsFault::BadKey(table) => in_table("WT3", *table),
            WeightsFault::SameKeyTwice(table, number) => in_table("WT4", *table).and(number),
            WeightsFault::BadWeight(table, number) => in_table("WT5", *table).and(number),
            WeightsFault::OtherKey => PrintedWords::of("WT6"),
            WeightsFault::Memory => PrintedWords::of("memory"),
        }
    }
}

// The code of a fault, and the table if it is not `host`.
fn in_table(code: &str, table: WeightTable) -> PrintedWords
    requires { length code.now ≤ 20 }
    ensures words { result ≡ code.now ∷ table_words table }
    ensures most { length result ≤ 2 }
{
    match table {
        WeightTable::Host => PrintedWords::of(code),
        WeightTable::Media | WeightTable::App => PrintedWords::of(code).and(&table),
    }
}
