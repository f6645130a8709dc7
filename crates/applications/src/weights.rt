// How much data paths are wanted, as a user's text says.
mod app_weights;
mod document;
mod fault;
mod keys;
mod lines;
mod members;
mod table;

pub use app_weights::AppWeights;
use document::read_document;
pub use fault::WeightsFault;
pub use lines::{WeightLinesFault, read_weight_lines};
use std::alloc::Global;
use std::marker::Model;
pub use table::WeightTable;
use toml::table_from_str;

/// Weights for each HostInterfaceID and each MediaInterfaceID (SFF-8024), for each number of an Application, and for a path that
/// stays.
#[derive(Debug, Drop)]
pub struct Weights {
    by_host_id: [u32; 256],
    by_media_id: [u32; 256],
    by_app: [u32; 256],
    stay: u32,
}

impl Model for Weights {
    ghost use Rattle.applications.specs.Weights.{AreListedWeights, ListedWeights};

    ghost Value = { ListedWeights };

    ghost view = { λ weights. record { by_host = weights.by_host_id; by_media = weights.by_media_id; by_app = weights.by_app; stay = weights.stay } };

    ghost invariant = { λ weights. AreListedWeights (record { by_host = weights.by_host_id; by_media = weights.by_media_id; by_app = weights.by_app; stay = weights.stay }) };
}

impl Weights {
    ghost use Rattle.std.specs.Prelude.{◌≡◌, IsTrue};
    ghost use Rattle.applications.specs.Weights.{table_of};
    ghost use Rattle.applications.specs.WeightTables.{KeysRise, document_of, members_in};
    ghost use Rattle.applications.specs.WeightFaults.{IsAnswer, judges_keys};
    ghost use Rattle.applications.specs.declared.weights.table.WeightTable.{WeightTable};

    /// The weights that a TOML document lists in its tables, and that of staying.
    #[tactic(auto, using(crate::proofs::WeightAnswers::answered, crate::proofs::WeightAnswers::document_no_utf8, crate::proofs::WeightAnswers::document_utf8, crate::proofs::WeightAnswers::fault_no_document, crate::proofs::WeightAnswers::is_text))]
    pub fn read(alloc: Global, text: &[u8]) -> Result<Weights, WeightsFault>
        ensures answer { IsAnswer text.now result }
        ensures in_byte_order { IsTrue (judges_keys result) → (table : WeightTable) → KeysRise (members_in table (document_of text.now)) }
    {
        let Ok(text) = std::str::from_utf8(text) else {
            return Err(WeightsFault::NotToml);
        };
        match table_from_str(alloc, text) {
            Ok(document) => read_document(&document),
            Err(error) if error.is_memory() => Err(WeightsFault::Memory),
            Err(_) => Err(WeightsFault::NotToml),
        }
    }

    /// A table of them, for the numbers from 0 to 255.
    pub fn table(&self, table: WeightTable) -> &[u32; 256]
        ensures { result.now ≡ table_of table self.now }
    {
        match table {
            WeightTable::Host => &self.by_host_id,
            WeightTable::Media => &self.by_media_id,
            WeightTable::App => &self.by_app,
        }
    }

    /// What a data path weighs more if it is among the active ones.
    pub fn stay(&self) -> u32
        ensures { result ≡ self.now.stay }
    {
        self.stay
    }
}
