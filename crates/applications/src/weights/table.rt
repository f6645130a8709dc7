use text_lines::{PrintedWords, ToWords};

/// A table of weights, by what it weighs.
#[derive(Clone, Copy, Debug, PartialEq, Eq)]
pub enum WeightTable {
    /// `[host]`: HostInterfaceIDs (SFF-8024).
    Host,
    /// `[media]`: MediaInterfaceIDs, whatever MediaType says of their meaning.
    Media,
    /// `[app]`: numbers of Applications.
    App,
}

impl WeightTable {
    ghost use Rattle.std.specs.Prelude.{◌≡◌, ◌≤◌, length};
    ghost use Rattle.applications.specs.WeightKeys.{table_name};

    /// The key of a document under which the table stands.
    #[tactic(auto, unfolding(crate::specs::WeightKeys::table_name))]
    pub(crate) fn name(self) -> &'static str
        ensures name { result.now ≡ table_name self }
        ensures short { length result.now ≤ 5 }
    {
        match self {
            WeightTable::Host => "host",
            WeightTable::Media => "media",
            WeightTable::App => "app",
        }
    }
}

/// The name of the table.
impl ToWords for WeightTable {
    ghost use Rattle.std.specs.Prelude.{[], ◌∷◌};
    ghost use Rattle.applications.specs.WeightKeys.{table_name};

    ghost words = { λ table. table_name table ∷ [] };

    ghost most = { 1 };

    fn to_words(&self) -> PrintedWords {
        PrintedWords::of(self.name())
    }
}
