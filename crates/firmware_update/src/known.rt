/// What is known of a module's firmware when an update ends.
#[derive(Clone, Copy, Debug, PartialEq, Eq)]
pub enum Known {
    /// Nothing was begun.
    Untouched,
    /// A download is open, perhaps, this one or an earlier one, and may be aborted. The old image runs and is committed.
    Begun,
    /// A download was begun and then aborted. The old image runs and is committed.
    Aborted,
    /// It was completed, perhaps, and nothing after that.
    MayBeComplete,
    /// It was completed, and the new image was not told to run.
    Complete,
    /// The new image was told to run, and nothing was committed: a reset brings back the old one.
    MayRun,
    /// The new image runs, and is not committed: a reset brings back the old one.
    Runs,
    /// The new image ran when it was to be committed, and was committed, perhaps.
    MayBeCommitted,
    /// The new image runs and is committed.
    Committed,
}
