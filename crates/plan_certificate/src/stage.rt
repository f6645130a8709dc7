/// How far a certificate's text has been read.
#[derive(Clone, Copy, PartialEq)]
pub enum Stage {
    /// No line.
    Start,
    /// The header of a certificate that keeps nothing.
    Headed,
    /// The header of one that keeps paths.
    KeptHeaded,
    /// That header and the weight: the first kept path is due.
    KeptWeighed,
    /// The weight, kept paths if the header says so, and paths and states, if any.
    Weighed,
    /// All lines, up to `end`.
    Ended,
}
