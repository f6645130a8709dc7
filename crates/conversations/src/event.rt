use bus_model::Step;

/// What happened in a conversation.
#[derive(Debug, PartialEq, Eq, Drop)]
pub enum Event {
    /// This transaction was made.
    Made(Step),
    /// So many milliseconds passed, as was asked for.
    Waited(u32),
    /// The page of this number was needed and isn't there: its selection was accepted, and page 00h shows.
    Lacked(u16),
    /// The caller said this, which means what the conversation takes it for.
    Asked(u32),
}
