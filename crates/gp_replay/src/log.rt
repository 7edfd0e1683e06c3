use gp_plain::{EndCause, HoldKind, ItemId, Pieces};

/// What is kept of a hold beside the registry: the pieces that Takes gave, and of a released hold the whole log and
/// the end.
#[derive(Drop)]
pub struct Log {
    /// The hold's kind.
    pub kind: HoldKind,
    /// Its first position.
    pub start: Option<ItemId>,
    /// What was taken of it.
    pub pieces: Pieces,
    /// The end that a take told, or that a detach made.
    pub ended: Option<EndCause>,
}

/// What an event may change of the logs, noted before it is stepped.
#[derive(Drop)]
pub enum Noted {
    /// The event concerns no log.
    Nothing,
    /// A hold of a kind begins at a position.
    Begins(HoldKind, Option<ItemId>),
    /// A hold is taken from.
    Takes(u64),
    /// A hold is let go, with what waits for it, and ends so.
    LetsGo(u64, Pieces, EndCause),
}
