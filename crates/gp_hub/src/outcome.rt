//! How a session ended.
use crate::pass::HubPass;
use gp_plain::{EndCause, HoldReports};

/// How a session ended.
#[derive(Clone, Copy, Drop, Debug, PartialEq)]
pub enum SessionEnd {
    /// An answer with this status was sent whole.
    Sent(u16),
    /// The hold ended for this cause before the answer was whole.
    Cut(EndCause),
    /// The client is gone.
    ClientGone,
    /// The hub has served as many events as it can.
    Worn,
    /// Memory is wanting.
    NoMemory,
}

/// Why a session refused. It is `Nothing` for a response that was passed on.
#[derive(Clone, Copy, Drop, Debug, PartialEq)]
pub enum Why {
    /// It refused nothing.
    Nothing,
    /// The head of the request: 431, and each 400 that is no `Body`.
    Head,
    /// The body of the request: 413, and a body plan or a chunk that was refused.
    Body,
    /// No route, or not for this method: 404, 405 and 501.
    Route,
    /// The origin couldn't be reached: 502.
    Dial,
    /// The origin's answer was no response: 502.
    Origin,
    /// The origin's instruction was refused: 502.
    Instruct,
    /// Published items were refused. The place is that of the fault in the text, or 0 where it has none.
    Items(u32),
    /// As many holds are kept as may be: 503.
    Full,
}

/// What a session leaves.
#[derive(Drop)]
pub struct Outcome {
    /// How the session ended.
    pub end: SessionEnd,
    /// Why the request was refused, if it was.
    pub why: Why,
    /// How many items it published.
    pub published: u32,
    /// What became of each hold that it attached, in order.
    pub holds: HoldReports,
    /// Its pass, for the next session.
    pub pass: HubPass,
}
