//! What a stream waits for that asks for what it missed.

use crate::open::Open;
use gp_session::StreamPage;

/// What a stream waits for, beside what its hold gives.
#[derive(Drop)]
pub(crate) enum Talk {
    /// Nothing: no page was asked for, or the hub was told of each.
    None,
    /// The rest of a talk, in which a page is asked for.
    Open(Open),
    /// The hub's turn, to tell it a page.
    Page(StreamPage),
    /// The hub's turn, to tell it that a page can't be had.
    Failed,
}
