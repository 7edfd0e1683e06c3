use gp_plain::{Body, ItemId, List, Name};

/// How a request is held open.
#[derive(Clone, Copy, Drop, Debug, PartialEq)]
pub enum Mode {
    /// A long poll, which one item answers.
    Response,
    /// A stream.
    Stream,
}

/// A channel, and the previous id on it where there is one.
#[derive(Drop)]
pub struct Sub {
    /// The channel.
    pub name: Name,
    /// The id of the last item that the client has of it.
    pub prev: Option<ItemId>,
}

/// Channels, in order, each name once.
pub type Subs = List<Sub>;

/// What the fields of a response ask for.
#[derive(Drop)]
pub struct Instruct {
    /// The hold, or nothing where the response goes to the client as it is.
    pub mode: Option<Mode>,
    /// At most 8 channels; of a hold at least one.
    pub subs: Subs,
    /// How long a response hold waits for its item, in seconds, at most 999,999,999.
    pub timeout: u32,
    /// The code, 200 to 599, that the client gets in place of the response's own.
    pub status: Option<u16>,
    /// The URI of the next link, as it stands between the angle brackets.
    pub link: Option<Body>,
}
