//! A long poll whose hold isn't attached yet.
ghost use Rattle.std.specs.Prelude.{◌≡◌};
ghost use Rattle.gp_session_wait.specs.Openings.{may_repeat};

use crate::answer::Answer;
use crate::polling::MOST_REPEATS;
use crate::wait::Wait;
use gp_plain::{ItemId, Name, Names};
use std::alloc::Global;
use std::marker::Model;

/// A long poll whose hold isn't attached yet.
///
/// Contracts see its channels and its previous id, how many seconds it waits, the origin's own answer, the channel of which a repeat
/// tells the last item, and how often the request was repeated.
#[derive(Drop)]
pub struct Opening {
    pub(crate) alloc: Global,
    pub(crate) channels: Names,
    pub(crate) prev: Option<ItemId>,
    pub(crate) seconds: u32,
    pub(crate) own: Answer,
    pub(crate) channel: Option<Name>,
    pub(crate) repeats: u8,
}

impl Model for Opening {
    ghost use Rattle.gp_session_wait.specs.Views.{OpeningView};

    ghost Value = { OpeningView };

    ghost view = { λ o. record { channels = o.channels; prev = o.prev; seconds = o.seconds; own = o.own; channel = o.channel; repeats = o.repeats } };
}

/// What attaching the hold of a long poll came to.
#[derive(Drop)]
pub enum Began {
    /// The session keeps the hold, and waits for its answer.
    Waits(Wait),
    /// No hold was made, since 4,096 are kept.
    Full,
    /// Another call holds the turn, and the opening is handed back.
    Busy(Opening),
    /// The hub has served as many events as it can.
    Worn,
    /// Memory is wanting.
    NoMemory,
}

impl Opening {
    /// Whether its end may ask for a repeat: it has a previous id, and the request was repeated fewer than 8 times.
    pub fn may_repeat(&self) -> bool
        ensures { result ≡ may_repeat self.now.channel self.now.repeats }
    {
        self.channel.is_some() && self.repeats < MOST_REPEATS
    }
}
