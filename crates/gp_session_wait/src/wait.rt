//! A long poll that waits for its answer.

use crate::answer::Answer;
use crate::seeking::LongPoll;
use gp_plain::{EndCause, ItemId, Name};
use gp_session_hold::KeptHold;
use std::alloc::Global;
use std::marker::Model;

/// The last item of a channel that a client has, which a repeated request tells the origin.
#[derive(Drop)]
pub struct Last {
    /// The channel.
    pub channel: Name,
    /// The id of the item.
    pub id: ItemId,
}

/// A request that is to be repeated.
#[derive(Drop)]
pub struct Repeat {
    /// The hold, whose end was told. Its report is owed.
    pub hold: KeptHold,
    /// What the origin is told.
    pub last: Last,
    /// The how-manieth repeat it is, from 1 to 8.
    pub count: u8,
}

/// What a poll of a long poll answers. The session keeps the hold where it is `Waits`, `Gone`, `Worn` or `NoMemory`; else its end was
/// told, and its report is owed.
#[derive(Drop)]
pub enum Polled {
    /// It waits: for its answer; or since it has done as much as one poll may; or since another call holds the hub's turn.
    Waits(Wait),
    /// The whole answer is put, which has this code. The hold ended by this cause.
    Answered {
        hold: KeptHold,
        cause: EndCause,
        code: u16,
    },
    /// The request is to be repeated.
    Retry(Repeat),
    /// More was waiting than a hold may keep. No answer is sent.
    Overflow(KeptHold),
    /// The client is gone: its input ended, or its link failed.
    Gone(KeptHold),
    /// The hub has served as many events as it can.
    Worn(KeptHold),
    /// Memory is wanting for a Take, which gave nothing.
    NoMemory(KeptHold),
    /// Memory is wanting for the answer, of which nothing is put. The hold ended by this cause.
    Unput {
        hold: KeptHold,
        cause: EndCause,
    },
}

/// A long poll that waits for its answer. Nothing was sent to its client.
///
/// Contracts see the hold, what it was attached with, the origin's own answer, the channel of which a repeat tells the last item, and how
/// often the request was repeated.
#[derive(Drop)]
pub struct Wait {
    pub(crate) alloc: Global,
    pub(crate) poll: LongPoll,
    pub(crate) own: Answer,
    pub(crate) channel: Option<Name>,
    pub(crate) repeats: u8,
}

impl Model for Wait {
    ghost use Rattle.gp_session_wait.specs.Views.{WaitView};

    ghost Value = { WaitView };

    ghost view = { λ w. record { hold = w.poll.hold; spec = w.poll.spec; own = w.own; channel = w.channel; repeats = w.repeats } };
}
