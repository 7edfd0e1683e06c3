//! A stream, and how it asks for what it missed.
ghost use Rattle.std.specs.Prelude.{◌≡◌};
ghost use Rattle.gp_session_recover.specs.declared.talk.Talk.TheVariants as talk;

use crate::talk::Talk;
use gp_again::Again;
use gp_session_hold::{KeptHold, Stream};
use std::alloc::Global;
use std::marker::Model;
use std::mem;

/// A stream to a client, and how it asks its origin for what it missed, where it has a link.
///
/// Contracts see the stream, whom it asks, and what it waits for.
#[derive(Drop)]
pub struct Recovering {
    pub(crate) alloc: Global,
    pub(crate) stream: Stream,
    pub(crate) again: Option<Again>,
    pub(crate) talk: Talk,
}

impl Model for Recovering {
    ghost use Rattle.gp_session_recover.specs.Rows.{RecoveringView};

    ghost Value = { RecoveringView };

    ghost view = { λ r. record { stream = r.stream; again = r.again; talk = r.talk } };
}

impl Recovering {
    /// A stream that has asked for nothing yet. It takes no memory.
    pub fn new(alloc: Global, stream: Stream, again: Option<Again>) -> Recovering
        ensures is { result ≡ record { stream = stream; again = again; talk = talk.None } }
    {
        Recovering {
            alloc,
            stream,
            again,
            talk: Talk::None,
        }
    }

    /// What it waits for. It waits for nothing from then on.
    pub(crate) fn take_talk(&mut self) -> Talk
        ensures is { result ≡ self.old.talk }
        ensures none { self.new ≡ record self.old { talk = talk.None } }
    {
        mem::replace(&mut self.talk, Talk::None)
    }

    /// Waits for this from then on.
    pub(crate) fn set_talk(&mut self, talk: Talk)
        ensures { self.new ≡ record self.old { talk = talk } }
    {
        self.talk = talk;
    }

    /// The hold. No talk is open: a poll that doesn't answer Pending has hung up.
    pub fn into_hold(self) -> KeptHold
        ensures { result ≡ self.stream.hold }
    {
        let Recovering {
            stream,
            again,
            talk,
            ..
        } = self;
        drop(again);
        drop(talk);
        stream.into_hold()
    }
}
