//! The client's end of a session.
ghost use Rattle.std.specs.Prelude.{◌≡◌};
ghost use Rattle.gp_intake.specs.Polls.{PollsBody, PollsHead};
ghost use Rattle.gp_session.specs.Wires.{Flushes, Puts, new_wire};

use gp_intake::{BodyIntake, BodyPolled, HeadIntake, HeadPolled};
use gp_outbox::{Flushed, Outbox};
use gp_outside::Link;
use gp_plain::Body;
use std::alloc::{AllocError, Global};
use std::marker::Model;
use std::snapshot::Snapshot;

/// A client's link, and the bytes that wait for it.
#[derive(Drop)]
pub struct Wire<L: Link> {
    pub(crate) link: L,
    /// The link as the session began with it, which contracts alone remember.
    start: Snapshot<L>,
    outbox: Outbox,
}

impl<L: Link> Model for Wire<L> {
    ghost use Rattle.gp_session.specs.Wires.{WireView};

    ghost Value = { WireView };

    ghost view = { λ w. record { start = L.tells w.start.value; link = L.tells w.link; rest = w.outbox } };
}

impl<L: Link> Wire<L> {
    /// The end of a session that begins with this link. It takes no memory.
    pub fn new(alloc: Global, link: L) -> Wire<L>
        ensures { result ≡ new_wire (L.tells link) }
    {
        Wire {
            start: Snapshot::of(&link),
            link,
            outbox: Outbox::new(alloc),
        }
    }

    /// Reads the head of a request.
    pub fn read_head(&mut self, intake: HeadIntake) -> HeadPolled
        ensures start { self.new.start ≡ self.old.start }
        ensures rest { self.new.rest ≡ self.old.rest }
        ensures polls { PollsHead intake self.old.link self.new.link result }
    {
        intake.poll(&mut self.link)
    }

    /// Reads the body of a request.
    pub fn read_body(&mut self, intake: BodyIntake) -> BodyPolled
        ensures start { self.new.start ≡ self.old.start }
        ensures rest { self.new.rest ≡ self.old.rest }
        ensures polls { PollsBody intake self.old.link self.new.link result }
    {
        intake.poll(&mut self.link)
    }

    /// Puts three parts behind the bytes that wait, or hands the body back where memory is wanting.
    pub fn put(&mut self, head: &[u8], body: Body, tail: &[u8]) -> Result<(), (Body, AllocError)>
        ensures { Puts self.old self.new head.now body tail.now result }
    {
        self.outbox.put(head, body, tail)
    }

    /// Sends what waits, as far as the link takes it. It takes no memory.
    pub fn flush(&mut self) -> Flushed
        ensures { Flushes self.old self.new result }
    {
        self.outbox.flush(&mut self.link)
    }

    /// The link as it stands. The bytes that wait are dropped.
    pub fn into_link(self) -> L
        ensures { L.tells result ≡ self.link }
    {
        self.link
    }
}
