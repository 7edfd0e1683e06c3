//! A stream of what a hold gives, to a client.
ghost use Rattle.std.specs.Prelude.{◌≡◌, [], IfOk, MatchResult};
ghost use Rattle.gp_plain.specs.Others.{Share};
ghost use Rattle.gp_session.specs.Seats.{SeatView};
ghost use Rattle.gp_session.specs.Wires.{Sent};
ghost use Rattle.gp_session_hold.specs.Puts.{PutsBehind};
ghost use Rattle.gp_session_hold.specs.Rows.{IsKept};
ghost use Rattle.gp_session_hold.specs.Streams.{Delivers, Streams, Turns, answered_by};

use crate::hold::KeptHold;
use crate::sending::{Given, send};
use gp_asking::asking_law;
use gp_outbox::Flushed;
use gp_outside::Link;
use gp_plain::{Body, EndCause, ItemId};
use gp_session::{Seat, Took, Wire};
use std::alloc::Global;
use std::marker::Model;
use std::snapshot::Snapshot;

/// What a turn of a stream came to. But for `Ended`, and for `Unput` with an end, the session keeps the hold.
#[derive(Drop)]
pub enum Streamed {
    /// A Take gave pieces, which are put, and told nothing else.
    Gave,
    /// Nothing waits, and a Take gave nothing.
    Idle,
    /// A Take told that items are missing behind this id. What it gave is put.
    Missing(ItemId),
    /// Bytes wait for the link, which isn't ready to take them.
    Unsent,
    /// Another call holds the hub's turn.
    Busy,
    /// A Take told this end. The last chunk is put, where that is a close.
    Ended(EndCause),
    /// The link failed.
    Gone,
    /// The hub has served as many events as it can.
    Worn,
    /// Memory is wanting for a Take, which gave nothing.
    NoMemory,
    /// Memory is wanting for what a Take gave, so that not all of it is put. It told this end, or none.
    Unput(Option<EndCause>),
}

/// What one Take came to.
#[derive(Drop)]
pub(crate) enum Turned {
    /// It was served.
    Gave(Given),
    /// Another call holds the hub's turn.
    Busy,
    /// The hub has served as many events as it can.
    Worn,
    /// Memory is wanting.
    NoMemory,
}

/// A stream to a client: its hold, and how it is framed.
///
/// Contracts see the hold, whether it goes in chunks, and the head of the answer, which contracts alone remember.
#[derive(Drop)]
pub struct Stream {
    alloc: Global,
    hold: KeptHold,
    chunked: bool,
    head: Snapshot<Body>,
}

impl Model for Stream {
    ghost use Rattle.gp_session_hold.specs.Streams.{StreamView};

    ghost Value = { StreamView };

    ghost view = { λ s. record { hold = s.hold; chunked = s.chunked; head = s.head.value } };
}

/// What one Take came to, where all that waited before was sent.
fn answer_of(turned: Turned) -> Streamed
    ensures { result ≡ answered_by turned }
{
    match turned {
        Turned::Gave(Given::Pieces) => Streamed::Gave,
        Turned::Gave(Given::Nothing) => Streamed::Idle,
        Turned::Gave(Given::Missing(from)) => Streamed::Missing(from),
        Turned::Gave(Given::End(cause)) => Streamed::Ended(cause),
        Turned::Gave(Given::Unput(told)) => Streamed::Unput(told),
        Turned::Busy => Streamed::Busy,
        Turned::Worn => Streamed::Worn,
        Turned::NoMemory => Streamed::NoMemory,
    }
}

impl Stream {
    /// A stream that begins with this head, which is put. Where memory is wanting the hold is handed back.
    pub fn new<L: Link>(
        alloc: Global,
        wire: &mut Wire<L>,
        hold: KeptHold,
        chunked: bool,
        head: Body,
    ) -> Result<Stream, KeptHold>
        ensures begins { MatchResult result (λ stream. (stream ≡ record { hold = hold; chunked = chunked; head = head }) × PutsBehind wire.old wire.new head) (λ back. (back ≡ hold) × (wire.new ≡ wire.old)) }
        ensures streams { (s : SeatView) (share : Share) → IsKept s hold share → share.taken ≡ [] → Sent wire.old [] → IfOk result (λ stream. Streams stream wire.new s) }
    {
        let said = Snapshot::of(&head);
        match wire.put(b"", head, b"") {
            Ok(()) => Ok(Stream {
                alloc,
                hold,
                chunked,
                head: said,
            }),
            Err(_) => Err(hold),
        }
    }

    /// Takes once, and puts what was given.
    fn take<L: Link>(&mut self, wire: &mut Wire<L>, seat: &mut Seat<'_>, now: u64) -> Turned
        requires { Streams self.old wire.old seat.old }
        ensures { Turns self.old self.new wire.old wire.new seat.old seat.new now result }
    {
        match seat.take(self.hold.number(), now) {
            Took::Gave(taken) => {
                Turned::Gave(send(self.alloc, wire, self.chunked, &mut self.hold, taken))
            }
            Took::Busy => Turned::Busy,
            Took::Worn => Turned::Worn,
            Took::NoMemory => Turned::NoMemory,
        }
    }

    /// Sends all that waits, takes once, and puts what was given. `now` is the moment of this poll in seconds.
    pub fn turn<L: Link>(&mut self, wire: &mut Wire<L>, seat: &mut Seat<'_>, now: u64) -> Streamed
        requires { Streams self.old wire.old seat.old }
        ensures { Delivers self.old self.new wire.old wire.new seat.old seat.new now result }
    {
        asking_law();
        match wire.flush() {
            Flushed::Empty => answer_of(self.take(wire, seat, now)),
            Flushed::NotReady => Streamed::Unsent,
            Flushed::Failed => Streamed::Gone,
        }
    }

    /// The hold's number.
    pub fn number(&self) -> u64
        ensures { result ≡ self.now.hold.number }
    {
        self.hold.number()
    }

    /// The hold.
    pub fn into_hold(self) -> KeptHold
        ensures { result ≡ self.hold }
    {
        self.hold
    }
}
