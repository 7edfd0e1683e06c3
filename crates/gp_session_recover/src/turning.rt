//! One turn of a stream that asks for what it missed.
ghost use Rattle.std.specs.Prelude.{◌≡◌, is_some, true, ℕ};
ghost use Rattle.gp_plain.specs.declared.http.Signer.{Signer};
ghost use Rattle.gp_session.specs.Wires.{WireView};
ghost use Rattle.gp_session_recover.specs.Polls.{AsksTo, SettlesAs, StepsAs, TurnsAs};
ghost use Rattle.gp_session_recover.specs.Rows.{Closes, IsLiveTalk, IsReady, sides};
ghost use Rattle.gp_session_recover.specs.declared.talk.Talk.TheVariants as talk;
ghost use Rattle.gp_session_recover.specs.declared.turning.Stepped.TheVariants as stepped;

use crate::bringing::Brought;
use crate::polling::StreamPolled;
use crate::recovering::Recovering;
use gp_outside::{Dial, Link};
use gp_plain::{ItemId, Signer};
use gp_session::{Line, Seat, Wire};
use gp_session_hold::Streamed;

/// What one turn came to.
#[derive(Clone, Copy, Drop)]
pub(crate) enum Stepped {
    /// A Take gave pieces, or told that items are missing, and the origin is asked for them.
    More,
    /// Nothing waits, and a Take gave nothing.
    Idle,
    /// Bytes wait for the link, which isn't ready to take them.
    Unsent,
    /// Another call holds the hub's turn.
    Busy,
    /// The stream goes on no more. This is never `Pending`.
    Ends(StreamPolled),
}

impl Recovering {
    /// Goes on with the talk, and tells the hub what came of it.
    pub(crate) fn settle<D: Dial>(&mut self, line: &mut Line<D>, seat: &mut Seat<'_>) -> Brought
        requires { (signer : Signer) × (wire : WireView) × IsReady signer (sides self.old wire line.old seat.old) }
        ensures { (signer : Signer) (wire : WireView) (now : ℕ) → IsReady signer (sides self.old wire line.old seat.old) → SettlesAs signer now (sides self.old wire line.old seat.old) (sides self.new wire line.new seat.new) result }
    {
        if self.seek(line) {
            self.bring(seat)
        } else {
            Brought::NoMemory
        }
    }

    /// Asks for the page behind an id, which a Take told.
    fn ask<D: Dial>(
        &mut self,
        line: &mut Line<D>,
        signer: &Signer,
        now: u64,
        from: ItemId,
    ) -> Stepped
        requires some { is_some self.old.again ≡ true }
        requires none { self.old.talk ≡ talk.None }
        ensures { AsksTo self.old self.new line.old line.new signer.now now from result }
    {
        if self.begin(signer, now, from) {
            Stepped::More
        } else {
            self.close(line);
            Stepped::Ends(StreamPolled::NoMemory)
        }
    }

    /// Hangs up, since the stream goes on no more.
    fn end<D: Dial>(&mut self, line: &mut Line<D>, answer: StreamPolled) -> Stepped
        requires { IsLiveTalk self.old.talk }
        ensures closes { Closes self.old self.new line.old line.new }
        ensures is { result ≡ stepped.Ends answer }
    {
        self.close(line);
        Stepped::Ends(answer)
    }

    /// Sends what waits, takes once, and asks for what is missing.
    fn turn<L: Link, D: Dial>(
        &mut self,
        wire: &mut Wire<L>,
        line: &mut Line<D>,
        seat: &mut Seat<'_>,
        signer: &Signer,
        now: u64,
    ) -> Stepped
        requires { IsReady signer.now (sides self.old wire.old line.old seat.old) }
        ensures { TurnsAs signer.now now (sides self.old wire.old line.old seat.old) (sides self.new wire.new line.new seat.new) result }
    {
        match self.stream.turn(wire, seat, now) {
            Streamed::Gave => Stepped::More,
            Streamed::Idle => Stepped::Idle,
            Streamed::Missing(from) => self.ask(line, signer, now, from),
            Streamed::Unsent => Stepped::Unsent,
            Streamed::Busy => Stepped::Busy,
            Streamed::Ended(cause) => self.end(line, StreamPolled::Ended(cause)),
            Streamed::Gone => self.end(line, StreamPolled::Gone),
            Streamed::Worn => self.end(line, StreamPolled::Worn),
            Streamed::NoMemory => self.end(line, StreamPolled::NoMemory),
            Streamed::Unput(told) => self.end(line, StreamPolled::Unput(told)),
        }
    }

    /// Makes one turn, behind what is settled of the talk.
    pub(crate) fn step<L: Link, D: Dial>(
        &mut self,
        wire: &mut Wire<L>,
        line: &mut Line<D>,
        seat: &mut Seat<'_>,
        signer: &Signer,
        now: u64,
    ) -> Stepped
        requires { IsReady signer.now (sides self.old wire.old line.old seat.old) }
        ensures { StepsAs signer.now now (sides self.old wire.old line.old seat.old) (sides self.new wire.new line.new seat.new) result }
    {
        match self.settle(line, seat) {
            Brought::Goes => self.turn(wire, line, seat, signer, now),
            Brought::Busy => Stepped::Busy,
            Brought::Worn => Stepped::Ends(StreamPolled::Worn),
            Brought::NoMemory => Stepped::Ends(StreamPolled::NoMemory),
        }
    }
}
