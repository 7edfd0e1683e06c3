//! A poll of a stream that asks for what it missed.
ghost use Rattle.gp_session_recover.specs.Polls.{PollsStream, RunsAs};
ghost use Rattle.gp_session_recover.specs.Rows.{IsReady, sides};

use crate::bringing::Brought;
use crate::recovering::Recovering;
use crate::turning::Stepped;
use gp_outside::{Dial, Link};
use gp_plain::{EndCause, Signer};
use gp_session::{Heard, Line, Seat, Wire};

/// What a poll of a stream answers. But for `Ended`, and for `Unput` with an end, the session keeps the hold. At each answer but `Pending` no talk is
/// open.
#[derive(Clone, Copy, Drop, Debug, PartialEq)]
pub enum StreamPolled {
    /// It waits: for the client and its link, with nothing to take; for the origin that is asked for what it missed; or since it has done as much as
    /// one poll may; or since another call holds the hub's turn.
    Pending,
    /// A Take told this end. The last chunk is put, where that is a close.
    Ended(EndCause),
    /// The client is gone: its input ended, or its link failed.
    Gone,
    /// The hub has served as many events as it can.
    Worn,
    /// Memory is wanting.
    NoMemory,
    /// Memory is wanting for what a Take gave, so that not all of it is put. It told this end, or none.
    Unput(Option<EndCause>),
}

impl Recovering {
    /// Takes up to 16 times, each time behind what is settled of the talk.
    fn run<L: Link, D: Dial>(
        &mut self,
        wire: &mut Wire<L>,
        line: &mut Line<D>,
        seat: &mut Seat<'_>,
        signer: &Signer,
        now: u64,
    ) -> StreamPolled
        requires { IsReady signer.now (sides self.old wire.old line.old seat.old) }
        ensures { RunsAs signer.now now (sides self.old wire.old line.old seat.old) (sides self.new wire.new line.new seat.new) result }
    {
        for _count in 0..16u64 {
            match self.step(wire, line, seat, signer, now) {
                Stepped::More => {}
                Stepped::Idle => return StreamPolled::Pending,
                Stepped::Unsent => return StreamPolled::Pending,
                Stepped::Busy => return StreamPolled::Pending,
                Stepped::Ends(answer) => return answer,
            }
        }
        match self.settle(line, seat) {
            Brought::Goes => StreamPolled::Pending,
            Brought::Busy => StreamPolled::Pending,
            Brought::Worn => StreamPolled::Worn,
            Brought::NoMemory => StreamPolled::NoMemory,
        }
    }

    /// Hears what the client sends, which is dropped, and delivers what waits for the hold. `now` is the moment of this poll in seconds.
    pub fn poll<L: Link, D: Dial>(
        &mut self,
        wire: &mut Wire<L>,
        line: &mut Line<D>,
        seat: &mut Seat<'_>,
        signer: &Signer,
        now: u64,
    ) -> StreamPolled
        requires { IsReady signer.now (sides self.old wire.old line.old seat.old) }
        ensures { PollsStream signer.now now (sides self.old wire.old line.old seat.old) (sides self.new wire.new line.new seat.new) result }
    {
        match wire.hear() {
            Heard::Gone => {
                self.close(line);
                StreamPolled::Gone
            }
            Heard::NotReady => self.run(wire, line, seat, signer, now),
            Heard::Much => self.run(wire, line, seat, signer, now),
        }
    }
}
