//! A poll of a long poll.
ghost use Rattle.std.specs.Prelude.{◌≡◌, ◌<◌, ◌≤◌, is_some, true};
ghost use Rattle.gp_plain.specs.declared.reply.EndCause.TheVariants.{Answered};
ghost use Rattle.gp_session_wait.specs.Answers.{answer_of};
ghost use Rattle.gp_session_wait.specs.Waits.{AnswersAs, CanEndWith, EndsTo, Looks, PollsWait, RepeatsAs, RetriesTo, Waits, most_repeats};

use crate::answer::Answer;
use crate::seeking::{End, Sought};
use crate::wait::{Last, Polled, Repeat, Wait};
use gp_outside::Link;
use gp_plain::{EndCause, ItemId, ResponsePart};
use gp_session::{Heard, Seat, Wire};
use gp_session_hold::KeptHold;
use std::alloc::Global;

/// How often a request is repeated at most.
pub(crate) const MOST_REPEATS: u8 = 8;

/// Puts the answer of a hold that ended by this cause.
fn answer_with<L: Link>(
    alloc: Global,
    wire: &mut Wire<L>,
    hold: KeptHold,
    cause: EndCause,
    answer: Answer,
) -> Polled
    ensures { AnswersAs wire.old wire.new hold cause answer result }
{
    let code = answer.code;
    if answer.put(alloc, wire) {
        Polled::Answered { hold, cause, code }
    } else {
        Polled::Unput { hold, cause }
    }
}

impl Wait {
    /// The hold alone. All else is dropped.
    fn into_hold(self) -> KeptHold
        ensures { result ≡ self.hold }
    {
        self.poll.hold
    }

    /// Puts the answer of an item.
    fn answer_item<L: Link>(self, wire: &mut Wire<L>, part: ResponsePart) -> Polled
        ensures { AnswersAs wire.old wire.new self.hold Answered (answer_of part) result }
    {
        let Wait { alloc, poll, .. } = self;
        answer_with(
            alloc,
            wire,
            poll.hold,
            EndCause::Answered,
            Answer::of_part(part),
        )
    }

    /// Puts the origin's own answer.
    fn answer_own<L: Link>(self, wire: &mut Wire<L>, cause: EndCause) -> Polled
        ensures { AnswersAs wire.old wire.new self.hold cause self.own result }
    {
        let Wait {
            alloc,
            poll,
            own,
            ..
        } = self;
        answer_with(alloc, wire, poll.hold, cause, own)
    }

    /// Has the request repeated, behind this id.
    fn repeat(self, id: ItemId) -> Polled
        requires few { self.repeats < most_repeats }
        requires has { is_some self.channel ≡ true }
        ensures { RepeatsAs self id result }
    {
        let Wait {
            poll,
            channel,
            repeats,
            ..
        } = self;
        let Some(channel) = channel else {
            unreachable!()
        };
        Polled::Retry(Repeat {
            hold: poll.hold,
            last: Last { channel, id },
            count: repeats + 1,
        })
    }

    /// Has the request repeated, or puts the origin's own answer where it was repeated as often as may be.
    fn retry<L: Link>(self, wire: &mut Wire<L>, id: ItemId) -> Polled
        requires few { self.repeats ≤ most_repeats }
        requires has { is_some self.channel ≡ true }
        ensures { RetriesTo self wire.old wire.new id result }
    {
        if self.repeats < MOST_REPEATS {
            self.repeat(id)
        } else {
            self.answer_own(wire, EndCause::Retry)
        }
    }

    /// Does what the end asks for that a Take told.
    fn end<L: Link>(self, wire: &mut Wire<L>, end: End) -> Polled
        requires { CanEndWith self end }
        ensures { EndsTo self wire.old wire.new end result }
    {
        match end {
            End::Answered(part) => self.answer_item(wire, part),
            End::TimedOut => self.answer_own(wire, EndCause::TimedOut),
            End::Retry(id) => self.retry(wire, id),
            End::Overflow => Polled::Overflow(self.into_hold()),
        }
    }

    /// Takes what there is, and answers where the hold has ended.
    fn look<L: Link>(mut self, wire: &mut Wire<L>, seat: &mut Seat<'_>, now: u64) -> Polled
        requires { Waits self wire.old seat.old }
        ensures { Looks self wire.old wire.new seat.old seat.new now result }
    {
        match self.poll.seek(seat, now) {
            Sought::Idle => Polled::Waits(self),
            Sought::Sixteen => Polled::Waits(self),
            Sought::Busy => Polled::Waits(self),
            Sought::Worn => Polled::Worn(self.into_hold()),
            Sought::NoMemory => Polled::NoMemory(self.into_hold()),
            Sought::Ended(end) => self.end(wire, end),
        }
    }

    /// Hears what the client sends, which is dropped, and answers it where the hold has ended. `now` is the moment of this poll in seconds.
    pub fn poll<L: Link>(self, wire: &mut Wire<L>, seat: &mut Seat<'_>, now: u64) -> Polled
        requires { Waits self wire.old seat.old }
        ensures { PollsWait self wire.old wire.new seat.old seat.new now result }
    {
        match wire.hear() {
            Heard::Gone => Polled::Gone(self.into_hold()),
            Heard::NotReady => self.look(wire, seat, now),
            Heard::Much => self.look(wire, seat, now),
        }
    }
}
