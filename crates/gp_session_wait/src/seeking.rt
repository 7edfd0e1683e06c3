//! What Takes give of a long poll.
ghost use Rattle.std.specs.Prelude.{◌≡◌, Some};
ghost use Rattle.gp_plain.specs.declared.item.ResponsePart.{ResponsePart as Part};
ghost use Rattle.gp_session_hold.specs.Puts.{Counts};
ghost use Rattle.gp_session_wait.specs.Seeks.{CanEnd, EndsBy, FitsPoll, Gives, IsAnswer, Polls, Seeks, Turns};

use gp_plain::{EndCause, HoldSpec, ItemId, Payload, Pieces, ResponsePart, Taken};
use gp_session::{Seat, Took};
use gp_session_hold::KeptHold;
use std::marker::Model;
use std::snapshot::Snapshot;

/// How a long poll ended, as a Take told it.
#[derive(Drop)]
pub(crate) enum End {
    /// An item came, which has this answer.
    Answered(ResponsePart),
    /// The deadline came.
    TimedOut,
    /// Items were missed behind this id, so that the request is to be repeated.
    Retry(ItemId),
    /// More was waiting than a hold may keep.
    Overflow,
}

/// What one Take gave.
#[derive(Drop)]
pub(crate) enum Given {
    /// It gave pieces, of which none is an answer, and no end.
    Pieces,
    /// It gave nothing.
    Nothing,
    /// It told this end.
    Ended(End),
}

/// What one Take came to.
#[derive(Drop)]
pub(crate) enum Turned {
    /// It was served.
    Gave(Given),
    /// Another call holds the hub's turn.
    Busy,
    /// The hub has served as many events as it can.
    Worn,
    /// Memory is wanting.
    NoMemory,
}

/// What the Takes of a poll came to. But for `Ended` the session keeps the hold.
#[derive(Drop)]
pub(crate) enum Sought {
    /// The last Take gave nothing.
    Idle,
    /// 16 Takes gave pieces.
    Sixteen,
    /// Another call holds the hub's turn.
    Busy,
    /// The hub has served as many events as it can.
    Worn,
    /// Memory is wanting.
    NoMemory,
    /// A Take told this end.
    Ended(End),
}

/// The hold of a long poll. What it was attached with is remembered by contracts alone.
#[derive(Drop)]
pub(crate) struct LongPoll {
    pub(crate) hold: KeptHold,
    pub(crate) spec: Snapshot<HoldSpec>,
}

impl Model for LongPoll {
    ghost use Rattle.gp_session_wait.specs.Views.{PollView};

    ghost Value = { PollView };

    ghost view = { λ p. record { hold = p.hold; spec = p.spec.value } };
}

/// The answer that a payload is, or the one before it.
fn later(before: Option<ResponsePart>, payload: Payload) -> Option<ResponsePart>
    ensures { (part : Part) → payload ≡ Payload.Answer part → result ≡ Some part }
{
    match payload {
        Payload::Answer(part) => Some(part),
        Payload::Bytes(_) | Payload::Message(_) => before,
    }
}

/// Counts pieces, and gives the answer with which they end.
fn count(hold: &mut KeptHold, pieces: Pieces) -> Option<ResponsePart>
    ensures counts { Counts hold.old hold.new pieces }
    ensures answer { (part : Part) → IsAnswer pieces part → result ≡ Some part }
{
    let mut left = pieces;
    let mut answer = None;
    while let Some(piece) = left.take_first() {
        answer = later(answer, hold.add(piece));
    }
    answer
}

/// The end that a Take told.
fn end_by(cause: EndCause, recover: Option<ItemId>, answer: Option<ResponsePart>) -> End
    requires { CanEnd cause recover answer }
    ensures { EndsBy cause recover answer result }
{
    match cause {
        EndCause::Answered => match answer {
            Some(part) => End::Answered(part),
            None => unreachable!(),
        },
        EndCause::TimedOut => End::TimedOut,
        EndCause::Retry => match recover {
            Some(id) => End::Retry(id),
            None => unreachable!(),
        },
        EndCause::Overflow => End::Overflow,
        EndCause::Closed | EndCause::Detached | EndCause::Gap | EndCause::Unrecovered => {
            unreachable!()
        }
    }
}

/// Counts what a Take gave.
fn counted(hold: &mut KeptHold, taken: Taken) -> Given
    requires { FitsPoll taken }
    ensures { Gives hold.old hold.new taken result }
{
    let Taken {
        pieces,
        recover,
        ended,
    } = taken;
    let none = pieces.is_empty();
    let answer = count(hold, pieces);
    match ended {
        Some(cause) => Given::Ended(end_by(cause, recover, answer)),
        None => { if none { Given::Nothing } else { Given::Pieces } }
    }
}

impl LongPoll {
    /// Takes once. `now` is the moment of this poll in seconds.
    fn turn(&mut self, seat: &mut Seat<'_>, now: u64) -> Turned
        requires { Polls self.old seat.old }
        ensures { Turns self.old self.new seat.old seat.new now result }
    {
        match seat.take(self.hold.number(), now) {
            Took::Gave(taken) => Turned::Gave(counted(&mut self.hold, taken)),
            Took::Busy => Turned::Busy,
            Took::Worn => Turned::Worn,
            Took::NoMemory => Turned::NoMemory,
        }
    }

    /// Takes until nothing more comes, the hold has ended, or 16 Takes gave pieces. Most holds are taken of once: only items without an answer
    /// are pieces that end nothing. `now` is the moment of this poll in seconds.
    pub(crate) fn seek(&mut self, seat: &mut Seat<'_>, now: u64) -> Sought
        requires { Polls self.old seat.old }
        ensures { Seeks self.old self.new seat.old seat.new now result }
    {
        for count in 0..16u64 {
            match self.turn(seat, now) {
                Turned::Gave(Given::Pieces) => {}
                Turned::Gave(Given::Nothing) => return Sought::Idle,
                Turned::Gave(Given::Ended(end)) => return Sought::Ended(end),
                Turned::Busy => return Sought::Busy,
                Turned::Worn => return Sought::Worn,
                Turned::NoMemory => return Sought::NoMemory,
            }
        }
        Sought::Sixteen
    }
}
