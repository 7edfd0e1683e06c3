//! A session that keeps the hold of a long poll, and waits for its answer.
ghost use Rattle.std.specs.Prelude.{◌≡◌};
ghost use Rattle.gp_session_http.specs.Holding.{HeldLeads, HeldTold, IsOnward, PollTimes};
ghost use Rattle.gp_session_http.specs.LongPolls.{HasAnswered, HasRepeated, HasStopped};
ghost use Rattle.gp_session_http.specs.declared.held.Held.TheVariants as held;
ghost use Rattle.gp_session_http.specs.declared.held.HeldNext.TheVariants as next;

use crate::answering::Answering;
use crate::asked::{Asked, asked_again};
use crate::asking::Asking;
use crate::departing::Departing;
use crate::held::{Held, HeldNext};
use crate::leaving::Parting;
use crate::live::Live;
use crate::poll::Poll;
use crate::stage::end_with;
use gp_exchange::forward_law;
use gp_hub::SessionEnd;
use gp_outside::{Clock, Dial, Link};
use gp_plain::EndCause;
use gp_session_hold::KeptHold;
use gp_session_wait::{Polled, Repeat, Wait};
use std::snapshot::Snapshot;

/// Expects the answer. The request is kept where it may be repeated. The moment at which the hold was attached is remembered by
/// contracts alone.
#[derive(Drop)]
pub(crate) struct Waiting {
    pub(crate) poll: Poll,
    pub(crate) wait: Wait,
    pub(crate) again: Option<Asked>,
    pub(crate) since: Snapshot<u64>,
}

impl Waiting {
    /// Hears the client, and looks for the answer.
    pub(crate) fn advance<'h, L: Link, D: Dial, C: Clock>(
        self,
        live: &mut Live<'h, L, D, C>,
    ) -> HeldNext
        requires told { HeldTold live.old (held.Waiting self) }
        ensures leads { HeldLeads live.old live.new 4 result }
        ensures timed { PollTimes self result }
    {
        let now = live.watch.moment();
        let Waiting {
            poll,
            wait,
            again,
            since,
        } = self;
        match wait.poll(&mut live.wire, &mut live.seat, now) {
            Polled::Waits(wait) => HeldNext::Wait(Held::Waiting(Waiting {
                poll,
                wait,
                again,
                since,
            })),
            Polled::Answered { hold, cause, code } => {
                drop(again);
                answer(live, poll, hold, cause, code)
            }
            Polled::Retry(repeated) => repeat(live, poll, again, repeated),
            Polled::Overflow(hold) => {
                drop(again);
                stop(
                    live,
                    poll,
                    hold,
                    Some(EndCause::Overflow),
                    SessionEnd::Cut(EndCause::Overflow),
                )
            }
            Polled::Gone(hold) => {
                drop(again);
                leave(poll, hold, Parting::Gone)
            }
            Polled::Worn(hold) => {
                drop(again);
                stop(live, poll, hold, None, SessionEnd::Worn)
            }
            Polled::NoMemory(hold) => {
                drop(again);
                leave(poll, hold, Parting::Wanting)
            }
            Polled::Unput { hold, cause } => {
                drop(again);
                stop(live, poll, hold, Some(cause), SessionEnd::NoMemory)
            }
        }
    }
}

/// Goes on to let the hold go.
fn leave(poll: Poll, hold: KeptHold, parting: Parting) -> HeldNext
    ensures { result ≡ next.Go (held.Departing (record { poll = poll; hold = hold; parting = parting })) }
{
    HeldNext::Go(Held::Departing(Departing {
        poll,
        hold,
        parting,
    }))
}

/// Reports the hold, of which an end was told. The answer is still to go out.
fn answer<'h, L: Link, D: Dial, C: Clock>(
    live: &mut Live<'h, L, D, C>,
    poll: Poll,
    hold: KeptHold,
    cause: EndCause,
    code: u16,
) -> HeldNext
    requires told { HasAnswered live.old poll hold cause code }
    ensures leads { HeldLeads live.old live.new 4 result }
    ensures on { IsOnward result }
{
    let said = Snapshot::of(&hold);
    hold.report(Some(cause), &mut live.reports);
    HeldNext::Go(Held::Answering(Answering {
        poll,
        hold: said,
        cause,
        code,
    }))
}

/// Reports the hold, and ends without an answer.
fn stop<'h, L: Link, D: Dial, C: Clock>(
    live: &mut Live<'h, L, D, C>,
    poll: Poll,
    hold: KeptHold,
    told: Option<EndCause>,
    end: SessionEnd,
) -> HeldNext
    requires told { HasStopped live.old poll hold told end }
    ensures leads { HeldLeads live.old live.new 4 result }
    ensures on { IsOnward result }
{
    drop(poll);
    hold.report(told, &mut live.reports);
    HeldNext::End(end_with(end))
}

/// Reports the hold, and begins to ask the origin again, which is told the last item that the client has.
fn repeat<'h, L: Link, D: Dial, C: Clock>(
    live: &mut Live<'h, L, D, C>,
    poll: Poll,
    again: Option<Asked>,
    repeated: Repeat,
) -> HeldNext
    requires told { HasRepeated live.old poll again repeated }
    ensures leads { HeldLeads live.old live.new 4 result }
    ensures on { IsOnward result }
{
    forward_law();
    drop(poll);
    let Repeat { hold, last, count } = repeated;
    hold.report(Some(EndCause::Retry), &mut live.reports);
    let moment = live.watch.moment();
    let Some(asked) = asked_again(again, last, count, moment) else {
        unreachable!()
    };
    match Asking::new(live.alloc, live.signer, asked) {
        Ok(stage) => HeldNext::Again(stage),
        Err(_) => HeldNext::End(end_with(SessionEnd::NoMemory)),
    }
}
