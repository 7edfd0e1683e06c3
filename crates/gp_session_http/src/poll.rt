//! What an origin's answer asks to wait for.
ghost use Rattle.std.specs.Prelude.{◌≡◌, ◌≤◌, IfOk};
ghost use Rattle.gp_session_wait.specs.Waits.{most_repeats};
ghost use Rattle.gp_session_http.specs.Posings.{IsCountedIn, IsOpeningOf, IsPosed, kept_for};
ghost use Rattle.gp_session_http.specs.Wishes.{IsWish};
ghost use Rattle.gp_session_http.specs.declared.grant.Wish.TheVariants as wish;

use crate::asked::Asked;
use crate::beginning::Beginning;
use gp_exchange::Exchange;
use gp_instruct_json::Answer;
use gp_session_wait::{Answer as OwnAnswer, Opening};
use std::alloc::{AllocError, Global};
use std::snapshot::Snapshot;

/// An answer that asks for a long poll. What was asked, the talk and the answer are remembered by contracts alone.
#[derive(Drop)]
pub(crate) struct Poll {
    pub(crate) asked: Snapshot<Asked>,
    pub(crate) exchange: Snapshot<Exchange>,
    pub(crate) answer: Snapshot<Answer>,
}

/// The request, which is kept where it may be repeated, and else let go.
fn kept_for(asked: Asked, again: bool) -> Option<Asked>
    ensures { result ≡ kept_for asked again }
{
    if again {
        Some(asked)
    } else {
        drop(asked);
        None
    }
}

/// The long poll that an answer asks for, with the response of its own.
fn opening_of(alloc: Global, answer: Answer, repeats: u8) -> Result<Opening, AllocError>
    requires wish { IsWish answer wish.Poll }
    requires counted { IsCountedIn answer.instruct }
    requires few { repeats ≤ most_repeats }
    ensures { IfOk result (IsOpeningOf answer repeats) }
{
    let Answer {
        instruct,
        head,
        body,
    } = answer;
    match instruct {
        None => unreachable!(),
        Some(instruct) => {
            let own = OwnAnswer::of_response(alloc, head, body, instruct.status);
            Opening::new(alloc, instruct, own, repeats)
        }
    }
}

/// What is attached for an answer that asks for a long poll.
pub(crate) fn pose(
    alloc: Global,
    asked: Asked,
    exchange: &Exchange,
    answer: Answer,
) -> Result<Beginning, AllocError>
    requires wish { IsWish answer wish.Poll }
    requires counted { IsCountedIn answer.instruct }
    requires few { asked.repeats ≤ most_repeats }
    ensures { IfOk result (IsPosed asked exchange.now answer) }
{
    let poll = Poll {
        asked: Snapshot::of(&asked),
        exchange: Snapshot::of(exchange),
        answer: Snapshot::of(&answer),
    };
    let opening = opening_of(alloc, answer, asked.repeats)?;
    let again = kept_for(asked, opening.may_repeat());
    Ok(Beginning {
        poll,
        opening,
        again,
    })
}
