//! The stages of a session, and where a move leads.
ghost use Rattle.std.specs.Prelude.{◌≡◌};
ghost use Rattle.gp_hub.specs.declared.outcome.Why.TheVariants as why;
ghost use Rattle.gp_session_http.specs.Trace.{Told};
ghost use Rattle.gp_session_http.specs.Moves.{Leads, rank};

use crate::asking::Asking;
use crate::failing::Failing;
use crate::finishing::Finishing;
use crate::gathering::Gathering;
use crate::giving::Giving;
use crate::held::Held;
use crate::live::Live;
use crate::passing::Passing;
use crate::reading_body::ReadingBody;
use crate::reading_head::ReadingHead;
use crate::refusing::Refusing;
use gp_hub::{SessionEnd, Why};
use gp_outside::{Clock, Dial, Link};

/// What a session expects that keeps no hold.
#[derive(Drop)]
pub(crate) enum Stage {
    /// The rest of the request's head.
    ReadingHead(ReadingHead),
    /// The rest of its body.
    ReadingBody(ReadingBody),
    /// The refusal to go out.
    Refusing(Refusing),
    /// The head of the origin's response.
    Asking(Asking),
    /// The rest of the body of an answer that asks for a hold, or is an instruction itself.
    Gathering(Gathering),
    /// The response that an instruction carries to go out.
    Giving(Giving),
    /// The refusal of the origin's response to go out.
    Failing(Failing),
    /// The rest of the response's body.
    Passing(Passing),
    /// The last bytes of the response to go out.
    Finishing(Finishing),
}

/// How a session ends.
#[derive(Drop)]
pub(crate) struct Ended {
    pub(crate) end: SessionEnd,
    pub(crate) why: Why,
}

/// Where a move leads.
#[derive(Drop)]
pub(crate) enum Next {
    /// On, in this poll.
    Go(Stage),
    /// To the next poll.
    Wait(Stage),
    /// On, to attach a hold.
    Hold(Held),
    /// To the end.
    End(Ended),
}

impl Stage {
    /// Makes the next move.
    pub(crate) fn advance<'h, L: Link, D: Dial, C: Clock>(
        self,
        live: &mut Live<'h, L, D, C>,
    ) -> Next
        requires told { Told live.old self }
        ensures leads { Leads live.old live.new (rank self) result }
    {
        match self {
            Stage::ReadingHead(stage) => stage.advance(live),
            Stage::ReadingBody(stage) => stage.advance(live),
            Stage::Refusing(stage) => stage.advance(live),
            Stage::Asking(stage) => stage.advance(live),
            Stage::Gathering(stage) => stage.advance(live),
            Stage::Giving(stage) => stage.advance(live),
            Stage::Failing(stage) => stage.advance(live),
            Stage::Passing(stage) => stage.advance(live),
            Stage::Finishing(stage) => stage.advance(live),
        }
    }
}

/// An end for which nothing was refused.
pub(crate) fn end_with(end: SessionEnd) -> Ended
    ensures { result ≡ record { end = end; why = why.Nothing } }
{
    Ended {
        end,
        why: Why::Nothing,
    }
}
