//! The stages of a session, and where a move leads.
ghost use Rattle.gp_session_publish.specs.Trace.{Told};
ghost use Rattle.gp_session_publish.specs.Moves.{Leads, rank};

use crate::answering::Answering;
use crate::live::Live;
use crate::publishing::Publishing;
use crate::reading_body::ReadingBody;
use crate::reading_head::ReadingHead;
use crate::refusing::Refusing;
use gp_hub::{SessionEnd, Why};
use gp_outside::Link;

/// What a session expects.
#[derive(Drop)]
pub(crate) enum Stage {
    /// The rest of the request's head.
    ReadingHead(ReadingHead),
    /// The rest of its body.
    ReadingBody(ReadingBody),
    /// The turn, to publish the items that are left.
    Publishing(Publishing),
    /// The answer to go out.
    Answering(Answering),
    /// The refusal to go out.
    Refusing(Refusing),
}

/// How a session ends.
#[derive(Drop)]
pub(crate) struct Ended {
    pub(crate) end: SessionEnd,
    pub(crate) why: Why,
    pub(crate) published: u32,
}

/// Where a move leads.
#[derive(Drop)]
pub(crate) enum Next {
    /// On, in this poll.
    Go(Stage),
    /// To the next poll.
    Wait(Stage),
    /// To the end.
    End(Ended),
}

impl Stage {
    /// Makes the next move.
    pub(crate) fn advance<'h, L: Link>(self, live: &mut Live<'h, L>) -> Next
        requires told { Told live.old self }
        ensures leads { Leads live.old live.new (rank self) result }
    {
        match self {
            Stage::ReadingHead(stage) => stage.advance(live),
            Stage::ReadingBody(stage) => stage.advance(live),
            Stage::Publishing(stage) => stage.advance(live),
            Stage::Answering(stage) => stage.advance(live),
            Stage::Refusing(stage) => stage.advance(live),
        }
    }
}
