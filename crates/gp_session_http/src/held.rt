//! The stages of a session whose origin's answer asks for a hold.
ghost use Rattle.gp_session_http.specs.Holding.{HeldLeads, HeldTimes, HeldTold, held_rank};

use crate::answering::Answering;
use crate::asking::Asking;
use crate::attaching::Attaching;
use crate::beginning::Beginning;
use crate::closing::Closing;
use crate::declining::Declining;
use crate::denying::Denying;
use crate::departing::Departing;
use crate::leaving::Leaving;
use crate::live::Live;
use crate::stage::Ended;
use crate::streaming::Streaming;
use crate::waiting::Waiting;
use gp_outside::{Clock, Dial, Link};

/// What a session expects once an answer asks for a hold: for a stream, or for a long poll.
///
/// ```text
/// Attaching -> Streaming -> Closing -> the end
///     |  \          \-> Leaving -> the end
///     |   \-> Leaving -> the end
///     \-> Declining -> the end
///
/// Beginning -> Waiting -> Answering -> the end
///     |          |  \-> Departing -> the end
///     |          \-> the origin is asked again
///     \-> Denying -> the end
/// ```
#[derive(Drop)]
pub(crate) enum Held {
    /// The hub's turn, to attach the hold.
    Attaching(Attaching),
    /// The refusal to go out, since no hold was made.
    Declining(Declining),
    /// What the hold gives.
    Streaming(Streaming),
    /// The last bytes of a stream that has ended to go out.
    Closing(Closing),
    /// The hub's turn, to let the hold go.
    Leaving(Leaving),
    /// The hub's turn, to attach the hold of a long poll.
    Beginning(Beginning),
    /// The refusal to go out, since no hold was made.
    Denying(Denying),
    /// The answer of a long poll.
    Waiting(Waiting),
    /// The answer to go out.
    Answering(Answering),
    /// The hub's turn, to let the hold of a long poll go.
    Departing(Departing),
}

/// Where a move leads.
#[derive(Drop)]
pub(crate) enum HeldNext {
    /// On, in this poll.
    Go(Held),
    /// To the next poll.
    Wait(Held),
    /// On, to ask the origin again.
    Again(Asking),
    /// To the end.
    End(Ended),
}

impl Held {
    /// Makes the next move.
    pub(crate) fn advance<'h, L: Link, D: Dial, C: Clock>(
        self,
        live: &mut Live<'h, L, D, C>,
    ) -> HeldNext
        requires told { HeldTold live.old self }
        ensures leads { HeldLeads live.old live.new (held_rank self) result }
        ensures timed { HeldTimes live.old live.new self result }
    {
        match self {
            Held::Attaching(stage) => stage.advance(live),
            Held::Declining(stage) => stage.advance(live),
            Held::Streaming(stage) => stage.advance(live),
            Held::Closing(stage) => stage.advance(live),
            Held::Leaving(stage) => stage.advance(live),
            Held::Beginning(stage) => stage.advance(live),
            Held::Denying(stage) => stage.advance(live),
            Held::Waiting(stage) => stage.advance(live),
            Held::Answering(stage) => stage.advance(live),
            Held::Departing(stage) => stage.advance(live),
        }
    }
}
