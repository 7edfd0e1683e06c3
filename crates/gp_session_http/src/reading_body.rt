//! A session that expects the body of its request.
ghost use Rattle.gp_session_http.specs.Trace.{Told};
ghost use Rattle.gp_session_http.specs.Moves.{IsServedAt, Leads};
ghost use Rattle.gp_session_http.specs.declared.stage.Stage.TheVariants as stage;

use crate::asked::Asked;
use crate::asking::Asking;
use crate::cause::Cause;
use crate::live::Live;
use crate::stage::{Next, Stage, end_with};
use gp_exchange::forward_law;
use gp_hub::SessionEnd;
use gp_intake::{BodyIntake, BodyPolled, Whole};
use gp_outside::{Clock, Dial, Link};
use gp_plain::Address;

/// Expects the rest of the request's body. The request goes to this address.
#[derive(Drop)]
pub(crate) struct ReadingBody {
    pub(crate) intake: BodyIntake,
    pub(crate) address: Address,
}

impl ReadingBody {
    /// Reads, and asks the origin once the request is whole.
    pub(crate) fn advance<'h, L: Link, D: Dial, C: Clock>(
        self,
        live: &mut Live<'h, L, D, C>,
    ) -> Next
        requires told { Told live.old (stage.ReadingBody self) }
        ensures leads { Leads live.old live.new 4 result }
    {
        let address = self.address;
        match live.wire.read_body(self.intake) {
            BodyPolled::Whole(whole) => ask(live, whole, address),
            BodyPolled::Refused(refused) => {
                live.refuse(Cause::Request(refused.fault), &refused.method)
            }
            BodyPolled::NotReady(intake) => {
                Next::Wait(Stage::ReadingBody(ReadingBody { intake, address }))
            }
            BodyPolled::ClientGone => Next::End(end_with(SessionEnd::ClientGone)),
            BodyPolled::NoMemory => Next::End(end_with(SessionEnd::NoMemory)),
        }
    }
}

/// Begins to ask the origin.
fn ask<'h, L: Link, D: Dial, C: Clock>(
    live: &mut Live<'h, L, D, C>,
    request: Whole,
    address: Address,
) -> Next
    requires told { IsServedAt live.old request address }
    ensures leads { Leads live.old live.new 4 result }
{
    forward_law();
    let moment = live.watch.moment();
    let asked = Asked {
        request,
        address,
        moment,
        repeats: 0,
        last: None,
    };
    match Asking::new(live.alloc, live.signer, asked) {
        Ok(stage) => Next::Go(Stage::Asking(stage)),
        Err(_) => Next::End(end_with(SessionEnd::NoMemory)),
    }
}
