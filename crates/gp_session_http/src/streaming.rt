//! A session that keeps a hold, streams what it gives, and asks the origin for what was missed.
ghost use Rattle.std.specs.Prelude.{◌≡◌};
ghost use Rattle.gp_session_http.specs.Holding.{HasClosed, HasStoppedAt, HeldLeads, HeldTold, IsOnward, StreamTimes};
ghost use Rattle.gp_session_http.specs.declared.held.Held.TheVariants as held;
ghost use Rattle.gp_session_http.specs.declared.held.HeldNext.TheVariants as next;

use crate::closing::Closing;
use crate::grant::Grant;
use crate::held::{Held, HeldNext};
use crate::leaving::{Leaving, Parting};
use crate::live::Live;
use crate::stage::end_with;
use gp_hub::SessionEnd;
use gp_outside::{Clock, Dial, Link};
use gp_plain::EndCause;
use gp_session_recover::{Recovering, StreamPolled};
use std::snapshot::Snapshot;

/// Expects what the hold gives, and pages of what it missed.
#[derive(Drop)]
pub(crate) struct Streaming {
    pub(crate) grant: Grant,
    pub(crate) recovering: Recovering,
}

impl Streaming {
    /// Hears the client, and delivers what the hold gives.
    pub(crate) fn advance<'h, L: Link, D: Dial, C: Clock>(
        mut self,
        live: &mut Live<'h, L, D, C>,
    ) -> HeldNext
        requires told { HeldTold live.old (held.Streaming self) }
        ensures leads { HeldLeads live.old live.new 2 result }
        ensures timed { StreamTimes live.old live.new self result }
    {
        let now = live.watch.moment();
        match self.recovering.poll(
            &mut live.wire,
            &mut live.line,
            &mut live.seat,
            live.signer,
            now,
        ) {
            StreamPolled::Pending => HeldNext::Wait(Held::Streaming(self)),
            StreamPolled::Ended(cause) => self.close(live, cause),
            StreamPolled::Gone => self.leave(Parting::Gone),
            StreamPolled::Worn => self.stop(live, None, SessionEnd::Worn),
            StreamPolled::NoMemory => self.leave(Parting::Wanting),
            StreamPolled::Unput(None) => self.leave(Parting::Wanting),
            StreamPolled::Unput(Some(cause)) => self.stop(live, Some(cause), SessionEnd::NoMemory),
        }
    }

    /// Goes on to let the hold go.
    fn leave(self, parting: Parting) -> HeldNext
        ensures { result ≡ next.Go (held.Leaving (record { grant = self.grant; hold = self.recovering.stream.hold; parting = parting })) }
    {
        let Streaming { grant, recovering } = self;
        HeldNext::Go(Held::Leaving(Leaving {
            grant,
            hold: recovering.into_hold(),
            parting,
        }))
    }

    /// Reports the hold, of which an end was told. What waits is still to go out.
    fn close<'h, L: Link, D: Dial, C: Clock>(
        self,
        live: &mut Live<'h, L, D, C>,
        cause: EndCause,
    ) -> HeldNext
        requires told { HasClosed live.old self cause }
        ensures leads { HeldLeads live.old live.new 2 result }
        ensures on { IsOnward result }
    {
        let Streaming { grant, recovering } = self;
        let hold = recovering.into_hold();
        let said = Snapshot::of(&hold);
        hold.report(Some(cause), &mut live.reports);
        HeldNext::Go(Held::Closing(Closing {
            grant,
            hold: said,
            cause,
        }))
    }

    /// Reports the hold, and ends: the hub serves no more, or memory is wanting for what a last Take gave.
    fn stop<'h, L: Link, D: Dial, C: Clock>(
        self,
        live: &mut Live<'h, L, D, C>,
        told: Option<EndCause>,
        end: SessionEnd,
    ) -> HeldNext
        requires told { HasStoppedAt live.old self told end }
        ensures leads { HeldLeads live.old live.new 2 result }
        ensures on { IsOnward result }
    {
        let Streaming { recovering, .. } = self;
        recovering.into_hold().report(told, &mut live.reports);
        HeldNext::End(end_with(end))
    }
}
