//! A session that lets the hold of its long poll go.
ghost use Rattle.gp_session_http.specs.Holding.{HeldLeads, HeldTold};
ghost use Rattle.gp_session_http.specs.LongPolls.{HasDeparted};
ghost use Rattle.gp_session_http.specs.declared.held.Held.TheVariants as held;

use crate::held::{Held, HeldNext};
use crate::leaving::Parting;
use crate::live::Live;
use crate::poll::Poll;
use crate::stage::end_with;
use gp_hub::SessionEnd;
use gp_outside::{Clock, Dial, Link};
use gp_session::LetGo;
use gp_session_hold::KeptHold;

/// Expects the hub's turn, to let the hold go. Nothing is sent.
#[derive(Drop)]
pub(crate) struct Departing {
    pub(crate) poll: Poll,
    pub(crate) hold: KeptHold,
    pub(crate) parting: Parting,
}

impl Departing {
    /// Lets the hold go.
    pub(crate) fn advance<'h, L: Link, D: Dial, C: Clock>(
        self,
        live: &mut Live<'h, L, D, C>,
    ) -> HeldNext
        requires told { HeldTold live.old (held.Departing self) }
        ensures leads { HeldLeads live.old live.new 1 result }
    {
        match self.hold.let_go(&mut live.seat) {
            LetGo::Gone => {
                let end = self.parting.end();
                self.report(live, end)
            }
            LetGo::Busy => HeldNext::Wait(Held::Departing(self)),
            LetGo::Worn => self.report(live, SessionEnd::Worn),
        }
    }

    /// Reports the hold, of which no end was told, and ends.
    fn report<'h, L: Link, D: Dial, C: Clock>(
        self,
        live: &mut Live<'h, L, D, C>,
        end: SessionEnd,
    ) -> HeldNext
        requires told { HasDeparted live.old self end }
        ensures leads { HeldLeads live.old live.new 1 result }
    {
        let Departing { hold, .. } = self;
        hold.report(None, &mut live.reports);
        HeldNext::End(end_with(end))
    }
}
