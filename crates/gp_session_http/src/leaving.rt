//! A session that lets its hold go.
ghost use Rattle.std.specs.Prelude.{◌≡◌};
ghost use Rattle.gp_session_http.specs.Heard.{end_of};
ghost use Rattle.gp_session_http.specs.Holding.{HasLeft, HeldLeads, HeldTold};
ghost use Rattle.gp_session_http.specs.declared.held.Held.TheVariants as held;

use crate::grant::Grant;
use crate::held::{Held, HeldNext};
use crate::live::Live;
use crate::stage::end_with;
use gp_hub::SessionEnd;
use gp_outside::{Clock, Dial, Link};
use gp_session::LetGo;
use gp_session_hold::KeptHold;

/// Why a hold is let go before its end.
#[derive(Clone, Copy, Drop)]
pub(crate) enum Parting {
    /// The client is gone.
    Gone,
    /// Memory is wanting.
    Wanting,
}

/// Expects the hub's turn, to let the hold go.
#[derive(Drop)]
pub(crate) struct Leaving {
    pub(crate) grant: Grant,
    pub(crate) hold: KeptHold,
    pub(crate) parting: Parting,
}

impl Parting {
    /// How the session ends.
    pub(crate) fn end(self) -> SessionEnd
        ensures { result ≡ end_of self }
    {
        match self {
            Parting::Gone => SessionEnd::ClientGone,
            Parting::Wanting => SessionEnd::NoMemory,
        }
    }
}

impl Leaving {
    /// Lets the hold go.
    pub(crate) fn advance<'h, L: Link, D: Dial, C: Clock>(
        self,
        live: &mut Live<'h, L, D, C>,
    ) -> HeldNext
        requires told { HeldTold live.old (held.Leaving self) }
        ensures leads { HeldLeads live.old live.new 1 result }
    {
        match self.hold.let_go(&mut live.seat) {
            LetGo::Gone => {
                let end = self.parting.end();
                self.report(live, end)
            }
            LetGo::Busy => HeldNext::Wait(Held::Leaving(self)),
            LetGo::Worn => self.report(live, SessionEnd::Worn),
        }
    }

    /// Reports the hold, of which no end was told, and ends.
    fn report<'h, L: Link, D: Dial, C: Clock>(
        self,
        live: &mut Live<'h, L, D, C>,
        end: SessionEnd,
    ) -> HeldNext
        requires told { HasLeft live.old self end }
        ensures leads { HeldLeads live.old live.new 1 result }
    {
        let Leaving { hold, .. } = self;
        hold.report(None, &mut live.reports);
        HeldNext::End(end_with(end))
    }
}
