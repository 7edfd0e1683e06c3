//! What every stage is lent.
ghost use Rattle.std.specs.Prelude.{◌≡◌};
ghost use Rattle.gp_session_http.specs.Trace.{new_live};
ghost use Rattle.gp_session_http.specs.Moves.{Leads, MayRefuse};

use crate::cause::Cause;
use crate::refusing::Refusing;
use crate::stage::{Ended, Next, Stage};
use gp_hub::{Hub, HubPass, SessionEnd};
use gp_outside::{Clock, Dial, Link};
use gp_plain::{Body, HoldReports, Signer};
use gp_routes::Routes;
use gp_session::{Line, Seat, Watch, Wire};
use std::alloc::Global;
use std::marker::Model;
use std::snapshot::Snapshot;

/// The ends of a session, and what it is made with.
#[derive(Drop)]
pub(crate) struct Live<'h, L: Link, D: Dial, C: Clock> {
    pub(crate) alloc: Global,
    pub(crate) wire: Wire<L>,
    pub(crate) line: Line<D>,
    pub(crate) watch: Watch<C>,
    pub(crate) seat: Seat<'h>,
    pub(crate) routes: &'h Routes,
    pub(crate) signer: &'h Signer,
    pub(crate) tag: Body,
    /// What became of the holds that were let go.
    pub(crate) reports: HoldReports,
}

impl<'h, L: Link, D: Dial, C: Clock> Model for Live<'h, L, D, C> {
    ghost use Rattle.gp_session_http.specs.Views.{LiveView};

    ghost Value = { LiveView };

    ghost view = { λ l. record { wire = l.wire; line = l.line; watch = l.watch; seat = l.seat; charter = record { rules = l.routes.now; signer = l.signer.now; tag = l.tag }; reports = l.reports } };
}

impl<'h, L: Link, D: Dial, C: Clock> Live<'h, L, D, C> {
    /// Refuses the request, which has this method.
    pub(crate) fn refuse(&mut self, cause: Cause, method: &Body) -> Next
        requires { MayRefuse self.old cause method.now }
        ensures { Leads self.old self.new 2 result }
    {
        let refusal = cause.refusal();
        let said = Snapshot::of(method);
        let body = Body::empty(self.alloc);
        match self
            .wire
            .put(refusal.head(), body, refusal.body(method.bytes()))
        {
            Ok(()) => Next::Go(Stage::Refusing(Refusing {
                cause,
                method: said,
            })),
            Err(_) => Next::End(Ended {
                end: SessionEnd::NoMemory,
                why: cause.why(),
            }),
        }
    }
}
