//! What every stage is lent.
ghost use Rattle.std.specs.Prelude.{◌≡◌};
ghost use Rattle.gp_session_publish.specs.Trace.{Told, new_live};
ghost use Rattle.gp_session_publish.specs.Moves.{Leads, MayRefuse};

use crate::cause::Cause;
use crate::refusing::Refusing;
use crate::stage::{Ended, Next, Stage};
use gp_hub::{Hub, HubPass, SessionEnd};
use gp_outside::Link;
use gp_plain::Body;
use gp_session::{Seat, Wire};
use std::alloc::Global;
use std::marker::Model;
use std::snapshot::Snapshot;

/// The ends of a session.
#[derive(Drop)]
pub(crate) struct Live<'h, L: Link> {
    pub(crate) alloc: Global,
    pub(crate) wire: Wire<L>,
    pub(crate) seat: Seat<'h>,
}

impl<'h, L: Link> Model for Live<'h, L> {
    ghost use Rattle.gp_session_publish.specs.Views.{LiveView};

    ghost Value = { LiveView };

    ghost view = { λ l. record { wire = l.wire; seat = l.seat } };
}

impl<'h, L: Link> Live<'h, L> {
    /// The ends of a session that begins.
    pub(crate) fn new(alloc: Global, hub: &'h Hub, pass: HubPass, link: L) -> Live<'h, L>
        requires { pass.turn ≡ hub.now }
        ensures { result ≡ new_live (L.tells link) pass }
    {
        Live {
            alloc,
            wire: Wire::new(alloc, link),
            seat: Seat::new(hub, pass),
        }
    }

    /// Refuses the request, which has this method.
    pub(crate) fn refuse(&mut self, cause: Cause, method: &Body) -> Next
        requires { MayRefuse self.old cause method.now }
        ensures { Leads self.old self.new 2 result }
    {
        let refusal = cause.refusal();
        let said = Snapshot::of(method);
        let body = Body::empty(self.alloc);
        match self
            .wire
            .put(refusal.head(), body, refusal.body(method.bytes()))
        {
            Ok(()) => Next::Go(Stage::Refusing(Refusing {
                cause,
                method: said,
            })),
            Err(_) => Next::End(Ended {
                end: SessionEnd::NoMemory,
                why: cause.why(),
                published: 0,
            }),
        }
    }
}
