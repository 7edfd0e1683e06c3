//! The session of a client, over the devices of a kit.
use gp_hub::{Polled, Session};
use gp_outside::{Kit, Listen};
use gp_session_http::{Finish, HttpSession};
use gp_workers::{Finished, Over};

/// The session of a client. Its output has its devices beside its outcome.
#[derive(Drop)]
pub struct Serving<'h, K: Kit> {
    pub(crate) session: Option<HttpSession<'h, <K::Listen as Listen>::Link, K::Dial, K::Clock>>,
}

impl<'h, K: Kit> Session for Serving<'h, K> {
    type Output = Over<K>;

    ghost use Rattle.std.specs.Prelude.{IfSome};
    ghost use Rattle.gp_maker.specs.Meanings.{GivesClient, HasEndedClient};

    ghost ended = { λ s. HasEndedClient s.session };

    ghost may_give = { λ s over. IfSome s.session (λ session. GivesClient K.Listen.Link.tells K.Dial.tells K.Clock.tells session over) };

    fn poll(&mut self) -> Polled<Over<K>> {
        let Some(session) = &mut self.session else {
            unreachable!()
        };
        let finish = match session.poll() {
            Polled::Pending => return Polled::Pending,
            Polled::Ready(finish) => finish,
        };
        let Some(session) = self.session.take() else {
            unreachable!()
        };
        match (finish, session.parts()) {
            (Finish::Done(outcome), Some((link, dial, clock))) => Polled::Ready(Finished {
                outcome,
                link,
                others: Some((dial, clock)),
            }),
            _ => unreachable!(),
        }
    }
}
