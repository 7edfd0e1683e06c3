//! The session of a publisher, over the devices of a kit.
use gp_hub::{Polled, Session};
use gp_outside::{Kit, Listen};
use gp_session_publish::PublishSession;
use gp_workers::{Finished, Over};

/// The session of a publisher. Its output has its link beside its outcome.
#[derive(Drop)]
pub struct Publishing<'h, K: Kit> {
    pub(crate) session: Option<PublishSession<'h, <K::Listen as Listen>::Link>>,
}

impl<'h, K: Kit> Session for Publishing<'h, K> {
    type Output = Over<K>;

    ghost use Rattle.std.specs.Prelude.{IfSome};
    ghost use Rattle.gp_maker.specs.Meanings.{GivesPublisher, HasEndedPublisher};

    ghost ended = { λ s. HasEndedPublisher s.session };

    ghost may_give = { λ s over. IfSome s.session (λ session. GivesPublisher K.Listen.Link.tells session over) };

    fn poll(&mut self) -> Polled<Over<K>> {
        let Some(mut session) = self.session.take() else {
            unreachable!()
        };
        match session.poll() {
            Polled::Pending => {
                self.session = Some(session);
                Polled::Pending
            }
            Polled::Ready(outcome) => match session.parts() {
                Some(link) => Polled::Ready(Finished {
                    outcome,
                    link,
                    others: None,
                }),
                None => unreachable!(),
            },
        }
    }
}
