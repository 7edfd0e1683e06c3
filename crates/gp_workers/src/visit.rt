//! A session of a client or of a publisher.
ghost use Rattle.gp_workers.specs.Visits.{ended_by, gives_by};

use crate::maker::{Maker, Over};
use gp_hub::{Polled, Session};

/// One of two kinds of session.
#[derive(Drop)]
pub enum Visit<C, P> {
    /// That of a client.
    Client(C),
    /// That of a publisher.
    Publisher(P),
}

/// A session that a maker made.
#[derive(Drop)]
pub struct Visiting<M: Maker> {
    pub visit: Visit<M::Client, M::Publisher>,
}

impl<M: Maker> Session for Visiting<M> {
    type Output = Over<M::Kit>;

    ghost ended = { λ v. ended_by M.Client.ended M.Publisher.ended v.visit };

    ghost may_give = { λ v. gives_by M.Client.may_give M.Publisher.may_give v.visit };

    fn poll(&mut self) -> Polled<Over<M::Kit>> {
        match &mut self.visit {
            Visit::Client(session) => session.poll(),
            Visit::Publisher(session) => session.poll(),
        }
    }
}
