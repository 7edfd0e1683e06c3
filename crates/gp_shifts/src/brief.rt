//! A session that ends by itself, and what makes it.
ghost use Rattle.std.specs.Prelude.{◌≡◌, None};
ghost use Rattle.gp_shifts.specs.Briefs.{BeganWith, GivesRest, Says};

use gp_hub::{Hub, HubPass, Outcome, Polled, Session, SessionEnd, Why};
use gp_outside::{MemKit, MemLink};
use gp_plain::HoldReports;
use gp_workers::{Finished, Maker, Over};
use std::alloc::{AllocError, Global};

/// What a session leaves.
#[derive(Drop)]
pub struct Rest {
    holds: HoldReports,
    pass: HubPass,
    link: MemLink,
}

/// A session that waits for so many polls, and then says that it sent 200.
#[derive(Drop)]
pub struct Brief {
    waits: u64,
    rest: Option<Rest>,
}

impl Session for Brief {
    type Output = Over<MemKit>;

    ghost ended = { λ b. b.rest ≡ None };

    ghost may_give = { λ b over. GivesRest b.rest over };

    fn poll(&mut self) -> Polled<Over<MemKit>> {
        if self.waits > 0 {
            self.waits -= 1;
            return Polled::Pending;
        }
        let Some(rest) = self.rest.take() else {
            unreachable!()
        };
        let Rest { holds, pass, link } = rest;
        Polled::Ready(Finished {
            outcome: Outcome {
                end: SessionEnd::Sent(200),
                why: Why::Nothing,
                published: 0,
                holds,
                pass,
            },
            link,
            others: None,
        })
    }
}

/// What makes such sessions.
#[derive(Drop)]
pub struct Quick<'h> {
    pub alloc: Global,
    pub hub: &'h Hub,
    pub waits: u64,
}

impl<'h> Quick<'h> {
    fn brief(&self, pass: HubPass, link: MemLink) -> Brief
        ensures { BeganWith pass result.rest }
    {
        Brief {
            waits: self.waits,
            rest: Some(Rest {
                holds: HoldReports::new(self.alloc),
                pass,
                link,
            }),
        }
    }
}

impl<'h> Maker for Quick<'h> {
    type Kit = MemKit;

    type Client = Brief;

    type Publisher = Brief;

    ghost turn = { λ q. q.hub.now };

    ghost means = { λ q. Says };

    fn client(
        &self,
        _kit: &mut MemKit,
        pass: HubPass,
        _claim: u32,
        link: MemLink,
    ) -> Result<Brief, (HubPass, AllocError)> {
        Ok(self.brief(pass, link))
    }

    fn publisher(
        &self,
        _kit: &mut MemKit,
        pass: HubPass,
        link: MemLink,
    ) -> Result<Brief, (HubPass, AllocError)> {
        Ok(self.brief(pass, link))
    }
}
