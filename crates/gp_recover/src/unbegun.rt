//! A recovery whose talk hasn't begun.
ghost use Rattle.gp_recover.specs.Moves.{IsKept, Leads};
ghost use Rattle.std.specs.Prelude.{[]};
ghost use Rattle.gp_recover.specs.declared.stage.Stage.TheVariants as stage;
ghost use Rattle.gp_exchange.specs.declared.place.Place.TheVariants as place;

use crate::heading::Heading;
use crate::recovered::Recovered;
use crate::stage::{Next, Sought, Stage};
use gp_exchange::Exchange;
use gp_outside::Dial;
use gp_plain::{Address, Body, ItemId, Name};
use std::alloc::Global;

/// Expects the first poll, to begin the talk.
#[derive(Drop)]
pub(crate) struct Unbegun {
    pub(crate) to: Address,
    pub(crate) request: Body,
    pub(crate) channel: Name,
    pub(crate) from: ItemId,
}

impl Unbegun {
    /// Begins the talk. The method is kept for the framing of the answer (RFC 9112, section 6.3), which may have any length.
    pub(crate) fn advance<D: Dial>(self, alloc: Global, sought: &Sought, dial: &mut D) -> Next
        requires { IsKept sought.now (stage.Unbegun self) }
        ensures { Leads sought.now (place.Unbegun sought.now.request) [] (D.tells dial.old) (D.tells dial.new) result }
    {
        match Body::new(alloc, b"GET") {
            Ok(method) => {
                let exchange = Exchange::new(alloc, self.to, self.request, method, u64::MAX);
                let heading = Heading {
                    exchange,
                    channel: self.channel,
                    from: self.from,
                };
                heading.advance(alloc, sought, dial)
            }
            Err(_) => {
                drop(self);
                Next {
                    stage: Stage::Lost,
                    recovered: Recovered::NoMemory,
                }
            }
        }
    }
}
