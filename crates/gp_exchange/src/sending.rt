ghost use Rattle.std.specs.Prelude.{◌≡◌};
ghost use Rattle.gp_exchange.specs.Moves.{IsKept, Leads};
ghost use Rattle.gp_exchange.specs.declared.place.Place.TheVariants as place;

use crate::answer::{ExchangeFault, Last, Progress};
use crate::heading::Heading;
use crate::place::{Asked, Next, Over, Place};
use gp_outside::{Dial, Put};
use gp_plain::Body;
use std::alloc::Global;

/// Expects the dialer to take the rest of the request.
#[derive(Drop)]
pub(crate) struct Sending {
    /// All of the request.
    pub request: Body,
    /// How many bytes of it were sent.
    pub done: usize,
}

impl Sending {
    /// Writes until all is sent, lets the request go, and reads the head of the response.
    pub(crate) fn advance<D: Dial>(mut self, alloc: Global, asked: &Asked, dial: &mut D) -> Next
        requires { IsKept asked.now (place.Sending self) }
        ensures { Leads asked.now (place.Sending self) (D.tells dial.old) (D.tells dial.new) result }
    {
        while self.done < self.request.len() {
            match dial.write(&self.request.bytes()[self.done..]) {
                Put::Took(count) => self.done += count,
                Put::NotReady => {
                    return Next {
                        place: Place::Sending(self),
                        progress: Progress::NotReady,
                    };
                }
                Put::Failed => {
                    let last = Last::Fault(ExchangeFault::Dial);
                    return Over::before_head(last, false).hang_up(dial);
                }
            }
        }
        drop(self.request);
        Heading::new(alloc).advance(alloc, asked, dial)
    }
}
