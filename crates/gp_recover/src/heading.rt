//! A recovery that expects the head of the answer.
ghost use Rattle.std.specs.Prelude.{[]};
ghost use Rattle.gp_recover.specs.Moves.{IsHeaded, IsKept, Leads};
ghost use Rattle.gp_recover.specs.declared.stage.Stage.TheVariants as stage;

use crate::page::PageFault;
use crate::reader::PageReader;
use crate::reading::Reading;
use crate::recovered::Recovered;
use crate::stage::{Next, Sought, Stage, fail, lose, poll, refuse};
use gp_exchange::{Exchange, Progress};
use gp_outside::Dial;
use gp_plain::{ItemId, Name, Response};
use std::alloc::Global;

/// Expects the head of the answer to a request on a channel behind an id.
#[derive(Drop)]
pub(crate) struct Heading {
    pub(crate) exchange: Exchange,
    pub(crate) channel: Name,
    pub(crate) from: ItemId,
}

impl Heading {
    /// Sends the request and reads until the head is there, and then goes on with the content.
    pub(crate) fn advance<D: Dial>(mut self, alloc: Global, sought: &Sought, dial: &mut D) -> Next
        requires { IsKept sought.now (stage.Heading self) }
        ensures { Leads sought.now self.exchange.place [] (D.tells dial.old) (D.tells dial.new) result }
    {
        match poll(&mut self.exchange, dial) {
            Progress::Head(head) => self.begin(alloc, sought, head, dial),
            Progress::NotReady => Next {
                stage: Stage::Heading(self),
                recovered: Recovered::NotReady,
            },
            Progress::Fault(fault) => fail(&self.exchange, PageFault::Exchange(fault)),
            Progress::NoMemory => lose(&self.exchange),
            Progress::Part(_) | Progress::End => unreachable!(),
        }
    }

    /// Reads the content of an answer with this head, unless the head refuses the page.
    fn begin<D: Dial>(self, alloc: Global, sought: &Sought, head: Response, dial: &mut D) -> Next
        requires { IsHeaded sought.now self head }
        ensures { Leads sought.now self.exchange.place [] (D.tells dial.old) (D.tells dial.new) result }
    {
        let Heading {
            exchange,
            channel,
            from,
        } = self;
        match PageReader::new(alloc, head, channel, from) {
            Ok(reader) => Reading { exchange, reader }.advance(sought, dial),
            Err(unread) => refuse(&exchange, unread, dial),
        }
    }
}
