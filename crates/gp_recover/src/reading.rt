//! A recovery that expects the rest of the answer's content.
ghost use Rattle.gp_recover.specs.Moves.{Adds, Finishes, Gathers, IsKept, Leads};
ghost use Rattle.gp_recover.specs.declared.stage.Stage.TheVariants as stage;

use crate::page::PageFault;
use crate::reader::{PageReader, Unread};
use crate::recovered::{Last, Recovered};
use crate::stage::{Next, Sought, Stage, end, fail, lose, poll, refuse};
use gp_exchange::{Exchange, Progress};
use gp_outside::Dial;
use gp_plain::Body;
use std::snapshot::Snapshot;

/// Expects the rest of the content.
#[derive(Drop)]
pub(crate) struct Reading {
    pub(crate) exchange: Exchange,
    pub(crate) reader: PageReader,
}

/// What a part of the content, or what came in its place, leads to.
#[derive(Drop)]
pub(crate) enum Gathered {
    /// A part has come.
    More(Reading),
    /// No part is waited for any more in this poll.
    Next(Next),
}

impl Reading {
    /// Reads parts, until one has to be waited for, or the page is whole or refused.
    pub(crate) fn advance<D: Dial>(self, sought: &Sought, dial: &mut D) -> Next
        requires { IsKept sought.now (stage.Reading self) }
        ensures { Leads sought.now self.exchange.place self.reader.content (D.tells dial.old) (D.tells dial.new) result }
    {
        let mut reading = self;
        loop {
            match reading.gather(sought, dial) {
                Gathered::More(next) => reading = next,
                Gathered::Next(next) => return next,
            }
        }
    }

    /// Reads one part.
    fn gather<D: Dial>(mut self, sought: &Sought, dial: &mut D) -> Gathered
        requires { IsKept sought.now (stage.Reading self) }
        ensures { Gathers sought.now self.exchange.place self.reader.content (D.tells dial.old) (D.tells dial.new) result }
    {
        match poll(&mut self.exchange, dial) {
            Progress::Part(part) => self.add(part, dial),
            Progress::End => Gathered::Next(self.finish()),
            Progress::NotReady => Gathered::Next(Next {
                stage: Stage::Reading(self),
                recovered: Recovered::NotReady,
            }),
            Progress::Fault(fault) => {
                Gathered::Next(fail(&self.exchange, PageFault::Exchange(fault)))
            }
            Progress::NoMemory => Gathered::Next(lose(&self.exchange)),
            Progress::Head(_) => unreachable!(),
        }
    }

    /// Adds a part, unless it refuses the page.
    fn add<D: Dial>(self, part: Body, dial: &mut D) -> Gathered
        ensures { Adds self part (D.tells dial.old) (D.tells dial.new) result }
    {
        let Reading { exchange, reader } = self;
        match reader.add(part) {
            Ok(reader) => Gathered::More(Reading { exchange, reader }),
            Err(unread) => Gathered::Next(refuse(&exchange, unread, dial)),
        }
    }

    /// The page of the whole content.
    fn finish(self) -> Next
        ensures { Finishes self result }
    {
        match self.reader.finish() {
            Ok(page) => {
                let last = Last::Got(Snapshot::of(&page));
                end(&self.exchange, last, Recovered::Got(page))
            }
            Err(Unread::Refused(fault)) => fail(&self.exchange, fault),
            Err(Unread::NoMemory) => lose(&self.exchange),
        }
    }
}
