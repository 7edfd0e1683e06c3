ghost use Rattle.std.specs.Prelude.{◌≡◌, [], IfOk, List, ℕ, None, Some, false, true};
ghost use Rattle.gp_exchange.specs.Views.{AskedView};
ghost use Rattle.gp_exchange.specs.Hearing.{HearsBody, ReadsOn};
ghost use Rattle.gp_exchange.specs.Moves.{Leads};
ghost use Rattle.gp_exchange.specs.Ends.{Ends, IsBodyEnd, Reads, last_of};
ghost use Rattle.gp_exchange.specs.declared.place.Place.TheVariants as place;
ghost use Rattle.gp_outside.specs.Dials.{DialLater};

use crate::answer::{ExchangeFault, Last, Progress};
use crate::heads::{Came, READ};
use crate::place::{Next, Over, Place};
use gp_body::{BodyReader, FedAllFault};
use gp_outside::{Dial, Got};
use gp_plain::{Body, Response};
use std::alloc::{AllocError, Global};
use std::snapshot::Snapshot;

/// Expects the rest of the body.
#[derive(Drop)]
pub(crate) struct Reading {
    /// The head that was given, for contracts alone.
    pub head: Snapshot<Response>,
    /// How far the body was read.
    pub reader: BodyReader,
    /// The content that came with the head, and wasn't given yet.
    pub part: Body,
}

impl Reading {
    /// Gives what came with the head, or reads until there is a part to give.
    pub(crate) fn advance<D: Dial>(self, alloc: Global, dial: &mut D) -> Next
        ensures { (asked : AskedView) → Leads asked (place.Reading self) (D.tells dial.old) (D.tells dial.new) result }
    {
        if self.part.len() > 0 {
            return Next {
                place: Place::Reading(Reading {
                    head: self.head,
                    reader: self.reader,
                    part: Body::empty(alloc),
                }),
                progress: Progress::Part(self.part),
            };
        }
        self.receive(alloc, dial)
    }
}

impl Reading {
    /// Reads until there is a part to give, or the body has ended.
    fn receive<D: Dial>(mut self, alloc: Global, dial: &mut D) -> Next
        requires { self.part ≡ [] }
        ensures { (asked : AskedView) → Leads asked (place.Reading self) (D.tells dial.old) (D.tells dial.new) result }
    {
        loop {
            if let Some(last) = self.last() {
                return self.over(last).hang_up(dial);
            }
            let mut part = Vec::new(alloc);
            match read_body(&mut self.reader, dial, &mut part) {
                Came::Bytes => {
                    let part = Body::from_vec(part);
                    if part.len() > 0 {
                        return Next {
                            place: Place::Reading(self),
                            progress: Progress::Part(part),
                        };
                    }
                }
                Came::NotReady => {
                    return Next {
                        place: Place::Reading(self),
                        progress: Progress::NotReady,
                    };
                }
                Came::End => return self.finish().hang_up(dial),
                Came::Failed => return self.over(Last::Fault(ExchangeFault::Dial)).hang_up(dial),
                Came::NoMemory => return self.over(Last::NoMemory).hang_up(dial),
            }
        }
    }

    /// The end of the body, or why it is refused.
    fn last(&self) -> Option<Last>
        ensures { result ≡ last_of self.now.reader }
    {
        if let Some(fault) = self.reader.refusal() {
            return Some(Last::Fault(ExchangeFault::Body(fault)));
        }
        if self.reader.is_end() {
            return Some(Last::End);
        }
        None
    }

    /// The end, and the input hasn't ended.
    fn over(self, last: Last) -> Over
        ensures { result ≡ record { last = last; ended = false; head = Some self.head } }
    {
        Over {
            last,
            ended: false,
            head: Some(self.head),
        }
    }

    /// The end of the input.
    fn finish(mut self) -> Over
        ensures last { IsBodyEnd result.last }
        ensures head { result.head ≡ Some self.head }
        ensures ended { result.ended ≡ true }
        ensures ends { (asked : AskedView) (content received : List ℕ) → Reads asked self.head.value self.reader content received → Ends asked result content received }
    {
        let last = match self.reader.finish() {
            Ok(()) => Last::End,
            Err(fault) => Last::Fault(ExchangeFault::Body(fault)),
        };
        Over {
            last,
            ended: true,
            head: Some(self.head),
        }
    }
}

/// Reads once, and adds the content of what came to a part. The array of a read stands in this frame alone.
#[inline(never)]
fn read_body<D: Dial>(reader: &mut BodyReader, dial: &mut D, part: &mut Vec<u8>) -> Came
    ensures later { DialLater (D.tells dial.old) (D.tells dial.new) }
    ensures heard { HearsBody (D.tells dial.old) (D.tells dial.new) reader.old reader.new part.old.items part.new.items result }
{
    let mut buffer = [0; READ];
    match dial.read(&mut buffer) {
        Got::Took(count) => match feed(reader, &buffer[..count], part) {
            Ok(()) => Came::Bytes,
            Err(_) => Came::NoMemory,
        },
        Got::NotReady => Came::NotReady,
        Got::End => Came::End,
        Got::Failed => Came::Failed,
    }
}

/// Reads bytes of a body, up to its end or a refusal, and adds their content to a part.
pub(crate) fn feed(
    reader: &mut BodyReader,
    bytes: &[u8],
    part: &mut Vec<u8>,
) -> Result<(), AllocError>
    ensures { IfOk result (λ _. ReadsOn reader.old reader.new part.old.items part.new.items bytes.now) }
{
    match reader.feed_all(bytes, part) {
        Ok(_) => Ok(()),
        Err(FedAllFault::Body(_)) => Ok(()),
        Err(FedAllFault::NoMemory) => Err(AllocError),
    }
}
