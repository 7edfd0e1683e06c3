ghost use Rattle.std.specs.Prelude.{◌≡◌, ◌≤◌, [], List, ℕ};
ghost use Rattle.gp_exchange.specs.Heads.{HeadsSoFar, is_interim};
ghost use Rattle.gp_exchange.specs.Finds.{Finds, IsFound, IsBegun, IsOpened};
ghost use Rattle.gp_exchange.specs.Moves.{IsKept, Leads};
ghost use Rattle.gp_exchange.specs.declared.place.Place.TheVariants as place;

use crate::answer::{ExchangeFault, Last, Progress};
use crate::heads::{Came, HeadBytes};
use crate::place::{Asked, Next, Over, Place};
use crate::reading::{Reading, feed};
use gp_body::{BodyPlan, BodyReader};
use gp_head::HeadRead;
use gp_outside::Dial;
use gp_plain::{Body, Response};
use std::alloc::Global;
use std::snapshot::Snapshot;

/// The most interim responses before the response.
const MAX_INTERIM: u8 = 8;

/// Expects the head of the response.
#[derive(Drop)]
pub(crate) struct Heading {
    /// The bytes behind the interim responses that came.
    pub bytes: HeadBytes,
    /// How many interim responses came.
    pub interim: u8,
}

/// What the bytes that came lead to.
#[derive(Drop)]
pub(crate) enum Found {
    /// The head isn't there whole.
    More,
    /// The head of the response, and the rest of its body is expected.
    Head(Response, Reading),
    /// The exchange is over.
    Over(Last),
}

/// Whether a response with this code comes before another one (RFC 9110, section 15.2).
fn is_interim(code: u16) -> bool
    ensures { result ≡ is_interim code }
{
    (100..=199).contains(&code)
}

impl Heading {
    /// Nothing of the response has come.
    pub(crate) fn new(alloc: Global) -> Heading
        ensures bytes { result.bytes ≡ [] }
        ensures interim { result.interim ≡ 0 }
    {
        Heading {
            bytes: HeadBytes::new(alloc),
            interim: 0,
        }
    }

    /// Reads the heads that came, and drops the interim ones.
    fn find(&mut self, alloc: Global, asked: &Asked) -> Found
        requires few { self.old.interim ≤ 8 }
        ensures finds { Finds self.old self.new result }
        ensures found { (received : List ℕ) → HeadsSoFar received self.old → IsFound asked.now received self.new result }
    {
        loop {
            match self.bytes.read(alloc) {
                HeadRead::Whole(head, count) => {
                    if !is_interim(head.code) {
                        return begin(alloc, asked, head, self.bytes.from(count));
                    }
                    if head.code == 101 || self.interim == MAX_INTERIM {
                        return Found::Over(Last::Fault(ExchangeFault::Interim));
                    }
                    match self.bytes.cut(alloc, count) {
                        Ok(()) => self.interim += 1,
                        Err(_) => return Found::Over(Last::NoMemory),
                    }
                }
                HeadRead::More => return Found::More,
                HeadRead::Bad => return Found::Over(Last::Fault(ExchangeFault::Head)),
                HeadRead::TooMany => return Found::Over(Last::Fault(ExchangeFault::Head)),
                HeadRead::TooLong => return Found::Over(Last::Fault(ExchangeFault::Head)),
                HeadRead::NoMemory => return Found::Over(Last::NoMemory),
            }
        }
    }

    /// Reads until the head of the response is there whole.
    pub(crate) fn advance<D: Dial>(mut self, alloc: Global, asked: &Asked, dial: &mut D) -> Next
        requires { IsKept asked.now (place.Heading self) }
        ensures { Leads asked.now (place.Heading self) (D.tells dial.old) (D.tells dial.new) result }
    {
        loop {
            match self.bytes.receive(dial) {
                Came::Bytes => match self.find(alloc, asked) {
                    Found::More => {}
                    Found::Head(head, reading) => {
                        return Next {
                            place: Place::Reading(reading),
                            progress: Progress::Head(head),
                        };
                    }
                    Found::Over(last) => return Over::before_head(last, false).hang_up(dial),
                },
                Came::NotReady => {
                    return Next {
                        place: Place::Heading(self),
                        progress: Progress::NotReady,
                    };
                }
                Came::End => {
                    let last = Last::Fault(ExchangeFault::Head);
                    return Over::before_head(last, true).hang_up(dial);
                }
                Came::Failed => {
                    let last = Last::Fault(ExchangeFault::Dial);
                    return Over::before_head(last, false).hang_up(dial);
                }
                Came::NoMemory => return Over::before_head(Last::NoMemory, false).hang_up(dial),
            }
        }
    }
}

/// Plans the body, and reads what came of it with the head.
fn begin(alloc: Global, asked: &Asked, head: Response, rest: &[u8]) -> Found
    ensures { IsBegun asked.now head rest.now result }
{
    match BodyPlan::of_response(&head, asked.method.bytes()) {
        Ok(plan) => begin_body(alloc, BodyReader::new(plan, asked.limit), head, rest),
        Err(fault) => Found::Over(Last::Fault(ExchangeFault::Plan(fault))),
    }
}

/// Reads the first bytes of the body.
fn begin_body(alloc: Global, mut reader: BodyReader, head: Response, rest: &[u8]) -> Found
    ensures { IsOpened reader head rest.now result }
{
    let mut part = Vec::new(alloc);
    match feed(&mut reader, rest, &mut part) {
        Err(_) => Found::Over(Last::NoMemory),
        Ok(()) => {
            let reading = Reading {
                head: Snapshot::of(&head),
                reader,
                part: Body::from_vec(part),
            };
            Found::Head(head, reading)
        }
    }
}
