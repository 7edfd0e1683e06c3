ghost use Rattle.std.specs.Prelude.{◌≡◌, ◌==◌, ◌++◌, [], IfSome, List, ℕ};
ghost use Rattle.gp_exchange.specs.Answers.{Gives, Marked, head_after, head_of, rank};
ghost use Rattle.gp_exchange.specs.Standing.{Stands, Talked, part_of};
ghost use Rattle.gp_exchange.specs.Moves.{IsKept, Leads, StaysOver};
ghost use Rattle.gp_exchange.specs.declared.place.Place.TheVariants as place;
ghost use Rattle.gp_outside.specs.Dials.{DialLater, DialTells, IsIdle};
ghost use Rattle.gp_outside.specs.Talks.{Talk};

use crate::answer::{ExchangeFault, Last, Progress};
use crate::place::{Asked, Next, Over, Place};
use crate::sending::Sending;
use gp_outside::{Connected, Dial};
use gp_plain::{Address, Body};
use std::alloc::Global;
use std::marker::Model;
use std::mem;
use std::snapshot::Snapshot;

/// One talk with an origin. Contracts see what is asked, and what the exchange waits for.
#[derive(Drop)]
pub struct Exchange {
    alloc: Global,
    asked: Asked,
    place: Place,
}

impl Model for Exchange {
    ghost use Rattle.gp_exchange.specs.Views.{ExchangeView};
    ghost use Rattle.gp_exchange.specs.Moves.{IsKept};

    ghost Value = { ExchangeView };

    ghost view = { λ x. record { asked = x.asked; place = x.place } };

    ghost invariant = { λ x. IsKept x.asked x.place };
}

impl Exchange {
    /// An exchange of this request for a response. `method` is the request's, and `limit` is the most bytes of content that
    /// the body may have. It takes no memory.
    pub fn new(alloc: Global, to: Address, request: Body, method: Body, limit: u64) -> Exchange
        ensures asked { result.asked ≡ record { to = to; request = request; method = method; limit = limit } }
        ensures place { result.place ≡ place.Unbegun request }
        ensures unbegun { (dial : DialTells) → IsIdle dial → IfSome dial.talks (λ talks. Stands talks.over [] result dial) }
    {
        let asked = Asked {
            to,
            request: Snapshot::of(&request),
            method,
            limit,
        };
        Exchange {
            alloc,
            asked,
            place: Place::Unbegun(request),
        }
    }

    /// Whether the talk is over: each poll gives the same answer from now on.
    pub fn is_over(&self) -> bool
        ensures { result ≡ (rank self.now.place == 5) }
    {
        matches!(self.place, Place::Over(_))
    }

    /// Goes on with the talk: connects, then writes until all of the request is sent, and then reads, until there is something to
    /// give or the dialer isn't ready.
    ///
    /// The head comes first, then the body's content in parts of at least one byte, then the end. What came before a fault is
    /// given first, so what is given doesn't depend on the cuts of the talk. After the end, a fault or want of memory the talk
    /// is hung up, the dialer isn't called, and the answer is the same again.
    pub fn poll<D: Dial>(&mut self, dial: &mut D) -> Progress
        ensures asked { self.new.asked ≡ self.old.asked }
        ensures later { DialLater (D.tells dial.old) (D.tells dial.new) }
        ensures gives { Gives self.old.place self.new.place (D.tells dial.old) (D.tells dial.new) result }
        ensures marked { Marked self.old.place self.new.place (D.tells dial.old) (D.tells dial.new) }
        ensures heads { head_of self.new.place ≡ head_after (head_of self.old.place) result }
        ensures over { StaysOver self.old.place self.new.place (D.tells dial.old) (D.tells dial.new) result }
        ensures stands { (before : List Talk) (given : List ℕ) → Stands before given self.old (D.tells dial.old) → Stands before (given ++ part_of result) self.new (D.tells dial.new) }
        ensures talked { (before : List Talk) (given : List ℕ) → Stands before given self.old (D.tells dial.old) → Talked before self.new (D.tells dial.new) }
    {
        let over = Place::Over(Over::before_head(Last::NoMemory, false));
        let place = mem::replace(&mut self.place, over);
        let next = advance(self.alloc, &self.asked, place, dial);
        self.place = next.place;
        next.progress
    }
}

/// Goes on from a place.
fn advance<D: Dial>(alloc: Global, asked: &Asked, place: Place, dial: &mut D) -> Next
    requires { IsKept asked.now place }
    ensures { Leads asked.now place (D.tells dial.old) (D.tells dial.new) result }
{
    match place {
        Place::Unbegun(request) => connect(alloc, asked, request, dial),
        Place::Connecting(request) => connect(alloc, asked, request, dial),
        Place::Sending(sending) => sending.advance(alloc, asked, dial),
        Place::Heading(heading) => heading.advance(alloc, asked, dial),
        Place::Reading(reading) => reading.advance(alloc, dial),
        Place::Over(over) => over.again(),
    }
}

/// Begins the talk, or goes on with the connection, and sends the request.
fn connect<D: Dial>(alloc: Global, asked: &Asked, request: Body, dial: &mut D) -> Next
    requires { request ≡ asked.now.request }
    ensures begun { Leads asked.now (place.Unbegun request) (D.tells dial.old) (D.tells dial.new) result }
    ensures connecting { Leads asked.now (place.Connecting request) (D.tells dial.old) (D.tells dial.new) result }
{
    match dial.connect(&asked.to) {
        Connected::Done => Sending { request, done: 0 }.advance(alloc, asked, dial),
        Connected::NotReady => Next {
            place: Place::Connecting(request),
            progress: Progress::NotReady,
        },
        Connected::Failed => Over::before_head(Last::Fault(ExchangeFault::Dial), false).again(),
    }
}
