//! The talk that asks an origin for a page.
ghost use Rattle.std.specs.Prelude.{◌≡◌, IfSome, List};
ghost use Rattle.gp_exchange.specs.Answers.{Marked};
ghost use Rattle.gp_exchange.specs.declared.place.Place.TheVariants as place;
ghost use Rattle.gp_outside.specs.Dials.{DialLater, DialTells, IsIdle};
ghost use Rattle.gp_outside.specs.Talks.{Talk};
ghost use Rattle.gp_recover.specs.Views.{IsLive, answer_at, is_over, place_of};
ghost use Rattle.gp_recover.specs.Standing.{Stands, Talked};
ghost use Rattle.gp_recover.specs.Moves.{Gives, Goes, IsKept, StaysOver};

use crate::recovered::Recovered;
use crate::stage::{Next, Sought, Stage};
use crate::unbegun::Unbegun;
use gp_outside::Dial;
use gp_plain::{Address, Body, ItemId, Name};
use std::alloc::Global;
use std::marker::Model;
use std::mem;
use std::snapshot::Snapshot;

/// One talk that asks an origin for the page behind an id of a channel. Contracts see what is sought, and what the recovery
/// waits for.
#[derive(Drop)]
pub struct Recovery {
    alloc: Global,
    sought: Sought,
    stage: Stage,
}

impl Model for Recovery {
    ghost use Rattle.gp_recover.specs.Views.{RecoveryView};
    ghost use Rattle.gp_recover.specs.Moves.{IsKept};

    ghost Value = { RecoveryView };

    ghost view = { λ r. record { sought = r.sought; stage = r.stage } };

    ghost invariant = { λ r. IsKept r.sought r.stage };
}

impl Recovery {
    /// A recovery that sends this request, whose method is GET, and reads the answer as the page on a channel behind an id. It
    /// takes no memory.
    pub fn new(alloc: Global, to: Address, request: Body, channel: Name, from: ItemId) -> Recovery
        ensures sought { result.sought ≡ record { to = to; request = request; channel = channel; from = from } }
        ensures kept { IsKept result.sought result.stage }
        ensures live { IsLive result.stage }
        ensures place { place_of result ≡ place.Unbegun request }
        ensures unbegun { (dial : DialTells) → IsIdle dial → IfSome dial.talks (λ talks. Stands talks.over result dial) }
    {
        let sought = Sought {
            to: Snapshot::of(&to),
            request: Snapshot::of(&request),
            channel: Snapshot::of(&channel),
            from: Snapshot::of(&from),
        };
        let unbegun = Unbegun {
            to,
            request,
            channel,
            from,
        };
        Recovery {
            alloc,
            sought,
            stage: Stage::Unbegun(unbegun),
        }
    }

    /// Whether the recovery is over: its talk is hung up, where one began, and the dialer isn't called any more.
    pub fn is_over(&self) -> bool
        ensures { result ≡ is_over self.now.stage }
    {
        matches!(self.stage, Stage::Over(_) | Stage::Lost)
    }

    /// Goes on with the talk, until the page is whole, the recovery has failed, or the dialer isn't ready.
    ///
    /// Of several faults the one that the fewest bytes of the answer decide is told, and the talk is hung up as soon as one is: a
    /// fault of the head comes before any byte of the body is waited for. After a page, a fault or want of memory the dialer isn't
    /// called. A fault and want of memory are then answered again, and want of memory is answered in place of a page that was
    /// given.
    pub fn poll<D: Dial>(&mut self, dial: &mut D) -> Recovered
        ensures sought { self.new.sought ≡ self.old.sought }
        ensures kept { IsKept self.new.sought self.new.stage }
        ensures later { DialLater (D.tells dial.old) (D.tells dial.new) }
        ensures answers { IsLive self.old.stage → result ≡ answer_at self.new.stage }
        ensures gives { IsLive self.old.stage → Gives (place_of self.old) (place_of self.new) (D.tells dial.old) (D.tells dial.new) result }
        ensures marked { Marked (place_of self.old) (place_of self.new) (D.tells dial.old) (D.tells dial.new) }
        ensures over { StaysOver self.old self.new (D.tells dial.old) (D.tells dial.new) result }
        ensures stands { (before : List Talk) → Stands before self.old (D.tells dial.old) → Stands before self.new (D.tells dial.new) }
        ensures talked { (before : List Talk) → Stands before self.old (D.tells dial.old) → Talked before self.new (D.tells dial.new) }
    {
        let stage = mem::replace(&mut self.stage, Stage::Lost);
        let next = advance(self.alloc, &self.sought, stage, dial);
        self.stage = next.stage;
        next.recovered
    }
}

/// Goes on from a stage.
fn advance<D: Dial>(alloc: Global, sought: &Sought, stage: Stage, dial: &mut D) -> Next
    requires { IsKept sought.now stage }
    ensures { Goes sought.now stage (D.tells dial.old) (D.tells dial.new) result }
{
    match stage {
        Stage::Unbegun(unbegun) => unbegun.advance(alloc, sought, dial),
        Stage::Heading(heading) => heading.advance(alloc, sought, dial),
        Stage::Reading(reading) => reading.advance(sought, dial),
        Stage::Over(over) => {
            let recovered = over.last.again();
            Next {
                stage: Stage::Over(over),
                recovered,
            }
        }
        Stage::Lost => Next {
            stage: Stage::Lost,
            recovered: Recovered::NoMemory,
        },
    }
}
