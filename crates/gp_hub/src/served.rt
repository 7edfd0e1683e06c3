//! The registry as a value under a turn.
ghost use Rattle.std.specs.Prelude.{◌≡◌, true, refl};
ghost use Rattle.gp_plain.specs.History.{reply};
ghost use Rattle.gp_plain.specs.Standing.{StandsFor};
ghost use Rattle.gp_plain.specs.Fit.{fits};
ghost use Rattle.gp_plain.specs.Refusals.{NeedsNoMemory};
ghost use Rattle.gp_hub.specs.Passes.{entry_of, who_of};

use gp_plain::{Entry, Event, Reply};
use gp_registry::Registry;
use gp_turn::Kept;
use std::alloc::AllocError;

/// A registry that stands for the history of the events that it was asked.
#[derive(Drop)]
pub struct Served {
    pub(crate) registry: Registry,
}

impl Kept for Served {
    type Ask = Event;

    type Answer = Reply;

    type Entry = Entry;

    ghost stands = { λ served entries. StandsFor served.registry entries };

    ghost entry = { entry_of };

    ghost number = { who_of };

    ghost answers = { λ before entry answer. answer ≡ reply before entry.who entry.event };

    ghost may_serve = { λ event. fits event ≡ true };

    ghost always_serves = { NeedsNoMemory };

    fn serve(&mut self, who: u64, event: Event) -> Result<Reply, (Event, AllocError)> {
        self.registry.step(who, event)
    }

    ghost numbered = { λ who event. refl };
}
