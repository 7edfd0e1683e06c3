//! The clock's end of a session.
ghost use Rattle.std.specs.Prelude.{◌≡◌, None};
ghost use Rattle.gp_session.specs.Watches.{MovedWatch, Uses, WatchRow, new_watch};

use gp_outside::Clock;
use std::marker::Model;
use std::snapshot::Snapshot;

/// A clock, and the moment that it gave in this poll.
#[derive(Drop)]
pub struct Watch<C: Clock> {
    clock: C,
    /// The clock as the session began with it, which contracts alone remember.
    start: Snapshot<C>,
    moment: Option<u64>,
}

impl<C: Clock> Model for Watch<C> {
    ghost use Rattle.gp_session.specs.Watches.{WatchView};

    ghost Value = { WatchView };

    ghost view = { λ w. record { start = C.tells w.start.value; clock = C.tells w.clock; moment = w.moment } };
}

impl<C: Clock> Watch<C> {
    /// The end of a session that begins with this clock. It takes no memory.
    pub fn new(clock: C) -> Watch<C>
        ensures { result ≡ new_watch (C.tells clock) }
    {
        Watch {
            start: Snapshot::of(&clock),
            clock,
            moment: None,
        }
    }

    /// Begins a poll, in which no moment was asked for yet.
    pub fn begin(&mut self)
        ensures { self.new ≡ record self.old { moment = None } }
    {
        self.moment = None;
    }

    /// The moment of this poll, in seconds. The clock is asked once a poll.
    pub fn moment(&mut self) -> u64
        ensures uses { Uses self.old self.new result }
        ensures row { WatchRow self.old → WatchRow self.new }
    {
        match self.moment {
            Some(now) => now,
            None => {
                let now = self.clock.now();
                self.moment = Some(now);
                now
            }
        }
    }

    /// The clock as it stands.
    pub fn into_clock(self) -> C
        ensures { C.tells result ≡ self.clock }
    {
        self.clock
    }
}
