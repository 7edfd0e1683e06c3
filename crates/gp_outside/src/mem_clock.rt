ghost use Rattle.std.specs.Prelude.{◌≡◌};
ghost use Rattle.gp_outside.specs.Clocks.{IsMoment};
ghost use Rattle.gp_outside.specs.MemClocks.{after_now, told_clock};

use crate::clock::Clock;
use gp_plain::Queue;
use std::marker::Model;

/// The answers of a clock, in order.
pub type Times = Queue<u64>;

/// A clock in memory. It gives its times in turn and then repeats the last, or 0 where there is none.
#[derive(Drop)]
pub struct MemClock {
    times: Times,
    last: u64,
    calls: u64,
}

impl Model for MemClock {
    ghost use Rattle.gp_outside.specs.MemClocks.{ClockState};

    ghost Value = { ClockState };

    ghost view = { λ c. record { times = c.times; last = c.last; calls = c.calls } };
}

impl MemClock {
    /// A clock that gives these times. It takes no memory.
    pub fn new(times: Times) -> MemClock
        ensures { result ≡ record { times = times; last = 0; calls = 0 } }
    {
        MemClock {
            times,
            last: 0,
            calls: 0,
        }
    }
}

impl Clock for MemClock {
    ghost tells = { told_clock };

    fn now(&mut self) -> u64
        ensures moment { IsMoment (told_clock self.old) (told_clock self.new) result }
        ensures after { self.new ≡ after_now self.old }
    {
        if let Some(time) = self.times.take_first() {
            self.last = time;
        }
        self.calls = self.calls.saturating_add(1);
        self.last
    }
}
