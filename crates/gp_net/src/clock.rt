//! The clock of the system.
ghost use Rattle.std.specs.Prelude.{◌≡◌};

use gp_outside::Clock;
use std::marker::Model;
use std::time;
use std::time::{SystemTime, UNIX_EPOCH};

/// The clock of the system, in seconds since 1970 began. Where the system doesn't tell the time it gives its last
/// answer again, and 0 before the first.
#[derive(Drop)]
pub struct NetClock<R: time::Clock + Drop> {
    system: R,
    calls: u64,
    last: u64,
}

impl<R: time::Clock + Drop> Model for NetClock<R> {
    ghost use Rattle.gp_outside.specs.Clocks.{ClockTells};

    ghost Value = { ClockTells };

    ghost view = { λ c. record { calls = c.calls; last = c.last } };
}

impl<R: time::Clock + Drop> NetClock<R> {
    /// A clock that wasn't asked yet.
    pub fn new(system: R) -> NetClock<R>
        ensures { result ≡ record { calls = 0; last = 0 } }
    {
        NetClock {
            system,
            calls: 0,
            last: 0,
        }
    }

    /// The seconds that the system tells.
    fn seconds(&self) -> Option<u64> {
        let now = SystemTime::now(&self.system).ok()?;
        Some(now.duration_since(UNIX_EPOCH).ok()?.as_secs())
    }
}

impl<R: time::Clock + Drop> Clock for NetClock<R> {
    ghost tells = { λ c. c };

    fn now(&mut self) -> u64 {
        if let Some(seconds) = self.seconds() {
            self.last = seconds;
        }
        self.calls = self.calls.saturating_add(1);
        self.last
    }
}
