use gp_outside::{Connected, Dial, Got, MemDial, Put};
use gp_plain::Address;

/// The most talks that are counted.
const MOST_TALKS: usize = 10;

/// A dialer in memory that counts its calls, and knows whether it is in a talk.
#[derive(Drop)]
pub struct WatchedDial {
    dial: MemDial,
    calls: u64,
    in_talk: bool,
}

impl WatchedDial {
    /// A dialer that wasn't called.
    pub fn new(dial: MemDial) -> WatchedDial {
        WatchedDial {
            dial,
            calls: 0,
            in_talk: false,
        }
    }

    /// How often it was called.
    pub fn calls(&self) -> u64 {
        self.calls
    }

    /// Whether its last talk goes on.
    pub fn in_talk(&self) -> bool {
        self.in_talk
    }

    /// All the bytes that were sent in a talk, by its number from 0, where there was that talk.
    pub fn sent(&self, talk: usize) -> Option<&[u8]> {
        self.dial.sent(talk)
    }

    /// How many talks it tells.
    pub fn talks(&self) -> usize {
        for talk in 0..MOST_TALKS {
            if self.sent(talk).is_none() {
                return talk;
            }
        }
        MOST_TALKS
    }
}

impl Dial for WatchedDial {
    ghost use Rattle.gp_outside.specs.MemDials.{told_dial};

    ghost tells = { λ watched. told_dial watched.dial };

    fn connect(&mut self, to: &Address) -> Connected {
        self.calls = self.calls.saturating_add(1);
        let connected = self.dial.connect(to);
        self.in_talk = connected != Connected::Failed;
        connected
    }

    fn read(&mut self, into: &mut [u8]) -> Got {
        self.calls = self.calls.saturating_add(1);
        self.dial.read(into)
    }

    fn write(&mut self, from: &[u8]) -> Put {
        self.calls = self.calls.saturating_add(1);
        self.dial.write(from)
    }

    fn hang_up(&mut self) {
        self.calls = self.calls.saturating_add(1);
        self.in_talk = false;
        self.dial.hang_up();
    }
}
