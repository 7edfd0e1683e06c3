//! What an owner asks of a socket.
ghost use Rattle.std.specs.Prelude.{◌≡◌};
ghost use Rattle.gp_registry.specs.Changes.{event_of};

use gp_plain::{Event, Message, Name};

/// What an owner asks of a socket.
#[derive(Drop)]
pub enum Change {
    /// A message is sent to it.
    Push(Message),
    /// It joins a channel.
    Join(Name),
    /// It leaves a channel.
    Leave(Name),
}

impl Change {
    /// The event that it came from, which names this hold.
    pub fn into_event(self, hold: u64) -> Event
        ensures { result ≡ event_of hold self }
    {
        match self {
            Change::Push(message) => Event::Push { hold, message },
            Change::Join(channel) => Event::Join { hold, channel },
            Change::Leave(channel) => Event::Leave { hold, channel },
        }
    }
}
