use crate::link::Link;

/// What an accept gave.
#[derive(Drop)]
pub enum Accepted<L> {
    /// The connection of one more client.
    Took(L),
    /// Nobody is there yet.
    NotReady,
    /// A fault came.
    Failed,
}

/// What clients connect to. It counts its faults, and how often nobody was there. No count falls, and each stands
/// still at 2^64 - 1.
pub trait Listen: Drop {
    type Link: Link + Send;

    ghost use Rattle.gp_outside.specs.Listens.{IsAccept, ListenTells};

    ghost tells: { Self → ListenTells };

    /// Takes the next connection. Its link is unused.
    fn accept(&mut self) -> Accepted<Self::Link>
        ensures { IsAccept Self.Link.tells (tells self.old) (tells self.new) result };
}
