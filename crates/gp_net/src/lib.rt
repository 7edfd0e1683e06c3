//! The devices of the system: files, a sink over a writer, a client's link, a listener and a dialer over sockets that
//! don't block, the clock, an idle that waits until a socket is ready, and the world that lends and makes them.
//!
//! Each is proved against its trait of `gp_outside`. It tells no bytes, since what a socket carries isn't known to a
//! contract, and counts its faults, waits and ends. A read or a write of a socket that isn't known to be ready makes no
//! call of the system. It stands on `gp_outside` and `mio`.
#![tactic(auto)]

mod bells;
mod clock;
mod crossing;
mod dial;
mod files;
mod idle;
mod kit;
mod line;
mod link;
mod listen;
mod names;
mod out;
mod ports;
mod ready;
mod socket;
mod system;
#[cfg(test)]
mod tests;

pub use clock::NetClock;
pub use dial::NetDial;
pub use files::NetFiles;
pub use idle::NetIdle;
pub use kit::NetKit;
pub use link::NetLink;
pub use listen::NetListen;
pub use out::NetOut;
pub use ports::Ports;
pub use ready::Sockets;
pub use system::NetWorld;
