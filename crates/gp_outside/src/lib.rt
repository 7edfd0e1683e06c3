//! What lies outside of the program, as traits, and fakes of it in memory: files and a sink, a client's link, a dialer
//! of origins, a clock, a listener, and the kit of devices that a worker has.
//!
//! Each device counts its faults, waits and ends, and a call may answer that it failed, waits or ended only where that
//! count rose. What a device holds is told in contracts where it can be known, as in memory, and isn't where it can't,
//! as of a real file. A world lends its devices, one at a time. It stands on `gp_plain`, and has no handle.
#![tactic(auto)]

mod clock;
mod crossing;
mod device;
mod dial;
mod file;
mod gate;
mod kit;
mod link;
mod listen;
mod mem_clock;
mod mem_dial;
mod mem_kit;
mod mem_link;
mod mem_listen;
mod send;
mod sink;
mod turn;
mod world;

pub use clock::Clock;
pub use device::{FileRead, Files, KitMade, Out, World, Written};
pub use dial::{Connected, Dial};
pub use file::MemFiles;
pub use gate::{FreeGate, FreeIdle, PairGate};
pub use kit::{Gate, Handed, Idle, Kit};
pub use link::{Got, Link, Put};
pub use listen::{Accepted, Listen};
pub use mem_clock::{MemClock, Times};
pub use mem_dial::{Answers, MemDial};
pub use mem_kit::{Clocks, Dials, Ended, MemKit};
pub use mem_link::MemLink;
pub use mem_listen::{Links, MemListen};
pub use send::write_all;
pub use sink::MemOut;
pub use turn::{Turn, Turns};
pub use world::{Kits, MemWorld};
