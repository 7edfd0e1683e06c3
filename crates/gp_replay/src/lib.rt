//! The replay of a script, and what a run of the program ends with.
//!
//! A script is read and checked as a whole, its events are stepped on a registry, and the replies and the holds' logs
//! are written. Contracts say that what was written is the output of the script, and that the chain law holds of it.
//! It stands on the registry, on the texts of `gp_script`, and on files and a sink that it is lent.
#![tactic(auto)]

mod lent;
mod log;
mod logs;
mod play;
mod replays;
mod script;
mod status;

pub use gp_registry::Registry;
pub use lent::replay_on;
pub use replays::replay;
pub use status::Status;
