//! The program's calls: `run` on the words of a command line, `replay` of a script, and `serve` over the routes of a file.
//!
//! `specs/Runs.antt` says what a run does by its status, and `specs/Servings.antt` what a server does. It stands on `gp_replay`, on
//! the server's parts of `gp_serve`, on the maker of sessions of `gp_maker`, and on a world that it is lent.
#![tactic(auto)]

mod command;
mod serving;

pub use command::run;
pub use gp_replay::{Registry, Status, replay};
pub use gp_serve::Options;
pub use serving::serve;
