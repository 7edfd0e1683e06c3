//! The routes file: which origin a request goes to.
//!
//! A line is blank, a comment, or `CONDITION TARGET`. What a file says is defined by its lines and their words:
//! `specs/Words.antt` cuts the lines, `specs/Parts.antt` reads a condition and a target, `specs/Files.antt` a line and
//! a file with its faults, and `specs/Picks.antt` says which line a request gets.
#![tactic(auto)]

mod crossing;
mod file;
mod part;
mod pick;
mod route;
mod word;

pub use file::read_routes;
pub use route::{Route, RouteFault, RouteKind, Routes};
