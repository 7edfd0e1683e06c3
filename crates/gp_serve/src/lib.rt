//! The server's parts that know no session: the words and options of its command line, its routes file, its workers over the
//! kits of a world, and the report of its sessions.
//!
//! [`run_workers`] runs workers over any maker of sessions. `specs/Words.antt` and `specs/Options.antt` have the grammar of the
//! command line, `specs/RoutesRead.antt` what is read of a routes file, `specs/ReportTexts.antt` the report, and
//! `specs/Serves.antt` what a server does by its status. The program doesn't call it yet. It stands on `gp_workers`, on the
//! statuses of `gp_replay`, and on the texts of `gp_script`.
#![tactic(auto)]

mod options;
mod report;
mod routes;
mod server;
mod words;

pub use options::{Asked, Options};
pub use report::report_of;
pub use routes::routes_at;
pub use server::run_workers;
pub use words::{Command, command_in};
