//! Workers: each accepts connections in a thread of its own, takes a claim for each, drives their sessions over one hub, and keeps its books.
//!
//! `work` runs them. Its contract is `specs/Shifts.antt`: what each worker did, and what became of the claims, the holds and the pass that
//! they shared. `specs/Makers.antt` says what a maker of sessions says of what they give, and `specs/Claims.antt` what the counter of claims
//! does. `specs/Books.antt` has what a worker has: its pass, its claims, its reports, and what its kit was handed back; `specs/Visits.antt`
//! and `Doors.antt` say what each step of its life does to the books, and `specs/Works.antt` what stands at each moment. `specs/Desks.antt`,
//! `Hires.antt` and `Served.antt` say how workers begin and end. Sessions begin and end inside a thread, and only a `Worker` crosses to it
//! and back. It stands on `gp_outside` and `gp_hub`.
#![tactic(auto)]

mod admit;
mod claims;
mod crew;
mod desk;
mod door;
mod drawn;
mod driven;
mod hire;
mod maker;
mod poll;
mod report;
mod serve;
mod staff;
mod visit;
mod worker;

pub use driven::Driven;
pub use maker::{Finished, Maker, Over};
pub use report::{SessionReport, SessionReports, WorkerReport};
pub use staff::work;
