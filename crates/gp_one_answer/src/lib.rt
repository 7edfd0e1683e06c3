//! The bytes received in a talk with an origin are read in one way.
//!
//! `specs/Answers.antt` has the law that what is accepted of a talk isn't refused, and that no two answers are read of the same
//! bytes. `specs/Pages.antt` has the same of the pages of a recovery. It has no handle.
#![tactic(auto)]

mod law;

pub use law::{answer_law, page_law};
