//! One request read off a client's link, whatever pieces its bytes come in (RFC 9112, sections 2, 3 and 6).
//!
//! A [`HeadIntake`] reads up to a head that is served, and the [`BodyIntake`] that it then gives reads up to the whole request.
//! `specs/Served.antt` says which heads are served, `specs/Bodies.antt` what has come of a body, and `specs/Requests.antt` what the
//! bytes received are: the beginning of a request, a whole one and bytes behind it, or one that is refused, and why.
//! Routes and methods are left to the caller. It stands on `gp_outside`, `gp_text`, `gp_head` and `gp_body`, and has no handle.
#![tactic(auto)]

mod body;
mod came;
mod fault;
mod head;
mod reading;
mod served;

pub use body::{BodyIntake, BodyPolled, Whole};
pub use fault::{Refused, RequestFault};
pub use head::{HeadIntake, HeadPolled};
pub use reading::MAX_BODY;
