//! A session with a publisher: one request `POST /publish` whose items go to the hub, and its answer.
//!
//! A [`PublishSession`] goes through stages. Each stage is a struct in a file of its own, named for what it expects, and owns
//! only what it still needs; each move of a stage is one method.
//!
//! ```text
//! ReadingHead -> ReadingBody -> Publishing -> Answering -> the end
//!       \____________\-> Refusing -> the end
//! ```
//!
//! `specs/Routing.antt` says which requests are served and what each is answered. `specs/Trace.antt` has the rows that hold after
//! every move: what the bytes received are, what the session published, and what it sent. `specs/Polls.antt` says what a poll
//! answers, and why. `specs/Completeness.antt` says that a request that is accepted is answered, unless something disturbs the
//! session. It stands on `gp_session`, `gp_intake`, `gp_one_request`, `gp_items`, `gp_answer` and `gp_hub`, and has no handle.
#![tactic(auto)]

mod answering;
mod cause;
mod live;
mod publishing;
mod reading_body;
mod reading_head;
mod refusing;
mod session;
mod stage;

pub use session::PublishSession;
