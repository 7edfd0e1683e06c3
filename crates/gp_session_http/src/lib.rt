//! A session with a client of HTTP: one request is read, asked of the origin that its route names, and the response is passed on; or
//! the response asks for a hold, and the session streams what it gives, or waits for one answer. A stream that missed items asks the origin
//! for them.
//!
//! An [`HttpSession`] goes through stages. Each stage is a struct in a file of its own, named for what it expects, and owns
//! only what it still needs; each move of a stage is one method.
//!
//! ```text
//! ReadingHead -> ReadingBody -> Asking -> Passing -> Finishing -> the end
//!       \____________\            |  \-> Failing -> the end
//!                     \           \-> Gathering -> Giving -> the end
//!                      \-> Refusing         |  \-> Attaching -> Streaming -> Closing -> the end
//!                                           |       \              \-> Leaving -> the end
//!                                           |        \-> Declining -> the end
//!                                           \-> Beginning -> Waiting -> Answering -> the end
//!                                                   \          |  \-> Departing -> the end
//!                                                    \         \-> Asking, again
//!                                                     \-> Denying -> the end
//! ```
//!
//! `specs/Routing.antt` says which requests are forwarded and where, `specs/Asking.antt` what is asked of the origin and which answers
//! are refused, `specs/Passing.antt` how a response is passed on, and `specs/Wishes.antt`, `specs/Grants.antt`, `specs/Posings.antt` and
//! `specs/Givings.antt` what an answer asks for whose body is gathered. `specs/Turns.antt` has the turns of a request that is repeated.
//! `specs/Trace.antt` has the rows that hold after every move without a hold: what the bytes received are, what was said in the talks with
//! the origin, and what was sent. `specs/Heard.antt`, `specs/Holding.antt` and `specs/LongPolls.antt` have those since a hold was asked
//! for, and `specs/Headlines.antt` what a client is sent of its holds. `specs/Polls.antt` says what a poll answers, and why. It stands
//! on `gp_session`, `gp_session_hold`, `gp_session_recover`, `gp_session_wait`, `gp_intake`, `gp_routes`, `gp_exchange`, `gp_answer` and
//! `gp_hub`, and has no handle.
#![tactic(auto)]

mod answering;
mod asked;
mod asking;
mod attaching;
mod beginning;
mod cause;
mod closing;
mod declining;
mod denying;
mod departing;
mod failing;
mod finish;
mod finishing;
mod gathering;
mod giving;
mod grant;
mod held;
mod leaving;
mod live;
mod passed;
mod passing;
mod poll;
mod reading_body;
mod reading_head;
mod refusing;
mod session;
mod source;
mod stage;
mod streaming;
mod verdict;
mod waiting;

pub use finish::{Finish, Handover};
pub use session::HttpSession;
