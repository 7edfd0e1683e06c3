//! GRIP instructions in a JSON body, of the content type `application/grip-instruct`: the hold, and the response that
//! the client gets.
//!
//! `specs/Members.antt` says what the members are and which of wrong form is refused first, `specs/Bodies.antt` what
//! they ask for, beside the links of the head, and the faults in order. `specs/Answers.antt` says what an answer asks
//! for in either form, and `specs/Pages.antt` which page of a recovery it is. It stands on gp_instruct (the parts of
//! an instruction) and gp_json (the forms of members).
#![tactic(auto)]

mod answer;
mod body;
mod fault;
mod hold;
mod kind;
mod members;

pub use answer::{Answer, AnswerFault, read_answer};
pub use body::read_body;
pub use fault::JsonFault;
pub use kind::is_instruct;
