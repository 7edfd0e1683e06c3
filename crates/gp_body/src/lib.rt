//! Bodies of HTTP/1.1 messages: how one is framed, its content at any cut, and the heads of chunks (RFC 9112, sections
//! 6 and 7).
//!
//! `specs/Plans.antt` says which plan a head has, and `specs/Bodies.antt` which content a text spells by a plan, on the
//! whole text: a length, chunks, or to the close. A reader's contract speaks of the text that it has taken, by
//! `specs/Wholes.antt`, which stands on the steps of `specs/Steps.antt` and `specs/Readings.antt`. `body_law` is the
//! theorem that those steps read the grammar's bodies and no others, and refuse exactly where it says
//! (`specs/Laws.antt`). `read_pieces` shows that cuts change nothing. Nothing but `read_pieces` takes memory.
#![tactic(auto)]

mod chunk;
mod fed;
mod field;
mod gather;
mod law;
mod pieces;
mod plan;
mod reader;
mod reading;
mod state;

pub use chunk::chunk_head;
pub use fed::{Fed, FedAll, FedAllFault, FedFault};
pub use law::body_law;
pub use pieces::{BodyRead, read_pieces};
pub use plan::{BodyFault, BodyPlan, length_plan};
pub use reader::BodyReader;
