//! GRIP instructions in the fields of an origin's response: the hold, its channels with their previous ids, its
//! timeout, the status that the client gets, and the next link; and the field that tells an origin the last item.
//!
//! What a head asks for is defined by its fields, in the order in which a fault is looked for: `specs/Heads.antt` has
//! the whole, over `specs/Asked.antt` (the channels), `specs/Holds.antt` (hold, count, timeout and status) and
//! `specs/Links.antt` (the list of links, byte by byte; RFC 8288, section 3). Two definitions serve who acts on an
//! instruction: `specs/Spec.antt` (what the request is held open for) and `specs/Page.antt` (a page of a recovery).
//! It stands on gp_plain, and takes the grammar of URIs from `http_uri`.
#![tactic(auto)]

mod channels;
mod fault;
mod field;
mod head;
mod hold;
mod instruct;
mod last;
mod link;
mod number;
mod part;
mod scan;
mod span;
mod spec;
mod target;
mod text;

pub use channels::Channels;
pub use fault::InstructFault;
pub use head::{read_headers, read_next};
pub use hold::{DEFAULT_TIMEOUT, check_channels};
pub use instruct::{Instruct, Mode, Sub, Subs};
pub use last::write_last;
pub use link::read_link;
pub use spec::spec_law;
