//! Heads of HTTP/1.1 requests and responses, read and written, and request targets cut into their parts
//! (RFC 9112, sections 2 to 5).
//!
//! What a reader answers is defined on the whole text: `specs/Lines.antt` says by lines where a head ends and how
//! many field lines it has, `specs/Heads.antt` which head a text is, `specs/Texts.antt` how a head is written, and
//! `specs/Targets.antt` how a target is cut. The grammar of heads is that of `httparse`, and that of targets is
//! `http_uri`'s. `proofs/GrammarEnds.antt` shows that a head of the grammar ends at its first empty line, and
//! `proofs/ByteClasses.antt` that the classes of bytes of `httparse` and `http_header` are the same.
#![tactic(auto)]

mod law;
mod parse;
mod read;
mod scan;
mod target;
mod write;

pub use law::head_law;
pub use read::{HeadRead, HeadScan, read_request, read_response};
pub use scan::{MAX_FIELDS, MAX_HEAD};
pub use target::{TargetFault, split_target};
pub use write::{
    code_digits, write_field, write_number, write_request, write_response, write_value,
};
