//! What the JSON forms share (RFC 8259): the bytes of an object, its members in their forms, a text member with its
//! twin of base64, and the response that some members give.
//!
//! `specs/Texts.antt` says which bytes are an object, `specs/Members.antt` what a member says, `specs/Payloads.antt`
//! the text and its twin, `specs/Fields.antt` header fields, and `specs/Responses.antt` the response with its faults
//! in order. It stands on gp_plain, `serde_json`, `base64` and `http_header`, and has no handle.
#![tactic(auto)]

mod fault;
mod field;
mod members;
mod object;
mod payload;
mod response;

pub use fault::{MemberFault, TextFault, wrong_form};
pub use members::{
    Whole, array_member, member, needed_text, object_member, text_member, whole_member,
};
pub use object::read_object;
pub use payload::{Payload, payload_member};
pub use response::read_response;
