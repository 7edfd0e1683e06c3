//! Shared text of fields: blanks and trimming, words in either case, parts between commas, values by a field's name,
//! and the fields that go on from one connection to the next (RFC 9110, sections 5 and 7.6.1).
//!
//! `specs/Words.antt` has texts and words, `specs/Lists.antt` lists of fields and lists with commas, and
//! `specs/Hops.antt` which fields go on. Nothing takes memory.
#![tactic(auto)]

mod hops;
mod list;
mod word;

pub use hops::goes_on;
pub use list::{first_value, has_field, has_part, is_named, lists_word};
pub use word::{is_blank, is_same, trimmed};
