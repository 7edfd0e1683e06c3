//! The texts of the core: an event as a line of a script, and replies, logs and reports as lines.
//!
//! A line is words parted by one space. An event has one spelling, and only that is read. Contracts cite the
//! definitions of `specs`: `line_of` for events, and `reply_text`, `piece_text`, `end_text` and `report_text`.
//! It stands on `gp_plain`, and escapes bytes by `percent_encoding`.
#![tactic(auto)]

mod events;
mod fault;
mod line;
mod read;
mod texts;
mod words;

pub use events::write_line;
pub use fault::LineFault;
pub use read::read_line;
pub use texts::{
    add_end, add_hold, add_piece, add_reply, add_report, cause_word, write_end, write_hold,
    write_piece, write_reply, write_report,
};
