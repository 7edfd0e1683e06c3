//! Bytes as one line of text, for the rows of tests.
//!
//! `\r`, `\n`, `\t`, `\0`, `\s` for a space and `\xHH` stand for a byte, and `\` before another byte for that byte. Between `\{N|` and `|}`
//! stands a text that comes N times. It promises nothing by contract, and serves tests alone.
#![tactic(auto)]

mod text;

pub use text::{escaped, push_escaped, unescaped};
