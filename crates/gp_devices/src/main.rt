//! The rows that the devices in memory and the outbox are tested by: calls, and what each of them does.
//!
//! Each line of standard input is a kind of device, what it is made of, and calls on it; the stored output repeats the
//! line and has the answers behind `=`, worked out by hand from the turns. `words.rt` says how turns and bytes are
//! written. So a new row is two lines, and there is little to prove of it. It stands on `gp_outside` and `gp_outbox`.
#![tactic(auto)]

mod files;
mod kits;
mod links;
mod words;

use std::alloc::{AllocError, Global};
use std::io;

/// Adds what the calls of a row do. It says whether there is such a kind.
fn push_answer(
    alloc: Global,
    text: &mut String,
    kind: &str,
    words: &[&str],
) -> Result<bool, AllocError> {
    match kind {
        "sink" => files::sink(alloc, text, words)?,
        "file" => files::reads(alloc, text, words)?,
        "world" => files::world(alloc, text, words)?,
        "link" => links::link(alloc, text, words)?,
        "dial" => links::dial(alloc, text, words)?,
        "outbox" => links::outbox(alloc, text, words)?,
        "clock" => kits::clock(alloc, text, words)?,
        "then" => kits::then(alloc, text, words)?,
        "kit" => kits::rounds(alloc, text, words)?,
        "gate" => kits::gate(alloc, text, words)?,
        _ => return Ok(false),
    }
    Ok(true)
}

/// The line with the answer of a row, or an empty text where the line is no row.
fn answer(alloc: Global, line: &str) -> Result<String, AllocError> {
    let (kind, rest) = line.split_once(' ').unwrap_or((line, ""));
    let words: Vec<&str> = rest.split_whitespace().collect(alloc)?;
    let mut text = String::from_str(alloc, "= ")?;
    if !push_answer(alloc, &mut text, kind, words.as_slice())? {
        text.clear();
    }
    Ok(text)
}

fn main(rt: HostRuntime) -> io::Result<()> {
    for line in rt.lines(rt.alloc()) {
        let line = line?;
        println!(rt; "{line}")?;
        let text = answer(rt.alloc(), line.as_str())?;
        if !text.is_empty() {
            println!(rt; "{}", text.as_str().trim_end())?;
        } else if !line.is_empty() && !line.starts_with("#") {
            println!(rt; "not a kind of row")?;
        }
    }
    Ok(())
}
