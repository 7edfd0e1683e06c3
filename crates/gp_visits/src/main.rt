//! The rows that whole visits of publishers and of clients of HTTP are tested by: what a client sends over a link in memory, what its
//! origin answers, and what a session answers and asks.
//!
//! Standard input has the cases, and the stored output what each of them must write, which was worked out by hand from the rules of
//! docs/PROTOCOL.md. A line `# TITLE` begins a case, and `case.rt` has its other lines. `gp_escapes` says how texts are escaped. So a new row
//! is two pieces of text, and there is nothing to prove of it. It stands on `gp_session_publish` and `gp_session_http`, on the hub, and on
//! the devices in memory of `gp_outside`.
#![tactic(auto)]

mod case;
mod http;
mod shown;
mod visit;

use case::Case;
use std::alloc::{AllocError, Global};
use std::io;

/// Adds what a case of these lines gives.
fn push_case(alloc: Global, text: &mut String, lines: &str) -> Result<(), AllocError> {
    let mut case = Case::new(alloc);
    for line in lines.lines() {
        if !case.add(line)? {
            writeln!(text, "not a line of a case: {line}")?;
        }
    }
    let played = case.play(text);
    drop(case);
    played
}

/// The title of a case, and what it gives.
fn played(alloc: Global, case: &str) -> Result<String, AllocError> {
    let (title, lines) = case.split_once('\n').unwrap_or((case, ""));
    let mut text = format!(in alloc; "# {}\n", title.trim_start_matches("# "))?;
    push_case(alloc, &mut text, lines)?;
    Ok(text)
}

fn main(rt: HostRuntime) -> io::Result<()> {
    let input = io::read_to_string(rt.alloc(), rt.reader())?;
    for case in input.as_str().split("\n# ") {
        print!(rt; "{}", played(rt.alloc(), case)?)?;
    }
    Ok(())
}
