//! The rows that a replay is tested by: cases of scripts and of devices in memory, each run alone.
//!
//! Standard input has the cases, and the stored output what each of them must write, which was worked out by hand from
//! the rules of docs/PROTOCOL.md. A line `# TITLE` begins a case; `case.rt` has its other lines. The words of `push_named`
//! stand for calls that no script makes. So a new row is two pieces of text,
//! and there is nothing to prove of it. It stands on `gp_replay`, and on the devices in memory of `gp_outside`.
#![tactic(auto)]

mod case;
mod lines;
mod owners;
mod passes;
mod plain;
mod shown;
mod sockets;
mod texts;

use case::Case;
use std::alloc::{AllocError, Global};
use std::io;

/// Adds what a group of calls that no script makes gives, by its name. It says whether there is such a group.
fn push_named(alloc: Global, text: &mut String, name: &str) -> Result<bool, AllocError> {
    match name {
        "texts" => texts::texts(alloc, text)?,
        "owners" => owners::owners(alloc, text)?,
        "passes" => passes::passes(alloc, text)?,
        "own-calls" => passes::own_calls(alloc, text)?,
        "names" => plain::names(alloc, text)?,
        "copies" => plain::copies(alloc, text)?,
        "lists" => plain::lists(alloc, text)?,
        "tallies" => plain::tallies(alloc, text)?,
        _ => return Ok(false),
    }
    Ok(true)
}

/// Adds what a case of these lines gives.
fn push_case(alloc: Global, text: &mut String, lines: &str) -> Result<(), AllocError> {
    let mut case = Case::new(alloc)?;
    for line in lines.lines() {
        if !case.add(line)? {
            writeln!(text, "not a line of a case: {line}")?;
        }
    }
    case.play(text)
}

/// The title of a case, and what it gives.
fn played(alloc: Global, case: &str) -> Result<String, AllocError> {
    let (title, lines) = case.split_once('\n').unwrap_or((case, ""));
    let mut text = format!(in alloc; "# {}\n", title.trim_start_matches("# "))?;
    if !push_named(alloc, &mut text, lines.trim_end())? {
        push_case(alloc, &mut text, lines)?;
    }
    Ok(text)
}

fn main(rt: HostRuntime) -> io::Result<()> {
    let input = io::read_to_string(rt.alloc(), rt.reader())?;
    for case in input.as_str().split("\n# ") {
        print!(rt; "{}", played(rt.alloc(), case)?)?;
    }
    Ok(())
}
