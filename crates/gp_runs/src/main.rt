//! The rows that a whole run of the program is tested by: the words of a command line, over a world in memory.
//!
//! Standard input has the cases, and the stored output what each of them must write, which was worked out by hand from the rules of
//! docs/PROTOCOL.md. A line `# TITLE` begins a case, and `case.rt` has its other lines. So a new row is two pieces of text. It stands on
//! `gp_proxy`, and on the devices in memory of `gp_outside`.
#![tactic(auto)]

mod case;
mod world;

use case::Case;
use std::alloc::{AllocError, AllocGlobal};
use std::io;
use std::sync::Wait;
use std::thread::Threads;

/// Adds what a case of these lines gives.
fn push_case<R: Threads + Wait + Sync + AllocGlobal>(
    rt: &R,
    text: &mut String,
    lines: &str,
) -> Result<(), AllocError> {
    let mut case = Case::new(rt.alloc());
    for line in lines.lines() {
        if !case.add(line)? {
            writeln!(text, "not a line of a case: {line}")?;
        }
    }
    case.play(rt, text)
}

/// The title of a case, and what it gives.
fn played<R: Threads + Wait + Sync + AllocGlobal>(
    rt: &R,
    case: &str,
) -> Result<String, AllocError> {
    let (title, lines) = case.split_once('\n').unwrap_or((case, ""));
    let mut text = format!(in rt.alloc(); "# {}\n", title.trim_start_matches("# "))?;
    push_case(rt, &mut text, lines)?;
    Ok(text)
}

fn main(rt: HostRuntime) -> io::Result<()> {
    let input = io::read_to_string(rt.alloc(), rt.reader())?;
    for case in input.as_str().split("\n# ") {
        print!(rt; "{}", played(&rt, case)?)?;
    }
    Ok(())
}
