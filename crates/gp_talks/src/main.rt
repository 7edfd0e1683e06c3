//! The rows that an exchange with an origin and a recovery of a page are tested by: talks over a dialer in memory, each run alone.
//!
//! Standard input has the cases, and the stored output what each of them must write, which was worked out by hand from the rules of
//! docs/PROTOCOL.md and the standards. A line `# TITLE` begins a case; `case.rt` has its other lines, and `gp_escapes` says how texts are
//! escaped. So a new row is two pieces of text, and there is nothing to prove of it but that a client's request can be forwarded, and that the
//! calls of the dialer can be counted. It stands on `gp_exchange` and `gp_recover`, and on the dialer in memory of `gp_outside`.
#![tactic(auto)]

mod case;
mod client;
mod page;
mod run;
mod shown;
mod watched;

use case::push_case;
use std::alloc::{AllocError, Global};
use std::io;

/// The title of a case, and what its lines give.
fn answer(alloc: Global, case: &str) -> Result<String, AllocError> {
    let (title, lines) = case.split_once('\n').unwrap_or((case, ""));
    let mut text = format!(in alloc; "# {}\n", title.trim_start_matches("# "))?;
    push_case(alloc, &mut text, lines)?;
    Ok(text)
}

fn main(rt: HostRuntime) -> io::Result<()> {
    let input = io::read_to_string(rt.alloc(), rt.reader())?;
    for case in input.as_str().split("\n# ") {
        print!(rt; "{}", answer(rt.alloc(), case)?)?;
    }
    Ok(())
}
