//! The runs that workers are tested by, over sessions that end by themselves.
//!
//! Standard input has the runs, and the stored output what each must write: how many sessions were reported with each claim, how many workers
//! tell as many sessions as their kits were handed devices, and what went wrong. A line `# TITLE` is copied. Any other line has seven numbers:
//! the workers, the clients and the publishers that come to each, the limit, how often a listener isn't ready before it fails, how often
//! `PairGate` looks, and how many polls a session waits for. The gate shows that workers run at the same time: it holds the session with
//! claim 0 until that with claim 1 has ended. A line `alone WAITS` runs one session as a future. It stands on `gp_workers`, and on the
//! devices in memory of `gp_outside`.
#![tactic(auto)]

mod alone;
mod brief;
mod run;

use alone::alone;
use run::{Run, play};
use std::alloc::{AllocError, AllocGlobal, Global};
use std::io;
use std::random::RandomSource;
use std::sync::Wait;
use std::thread::Threads;

/// The number of a word.
fn number(word: &str) -> u64 {
    word.parse::<u64>().unwrap_or(0)
}

/// A small number of a word.
fn small(word: &str) -> u8 {
    word.parse::<u8>().unwrap_or(0)
}

/// The run of a line, if it is one.
fn run_of(alloc: Global, line: &str) -> Result<Option<Run>, AllocError> {
    let words = line.split(' ').collect::<Vec<&str>>(alloc)?;
    let [workers, clients, publishers, limit, idle, turns, waits] = words.as_slice() else {
        return Ok(None);
    };
    Ok(Some(Run {
        workers: small(workers),
        clients: small(clients),
        publishers: small(publishers),
        limit: u32::from(small(limit)),
        idle: number(idle),
        turns: number(turns),
        waits: number(waits),
    }))
}

/// What a line gives.
fn given<R: Threads + Wait + Sync + Print + RandomSource + AllocGlobal>(
    rt: &R,
    line: &str,
) -> io::Result<()> {
    if line.starts_with("# ") {
        return println!(rt; "{line}");
    }
    if let Some(waits) = line.strip_prefix("alone ") {
        let end = alone(rt, rt.alloc(), number(waits))?;
        return println!(rt; "{end:?}");
    }
    match run_of(rt.alloc(), line)? {
        Some(run) => {
            let text = play(rt, rt.alloc(), &run)?;
            println!(rt; "{text}")
        }
        None => println!(rt; "not a run: {line}"),
    }
}

fn main(rt: HostRuntime) -> io::Result<()> {
    for line in rt.lines(rt.alloc()) {
        given(&rt, line?.as_str())?;
    }
    Ok(())
}
