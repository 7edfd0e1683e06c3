use crate::world::{Doors, world};
use gp_escapes::{escaped, unescaped};
use gp_outside::{MemKit, MemWorld, Turn, World};
use gp_proxy::{Registry, Status, run};
use std::alloc::{AllocError, Global};
use std::sync::Wait;
use std::thread::Threads;

/// The workers that a world has kits for, at most.
const WORKERS: usize = 16;

/// The sessions of a worker that are shown, at most.
const SESSIONS: usize = 100;

/// One case: the words of the command line, the file `file`, what each write of the sink does in turn, and what comes to the doors of
/// each worker.
///
/// Its lines are `words WORDS`; `| TEXT`, more of the file; `writes TURN`, with a number of bytes, `wait` or `fail`; `kit`, with which the
/// doors of the next worker begin; and then `client TEXT` and `publisher TEXT`, one that comes and sends this, `answer TEXT`, what the
/// origin answers to the next client that calls one, `stays N`, where each client stays for so many reads behind its request, and `fails`, where
/// the listeners fail as soon as nobody comes anymore.
#[derive(Drop)]
pub struct Case {
    alloc: Global,
    words: Vec<String>,
    file: Vec<u8>,
    writes: Vec<Turn>,
    doors: Vec<Doors>,
}

fn turn(word: &str) -> Turn {
    match word {
        "wait" => Turn::Wait,
        "fail" => Turn::Fail,
        count => Turn::Bytes(count.parse::<u32>().unwrap_or(0)),
    }
}

fn split_words(alloc: Global, line: &str) -> Result<Vec<String>, AllocError> {
    let mut words = Vec::new(alloc);
    for word in line.split_whitespace() {
        words.push(String::from_str(alloc, word)?)?;
    }
    Ok(words)
}

/// Adds the status by its words, or `done`, as a line.
fn push_status(text: &mut String, status: Status) -> Result<(), AllocError> {
    let exit = status.exit();
    let words = status.words();
    match status {
        Status::Done => text.push_str("done\n"),
        Status::Usage(number) => writeln!(text, "{exit} {words} {number}"),
        Status::BadLine(number) => writeln!(text, "{exit} {words} {number}"),
        _ => writeln!(text, "{exit} {words}"),
    }
}

/// Adds a line of a word and of bytes.
fn push_line(alloc: Global, text: &mut String, word: &str, bytes: &[u8]) -> Result<(), AllocError> {
    writeln!(text, "{word} {}", escaped(alloc, bytes)?)
}

/// Adds what was sent in each session of a worker.
fn push_kit(alloc: Global, text: &mut String, kit: &MemKit) -> Result<(), AllocError> {
    for place in 0..SESSIONS {
        match kit.ended(place) {
            Some(ended) => push_line(alloc, text, "sent", ended.link.sent())?,
            None => break,
        }
    }
    Ok(())
}

/// Adds the lines that were written.
fn push_written(alloc: Global, text: &mut String, written: &[u8]) -> Result<(), AllocError> {
    for line in written.split(|byte| *byte == b'\n') {
        if !line.is_empty() {
            push_line(alloc, text, "wrote", line)?;
        }
    }
    Ok(())
}

/// Adds what was sent in the sessions of the kits that were handed back, in order.
fn push_kits(alloc: Global, text: &mut String, world: &MemWorld) -> Result<(), AllocError> {
    for place in 0..WORKERS {
        let Some(kit) = world.ended(place) else {
            break;
        };
        text.push_str("kit\n")?;
        push_kit(alloc, text, kit)?;
    }
    Ok(())
}

/// The status of a run of the words over a world.
fn status_of<R: Threads + Wait + Sync>(
    rt: &R,
    alloc: Global,
    words: &[String],
    world: &mut MemWorld,
) -> Status {
    let mut registry = Registry::new(alloc);
    let status = run(rt, alloc, words, &mut registry, world);
    drop(registry);
    status
}

/// Runs the words over a world, and adds the status, what was written, and what was sent.
fn push_run<R: Threads + Wait + Sync>(
    rt: &R,
    alloc: Global,
    text: &mut String,
    words: &[String],
    world: &mut MemWorld,
) -> Result<(), AllocError> {
    push_status(text, status_of(rt, alloc, words, world))?;
    push_written(alloc, text, world.out().written())?;
    push_kits(alloc, text, world)
}

impl Case {
    /// No words, an empty file, a sink that is always ready, and no kits.
    pub fn new(alloc: Global) -> Case {
        Case {
            alloc,
            words: Vec::new(alloc),
            file: Vec::new(alloc),
            writes: Vec::new(alloc),
            doors: Vec::new(alloc),
        }
    }

    /// Reads a line of the doors that were begun last. It says whether it is one.
    fn add_to_doors(&mut self, kind: &str, rest: &str) -> Result<bool, AllocError> {
        let Some(doors) = self.doors.last_mut() else {
            return Ok(false);
        };
        match kind {
            "fails" => doors.fail(),
            "stays" => doors.stay(rest.parse::<usize>().unwrap_or(0)),
            _ => return doors.add(kind, unescaped(self.alloc, rest)?),
        }
        Ok(true)
    }

    /// Reads one line of the case. It says whether it is one.
    pub fn add(&mut self, line: &str) -> Result<bool, AllocError> {
        let alloc = self.alloc;
        let (kind, rest) = line.split_once(' ').unwrap_or((line, ""));
        match kind {
            "words" => self.words = split_words(alloc, rest)?,
            "|" => self
                .file
                .extend_from_slice(unescaped(alloc, rest)?.as_slice())?,
            "writes" => self.writes.push(turn(rest))?,
            "kit" => self.doors.push(Doors::new(alloc))?,
            _ => return self.add_to_doors(kind, rest),
        }
        Ok(true)
    }

    /// Adds the status that the case ends with, what was written, and what was sent.
    pub fn play<R: Threads + Wait + Sync>(
        self,
        rt: &R,
        text: &mut String,
    ) -> Result<(), AllocError> {
        let alloc = self.alloc;
        let mut world = world(alloc, self.file, self.writes, self.doors.as_slice())?;
        let played = push_run(rt, alloc, text, self.words.as_slice(), &mut world);
        drop(world);
        played
    }
}
