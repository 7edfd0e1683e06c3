use crate::shown::{show_lines, show_status};
use gp_outside::{MemFiles, MemOut, Turn, Turns};
use gp_plain::Body;
use gp_replay::{Registry, Status, replay};
use std::alloc::{AllocError, Global};

/// The room of the sink, in bytes.
const ROOM: usize = 2_000_000;

/// One case: the path that is replayed, the file `script`, and what each call on a device does in turn.
///
/// Its lines are `path PATH`, without which it is that of the script; `reads TURN` and `writes TURN`, with a number of bytes, `wait` or
/// `fail`; `only TEXT`, by which no other lines are shown than those that begin with it; and the lines of the script: `| LINE`; `- LINE`
/// without a line feed; `+ N LINE` with N bytes `x` behind it; and `* N LINE`, N times, each `#` in it being the number of the time, from
/// 1, and each `@` the number before.
#[derive(Drop)]
pub struct Case {
    alloc: Global,
    path: String,
    only: String,
    script: String,
    reads: Vec<Turn>,
    writes: Vec<Turn>,
}

fn turn(word: &str) -> Turn {
    match word {
        "wait" => Turn::Wait,
        "fail" => Turn::Fail,
        count => Turn::Bytes(count.parse::<u32>().unwrap_or(0)),
    }
}

/// A number and the rest of a line.
fn counted(line: &str) -> Option<(usize, &str)> {
    let (count, rest) = line.split_once(' ')?;
    match count.parse::<usize>() {
        Ok(count) => Some((count, rest)),
        Err(_) => None,
    }
}

/// Adds a line with the number of a time in the place of `#`, and the number before in that of `@`.
fn push_numbered(text: &mut String, line: &str, number: usize) -> Result<(), AllocError> {
    for letter in line.chars() {
        match letter {
            '#' => write!(text, "{number}")?,
            '@' => write!(text, "{}", number.saturating_sub(1))?,
            other => text.push(other)?,
        }
    }
    text.push('\n')
}

/// Adds a line of a script for each number from 1 on.
fn push_times(text: &mut String, line: &str, count: usize) -> Result<(), AllocError> {
    for turn in 0..count {
        push_numbered(text, line, turn.saturating_add(1))?;
    }
    Ok(())
}

/// Adds a line of a script with so many bytes behind it.
fn push_long(text: &mut String, line: &str, count: usize) -> Result<(), AllocError> {
    text.push_str(line)?;
    for _turn in 0..count {
        text.push('x')?;
    }
    text.push('\n')
}

/// The file `script`, and what each read of it does in turn.
fn files(alloc: Global, script: String, reads: Vec<Turn>) -> Result<MemFiles, AllocError> {
    let path = Body::new(alloc, b"script")?;
    let content = Body::from_vec(script.into_bytes());
    Ok(MemFiles::new(alloc, path, content, Turns::from_vec(reads)))
}

/// Replays the script at a path, and adds the status and the lines that were written.
fn push_replay(
    alloc: Global,
    text: &mut String,
    path: &str,
    only: &str,
    files: &mut MemFiles,
    out: &mut MemOut,
) -> Result<(), AllocError> {
    show_status(text, status_of(alloc, path, files, out))?;
    show_lines(text, only, out.written())
}

/// The status of a replay.
fn status_of(alloc: Global, path: &str, files: &mut MemFiles, out: &mut MemOut) -> Status {
    let mut registry = Registry::new(alloc);
    let status = replay(alloc, path, &mut registry, files, out);
    drop(registry);
    status
}

impl Case {
    /// The path of the script, an empty file, and devices that are always ready.
    pub fn new(alloc: Global) -> Result<Case, AllocError> {
        Ok(Case {
            alloc,
            path: String::from_str(alloc, "script")?,
            only: String::new(alloc),
            script: String::new(alloc),
            reads: Vec::new(alloc),
            writes: Vec::new(alloc),
        })
    }

    /// Reads one line of the case. It says whether it is one.
    pub fn add(&mut self, line: &str) -> Result<bool, AllocError> {
        let (kind, rest) = line.split_once(' ').unwrap_or((line, ""));
        match (kind, counted(rest)) {
            ("|", _) => push_long(&mut self.script, rest, 0)?,
            ("-", _) => self.script.push_str(rest)?,
            ("*", Some((count, line))) => push_times(&mut self.script, line, count)?,
            ("+", Some((count, line))) => push_long(&mut self.script, line, count)?,
            ("path", _) => self.path = String::from_str(self.alloc, rest)?,
            ("only", _) => self.only = String::from_str(self.alloc, rest)?,
            ("reads", _) => self.reads.push(turn(rest))?,
            ("writes", _) => self.writes.push(turn(rest))?,
            _ => return Ok(false),
        }
        Ok(true)
    }

    /// Adds the status that the case ends with, and the lines that were written.
    pub fn play(self, text: &mut String) -> Result<(), AllocError> {
        let alloc = self.alloc;
        let mut files = files(alloc, self.script, self.reads)?;
        let mut out = MemOut::new(alloc, ROOM, Turns::from_vec(self.writes))?;
        let (path, only) = (self.path.as_str(), self.only.as_str());
        let played = push_replay(alloc, text, path, only, &mut files, &mut out);
        drop(files);
        drop(out);
        played
    }
}
