use gp_plain::{Event, Piece, Reply};
use gp_replay::Status;
use gp_script::{write_line, write_piece, write_reply};
use std::alloc::{AllocError, Global};

/// A line of more bytes is shown by its first ones and its length.
const LONG: usize = 120;

/// Adds the status by its words, or `done`, as a line.
pub fn show_status(text: &mut String, status: Status) -> Result<(), AllocError> {
    let exit = status.exit();
    let words = status.words();
    match status {
        Status::Done => text.push_str("done\n"),
        Status::Usage(number) => writeln!(text, "{exit} {words} {number}"),
        Status::BadLine(number) => writeln!(text, "{exit} {words} {number}"),
        _ => writeln!(text, "{exit} {words}"),
    }
}

/// Adds bytes, each as one letter.
pub fn push_bytes(text: &mut String, bytes: &[u8]) -> Result<(), AllocError> {
    for byte in bytes {
        text.push(char::from(*byte))?;
    }
    Ok(())
}

/// Adds the line of a reply.
fn push_reply(alloc: Global, text: &mut String, reply: &Reply) -> Result<(), AllocError> {
    push_bytes(text, write_reply(alloc, reply)?.bytes())
}

/// Adds the line of a reply, and drops the reply. The drop is a call, since one at the end of a block is proved anew in each function.
pub fn add_reply(alloc: Global, text: &mut String, reply: Reply) -> Result<(), AllocError> {
    let pushed = push_reply(alloc, text, &reply);
    drop(reply);
    pushed
}

/// Adds the line of a piece.
fn push_piece(alloc: Global, text: &mut String, piece: &Piece) -> Result<(), AllocError> {
    push_bytes(text, write_piece(alloc, piece)?.bytes())
}

/// Adds the line of a piece, and drops the piece.
pub fn add_piece(alloc: Global, text: &mut String, piece: Piece) -> Result<(), AllocError> {
    let pushed = push_piece(alloc, text, &piece);
    drop(piece);
    pushed
}

/// Adds the line of an event, where it has one.
fn push_event(alloc: Global, text: &mut String, event: &Event) -> Result<(), AllocError> {
    if let Some(line) = write_line(alloc, event)? {
        push_bytes(text, line.bytes())?;
    }
    text.push('\n')
}

/// Adds the line of an event, where it has one, and drops the event.
pub fn add_event(alloc: Global, text: &mut String, event: Event) -> Result<(), AllocError> {
    let pushed = push_event(alloc, text, &event);
    drop(event);
    pushed
}

/// Adds one line, with the number of times where it came more than once.
fn push_line(text: &mut String, line: &[u8], times: usize) -> Result<(), AllocError> {
    push_bytes(text, &line[..line.len().min(LONG)])?;
    if line.len() > LONG {
        write!(text, ".. ({} bytes)", line.len())?;
    }
    if times > 1 {
        write!(text, " ({times} times)")?;
    }
    text.push('\n')
}

/// Adds the lines of what was written that begin in one way. Equal lines that follow one another are shown once.
pub fn show_lines(text: &mut String, only: &str, written: &[u8]) -> Result<(), AllocError> {
    let mut last: Option<&[u8]> = None;
    let mut times: usize = 0;
    for line in written.split(|byte| *byte == b'\n') {
        if !line.starts_with(only.as_bytes()) {
            continue;
        }
        match last {
            Some(same) if same == line => times = times.saturating_add(1),
            Some(other) => {
                push_line(text, other, times)?;
                last = Some(line);
                times = 1;
            }
            None => {
                last = Some(line);
                times = 1;
            }
        }
    }
    match last {
        Some(rest) if !rest.is_empty() => push_line(text, rest, times),
        _ => Ok(()),
    }
}
