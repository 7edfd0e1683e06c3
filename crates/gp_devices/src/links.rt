use crate::words::{body, bytes, number, push_bytes, turns};
use gp_outbox::Outbox;
use gp_outside::{Answers, Dial, Got, Link, MemDial, MemLink, Turns};
use gp_plain::{Address, Body};
use std::alloc::{AllocError, Global};

/// The slice that reads fill.
const SLICE: usize = 8;

/// Adds what a read gave, and the slice behind it.
fn push_read(text: &mut String, got: Got, into: &[u8]) -> Result<(), AllocError> {
    write!(text, "{got:?} ")?;
    push_bytes(text, into)?;
    text.push(' ')
}

/// Makes one call of a link: `rN`, a read into at most 8 bytes, or `wBYTES`, a write.
fn call_link<L: Link>(text: &mut String, link: &mut L, call: &str) -> Result<(), AllocError> {
    if let Some(most) = call.strip_prefix("r") {
        let mut into = [b'.'; SLICE];
        let most = number(most).max(1).min(SLICE);
        let got = link.read(&mut into[..most]);
        return push_read(text, got, into.as_slice());
    }
    match call.strip_prefix("w") {
        Some(bytes) if !bytes.is_empty() => write!(text, "{:?} ", link.write(bytes.as_bytes())),
        _ => Ok(()),
    }
}

fn made_link(
    alloc: Global,
    input: &str,
    room: usize,
    reads: &str,
    writes: &str,
) -> Result<MemLink, AllocError> {
    let reads = turns(alloc, reads)?;
    let writes = turns(alloc, writes)?;
    MemLink::new(alloc, body(alloc, input)?, room, reads, writes)
}

fn push_calls(text: &mut String, link: &mut MemLink, calls: &[&str]) -> Result<(), AllocError> {
    for call in calls {
        call_link(text, link, call)?;
    }
    push_bytes(text, link.sent())
}

/// `link INPUT ROOM READS WRITES CALL..`: what each call does, and all that was sent.
pub fn link(alloc: Global, text: &mut String, words: &[&str]) -> Result<(), AllocError> {
    let [input, room, reads, writes, calls @ ..] = words else {
        return Ok(());
    };
    let mut link = made_link(alloc, input, number(room), reads, writes)?;
    push_calls(text, &mut link, calls)
}

fn push_connect<D: Dial>(
    alloc: Global,
    text: &mut String,
    dial: &mut D,
    host: &str,
) -> Result<(), AllocError> {
    let host = Body::new(alloc, host.as_bytes())?;
    write!(text, "{:?} ", dial.connect(&Address { host, port: 80 }))
}

/// Makes one call of a dialer: `cHOST`, `rN`, `wBYTES`, or `h`, which hangs up.
fn call_dial<D: Dial>(
    alloc: Global,
    text: &mut String,
    dial: &mut D,
    call: &str,
) -> Result<(), AllocError> {
    if let Some(host) = call.strip_prefix("c") {
        return push_connect(alloc, text, dial, host);
    }
    if let Some(most) = call.strip_prefix("r") {
        let mut into = [b'.'; SLICE];
        let most = number(most).max(1).min(SLICE);
        let got = dial.read(&mut into[..most]);
        return push_read(text, got, into.as_slice());
    }
    match call.strip_prefix("w") {
        Some(bytes) if !bytes.is_empty() => write!(text, "{:?} ", dial.write(bytes.as_bytes())),
        _ => {
            dial.hang_up();
            Ok(())
        }
    }
}

/// The bodies between commas.
fn answers(alloc: Global, word: &str) -> Result<Answers, AllocError> {
    let mut answers = Vec::new(alloc);
    for part in word.split(',') {
        answers.push(body(alloc, part)?)?;
    }
    Ok(Answers::from_vec(answers))
}

fn made_dial(
    alloc: Global,
    origins: &str,
    room: usize,
    connects: &str,
    others: &str,
) -> Result<MemDial, AllocError> {
    let connects = turns(alloc, connects)?;
    let reads = turns(alloc, others)?;
    let writes = turns(alloc, others)?;
    MemDial::new(
        alloc,
        answers(alloc, origins)?,
        room,
        connects,
        reads,
        writes,
    )
}

fn push_talks(
    alloc: Global,
    text: &mut String,
    dial: &mut MemDial,
    calls: &[&str],
) -> Result<(), AllocError> {
    for call in calls {
        call_dial(alloc, text, dial, call)?;
    }
    for talk in 0..3usize {
        match dial.sent(talk) {
            Some(sent) => push_bytes(text, sent)?,
            None => text.push_str("none")?,
        }
        text.push(' ')?;
    }
    Ok(())
}

/// `dial ANSWERS ROOM CONNECTS OTHERS CALL..`: what each call does, and what was sent in the first three talks, where
/// they were.
pub fn dial(alloc: Global, text: &mut String, words: &[&str]) -> Result<(), AllocError> {
    let [origins, room, connects, others, calls @ ..] = words else {
        return Ok(());
    };
    let mut dial = made_dial(alloc, origins, number(room), connects, others)?;
    push_talks(alloc, text, &mut dial, calls)
}

/// Puts a body between brackets.
fn put(outbox: &mut Outbox, body: Body) -> Result<(), AllocError> {
    match outbox.put(b"(", body, b")") {
        Ok(()) => Ok(()),
        Err((_, refused)) => Err(refused),
    }
}

/// Puts a short body, one of some length, and a short one.
fn fill(alloc: Global, outbox: &mut Outbox, long: &str) -> Result<(), AllocError> {
    put(outbox, body(alloc, "one")?)?;
    put(outbox, body(alloc, long)?)?;
    put(outbox, body(alloc, "two")?)
}

fn outbox_link(alloc: Global, writes: &str) -> Result<MemLink, AllocError> {
    let writes = turns(alloc, writes)?;
    MemLink::new(alloc, Body::empty(alloc), 70000, Turns::new(alloc), writes)
}

fn push_flushes(
    text: &mut String,
    outbox: &mut Outbox,
    link: &mut MemLink,
    count: usize,
) -> Result<(), AllocError> {
    for _flush in 0..count {
        write!(text, "{:?} ", outbox.flush(link))?;
    }
    write!(text, "{} ", outbox.waiting())
}

/// Adds what so many flushes of a short body, one of some length and a short one do.
fn push_outbox(
    alloc: Global,
    text: &mut String,
    link: &mut MemLink,
    long: &str,
    count: usize,
) -> Result<(), AllocError> {
    let mut outbox = Outbox::new(alloc);
    fill(alloc, &mut outbox, long)?;
    push_flushes(text, &mut outbox, link, count)
}

/// The bytes that are sent at once.
fn whole(alloc: Global, long: &str) -> Result<Vec<u8>, AllocError> {
    let mut whole = b"(one)(".to_vec(alloc)?;
    whole.extend_from_slice(bytes(alloc, long)?.as_slice())?;
    whole.extend_from_slice(b")(two)")?;
    Ok(whole)
}

/// Adds what was sent, and whether that is all.
fn push_sent(alloc: Global, text: &mut String, sent: &[u8], long: &str) -> Result<(), AllocError> {
    push_bytes(text, sent)?;
    write!(text, " {}", sent == whole(alloc, long)?.as_slice())
}

/// `outbox LENGTH TURNS COUNT`: what so many flushes of a short body, one of that length and a short one do; how many
/// bytes wait behind them; what was sent; and whether that is all.
pub fn outbox(alloc: Global, text: &mut String, words: &[&str]) -> Result<(), AllocError> {
    let [long, writes, count] = words else {
        return Ok(());
    };
    let mut link = outbox_link(alloc, writes)?;
    push_outbox(alloc, text, &mut link, long, number(count))?;
    push_sent(alloc, text, link.sent(), long)
}
