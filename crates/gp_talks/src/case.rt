use crate::client::forwarded;
use crate::run::Run;
use crate::watched::WatchedDial;
use gp_escapes::{push_escaped, unescaped};
use gp_exchange::Exchange;
use gp_outside::{Answers, MemDial, Turn, Turns};
use gp_plain::{Address, Body, ItemId, Name};
use gp_recover::Recovery;
use std::alloc::{AllocError, Global};

/// The room of the dialer, in bytes.
const ROOM: usize = 10_000;

/// The most polls of a case.
const POLLS: usize = 2_000;

/// The request of a case that says none.
const SHORT: &str = "GET / HTTP/1.1\\r\\n\\r\\n";

/// The kinds of the lines of a case: the request, the origin's answer, and what each call on the dialer does in turn.
///
/// They are `request TEXT`, without which it is a short GET, or `client TEXT`, the head of a client's request that is forwarded; `answer TEXT`,
/// whose texts are joined; `method WORD`, without which it is GET; `limit NUMBER`, without which there is none; `page CHANNEL ID`, with which a
/// recovery asks for the page behind an id of a channel, in place of an exchange; and `connects TURN`, `reads TURN` and `writes TURN`, with a
/// number of bytes, `wait` or `fail`, and behind it how often, which is once where it isn't said.
const KINDS: [&str; 9] = [
    "request", "client", "answer", "method", "limit", "page", "connects", "reads", "writes",
];

/// The first word of a line, and what stands behind its space.
fn cut(line: &str) -> (&str, &str) {
    line.split_once(' ').unwrap_or((line, ""))
}

/// What stands behind a kind in the first of its lines.
fn first<'a>(lines: &'a str, kind: &str) -> Option<&'a str> {
    for line in lines.lines() {
        let (word, rest) = cut(line);
        if word == kind {
            return Some(rest);
        }
    }
    None
}

fn turn(word: &str) -> Turn {
    match word {
        "wait" => Turn::Wait,
        "fail" => Turn::Fail,
        count => Turn::Bytes(count.parse::<u32>().unwrap_or(0)),
    }
}

/// Adds a turn as often as it says.
fn push_turns(turns: &mut Vec<Turn>, text: &str) -> Result<(), AllocError> {
    let (word, count) = text.split_once(' ').unwrap_or((text, "1"));
    for _time in 0..count.parse::<usize>().unwrap_or(0) {
        turns.push(turn(word))?;
    }
    Ok(())
}

/// The turns of the lines of a kind.
fn turns(alloc: Global, lines: &str, kind: &str) -> Result<Turns, AllocError> {
    let mut turns = Vec::new(alloc);
    for line in lines.lines() {
        let (word, rest) = cut(line);
        if word == kind {
            push_turns(&mut turns, rest)?;
        }
    }
    Ok(Turns::from_vec(turns))
}

/// What the origin answers.
fn answer(alloc: Global, lines: &str) -> Result<Body, AllocError> {
    let mut answer = Vec::new(alloc);
    for line in lines.lines() {
        let (word, rest) = cut(line);
        if word == "answer" {
            let part = unescaped(alloc, rest)?;
            answer.extend_from_slice(part.as_slice())?;
        }
    }
    Ok(Body::from_vec(answer))
}

fn answers(alloc: Global, lines: &str) -> Result<Answers, AllocError> {
    let mut answers = Vec::new(alloc);
    answers.push(answer(alloc, lines)?)?;
    Ok(Answers::from_vec(answers))
}

fn dial(alloc: Global, lines: &str) -> Result<MemDial, AllocError> {
    let connects = turns(alloc, lines, "connects")?;
    let reads = turns(alloc, lines, "reads")?;
    let writes = turns(alloc, lines, "writes")?;
    MemDial::new(alloc, answers(alloc, lines)?, ROOM, connects, reads, writes)
}

/// The request that is sent.
fn request(alloc: Global, lines: &str) -> Result<Vec<u8>, AllocError> {
    match first(lines, "client") {
        Some(client) => {
            let client = unescaped(alloc, client)?;
            forwarded(alloc, client.as_slice())
        }
        None => unescaped(alloc, first(lines, "request").unwrap_or(SHORT)),
    }
}

fn origin(alloc: Global) -> Result<Address, AllocError> {
    Ok(Address {
        host: Body::new(alloc, b"origin")?,
        port: 80,
    })
}

fn exchange(alloc: Global, lines: &str) -> Result<Exchange, AllocError> {
    let to = origin(alloc)?;
    let request = Body::from_vec(request(alloc, lines)?);
    let method = Body::from_vec(unescaped(alloc, first(lines, "method").unwrap_or("GET"))?);
    let limit = match first(lines, "limit") {
        Some(limit) => limit.parse::<u64>().unwrap_or(0),
        None => u64::MAX,
    };
    Ok(Exchange::new(alloc, to, request, method, limit))
}

/// The recovery of a page, where a channel and an id are told.
fn recovery(alloc: Global, lines: &str, page: &str) -> Result<Option<Recovery>, AllocError> {
    let (channel, from) = cut(page);
    let (Ok(channel), Ok(from)) = (
        Name::new(alloc, channel.as_bytes()),
        ItemId::new(alloc, from.as_bytes()),
    ) else {
        return Ok(None);
    };
    let to = origin(alloc)?;
    let request = Body::from_vec(request(alloc, lines)?);
    Ok(Some(Recovery::new(alloc, to, request, channel, from)))
}

/// Adds the answers of all polls, the last of them twice.
fn push_polls(text: &mut String, run: &mut Run, dial: &mut WatchedDial) -> Result<(), AllocError> {
    let mut lasts: u8 = 0;
    for _poll in 0..POLLS {
        if run.push_poll(text, dial)? {
            lasts = lasts.saturating_add(1);
        }
        if lasts == 2 {
            break;
        }
    }
    Ok(())
}

/// Adds how many talks there are, and whether the last of them is over.
fn push_talks(text: &mut String, dial: &WatchedDial) -> Result<(), AllocError> {
    let ending = if dial.in_talk() {
        "not hung up"
    } else {
        "hung up"
    };
    writeln!(text, "talks {}, {ending}", dial.talks())
}

fn push_exchange(
    alloc: Global,
    text: &mut String,
    dial: &mut WatchedDial,
    lines: &str,
) -> Result<(), AllocError> {
    let mut run = Run::Exchange(exchange(alloc, lines)?);
    push_polls(text, &mut run, dial)
}

fn push_recovery(
    alloc: Global,
    text: &mut String,
    dial: &mut WatchedDial,
    lines: &str,
    page: &str,
) -> Result<(), AllocError> {
    match recovery(alloc, lines, page)? {
        Some(recovery) => {
            push_polls(text, &mut Run::Recovery(recovery), dial)?;
            push_talks(text, dial)
        }
        None => text.push_str("not a channel and an id\n"),
    }
}

fn push_talk(
    alloc: Global,
    text: &mut String,
    dial: &mut WatchedDial,
    lines: &str,
) -> Result<(), AllocError> {
    match first(lines, "page") {
        Some(page) => push_recovery(alloc, text, dial, lines, page),
        None => push_exchange(alloc, text, dial, lines),
    }
}

fn push_sent(text: &mut String, sent: Option<&[u8]>) -> Result<(), AllocError> {
    match sent {
        Some(bytes) => {
            text.push_str("sent ")?;
            push_escaped(text, bytes)?;
            text.push('\n')
        }
        None => text.push_str("no talk\n"),
    }
}

/// Adds the lines that are of no kind.
fn push_others(text: &mut String, lines: &str) -> Result<(), AllocError> {
    for line in lines.lines() {
        let (word, _) = cut(line);
        if !KINDS.contains(&word) {
            writeln!(text, "not a line of a case: {line}")?;
        }
    }
    Ok(())
}

/// Adds the answers of all polls of a case, and what was sent.
pub fn push_case(alloc: Global, text: &mut String, lines: &str) -> Result<(), AllocError> {
    push_others(text, lines)?;
    let mut dial = WatchedDial::new(dial(alloc, lines)?);
    push_talk(alloc, text, &mut dial, lines)?;
    push_sent(text, dial.sent(0))
}
