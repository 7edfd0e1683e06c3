ghost use Rattle.std.specs.Prelude.{◌≡◌, false};
ghost use Rattle.gp_session.specs.Seats.{IsFresh};
ghost use Rattle.gp_session_http.specs.Polls.{HasEnded};

use crate::visit::publish;
use gp_escapes::{escaped, push_escaped};
use gp_hub::{Hub, HubPass, Outcome, Polled, Session};
use gp_outside::{Answers, Clock, Dial, Link, MemClock, MemDial, MemLink, Times, Turn, Turns};
use gp_plain::{Body, HoldReport, Signer};
use gp_routes::{Routes, read_routes};
use gp_session_http::{Finish, HttpSession};
use std::alloc::{AllocError, Global};

/// A session is polled so often before the next publisher comes.
const QUIET: usize = 1_000;

/// A session is polled at most so often once the last publisher has left.
const POLLS: usize = 100_000;

/// The room of the dialer, in bytes.
const ROOM: usize = 10_000;

/// What a case says of the origins of a client: the routes file, the key of tokens, the answers of talks, the last one apart, and what each
/// call on the dialer does in turn.
#[derive(Drop)]
pub struct Origin {
    pub routes: Vec<u8>,
    pub key: Option<Body>,
    pub answers: Vec<Body>,
    pub answer: Vec<u8>,
    pub connects: Vec<Turn>,
    pub reads: Vec<Turn>,
    pub writes: Vec<Turn>,
}

impl Origin {
    /// No route, and an origin that answers nothing.
    pub fn new(alloc: Global) -> Origin {
        Origin {
            routes: Vec::new(alloc),
            key: None,
            answers: Vec::new(alloc),
            answer: Vec::new(alloc),
            connects: Vec::new(alloc),
            reads: Vec::new(alloc),
            writes: Vec::new(alloc),
        }
    }
}

impl Origin {
    /// The dialer that leads to it.
    fn dial(self, alloc: Global) -> Result<MemDial, AllocError> {
        let mut answers = self.answers;
        answers.push(Body::from_vec(self.answer))?;
        MemDial::new(
            alloc,
            Answers::from_vec(answers),
            ROOM,
            Turns::from_vec(self.connects),
            Turns::from_vec(self.reads),
            Turns::from_vec(self.writes),
        )
    }
}

/// A session over devices in memory.
type MemSession<'h> = HttpSession<'h, MemLink, MemDial, MemClock>;

/// Polls a session at most so often, and keeps its outcome where it ended. It says whether it did.
fn poll_on<'h, L: Link, D: Dial, C: Clock>(
    session: &mut HttpSession<'h, L, D, C>,
    polls: usize,
    ended: &mut Option<Outcome>,
) -> bool
    requires { HasEnded session.old → ⊥ }
    ensures { result ≡ false → HasEnded session.new → ⊥ }
{
    for _poll in 0..polls {
        match session.poll() {
            Polled::Ready(Finish::Done(outcome)) => {
                *ended = Some(outcome);
                return true;
            }
            Polled::Ready(Finish::Upgrade(_)) => unreachable!(),
            Polled::Pending => {}
        }
    }
    false
}

/// What each publisher of a list in turn is answered while the session of a client waits. The outcome of that session is kept, if it ended.
/// A publisher that comes behind the end isn't served.
fn stay<'h>(
    alloc: Global,
    hub: &Hub,
    first: &mut HubPass,
    session: &mut MemSession<'h>,
    publishers: Vec<Body>,
    text: &mut String,
    ended: &mut Option<Outcome>,
) -> Result<(), AllocError>
    requires turn { first.old.turn ≡ hub.now }
    requires open { HasEnded session.old → ⊥ }
    ensures { first.new.turn ≡ first.old.turn }
{
    for input in publishers {
        if poll_on(session, QUIET, ended) {
            return Ok(());
        }
        publish(alloc, hub, first, input, text)?;
    }
    poll_on(session, POLLS, ended);
    Ok(())
}

/// Adds a line of a word and of bytes.
fn push_bytes(text: &mut String, word: &str, bytes: &[u8]) -> Result<(), AllocError> {
    write!(text, "{word} ")?;
    push_escaped(text, bytes)?;
    text.push('\n')
}

/// A session talks with origins at most so often.
const TALKS: usize = 10;

/// What was sent to the origin in each talk.
fn show_asked(text: &mut String, dial: &MemDial) -> Result<(), AllocError> {
    if dial.sent(0).is_none() {
        return text.push_str("asked nothing\n");
    }
    for talk in 0..TALKS {
        if let Some(bytes) = dial.sent(talk) {
            push_bytes(text, "asked", bytes)?;
        }
    }
    Ok(())
}

/// What became of a hold.
fn show_report(alloc: Global, text: &mut String, report: &HoldReport) -> Result<(), AllocError> {
    let position = match &report.position {
        Some(id) => escaped(alloc, id.bytes())?,
        None => String::from_str(alloc, "nowhere")?,
    };
    let (kind, pieces, bytes, end) = (report.kind, report.pieces, report.bytes, report.end);
    writeln!(
        text,
        "held {kind:?} pieces {pieces} bytes {bytes} at {position} {end:?}"
    )
}

/// What became of the holds of a session, and how it ended.
fn show_outcome(alloc: Global, text: &mut String, outcome: &Outcome) -> Result<(), AllocError> {
    for place in 0..outcome.holds.len() {
        if let Some(report) = outcome.holds.at(place) {
            show_report(alloc, text, report)?;
        }
    }
    let (end, why) = (outcome.end, outcome.why);
    writeln!(text, "{end:?} {why:?}")
}

/// What was sent to the client and in the first talk, and how the session ended.
fn show(
    alloc: Global,
    text: &mut String,
    outcome: Option<&Outcome>,
    parts: Option<&(MemLink, MemDial, MemClock)>,
) -> Result<(), AllocError> {
    let (Some(outcome), Some((link, dial, _clock))) = (outcome, parts) else {
        return text.push_str("goes on\n");
    };
    show_asked(text, dial)?;
    push_bytes(text, "sent", link.sent())?;
    show_outcome(alloc, text, outcome)
}

/// A client of HTTP: its link, its origin, and what each publisher sends that comes in turn while it is there.
#[derive(Drop)]
pub struct Client {
    pub link: MemLink,
    pub origin: Origin,
    pub publishers: Vec<Body>,
}

/// A visit of a client with a pass of its own, and what it gives.
pub fn visit_http(
    alloc: Global,
    hub: &Hub,
    first: &mut HubPass,
    client: Client,
    text: &mut String,
) -> Result<(), AllocError>
    requires { first.old.turn ≡ hub.now }
    ensures { first.new.turn ≡ first.old.turn }
{
    if first.spare() <= 1 {
        drop(client);
        return text.push_str("no number is left\n");
    }
    let Client {
        link,
        mut origin,
        publishers,
    } = client;
    let Ok(routes) = read_routes(alloc, origin.routes.as_slice()) else {
        return text.push_str("no routes\n");
    };
    let signer = Signer {
        key: origin.key.take(),
    };
    let dial = origin.dial(alloc)?;
    let clock = MemClock::new(Times::new(alloc));
    let pass = hub.split(first, 1)?;
    let tag = Body::empty(alloc);
    let mut session = HttpSession::new(alloc, hub, pass, &routes, &signer, tag, link, dial, clock);
    let mut outcome = None;
    let stayed = stay(
        alloc,
        hub,
        first,
        &mut session,
        publishers,
        text,
        &mut outcome,
    );
    let parts = session.parts();
    let shown = show(alloc, text, outcome.as_ref(), parts.as_ref());
    drop(outcome);
    drop(parts);
    stayed?;
    shown
}
