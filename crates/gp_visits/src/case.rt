ghost use Rattle.std.specs.Prelude.{◌≡◌};

use crate::http::{Client, Origin, visit_http};
use crate::shown::show_taken;
use crate::visit::{ROOM, attach_news, fill, publish_over, take};
use gp_escapes::unescaped;
use gp_hub::{Hub, HubPass};
use gp_outside::{MemLink, Turn, Turns};
use gp_plain::Body;
use std::alloc::{AllocError, Global};
use std::mem;

/// One case: what the client sends, and what each call on its link does in turn.
///
/// Its lines are `| TEXT`, more of the input; `reads N TURN` and `writes N TURN`, so many turns, each a number of bytes, `wait` or `fail`;
/// `hold`, for a reliable hold on `news` at `a` that another pass attaches before, and takes from behind each visit; and `again`, for
/// another visit with the same input.
///
/// With a line `routes TEXT`, a routes file, the client is one of HTTP, and then `key TEXT` is the key of tokens, `answer TEXT` more of what
/// the origin of the first talk answers, `then` begins the answer of the next talk, and `connects N TURN`, `receives N TURN` and `asks N TURN` are turns of the dialer's calls. A line
/// `publisher TEXT` is what a publisher sends that comes while the client waits: the first once the session has waited for long, each
/// other one as long after the one before. `fill N` is so many bytes more of the answer, and `crowd` says that another pass has attached as
/// many holds as a hub may have.
#[derive(Drop)]
pub struct Case {
    alloc: Global,
    input: Vec<u8>,
    reads: Vec<Turn>,
    writes: Vec<Turn>,
    hold: bool,
    crowd: bool,
    visits: usize,
    http: bool,
    origin: Origin,
    publishers: Vec<Body>,
}

/// Adds turns of one kind, as `N TURN` says.
fn push_turns(turns: &mut Vec<Turn>, text: &str) -> Result<(), AllocError> {
    let (count, word) = text.split_once(' ').unwrap_or(("1", text));
    let turn = match word {
        "wait" => Turn::Wait,
        "fail" => Turn::Fail,
        bytes => Turn::Bytes(bytes.parse::<u32>().unwrap_or(0)),
    };
    for _turn in 0..count.parse::<usize>().unwrap_or(0) {
        turns.push(turn)?;
    }
    Ok(())
}

/// Reads one line of what is said of origins. It says whether it is one.
fn add_origin(
    alloc: Global,
    origin: &mut Origin,
    kind: &str,
    rest: &str,
) -> Result<bool, AllocError> {
    match kind {
        "key" => origin.key = Some(Body::new(alloc, rest.as_bytes())?),
        "answer" => origin
            .answer
            .extend_from_slice(unescaped(alloc, rest)?.as_slice())?,
        "connects" => push_turns(&mut origin.connects, rest)?,
        "receives" => push_turns(&mut origin.reads, rest)?,
        "asks" => push_turns(&mut origin.writes, rest)?,
        _ => return Ok(false),
    }
    Ok(true)
}

impl Case {
    /// A visit of a client that sends nothing, over a link that is always ready.
    pub fn new(alloc: Global) -> Case {
        Case {
            alloc,
            input: Vec::new(alloc),
            reads: Vec::new(alloc),
            writes: Vec::new(alloc),
            hold: false,
            crowd: false,
            visits: 1,
            http: false,
            origin: Origin::new(alloc),
            publishers: Vec::new(alloc),
        }
    }

    /// Reads one line of the case. It says whether it is one.
    pub fn add(&mut self, line: &str) -> Result<bool, AllocError> {
        let (kind, rest) = line.split_once(' ').unwrap_or((line, ""));
        match kind {
            "|" => self
                .input
                .extend_from_slice(unescaped(self.alloc, rest)?.as_slice())?,
            "reads" => push_turns(&mut self.reads, rest)?,
            "writes" => push_turns(&mut self.writes, rest)?,
            "hold" => self.hold = true,
            "routes" => {
                self.http = true;
                self.origin.routes = unescaped(self.alloc, rest)?;
            }
            "then" => {
                let answer = mem::replace(&mut self.origin.answer, Vec::new(self.alloc));
                self.origin.answers.push(Body::from_vec(answer))?;
            }
            "fill" => {
                for _byte in 0..rest.parse::<usize>().unwrap_or(0) {
                    self.origin.answer.push(b'a')?;
                }
            }
            "crowd" => self.crowd = true,
            "publisher" => self
                .publishers
                .push(Body::from_vec(unescaped(self.alloc, rest)?))?,
            "again" => self.visits = self.visits.saturating_add(1),
            _ => {
                return add_origin(self.alloc, &mut self.origin, kind, rest);
            }
        }
        Ok(true)
    }

    fn link(&self) -> Result<MemLink, AllocError> {
        let input = Body::new(self.alloc, self.input.as_slice())?;
        let reads = Turns::from_vec(Vec::from_slice(self.alloc, self.reads.as_slice())?);
        let writes = Turns::from_vec(Vec::from_slice(self.alloc, self.writes.as_slice())?);
        MemLink::new(self.alloc, input, ROOM, reads, writes)
    }

    /// Adds what the visit of a client of HTTP gives.
    fn play_http(
        &mut self,
        hub: &Hub,
        first: &mut HubPass,
        text: &mut String,
    ) -> Result<(), AllocError>
        requires { first.old.turn ≡ hub.now }
        ensures { first.new.turn ≡ first.old.turn }
    {
        let alloc = self.alloc;
        if self.crowd {
            fill(alloc, hub, first)?;
        }
        let client = Client {
            link: self.link()?,
            origin: mem::replace(&mut self.origin, Origin::new(alloc)),
            publishers: mem::replace(&mut self.publishers, Vec::new(alloc)),
        };
        visit_http(alloc, hub, first, client, text)
    }

    /// Adds what the visit of a publisher gives, and what a hold takes behind it.
    fn play_visit(
        &self,
        hub: &Hub,
        first: &mut HubPass,
        hold: Option<u64>,
        text: &mut String,
    ) -> Result<(), AllocError>
        requires { first.old.turn ≡ hub.now }
        ensures { first.new.turn ≡ first.old.turn }
    {
        publish_over(self.alloc, hub, first, self.link()?, text)?;
        if let Some(number) = hold {
            let taken = take(hub, first, number);
            let shown = show_taken(self.alloc, text, taken.as_ref());
            drop(taken);
            shown?;
        }
        Ok(())
    }

    /// Adds what each visit of a publisher gives, and what the hold takes behind it.
    fn play_publisher(
        &self,
        hub: &Hub,
        first: &mut HubPass,
        text: &mut String,
    ) -> Result<(), AllocError>
        requires { first.old.turn ≡ hub.now }
        ensures { first.new.turn ≡ first.old.turn }
    {
        let hold = if self.hold {
            attach_news(self.alloc, hub, first)?
        } else {
            None
        };
        for _visit in 0..self.visits {
            self.play_visit(hub, first, hold, text)?;
        }
        Ok(())
    }

    /// Adds what the case gives.
    pub fn play(&mut self, text: &mut String) -> Result<(), AllocError> {
        let (hub, mut first) = Hub::new(self.alloc)?;
        let played = if self.http {
            self.play_http(&hub, &mut first, text)
        } else {
            self.play_publisher(&hub, &mut first, text)
        };
        drop(first);
        drop(hub);
        played
    }
}
