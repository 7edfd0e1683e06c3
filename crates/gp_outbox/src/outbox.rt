ghost use Rattle.std.specs.Prelude.{◌≡◌, ◌+◌, ◌++◌, ◌-◌, ◌<◌, ◌^◌, [], min, length, IfErr, MatchResult, OnOk};
ghost use Rattle.gp_outbox.specs.Flush.{FlushedBy, Passed};
ghost use Rattle.gp_outbox.specs.Segments.{joined};

use gp_outside::{Link, Put};
use gp_plain::Body;
use std::alloc::{AllocError, Global};
use std::collections::VecDeque;
use std::marker::Model;
use std::mem;

/// A body of at most so many bytes is copied behind the bytes that wait, so that one write sends many of them. A
/// longer one is moved.
const SMALL: usize = 4096;

/// A segment to which small bodies are added stays below so many bytes, so that little is copied as it grows.
const SEGMENT: usize = 16384;

/// What a flush left.
#[derive(Clone, Copy, Drop, Debug, PartialEq)]
pub enum Flushed {
    /// Nothing waits.
    Empty,
    /// The link isn't ready to take the rest.
    NotReady,
    /// The link failed.
    Failed,
}

/// Bytes that wait for a link, in segments: the one that is being sent, those behind it, and the last, to which small
/// bodies are added. An empty outbox owns no memory. Contracts see the bytes that wait.
#[derive(Drop)]
pub struct Outbox {
    alloc: Global,
    /// The segment that is being sent, and how many of its bytes were.
    front: Body,
    done: usize,
    /// The segments behind it, but for the last.
    behind: VecDeque<Body>,
    /// The last segment.
    last: Vec<u8>,
}

impl Model for Outbox {
    ghost use Rattle.std.specs.Prelude.{ℕ, List, ◌≤◌, length};
    ghost use Rattle.gp_outbox.specs.Segments.{waiting};

    ghost Value = { List ℕ };

    ghost view = { λ b. waiting b.done b.front b.behind.items b.last.items };

    ghost invariant = { λ b. b.done ≤ length b.front };
}

/// How many bytes segments have, and 2^64 - 1 where they have more.
fn bytes_in(segments: &VecDeque<Body>) -> u64
    ensures { result ≡ min (length (joined segments.now.items)) (2 ^ 64 - 1) }
{
    let mut count: u64 = 0;
    for place in 0..segments.len() {
        if let Some(segment) = segments.get(place) {
            count = count.saturating_add(segment.len() as u64);
        }
    }
    count
}

/// Adds three parts at the end of a segment, or none of them.
fn add(segment: &mut Vec<u8>, head: &[u8], body: &[u8], tail: &[u8]) -> Result<(), AllocError>
    requires { length head.now + length body.now + length tail.now < 2 ^ 63 }
    ensures { MatchResult result (λ _. segment.new.items ≡ segment.old.items ++ (head.now ++ (body.now ++ tail.now))) (λ _. segment.new.items ≡ segment.old.items) }
{
    segment.reserve(head.len() + body.len() + tail.len())?;
    let _ = segment.extend_from_slice(head);
    let _ = segment.extend_from_slice(body);
    let _ = segment.extend_from_slice(tail);
    Ok(())
}

impl Outbox {
    /// An empty outbox. It takes no memory.
    pub fn new(alloc: Global) -> Outbox
        ensures { result ≡ [] }
    {
        Outbox {
            alloc,
            front: Body::empty(alloc),
            done: 0,
            behind: VecDeque::new(alloc),
            last: Vec::new(alloc),
        }
    }

    /// Puts three parts behind what waits. Where memory is wanting it hands the body back, and nothing has changed.
    pub fn put(&mut self, head: &[u8], body: Body, tail: &[u8]) -> Result<(), (Body, AllocError)>
        ensures ok { OnOk result (self.new ≡ self.old ++ (head.now ++ (body ++ tail.now))) }
        ensures err { IfErr result (λ e. (e.0 ≡ body) × (self.new ≡ self.old)) }
    {
        let around = head.len().saturating_add(tail.len());
        let whole = self
            .last
            .len()
            .saturating_add(around)
            .saturating_add(body.len());
        if body.len() > SMALL || whole >= SEGMENT {
            return self.put_moved(head, body, tail);
        }
        match add(&mut self.last, head, body.bytes(), tail) {
            Ok(()) => Ok(()),
            Err(refused) => Err((body, refused)),
        }
    }

    /// Puts three parts behind what waits, the body as a segment of its own.
    fn put_moved(&mut self, head: &[u8], body: Body, tail: &[u8]) -> Result<(), (Body, AllocError)>
        ensures ok { OnOk result (self.new ≡ self.old ++ (head.now ++ (body ++ tail.now))) }
        ensures err { IfErr result (λ e. (e.0 ≡ body) × (self.new ≡ self.old)) }
    {
        let next = match Vec::from_slice(self.alloc, tail) {
            Ok(next) => next,
            Err(refused) => return Err((body, refused)),
        };
        match self.behind.reserve(2) {
            Ok(()) => {}
            Err(refused) => return Err((body, refused)),
        }
        match self.last.extend_from_slice(head) {
            Ok(()) => {}
            Err(refused) => return Err((body, refused)),
        }
        let last = mem::replace(&mut self.last, next);
        let _ = self.behind.push_back(Body::from_vec(last));
        let _ = self.behind.push_back(body);
        Ok(())
    }

    /// How many bytes wait, and 2^64 - 1 where more do.
    pub fn waiting(&self) -> u64
        ensures { result ≡ min (length self.now) (2 ^ 64 - 1) }
    {
        let front = (self.front.len() - self.done) as u64;
        bytes_in(&self.behind)
            .saturating_add(front)
            .saturating_add(self.last.len() as u64)
    }

    /// Writes until nothing waits, or the link isn't ready, or fails. It takes no memory, and an empty outbox lets
    /// its memory go.
    pub fn flush<L: Link>(&mut self, link: &mut L) -> Flushed
        ensures passed { Passed (L.tells link.old) (L.tells link.new) self.old self.new }
        ensures cause { FlushedBy (L.tells link.old) (L.tells link.new) self.new result }
    {
        loop {
            if self.done < self.front.len() {
                match link.write(&self.front.bytes()[self.done..]) {
                    Put::Took(count) => self.done += count,
                    Put::NotReady => return Flushed::NotReady,
                    Put::Failed => return Flushed::Failed,
                }
            } else if let Some(next) = self.behind.pop_front() {
                self.front = next;
                self.done = 0;
            } else if !self.last.is_empty() {
                let last = mem::replace(&mut self.last, Vec::new(self.alloc));
                self.front = Body::from_vec(last);
                self.done = 0;
            } else {
                self.front = Body::empty(self.alloc);
                self.done = 0;
                self.behind = VecDeque::new(self.alloc);
                return Flushed::Empty;
            }
        }
    }
}
