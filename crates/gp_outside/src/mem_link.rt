ghost use Rattle.std.specs.Prelude.{◌≡◌, ◌<◌, ◌≤◌, ◌++◌, [], drop, length, IfOk};
ghost use Rattle.gp_outside.specs.Links.{IsLinkRead, IsLinkWrite};
ghost use Rattle.gp_outside.specs.MemLinks.{after_got, after_put, link_got, link_put, told_link};

use crate::link::{Got, Link, Put};
use crate::turn::{Turns, got_by, put_by};
use gp_plain::Body;
use std::alloc::{AllocError, Global};
use std::marker::Model;

/// A link in memory: its input, and a place for what is sent. A write that by its turn would take more bytes than
/// there is room for takes none, and is a fault.
#[derive(Drop)]
pub struct MemLink {
    input: Body,
    done: usize,
    sent: Vec<u8>,
    room: usize,
    reads: Turns,
    writes: Turns,
    faults: u64,
    read_waits: u64,
    write_waits: u64,
    ends: u64,
}

impl Model for MemLink {
    ghost use Rattle.std.specs.Prelude.{◌+◌, ◌≤◌, drop, length, take};
    ghost use Rattle.std.specs.Vec.{vec_len, vec_capacity};
    ghost use Rattle.gp_outside.specs.MemLinks.{LinkState};

    ghost Value = { LinkState };

    ghost view = { λ l. record { received = take l.done l.input; input = drop l.done l.input; sent = l.sent.items; room = l.room; reads = l.reads; writes = l.writes; faults = l.faults; read_waits = l.read_waits; write_waits = l.write_waits; ends = l.ends } };

    ghost invariant = { λ l. (l.done ≤ length l.input) × (vec_len l.sent + l.room ≤ vec_capacity l.sent) };
}

/// Copies bytes to the front of a slice.
pub fn copy_front(from: &[u8], into: &mut [u8])
    requires { length from.now ≤ length into.old }
    ensures { into.new ≡ from.now ++ drop (length from.now) into.old }
{
    into[..from.len()].copy_from_slice(from);
}

impl MemLink {
    /// A link with some input, room for so many bytes, and what each read and each write does in turn. The room is
    /// reserved here.
    pub fn new(
        alloc: Global,
        input: Body,
        room: usize,
        reads: Turns,
        writes: Turns,
    ) -> Result<MemLink, AllocError>
        ensures { IfOk result (λ l. l ≡ record { received = []; input = input; sent = []; room = room; reads = reads; writes = writes; faults = 0; read_waits = 0; write_waits = 0; ends = 0 }) }
    {
        Ok(MemLink {
            input,
            done: 0,
            sent: Vec::with_capacity(alloc, room)?,
            room,
            reads,
            writes,
            faults: 0,
            read_waits: 0,
            write_waits: 0,
            ends: 0,
        })
    }

    /// All the bytes that were sent.
    pub fn sent(&self) -> &[u8]
        ensures { result.now ≡ self.now.sent }
    {
        self.sent.as_slice()
    }
}

impl Link for MemLink {
    ghost tells = { told_link };

    fn read(&mut self, into: &mut [u8]) -> Got
        requires { 0 < length into.old }
        ensures read { IsLinkRead (told_link self.old) (told_link self.new) into.new result }
        ensures answer { result ≡ link_got self.old (length into.old) }
        ensures after { self.new ≡ after_got self.old result }
    {
        let left = self.input.len() - self.done;
        let got = got_by(self.reads.take_first(), into.len(), left);
        match got {
            Got::Took(count) => {
                copy_front(&self.input.bytes()[self.done..self.done + count], into);
                self.done += count;
            }
            Got::End => self.ends = self.ends.saturating_add(1),
            Got::NotReady => self.read_waits = self.read_waits.saturating_add(1),
            Got::Failed => self.faults = self.faults.saturating_add(1),
        }
        got
    }

    fn write(&mut self, from: &[u8]) -> Put
        requires { 0 < length from.now }
        ensures written { IsLinkWrite (told_link self.old) (told_link self.new) from.now result }
        ensures answer { result ≡ link_put self.old (length from.now) }
        ensures after { self.new ≡ after_put self.old from.now result }
    {
        let put = put_by(self.writes.take_first(), from.len(), self.room);
        match put {
            Put::Took(count) => {
                let _ = self.sent.extend_from_slice(&from[..count]);
                self.room -= count;
            }
            Put::NotReady => self.write_waits = self.write_waits.saturating_add(1),
            Put::Failed => self.faults = self.faults.saturating_add(1),
        }
        put
    }
}
