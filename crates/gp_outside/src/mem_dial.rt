ghost use Rattle.std.specs.Prelude.{◌≡◌, ◌<◌, ◌≤◌, ◌+◌, ◌++◌, [], ◌∷◌, Some, None, true, drop, is_some, length, option_map, slice_get, take, IfOk, MatchBool};
ghost use Rattle.gp_plain.specs.declared.http.Address.{Address};
ghost use Rattle.gp_outside.specs.Talks.{Talk, all_of};
ghost use Rattle.gp_outside.specs.Dials.{IsConnect, IsDialRead, IsDialWrite, after_hang_up};
ghost use Rattle.gp_outside.specs.MemKits.{no_dial};
ghost use Rattle.gp_outside.specs.MemDials.{after_connect, after_dial_got, after_dial_put, closed, dial_connect, dial_got, dial_put, in_talk, received, room_in, sent, told_dial};

use crate::dial::{Connected, Dial};
use crate::link::{Got, Put};
use crate::mem_link::copy_front;
use crate::turn::{Turns, connected_by, got_by, put_by};
use gp_plain::{Address, Body, Queue, Roomed};
use std::alloc::{AllocError, Global};
use std::marker::Model;

/// What origins answer, one for each talk in turn.
pub type Answers = Queue<Body>;

/// A talk: where its bytes begin, of which so many are its address's host and so many behind them were sent, its
/// address's port, and its answer, of which so much was received.
#[derive(Drop)]
pub struct Kept {
    from: usize,
    host: usize,
    sent: usize,
    port: u16,
    answer: Body,
    done: usize,
}

/// A dialer in memory: an answer for each talk, and one place for the hosts and for what is sent. A connect that would
/// begin a talk with no answer or not enough room left is a fault, and from then on the talks aren't told. So is a
/// write that by its turn would take more bytes than there is room for, and each write outside of a talk.
#[derive(Drop)]
pub struct MemDial {
    over: Roomed<Kept>,
    present: Option<Kept>,
    bytes: Vec<u8>,
    told: bool,
    answers: Answers,
    room: usize,
    connects: Turns,
    reads: Turns,
    writes: Turns,
    faults: u64,
    connect_waits: u64,
    read_waits: u64,
    write_waits: u64,
    ends: u64,
}

impl Model for MemDial {
    ghost use Rattle.std.specs.Prelude.{◌+◌, ◌≤◌, length, All};
    ghost use Rattle.std.specs.Vec.{vec_len, vec_capacity};
    ghost use Rattle.gp_outside.specs.MemDials.{DialState};
    ghost use Rattle.gp_outside.specs.Kept.{IsLast, IsWithin, left_of, talks_of, to_keep};

    ghost Value = { DialState };

    ghost view = { λ d. record { talks = talks_of d.bytes.items d.over.items d.present; told = d.told; input = left_of d.present; answers = d.answers; room = d.room; connects = d.connects; reads = d.reads; writes = d.writes; faults = d.faults; connect_waits = d.connect_waits; read_waits = d.read_waits; write_waits = d.write_waits; ends = d.ends } };

    ghost invariant = { λ d. record {
      within : All (IsWithin (length d.bytes.items)) d.over.items;
      last : IsLast (length d.bytes.items) d.present;
      room : vec_len d.bytes + d.room ≤ vec_capacity d.bytes;
      places : to_keep d.present (length d.answers) ≤ d.over.spare;
    } };
}

impl MemDial {
    /// A dialer with an answer for each talk, room for so many bytes, and what each connect, read and write does in
    /// turn. The room is reserved here, and a place for each talk.
    pub fn new(
        alloc: Global,
        answers: Answers,
        room: usize,
        connects: Turns,
        reads: Turns,
        writes: Turns,
    ) -> Result<MemDial, AllocError>
        ensures { IfOk result (λ d. d ≡ record { talks = record { over = []; present = None }; told = true; input = []; answers = answers; room = room; connects = connects; reads = reads; writes = writes; faults = 0; connect_waits = 0; read_waits = 0; write_waits = 0; ends = 0 }) }
    {
        let mut over = Roomed::new(alloc);
        over.reserve(answers.len())?;
        Ok(MemDial {
            over,
            present: None,
            bytes: Vec::with_capacity(alloc, room)?,
            told: true,
            answers,
            room,
            connects,
            reads,
            writes,
            faults: 0,
            connect_waits: 0,
            read_waits: 0,
            write_waits: 0,
            ends: 0,
        })
    }

    /// A dialer with no answer and no room, whose connects all fail. It takes no memory.
    pub(crate) fn without_answers(alloc: Global) -> MemDial
        ensures { result ≡ no_dial }
    {
        MemDial {
            over: Roomed::new(alloc),
            present: None,
            bytes: Vec::new(alloc),
            told: true,
            answers: Answers::new(alloc),
            room: 0,
            connects: Turns::new(alloc),
            reads: Turns::new(alloc),
            writes: Turns::new(alloc),
            faults: 0,
            connect_waits: 0,
            read_waits: 0,
            write_waits: 0,
            ends: 0,
        }
    }

    /// All the bytes that were sent in a talk, by its number from 0, where there was that talk.
    pub fn sent(&self, talk: usize) -> Option<&[u8]>
        ensures { option_map (λ bytes. bytes.now) result ≡ option_map (λ (t : Talk). t.sent) (slice_get (all_of self.now.talks) talk) }
    {
        let kept = if talk == self.over.len() {
            self.present.as_ref()?
        } else {
            self.over.at(talk)?
        };
        let from = kept.from + kept.host;
        Some(&self.bytes.as_slice()[from..from + kept.sent])
    }

    /// Begins the next talk, where there is an answer and room for it.
    fn begin(&mut self, to: &Address) -> bool
        requires { self.old.talks.present ≡ None }
        ensures { MatchBool result (in_talk self.old to.now ≡ Some self.new) ((in_talk self.old to.now ≡ None) × (self.new ≡ self.old)) }
    {
        let host = to.host.len();
        if host > self.room {
            return false;
        }
        let Some(answer) = self.answers.take_first() else {
            return false;
        };
        let from = self.bytes.as_slice().len();
        let _ = self.bytes.extend_from_slice(to.host.bytes());
        self.room -= host;
        self.present = Some(Kept {
            from,
            host,
            sent: 0,
            port: to.port,
            answer,
            done: 0,
        });
        true
    }

    /// Goes on with the present talk, or begins the next one.
    fn enter(&mut self, to: &Address) -> bool
        ensures { MatchBool result (in_talk self.old to.now ≡ Some self.new) ((in_talk self.old to.now ≡ None) × (self.new ≡ self.old)) }
    {
        self.present.is_some() || self.begin(to)
    }

    /// Ends the present talk.
    fn close(&mut self)
        ensures { self.new ≡ closed self.old }
    {
        if let Some(kept) = self.present.take() {
            let _ = self.over.push(kept);
        }
    }

    /// Copies the next bytes of the present talk's answer to the front of a slice.
    fn receive(&mut self, count: usize, into: &mut [u8])
        requires left { count ≤ length self.old.input }
        requires room { count ≤ length into.old }
        ensures copied { take count into.new ≡ take count self.old.input }
        ensures len { length into.new ≡ length into.old }
        ensures after { self.new ≡ received count self.old }
    {
        if let Some(kept) = &mut self.present {
            copy_front(&kept.answer.bytes()[kept.done..kept.done + count], into);
            kept.done += count;
        }
    }

    /// Adds bytes to what was sent in the present talk.
    fn send(&mut self, from: &[u8])
        requires { length from.now ≤ room_in self.old.talks.present self.old.room }
        ensures { self.new ≡ sent from.now self.old }
    {
        if let Some(kept) = &mut self.present {
            let _ = self.bytes.extend_from_slice(from);
            kept.sent += from.len();
            self.room -= from.len();
        }
    }
}

impl Dial for MemDial {
    ghost tells = { told_dial };

    fn connect(&mut self, to: &Address) -> Connected
        ensures connected { IsConnect (told_dial self.old) (told_dial self.new) to.now result }
        ensures answer { result ≡ dial_connect self.old to.now }
        ensures after { self.new ≡ after_connect self.old to.now result }
    {
        let has_talk = self.enter(to);
        let turn = self.connects.take_first();
        if !has_talk {
            self.told = false;
            self.faults = self.faults.saturating_add(1);
            return Connected::Failed;
        }
        let connected = connected_by(turn);
        match connected {
            Connected::Done => {}
            Connected::NotReady => self.connect_waits = self.connect_waits.saturating_add(1),
            Connected::Failed => {
                self.close();
                self.faults = self.faults.saturating_add(1);
            }
        }
        connected
    }

    fn read(&mut self, into: &mut [u8]) -> Got
        requires { 0 < length into.old }
        ensures read { IsDialRead (told_dial self.old) (told_dial self.new) into.new result }
        ensures answer { result ≡ dial_got self.old (length into.old) }
        ensures after { self.new ≡ after_dial_got self.old result }
    {
        let left = match &self.present {
            Some(kept) => kept.answer.len() - kept.done,
            None => 0,
        };
        let got = got_by(self.reads.take_first(), into.len(), left);
        match got {
            Got::Took(count) => self.receive(count, into),
            Got::End => self.ends = self.ends.saturating_add(1),
            Got::NotReady => self.read_waits = self.read_waits.saturating_add(1),
            Got::Failed => self.faults = self.faults.saturating_add(1),
        }
        got
    }

    fn write(&mut self, from: &[u8]) -> Put
        requires { 0 < length from.now }
        ensures written { IsDialWrite (told_dial self.old) (told_dial self.new) from.now result }
        ensures answer { result ≡ dial_put self.old (length from.now) }
        ensures after { self.new ≡ after_dial_put self.old from.now result }
    {
        let room = match &self.present {
            Some(_) => self.room,
            None => 0,
        };
        let put = put_by(self.writes.take_first(), from.len(), room);
        match put {
            Put::Took(count) => self.send(&from[..count]),
            Put::NotReady => self.write_waits = self.write_waits.saturating_add(1),
            Put::Failed => self.faults = self.faults.saturating_add(1),
        }
        put
    }

    fn hang_up(&mut self)
        ensures told { told_dial self.new ≡ after_hang_up (told_dial self.old) }
        ensures after { self.new ≡ closed self.old }
    {
        self.close();
    }
}
