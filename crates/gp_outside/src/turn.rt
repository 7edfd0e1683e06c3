ghost use Rattle.std.specs.Prelude.{◌≡◌, ◌<◌, ◌≤◌, [], ◌∷◌, ◌++◌, IfOk, drop, length, replicate, slice_get};
ghost use Rattle.gp_outside.specs.Turning.{IsSomeOf, connected_by, got_by, is_ready, let_through, put_by};

use crate::dial::Connected;
use crate::link::{Got, Put};
use gp_plain::Queue;
use std::alloc::{AllocError, Global};
use std::marker::Model;

/// What the next call on a device in memory does. After the list of its turns all bytes are ready.
#[derive(Clone, Copy, Drop, Debug, PartialEq)]
pub enum Turn {
    /// At most so many bytes are moved. 0 counts as 1.
    Bytes(u32),
    /// The device isn't ready. One that can't answer so moves all the bytes.
    Wait,
    /// The call is a fault.
    Fail,
}

/// Turns, in the order in which they are used.
#[derive(Drop)]
pub struct Turns {
    turns: Queue<Turn>,
}

impl Model for Turns {
    ghost use Rattle.std.specs.Prelude.{List};
    ghost use Rattle.gp_outside.specs.declared.turn.Turn.{Turn};

    ghost Value = { List Turn };

    ghost view = { λ t. t.turns };
}

impl Turns {
    /// No turn. It takes no memory.
    pub fn new(alloc: Global) -> Turns
        ensures { result ≡ [] }
    {
        Turns {
            turns: Queue::new(alloc),
        }
    }

    /// The turns of a `Vec`. It takes no memory.
    pub fn from_vec(turns: Vec<Turn>) -> Turns
        ensures { result ≡ turns.items }
    {
        Turns {
            turns: Queue::from_vec(turns),
        }
    }

    /// So many turns of 65,536 bytes, and then a last one.
    pub fn then(alloc: Global, count: usize, last: Turn) -> Result<Turns, AllocError>
        ensures { IfOk result (λ turns. turns ≡ replicate count (Turn.Bytes 65536) ++ last ∷ []) }
    {
        let mut turns = Vec::new(alloc);
        for _ in 0..count {
            turns.push(Turn::Bytes(65536))?;
        }
        turns.push(last)?;
        Ok(Turns::from_vec(turns))
    }

    /// Takes the next turn out.
    pub fn take_first(&mut self) -> Option<Turn>
        ensures first { result ≡ slice_get self.old 0 }
        ensures left { self.new ≡ drop 1 self.old }
    {
        self.turns.take_first()
    }
}

/// Whether a call that moves everything or nothing goes well.
pub fn is_ready(turn: Option<Turn>) -> bool
    ensures { result ≡ is_ready turn }
{
    match turn {
        Some(Turn::Fail) => false,
        Some(Turn::Wait) => true,
        Some(Turn::Bytes(_)) => true,
        None => true,
    }
}

/// How many of so many bytes a call of a device that can't wait moves, where it isn't a fault.
pub fn let_through(turn: Option<Turn>, all: usize) -> Option<usize>
    ensures { result ≡ let_through turn all }
{
    match turn {
        Some(Turn::Bytes(most)) => Some((most as usize).max(1).min(all)),
        Some(Turn::Wait) => Some(all),
        Some(Turn::Fail) => None,
        None => Some(all),
    }
}

/// What a connect does.
pub fn connected_by(turn: Option<Turn>) -> Connected
    ensures { result ≡ connected_by turn }
{
    match turn {
        Some(Turn::Bytes(_)) => Connected::Done,
        Some(Turn::Wait) => Connected::NotReady,
        Some(Turn::Fail) => Connected::Failed,
        None => Connected::Done,
    }
}

/// What a read into so many bytes does where so many are left.
pub fn got_by(turn: Option<Turn>, into: usize, left: usize) -> Got
    ensures answer { result ≡ got_by turn into left }
    ensures some { 0 < into → IsSomeOf result into left }
{
    match turn {
        Some(Turn::Bytes(most)) if left > 0 => {
            Got::Took((most as usize).max(1).min(into).min(left))
        }
        Some(Turn::Bytes(_)) => Got::End,
        Some(Turn::Wait) => Got::NotReady,
        Some(Turn::Fail) => Got::Failed,
        None if left > 0 => Got::Took(into.min(left)),
        None => Got::End,
    }
}

/// What a write of so many bytes does where there is room for so many.
pub fn put_by(turn: Option<Turn>, from: usize, room: usize) -> Put
    ensures { result ≡ put_by turn from room }
{
    let count = match turn {
        Some(Turn::Bytes(most)) => (most as usize).max(1).min(from),
        Some(Turn::Wait) => return Put::NotReady,
        Some(Turn::Fail) => return Put::Failed,
        None => from,
    };
    if count <= room {
        Put::Took(count)
    } else {
        Put::Failed
    }
}
