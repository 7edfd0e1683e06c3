ghost use Rattle.std.specs.Prelude.{ℕ, ◌≡◌, ◌<◌, ◌≤◌, [], length, IfOk};
ghost use Rattle.gp_outside.specs.Devices.{IsWrite};
ghost use Rattle.gp_outside.specs.Memory.{after_write, can_write, told_sink, write_answer};

use crate::device::{Out, Written};
use crate::turn::{Turns, let_through};
use std::alloc::{AllocError, Global};
use std::marker::Model;

/// A sink in memory. A write that by its turn would take more bytes than there is room for takes none, and is
/// a fault.
#[derive(Drop)]
pub struct MemOut {
    written: Vec<u8>,
    room: usize,
    writes: Turns,
    faults: u64,
}

impl Model for MemOut {
    ghost use Rattle.std.specs.Prelude.{◌+◌, ◌≤◌};
    ghost use Rattle.std.specs.Vec.{vec_len, vec_capacity};
    ghost use Rattle.gp_outside.specs.Memory.{Sink};

    ghost Value = { Sink };

    ghost view = { λ o. record { written = o.written.items; room = o.room; writes = o.writes; faults = o.faults } };

    ghost invariant = { λ o. vec_len o.written + o.room ≤ vec_capacity o.written };
}

impl MemOut {
    /// A sink with room for so many bytes, and what each write does in turn. The room is reserved here.
    pub fn new(alloc: Global, room: usize, writes: Turns) -> Result<MemOut, AllocError>
        ensures { IfOk result (λ o. o ≡ record { written = []; room = room; writes = writes; faults = 0 }) }
    {
        Ok(MemOut {
            written: Vec::with_capacity(alloc, room)?,
            room,
            writes,
            faults: 0,
        })
    }

    /// All the bytes that were written.
    pub fn written(&self) -> &[u8]
        ensures { result.now ≡ self.now.written }
    {
        self.written.as_slice()
    }
}

impl Out for MemOut {
    ghost tells = { told_sink };

    fn write(&mut self, from: &[u8]) -> Written
        requires { 0 < length from.now }
        ensures later { self.old.faults ≤ self.new.faults }
        ensures moved { IsWrite (told_sink self.old) (told_sink self.new) from.now result }
        ensures answer { result ≡ write_answer (can_write self.old (length from.now)) }
        ensures after { self.new ≡ after_write self.old from.now (can_write self.old (length from.now)) }
    {
        let turn = self.writes.take_first();
        match let_through(turn, from.len()) {
            Some(count) if count <= self.room => {
                let _ = self.written.extend_from_slice(&from[..count]);
                self.room -= count;
                Written::Took(count)
            }
            _ => {
                self.faults = self.faults.saturating_add(1);
                Written::Failed
            }
        }
    }
}
