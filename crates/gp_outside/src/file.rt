ghost use Rattle.std.specs.Prelude.{ℕ, ◌≡◌, ◌≤◌, List, Some};
ghost use Rattle.gp_outside.specs.Devices.{FailsWith, IsReadOf};
ghost use Rattle.gp_outside.specs.Memory.{IsFileAnswer, after_file_read, can_read, told_content};

use crate::device::{FileRead, Files};
use crate::turn::{Turns, is_ready};
use gp_plain::Body;
use std::alloc::Global;
use std::marker::Model;

/// The bytes of a file, at most.
const FILE: usize = 16777216;

/// One file in memory. A read of another path fails.
#[derive(Drop)]
pub struct MemFiles {
    alloc: Global,
    path: Body,
    content: Body,
    reads: Turns,
    faults: u64,
}

impl Model for MemFiles {
    ghost use Rattle.gp_outside.specs.Memory.{OneFile};

    ghost Value = { OneFile };

    ghost view = { λ f. record { path = f.path; content = f.content; reads = f.reads; faults = f.faults } };
}

impl MemFiles {
    /// A file at a path, and what each read of it does in turn. It takes no memory.
    pub fn new(alloc: Global, path: Body, content: Body, reads: Turns) -> MemFiles
        ensures { result ≡ record { path = path; content = content; reads = reads; faults = 0 } }
    {
        MemFiles {
            alloc,
            path,
            content,
            reads,
            faults: 0,
        }
    }
}

impl Files for MemFiles {
    ghost content = { told_content };

    ghost faults = { λ f. f.faults };

    fn read(&mut self, path: &str) -> FileRead
        ensures same { told_content self.new ≡ told_content self.old }
        ensures later { self.old.faults ≤ self.new.faults }
        ensures faulted { FailsWith result self.old.faults self.new.faults }
        ensures told { (bytes : List ℕ) → told_content self.old path.now ≡ Some bytes → IsReadOf bytes result }
        ensures answer { IsFileAnswer (can_read self.old path.now) self.old.content result }
        ensures after { self.new ≡ after_file_read self.old (can_read self.old path.now) }
    {
        let turn = self.reads.take_first();
        let is_here = path.as_bytes() == self.path.bytes();
        if !(is_here && is_ready(turn)) {
            self.faults = self.faults.saturating_add(1);
            return FileRead::Failed;
        }
        if self.content.len() > FILE {
            return FileRead::TooLong;
        }
        match self.content.copy(self.alloc) {
            Ok(body) => FileRead::Took(body),
            Err(_) => FileRead::NoMemory,
        }
    }
}
