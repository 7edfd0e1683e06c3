//! A mark for each of the last places, and how many places have each.
ghost use Rattle.std.specs.Prelude.{◌≡◌, ◌+◌, ◌-◌, ◌<◌, ◌≤◌, ◌++◌, ◌∷◌, [], IfOk, drop, eqb, false, get_or, length, set, slice_get};
ghost use Rattle.std.specs.Option.{option_map_or};
ghost use Rattle.gp_window.specs.Marks.{count_of};

use crate::bucket::zeros;
use crate::sizes::ITEMS;
use circular_buffer::HeapCircularBuffer;
use std::alloc::{AllocError, Global};
use std::marker::Model;

/// A bucket for each of the last places, at most 4,096, oldest first, that can be changed; and how many places have each bucket.
#[derive(Drop)]
pub struct Marks {
    /// By bucket, how many places have it.
    counts: Vec<u16>,
    marks: HeapCircularBuffer<u16>,
}

impl Model for Marks {
    ghost use Rattle.std.specs.Prelude.{◌≡◌, List, ℕ};
    ghost use Rattle.gp_window.specs.Marks.{IsCounted};

    ghost Value = { List ℕ };

    ghost view = { λ m. m.marks.items };

    ghost invariant = { λ m. (m.marks.capacity ≡ 4096) × IsCounted m.counts.items m.marks.items };
}

/// One place more has a bucket.
fn count_in(counts: &mut Vec<u16>, bucket: usize)
    requires within { bucket < length counts.old.items }
    requires few { get_or counts.old.items bucket 0 ≤ 4096 }
    ensures { counts.new.items ≡ set counts.old.items bucket (get_or counts.old.items bucket 0 + 1) }
{
    counts[bucket] += 1;
}

/// One place fewer has a bucket.
fn count_out(counts: &mut Vec<u16>, bucket: usize)
    requires within { bucket < length counts.old.items }
    requires some { 0 < get_or counts.old.items bucket 0 }
    ensures { counts.new.items ≡ set counts.old.items bucket (get_or counts.old.items bucket 0 - 1) }
{
    counts[bucket] -= 1;
}

/// The mark at a place becomes another.
fn put(marks: &mut HeapCircularBuffer<u16>, place: usize, mark: u16)
    requires { place < length marks.old.items }
    ensures items { marks.new.items ≡ set marks.old.items place mark }
    ensures capacity { marks.new.capacity ≡ marks.old.capacity }
{
    if let Some(own) = marks.get_mut(place) {
        *own = mark;
    }
}

impl Marks {
    /// No mark, with the memory for all.
    pub fn new(alloc: Global) -> Result<Marks, AllocError>
        ensures { IfOk result (λ marks. marks ≡ []) }
    {
        Ok(Marks {
            counts: zeros(alloc)?,
            marks: HeapCircularBuffer::with_capacity(alloc, ITEMS)?,
        })
    }

    /// Whether a place has the bucket.
    pub fn is(&self, place: usize, bucket: usize) -> bool
        ensures { result ≡ option_map_or (λ mark. eqb mark bucket) (slice_get self.now place) false }
    {
        match self.marks.get(place) {
            Some(mark) => *mark as usize == bucket,
            None => false,
        }
    }

    /// How many places have the bucket.
    pub fn count(&self, bucket: usize) -> usize
        requires { bucket < 16385 }
        ensures { result ≡ count_of bucket self.now }
    {
        self.counts[bucket] as usize
    }

    /// The mark at a place becomes another.
    pub fn set(&mut self, place: usize, bucket: usize)
        requires place { place < length self.old }
        requires bucket { bucket < 16385 }
        ensures { self.new ≡ set self.old place bucket }
    {
        let Some(own) = self.marks.get(place) else {
            unreachable!()
        };
        let own = *own as usize;
        count_out(&mut self.counts, own);
        count_in(&mut self.counts, bucket);
        put(&mut self.marks, place, bucket as u16);
    }

    /// One more place. It takes no memory.
    pub fn push(&mut self, bucket: usize)
        requires room { length self.old < 4096 }
        requires bucket { bucket < 16385 }
        ensures { self.new ≡ self.old ++ bucket ∷ [] }
    {
        count_in(&mut self.counts, bucket);
        let _ = self.marks.push_back(bucket as u16);
    }

    /// The first place goes.
    pub fn pop(&mut self)
        ensures { self.new ≡ drop 1 self.old }
    {
        if let Some(own) = self.marks.pop_front() {
            count_out(&mut self.counts, own as usize);
        }
    }
}
