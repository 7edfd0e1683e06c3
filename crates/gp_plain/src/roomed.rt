//! A list whose room contracts see.
ghost use Rattle.std.specs.Prelude.{◌≡◌, ◌+◌, ◌-◌, ◌<◌, ◌≤◌, ◌++◌, ◌∷◌, [], length, drop, OnOk, OnErr, IfErr, IsOk, option_map, slice_get};
ghost use Rattle.gp_plain.specs.Roomy.{roomy};

use std::alloc::{AllocError, Global};
use std::collections::VecDeque;
use std::marker::Model;

/// A list that promises room: after `reserve` it has `spare` for so many more items, and a push with
/// `spare` above 0 takes no memory.
#[derive(Drop)]
pub struct Roomed<T> {
    items: VecDeque<T>,
    spare: usize,
}

impl<T> Model for Roomed<T> {
    ghost use Rattle.std.specs.Prelude.{◌+◌, ◌≤◌, length};
    ghost use Rattle.std.specs.VecDeque.{deque_capacity};
    ghost use Rattle.gp_plain.specs.Roomy.{Roomy, roomy, roomy_code};

    ghost Value = { Roomy T };

    ghost coded = { roomy_code T.code };

    ghost view = { λ r. roomy r.items.items r.spare };

    ghost invariant = { λ r. length r.items.items + r.spare ≤ deque_capacity r.items };
}

impl<T> Roomed<T> {
    /// The empty list, without room. It takes no memory.
    pub fn new(alloc: Global) -> Roomed<T>
        ensures { result ≡ roomy [] 0 }
    {
        Roomed {
            items: VecDeque::new(alloc),
            spare: 0,
        }
    }

    /// Makes room for so many more items.
    pub fn reserve(&mut self, more: usize) -> Result<(), AllocError>
        ensures items { self.new.items ≡ self.old.items }
        ensures room { OnOk result (more ≤ self.new.spare) }
        ensures err { OnErr result (self.new ≡ self.old) }
    {
        self.items.reserve(more)?;
        if self.spare < more {
            self.spare = more;
        }
        Ok(())
    }

    /// Adds an item at the end, or hands it back. It is added where there is room.
    pub fn push(&mut self, item: T) -> Result<(), (T, AllocError)>
        ensures ok { OnOk result ((self.new.items ≡ self.old.items ++ item ∷ []) × (self.new.spare ≡ self.old.spare - 1)) }
        ensures room { 0 < self.old.spare → IsOk result }
        ensures err { IfErr result (λ e. (e.0 ≡ item) × (self.new ≡ self.old)) }
    {
        match self.items.push_back(item) {
            Ok(()) => {
                self.spare = self.spare.saturating_sub(1);
                Ok(())
            }
            Err(refused) => Err((refused.value, AllocError)),
        }
    }

    /// How many items it has.
    pub fn len(&self) -> usize
        ensures { result ≡ length self.now.items }
    {
        self.items.len()
    }

    /// The item at a place, counted from 0.
    pub fn at(&self, place: usize) -> Option<&T>
        ensures { option_map (λ x. x.now) result ≡ slice_get self.now.items place }
    {
        self.items.get(place)
    }

    /// Takes the first item out.
    pub fn take_first(&mut self) -> Option<T>
        ensures first { result ≡ slice_get self.old.items 0 }
        ensures left { self.new ≡ roomy (drop 1 self.old.items) self.old.spare }
    {
        self.items.pop_front()
    }
}
