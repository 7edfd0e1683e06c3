ghost use Rattle.std.specs.Prelude.{◌≡◌, IfOk};

use crate::kit::{Gate, Idle};
use std::alloc::{AllocError, Global};
use std::marker::Model;
use std::sync::Arc;
use std::sync::atomic::{AtomicBool, Ordering};

/// An idle that doesn't rest.
#[derive(Drop)]
pub struct FreeIdle;

impl Idle for FreeIdle {
    fn rest(&mut self) {}
}

/// A gate that everyone passes at once.
#[derive(Drop)]
pub struct FreeGate;

impl Gate for FreeGate {
    fn before(&self, _claim: u32) {}

    fn after(&self, _claim: u32) {}
}

/// What the handles of one pair share.
#[derive(Drop)]
struct Pair {
    turns: u64,
    has_ended: AtomicBool,
    is_late: AtomicBool,
}

/// A gate that holds the session with claim 0 until that with claim 1 has ended. It is a handle to words that all its
/// copies share.
#[derive(Drop)]
pub struct PairGate {
    pair: Arc<Pair, Global>,
}

impl Model for PairGate {
    ghost use Rattle.std.specs.Prelude.{ℕ};
    ghost use Rattle.std.specs.Arc.{arc_value};

    ghost Value = { ℕ };

    ghost view = { λ g. (arc_value g.pair).turns };
}

impl PairGate {
    /// A gate that looks so many times, at most, whether the session with claim 1 has ended.
    pub fn new(alloc: Global, turns: u64) -> Result<PairGate, AllocError>
        ensures { IfOk result (λ gate. gate ≡ turns) }
    {
        let pair = Pair {
            turns,
            has_ended: AtomicBool::new(false),
            is_late: AtomicBool::new(false),
        };
        Ok(PairGate {
            pair: Arc::new(alloc, pair)?,
        })
    }

    /// Another handle to the same words.
    pub fn copy(&self) -> Result<PairGate, AllocError>
        ensures { IfOk result (λ gate. gate ≡ self.now) }
    {
        Ok(PairGate {
            pair: Arc::try_clone(&self.pair)?,
        })
    }

    /// Whether the session with claim 0 went on before that with claim 1 had ended.
    pub fn late(&self) -> bool {
        self.pair.is_late.load(Ordering::SeqCst)
    }
}

impl Gate for PairGate {
    fn before(&self, claim: u32) {
        if claim != 0 {
            return;
        }
        for _ in 0..self.pair.turns {
            if self.pair.has_ended.load(Ordering::SeqCst) {
                return;
            }
        }
        self.pair.is_late.store(true, Ordering::SeqCst);
    }

    fn after(&self, claim: u32) {
        if claim == 1 {
            self.pair.has_ended.store(true, Ordering::SeqCst);
        }
    }
}
