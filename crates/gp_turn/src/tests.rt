ghost use Rattle.std.specs.Prelude.{◌≡◌, length, refl, ⊤};

use crate::{Kept, Pass, Turn, TurnFault};
use std::alloc::{AllocError, Global};
use std::sync::Arc;
use std::sync::atomic::{AtomicU64, Ordering};
use std::test::*;
use std::thread;

/// A word, and who said it.
#[derive(Drop)]
struct Note {
    who: u64,
    word: u64,
}

/// Keeps the words that it is told, and answers how many it had before.
#[derive(Drop)]
struct Tally {
    notes: Vec<Note>,
}

/// A word that a tally refuses, as if memory were wanting.
const REFUSED: u64 = 0;

impl Kept for Tally {
    type Ask = u64;

    type Answer = u64;

    type Entry = Note;

    ghost stands = { λ tally log. tally.notes.items ≡ log };

    ghost entry = { λ who word. record { who = who; word = word } };

    ghost number = { λ note. note.who };

    ghost answers = { λ log _ count. count ≡ length log };

    ghost may_serve = { λ _. ⊤ };

    ghost always_serves = { λ _. ⊥ };

    fn serve(&mut self, who: u64, word: u64) -> Result<u64, (u64, AllocError)> {
        if word == REFUSED {
            return Err((word, AllocError));
        }
        let count = self.notes.len() as u64;
        match self.notes.push(Note { who, word }) {
            Ok(()) => Ok(count),
            Err(_) => Err((word, AllocError)),
        }
    }

    ghost numbered = { λ who word. refl };
}

/// How often a flag is read before its reader gives up.
const TURNS: u64 = 1_000_000_000;

/// Reads the flag until it is set, and answers whether it was.
fn is_set_in_time(flag: &AtomicU64) -> bool {
    for _ in 0..TURNS {
        if flag.load(Ordering::SeqCst) == 1 {
            return true;
        }
    }
    false
}

/// Says that it serves, and serves until it is told to end.
#[derive(Drop)]
struct Gate {
    entered: Arc<AtomicU64, Global>,
    leave: Arc<AtomicU64, Global>,
}

impl Kept for Gate {
    type Ask = u64;

    type Answer = bool;

    type Entry = u64;

    ghost stands = { λ _ _. ⊤ };

    ghost entry = { λ who _. who };

    ghost number = { λ who. who };

    ghost answers = { λ _ _ _. ⊤ };

    ghost may_serve = { λ _. ⊤ };

    ghost always_serves = { λ _. ⊤ };

    fn serve(&mut self, _who: u64, _ask: u64) -> Result<bool, (u64, AllocError)> {
        self.entered.store(1, Ordering::SeqCst);
        Ok(is_set_in_time(&self.leave))
    }

    ghost numbered = { λ who ask. refl };
}

const ALL: u64 = 9223372036854775808;

#[test]
fn split_and_join_move_numbers_and_parts(rt: HostRuntime) -> Result<(), Fail> {
    let alloc: Global = rt.alloc();
    let tally = Tally {
        notes: Vec::new(alloc),
    };
    let (turn, mut first) = Turn::new(alloc, tally)?;
    assert_eq!(rt;
        (first.number(), first.spare(), first.parts()),
        (0, ALL, ALL)
    );
    let second = turn.split(&mut first, 10)?;
    let left = 9223372036854775798;
    assert_eq!(rt;
        (second.number(), second.spare(), second.parts()),
        (left, 10, 10)
    );
    assert_eq!(rt;
        (first.number(), first.spare(), first.parts()),
        (0, left, left)
    );
    turn.join(second, &mut first);
    assert_eq!(rt;
        (first.number(), first.spare(), first.parts()),
        (0, left, ALL)
    );
    Ok(())
}

/// The word of a call that was refused, and whether memory was wanting.
fn refused(served: Result<u64, TurnFault<u64>>) -> Result<u64, (u64, bool)> {
    match served {
        Ok(answer) => Ok(answer),
        Err(TurnFault::Busy(word, _)) => Err((word, false)),
        Err(TurnFault::Worn(word)) => Err((word, false)),
        Err(TurnFault::NoMemory(word)) => Err((word, true)),
    }
}

#[test]
fn calls_are_served_in_one_order(rt: HostRuntime) -> Result<(), Fail> {
    let alloc: Global = rt.alloc();
    let tally = Tally {
        notes: Vec::new(alloc),
    };
    let (turn, mut first) = Turn::new(alloc, tally)?;
    let mut second = turn.split(&mut first, 1)?;
    let number = second.number();
    assert_eq!(rt; refused(turn.call(&mut first, 7)), Ok(0));
    assert_eq!(rt; refused(turn.call(&mut second, 8)), Ok(1));
    assert_eq!(rt;
        refused(turn.call(&mut second, REFUSED)),
        Err((REFUSED, true))
    );
    assert_eq!(rt; refused(turn.call(&mut first, 9)), Ok(2));
    turn.join(second, &mut first);
    assert_eq!(rt; refused(turn.call(&mut first, 6)), Ok(3));
    let tally = turn.close(first);
    let mut said = Vec::new(alloc);
    for note in &tally.notes {
        said.push((note.who, note.word))?;
    }
    assert_eq!(rt;
        said.as_slice(),
        [(0, 7), (number, 8), (0, 9), (0, 6)].as_slice()
    );
    Ok(())
}

/// The second caller waits until the first is served, is refused, and lets it go on.
fn call_in_between(
    turn: &Turn<Gate>,
    mut pass: Pass<Gate>,
    entered: &AtomicU64,
    leave: &AtomicU64,
) -> Option<Result<bool, TurnFault<u64>>>
    requires { pass.turn ≡ turn.now }
{
    if !is_set_in_time(entered) {
        return None;
    }
    let answer = turn.call(&mut pass, 5);
    leave.store(1, Ordering::SeqCst);
    Some(answer)
}

fn call_first(turn: &Turn<Gate>, mut pass: Pass<Gate>) -> Result<bool, TurnFault<u64>>
    requires { pass.turn ≡ turn.now }
{
    turn.call(&mut pass, 4)
}

#[test]
fn a_call_while_another_is_served_is_busy(rt: HostRuntime) -> Result<(), Fail> {
    let alloc: Global = rt.alloc();
    let entered = Arc::new(alloc, AtomicU64::new(0))?;
    let leave = Arc::new(alloc, AtomicU64::new(0))?;
    let gate = Gate {
        entered: Arc::try_clone(&entered)?,
        leave: Arc::try_clone(&leave)?,
    };
    let (turn, mut first) = Turn::new(alloc, gate)?;
    let second = turn.split(&mut first, 1)?;
    let (one, other) = thread::join(
        &rt,
        || call_first(&turn, first),
        || call_in_between(&turn, second, &entered, &leave),
    );
    assert!(rt; matches!(one, Ok(true)), "the first call is served in time");
    assert!(rt;
        matches!(other, Some(Err(TurnFault::Busy(5, 1)))),
        "the second finds the turn taken"
    );
    Ok(())
}
