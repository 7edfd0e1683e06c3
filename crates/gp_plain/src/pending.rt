ghost use Rattle.std.specs.Prelude.{◌≡◌, ◌+◌, ◌-◌, ◌^◌, ◌<◌, ◌≤◌, ◌==◌, ◌++◌, ◌∷◌, [], cond, IfErr, ℕ, List, length, take, drop, min, sum_by, IfOk, OnOk, OnErr, MatchOption};
ghost use Rattle.gp_plain.specs.Growth.{IsReady};
ghost use Rattle.gp_plain.specs.Pieces.{batch, batch_count, count_within, has_room, left, message_weight, weight};
ghost use Rattle.std.specs.VecDeque.{deque_capacity};
ghost use Rattle.gp_plain.specs.Roomy.{roomy};

use crate::item::Message;
use crate::queue::Queue;
use crate::reply::{Piece, Pieces};
use crate::run::Run;
use std::alloc::{AllocError, Global};
use std::collections::VecDeque;
use std::marker::Model;

/// The bytes that may wait for one hold, at most.
pub const BYTES: usize = 524288;

/// The pieces that may wait for one hold, at most.
pub const PIECES: usize = 1024;

/// The bytes of one Take, at most, unless its first piece alone has more.
const BATCH: usize = 65536;

/// For how many pieces room is kept where none waits, at most.
const IDLE: usize = 16;

/// The pieces that wait for a hold, oldest first: at most 524,288 bytes and 1,024 pieces.
///
/// It is filled in two steps, so that many holds can be filled together or not at all: a `Run` of pieces is made with
/// all the memory that it wants, and `append` then takes none. Contracts see the pieces and the room.
#[derive(Drop)]
pub struct Pending {
    alloc: Global,
    pieces: VecDeque<Piece>,
    bytes: usize,
}

impl Model for Pending {
    ghost use Rattle.std.specs.Prelude.{◌≡◌, ◌-◌, ◌≤◌, length, sum_by};
    ghost use Rattle.std.specs.VecDeque.{deque_capacity};
    ghost use Rattle.gp_plain.specs.Roomy.{Roomy, roomy};
    ghost use Rattle.gp_plain.specs.declared.reply.Piece.{Piece};
    ghost use Rattle.gp_plain.specs.Pieces.{weight};

    ghost Value = { Roomy Piece };

    ghost view = { λ p. roomy p.pieces.items (deque_capacity p.pieces - length p.pieces.items) };

    ghost invariant = { λ p. (p.bytes ≡ sum_by weight p.pieces.items) × (p.bytes ≤ 524288) × (length p.pieces.items ≤ 1024) };
}

impl Message {
    /// The bytes that it counts while it waits, where they fit a `usize`: its payload, and of a close with a code its
    /// reason and 2.
    fn weight(&self) -> Option<usize>
        ensures { MatchOption result (2 ^ 64 ≤ message_weight self.now) (λ n. n ≡ message_weight self.now) }
    {
        match self {
            Message::Text(bytes) => Some(bytes.len()),
            Message::Binary(bytes) => Some(bytes.len()),
            Message::Ping(bytes) => Some(bytes.len()),
            Message::Pong(bytes) => Some(bytes.len()),
            Message::Close {
                code: Some(_),
                reason,
            } => reason.len().checked_add(2),
            Message::Close { code: None, .. } => Some(0),
        }
    }
}

impl Piece {
    /// The bytes that it counts while it waits, where they fit a `usize`.
    pub fn weight(&self) -> Option<usize>
        ensures { MatchOption result (2 ^ 64 ≤ weight self.now) (λ n. n ≡ weight self.now) }
    {
        match self {
            Piece::Opening(bytes) => Some(bytes.len()),
            Piece::Item { bytes, .. } => Some(bytes.len()),
            Piece::Page { bytes, .. } => Some(bytes.len()),
            Piece::Message(message) => message.weight(),
            Piece::Answer { part, .. } => Some(part.body.len()),
        }
    }
}
/// How many pieces, from the first on, have at most as many bytes together as a batch, and how many bytes.
fn counted(pieces: &VecDeque<Piece>) -> (usize, usize)
    ensures count { result.0 ≡ count_within 65536 pieces.now.items }
    ensures bytes { result.1 ≡ sum_by weight (take result.0 pieces.now.items) }
    ensures within { result.0 ≤ length pieces.now.items }
{
    let mut count = 0;
    let mut bytes = 0;
    while let Some(piece) = pieces.get(count) {
        match piece.weight() {
            Some(weight) if weight <= BATCH - bytes => {
                bytes += weight;
                count += 1;
            }
            _ => break,
        }
    }
    (count, bytes)
}

/// How many pieces the next batch has, and how many bytes.
fn measured(pieces: &VecDeque<Piece>) -> (usize, usize)
    requires { sum_by weight pieces.now.items < 2 ^ 64 }
    ensures count { result.0 ≡ min (batch_count pieces.now.items) (length pieces.now.items) }
    ensures bytes { result.1 ≡ sum_by weight (take result.0 pieces.now.items) }
{
    let (count, bytes) = counted(pieces);
    if count > 0 {
        return (count, bytes);
    }
    match pieces.front() {
        Some(first) => match first.weight() {
            Some(weight) => (1, weight),
            None => unreachable!(),
        },
        None => (0, 0),
    }
}

/// Moves the first pieces out.
fn moved_out(
    alloc: Global,
    pieces: &mut VecDeque<Piece>,
    count: usize,
) -> Result<Vec<Piece>, AllocError>
    requires { count ≤ length pieces.old.items }
    ensures given { IfOk result (λ given. given.items ≡ take count pieces.old.items) }
    ensures rest { OnOk result (pieces.new.items ≡ drop count pieces.old.items) }
    ensures err { OnErr result (pieces.new.items ≡ pieces.old.items) }
    ensures capacity { deque_capacity pieces.new ≡ deque_capacity pieces.old }
{
    let mut given = Vec::with_capacity(alloc, count)?;
    for _turn in 0..count {
        if let Some(piece) = pieces.pop_front() {
            given.push_reserved(piece);
        }
    }
    Ok(given)
}

/// Lets room for more than 16 pieces go, where no piece is left.
fn let_room_go(alloc: Global, pieces: &mut VecDeque<Piece>)
    ensures { pieces.new.items ≡ pieces.old.items }
{
    if pieces.is_empty() && pieces.capacity() > IDLE {
        *pieces = VecDeque::new(alloc);
    }
}

/// A copy of pieces.
fn copied(alloc: Global, pieces: &VecDeque<Piece>) -> Result<Vec<Piece>, AllocError>
    ensures { IfOk result (λ copy. copy.items ≡ pieces.now.items) }
{
    let mut copy = Vec::with_capacity(alloc, pieces.len())?;
    for place in 0..pieces.len() {
        if let Some(piece) = pieces.get(place) {
            copy.push(piece.copy(alloc)?)?;
        }
    }
    Ok(copy)
}

impl Pending {
    /// No piece, and no room. It takes no memory.
    pub fn new(alloc: Global) -> Pending
        ensures { result.items ≡ [] }
    {
        Pending {
            alloc,
            pieces: VecDeque::new(alloc),
            bytes: 0,
        }
    }

    /// The allocator that it keeps.
    pub fn alloc(&self) -> Global {
        self.alloc
    }

    /// How many pieces wait, at most 1,024.
    pub fn len(&self) -> usize
        ensures { (result ≡ length self.now.items) × (result ≤ 1024) }
    {
        self.pieces.len()
    }

    /// Whether no piece waits.
    pub fn is_empty(&self) -> bool
        ensures { result ≡ (length self.now.items == 0) }
    {
        self.pieces.is_empty()
    }

    /// How many bytes wait, at most 524,288.
    pub fn bytes(&self) -> usize
        ensures { (result ≡ sum_by weight self.now.items) × (result ≤ 524288) }
    {
        self.bytes
    }

    /// For how many more pieces it has room.
    pub fn spare(&self) -> usize
        ensures { result ≡ self.now.spare }
    {
        self.pieces.capacity() - self.pieces.len()
    }

    /// Adds a piece at the end where there is room for it within the limits, and says whether there was. Where memory is wanting
    /// it hands the piece back, and nothing has changed.
    pub fn push(&mut self, piece: Piece) -> Result<bool, (Piece, AllocError)>
        ensures told { IfOk result (λ added. added ≡ has_room self.old.items piece) }
        ensures items { OnOk result (self.new.items ≡ cond (has_room self.old.items piece) (self.old.items ++ piece ∷ []) self.old.items) }
        ensures err { IfErr result (λ e. (e.0 ≡ piece) × (self.new.items ≡ self.old.items)) }
    {
        let weight = match piece.weight() {
            Some(weight) if weight <= BYTES - self.bytes && self.pieces.len() < PIECES => weight,
            _ => return Ok(false),
        };
        match self.pieces.push_back(piece) {
            Ok(()) => {
                self.bytes += weight;
                Ok(true)
            }
            Err(refused) => Err((refused.value, AllocError)),
        }
    }

    /// Adds the pieces of a run at the end. It takes no memory.
    pub fn append(&mut self, run: Run)
        requires { IsReady self.old run }
        ensures { self.new.items ≡ self.old.items ++ run.pieces }
    {
        let (mut more, bytes, room) = run.into_parts();
        if let Some(mut pieces) = room {
            match pieces.append(&mut self.pieces) {
                Ok(()) => self.pieces = pieces,
                Err(_) => unreachable!(),
            }
        }
        match self.pieces.append(&mut more) {
            Ok(()) => self.bytes += bytes,
            Err(_) => unreachable!(),
        }
    }

    /// Takes the next batch out: the longest first part with at most 65,536 bytes, or the first piece alone where it
    /// has more. Its work grows with what it gives. Where nothing is left, room for more than 16 pieces is let go. An error
    /// leaves all as before.
    pub fn take(&mut self) -> Result<Pieces, AllocError>
        ensures given { IfOk result (λ given. given ≡ batch self.old.items) }
        ensures left { OnOk result (self.new.items ≡ left self.old.items) }
        ensures err { OnErr result (self.new ≡ self.old) }
    {
        let (count, bytes) = measured(&self.pieces);
        let given = moved_out(self.alloc, &mut self.pieces, count)?;
        self.bytes -= bytes;
        let_room_go(self.alloc, &mut self.pieces);
        Ok(Queue::from_vec(given))
    }

    /// A copy of the pieces that wait.
    pub fn copy(&self) -> Result<Pieces, AllocError>
        ensures { IfOk result (λ copy. copy ≡ self.now.items) }
    {
        Ok(Queue::from_vec(copied(self.alloc, &self.pieces)?))
    }
}
