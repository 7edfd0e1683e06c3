ghost use Rattle.std.specs.Prelude.{◌≡◌, ◌≤◌, ◌==◌, ◌++◌, [], length, sum_by, option_map, IfOk, IfSome, OnOk, OnErr};
ghost use Rattle.std.specs.VecDeque.{deque_capacity};
ghost use Rattle.gp_plain.specs.Pieces.{has_room, position_after, weight};
ghost use Rattle.gp_plain.specs.Growth.{IsWithin, HasRoomIn, last_id_of, no_growth, with_piece};

use crate::name::ItemId;
use crate::pending::{BYTES, PIECES, Pending};
use crate::reply::{EndCause, Piece};
use std::alloc::{AllocError, Global};
use std::collections::VecDeque;
use std::marker::Model;

/// The pieces that an event adds to a hold, made with all memory before the hold is changed.
///
/// Contracts see the pieces, the end that they bring, and the room that they bring where the hold has none.
#[derive(Drop)]
pub struct Run {
    alloc: Global,
    pieces: VecDeque<Piece>,
    bytes: usize,
    ended: Option<EndCause>,
    room: Option<VecDeque<Piece>>,
}

impl Model for Run {
    ghost use Rattle.std.specs.Prelude.{◌≡◌, ◌≤◌, [], length, sum_by, option_map, IfSome};
    ghost use Rattle.std.specs.VecDeque.{deque_capacity};
    ghost use Rattle.gp_plain.specs.Growth.{Growth, growth_of};
    ghost use Rattle.gp_plain.specs.Pieces.{weight};

    ghost Value = { Growth };

    ghost view = { λ r. growth_of r.pieces.items r.ended (option_map deque_capacity r.room) };

    ghost invariant = { λ r. (r.bytes ≡ sum_by weight r.pieces.items) × (r.bytes ≤ 524288) × IfSome r.room (λ q. q.items ≡ []) };
}

/// The id of the last piece that has one.
fn last_id(pieces: &VecDeque<Piece>) -> Option<&ItemId>
    ensures { option_map (λ id. id.now) result ≡ last_id_of pieces.now.items }
{
    let mut last = None;
    for place in 0..pieces.len() {
        if let Some(piece) = pieces.get(place) {
            if let Some(id) = piece.moves_to() {
                last = Some(id);
            }
        }
    }
    last
}

impl Run {
    /// No piece, and no end, behind what waits. It takes no memory.
    pub fn behind(to: &Pending) -> Run
        ensures { (result ≡ no_growth) × IsWithin to.now.items [] }
    {
        let alloc = to.alloc();
        let _ = (to.bytes(), to.len());
        Run {
            alloc,
            pieces: VecDeque::new(alloc),
            bytes: 0,
            ended: None,
            room: None,
        }
    }

    /// The end that the pieces bring.
    pub fn ended(&self) -> Option<EndCause>
        ensures { result ≡ self.now.ended }
    {
        self.ended
    }

    /// Whether it has no piece.
    pub fn is_empty(&self) -> bool
        ensures { result ≡ (length self.now.pieces == 0) }
    {
        self.pieces.is_empty()
    }

    /// Whether one more piece would be within the limits behind what waits.
    fn has_room(&self, to: &Pending, piece: &Piece) -> bool
        requires { IsWithin to.now.items self.now.pieces }
        ensures { result ≡ has_room (to.now.items ++ self.now.pieces) piece.now }
    {
        match piece.weight() {
            Some(weight) => {
                weight <= BYTES - to.bytes() - self.bytes && to.len() + self.pieces.len() < PIECES
            }
            None => false,
        }
    }

    /// Adds a piece where there is room for it behind what waits, and else the end `Overflow`; behind an end it adds
    /// nothing.
    pub fn add(&mut self, to: &Pending, piece: Piece) -> Result<(), AllocError>
        requires { IsWithin to.now.items self.old.pieces }
        ensures ok { OnOk result ((self.new ≡ with_piece to.now.items self.old piece) × IsWithin to.now.items self.new.pieces) }
        ensures err { OnErr result (self.new ≡ self.old) }
    {
        if self.ended.is_some() {
            return Ok(());
        }
        if !self.has_room(to, &piece) {
            self.ended = Some(EndCause::Overflow);
            return Ok(());
        }
        let Some(weight) = piece.weight() else {
            unreachable!()
        };
        let ended = piece.end();
        match self.pieces.push_back(piece) {
            Ok(()) => {
                self.bytes += weight;
                self.ended = ended;
                Ok(())
            }
            Err(_) => Err(AllocError),
        }
    }

    /// Takes the room that the pieces want behind what waits, where the hold has less: that of as many pieces more as
    /// there are then, so that a hold that grows one by one moves its pieces seldom.
    pub fn reserve(&mut self, to: &Pending) -> Result<(), AllocError>
        requires { IsWithin to.now.items self.old.pieces }
        ensures same { (self.new.pieces ≡ self.old.pieces) × (self.new.ended ≡ self.old.ended) }
        ensures room { OnOk result (HasRoomIn to.now self.new self.new.room) }
    {
        self.room = None;
        if self.pieces.len() > to.spare() {
            let all = to.len() + self.pieces.len();
            self.room = Some(VecDeque::with_capacity(self.alloc, all + all)?);
        }
        Ok(())
    }

    /// A copy of the id of the last piece that has one.
    pub fn position(&self) -> Result<Option<ItemId>, AllocError>
        ensures { IfOk result (λ id. id ≡ last_id_of self.now.pieces) }
    {
        match last_id(&self.pieces) {
            Some(id) => Ok(Some(id.copy(self.alloc)?)),
            None => Ok(None),
        }
    }

    /// The position behind the pieces, from a position on.
    pub fn position_from(&self, from: &ItemId) -> Result<ItemId, AllocError>
        ensures { IfOk result (λ id. id ≡ position_after from.now self.now.pieces) }
    {
        match last_id(&self.pieces) {
            Some(id) => id.copy(self.alloc),
            None => from.copy(self.alloc),
        }
    }

    /// The pieces, how many bytes they have, and the room that they bring.
    pub fn into_parts(self) -> (VecDeque<Piece>, usize, Option<VecDeque<Piece>>)
        ensures pieces { result.0.items ≡ self.pieces }
        ensures bytes { (result.1 ≡ sum_by weight self.pieces) × (result.1 ≤ 524288) }
        ensures room { (option_map deque_capacity result.2 ≡ self.room) × IfSome result.2 (λ q. q.items ≡ []) }
    {
        (self.pieces, self.bytes, self.room)
    }
}
