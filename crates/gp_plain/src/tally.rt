//! What is counted of a hold while its owner takes of it, so that a report of it needs no memory at the end.
ghost use Rattle.std.specs.Prelude.{◌≡◌, ◌++◌, ◌∷◌, [], List, IfOk, length};
ghost use Rattle.gp_plain.specs.Holds.{start_of};
ghost use Rattle.gp_plain.specs.Others.{Share};
ghost use Rattle.gp_plain.specs.Pieces.{message_bytes, moves_to, piece_bytes};
ghost use Rattle.gp_plain.specs.Reports.{kind_of, payload_of, report, tally_of};
ghost use Rattle.gp_plain.specs.declared.event.HoldSpec.{HoldSpec as Spec};
ghost use Rattle.gp_plain.specs.declared.reply.Piece.{Piece as APiece};

use crate::body::Body;
use crate::event::{HoldKind, HoldSpec};
use crate::item::{Message, ResponsePart};
use crate::name::{ItemId, copy_id};
use crate::reply::{EndCause, HoldReport, Piece};
use std::alloc::{AllocError, Global};
use std::marker::Model;

/// What a piece gives to send.
#[derive(Drop)]
pub enum Payload {
    /// Bytes of a stream.
    Bytes(Body),
    /// A message to a socket.
    Message(Message),
    /// The answer of a response hold.
    Answer(ResponsePart),
}

impl Message {
    /// How many bytes of text it has: those of its payload, and none of a close.
    fn text_len(&self) -> usize
        ensures { result ≡ length (message_bytes self.now) }
    {
        match self {
            Message::Text(bytes) => bytes.len(),
            Message::Binary(bytes) => bytes.len(),
            Message::Ping(bytes) => bytes.len(),
            Message::Pong(bytes) => bytes.len(),
            Message::Close { .. } => 0,
        }
    }
}

impl Piece {
    /// How many bytes of text it has.
    pub fn text_len(&self) -> usize
        ensures { result ≡ length (piece_bytes self.now) }
    {
        match self {
            Piece::Opening(bytes) => bytes.len(),
            Piece::Item { bytes, .. } => bytes.len(),
            Piece::Page { bytes, .. } => bytes.len(),
            Piece::Message(message) => message.text_len(),
            Piece::Answer { part, .. } => part.body.len(),
        }
    }

    /// The id that it moves the position to, where it has one, and what it gives to send. Nothing is copied.
    pub fn into_parts(self) -> (Option<ItemId>, Payload)
        ensures { result ≡ (moves_to self, payload_of self) }
    {
        match self {
            Piece::Opening(bytes) => (None, Payload::Bytes(bytes)),
            Piece::Item { to, bytes, .. } => (to, Payload::Bytes(bytes)),
            Piece::Page { to, bytes, .. } => (Some(to), Payload::Bytes(bytes)),
            Piece::Message(message) => (None, Payload::Message(message)),
            Piece::Answer { to, part } => (to, Payload::Answer(part)),
        }
    }
}

fn kind_of(spec: &HoldSpec) -> HoldKind
    ensures { result ≡ kind_of spec.now }
{
    match spec {
        HoldSpec::Stream { .. } => HoldKind::Stream,
        HoldSpec::Plain { .. } => HoldKind::Plain,
        HoldSpec::Response { .. } => HoldKind::Response,
        HoldSpec::Socket => HoldKind::Socket,
    }
}

/// A copy of the first position.
fn start_of(alloc: Global, spec: &HoldSpec) -> Result<Option<ItemId>, AllocError>
    ensures { IfOk result (λ start. start ≡ start_of spec.now) }
{
    match spec {
        HoldSpec::Stream { prev, .. } => Ok(Some(prev.copy(alloc)?)),
        HoldSpec::Plain { .. } => Ok(None),
        HoldSpec::Response { prev, .. } => copy_id(alloc, prev),
        HoldSpec::Socket => Ok(None),
    }
}

/// What was taken of a hold so far: its kind, how many pieces and bytes, each at most 2^64 - 1, and the position behind
/// them.
///
/// It is made before the hold is attached, and then takes no memory: the ids of positions are moved out of the pieces.
#[derive(Drop)]
pub struct Tally {
    kind: HoldKind,
    pieces: u64,
    bytes: u64,
    position: Option<ItemId>,
}

impl Model for Tally {
    ghost use Rattle.gp_plain.specs.Reports.{TallyView};

    ghost Value = { TallyView };

    ghost view = { λ t. record { kind = t.kind; pieces = t.pieces; bytes = t.bytes; position = t.position } };
}

impl Tally {
    /// Of a hold of which nothing was taken. It copies the first position.
    pub fn new(alloc: Global, spec: &HoldSpec) -> Result<Tally, AllocError>
        ensures { IfOk result (λ tally. tally ≡ tally_of spec.now []) }
    {
        Ok(Tally {
            kind: kind_of(spec),
            pieces: 0,
            bytes: 0,
            position: start_of(alloc, spec)?,
        })
    }

    /// Counts one more piece, and gives what it has to send. It takes no memory and copies nothing.
    pub fn add(&mut self, piece: Piece) -> Payload
        ensures counted { (spec : Spec) (taken : List APiece) → self.old ≡ tally_of spec taken → self.new ≡ tally_of spec (taken ++ piece ∷ []) }
        ensures gives { result ≡ payload_of piece }
    {
        self.pieces = self.pieces.saturating_add(1);
        self.bytes = self.bytes.saturating_add(piece.text_len() as u64);
        let (to, payload) = piece.into_parts();
        if self.position.is_some() && to.is_some() {
            self.position = to;
        }
        payload
    }

    /// The report of the hold of this number, where Takes told this end, or none. It takes no memory.
    pub fn report(self, number: u64, told: Option<EndCause>) -> HoldReport
        ensures { (share : Share) → self ≡ tally_of share.spec share.taken → told ≡ share.told → result ≡ report number share }
    {
        let Tally {
            kind,
            pieces,
            bytes,
            position,
        } = self;
        HoldReport {
            number,
            kind,
            pieces,
            bytes,
            position,
            end: told.unwrap_or(EndCause::Detached),
        }
    }
}
