ghost use Rattle.std.specs.Prelude.{◌≡◌, ◌==◌, ◌&&◌, [], false, ℕ, List, Bool, None, cond, filter, is_none, length, not, option_map, IfOk, IfErr, OnOk, OnErr};
ghost use Rattle.std.specs.List.{list_any};
ghost use Rattle.gp_plain.specs.Follow.{is_heard};
ghost use Rattle.gp_plain.specs.Growth.{IsWithin, grown, no_growth, with_pieces};
ghost use Rattle.gp_plain.specs.Holds.{after_take, begun_state, is_crowded, join, leave, message_piece, offered, push, settled_if, taken_of, with_change, without};
ghost use Rattle.gp_plain.specs.Names.{same_id};
ghost use Rattle.gp_plain.specs.Plans.{IsRunPlanned, IsRunReady};
ghost use Rattle.gp_plain.specs.declared.event.HoldKind.TheVariants.{Socket as SocketKind};
ghost use Rattle.gp_plain.specs.declared.item.Item.{Item};
ghost use Rattle.gp_plain.specs.declared.item.Message.{Message as Sent};
ghost use Rattle.gp_plain.specs.declared.reply.Piece.TheVariants.{Message as MessagePiece};
ghost use Rattle.gp_hold_socket.specs.States.{socket_spec};

use gp_plain::{
    EndCause, HoldKind, Item, ItemId, Message, Name, Names, Pending, Piece, Pieces, Run, Taken,
};
use std::alloc::{AllocError, Global};
use std::marker::Model;
use std::mem;

/// The channels that one socket may have joined, at most.
const CHANNELS: usize = 8;

/// What an item is to do to a socket: a run of one piece, or of none.
pub type SocketPlan = Run;

/// A socket, and the channels that it has joined.
#[derive(Drop)]
pub struct SocketHold {
    alloc: Global,
    channels: Names,
    pending: Pending,
    ended: Option<EndCause>,
}

impl Model for SocketHold {
    ghost use Rattle.gp_plain.specs.Plans.{Machine, machine};
    ghost use Rattle.gp_hold_socket.specs.States.{socket_state};

    ghost Value = { Machine };

    ghost view = { λ h. machine (socket_state h.channels h.pending.items h.ended) h.pending.spare };
}

/// How many of the channels aren't this one.
fn count_others(channels: &[Name], channel: &Name) -> usize
    ensures { result ≡ length (without channel.now channels.now) }
{
    channels.iter().filter(|other| !other.is(channel)).count()
}

/// Whether a channel is among these.
fn has_channel(channels: &[Name], channel: &Name) -> bool
    ensures { result ≡ list_any (λ (other : List ℕ). same_id other channel.now) channels.now }
{
    channels.iter().any(|other| other.is(channel))
}

/// The channels but one.
fn without(names: Names, channel: &Name) -> Names
    ensures { result ≡ without channel.now names }
{
    let mut names = names.into_vec();
    names.retain(|other| !other.is(channel));
    Names::from_vec(names)
}

/// What an item brings a socket on these channels, behind what waits.
fn brought(alloc: Global, channels: &Names, to: &Pending, item: &Item) -> Result<Run, AllocError>
    ensures { IfOk result (λ run. (run ≡ with_pieces to.now.items no_growth (cond (is_heard channels.now item.now) (message_piece item.now.message) [])) × IsWithin to.now.items run.pieces) }
{
    let mut run = Run::behind(to);
    if item.is_heard(channels) {
        if let Some(piece) = item.message_piece(alloc)? {
            run.add(to, piece)?;
        }
    }
    Ok(run)
}

/// The message of a piece that is one.
fn message_of(piece: Piece) -> Message
    requires { (message : Sent) × (piece ≡ MessagePiece message) }
    ensures { piece ≡ MessagePiece result }
{
    match piece {
        Piece::Message(message) => message,
        _ => unreachable!(),
    }
}

impl SocketHold {
    /// A socket that has joined no channel. It takes no memory.
    pub fn begin(alloc: Global) -> SocketHold
        ensures { (window : List Item) → result.state ≡ begun_state socket_spec window }
    {
        SocketHold {
            alloc,
            channels: Names::new(alloc),
            pending: Pending::new(alloc),
            ended: None,
        }
    }

    /// Joins a channel, unless it has already. It answers false, and changes nothing, exactly where 8 other channels are joined. An
    /// error changes nothing.
    pub fn join(&mut self, channel: &Name) -> Result<bool, AllocError>
        ensures joins { IfOk result (λ joins. joins ≡ not (is_crowded channel.now self.old.state.terms.channels)) }
        ensures state { OnOk result (self.new.state ≡ with_change (join channel.now) self.old.state) }
        ensures err { OnErr result (self.new ≡ self.old) }
        ensures due { OnErr result (is_crowded channel.now self.old.state.terms.channels ≡ false) }
    {
        if count_others(self.channels.as_slice(), channel) >= CHANNELS {
            return Ok(false);
        }
        if has_channel(self.channels.as_slice(), channel) {
            return Ok(true);
        }
        match self.channels.push(channel.copy(self.alloc)?) {
            Ok(()) => Ok(true),
            Err(_) => Err(AllocError),
        }
    }

    /// Leaves a channel where it has joined it. It takes no memory.
    pub fn leave(&mut self, channel: &Name)
        ensures { self.new.state ≡ with_change (leave channel.now) self.old.state }
    {
        let joined = mem::replace(&mut self.channels, Names::new(self.alloc));
        self.channels = without(joined, channel);
    }

    /// Adds a message behind what waits. Where there is no room for it within the limits the socket ends `Overflow`. A close ends it
    /// `Closed`. Where memory is wanting the message is handed back, and nothing has changed.
    pub fn push(&mut self, message: Message) -> Result<(), (Message, AllocError)>
        requires { self.old.state.ended ≡ None }
        ensures state { OnOk result (self.new.state ≡ with_change (push message) self.old.state) }
        ensures err { IfErr result (λ e. (e.0 ≡ message) × (self.new.state ≡ self.old.state)) }
    {
        let piece = Piece::Message(message);
        let end = piece.end();
        match self.pending.push(piece) {
            Ok(true) => {
                self.ended = end;
                Ok(())
            }
            Ok(false) => {
                self.ended = Some(EndCause::Overflow);
                Ok(())
            }
            Err((piece, refused)) => Err((message_of(piece), refused)),
        }
    }

    /// Whether it is live and has joined the channel of the item; no other item changes it.
    pub fn hears(&self, item: &Item) -> bool
        ensures { result ≡ (is_none self.now.state.ended && is_heard self.now.state.terms.channels item.now) }
    {
        self.ended.is_none() && item.is_heard(&self.channels)
    }

    /// What an item does. The hold stays as it is.
    pub fn offer(&self, item: &Item) -> Result<SocketPlan, AllocError>
        requires { self.now.state.ended ≡ None }
        ensures { (window : List Item) → IfOk result (IsRunPlanned self.now (offered item.now window self.now.state)) }
    {
        let mut run = brought(self.alloc, &self.channels, &self.pending, item)?;
        run.reserve(&self.pending)?;
        Ok(run)
    }

    /// Carries out a plan that was made of this hold in its present state, and says whether the log grew. It takes no
    /// memory. A socket has no mark to settle.
    pub fn commit(&mut self, plan: SocketPlan) -> bool
        requires { IsRunReady self.old plan }
        ensures state { self.new.state ≡ grown self.old.state plan }
        ensures settled { (went_on : Bool) (window : List Item) → settled_if went_on window self.new.state ≡ self.new.state }
        ensures grew { result ≡ not (length plan.pieces == 0) }
    {
        let grows = !plan.is_empty();
        self.ended = plan.ended();
        self.pending.append(plan);
        grows
    }

    /// Gives the next batch, and the end where nothing is left. An error changes nothing.
    pub fn take(&mut self) -> Result<Taken, AllocError>
        ensures gives { (now : ℕ) → IfOk result (λ taken. taken ≡ taken_of now self.old.state) }
        ensures leaves { (now : ℕ) → OnOk result (self.new.state ≡ after_take now self.old.state) }
        ensures err { OnErr result (self.new ≡ self.old) }
    {
        let pieces = self.pending.take()?;
        let ended = if self.pending.is_empty() {
            self.ended
        } else {
            None
        };
        Ok(Taken {
            pieces,
            recover: None,
            ended,
        })
    }

    /// Its kind: a WebSocket.
    pub fn kind(&self) -> HoldKind
        ensures of { result ≡ self.now.state.terms.kind }
        ensures is { result ≡ SocketKind }
    {
        let _ = &self.ended;
        HoldKind::Socket
    }

    /// Why it ended, and none while it is live.
    pub fn cause(&self) -> Option<EndCause>
        ensures { result ≡ self.now.state.ended }
    {
        self.ended
    }

    /// A copy of the pieces that wait.
    pub fn pending(&self) -> Result<Pieces, AllocError>
        ensures { IfOk result (λ pieces. pieces ≡ self.now.state.pending) }
    {
        self.pending.copy()
    }

    /// No position.
    pub fn position(&self) -> Option<&ItemId>
        ensures { option_map (λ id. id.now) result ≡ self.now.state.position }
    {
        let _ = &self.ended;
        None
    }
}
