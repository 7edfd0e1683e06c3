use crate::body::Body;
use crate::event::HoldKind;
use crate::item::{Message, ResponsePart};
use crate::name::ItemId;
use crate::queue::Queue;
use crate::roomed::Roomed;

/// A part of a hold's log.
#[derive(Drop)]
pub enum Piece {
    /// What the origin answered first.
    Opening(Body),
    /// An item: the id that the position moves to, its bytes, and whether it closes the stream.
    Item {
        to: Option<ItemId>,
        bytes: Body,
        close: bool,
    },
    /// A page of a recovery.
    Page {
        from: ItemId,
        to: ItemId,
        bytes: Body,
    },
    /// A message to a socket.
    Message(Message),
    /// The answer of a response hold.
    Answer {
        to: Option<ItemId>,
        part: ResponsePart,
    },
}

/// Pieces, oldest first.
pub type Pieces = Queue<Piece>;

/// Why a hold ended.
#[derive(Clone, Copy, Drop, Debug, PartialEq)]
pub enum EndCause {
    /// A close was published or pushed, or the last page of a recovery came.
    Closed,
    /// Its owner let it go.
    Detached,
    /// Items were missed, and it has no link to recover them by.
    Gap,
    /// A page of a recovery couldn't be had.
    Unrecovered,
    /// More was waiting than a hold may keep.
    Overflow,
    /// A response hold has its answer.
    Answered,
    /// The request of a response hold is to be repeated.
    Retry,
    /// The deadline of a response hold came.
    TimedOut,
}

/// What a Take gives: pieces, the position from which missing items are to be recovered, and the end
/// where nothing is left.
#[derive(Drop)]
pub struct Taken {
    /// The pieces, in order.
    pub pieces: Pieces,
    /// The position from which the origin is to be asked for what is missing.
    pub recover: Option<ItemId>,
    /// The end of the hold, where it has ended and nothing waits any more.
    pub ended: Option<EndCause>,
}

/// The answer to an event.
#[derive(Drop)]
pub enum Reply {
    /// The hold has this number.
    Attached(u64),
    /// So many holds are kept, or channels joined, that there is no room for one more.
    Full(u32),
    /// So many holds were sent something.
    Published(u32),
    /// An item of this id on the channel is among the last 4,096 that were published.
    Repeat(ItemId),
    /// What a take gave.
    Taken(Taken),
    /// The page was added.
    Paged,
    /// The page doesn't begin at the position, and wasn't added.
    Stale { from: ItemId, position: ItemId },
    /// The event was carried out.
    Done,
    /// The hold has this owner.
    Foreign(u64),
    /// The hold has ended.
    Gone(EndCause),
    /// The hold is of this kind, which has no such event.
    OtherKind(HoldKind),
    /// No hold of this number is kept.
    Unknown(u64),
}

/// What became of a hold: the number and bytes of the pieces that were taken, the position after them,
/// and the end. A number above 2^64 - 1 is told as 2^64 - 1.
#[derive(Drop)]
pub struct HoldReport {
    /// The number of the hold.
    pub number: u64,
    /// Its kind.
    pub kind: HoldKind,
    /// How many pieces were taken of it; at most 2^64 - 1 is told.
    pub pieces: u64,
    /// How many bytes these have; at most 2^64 - 1 is told.
    pub bytes: u64,
    /// The position behind these pieces.
    pub position: Option<ItemId>,
    /// The end that a take told, or `Detached`.
    pub end: EndCause,
}

/// Reports of holds, in a list that promises room.
pub type HoldReports = Roomed<HoldReport>;
