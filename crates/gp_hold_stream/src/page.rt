//! What a page of a recovery is to do to a stream hold, and the parts of its plan.
ghost use Rattle.std.specs.Prelude.{◌≡◌, ◌&&◌, ◌||◌, IfOk};
ghost use Rattle.gp_plain.specs.Holds.{is_end, is_next};
ghost use Rattle.gp_plain.specs.Pieces.{id_or};
ghost use Rattle.gp_plain.specs.Tails.{ahead};
ghost use Rattle.gp_plain.specs.declared.reply.Piece.TheVariants.{Page as PagePiece};

use gp_plain::{Body, ItemId, Name, Piece, Run, Tail, Then};
use std::alloc::{AllocError, Global};

/// What a page of a recovery is to do to a stream hold.
///
/// It is a type of its own, since a page, other than an item, sets the marks anew, may end the hold behind what it adds,
/// and is answered otherwise where it is stale.
#[derive(Drop)]
pub enum PagePlan {
    /// The page begins at the position. Its pieces are added, the position moves to the last id that they have, and the
    /// hold that lives behind them is closed where the page is the last.
    Page {
        run: Run,
        position: Option<ItemId>,
        last: bool,
        want: bool,
    },
    /// The page begins elsewhere. It adds nothing, and is answered by where it begins and by the position.
    Stale {
        from: ItemId,
        position: ItemId,
        want: bool,
    },
}

/// Whether a hold wants to ask for more behind a page: it has a link, and there is a next page, or it may have missed more
/// and the window shows that there is more.
pub fn wants_behind<I: Tail>(
    link: bool,
    next: bool,
    missed_more: bool,
    channel: &Name,
    position: &ItemId,
    window: &I,
) -> bool
    ensures { result ≡ (link && (next || (missed_more && ahead channel.now position.now (I.items window.now)))) }
{
    link && (next || (missed_more && window.ahead(channel, position)))
}

/// Whether the stream ends with the page.
pub fn is_last(then: Then) -> bool
    ensures { result ≡ is_end then }
{
    matches!(then, Then::End)
}

/// Whether there is a next page to ask for.
pub fn has_next(then: Then) -> bool
    ensures { result ≡ is_next then }
{
    matches!(then, Then::Next)
}

/// The piece of a page. It copies the bytes, once.
pub fn page_piece(
    alloc: Global,
    from: &ItemId,
    to: &ItemId,
    bytes: &Body,
) -> Result<Piece, AllocError>
    ensures { IfOk result (λ piece. piece ≡ PagePiece from.now to.now bytes.now) }
{
    Ok(Piece::Page {
        from: from.copy(alloc)?,
        to: to.copy(alloc)?,
        bytes: bytes.copy(alloc)?,
    })
}

/// The position, once it moved to an id, where there is one.
pub fn moved_from<'p>(position: &'p Option<ItemId>, from: &'p ItemId) -> &'p ItemId
    ensures { result.now ≡ id_or position.now from.now }
{
    match position {
        Some(id) => id,
        None => from,
    }
}
