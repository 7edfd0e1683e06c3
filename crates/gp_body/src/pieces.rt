ghost use Rattle.std.specs.Prelude.{◌≡◌, ◌++◌, IfOk};
ghost use Rattle.std.specs.List.{flat_map};
ghost use Rattle.gp_body.specs.Readings.{after_all, content_from};
ghost use Rattle.gp_body.specs.Wholes.{IsReadOf};

use crate::fed::{FedAllFault, FedFault};
use crate::plan::BodyPlan;
use crate::reader::BodyReader;
use gp_plain::Body;
use std::alloc::{AllocError, Global};

/// What was read of a body.
#[derive(Drop)]
pub struct BodyRead {
    /// The runs of content, joined.
    pub content: Body,
    /// Whether the body has ended.
    pub end: bool,
    /// Why the body was refused, if it was.
    pub refused: Option<FedFault>,
}

/// Feeds a reader with pieces, in order. However a text is cut into pieces, the content, the end and the refusal are
/// those of the whole text.
pub fn read_pieces(
    alloc: Global,
    plan: BodyPlan,
    limit: u64,
    pieces: &[Body],
) -> Result<BodyRead, AllocError>
    ensures { IfOk result (IsReadOf plan limit (flat_map (λ piece. piece) pieces.now)) }
{
    let mut reader = BodyReader::new(plan, limit);
    let mut content = Vec::new(alloc);
    for piece in pieces {
        feed_piece(&mut reader, piece.bytes(), &mut content)?;
    }
    Ok(BodyRead {
        content: Body::from_vec(content),
        end: reader.is_end(),
        refused: reader.refusal(),
    })
}

/// Feeds one piece, and adds its content, up to a refusal if there is one.
fn feed_piece(
    reader: &mut BodyReader,
    piece: &[u8],
    content: &mut Vec<u8>,
) -> Result<(), AllocError>
    ensures { IfOk result (λ _. (reader.new ≡ after_all piece.now reader.old) × (content.new.items ≡ content.old.items ++ content_from piece.now reader.old)) }
{
    match reader.feed_all(piece, content) {
        Ok(_) => Ok(()),
        Err(FedAllFault::Body(_)) => Ok(()),
        Err(FedAllFault::NoMemory) => Err(AllocError),
    }
}
