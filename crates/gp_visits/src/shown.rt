use crate::visit::Visit;
use gp_escapes::escaped;
use gp_plain::{Piece, Taken};
use std::alloc::{AllocError, Global};

fn push(text: &mut String, line: String) -> Result<(), AllocError> {
    text.push_str(line.as_str())?;
    text.push('\n')
}

/// What was sent, how the session ended, and how many items it published.
pub fn show_visit(
    alloc: Global,
    text: &mut String,
    visit: Option<&Visit>,
) -> Result<(), AllocError> {
    let Some(visit) = visit else {
        return push(text, format!(in alloc; "goes on")?);
    };
    let sent = escaped(alloc, visit.link.sent())?;
    push(text, format!(in alloc; "sent {sent}")?)?;
    let outcome = &visit.outcome;
    let (end, why, published) = (outcome.end, outcome.why, outcome.published);
    push(
        text,
        format!(in alloc; "{end:?} {why:?} published {published}")?,
    )
}

/// The text of the pieces that a hold took.
pub fn show_taken(
    alloc: Global,
    text: &mut String,
    taken: Option<&Taken>,
) -> Result<(), AllocError> {
    let Some(taken) = taken else {
        return push(text, format!(in alloc; "took nothing")?);
    };
    let mut bytes = Vec::new(alloc);
    for place in 0..taken.pieces.len() {
        if let Some(Piece::Item { bytes: more, .. }) = taken.pieces.at(place) {
            bytes.extend_from_slice(more.bytes())?;
        }
    }
    let shown = escaped(alloc, bytes.as_slice())?;
    push(text, format!(in alloc; "took {shown}")?)
}
