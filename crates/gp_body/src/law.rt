//! The law of bodies, the contract of a call.
ghost use Rattle.gp_body.specs.Laws.{BodyLaw};

/// What a reader reads of a text is what the grammar of bodies says of it. Where the body has ended, the text begins
/// with a body and the content is that body's; each body within the limit is read so, whatever follows it. A text in
/// which no body has ended and that isn't refused begins a body. `Chunk` tells the first place at which no body can go
/// on, and `TooLong` comes exactly at the byte of content behind the limit, or for a planned length above it.
pub fn body_law()
    ensures { BodyLaw }
{}
