//! What a client is sent.
ghost use Rattle.gp_session_hold.specs.Headline.{HeadlineLaw, StreamLaw, WholeLaw};

/// The law of what a client is sent. For every chain that covers the hold of a stream: the bytes that were sent are a beginning of
/// the framed text of the opening and the contents of the chain's items behind the hold's previous id, in order, each once, none
/// skipped, with nothing behind a close.
pub fn headline_law()
    ensures begins { HeadlineLaw }
    // All of it, where an end was told and nothing waits any more.
    ensures whole { WholeLaw }
{}

/// The law of the bytes of streams. What was sent of a stream that goes on, or that has ended, followed by what waits, is its text;
/// and a beginning of it where memory was wanting.
pub fn stream_law()
    ensures { StreamLaw }
{}
