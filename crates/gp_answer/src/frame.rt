//! The frame of a stream (RFC 9112, section 7.1).
ghost use Rattle.std.specs.Prelude.{◌≡◌};
ghost use Rattle.gp_answer.specs.Frames.{FrameLaw, last_chunk};

use gp_plain::EndCause;

/// The law of frames. A frame grows at its end, by the parts that are added and then by the last chunk where there is one.
pub fn frame_law()
    ensures { FrameLaw }
{}

/// What stands behind the parts of a stream in chunks, or up to the close, which ended for this cause: the last chunk where it
/// was closed, and else nothing.
pub fn last_chunk(chunked: bool, cause: Option<EndCause>) -> &'static [u8]
    ensures { result.now ≡ last_chunk chunked cause }
{
    match (chunked, cause) {
        (true, Some(EndCause::Closed)) => b"0\r\n\r\n",
        _ => b"",
    }
}
