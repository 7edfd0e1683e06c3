//! The law of heads, the contract of a call.
ghost use Rattle.gp_head.specs.Writable.{HeadLaw};

/// A head that was read can be written, with fields dropped and such fields added; and a head of version 1.1 that can
/// be written, within the limits of a head, is read whole from its text, whatever follows it. The path and query of a
/// target that was split is a target again, with `/` before it where its path has no byte. Visible bytes behind
/// a value of a field make a value.
pub fn head_law()
    ensures { HeadLaw }
{}
