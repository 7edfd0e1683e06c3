//! The laws of frames, the contract of a call.
ghost use Rattle.gp_ws.specs.Cuts.{CutLaw};
ghost use Rattle.gp_ws.specs.Fragments.{FragmentLaw};
ghost use Rattle.gp_ws.specs.Sent.{SentLaw};

/// Messages don't depend on how the bytes of a client are cut into reads: to read, to be fed more and to read again gives what is given
/// where all was fed first.
pub fn cut_law()
    ensures { CutLaw }
{}

/// A frame in which a client sends a message, masked, is read as that message. A control message may stand between the fragments of
/// another message, which are kept.
pub fn sent_law()
    ensures { SentLaw }
{}

/// A message that a client sends in fragments is read as their bytes, joined.
pub fn fragment_law()
    ensures { FragmentLaw }
{}
