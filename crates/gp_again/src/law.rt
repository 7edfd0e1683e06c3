//! What meets the condition of a link, the contract of a call.
ghost use Rattle.gp_again.specs.Links.{LinkLaw};

/// The link of an instruction that was read of fields or of a body, and that of a page, can be asked: it is a path that begins with `/`, or an
/// absolute URI (RFC 9112, sections 3.2.1 and 3.2.2).
pub fn link_law()
    ensures { LinkLaw }
{}
