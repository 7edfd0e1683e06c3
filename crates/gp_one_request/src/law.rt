//! One request.
ghost use Rattle.gp_one_request.specs.OneRequest.{RequestLaw};

/// The law of a request. Bytes that begin with a whole request begin with no other one. Its head hasn't only begun, its body
/// isn't underway, and neither is refused. Bytes that come behind it are bytes that it leaves unused, and a refusal stays,
/// whatever bytes come behind it.
pub fn request_law()
    ensures { RequestLaw }
{}
