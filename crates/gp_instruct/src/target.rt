ghost use Rattle.std.specs.Prelude.{IfOk, MatchBool};
ghost use Rattle.http_uri.specs.Uri.{Spells};
ghost use Rattle.gp_instruct.specs.Targets.{IsTarget};

use http_uri::{Uri, UriError};
use std::alloc::{AllocError, Global};

/// Whether the URI of a link is a path that begins with `/` or an absolute URI (RFC 9112, sections 3.2.1 and 3.2.2).
/// The grammar is that of `http_uri`, which takes at most 65,534 bytes, with a scheme that isn't empty.
pub(crate) fn is_target(alloc: Global, text: &[u8]) -> Result<bool, AllocError>
    ensures { IfOk result (λ yes. MatchBool yes (IsTarget text.now) (¬ (IsTarget text.now))) }
{
    match Uri::from_bytes(alloc, text) {
        Ok(uri) => Ok(is_target_form(text, &uri)),
        Err(UriError::Invalid(_)) => Ok(false),
        Err(UriError::OutOfMemory) => Err(AllocError),
    }
}

/// The same of a text that spells this URI.
fn is_target_form(text: &[u8], uri: &Uri) -> bool
    requires { Spells text.now uri.now }
    ensures { MatchBool result (IsTarget text.now) (¬ (IsTarget text.now)) }
{
    let Some(scheme) = uri.scheme_str() else {
        return match uri.authority() {
            Some(_) => false,
            None => text[0] == b'/',
        };
    };
    !scheme.is_empty()
}
