ghost use Rattle.std.specs.Prelude.{MatchResult};
ghost use Rattle.http_uri.specs.Uri.{Spells};
ghost use Rattle.gp_head.specs.Targets.{IsSplit, IsTargetFault};

use gp_plain::Body;
use http_uri::{Uri, UriError};
use std::alloc::{AllocError, Global};

/// Why a request target isn't split.
#[derive(Clone, Copy, Drop, Debug, PartialEq)]
pub enum TargetFault {
    /// It is neither a path that begins with `/` nor an absolute URI.
    Form,
    /// Memory is wanting.
    NoMemory,
}

impl From<AllocError> for TargetFault {
    ghost use Rattle.std.specs.Prelude.{◌≡◌};
    ghost use Rattle.gp_head.specs.declared.target.TargetFault.TheVariants.{NoMemory};

    ghost from_gives = { λ _ fault. fault ≡ NoMemory };

    fn from(_: AllocError) -> TargetFault {
        TargetFault::NoMemory
    }
}

/// The path and query of a request target, and the authority where it is an absolute URI (RFC 9112, sections 3.2.1
/// and 3.2.2). An absolute URI with nothing behind its authority has the path `/`; one with a query alone has a path
/// and query that begins with `?`. A fragment is dropped. The grammar is that of `http_uri`, which takes at most
/// 65,534 bytes, with a scheme that isn't empty.
pub fn split_target(alloc: Global, target: &[u8]) -> Result<(Body, Option<Body>), TargetFault>
    ensures { MatchResult result (λ parts. IsSplit target.now parts.0 parts.1) (IsTargetFault target.now) }
{
    match Uri::from_bytes(alloc, target) {
        Ok(uri) => split_uri(alloc, target, &uri),
        Err(UriError::Invalid(_)) => Err(TargetFault::Form),
        Err(UriError::OutOfMemory) => Err(TargetFault::NoMemory),
    }
}

/// The parts of a target that spells this URI.
fn split_uri(alloc: Global, target: &[u8], uri: &Uri) -> Result<(Body, Option<Body>), TargetFault>
    requires { Spells target.now uri.now }
    ensures { MatchResult result (λ parts. IsSplit target.now parts.0 parts.1) (IsTargetFault target.now) }
{
    let Some(path) = uri.path_and_query() else {
        return Err(TargetFault::Form);
    };
    let Some(scheme) = uri.scheme_str() else {
        if target[0] != b'/' {
            return Err(TargetFault::Form);
        }
        let path = Body::new(alloc, path.as_str().as_bytes())?;
        return Ok((path, None));
    };
    if scheme.is_empty() {
        return Err(TargetFault::Form);
    }
    let Some(authority) = uri.authority() else {
        return Err(TargetFault::Form);
    };
    let path = Body::new(alloc, path.as_str().as_bytes())?;
    let authority = Body::new(alloc, authority.as_str().as_bytes())?;
    Ok((path, Some(authority)))
}
