//! The head of a request, turned to a link.
ghost use Rattle.std.specs.Prelude.{◌≡◌, ◌==◌, ℕ, List, Option, IfOk, OnErr, OnOk, codes, slice_index};
ghost use Rattle.gp_head.specs.Targets.{IsSplit};
ghost use Rattle.gp_head.specs.Writable.{with_slash};
ghost use Rattle.gp_instruct.specs.Targets.{IsTarget};
ghost use Rattle.gp_forward.specs.Conditions.{CanAsk};
ghost use Rattle.gp_again.specs.Quests.{IsAimed};

use gp_exchange::forward_law;
use gp_head::{TargetFault, split_target};
use gp_plain::{Body, Request};
use std::alloc::{AllocError, Global};

/// The path and query of a link.
fn path_of(alloc: Global, link: &Body) -> Result<Body, AllocError>
    requires { IsTarget link.now }
    ensures { IfOk result (λ path. (authority : Option (List ℕ)) × IsSplit link.now path authority) }
{
    forward_law();
    match split_target(alloc, link.bytes()) {
        Ok((path, _)) => Ok(path),
        Err(TargetFault::NoMemory) => Err(AllocError),
        Err(TargetFault::Form) => unreachable!(),
    }
}

/// Whether the first byte is `/`, 47.
fn begins_with_slash(path: &[u8]) -> bool
    ensures { result ≡ (slice_index path.now 0 == 47) }
{
    !path.is_empty() && path[0] == b'/'
}

/// A path and query as a request target: `/` stands before one whose path is empty (RFC 9112, section 3.2.1).
fn with_slash(alloc: Global, path: Body) -> Result<Body, AllocError>
    ensures { IfOk result (λ target. target ≡ with_slash path) }
{
    if begins_with_slash(path.bytes()) {
        return Ok(path);
    }
    let mut target = Vec::from_slice(alloc, b"/")?;
    target.extend_from_slice(path.bytes())?;
    Ok(Body::from_vec(target))
}

/// The method by which a page is asked for (RFC 9110, section 9.3.1).
fn get(alloc: Global) -> Result<Body, AllocError>
    ensures { IfOk result (λ method. method ≡ codes "GET") }
{
    Body::new(alloc, b"GET")
}

/// Turns a head to the path and query of a link, by GET. Where memory is wanting, it stays.
pub(crate) fn aim(alloc: Global, head: &mut Request, link: &Body) -> Result<(), AllocError>
    requires head { CanAsk head.old }
    requires link { IsTarget link.now }
    ensures ok { OnOk result (IsAimed head.old link.now head.new) }
    ensures err { OnErr result (head.new ≡ head.old) }
    ensures can { CanAsk head.new }
{
    forward_law();
    let path = path_of(alloc, link)?;
    let target = with_slash(alloc, path)?;
    let method = get(alloc)?;
    head.method = method;
    head.target = target;
    Ok(())
}
