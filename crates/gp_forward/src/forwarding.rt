ghost use Rattle.std.specs.Prelude.{ℕ, ◌<◌, ◌^◌, List, length, Option, IfOk, IfSome, option_map};
ghost use Rattle.gp_head.specs.Targets.{IsSplit};
ghost use Rattle.gp_forward.specs.Alone.{IsForwarded};
ghost use Rattle.gp_forward.specs.Forwards.{IsForwardable};

use crate::write::{write_body, write_fields, write_line};
use gp_head::{TargetFault, head_law, split_target};
use gp_plain::{Address, Body, Request};
use std::alloc::{AllocError, Global};

/// The path and query of a request's target.
fn path_of(alloc: Global, target: &Body) -> Result<Body, AllocError>
    requires { (path : List ℕ) × (authority : Option (List ℕ)) × IsSplit target.now path authority }
    ensures { IfOk result (λ path. (authority : Option (List ℕ)) × IsSplit target.now path authority) }
{
    match split_target(alloc, target.bytes()) {
        Ok((path, _)) => Ok(path),
        Err(TargetFault::NoMemory) => Err(AllocError),
        Err(TargetFault::Form) => unreachable!(),
    }
}

/// A port is below 65,536. It does nothing.
fn is_port(port: u16)
    ensures { port < 65536 }
{}

/// The length of a body is a number of the machine. It does nothing.
fn has_length(body: Option<&[u8]>)
    ensures { IfSome (option_map (λ b. b.now) body.entry) (λ b. length b < 2 ^ 64) }
{
    if let Some(bytes) = body {
        let _length = bytes.len();
    }
}

/// The bytes of the request that goes to the origin (RFC 9110, section 7.6).
///
/// The request line has the path and query of the target, with `/` where the path is empty, and `HTTP/1.1`. Then come the client's fields in
/// order, but for those of one connection alone, those that `connection` lists, and `content-length`, `expect`, `grip-sig` and `grip-last`;
/// `host: HOST:PORT` of the address where no `host` is left; `content-length` where there is a body; `connection: close`; `grip-sig` where
/// there is a token; and one `grip-last` for each of `lasts`. The body follows.
///
/// Where the head is within the limits of a head, the bytes are read as that head, its plan is the length of the body, or none, and the body
/// is all that follows it.
pub fn forward(
    alloc: Global,
    request: &Request,
    body: Option<&[u8]>,
    address: &Address,
    sig: Option<&[u8]>,
    lasts: &[Body],
) -> Result<Body, AllocError>
    requires { IsForwardable request.now address.now (option_map (λ s. s.now) sig) lasts.now }
    ensures { IfOk result (IsForwarded request.now (option_map (λ b. b.now) body.entry) address.now (option_map (λ s. s.now) sig.entry) lasts.now) }
{
    head_law();
    is_port(address.port);
    has_length(body);
    let path = path_of(alloc, &request.target)?;
    let mut text = Vec::new(alloc);
    write_line(&mut text, request.method.bytes(), path.bytes())?;
    let fields = request.fields.as_slice();
    write_fields(alloc, &mut text, fields, body, address, sig, lasts)?;
    write_body(&mut text, body)?;
    Ok(Body::from_vec(text))
}
