ghost use Rattle.std.specs.Prelude.{◌≡◌, IfOk, IfErr, option_map};
ghost use Rattle.gp_ws.specs.Handshakes.{IsAccepted, IsUpgradeFault, accept_of, has_version_13, is_key, is_upgrade, only_value};
ghost use Rattle.gp_ws.specs.declared.upgrade.UpgradeFault.TheVariants.{NoMemory};

use base64::DecodeAllocError;
use base64::engine::general_purpose::STANDARD;
use gp_plain::{Body, Field, Request};
use gp_text::{first_value, has_part, is_named};
use sha1::Sha1;
use std::alloc::{AllocError, Global};

/// Why a request for a WebSocket is refused (RFC 6455, section 4.2.1). The faults are tried in this order.
#[derive(Clone, Copy, Drop, Debug, PartialEq)]
pub enum UpgradeFault {
    /// The method isn't GET.
    Method,
    /// There isn't exactly one version, or it isn't 13.
    Version,
    /// There isn't exactly one key, or it isn't base64 of 16 bytes.
    Key,
    /// Memory is wanting.
    NoMemory,
}

/// What is signed behind a key (RFC 6455, section 1.3).
const GUID: &[u8] = b"258EAFA5-E914-47DA-95CA-C5AB0DC85B11";

/// How many bytes a key encodes.
const KEY_BYTES: usize = 16;

/// Whether a request asks to change to the WebSocket protocol (RFC 9110, section 7.8): an `upgrade` field lists `websocket`, and
/// a `connection` field lists `upgrade`, each in either case. It takes no memory.
pub fn is_upgrade(head: &Request) -> bool
    ensures { result ≡ is_upgrade head.now }
{
    let fields = head.fields.as_slice();
    has_part(fields, b"upgrade", b"websocket") && has_part(fields, b"connection", b"upgrade")
}

/// The value of `sec-websocket-accept` for a key (RFC 6455, section 4.2.2).
pub fn accept_key(alloc: Global, key: &[u8]) -> Result<Body, AllocError>
    ensures { IfOk result (λ accept. accept ≡ accept_of key.now) }
{
    let mut hasher = Sha1::new();
    hasher.update(key);
    hasher.update(GUID);
    let text = STANDARD.encode(alloc, &hasher.finalize())?;
    Ok(Body::from_vec(text.into_bytes()))
}

/// The value of the field of a name, where there is exactly one.
fn only_value<'a>(fields: &'a [Field], name: &[u8]) -> Option<&'a [u8]>
    ensures { option_map (λ value. value.now) result ≡ only_value name.now fields.now }
{
    if fields.iter().filter(|field| is_named(field, name)).count() == 1 {
        first_value(fields, name)
    } else {
        None
    }
}

fn has_version_13(head: &Request) -> bool
    ensures { result ≡ has_version_13 head.now }
{
    match only_value(head.fields.as_slice(), b"sec-websocket-version") {
        Some(version) => version == b"13".as_slice(),
        None => false,
    }
}

/// Whether a text is base64 of 16 bytes.
fn is_key(alloc: Global, text: &[u8]) -> Result<bool, AllocError>
    ensures { IfOk result (λ told. told ≡ is_key text.now) }
{
    match STANDARD.decode(alloc, text) {
        Ok(bytes) => Ok(bytes.len() == KEY_BYTES),
        Err(DecodeAllocError::OutOfMemory) => Err(AllocError),
        Err(DecodeAllocError::DecodeError(_)) => Ok(false),
    }
}

/// The value of `sec-websocket-accept` of the answer to a request for a WebSocket, or why it is refused (RFC 6455, sections 4.2.1
/// and 4.2.2).
pub fn handshake(alloc: Global, head: &Request) -> Result<Body, UpgradeFault>
    ensures ok { IfOk result (λ accept. IsAccepted head.now accept) }
    ensures err { IfErr result (λ fault. IsUpgradeFault head.now fault) }
{
    if head.method.bytes() != b"GET".as_slice() {
        return Err(UpgradeFault::Method);
    }
    if !has_version_13(head) {
        return Err(UpgradeFault::Version);
    }
    let Some(key) = only_value(head.fields.as_slice(), b"sec-websocket-key") else {
        return Err(UpgradeFault::Key);
    };
    match is_key(alloc, key) {
        Ok(true) => accepted(alloc, key),
        Ok(false) => Err(UpgradeFault::Key),
        Err(_) => Err(UpgradeFault::NoMemory),
    }
}

/// The accept value of a key.
fn accepted(alloc: Global, key: &[u8]) -> Result<Body, UpgradeFault>
    ensures ok { IfOk result (λ accept. accept ≡ accept_of key.now) }
    ensures err { IfErr result (λ fault. fault ≡ NoMemory) }
{
    match accept_key(alloc, key) {
        Ok(accept) => Ok(accept),
        Err(_) => Err(UpgradeFault::NoMemory),
    }
}
