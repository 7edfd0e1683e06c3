//! Signatures and tokens: HMAC over SHA-256 (RFC 2104), and JSON Web Tokens signed by it (RFC 7515, RFC 7519).
//!
//! [`token`] writes a token with an issuer and an end, and [`check`] gives its claims or says why they don't count.
//! It stands on gp_plain, `sha2` and `base64`, and has no handle.
#![tactic(auto)]

mod claims;
mod fault;
mod mac;
mod parts;
mod read;
mod text;
mod write;

pub use claims::Claims;
pub use fault::SigFault;
pub use mac::hmac;
pub use read::check;
pub use write::token;
