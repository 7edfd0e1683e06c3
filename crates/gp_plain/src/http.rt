use crate::body::Body;
use crate::item::Fields;

/// Where an origin listens.
#[derive(Drop)]
pub struct Address {
    /// The name of the host, or its address.
    pub host: Body,
    /// The port, from 1 on.
    pub port: u16,
}

/// The head of a request (RFC 9112, section 3). `version` is the minor version, the 0 or 1 after `HTTP/1.`.
#[derive(Drop)]
pub struct Request {
    /// The method, as `GET`; its case counts.
    pub method: Body,
    /// The request target, as it came.
    pub target: Body,
    /// The minor version of HTTP/1: 0 or 1.
    pub version: u8,
    /// The fields, in order, with names in lower case.
    pub fields: Fields,
}

/// The head of a response (RFC 9112, section 4). `version` is the minor version, the 0 or 1 after `HTTP/1.`.
#[derive(Drop)]
pub struct Response {
    /// The minor version of HTTP/1: 0 or 1.
    pub version: u8,
    /// The status code.
    pub code: u16,
    /// The reason phrase; it may be empty.
    pub reason: Body,
    /// The fields, in order, with names in lower case.
    pub fields: Fields,
}

/// What requests to the origin are signed with, where there is a key.
#[derive(Drop)]
pub struct Signer {
    /// The key of the tokens, of 1 to 255 bytes.
    pub key: Option<Body>,
}
