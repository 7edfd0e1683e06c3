ghost use Rattle.std.specs.Prelude.{◌≡◌};
ghost use Rattle.gp_head.specs.Texts.{response_text};
ghost use Rattle.gp_answer.specs.Refusals.{code_of, published_head, refusal_body, refusal_head, text_of};

/// Why a request isn't served (RFC 9110, section 15.5 and 15.6).
#[derive(Clone, Copy, Drop, Debug, PartialEq)]
pub enum Refusal {
    /// 400: the request isn't one of HTTP/1, or not one that is served.
    BadRequest,
    /// 400: a WebSocket handshake of another version than 13, which is told (RFC 6455, section 4.4).
    OtherSocketVersion,
    /// 404: nothing is at this target.
    NotFound,
    /// 405: the target has no such method.
    MethodNotAllowed,
    /// 413: the body is too long.
    ContentTooLarge,
    /// 431: the head is too long, or has too many fields (RFC 6585, section 5).
    HeadTooLarge,
    /// 501: the origin isn't served in this way.
    NotImplemented,
    /// 502: the origin gave no response that can be used.
    BadGateway,
    /// 503: no more requests can be held.
    Unavailable,
}

impl Refusal {
    /// The status code.
    pub fn code(self) -> u16
        ensures { result ≡ code_of self }
    {
        match self {
            Refusal::BadRequest => 400,
            Refusal::OtherSocketVersion => 400,
            Refusal::NotFound => 404,
            Refusal::MethodNotAllowed => 405,
            Refusal::ContentTooLarge => 413,
            Refusal::HeadTooLarge => 431,
            Refusal::NotImplemented => 501,
            Refusal::BadGateway => 502,
            Refusal::Unavailable => 503,
        }
    }

    /// The head of the answer. It takes no memory.
    pub fn head(self) -> &'static [u8]
        ensures { result.now ≡ response_text (refusal_head self) }
    {
        match self {
            Refusal::BadRequest =>
                b"HTTP/1.1 400 Bad Request\r\ncontent-type: text/plain\r\ncontent-length: 12\r\nconnection: close\r\n\r\n",
            Refusal::OtherSocketVersion =>
                b"HTTP/1.1 400 Bad Request\r\ncontent-type: text/plain\r\ncontent-length: 12\r\nsec-websocket-version: 13\r\nconnection: close\r\n\r\n",
            Refusal::NotFound =>
                b"HTTP/1.1 404 Not Found\r\ncontent-type: text/plain\r\ncontent-length: 10\r\nconnection: close\r\n\r\n",
            Refusal::MethodNotAllowed =>
                b"HTTP/1.1 405 Method Not Allowed\r\ncontent-type: text/plain\r\ncontent-length: 19\r\nconnection: close\r\n\r\n",
            Refusal::ContentTooLarge =>
                b"HTTP/1.1 413 Content Too Large\r\ncontent-type: text/plain\r\ncontent-length: 18\r\nconnection: close\r\n\r\n",
            Refusal::HeadTooLarge =>
                b"HTTP/1.1 431 Request Header Fields Too Large\r\ncontent-type: text/plain\r\ncontent-length: 32\r\nconnection: close\r\n\r\n",
            Refusal::NotImplemented =>
                b"HTTP/1.1 501 Not Implemented\r\ncontent-type: text/plain\r\ncontent-length: 16\r\nconnection: close\r\n\r\n",
            Refusal::BadGateway =>
                b"HTTP/1.1 502 Bad Gateway\r\ncontent-type: text/plain\r\ncontent-length: 12\r\nconnection: close\r\n\r\n",
            Refusal::Unavailable =>
                b"HTTP/1.1 503 Service Unavailable\r\ncontent-type: text/plain\r\ncontent-length: 20\r\nconnection: close\r\n\r\n",
        }
    }

    /// The reason and a line feed.
    fn text(self) -> &'static [u8]
        ensures { result.now ≡ text_of self }
    {
        match self {
            Refusal::BadRequest => b"Bad Request\n",
            Refusal::OtherSocketVersion => b"Bad Request\n",
            Refusal::NotFound => b"Not Found\n",
            Refusal::MethodNotAllowed => b"Method Not Allowed\n",
            Refusal::ContentTooLarge => b"Content Too Large\n",
            Refusal::HeadTooLarge => b"Request Header Fields Too Large\n",
            Refusal::NotImplemented => b"Not Implemented\n",
            Refusal::BadGateway => b"Bad Gateway\n",
            Refusal::Unavailable => b"Service Unavailable\n",
        }
    }

    /// The body of the answer to a request with this method: the reason and a line feed, and nothing to HEAD. It takes no memory.
    pub fn body(self, method: &[u8]) -> &'static [u8]
        ensures { result.now ≡ refusal_body self method.now }
    {
        if method == b"HEAD".as_slice() {
            &[]
        } else {
            self.text()
        }
    }
}

/// The head of the answer to a publish request all of whose items stand; its body is `Published` and a line feed. It takes no memory.
#[tactic(auto, using(crate::proofs::Texts::published))]
pub fn published_head() -> &'static [u8]
    ensures { result.now ≡ response_text published_head }
{
    b"HTTP/1.1 200 OK\r\ncontent-type: text/plain\r\ncontent-length: 10\r\nconnection: close\r\n\r\n"
}
