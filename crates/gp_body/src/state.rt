ghost use Rattle.std.specs.Prelude.{◌≡◌, true, IfSome, ℕ, ◌+◌, ◌≤◌};
ghost use Rattle.gp_body.specs.Steps.{first_state, after, after_size, after_extension, after_field_byte, is_extension_byte, is_framing, is_end, IsSound, content_len, behind};

use crate::plan::BodyPlan;

/// The most bytes of a chunk's size line, with the CRLF that ends it.
pub(crate) const MAX_SIZE_LINE: u16 = 256;

/// The most bytes of the field lines behind the last chunk, with their CRLFs.
pub(crate) const MAX_TRAILER: u16 = 16384;

/// The most digits of a chunk's size.
pub(crate) const MAX_DIGITS: u8 = 8;

/// What a body waits for.
///
/// ```text
/// Size -> Extension -> SizeReturn -> Data -> DataReturn -> Size
///    \________________/         \
///                                Trailer -> Field -> FieldReturn -> Trailer
///                                       \-> LastReturn -> Left(0)
/// ```
#[derive(Clone, Copy, Drop)]
pub(crate) enum State {
    /// So many bytes of content, and then the end. With 0 the body has ended.
    Left(u64),
    /// Content up to the close.
    Stream,
    /// A digit of a chunk's size, or what follows the digits. So many have come, and this is their value.
    Size { digits: u8, size: u32 },
    /// A byte of the extensions in a size line, or the CR behind them. So many bytes of the line have come.
    Extension { size: u32, line: u16 },
    /// The LF of a size line.
    SizeReturn { size: u32 },
    /// So many bytes of a chunk's data, and then the CR behind them.
    Data(u32),
    /// The LF behind a chunk's data.
    DataReturn,
    /// A field line or the empty line. So many bytes of field lines have come.
    Trailer(u16),
    /// A byte of a field line that has begun, or the CR behind it.
    Field(u16),
    /// The LF of a field line.
    FieldReturn(u16),
    /// The LF of the empty line.
    LastReturn,
}

impl State {
    /// What a body of this plan waits for at first.
    pub(crate) fn first(plan: BodyPlan) -> State
        ensures { result ≡ first_state plan }
    {
        match plan {
            BodyPlan::None => State::Left(0),
            BodyPlan::Length(length) => State::Left(length),
            BodyPlan::Chunked => State::Size { digits: 0, size: 0 },
            BodyPlan::ToClose => State::Stream,
        }
    }

    /// Whether the body has ended.
    pub(crate) fn is_end(self) -> bool
        ensures { result ≡ is_end self }
    {
        matches!(self, State::Left(0))
    }

    /// Whether a byte that isn't content is waited for.
    pub(crate) fn is_framing(self) -> bool
        ensures { result ≡ is_framing self }
    {
        match self {
            State::Left(_) | State::Stream => false,
            State::Data(left) => left == 0,
            _ => true,
        }
    }

    /// How many of the next bytes, of which there are so many, are content.
    pub(crate) fn content_len(self, len: usize) -> usize
        ensures { result ≡ content_len self len }
    {
        match self {
            State::Left(left) => len.min(left as usize),
            State::Stream => len,
            State::Data(left) => len.min(left as usize),
            _ => 0,
        }
    }

    /// What is waited for behind so many bytes of content.
    pub(crate) fn behind(self, run: usize) -> State
        requires { run ≤ content_len self run }
        ensures { result ≡ behind self run }
    {
        match self {
            State::Left(left) => State::Left(left - run as u64),
            State::Data(left) => State::Data(left - run as u32),
            _ => self,
        }
    }

    /// What is waited for behind a byte that isn't content, or nothing where no such byte may stand there.
    #[tactic(auto, unfolding(crate::specs::Steps::after))]
    pub(crate) fn after(self, byte: u8) -> Option<State>
        requires sound { IsSound self }
        requires framing { is_framing self ≡ true }
        ensures next { result ≡ after self byte }
        ensures sound { IfSome result IsSound }
    {
        match (self, byte) {
            (State::Size { digits, size }, _) => after_size(digits, size, byte),
            (State::Extension { size, line }, _) => after_extension(size, line, byte),
            (State::SizeReturn { size: 0 }, b'\n') => Some(State::Trailer(0)),
            (State::SizeReturn { size }, b'\n') => Some(State::Data(size)),
            (State::Data(0), b'\r') => Some(State::DataReturn),
            (State::DataReturn, b'\n') => Some(State::Size { digits: 0, size: 0 }),
            (State::Trailer(_), b'\r') => Some(State::LastReturn),
            (State::Field(length), b'\r') => Some(State::FieldReturn(length)),
            (State::Trailer(length) | State::Field(length), _) => after_field_byte(length, byte),
            (State::FieldReturn(length), b'\n') => Some(State::Trailer(length + 2)),
            (State::LastReturn, b'\n') => Some(State::Left(0)),
            _ => None,
        }
    }
}

fn after_size(digits: u8, size: u32, byte: u8) -> Option<State>
    requires { IsSound (State.Size digits size) }
    ensures next { result ≡ after_size digits size byte }
    ensures sound { IfSome result IsSound }
{
    match (char::from(byte).to_digit(16), byte) {
        (Some(digit), _) if digits < MAX_DIGITS => Some(State::Size {
            digits: digits + 1,
            size: size * 16 + digit,
        }),
        (None, b'\r') if digits > 0 => Some(State::SizeReturn { size }),
        (None, b';') if digits > 0 => Some(State::Extension {
            size,
            line: u16::from(digits) + 1,
        }),
        _ => None,
    }
}

fn after_extension(size: u32, line: u16, byte: u8) -> Option<State>
    ensures next { result ≡ after_extension size line byte }
    ensures sound { IfSome result IsSound }
{
    if byte == b'\r' {
        Some(State::SizeReturn { size })
    } else if is_extension_byte(byte) && line < MAX_SIZE_LINE - 2 {
        Some(State::Extension {
            size,
            line: line + 1,
        })
    } else {
        None
    }
}

/// Neither CR, LF nor another control; a tab may stand.
fn is_extension_byte(byte: u8) -> bool
    ensures { result ≡ is_extension_byte byte }
{
    byte == b'\t' || !byte.is_ascii_control()
}

fn after_field_byte(length: u16, byte: u8) -> Option<State>
    ensures next { result ≡ after_field_byte length byte }
    ensures sound { IfSome result IsSound }
{
    if byte != b'\r' && byte != b'\n' && length < MAX_TRAILER - 2 {
        Some(State::Field(length + 1))
    } else {
        None
    }
}
