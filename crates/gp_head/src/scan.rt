ghost use Rattle.std.specs.Prelude.{◌≡◌, false};
ghost use Rattle.gp_head.specs.Lines.{extent_of};
ghost use Rattle.gp_head.specs.Steps.{after, begins_field};
ghost use Rattle.gp_head.specs.Scans.{opening, moved, after_all, scan_of, is_settled, extent_told, IsSound, HasSeen};

/// The most bytes of a head, the empty lines before it and its last line among them.
pub const MAX_HEAD: usize = 16384;

/// The most field lines of a head.
pub const MAX_FIELDS: usize = 64;

/// How far a head reaches in the bytes that have come.
#[derive(Clone, Copy, Drop)]
pub(crate) enum Extent {
    /// More field lines than a head may have have begun.
    TooMany,
    /// The end isn't within the most bytes that a head may have.
    TooLong,
    /// The end hasn't come.
    More,
    /// The head text is the first so many bytes.
    Ends(usize),
}

/// Where the next byte stands.
///
/// ```text
/// Before -> First -> Start -> End
///                    ^   \
///                    Inside
/// ```
#[derive(Clone, Copy, Drop)]
pub(crate) enum State {
    /// At the start of a line, and the first line of the head hasn't begun.
    Before,
    /// The same, behind a carriage return that begins the line.
    BeforeReturn,
    /// In the first line.
    First,
    /// At the start of a line behind the first one.
    Start,
    /// The same, behind a carriage return that begins the line.
    StartReturn,
    /// In such a line.
    Inside,
    /// Behind the empty line that ends the head.
    End,
}

impl State {
    /// Where the byte behind this one stands.
    fn after(self, byte: u8) -> State
        ensures { result ≡ after self byte }
    {
        match (self, byte) {
            (State::Before | State::BeforeReturn, b'\n') => State::Before,
            (State::Before, b'\r') => State::BeforeReturn,
            (State::Before | State::BeforeReturn, _) => State::First,
            (State::First | State::Inside, b'\n') => State::Start,
            (State::First, _) => State::First,
            (State::Start | State::StartReturn, b'\n') => State::End,
            (State::Start, b'\r') => State::StartReturn,
            (State::Start | State::StartReturn | State::Inside, _) => State::Inside,
            (State::End, _) => State::End,
        }
    }

    /// Whether this byte begins a field line.
    fn begins_field(self, byte: u8) -> bool
        ensures { result ≡ begins_field self byte }
    {
        matches!(self, State::Start) && byte != b'\r' && byte != b'\n'
    }
}

/// How far a head was scanned.
#[derive(Drop)]
pub(crate) struct Scan {
    /// How many bytes were looked at: all that have come, up to the one that settles the answer.
    seen: usize,
    /// How many field lines have begun. One more than a head may have settles the answer.
    fields: usize,
    /// Where the next byte stands.
    state: State,
}

impl Scan {
    /// A head of which nothing has come.
    pub(crate) fn opening() -> Scan
        ensures opening { result ≡ opening }
        ensures sound { IsSound result }
    {
        Scan {
            seen: 0,
            fields: 0,
            state: State::Before,
        }
    }

    /// How far the head reaches in all bytes that have come. It looks at those alone that it hasn't seen, and at no
    /// more than `MAX_HEAD` in all.
    pub(crate) fn extent_of(&mut self, bytes: &[u8]) -> Extent
        requires sound { IsSound self.old }
        requires seen { HasSeen self.old bytes.now }
        ensures extent { result ≡ extent_of bytes.now }
        ensures scan { self.new ≡ scan_of bytes.now }
        ensures sound { IsSound self.new }
    {
        self.take(&bytes[self.seen..]);
        self.told()
    }

    /// Looks at bytes, up to the one that settles the answer.
    fn take(&mut self, bytes: &[u8])
        requires { IsSound self.old }
        ensures scan { self.new ≡ after_all bytes.now self.old }
        ensures sound { IsSound self.new }
    {
        for byte in bytes {
            if self.is_settled() {
                return;
            }
            self.step(*byte);
        }
    }

    /// Looks at one more byte.
    fn step(&mut self, byte: u8)
        requires sound { IsSound self.old }
        requires open { is_settled self.old ≡ false }
        ensures scan { self.new ≡ moved self.old byte }
        ensures sound { IsSound self.new }
    {
        if self.state.begins_field(byte) {
            self.fields += 1;
        }
        self.seen += 1;
        self.state = self.state.after(byte);
    }

    /// Whether no byte that follows changes the answer.
    fn is_settled(&self) -> bool
        ensures { result ≡ is_settled self.now }
    {
        matches!(self.state, State::End) || self.fields > MAX_FIELDS || self.seen == MAX_HEAD
    }

    /// How far the head reaches in what was seen.
    fn told(&self) -> Extent
        ensures { result ≡ extent_told self.now }
    {
        if self.fields > MAX_FIELDS {
            Extent::TooMany
        } else if let State::End = self.state {
            Extent::Ends(self.seen)
        } else if self.seen == MAX_HEAD {
            Extent::TooLong
        } else {
            Extent::More
        }
    }
}
