/// What a feed took. The bytes of content are those from `from` up to `to`, and they may be none.
#[derive(Clone, Copy, Drop, Debug, PartialEq)]
pub struct Fed {
    /// How many bytes were taken.
    pub taken: usize,
    /// Where the run of content begins in the bytes.
    pub from: usize,
    /// Where it ends.
    pub to: usize,
    /// Whether the body has ended behind the bytes taken.
    pub end: bool,
}

/// Why a body is refused. The same refusal is answered again afterwards.
#[derive(Clone, Copy, Drop, Debug, PartialEq)]
pub enum FedFault {
    /// The place at which the grammar of chunks can't go on, counted from the body's first byte. A place above
    /// `u64::MAX` is told as `u64::MAX`.
    Chunk(u64),
    /// The body has more content than this limit.
    TooLong(u64),
    /// The input ended behind so many bytes of content, and the body hadn't ended.
    Cut(u64),
}

/// What a feed of all bytes took.
#[derive(Clone, Copy, Drop, Debug, PartialEq)]
pub struct FedAll {
    /// How many bytes were taken: all, unless the body ended among them.
    pub taken: usize,
    /// Whether the body has ended behind the bytes taken.
    pub end: bool,
}

/// Why a feed of all bytes gives up.
#[derive(Clone, Copy, Drop, Debug, PartialEq)]
pub enum FedAllFault {
    /// The body is refused. Its content before the fault was given.
    Body(FedFault),
    /// There is no memory for the content. Nothing was taken.
    NoMemory,
}
