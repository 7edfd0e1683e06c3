ghost use Rattle.std.specs.Prelude.{◌≡◌};
ghost use Rattle.gp_replay.specs.Statuses.{exit_of, words_of};

/// How a run ended.
#[derive(Clone, Copy, Debug, Drop, PartialEq)]
pub enum Status {
    /// All was written.
    Done,
    /// The words aren't in the grammar of the command line: the place, from 0, of the first word after which none
    /// can follow that is, or the number of words where one is missing.
    Usage(u32),
    /// The file can't be read.
    FileFault,
    /// The file has more than 16,777,216 bytes.
    TooLong,
    /// The number, from 1, of the first line that isn't in the grammar of a script.
    BadLine(u32),
    /// The sink refused bytes; those before them were written.
    SinkFault,
    /// A port can't be listened on.
    ListenFault,
    /// Memory is wanting.
    NoMemory,
}

impl Status {
    /// The exit number. It takes no memory.
    pub fn exit(&self) -> u8
        ensures { result ≡ exit_of self.now }
    {
        match self {
            Status::Done => 0,
            Status::Usage(_) => 2,
            Status::FileFault => 3,
            Status::TooLong => 3,
            Status::BadLine(_) => 4,
            Status::SinkFault => 5,
            Status::ListenFault => 6,
            Status::NoMemory => 7,
        }
    }

    /// The words for standard error, without the number that follows `usage: word` and `bad line`, and none for Done.
    /// It takes no memory.
    pub fn words(&self) -> &str
        ensures { result.now ≡ words_of self.now }
    {
        match self {
            Status::Done => "",
            Status::Usage(_) => "usage: word",
            Status::FileFault => "cannot read file",
            Status::TooLong => "file too long",
            Status::BadLine(_) => "bad line",
            Status::SinkFault => "cannot write",
            Status::ListenFault => "cannot listen",
            Status::NoMemory => "out of memory",
        }
    }
}
