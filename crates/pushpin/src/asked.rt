ghost use Rattle.std.specs.Prelude.{◌≡◌, map, string_bytes};
ghost use Rattle.pushpin.specs.Asking.{asked_of};

use crate::texts::{HELP, VERSION};

/// What is asked about the program itself.
#[derive(Clone, Copy, Drop)]
pub enum Asked {
    /// How it is used: `--help`.
    Help,
    /// Which one it is: `--version`.
    Version,
}

/// What the words ask about the program, where they are one word that does.
pub fn question(words: &[String]) -> Option<Asked>
    ensures { result ≡ asked_of (map string_bytes words.now) }
{
    match words {
        [word] if word.as_bytes() == b"--help".as_slice() => Some(Asked::Help),
        [word] if word.as_bytes() == b"--version".as_slice() => Some(Asked::Version),
        _ => None,
    }
}

impl Asked {
    /// The answer.
    pub fn answer(self) -> &'static str {
        match self {
            Asked::Help => HELP,
            Asked::Version => VERSION,
        }
    }
}
