ghost use Rattle.std.specs.Prelude.{◌≡◌, map, string_bytes, MatchResult, Ok, Err};
ghost use Rattle.gp_serve.specs.Words.{command_of, serve_of};
ghost use Rattle.gp_serve.specs.Commands.{command_as};

use crate::options::Asked;

/// What a command line asks for.
#[derive(Drop)]
pub enum Command<'a> {
    /// The replay of the script at a path.
    Replay(&'a str),
    /// A server over the routes file at a path, with options.
    Serve(&'a str, Asked<'a>),
}

/// What the words behind `serve` ask for, or the place of the faulty word.
fn serve_in(words: &[String]) -> Result<Command<'_>, u32>
    ensures { MatchResult result (λ command. serve_of (map string_bytes words.now) ≡ Ok (command_as command)) (λ place. serve_of (map string_bytes words.now) ≡ Err place) }
{
    match words {
        [] => Err(1),
        [path, options @ ..] => {
            let asked = Asked::nothing().read(2, options)?;
            Ok(Command::Serve(path.as_str(), asked))
        }
    }
}

/// What the words ask for, or the place of the faulty word.
pub fn command_in(words: &[String]) -> Result<Command<'_>, u32>
    ensures { MatchResult result (λ command. command_of (map string_bytes words.now) ≡ Ok (command_as command)) (λ place. command_of (map string_bytes words.now) ≡ Err place) }
{
    match words {
        [] => Err(0),
        [first, rest @ ..] if first.as_bytes() == b"serve".as_slice() => serve_in(rest),
        [first, ..] if first.as_bytes() != b"replay".as_slice() => Err(0),
        [_first] => Err(1),
        [_first, path] => Ok(Command::Replay(path.as_str())),
        [_first, _path, _extra, ..] => Err(2),
    }
}
