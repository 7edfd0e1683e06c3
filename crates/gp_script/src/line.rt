ghost use Rattle.std.specs.Prelude.{◌≡◌, ◌++◌, ◌∷◌, [], IfOk, OnOk, option_map, string_bytes, codes};
ghost use Rattle.std.specs.Fmt.{decimal};
ghost use Rattle.std.specs.List.{list_all};
ghost use Rattle.gp_script.specs.Spelling.{is_plain, word, id_word, names_word, spell};

use gp_plain::{Body, ItemId, Name};
use percent_encoding::{AsciiSet, NON_ALPHANUMERIC, ascii_set, ascii_str, percent_encode};
use std::alloc::{AllocError, Global};
use std::marker::Model;

/// The bytes that a word escapes: all but letters, digits, `-`, `.`, `_` and `~`.
const ESCAPED: AsciiSet = ascii_set!(
    NON_ALPHANUMERIC
        .remove(b'-')
        .remove(b'.')
        .remove(b'_')
        .remove(b'~')
);

/// How many bytes a line has room for at first. Most lines are shorter.
const ROOM: usize = 64;

/// A line that is being written, words parted by one space, behind what was written before it. Contracts see all the
/// bytes.
#[derive(Drop)]
pub struct Line {
    text: String,
}

impl Model for Line {
    ghost use Rattle.std.specs.Prelude.{List, ℕ, string_bytes};

    ghost Value = { List ℕ };

    ghost view = { λ l. string_bytes l.text };
}

fn is_plain(byte: u8) -> bool
    ensures { result ≡ is_plain byte }
{
    !ESCAPED.should_percent_encode(byte)
}

/// Whether bytes spell themselves.
fn are_plain(bytes: &[u8]) -> bool
    ensures { result ≡ list_all is_plain bytes.now }
{
    bytes.iter().all(|byte| is_plain(*byte))
}

/// Adds bytes as a word spells them. Most need no escape, and are added at once.
fn push_bytes(text: &mut String, bytes: &[u8]) -> Result<(), AllocError>
    ensures { OnOk result (string_bytes text.new ≡ string_bytes text.old ++ word bytes.now) }
{
    match bytes {
        [] => text.push_str("!"),
        _ if are_plain(bytes) => text.push_str(ascii_str(bytes)),
        _ => percent_encode(bytes, ESCAPED).append_to(text),
    }
}

/// Adds names, parted by commas.
fn push_names(text: &mut String, names: &[Name]) -> Result<(), AllocError>
    ensures { OnOk result (string_bytes text.new ≡ string_bytes text.old ++ names_word names.now) }
{
    match names {
        [] => Ok(()),
        [name] => push_bytes(text, name.bytes()),
        [name, rest @ ..] => {
            push_bytes(text, name.bytes())?;
            text.push(',')?;
            push_names(text, rest)
        }
    }
}

impl Line {
    /// No word yet, behind a text.
    pub fn behind(text: String) -> Line
        ensures { result ≡ string_bytes text }
    {
        Line { text }
    }

    /// No word yet, behind nothing.
    pub fn empty(alloc: Global) -> Result<Line, AllocError>
        ensures { IfOk result (λ line. line ≡ []) }
    {
        let text = String::with_capacity(alloc, ROOM)?;
        Ok(Line { text })
    }

    /// A line of one word.
    pub fn new(alloc: Global, first: &str) -> Result<Line, AllocError>
        ensures { IfOk result (λ line. line ≡ first.now) }
    {
        Line::empty(alloc)?.begun(first)
    }

    /// The line begun with a word.
    pub fn begun(self, first: &str) -> Result<Line, AllocError>
        ensures { IfOk result (λ line. line ≡ self ++ first.now) }
    {
        let mut text = self.text;
        text.push_str(first)?;
        Ok(Line { text })
    }

    /// The line with one more word, which needs no escape.
    pub fn word(self, more: &str) -> Result<Line, AllocError>
        ensures { IfOk result (λ line. line ≡ self ++ 32 ∷ more.now) }
    {
        let mut text = self.text;
        text.push(' ')?;
        text.push_str(more)?;
        Ok(Line { text })
    }

    /// The line with a number.
    pub fn number(self, number: u64) -> Result<Line, AllocError>
        ensures { IfOk result (λ line. line ≡ self ++ 32 ∷ decimal number) }
    {
        let mut text = self.text;
        write!(text, " {number}")?;
        Ok(Line { text })
    }

    /// The line with bytes.
    pub fn bytes(self, bytes: &[u8]) -> Result<Line, AllocError>
        ensures { IfOk result (λ line. line ≡ self ++ 32 ∷ word bytes.now) }
    {
        let mut text = self.text;
        text.push(' ')?;
        push_bytes(&mut text, bytes)?;
        Ok(Line { text })
    }

    /// The line with names, parted by commas.
    pub fn names(self, names: &[Name]) -> Result<Line, AllocError>
        ensures { IfOk result (λ line. line ≡ self ++ 32 ∷ names_word names.now) }
    {
        let mut text = self.text;
        text.push(' ')?;
        push_names(&mut text, names)?;
        Ok(Line { text })
    }

    /// The line with an id, where there is one.
    pub fn id(self, id: Option<&ItemId>) -> Result<Line, AllocError>
        ensures { IfOk result (λ line. line ≡ self ++ 32 ∷ id_word (option_map (λ own. own.now) id.entry)) }
    {
        match id {
            Some(id) => self.bytes(id.bytes()),
            None => self.word("!"),
        }
    }

    /// The line ended, and another one begun with a word.
    pub fn next(self, first: &str) -> Result<Line, AllocError>
        ensures { IfOk result (λ line. line ≡ self ++ 10 ∷ first.now) }
    {
        let mut text = self.text;
        text.push('\n')?;
        text.push_str(first)?;
        Ok(Line { text })
    }

    /// The bytes of the line, without a line feed.
    pub fn into_body(self) -> Body
        ensures { result ≡ self }
    {
        Body::from_vec(self.text.into_bytes())
    }

    /// The text with the line and its line feed.
    pub fn ended(self) -> Result<String, AllocError>
        ensures { IfOk result (λ text. string_bytes text ≡ self ++ codes "\n") }
    {
        let mut text = self.text;
        text.push('\n')?;
        Ok(text)
    }
}
