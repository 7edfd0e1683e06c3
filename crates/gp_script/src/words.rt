ghost use Rattle.std.specs.Prelude.{◌≡◌, All, IfOk, eqb, map, min};
ghost use Rattle.std.specs.List.{fold, slice_split};
ghost use Rattle.gp_script.specs.Faults.{OnBad};
ghost use Rattle.gp_script.specs.Guess.{bytes_of, id_of, is_word, names_of, number_of, with_digit, word_at};
ghost use Rattle.gp_script.specs.Lines.{IsBytes, IsNamed, IsSomeId};

use crate::fault::LineFault;
use gp_plain::{Body, ItemId, List, Name, Names};
use percent_encoding::percent_decode;
use std::alloc::{AllocError, Global};
use std::marker::Model;

/// The words of a line: what stands before, between and after its spaces. Contracts see the list of them.
///
/// A word is read without a look at its spelling: a word that spells nothing is read as something. Whoever reads
/// a line compares it with the one spelling of what was read.
#[derive(Drop)]
pub struct Words<'a> {
    words: Vec<&'a [u8]>,
}

impl<'a> Model for Words<'a> {
    ghost use Rattle.std.specs.Prelude.{List, ℕ, map};

    ghost Value = { List (List ℕ) };

    ghost view = { λ w. map (λ word. word.now) w.words.items };
}

fn with_digit(number: u64, digit: u8) -> u64
    ensures { result ≡ with_digit number digit }
{
    number
        .saturating_mul(10)
        .saturating_add(digit.saturating_sub(b'0') as u64)
}

fn number_of(word: &[u8]) -> u64
    ensures { result ≡ number_of word.now }
{
    word.iter()
        .fold(0, |number, digit| with_digit(number, *digit))
}

fn bytes_of(alloc: Global, word: &[u8]) -> Result<Vec<u8>, AllocError>
    ensures ok { IfOk result (λ bytes. bytes.items ≡ bytes_of word.now) }
    ensures small { IfOk result (λ bytes. IsBytes bytes.items) }
{
    if word == b"!".as_slice() {
        return Ok(Vec::new(alloc));
    }
    // A word is never shorter than what it spells.
    let mut bytes = Vec::with_capacity(alloc, word.len())?;
    let decoded = percent_decode(word);
    if word.contains(&b'%') {
        decoded.append_to(&mut bytes)?;
    } else {
        bytes.extend_from_slice(word)?;
    }
    Ok(bytes)
}

fn name_of(alloc: Global, word: &[u8]) -> Result<Name, LineFault>
    ensures ok { IfOk result (λ name. name ≡ bytes_of word.now) }
    ensures made { IfOk result IsNamed }
    ensures bad { OnBad result (¬ (IsNamed (bytes_of word.now))) }
{
    match Name::from_vec(bytes_of(alloc, word)?) {
        Ok(name) => Ok(name),
        Err(_) => Err(LineFault::Bad),
    }
}

/// No line of the grammar has more words, and no event that fits more names in one.
const PARTS: usize = 8;

/// What stands before, between and after the marks.
fn parts(alloc: Global, text: &[u8], mark: u8) -> Result<Vec<&[u8]>, AllocError>
    ensures { IfOk result (λ parts. map (λ part. part.now) parts.items ≡ slice_split (λ b. eqb b mark) text.now) }
{
    let mut parts = Vec::with_capacity(alloc, PARTS)?;
    parts.extend(text.split(|byte| *byte == mark))?;
    Ok(parts)
}

fn names_of(alloc: Global, words: &[&[u8]]) -> Result<Names, LineFault>
    ensures ok { IfOk result (λ names. names ≡ map bytes_of (map (λ word. word.now) words.now)) }
    ensures made { IfOk result (All IsNamed) }
    ensures bad { OnBad result (¬ (All IsNamed (map bytes_of (map (λ word. word.now) words.now)))) }
{
    let mut names = Vec::new(alloc);
    for word in words {
        if names.push(name_of(alloc, word)?).is_err() {
            return Err(LineFault::NoMemory);
        }
    }
    Ok(List::from_vec(names))
}

impl<'a> Words<'a> {
    /// The words of a line.
    pub fn of(alloc: Global, line: &'a [u8]) -> Result<Words<'a>, AllocError>
        ensures { IfOk result (λ words. words ≡ slice_split (λ b. eqb b 32) line.now) }
    {
        Ok(Words {
            words: parts(alloc, line, b' ')?,
        })
    }

    /// The word at a place, or an empty one.
    pub fn at(&self, place: usize) -> &'a [u8]
        ensures { result.now ≡ word_at self.now place }
    {
        match self.words.get(place) {
            Some(word) => *word,
            None => b"",
        }
    }

    /// Whether the word at a place is this text.
    pub fn is(&self, place: usize, text: &[u8]) -> bool
        ensures { result ≡ is_word (word_at self.now place) text.now }
    {
        self.at(place) == text
    }

    /// The number at a place.
    pub fn number(&self, place: usize) -> u64
        ensures { result ≡ number_of (word_at self.now place) }
    {
        number_of(self.at(place))
    }

    /// The code at a place.
    pub fn code(&self, place: usize) -> u16
        ensures { result ≡ min (number_of (word_at self.now place)) 65535 }
    {
        self.number(place).min(65535) as u16
    }

    /// The bytes at a place.
    pub fn body(&self, alloc: Global, place: usize) -> Result<Body, AllocError>
        ensures ok { IfOk result (λ body. body ≡ bytes_of (word_at self.now place)) }
        ensures small { IfOk result IsBytes }
    {
        Ok(Body::from_vec(bytes_of(alloc, self.at(place))?))
    }

    /// The name at a place.
    pub fn name(&self, alloc: Global, place: usize) -> Result<Name, LineFault>
        ensures ok { IfOk result (λ name. name ≡ bytes_of (word_at self.now place)) }
        ensures made { IfOk result IsNamed }
        ensures bad { OnBad result (¬ (IsNamed (bytes_of (word_at self.now place)))) }
    {
        name_of(alloc, self.at(place))
    }

    /// The names at a place.
    pub fn names(&self, alloc: Global, place: usize) -> Result<Names, LineFault>
        ensures ok { IfOk result (λ names. names ≡ names_of (word_at self.now place)) }
        ensures made { IfOk result (All IsNamed) }
        ensures bad { OnBad result (¬ (All IsNamed (names_of (word_at self.now place)))) }
    {
        let words = parts(alloc, self.at(place), b',')?;
        names_of(alloc, words.as_slice())
    }

    /// The id at a place.
    pub fn id(&self, alloc: Global, place: usize) -> Result<ItemId, LineFault>
        ensures ok { IfOk result (λ id. id ≡ bytes_of (word_at self.now place)) }
        ensures made { IfOk result IsNamed }
        ensures bad { OnBad result (¬ (IsNamed (bytes_of (word_at self.now place)))) }
    {
        match ItemId::from_vec(bytes_of(alloc, self.at(place))?) {
            Ok(id) => Ok(id),
            Err(_) => Err(LineFault::Bad),
        }
    }

    /// The id at a place, where there is one.
    pub fn some_id(&self, alloc: Global, place: usize) -> Result<Option<ItemId>, LineFault>
        ensures ok { IfOk result (λ id. id ≡ id_of (word_at self.now place)) }
        ensures made { IfOk result IsSomeId }
        ensures bad { OnBad result (¬ (IsSomeId (id_of (word_at self.now place)))) }
    {
        if self.is(place, b"!") {
            return Ok(None);
        }
        Ok(Some(self.id(alloc, place)?))
    }
}
